//! What stands in the slots of an image.
ghost use Rattle.std.specs.Prelude.{◌≡◌, ◌<◌, ◌+◌, ◌/◌, IfOk, IsTrue};
ghost use Rattle.nofs_ptrs.specs.Paths.{slot_limit};
ghost use Rattle.nofs_ptrs.specs.Paths as paths;
ghost use Rattle.nofs_model.specs.Geometry.{IsMountable};
ghost use Rattle.nofs_model.specs.Places.{InArea, IsPlace, IsRead, IsRecord, place_path};
ghost use Rattle.nofs_model.specs.Slots as slots;

use crate::image::path::PathAnswer;
use crate::image::place::{Place, place_of, slot_number};
use crate::image::tags::{is_tag, kind_in, record_pointer};
use crate::image::value::Value;
use crate::image::{cell_at, numbers_of, read_inode};
use nofs_dirent::Content;
use nofs_disk::{Cell, Pointer, Tag};
use nofs_inode::Record;
use nofs_ptrs::read_pointer;
use nofs_super::SuperBlock;
use std::alloc::{AllocError, Global};

/// The value of a slot of content, by its definition. It asks a mountable image and a slot below
/// 4,168. The error is want of memory alone.
pub fn value_of(alloc: Global, cells: &[Cell], inode: u32, slot: u64) -> Result<Value, AllocError>
    requires image { IsMountable cells.now }
    requires slot { slot < slot_limit }
    ensures { IfOk result (λ value. value ≡ slots.value cells.now inode slot) }
{
    let at = numbers_of(cells);
    match find_number(cells, &at, inode, slot) {
        PathAnswer::Hole => Ok(Value::Hole),
        PathAnswer::Lost => Ok(Value::Lost),
        PathAnswer::Holds(pointer) => {
            let block = cell_at(cells, pointer.block);
            Ok(Value::Bytes(Content::from_slice(alloc, &block.payload)?))
        }
    }
}

/// What stands in the slot with this number.
pub(crate) fn find_number(cells: &[Cell], at: &SuperBlock, inode: u32, slot: u64) -> PathAnswer
    requires numbers { IsRead cells.now at.now }
    requires slot { IsTrue (paths.is_slot slot) }
    ensures found { result ≡ slots.find cells.now inode (paths.path_of slot) }
    ensures area { InArea at.now result }
{
    let it = read_inode(cells, at, inode);
    find_slot(cells, at, inode, &it, place_of(slot))
}

// What stands in the slot at a place.
fn find_slot(cells: &[Cell], at: &SuperBlock, inode: u32, it: &Record, place: Place) -> PathAnswer
    requires known { IsRecord cells.now at.now inode it.now }
    requires place { IsPlace place }
    ensures found { result ≡ slots.find cells.now inode (place_path place) }
    ensures area { InArea at.now result }
{
    match place {
        Place::InRecord(n) => find_in_record(cells, at, inode, it, n),
        Place::UnderRecord { at: above, place } => {
            find_under_record(cells, at, inode, it, above, place)
        }
        Place::UnderChild { child, place } => find_under_child(cells, at, inode, it, child, place),
    }
}

fn find_in_record(
    cells: &[Cell],
    at: &SuperBlock,
    inode: u32,
    it: &Record,
    place: u64,
) -> PathAnswer
    requires known { IsRecord cells.now at.now inode it.now }
    requires place { place < 10 }
    ensures found { result ≡ slots.find cells.now inode (paths.InRecord place) }
    ensures area { InArea at.now result }
{
    let pointer = record_pointer(it, place);
    judge(cells, at, inode, it, Place::InRecord(place), pointer)
}

fn find_under_record(
    cells: &[Cell],
    at: &SuperBlock,
    inode: u32,
    it: &Record,
    above: u64,
    place: u64,
) -> PathAnswer
    requires known { IsRecord cells.now at.now inode it.now }
    requires place { IsPlace (Place.UnderRecord above place) }
    ensures found { result ≡ slots.find cells.now inode (paths.Under (paths.InRecord above) place) }
    ensures area { InArea at.now result }
{
    let node = find_in_record(cells, at, inode, it, above);
    let here = Place::UnderRecord { at: above, place };
    find_under(cells, at, inode, it, node, here, place)
}

fn find_under_child(
    cells: &[Cell],
    at: &SuperBlock,
    inode: u32,
    it: &Record,
    child: u64,
    place: u64,
) -> PathAnswer
    requires place { IsPlace (Place.UnderChild child place) }
    requires known { IsRecord cells.now at.now inode it.now }
    ensures found { result ≡ slots.find cells.now inode (paths.Under (paths.child child) place) }
    ensures area { InArea at.now result }
{
    let node = find_under_record(cells, at, inode, it, 9, child);
    let here = Place::UnderChild { child, place };
    find_under(cells, at, inode, it, node, here, place)
}

// What stands at a place of the block that stands in the slot above.
fn find_under(
    cells: &[Cell],
    at: &SuperBlock,
    inode: u32,
    it: &Record,
    above: PathAnswer,
    here: Place,
    place: u64,
) -> PathAnswer
    requires known { IsRecord cells.now at.now inode it.now }
    requires here { IsPlace here }
    requires place { place < 64 }
    requires above { InArea at.now above }
    ensures found { (path : paths.Path) → above ≡ slots.find cells.now inode path
        → place_path here ≡ paths.Under path place
        → result ≡ slots.find cells.now inode (paths.Under path place) }
    ensures area { InArea at.now result }
{
    match above {
        PathAnswer::Hole => PathAnswer::Hole,
        PathAnswer::Lost => PathAnswer::Lost,
        PathAnswer::Holds(node) => {
            let pointer = read_pointer(&cell_at(cells, node.block).payload, place as u32);
            judge(cells, at, inode, it, here, pointer)
        }
    }
}

// What stands in the slot at a place with this pointer.
fn judge(
    cells: &[Cell],
    at: &SuperBlock,
    inode: u32,
    it: &Record,
    place: Place,
    pointer: Pointer,
) -> PathAnswer
    requires known { IsRecord cells.now at.now inode it.now }
    requires place { IsPlace place }
    ensures found { result ≡ slots.judged cells.now inode (place_path place) pointer }
    ensures area { InArea at.now result }
{
    if pointer.block == 0 && pointer.stamp == 0 {
        return PathAnswer::Hole;
    }
    if it.kind.is_none() || pointer.block < 1 + at.inodes / 4 || pointer.block >= at.blocks {
        return PathAnswer::Lost;
    }
    let wanted = Tag {
        kind: kind_in(it, place),
        inode,
        generation: it.generation,
        slot: slot_number(place),
        stamp: pointer.stamp,
    };
    if is_tag(&cell_at(cells, pointer.block).tag, &wanted) {
        PathAnswer::Holds(pointer)
    } else {
        PathAnswer::Lost
    }
}
