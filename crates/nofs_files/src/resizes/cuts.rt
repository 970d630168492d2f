//! What is cut off a file: the blocks that go, and the cells that stay.
ghost use Rattle.std.specs.Prelude.{◌≡◌, ◌+◌, ◌*◌, ◌-◌, ◌<◌, ◌≤◌, ℕ, length, true};
ghost use Rattle.nofs_ptrs.specs.Paths.{slot_limit};
ghost use Rattle.nofs_disk.specs.Pointer.{is_null};
ghost use Rattle.nofs_ptrs.specs.Cells.{pointer_at};
ghost use Rattle.nofs_inode.specs.InodeRecords.{largest_size};
ghost use Rattle.nofs_model.specs.Places.{IsPlace, place_path};
ghost use Rattle.nofs_agree.specs.Reads.{IsLast, KnowsInode};
ghost use Rattle.nofs_files.specs.Resizes.{CutsBlock, FindsEdge, FindsFar, FindsTail, MarksCut, cut_record};
ghost use Rattle.nofs_files.specs.Resizes.{first_cut, kept_pointer, kept_slots};

use crate::puts::content::trim;
use crate::reads::files::find_content;
use nofs_agree::{LastRead, PathAnswer, find_slot};
use nofs_disk::{Cell, Disk, Failed, Pointer};
use nofs_history::Refusal;
use nofs_inode::Record;
use nofs_model::Place;
use nofs_ptrs::{SLOT_LIMIT, write_pointer};
use nofs_state::{FreedBlocks, mark_slots};
use nofs_super::SuperBlock;
use std::alloc::Global;

/// A block, and the cell that it gets.
#[derive(Drop)]
pub struct NewCell {
    pub block: u64,
    pub cell: Cell,
}

/// The blocks of pointers that stay and are cut inside: the leaf or a child, and the top.
#[derive(Drop)]
pub struct Edge {
    pub below: Option<NewCell>,
    pub above: Option<NewCell>,
}

/// How many slots of a file stay, where its size changes.
pub(crate) fn kept_slots(old: u64, size: u64) -> u64
    requires old { old ≤ largest_size }
    requires size { size ≤ largest_size }
    ensures kept { result ≡ kept_slots old size }
    ensures within { result ≤ slot_limit }
{
    ((old + 1023) / 1024).min((size + 1023) / 1024)
}

// The number of the first block of pointers that goes.
fn first_cut(kept: u64) -> u64
    requires { kept ≤ slot_limit }
    ensures first { result ≡ first_cut kept }
    ensures within { (4294967296 ≤ result) × (result ≤ 4294967362) }
{
    if kept <= 8 {
        1 << 32
    } else if kept <= 72 {
        (1 << 32) + 1
    } else {
        (1 << 32) + 2 + (kept - 9) / 64
    }
}

/// The blocks of the slots that go.
///
/// # Errors
///
/// `OutOfMemory`, and `ReadFault` where a read failed.
pub(crate) fn mark_cut<D: Disk>(
    alloc: Global,
    disk: &mut D,
    at: &SuperBlock,
    inode: u32,
    it: &Record,
    last: &mut LastRead,
    kept: u64,
) -> Result<FreedBlocks, Refusal>
    requires known { KnowsInode (D.state disk.old) at.now inode it.now }
    requires kept { kept ≤ slot_limit }
    requires last { IsLast (D.state disk.old) last.old }
    ensures { MarksCut (D.state disk.old) (D.state disk.new) at.now inode kept last.new result }
{
    let mut freed = FreedBlocks::new(alloc, at.blocks);
    match mark_slots(disk, at, inode, it, kept, SLOT_LIMIT, &mut freed, last) {
        Ok(()) => {}
        Err(why) => return Err(why),
    }
    let first = first_cut(kept);
    match mark_slots(disk, at, inode, it, first, (1 << 32) + 66, &mut freed, last) {
        Ok(()) => Ok(freed),
        Err(why) => Err(why),
    }
}

// Takes away the pointers from a place on.
fn cut_pointers(payload: &mut [u8; 1024], from: u64)
    requires { from ≤ 64 }
    ensures kept { (n : ℕ) → n < from → n < 64 → pointer_at payload.new n ≡ pointer_at payload.old n }
    ensures cut { (n : ℕ) → from ≤ n → n < 64 → is_null (pointer_at payload.new n) ≡ true }
{
    for place in from..64 {
        write_pointer(payload, place as u32, Pointer::NULL);
    }
}

// The block of pointers in a slot, without the pointers from a place on. `None` where the slot is
// empty, and a refusal where it is lost: no slot under it can be read.
fn cut_block<D: Disk>(
    disk: &mut D,
    at: &SuperBlock,
    inode: u32,
    it: &Record,
    last: &mut LastRead,
    place: Place,
    from: u64,
    slot: u64,
) -> Result<Option<NewCell>, Refusal>
    requires known { KnowsInode (D.state disk.old) at.now inode it.now }
    requires place { IsPlace place }
    requires from { from ≤ 64 }
    requires last { IsLast (D.state disk.old) last.old }
    ensures { CutsBlock (D.state disk.old) (D.state disk.new) at.now inode
        (place_path place) from slot last.new result }
{
    let found = match find_slot(disk, at, inode, it, place, last) {
        Ok(found) => found,
        Err(_) => return Err(Refusal::ReadFault),
    };
    match found {
        PathAnswer::Hole => Ok(None),
        PathAnswer::Lost => Err(Refusal::LostSlot { slot }),
        PathAnswer::Holds(pointer) => {
            let mut cell = last.cell;
            cut_pointers(&mut cell.payload, from);
            Ok(Some(NewCell {
                block: pointer.block,
                cell,
            }))
        }
    }
}

// The top and its last child, of a file that keeps slots under a child.
fn far_edge<D: Disk>(
    disk: &mut D,
    at: &SuperBlock,
    inode: u32,
    it: &Record,
    last: &mut LastRead,
    kept: u64,
) -> Result<Edge, Refusal>
    requires known { KnowsInode (D.state disk.old) at.now inode it.now }
    requires kept { (72 < kept) × (kept ≤ slot_limit) }
    requires last { IsLast (D.state disk.old) last.old }
    ensures { FindsFar (D.state disk.old) (D.state disk.new) at.now inode kept last.new result }
{
    let child = (kept - 73) / 64;
    let first = 72 + 64 * child;
    let above = match cut_block(disk, at, inode, it, last, Place::InRecord(9), child + 1, 72) {
        Ok(above) => above,
        Err(why) => return Err(why),
    };
    let place = Place::UnderRecord {
        at: 9,
        place: child,
    };
    match cut_block(disk, at, inode, it, last, place, kept - first, first) {
        Ok(below) => Ok(Edge { below, above }),
        Err(why) => Err(why),
    }
}

/// The blocks of pointers that are cut inside.
///
/// # Errors
///
/// `LostSlot` where one of them is lost, and `ReadFault` where a read failed.
pub(crate) fn find_edge<D: Disk>(
    disk: &mut D,
    at: &SuperBlock,
    inode: u32,
    it: &Record,
    last: &mut LastRead,
    kept: u64,
) -> Result<Edge, Refusal>
    requires known { KnowsInode (D.state disk.old) at.now inode it.now }
    requires kept { kept ≤ slot_limit }
    requires last { IsLast (D.state disk.old) last.old }
    ensures { FindsEdge (D.state disk.old) (D.state disk.new) at.now inode kept last.new result }
{
    if kept <= 8 {
        return Ok(Edge {
            below: None,
            above: None,
        });
    }
    let from = kept.min(72) - 8;
    let below = match cut_block(disk, at, inode, it, last, Place::InRecord(8), from, 8) {
        Ok(below) => below,
        Err(why) => return Err(why),
    };
    if kept <= 72 {
        return Ok(Edge { below, above: None });
    }
    far_edge(disk, at, inode, it, last, kept)
}

/// The block in which an old end lies that a file does not shrink below, with zeros behind that end.
///
/// # Errors
///
/// `Failed` where a read failed.
pub(crate) fn find_tail<D: Disk>(
    disk: &mut D,
    at: &SuperBlock,
    inode: u32,
    it: &Record,
    last: &mut LastRead,
    size: u64,
) -> Result<Option<NewCell>, Failed>
    requires known { KnowsInode (D.state disk.old) at.now inode it.now }
    requires old { it.now.size ≤ largest_size }
    requires last { IsLast (D.state disk.old) last.old }
    ensures { FindsTail (D.state disk.old) (D.state disk.new) at.now inode it.now.size size last.new result }
{
    let end = it.size % 1024;
    if size < it.size || end == 0 {
        return Ok(None);
    }
    let found = match find_content(disk, last, at, inode, it, it.size / 1024) {
        Ok(found) => found,
        Err(failed) => return Err(failed),
    };
    match found {
        PathAnswer::Hole => Ok(None),
        PathAnswer::Lost => Ok(None),
        PathAnswer::Holds(pointer) => {
            let mut cell = last.cell;
            trim(&mut cell.payload, end as usize);
            Ok(Some(NewCell {
                block: pointer.block,
                cell,
            }))
        }
    }
}

// A pointer where it stays.
fn kept_pointer(it: Pointer, stays: bool) -> Pointer
    ensures { result ≡ kept_pointer it stays }
{
    if stays { it } else { Pointer::NULL }
}

/// The record with another size and without the pointers that are cut off.
pub(crate) fn cut_record(it: &Record, size: u64, kept: u64) -> Record
    requires { length it.now.direct ≡ 8 }
    ensures { result ≡ cut_record it.now size kept }
{
    let mut direct = it.direct;
    let first = kept.min(8) as usize;
    direct[first..].fill(Pointer::NULL);
    Record {
        size,
        direct,
        leaf: kept_pointer(it.leaf, kept > 8),
        top: kept_pointer(it.top, kept > 72),
        ..*it
    }
}
