//! The check of one slot.
//!
//! Promise: it answers what stands in the slot by its definition, and reads no more than the
//! record, the blocks above the slot, and its own block.
ghost use Rattle.std.specs.Prelude.{◌≡◌, ◌<◌, IsTrue, IfOk, OnErr, OnOk};
ghost use Rattle.nofs_disk.specs.Disk.{Rose, StaysButFaults};
ghost use Rattle.nofs_ptrs.specs.Paths as paths;
ghost use Rattle.nofs_model.specs.Places.{IsPlace, place_path};
ghost use Rattle.nofs_model.specs.Slots as slots;
ghost use Rattle.nofs_agree.specs.Reads.{IsAt, IsLast, KnowsInode};
ghost use Rattle.nofs_agree.specs.Path.{FindsSlot};

use crate::reads::{LastRead, read_block, read_inode};
use nofs_disk::{Disk, Failed, Pointer, Tag};
use nofs_inode::Record;
use nofs_model::{PathAnswer, Place, is_tag, kind_in, place_of, record_pointer, slot_number};
use nofs_ptrs::read_pointer;
use nofs_super::SuperBlock;

/// What stands in a slot of an inode: it is empty, holds with its pointer, or is lost. It asks the
/// superblock of the disk, and a number that is a slot's: below 4,168 for content, 2^32 for the
/// leaf, 2^32 + 1 for the top, and the 64 behind it for the children.
///
/// # Errors
///
/// `Failed` where a read failed.
pub fn check_path<D: Disk>(
    disk: &mut D,
    at: &SuperBlock,
    inode: u32,
    slot: u64,
) -> Result<PathAnswer, Failed>
    requires numbers { IsAt (D.state disk.old) at.now }
    requires slot { IsTrue (paths.is_slot slot) }
    ensures stays { StaysButFaults (D.state disk.old) (D.state disk.new) }
    ensures found { IfOk result (λ answer. IsTrue (D.state disk.old).tells
        → answer ≡ slots.find (D.state disk.old).now inode (paths.path_of slot)) }
    ensures cause { OnErr result (Rose (D.state disk.old).faults (D.state disk.new).faults) }
    ensures no_fault { OnOk result ((D.state disk.new).faults ≡ (D.state disk.old).faults) }
{
    let mut last = LastRead::NONE;
    let it = read_inode(disk, at, inode, &mut last)?;
    find_slot(disk, at, inode, &it, place_of(slot), &mut last)
}

/// What stands in the slot at a place. Where it holds, its block is the one that was read last.
pub fn find_slot<D: Disk>(
    disk: &mut D,
    at: &SuperBlock,
    inode: u32,
    it: &Record,
    place: Place,
    last: &mut LastRead,
) -> Result<PathAnswer, Failed>
    requires known { KnowsInode (D.state disk.old) at.now inode it.now }
    requires place { IsPlace place }
    requires last { IsLast (D.state disk.old) last.old }
    ensures { FindsSlot (D.state disk.old) (D.state disk.new) at.now
        (λ X. slots.find X inode (place_path place)) last.new result }
{
    match place {
        Place::InRecord(n) => find_in_record(disk, at, inode, it, n, last),
        Place::UnderRecord { at: above, place } => {
            find_under_record(disk, at, inode, it, above, place, last)
        }
        Place::UnderChild { child, place: n } => {
            match find_under_record(disk, at, inode, it, 9, child, last)? {
                PathAnswer::Hole => Ok(PathAnswer::Hole),
                PathAnswer::Lost => Ok(PathAnswer::Lost),
                PathAnswer::Holds(_) => {
                    let pointer = read_pointer(&last.cell.payload, n as u32);
                    judge(disk, at, inode, it, place, pointer, last)
                }
            }
        }
    }
}

fn find_in_record<D: Disk>(
    disk: &mut D,
    at: &SuperBlock,
    inode: u32,
    it: &Record,
    place: u64,
    last: &mut LastRead,
) -> Result<PathAnswer, Failed>
    requires place { place < 10 }
    requires known { KnowsInode (D.state disk.old) at.now inode it.now }
    requires last { IsLast (D.state disk.old) last.old }
    ensures { FindsSlot (D.state disk.old) (D.state disk.new) at.now
        (λ X. slots.find X inode (paths.InRecord place)) last.new result }
{
    let pointer = record_pointer(it, place);
    judge(disk, at, inode, it, Place::InRecord(place), pointer, last)
}

// What stands in the slot at a place with this pointer.
fn judge<D: Disk>(
    disk: &mut D,
    at: &SuperBlock,
    inode: u32,
    it: &Record,
    place: Place,
    pointer: Pointer,
    last: &mut LastRead,
) -> Result<PathAnswer, Failed>
    requires place { IsPlace place }
    requires known { KnowsInode (D.state disk.old) at.now inode it.now }
    requires last { IsLast (D.state disk.old) last.old }
    ensures { FindsSlot (D.state disk.old) (D.state disk.new) at.now
        (λ X. slots.judged X inode (place_path place) pointer) last.new result }
{
    let Pointer { block, stamp } = pointer;
    if block == 0 && stamp == 0 {
        return Ok(PathAnswer::Hole);
    }
    if it.kind.is_none() || block < 1 + at.inodes / 4 || block >= at.blocks {
        return Ok(PathAnswer::Lost);
    }
    read_block(disk, block, last)?;
    let wanted = Tag {
        kind: kind_in(it, place),
        inode,
        generation: it.generation,
        slot: slot_number(place),
        stamp,
    };
    if is_tag(&last.cell.tag, &wanted) {
        Ok(PathAnswer::Holds(pointer))
    } else {
        Ok(PathAnswer::Lost)
    }
}

// What stands in a slot below one of the record.
fn find_under_record<D: Disk>(
    disk: &mut D,
    at: &SuperBlock,
    inode: u32,
    it: &Record,
    above: u64,
    place: u64,
    last: &mut LastRead,
) -> Result<PathAnswer, Failed>
    requires known { KnowsInode (D.state disk.old) at.now inode it.now }
    requires place { IsPlace (Place.UnderRecord above place) }
    requires last { IsLast (D.state disk.old) last.old }
    ensures { FindsSlot (D.state disk.old) (D.state disk.new) at.now
        (λ X. slots.find X inode (paths.Under (paths.InRecord above) place)) last.new result }
{
    match find_in_record(disk, at, inode, it, above, last)? {
        PathAnswer::Hole => Ok(PathAnswer::Hole),
        PathAnswer::Lost => Ok(PathAnswer::Lost),
        PathAnswer::Holds(_) => {
            let pointer = read_pointer(&last.cell.payload, place as u32);
            let here = Place::UnderRecord { at: above, place };
            judge(disk, at, inode, it, here, pointer, last)
        }
    }
}
