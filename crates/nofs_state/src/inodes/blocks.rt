//! The blocks in some slots of an inode.
ghost use Rattle.std.specs.Prelude.{◌≡◌, ◌≤◌, ◌<◌, ℕ, true, length, slice_set, IfErr, IsTrue, OnOk};
ghost use Rattle.nofs_history.specs.declared.machine.replies.Refusal.TheVariants as refusal;
ghost use Rattle.nofs_ptrs.specs.Paths.{is_slot};
ghost use Rattle.nofs_agree.specs.Reads.{IsLast, KnowsInode};
ghost use Rattle.nofs_state.specs.Inodes.Blocks.{Marks, MarksAll};

use crate::books::freed::FreedBlocks;
use nofs_agree::{LastRead, find_slot};
use nofs_disk::Disk;
use nofs_history::Refusal;
use nofs_inode::Record;
use nofs_model::{PathAnswer, place_of};
use nofs_super::SuperBlock;

/// Adds the blocks of some slots of an inode to those that are freed.
///
/// # Errors
///
/// `ReadFault` where a read failed, and `OutOfMemory`.
pub fn mark_slots<D: Disk>(
    disk: &mut D,
    at: &SuperBlock,
    inode: u32,
    it: &Record,
    from: u64,
    to: u64,
    owned: &mut FreedBlocks,
    last: &mut LastRead,
) -> Result<(), Refusal>
    requires known { KnowsInode (D.state disk.old) at.now inode it.now }
    requires slots { (k : ℕ) → from ≤ k → k < to → IsTrue (is_slot k) }
    requires order { from ≤ to }
    requires size { length owned.old ≡ at.now.blocks }
    requires last { IsLast (D.state disk.old) last.old }
    ensures { MarksAll (D.state disk.old) (D.state disk.new) at.now inode from to owned.old owned.new last.new result }
{
    for slot in from..to {
        mark_slot(disk, at, inode, it, slot, owned, last)?;
    }
    Ok(())
}

// Adds the block of a slot, where it holds.
fn mark_slot<D: Disk>(
    disk: &mut D,
    at: &SuperBlock,
    inode: u32,
    it: &Record,
    slot: u64,
    owned: &mut FreedBlocks,
    last: &mut LastRead,
) -> Result<(), Refusal>
    requires known { KnowsInode (D.state disk.old) at.now inode it.now }
    requires slot { IsTrue (is_slot slot) }
    requires size { length owned.old ≡ at.now.blocks }
    requires last { IsLast (D.state disk.old) last.old }
    ensures { Marks (D.state disk.old) (D.state disk.new) at.now inode slot owned.old owned.new last.new result }
{
    match find_slot(disk, at, inode, it, place_of(slot), last) {
        Ok(PathAnswer::Holds(pointer)) => add_block(owned, pointer.block),
        Ok(PathAnswer::Hole) => Ok(()),
        Ok(PathAnswer::Lost) => Ok(()),
        Err(_) => Err(Refusal::ReadFault),
    }
}

fn add_block(owned: &mut FreedBlocks, block: u64) -> Result<(), Refusal>
    requires { block < length owned.old }
    ensures added { OnOk result (owned.new ≡ slice_set owned.old block true) }
    ensures refused { IfErr result (λ why. why ≡ refusal.OutOfMemory) }
{
    match owned.add(block) {
        Ok(()) => Ok(()),
        Err(_) => Err(Refusal::OutOfMemory),
    }
}
