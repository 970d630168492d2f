//! The blocks that an inode owns.
ghost use Rattle.std.specs.Prelude.{◌≡◌, ◌+◌, ◌*◌, ◌<◌, length};
ghost use Rattle.nofs_ptrs.specs.Paths.{slot_limit};
ghost use Rattle.nofs_names.specs.Searches.Inodes.{Knows};
ghost use Rattle.nofs_agree.specs.Reads.{IsLast};
ghost use Rattle.nofs_state.specs.Inodes.Blocks.{MarksAll};
ghost use Rattle.nofs_names.specs.Drops.Blocks.{OwnsBlocks};

use crate::searches::inodes::ReadInode;
use nofs_agree::{LastRead, find_slot};
use nofs_disk::Disk;
use nofs_history::Refusal;
use nofs_model::{PathAnswer, Place};
use nofs_state::{FreedBlocks, mark_slots};
use std::alloc::Global;

/// The blocks of an inode.
///
/// # Errors
///
/// `OutOfMemory`, and `ReadFault` where a read failed.
pub(crate) fn owned_blocks<D: Disk>(
    alloc: Global,
    disk: &mut D,
    it: &ReadInode,
    last: &mut LastRead,
) -> Result<FreedBlocks, Refusal>
    requires known { Knows (D.state disk.old) it.now }
    requires last { IsLast (D.state disk.old) last.old }
    ensures { OwnsBlocks (D.state disk.old) (D.state disk.new) it.now.at it.now.inode last.new result }
{
    let mut owned = FreedBlocks::new(alloc, it.at.blocks);
    mark_slots(disk, &it.at, it.inode, &it.record, 0, 72, &mut owned, last)?;
    mark_far(disk, it, &mut owned, last)?;
    let end = (1 << 32) + 66;
    mark_slots(
        disk,
        &it.at,
        it.inode,
        &it.record,
        1 << 32,
        end,
        &mut owned,
        last,
    )?;
    Ok(owned)
}

// Finds the blocks of the slots below the top, where there is one.
fn mark_far<D: Disk>(
    disk: &mut D,
    it: &ReadInode,
    owned: &mut FreedBlocks,
    last: &mut LastRead,
) -> Result<(), Refusal>
    requires known { Knows (D.state disk.old) it.now }
    requires size { length owned.old ≡ it.now.at.blocks }
    requires last { IsLast (D.state disk.old) last.old }
    ensures { MarksAll (D.state disk.old)
        (D.state disk.new) it.now.at it.now.inode 72 slot_limit owned.old owned.new last.new result }
{
    match find_slot(disk, &it.at, it.inode, &it.record, Place::InRecord(9), last) {
        Ok(PathAnswer::Hole) => Ok(()),
        Ok(PathAnswer::Lost) => Ok(()),
        Ok(PathAnswer::Holds(_)) => {
            for child in 0..64 {
                mark_child(child, disk, it, owned, last)?;
            }
            Ok(())
        }
        Err(_) => Err(Refusal::ReadFault),
    }
}

// Finds the blocks of the slots below a child of the top, where there is one.
fn mark_child<D: Disk>(
    child: u64,
    disk: &mut D,
    it: &ReadInode,
    owned: &mut FreedBlocks,
    last: &mut LastRead,
) -> Result<(), Refusal>
    requires child { child < 64 }
    requires known { Knows (D.state disk.old) it.now }
    requires size { length owned.old ≡ it.now.at.blocks }
    requires last { IsLast (D.state disk.old) last.old }
    ensures { MarksAll (D.state disk.old) (D.state disk.new) it.now.at it.now.inode (72 + 64 * child)
        (72 + 64 * (child + 1)) owned.old owned.new last.new result }
{
    let place = Place::UnderRecord {
        at: 9,
        place: child,
    };
    match find_slot(disk, &it.at, it.inode, &it.record, place, last) {
        Ok(PathAnswer::Hole) => Ok(()),
        Ok(PathAnswer::Lost) => Ok(()),
        Ok(PathAnswer::Holds(_)) => {
            let from = 72 + 64 * child;
            mark_slots(
                disk,
                &it.at,
                it.inode,
                &it.record,
                from,
                from + 64,
                owned,
                last,
            )
        }
        Err(_) => Err(Refusal::ReadFault),
    }
}
