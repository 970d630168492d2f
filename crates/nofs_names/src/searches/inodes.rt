//! An inode with its record, and what stands in a slot of it.
ghost use Rattle.std.specs.Prelude.{◌≡◌, ◌<◌};
ghost use Rattle.nofs_ptrs.specs.Paths as paths;
ghost use Rattle.nofs_model.specs.Slots as slots;
ghost use Rattle.nofs_agree.specs.Path.{FindsSlot};
ghost use Rattle.nofs_agree.specs.Reads.{IsLast};
ghost use Rattle.nofs_names.specs.Searches.Inodes.{Knows, slot_end};

use nofs_agree::{LastRead, find_slot};
use nofs_disk::{Disk, Failed};
use nofs_inode::Record;
use nofs_model::{PathAnswer, place_of};
use nofs_super::SuperBlock;

/// An inode of the disk with these numbers, and its record.
#[derive(Clone, Copy)]
pub struct ReadInode {
    pub at: SuperBlock,
    pub inode: u32,
    pub record: Record,
}

impl ReadInode {
    /// What stands in one of the first slots. Where it holds, its block is the one that was read last.
    pub fn find<D: Disk>(
        &self,
        disk: &mut D,
        slot: u32,
        last: &mut LastRead,
    ) -> Result<PathAnswer, Failed>
        requires slot { slot < 72 }
        requires known { Knows (D.state disk.old) self.now }
        requires last { IsLast (D.state disk.old) last.old }
        ensures { FindsSlot (D.state disk.old) (D.state disk.new) self.now.at
            (λ X. slots.find X self.now.inode (paths.path_of slot)) last.new result }
    {
        let place = place_of(u64::from(slot));
        find_slot(disk, &self.at, self.inode, &self.record, place, last)
    }

    /// The slot from which on all that a directory can have are holes, for want of a leaf; 72 where it has one.
    pub fn slot_end(&self) -> u32
        ensures { result ≡ slot_end self.now.record }
    {
        if self.record.leaf.is_null() { 8 } else { 72 }
    }
}
