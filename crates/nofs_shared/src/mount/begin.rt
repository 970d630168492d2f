//! What a mount needs before it raises the mount number.
ghost use Rattle.nofs_shared.specs.Mount.Begin.{Prepares};

use nofs_disk::Disk;
use nofs_state::Room;
use nofs_super::{MountFault, SuperBlock, read_super};
use std::alloc::Global;

/// The superblock that was read, and the memory for its mount.
#[derive(Drop)]
pub struct Prepared {
    pub old: SuperBlock,
    pub room: Room,
}

/// Reads the superblock, and takes the memory of the mount.
pub(crate) fn prepare<D: Disk>(alloc: Global, disk: &mut D) -> Result<Prepared, MountFault>
    ensures { Prepares (D.state disk.old) (D.state disk.new) result }
{
    let old = match read_super(disk) {
        Ok(old) => old,
        Err(why) => return Err(why),
    };
    let Ok(room) = Room::new(alloc, &old) else {
        return Err(MountFault::OutOfMemory);
    };
    match disk.ready(2) {
        Ok(()) => Ok(Prepared { old, room }),
        Err(_) => Err(MountFault::OutOfMemory),
    }
}
