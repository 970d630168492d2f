//! Mounts of disks, of which blocks were examined.

use nofs_disk::Disk;
use nofs_history::{BLOCK_SWEEPER, Step};
use nofs_memdisk::MemDisk;
use nofs_shared::Mount;
use std::alloc::Global;
use std::test::Fail;

/// A mount of a disk.
pub fn mounted<D: Disk + Drop>(alloc: Global, disk: D) -> Result<Mount<D>, Fail> {
    Ok(Mount::begin(alloc, disk, 0).ok().ok_or("not mounted")?)
}

fn examine(alloc: Global, mount: &mut Mount<MemDisk>, block: u64) {
    mount.step(alloc, BLOCK_SWEEPER, Step::SeeBlock { block });
}

/// A mount of a disk, of which these blocks were examined.
pub fn examined(alloc: Global, disk: MemDisk, from: u64, to: u64) -> Result<Mount<MemDisk>, Fail> {
    let mut mount = mounted(alloc, disk)?;
    for block in from..to {
        examine(alloc, &mut mount, block);
    }
    Ok(mount)
}
