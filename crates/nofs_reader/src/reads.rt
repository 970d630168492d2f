//! The superblock, a record, a block and a slot of an image, by the checks of `nofs_super` and `nofs_agree` over its
//! disk.
//!
//! Promise: each is that of the image. A read fails only where a page can't be told, and then that one is named.
ghost use Rattle.std.specs.Prelude.{◌≡◌, ◌↔◌, ◌<◌, IfErr, IfOk, IsTrue, None, Ok, OnOk};
ghost use Rattle.nofs_disk.specs.Disk.{cell_at};
ghost use Rattle.nofs_agree.specs.Reads.{IsAt, IsLast, KnowsInode};
ghost use Rattle.nofs_model.specs.Slots as slots;
ghost use Rattle.nofs_ptrs.specs.Paths as paths;
ghost use Rattle.nofs_super.specs.declared.superblock.MountFault.TheVariants as mount;
ghost use Rattle.nofs_reader.specs.Image.{disk_of, image_of};
ghost use Rattle.nofs_reader.specs.Answers.{IsAnswered, image_unread, superblock_of};
ghost use Rattle.nofs_reader.specs.Layouts.{IsBadPage};

use crate::disk::ImageDisk;
use crate::layout::BadPage;
use crate::opened::Unread;
use nofs_agree::{LastRead, PathAnswer, check_path, read_block, read_inode};
use nofs_inode::Record;
use nofs_super::{MountFault, SuperBlock, read_super};

/// The superblock of the image.
///
/// # Errors
///
/// `NoImage` with the first fault of the table in `docs/FORMAT.md` that block 0 has on a device of 1,048,576 blocks;
/// `BadPage` where its page can't be told.
pub fn superblock(bytes: &[u8]) -> Result<SuperBlock, Unread>
    ensures unread { IsAnswered bytes.now (image_unread (superblock_of (image_of bytes.now)) None) result }
    ensures value { IfOk result (λ at. superblock_of (image_of bytes.now) ≡ Ok at) }
    ensures at { IfOk result (λ at. IsAt (disk_of bytes.now) at) }
{
    let mut disk = ImageDisk::over(bytes);
    match read_super(&mut disk) {
        Ok(at) => Ok(at),
        Err(fault) => {
            if is_read_fault(fault) {
                Err(Unread::BadPage(disk.bad_page(bytes)))
            } else {
                Err(Unread::NoImage(fault))
            }
        }
    }
}

fn is_read_fault(fault: MountFault) -> bool
    ensures { IsTrue result ↔ fault ≡ mount.ReadFault }
{
    fault == MountFault::ReadFault
}

/// The record of an inode.
pub(crate) fn record(
    bytes: &[u8],
    at: &SuperBlock,
    inode: u32,
    last: &mut LastRead,
) -> Result<Record, BadPage>
    requires numbers { IsAt (disk_of bytes.now) at.now }
    requires last { IsLast (disk_of bytes.now) last.old }
    ensures known { IfOk result (λ it. KnowsInode (disk_of bytes.now) at.now inode it) }
    ensures last { OnOk result (IsLast (disk_of bytes.now) last.new) }
    ensures bad { IfErr result (IsBadPage bytes.now) }
{
    let mut disk = ImageDisk::over(bytes);
    match read_inode(&mut disk, at, inode, last) {
        Ok(it) => Ok(it),
        Err(_) => Err(disk.bad_page(bytes)),
    }
}

/// Reads the cell of a block, where it isn't the one that was read last.
pub(crate) fn cell(bytes: &[u8], block: u64, last: &mut LastRead) -> Result<(), BadPage>
    requires there { block < 1048576 }
    requires last { IsLast (disk_of bytes.now) last.old }
    ensures cell { OnOk result (last.new.cell ≡ cell_at (image_of bytes.now) block) }
    ensures last { OnOk result (IsLast (disk_of bytes.now) last.new) }
    ensures bad { IfErr result (IsBadPage bytes.now) }
{
    let mut disk = ImageDisk::over(bytes);
    match read_block(&mut disk, block, last) {
        Ok(()) => Ok(()),
        Err(_) => Err(disk.bad_page(bytes)),
    }
}

/// What stands in a slot of an inode.
pub(crate) fn path(
    bytes: &[u8],
    at: &SuperBlock,
    inode: u32,
    slot: u64,
) -> Result<PathAnswer, BadPage>
    requires numbers { IsAt (disk_of bytes.now) at.now }
    requires slot { IsTrue (paths.is_slot slot) }
    ensures found { IfOk result (λ it. it ≡ slots.find (image_of bytes.now) inode (paths.path_of slot)) }
    ensures bad { IfErr result (IsBadPage bytes.now) }
{
    let mut disk = ImageDisk::over(bytes);
    match check_path(&mut disk, at, inode, slot) {
        Ok(found) => Ok(found),
        Err(_) => Err(disk.bad_page(bytes)),
    }
}
