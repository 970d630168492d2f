//! Why a call has no answer, as a number.
//!
//! Promise: each cause has a number of its own, which is not 0.
ghost use Rattle.std.specs.Prelude.{◌≡◌, ◌≤◌};
ghost use Rattle.nofs_reader_c.specs.Codes.{fault_code, unread_code};

use nofs_reader::Unread;
use nofs_super::MountFault;

/// The number of a cause.
pub(crate) fn unread_code(why: Unread) -> u32
    ensures code { result ≡ unread_code why }
    ensures some { 1 ≤ result }
{
    match why {
        Unread::NoImage(fault) => fault_code(fault),
        Unread::NoInode => 7,
        Unread::NotDirectory => 8,
        Unread::IsDirectory => 9,
        Unread::TooLarge => 10,
        Unread::NoRoom => 11,
        Unread::BadPage(_) => 15,
    }
}

/// The number of a fault of the superblock.
pub(crate) fn fault_code(fault: MountFault) -> u32
    ensures code { result ≡ fault_code fault }
    ensures some { 1 ≤ result }
{
    match fault {
        MountFault::BadMagic { found: _ } => 1,
        MountFault::BadVersion { found: _ } => 2,
        MountFault::BadRest { at: _ } => 3,
        MountFault::BadGeometry {
            blocks: _,
            inodes: _,
        } => 4,
        MountFault::DeviceTooSmall { has: _ } => 5,
        MountFault::MountsSpent { found: _ } => 6,
        MountFault::ReadFault => 12,
        MountFault::WriteFault => 13,
        MountFault::OutOfMemory => 14,
    }
}
