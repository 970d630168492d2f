//! The numbers of blocks and inodes with which a device is formatted.
ghost use Rattle.std.specs.Prelude.{◌≡◌, ◌≤◌, IfNone};
ghost use Rattle.nofs_super.specs.Geometry.{format_fault, is_geometry};

/// The most blocks that a file system has.
pub const MOST_BLOCKS: u64 = 1_048_576;

/// The most inodes that a file system has.
pub const MOST_INODES: u64 = 65_536;

/// Why a device wasn't formatted.
#[derive(Clone, Copy, Debug, PartialEq, Eq)]
pub enum FormatFault {
    /// There are to be fewer blocks than `least`, the greater of 16 and `2 + inodes / 4`.
    TooSmall { least: u64 },
    /// There are to be more blocks than `most`, the lesser of 1,048,576 and the device's.
    TooLarge { most: u64 },
    /// The number of inodes isn't a multiple of 4 from 4 to 65,536.
    NotMultiple { inodes: u64 },
    /// A write or the flush failed. The format is to be run again.
    WriteFault,
    /// There was no memory for the calls. Nothing was written.
    OutOfMemory,
}

/// Why a device of this many blocks isn't formatted with these numbers.
#[tactic(auto, unfolding(crate::specs::Geometry::format_fault))]
pub fn refusal(device: u64, blocks: u64, inodes: u64) -> Option<FormatFault>
    ensures value { result ≡ format_fault device blocks inodes }
    ensures fits { IfNone result (blocks ≤ device) }
    ensures few { IfNone result (blocks ≤ 1048576) }
{
    if inodes % 4 != 0 || inodes < 4 || inodes > MOST_INODES {
        return Some(FormatFault::NotMultiple { inodes });
    }
    let least = (2 + inodes / 4).max(16);
    if blocks < least {
        return Some(FormatFault::TooSmall { least });
    }
    let most = device.min(MOST_BLOCKS);
    if blocks > most {
        return Some(FormatFault::TooLarge { most });
    }
    None
}

/// Whether a device of this many blocks is formatted with these numbers.
#[tactic(auto, unfolding(crate::specs::Geometry::is_geometry))]
pub fn accepts(device: u64, blocks: u64, inodes: u64) -> bool
    ensures { result ≡ is_geometry device blocks inodes }
{
    refusal(device, blocks, inodes).is_none()
}
