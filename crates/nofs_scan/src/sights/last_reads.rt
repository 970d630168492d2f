//! The blocks that were read last while elements are looked at, each use of a block in a place of its own.
//!
//! Promise: a look finds what it would find by reading each block anew, since it is one turn, in which the disk stays.
//! Elements beside one another share a record and the blocks above, which are then read once.

use nofs_agree::LastRead;
use nofs_inode::{FREE_RECORD, Record};

/// The last reads of one look.
#[derive(Drop)]
pub struct LastReads {
    /// An element's own block.
    pub own: LastRead,
    /// A block of the inode table.
    pub table: LastRead,
    /// The inode whose record was read last. At first it is 0, the number of no inode, whose record is a free one.
    pub inode: u32,
    /// Its record.
    pub in_table: Record,
    /// The upper block above a slot.
    pub upper: LastRead,
    /// The lower one.
    pub lower: LastRead,
}

impl LastReads {
    /// No block was read yet.
    pub const NONE: LastReads = LastReads {
        own: LastRead::NONE,
        table: LastRead::NONE,
        inode: 0,
        in_table: FREE_RECORD,
        upper: LastRead::NONE,
        lower: LastRead::NONE,
    };
}
