//! What a walk reports.
//!
//! Promise: each loss is named by numbers and a name that a user can look up.

use nofs_dirent::{ListOf, Name};

/// One thing that is lost.
#[derive(Debug, Drop, PartialEq, Eq)]
pub enum Loss {
    /// The content of a slot, a block of 1,024 bytes, of a file or a directory. Slots are counted from 0.
    Slot { inode: u32, slot: u64 },
    /// A name of a directory that leads to no file.
    Dead { directory: u32, name: Name },
    /// A name that an earlier name of the directory hides.
    Twice { directory: u32, name: Name },
}

/// All that is lost, in the order of the walk.
pub type Report = ListOf<Loss>;
