//! What a Make is asked, and the directory that it goes into.
use nofs_inode::{FileKind, Record};

/// What is made, and the directory that it goes into.
#[derive(Clone, Copy)]
pub struct NewFile {
    pub kind: FileKind,
    pub directory: u32,
    pub generation: u64,
    /// The record of the directory.
    pub it: Record,
}
