//! A name with the entry that it finds.
use crate::searches::directories::NameIn;
use crate::searches::slots::Paired;
use nofs_inode::Record;

/// A name in a directory, and the entry that it finds there.
#[derive(Clone, Copy)]
pub struct NamedPair<'a> {
    pub at: NameIn<'a>,
    /// The record of the directory.
    pub it: Record,
    pub found: Paired,
}
