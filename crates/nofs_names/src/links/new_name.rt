//! What a Link is asked, and the records that it finds.
use crate::searches::directories::NameIn;
use nofs_inode::Record;

/// A directory, and a file that gets a name in it.
#[derive(Clone, Copy)]
pub struct Both {
    pub directory: Record,
    pub file: Record,
}

/// A name in a directory, and the file that it is to name.
#[derive(Clone, Copy)]
pub struct NewName<'a> {
    pub at: NameIn<'a>,
    pub inode: u32,
    /// The generation of the file.
    pub of: u64,
}
