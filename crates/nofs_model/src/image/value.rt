//! The value of a slot.
use nofs_dirent::Content;

/// What a slot of content says.
#[derive(Debug, PartialEq, Drop)]
pub enum Value {
    /// Nothing was written there. It is read as zeros.
    Hole,
    /// The 1,024 bytes of its block.
    Bytes(Content),
    /// A crash took what stood there.
    Lost,
}
