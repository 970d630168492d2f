//! What the steps of a walk tell.
//!
//! Promise: plain data: what is said of it stands with the steps.
use nofs_history::NameList;

/// A file or a directory: its inode, with the generation that tells it from an earlier one.
#[derive(Clone, Copy)]
pub struct InodeHandle {
    pub inode: u32,
    pub generation: u64,
}

/// What a list gives of a directory: its next slot that isn't a hole.
#[derive(Drop)]
pub enum NextSlot {
    Names(u64, NameList),
    LostNames(u64),
    NoMore,
}

/// What a slot has, as far as a report wants to know.
#[derive(Clone, Copy)]
pub enum SlotState {
    /// Content, or nothing was ever put there.
    Kept,
    Lost,
    /// No file has such a slot.
    NoSlot,
}
