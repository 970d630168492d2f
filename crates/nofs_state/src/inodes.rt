//! An inode that a step names: whether it is agreed, and which blocks it has.

pub(crate) mod blocks;
pub(crate) mod opened;
