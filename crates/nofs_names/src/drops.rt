//! Drop: a name is taken away, and with the last one its inode, its record and its blocks.
pub(crate) mod blocks;
pub(crate) mod emptiness;
pub(crate) mod other_names;
pub(crate) mod refusals;
pub(crate) mod removal;
pub(crate) mod steps;
