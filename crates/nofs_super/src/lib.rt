//! The superblock: a device is formatted, its superblock read, and its mount number raised.
//!
//! Promise: what a writer spells, the reader reads; each fault is named exactly where it is the
//! first of its table; after a format and after a raise each image of a crash is what a read gives.
#![tactic(auto)]

mod fresh;
mod geometry;
mod raise;
mod superblock;

pub use fresh::format;
pub use geometry::{FormatFault, MOST_BLOCKS, MOST_INODES};
pub use raise::raise_mount;
pub use superblock::{MAGIC, MountFault, SuperBlock, numbers_in, read_super, write_super};
