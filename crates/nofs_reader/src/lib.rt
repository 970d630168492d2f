//! An image in bytes, read without a mount: what a name finds, what a directory has, what an inode is, and what its
//! slots hold.
//!
//! Promise: each call answers the definition of `docs/DEFINITIONS.md` on the cells of any bytes, packed, in pages or in
//! twin pages, or the first fault of the superblock; or it names a page that can't be told, of which it shows nothing.
//! It writes nothing, raises no mount number, and takes no memory, so no answer speaks of it.
//!
//! The parts, from the lowest up:
//!
//! - `bytes`, `layout`: bytes from a place on, and where the cell of a block stands
//! - `disk`: the bytes as a disk, whose reads fail where a page can't be told, and whose writes always do
//! - `reads`: its superblock, a record, a block, and what stands in a slot
//! - `chain`: whether an inode is agreed, and whether a back link is a pair
//! - `opened`: the inode that a call names, and its slots
//! - `entries`: an entry of a directory, and whether it is a pair
//! - `marks`: which inodes are agreed, where what was found is kept
//! - `stats`, `gets`, `lists`, `looks`, `usage`: the calls
//! - `laws`: that a mount of the same image answers the same
#![tactic(auto)]

mod bytes;
mod chain;
mod disk;
mod entries;
mod gets;
mod laws;
mod layout;
mod lists;
mod looks;
mod marks;
mod opened;
mod reads;
mod stats;
mod usage;

pub use disk::ImageDisk;
pub use entries::Named;
pub use gets::{Run, RunKind, get};
pub use laws::{law_entries, law_names};
pub use layout::{BadPage, Layout, layout_of};
pub use lists::{Line, NextLine, next_line};
pub use looks::{Looked, look};
pub use opened::Unread;
pub use reads::superblock;
pub use stats::{InodeStat, stat};
pub use usage::{Used, counts};
