//! The core of a mount: its device, and what it keeps in memory.
//!
//! Promise: the maps say what the machine knows, and each call changes them as the machine does. Between two steps the
//! one invariant of a mount holds (`specs/Cores/Invariant.antt`), and each way in which a step can end keeps it.
//!
//! The parts, from the lowest up:
//!
//! - `books`: which inodes and blocks were examined, which of them are free, the next stamp, and the history.
//! - `cores`: a mounted disk with its books, and the verdicts that it gets by the disk.
//! - `inodes`: the file or directory that a step names, and the blocks in its slots.
//! - `writes`: the writes of one step, a changed pointer among them, and how a step that may claim has ended.
//!
//! A folder of `specs/` has the words of a part's contracts, and `proofs/On..` its lemmas. What each step leaves is in
//! `specs/Cores/Steps.antt`.
#![tactic(auto)]

mod books;
mod cores;
mod inodes;
mod writes;

pub use books::freed::FreedBlocks;
pub use books::maps::{Books, Counts, InodeClaim, Room};
pub use cores::mounted_disk::Core;
pub use inodes::blocks::mark_slots;
pub use inodes::opened::{Opened, open_inode};
pub use writes::cells::{write_four, write_one, write_three, write_two};
pub use writes::ends::{Ended, refused, table_block};
pub use writes::pointers::{SlotCells, Spot};
