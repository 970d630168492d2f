//! A write-back cache: a disk over any disk, which keeps writes in memory until they are written out, in any order.
//!
//! Promise: it is a disk like the one below. It fails only where the count of faults of that one rose, and what a
//! crash leaves of the disk below is what a crash may leave of it.
//!
//! The parts, from the lowest up:
//!
//! - `dirty`: the blocks that are yet to be written, and what became of the calls.
//! - `cached`: the cached disk.
//! - `gathered`: a disk that writes nothing out between two flushes.
//!
//! `specs/Laws.antt` says that a cached disk is a disk; `proofs/On..` has the lemmas of each part.
#![tactic(auto)]

mod cached;
mod dirty;
mod gathered;

pub use cached::{CacheFault, Cached};
pub use gathered::Gathered;
