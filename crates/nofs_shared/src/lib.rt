//! A mount behind the turn, and passes by which several callers make steps at it.
//!
//! Promise: each caller's steps stand in the one history once each, in order. From its beginning to its end the mount
//! keeps its one invariant (`specs/Mount/Invariant.antt`), and mounts with crashes between them are lives of which the
//! laws of a crash speak.
//!
//! The parts, from the lowest up:
//!
//! - `acts`: each step by its kind: the call of the core that makes it, and the room in the history that it needs.
//! - `index`: names that were found or made, and the files to which they lead.
//! - `mount`: a mounted disk with its history: it begins, makes steps, looks at elements, writes out, and ends.
//! - `passes`: the mount behind a turn, with a pass for each caller.
//! - `laws`: mounts with crashes between them.
//!
//! `specs/` and `proofs/On..` have a folder or a file for each part.
#![tactic(auto)]

mod acts;
mod index;
mod laws;
mod mount;
mod passes;

pub use laws::{law_comes_after, law_last_flush, law_mount_life, law_mounts};
pub use mount::mount::{BeginFault, Mount};
pub use mount::serves::Serves;
pub use passes::shared_mount::{ShareFault, SharedMount, SharedOut};
pub use passes::steps::{BusyStep, SharedPass};
