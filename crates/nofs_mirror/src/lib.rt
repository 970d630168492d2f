//! A mirror: a disk over two disks, of which one may fail for good.
//!
//! Promise: it is a disk like the two below. It fails only where the count of faults of each side that it asked rose,
//! a side is put out only in a call in which its count rose, and one side always stays in.
//!
//! The parts, from the lowest up:
//!
//! - `sides`: what a call asks of each side, which of them are in, and what became of the calls.
//! - `copying`: the lead's cells are copied onto the other.
//! - `mirror`: the mirror itself.
//!
//! `specs/Laws.antt` says that a mirror is a disk; `proofs/On..` has the lemmas of each part.
#![tactic(auto)]

mod copying;
mod mirror;
mod sides;

pub use mirror::{Mirror, MirrorFault};
pub use sides::choices::MirrorCause;
pub use sides::log::Sides;
