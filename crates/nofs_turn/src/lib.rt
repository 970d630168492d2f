//! The turn: a lock whose one word counts the entries of the value behind it.
//!
//! Promise: one pass at a time has the value. A section adds at most one entry, so the list behind the turn grows by
//! whole sections, and each pass has seen a beginning of it. A pass keeps the places of its own entries; no place
//! belongs to two passes, and at the end the places joined are all that were added. A call that runs a section runs
//! one, and tells what it did to the value. Nothing is promised of who comes first, or that a waiting pass ever gets
//! on. `docs/TURN.md` explains it.
//!
//! The parts, from the lowest up:
//!
//! - `rule`: what the turn's words hold, who may change what, and how passes stand in one order.
//! - `turn`: the turn and its passes, and what refused calls hand back.
//! - `making`: a turn is made with its passes.
//! - `calls`: what a pass does at the turn: look, take and give, join and close.
#![tactic(auto)]

mod calls;
mod making;
mod rule;
mod turn;

pub use rule::kept::{Kept, Section};
pub use turn::{Busy, Pass, PassesOut, Turn, TurnFault};
