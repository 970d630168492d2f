//! What a disk in memory may hold of each block, and the calls that it is told to fail.
//!
//! Promise: `specs/` says which cells a crash may leave of each block, after every row of calls; the functions count
//! calls and search the picks of these cells, one after the other, as they say.
//!
//! The parts, from the lowest up:
//!
//! - `call`: the calls, and which of them are to fail.
//! - `effects`: what a call leaves: the call itself, the cell, and the fault.
//! - `search`: the search through the calls for one of the cells that a block may hold.
#![tactic(auto)]

mod call;
mod effects;
mod search;

pub use call::{Call, CallCounts, CallKind, FaultAt, Pick, fault_at};
pub use effects::{count_fault, keep, put};
pub use search::{Search, choices_after, search_on};
