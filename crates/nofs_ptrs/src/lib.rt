//! Slots, and the pointers that lead to their blocks.
//!
//! Promise: each slot has one place, and each place one slot. A pointer that is written is read
//! back, and every other byte of the cell stays.
#![tactic(auto)]

mod cell;
mod path;

pub use cell::{read_pointer, write_pointer};
pub use path::{SLOT_LIMIT, SlotPath, path_of};
