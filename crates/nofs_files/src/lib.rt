//! The steps on files: Get, Stat, Flush, Put and Resize, over any disk that a mount stands on.
//!
//! Promise: each answers as the machine does, also where memory is wanting or a call of the disk fails, and leaves the
//! mount standing. What its writes leave after a crash is allowed by the entry that it adds.
//!
//! The parts, from the lowest up:
//!
//! - `reads`: the steps that change no file: Get, Stat and Flush, and the opening of a file that the others begin
//!   with.
//! - `puts`: Put. What it is asked, its content and its cells, the blocks that it claims, and a Put into a slot that
//!   has no block yet.
//! - `resizes`: Resize. What is cut off, and then the writes of the cells that stay and of the record.
//!
//! `specs/` has a file for each of these parts, and `proofs/On..` a folder of lemmas.
#![tactic(auto)]

mod puts;
mod reads;
mod resizes;

pub use nofs_history::Stat;
pub use puts::steps::put;
pub use reads::flushes::flush;
pub use reads::gets::{Got, get};
pub use reads::stats::stat;
pub use resizes::steps::resize;
