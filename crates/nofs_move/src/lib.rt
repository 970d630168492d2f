//! The durable move of a file between directories, and what it promises of a crash.
//!
//! Promise: a move makes just the steps of the command. Wherever its entries stand in a history, among
//! those of other callers who leave its two names alone, every image that a crash may leave has the file
//! under one of the names from the end of the first flush on, and under the new one from the end of the
//! second.
#![tactic(auto)]

mod laws;
mod mover;
mod paths;
mod steps;

pub use laws::{law_move, law_move_run};
pub use mover::move_file;
pub use steps::law_move_steps;
