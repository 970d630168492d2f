//! What a user's command asks of a mount, step by step, and the line that it ends with.
//!
//! Promise: a command makes just the steps that its replies so far ask for, and ends with its line.
//!
//! The parts, from the lowest up:
//!
//! - `task`: a command as if there were always room: where it can stand, its next step, and what each reply makes of
//!   it.
//! - `progress`: the same with the steps that make room: a step that was answered Full or InodesFull is asked again.
//! - `driver`: what a command does next, by all its replies so far.
//! - `client`: commands run over the steps of a mount.
//!
//! `specs/` and `proofs/On..` have a folder or a file for each part.
#![tactic(auto)]

mod client;
mod driver;
mod progress;
mod task;

pub use client::Client;
pub use driver::drive;
pub use task::commands::{Command, CommandList, Path};
pub use task::lines::{GotPart, GotParts, Line, LineList, ListPart, ListParts};
pub use task::next::Next;
