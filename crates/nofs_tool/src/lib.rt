//! The program's call: a command on a device, with the status, the device and the history that it ends with.
//!
//! Promise: each status says what came of the run, and wherever there is a history, the headline holds of it
//! (`specs/Runs/Headline.antt`).
//!
//! The parts, from the lowest up:
//!
//! - `begin`: the words of the program, the mount that is made for them, and the line of what went wrong.
//! - `session`: a session of users at a mount, and the counts of a scan.
//! - `drill`: users with drawn scripts, whose files are then read and compared.
//! - `visits`: one caller at work on the calling thread: a salvage, or the frames of a source.
//! - `upgrade`: an image of version 1 becomes one of version 2.
//! - `runs`: what a run ends with, by its task, and the call itself.
//!
//! `specs/` and `proofs/On..` have a folder or a file for each part.
#![tactic(auto)]

mod begin;
mod drill;
mod runs;
mod session;
mod upgrade;
mod visits;

pub use begin::lines::{FixedLine, fixed_text};
pub use begin::words::task_of;
pub use runs::outcomes::Outcome;
pub use runs::tool::tool;
