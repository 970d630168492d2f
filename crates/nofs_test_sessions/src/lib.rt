//! Runs of the program's call that tests make, and what they read of the files then.
//!
//! - `runs`: a run over a disk, with a source and a sink in memory
//! - `readings`: what is read of the files of images, and whose bytes they have
//!
//! Promise: each ends with a value or an error, so it is the test that judges.
#![tactic(auto)]

mod readings;
mod runs;

pub use readings::{ReadTally, count, number_in, push_bytes, scanned_and_read, see_line};
pub use runs::{LINES, SESSION, prints, run_on, run_with};
