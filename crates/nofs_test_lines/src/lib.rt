//! Lines of the cases that `nofs_rows` runs, by what they say: `docs/CASES.md` tells how they are written.
//!
//! - `lines`: the lines of a file, their words, numbers and bytes
//! - `laying`: images, cell by cell; `meaning`: what the definitions say of cells
//! - `disks`: what a disk is to hold, and what a crash leaves of it; `turns`: how often, and over which images
//! - `steps`, `replies`: steps and answers
//! - `outputs`: the words of a run, and what it is to print
//! - `failure`: why a case fails
//!
//! Promise: a line that says nothing that is known is told; nothing is promised of what a line means.
#![tactic(auto)]

mod disks;
mod failure;
mod laying;
mod lines;
mod meaning;
mod outputs;
mod replies;
mod steps;
mod turns;

pub use disks::{all_cells, crashed, disk_holds};
pub use failure::Failure;
pub use laying::{lay, lay_images};
pub use lines::{
    hex_bytes, lines_of, marked_bytes, number_of, place_of, range_of, words_at, words_of,
};
pub use meaning::meaning_holds;
pub use outputs::{RunEnd, command_of, end_text, is_of_run, is_right};
pub use replies::{halves, is_answer, reply_text};
pub use steps::step_of;
pub use turns::{least_images, picks_of, turns_of};
