//! Small instances of the laws, each the contract of a function: their premises are met by real disks of 16 blocks.
//!
//! Promise: the disks of which the laws speak are there, with all the premises of each law. One image shows what the
//! promise refuses.
//!
//! The parts, from the lowest up:
//!
//! - `steps`: instances of the laws of steps on files, of the maps and of the stamps.
//! - `names`: instances of the laws of steps on names.
//! - `numbers`: instances of the laws of homes, numbers and verdicts.
//! - `crashes`: instances of the laws of a crash and of the machine.
//! - `lives`: instances of the laws of lives, paths and moves.
//! - `mounts`: a disk that is formatted and mounted, one Put at it, a crash, and the mount after it.
//!
//! `Disks` in `specs/` and `proofs/` has the disks themselves; the other folders bear the names of these parts.
#![tactic(auto)]

mod crashes;
mod lives;
mod mounts;
mod names;
mod numbers;
mod steps;

pub use crashes::{
    law_cases, law_history_cases, law_machine_cases, law_mark_cases, law_stage_cases,
};
pub use lives::{law_begin_cases, law_move_cases, law_path_cases, law_refused_case};
pub use mounts::crashes::{second_mount, two_mounts};
pub use mounts::mounts::{Unmade, formatted_put};
pub use names::law_name_cases;
pub use numbers::{
    law_cell_cases, law_home_cases, law_number_cases, law_place_cases, law_step_cases,
    law_verdict_cases,
};
pub use steps::{law_file_cases, law_state_cases};
