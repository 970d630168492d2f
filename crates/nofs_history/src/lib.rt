//! The machine that the file system is: its steps, what they are answered, its history, and what a
//! history accepted.
//!
//! Promise: whoever makes steps through `Steps` gets replies that fit them, an entry that was pushed
//! to a history stays, and `accepted_of` is the list of the definition. What a crash may leave of a
//! history is defined in `specs/Allowed.antt`.
//!
//! - `machine`: the steps, their replies, and the history.
//! - `accepted`: the values that a history accepted for a slot. They are read off the files of the
//!   base in memory, by what each entry gives.
//! - `specs/`: `Machine` (what a step gives), `Refusals`, `Answers`, `Claims` and `Next` (a step of the
//!   machine), `World` (its state), `Faults` (whether the device failed), `Since`, `Marks` and `Allowed`
//!   (what a crash may leave), `Accepted` (words of the part `accepted` alone).
#![tactic(auto)]

mod accepted;
mod machine;

pub use accepted::list::accepted_of;
pub use machine::callers::{
    BLOCK_SWEEPER, FIRST_USER, FLUSHER, INODE_SWEEPER, MOST_USERS, PROGRAM,
};
pub use machine::history::{Claims, Entry1, History, NO_CLAIMS};
pub use machine::replies::{Found, NameLine, NameList, Refusal, Reply, Stat};
pub use machine::steps::{ElementKind, Step, Steps};
pub use nofs_inode::FileKind;
