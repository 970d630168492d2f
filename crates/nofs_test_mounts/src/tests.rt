//! The tests, by what they test, with what they share.

mod mounts;
mod passes;
mod verdicts;
mod write_outs;
