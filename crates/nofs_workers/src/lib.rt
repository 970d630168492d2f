//! Workers that make the steps of a run, each through a way of its own to the mount.
//!
//! Promise: a user makes just the steps that its commands ask for, in order. A sweeper makes one step
//! for each place of its order. A flusher writes out as often as it was told to, and makes no step.
//! Each ends early for want of memory, and a flusher at a fault, and then tells so.
//!
//! - `gate`, `batches`: the ways to a mount: with a gate before each step, and with looks at several elements
//! - `course`, `orders`: what a sweep goes along
//! - `tasks`, `sweep`, `sweepers`: how a sweep goes on, batch by batch, and the sweepers of inodes and of blocks
//! - `user`, `flusher`: the worker that runs a user's commands, and the one that writes dirty blocks out
#![tactic(auto)]

mod batches;
mod course;
mod flusher;
mod gate;
mod orders;
mod sweep;
mod sweepers;
mod tasks;
mod user;

pub use batches::{Batches, see_of};
pub use course::Course;
pub use flusher::{Flusher, WritesOut};
pub use gate::{Gate, Gated, OpenGate};
pub use orders::{Downwards, Upwards};
pub use sweepers::{BlockSweeper, InodeSweeper};
pub use tasks::{Inodes, Script};
pub use user::{UserEnd, UserWorker};
