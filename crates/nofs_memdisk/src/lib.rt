//! A disk in memory: it says all that a crash may leave, and fails the calls that it is told to.
//!
//! Promise: a read, a write and a flush fail exactly where `fail_at` named their kind and number,
//! `ready` and write-outs touch neither the counts nor what was named, and a crash may leave every
//! image that takes for each block one of the cells that it may hold, and no other. A disk over another
//! that finds memory only so often is that other one but in this.
//!
//! What names its faults, its calls and what a crash picks is that of `nofs_versions`, which other disks share.
//!
//! - `memory`: the disk
//! - `unready`: a disk over another that finds memory only so often
#![tactic(auto)]

mod memory;
mod unready;

pub use memory::MemDisk;
pub use nofs_versions::{CallCounts, CallKind, FaultAt, Pick};
pub use unready::Unready;
