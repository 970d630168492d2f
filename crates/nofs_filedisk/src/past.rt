//! The writes and flushes of a disk in a file, for proofs alone: they tell what a crash may leave of
//! it at each moment.
//!
//! Promise: they are snapshots, which take no memory.
use nofs_disk::Cell;
use std::snapshot::Snapshot;

/// A write or flush. A write that failed was not taken, and a flush that failed settled nothing.
#[derive(Drop)]
pub enum FileCall {
    Write {
        block: u64,
        cell: Snapshot<Cell>,
        taken: bool,
    },
    Flush {
        settles: bool,
    },
}

/// The calls so far, the last one first.
#[derive(Drop)]
pub enum FilePast {
    Start,
    Made(FileCall, Snapshot<FilePast>),
}
