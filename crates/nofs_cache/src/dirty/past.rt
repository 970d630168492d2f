//! The writes and flushes of a cached disk, for proofs alone: they tell what it holds, and what a
//! crash may leave of it at each moment.
//!
//! Promise: they are snapshots, which take no memory.
use nofs_disk::Cell;
use std::snapshot::Snapshot;

/// A write or flush, with the moments of the disk below at its start and end. A write makes no
/// call below, so that one moment is both.
#[derive(Drop)]
pub enum CacheCall {
    Write {
        block: u64,
        cell: Snapshot<Cell>,
        at: u64,
    },
    Flush {
        settles: bool,
        began: u64,
        ended: u64,
    },
}

/// The calls so far, the last one first.
#[derive(Drop)]
pub enum CachePast {
    Start,
    Made(CacheCall, Snapshot<CachePast>),
}
