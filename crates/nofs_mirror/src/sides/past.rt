//! The writes and flushes of a mirror, for proofs alone: they tell what it held when a flush ended,
//! and what a crash may leave of it at each moment.
//!
//! Promise: they are snapshots, which take no memory.
use nofs_disk::Cell;
use std::snapshot::Snapshot;

/// A side's part in a call: its moments at the call's start and end, and whether it was in after it.
#[derive(Clone, Copy)]
pub struct Span {
    pub began: u64,
    pub ended: u64,
    pub is_in: bool,
}

/// What a call does to the cells that a crash may leave.
#[derive(Drop)]
pub enum Effect {
    /// The cell of a block was written, or may have been.
    Write { block: u64, cell: Snapshot<Cell> },
    /// A flush succeeded on some side.
    Settle,
    /// A flush failed on each side that is in.
    Nothing,
}

/// A write or flush.
#[derive(Drop)]
pub struct MirrorCall {
    pub effect: Effect,
    pub lead: Span,
    pub other: Span,
}

/// The calls so far, the last one first.
#[derive(Drop)]
pub enum MirroredPast {
    Start,
    Made(MirrorCall, Snapshot<MirroredPast>),
}
