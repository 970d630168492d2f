//! Others who make steps: workers, salvages, frames and moves.
ghost use Rattle.nofs_client.specs.Task.Commands.{AreWellFormed, HasName};
ghost use Rattle.std.specs.Fn.{FnReturnsAt};
ghost use Rattle.std.specs.Prelude.{Bool, List, ℕ, ◌<◌, ◌^◌, ◌≡◌};

use crate::typed::typed;
use nofs_client::{Client, CommandList, Line, LineList, Path};
use nofs_dirent::Name;
use nofs_history::{Refusal, Steps};
use nofs_io::{Sink, Source};
use nofs_salvage::{All, NameFilter, NameRule, Prefix, Report, SalvageFault};
use nofs_wire::WireEnd;
use nofs_workers::{
    Batches, BlockSweeper, Course, Flusher, Gate, InodeSweeper, UserEnd, UserWorker, WritesOut,
};
use std::alloc::{AllocError, Global};

/// `nofs_workers::UserWorker`
pub fn user_worker_itself<S: Steps, T: Gate>(it: UserWorker<S, T>) -> UserWorker<S, T> {
    it
}

/// `nofs_workers::UserEnd`
pub fn user_end_fields<S: Steps>(it: UserEnd<S>) -> (S, LineList, bool) {
    let UserEnd {
        steps,
        lines,
        out_of_memory,
    } = it;
    (steps, lines, out_of_memory)
}

/// `nofs_workers::InodeSweeper`
pub fn inode_sweeper_itself<S: Batches, O: Course, T: Gate>(
    it: InodeSweeper<S, O, T>,
) -> InodeSweeper<S, O, T> {
    it
}

/// `nofs_workers::BlockSweeper`
pub fn block_sweeper_itself<S: Batches, O: Course, T: Gate>(
    it: BlockSweeper<S, O, T>,
) -> BlockSweeper<S, O, T> {
    it
}

/// `nofs_workers::Flusher`
pub fn flusher_itself<S: WritesOut, T: Gate>(it: Flusher<S, T>) -> Flusher<S, T> {
    it
}

/// `nofs_workers::UserWorker::new`
pub fn user_worker_new<S: Steps, T: Gate>(
    alloc: Global,
    steps: S,
    commands: CommandList,
    gate: T,
) -> UserWorker<S, T>
    requires { AreWellFormed commands }
{
    UserWorker::new(alloc, steps, commands, gate)
}

/// `nofs_workers::InodeSweeper::new`
pub fn inode_sweeper_new<S: Batches, O: Course, T: Gate>(
    steps: S,
    order: O,
    gate: T,
) -> InodeSweeper<S, O, T>
    requires { O.count_of order < 2 ^ 32 }
{
    InodeSweeper::new(steps, order, gate)
}

/// `nofs_workers::BlockSweeper::new`
pub fn block_sweeper_new<S: Batches, O: Course, T: Gate>(
    steps: S,
    order: O,
    gate: T,
) -> BlockSweeper<S, O, T> {
    BlockSweeper::new(steps, order, gate)
}

/// `nofs_workers::Flusher::new`
pub fn flusher_new<S: WritesOut, T: Gate>(steps: S, gate: T, turns: u64) -> Flusher<S, T> {
    Flusher::new(steps, gate, turns)
}

/// `nofs_workers::UserWorker::work`
pub fn user_worker_work<S: Steps, T: Gate>(this: &mut UserWorker<S, T>) {
    this.work();
}

/// `nofs_workers::InodeSweeper::work`
pub fn inode_sweeper_work<S: Batches, O: Course, T: Gate>(this: &mut InodeSweeper<S, O, T>) {
    this.work();
}

/// `nofs_workers::BlockSweeper::work`
pub fn block_sweeper_work<S: Batches, O: Course, T: Gate>(this: &mut BlockSweeper<S, O, T>) {
    this.work();
}

/// `nofs_workers::Flusher::work`
pub fn flusher_work<S: WritesOut, T: Gate>(this: &mut Flusher<S, T>) {
    this.work();
}

/// `nofs_workers::UserWorker::into_inner`
pub fn user_worker_into_inner<S: Steps, T: Gate + Drop>(this: UserWorker<S, T>) -> UserEnd<S> {
    this.into_inner()
}

/// `nofs_workers::InodeSweeper::into_inner`
pub fn inode_sweeper_into_inner<S: Batches, O: Course + Drop, T: Gate + Drop>(
    this: InodeSweeper<S, O, T>,
) -> S {
    this.into_inner()
}

/// `nofs_workers::BlockSweeper::into_inner`
pub fn block_sweeper_into_inner<S: Batches, O: Course + Drop, T: Gate + Drop>(
    this: BlockSweeper<S, O, T>,
) -> S {
    this.into_inner()
}

/// `nofs_workers::Flusher::into_inner`
pub fn flusher_into_inner<S: WritesOut, T: Gate + Drop>(this: Flusher<S, T>) -> S {
    this.into_inner()
}

/// `nofs_salvage::salvage`
pub fn salvage_salvage<S: Steps, P: Fn(&[u8]) -> bool, R: NameRule>(
    alloc: Global,
    steps: &mut S,
    filter: &NameFilter<P, R>,
) -> Result<Report, SalvageFault>
    requires decides { (name : List ℕ) (yes : Bool) → FnReturnsAt P.Fn filter.now.keep name yes
        → yes ≡ R.picks filter.now.rule name }
    requires may { P.IsAlwaysCallable filter.now.keep }
{
    nofs_salvage::salvage(alloc, steps, filter)
}

/// `nofs_salvage::All`
pub fn all_itself(it: All) -> All {
    it
}

/// `nofs_salvage::Prefix`
pub fn prefix_fields(it: Prefix) -> Name {
    let Prefix { bytes } = it;
    bytes
}

/// `nofs_salvage::SalvageFault`
pub fn salvage_fault_variant(it: &SalvageFault) -> u8 {
    match it {
        SalvageFault::Refused(first) => typed::<Refusal>(first, 0),
        SalvageFault::OutOfMemory => 1,
    }
}

/// `nofs_wire::serve`
pub fn wire_serve<S: Steps, Q: Source, K: Sink>(
    alloc: Global,
    steps: &mut S,
    source: &mut Q,
    sink: &mut K,
) -> WireEnd {
    nofs_wire::serve(alloc, steps, source, sink)
}

/// `nofs_wire::WireEnd`
pub fn wire_end_variant(it: &WireEnd) -> u8 {
    match it {
        WireEnd::End => 0,
        WireEnd::TooLong => 3,
        WireEnd::Cut { at } => typed::<u64>(at, 1),
        WireEnd::SourceFault => 4,
        WireEnd::SinkFault => 5,
        WireEnd::Bad { at } => typed::<u64>(at, 2),
        WireEnd::OutOfMemory => 6,
    }
}

/// The line of a move, or want of memory.
type Moved = Result<Line, AllocError>;

/// `nofs_move::move_file`
pub fn move_file<S: Steps>(alloc: Global, client: &mut Client<S>, from: &Path, to: &Path) -> Moved
    requires from { HasName from.now }
    requires to { HasName to.now }
{
    nofs_move::move_file(alloc, client, from, to)
}
