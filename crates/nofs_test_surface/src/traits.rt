//! The traits: each method is called through the bound, with what it asks.
ghost use Rattle.std.specs.Prelude.{◌≡◌, ℕ, ◌+◌, ◌^◌, ◌<◌, ◌≤◌, Bool, List, length};
ghost use Rattle.nofs_history.specs.declared.machine.steps.ElementKind.TheVariants.{Inode};
ghost use Rattle.nofs_workers.specs.Sweep.{AreInRange};

use nofs_disk::{Cell, Disk, Failed, OutFault};
use nofs_filedisk::Positioned;
use nofs_history::{ElementKind, Refusal, Reply, Step, Steps};
use nofs_io::{Sink, Source};
use nofs_salvage::NameRule;
use nofs_turn::{Kept, Section};
use nofs_workers::{Batches, Gate, WritesOut};
use std::alloc::AllocError;

/// `nofs_disk::Disk::blocks` and `moment`
pub fn disk_numbers<D: Disk>(disk: &D) -> (u64, u64) {
    (disk.blocks(), disk.moment())
}

/// `nofs_disk::Disk::ready`
pub fn disk_ready<D: Disk>(disk: &mut D, calls: u64) -> Result<(), AllocError> {
    disk.ready(calls)
}

/// `nofs_disk::Disk::read`
pub fn disk_read<D: Disk>(disk: &mut D, block: u64, into: &mut Cell) -> Result<(), Failed>
    requires { block < (D.state disk.old).blocks }
{
    disk.read(block, into)
}

/// `nofs_disk::Disk::write`
pub fn disk_write<D: Disk>(disk: &mut D, block: u64, cell: &Cell) -> Result<(), Failed>
    requires block { block < (D.state disk.old).blocks }
    requires spare { 1 ≤ (D.state disk.old).spare }
{
    disk.write(block, cell)
}

/// `nofs_disk::Disk::flush`
pub fn disk_flush<D: Disk>(disk: &mut D) -> Result<(), Failed>
    requires { 1 ≤ (D.state disk.old).spare }
{
    disk.flush()
}

/// `nofs_disk::Disk::write_out`
pub fn disk_write_out<D: Disk>(disk: &mut D) -> Result<Option<u64>, Failed>
    requires { 1 ≤ (D.state disk.old).spare }
{
    disk.write_out()
}

/// `nofs_filedisk::Positioned::read_at`
pub fn positioned_read_at<B: Positioned>(
    file: &mut B,
    at: u64,
    into: &mut [u8],
) -> Result<usize, Failed>
    requires { at + length into.old < 2 ^ 63 }
{
    file.read_at(at, into)
}

/// `nofs_filedisk::Positioned::read_ahead`
pub fn positioned_read_ahead<B: Positioned>(
    file: &mut B,
    at: u64,
    into: &mut [u8],
) -> Result<Option<usize>, Failed>
    requires { at + length into.old < 2 ^ 63 }
{
    file.read_ahead(at, into)
}

/// `nofs_filedisk::Positioned::write_at`
pub fn positioned_write_at<B: Positioned>(
    file: &mut B,
    at: u64,
    from: &[u8],
) -> Result<usize, Failed>
    requires { at + length from.now < 2 ^ 63 }
{
    file.write_at(at, from)
}

/// `nofs_filedisk::Positioned::sync`
pub fn positioned_sync<B: Positioned>(file: &mut B) -> Result<(), Failed> {
    file.sync()
}

/// `nofs_io::Source::take`
pub fn source_take<S: Source>(source: &mut S, into: &mut [u8]) -> Result<usize, nofs_io::Failed> {
    source.take(into)
}

/// `nofs_io::Sink::give`
pub fn sink_give<K: Sink>(sink: &mut K, piece: &[u8]) -> Result<usize, nofs_io::Failed> {
    sink.give(piece)
}

/// `nofs_turn::Kept::kept`
pub fn kept_kept<V: Kept>(value: &V) -> u64 {
    value.kept()
}

/// `nofs_turn::Section::run`
pub fn section_run<V: Kept, S: Section<V>>(section: S, value: &mut V) -> S::Out
    requires { S.asks section (V.fixed value.old) (V.entries value.old) }
{
    section.run(value)
}

/// `nofs_history::Steps::step`
pub fn steps_step<S: Steps>(steps: &mut S, step: Step) -> Reply {
    steps.step(step)
}

/// `nofs_salvage::NameRule`, whose meaning is which names it picks
pub fn name_rule_itself<R: NameRule>(rule: R) -> R
    ensures { (name : List ℕ) (yes : Bool) → R.picks rule name ≡ yes → R.picks result name ≡ yes }
{
    rule
}

/// `nofs_workers::Gate::before` and `after`
pub fn gate_calls<T: Gate>(gate: &mut T) {
    gate.before();
    gate.after();
}

/// `nofs_workers::Batches::look_batch`
pub fn batches_look_batch<S: Batches>(
    steps: &mut S,
    kind: ElementKind,
    items: &[u64],
) -> Result<S::Evidence, Refusal>
    requires count { (1 ≤ length items.now) × (length items.now ≤ 64) }
    requires in_range { AreInRange kind items.now }
{
    steps.look_batch(kind, items)
}

/// `nofs_workers::Batches::judge`
pub fn batches_judge<S: Batches>(evidence: &S::Evidence, at: u32) -> bool
    requires { at < length (S.looked evidence.now).items }
{
    S::judge(evidence, at)
}

/// `nofs_workers::Batches::commit`
pub fn batches_commit<S: Batches>(
    steps: &mut S,
    evidence: &S::Evidence,
    at: u32,
    used: bool,
) -> Reply
    requires own { S.owns steps.old evidence.now }
    requires at { at < length (S.looked evidence.now).items }
    requires judged { used ≡ (S.looked evidence.now).verdict at }
{
    steps.commit(evidence, at, used)
}

/// `nofs_workers::Batches::see`
pub fn batches_see<S: Batches>(steps: &mut S, kind: ElementKind, item: u64) -> Reply
    requires { kind ≡ Inode → item < 2 ^ 32 }
{
    steps.see(kind, item)
}

/// `nofs_workers::WritesOut::write_out`
pub fn writes_out_write_out<S: WritesOut>(steps: &mut S) -> Result<Option<u64>, OutFault> {
    steps.write_out()
}
