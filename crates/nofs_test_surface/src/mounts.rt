//! The mount, alone and shared, the upgrade between two mounts, and the call of the program.
ghost use Rattle.nofs_turn.specs.Turn.{IsPassOf, view_of};
ghost use Rattle.std.specs.Prelude.{[], ◌<◌, ◌^◌, ◌≡◌, ◌≤◌};

use crate::typed::typed;
use nofs_disk::{Disk, OutFault};
use nofs_history::{History, Reply, Step};
use nofs_io::{Sink, Source};
use nofs_shared::{
    BeginFault, BusyStep, Mount, Serves, ShareFault, SharedMount, SharedOut, SharedPass,
};
use nofs_state::Counts;
use nofs_super::MountFault;
use nofs_tool::Outcome;
use nofs_turn::Pass;
use nofs_upgrade::UpgradeFault;
use std::alloc::Global;
use std::sync::Wait;
use std::thread::Threads;

/// `nofs_upgrade::upgrade`
pub fn upgrade_upgrade<D: Disk>(disk: &mut D) -> Result<(), UpgradeFault> {
    nofs_upgrade::upgrade(disk)
}

/// `nofs_upgrade::UpgradeFault`
pub fn upgrade_fault_variant(it: &UpgradeFault) -> u8 {
    match it {
        UpgradeFault::Mount(first) => typed::<MountFault>(first, 0),
        UpgradeFault::Already => 1,
    }
}

/// `nofs_shared::Mount`
pub fn mount_itself<D: Disk + Drop>(it: Mount<D>) -> Mount<D> {
    it
}

/// `nofs_shared::BeginFault`
pub fn begin_fault_fields<D: Disk + Drop>(it: BeginFault<D>) -> (D, MountFault) {
    let BeginFault { disk, cause } = it;
    (disk, cause)
}

/// `nofs_shared::SharedMount`
pub fn shared_mount_itself<V: Serves>(it: SharedMount<V>) -> SharedMount<V> {
    it
}

/// `nofs_shared::SharedPass`
pub fn shared_pass_itself<'a, R, V: Serves>(it: SharedPass<'a, R, V>) -> SharedPass<'a, R, V> {
    it
}

/// `nofs_shared::ShareFault`
pub fn share_fault_fields<V>(it: ShareFault<V>) -> V {
    let ShareFault { mount } = it;
    mount
}

/// `nofs_shared::BusyStep`
pub fn busy_step_fields(it: BusyStep) -> (Step, u64) {
    let BusyStep { step, word } = it;
    (step, word)
}

/// `nofs_shared::SharedOut`
pub fn shared_out_fields<V: Serves>(it: SharedOut<V>) -> (SharedMount<V>, Pass<V>, u64) {
    let SharedOut { mount, pass, out } = it;
    (mount, pass, out)
}

/// `nofs_shared::Mount::begin`
pub fn mount_begin<D: Disk + Drop>(
    alloc: Global,
    disk: D,
    first: u64,
) -> Result<Mount<D>, BeginFault<D>>
    requires { first ≤ 2 ^ 40 }
{
    Mount::begin(alloc, disk, first)
}

/// `nofs_shared::Mount::step`
pub fn mount_step<D: Disk + Drop>(
    this: &mut Mount<D>,
    alloc: Global,
    caller: u32,
    step: Step,
) -> Reply {
    this.step(alloc, caller, step)
}

/// `nofs_shared::Mount::write_out`
pub fn mount_write_out<D: Disk + Drop>(this: &mut Mount<D>) -> Result<Option<u64>, OutFault> {
    this.write_out()
}

/// `nofs_shared::Mount::counts`
pub fn mount_counts<D: Disk + Drop>(this: &Mount<D>) -> Counts {
    this.counts()
}

/// `nofs_shared::Mount::history`
pub fn mount_history<D: Disk + Drop>(this: &Mount<D>) -> &History {
    this.history()
}

/// `nofs_shared::Mount::end`
pub fn mount_end<D: Disk + Drop>(this: Mount<D>) -> (D, History) {
    this.end()
}

/// `nofs_shared::SharedMount::new`
pub fn shared_mount_new<V: Serves>(
    alloc: Global,
    mount: V,
    seats: u32,
) -> Result<(SharedMount<V>, Vec<Pass<V>>), ShareFault<V>>
    requires { (0 < seats) × (seats ≤ 64) }
{
    SharedMount::new(alloc, mount, seats)
}

/// `nofs_shared::SharedMount::pass`
pub fn shared_mount_pass<'a, V: Serves, R>(
    this: &'a SharedMount<V>,
    rt: &'a R,
    alloc: Global,
    caller: u32,
    seat: Pass<V>,
) -> SharedPass<'a, R, V>
    requires of { IsPassOf this.now.turn seat }
    requires new { (view_of seat).mine ≡ [] }
{
    this.pass(rt, alloc, caller, seat)
}

/// `nofs_shared::SharedMount::join`
pub fn shared_mount_join<V: Serves>(this: &SharedMount<V>, into: &mut Pass<V>, from: Pass<V>)
    requires of { IsPassOf this.now.turn into.old × IsPassOf this.now.turn from }
{
    this.join(into, from);
}

/// `nofs_shared::SharedMount::close`
pub fn shared_mount_close<V: Serves>(this: SharedMount<V>, pass: Pass<V>) -> Result<V, SharedOut<V>>
    requires of { IsPassOf this.turn pass }
{
    this.close(pass)
}

/// `nofs_shared::SharedPass::write_out`
pub fn shared_pass_write_out<'a, R: Wait, V: Serves>(
    this: &mut SharedPass<'a, R, V>,
) -> Result<Option<u64>, OutFault> {
    this.write_out()
}

/// `nofs_shared::SharedPass::try_step`
pub fn shared_pass_try_step<'a, R, V: Serves>(
    this: &mut SharedPass<'a, R, V>,
    step: Step,
) -> Result<Reply, BusyStep> {
    this.try_step(step)
}

/// `nofs_shared::SharedPass::progress`
pub fn shared_pass_progress<'a, R, V: Serves>(this: &mut SharedPass<'a, R, V>) -> u64 {
    this.progress()
}

/// `nofs_shared::SharedPass::back`
pub fn shared_pass_back<'a, R, V: Serves>(this: SharedPass<'a, R, V>) -> Pass<V> {
    this.back()
}

/// `nofs_tool::tool`
pub fn tool_tool<R: Threads + Wait + Sync, S: Source, K: Sink, D: Disk + Drop + Send>(
    rt: &R,
    alloc: Global,
    words: &[String],
    source: &mut S,
    sink: &mut K,
    disk: D,
) -> Outcome<D> {
    nofs_tool::tool(rt, alloc, words, source, sink, disk)
}

/// `nofs_tool::Outcome`
pub fn outcome_fields<D>(it: Outcome<D>) -> (u8, D, Option<History>) {
    let Outcome {
        status,
        disk,
        history,
    } = it;
    (status, disk, history)
}
