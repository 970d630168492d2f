//! The two sweepers and the flusher, which work beside the users of a session or a visitor.
//!
//! Promise: the inodes are swept upwards by `INODE_SWEEPER`, the blocks downwards by `BLOCK_SWEEPER`, and the flusher,
//! `FLUSHER`, makes no step.
ghost use Rattle.std.specs.Prelude.{◌≡◌, ℕ, ◌+◌, ◌-◌, ◌<◌, ◌≤◌, ◌^◌, [], All, vec_len};
ghost use Rattle.nofs_turn.specs.declared.rule.view.View.{View};
ghost use Rattle.nofs_turn.specs.Turn.{view_of, IsPassOf};
ghost use Rattle.nofs_history.specs.declared.machine.history.Entry1.{Entry1};
ghost use Rattle.nofs_history.specs.declared.machine.steps.ElementKind.TheVariants.{Inode, Block};
ghost use Rattle.nofs_serve.specs.Teams.Beside.{BesideGathered, HasIdled, HasSwept};

use crate::teams::gather::{either, join_way};
use crate::teams::team::{Sweeps, WriteOuts, seat};
use nofs_history::{BLOCK_SWEEPER, FLUSHER, INODE_SWEEPER};
use nofs_shared::{Serves, SharedMount, SharedPass};
use nofs_turn::Pass;
use nofs_workers::{BlockSweeper, Downwards, Flusher, Gate, InodeSweeper, Upwards};
use std::alloc::Global;
use std::sync::Wait;

/// The sweepers and the flusher.
#[derive(Drop)]
pub(crate) struct Beside<'a, R: Wait, V: Serves, T: Gate> {
    pub inodes: InodeSweeper<SharedPass<'a, R, V>, Upwards, T>,
    pub blocks: BlockSweeper<SharedPass<'a, R, V>, Downwards, T>,
    pub flusher: Flusher<SharedPass<'a, R, V>, T>,
}

/// Some passes in one, and whether memory was wanting for a sweep.
#[derive(Drop)]
pub(crate) struct Joined<V: Serves> {
    pub pass: Pass<V>,
    pub out_of_memory: bool,
}

/// Seats them, each on the pass that comes last then.
pub(crate) fn seat_beside<'a, R: Wait, V: Serves, T: Gate + Drop>(
    rt: &'a R,
    alloc: Global,
    shared: &'a SharedMount<V>,
    passes: &mut Vec<Pass<V>>,
    sweeps: Sweeps<T>,
    outs: WriteOuts<T>,
) -> Beside<'a, R, V, T>
    requires small { sweeps.inodes < 2 ^ 32 }
    requires enough { 3 ≤ vec_len passes.old }
    requires new { All (λ p. IsPassOf shared.now.turn p × ((view_of p).mine ≡ [])) passes.old.items }
    ensures ways { (result.inodes.steps.turn.now ≡ shared.now.turn) × (result.blocks.steps.turn.now ≡ shared.now.turn)
        × (result.flusher.steps.turn.now ≡ shared.now.turn) }
    ensures callers { (result.inodes.steps.caller ≡ INODE_SWEEPER) × (result.blocks.steps.caller ≡ BLOCK_SWEEPER)
        × (result.flusher.steps.caller ≡ FLUSHER) }
    ensures counts { (result.inodes.inodes.order.count ≡ sweeps.inodes) × (result.blocks.order.count ≡ sweeps.blocks) }
    ensures seen { (v : View Entry1 V.Fixed) → All (λ p. view_of p ≡ v) passes.old.items
        → (view_of result.inodes.steps.pass ≡ v) × (view_of result.blocks.steps.pass ≡ v)
        × (view_of result.flusher.steps.pass ≡ v) }
{
    let Sweeps {
        inodes,
        blocks,
        gates: (gate, next_gate),
    } = sweeps;
    let way = seat(rt, alloc, shared, INODE_SWEEPER, passes);
    let inodes = InodeSweeper::new(way, Upwards { count: inodes }, gate);
    let way = seat(rt, alloc, shared, BLOCK_SWEEPER, passes);
    let blocks = BlockSweeper::new(way, Downwards { count: blocks }, next_gate);
    let way = seat(rt, alloc, shared, FLUSHER, passes);
    let flusher = Flusher::new(way, outs.gate, outs.turns);
    Beside {
        inodes,
        blocks,
        flusher,
    }
}

/// Takes them apart, when they have worked: their passes in one.
pub(crate) fn gather_beside<R: Wait, V: Serves, T: Gate + Drop>(
    shared: &SharedMount<V>,
    beside: Beside<'_, R, V, T>,
) -> Joined<V>
    requires ways { (beside.inodes.steps.turn.now ≡ shared.now.turn) × (beside.blocks.steps.turn.now ≡ shared.now.turn)
        × (beside.flusher.steps.turn.now ≡ shared.now.turn) }
    requires callers { (beside.inodes.steps.caller ≡ INODE_SWEEPER) × (beside.blocks.steps.caller ≡ BLOCK_SWEEPER)
        × (beside.flusher.steps.caller ≡ FLUSHER) }
    ensures of { IsPassOf shared.now.turn result.pass }
    ensures gathered { (v : View Entry1 V.Fixed) (inodes blocks : ℕ) → v.stands ≡ 1
        → HasSwept V.room_in (λ place item. item ≡ place) Inode inodes beside.entry.inodes.out_of_memory
        INODE_SWEEPER v (view_of beside.entry.inodes.steps.pass)
        → HasSwept V.room_in (λ place item. item ≡ blocks - 1 - place) Block blocks beside.entry.blocks.out_of_memory
        BLOCK_SWEEPER v (view_of beside.entry.blocks.steps.pass)
        → HasIdled v (view_of beside.entry.flusher.steps.pass)
        → BesideGathered V.room_in inodes blocks result.out_of_memory v (view_of result.pass) }
{
    let Beside {
        inodes,
        blocks,
        flusher,
    } = beside;
    let out_of_memory = either(inodes.out_of_memory, blocks.out_of_memory);
    let mut pass = inodes.into_inner().back();
    join_way(shared, &mut pass, blocks.into_inner());
    join_way(shared, &mut pass, flusher.into_inner());
    Joined {
        pass,
        out_of_memory,
    }
}
