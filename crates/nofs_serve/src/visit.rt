//! Serving one visitor at a mount, on the calling thread.
//!
//! Promise: the history has of `FIRST_USER` just the steps of the visit, and of each sweep one step for each element.
//! The flusher has none, nor has any other caller. No sweep ends early for which room was taken.
ghost use Rattle.std.specs.Prelude.{◌≡◌, ◌+◌, ◌<◌, ◌^◌, [], All, IfErr, IfOk, vec_len};
ghost use Rattle.nofs_turn.specs.declared.rule.view.View.{View};
ghost use Rattle.nofs_turn.specs.Turn.{view_of, IsPassOf};
ghost use Rattle.nofs_history.specs.declared.machine.history.Entry1.{Entry1};
ghost use Rattle.nofs_serve.specs.Teams.Beside.{SweepsServed};
ghost use Rattle.nofs_serve.specs.Visit.{VisitGathered, VisitServed};

use crate::teams::beside::{Beside, Joined, gather_beside, seat_beside};
use crate::teams::gather::join_way;
use crate::teams::lend::work_beside;
use crate::teams::team::{Sweeps, WriteOuts, seat};
use crate::teams::works::Visits;
use nofs_history::FIRST_USER;
use nofs_shared::{Serves, ShareFault, SharedMount};
use nofs_turn::Pass;
use nofs_workers::Gate;
use std::alloc::Global;
use std::sync::Wait;
use std::thread::Threads;

/// A mount that was visited.
#[derive(Drop)]
pub struct Visited<V> {
    pub mount: V,
    /// Whether memory was wanting for a sweep.
    pub out_of_memory: bool,
}

// Seats a visitor, the sweepers and the flusher, lets all work at once, and joins their passes.
fn run_visit<'a, R: Threads + Wait + Sync, V: Serves + Send, T: Gate + Send + Drop, G: Visits>(
    rt: &'a R,
    alloc: Global,
    shared: &'a SharedMount<V>,
    passes: Vec<Pass<V>>,
    visitor: &mut G,
    sweeps: Sweeps<T>,
    outs: WriteOuts<T>,
) -> Joined<V>
where
    V::Evidence: Send,
    requires ready { G.is_ready visitor.old }
    requires small { sweeps.inodes < 2 ^ 32 }
    requires passes { (vec_len passes ≡ 4)
        × All (λ p. IsPassOf shared.now.turn p × ((view_of p).mine ≡ [])) passes.items }
    ensures of { IsPassOf shared.now.turn result.pass }
    ensures gathered { (v : View Entry1 V.Fixed) → v.stands ≡ 1 → v.mine ≡ [] → All (λ p. view_of p ≡ v) passes.items
        → VisitGathered V.room_in (G.visited visitor.old visitor.new []) sweeps.inodes sweeps.blocks
        result.out_of_memory v (view_of result.pass) }
{
    let mut passes = passes;
    let mut visit = seat(rt, alloc, shared, FIRST_USER, &mut passes);
    let mut beside = seat_beside(rt, alloc, shared, &mut passes, sweeps, outs);
    let Beside {
        inodes,
        blocks,
        flusher,
    } = &mut beside;
    work_beside(rt, inodes, blocks, flusher, visitor, &mut visit);
    let mut joined = gather_beside(shared, beside);
    join_way(shared, &mut joined.pass, visit);
    joined
}

/// Serves a visitor on the calling thread beside the two sweepers and the flusher, and hands the mount back when all
/// have ended; the mount as it was, where memory was wanting to begin.
pub fn attend<R: Threads + Wait + Sync, V: Serves + Send, T: Gate + Send + Drop, G: Visits>(
    rt: &R,
    alloc: Global,
    mount: V,
    visitor: &mut G,
    sweeps: Sweeps<T>,
    outs: WriteOuts<T>,
) -> Result<Visited<V>, V>
where
    V::Evidence: Send,
    requires ready { G.is_ready visitor.old }
    requires small { sweeps.inodes < 2 ^ 32 }
    ensures fixed { IfOk result (λ done. V.fixed done.mount ≡ V.fixed mount) }
    ensures visited { IfOk result
        (λ done. VisitServed (G.visited visitor.old visitor.new []) sweeps.inodes sweeps.blocks
        done.out_of_memory (V.entries mount) (V.entries done.mount)) }
    ensures sweeps { IfOk result
        (λ done. SweepsServed (V.room_in (V.fixed mount)) sweeps.inodes sweeps.blocks (V.entries mount)
        (V.entries done.mount)) }
    ensures unvisited { IfErr result (λ same. (same ≡ mount) × (visitor.new ≡ visitor.old)) }
{
    let (shared, passes) = match SharedMount::new(alloc, mount, 4) {
        Ok(made) => made,
        Err(ShareFault { mount }) => return Err(mount),
    };
    let Joined {
        pass,
        out_of_memory,
    } = run_visit(rt, alloc, &shared, passes, visitor, sweeps, outs);
    let Ok(mount) = shared.close(pass) else {
        unreachable!()
    };
    Ok(Visited {
        mount,
        out_of_memory,
    })
}
