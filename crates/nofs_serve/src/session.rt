//! Serving users at a mount.
//!
//! Promise: the history has of each user just the steps that its commands ask for, in order, and of each sweep one step
//! for each element. The flusher has none. Where memory was wanting, each user ended early by itself, and no sweep did
//! for which room was taken.
ghost use Rattle.std.specs.Prelude.{◌≡◌, ◌⊎◌, ◌<◌, ◌≤◌, ◌^◌, true, [], All, map, vec_len};
ghost use Rattle.nofs_client.specs.Task.Commands.{AreWellFormed};
ghost use Rattle.nofs_serve.specs.Session.{IsUnserved, TeamEnded, TeamServed};

use crate::teams::gather::Gathered;
use crate::teams::team::{Plan, Sweeps, WriteOuts, room_for, run_team};
use nofs_client::LineList;
use nofs_history::MOST_USERS;
use nofs_shared::{Serves, ShareFault, SharedMount};
use nofs_workers::Gate;
use std::alloc::Global;
use std::sync::Wait;
use std::thread::Threads;

/// A mount that has served its users.
#[derive(Drop)]
pub struct Served<V> {
    pub mount: V,
    /// The lines of each user.
    pub lines: Vec<LineList>,
    /// Whether each user ended early, since memory was wanting for it.
    pub ended_early: Vec<bool>,
    /// Whether memory was wanting for some worker.
    pub out_of_memory: bool,
}

// Nobody was served, since memory was wanting.
fn unserved<V>(alloc: Global, mount: V) -> Served<V>
    ensures same { result.mount ≡ mount }
    ensures none { (result.lines.items ≡ []) × (result.ended_early.items ≡ []) × (result.out_of_memory ≡ true) }
{
    Served {
        mount,
        lines: Vec::new(alloc),
        ended_early: Vec::new(alloc),
        out_of_memory: true,
    }
}

/// Serves each user by a worker on a thread of its own beside the two sweepers and the flusher, and hands the mount
/// back when all have ended. The user of the plan at place `n` is caller `FIRST_USER + n`; the inodes are swept upwards
/// by `INODE_SWEEPER`, the blocks downwards by `BLOCK_SWEEPER`, and no other caller makes a step. All of these steps
/// come behind those that the mount had, and whatever is done at the mount that comes back lies behind them.
pub fn serve<R: Threads + Wait + Sync, V: Serves + Send, T: Gate + Send + Drop>(
    rt: &R,
    alloc: Global,
    mount: V,
    plans: Vec<Plan<T>>,
    sweeps: Sweeps<T>,
    outs: WriteOuts<T>,
) -> Served<V>
where
    V::Evidence: Send,
    requires small { sweeps.inodes < 2 ^ 32 }
    requires few { vec_len plans ≤ MOST_USERS }
    requires formed { All (λ p. AreWellFormed p.commands) plans.items }
    ensures fixed { V.fixed result.mount ≡ V.fixed mount }
    ensures served { TeamServed (map (λ p. p.commands) plans.items) sweeps.inodes sweeps.blocks
        result.out_of_memory result.lines.items (V.entries mount) (V.entries result.mount) }
    ensures ended { IsUnserved result.out_of_memory result.ended_early.items result.lines.items (V.entries mount)
        (V.entries result.mount)
        ⊎ TeamEnded (map (λ p. p.commands) plans.items) (V.room_in (V.fixed mount)) sweeps.inodes sweeps.blocks
        result.ended_early.items result.lines.items (V.entries mount) (V.entries result.mount) }
{
    let count = plans.len();
    let Ok(room) = room_for(alloc, count) else {
        return unserved(alloc, mount);
    };
    let (shared, passes) = match SharedMount::new(alloc, mount, count as u32 + 3) {
        Ok(made) => made,
        Err(ShareFault { mount }) => return unserved(alloc, mount),
    };
    let Gathered {
        pass,
        lines,
        ended_early,
        out_of_memory,
    } = run_team(rt, alloc, &shared, passes, plans, sweeps, outs, room);
    let Ok(mount) = shared.close(pass) else {
        unreachable!()
    };
    Served {
        mount,
        lines,
        ended_early,
        out_of_memory,
    }
}
