//! A team over one mount: a worker for each user, the two sweepers, and the flusher.
//!
//! Promise: each worker has a caller of its own. Users are `FIRST_USER` and up, in their order; the sweeper of the
//! inodes is `INODE_SWEEPER`, that of the blocks `BLOCK_SWEEPER`, and the flusher, which makes no step, `FLUSHER`.
ghost use Rattle.std.specs.Prelude.{◌≡◌, ◌+◌, ◌<◌, ◌≤◌, ◌^◌, [], All, IfOk, map, vec_len, vec_capacity};
ghost use Rattle.nofs_turn.specs.declared.rule.view.View.{View};
ghost use Rattle.nofs_turn.specs.Turn.{view_of, IsPassOf};
ghost use Rattle.nofs_history.specs.declared.machine.history.Entry1.{Entry1};
ghost use Rattle.nofs_client.specs.Task.Commands.{AreWellFormed};
ghost use Rattle.nofs_serve.specs.Teams.Users.{Stand, IsReady};
ghost use Rattle.nofs_serve.specs.Session.{TeamGathered};

use crate::teams::beside::{Beside, Joined, gather_beside, seat_beside};
use crate::teams::gather::{Gathered, gather_users};
use crate::teams::lend::work_team;
use nofs_client::{CommandList, LineList};
use nofs_history::MOST_USERS;
use nofs_shared::{Serves, SharedMount, SharedPass};
use nofs_turn::Pass;
use nofs_workers::{Gate, UserWorker};
use std::alloc::{AllocError, Global};
use std::sync::Wait;
use std::thread::Threads;

/// A user's commands, and the gate before each of its steps.
#[derive(Drop)]
pub struct Plan<T> {
    pub commands: CommandList,
    pub gate: T,
}

/// How many inodes and blocks are examined, and the gates of the sweepers.
#[derive(Drop)]
pub struct Sweeps<T> {
    pub inodes: u64,
    pub blocks: u64,
    pub gates: (T, T),
}

/// How often the flusher writes out, and its gate.
#[derive(Drop)]
pub struct WriteOuts<T> {
    pub turns: u64,
    pub gate: T,
}

/// What a team is put together in: room for its users, for their lines, and for whether each ended early.
#[derive(Drop)]
pub struct TeamRoom<'a, R: Wait, V: Serves, T: Gate> {
    pub users: Vec<UserWorker<SharedPass<'a, R, V>, T>>,
    pub lines: Vec<LineList>,
    pub ended_early: Vec<bool>,
}

/// The room for so many users.
pub(crate) fn room_for<'a, R: Wait, V: Serves, T: Gate + Drop>(
    alloc: Global,
    count: usize,
) -> Result<TeamRoom<'a, R, V, T>, AllocError>
    ensures users { IfOk result (λ room. (room.users.items ≡ []) × (count ≤ vec_capacity room.users)) }
    ensures lines { IfOk result (λ room. (room.lines.items ≡ []) × (count ≤ vec_capacity room.lines)) }
    ensures early { IfOk result (λ room. (room.ended_early.items ≡ []) × (count ≤ vec_capacity room.ended_early)) }
{
    Ok(TeamRoom {
        users: Vec::with_capacity(alloc, count)?,
        lines: Vec::with_capacity(alloc, count)?,
        ended_early: Vec::with_capacity(alloc, count)?,
    })
}

/// The pass that comes last, for this caller.
pub(crate) fn seat<'a, R, V: Serves>(
    rt: &'a R,
    alloc: Global,
    shared: &'a SharedMount<V>,
    caller: u32,
    passes: &mut Vec<Pass<V>>,
) -> SharedPass<'a, R, V>
    requires some { 0 < vec_len passes.old }
    requires new { All (λ p. IsPassOf shared.now.turn p × ((view_of p).mine ≡ [])) passes.old.items }
    ensures way { (result.turn.now ≡ shared.now.turn) × (result.caller ≡ caller) }
    ensures seen { (v : View Entry1 V.Fixed) → All (λ p. view_of p ≡ v) passes.old.items
        → (view_of result.pass ≡ v) × All (λ p. view_of p ≡ v) passes.new.items }
    ensures rest { (vec_len passes.new + 1 ≡ vec_len passes.old)
        × All (λ p. IsPassOf shared.now.turn p × ((view_of p).mine ≡ [])) passes.new.items }
{
    let Some(pass) = passes.pop() else {
        unreachable!()
    };
    shared.pass(rt, alloc, caller, pass)
}

// A worker for each user. The list has room for them.
fn seat_users<'a, R: Wait, V: Serves, T: Gate + Drop>(
    rt: &'a R,
    alloc: Global,
    shared: &'a SharedMount<V>,
    plans: Vec<Plan<T>>,
    passes: &mut Vec<Pass<V>>,
    room: Vec<UserWorker<SharedPass<'a, R, V>, T>>,
) -> Vec<UserWorker<SharedPass<'a, R, V>, T>>
    requires few { vec_len plans ≤ MOST_USERS }
    requires formed { All (λ p. AreWellFormed p.commands) plans.items }
    requires passes { (vec_len plans ≤ vec_len passes.old)
        × All (λ p. IsPassOf shared.now.turn p × ((view_of p).mine ≡ [])) passes.old.items }
    requires room { (room.items ≡ []) × (vec_len plans ≤ vec_capacity room) }
    ensures len { vec_len result ≡ vec_len plans }
    ensures ways { All (λ w. w.client.steps.steps.turn.now ≡ shared.now.turn) result.items }
    ensures ready { (v : View Entry1 V.Fixed) → All (λ p. view_of p ≡ v) passes.old.items
        → Stand (IsReady (λ c way. (way.caller ≡ c) × (view_of way.pass ≡ v))) 1 (map
        (λ p. p.commands) plans.items) result.items
        × All (λ p. view_of p ≡ v) passes.new.items }
    ensures rest { (vec_len passes.new + vec_len plans ≡ vec_len passes.old)
        × All (λ p. IsPassOf shared.now.turn p × ((view_of p).mine ≡ [])) passes.new.items }
{
    let (mut plans, mut users) = (plans, room);
    while !plans.is_empty() {
        let caller = plans.len() as u32;
        let Some(plan) = plans.pop() else {
            unreachable!()
        };
        let Plan { commands, gate } = plan;
        let way = seat(rt, alloc, shared, caller, passes);
        users.push_reserved(UserWorker::new(alloc, way, commands, gate));
    }
    users
}

/// Puts a team of these users together, lets all work at once, and takes it apart.
pub(crate) fn run_team<'a, R: Threads + Wait + Sync, V: Serves + Send, T: Gate + Send + Drop>(
    rt: &'a R,
    alloc: Global,
    shared: &'a SharedMount<V>,
    passes: Vec<Pass<V>>,
    plans: Vec<Plan<T>>,
    sweeps: Sweeps<T>,
    outs: WriteOuts<T>,
    room: TeamRoom<'a, R, V, T>,
) -> Gathered<V>
where
    V::Evidence: Send,
    requires few { vec_len plans ≤ MOST_USERS }
    requires formed { All (λ p. AreWellFormed p.commands) plans.items }
    requires small { sweeps.inodes < 2 ^ 32 }
    requires passes { (vec_len plans + 3 ≡ vec_len passes)
        × All (λ p. IsPassOf shared.now.turn p × ((view_of p).mine ≡ [])) passes.items }
    requires users { (room.users.items ≡ []) × (vec_len plans ≤ vec_capacity room.users) }
    requires lines { (room.lines.items ≡ []) × (vec_len plans ≤ vec_capacity room.lines) }
    requires early { (room.ended_early.items ≡ []) × (vec_len plans ≤ vec_capacity room.ended_early) }
    ensures of { IsPassOf shared.now.turn result.pass }
    ensures gathered { (v : View Entry1 V.Fixed) → v.stands ≡ 1 → v.mine ≡ [] → All (λ p. view_of p ≡ v) passes.items
        → TeamGathered V.room_in (map (λ p. p.commands) plans.items) sweeps.inodes sweeps.blocks
        result.out_of_memory result.ended_early.items result.lines.items v (view_of result.pass) }
{
    let TeamRoom {
        users,
        lines,
        ended_early,
    } = room;
    let mut passes = passes;
    let mut users = seat_users(rt, alloc, shared, plans, &mut passes, users);
    let mut beside = seat_beside(rt, alloc, shared, &mut passes, sweeps, outs);
    let Beside {
        inodes,
        blocks,
        flusher,
    } = &mut beside;
    work_team(rt, &mut users, inodes, blocks, flusher);
    let Joined {
        pass,
        out_of_memory,
    } = gather_beside(shared, beside);
    let begun = Gathered {
        pass,
        lines,
        ended_early,
        out_of_memory,
    };
    gather_users(shared, users, begun)
}
