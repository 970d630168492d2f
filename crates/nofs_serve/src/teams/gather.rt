//! Workers are taken apart: their passes are joined, and their lines kept.
//!
//! Promise: the joined pass has of each caller the steps that its worker made, and of no other caller any.
ghost use Rattle.std.specs.Prelude.{◌≡◌, ℕ, ◌+◌, ◌≤◌, ◌||◌, List, [], All, length, vec_len, vec_capacity};
ghost use Rattle.nofs_turn.specs.declared.rule.view.View.{View};
ghost use Rattle.nofs_turn.specs.Turn.{view_of, IsPassOf};
ghost use Rattle.nofs_history.specs.declared.machine.history.Entry1.{Entry1};
ghost use Rattle.nofs_client.specs.declared.task.commands.Command.{Command};
ghost use Rattle.nofs_shared.specs.Passes.Entries.{own_steps};
ghost use Rattle.nofs_shared.specs.Passes.Seats.{SameSeat};
ghost use Rattle.nofs_serve.specs.Teams.Joins.{JoinsOwn, Gathers, made_by};
ghost use Rattle.nofs_serve.specs.Teams.Users.{Stand, HasRun};
ghost use Rattle.nofs_serve.specs.Session.{UsersGathered};

use nofs_client::LineList;
use nofs_shared::{Serves, SharedMount, SharedPass};
use nofs_turn::Pass;
use nofs_workers::{Gate, UserEnd, UserWorker};
use std::sync::Wait;

/// The passes of some workers in one; of the users among them the lines, and whether each ended early, since memory was
/// wanting; and whether memory was wanting for some worker.
#[derive(Drop)]
pub struct Gathered<V: Serves> {
    pub pass: Pass<V>,
    pub lines: Vec<LineList>,
    pub ended_early: Vec<bool>,
    pub out_of_memory: bool,
}

/// Joins the pass of a way to another.
pub(crate) fn join_way<R, V: Serves>(
    shared: &SharedMount<V>,
    into: &mut Pass<V>,
    way: SharedPass<'_, R, V>,
)
    requires of { IsPassOf shared.now.turn into.old × (way.turn.now ≡ shared.now.turn) }
    ensures of { IsPassOf shared.now.turn into.new }
    ensures joined { JoinsOwn way.entry.caller (view_of into.old) (view_of way.entry.pass) (view_of into.new) }
{
    let from = way.back();
    shared.join(into, from);
}

/// Whether one of both holds.
pub(crate) fn either(one: bool, two: bool) -> bool
    ensures { result ≡ (one || two) }
{
    one || two
}

/// Takes the users apart, of whom the last one is the first user. The lists of lines and of flags have room for them.
pub(crate) fn gather_users<R: Wait, V: Serves, T: Gate + Drop>(
    shared: &SharedMount<V>,
    users: Vec<UserWorker<SharedPass<'_, R, V>, T>>,
    begun: Gathered<V>,
) -> Gathered<V>
    requires of { IsPassOf shared.now.turn begun.pass }
    requires ways { All (λ w. w.client.steps.steps.turn.now ≡ shared.now.turn) users.items }
    requires none { (begun.lines.items ≡ []) × (begun.ended_early.items ≡ []) }
    requires room { (vec_len begun.lines + vec_len users ≤ vec_capacity begun.lines)
        × (vec_len begun.ended_early + vec_len users ≤ vec_capacity begun.ended_early) }
    ensures of { IsPassOf shared.now.turn result.pass }
    ensures gathered { (v : View Entry1 V.Fixed) (scripts : List (List Command)) (count : ℕ) → v.stands ≡ 1
        → ((c : ℕ) → 1 ≤ c → c ≤ length scripts → made_by c (view_of begun.pass) ≡ [])
        → Gathers v (view_of begun.pass) count
        → Stand (HasRun (λ c way. (way.caller ≡ c) × SameSeat v (view_of way.pass))
        (λ way. own_steps (view_of way.pass).mine)) 1 scripts users.entry.items
        → Gathers v (view_of result.pass) (count + length scripts)
        × UsersGathered scripts begun.out_of_memory result.out_of_memory result.ended_early.items result.lines.items
        (view_of begun.pass) (view_of result.pass) }
{
    let (mut users, mut whole) = (users, begun);
    while let Some(user) = users.pop() {
        let UserEnd {
            steps,
            lines,
            out_of_memory,
        } = user.into_inner();
        join_way(shared, &mut whole.pass, steps);
        whole.lines.push_reserved(lines);
        whole.ended_early.push_reserved(out_of_memory);
        whole.out_of_memory = either(whole.out_of_memory, out_of_memory);
    }
    whole
}
