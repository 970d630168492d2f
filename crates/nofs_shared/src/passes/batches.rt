//! Batches of verdicts behind a turn: a look is one section, and each commit another.
ghost use Rattle.std.specs.Prelude.{◌≡◌, ◌<◌, ◌≤◌, IfOk, get_or, length};
ghost use Rattle.nofs_turn.specs.Passes.{MayRun};
ghost use Rattle.nofs_turn.specs.Turn.{view_of};
ghost use Rattle.nofs_history.specs.Steps.{Fits, with_made};
ghost use Rattle.nofs_scan.specs.Steps.Elements as elements;
ghost use Rattle.nofs_shared.specs.Mount.Commits.{CommitRan};
ghost use Rattle.nofs_shared.specs.Passes.Entries.{own_steps};
ghost use Rattle.nofs_shared.specs.Passes.Rooms.{LookRan, StepRan};
ghost use Rattle.nofs_shared.specs.Passes.Seats.{SameSeat};

use crate::mount::serves::Serves;
use crate::passes::steps::SharedPass;
use nofs_history::{ElementKind, Refusal, Reply, Steps};
use nofs_turn::Section;
use nofs_workers::{Batches, see_of};
use std::alloc::Global;
use std::sync::Wait;

// A look, under the turn.
#[derive(Drop)]
struct Look<'a> {
    alloc: Global,
    kind: ElementKind,
    items: &'a [u64],
}

impl<V: Serves> Section<V> for Look<'_> {
    ghost use Rattle.std.specs.Prelude.{◌≡◌, ◌≤◌, IfOk, length};

    type Out = Result<V::Evidence, Refusal>;

    ghost asks = { λ s _ _. (1 ≤ length s.items.now) × (length s.items.now ≤ 64) };

    ghost tells = { λ s f xs ys r. (ys ≡ xs) × IfOk r (λ e. (V.kind_of e ≡ s.kind) × (V.items_in e ≡ s.items.now))
        × IfOk r (λ e. V.is_of e f ys) };

    ghost does = { λ _ x y _. V.learns x y };

    ghost lasts = { λ _ _ _ _ asked. asked };

    fn run(self, value: &mut V) -> Result<V::Evidence, Refusal> {
        value.look(self.alloc, self.kind, self.items)
    }
}

// A commit, under the turn.
#[derive(Drop)]
struct Settle<'a, V: Serves> {
    caller: u32,
    evidence: &'a V::Evidence,
    at: u32,
    used: bool,
}

impl<V: Serves> Section<V> for Settle<'_, V> {
    ghost use Rattle.std.specs.Prelude.{◌≡◌, ◌<◌, get_or, length};
    ghost use Rattle.nofs_scan.specs.Steps.Elements.{see_step};
    ghost use Rattle.nofs_shared.specs.Acts.Sees.{FindsRoom};
    ghost use Rattle.nofs_shared.specs.Passes.Entries.{TellsStep};

    type Out = Reply;

    ghost asks = { λ s f xs. V.is_of s.evidence.now f xs × (s.at < length (V.items_in s.evidence.now))
        × (s.used ≡ V.verdict_in s.evidence.now s.at) };

    ghost tells = { λ s f xs ys r. TellsStep s.caller
        (see_step (V.kind_of s.evidence.now) (get_or (V.items_in s.evidence.now) s.at 0)) xs ys r
        × V.commits s.evidence.now s.at f xs r
        × FindsRoom (V.room_in f) s.caller
        (see_step (V.kind_of s.evidence.now) (get_or (V.items_in s.evidence.now) s.at 0)) xs r };

    ghost does = { λ _ x y _. V.stays x y };

    ghost lasts = { λ s f xs ys asked. (V.is_of_more s.evidence.now f xs ys asked.0, asked.1, asked.2) };

    fn run(self, value: &mut V) -> Reply {
        value.settle(self.caller, self.evidence, self.at, self.used)
    }
}

impl<R: Wait, V: Serves> SharedPass<'_, R, V> {
    /// Looks at 1 to 64 elements, in one section. It makes no entry, and of the value it does what `Serves` says of a
    /// look.
    pub fn look_batch(&mut self, kind: ElementKind, items: &[u64]) -> Result<V::Evidence, Refusal>
        requires count { (1 ≤ length items.now) × (length items.now ≤ 64) }
        ensures same { (self.new.turn.now ≡ self.old.turn.now) × (self.new.caller ≡ self.old.caller)
            × SameSeat (view_of self.old.pass) (view_of self.new.pass) }
        ensures made { own_steps (view_of self.new.pass).mine ≡ own_steps (view_of self.old.pass).mine }
        ensures asked { IfOk result (λ e. (V.kind_of e ≡ kind) × (V.items_in e ≡ items.now)) }
        ensures own { IfOk result (λ e. MayRun (V.is_of e) (view_of self.new.pass)) }
        ensures ran { LookRan V.entries V.fixed V.learns (view_of self.old.pass) (view_of self.new.pass) result }
    {
        let look = Look {
            alloc: self.alloc,
            kind,
            items,
        };
        self.turn.with(self.rt, &mut self.pass, look)
    }

    /// Commits the verdict at a place, in one section, as one step of this caller, which leaves of the device what
    /// `Serves` says of a commit. What a commit says holds of the entries that it met: at a mount over a disk that
    /// tells and was found sound, the answer is the verdict of the disk of that moment.
    pub fn commit(&mut self, evidence: &V::Evidence, at: u32, used: bool) -> Reply
        requires own { MayRun (V.is_of evidence.now) (view_of self.old.pass) }
        requires within { at < length (V.items_in evidence.now) }
        requires used { used ≡ V.verdict_in evidence.now at }
        ensures same { (self.new.turn.now ≡ self.old.turn.now) × (self.new.caller ≡ self.old.caller)
            × SameSeat (view_of self.old.pass) (view_of self.new.pass) }
        ensures made { own_steps (view_of self.new.pass).mine ≡ with_made (own_steps (view_of self.old.pass).mine)
            (elements.see_step (V.kind_of evidence.now) (get_or (V.items_in evidence.now) at 0)) result }
        ensures fits { Fits
            (elements.see_step (V.kind_of evidence.now) (get_or (V.items_in evidence.now) at 0)) result }
        ensures own { MayRun (V.is_of evidence.now) (view_of self.new.pass) }
        ensures right { CommitRan (V.commits evidence.now at) (view_of self.old.pass) (view_of self.new.pass) result }
        ensures ran { StepRan V.entries V.fixed V.room_in (λ x y _ _. V.stays x y) self.old.caller
            (elements.see_step (V.kind_of evidence.now) (get_or (V.items_in evidence.now) at 0))
            (view_of self.old.pass) (view_of self.new.pass) result }
    {
        let settle = Settle {
            caller: self.caller,
            evidence,
            at,
            used,
        };
        self.turn.with(self.rt, &mut self.pass, settle)
    }
}

impl<R: Wait, V: Serves> Batches for SharedPass<'_, R, V> {
    ghost use Rattle.nofs_turn.specs.Turn.{view_of};
    ghost use Rattle.nofs_turn.specs.Passes.{MayRun};
    ghost use Rattle.nofs_shared.specs.Passes.Rooms.{LacksRoom};

    type Evidence = V::Evidence;

    ghost looked = { λ e. record { kind = V.kind_of e; items = V.items_in e; verdict = V.verdict_in e } };

    ghost owns = { λ p e. MayRun (V.is_of e) (view_of p.pass) };

    ghost lacks_room = { λ p. LacksRoom V.room_in p.caller (view_of p.pass) };

    fn look_batch(&mut self, kind: ElementKind, items: &[u64]) -> Result<V::Evidence, Refusal> {
        SharedPass::look_batch(self, kind, items)
    }

    fn judge(evidence: &V::Evidence, at: u32) -> bool {
        V::judge(evidence, at)
    }

    fn commit(&mut self, evidence: &V::Evidence, at: u32, used: bool) -> Reply {
        SharedPass::commit(self, evidence, at, used)
    }

    fn see(&mut self, kind: ElementKind, item: u64) -> Reply {
        self.step(see_of(kind, item))
    }
}
