//! What lies behind a turn: a value at which callers make steps, and whose elements are examined in batches.
//!
//! Promise: a step adds its entry alone, and a look or a write-out adds none. What was looked at may be committed in
//! every later state of the value. A step of a sweep wants for no memory while room for its entry was taken.
ghost use Rattle.std.specs.Prelude.{◌≡◌, ◌+◌, ◌++◌, ◌<◌, ◌≤◌, ℕ, Bool, List, IfOk, get_or, length};
ghost use Rattle.nofs_history.specs.declared.machine.history.Entry1.{Entry1};
ghost use Rattle.nofs_history.specs.declared.machine.steps.ElementKind.{ElementKind};
ghost use Rattle.nofs_history.specs.declared.machine.steps.Step.{Step};
ghost use Rattle.nofs_history.specs.declared.machine.replies.Reply.{Reply};
ghost use Rattle.nofs_scan.specs.Steps.Elements.{see_step};

use crate::mount::mount::Mount;
use nofs_disk::{Disk, OutFault};
use nofs_history::{ElementKind, Entry1, Refusal, Reply, Step};
use nofs_scan::{Evidence, judge};
use nofs_super::SuperBlock;
use nofs_turn::Kept;
use std::alloc::Global;

/// What no step changes of a mount: the device as it was found, the first serial, the moment at which
/// the history starts, and the numbers of the disk. No value of it is made.
pub struct Grounds<D> {
    pub found: D,
    pub first: u64,
    pub start: u64,
    pub at: SuperBlock,
}

impl<D: Disk + Drop> Kept for Mount<D> {
    type Entry = Entry1;

    type Fixed = Grounds<D>;

    ghost entries = { λ m. m.core.books.history.entries };

    ghost fixed = { λ m.
        record { found = m.found.value; first = m.first; start = m.core.books.history.start; at = m.core.books.at } };

    fn kept(&self) -> u64 {
        self.core.books.history.len()
    }
}

/// A value behind a turn at which callers make steps, one entry each, and whose elements are examined in batches. Its
/// device keeps blocks back in a step alone, not in a look or a commit: so where a write-out found none, there is none
/// until the next step. Neither a step nor a look nor a commit writes a block out.
pub trait Serves: Kept<Entry = Entry1> + Drop {
    ghost use Rattle.nofs_shared.specs.Acts.Sees.{FindsRoom};
    ghost use Rattle.nofs_shared.specs.Passes.Entries.{TellsStep};

    /// What was found of some elements.
    type Evidence: Drop;

    /// The kind of these elements, their numbers, and the verdict at each place.
    ghost kind_of: { Self.Evidence → ElementKind };

    ghost items_in: { Self.Evidence → List ℕ };

    ghost verdict_in: { Self.Evidence → ℕ → Bool };

    /// It was found in this value, before its entries were these or more.
    ghost is_of: { Self.Evidence → Self.Fixed → List Entry1 → Type 0 };

    /// It stays so with each entry.
    ghost is_of_more: { (e : Self.Evidence) (f : Self.Fixed) (xs ys : List Entry1) → is_of e f xs
        → is_of e f (xs ++ ys) };

    /// For how many entries of the sweeps room was taken.
    ghost room_in: { Self.Fixed → ℕ };

    /// What a step did to the device, from the value before it to the value after it.
    ghost does: { Self → Self → Step → Reply → Type 0 };

    /// What a look leaves of the device, and what the value learns by it.
    ghost learns: { Self → Self → Type 0 };

    /// What a commit of what was found leaves of the device.
    ghost stays: { Self → Self → Type 0 };

    /// What a commit of the verdict at a place says, where the entries before it were these.
    ghost commits: { Self.Evidence → ℕ → Self.Fixed → List Entry1 → Reply → Type 0 };

    /// Makes one step of a caller.
    fn serve(&mut self, alloc: Global, caller: u32, step: Step) -> Reply
        ensures fixed { Self.fixed self.new ≡ Self.fixed self.old }
        ensures tells { TellsStep caller step (Self.entries self.old) (Self.entries self.new) result }
        ensures room { FindsRoom (room_in (Self.fixed self.old)) caller step (Self.entries self.old) result }
        ensures does { does self.old self.new step result };

    /// Looks at 1 to 64 elements. It makes no entry.
    fn look(
        &mut self,
        alloc: Global,
        kind: ElementKind,
        items: &[u64],
    ) -> Result<Self::Evidence, Refusal>
        requires count { (1 ≤ length items.now) × (length items.now ≤ 64) }
        ensures fixed { Self.fixed self.new ≡ Self.fixed self.old }
        ensures entries { Self.entries self.new ≡ Self.entries self.old }
        ensures asked { IfOk result (λ e. (kind_of e ≡ kind) × (items_in e ≡ items.now)) }
        ensures own { IfOk result (λ e. is_of e (Self.fixed self.new) (Self.entries self.new)) }
        ensures learns { learns self.old self.new };

    /// The verdict at a place, as it was found.
    fn judge(evidence: &Self::Evidence, at: u32) -> bool
        requires { at < length (items_in evidence.now) }
        ensures { result ≡ verdict_in evidence.now at };

    /// Commits the verdict at a place as one step of a caller. It takes no memory.
    fn settle(&mut self, caller: u32, evidence: &Self::Evidence, at: u32, used: bool) -> Reply
        requires own { is_of evidence.now (Self.fixed self.old) (Self.entries self.old) }
        requires within { at < length (items_in evidence.now) }
        requires used { used ≡ verdict_in evidence.now at }
        ensures fixed { Self.fixed self.new ≡ Self.fixed self.old }
        ensures tells { TellsStep caller (see_step (kind_of evidence.now) (get_or (items_in evidence.now) at 0))
            (Self.entries self.old) (Self.entries self.new) result }
        ensures room { FindsRoom (room_in (Self.fixed self.old)) caller
            (see_step (kind_of evidence.now) (get_or (items_in evidence.now) at 0)) (Self.entries self.old) result }
        ensures commits { commits evidence.now at (Self.fixed self.old) (Self.entries self.old) result }
        ensures stays { stays self.old self.new };

    /// Asks the device to write out one block that it keeps back: its number, or `None` where it says that there is
    /// none. It makes no entry. That a block is written out is not promised here: the calls of a device are not seen.
    fn write_out(&mut self) -> Result<Option<u64>, OutFault>
        ensures fixed { Self.fixed self.new ≡ Self.fixed self.old }
        ensures entries { Self.entries self.new ≡ Self.entries self.old };
}

impl<D: Disk + Drop> Serves for Mount<D> {
    ghost use Rattle.nofs_scan.specs.Steps.Elements.{items_of, verdict_at};
    ghost use Rattle.nofs_scan.specs.Steps.Looks.{OnlyLearns};
    ghost use Rattle.nofs_shared.specs.Mount.Causes.{MeetsSound, StepCauses, StepGiven, StepOrder};
    ghost use Rattle.nofs_shared.specs.Mount.Commits.{CommitsAt};
    ghost use Rattle.nofs_shared.specs.Mount.Earlier.{IsEarlier, earlier-more};

    type Evidence = Evidence<D>;

    ghost kind_of = { λ e. e.kind };

    ghost items_in = { λ e. items_of e.verdicts };

    ghost verdict_in = { λ e at. (verdict_at e.verdicts at).used };

    ghost is_of = { λ e f xs. IsEarlier (D.state f.found)
        (D.state e.core.value.disk) e.core.value.books f.first f.start f.at xs };

    ghost is_of_more = { λ e f xs ys h. earlier-more h ys };

    ghost room_in = { λ f. f.at.inodes + f.at.blocks };

    ghost does = { λ old new s r. StepCauses (D.state old.core.disk) (D.state new.core.disk) old.core.books
        new.core.books r × StepGiven old.core.books s r × StepOrder (D.state old.core.disk) (D.state new.core.disk)
        (MeetsSound (D.state old.found.value) (D.state old.core.disk) old.core.books) s r
        new.core.books.history.entries };

    ghost learns = { λ old new. OnlyLearns (D.state old.core.disk) old.core.books
        (D.state new.core.disk) new.core.books };

    ghost stays = { λ old new. new.core.disk ≡ old.core.disk };

    ghost commits = { λ e at f xs r. ∥ CommitsAt D.state f.found f.first xs e.kind
        (verdict_at e.verdicts at).item (verdict_at e.verdicts at).used r ∥₁ };

    fn serve(&mut self, alloc: Global, caller: u32, step: Step) -> Reply {
        self.step(alloc, caller, step)
    }

    fn look(
        &mut self,
        alloc: Global,
        kind: ElementKind,
        items: &[u64],
    ) -> Result<Evidence<D>, Refusal> {
        self.look_batch(alloc, kind, items)
    }

    fn judge(evidence: &Evidence<D>, at: u32) -> bool {
        judge(evidence, at)
    }

    fn settle(&mut self, caller: u32, found: &Evidence<D>, at: u32, used: bool) -> Reply {
        self.commit(caller, found, at, used)
    }

    fn write_out(&mut self) -> Result<Option<u64>, OutFault> {
        Mount::write_out(self)
    }
}
