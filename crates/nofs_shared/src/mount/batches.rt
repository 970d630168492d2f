//! Several elements of a mount are looked at together, and their verdicts committed one by one.
ghost use Rattle.std.specs.Prelude.{◌≡◌, ◌-◌, ◌++◌, ◌∷◌, ◌<◌, ◌≤◌, ℕ, [], true, false, All, IfOk, IfErr, length};
ghost use Rattle.nofs_history.specs.Claims.{no_claims};
ghost use Rattle.nofs_history.specs.Steps.{is_out_of_memory};
ghost use Rattle.nofs_history.specs.Writes.{makes_calls};
ghost use Rattle.nofs_state.specs.Books.Maps.{with_history};
ghost use Rattle.nofs_state.specs.Cores.Steps.{entry};
ghost use Rattle.nofs_state.specs.Books.Agreement.{with_agreement};
ghost use Rattle.nofs_scan.specs.Steps.Elements.{HasElement, items_of, see_step, verdict_at};
ghost use Rattle.nofs_scan.specs.Steps.Looks.{OnlyLearns};
ghost use Rattle.nofs_shared.specs.Index.Truths.{IsTrueIndex};
ghost use Rattle.nofs_shared.specs.declared.index.Index.{Index};
ghost use Rattle.nofs_shared.specs.Mount.Batches as batches;
ghost use Rattle.nofs_shared.specs.Mount.Commits.{IsCommit, IsVerdict};
ghost use Rattle.nofs_shared.specs.Mount.Earlier.{IsEarlier, IsOfBooks};
ghost use Rattle.nofs_shared.specs.Mount.Books.{BooksGoOn, CanStep};
ghost use Rattle.nofs_shared.specs.Mount.Invariant.{IsMount};
ghost use Rattle.nofs_shared.specs.Passes.Entries.{TellsStep};
ghost use Rattle.nofs_shared.specs.Acts.Sees.{TakesKept};

use crate::acts::room::take_room;
use crate::mount::mount::Mount;
use nofs_disk::Disk;
use nofs_history::{ElementKind, NO_CLAIMS, Refusal, Reply, Step};
use nofs_scan::{Evidence, commit, look_batch, step_of};
use nofs_state::Core;
use nofs_super::SuperBlock;
use std::alloc::Global;

// Whether the disk has no such element.
fn is_beyond(kind: ElementKind, at: &SuperBlock, item: u64) -> bool
    ensures on { result ≡ false → HasElement kind at.now item }
    ensures off { result ≡ true → HasElement kind at.now item → ⊥ }
{
    match kind {
        ElementKind::Inode => item == 0 || item > at.inodes,
        ElementKind::Block => item >= at.blocks,
    }
}

// Whether it has them all.
fn are_elements(kind: ElementKind, at: &SuperBlock, items: &[u64]) -> bool
    ensures all { result ≡ true → All (HasElement kind at.now) items.now }
    ensures some { result ≡ false → All (HasElement kind at.now) items.now → ⊥ }
{
    for place in 0..items.len() {
        if is_beyond(kind, at, items[place]) {
            return false;
        }
    }
    true
}

// Adds the entry of a step of a mount that is stopped. It takes no memory, and asks nothing of the device.
fn keep_stopped<D: Disk + Drop>(core: &mut Core<D>, caller: u32, step: Step) -> Reply
    requires { 0 < core.old.books.history.spare }
    ensures answer { result ≡ Reply.Refused Refusal.Stopped }
    ensures disk { core.new.disk ≡ core.old.disk }
    ensures books { core.new.books ≡ with_history core.old.books (record {
      start = core.old.books.history.start;
      entries = core.old.books.history.entries
          ++ entry caller (D.state core.old.disk) (D.state core.old.disk) step no_claims
          (Reply.Refused Refusal.Stopped) ∷ [];
      spare = core.old.books.history.spare - 1;
    }) }
{
    let from = core.disk.moment();
    core.keep_step(
        caller,
        from,
        step,
        Reply::Refused(Refusal::Stopped),
        NO_CLAIMS,
    );
    Reply::Refused(Refusal::Stopped)
}

// Commits a verdict of an earlier state of the mount, with its entry. It takes no memory, and asks nothing of the
// device.
fn commit_in<D: Disk + Drop>(
    core: &mut Core<D>,
    caller: u32,
    evidence: &Evidence<D>,
    at: u32,
    used: bool,
) -> Reply
    requires can { CanStep (D.state core.old.disk) core.old.books }
    requires earlier { IsOfBooks evidence.now.core.value.books core.old.books }
    requires verdict { IsVerdict evidence.now.verdicts at used }
    ensures keeps { (found : D) (first : ℕ)
        → IsMount (D.state found) (D.state evidence.now.core.value.disk) first evidence.now.core.value.books
        → IsMount (D.state found) (D.state core.old.disk) first core.old.books
        → IsMount (D.state found) (D.state core.new.disk) first core.new.books }
    ensures notes { (found : D) (first : ℕ) (index : Index)
        → IsMount (D.state found) (D.state evidence.now.core.value.disk) first evidence.now.core.value.books
        → IsMount (D.state found) (D.state core.old.disk) first core.old.books
        → IsTrueIndex (D.state found) (D.state core.old.disk) core.old.books index
        → IsTrueIndex (D.state found) (D.state core.new.disk) core.new.books index }
    ensures commits { (found : D) (first : ℕ)
        → IsMount (D.state found) (D.state evidence.now.core.value.disk) first evidence.now.core.value.books
        → IsMount (D.state found) (D.state core.old.disk) first core.old.books
        → IsCommit (D.state found) (D.state core.old.disk) core.old.books core.new.books evidence.now.kind
        (verdict_at evidence.now.verdicts at).item used result }
    ensures tells { TellsStep caller (see_step evidence.now.kind (verdict_at evidence.now.verdicts at).item)
        core.old.books.history.entries core.new.books.history.entries result }
    ensures goes_on { BooksGoOn (D.state core.new.disk) core.old.books core.new.books }
    ensures sees { is_out_of_memory result ≡ false }
    ensures quiet { makes_calls result ≡ false }
    ensures disk { core.new.disk ≡ core.old.disk }
{
    let item = evidence.verdicts.item(at);
    let step = step_of(evidence.kind, item);
    if core.books.stopped {
        return keep_stopped(core, caller, step);
    }
    let from = core.disk.moment();
    let stands = commit(core, evidence, at, used);
    core.keep_step(caller, from, step, Reply::Seen { used: stands }, NO_CLAIMS);
    Reply::Seen { used: stands }
}

impl<D: Disk + Drop> Mount<D> {
    /// Looks at 1 to 64 elements. It makes no entry, and changes no verdict: each is committed later. What it finds of
    /// inodes on the ways up, which are agreed and which are not, the mount knows from then on.
    ///
    /// # Errors
    ///
    /// `BadRange` exactly where some element is not on the disk; then `Stopped` exactly where a write failed before;
    /// `ReadFault` only where the device's count of faults rose; `OutOfMemory`.
    pub fn look_batch(
        &mut self,
        alloc: Global,
        kind: ElementKind,
        items: &[u64],
    ) -> Result<Evidence<D>, Refusal>
        requires count { (1 ≤ length items.now) × (length items.now ≤ 64) }
        ensures same { (self.new.core.books ≡ with_agreement self.old.core.books self.new.core.books.agreement)
            × (self.new.found ≡ self.old.found) × (self.new.first ≡ self.old.first) × (self.new.kept ≡ self.old.kept) }
        ensures learns { OnlyLearns (D.state self.old.core.disk) self.old.core.books
            (D.state self.new.core.disk) self.new.core.books }
        ensures refused { IfErr result (batches.BatchFails (D.state self.old.core.disk) self.old.core.books
            (D.state self.new.core.disk) kind items.now) }
        ensures beyond { (All (HasElement kind self.old.core.books.at) items.now → ⊥) → result ≡ Err Refusal.BadRange }
        ensures stopped { All (HasElement kind self.old.core.books.at) items.now → self.old.core.books.stopped ≡ true
            → result ≡ Err Refusal.Stopped }
        ensures asked { IfOk result (λ evidence. (evidence.kind ≡ kind) × (items_of evidence.verdicts ≡ items.now)) }
        ensures own { IfOk result (λ evidence. IsEarlier (D.state self.new.found.value)
            (D.state evidence.core.value.disk) evidence.core.value.books
            self.new.first self.new.core.books.history.start self.new.core.books.at
            self.new.core.books.history.entries) }
    {
        if !are_elements(kind, &self.core.books.at, items) {
            return Err(Refusal::BadRange);
        }
        look_batch(alloc, &mut self.core, kind, items)
    }

    /// Commits a verdict of this mount's as one See step: it is set where the element was not examined
    /// since, and else the one that stands stays and is the answer. Nothing is asked of the device. Over a disk that
    /// tells and was found sound, the answer is the verdict of the disk as it is now.
    pub fn commit(&mut self, caller: u32, evidence: &Evidence<D>, at: u32, used: bool) -> Reply
        requires own { IsEarlier (D.state self.old.found.value)
            (D.state evidence.now.core.value.disk) evidence.now.core.value.books
            self.old.first self.old.core.books.history.start self.old.core.books.at
            self.old.core.books.history.entries }
        requires verdict { IsVerdict evidence.now.verdicts at used }
        ensures commits { ∥ IsCommit (D.state self.old.found.value)
            (D.state self.old.core.disk) self.old.core.books self.new.core.books
            evidence.now.kind (verdict_at evidence.now.verdicts at).item used result ∥₁ }
        ensures tells { TellsStep caller (see_step evidence.now.kind (verdict_at evidence.now.verdicts at).item)
            self.old.core.books.history.entries self.new.core.books.history.entries result }
        ensures same { (self.new.found ≡ self.old.found) × (self.new.first ≡ self.old.first)
            × (self.new.core.books.history.start ≡ self.old.core.books.history.start)
            × (self.new.core.books.at ≡ self.old.core.books.at) }
        ensures kept { TakesKept caller
            (see_step evidence.now.kind (verdict_at evidence.now.verdicts at).item) result self.old.kept self.new.kept }
        ensures disk { self.new.core.disk ≡ self.old.core.disk }
        ensures own { IsEarlier (D.state self.new.found.value)
            (D.state evidence.now.core.value.disk) evidence.now.core.value.books
            self.new.first self.new.core.books.history.start self.new.core.books.at
            self.new.core.books.history.entries }
    {
        let item = evidence.verdicts.item(at);
        let step = step_of(evidence.kind, item);
        let history = &mut self.core.books.history;
        match take_room(history, self.kept, caller, &step) {
            None => Reply::Refused(Refusal::OutOfMemory),
            Some(left) => {
                self.kept = left;
                commit_in(&mut self.core, caller, evidence, at, used)
            }
        }
    }
}
