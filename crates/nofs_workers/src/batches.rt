//! Ways to the mount that look at several elements at once.
//!
//! Promise: whoever judges a batch hears for each element the verdict that was seen for it, and each
//! commit is one step. Where memory was wanting for a step, no room for such steps is left.
ghost use Rattle.std.specs.Prelude.{◌≡◌, ◌^◌, ◌<◌, ◌≤◌, true, length, IfOk, get_or};
ghost use Rattle.nofs_history.specs.Steps.{Fits, is_out_of_memory, with_made};
ghost use Rattle.nofs_history.specs.declared.machine.steps.ElementKind.TheVariants.{Inode};
ghost use Rattle.nofs_workers.specs.Sweep.{Looked, AreInRange, see_of as step_to_see};

use nofs_history::{ElementKind, Refusal, Reply, Step, Steps};

/// A way to the mount whose steps on elements can be made in two parts: a look at up to 64 of them,
/// and then a commit for each.
pub trait Batches: Steps {
    /// What was seen of the elements of one batch.
    type Evidence: Drop;

    /// The kind and the items that evidence is of, and the verdict for each.
    ghost looked: { Self.Evidence → Looked };

    /// Which evidence is its own.
    ghost owns: { Self → Self.Evidence → Type 0 };

    /// What is so where memory was wanting for a step on an element.
    ghost lacks_room: { Self → Type 0 };

    /// Looks at the elements. It makes no step.
    fn look_batch(&mut self, kind: ElementKind, items: &[u64]) -> Result<Self::Evidence, Refusal>
        requires count { (1 ≤ length items.now) × (length items.now ≤ 64) }
        requires in_range { AreInRange kind items.now }
        ensures made { Self.made self.new ≡ Self.made self.old }
        ensures own { IfOk result (λ evidence. owns self.new evidence) }
        ensures asked { IfOk result
            (λ evidence. ((looked evidence).kind ≡ kind) × ((looked evidence).items ≡ items.now)) }
        ensures goes { Self.goes self.old self.new };

    /// Whether the element at a place of the batch is used, by what was seen.
    fn judge(evidence: &Self::Evidence, at: u32) -> bool
        requires { at < length (looked evidence.now).items }
        ensures { result ≡ (looked evidence.now).verdict at };

    /// Makes one step: the element at a place of the batch gets its verdict where it has none yet.
    fn commit(&mut self, evidence: &Self::Evidence, at: u32, used: bool) -> Reply
        requires own { owns self.old evidence.now }
        requires at { at < length (looked evidence.now).items }
        requires judged { used ≡ (looked evidence.now).verdict at }
        ensures made { Self.made self.new ≡ with_made (Self.made self.old)
            (step_to_see (looked evidence.now).kind (get_or (looked evidence.now).items at 0)) result }
        ensures fits { Fits (step_to_see (looked evidence.now).kind (get_or (looked evidence.now).items at 0)) result }
        ensures own { owns self.new evidence.now }
        ensures memory { is_out_of_memory result ≡ true → lacks_room self.new }
        ensures goes { Self.goes self.old self.new };

    /// Makes the step that examines an element.
    fn see(&mut self, kind: ElementKind, item: u64) -> Reply
        requires in_range { kind ≡ Inode → item < 2 ^ 32 }
        ensures made { Self.made self.new ≡ with_made (Self.made self.old) (step_to_see kind item) result }
        ensures fits { Fits (step_to_see kind item) result }
        ensures memory { is_out_of_memory result ≡ true → lacks_room self.new }
        ensures goes { Self.goes self.old self.new };
}

/// The step that examines an element.
pub fn see_of(kind: ElementKind, item: u64) -> Step
    requires { kind ≡ Inode → item < 2 ^ 32 }
    ensures { result ≡ step_to_see kind item }
{
    match kind {
        ElementKind::Inode => Step::SeeInode { inode: item as u32 },
        ElementKind::Block => Step::SeeBlock { block: item },
    }
}
