//! The steps that a stand-in made, for proofs alone.
ghost use Rattle.std.specs.Prelude.{◌≡◌, []};
ghost use Rattle.nofs_history.specs.Steps.{with_made};

use nofs_history::{Reply, Step};
use std::marker::Model;
use std::mem;
use std::snapshot::Snapshot;

/// The steps, the last one first. Snapshots take no memory.
#[derive(Drop)]
enum Past {
    Start,
    Made(Snapshot<Step>, Snapshot<Reply>, Snapshot<Past>),
}

/// The steps that were made, each with its reply, in order. It takes no memory.
#[derive(Drop)]
pub struct MadeSteps {
    past: Past,
}

impl Model for MadeSteps {
    ghost use Rattle.std.specs.Prelude.{List, [], ◌∷◌, ◌++◌};
    ghost use Rattle.nofs_history.specs.Steps.{Made};
    ghost use Rattle.nofs_test_standin.specs.declared.made.Past.TheOpen.{Past-F};
    ghost use Rattle.nofs_test_standin.specs.declared.made.Past.TheFolds.{fold-Past};

    ghost Value = { List Made };

    ghost view = { λ made. fold-Past (List Made) (λ past. elim past [
      | Past-F.Start ↦ []
      | Past-F.Made step reply earlier ↦ earlier.value ++ (step.value, reply.value) ∷ []
    ]) made.past };
}

impl MadeSteps {
    /// No step.
    pub fn new() -> Self
        ensures { result ≡ [] }
    {
        MadeSteps { past: Past::Start }
    }

    /// Adds a step and its reply, but not where memory was wanting.
    pub fn add(&mut self, step: &Step, reply: &Reply)
        ensures { self.new ≡ with_made self.old step.now reply.now }
    {
        if !reply.is_out_of_memory() {
            let earlier = mem::replace(&mut self.past, Past::Start);
            self.past = Past::Made(
                Snapshot::of(step),
                Snapshot::of(reply),
                Snapshot::of(&earlier),
            );
        }
    }
}
