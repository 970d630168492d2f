//! What works, and what each kind of worker has then done.
ghost use Rattle.std.specs.Prelude.{◌≡◌, List};
ghost use Rattle.nofs_history.specs.Steps.{Made};

use nofs_history::Steps;
use nofs_workers::{
    Batches, BlockSweeper, Course, Flusher, Gate, InodeSweeper, UserWorker, WritesOut,
};

/// Something that does its work when it is called.
pub trait Works {
    /// What a call of `work` has done.
    ghost worked: { Self → Self → Type 0 };

    /// Does its work.
    fn work(&mut self)
        ensures { worked self.old self.new };
}

/// Someone who works at a mount through one way to it.
pub trait Visits {
    /// What a visitor must bring.
    ghost is_ready: { Self → Type 0 };

    /// What a call of `visit` has done, by the steps that were made before it and those after it.
    ghost visited: { Self → Self → List Made → List Made → Type 0 };

    /// Where memory was wanting to begin, no step was made, and the visitor stays as it was.
    ghost visited_none: { (visitor : Self) (made : List Made) → is_ready visitor → visited visitor visitor made made };

    /// Works by making steps.
    fn visit<S: Steps>(&mut self, steps: &mut S)
        requires { is_ready self.old }
        ensures visited { visited self.old self.new (S.made steps.old) (S.made steps.new) }
        ensures goes { S.goes steps.old steps.new };
}

impl<S: Batches, O: Course, T: Gate> Works for InodeSweeper<S, O, T> {
    ghost use Rattle.std.specs.Prelude.{◌≡◌, true};
    ghost use Rattle.nofs_history.specs.declared.machine.steps.ElementKind.TheVariants.{Inode};
    ghost use Rattle.nofs_workers.specs.Sweep.{Sweeps};

    ghost worked = { λ old new. (new.inodes ≡ old.inodes)
        × Sweeps (O.has_item old.inodes.order) Inode 0 (O.count_of old.inodes.order) new.out_of_memory
        (S.made old.steps) (S.made new.steps)
        × S.goes old.steps new.steps
        × (new.out_of_memory ≡ true → S.lacks_room new.steps) };

    fn work(&mut self) {
        InodeSweeper::work(self);
    }
}

impl<S: Batches, O: Course, T: Gate> Works for BlockSweeper<S, O, T> {
    ghost use Rattle.std.specs.Prelude.{◌≡◌, true};
    ghost use Rattle.nofs_history.specs.declared.machine.steps.ElementKind.TheVariants.{Block};
    ghost use Rattle.nofs_workers.specs.Sweep.{Sweeps};

    ghost worked = { λ old new. (new.order ≡ old.order)
        × Sweeps (O.has_item old.order) Block 0 (O.count_of old.order) new.out_of_memory (S.made old.steps)
        (S.made new.steps)
        × S.goes old.steps new.steps
        × (new.out_of_memory ≡ true → S.lacks_room new.steps) };

    fn work(&mut self) {
        BlockSweeper::work(self);
    }
}

impl<S: Steps, T: Gate> Works for UserWorker<S, T> {
    ghost use Rattle.nofs_workers.specs.User.{WorkedAsUser};

    ghost worked = { WorkedAsUser S.made S.goes };

    fn work(&mut self) {
        UserWorker::work(self);
    }
}

impl<S: WritesOut, T: Gate> Works for Flusher<S, T> {
    ghost use Rattle.nofs_workers.specs.Flusher.{Flushes};

    ghost worked = { Flushes S.made S.wrote S.goes };

    fn work(&mut self) {
        Flusher::work(self);
    }
}
