//! The worker that examines all inodes, and the one that examines all blocks.
//!
//! Promise: one step for each place of the order, in order; fewer only where memory was wanting, and no room for such
//! steps is then left.
ghost use Rattle.std.specs.Prelude.{◌≡◌, ◌^◌, ◌<◌, true, false};
ghost use Rattle.nofs_history.specs.declared.machine.steps.ElementKind.TheVariants.{Inode, Block};
ghost use Rattle.nofs_workers.specs.Sweep.{Sweeps};

use crate::batches::Batches;
use crate::course::Course;
use crate::gate::Gate;
use crate::sweep::sweep;
use crate::tasks::Inodes;
use nofs_history::ElementKind;

/// A worker that examines inodes: item `n` of its order is inode `n + 1`.
#[derive(Drop)]
pub struct InodeSweeper<S: Batches, O: Course, T: Gate> {
    /// The way to the mount.
    pub steps: S,
    /// The inodes, in their order.
    pub inodes: Inodes<O>,
    gate: T,
    /// Whether the last call of `work` ended for want of memory.
    pub out_of_memory: bool,
}

impl<S: Batches, O: Course, T: Gate> InodeSweeper<S, O, T> {
    /// A worker that has examined no inode yet. It takes no memory.
    pub fn new(steps: S, order: O, gate: T) -> Self
        requires { O.count_of order < 2 ^ 32 }
        ensures { (result.steps ≡ steps) × (result.inodes.order ≡ order) × (result.out_of_memory ≡ false) }
    {
        InodeSweeper {
            steps,
            inodes: Inodes::new(order),
            gate,
            out_of_memory: false,
        }
    }

    /// Makes one step for each place of the order. It ends early for want of memory alone.
    pub fn work(&mut self)
        ensures order { self.new.inodes ≡ self.old.inodes }
        ensures swept { Sweeps (O.has_item self.old.inodes.order) Inode 0 (O.count_of self.old.inodes.order)
            self.new.out_of_memory (S.made self.old.steps) (S.made self.new.steps) }
        ensures room { self.new.out_of_memory ≡ true → S.lacks_room self.new.steps }
        ensures goes { S.goes self.old.steps self.new.steps }
    {
        let InodeSweeper {
            steps,
            inodes,
            gate,
            out_of_memory,
        } = self;
        *out_of_memory = sweep(ElementKind::Inode, steps, &inodes.order, gate);
    }
}

impl<S: Batches, O: Course + Drop, T: Gate + Drop> InodeSweeper<S, O, T> {
    /// The way to the mount, handed back.
    pub fn into_inner(self) -> S
        ensures { result ≡ self.steps }
    {
        let InodeSweeper { steps, .. } = self;
        steps
    }
}

/// A worker that examines blocks: item `n` of its order is block `n`.
#[derive(Drop)]
pub struct BlockSweeper<S: Batches, O: Course, T: Gate> {
    /// The way to the mount.
    pub steps: S,
    /// The blocks, in their order.
    pub order: O,
    gate: T,
    /// Whether the last call of `work` ended for want of memory.
    pub out_of_memory: bool,
}

impl<S: Batches, O: Course, T: Gate> BlockSweeper<S, O, T> {
    /// A worker that has examined no block yet. It takes no memory.
    pub fn new(steps: S, order: O, gate: T) -> Self
        ensures { (result.steps ≡ steps) × (result.order ≡ order) × (result.out_of_memory ≡ false) }
    {
        BlockSweeper {
            steps,
            order,
            gate,
            out_of_memory: false,
        }
    }

    /// Makes one step for each place of the order. It ends early for want of memory alone.
    pub fn work(&mut self)
        ensures order { self.new.order ≡ self.old.order }
        ensures swept { Sweeps (O.has_item self.old.order) Block 0 (O.count_of self.old.order)
            self.new.out_of_memory (S.made self.old.steps) (S.made self.new.steps) }
        ensures room { self.new.out_of_memory ≡ true → S.lacks_room self.new.steps }
        ensures goes { S.goes self.old.steps self.new.steps }
    {
        self.out_of_memory = sweep(
            ElementKind::Block,
            &mut self.steps,
            &self.order,
            &mut self.gate,
        );
    }
}

impl<S: Batches, O: Course + Drop, T: Gate + Drop> BlockSweeper<S, O, T> {
    /// The way to the mount, handed back.
    pub fn into_inner(self) -> S
        ensures { result ≡ self.steps }
    {
        let BlockSweeper { steps, .. } = self;
        steps
    }
}
