//! The worker that writes dirty blocks out.
//!
//! Promise: it writes out as often as it was told to, and makes no step. It ends early at a fault, or
//! where memory is wanting.
ghost use Rattle.std.specs.Prelude.{◌≡◌, ℕ, Option};
ghost use Rattle.std.specs.declared.result.Result.{Result};
ghost use Rattle.nofs_disk.specs.declared.OutFault.{OutFault};
ghost use Rattle.nofs_workers.specs.Flusher.{WroteOut, Flushes};

use crate::gate::Gate;
use nofs_disk::OutFault;
use nofs_history::Steps;

/// A way to the mount through which dirty blocks are written out.
pub trait WritesOut: Steps {
    /// What one write-out did, from before it to after it, where it answered so.
    ghost wrote: { Self → Result (Option ℕ) OutFault → Self → Type 0 };

    /// Writes one dirty block out, and answers which one; none where no block is dirty. It makes no
    /// step.
    fn write_out(&mut self) -> Result<Option<u64>, OutFault>
        ensures made { Self.made self.new ≡ Self.made self.old }
        ensures wrote { wrote self.old result self.new }
        ensures goes { Self.goes self.old self.new };
}

/// A worker that writes out so many times.
#[derive(Drop)]
pub struct Flusher<S: WritesOut, T: Gate> {
    /// The way to the mount.
    pub steps: S,
    gate: T,
    /// How often it writes out.
    pub turns: u64,
}

fn write_out_each<S: WritesOut, T: Gate>(steps: &mut S, gate: &mut T, turns: u64)
    ensures made { S.made steps.new ≡ S.made steps.old }
    ensures wrote { WroteOut S.wrote turns steps.old steps.new }
    ensures goes { S.goes steps.old steps.new }
{
    for _ in 0..turns {
        gate.before();
        let out = steps.write_out();
        gate.after();
        if out.is_err() {
            return;
        }
    }
}

impl<S: WritesOut, T: Gate> Flusher<S, T> {
    /// A worker that has written nothing yet. It takes no memory.
    pub fn new(steps: S, gate: T, turns: u64) -> Self
        ensures { (result.steps ≡ steps) × (result.turns ≡ turns) }
    {
        Flusher { steps, gate, turns }
    }

    /// Writes out `turns` times. It ends early at a fault, or where memory is wanting.
    pub fn work(&mut self)
        ensures { Flushes S.made S.wrote S.goes self.old self.new }
    {
        let Flusher { steps, gate, turns } = self;
        write_out_each(steps, gate, *turns);
    }
}

impl<S: WritesOut, T: Gate + Drop> Flusher<S, T> {
    /// The way to the mount, handed back.
    pub fn into_inner(self) -> S
        ensures { result ≡ self.steps }
    {
        let Flusher { steps, .. } = self;
        steps
    }
}
