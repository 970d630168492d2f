//! Write-outs behind a turn: each is one section, or one look at the turn where nothing is kept back, and makes no
//! entry.
//!
//! `clean` says that nothing is. A write-out that found nothing sets it, and each step clears it before it does
//! anything, both under the turn. So where it is set at a look, no step has begun since that write-out, and at that
//! moment nothing is kept back: `None` is the answer that the section would give then. All of these steps are
//! sequentially consistent.
ghost use Rattle.std.specs.Prelude.{◌≡◌, ◌<◌};
ghost use Rattle.nofs_turn.specs.Turn.{view_of};
ghost use Rattle.nofs_shared.specs.Passes.Entries.{own_steps};
ghost use Rattle.nofs_shared.specs.Passes.Seats.{SameSeat};

use crate::mount::serves::Serves;
use crate::passes::steps::SharedPass;
use nofs_disk::OutFault;
use nofs_turn::Section;
use nofs_workers::WritesOut;
use std::sync::Wait;
use std::sync::atomic::{AtomicBool, Ordering};

// A write-out, under the turn.
#[derive(Drop)]
struct WriteOut<'a> {
    clean: &'a AtomicBool,
}

impl<V: Serves> Section<V> for WriteOut<'_> {
    ghost use Rattle.std.specs.Prelude.{◌≡◌};

    type Out = Result<Option<u64>, OutFault>;

    ghost asks = { λ _ _ _. Unit {0} };

    ghost tells = { λ _ _ xs ys _. ys ≡ xs };

    ghost does = { λ _ _ _ _. Unit {0} };

    ghost lasts = { λ _ _ _ _ _. tt };

    fn run(self, value: &mut V) -> Result<Option<u64>, OutFault> {
        let out = value.write_out();
        if let Ok(None) = out {
            self.clean.store(true, Ordering::SeqCst);
        }
        out
    }
}

impl<R: Wait, V: Serves> SharedPass<'_, R, V> {
    // The same under the turn, whatever a write-out found before.
    fn take_out(&mut self) -> Result<Option<u64>, OutFault>
        ensures same { (self.new.turn.now ≡ self.old.turn.now) × (self.new.caller ≡ self.old.caller)
            × SameSeat (view_of self.old.pass) (view_of self.new.pass) }
        ensures made { own_steps (view_of self.new.pass).mine ≡ own_steps (view_of self.old.pass).mine }
        ensures looked { (view_of self.old.pass).looks < (view_of self.new.pass).looks }
    {
        let section = WriteOut { clean: self.clean };
        self.turn.with(self.rt, &mut self.pass, section)
    }

    /// Asks the device to write out one block that it keeps back: its number, or `None` where it says that there is
    /// none. It makes no step, and looks at the turn; no more is promised. It takes the turn once; where a write-out
    /// found none and no step has begun since, it only looks at it, and answers `None`.
    pub fn write_out(&mut self) -> Result<Option<u64>, OutFault>
        ensures same { (self.new.turn.now ≡ self.old.turn.now) × (self.new.caller ≡ self.old.caller)
            × SameSeat (view_of self.old.pass) (view_of self.new.pass) }
        ensures made { own_steps (view_of self.new.pass).mine ≡ own_steps (view_of self.old.pass).mine }
        ensures looked { (view_of self.old.pass).looks < (view_of self.new.pass).looks }
    {
        if self.clean.load(Ordering::SeqCst) {
            self.turn.count(&mut self.pass);
            return Ok(None);
        }
        self.take_out()
    }
}

impl<R: Wait, V: Serves> WritesOut for SharedPass<'_, R, V> {
    ghost use Rattle.std.specs.Prelude.{◌<◌};
    ghost use Rattle.nofs_turn.specs.Turn.{view_of};

    ghost wrote = { λ old _ new. (view_of old.pass).looks < (view_of new.pass).looks };

    fn write_out(&mut self) -> Result<Option<u64>, OutFault> {
        SharedPass::write_out(self)
    }
}
