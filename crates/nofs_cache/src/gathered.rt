//! A disk that, once it was flushed, writes nothing out between two flushes.
//!
//! Promise: it is the disk below but in this. From its first flush that succeeds on, what that one keeps back it keeps
//! until the next flush, and no write-out reaches it: so a flush is where all writes since the last one are, in rising
//! order, and neighbouring blocks can go further together. Before, it writes out as it is told: a format, which comes
//! before the first flush, keeps no more than one cell of its own.
ghost use Rattle.std.specs.Prelude.{◌≡◌, ◌<◌, ◌≤◌, IsFalse, IsTrue, OnOk};
ghost use Rattle.nofs_disk.specs.Disk.{Flushes, Reads, Writes, WritesOut};
ghost use Rattle.nofs_cache.specs.Gathered.{StandsFor, gathered_state};

use nofs_disk::{Cell, Disk, Failed};
use std::alloc::AllocError;

/// A disk over one below that is not asked to write out once it was flushed. Moments, faults, what a read gives and
/// what a crash may leave are those of the disk below.
#[derive(Drop)]
pub struct Gathered<D: Disk + Drop> {
    /// The disk below.
    under: D,
    /// Whether a flush has succeeded.
    gathers: bool,
    /// For how many writes, flushes and write-outs there is room. A write-out may need none below.
    spare: u64,
    ghost below_room: { spare ≤ (D.state under).spare },
}

impl<D: Disk + Drop> Gathered<D> {
    /// A disk that holds and may leave what the disk below does.
    pub fn new(under: D) -> Gathered<D>
        ensures stands { StandsFor (D.state under) (⟦<Gathered<D> as Disk>⟧.state result) }
        ensures dirty { (⟦<Gathered<D> as Disk>⟧.state result).dirty ≡ (D.state under).dirty }
        ensures under { result.under ≡ under }
        ensures gathers { IsFalse result.gathers }
    {
        Gathered {
            under,
            gathers: false,
            spare: 0,
        }
    }

    /// The disk below, which holds and may leave what this one does.
    pub fn below(self) -> D
        ensures stands { StandsFor (D.state result) (⟦<Gathered<D> as Disk>⟧.state self) }
        ensures under { result ≡ self.under }
    {
        self.under
    }
}

impl<D: Disk + Drop> Disk for Gathered<D> {
    ghost use Rattle.nofs_cache.specs.Gathered.{gathered_is};

    ghost state = { λ g. gathered_state (D.state g.under) g.gathers g.spare };

    ghost is_disk = { λ g. gathered_is (D.state g.under) g.gathers g.spare (D.is_disk g.under) g.below_room };

    fn blocks(&self) -> u64 {
        self.under.blocks()
    }

    fn moment(&self) -> u64 {
        self.under.moment()
    }

    fn ready(&mut self, calls: u64) -> Result<(), AllocError> {
        if calls <= self.spare {
            return Ok(());
        }
        self.under.ready(calls)?;
        self.spare = calls;
        Ok(())
    }

    fn read(&mut self, block: u64, into: &mut Cell) -> Result<(), Failed>
        requires { block < (⟦<Gathered<D> as Disk>⟧.state self.old).blocks }
        ensures reads { Reads (⟦<Gathered<D> as Disk>⟧.state self.old)
            (⟦<Gathered<D> as Disk>⟧.state self.new) block into.new result }
        ensures gathers { self.new.gathers ≡ self.old.gathers }
    {
        self.under.read(block, into)
    }

    fn write(&mut self, block: u64, cell: &Cell) -> Result<(), Failed>
        requires block { block < (⟦<Gathered<D> as Disk>⟧.state self.old).blocks }
        requires spare { 1 ≤ (⟦<Gathered<D> as Disk>⟧.state self.old).spare }
        ensures writes { Writes (⟦<Gathered<D> as Disk>⟧.state self.old)
            (⟦<Gathered<D> as Disk>⟧.state self.new) block cell.now result }
        ensures gathers { self.new.gathers ≡ self.old.gathers }
    {
        self.spare -= 1;
        self.under.write(block, cell)
    }

    /// After one that succeeded nothing is written out any more.
    fn flush(&mut self) -> Result<(), Failed>
        requires { 1 ≤ (⟦<Gathered<D> as Disk>⟧.state self.old).spare }
        ensures flushes { Flushes (⟦<Gathered<D> as Disk>⟧.state self.old)
            (⟦<Gathered<D> as Disk>⟧.state self.new) result }
        ensures begins { OnOk result (IsTrue self.new.gathers) }
        ensures gathers { IsTrue self.old.gathers → IsTrue self.new.gathers }
    {
        self.spare -= 1;
        match self.under.flush() {
            Ok(()) => {
                self.gathers = true;
                Ok(())
            }
            Err(failed) => Err(failed),
        }
    }

    /// Where a flush has succeeded there is no block to write out, and no call is made below.
    fn write_out(&mut self) -> Result<Option<u64>, Failed>
        requires { 1 ≤ (⟦<Gathered<D> as Disk>⟧.state self.old).spare }
        ensures writes_out { WritesOut (⟦<Gathered<D> as Disk>⟧.state self.old)
            (⟦<Gathered<D> as Disk>⟧.state self.new) result }
        ensures gathers { self.new.gathers ≡ self.old.gathers }
        ensures under { IsTrue self.old.gathers → self.new.under ≡ self.old.under }
    {
        self.spare -= 1;
        if self.gathers {
            return Ok(None);
        }
        self.under.write_out()
    }
}
