//! A mounted disk with its history.
//!
//! Promise: one history stands over one base, from the flush of the mount on; what holds of it at the end is `Ends`,
//! and `MadeCalls` names the calls by which it came there.
//!
//! What a mount goes through (the ghost field `stands`, `IsMount`):
//!
//! ```text
//!                raise_mount                a write or a flush fails in a step
//!   unmounted ----------------> open ------------------------------------------> stopped
//!                              |    ^                                           |       ^
//!                              +----+ any other step, a look, a commit          +-------+ any step: Stopped
//! ```
//!
//! - unmounted: `begin` may still refuse. All memory of the mount is taken before the write that raises its number.
//! - open: over a disk that tells and was found sound, files, maps and history are the machine's, and every image that
//!   a crash may leave is allowed (`IsOpen`).
//! - stopped: every such image is still allowed (`IsStopped`), but the maps may be wrong, so no step is served. Where
//!   only a Flush's flush failed, a read still gives the machine's files.
//! - A write-out that failed is no step: the mount stays open.
ghost use Rattle.std.specs.Prelude.{◌≡◌, ◌+◌, ◌^◌, ◌≤◌, false, [], length, IfOk, IfErr};
ghost use Rattle.nofs_history.specs.World.{World};
ghost use Rattle.nofs_state.specs.Books.Maps.{IsSafe, Says};
ghost use Rattle.nofs_state.specs.Cores.WriteOuts.{WroteOne};
ghost use Rattle.nofs_scan.specs.Laws.{AreExamined, IsFullScan};
ghost use Rattle.nofs_state.specs.Books.Counts as counted;
ghost use Rattle.nofs_shared.specs.Index.Truths.{IsTrueIndex};
ghost use Rattle.nofs_shared.specs.Mount.Entries.{Unowned};
ghost use Rattle.nofs_shared.specs.Mount.Begin as begins;
ghost use Rattle.nofs_shared.specs.Mount.End.{Ends};
ghost use Rattle.nofs_shared.specs.Mount.Invariant.{IsMount, IsSoundDisk};
ghost use Rattle.nofs_shared.specs.Passes.Entries.{TellsStep};
ghost use Rattle.nofs_shared.specs.Acts.Sees.{TakesKept, sweep_entries};
ghost use Rattle.nofs_shared.specs.Mount.Flushes.{Settles};
ghost use Rattle.nofs_shared.specs.Mount.Calls.{MadeCalls};
ghost use Rattle.nofs_shared.specs.Mount.Causes.{MeetsSound, StepCauses, StepGiven, StepOrder};

use crate::acts::room::take_room;
use crate::index::Index;
use crate::mount::begin::{Prepared, prepare};
use crate::mount::steps::step_in;
use nofs_disk::{Disk, OutFault};
use nofs_history::{History, Refusal, Reply, Step};
use nofs_state::{Core, Counts};
use nofs_super::{MountFault, raise_mount};
use std::alloc::Global;
use std::snapshot::Snapshot;

/// A mounted disk, for one caller at a time.
#[derive(Drop)]
pub struct Mount<D: Disk + Drop> {
    pub(crate) core: Core<D>,
    pub(crate) first: u64,
    pub(crate) found: Snapshot<D>,
    // The number of entries of the sweeps for which memory is kept.
    pub(crate) kept: u64,
    // Names that were found, while no step may have changed them.
    pub(crate) index: Index,
    ghost few: { length core.books.history.entries + kept ≤ 2 ^ 62 },
    ghost room: { kept ≤ core.books.history.spare },
    ghost taken: { core.books.at.inodes + core.books.at.blocks ≤ kept + sweep_entries core.books.history.entries },
    ghost safe: { IsSafe (D.state core.disk) core.books },
    ghost stands: { ∥ IsMount (D.state found.value) (D.state core.disk) first core.books ∥₁ },
    ghost indexed: { ∥ IsTrueIndex (D.state found.value) (D.state core.disk) core.books index ∥₁ },
    ghost asked: { ∥ MadeCalls D.state core.books.history.start core.books.history.entries core.disk ∥₁ },
}

/// Why a disk was not mounted. It comes back.
#[derive(Drop)]
pub struct BeginFault<D: Disk + Drop> {
    pub disk: D,
    pub cause: MountFault,
}

impl<D: Disk + Drop> Mount<D> {
    /// Mounts a disk: its mount number is then one higher, durably. It reads block 0, writes it once and flushes once,
    /// and knows of the disk only what is fixed.
    ///
    /// # Errors
    ///
    /// The first fault that block 0 has by the table of `MountFault`, then `OutOfMemory`, with nothing written;
    /// `ReadFault` only where the device's count of faults rose, and `WriteFault` only where a write or a flush was
    /// made too. That leaves no block changed but block 0, which has what it had or the raised superblock.
    pub fn begin(alloc: Global, disk: D, first: u64) -> Result<Mount<D>, BeginFault<D>>
        requires { first ≤ 2 ^ 40 }
        ensures mount { IfOk result (λ m. (m.found.value ≡ disk) × (m.first ≡ first)
            × (m.core.books.history.entries ≡ []) × (m.kept ≡ m.core.books.at.inodes + m.core.books.at.blocks)) }
        ensures begins { IfOk result (λ m. begins.BeginsMount (D.state disk) (D.state m.core.disk) m.core.books) }
        ensures fault { IfErr result (λ e. begins.BeginFails (D.state disk) (D.state e.disk) e.cause) }
    {
        let found = Snapshot::of(&disk);
        let mut disk = disk;
        let Prepared { old, room } = match prepare(alloc, &mut disk) {
            Ok(it) => it,
            Err(cause) => return Err(BeginFault { disk, cause }),
        };
        match raise_mount(&mut disk, &old) {
            Ok(at) => Ok(Mount {
                core: Core::over(disk, at, first, room),
                first,
                found,
                kept: at.inodes + at.blocks,
                index: Index::empty(alloc),
            }),
            Err(cause) => Err(BeginFault { disk, cause }),
        }
    }

    /// Makes one step of a caller. Each See step of the sweeps has its memory while some is kept for them. Over any
    /// disk, a read fault comes only where its count of faults rose, a write fault only where it rose and a write or a
    /// flush was made, `Stopped` exactly where one of them failed before, and every other refusal leaves the cells.
    /// `BadName`, `BadRange` and `TooLarge` come just by what the step was given and by the superblock. A Flush of the
    /// whole disk is refused for nothing else but a fault or want of memory. No step orders its writes, and none writes
    /// a block out: over a disk that tells, one that is no Flush makes writes alone, one call a cell, and after a call
    /// that failed no other; where the disk was also found sound, it writes no block twice. Over a disk that does not
    /// tell, this is the number of calls that write or flush, and no more.
    pub fn step(&mut self, alloc: Global, caller: u32, step: Step) -> Reply
        ensures tells { TellsStep caller step self.old.core.books.history.entries
            self.new.core.books.history.entries result }
        ensures claims { IsSoundDisk (D.state self.old.found.value)
            → ∥ Unowned (D.state self.old.core.disk).now self.old.core.books.history.entries
            self.new.core.books.history.entries ∥₁ }
        ensures same { (self.new.found ≡ self.old.found) × (self.new.first ≡ self.old.first)
            × (self.new.core.books.history.start ≡ self.old.core.books.history.start)
            × (self.new.core.books.at ≡ self.old.core.books.at) }
        ensures kept { TakesKept caller step result self.old.kept self.new.kept }
        ensures settled { Settles step result (D.state self.new.core.disk) }
        ensures causes { StepCauses (D.state self.old.core.disk)
            (D.state self.new.core.disk) self.old.core.books self.new.core.books result }
        ensures given { StepGiven self.old.core.books step result }
        ensures order { StepOrder (D.state self.old.core.disk) (D.state self.new.core.disk)
            (MeetsSound (D.state self.old.found.value) (D.state self.old.core.disk) self.old.core.books) step result
            self.new.core.books.history.entries }
    {
        let history = &mut self.core.books.history;
        match take_room(history, self.kept, caller, &step) {
            None => Reply::Refused(Refusal::OutOfMemory),
            Some(left) => {
                self.kept = left;
                step_in(&mut self.core, &mut self.index, alloc, caller, step)
            }
        }
    }

    /// Writes out one block that the device kept back, and names it; `None` exactly where there is none. It makes no
    /// entry, no moment passes, and each image that a crash may leave for it picks from what may be left.
    ///
    /// # Errors
    ///
    /// `Failed` only where the device's count of faults rose; `OutOfMemory`.
    pub fn write_out(&mut self) -> Result<Option<u64>, OutFault>
        ensures same { (self.new.core.books ≡ self.old.core.books) × (self.new.found ≡ self.old.found)
            × (self.new.first ≡ self.old.first) × (self.new.kept ≡ self.old.kept) }
        ensures out { WroteOne (D.state self.old.core.disk) (D.state self.new.core.disk) result }
    {
        self.core.write_out()
    }

    /// How many inodes and blocks are known to be used, are known to be free, and were not examined. Over
    /// a disk that tells and was found sound, the maps that it counts are the full scan of the disk
    /// once the history has a verdict of each element.
    pub fn counts(&self) -> Counts
        ensures inodes { result.inodes_used + result.inodes_free + result.inodes_unchecked
            ≡ self.now.core.books.at.inodes }
        ensures blocks { result.blocks_used + result.blocks_free + result.blocks_unchecked
            ≡ self.now.core.books.at.blocks }
        ensures machine { (W : World) → Says self.now.core.books W
            → counted.CountsInodes W result × counted.CountsBlocks W result }
        ensures scan { IsSoundDisk (D.state self.now.found.value) → self.now.core.books.stopped ≡ false
            → AreExamined self.now.core.books.history.entries self.now.core.books.at
            → ∥ IsFullScan (D.state self.now.core.disk).now self.now.core.books ∥₁ }
    {
        self.core.books.counts()
    }

    /// The steps so far with their replies.
    pub fn history(&self) -> &History
        ensures { result.now ≡ self.now.core.books.history }
    {
        &self.core.books.history
    }

    /// The device and the history. Since the history starts the device made the calls of its entries that write or
    /// flush, in their order, and no other.
    pub fn end(self) -> (D, History)
        ensures is { (result.0 ≡ self.core.disk) × (result.1 ≡ self.core.books.history) }
        ensures ends { ∥ Ends (D.state self.found.value) (D.state result.0) self.first result.1 ∥₁ }
        ensures asked { ∥ MadeCalls D.state result.1.start result.1.entries result.0 ∥₁ }
    {
        let Mount { core, .. } = self;
        let Core { disk, books } = core;
        (disk, books.history)
    }
}
