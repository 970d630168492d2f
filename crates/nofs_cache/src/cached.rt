//! The cached disk.
//!
//! Promise: it keeps every promise of a disk, over any disk below. A write is kept in memory and
//! never fails, a read gives the last cell that was written, and a flush makes all of it last below.
//!
//! What it goes through, block by block:
//!
//! ```text
//!            write                      write_out, or a flush that reaches the block
//!   clean ----------> dirty --------------------------------------------------------> clean
//!                    |     ^
//!                    +-----+  write; a write-out or a flush of it that failed below
//! ```
//!
//! - clean: the disk below has the cell; nothing of it is kept here.
//! - dirty: the cell is in `dirty`, and a crash leaves what the disk below may leave of the block.
//! - After a flush that succeeded every block is clean, and all of it lasts.
ghost use Rattle.std.specs.Prelude.{◌≡◌, ℕ, ◌+◌, ◌*◌, ◌^◌, ◌<◌, ◌≤◌, ◌∷◌, [], length, IfOk, IfErr, IsOk, IsTrue};
ghost use Rattle.std.specs.Prelude.{Contains};
ghost use Rattle.nofs_disk.specs.declared.tag.Cell.{Cell};
ghost use Rattle.nofs_cache.specs.Dirty.Blocks.{block_count, entries_of, room_of};
ghost use Rattle.nofs_cache.specs.Laws.{CacheKeeps};
ghost use Rattle.nofs_disk.specs.Disk.{Flushes, Reads, Writes, WritesOut, cell_at};
ghost use Rattle.nofs_cache.specs.Cached.{CallsOnce, IsMarked, LeavesAll, WritesRising};
ghost use Rattle.nofs_cache.specs.Dirty.Past.{cache_calls};

use crate::dirty::cells::DirtyBlocks;
use crate::dirty::past::{CacheCall, CachePast};
use crate::dirty::writes::{write_back, write_back_and_flush};
use nofs_disk::{Cell, Disk, Failed};
use std::alloc::{AllocError, Global};
use std::mem;
use std::snapshot::Snapshot;

/// A disk that keeps writes back. Its moments are its own, from 0 on; its faults are those of the
/// disk below. Until a flush or a write-out a crash leaves what the disk below may leave.
#[derive(Drop)]
pub struct Cached<D: Disk + Drop> {
    /// The disk below.
    under: D,
    /// The disk below as it was given.
    first: Snapshot<D>,
    /// The writes and flushes since.
    past: Snapshot<CachePast>,
    /// The cells that are not yet written below.
    dirty: DirtyBlocks,
    moment: u64,
    /// For how many writes, flushes and write-outs there is room.
    spare: u64,
    ghost blocks: { (D.state first.value).blocks ≡ (D.state under).blocks },
    ghost tells: { (D.state first.value).tells ≡ (D.state under).tells },
    ghost slots: { block_count dirty ≡ (D.state under).blocks },
    ghost made: { moment ≡ 2 * length (cache_calls past.value) },
    ghost room: { 2 * spare + moment < 2 ^ 64 },
    ghost kept_room: { length (entries_of dirty) + spare ≤ room_of dirty },
    ghost below_room: { length (entries_of dirty) + spare ≤ (D.state under).spare },
    ghost marked: { IsMarked (D.state first.value).moment (cache_calls past.value) (D.state under).moment },
    ghost kept: { ∥ CacheKeeps (D.state under) (D.state first.value) (cache_calls past.value) (entries_of dirty) ∥₁ },
}

// No calls.
fn start() -> Snapshot<CachePast>
    ensures { cache_calls result.value ≡ [] }
{
    Snapshot::of(&CachePast::Start)
}

// Adds a call.
fn add(call: CacheCall, past: &mut Snapshot<CachePast>)
    ensures { cache_calls past.new.value ≡ call ∷ cache_calls past.old.value }
{
    let earlier = mem::replace(past, Snapshot::of(&CachePast::Start));
    let next = CachePast::Made(call, earlier);
    *past = Snapshot::of(&next);
}

/// There is no memory for the room that a cache takes. The disk that was given comes back as it was.
#[derive(Drop)]
pub struct CacheFault<D: Disk + Drop> {
    /// The disk that was given.
    pub under: D,
}

impl<D: Disk + Drop> Cached<D> {
    /// A cache over a disk. No block is dirty, and it holds and may leave what the disk below does.
    /// It takes room of four bytes a block, and writes to none of it.
    pub fn new(alloc: Global, under: D) -> Result<Cached<D>, CacheFault<D>>
        ensures moment { IfOk result (λ c. (⟦<Cached<D> as Disk>⟧.state c).moment ≡ 0) }
        ensures now { IfOk result (λ c. (⟦<Cached<D> as Disk>⟧.state c).now ≡ (D.state under).now) }
        ensures may { IfOk result (λ c. (⟦<Cached<D> as Disk>⟧.state c).may ≡ (D.state under).may) }
        ensures clean { IfOk result (λ c. (⟦<Cached<D> as Disk>⟧.state c).dirty ≡ []) }
        ensures holds_back { IfOk result (λ c. IsTrue (⟦<Cached<D> as Disk>⟧.state c).holds_back) }
        ensures left { IfOk result
            (λ c. LeavesAll (D.state under).moment (D.state under) (⟦<Cached<D> as Disk>⟧.state c) 0) }
        ensures under { IfOk result (λ c. c.under ≡ under) }
        ensures back { IfErr result (λ fault. fault.under ≡ under) }
    {
        match DirtyBlocks::new(alloc, under.blocks()) {
            Ok(dirty) => {
                let first = Snapshot::of(&under);
                let past = start();
                Ok(Cached {
                    under,
                    first,
                    past,
                    dirty,
                    moment: 0,
                    spare: 0,
                })
            }
            Err(_) => Err(CacheFault { under }),
        }
    }

    /// The disk below. Dirty cells are dropped, as by a crash: what a crash may then leave of it is
    /// what one might have left of the cached disk. A block that isn't dirty has the same cell there,
    /// and where none is, a read gives the same below.
    pub fn below(self) -> D
        ensures now { (⟦<Cached<D> as Disk>⟧.state self).dirty ≡ []
            → (D.state result).now ≡ (⟦<Cached<D> as Disk>⟧.state self).now }
        ensures clean { (b : ℕ) → (Contains (⟦<Cached<D> as Disk>⟧.state self).dirty b → ⊥)
            → cell_at (D.state result).now b ≡ cell_at (⟦<Cached<D> as Disk>⟧.state self).now b }
        ensures under { result ≡ self.under }
        ensures left { LeavesAll (D.state result).moment (D.state result) (⟦<Cached<D> as Disk>⟧.state self)
            (⟦<Cached<D> as Disk>⟧.state self).moment }
    {
        self.under
    }
}

impl<D: Disk + Drop> Disk for Cached<D> {
    ghost use Rattle.nofs_cache.specs.Cached.{cache_state};
    ghost use Rattle.nofs_cache.specs.Laws.{cache_is};

    ghost state = { λ c. cache_state (D.state c.under) (D.state c.first.value) (cache_calls c.past.value)
        (entries_of c.dirty) c.spare };

    ghost is_disk = { λ c. cache_is (D.state c.under) (D.state c.first.value) (cache_calls c.past.value)
        (entries_of c.dirty)
        c.spare (D.is_disk c.under) (D.is_disk c.first.value) c.blocks c.tells c.made c.room c.kept };

    fn blocks(&self) -> u64 {
        self.under.blocks()
    }

    fn moment(&self) -> u64 {
        self.moment
    }

    fn ready(&mut self, calls: u64) -> Result<(), AllocError> {
        if calls <= self.spare {
            return Ok(());
        }
        if calls > (u64::MAX - self.moment) / 2 {
            return Err(AllocError);
        }
        self.dirty.reserve(calls as usize)?;
        match self.under.ready(self.dirty.len() as u64 + calls) {
            Ok(()) => {
                self.spare = calls;
                Ok(())
            }
            Err(error) => Err(error),
        }
    }

    /// A dirty block is read from memory, with no call below, and any other from the disk below.
    fn read(&mut self, block: u64, into: &mut Cell) -> Result<(), Failed>
        requires { block < (⟦<Cached<D> as Disk>⟧.state self.old).blocks }
        ensures reads { Reads (⟦<Cached<D> as Disk>⟧.state self.old)
            (⟦<Cached<D> as Disk>⟧.state self.new) block into.new result }
        ensures memory { Contains (⟦<Cached<D> as Disk>⟧.state self.old).dirty block
            → IsOk result × (self.new.under ≡ self.old.under) }
    {
        match self.dirty.get(block) {
            Some(cell) => {
                *into = *cell;
                Ok(())
            }
            None => self.under.read(block, into),
        }
    }

    /// The cell is kept in memory, with no call below.
    fn write(&mut self, block: u64, cell: &Cell) -> Result<(), Failed>
        requires block { block < (⟦<Cached<D> as Disk>⟧.state self.old).blocks }
        requires spare { 1 ≤ (⟦<Cached<D> as Disk>⟧.state self.old).spare }
        ensures writes { Writes (⟦<Cached<D> as Disk>⟧.state self.old)
            (⟦<Cached<D> as Disk>⟧.state self.new) block cell.now result }
        ensures memory { self.new.under ≡ self.old.under }
        ensures left { LeavesAll (D.state self.old.under).moment (D.state self.new.under)
            (⟦<Cached<D> as Disk>⟧.state self.new) ((⟦<Cached<D> as Disk>⟧.state self.old).moment + 1) }
    {
        cell.note_sizes();
        let at = self.under.moment();
        add(
            CacheCall::Write {
                block,
                cell: Snapshot::of(cell),
                at,
            },
            &mut self.past,
        );
        self.dirty.put(block, cell);
        self.moment += 2;
        self.spare -= 1;
        Ok(())
    }

    /// Every dirty block is written below in rising order, each once, and then the disk below is flushed,
    /// once. What that disk may leave meanwhile, this one may leave at its moment during the call.
    fn flush(&mut self) -> Result<(), Failed>
        requires { 1 ≤ (⟦<Cached<D> as Disk>⟧.state self.old).spare }
        ensures rising { WritesRising (⟦<Cached<D> as Disk>⟧.state self.old).dirty
            (⟦<Cached<D> as Disk>⟧.state self.new).dirty }
        ensures flushes { Flushes (⟦<Cached<D> as Disk>⟧.state self.old) (⟦<Cached<D> as Disk>⟧.state self.new) result }
        ensures calls { CallsOnce (D.state self.old.under) (D.state self.new.under)
            (length (⟦<Cached<D> as Disk>⟧.state self.old).dirty)
            (length (⟦<Cached<D> as Disk>⟧.state self.new).dirty) }
        ensures left { LeavesAll (D.state self.old.under).moment (D.state self.new.under)
            (⟦<Cached<D> as Disk>⟧.state self.new) ((⟦<Cached<D> as Disk>⟧.state self.old).moment + 1) }
    {
        let began = self.under.moment();
        self.moment += 2;
        self.spare -= 1;
        let result = write_back_and_flush(&mut self.under, &mut self.dirty);
        let ended = self.under.moment();
        add(
            CacheCall::Flush {
                settles: result.is_ok(),
                began,
                ended,
            },
            &mut self.past,
        );
        result
    }

    /// One dirty block is written below. What the disk below may leave meanwhile, this one may leave
    /// at its present moment.
    fn write_out(&mut self) -> Result<Option<u64>, Failed>
        requires { 1 ≤ (⟦<Cached<D> as Disk>⟧.state self.old).spare }
        ensures writes_out { WritesOut (⟦<Cached<D> as Disk>⟧.state self.old)
            (⟦<Cached<D> as Disk>⟧.state self.new) result }
        ensures left { LeavesAll (D.state self.old.under).moment (D.state self.new.under)
            (⟦<Cached<D> as Disk>⟧.state self.new) (⟦<Cached<D> as Disk>⟧.state self.new).moment }
    {
        self.spare -= 1;
        write_back(&mut self.under, &mut self.dirty)
    }
}
