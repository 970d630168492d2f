//! A disk in memory. It keeps each write and flush, so that it knows what a crash may leave at each
//! moment, and beside them the present cells, so that a read takes one step.
//!
//! Promise: it is a disk that tells all, each of its calls changes it exactly as its kind says, and
//! it leaves at a crash exactly the images that pick.
ghost use Rattle.std.specs.Prelude.{◌≡◌, ◌+◌, ◌*◌, ◌^◌, ◌<◌, ◌≤◌, ◌↔◌, [], ◌++◌, ◌-◌, List, length, slice_index_or};
ghost use Rattle.std.specs.Prelude.{All, OnOk, OnErr, IsErr, IsSome, IfOk, vec_capacity, replicate};
ghost use Rattle.nofs_disk.specs.Disk.{no_cell, Flushes, IsSettled, IsSizedCell, MakesReady, Picks, Reads, Writes};
ghost use Rattle.nofs_disk.specs.Disk.{WritesOut};
ghost use Rattle.nofs_disk.specs.Tag.{zero_cell};
ghost use Rattle.nofs_disk.specs.declared.tag.Cell.{Cell};
ghost use Rattle.nofs_versions.specs.Memory.{PicksVersions, held_after, picked};
ghost use Rattle.nofs_versions.specs.Laws.{AreSized};

use nofs_disk::{Cell, Disk, Failed};
use nofs_versions::{
    Call, CallCounts, CallKind, FaultAt, Pick, Search, choices_after, count_fault, fault_at, keep,
    put, search_on,
};
use std::alloc::{AllocError, Global};

/// A disk of cells in memory.
#[derive(Drop)]
pub struct MemDisk {
    /// The moment at which `calls` begin.
    start: u64,
    /// The flushed cells at that moment.
    base: Vec<Cell>,
    /// The cells that reads give now.
    cells: Vec<Cell>,
    /// The writes and flushes since.
    calls: Vec<Call>,
    /// For how many writes, flushes and write-outs there is room.
    spare: u64,
    reads: u64,
    writes: u64,
    flushes: u64,
    /// How often a call has failed.
    faults: u64,
    /// The calls that are to fail.
    fails: Vec<FaultAt>,
    ghost present: { cells.items ≡ (held_after base.items calls.items).now },
    ghost whole: { length cells.items ≡ length base.items },
    ghost room: { 2 * spare + (start + 2 * length calls.items) < 2 ^ 64 },
    ghost counted: { faults < 2 ^ 64 },
    ghost kept: { length calls.items + spare ≤ vec_capacity calls },
    ghost sized: { AreSized (length base.items) (held_after base.items calls.items).may },
}

impl MemDisk {
    ghost use Rattle.nofs_memdisk.specs.Parts.{fresh_parts, laid, memory_state, parts_of};

    /// A disk of this many cells of zeros, at moment 0.
    #[tactic(auto, unfolding(nofs_versions::specs::Memory::held_after))]
    pub fn new(alloc: Global, blocks: u64) -> Result<MemDisk, AllocError>
        ensures parts { IfOk result (λ disk. parts_of disk ≡ fresh_parts (replicate blocks zero_cell)) }
        ensures settled { IfOk result (λ disk. IsSettled (memory_state disk)) }
    {
        let base = vec![in alloc; Cell::ZERO; blocks as usize]?;
        MemDisk::of(alloc, base)
    }

    // A disk that holds these cells as flushed content.
    #[tactic(auto, unfolding(nofs_versions::specs::Memory::held_after))]
    fn of(alloc: Global, base: Vec<Cell>) -> Result<MemDisk, AllocError>
        requires { AreSized (length base.items) (held_after base.items []).may }
        ensures parts { IfOk result (λ disk. parts_of disk ≡ fresh_parts base.items) }
        ensures settled { IfOk result (λ disk. IsSettled (memory_state disk)) }
    {
        let cells = base.to_vec(alloc)?;
        Ok(MemDisk {
            start: 0,
            base,
            cells,
            calls: Vec::new(alloc),
            spare: 0,
            reads: 0,
            writes: 0,
            flushes: 0,
            faults: 0,
            fails: Vec::new(alloc),
        })
    }

    /// Names calls that are to fail, beside those that were named before.
    pub fn fail_at(&mut self, faults: &[FaultAt]) -> Result<(), AllocError>
        ensures ok { OnOk result
            (parts_of self.new ≡ record (parts_of self.old) { fails = (parts_of self.old).fails ++ faults.now }) }
        ensures err { OnErr result (parts_of self.new ≡ parts_of self.old) }
    {
        self.fails.extend_from_slice(faults)
    }

    /// Lays a cell down as flushed content. It is no call of the disk, and is there to build images:
    /// no write may stand that was not flushed, and what was before this moment is forgotten.
    pub fn put_cell(&mut self, block: u64, cell: &Cell)
        requires block { block < (memory_state self.old).blocks }
        requires settled { IsSettled (memory_state self.old) }
        ensures parts { parts_of self.new ≡ laid (parts_of self.old) block cell.now }
        ensures settled { IsSettled (memory_state self.new) }
    {
        cell.note_sizes();
        self.forget_calls();
        self.base[block as usize] = *cell;
        self.cells[block as usize] = *cell;
    }

    /// How many cells a crash may leave at a block: the flushed one, and those written since.
    pub fn choices(&self, block: u64) -> u64
        requires { block < (memory_state self.now).blocks }
        ensures count { result ≡ length ((memory_state self.now).may block) }
        ensures leaves { (image : List Cell) → Picks (memory_state self.now).may (memory_state self.now).blocks image
            → (memory_state self.now).left (memory_state self.now).moment image }
    {
        let mut count = 1;
        for call in &self.calls {
            count = choices_after(block, count, call);
        }
        count
    }

    // Forgets the calls, after which all is flushed content.
    fn forget_calls(&mut self)
        requires { IsSettled (memory_state self.old) }
        ensures { parts_of self.new ≡ record (parts_of self.old)
            { start = (memory_state self.old).moment; base = (memory_state self.old).now; calls = [] } }
    {
        let made = self.calls.len();
        if made == 0 {
            return;
        }
        self.start += 2 * made as u64;
        self.calls.clear();
        self.base.copy_from_slice(&self.cells);
    }

    // One of the cells that a block may hold.
    fn version(&self, block: u64, version: u64) -> Cell
        requires block { block < (memory_state self.now).blocks }
        requires version { version < length ((memory_state self.now).may block) }
        ensures value { result ≡ slice_index_or ((memory_state self.now).may block) version no_cell }
        ensures sized { IsSizedCell result }
    {
        let first = self.base[block as usize];
        let mut search = Search {
            count: 1,
            last: first,
            found: first,
        };
        for call in &self.calls {
            search = search_on(&search, block, version, call);
        }
        search.found
    }

    /// The disk that a crash leaves which takes these cells; of two picks of one block the later
    /// counts, and a block that is not named takes its last cell. All its cells are flushed.
    #[tactic(auto, unfolding(nofs_versions::specs::Memory::held_after))]
    pub fn image(&self, alloc: Global, picks: &[Pick]) -> Result<MemDisk, AllocError>
        requires { All (PicksVersions (memory_state self.now)) picks.now }
        ensures parts { IfOk result (λ disk. parts_of disk
            ≡ fresh_parts (picked (memory_state self.now).may (memory_state self.now).now picks.now)) }
        ensures settled { IfOk result (λ disk. IsSettled (memory_state disk)) }
    {
        let mut base = self.cells.to_vec(alloc)?;
        for pick in picks {
            base[pick.block as usize] = self.version(pick.block, pick.version);
        }
        MemDisk::of(alloc, base)
    }

    /// How many calls of each kind were made.
    pub fn calls(&self) -> CallCounts
        ensures reads { result.reads ≡ (parts_of self.now).reads }
        ensures writes { result.writes ≡ (parts_of self.now).writes }
        ensures flushes { result.flushes ≡ (parts_of self.now).flushes }
    {
        CallCounts {
            reads: self.reads,
            writes: self.writes,
            flushes: self.flushes,
        }
    }
}

impl Disk for MemDisk {
    ghost use Rattle.nofs_memdisk.specs.Parts.{flush_fault, has_flushed, has_read, has_written, has_written_out};
    ghost use Rattle.nofs_memdisk.specs.Parts.{made_ready, memory_state, parts_of, read_fault, write_fault};
    ghost use Rattle.nofs_versions.specs.Laws.{state_of-is};

    ghost state = { memory_state };

    ghost is_disk = { λ d. state_of-is d.start d.base.items d.calls.items d.spare d.faults d.room d.counted d.sized };

    fn blocks(&self) -> u64 {
        self.base.len() as u64
    }

    fn moment(&self) -> u64 {
        self.start + 2 * self.calls.len() as u64
    }

    fn ready(&mut self, calls: u64) -> Result<(), AllocError>
        ensures does { MakesReady (memory_state self.old) (memory_state self.new) calls result }
        ensures made { parts_of self.new ≡ made_ready (parts_of self.old) (parts_of self.new).spare }
    {
        if calls <= self.spare {
            return Ok(());
        }
        if calls > (u64::MAX - self.start) / 2 - self.calls.len() as u64 {
            return Err(AllocError);
        }
        self.calls.reserve(calls as usize)?;
        self.spare = calls;
        Ok(())
    }

    fn read(&mut self, block: u64, into: &mut Cell) -> Result<(), Failed>
        requires { block < (memory_state self.old).blocks }
        ensures does { Reads (memory_state self.old) (memory_state self.new) block into.new result }
        ensures made { parts_of self.new ≡ has_read (parts_of self.old) }
        ensures fails { IsErr result ↔ IsSome (read_fault (parts_of self.old)) }
    {
        self.reads = self.reads.saturating_add(1);
        if fault_at(&self.fails, CallKind::Read, self.reads).is_some() {
            count_fault(&mut self.faults);
            return Err(Failed);
        }
        *into = self.cells[block as usize];
        Ok(())
    }

    fn write(&mut self, block: u64, cell: &Cell) -> Result<(), Failed>
        requires block { block < (memory_state self.old).blocks }
        requires spare { 1 ≤ (memory_state self.old).spare }
        ensures does { Writes (memory_state self.old) (memory_state self.new) block cell.now result }
        ensures made { parts_of self.new ≡ has_written (parts_of self.old) block cell.now }
        ensures fails { IsErr result ↔ IsSome (write_fault (parts_of self.old)) }
        ensures leaves { (image : List Cell) → Picks (memory_state self.new).may (memory_state self.new).blocks image
            → (memory_state self.new).left ((memory_state self.old).moment + 1) image }
    {
        cell.note_sizes();
        self.writes = self.writes.saturating_add(1);
        self.spare -= 1;
        let fault = fault_at(&self.fails, CallKind::Write, self.writes);
        let taken = fault.unwrap_or(true);
        keep(
            &mut self.calls,
            Call::Write {
                block,
                cell: *cell,
                taken,
            },
        );
        put(&mut self.cells, block, cell, taken);
        if fault.is_some() {
            count_fault(&mut self.faults);
            return Err(Failed);
        }
        Ok(())
    }

    fn flush(&mut self) -> Result<(), Failed>
        requires { 1 ≤ (memory_state self.old).spare }
        ensures does { Flushes (memory_state self.old) (memory_state self.new) result }
        ensures made { parts_of self.new ≡ has_flushed (parts_of self.old) }
        ensures fails { IsErr result ↔ IsSome (flush_fault (parts_of self.old)) }
        ensures leaves { (image : List Cell) → Picks (memory_state self.old).may (memory_state self.old).blocks image
            → (memory_state self.new).left ((memory_state self.old).moment + 1) image }
    {
        self.flushes = self.flushes.saturating_add(1);
        self.spare -= 1;
        let settles = fault_at(&self.fails, CallKind::Flush, self.flushes).is_none();
        keep(&mut self.calls, Call::Flush { settles });
        if settles {
            Ok(())
        } else {
            count_fault(&mut self.faults);
            Err(Failed)
        }
    }

    fn write_out(&mut self) -> Result<Option<u64>, Failed>
        requires { 1 ≤ (memory_state self.old).spare }
        ensures does { WritesOut (memory_state self.old) (memory_state self.new) result }
        ensures made { parts_of self.new ≡ has_written_out (parts_of self.old) }
    {
        self.spare -= 1;
        Ok(None)
    }
}
