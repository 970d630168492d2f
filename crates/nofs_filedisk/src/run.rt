//! The cells that were written last and are not yet in the file, where they are of neighbouring blocks.
//!
//! Promise: a cell that is put is given back, and those beside it stay.
//!
//! A run lies within the blocks of one window, and each cell has its place among the window's bytes from the start. So
//! it grows at both ends, whether the blocks come in rising order or in falling order, and one window shows all of it.
ghost use Rattle.std.specs.Prelude.{◌≡◌, ◌≢◌, ◌⊎◌, ℕ, ◌+◌, ◌*◌, ◌%◌, ◌<◌, ◌≤◌, IfOk, IsFalse, IsTrue, length, max, min};
ghost use Rattle.nofs_disk.specs.Number.{put_bytes};
ghost use Rattle.nofs_disk.specs.CellsOfBytes.{cell_in};

use crate::windows::{CELL_BYTES, WINDOW_BYTES, WINDOW_CELLS, copy_cell, place_of, zeros};
use nofs_disk::{Cell, write_bytes_at};
use std::alloc::{AllocError, Global};

/// Cells of neighbouring blocks of one window.
#[derive(Drop)]
pub struct Run {
    /// The block of the first cell.
    pub first: u64,
    /// How many cells there are.
    pub count: u64,
    bytes: Vec<u8>,
    ghost size: { length bytes.items ≡ 69696 },
    ghost inside: { first < 1048576 },
    ghost within: { first % 66 + count ≤ 66 },
}

// Puts a cell at a place of some bytes.
fn put_parts(bytes: &mut Vec<u8>, at: usize, cell: &Cell)
    requires { at + 1056 ≤ length bytes.old.items }
    ensures value { bytes.new.items ≡ put_bytes (at + 1024) cell.now.tag
        (put_bytes at cell.now.payload bytes.old.items) }
    ensures len { length bytes.new.items ≡ length bytes.old.items }
{
    write_bytes_at(bytes.as_mut_slice(), at, &cell.payload);
    write_bytes_at(bytes.as_mut_slice(), at + 1024, &cell.tag);
}

impl Run {
    ghost use Rattle.nofs_filedisk.specs.Present.{HasPlace, run_bytes};

    /// No cell.
    pub fn new(alloc: Global) -> Result<Run, AllocError>
        ensures { IfOk result (λ run. run.count ≡ 0) }
    {
        Ok(Run {
            first: 0,
            count: 0,
            bytes: zeros(alloc, WINDOW_BYTES)?,
        })
    }

    /// Whether it has the cell of a block.
    pub fn has(&self, block: u64) -> bool
        ensures yes { IsTrue result → (self.now.first ≤ block) × (block < self.now.first + self.now.count) }
        ensures no { IsFalse result → (block < self.now.first) ⊎ (self.now.first + self.now.count ≤ block) }
    {
        self.first <= block && block < self.first + self.count
    }

    /// The cell of a block that it has.
    pub fn cell(&self, block: u64, into: &mut Cell)
        requires low { self.now.first ≤ block }
        requires high { block < self.now.first + self.now.count }
        ensures { into.new ≡ cell_in self.now.bytes.items (block % 66) }
    {
        copy_cell(self.bytes.as_slice(), place_of(block), into);
    }

    /// Whether the cell of a block has a place in it: in the same window it is one of its cells, the one before them or
    /// the one behind them.
    pub fn takes(&self, block: u64) -> bool
        requires { block < 1048576 }
        ensures { IsTrue result → HasPlace self.now block }
    {
        block / WINDOW_CELLS == self.first / WINDOW_CELLS
            && self.first <= block + 1
            && block <= self.first + self.count
    }

    /// No cell again, before that of a block.
    pub fn begin(&mut self, block: u64)
        requires { block < 1048576 }
        ensures first { self.new.first ≡ block }
        ensures count { self.new.count ≡ 0 }
    {
        self.first = block;
        self.count = 0;
    }

    /// Puts the cell of a block that has a place in it.
    pub fn put(&mut self, block: u64, cell: &Cell)
        requires block { block < 1048576 }
        requires place { HasPlace self.old block }
        ensures first { self.new.first ≡ min self.old.first block }
        ensures end { self.new.first + self.new.count ≡ max (self.old.first + self.old.count) (block + 1) }
        ensures here { cell_in self.new.bytes.items (block % 66) ≡ cell.now }
        ensures others { (k : ℕ)
            → k ≢ block % 66 → cell_in self.new.bytes.items k ≡ cell_in self.old.bytes.items k }
    {
        cell.note_sizes();
        put_parts(&mut self.bytes, place_of(block), cell);
        let end = (self.first + self.count).max(block + 1);
        self.first = self.first.min(block);
        self.count = end - self.first;
    }

    /// The bytes of its cells.
    pub fn bytes(&self) -> &[u8]
        ensures value { result.now ≡ run_bytes self.now }
        ensures len { length result.now ≡ 1056 * self.now.count }
    {
        let at = place_of(self.first);
        &self.bytes.as_slice()[at..at + CELL_BYTES * self.count as usize]
    }
}
