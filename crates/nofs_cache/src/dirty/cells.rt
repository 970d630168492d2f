//! The cells of the dirty blocks: a sparse set, as in "An Efficient Representation for Sparse Sets"
//! (Briggs and Torczon, 1993).
//!
//! Promise: each dirty block has one cell, the last that was put. It is found in constant time by
//! the block's number. Room for a slot of each block, four bytes, is taken at the start; slots are
//! there as far as the greatest block that was put, and behind them nothing is written.
ghost use Rattle.std.specs.Prelude.{◌≡◌, ◌+◌, ◌^◌, ◌<◌, ◌≤◌, ◌∷◌, [], ◌++◌, ◌-◌, take, IfOk, IfSome, IfNone, OnOk};
ghost use Rattle.std.specs.Prelude.{Contains, IsPermutation, length, map, max, slice_index, slice_set, swap};
ghost use Rattle.std.specs.Prelude.{vec_capacity};
ghost use Rattle.nofs_cache.specs.Dirty.Entries.{AreSlotted, HasCell, HasLast, IsClean, IsDirtyEntryOf, IsLast};
ghost use Rattle.nofs_cache.specs.Dirty.Entries.{IsOrder, KeepsSlots, PutsDirtyEntry, dirty_entry};

use nofs_disk::Cell;
use std::alloc::{AllocError, Global};

/// A dirty block with its cell.
#[derive(Clone, Copy)]
pub struct DirtyEntry {
    pub block: u64,
    pub cell: Cell,
}

/// The dirty blocks of a disk. A slot names the place of its block's entry; one that names no
/// entry of its block says that the block is clean, and so does one that is not there yet.
#[derive(Drop)]
pub struct DirtyBlocks {
    /// How many blocks the disk has. There is room for a slot of each.
    blocks: u64,
    slots: Vec<u32>,
    entries: Vec<DirtyEntry>,
    /// The dirty blocks as the last flush found them, in rising order. Numbers are sorted, and not
    /// the entries, which have 1,064 bytes each.
    order: Vec<u64>,
    ghost reserved: { blocks ≤ vec_capacity slots },
    ghost within: { length slots.items ≤ blocks },
    ghost few: { length entries.items ≤ 2 ^ 32 },
    ghost listed: { length entries.items ≤ vec_capacity order },
    ghost placed: { AreSlotted slots.items entries.items },
}

// Adds slots up to that of a block, where there is room.
fn reach(slots: &mut Vec<u32>, block: u64)
    requires { block < vec_capacity slots.old }
    ensures reached { length slots.new.items ≡ max (length slots.old.items) (block + 1) }
    ensures kept { KeepsSlots slots.old.items slots.new.items }
    ensures room { vec_capacity slots.old ≤ vec_capacity slots.new }
{
    let count = block as usize + 1;
    if slots.len() < count {
        slots.resize_with(count, || 0).unwrap();
    }
}

// Lists the blocks of entries, where there is room.
fn list_blocks(order: &mut Vec<u64>, entries: &[DirtyEntry])
    requires { length entries.now ≤ vec_capacity order.old }
    ensures blocks { order.new.items ≡ map (λ e. e.block) entries.now }
    ensures room { vec_capacity order.old ≤ vec_capacity order.new }
{
    order.clear();
    for entry in entries {
        order.push(entry.block).unwrap();
    }
}

impl DirtyBlocks {
    ghost use Rattle.nofs_cache.specs.Dirty.Blocks.{block_count, entries_of, order_of, room_of};

    /// No dirty block of a disk with this many blocks.
    pub fn new(alloc: Global, blocks: u64) -> Result<DirtyBlocks, AllocError>
        ensures blocks { IfOk result (λ d. block_count d ≡ blocks) }
        ensures entries { IfOk result (λ d. entries_of d ≡ []) }
    {
        let slots = Vec::with_capacity(alloc, blocks as usize)?;
        Ok(DirtyBlocks {
            blocks,
            slots,
            entries: Vec::new(alloc),
            order: Vec::new(alloc),
        })
    }

    /// How many blocks are dirty.
    pub fn len(&self) -> usize
        ensures { result ≡ length (entries_of self.now) }
    {
        self.entries.len()
    }

    /// Makes room for this many entries more. All of them are fewer than 2^32, as slots have 32
    /// bits; more are refused as want of memory.
    pub fn reserve(&mut self, more: usize) -> Result<(), AllocError>
        ensures entries { entries_of self.new ≡ entries_of self.old }
        ensures blocks { block_count self.new ≡ block_count self.old }
        ensures more { room_of self.old ≤ room_of self.new }
        ensures room { OnOk result (length (entries_of self.old) + more ≤ room_of self.new) }
    {
        if self.entries.len().saturating_add(more) > u32::MAX as usize {
            return Err(AllocError);
        }
        self.entries.reserve(more)?;
        self.order.clear();
        self.order.reserve(self.entries.len() + more)
    }

    // The place of a dirty block's entry, which its slot names.
    fn find(&self, block: u64) -> Option<usize>
        ensures some { IfSome result (IsDirtyEntryOf (entries_of self.now) block) }
        ensures none { IfNone result (IsClean (entries_of self.now) block) }
    {
        if block as usize >= self.slots.len() {
            return None;
        }
        let at = self.slots[block as usize] as usize;
        if at < self.entries.len() && self.entries[at].block == block {
            Some(at)
        } else {
            None
        }
    }

    /// The cell of a block; `None` where it is clean.
    pub fn get(&self, block: u64) -> Option<&Cell>
        requires { block < block_count self.now }
        ensures some { IfSome result (λ cell. HasCell (entries_of self.now) block cell.now) }
        ensures none { IfNone result (IsClean (entries_of self.now) block) }
    {
        match self.find(block) {
            Some(at) => Some(&self.entries[at].cell),
            None => None,
        }
    }

    // Adds the entry of a clean block, where there is room.
    fn push(&mut self, block: u64, cell: &Cell)
        requires block { block < block_count self.old }
        requires clean { IsClean (entries_of self.old) block }
        requires room { length (entries_of self.old) < room_of self.old }
        ensures entries { entries_of self.new ≡ entries_of self.old ++ dirty_entry block cell.now ∷ [] }
        ensures blocks { block_count self.new ≡ block_count self.old }
        ensures room { room_of self.old ≤ room_of self.new }
    {
        reach(&mut self.slots, block);
        self.slots[block as usize] = self.entries.len() as u32;
        self.entries
            .push(DirtyEntry { block, cell: *cell })
            .unwrap();
    }

    // Replaces the cell of an entry.
    fn replace(&mut self, at: usize, block: u64, cell: &Cell)
        requires { IsDirtyEntryOf (entries_of self.old) block at }
        ensures entries { entries_of self.new ≡ slice_set (entries_of self.old) at (dirty_entry block cell.now) }
        ensures blocks { block_count self.new ≡ block_count self.old }
        ensures room { room_of self.old ≤ room_of self.new }
    {
        self.entries[at].cell = *cell;
    }

    /// Keeps a cell, in the place of the block's earlier one where it is dirty already.
    pub fn put(&mut self, block: u64, cell: &Cell)
        requires block { block < block_count self.old }
        requires room { length (entries_of self.old) < room_of self.old }
        ensures entries { PutsDirtyEntry (entries_of self.old) (entries_of self.new) block cell.now }
        ensures blocks { block_count self.new ≡ block_count self.old }
        ensures room { room_of self.old ≤ room_of self.new }
    {
        match self.find(block) {
            Some(at) => self.replace(at, block, cell),
            None => self.push(block, cell),
        }
    }

    /// Lists the dirty blocks in rising order. It takes no memory.
    pub fn set_order(&mut self)
        ensures entries { entries_of self.new ≡ entries_of self.old }
        ensures order { IsOrder (entries_of self.new) (order_of self.new) }
        ensures blocks { block_count self.new ≡ block_count self.old }
        ensures room { room_of self.old ≤ room_of self.new }
    {
        list_blocks(&mut self.order, self.entries.as_slice());
        self.order.sort_unstable();
    }

    /// The block at a place of the order.
    pub fn in_order(&self, place: usize) -> u64
        requires { place < length (order_of self.now) }
        ensures { result ≡ slice_index (order_of self.now) place }
    {
        self.order[place]
    }

    // Exchanges an entry with the last one.
    fn exchange_with_last(&mut self, at: usize)
        requires { at < length (entries_of self.old) }
        ensures entries { entries_of self.new ≡ swap (entries_of self.old) at (length (entries_of self.old) - 1) }
        ensures order { order_of self.new ≡ order_of self.old }
        ensures blocks { block_count self.new ≡ block_count self.old }
        ensures room { room_of self.old ≤ room_of self.new }
    {
        let last = self.entries.len() - 1;
        self.slots[self.entries[at].block as usize] = last as u32;
        self.slots[self.entries[last].block as usize] = at as u32;
        self.entries.swap(at, last);
    }

    /// Lets the entry of a dirty block be the last one. Where the block is clean, nothing changes.
    pub fn bring_last(&mut self, block: u64)
        ensures same { IsPermutation (entries_of self.old) (entries_of self.new) }
        ensures last { Contains (map (λ e. e.block) (entries_of self.old)) block → IsLast (entries_of self.new) block }
        ensures order { order_of self.new ≡ order_of self.old }
        ensures blocks { block_count self.new ≡ block_count self.old }
        ensures room { room_of self.old ≤ room_of self.new }
    {
        match self.find(block) {
            Some(at) => self.exchange_with_last(at),
            None => {}
        }
    }

    /// The last entry; `None` where no block is dirty.
    pub fn last(&self) -> Option<&DirtyEntry>
        ensures some { IfSome result (λ e. HasLast (entries_of self.now) (block_count self.now) e.now) }
        ensures none { IfNone result (entries_of self.now ≡ []) }
    {
        let count = self.entries.len();
        if count == 0 {
            return None;
        }
        Some(&self.entries[count - 1])
    }

    /// Removes the last entry, whose block is then clean.
    pub fn pop(&mut self)
        ensures entries { entries_of self.new ≡ take (length (entries_of self.old) - 1) (entries_of self.old) }
        ensures order { order_of self.new ≡ order_of self.old }
        ensures blocks { block_count self.new ≡ block_count self.old }
        ensures room { room_of self.old ≤ room_of self.new }
    {
        self.entries.pop();
    }

    /// Removes every entry: each block is then clean.
    pub fn clear(&mut self)
        ensures entries { entries_of self.new ≡ [] }
        ensures order { order_of self.new ≡ order_of self.old }
        ensures blocks { block_count self.new ≡ block_count self.old }
        ensures room { room_of self.old ≤ room_of self.new }
    {
        self.entries.clear();
    }
}
