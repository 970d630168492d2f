//! Dirty cells are written to the disk below.
//!
//! Promise: a block is clean only once its cell was written below, and a call that fails below
//! leaves its block dirty. Any order is safe: what is written below is always the cell that a read
//! gives. A flush writes in rising order, so that neighbouring cells follow one another.
ghost use Rattle.std.specs.Prelude.{◌≡◌, ◌+◌, ◌<◌, ◌≤◌, OnOk, OnErr, length, map, slice_index};
ghost use Rattle.nofs_cache.specs.Dirty.Blocks.{block_count, entries_of, order_of, room_of};
ghost use Rattle.nofs_cache.specs.Dirty.Entries.{AreAmong, AreLeft, IsOrder, Rises};
ghost use Rattle.nofs_cache.specs.Cached.{WrittenBack, WritesRising, SettlesDirty, TakesOut, Shrinks, SpendsOne};
ghost use Rattle.nofs_cache.specs.Cached.{CallsOnce, KeepsOrder, WritesDirty, WroteBelow, WroteAllBelow, Stopped};

use crate::dirty::cells::DirtyBlocks;
use nofs_disk::{Disk, Failed};

/// Writes the block of the last entry below, and names it; `None` where none is dirty.
pub(crate) fn write_back<D: Disk>(
    under: &mut D,
    dirty: &mut DirtyBlocks,
) -> Result<Option<u64>, Failed>
    requires blocks { block_count dirty.old ≡ (D.state under.old).blocks }
    requires spare { 1 ≤ (D.state under.old).spare }
    ensures writes_back { WrittenBack (D.state under.old) (D.state under.new) (entries_of dirty.old)
        (entries_of dirty.new) }
    ensures out { TakesOut (entries_of dirty.old) (entries_of dirty.new) result }
    ensures shrinks { Shrinks dirty.old dirty.new }
    ensures spends { SpendsOne (D.state under.old) (D.state under.new) (entries_of dirty.old) (entries_of dirty.new) }
    ensures wrote { OnOk result
        (WroteBelow (D.state under.old) (D.state under.new) (entries_of dirty.old) (entries_of dirty.new)) }
    ensures stopped { OnErr result
        (Stopped (D.state under.old) (D.state under.new) (entries_of dirty.old) (entries_of dirty.new)) }
{
    match dirty.last() {
        None => Ok(None),
        Some(entry) => {
            let block = entry.block;
            match under.write(block, &entry.cell) {
                Ok(()) => {
                    dirty.pop();
                    Ok(Some(block))
                }
                Err(failed) => Err(failed),
            }
        }
    }
}

// Writes the block at a place of the order below. Its entry stays.
fn write_dirty<D: Disk>(under: &mut D, dirty: &DirtyBlocks, place: usize) -> Result<(), Failed>
    requires blocks { block_count dirty.now ≡ (D.state under.old).blocks }
    requires spare { 1 ≤ (D.state under.old).spare }
    requires order { IsOrder (entries_of dirty.now) (order_of dirty.now) }
    requires place { place < length (order_of dirty.now) }
    ensures { WritesDirty (D.state under.old) (D.state under.new) (entries_of dirty.now)
        (slice_index (order_of dirty.now) place) result }
{
    let block = dirty.in_order(place);
    match dirty.get(block) {
        Some(cell) => under.write(block, cell),
        None => unreachable!(),
    }
}

// Lets the block at a place of the order be clean, where those before it are.
fn forget_next(dirty: &mut DirtyBlocks, place: usize)
    requires rises { Rises (order_of dirty.old) }
    requires place { place < length (order_of dirty.old) }
    requires left { AreLeft (entries_of dirty.old) (order_of dirty.old) place }
    ensures left { AreLeft (entries_of dirty.new) (order_of dirty.new) (place + 1) }
    ensures among { AreAmong (entries_of dirty.new) (entries_of dirty.old) }
    ensures fewer { length (entries_of dirty.new) + 1 ≡ length (entries_of dirty.old) }
    ensures keeps { KeepsOrder dirty.old dirty.new }
{
    let block = dirty.in_order(place);
    dirty.bring_last(block);
    dirty.pop();
}

// Lets the blocks of the first places of the order be clean.
fn forget_first(dirty: &mut DirtyBlocks, places: usize)
    requires order { IsOrder (entries_of dirty.old) (order_of dirty.old) }
    requires places { places ≤ length (order_of dirty.old) }
    ensures left { AreLeft (entries_of dirty.new) (order_of dirty.old) places }
    ensures among { AreAmong (entries_of dirty.new) (entries_of dirty.old) }
    ensures fewer { length (entries_of dirty.new) + places ≡ length (entries_of dirty.old) }
    ensures keeps { KeepsOrder dirty.old dirty.new }
{
    for place in 0..places {
        forget_next(dirty, place);
    }
}

/// Writes every dirty block below in rising order, up to the first call that fails. No entry moves
/// before all are written, or a call has failed.
pub(crate) fn write_back_all<D: Disk>(under: &mut D, dirty: &mut DirtyBlocks) -> Result<(), Failed>
    requires order { IsOrder (entries_of dirty.old) (order_of dirty.old) }
    requires blocks { block_count dirty.old ≡ (D.state under.old).blocks }
    requires spare { length (entries_of dirty.old) ≤ (D.state under.old).spare }
    ensures writes_back { WrittenBack (D.state under.old) (D.state under.new) (entries_of dirty.old)
        (entries_of dirty.new) }
    ensures keeps { KeepsOrder dirty.old dirty.new }
    ensures no_more { length (entries_of dirty.new) ≤ length (entries_of dirty.old) }
    ensures rising { WritesRising (map (λ e. e.block) (entries_of dirty.old))
        (map (λ e. e.block) (entries_of dirty.new)) }
    ensures wrote { OnOk result
        (WroteAllBelow (D.state under.old) (D.state under.new) (entries_of dirty.old) (entries_of dirty.new)) }
    ensures stopped { OnErr result
        (Stopped (D.state under.old) (D.state under.new) (entries_of dirty.old) (entries_of dirty.new)) }
{
    for place in 0..dirty.len() {
        match write_dirty(under, dirty, place) {
            Ok(()) => {}
            Err(failed) => {
                forget_first(dirty, place);
                return Err(failed);
            }
        }
    }
    dirty.clear();
    Ok(())
}

/// Writes every dirty block below in rising order and then flushes there, up to the first call that
/// fails.
pub(crate) fn write_back_and_flush<D: Disk>(
    under: &mut D,
    dirty: &mut DirtyBlocks,
) -> Result<(), Failed>
    requires blocks { block_count dirty.old ≡ (D.state under.old).blocks }
    requires spare { length (entries_of dirty.old) + 1 ≤ (D.state under.old).spare }
    ensures settles { SettlesDirty (D.state under.old) (D.state under.new) (entries_of dirty.old)
        (entries_of dirty.new) result }
    ensures rising { WritesRising (map (λ e. e.block) (entries_of dirty.old))
        (map (λ e. e.block) (entries_of dirty.new)) }
    ensures blocks { block_count dirty.new ≡ block_count dirty.old }
    ensures room { room_of dirty.old ≤ room_of dirty.new }
    ensures no_more { length (entries_of dirty.new) ≤ length (entries_of dirty.old) }
    ensures spare { (D.state under.old).spare + length (entries_of dirty.new)
        ≤ (D.state under.new).spare + length (entries_of dirty.old) + 1 }
    ensures calls { CallsOnce (D.state under.old) (D.state under.new) (length (entries_of dirty.old))
        (length (entries_of dirty.new)) }
{
    dirty.set_order();
    match write_back_all(under, dirty) {
        Ok(()) => under.flush(),
        Err(failed) => Err(failed),
    }
}
