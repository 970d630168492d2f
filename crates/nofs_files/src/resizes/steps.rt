//! A file gets another size.
ghost use Rattle.std.specs.Prelude.{◌*◌, ◌<◌, ◌≤◌, ◌∷◌, [], true, IfSome};
ghost use Rattle.nofs_agree.specs.Reads.{IsLast};
ghost use Rattle.nofs_state.specs.Books.Maps.{IsSafe};
ghost use Rattle.nofs_state.specs.Cores.FirstRows.{RefusesEarly};
ghost use Rattle.nofs_history.specs.declared.machine.steps.Step.TheVariants as step;
ghost use Rattle.nofs_state.specs.Writes.Cells.{Stores, WritesAll};
ghost use Rattle.nofs_files.specs.Resizes.{MayCut, MayResize, ResizeGoes, cut_writes, maybe, resize_answer};

use crate::puts::cells::{put_record, read_table};
use crate::reads::files::{note_file, open_file, slots_of};
use crate::resizes::cuts::{Edge, NewCell, cut_record, find_edge, find_tail, kept_slots, mark_cut};
use nofs_agree::LastRead;
use nofs_disk::{Cell, Disk, Failed};
use nofs_history::Refusal;
use nofs_inode::Record;
use nofs_state::{Core, FreedBlocks, table_block};
use std::alloc::Global;

// Writes the cell of the inode table, the last write of all.
fn write_table<D: Disk>(disk: &mut D, block: u64, table: &Cell) -> Result<(), Failed>
    requires block { block < (D.state disk.old).blocks }
    requires spare { 1 ≤ (D.state disk.old).spare }
    ensures { WritesAll (D.state disk.old) (D.state disk.new) ((block, table.now) ∷ []) result }
{
    disk.write(block, table)
}

// Writes the block of pointers above another one, where it is cut inside, and the table.
fn write_above<D: Disk>(
    disk: &mut D,
    above: &Option<NewCell>,
    block: u64,
    table: &Cell,
) -> Result<(), Failed>
    requires above { IfSome above.now (λ it. it.block < (D.state disk.old).blocks) }
    requires block { block < (D.state disk.old).blocks }
    requires spare { 2 ≤ (D.state disk.old).spare }
    ensures { WritesAll (D.state disk.old) (D.state disk.new) (maybe above.now ((block, table.now) ∷ [])) result }
{
    match above {
        None => write_table(disk, block, table),
        Some(it) => match disk.write(it.block, &it.cell) {
            Ok(()) => write_table(disk, block, table),
            Err(failed) => Err(failed),
        },
    }
}

// Writes the blocks of pointers that are cut inside, and the table.
fn write_edge<D: Disk>(disk: &mut D, edge: &Edge, block: u64, table: &Cell) -> Result<(), Failed>
    requires below { IfSome edge.now.below (λ it. it.block < (D.state disk.old).blocks) }
    requires above { IfSome edge.now.above (λ it. it.block < (D.state disk.old).blocks) }
    requires block { block < (D.state disk.old).blocks }
    requires spare { 3 ≤ (D.state disk.old).spare }
    ensures { WritesAll (D.state disk.old) (D.state disk.new)
        (maybe edge.now.below (maybe edge.now.above ((block, table.now) ∷ []))) result }
{
    match &edge.below {
        None => write_above(disk, &edge.above, block, table),
        Some(it) => match disk.write(it.block, &it.cell) {
            Ok(()) => write_above(disk, &edge.above, block, table),
            Err(failed) => Err(failed),
        },
    }
}

// Writes the end of the content, the blocks of pointers that are cut inside, and the table.
fn write_cut<D: Disk>(
    disk: &mut D,
    tail: &Option<NewCell>,
    edge: &Edge,
    block: u64,
    table: &Cell,
) -> Result<(), Failed>
    requires tail { IfSome tail.now (λ it. it.block < (D.state disk.old).blocks) }
    requires below { IfSome edge.now.below (λ it. it.block < (D.state disk.old).blocks) }
    requires above { IfSome edge.now.above (λ it. it.block < (D.state disk.old).blocks) }
    requires block { block < (D.state disk.old).blocks }
    requires spare { 4 ≤ (D.state disk.old).spare }
    ensures { WritesAll (D.state disk.old) (D.state disk.new) (cut_writes tail.now edge.now block table.now) result }
{
    match tail {
        None => write_edge(disk, edge, block, table),
        Some(it) => match disk.write(it.block, &it.cell) {
            Ok(()) => write_edge(disk, edge, block, table),
            Err(failed) => Err(failed),
        },
    }
}

// Writes what a Resize writes. Where a write fails the mount is stopped.
fn store_cut<D: Disk + Drop>(
    core: &mut Core<D>,
    tail: &Option<NewCell>,
    edge: &Edge,
    block: u64,
    table: &Cell,
) -> Result<(), Refusal>
    requires tail { IfSome tail.now (λ it. it.block < (D.state core.old.disk).blocks) }
    requires below { IfSome edge.now.below (λ it. it.block < (D.state core.old.disk).blocks) }
    requires above { IfSome edge.now.above (λ it. it.block < (D.state core.old.disk).blocks) }
    requires block { block < (D.state core.old.disk).blocks }
    requires spare { 4 ≤ (D.state core.old.disk).spare }
    ensures { Stores (D.state core.old.disk) core.old.books (D.state core.new.disk) core.new.books
        (cut_writes tail.now edge.now block table.now) result }
{
    match write_cut(&mut core.disk, tail, edge, block, table) {
        Ok(()) => Ok(()),
        Err(_) => {
            core.books.stopped = true;
            Err(Refusal::WriteFault)
        }
    }
}

// Cuts a file off behind some slots. All was read but the block of its record.
fn resize_cut<D: Disk + Drop>(
    core: &mut Core<D>,
    inode: u32,
    it: &Record,
    size: u64,
    tail: &Option<NewCell>,
    edge: &Edge,
    freed: &FreedBlocks,
    last: &mut LastRead,
) -> Result<(), Refusal>
    requires may { MayCut (D.state core.old.disk) core.old.books inode it.now.generation size it.now tail.now
        edge.now freed.now }
    requires spare { 4 ≤ (D.state core.old.disk).spare }
    requires last { IsLast (D.state core.old.disk) last.old }
    ensures { ResizeGoes (D.state core.old.disk) core.old.books
        (D.state core.new.disk) core.new.books inode it.now.generation size result }
{
    match read_table(&mut core.disk, inode, last) {
        Ok(()) => {}
        Err(why) => return Err(why),
    }
    let kept = kept_slots(it.size, size);
    put_record(&mut last.cell, inode, &cut_record(it, size, kept));
    match store_cut(core, tail, edge, table_block(inode), &last.cell) {
        Ok(()) => {
            core.books.free_blocks(freed);
            Ok(())
        }
        Err(why) => Err(why),
    }
}

// Reads all that a change of size asks, and then cuts the file off.
fn resize_file<D: Disk + Drop>(
    core: &mut Core<D>,
    alloc: Global,
    inode: u32,
    it: &Record,
    size: u64,
    last: &mut LastRead,
) -> Result<(), Refusal>
    requires last { IsLast (D.state core.old.disk) last.old }
    requires may { MayResize (D.state core.old.disk) core.old.books inode it.now size }
    requires spare { 4 ≤ (D.state core.old.disk).spare }
    ensures { ResizeGoes (D.state core.old.disk) core.old.books
        (D.state core.new.disk) core.new.books inode it.now.generation size result }
{
    note_file(it);
    let kept = kept_slots(it.size, size);
    let edge = match find_edge(&mut core.disk, &core.books.at, inode, it, last, kept) {
        Ok(edge) => edge,
        Err(why) => return Err(why),
    };
    let freed = match mark_cut(alloc, &mut core.disk, &core.books.at, inode, it, last, kept) {
        Ok(freed) => freed,
        Err(why) => return Err(why),
    };
    match find_tail(&mut core.disk, &core.books.at, inode, it, last, size) {
        Ok(tail) => resize_cut(core, inode, it, size, &tail, &edge, &freed, last),
        Err(_) => Err(Refusal::ReadFault),
    }
}

// A change of size as it is asked.
#[derive(Clone, Copy)]
struct NewSize {
    inode: u32,
    generation: u64,
    size: u64,
}

fn resize_with_room<D: Disk + Drop>(
    core: &mut Core<D>,
    alloc: Global,
    ask: NewSize,
) -> Result<(), Refusal>
    requires spare { 4 ≤ (D.state core.old.disk).spare }
    requires safe { IsSafe (D.state core.old.disk) core.old.books }
    ensures goes { ResizeGoes (D.state core.old.disk) core.old.books
        (D.state core.new.disk) core.new.books ask.inode ask.generation ask.size result }
    ensures early { RefusesEarly core.old.books (step.Resize ask.inode ask.generation ask.size)
        (resize_answer result) }
{
    if core.books.stopped {
        return Err(Refusal::Stopped);
    }
    if ask.size > 1024 * slots_of(&core.books.at) {
        return Err(Refusal::TooLarge);
    }
    let mut last = LastRead::NONE;
    match open_file(
        &mut core.disk,
        &core.books,
        ask.inode,
        ask.generation,
        &mut last,
    ) {
        Ok(it) => resize_file(core, alloc, ask.inode, &it, ask.size, &mut last),
        Err(why) => Err(why),
    }
}

/// Gives a file another size. What lies behind the end is cut off, and its blocks are free.
///
/// # Errors
///
/// `TooLarge` for a size that no file has, over any disk, `Stale` and `IsDirectory` where no file is there,
/// `LostSlot` where a block of pointers that is cut inside is lost, and the faults of every step.
pub fn resize<D: Disk + Drop>(
    core: &mut Core<D>,
    alloc: Global,
    inode: u32,
    generation: u64,
    size: u64,
) -> Result<(), Refusal>
    requires { IsSafe (D.state core.old.disk) core.old.books }
    ensures goes { ResizeGoes (D.state core.old.disk) core.old.books
        (D.state core.new.disk) core.new.books inode generation size result }
    ensures early { RefusesEarly core.old.books (step.Resize inode generation size) (resize_answer result) }
{
    match core.disk.ready(4) {
        Ok(()) => {
            let ask = NewSize {
                inode,
                generation,
                size,
            };
            resize_with_room(core, alloc, ask)
        }
        Err(_) => Err(Refusal::OutOfMemory),
    }
}
