//! The writes of a step.
ghost use Rattle.std.specs.Prelude.{◌≡◌, ◌<◌, ◌≤◌, ◌∷◌, []};
ghost use Rattle.nofs_state.specs.Writes.Cells.{Stores, stopped_books};

use crate::books::maps::Books;
use crate::cores::mounted_disk::Core;
use nofs_disk::{Cell, Disk};
use nofs_history::Refusal;

// A write failed: the mount is stopped.
fn stop(books: &mut Books) -> Refusal
    ensures stopped { books.new ≡ stopped_books books.old }
    ensures why { result ≡ Refusal.WriteFault }
{
    books.stopped = true;
    Refusal::WriteFault
}

/// Writes a cell. Where the write fails the mount is stopped.
///
/// # Errors
///
/// `WriteFault` where the write failed: the cell may be written or not.
pub fn write_one<D: Disk + Drop>(core: &mut Core<D>, block: u64, cell: &Cell) -> Result<(), Refusal>
    requires block { block < (D.state core.old.disk).blocks }
    requires spare { 1 ≤ (D.state core.old.disk).spare }
    ensures { Stores (D.state core.old.disk) core.old.books (D.state core.new.disk) core.new.books
        ((block, cell.now) ∷ []) result }
{
    match core.disk.write(block, cell) {
        Ok(()) => Ok(()),
        Err(_) => Err(stop(&mut core.books)),
    }
}

/// Writes two cells. Where a write fails the mount is stopped.
///
/// # Errors
///
/// `WriteFault` where a write failed: each of both may be written or not.
pub fn write_two<D: Disk + Drop>(
    core: &mut Core<D>,
    block: u64,
    cell: &Cell,
    other: u64,
    second: &Cell,
) -> Result<(), Refusal>
    requires first { block < (D.state core.old.disk).blocks }
    requires second { other < (D.state core.old.disk).blocks }
    requires spare { 2 ≤ (D.state core.old.disk).spare }
    ensures { Stores (D.state core.old.disk) core.old.books (D.state core.new.disk) core.new.books
        ((block, cell.now) ∷ (other, second.now) ∷ []) result }
{
    match core.disk.write(block, cell) {
        Ok(()) => write_one(core, other, second),
        Err(_) => Err(stop(&mut core.books)),
    }
}

/// Writes three cells. Where a write fails the mount is stopped.
///
/// # Errors
///
/// `WriteFault` where a write failed: each of them may be written or not.
pub fn write_three<D: Disk + Drop>(
    core: &mut Core<D>,
    block: u64,
    cell: &Cell,
    other: u64,
    second: &Cell,
    table: u64,
    third: &Cell,
) -> Result<(), Refusal>
    requires first { block < (D.state core.old.disk).blocks }
    requires second { other < (D.state core.old.disk).blocks }
    requires third { table < (D.state core.old.disk).blocks }
    requires spare { 3 ≤ (D.state core.old.disk).spare }
    ensures { Stores (D.state core.old.disk) core.old.books (D.state core.new.disk) core.new.books
        ((block, cell.now) ∷ (other, second.now) ∷ (table, third.now) ∷ []) result }
{
    match core.disk.write(block, cell) {
        Ok(()) => write_two(core, other, second, table, third),
        Err(_) => Err(stop(&mut core.books)),
    }
}

/// Writes four cells. Where a write fails the mount is stopped.
///
/// # Errors
///
/// `WriteFault` where a write failed: each of them may be written or not.
pub fn write_four<D: Disk + Drop>(
    core: &mut Core<D>,
    block: u64,
    cell: &Cell,
    other: u64,
    second: &Cell,
    above: u64,
    third: &Cell,
    table: u64,
    fourth: &Cell,
) -> Result<(), Refusal>
    requires first { block < (D.state core.old.disk).blocks }
    requires second { other < (D.state core.old.disk).blocks }
    requires third { above < (D.state core.old.disk).blocks }
    requires fourth { table < (D.state core.old.disk).blocks }
    requires spare { 4 ≤ (D.state core.old.disk).spare }
    ensures { Stores (D.state core.old.disk) core.old.books (D.state core.new.disk) core.new.books
        ((block, cell.now) ∷ (other, second.now) ∷ (above, third.now) ∷ (table, fourth.now) ∷ []) result }
{
    match core.disk.write(block, cell) {
        Ok(()) => write_three(core, other, second, above, third, table, fourth),
        Err(_) => Err(stop(&mut core.books)),
    }
}
