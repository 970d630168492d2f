//! One pointer of a slot is changed.
//!
//! Promise: one write of one cell, in which that pointer alone is another one.
ghost use Rattle.std.specs.Prelude.{◌≡◌, ◌≤◌, ◌<◌, ◌∷◌, [], IsTrue};
ghost use Rattle.nofs_disk.specs.Disk.{cell_at};
ghost use Rattle.nofs_ptrs.specs.Paths.{is_slot, path_of};
ghost use Rattle.nofs_model.specs.Places.{IsPlace, place_path};
ghost use Rattle.nofs_state.specs.Writes.Pointers.{IsPointed, SetsPointer, record_number, spot_at};
ghost use Rattle.nofs_state.specs.Writes.Cells.{WritesAll};

use crate::cores::mounted_disk::Core;
use nofs_disk::{Cell, Disk, Failed, Pointer};
use nofs_model::{Place, place_of};
use nofs_ptrs::{read_pointer, write_pointer};

/// The cells in which the pointers on the way to a slot stand.
#[derive(Clone, Copy)]
pub struct SlotCells {
    /// The cell of the inode table.
    pub table: Cell,
    /// The leaf or the child above the slot.
    pub leaf: Cell,
    /// The top above that child.
    pub top: Cell,
}

/// Where one pointer stands: the block, the cell that it has, and the number of the pointer among the 64 of the cell.
#[derive(Clone, Copy)]
pub struct Spot {
    pub block: u64,
    pub cell: Cell,
    pub number: u32,
}

// The number of a record's pointer in its cell of the table: each record begins with six other places.
fn record_number(inode: u32, at: u64) -> u32
    requires inode { 1 ≤ inode }
    requires at { at < 10 }
    ensures is { result ≡ record_number inode at }
    ensures within { result < 64 }
{
    16 * ((inode - 1) % 4) + 6 + at as u32
}

// Where the pointer of a place stands, by the cells on the way to it.
fn spot_at(cells: &SlotCells, inode: u32, place: Place) -> Spot
    requires inode { 1 ≤ inode }
    requires place { IsPlace place }
    ensures is { result ≡ spot_at cells.now inode (place_path place) }
    ensures within { result.number < 64 }
{
    match place {
        Place::InRecord(at) => Spot {
            block: 1 + u64::from((inode - 1) / 4),
            cell: cells.table,
            number: record_number(inode, at),
        },
        Place::UnderRecord { at, place } => Spot {
            block: read_pointer(&cells.table.payload, record_number(inode, at)).block,
            cell: if at == 9 { cells.top } else { cells.leaf },
            number: place as u32,
        },
        Place::UnderChild { child, place } => Spot {
            block: read_pointer(&cells.top.payload, child as u32).block,
            cell: cells.leaf,
            number: place as u32,
        },
    }
}

// The cell with that pointer.
fn pointed(spot: &Spot, to: Pointer) -> Cell
    requires { spot.now.number < 64 }
    ensures { IsPointed spot.now to result }
{
    let mut cell = spot.cell;
    write_pointer(&mut cell.payload, spot.number, to);
    cell
}

fn write_spot<D: Disk>(disk: &mut D, block: u64, cell: &Cell) -> Result<(), Failed>
    requires block { block < (D.state disk.old).blocks }
    requires spare { 1 ≤ (D.state disk.old).spare }
    ensures { WritesAll (D.state disk.old) (D.state disk.new) ((block, cell.now) ∷ []) result }
{
    disk.write(block, cell)
}

impl<D: Disk + Drop> Core<D> {
    /// Changes the pointer of a slot of an inode. The cells are those on the way to the slot, as the disk has them, and
    /// the block above the slot is one of the disk. It takes no memory.
    ///
    /// # Errors
    ///
    /// `Failed` where the write failed: the mount is then stopped, and the pointer may be changed or not.
    pub fn set_pointer(
        &mut self,
        cells: &SlotCells,
        inode: u32,
        slot: u64,
        to: Pointer,
    ) -> Result<(), Failed>
        requires inode { 1 ≤ inode }
        requires slot { IsTrue (is_slot slot) }
        requires block { (spot_at cells.now inode (path_of slot)).block < (D.state self.old.disk).blocks }
        requires spare { 1 ≤ (D.state self.old.disk).spare }
        requires told { IsTrue (D.state self.old.disk).tells
            → (spot_at cells.now inode (path_of slot)).cell ≡ cell_at (D.state self.old.disk).now
            (spot_at cells.now inode (path_of slot)).block }
        ensures { SetsPointer (D.state self.old.disk) self.old.books (D.state self.new.disk) self.new.books
            (spot_at cells.now inode (path_of slot)) to result }
    {
        let spot = spot_at(cells, inode, place_of(slot));
        let cell = pointed(&spot, to);
        match write_spot(&mut self.disk, spot.block, &cell) {
            Ok(()) => Ok(()),
            Err(failed) => {
                self.books.stopped = true;
                Err(failed)
            }
        }
    }
}
