//! The contents of a disk in a file: the file, windows on it, and the run that is not yet in it.
//!
//! Promise: over a file that tells its bytes, a read gives the last cell that was written, a write that
//! fails changes nothing that a read gives, and after a flush that succeeded the file has all cells, and
//! its bytes are durable.
//!
//! A write puts its cell into the run, with no call of the file, where it is one of the run's or the one
//! before or behind them. Where it has no place there, the run is put into the file first, in one row of calls;
//! where that fails, the run stays as it is, and hides what stands in the file in its place.
ghost use Rattle.std.specs.Prelude.{◌≡◌, ◌<◌, ◌≤◌, IfOk, IsTrue, List, OnErr, OnOk};
ghost use Rattle.nofs_disk.specs.declared.tag.Cell.{Cell};
ghost use Rattle.nofs_disk.specs.Disk.{Rose, cell_at};
ghost use Rattle.nofs_filedisk.specs.Bytes.{KeepsBytes, KeepsDurable};
ghost use Rattle.nofs_filedisk.specs.Present.{HasAllCells, HasPlace, IsPresent, LastsOrPresent, StaysPresent};
ghost use Rattle.nofs_filedisk.specs.Present.{TakesCell};
ghost use Rattle.nofs_filedisk.specs.Windows.{ShowsFile};

use crate::moving::write_part;
use crate::positioned::Positioned;
use crate::run::Run;
use crate::windows::{CELL_BYTES, Windows};
use nofs_disk::{Cell, Failed};
use std::alloc::{AllocError, Global};

/// A file with windows on it and a run.
#[derive(Drop)]
pub struct Contents<B: Positioned + Drop> {
    pub file: B,
    pub run: Run,
    windows: Windows,
    ghost shows: { ShowsFile (B.state file) windows },
}

impl<B: Positioned + Drop> Contents<B> {
    /// The contents of this file. All memory is taken here.
    pub fn over(alloc: Global, file: B) -> Result<Contents<B>, AllocError>
        ensures file { IfOk result (λ contents. contents.file ≡ file) }
        ensures none { IfOk result (λ contents. contents.run.count ≡ 0) }
    {
        Ok(Contents {
            file,
            run: Run::new(alloc)?,
            windows: Windows::new(alloc)?,
        })
    }

    /// The file, with the cells that were put into it.
    pub fn into_file(self) -> B
        ensures { result ≡ self.file }
    {
        self.file
    }

    /// The cell of a block.
    pub fn read(&mut self, block: u64, into: &mut Cell) -> Result<(), Failed>
        requires { block < 1048576 }
        ensures keeps { KeepsBytes (B.state self.old.file) (B.state self.new.file) }
        ensures run { self.new.run ≡ self.old.run }
        ensures cell { OnOk result (IsTrue (B.state self.old.file).tells
            → (now : List Cell) → IsPresent (B.state self.old.file).bytes self.old.run now
            → into.new ≡ cell_at now block) }
        ensures cause { OnErr result (Rose (B.state self.old.file).faults (B.state self.new.file).faults) }
        ensures no_fault { OnOk result ((B.state self.new.file).faults ≡ (B.state self.old.file).faults) }
    {
        if self.run.has(block) {
            self.run.cell(block, into);
            return Ok(());
        }
        self.windows.read(&mut self.file, block, into)
    }

    /// Takes the cell of a block. Where it fails, no read gives another cell.
    pub fn write(&mut self, block: u64, cell: &Cell) -> Result<(), Failed>
        requires { block < 1048576 }
        ensures keeps { KeepsDurable (B.state self.old.file) (B.state self.new.file) }
        ensures takes { OnOk result
            (TakesCell (B.state self.old.file) self.old.run (B.state self.new.file) self.new.run block cell.now) }
        ensures stays { OnErr result
            (StaysPresent (B.state self.old.file) self.old.run (B.state self.new.file) self.new.run) }
        ensures cause { OnErr result (Rose (B.state self.old.file).faults (B.state self.new.file).faults) }
        ensures no_fault { OnOk result ((B.state self.new.file).faults ≡ (B.state self.old.file).faults) }
    {
        self.make_place(block)?;
        self.run.put(block, cell);
        Ok(())
    }

    // Makes a place in the run for the cell of a block.
    fn make_place(&mut self, block: u64) -> Result<(), Failed>
        requires { block < 1048576 }
        ensures keeps { KeepsDurable (B.state self.old.file) (B.state self.new.file) }
        ensures stays { StaysPresent (B.state self.old.file) self.old.run (B.state self.new.file) self.new.run }
        ensures place { OnOk result (HasPlace self.new.run block) }
        ensures cause { OnErr result (Rose (B.state self.old.file).faults (B.state self.new.file).faults) }
        ensures no_fault { OnOk result ((B.state self.new.file).faults ≡ (B.state self.old.file).faults) }
    {
        if self.run.takes(block) {
            return Ok(());
        }
        self.put_out(block)
    }

    // Puts the run into the file; the next begins at a block.
    fn put_out(&mut self, next: u64) -> Result<(), Failed>
        requires { next < 1048576 }
        ensures keeps { KeepsDurable (B.state self.old.file) (B.state self.new.file) }
        ensures stays { StaysPresent (B.state self.old.file) self.old.run (B.state self.new.file) self.new.run }
        ensures place { OnOk result (HasPlace self.new.run next) }
        ensures none { OnOk result (self.new.run.count ≡ 0) }
        ensures cause { OnErr result (Rose (B.state self.old.file).faults (B.state self.new.file).faults) }
        ensures no_fault { OnOk result ((B.state self.new.file).faults ≡ (B.state self.old.file).faults) }
    {
        self.put_run()?;
        self.run.begin(next);
        Ok(())
    }

    // Writes the cells of the run to the file.
    fn put_run(&mut self) -> Result<(), Failed>
        ensures keeps { KeepsDurable (B.state self.old.file) (B.state self.new.file) }
        ensures run { self.new.run ≡ self.old.run }
        ensures all { OnOk result (HasAllCells (B.state self.old.file) self.old.run (B.state self.new.file)) }
        ensures stays { OnErr result
            (StaysPresent (B.state self.old.file) self.old.run (B.state self.new.file) self.new.run) }
        ensures cause { OnErr result (Rose (B.state self.old.file).faults (B.state self.new.file).faults) }
        ensures no_fault { OnOk result ((B.state self.new.file).faults ≡ (B.state self.old.file).faults) }
    {
        if self.run.count == 0 {
            return Ok(());
        }
        match write_part(
            &mut self.file,
            CELL_BYTES as u64 * self.run.first,
            self.run.bytes(),
        ) {
            Ok(()) => {
                self.windows.put(self.run.first, self.run.bytes());
                Ok(())
            }
            Err(_) => {
                self.windows.forget_all();
                Err(Failed)
            }
        }
    }

    /// Puts all cells into the file, and makes its bytes durable.
    pub fn flush(&mut self) -> Result<(), Failed>
        ensures tells { (B.state self.new.file).tells ≡ (B.state self.old.file).tells }
        ensures faults { (B.state self.old.file).faults ≤ (B.state self.new.file).faults }
        ensures stays { StaysPresent (B.state self.old.file) self.old.run (B.state self.new.file) self.new.run }
        ensures none { OnOk result (self.new.run.count ≡ 0) }
        ensures durable { OnOk result ((B.state self.new.file).durable ≡ (B.state self.new.file).bytes) }
        ensures undone { OnErr result (LastsOrPresent (B.state self.old.file) self.old.run (B.state self.new.file)) }
        ensures cause { OnErr result (Rose (B.state self.old.file).faults (B.state self.new.file).faults) }
        ensures no_fault { OnOk result ((B.state self.new.file).faults ≡ (B.state self.old.file).faults) }
    {
        self.put_out(0)?;
        self.file.sync()
    }
}
