//! The bytes of an image as a disk.
//!
//! Promise: block `b` has the cell that the layout of the bytes has for it (docs/FORMAT.md, "Cells" and "Pages"), the
//! payload first, with zeros past the end, as of a disk in a file. A read fails exactly where the page of its block
//! can't be told, and counts as one fault. A write and a flush always fail, and each counts as one fault, so that a
//! call that makes no moment counts none.
ghost use Rattle.std.specs.Prelude.{◌≡◌, ◌↔◌, ◌+◌, ◌*◌, ◌/◌, ◌^◌, ◌<◌, ◌≤◌, ℕ, IsTrue, IsOk, OnOk, false, slice_index};
ghost use Rattle.std.specs.Prelude.{true};
ghost use Rattle.nofs_disk.specs.Disk.{Reads, Rose, StaysButFaults};
ghost use Rattle.nofs_reader.specs.Image.{disk_of, image_disk, image_of};
ghost use Rattle.nofs_reader.specs.Layouts.{IsBadPage, is_told};

use crate::bytes::{clear_cell, read_cell};
use crate::layout::{BadPage, CellPlace, find_cell};
use nofs_disk::{Cell, Disk, Failed};
use std::alloc::AllocError;

/// How many blocks a disk in a file has.
const BLOCKS: u64 = 1_048_576;

/// A disk of 1,048,576 blocks in the bytes of a file, to be read.
#[derive(Drop)]
pub struct ImageDisk<'a> {
    pub(crate) bytes: &'a [u8],
    /// How many writes and flushes were refused.
    pub(crate) refused: u64,
    /// For how many writes, flushes and write-outs there is room.
    pub(crate) spare: u64,
    /// How often a call failed.
    pub(crate) faults: u64,
    /// The page of which a read failed last.
    pub(crate) bad: BadPage,
    ghost room: { 2 * spare + 2 * refused < 2 ^ 64 },
    ghost counted: { faults < 2 ^ 64 },
    ghost least: { refused ≤ faults },
    ghost small: { (k : ℕ) → slice_index bytes.now k < 256 },
    // more failed than were refused: a read did
    ghost noted: { refused < faults → IsBadPage bytes.now bad },
}

impl<'a> ImageDisk<'a> {
    /// The disk in these bytes.
    pub fn over(bytes: &'a [u8]) -> ImageDisk<'a>
        ensures bytes { result.bytes.now ≡ bytes.now }
        ensures refused { result.refused ≡ 0 }
        ensures spare { result.spare ≡ 0 }
        ensures faults { result.faults ≡ 0 }
        ensures now { (⟦<ImageDisk<'a> as Disk>⟧.state result).now ≡ image_of bytes.now }
        ensures tells { IsTrue (⟦<ImageDisk<'a> as Disk>⟧.state result).tells }
    {
        ImageDisk {
            bytes,
            refused: 0,
            spare: 0,
            faults: 0,
            bad: BadPage { number: 0 },
        }
    }

    /// The page of which a read failed, where it was a disk of these bytes, and one did.
    pub(crate) fn bad_page(&self, bytes: &[u8]) -> BadPage
        requires stays { StaysButFaults (disk_of bytes.now) (⟦<ImageDisk<'a> as Disk>⟧.state self.now) }
        requires rose { Rose 0 (⟦<ImageDisk<'a> as Disk>⟧.state self.now).faults }
        ensures { IsBadPage bytes.now result }
    {
        let _bytes = bytes;
        self.bad
    }
}

impl<'a> Disk for ImageDisk<'a> {
    ghost use Rattle.nofs_reader.specs.Image.{image_disk, image_disk-is};

    ghost state = { λ d. image_disk d.bytes.now d.refused d.spare d.faults };

    ghost is_disk = { λ d. image_disk-is d.bytes.now d.refused d.spare d.faults d.room d.counted d.small };

    fn blocks(&self) -> u64 {
        BLOCKS
    }

    fn moment(&self) -> u64 {
        2 * self.refused
    }

    fn ready(&mut self, calls: u64) -> Result<(), AllocError> {
        if calls <= self.spare {
            return Ok(());
        }
        if calls > u64::MAX / 2 - self.refused {
            return Err(AllocError);
        }
        self.spare = calls;
        Ok(())
    }

    /// It fails exactly where the page of the block can't be told.
    fn read(&mut self, block: u64, into: &mut Cell) -> Result<(), Failed>
        requires { block < 1048576 }
        ensures reads { Reads (image_disk self.old.bytes.now self.old.refused self.old.spare self.old.faults)
            (image_disk self.new.bytes.now self.new.refused self.new.spare self.new.faults) block into.new result }
        ensures told { IsOk result ↔ (is_told self.old.bytes.now (block / 3) ≡ true) }
    {
        match find_cell(self.bytes, block) {
            CellPlace::At(at) => {
                read_cell(self.bytes, at, into);
                Ok(())
            }
            CellPlace::Blank => {
                clear_cell(into);
                Ok(())
            }
            CellPlace::Bad(page) => {
                self.bad = page;
                self.faults = self.faults.saturating_add(1);
                Err(Failed)
            }
        }
    }

    fn write(&mut self, _block: u64, _cell: &Cell) -> Result<(), Failed> {
        self.spare -= 1;
        self.refused += 1;
        self.faults = self.faults.saturating_add(1);
        Err(Failed)
    }

    fn flush(&mut self) -> Result<(), Failed> {
        self.spare -= 1;
        self.refused += 1;
        self.faults = self.faults.saturating_add(1);
        Err(Failed)
    }

    fn write_out(&mut self) -> Result<Option<u64>, Failed> {
        self.spare -= 1;
        Ok(None)
    }
}
