//! A disk over a file of bytes.
//!
//! Promise: it keeps every promise of a disk, and tells what it holds where its file does. A crash leaves
//! for each block the cell that the last flush that succeeded left, or one that was written since.
ghost use Rattle.std.specs.Prelude.{◌≡◌, ◌+◌, ◌*◌, ◌++◌, ◌∷◌, [], ◌^◌, ◌<◌, ◌≤◌, ℕ, IfOk, IsTrue, List, OnOk, length};
ghost use Rattle.nofs_disk.specs.Disk.{Flushes, IsSettled, Picks, Writes, cell_at};
ghost use Rattle.nofs_disk.specs.declared.tag.Cell.{Cell};
ghost use Rattle.nofs_disk.specs.CellsOfBytes.{cell_in, cells_in};
ghost use Rattle.nofs_filedisk.specs.Bytes.{IsSynced};
ghost use Rattle.nofs_filedisk.specs.Files.{FileSized, LastsWithin, file_held};
ghost use Rattle.nofs_filedisk.specs.Past.{call_of, file_calls};
ghost use Rattle.nofs_filedisk.specs.Present.{IsPresent};

use crate::contents::Contents;
use crate::past::{FileCall, FilePast};
use crate::positioned::Positioned;
use nofs_disk::{Cell, Disk, Failed};
use std::alloc::{AllocError, Global};
use std::mem;
use std::snapshot::Snapshot;

/// How many blocks a disk in a file has.
const BLOCKS: u64 = 1_048_576;

/// A disk of 1,048,576 blocks in a file: block `b` is the 1,056 bytes from `1056 * b` on, the
/// payload first, with zeros past the end.
///
/// What a crash may leave is told of a file of which each 1,056 bytes at a multiple of 1,056 keep
/// what was durable or take what was written there since, all of it: no cell is torn.
#[derive(Drop)]
pub struct FileDisk<B: Positioned + Drop> {
    contents: Contents<B>,
    /// The file as it was given.
    first: Snapshot<B>,
    /// The writes and flushes since.
    past: Snapshot<FilePast>,
    moment: u64,
    /// For how many writes, flushes and write-outs there is room.
    spare: u64,
    ghost made: { moment ≡ 2 * length (file_calls past.value) },
    ghost room: { 2 * spare + moment < 2 ^ 64 },
    ghost sized: { FileSized (B.state first.value) (file_calls past.value) },
    ghost present: { IsTrue (B.state contents.file).tells
        → IsPresent (B.state contents.file).bytes contents.run
        (file_held (B.state first.value) (file_calls past.value)).now },
    ghost lasting: { LastsWithin (B.state contents.file) (B.state first.value) (file_calls past.value) },
}

// No calls.
fn start() -> Snapshot<FilePast>
    ensures { file_calls result.value ≡ [] }
{
    Snapshot::of(&FilePast::Start)
}

// Adds a call.
fn add(call: FileCall, past: &mut Snapshot<FilePast>)
    ensures { file_calls past.new.value ≡ file_calls past.old.value ++ call_of call ∷ [] }
{
    let earlier = mem::replace(past, Snapshot::of(&FilePast::Start));
    let next = FilePast::Made(call, earlier);
    *past = Snapshot::of(&next);
}

impl<B: Positioned + Drop> FileDisk<B> {
    /// A disk in this file, which nothing else writes from now on. All memory is taken here. What the
    /// file holds has to be durable.
    pub fn over(alloc: Global, file: B) -> Result<FileDisk<B>, AllocError>
        requires { IsSynced (B.state file) }
        ensures file { IfOk result (λ disk. disk.contents.file ≡ file) }
        ensures moment { IfOk result (λ disk. (⟦<FileDisk<B> as Disk>⟧.state disk).moment ≡ 0) }
        ensures tells { IfOk result (λ disk. (⟦<FileDisk<B> as Disk>⟧.state disk).tells ≡ (B.state file).tells) }
        ensures now { IfOk result (λ disk. (⟦<FileDisk<B> as Disk>⟧.state disk).now ≡ cells_in (B.state file).bytes) }
        ensures settled { IfOk result (λ disk. IsSettled (⟦<FileDisk<B> as Disk>⟧.state disk)) }
    {
        let first = Snapshot::of(&file);
        let past = start();
        Ok(FileDisk {
            contents: Contents::over(alloc, file)?,
            first,
            past,
            moment: 0,
            spare: 0,
        })
    }

    /// The file. Cells that were written and not flushed may not be in it, as after a crash. Its durable
    /// cells are an image that a crash may leave.
    pub fn file(self) -> B
        ensures file { result ≡ self.contents.file }
        ensures left { IsTrue (B.state result).tells
            → (⟦<FileDisk<B> as Disk>⟧.state self).left (⟦<FileDisk<B> as Disk>⟧.state self).moment
            (cells_in (B.state result).durable) }
    {
        self.contents.into_file()
    }
}

impl<B: Positioned + Drop> Disk for FileDisk<B> {
    ghost use Rattle.nofs_filedisk.specs.Files.{file_is, file_state};

    ghost state = { λ d. file_state (B.state d.contents.file) (B.state d.first.value)
        (file_calls d.past.value) d.spare };

    ghost is_disk = { λ d. file_is (B.state d.contents.file) (B.state d.first.value)
        (file_calls d.past.value) d.moment d.spare
        (B.is_file d.contents.file) d.made d.room d.sized };

    /// A crash now may leave each image that picks.
    fn moment(&self) -> u64
        ensures moment { result ≡ (⟦<FileDisk<B> as Disk>⟧.state self.now).moment }
        ensures leaves { (image : List Cell)
            → Picks (⟦<FileDisk<B> as Disk>⟧.state self.now).may (⟦<FileDisk<B> as Disk>⟧.state self.now).blocks image
            → (⟦<FileDisk<B> as Disk>⟧.state self.now).left (⟦<FileDisk<B> as Disk>⟧.state self.now).moment image }
    {
        self.moment
    }

    fn blocks(&self) -> u64 {
        BLOCKS
    }

    fn ready(&mut self, calls: u64) -> Result<(), AllocError> {
        if calls <= self.spare {
            return Ok(());
        }
        if calls > (u64::MAX - self.moment) / 2 {
            return Err(AllocError);
        }
        self.spare = calls;
        Ok(())
    }

    fn read(&mut self, block: u64, into: &mut Cell) -> Result<(), Failed> {
        self.contents.read(block, into)
    }

    fn write(&mut self, block: u64, cell: &Cell) -> Result<(), Failed>
        requires block { block < (⟦<FileDisk<B> as Disk>⟧.state self.old).blocks }
        requires spare { 1 ≤ (⟦<FileDisk<B> as Disk>⟧.state self.old).spare }
        ensures writes { Writes (⟦<FileDisk<B> as Disk>⟧.state self.old)
            (⟦<FileDisk<B> as Disk>⟧.state self.new) block cell.now result }
        ensures leaves { (image : List Cell)
            → Picks (⟦<FileDisk<B> as Disk>⟧.state self.new).may (⟦<FileDisk<B> as Disk>⟧.state self.new).blocks image
            → (⟦<FileDisk<B> as Disk>⟧.state self.new).left
            ((⟦<FileDisk<B> as Disk>⟧.state self.old).moment + 1) image }
        ensures durable { (B.state self.new.contents.file).durable ≡ (B.state self.old.contents.file).durable }
    {
        cell.note_sizes();
        self.moment += 2;
        self.spare -= 1;
        let result = self.contents.write(block, cell);
        add(
            FileCall::Write {
                block,
                cell: Snapshot::of(cell),
                taken: result.is_ok(),
            },
            &mut self.past,
        );
        result
    }

    /// After one that succeeded the durable bytes of the file show what a read gives.
    fn flush(&mut self) -> Result<(), Failed>
        requires { 1 ≤ (⟦<FileDisk<B> as Disk>⟧.state self.old).spare }
        ensures flushes { Flushes (⟦<FileDisk<B> as Disk>⟧.state self.old)
            (⟦<FileDisk<B> as Disk>⟧.state self.new) result }
        ensures leaves { (image : List Cell)
            → Picks (⟦<FileDisk<B> as Disk>⟧.state self.old).may (⟦<FileDisk<B> as Disk>⟧.state self.old).blocks image
            → (⟦<FileDisk<B> as Disk>⟧.state self.new).left
            ((⟦<FileDisk<B> as Disk>⟧.state self.old).moment + 1) image }
        ensures lasts { OnOk result (IsTrue (B.state self.old.contents.file).tells → (b : ℕ) → b < 1048576
            → cell_in (B.state self.new.contents.file).durable b
            ≡ cell_at (⟦<FileDisk<B> as Disk>⟧.state self.new).now b) }
    {
        self.moment += 2;
        self.spare -= 1;
        let result = self.contents.flush();
        add(
            FileCall::Flush {
                settles: result.is_ok(),
            },
            &mut self.past,
        );
        result
    }

    fn write_out(&mut self) -> Result<Option<u64>, Failed> {
        self.spare -= 1;
        Ok(None)
    }
}
