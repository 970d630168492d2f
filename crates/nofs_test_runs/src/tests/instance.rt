//! Disks on which the premises of the headline are met: one in memory, and those in a file in memory behind a cache, in
//! each layout of its cells.

ghost use Rattle.std.specs.Prelude.{IfOk, IsTrue};
ghost use Rattle.nofs_filedisk.specs.Bytes.{IsSynced};
ghost use Rattle.nofs_tool.specs.Session.Whole.{IsMet};

use nofs_cache::Cached;
use nofs_disk::Disk;
use nofs_filedisk::{FileDisk, MemFile, Positioned};
use nofs_memdisk::MemDisk;
use nofs_pages::{Paged, Single, Twin, single_pages, twin_pages};
use nofs_super::format;
use nofs_test_sessions::{LINES, SESSION, prints};
use std::alloc::{AllocError, Global};
use std::sync::Wait;
use std::test::Fail;
use std::thread::Threads;

/// How many bytes a call of the file moves at most.
const PIECE: usize = 69_696;

const NO_CALLS: [u64; 0] = [];

// A new file system on a disk that tells what it holds: what the headline asks of a disk holds of it.
fn formatted<D: Disk + Drop>(disk: D) -> Result<D, AllocError>
    ensures { IsTrue (D.state disk).tells → IfOk result (λ new. IsMet (D.state new)) }
{
    let mut disk = disk;
    match format(&mut disk, 64, 16) {
        Ok(()) => Ok(disk),
        Err(_) => Err(AllocError),
    }
}

fn new_disk(alloc: Global) -> Result<MemDisk, AllocError>
    ensures { IfOk result (λ disk. IsMet (⟦<MemDisk as Disk>⟧.state disk)) }
{
    formatted(MemDisk::new(alloc, 64)?)
}

/// The disk in a file of its cells alone.
type PackedDisk = Cached<FileDisk<MemFile>>;

/// The disk in a file in pages.
type PagedDisk = Cached<FileDisk<Paged<Single<MemFile>>>>;

/// The disk in a file in pages with two places.
type TwinDisk = Cached<FileDisk<Paged<Twin<MemFile>>>>;

// The disk in a file, behind a cache.
fn disk_in<B: Positioned + Drop>(alloc: Global, file: B) -> Result<Cached<FileDisk<B>>, AllocError>
    requires { IsSynced (B.state file) }
{
    let disk = FileDisk::over(alloc, file)?;
    match Cached::new(alloc, disk) {
        Ok(disk) => Ok(disk),
        Err(_) => Err(AllocError),
    }
}

fn packed(alloc: Global, bytes: &[u8]) -> Result<PackedDisk, AllocError>
    ensures { IfOk result (λ disk. IsTrue (⟦<PackedDisk as Disk>⟧.state disk).tells) }
{
    disk_in(alloc, MemFile::new(alloc, bytes, PIECE, &NO_CALLS)?)
}

fn paged(alloc: Global, bytes: &[u8], fresh: bool) -> Result<PagedDisk, AllocError>
    ensures { IfOk result (λ disk. IsTrue (⟦<PagedDisk as Disk>⟧.state disk).tells) }
{
    let file = MemFile::new(alloc, bytes, PIECE, &NO_CALLS)?;
    disk_in(alloc, single_pages(alloc, file, fresh)?)
}

fn twin(alloc: Global, bytes: &[u8], fresh: bool) -> Result<TwinDisk, AllocError>
    ensures { IfOk result (λ disk. IsTrue (⟦<TwinDisk as Disk>⟧.state disk).tells) }
{
    let file = MemFile::new(alloc, bytes, PIECE, &NO_CALLS)?;
    disk_in(alloc, twin_pages(alloc, file, fresh)?)
}

fn new_packed(alloc: Global) -> Result<PackedDisk, AllocError>
    ensures { IfOk result (λ disk. IsMet (⟦<PackedDisk as Disk>⟧.state disk)) }
{
    formatted(packed(alloc, b"")?)
}

fn new_paged(alloc: Global) -> Result<PagedDisk, AllocError>
    ensures { IfOk result (λ disk. IsMet (⟦<PagedDisk as Disk>⟧.state disk)) }
{
    formatted(paged(alloc, b"", true)?)
}

fn new_twin(alloc: Global) -> Result<TwinDisk, AllocError>
    ensures { IfOk result (λ disk. IsMet (⟦<TwinDisk as Disk>⟧.state disk)) }
{
    formatted(twin(alloc, b"", true)?)
}

#[test]
fn a_session_runs_where_the_premises_are_met(rt: HostRuntime) -> Result<(), Fail> {
    let disk = new_disk(rt.alloc())?;
    prints(&rt, disk, "run", SESSION, LINES, 0)?;
    Ok(())
}

// What the session put is read in the durable bytes of a file. They are what a crash leaves that loses each cell, or
// page, since the last sync of the file, which the last flush of a run with status 0 made.
fn reads_again<R: Threads + Wait + Sync + AllocGlobal, D: Disk + Drop + Send>(
    rt: &R,
    again: D,
) -> Result<(), Fail> {
    prints(rt, again, "run", "get @ 0 3", "got bytes:616263\n", 0)?;
    Ok(())
}

#[test]
fn a_session_in_a_file_lasts_where_the_premises_are_met(rt: HostRuntime) -> Result<(), Fail> {
    let disk = prints(&rt, new_packed(rt.alloc())?, "run", SESSION, LINES, 0)?;
    let file = disk.below().file();
    reads_again(&rt, packed(rt.alloc(), file.durable())?)
}

#[test]
fn a_session_in_pages_lasts_where_the_premises_are_met(rt: HostRuntime) -> Result<(), Fail> {
    let disk = prints(&rt, new_paged(rt.alloc())?, "run", SESSION, LINES, 0)?;
    let file = disk.below().file().into_store().into_file();
    reads_again(&rt, paged(rt.alloc(), file.durable(), false)?)
}

#[test]
fn a_session_in_pages_with_two_places_lasts_where_the_premises_are_met(
    rt: HostRuntime,
) -> Result<(), Fail> {
    let disk = prints(&rt, new_twin(rt.alloc())?, "run", SESSION, LINES, 0)?;
    let file = disk.below().file().into_store().into_file();
    reads_again(&rt, twin(rt.alloc(), file.durable(), false)?)
}
