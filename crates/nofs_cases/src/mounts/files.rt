//! A disk in a file in memory, behind a cache, formatted and mounted.
ghost use Rattle.std.specs.Prelude.{◌≡◌, [], IfOk, IsTrue};
ghost use Rattle.nofs_shared.specs.Mount.Invariant.{IsSoundDisk};
ghost use Rattle.nofs_shared.specs.Laws.{IsBlankDisk};
ghost use Rattle.nofs_cases.specs.Mounts.Open.{LeavesSound, StandsOpen};
ghost use Rattle.nofs_disk.specs.Disk.{IsSettled};
ghost use Rattle.nofs_disk.specs.CellsOfBytes.{cells_in};

use crate::mounts::mounts::{Unmade, format_disk};
use nofs_cache::Cached;
use nofs_crashlaw::law_homes;
use nofs_disk::Disk;
use nofs_filedisk::{FileDisk, MemFile};
use nofs_shared::{BeginFault, Mount};
use std::alloc::Global;

/// The numbers of the disk.
const BLOCKS: u64 = 64;

const INODES: u64 = 16;

/// How many bytes a call of the file moves at most.
const PIECE: usize = 69_696;

// An empty file in memory, and the disk in it behind a cache.
fn told_disk(alloc: Global) -> Result<Cached<FileDisk<MemFile>>, Unmade>
    ensures { IfOk result (λ disk. IsTrue (⟦<Cached<FileDisk<MemFile>> as Disk>⟧.state disk).tells) }
{
    let Ok(file) = MemFile::new(alloc, b"", PIECE, &[]) else {
        return Err(Unmade::OutOfMemory);
    };
    let Ok(disk) = FileDisk::over(alloc, file) else {
        return Err(Unmade::OutOfMemory);
    };
    match Cached::new(alloc, disk) {
        Ok(disk) => Ok(disk),
        Err(_) => Err(Unmade::OutOfMemory),
    }
}

/// That disk, formatted with 64 blocks and 16 inodes.
///
/// # Errors
///
/// `OutOfMemory`, and `NotFormatted` where the format failed.
pub(crate) fn new_file_disk(alloc: Global) -> Result<Cached<FileDisk<MemFile>>, Unmade>
    ensures sound { IfOk result (λ disk. IsSoundDisk (⟦<Cached<FileDisk<MemFile>> as Disk>⟧.state disk)) }
    ensures blank { IfOk result (λ disk. IsBlankDisk (⟦<Cached<FileDisk<MemFile>> as Disk>⟧.state disk)) }
{
    let mut disk = match told_disk(alloc) {
        Ok(disk) => disk,
        Err(why) => return Err(why),
    };
    match format_disk(&mut disk, BLOCKS, INODES) {
        Ok(()) => Ok(disk),
        Err(fault) => Err(Unmade::NotFormatted(fault)),
    }
}

// Of a disk that is sound a crash leaves sound images. It does nothing.
fn note_sound<D: Disk>(_disk: &D)
    ensures { IsSoundDisk (D.state _disk.now) → LeavesSound (D.state _disk.now) }
{}

// A disk in a file in memory with these bytes.
fn file_disk(alloc: Global, bytes: &[u8]) -> Result<FileDisk<MemFile>, Unmade>
    ensures tells { IfOk result (λ disk. IsTrue (⟦<FileDisk<MemFile> as Disk>⟧.state disk).tells) }
    ensures now { IfOk result (λ disk. (⟦<FileDisk<MemFile> as Disk>⟧.state disk).now ≡ cells_in bytes.now) }
    ensures settled { IfOk result (λ disk. IsSettled (⟦<FileDisk<MemFile> as Disk>⟧.state disk)) }
{
    let Ok(file) = MemFile::new(alloc, bytes, PIECE, &[]) else {
        return Err(Unmade::OutOfMemory);
    };
    match FileDisk::over(alloc, file) {
        Ok(disk) => Ok(disk),
        Err(_) => Err(Unmade::OutOfMemory),
    }
}

/// The disk in the durable bytes of the file: what a crash leaves that loses each cell since the last
/// flush. Where the disk was sound, that one is.
///
/// # Errors
///
/// `OutOfMemory`.
pub(crate) fn reopened(
    alloc: Global,
    disk: Cached<FileDisk<MemFile>>,
) -> Result<FileDisk<MemFile>, Unmade>
    ensures { IsSoundDisk (⟦<Cached<FileDisk<MemFile>> as Disk>⟧.state disk)
        → IfOk result (λ new. IsSoundDisk (⟦<FileDisk<MemFile> as Disk>⟧.state new)) }
{
    note_sound(&disk);
    let file = disk.below().file();
    match file_disk(alloc, file.durable()) {
        Ok(disk) => Ok(disk),
        Err(why) => Err(why),
    }
}

// The mount of a disk, before its first step.
fn mounted<D: Disk + Drop>(alloc: Global, disk: D) -> Result<Mount<D>, Unmade>
    ensures found { IfOk result (λ m. m.found.value ≡ disk) }
    ensures empty { IfOk result (λ m. m.core.books.history.entries ≡ []) }
    ensures open { IsSoundDisk (D.state disk)
        → IfOk result (λ m. ∥ StandsOpen (D.state m.found.value) (D.state m.core.disk) m.first m.core.books ∥₁) }
{
    law_homes();
    match Mount::begin(alloc, disk, 0) {
        Ok(mount) => Ok(mount),
        Err(BeginFault { disk: _, cause }) => Err(Unmade::NotMounted(cause)),
    }
}

/// The mount of that disk, before its first step.
///
/// # Errors
///
/// Those of `new_file_disk`, and `NotMounted` where the mount failed.
pub(crate) fn formatted_file_mount(
    alloc: Global,
) -> Result<Mount<Cached<FileDisk<MemFile>>>, Unmade>
    ensures found { IfOk result (λ m. IsSoundDisk (⟦<Cached<FileDisk<MemFile>> as Disk>⟧.state m.found.value)) }
    ensures blank { IfOk result (λ m. IsBlankDisk (⟦<Cached<FileDisk<MemFile>> as Disk>⟧.state m.found.value)) }
    ensures empty { IfOk result (λ m. m.core.books.history.entries ≡ []) }
    ensures open { IfOk result (λ m. ∥ StandsOpen (⟦<Cached<FileDisk<MemFile>> as Disk>⟧.state m.found.value)
        (⟦<Cached<FileDisk<MemFile>> as Disk>⟧.state m.core.disk) m.first m.core.books ∥₁) }
{
    match new_file_disk(alloc) {
        Ok(disk) => mounted(alloc, disk),
        Err(why) => Err(why),
    }
}
