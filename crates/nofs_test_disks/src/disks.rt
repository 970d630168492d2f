//! Disks that fail, and the cells that a disk holds.
ghost use Rattle.nofs_versions.specs.Memory.{PicksVersions};
ghost use Rattle.nofs_memdisk.specs.Parts.{memory_state};
ghost use Rattle.std.specs.Prelude.{IsTrue, ◌↔◌};

use nofs_cache::Cached;
use nofs_disk::{Cell, Disk};
use nofs_memdisk::MemDisk;
use nofs_model::{ScanResult, full_scan, is_mountable};
use nofs_versions::{CallKind, FaultAt, Pick};
use std::alloc::{AllocError, Global};

/// The call of this kind and number, which fails.
pub fn fault(call: CallKind, number: u64, taken: bool) -> FaultAt {
    FaultAt {
        call,
        number,
        taken,
    }
}

/// A disk of so many blocks, of which this call fails.
pub fn failing(alloc: Global, blocks: u64, fault: FaultAt) -> Result<MemDisk, AllocError> {
    let mut disk = MemDisk::new(alloc, blocks)?;
    disk.fail_at(&[fault])?;
    Ok(disk)
}

/// The first cells of a disk, up to one that can't be read.
pub fn cells_of<D: Disk>(
    alloc: Global,
    disk: &mut D,
    blocks: u64,
) -> Result<Vec<Cell>, AllocError> {
    let mut cells = Vec::new(alloc);
    for block in 0..blocks {
        match cell_of(disk, block) {
            Some(cell) => cells.push(cell)?,
            None => return Ok(cells),
        }
    }
    Ok(cells)
}

/// The cell of a block, if it can be read.
pub fn cell_of<D: Disk>(disk: &mut D, block: u64) -> Option<Cell> {
    if block >= disk.blocks() {
        return None;
    }
    let mut cell = Cell::ZERO;
    match disk.read(block, &mut cell) {
        Ok(()) => Some(cell),
        Err(_) => None,
    }
}

/// The bytes of cells one after another, the payload of each before its tag.
pub fn bytes_of(alloc: Global, cells: &[Cell]) -> Result<Vec<u8>, AllocError> {
    let mut bytes = Vec::new(alloc);
    for cell in cells {
        bytes.extend_from_slice(&cell.payload)?;
        bytes.extend_from_slice(&cell.tag)?;
    }
    Ok(bytes)
}

// Whether a crash may leave this version of this block.
fn is_pick(disk: &MemDisk, pick: Pick) -> bool
    ensures { IsTrue result ↔ PicksVersions (memory_state disk.now) pick }
{
    pick.block < disk.blocks() && pick.version < disk.choices(pick.block)
}

/// The disk that a crash leaves with these versions, and the last one of each other block; `None`
/// where some can't be picked.
pub fn left(alloc: Global, disk: &MemDisk, picks: &[Pick]) -> Result<Option<MemDisk>, AllocError> {
    if picks.iter().all(|pick| is_pick(disk, *pick)) {
        Ok(Some(disk.image(alloc, picks)?))
    } else {
        Ok(None)
    }
}

/// A cache over a disk, where there is memory.
pub fn cached<D: Disk + Drop>(alloc: Global, below: D) -> Result<Cached<D>, AllocError> {
    match Cached::new(alloc, below) {
        Ok(disk) => Ok(disk),
        Err(_) => Err(AllocError),
    }
}

/// How many inodes and how many blocks the definitions say are used; `None` where the cells are no
/// image that can be mounted.
pub fn used(alloc: Global, cells: &[Cell]) -> Result<Option<(u64, u64)>, AllocError> {
    if !is_mountable(cells) {
        return Ok(None);
    }
    let ScanResult { inodes, blocks } = full_scan(alloc, cells)?;
    Ok(Some((inodes.count(), blocks.count())))
}
