//! The lead's cells are copied onto the other.
//!
//! Promise: the lead is only read, and what was copied is what the lead gives. Of each block the other
//! has its own cell or the lead's, and a block that could not be read costs it none.
ghost use Rattle.std.specs.Prelude.{◌≡◌, ℕ, ◌+◌, ◌<◌, ◌≤◌, IfErr, OnOk};
ghost use Rattle.nofs_disk.specs.Disk.{IsSettled};
ghost use Rattle.nofs_mirror.specs.Copying.{CopiesBlocks, CopyCause, Copies, HasCopied, IsPartCopy, IsUntouched};

use nofs_disk::{Cell, Disk};

/// Why a copy stopped.
#[derive(Clone, Copy, Debug, PartialEq, Eq)]
pub enum CopyFault {
    /// The lead could not be read.
    Read,
    /// The other could not be written or flushed.
    Write,
}

// Copies one cell.
fn copy_cell<A: Disk, B: Disk>(
    lead: &mut A,
    other: &mut B,
    block: u64,
    cell: &mut Cell,
) -> Result<(), CopyFault>
    requires lead { block < (A.state lead.old).blocks }
    requires other { block < (B.state other.old).blocks }
    requires spare { 1 ≤ (B.state other.old).spare }
    ensures copies { Copies (A.state lead.old) (A.state lead.new) (B.state other.old) (B.state other.new) }
    ensures copied { OnOk result ((k : ℕ) → HasCopied (A.state lead.old) (B.state other.old) k → block ≡ k
        → HasCopied (A.state lead.old) (B.state other.new) (k + 1)) }
    ensures part { IsPartCopy (block + 1) (A.state lead.old) (B.state other.old) (B.state other.new) }
    ensures moment { OnOk result ((B.state other.new).moment ≡ (B.state other.old).moment + 2) }
    ensures untouched { IfErr result (λ fault. IsUntouched fault other.old other.new) }
    ensures spare { OnOk result ((B.state other.old).spare ≤ (B.state other.new).spare + 1) }
    ensures cause { IfErr result
        (λ fault. CopyCause fault (A.state lead.old) (A.state lead.new) (B.state other.old) (B.state other.new)) }
{
    match lead.read(block, cell) {
        Ok(()) => match other.write(block, cell) {
            Ok(()) => Ok(()),
            Err(_) => Err(CopyFault::Write),
        },
        Err(_) => Err(CopyFault::Read),
    }
}

// Copies the first cells.
fn copy_cells<A: Disk, B: Disk>(lead: &mut A, other: &mut B, blocks: u64) -> Result<(), CopyFault>
    requires lead { blocks ≤ (A.state lead.old).blocks }
    requires other { blocks ≤ (B.state other.old).blocks }
    requires spare { blocks + 1 ≤ (B.state other.old).spare }
    ensures copies { CopiesBlocks blocks (A.state lead.old) (A.state lead.new)
        (B.state other.old) (B.state other.new) result }
    ensures spare { OnOk result (1 ≤ (B.state other.new).spare) }
{
    let mut cell = Cell::ZERO;
    for block in 0..blocks {
        match copy_cell(lead, other, block, &mut cell) {
            Ok(()) => {}
            Err(fault) => return Err(fault),
        }
    }
    Ok(())
}

/// Copies the first cells and flushes them, up to the first call that fails.
pub(crate) fn copy_and_flush<A: Disk, B: Disk>(
    lead: &mut A,
    other: &mut B,
    blocks: u64,
) -> Result<(), CopyFault>
    requires lead { blocks ≤ (A.state lead.old).blocks }
    requires other { blocks ≤ (B.state other.old).blocks }
    requires spare { blocks + 1 ≤ (B.state other.old).spare }
    ensures copies { CopiesBlocks blocks (A.state lead.old) (A.state lead.new)
        (B.state other.old) (B.state other.new) result }
    ensures settled { OnOk result (IsSettled (B.state other.new)) }
{
    match copy_cells(lead, other, blocks) {
        Ok(()) => match other.flush() {
            Ok(()) => Ok(()),
            Err(_) => Err(CopyFault::Write),
        },
        Err(fault) => Err(fault),
    }
}
