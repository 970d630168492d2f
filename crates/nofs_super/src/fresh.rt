//! A device is formatted.
ghost use Rattle.std.specs.Prelude.{◌≡◌, ◌<◌, ◌≤◌, IsTrue, OnOk, Some, ℕ};
ghost use Rattle.nofs_disk.specs.Adds.{Adds};
ghost use Rattle.nofs_disk.specs.Disk.{cell_at};
ghost use Rattle.nofs_disk.specs.Tag.{zero_cell};
ghost use Rattle.nofs_super.specs.Format.{FormatEnds, IsFreshCell, PutsFresh, first_records, formatted_cell};
ghost use Rattle.nofs_super.specs.Format.{table_cell};
ghost use Rattle.nofs_super.specs.Geometry.{format_fault};
ghost use Rattle.nofs_super.specs.declared.geometry.FormatFault.{FormatFault};

use crate::geometry::{FormatFault, refusal};
use crate::superblock::{SuperBlock, write_super};
use nofs_disk::{Cell, Disk, Failed, Kind, Tag, clear, write_tag, write_u32_at, write_u64_at};

/// Writes each block below `blocks` once, and flushes once: a superblock of version 1 and mount
/// number 0, a table of `inodes` inodes with the root and the label file, and cells of zeros. Of a
/// disk that keeps writes back one cell at most waits at a time: each is written out at once.
///
/// A crash during the call may leave any mix of old cells and new ones; run it again then.
///
/// # Errors
///
/// The first fault of the table that the numbers have on this device, with no call made;
/// `OutOfMemory` before the first write; `WriteFault` where a write or the flush failed.
pub fn format<D: Disk>(disk: &mut D, blocks: u64, inodes: u64) -> Result<(), FormatFault>
    ensures ends { FormatEnds blocks inodes (D.state disk.old) (D.state disk.new) result }
    ensures cells { OnOk result (IsTrue (D.state disk.old).tells → (b : ℕ)
        → b < blocks → cell_at (D.state disk.new).now b ≡ formatted_cell blocks inodes b) }
    ensures refused { (fault : FormatFault) → format_fault (D.state disk.old).blocks blocks inodes ≡ Some fault
        → result ≡ Err fault }
    ensures adds { Adds (IsFreshCell blocks inodes) (D.state disk.old) (D.state disk.new) }
{
    match refusal(disk.blocks(), blocks, inodes) {
        Some(fault) => return Err(fault),
        None => {}
    }
    if disk.ready(2 * blocks + 1).is_err() {
        return Err(FormatFault::OutOfMemory);
    }
    let mut cell = Cell::ZERO;
    for block in 0..blocks {
        if put_fresh(disk, block, blocks, inodes, &mut cell).is_err() {
            return Err(FormatFault::WriteFault);
        }
    }
    // A crash after a mount's writes and before this flush would leave old cells, whose stamps the
    // new mounts give again.
    match disk.flush() {
        Ok(()) => Ok(()),
        Err(_) => Err(FormatFault::WriteFault),
    }
}

// Writes the cell that a format gives to a block to the disk, and writes out what the disk keeps
// back of it. The cell is made in `into`.
fn put_fresh<D: Disk>(
    disk: &mut D,
    block: u64,
    blocks: u64,
    inodes: u64,
    into: &mut Cell,
) -> Result<(), Failed>
    requires block { block < blocks }
    requires fits { blocks ≤ (D.state disk.old).blocks }
    requires spare { 2 ≤ (D.state disk.old).spare }
    ensures { PutsFresh blocks inodes block (D.state disk.old) (D.state disk.new) result }
{
    write_fresh(block, blocks, inodes, into);
    disk.write(block, into)?;
    disk.write_out()?;
    Ok(())
}

// Makes the cell that a format gives to a block.
#[tactic(auto, unfolding(crate::specs::Format::formatted_cell))]
fn write_fresh(block: u64, blocks: u64, inodes: u64, into: &mut Cell)
    ensures { into.new ≡ formatted_cell blocks inodes block }
{
    if block == 0 {
        let first = SuperBlock {
            version: 1,
            blocks,
            inodes,
            mount: 0,
        };
        write_super(&first, into);
    } else if block <= inodes / 4 {
        write_table(block, into);
    } else {
        write_zero(into);
    }
}

// Writes a cell of the table, with the records of the root and of the label file in the first one.
#[tactic(auto, unfolding(crate::specs::Format::table_cell, crate::specs::Format::first_records))]
fn write_table(block: u64, into: &mut Cell)
    ensures { into.new ≡ table_cell block }
{
    clear(&mut into.payload);
    if block == 1 {
        write_u64_at(&mut into.payload, 0, 1);
        write_u32_at(&mut into.payload, 8, 2);
        write_u64_at(&mut into.payload, 256, 2);
        write_u32_at(&mut into.payload, 264, 1);
    }
    let tag = Tag {
        kind: Kind::Table,
        inode: 0,
        generation: 0,
        slot: block,
        stamp: 0,
    };
    write_tag(&tag, &mut into.tag);
}

// Writes a cell of zeros.
#[tactic(auto, unfolding(nofs_disk::specs::Tag::zero_cell))]
fn write_zero(into: &mut Cell)
    ensures { into.new ≡ zero_cell }
{
    clear(&mut into.payload);
    clear(&mut into.tag);
}
