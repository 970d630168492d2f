//! What the crates of tests share: example images, disks in memory that tests begin with, and what is drawn by chance.
//! Of programs only `nofs_rows` uses it, which runs cases.
//!
//! Promise: the numbers that are read from a disk are those that it can be mounted with.
//!
//! - `examples`: the example images of `docs/DEFINITIONS.md`
//! - `disks`: disks that fail, and what a disk holds
//! - `draws`: what is drawn by chance: numbers, calls that fail, and what a crash leaves
#![tactic(auto)]

mod disks;
mod draws;
mod examples;

ghost use Rattle.std.specs.Prelude.{◌<◌, ◌^◌, IfSome};
ghost use Rattle.nofs_disk.specs.Disk.{IsSettled};
ghost use Rattle.nofs_memdisk.specs.Parts.{memory_state};
ghost use Rattle.nofs_super.specs.Geometry.{IsGeometry};
ghost use Rattle.nofs_agree.specs.Reads.{IsAt};

pub use disks::{bytes_of, cached, cell_of, cells_of, failing, fault, left, used};
pub use draws::{choices_of, draw, drawn_call, drawn_picks, fault_after, made};
pub use examples::images::{
    blocks_under_the_top, bytes_ff, empty, inode_made_again, residue_past_the_size,
    stamp_that_differs, two_owners, two_owners_the_other_way,
};
pub use examples::names::{
    chain_of_directories, dead_second_link, entry_of_a_free_record, entry_of_another_generation,
    loop_of_directories, one_name_twice,
};
use nofs_disk::{Cell, Disk};
use nofs_memdisk::MemDisk;
use nofs_super::{SuperBlock, format, read_super};
use std::alloc::{AllocError, Global};
use std::test::Fail;

fn lay(disk: &mut MemDisk, block: u64, cell: &Cell)
    requires { IsSettled (memory_state disk.old) }
    ensures { IsSettled (memory_state disk.new) }
{
    if block < disk.blocks() {
        disk.put_cell(block, cell);
    }
}

/// A disk of so many blocks that holds these cells first, and zeros after them.
pub fn disk_with(alloc: Global, blocks: u64, cells: &[Cell]) -> Result<MemDisk, AllocError> {
    let mut disk = MemDisk::new(alloc, blocks)?;
    for (block, cell) in cells.iter().enumerate() {
        lay(&mut disk, block as u64, cell);
    }
    Ok(disk)
}

/// A disk that holds these cells.
pub fn disk_of(alloc: Global, cells: &[Cell]) -> Result<MemDisk, AllocError> {
    disk_with(alloc, cells.len() as u64, cells)
}

/// A disk that was just formatted.
pub fn formatted(alloc: Global, blocks: u64, inodes: u64) -> Result<MemDisk, Fail> {
    let mut disk = MemDisk::new(alloc, blocks)?;
    match format(&mut disk, blocks, inodes) {
        Ok(()) => Ok(disk),
        Err(_) => Err("not formatted".into()),
    }
}

/// The superblock of a disk; `None` where it can't be mounted or its read fails.
pub fn read_numbers(disk: &mut MemDisk) -> Option<SuperBlock>
    ensures at { IfSome result (IsAt (memory_state disk.new)) }
    ensures mount { IfSome result (λ at. at.mount < 2 ^ 24) }
    ensures geometry { IfSome result (λ at. IsGeometry at.blocks at.blocks at.inodes) }
{
    match read_super(disk) {
        Ok(at) => Some(at),
        Err(_) => None,
    }
}
