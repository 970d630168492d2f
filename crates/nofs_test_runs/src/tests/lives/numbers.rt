//! The numbers that stand on a disk: stamps, and generations, which are stamps too.

use crate::tests::lives::BLOCKS;
use nofs_disk::Cell;
use nofs_memdisk::MemDisk;
use nofs_test_disks::cell_of;
use nofs_test_sessions::number_in;
use std::alloc::{AllocError, Global};

/// The superblock, and the table of 16 inodes.
const FIRST_OF_DATA: u64 = 5;

/// How many stamps a mount has.
pub(crate) const SERIALS: u64 = 1_099_511_627_776;

pub(crate) fn is_table(block: u64) -> bool {
    block > 0 && block < FIRST_OF_DATA
}

// Whether a stamp or generation stands at this place of a record: its generation, and those of four links and ten
// pointers.
fn is_in_record(place: usize) -> bool {
    place % 256 == 0 || (place % 256 >= 40 && place % 16 == 8)
}

// Whether one stands at this place of a block of this kind: in each entry of a directory, and in each pointer of a
// leaf.
fn is_in_block(kind: u64, place: usize) -> bool {
    match kind {
        2 => place % 64 == 8,
        3 => place % 16 == 8,
        _ => false,
    }
}

// Adds the stamps and generations that stand in a cell.
pub(crate) fn push_numbers(
    numbers: &mut Vec<u64>,
    block: u64,
    cell: &Cell,
) -> Result<(), AllocError> {
    push_number(numbers, number_in(&cell.tag, 8))?;
    push_number(numbers, number_in(&cell.tag, 24))?;
    let kind = number_in(&cell.tag, 0) % 4_294_967_296;
    for word in 0..128_usize {
        let place = word * 8;
        let has_number = if is_table(block) {
            is_in_record(place)
        } else {
            is_in_block(kind, place)
        };
        if has_number {
            push_number(numbers, number_in(&cell.payload, place))?;
        }
    }
    Ok(())
}

fn push_number(numbers: &mut Vec<u64>, number: u64) -> Result<(), AllocError> {
    if number != 0 {
        numbers.push(number)?;
    }
    Ok(())
}

pub(crate) fn numbers_on(alloc: Global, disk: &mut MemDisk) -> Result<Vec<u64>, AllocError> {
    let mut numbers = Vec::new(alloc);
    for block in 0..BLOCKS {
        if let Some(cell) = cell_of(disk, block) {
            push_numbers(&mut numbers, block, &cell)?;
        }
    }
    Ok(numbers)
}

pub(crate) fn has_mount(numbers: &[u64], mount: u64) -> bool {
    numbers.iter().any(|one| *one / SERIALS == mount)
}

// The mount number on a disk.
pub(crate) fn mount_on(disk: &mut MemDisk) -> u64 {
    match cell_of(disk, 0) {
        Some(cell) => number_in(&cell.payload, 32),
        None => 0,
    }
}
