//! Lines that judge a disk, or go on with what a crash leaves of it.
//!
//! - `calls 3 65 2` counts reads, writes and flushes so far; `-` stands for any count, `turn` for the number of the
//!   turn
//! - `cell 1 256 0200` tells bytes of a cell from a place on, its tag from place 1024 on
//! - `choices 6 2` says how many cells a crash may leave at a block
//! - `crash 17` goes on with what a crash leaves, drawn by chance, and `left 0 1` with one cell of one block
//!
//! A block `1:352` is the one whose number stands in block 1 at 352. Any other line asks what the definitions say of
//! the cells.

use crate::failure::Failure;
use crate::lines::{hex_bytes, number_of};
use crate::meaning::meaning_holds;
use nofs_disk::{Cell, Disk, read_u64_at};
use nofs_memdisk::MemDisk;
use nofs_test_disks::{cell_of, cells_of, choices_of, drawn_picks, left};
use nofs_versions::{CallCounts, Pick};
use std::alloc::{AllocError, Global};

/// All cells of a disk.
pub fn all_cells(alloc: Global, disk: &mut MemDisk) -> Result<Vec<Cell>, AllocError> {
    let blocks = disk.blocks();
    cells_of(alloc, disk, blocks)
}

/// What a crash leaves by a line: drawn by chance, or with one cell of a block.
pub fn crashed(
    alloc: Global,
    disk: &MemDisk,
    words: &[&str],
) -> Result<Option<MemDisk>, AllocError> {
    match words {
        ["crash", seed] => match number_of(seed) {
            Some(mut seed) => left(alloc, disk, &drawn_picks(alloc, disk, &mut seed)?),
            None => Ok(None),
        },
        ["left", block, version] => match (number_of(block), number_of(version)) {
            (Some(block), Some(version)) => left(alloc, disk, &[Pick { block, version }]),
            _ => Ok(None),
        },
        _ => Ok(None),
    }
}

/// Whether it holds what a line says of a disk.
pub fn disk_holds(
    alloc: Global,
    disk: &mut MemDisk,
    turn: u64,
    words: &[&str],
) -> Result<Option<bool>, Failure> {
    match words {
        ["calls", reads, writes, flushes] => {
            Ok(Some(are_calls(disk.calls(), turn, [reads, writes, flushes])))
        }
        ["cell", block, at, digits] => {
            let bytes = hex_bytes(alloc, digits)?;
            Ok(Some(has_cell(disk, block, number_of(at), &bytes)))
        }
        ["choices", block, count] => Ok(Some(has_choices(disk, block, number_of(count)))),
        _ => meaning_holds(alloc, &all_cells(alloc, disk)?, words),
    }
}

fn are_calls(calls: CallCounts, turn: u64, words: [&str; 3]) -> bool {
    let [reads, writes, flushes] = words;
    is_count(reads, calls.reads, turn)
        && is_count(writes, calls.writes, turn)
        && is_count(flushes, calls.flushes, turn)
}

// Whether a count is as a word says, where it says one: a number, or that of the turn.
fn is_count(word: &str, count: u64, turn: u64) -> bool {
    match word {
        "-" => true,
        "turn" => count == turn,
        _ => number_of(word) == Some(count),
    }
}

fn has_cell(disk: &mut MemDisk, block: &str, at: Option<u64>, bytes: &[u8]) -> bool {
    let (Some(block), Some(at)) = (block_of(disk, block), at) else {
        return false;
    };
    match cell_of(disk, block) {
        Some(cell) => has_bytes(&cell, at as usize, bytes),
        None => false,
    }
}

fn has_choices(disk: &mut MemDisk, block: &str, count: Option<u64>) -> bool {
    match block_of(disk, block) {
        Some(block) => Some(choices_of(disk, block)) == count,
        None => false,
    }
}

// The block that a word names: by its number, or by where its number stands.
fn block_of(disk: &mut MemDisk, word: &str) -> Option<u64> {
    match word.split_once(':') {
        Some((block, at)) => {
            let cell = cell_of(disk, number_of(block)?)?;
            number_in(&cell.payload, number_of(at)? as usize)
        }
        None => number_of(word),
    }
}

// The number in the eight bytes from a place on.
fn number_in(bytes: &[u8], at: usize) -> Option<u64> {
    if at <= bytes.len() && 8 <= bytes.len() - at {
        Some(read_u64_at(bytes, at))
    } else {
        None
    }
}

// Whether a cell has these bytes from a place on. Its tag follows its payload.
fn has_bytes(cell: &Cell, at: usize, bytes: &[u8]) -> bool {
    let (part, at) = if at < 1024 {
        (cell.payload.as_slice(), at)
    } else {
        (cell.tag.as_slice(), at - 1024)
    };
    match part.get(at..at.saturating_add(bytes.len())) {
        Some(there) => there == bytes,
        None => false,
    }
}
