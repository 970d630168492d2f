//! How often a case is run, and over which of the images that a crash may leave.

use crate::failure::Failure;
use crate::lines::{number_of, range_of, words_at};
use nofs_disk::Disk;
use nofs_memdisk::MemDisk;
use nofs_test_disks::{choices_of, drawn_picks};
use nofs_versions::Pick;
use std::alloc::{AllocError, Global};

/// The turns of a case: those of its line `each`, or one.
pub fn turns_of(alloc: Global, body: &[&str]) -> Result<(u64, u64), Failure> {
    match words_at(alloc, body, "each ")?.as_slice() {
        [] => Ok((1, 1)),
        [_, _, range, ..] => range_of(range).ok_or(Failure::Case("no turns")),
        _ => Err(Failure::Case("no turns")),
    }
}

/// How many images a case is to meet at least in all its turns: the number behind `images each`.
pub fn least_images(alloc: Global, body: &[&str]) -> Result<u64, AllocError> {
    match words_at(alloc, body, "images each ")?.as_slice() {
        [_, _, least] => Ok(number_of(least).unwrap_or(u64::MAX)),
        _ => Ok(0),
    }
}

/// What crashes pick, by a line.
pub fn picks_of(
    alloc: Global,
    disk: &MemDisk,
    words: &[&str],
) -> Result<Option<Vec<Vec<Pick>>>, AllocError> {
    match words {
        ["images", "each", ..] => Ok(Some(each_picks(alloc, disk)?)),
        ["images", "drawn", count, seed] => match (number_of(count), number_of(seed)) {
            (Some(count), Some(seed)) => Ok(Some(many_picks(alloc, disk, count, seed)?)),
            _ => Ok(None),
        },
        _ => Ok(None),
    }
}

// Each version of each block that may hold several, one at a time.
fn each_picks(alloc: Global, disk: &MemDisk) -> Result<Vec<Vec<Pick>>, AllocError> {
    let mut all = Vec::new(alloc);
    for block in 0..disk.blocks() {
        push_versions(alloc, &mut all, block, choices_of(disk, block))?;
    }
    Ok(all)
}

fn push_versions(
    alloc: Global,
    all: &mut Vec<Vec<Pick>>,
    block: u64,
    choices: u64,
) -> Result<(), AllocError> {
    if choices < 2 {
        return Ok(());
    }
    for version in 0..choices {
        all.push(vec![in alloc; Pick { block, version }]?)?;
    }
    Ok(())
}

// So many times one of the versions of each block.
fn many_picks(
    alloc: Global,
    disk: &MemDisk,
    count: u64,
    seed: u64,
) -> Result<Vec<Vec<Pick>>, AllocError> {
    let (mut all, mut state) = (Vec::new(alloc), seed);
    for _ in 0..count {
        all.push(drawn_picks(alloc, disk, &mut state)?)?;
    }
    Ok(all)
}
