//! What is drawn by chance: numbers, calls that fail, and what a crash leaves of a disk.

use crate::disks::fault;
use nofs_disk::Disk;
use nofs_memdisk::MemDisk;
use nofs_versions::{CallKind, FaultAt, Pick};
use std::alloc::{AllocError, Global};

/// A number below this one, or 0.
pub fn draw(state: &mut u64, below: u64) -> u64 {
    *state = state
        .wrapping_mul(6_364_136_223_846_793_005)
        .wrapping_add(1_442_695_040_888_963_407);
    (*state >> 33).checked_rem(below).unwrap_or(0)
}

/// How many writes and flushes were made on a disk.
pub fn made(disk: &MemDisk) -> (u64, u64) {
    let calls = disk.calls();
    (calls.writes, calls.flushes)
}

/// One of the calls of a day, of which one in four is a flush.
pub fn drawn_call(state: &mut u64, calls: (u64, u64)) -> (CallKind, u64) {
    if draw(state, 4) == 0 {
        (CallKind::Flush, draw(state, calls.1).saturating_add(2))
    } else {
        (CallKind::Write, draw(state, calls.0).saturating_add(2))
    }
}

/// The fault of a call that comes so many calls of its kind after these writes and flushes.
pub fn fault_after(made: (u64, u64), call: (CallKind, u64), taken: bool) -> FaultAt {
    let before = match call.0 {
        CallKind::Flush => made.1,
        _ => made.0,
    };
    fault(call.0, before.saturating_add(call.1), taken)
}

/// How many cells a crash may leave at a block, or 0.
pub fn choices_of(disk: &MemDisk, block: u64) -> u64 {
    if block < disk.blocks() {
        disk.choices(block)
    } else {
        0
    }
}

/// One of the cells of each block that may hold several.
pub fn drawn_picks(
    alloc: Global,
    disk: &MemDisk,
    state: &mut u64,
) -> Result<Vec<Pick>, AllocError> {
    let mut picks = Vec::new(alloc);
    for block in 0..disk.blocks() {
        let choices = choices_of(disk, block);
        if choices > 1 {
            let version = draw(state, choices);
            picks.push(Pick { block, version })?;
        }
    }
    Ok(picks)
}
