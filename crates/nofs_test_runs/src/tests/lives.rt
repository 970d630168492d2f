//! Chains of lives of one disk. Each life ends with a crash, some in the midst of the mount, and the next one mounts
//! what is left. In no chain is a number given twice, and no file ever has bytes that were put into another one.
mod chains;
mod numbers;
mod scripts;

use crate::tests::lives::chains::{Chain, ChainsFound, left_image};
use crate::tests::lives::numbers::{mount_on, numbers_on};
use crate::tests::lives::scripts::{all_gets, drawn_script};
use nofs_memdisk::MemDisk;
use nofs_test_disks::{draw, drawn_call, drawn_picks, fault_after, made};
use nofs_test_sessions::{count, run_on, scanned_and_read};
use nofs_versions::{CallKind, FaultAt};
use std::alloc::Global;
use std::process::Abort;
use std::sync::Wait;
use std::test::Fail;
use std::thread::Threads;

pub(crate) const BLOCKS: u64 = 64;

/// How many lives a chain has.
const LIVES: u8 = 4;

/// Most sessions come to about so many writes and flushes.
const CALLS: (u64, u64) = (60, 3);

/// A mount number that no stamp has, for a life whose mount failed.
const NO_MOUNT: u64 = u64::MAX;

// The command of a life, and how many writes and flushes come before its mount. The first life formats.
fn command_of(life: u8) -> (&'static str, (u64, u64)) {
    if life == 1 {
        ("new 64 16", (BLOCKS, 1))
    } else {
        ("run", (0, 0))
    }
}

// The call of a life that is to fail: the write of its mount, the flush of its mount, or one that comes later, if it
// comes at all.
fn drawn_failure(state: &mut u64) -> (CallKind, u64) {
    match draw(state, 8) {
        0 => (CallKind::Write, 1),
        1 => (CallKind::Flush, 1),
        _ => drawn_call(state, CALLS),
    }
}

// Whether a life came to the call that was to fail.
fn has_failed(disk: &MemDisk, fault: FaultAt) -> bool {
    let (writes, flushes) = made(disk);
    match fault.call {
        CallKind::Flush => flushes >= fault.number,
        CallKind::Read | CallKind::Write => writes >= fault.number,
    }
}

// A life on a disk that has had no write, up to its end or to a call that failed.
fn live<R: Threads + Wait + Sync>(
    rt: &R,
    alloc: Global,
    chain: &mut Chain,
    life: u8,
    disk: MemDisk,
) -> Result<MemDisk, Fail> {
    let mut disk = disk;
    let script = drawn_script(alloc, &mut chain.plans, life)?;
    let (command, before) = command_of(life);
    let call = drawn_failure(&mut chain.plans);
    let fault = fault_after(before, call, draw(&mut chain.plans, 2) == 0);
    disk.fail_at(&[fault])?;
    let (status, sink, disk) = run_on(rt, alloc, command, &script.text, disk)?;
    let is_mounted = sink.bytes() != b"device fault\n".as_slice();
    let want = if has_failed(&disk, fault) { 3 } else { 0 };
    if status != want || is_mounted != (call.1 > 1) {
        chain.found.wrong = "the status does not tell whether a call failed";
    }
    note_life(alloc, chain, &script.given, is_mounted, disk)
}

// Looks at all that a life may have left.
fn note_life(
    alloc: Global,
    chain: &mut Chain,
    given: &[u8],
    is_mounted: bool,
    disk: MemDisk,
) -> Result<MemDisk, Fail> {
    let mut disk = disk;
    if is_mounted {
        let mount = chain.note_mount(&mut disk);
        chain.given.extend_from_slice(given)?;
        chain.note_cells(alloc, &disk, mount)?;
    } else {
        count(&mut chain.found.failed);
        chain.note_cells(alloc, &disk, NO_MOUNT)?;
    }
    Ok(disk)
}

// A disk that a crash leaves, which was read before as the next life finds it.
fn crashed<R: Threads + Wait + Sync>(
    rt: &R,
    alloc: Global,
    chain: &mut Chain,
    disk: &MemDisk,
) -> Result<MemDisk, Fail> {
    let picks = drawn_picks(alloc, disk, &mut chain.crashes)?;
    let image = left_image(alloc, disk, &picks)?;
    let (is_served, sink) = scanned_and_read(rt, alloc, &all_gets(alloc)?, image)?;
    if !is_served {
        chain.found.wrong = "an image cannot be scanned and read";
    }
    count(&mut chain.found.seen.images);
    chain.see(alloc, sink.bytes())?;
    let mut image = left_image(alloc, disk, &picks)?;
    chain.numbers = numbers_on(alloc, &mut image)?;
    chain.greatest = chain.greatest.max(mount_on(&mut image));
    Ok(image)
}

// What is found in a chain, after all that was found before it.
fn found_in<R: Threads + Wait + Sync>(
    rt: &R,
    alloc: Global,
    seed: u64,
    before: ChainsFound,
) -> Result<ChainsFound, Fail> {
    let mut chain = Chain::new(alloc, seed, before)?;
    let mut disk = MemDisk::new(alloc, BLOCKS)?;
    for life in 1..=LIVES {
        let ended = live(rt, alloc, &mut chain, life, disk)?;
        disk = crashed(rt, alloc, &mut chain, &ended)?;
    }
    Ok(chain.found)
}

// Whether so much came in these chains that what was not found might have been.
fn are_full(found: ChainsFound, chains: u64) -> bool {
    let seen = found.seen;
    found.mounts > 35
        && found.failed > 8
        && found.cells > 3_000
        && seen.images == chains.saturating_mul(LIVES as u64)
        && seen.bytes > 150
        && seen.holes > 50
        && seen.lost > 10
}

// So many chains from this seed on give no number twice and mix no files.
fn give_and_mix_nothing<R: Threads + Wait + Sync + Abort + AllocGlobal>(
    rt: &R,
    first: u64,
    chains: u64,
) -> Result<(), Fail> {
    let mut found = ChainsFound::NOTHING;
    for number in 0..chains {
        found = found_in(rt, rt.alloc(), first.saturating_add(number), found)?;
    }
    assert_eq!(rt; found.wrong, "");
    assert_eq!(rt; found.seen.foreign, 0);
    assert!(rt; are_full(found, chains));
    Ok(())
}

#[test]
fn chains_of_lives_give_no_number_twice_and_mix_no_files(rt: HostRuntime) -> Result<(), Fail> {
    for (first, chains) in [(1, 17), (101, 17), (201, 16)] {
        give_and_mix_nothing(&rt, first, chains)?;
    }
    Ok(())
}
