//! Runs in which one call of a disk below a cache fails: what they tell, and what the images of a crash after them
//! show.

use nofs_disk::Disk;
use nofs_memdisk::MemDisk;
use nofs_test_disks::{cached, choices_of, failing, fault, left};
use nofs_test_sessions::run_on;
use nofs_versions::{CallKind, FaultAt, Pick};
use std::alloc::{AllocError, Global};
use std::sync::Wait;
use std::test::Fail;
use std::thread::Threads;

const FILES: &str =
    "put @ 0 616263\nget @ 0 3\nfsync @\nmake /a\nput /a 0 646566\nget /a 0 3\nfsync /a";

/// What is told where no call fails.
const WHOLE: &str = "put 3\ngot bytes:616263\nsynced\nmade\nput 3\ngot bytes:646566\nsynced\n";

/// What may be told where a read of one command fails: it changes nothing, and nothing is stopped.
const READ_FAULTS: [&str; 7] = [
    "refused 18 read fault, stored 0\ngot\nsynced\nmade\nput 3\ngot bytes:646566\nsynced\n",
    "put 3\nrefused 18 read fault\nsynced\nmade\nput 3\ngot bytes:646566\nsynced\n",
    "put 3\ngot bytes:616263\nrefused 18 read fault\nmade\nput 3\ngot bytes:646566\nsynced\n",
    "put 3\ngot bytes:616263\nsynced\nrefused 18 read fault\n\
    refused 1 missing, stored 0\nrefused 1 missing\nrefused 1 missing\n",
    "put 3\ngot bytes:616263\nsynced\nmade\nrefused 18 read fault, stored 0\ngot\nsynced\n",
    "put 3\ngot bytes:616263\nsynced\nmade\nput 3\nrefused 18 read fault\nsynced\n",
    "put 3\ngot bytes:616263\nsynced\nmade\nput 3\ngot bytes:646566\nrefused 18 read fault\n",
];

/// What may be told where a write or a flush fails. Over a cache only an fsync writes to the disk or flushes it, and
/// all commands after it are stopped.
const WRITE_FAULTS: [&str; 2] = [
    "put 3\ngot bytes:616263\nrefused 19 write fault\n\
    refused 20 stopped\nrefused 20 stopped, stored 0\nrefused 20 stopped\nrefused 20 stopped\n",
    "put 3\ngot bytes:616263\nsynced\nmade\nput 3\ngot bytes:646566\nrefused 19 write fault\n",
];

fn is_one_of(line: &[u8], lines: &[&'static str]) -> bool {
    lines.iter().any(|one| one.as_bytes() == line)
}

// The format and the mount make 65 writes and two flushes, and the mount reads one block.
fn is_before_serving(fault: FaultAt) -> bool {
    match fault.call {
        CallKind::Read => fault.number < 2,
        CallKind::Write => fault.number < 66,
        CallKind::Flush => fault.number < 3,
    }
}

// Whether a run in which a call failed may end with this status and these lines. At status 0 the call was made again,
// or no such call was made. Only the flush at the end fails in no command.
fn may_tell(fault: FaultAt, status: u8, lines: &[u8]) -> bool {
    let reads = fault.call == CallKind::Read;
    if is_before_serving(fault) {
        return status == 3 && lines == b"device fault\n".as_slice();
    }
    if lines == WHOLE.as_bytes() {
        return status == 0 || (status == 3 && !reads);
    }
    let told: &[&str] = if reads { &READ_FAULTS } else { &WRITE_FAULTS };
    status == 3 && is_one_of(lines, told)
}

const GETS: &str = "get @ 0 3\nget /a 0 3";

/// What may be told of `/a`.
const NEW_FILE: [&str; 7] = [
    "got",
    "got hole:3",
    "got lost:3",
    "got bytes:646566",
    "refused 1 missing",
    "refused 2 lost entry 0",
    "refused 3 lost slot 0",
];

/// What may be told of `@`.
const LABEL: [&str; 4] = ["got", "got hole:3", "got lost:3", "got bytes:616263"];

// Whether lines of gets may follow a run that told these lines: what was synced is there.
fn may_get(told: &[u8], got: &[u8]) -> bool {
    let has_label = told.starts_with(b"put 3\ngot bytes:616263\nsynced\n".as_slice());
    let has_file = told.ends_with(b"put 3\ngot bytes:646566\nsynced\n".as_slice());
    let mut may = true;
    for (at, line) in got.split(|byte| *byte == b'\n').enumerate() {
        may = may
            && match at {
                0 if has_label => line == b"got bytes:616263".as_slice(),
                0 => is_one_of(line, &LABEL),
                1 if has_file => line == b"got bytes:646566".as_slice(),
                1 => is_one_of(line, &NEW_FILE),
                _ => line.is_empty(),
            };
    }
    may
}

// Whether the disk that a crash leaves with some cell is served as it may be after a run that told these lines.
fn is_served<R: Threads + Wait + Sync>(
    rt: &R,
    alloc: Global,
    disk: &MemDisk,
    picks: &[Pick],
    told: &[u8],
) -> Result<bool, AllocError> {
    let Some(image) = left(alloc, disk, picks)? else {
        return Ok(false);
    };
    let (status, sink, _) = run_on(rt, alloc, "run", GETS.as_bytes(), image)?;
    Ok(status == 0 && may_get(told, sink.bytes()))
}

// The same of each disk that a crash leaves with a block at one of its cells, where it may have several.
fn are_served<R: Threads + Wait + Sync>(
    rt: &R,
    alloc: Global,
    disk: &MemDisk,
    block: u64,
    told: &[u8],
) -> Result<bool, AllocError> {
    let choices = choices_of(disk, block);
    for version in 0..choices {
        let picks = [Pick { block, version }];
        if choices > 1 && !is_served(rt, alloc, disk, &picks, told)? {
            return Ok(false);
        }
    }
    Ok(true)
}

// Whether a disk, and each that a crash leaves of it with one block at any of its cells, is served so. A disk on which
// no mount began is not served.
fn images_are_served<R: Threads + Wait + Sync>(
    rt: &R,
    alloc: Global,
    disk: &MemDisk,
    told: &[u8],
) -> Result<bool, AllocError> {
    if disk.calls().writes < 65 {
        return Ok(true);
    }
    for block in 0..64 {
        if !are_served(rt, alloc, disk, block, told)? {
            return Ok(false);
        }
    }
    is_served(rt, alloc, disk, &[], told)
}

// Whether a run over a cache, of which a call of the disk below fails, tells what it may, and loses nothing synced.
fn survives<R: Threads + Wait + Sync>(
    rt: &R,
    alloc: Global,
    fault: FaultAt,
) -> Result<bool, AllocError> {
    let disk = cached(alloc, failing(alloc, 64, fault)?)?;
    let (status, told, disk) = run_on(rt, alloc, "new 64 16", FILES.as_bytes(), disk)?;
    let told = told.bytes();
    Ok(may_tell(fault, status, told) && images_are_served(rt, alloc, &disk.below(), told)?)
}

#[test]
fn a_fault_below_a_cache_is_told_and_loses_nothing_synced(rt: HostRuntime) -> Result<(), Fail> {
    let alloc = rt.alloc();
    let disk = cached(alloc, MemDisk::new(alloc, 64)?)?;
    let (_, _, disk) = run_on(&rt, alloc, "new 64 16", FILES.as_bytes(), disk)?;
    let calls = disk.below().calls();
    for (kind, taken, count) in [
        (CallKind::Read, false, calls.reads),
        (CallKind::Write, false, calls.writes),
        (CallKind::Write, true, calls.writes),
        (CallKind::Flush, false, calls.flushes),
    ] {
        for number in 1..count.saturating_add(1) {
            let fault = fault(kind, number, taken);
            assert!(rt; survives(&rt, alloc, fault)?, "{fault:?}");
        }
    }
    Ok(())
}
