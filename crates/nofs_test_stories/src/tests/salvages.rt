//! Salvages of what a crash in a day leaves: what they print is what a slow walk over the cells tells.

use crate::tests::stories::{SessionLine, Story, day_calls, stopped};
use crate::tests::walks::told_of;
use nofs_memdisk::MemDisk;
use nofs_test_disks::{cells_of, drawn_picks, left};
use nofs_test_sessions::run_on;
use std::alloc::{AllocError, Global};
use std::sync::Wait;
use std::test::Fail;
use std::thread::Threads;

/// What a salvage of a disk ended with and printed, and what the slow walk tells of its cells.
#[derive(Drop)]
struct Salvaged {
    status: u8,
    printed: Vec<u8>,
    told: Vec<u8>,
}

// No disk here has more blocks.
const BLOCKS: u64 = 256;

fn salvage_disk<R: Threads + Wait + Sync>(
    rt: &R,
    alloc: Global,
    disk: MemDisk,
) -> Result<Salvaged, AllocError> {
    let mut disk = disk;
    let cells = cells_of(alloc, &mut disk, BLOCKS)?;
    let told = told_of(alloc, &cells, b"".as_slice())?;
    let (status, sink, _) = run_on(rt, alloc, "salvage", b"".as_slice(), disk)?;
    let printed = sink.bytes().to_vec(alloc)?;
    Ok(Salvaged {
        status,
        printed,
        told,
    })
}

const ORDINARY: Story = Story {
    blocks: 256,
    is_upgraded: false,
    evening: &EVENING,
    day: &DAY,
    files: &[],
};

const EVENING: [SessionLine; 18] = [
    ("mkdir /a", 1),
    ("mkdir /b", 1),
    ("mkdir /a/c", 1),
    ("make /one", 1),
    ("put /one 0 11", 2_500),
    ("make /a/two", 1),
    ("put /a/two 0 12", 1_000),
    ("make /a/three", 1),
    ("put /a/three 0 13", 2_000),
    ("make /b/four", 1),
    ("put /b/four 0 14", 3_000),
    ("make /b/five", 1),
    ("put /b/five 0 15", 500),
    ("make /a/c/six", 1),
    ("put /a/c/six 0 16", 1_500),
    ("make /a/c/seven", 1),
    ("put /a/c/seven 0 17", 3_000),
    ("put @ 0 18", 2_000),
];

// Names are given again, and so are inodes and blocks.
const DAY: [SessionLine; 40] = [
    ("make /b/eight", 1),
    ("put /b/eight 0 19", 2_048),
    ("rename /one uno", 1),
    ("link /a/two /b/deux", 1),
    ("drop /b/four", 1),
    ("make /b/four", 1),
    ("put /b/four 0 1a", 700),
    ("put @ 1024 18", 1_500),
    ("fsync /b/four", 1),
    ("drop /a/three", 1),
    ("make /a/three", 1),
    ("put /a/three 0 1b", 2_500),
    ("rename /a/two zwei", 1),
    ("mkdir /b/d", 1),
    ("make /b/d/nine", 1),
    ("put /b/d/nine 0 1c", 1_100),
    ("drop /a/c/six", 1),
    ("make /a/c/six", 1),
    ("put /a/c/six 0 1d", 3_000),
    ("link /a/c/seven /b/d/sept", 1),
    ("fsync @", 1),
    ("drop /b/deux", 1),
    ("drop /uno", 1),
    ("make /one", 1),
    ("put /one 0 1e", 2_000),
    ("drop /b/d/nine", 1),
    ("rename /b/d/sept nine", 1),
    ("put /b/eight 1024 19", 2_000),
    ("size /b/five 3000", 1),
    ("put /b/five 2000 15", 1_000),
    ("make /b/d/ten", 1),
    ("put /b/d/ten 0 1f", 1_500),
    ("fsync /one", 1),
    ("move /a/zwei /b/d/two", 1),
    ("drop /b/five", 1),
    ("make /b/five", 1),
    ("put /b/five 0 20", 900),
    ("size @ 900", 1),
    ("put @ 500 21", 2_000),
    ("rename /b/eight five8", 1),
];

// A disk that a crash in a day may leave; `None` where its cells can't be picked.
fn crashed<R: Threads + Wait + Sync>(
    rt: &R,
    alloc: Global,
    state: &mut u64,
    calls: (u64, u64),
) -> Result<Option<MemDisk>, Fail> {
    let (_, disk) = stopped(rt, alloc, ORDINARY, state, calls)?;
    let picks = drawn_picks(alloc, &disk, state)?;
    Ok(left(alloc, &disk, &picks)?)
}

// Whether some line of a text begins so.
fn has_line(text: &[u8], words: &[u8]) -> bool {
    text.split(|byte| *byte == b'\n')
        .any(|line| line.starts_with(words))
}

#[test]
fn a_salvage_of_a_crashed_day_tells_what_a_slow_walk_finds(rt: HostRuntime) -> Result<(), Fail> {
    let alloc = rt.alloc();
    let calls = day_calls(&rt, alloc, ORDINARY)?;
    let (mut state, mut lost, mut dead) = (10, false, false);
    for _ in 0..48 {
        let Some(disk) = crashed(&rt, alloc, &mut state, calls)? else {
            panic!(rt; "no such image")
        };
        let done = salvage_disk(&rt, alloc, disk)?;
        assert_eq!(rt; done.printed.as_slice(), done.told.as_slice());
        assert_eq!(rt; done.status, 0);
        lost = lost || has_line(&done.told, b"lost ".as_slice());
        dead = dead || has_line(&done.told, b"dead ".as_slice());
    }
    assert!(rt; lost && dead);
    Ok(())
}
