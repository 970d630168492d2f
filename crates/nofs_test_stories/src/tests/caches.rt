//! Days of large files over a cache that keeps writes back, which are stopped.

use crate::tests::reads::{KEPT, kept_line, reading, see};
use crate::tests::stories::{SessionLine, Story, day_calls, stopped};
use nofs_disk::Disk;
use nofs_test_disks::{drawn_picks, left};
use nofs_test_sessions::{ReadTally, count, scanned_and_read};
use std::alloc::Global;
use std::sync::Wait;
use std::test::Fail;
use std::thread::Threads;

const LARGE: Story = Story {
    blocks: 320,
    is_upgraded: true,
    evening: &LARGE_EVENING,
    day: &LARGE_DAY,
    files: &LARGE_FILES,
};

// A file has 72 blocks before it needs a top, and 64 more below each child.
const LARGE_EVENING: [SessionLine; 4] = [
    ("make /kept", 1),
    ("put /kept 0 10", KEPT),
    ("make /a", 1),
    ("put /a 70000 11", 9_000),
];

const LARGE_DAY: [SessionLine; 14] = [
    ("put /a 0 11", 60_000),
    ("put /a 137000 11", 9_000),
    ("fsync /a", 1),
    ("size /a 73728", 1),
    ("make /b", 1),
    ("put /b 72000 12", 20_000),
    ("put /b 4260000 12", 8_000),
    ("drop /a", 1),
    ("fsync /b", 1),
    ("make /c", 1),
    ("put /c 73728 13", 60_000),
    ("size /b 139264", 1),
    ("size /b 4268032", 1),
    ("put /b 139264 12", 5_000),
];

const LARGE_FILES: [(&str, u8); 4] = [("/kept", 16), ("/a", 17), ("/b", 18), ("/c", 19)];

// Whether an image can be scanned and read, and has the file that was durable.
fn is_served<R: Threads + Wait + Sync, D: Disk + Drop + Send>(
    rt: &R,
    alloc: Global,
    story: Story,
    seen: &mut ReadTally,
    image: D,
) -> Result<bool, Fail> {
    let (ended, sink) = scanned_and_read(rt, alloc, &reading(alloc, story)?, image)?;
    see(alloc, story, seen, sink.bytes())?;
    count(&mut seen.images);
    Ok(ended && sink.bytes().starts_with(&kept_line(alloc)?))
}

// Whether every part that was read of so many images is of its file, and some were lost.
fn are_own(seen: ReadTally, images: u64) -> bool {
    seen.images >= images && seen.foreign == 0 && seen.bytes > 0 && seen.lost > 0
}

/// How often the day of large files is stopped, and how many images are drawn of each.
const STOPS: (u64, u64) = (8, 20);

// Whether each image that is drawn of days that were stopped is served, and what was read of them.
fn served_stops<R: Threads + Wait + Sync>(
    rt: &R,
    alloc: Global,
    story: Story,
    start: u64,
) -> Result<(bool, ReadTally), Fail> {
    let calls = day_calls(rt, alloc, story)?;
    let (mut state, mut seen, mut served) = (start, ReadTally::NOTHING, true);
    for _ in 0..STOPS.0 {
        let (status, disk) = stopped(rt, alloc, story, &mut state, calls)?;
        served = served && status == 3;
        for _ in 0..STOPS.1 {
            let picks = drawn_picks(alloc, &disk, &mut state)?;
            match left(alloc, &disk, &picks)? {
                Some(image) => served = is_served(rt, alloc, story, &mut seen, image)? && served,
                None => served = false,
            }
        }
    }
    Ok((served, seen))
}

#[test]
fn a_day_of_large_files_survives_its_crashes(rt: HostRuntime) -> Result<(), Fail> {
    let (served, seen) = served_stops(&rt, rt.alloc(), LARGE, 9)?;
    assert!(rt; served && are_own(seen, STOPS.0 * STOPS.1));
    Ok(())
}
