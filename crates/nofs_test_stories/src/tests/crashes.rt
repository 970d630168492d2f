//! Images that a crash in an ordinary day may leave of the file of an image, in each layout.
//!
//! Where the device leaves together what the layout asks for, each image is clean: it can be mounted, a scan counts
//! what the slow functions do, what was durable is there, and no part has a byte of another file. Twin pages ask for
//! nothing: there a place that was being written may have any mixture of old and new bytes. Where the device leaves
//! less than pages ask for, one may be torn: then a fault is named, and what is read is of its file all the same.

use crate::tests::reads::{KEPT, kept_line, reading, see};
use crate::tests::recorder::Recorder;
use crate::tests::stories::{SessionLine, Story, evening, text_of_lines};
use nofs_disk::Disk;
use nofs_filedisk::FileDisk;
use nofs_io::{MemSink, MemSource};
use nofs_pages::Layout;
use nofs_test_disks::{bytes_of, cached, cells_of, used};
use nofs_test_layouts::{LaidFile, found_disk, laid, laid_bytes, unlaid};
use nofs_test_sessions::{ReadTally, count, run_on, run_with};
use std::alloc::{AllocError, Global};
use std::process::Abort;
use std::sync::Wait;
use std::test::Fail;
use std::thread::Threads;

/// A story over a small image.
pub const SMALL: Story = Story {
    blocks: 96,
    is_upgraded: false,
    evening: &EVENING,
    day: &DAY,
    files: &FILES,
};

const EVENING: [SessionLine; 10] = [
    ("make /kept", 1),
    ("put /kept 0 10", KEPT),
    ("mkdir /d", 1),
    ("make /a", 1),
    ("put /a 0 11", 9_000),
    ("make /d/b", 1),
    ("put /d/b 0 12", 12_000),
    ("make /c", 1),
    ("put /c 0 13", 5_000),
    ("put @ 0 1a", 2_000),
];

const DAY: [SessionLine; 24] = [
    ("put /a 4096 11", 7_000),
    ("make /f", 1),
    ("put /f 0 14", 14_000),
    ("rename /c e", 1),
    ("link /a /d/l", 1),
    ("drop /d/b", 1),
    ("fsync /f", 1),
    ("make /d/g", 1),
    ("put /d/g 0 15", 13_000),
    ("size /a 2000", 1),
    ("drop /a", 1),
    ("put /e 5000 13", 3_000),
    ("size /f 20000", 1),
    ("put /f 19456 14", 500),
    ("fsync /f", 1),
    ("drop /d/l", 1),
    ("make /h", 1),
    ("put /h 0 16", 16_000),
    ("move /d/g /m", 1),
    ("put @ 1000 1a", 9_000),
    ("drop /f", 1),
    ("make /d/i", 1),
    ("put /d/i 0 17", 20_000),
    ("put /e 0 13", 8_000),
];

const FILES: [(&str, u8); 12] = [
    ("/kept", 16),
    ("/a", 17),
    ("/d/b", 18),
    ("/c", 19),
    ("@", 26),
    ("/f", 20),
    ("/e", 19),
    ("/d/l", 17),
    ("/d/g", 21),
    ("/m", 21),
    ("/h", 22),
    ("/d/i", 23),
];

/// A layout, and how many bytes at a multiple of so many the device leaves together.
#[derive(Clone, Copy)]
pub struct Trial {
    pub layout: Layout,
    pub unit: usize,
    /// Whether a crash may tear what the layout keeps together.
    pub tears: bool,
}

const CELLS: Trial = Trial {
    layout: Layout::Packed,
    unit: 1_056,
    tears: false,
};

/// Pages are left whole.
pub const PAGES: Trial = Trial {
    layout: Layout::Paged,
    unit: 4_096,
    tears: false,
};

const TORN_PAGES: Trial = Trial {
    layout: Layout::Paged,
    unit: 512,
    tears: true,
};

const TORN_TWINS: Trial = Trial {
    layout: Layout::Twin,
    unit: 512,
    tears: false,
};

const MIXED_TWINS: Trial = Trial {
    layout: Layout::Twin,
    unit: 1,
    tears: false,
};

/// What is found in images.
#[derive(Clone, Copy)]
pub struct Found {
    pub seen: ReadTally,
    /// How many were clean, and of how many a fault was named.
    pub clean: u64,
    pub faulty: u64,
    /// How many were neither, and how many days were not recorded as they are to be.
    pub wrong: u64,
}

impl Found {
    /// What is found in no image.
    pub const NOTHING: Found = Found {
        seen: ReadTally::NOTHING,
        clean: 0,
        faulty: 0,
        wrong: 0,
    };
}

// The line of a scan that counts so many inodes and blocks as used.
fn counts_text(alloc: Global, inodes: u64, blocks: u64) -> Result<String, AllocError> {
    let mut text = String::new(alloc);
    for (words, number) in [
        ("inodes used", inodes),
        (" free", 16_u64.saturating_sub(inodes)),
        (" unchecked 0, blocks used", blocks),
        (" free", SMALL.blocks.saturating_sub(blocks)),
    ] {
        let piece = format!(in alloc; "{words} {number}")?;
        text.push_str(piece.as_str())?;
    }
    text.push_str(" unchecked 0\n")?;
    Ok(text)
}

// The line of a scan of an image as the slow functions count it; an empty text where they can't.
fn counted<D: Disk>(alloc: Global, image: &mut D) -> Result<String, AllocError> {
    let cells = cells_of(alloc, image, SMALL.blocks)?;
    match used(alloc, &cells)? {
        Some((inodes, blocks)) => counts_text(alloc, inodes, blocks),
        None => Ok(String::new(alloc)),
    }
}

// Whether a run ended well, or names a fault of the device: where a sweep met it, no line does.
fn is_told(status: u8) -> bool {
    status == 0 || status == 3
}

// Reads all files of an image: the status and the lines.
fn read_all<R: Threads + Wait + Sync, D: Disk + Drop + Send>(
    rt: &R,
    alloc: Global,
    image: D,
) -> Result<(u8, MemSink), Fail> {
    let mut source = MemSource::new(alloc, &reading(alloc, SMALL)?, 65_536, &[])?;
    let mut sink = MemSink::new(alloc, 2_000_000, &[])?;
    let (status, _) = run_with(rt, alloc, "run", &mut source, &mut sink, image)?;
    Ok((status, sink))
}

/// Looks at an image.
pub fn judge<R: Threads + Wait + Sync, D: Disk + Drop + Send>(
    rt: &R,
    alloc: Global,
    found: &mut Found,
    image: D,
) -> Result<(), Fail> {
    let mut image = image;
    let counts = counted(alloc, &mut image)?;
    let (scanned, line, image) = run_on(rt, alloc, "scan", b"".as_slice(), image)?;
    let (read, lines) = read_all(rt, alloc, image)?;
    see(alloc, SMALL, &mut found.seen, lines.bytes())?;
    count(&mut found.seen.images);
    let is_well = scanned == 0 && read == 0;
    if is_well
        && line.bytes() == counts.as_bytes()
        && lines.bytes().starts_with(&kept_line(alloc)?)
    {
        count(&mut found.clean);
    } else if !is_well && is_told(scanned) && is_told(read) {
        count(&mut found.faulty);
    } else {
        count(&mut found.wrong);
    }
    Ok(())
}

/// The bytes of the cells of an evening.
pub fn evening_bytes<R: Threads + Wait + Sync>(rt: &R, alloc: Global) -> Result<Vec<u8>, Fail> {
    let mut disk = evening(rt, alloc, SMALL)?;
    let cells = cells_of(alloc, &mut disk, SMALL.blocks)?;
    Ok(bytes_of(alloc, &cells)?)
}

// A disk with these cells, in a file that keeps its calls.
fn recorded(
    alloc: Global,
    trial: Trial,
    cells: &[u8],
) -> Result<FileDisk<LaidFile<Recorder>>, Fail> {
    let bytes = laid_bytes(alloc, trial.layout, cells)?;
    let file = Recorder::new(alloc, &bytes, trial.unit)?;
    Ok(FileDisk::over(alloc, laid(alloc, trial.layout, file, false)?)?)
}

/// A day on a disk behind a cache: the status, and the disk.
pub fn served_day<R: Threads + Wait + Sync, D: Disk + Drop + Send>(
    rt: &R,
    alloc: Global,
    disk: D,
) -> Result<(u8, D), Fail> {
    let text = text_of_lines(alloc, SMALL.day)?;
    let (status, _, disk) = run_on(rt, alloc, "run", &text, cached(alloc, disk)?)?;
    Ok((status, disk.below()))
}

/// How many bytes of cells the day writes at least. At its end stand 67 slots that it wrote: of `/d/i` 20, of
/// `/h` 16, of `/m` 13, of `@` 10 and of `/e` 8.
const LEAST_BYTES: usize = 67 * 1_056;

/// How many calls it has at least. It syncs at its mount, at each `fsync` and at its end, and writes
/// before each of these.
const LEAST_CALLS: usize = 2 * 4;

/// Whether a file has kept a day.
pub fn is_recorded(trial: Trial, file: &Recorder) -> Result<bool, AllocError> {
    Ok(
        file.tells_all()?
            && file.written() >= LEAST_BYTES
            && file.calls() >= LEAST_CALLS
            && (trial.layout == Layout::Packed || file.writes_once()?),
    )
}

/// How many images are drawn of a day at least.
pub const LEAST_IMAGES: usize = 250;

// Looks at images of crashes in the calls of a file. The calls take turns, so that each has one image or more.
fn judge_images<R: Threads + Wait + Sync>(
    rt: &R,
    alloc: Global,
    found: &mut Found,
    file: &Recorder,
    start: u64,
) -> Result<(), Fail> {
    let mut state = start;
    for number in 0..LEAST_IMAGES.max(file.calls()) {
        let call = number.checked_rem(file.calls()).unwrap_or(0);
        let bytes = file.image(call, call.saturating_add(1), &mut state)?;
        judge(rt, alloc, found, found_disk(alloc, &bytes)?)?;
    }
    Ok(())
}

// Serves a day in a file, and looks at what a crash may leave of it.
fn judge_day<R: Threads + Wait + Sync>(
    rt: &R,
    alloc: Global,
    trial: Trial,
    found: &mut Found,
    start: u64,
) -> Result<(), Fail> {
    let disk = recorded(alloc, trial, &evening_bytes(rt, alloc)?)?;
    let (status, disk) = served_day(rt, alloc, disk)?;
    let file = unlaid(disk.file());
    if status != 0 || !is_recorded(trial, &file)? {
        count(&mut found.wrong);
    }
    judge_images(rt, alloc, found, &file, start)
}

/// Each start serves the day anew, and draws at every call of its file: 2,000 images.
pub const STARTS: u64 = 8;

/// Whether so many images were seen that what was not found might have been, and as many were clean as are to be.
pub fn are_full(trial: Trial, found: Found) -> bool {
    let seen = found.seen;
    seen.images >= 2_000
        && seen.bytes > 0
        && seen.lost > 0
        && found.clean > 0
        && (found.faulty > 0) == trial.tears
        && found.clean.saturating_add(found.faulty) == seen.images
}

// Two thousand images in a trial, none of which is wrong or shows a byte of another file.
fn survives<R: Threads + Wait + Sync + Abort + AllocGlobal>(
    rt: &R,
    trial: Trial,
) -> Result<(), Fail> {
    let mut found = Found::NOTHING;
    for start in 1..STARTS.saturating_add(1) {
        judge_day(rt, rt.alloc(), trial, &mut found, start)?;
    }
    assert_eq!(rt; found.wrong, 0);
    assert_eq!(rt; found.seen.foreign, 0);
    assert!(rt; are_full(trial, found));
    Ok(())
}

#[test]
fn a_day_in_cells_survives_where_cells_are_left_whole(rt: HostRuntime) -> Result<(), Fail> {
    survives(&rt, CELLS)
}

#[test]
fn a_day_in_pages_survives_where_pages_are_left_whole(rt: HostRuntime) -> Result<(), Fail> {
    survives(&rt, PAGES)
}

#[test]
fn a_day_in_pages_names_what_is_torn(rt: HostRuntime) -> Result<(), Fail> {
    survives(&rt, TORN_PAGES)
}

#[test]
fn a_day_in_twin_pages_survives_where_sectors_are_left_whole(rt: HostRuntime) -> Result<(), Fail> {
    survives(&rt, TORN_TWINS)
}

#[test]
fn a_day_in_twin_pages_survives_any_mixture_of_bytes(rt: HostRuntime) -> Result<(), Fail> {
    survives(&rt, MIXED_TWINS)
}
