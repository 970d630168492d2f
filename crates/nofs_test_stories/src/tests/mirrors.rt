//! Images that a crash in an ordinary day may leave of the two files of a mirror, both in pages.
//!
//! A device leaves the pages of each file whole, and of the two files one may be some calls behind the other. Then the
//! mirror is opened again, which copies the lead onto the other, and is clean as one file is (`crashes`).

use crate::tests::crashes::{
    Found, LEAST_IMAGES, PAGES, SMALL, STARTS, are_full, evening_bytes, is_recorded, judge,
    served_day,
};
use crate::tests::recorder::Recorder;
use nofs_disk::Disk;
use nofs_filedisk::{FileDisk, MemFile};
use nofs_mirror::Mirror;
use nofs_pages::{Layout, Paged, Single, single_pages};
use nofs_test_disks::draw;
use nofs_test_layouts::laid_bytes;
use nofs_test_sessions::count;
use std::alloc::{AllocError, Global};
use std::sync::Wait;
use std::test::Fail;
use std::thread::Threads;

/// At most so many bytes are moved by a call.
const PIECE: usize = 1_048_576;

/// The disk in a file in pages.
type PagedDisk<B> = FileDisk<Paged<Single<B>>>;

// The disk in a file in pages that has these bytes.
fn found_pages(alloc: Global, bytes: &[u8]) -> Result<PagedDisk<MemFile>, AllocError> {
    let file = MemFile::new(alloc, bytes, PIECE, &[])?;
    FileDisk::over(alloc, single_pages(alloc, file, false)?)
}

// The same, in a file that keeps its calls.
fn recorded_pages(alloc: Global, bytes: &[u8]) -> Result<PagedDisk<Recorder>, AllocError> {
    let file = Recorder::new(alloc, bytes, PAGES.unit)?;
    FileDisk::over(alloc, single_pages(alloc, file, false)?)
}

fn recorder_of(disk: PagedDisk<Recorder>) -> Recorder {
    disk.file().into_store().into_file()
}

fn mirrored<A: Disk + Drop, B: Disk + Drop>(lead: A, other: B) -> Result<Mirror<A, B>, Fail> {
    match Mirror::open(lead, other, SMALL.blocks) {
        Ok(mirror) => Ok(mirror),
        Err(_) => Err("no mirror".into()),
    }
}

// A day on a mirror of two disks: the status, and both of them.
fn served_on_both<R: Threads + Wait + Sync, A: Disk + Drop + Send, B: Disk + Drop + Send>(
    rt: &R,
    alloc: Global,
    lead: A,
    other: B,
) -> Result<(u8, A, B), Fail> {
    let (status, mirror) = served_day(rt, alloc, mirrored(lead, other)?)?;
    let (lead, other) = mirror.apart();
    Ok((status, lead, other))
}

/// What was kept of a day on a mirror.
#[derive(Drop)]
struct MirroredDay {
    status: u8,
    lead: Recorder,
    other: Recorder,
}

// Serves a day on a mirror of two files.
fn mirrored_day<R: Threads + Wait + Sync>(rt: &R, alloc: Global) -> Result<MirroredDay, Fail> {
    let bytes = laid_bytes(alloc, Layout::Paged, &evening_bytes(rt, alloc)?)?;
    let lead = recorded_pages(alloc, &bytes)?;
    let other = recorded_pages(alloc, &bytes)?;
    let (status, lead, other) = served_on_both(rt, alloc, lead, other)?;
    Ok(MirroredDay {
        status,
        lead: recorder_of(lead),
        other: recorder_of(other),
    })
}

// Whether a day ended well, both files kept it, and the other one the same calls as the lead.
fn is_kept(day: &MirroredDay) -> Result<bool, AllocError> {
    let is_copied = day.status == 0 && day.other.ends_like(&day.lead);
    let is_led = is_recorded(PAGES, &day.lead)?;
    let is_followed = is_recorded(PAGES, &day.other)?;
    Ok(is_copied && is_led && is_followed)
}

/// How many calls of a file a call of the mirror makes at most. A flush writes what a run has no place beside, makes a
/// page durable that is written again, writes the last row, and syncs.
const MOST_CALLS: u64 = 4;

/// How many calls of a file have ended, and how many have begun.
#[derive(Clone, Copy)]
struct CallsSoFar {
    ended: usize,
    begun: usize,
}

// So many calls, of which all have ended.
fn ended(calls: usize) -> CallsSoFar {
    CallsSoFar {
        ended: calls,
        begun: calls,
    }
}

// A call that has begun, behind so many that have ended.
fn during(calls: usize) -> CallsSoFar {
    CallsSoFar {
        ended: calls,
        begun: calls.saturating_add(1),
    }
}

// The calls of the lead and of the other at a moment. As a mirror is opened, the other alone makes its first calls.
// Then a call of the mirror makes some calls of the lead, and after them the same of the other: while the one makes a
// call the other one is some calls behind, or ahead.
fn calls_at(moment: usize, first: usize, between: usize) -> (CallsSoFar, CallsSoFar) {
    if moment < first {
        return (ended(0), during(moment));
    }
    let at = moment.saturating_sub(first);
    let call = at / 2;
    if at % 2 == 0 {
        let copied = first.saturating_add(call.saturating_sub(between));
        (during(call), ended(copied))
    } else {
        let next = call.saturating_add(1);
        (
            ended(next.saturating_add(between)),
            during(first.saturating_add(call)),
        )
    }
}

// The bytes of the two files after a crash at a moment of a day, drawn by chance.
fn images_at(
    day: &MirroredDay,
    moment: usize,
    state: &mut u64,
) -> Result<(Vec<u8>, Vec<u8>), AllocError> {
    let first = day.other.calls().saturating_sub(day.lead.calls());
    let between = draw(state, MOST_CALLS) as usize;
    let (of_lead, of_other) = calls_at(moment, first, between);
    let lead = day.lead.image(of_lead.ended, of_lead.begun, state)?;
    let other = day.other.image(of_other.ended, of_other.begun, state)?;
    Ok((lead, other))
}

// Looks at a mirror of two disks.
fn judge_mirror<R: Threads + Wait + Sync, A: Disk + Drop + Send, B: Disk + Drop + Send>(
    rt: &R,
    alloc: Global,
    found: &mut Found,
    lead: A,
    other: B,
) -> Result<(), Fail> {
    judge(rt, alloc, found, mirrored(lead, other)?)
}

// Looks at a mirror of two files with these bytes.
fn judge_files<R: Threads + Wait + Sync>(
    rt: &R,
    alloc: Global,
    found: &mut Found,
    lead: &[u8],
    other: &[u8],
) -> Result<(), Fail> {
    let lead = found_pages(alloc, lead)?;
    let other = found_pages(alloc, other)?;
    judge_mirror(rt, alloc, found, lead, other)
}

// Looks at a mirror after a crash at a moment of a day.
fn judge_moment<R: Threads + Wait + Sync>(
    rt: &R,
    alloc: Global,
    found: &mut Found,
    day: &MirroredDay,
    moment: usize,
    state: &mut u64,
) -> Result<(), Fail> {
    let (lead, other) = images_at(day, moment, state)?;
    judge_files(rt, alloc, found, &lead, &other)
}

// Serves a day on a mirror, and looks at what a crash may leave of it. The moments take turns, so that each has one
// image or more.
fn judge_day<R: Threads + Wait + Sync>(
    rt: &R,
    alloc: Global,
    found: &mut Found,
    start: u64,
) -> Result<(), Fail> {
    let day = mirrored_day(rt, alloc)?;
    if !is_kept(&day)? {
        count(&mut found.wrong);
    }
    let moments = day.lead.calls().saturating_add(day.other.calls());
    let mut state = start;
    for number in 0..LEAST_IMAGES.max(moments) {
        let moment = number.checked_rem(moments).unwrap_or(0);
        judge_moment(rt, alloc, found, &day, moment, &mut state)?;
    }
    Ok(())
}

// What is found in two thousand images or more.
fn found_in_days<R: Threads + Wait + Sync>(rt: &R, alloc: Global) -> Result<Found, Fail> {
    let mut found = Found::NOTHING;
    for start in 1..STARTS.saturating_add(1) {
        judge_day(rt, alloc, &mut found, start)?;
    }
    Ok(found)
}

#[test]
fn a_mirrored_day_in_pages_survives(rt: HostRuntime) -> Result<(), Fail> {
    let found = found_in_days(&rt, rt.alloc())?;
    assert_eq!(rt; found.wrong, 0);
    assert_eq!(rt; found.seen.foreign, 0);
    assert!(rt; are_full(PAGES, found));
    Ok(())
}
