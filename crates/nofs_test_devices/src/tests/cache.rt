//! What a cached disk keeps back, what a crash drops, what becomes of calls that fail below, and what is gathered.
use crate::tests::disks::{failing, follow};
use nofs_cache::{Cached, Gathered};
use nofs_disk::Disk;
use nofs_memdisk::MemDisk;
use nofs_versions::CallCounts;
use std::alloc::{AllocError, Global};
use std::process::Abort;
use std::test::Fail;

/// A cache over a disk, where there is memory.
fn cached<D: Disk + Drop>(alloc: Global, below: D) -> Result<Cached<D>, AllocError> {
    match Cached::new(alloc, below) {
        Ok(disk) => Ok(disk),
        Err(_) => Err(AllocError),
    }
}

/// Follows a script on a cache over a disk of four blocks of which calls fail, and then one on that disk: which calls
/// reached it by the first.
fn calls_below(alloc: Global, calls: &str, script: &str, below: &str) -> Result<CallCounts, Fail> {
    let mut disk = cached(alloc, failing(alloc, 4, calls)?)?;
    follow(&mut disk, script)?;
    let mut under = disk.below();
    let counts = under.calls();
    follow(&mut under, below)?;
    Ok(counts)
}

/// So many reads, writes and flushes.
fn counts(reads: u64, writes: u64, flushes: u64) -> CallCounts {
    CallCounts {
        reads,
        writes,
        flushes,
    }
}

#[test]
fn a_write_is_kept_back_until_it_is_written_out(rt: HostRuntime) -> Result<(), Fail> {
    let mut disk = cached(rt.alloc(), MemDisk::new(rt.alloc(), 4)?)?;
    follow(&mut disk, "out 3=6 3=7 3?7 2?0 out3 out")?;
    assert_eq!(rt; (disk.blocks(), disk.moment()), (4, 4));
    follow(&mut disk, "3?7")?;
    assert!(rt; disk.ready(u64::MAX).is_err());
    assert_eq!(rt; disk.below().calls(), counts(2, 1, 0));
    Ok(())
}

/// A call that fails below, a script, what the disk below answers then, and its writes and flushes by the script.
type KeptBack = (&'static str, &'static str, &'static str, u64, u64);

// Scripts of more than one case: two write three or four blocks, and one goes on after a flush that failed.
const THREE: &str = "0=5 2=6 3=7 flush! flush";

const FOUR: &str = "2=12 0=10 3=9 1=11 3=13 flush!";

const LEFT: &str = "3=7 0=5 2=6 flush! 3=9 0=4 1=8 out1 flush";

const KEPT_BACK: [KeptBack; 8] = [
    ("", "1=5 flush 1=6 2=8 1?6 2?8", "1?5 2?0", 1, 1),
    ("flush 1", THREE, "0?5 1?0 2?6 3?7", 3, 2),
    ("write 1", FOUR, "0?0 1?0 2?0 3?0", 1, 0),
    ("write 2", FOUR, "0?10 1?0 2?0 3?0", 2, 0),
    ("write 3", FOUR, "0?10 1?11 2?0 3?0", 3, 0),
    ("write 4", FOUR, "0?10 1?11 2?12 3?0", 4, 0),
    ("write 2", LEFT, "0?4 1?8 2?6 3?9", 6, 1),
    ("write 1", "2=7 out! 2?7 out2 out", "2?7", 2, 0),
];

// The writes of which each may fail, and is made again.
const AGAIN: [&str; 6] = [
    "write 1",
    "write 1 taken",
    "write 2",
    "write 2 taken",
    "write 3",
    "write 3 taken",
];

fn check_kept_back(rt: &impl Abort, alloc: Global, cases: &[KeptBack]) -> Result<(), Fail> {
    for (call, script, below, writes, flushes) in cases {
        let calls = calls_below(alloc, call, script, below)?;
        assert_eq!(rt; calls, counts(0, *writes, *flushes), "{call}: {script}");
    }
    Ok(())
}

// What a crash would leave, and what a call that fails below leaves to do: a flush writes the dirty blocks in rising
// order, tells of the failure, and is made again with those that are left, whichever write it was.
#[test]
fn what_was_kept_back_reaches_the_disk_below_in_order(rt: HostRuntime) -> Result<(), Fail> {
    check_kept_back(&rt, rt.alloc(), &KEPT_BACK)?;
    for call in AGAIN {
        let case = (call, THREE, "0?5 1?0 2?6 3?7", 4, 1);
        check_kept_back(&rt, rt.alloc(), &[case])?;
    }
    Ok(())
}

#[test]
fn a_cache_over_a_cache_writes_out_one_layer_at_a_time(rt: HostRuntime) -> Result<(), Fail> {
    let inner = cached(rt.alloc(), MemDisk::new(rt.alloc(), 4)?)?;
    let mut outer = cached(rt.alloc(), inner)?;
    follow(&mut outer, "3=7 out3")?;
    let mut inner = outer.below();
    follow(&mut inner, "3?7 out3")?;
    follow(&mut inner.below(), "3?7")
}

/// Follows a script on a disk that gathers over a cache over a disk of four blocks of which calls fail: which calls
/// reached that one.
fn calls_gathered(alloc: Global, calls: &str, script: &str) -> Result<CallCounts, Fail> {
    let mut disk = Gathered::new(cached(alloc, failing(alloc, 4, calls)?)?);
    follow(&mut disk, script)?;
    Ok(disk.below().below().calls())
}

#[test]
fn nothing_is_written_out_once_a_flush_has_succeeded(rt: HostRuntime) -> Result<(), Fail> {
    let script = "out 3=6 out3 out 2=5 flush 3=7 1=8 out 3?7 out flush out 2=9";
    assert_eq!(rt; calls_gathered(rt.alloc(), "", script)?, counts(0, 4, 2));
    let script = "3=6 2=5 flush! 1=4 out1 flush 1=5 out";
    assert_eq!(rt;
        calls_gathered(rt.alloc(), "flush 1", script)?,
        counts(0, 3, 2)
    );
    Ok(())
}
