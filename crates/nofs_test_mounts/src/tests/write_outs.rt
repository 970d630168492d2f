//! Write-outs of a mount over a cache: as many as its step left dirty.
use crate::tests::mounts::{Verdict, committed, two_passes};
use nofs_cache::Cached;
use nofs_disk::OutFault;
use nofs_history::{ElementKind, FLUSHER, Steps};
use nofs_memdisk::{MemDisk, Unready};
use nofs_shared::{Serves, SharedPass};
use nofs_test_asks::{Ask, Cases, LABEL, follow, follow_as, mounted};
use nofs_test_disks::{cached, formatted};
use nofs_workers::WritesOut;
use std::alloc::Global;
use std::sync::Wait;
use std::test::Fail;

// A cache over a new disk of 16 blocks, whose block 1 holds the inodes.
fn cache(alloc: Global) -> Result<Cached<MemDisk>, Fail> {
    Ok(cached(alloc, formatted(alloc, 16, 4)?)?)
}

/// The answer of a write-out.
type Out = Result<Option<u64>, OutFault>;

/// A put of a whole slot of the label file.
const PUT: (Ask, &str) = (Ask::Put(LABEL, 0, 1024, b'A'), "stored");

const PUTS: Cases = &[PUT];

/// A put, for which block 15 is examined.
const PUT_IN_15: Cases = &[(Ask::SeeBlock(15), "free"), PUT];

const SEES_BLOCK_13: Cases = &[(Ask::SeeBlock(13), "free")];

// Those of a mount over a cache: one before a put, for which block 15 is examined, and three after it. How many
// entries there are, and how many writes came to the disk below.
fn outs_of_a_mount(alloc: Global) -> Result<([Out; 4], u64, u64), Fail> {
    let mut mount = mounted(alloc, cache(alloc)?)?;
    let before = mount.write_out();
    follow(alloc, &mut mount, PUT_IN_15)?;
    let outs = [
        before,
        mount.write_out(),
        mount.write_out(),
        mount.write_out(),
    ];
    let (disk, history) = mount.end();
    Ok((outs, history.len(), disk.below().calls().writes))
}

#[test]
fn a_mount_over_a_cache_writes_out_what_a_put_left_dirty(rt: HostRuntime) -> Result<(), Fail> {
    let outs = [Ok(None), Ok(Some(1)), Ok(Some(15)), Ok(None)];
    assert_eq!(rt; outs_of_a_mount(rt.alloc())?, (outs, 2, 19));
    Ok(())
}

// Those of a pass, where another one has examined block 15 and put: how many entries the first knows of.
fn outs_of_a_pass<R: Wait, V: Serves>(
    rt: &R,
    alloc: Global,
    mount: V,
) -> Result<([Out; 3], u64), Fail> {
    let (shared, first, second) = two_passes(alloc, mount).ok_or("no passes")?;
    let mut user = shared.pass(rt, alloc, 1, first);
    follow_as(alloc, &mut user, PUT_IN_15)?;
    let mut flusher = shared.pass(rt, alloc, FLUSHER, second);
    let outs = [
        flusher.write_out(),
        flusher.write_out(),
        flusher.write_out(),
    ];
    Ok((outs, flusher.progress()))
}

#[test]
fn a_pass_of_a_mount_over_a_cache_writes_out_too(rt: HostRuntime) -> Result<(), Fail> {
    let alloc = rt.alloc();
    let told = outs_of_a_pass(&rt, alloc, mounted(alloc, cache(alloc)?)?)?;
    assert_eq!(rt; told, ([Ok(Some(1)), Ok(Some(15)), Ok(None)], 2));
    Ok(())
}

// Writes out until nothing is left: how many blocks.
fn write_all_out<W: WritesOut>(flusher: &mut W) -> u64 {
    for blocks in 0..10 {
        match flusher.write_out() {
            Ok(Some(_)) => {}
            _ => return blocks,
        }
    }
    10
}

// Two puts of a user, for which block 15 is examined: how many write-outs follow each.
fn outs_of_puts<S: Steps, W: WritesOut>(
    alloc: Global,
    user: &mut S,
    flusher: &mut W,
) -> Result<[u64; 2], Fail> {
    follow_as(alloc, user, PUT_IN_15)?;
    let first = write_all_out(flusher);
    follow_as(alloc, user, PUTS)?;
    Ok([first, write_all_out(flusher)])
}

// The verdict on block 14, which is looked at and committed.
fn verdict_of_14<R: Wait, V: Serves>(user: &mut SharedPass<'_, R, V>) -> Verdict {
    match user.look_batch(ElementKind::Block, &[14]) {
        Ok(evidence) => committed(user, &evidence, 0),
        Err(_) => None,
    }
}

// Three write-outs behind those: one, one after a commit, and one after a step. What was committed.
fn later_outs<R: Wait, V: Serves, W: WritesOut>(
    alloc: Global,
    user: &mut SharedPass<'_, R, V>,
    flusher: &mut W,
) -> Result<([Out; 3], Verdict), Fail> {
    let idle = flusher.write_out();
    let verdict = verdict_of_14(user);
    let committed = flusher.write_out();
    follow_as(alloc, user, SEES_BLOCK_13)?;
    Ok(([idle, committed, flusher.write_out()], verdict))
}

fn outs_of_both<R: Wait, V: Serves>(
    rt: &R,
    alloc: Global,
    mount: V,
) -> Result<([u64; 2], [Out; 3], Verdict), Fail> {
    let (shared, first, second) = two_passes(alloc, mount).ok_or("no passes")?;
    let mut user = shared.pass(rt, alloc, 1, first);
    let mut flusher = shared.pass(rt, alloc, FLUSHER, second);
    let puts = outs_of_puts(alloc, &mut user, &mut flusher)?;
    let (outs, verdict) = later_outs(alloc, &mut user, &mut flusher)?;
    Ok((puts, outs, verdict))
}

// The mount finds memory to begin, for two puts and for six write-outs. So a later write-out that says
// `None` did not ask it.
#[test]
fn a_write_out_asks_the_mount_only_after_a_step(rt: HostRuntime) -> Result<(), Fail> {
    let alloc = rt.alloc();
    let disk = Unready {
        under: cache(alloc)?,
        rooms: 9,
    };
    let told = outs_of_both(&rt, alloc, mounted(alloc, disk)?)?;
    let outs = [Ok(None), Ok(None), Err(OutFault::OutOfMemory)];
    assert_eq!(rt; told, ([2, 2], outs, Some((false, false))));
    Ok(())
}
