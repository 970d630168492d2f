//! Verdicts of a pass that are committed after steps of another pass.
ghost use Rattle.std.specs.Prelude.{◌≡◌};

use crate::tests::mounts::{Verdict, committed, full_below_24, two_passes, whole};
use nofs_history::{BLOCK_SWEEPER, Claims, ElementKind, History, Steps};
use nofs_memdisk::MemDisk;
use nofs_shared::{Mount, Serves, SharedPass};
use nofs_test_asks::{Ask, Cases, LABEL, S, examined, follow, follow_as, mounted};
use nofs_test_disks::formatted;
use std::alloc::{AllocError, Global};
use std::sync::Wait;
use std::test::Fail;

/// An element of a disk.
type Element = (ElementKind, u64);

// A verdict on an element that a pass looks at, makes these steps of a user, and then commits.
fn verdict_after<R: Wait, V: Serves, S: Steps>(
    alloc: Global,
    sweeper: &mut SharedPass<'_, R, V>,
    element: Element,
    user: &mut S,
    between: Cases,
) -> Result<Verdict, Fail>
    ensures turn { sweeper.new.turn.now ≡ sweeper.old.turn.now }
    ensures goes { S.goes user.old user.new }
{
    match sweeper.look_batch(element.0, &[1, element.1]) {
        Ok(evidence) => {
            follow_as(alloc, user, between)?;
            Ok(committed(sweeper, &evidence, 1))
        }
        Err(_) => Ok(None),
    }
}

/// The same at a mount, which comes back.
fn late<R: Wait, V: Serves>(
    rt: &R,
    alloc: Global,
    mount: V,
    element: Element,
    between: Cases,
) -> Result<(Verdict, V), Fail> {
    let (shared, first, second) = two_passes(alloc, mount).ok_or("no passes")?;
    let mut sweeper = shared.pass(rt, alloc, BLOCK_SWEEPER, first);
    let mut user = shared.pass(rt, alloc, 1, second);
    let verdict = verdict_after(alloc, &mut sweeper, element, &mut user, between)?;
    let (mut first, second) = (sweeper.back(), user.back());
    shared.join(&mut first, second);
    Ok((verdict, shared.close(first).ok().ok_or("not closed")?))
}

/// What another pass does before a verdict is committed.
#[derive(Clone, Copy)]
enum Between {
    Nothing,
    SeesBlock24,
    Puts,
    Makes,
}

const PUT: (Ask, &str) = (Ask::Put(LABEL, 0, 1, b'A'), "stored");

const SEES_BLOCK_24: Cases = &[(Ask::SeeBlock(24), "free")];

const PUTS: Cases = &[PUT];

const MAKES: Cases = &[
    (Ask::SeeInode(3), "free"),
    (Ask::Make(b"a"), "made 3 1099511627776"),
];

fn cases_of(between: Between) -> Cases<'static> {
    match between {
        Between::Nothing => &[],
        Between::SeesBlock24 => SEES_BLOCK_24,
        Between::Puts => PUTS,
        Between::Makes => MAKES,
    }
}

/// A new disk of 64 blocks and 16 inodes, of which block 9 was examined.
fn begun(alloc: Global) -> Result<Mount<MemDisk>, Fail> {
    examined(alloc, formatted(alloc, 64, 16)?, 9, 10)
}

fn late_verdict<R: Wait>(
    rt: &R,
    alloc: Global,
    element: Element,
    between: Between,
) -> Result<Verdict, Fail> {
    let mount = begun(alloc)?;
    let (verdict, _mount) = late(rt, alloc, mount, element, cases_of(between))?;
    Ok(verdict)
}

const BLOCK: ElementKind = ElementKind::Block;

const INODE: ElementKind = ElementKind::Inode;

/// Elements of such a disk, and the verdict on each.
const VERDICTS: [(Element, Between, Verdict); 11] = [
    ((BLOCK, 24), Between::Nothing, Some((false, false))),
    ((BLOCK, 24), Between::SeesBlock24, Some((false, false))),
    ((BLOCK, 9), Between::Puts, Some((false, true))),
    ((BLOCK, 0), Between::Nothing, Some((true, true))),
    ((BLOCK, 63), Between::Puts, Some((false, false))),
    ((BLOCK, 64), Between::Nothing, None),
    ((INODE, 3), Between::Nothing, Some((false, false))),
    ((INODE, 3), Between::Makes, Some((false, true))),
    ((INODE, 2), Between::Nothing, Some((true, true))),
    ((INODE, 0), Between::Nothing, None),
    ((INODE, 17), Between::Nothing, None),
];

#[test]
fn a_verdict_that_is_committed_late_undoes_no_step(rt: HostRuntime) -> Result<(), Fail> {
    for (element, between, want) in VERDICTS {
        let verdict = late_verdict(&rt, rt.alloc(), element, between)?;
        assert_eq!(rt; verdict, want, "{element:?}");
    }
    Ok(())
}

fn push_stamps(stamps: &mut Vec<u64>, claims: &Claims) -> Result<(), AllocError> {
    for pointer in [claims.cell, claims.leaf, claims.top] {
        if pointer.stamp > 0 {
            stamps.push(pointer.stamp)?;
        }
    }
    Ok(())
}

// The stamps of the blocks that were claimed, in order: of each step the cell, the leaf and the top.
fn claimed(alloc: Global, history: &History) -> Result<Vec<u64>, AllocError> {
    let mut stamps = Vec::new(alloc);
    for at in 0..history.len() {
        if let Some(entry) = history.entry(at) {
            push_stamps(&mut stamps, &entry.claims)?;
        }
    }
    Ok(stamps)
}

// The same of a mount, after further steps.
fn claimed_after(alloc: Global, mount: Mount<MemDisk>, cases: Cases) -> Result<Vec<u64>, Fail> {
    let mut mount = mount;
    follow(alloc, &mut mount, cases)?;
    let (_disk, history) = mount.end();
    Ok(claimed(alloc, &history)?)
}

const FREES: Cases = &[(Ask::Resize(LABEL, 0), "resized")];

const FREE_AND_PUT: Cases = &[(Ask::SeeBlock(9), "free"), PUT, (Ask::SeeBlock(9), "used")];

// A verdict on the block of a put that is cut before it is committed, and what was claimed in all.
fn freed_meanwhile<R: Wait>(rt: &R, alloc: Global) -> Result<(Verdict, Vec<u64>), Fail> {
    let mut mount = begun(alloc)?;
    follow(alloc, &mut mount, PUTS)?;
    let (verdict, mount) = late(rt, alloc, mount, (BLOCK, 9), FREES)?;
    Ok((verdict, claimed_after(alloc, mount, FREE_AND_PUT)?))
}

#[test]
fn a_block_that_was_freed_since_stays_free(rt: HostRuntime) -> Result<(), Fail> {
    let (verdict, stamps) = freed_meanwhile(&rt, rt.alloc())?;
    assert_eq!(rt; verdict, Some((true, false)));
    assert_eq!(rt; stamps.as_slice(), [S, S + 1].as_slice());
    Ok(())
}

const CLAIMS_BOTH: Cases = &[
    (Ask::Make(b"a"), "made 4 1099511627776"),
    (Ask::SeeInode(4), "used"),
    (Ask::SeeBlock(15), "used"),
    (Ask::SeeBlock(16), "BadRange"),
    (Ask::SeeInode(0), "BadRange"),
];

/// Two verdicts on a new disk of 16 blocks, how many entries there are after the first, how many inodes and blocks are
/// free after both, and the mount.
type Both = ([Verdict; 2], [u64; 3], Mount<MemDisk>);

fn both_found_free<R: Wait>(rt: &R, alloc: Global) -> Result<Both, Fail> {
    let mount = mounted(alloc, formatted(alloc, 16, 4)?)?;
    let (block, mount) = late(rt, alloc, mount, (BLOCK, 15), &[])?;
    let entries = mount.history().len();
    let (inode, mount) = late(rt, alloc, mount, (INODE, 4), &[])?;
    let counts = mount.counts();
    let numbers = [entries, counts.inodes_free, counts.blocks_free];
    Ok(([block, inode], numbers, mount))
}

// These verdicts and numbers, and what is claimed by steps after them.
fn both_claimed<R: Wait>(
    rt: &R,
    alloc: Global,
) -> Result<([Verdict; 2], [u64; 3], Vec<u64>), Fail> {
    let (verdicts, numbers, mount) = both_found_free(rt, alloc)?;
    Ok((verdicts, numbers, claimed_after(alloc, mount, CLAIMS_BOTH)?))
}

#[test]
fn what_was_found_free_may_be_claimed(rt: HostRuntime) -> Result<(), Fail> {
    let (verdicts, numbers, stamps) = both_claimed(&rt, rt.alloc())?;
    assert_eq!(rt; verdicts, [Some((false, false)); 2]);
    assert_eq!(rt; numbers, [1, 1, 1]);
    assert_eq!(rt; stamps.as_slice(), [S + 1].as_slice());
    Ok(())
}

// How many blocks are free at a mount, and after further steps, and how many entries there are then.
fn free_after(alloc: Global, mount: Mount<MemDisk>, after: Cases) -> Result<([u64; 2], u64), Fail> {
    let mut mount = mount;
    let free = mount.counts().blocks_free;
    follow(alloc, &mut mount, after)?;
    Ok(([free, mount.counts().blocks_free], mount.history().len()))
}

// A late verdict on block 24 of a disk that is full but for it, and these numbers at its commit.
fn late_on_24<R: Wait>(
    rt: &R,
    alloc: Global,
    before: Cases,
    after: Cases,
) -> Result<(Verdict, [u64; 2], u64), Fail> {
    let mount = full_below_24(alloc)?;
    let (verdict, mount) = late(rt, alloc, mount, (BLOCK, 24), before)?;
    let (free, entries) = free_after(alloc, mount, after)?;
    Ok((verdict, free, entries))
}

// The first 38 entries are those of 19 blocks that were examined, and of 19 puts.
#[test]
fn a_verdict_of_a_pass_does_not_undo_a_claim_of_another(rt: HostRuntime) -> Result<(), Fail> {
    let alloc = rt.alloc();
    let (put, used) = ((whole(18), "stored"), (Ask::SeeBlock(24), "used"));
    let claimed_after = late_on_24(&rt, alloc, &[], &[put, used])?;
    assert_eq!(rt; claimed_after, (Some((false, false)), [1, 0], 41));
    let free = (Ask::SeeBlock(24), "free");
    let claimed_before = late_on_24(&rt, alloc, &[free, put], &[used])?;
    assert_eq!(rt; claimed_before, (Some((false, true)), [0, 0], 42));
    Ok(())
}
