//! How a mirror goes on when a side fails, and what it does when both do.
use crate::tests::disks::{failing, follow};
use nofs_disk::Disk;
use nofs_memdisk::MemDisk;
use nofs_mirror::{Mirror, MirrorCause, MirrorFault, Sides};
use nofs_versions::CallCounts;
use std::alloc::{AllocError, Global};
use std::process::Abort;
use std::test::Fail;

/// A mirror of four blocks, where it is opened.
fn mirrored<A: Disk + Drop, B: Disk + Drop>(lead: A, other: B) -> Result<Mirror<A, B>, AllocError> {
    match Mirror::open(lead, other, 4) {
        Ok(mirror) => Ok(mirror),
        Err(_) => Err(AllocError),
    }
}

/// A mirror of two disks, on each of which calls fail, after a script.
fn followed(
    alloc: Global,
    calls: (&str, &str),
    script: &str,
) -> Result<Mirror<MemDisk, MemDisk>, Fail> {
    let mut mirror = mirrored(failing(alloc, 4, calls.0)?, failing(alloc, 4, calls.1)?)?;
    follow(&mut mirror, script)?;
    Ok(mirror)
}

/// The sides that are in.
fn name_of(sides: Sides) -> &'static str {
    match (sides.lead_in, sides.other_in) {
        (true, true) => "both",
        (true, false) => "lead",
        (false, true) => "other",
        (false, false) => "none",
    }
}

/// The sides of a mirror that are in, and its disks.
fn taken_apart(mirror: Mirror<MemDisk, MemDisk>) -> (Sides, MemDisk, MemDisk) {
    let sides = mirror.sides();
    let (lead, other) = mirror.apart();
    (sides, lead, other)
}

/// Follows a script on a side, where it is in.
fn follow_if_in(mut side: MemDisk, is_in: bool, script: &str) -> Result<(), Fail> {
    if is_in {
        follow(&mut side, script)
    } else {
        Ok(())
    }
}

/// The sides that are in after a script, each of which is answered then as another one says.
fn sides_after(
    alloc: Global,
    calls: (&str, &str),
    script: &str,
    then: &str,
) -> Result<&'static str, Fail> {
    let (sides, lead, other) = taken_apart(followed(alloc, calls, script)?);
    follow_if_in(lead, sides.lead_in, then)?;
    follow_if_in(other, sides.other_in, then)?;
    Ok(name_of(sides))
}

/// Calls that fail on the lead and on the other, a script, what each side that is in answers then, and which are in.
type Failing = (
    &'static str,
    &'static str,
    &'static str,
    &'static str,
    &'static str,
);

const ALONE: &str = "1=5 3=6 flush 1?5 3?6";

const FAILING: [Failing; 22] = [
    ("write 1", "", ALONE, "3?6", "other"),
    ("write 2", "", ALONE, "3?6", "other"),
    ("flush 1", "", ALONE, "3?6", "other"),
    ("read 5", "", ALONE, "3?6", "both"),
    ("read 6", "", ALONE, "3?6", "both"),
    ("", "write 1", ALONE, "3?6", "lead"),
    ("", "write 2", ALONE, "3?6", "lead"),
    ("", "write 3", ALONE, "3?6", "lead"),
    ("", "write 4", ALONE, "3?6", "lead"),
    ("", "write 5", ALONE, "3?6", "lead"),
    ("", "write 6", ALONE, "3?6", "lead"),
    ("", "flush 1", ALONE, "3?6", "lead"),
    ("", "flush 2", ALONE, "3?6", "lead"),
    ("", "flush 3", ALONE, "3?6", "both"),
    ("write 1", "write 5", "1=5!", "1?0", "lead"),
    (
        "write 1",
        "write 5",
        "1=5! 1?0 3=6 flush 1?0 3?6",
        "1?0 3?6",
        "lead",
    ),
    ("write 1 taken", "write 5", "1=5!", "1?5", "lead"),
    (
        "write 1 taken",
        "write 5",
        "1=5! 1?5 3=6 flush 1?5 3?6",
        "1?5 3?6",
        "lead",
    ),
    ("flush 1", "flush 2", "1=5 flush!", "1?5", "lead"),
    (
        "flush 1",
        "flush 2",
        "1=5 flush! 1?5 3=6 flush 1?5 3?6",
        "1?5 3?6",
        "lead",
    ),
    ("write 1", "write 6", "1=5", "1?5", "other"),
    ("write 1", "write 6", "1=5 3=6!", "1?5 3?0", "other"),
];

fn check_sides(rt: &impl Abort, alloc: Global, cases: &[Failing]) -> Result<(), Fail> {
    for case in cases {
        let (lead, other, script, then, sides) = *case;
        assert_eq!(rt;
            sides_after(alloc, (lead, other), script, then)?,
            sides,
            "{lead}, {other}, {script}"
        );
    }
    Ok(())
}

// A side that fails at any call goes out and the other goes on; a call that fails on both sides keeps the lead, and the
// last side that is in stays in.
#[test]
fn a_side_that_fails_goes_out_while_the_other_is_in(rt: HostRuntime) -> Result<(), Fail> {
    check_sides(&rt, rt.alloc(), &FAILING)
}

#[test]
fn a_mirror_of_one_side_goes_on(rt: HostRuntime) -> Result<(), Fail> {
    let calls = ("write 1", "write 6");
    let mut mirror = followed(rt.alloc(), calls, "1=5 3=6! 3=7 flush 1?5 3?7")?;
    assert_eq!(rt; (mirror.blocks(), mirror.moment()), (4, 8));
    follow(&mut mirror, "out")
}

#[test]
fn a_mirror_of_a_mirror_outlives_two_sides(rt: HostRuntime) -> Result<(), Fail> {
    let inner = followed(rt.alloc(), ("write 1", "write 6"), "1=5")?;
    let mut outer = mirrored(inner, MemDisk::new(rt.alloc(), 4)?)?;
    follow(&mut outer, "3=6 flush 1?5 3?6")?;
    assert_eq!(rt; name_of(outer.sides()), "other");
    Ok(())
}

/// Two disks that make no mirror of four blocks, and why.
fn refused(lead: MemDisk, other: MemDisk) -> Result<MirrorFault<MemDisk, MemDisk>, Fail> {
    match Mirror::open(lead, other, 4) {
        Ok(_) => Err("opened".into()),
        Err(fault) => Ok(fault),
    }
}

#[test]
fn a_lead_that_cannot_be_read_comes_back(rt: HostRuntime) -> Result<(), Fail> {
    for call in ["read 1", "read 2", "read 3", "read 4"] {
        let mut lead = failing(rt.alloc(), 4, call)?;
        follow(&mut lead, "1=5")?;
        let fault = refused(lead, MemDisk::new(rt.alloc(), 4)?)?;
        assert_eq!(rt; fault.cause, MirrorCause::ReadFault, "{call}");
        let mut lead = fault.lead;
        follow(&mut lead, "1?5 3?0")?;
    }
    Ok(())
}

const UNTOUCHED: CallCounts = CallCounts {
    reads: 0,
    writes: 0,
    flushes: 0,
};

#[test]
fn too_few_blocks_are_told_before_any_call(rt: HostRuntime) -> Result<(), Fail> {
    for (lead, other) in [(3, 4), (4, 3), (0, 9)] {
        let fault = refused(
            MemDisk::new(rt.alloc(), lead)?,
            MemDisk::new(rt.alloc(), other)?,
        )?;
        assert_eq!(rt; fault.cause, MirrorCause::TooSmall { lead, other });
        assert_eq!(rt;
            (fault.lead.calls(), fault.other.calls()),
            (UNTOUCHED, UNTOUCHED)
        );
    }
    mirrored(MemDisk::new(rt.alloc(), 4)?, MemDisk::new(rt.alloc(), 9)?)?;
    Ok(())
}
