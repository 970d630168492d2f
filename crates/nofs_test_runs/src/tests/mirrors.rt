//! Runs on a mirror of two disks in memory, of which one fails, or both do.

use nofs_memdisk::MemDisk;
use nofs_mirror::{Mirror, Sides};
use nofs_test_disks::{bytes_of, cached, cells_of, failing, fault};
use nofs_test_sessions::{LINES, SESSION, prints};
use nofs_versions::CallKind;
use std::alloc::{AllocError, Global};
use std::test::Fail;

const LEAD: Sides = Sides {
    lead_in: true,
    other_in: false,
};

// The writes that a put of the session makes first. The format makes 64 and the mount one before
// it, and on the other disk the copy of the lead 64 more.
const LEAD_PUT: u64 = 66;

const OTHER_PUT: u64 = 130;

// A disk of 64 blocks of which a write fails and is not taken.
fn failing_at(alloc: Global, number: u64) -> Result<MemDisk, AllocError> {
    failing(alloc, 64, fault(CallKind::Write, number, false))
}

// A mirror of 64 blocks, where it is opened.
fn mirrored(lead: MemDisk, other: MemDisk) -> Result<Mirror<MemDisk, MemDisk>, AllocError> {
    match Mirror::open(lead, other, 64) {
        Ok(mirror) => Ok(mirror),
        Err(_) => Err(AllocError),
    }
}

#[test]
fn a_session_goes_on_where_one_side_fails(rt: HostRuntime) -> Result<(), Fail> {
    let alloc = rt.alloc();
    let mirror = mirrored(MemDisk::new(alloc, 64)?, failing_at(alloc, OTHER_PUT)?)?;
    let mirror = prints(&rt, mirror, "new 64 16", SESSION, LINES, 0)?;
    assert_eq!(rt; mirror.sides(), LEAD);
    let (lead, _) = mirror.apart();
    prints(&rt, lead, "run", "get @ 0 3", "got bytes:616263\n", 0)?;
    Ok(())
}

#[test]
fn a_session_stops_where_both_sides_fail(rt: HostRuntime) -> Result<(), Fail> {
    let alloc = rt.alloc();
    let mirror = mirrored(failing_at(alloc, LEAD_PUT)?, failing_at(alloc, OTHER_PUT)?)?;
    let want = "refused 19 write fault, stored 0\nrefused 20 stopped\nrefused 20 stopped\n";
    let mirror = prints(&rt, mirror, "new 64 16", SESSION, want, 3)?;
    assert_eq!(rt; mirror.sides(), LEAD);
    Ok(())
}

#[test]
fn both_sides_behind_a_cache_end_with_the_same_cells(rt: HostRuntime) -> Result<(), Fail> {
    let alloc = rt.alloc();
    let mirror = mirrored(MemDisk::new(alloc, 64)?, MemDisk::new(alloc, 64)?)?;
    let disk = prints(&rt, cached(alloc, mirror)?, "new 64 16", SESSION, LINES, 0)?;
    let (mut lead, mut other) = disk.below().apart();
    let cells = cells_of(alloc, &mut lead, 64)?;
    let copies = cells_of(alloc, &mut other, 64)?;
    assert_eq!(rt; cells.len(), 64);
    assert!(rt; bytes_of(alloc, &cells)? == bytes_of(alloc, &copies)?);
    Ok(())
}
