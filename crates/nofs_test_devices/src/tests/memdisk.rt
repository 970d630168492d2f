//! Disks in memory: what their calls do, fail and count, and the images that a crash leaves.
ghost use Rattle.std.specs.Prelude.{◌↔◌, IsTrue};
ghost use Rattle.nofs_versions.specs.Memory.{PicksVersions};
ghost use Rattle.nofs_memdisk.specs.Parts.{memory_state};

use crate::tests::disks::{cell_of, failing, follow};
use nofs_disk::Disk;
use nofs_memdisk::*;
use nofs_versions::{CallCounts, Pick};
use std::alloc::{AllocError, Global};
use std::test::Fail;

/// How many cells a block may hold.
fn choices_of(disk: &MemDisk, block: u64) -> u64 {
    if block < disk.blocks() {
        disk.choices(block)
    } else {
        0
    }
}

fn is_pick(disk: &MemDisk, pick: Pick) -> bool
    ensures { IsTrue result ↔ PicksVersions (memory_state disk.now) pick }
{
    pick.block < disk.blocks() && pick.version < disk.choices(pick.block)
}

/// The disk that a crash leaves with two picks, each of a block and a version.
fn left(
    alloc: Global,
    disk: &MemDisk,
    first: (u64, u64),
    second: (u64, u64),
) -> Result<MemDisk, AllocError> {
    let first = Pick {
        block: first.0,
        version: first.1,
    };
    let second = Pick {
        block: second.0,
        version: second.1,
    };
    if is_pick(disk, first) && is_pick(disk, second) {
        disk.image(alloc, &[first, second])
    } else {
        Err(AllocError)
    }
}

#[test]
fn a_disk_begins_with_zeros_keeps_nothing_back_and_gives_what_was_written(
    rt: HostRuntime,
) -> Result<(), Fail> {
    let mut disk = MemDisk::new(rt.alloc(), 4)?;
    assert_eq!(rt; (disk.blocks(), disk.moment()), (4, 0));
    follow(&mut disk, "3?0 3=7 out 3?7 2?0 flush 3?7")?;
    assert_eq!(rt; disk.moment(), 4);
    let counts = CallCounts {
        reads: 4,
        writes: 1,
        flushes: 1,
    };
    assert_eq!(rt; disk.calls(), counts);
    assert!(rt; disk.ready(u64::MAX).is_err());
    Ok(())
}

#[test]
fn an_image_takes_the_picked_cells_and_else_the_last(rt: HostRuntime) -> Result<(), Fail> {
    let mut disk = MemDisk::new(rt.alloc(), 3)?;
    follow(&mut disk, "1=5 flush 1=6 1=7 2=8")?;
    for (block, choices) in [(0, 1), (1, 3), (2, 2), (3, 0)] {
        assert_eq!(rt; choices_of(&disk, block), choices, "block {block}");
    }
    for (first, second, script) in [
        ((0, 0), (0, 0), "1?7 2?8"),
        ((1, 0), (0, 0), "1?5 2?8"),
        ((1, 1), (2, 0), "1?6 2?0"),
        ((1, 0), (1, 2), "1?7 2?8"),
        ((1, 2), (1, 0), "1?5 2?8"),
    ] {
        let mut image = left(rt.alloc(), &disk, first, second)?;
        assert_eq!(rt; (choices_of(&image, 1), image.moment()), (1, 0));
        follow(&mut image, script)?;
    }
    Ok(())
}

#[test]
fn an_image_runs_on_and_has_images_of_its_own(rt: HostRuntime) -> Result<(), Fail> {
    let mut disk = failing(rt.alloc(), 1, "write 2")?;
    follow(&mut disk, "0=5")?;
    let mut image = left(rt.alloc(), &disk, (0, 1), (0, 1))?;
    follow(&mut image, "0=6 0=7")?;
    let mut next = left(rt.alloc(), &image, (0, 1), (0, 1))?;
    follow(&mut next, "0?6")?;
    follow(&mut disk, "0?5")
}

#[test]
fn a_call_fails_exactly_where_its_kind_and_number_were_named(rt: HostRuntime) -> Result<(), Fail> {
    for (calls, script, choices) in [
        ("flush 2", "0=5 0=6 flush 0?6", 1),
        ("flush 2\nwrite 1 taken", "0=5! 0=6 flush 0?6", 1),
        ("write 2\nflush 2", "0=5 0=6! flush 0?5", 1),
        ("write 1 taken\nwrite 2", "0=5! 0=6! flush 0?5", 1),
        ("flush 1\nflush 2", "0=5 0=6 flush! 0?6", 3),
        ("flush 1\nwrite 2", "0=5 0=6! flush! 0?5", 2),
        ("read 1 taken\nflush 2", "0=5 0=6 flush 0?!", 1),
    ] {
        let mut disk = failing(rt.alloc(), 1, calls)?;
        follow(&mut disk, script)?;
        assert_eq!(rt; choices_of(&disk, 0), choices, "{calls}");
    }
    Ok(())
}

#[test]
fn a_cell_that_is_laid_down_is_flushed(rt: HostRuntime) -> Result<(), Fail> {
    let mut disk = MemDisk::new(rt.alloc(), 2)?;
    disk.put_cell(1, &cell_of(9));
    assert_eq!(rt; (choices_of(&disk, 1), disk.moment()), (1, 0));
    follow(&mut disk, "1?9 0?0")?;
    assert_eq!(rt; disk.moment(), 0);
    Ok(())
}
