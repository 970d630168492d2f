//! Every image that a crash may leave after two puts and a rename, each read as a user would: the worked example of
//! "No order" in `docs/CRASH.md`. What is wanted of an image follows from which writes it has, by the rules there. How
//! many cells each block may have is told by a case of `nofs_rows`.
use nofs_memdisk::MemDisk;
use nofs_test_asks::{Ask, HandlePair, LABEL, S, examined, follow};
use nofs_test_disks::{formatted, left};
use nofs_versions::Pick;
use std::alloc::Global;
use std::test::Fail;

/// The file that is put in place, and renamed from `a` to `b`.
const A: HandlePair = (3, S);

/// The file that gets a slot under a leaf.
const C: HandlePair = (4, S + 3);

/// Before the last flush both files have bytes in one slot, and blocks 5 and 6 have bytes of the label file, which gave
/// them up. Since then come two puts and a rename.
const STEPS: [(Ask, &str); 14] = [
    (Ask::SeeInode(3), "free"),
    (Ask::Make(b"a"), "made 3 1099511627776"),
    (Ask::Put(A, 0, 4, b'a'), "stored"),
    (Ask::SeeInode(4), "free"),
    (Ask::Make(b"c"), "made 4 1099511627779"),
    (Ask::Put(C, 0, 4, b'c'), "stored"),
    (Ask::Resize(C, 8192), "resized"),
    (Ask::Put(LABEL, 0, 1024, b'x'), "stored"),
    (Ask::Put(LABEL, 1, 1024, b'x'), "stored"),
    (Ask::Resize(LABEL, 0), "resized"),
    (Ask::Flush, "flushed"),
    (Ask::Put(A, 0, 8, b'A'), "stored"),
    (Ask::Put(C, 8, 4, b'C'), "stored"),
    (Ask::Rename(b"a", b"b"), "renamed"),
];

/// Which cells a crash leaves: of the table 0 as it was at the flush, 1 with the record of the first put, 2 with those
/// of both; of the others whether the new one.
#[derive(Clone, Copy)]
struct Left {
    table: u64,
    root: bool,
    first: bool,
    cell: bool,
    leaf: bool,
}

/// The crash of this number, below 48.
fn crash(number: u64) -> Left {
    Left {
        table: number % 3,
        root: number / 3 % 2 == 1,
        first: number / 6 % 2 == 1,
        cell: number / 12 % 2 == 1,
        leaf: number / 24 % 2 == 1,
    }
}

fn pick(block: u64, version: u64) -> Pick {
    Pick { block, version }
}

/// The image of a crash.
fn image(alloc: Global, disk: &MemDisk, crash: Left) -> Result<MemDisk, Fail> {
    let picks = [
        pick(1, crash.table),
        pick(2, u64::from(crash.root)),
        pick(3, u64::from(crash.first)),
        pick(5, u64::from(crash.cell)),
        pick(6, u64::from(crash.leaf)),
    ];
    match left(alloc, disk, &picks)? {
        Some(image) => Ok(image),
        None => Err("no such image".into()),
    }
}

/// The slot under the leaf: a hole where no record names the leaf, the bytes where all three writes are there, else
/// lost.
fn under_the_leaf(crash: Left) -> &'static str {
    if crash.table < 2 {
        "hole"
    } else if crash.leaf && crash.cell {
        "CCCC"
    } else {
        "lost"
    }
}

// Size and links of the file that is put in place.
fn stat_of_a(crash: Left) -> &'static str {
    if crash.table == 0 {
        "File 4 1"
    } else {
        "File 8 1"
    }
}

fn bytes_of_a(crash: Left) -> &'static str {
    if crash.first { "AAAA" } else { "aaaa" }
}

// Size and links of the file that gets a slot under a leaf.
fn stat_of_c(crash: Left) -> &'static str {
    if crash.table == 2 {
        "File 8196 1"
    } else {
        "File 8192 1"
    }
}

/// What a user reads after a crash: the names, then each file's size and its slots.
fn reads(crash: Left) -> [(Ask<'static>, &'static str); 9] {
    let names = if crash.root {
        "names 0 b c"
    } else {
        "names 0 a c"
    };
    [
        (Ask::List, names),
        (Ask::Look(b"a"), found_as_a(!crash.root)),
        (Ask::Look(b"b"), found_as_a(crash.root)),
        (Ask::Look(b"c"), "found 4 1099511627779 File"),
        (Ask::Stat(A), stat_of_a(crash)),
        (Ask::Get(A, 0), bytes_of_a(crash)),
        (Ask::Stat(C), stat_of_c(crash)),
        (Ask::Get(C, 0), "cccc"),
        (Ask::Get(C, 8), under_the_leaf(crash)),
    ]
}

// What a name leads to that the file has, or has not.
fn found_as_a(has: bool) -> &'static str {
    if has {
        "found 3 1099511627776 File"
    } else {
        "Missing"
    }
}

/// A disk after both puts and the rename.
fn written(alloc: Global) -> Result<MemDisk, Fail> {
    let mut mount = examined(alloc, formatted(alloc, 16, 4)?, 0, 16)?;
    follow(alloc, &mut mount, &STEPS)?;
    let (disk, _history) = mount.end();
    Ok(disk)
}

/// Reads the image that a crash leaves of a disk.
fn read_after(alloc: Global, disk: &MemDisk, crash: Left) -> Result<(), Fail> {
    let mut mount = examined(alloc, image(alloc, disk, crash)?, 0, 16)?;
    follow(alloc, &mut mount, &reads(crash))
}

#[test]
fn each_of_the_48_images_reads_as_accepted(rt: HostRuntime) -> Result<(), Fail> {
    let alloc = rt.alloc();
    let disk = written(alloc)?;
    for number in 0..48 {
        read_after(alloc, &disk, crash(number))?;
    }
    Ok(())
}
