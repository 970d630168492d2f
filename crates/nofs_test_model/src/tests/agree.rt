//! What the checks say of each example image: what the definitions say, and what was derived of the
//! image by hand. Each read that fails fails the check.
mod checks;

use crate::tests::agree::checks::{
    agreed_in, chain, chain_reads, is_same, learned_in, path_reads, sound_chain, sound_path,
};
use crate::tests::images::{LEAF, image, image_disk, push_slot};
use nofs_agree::PathAnswer;
use nofs_disk::Cell;
use nofs_memdisk::MemDisk;
use nofs_test_disks::disk_of;
use std::alloc::{AllocError, Global};
use std::test::Fail;

/// The first stamp of the first mount.
const S: u64 = 1_099_511_627_776;

/// Slots of every kind: those of the record, of the leaf and of the children, and the first and the
/// last of each; then leaf, top and children.
const SLOTS: [u64; 19] = [
    0,
    1,
    7,
    8,
    9,
    71,
    72,
    73,
    74,
    135,
    136,
    199,
    200,
    4_167,
    LEAF,
    LEAF + 1,
    LEAF + 2,
    LEAF + 3,
    LEAF + 65,
];

// What the check of a slot finds: a block and the serial of its stamp, `lost`, or nothing where it is empty.
fn path_text(alloc: Global, found: Option<PathAnswer>) -> Result<String, AllocError> {
    match found {
        Some(PathAnswer::Hole) => Ok(String::new(alloc)),
        Some(PathAnswer::Lost) => String::from_str(alloc, "lost"),
        Some(PathAnswer::Holds(it)) => {
            format!(in alloc; "{}+{}", it.block, it.stamp.wrapping_sub(S))
        }
        None => String::from_str(alloc, "unsound"),
    }
}

// What the checks of the slots of an inode find. They are to find what the definitions do.
fn push_paths(
    alloc: Global,
    text: &mut String,
    cells: &[Cell],
    disk: &mut MemDisk,
    inode: u32,
) -> Result<(), AllocError> {
    for slot in SLOTS {
        let found = sound_path(disk, inode, slot)?;
        if !is_same(alloc, cells, inode, slot, found)? {
            text.push_str("the definitions say something else ")?;
        }
        push_slot(alloc, text, inode, slot, path_text(alloc, found)?.as_str())?;
    }
    Ok(())
}

// What the checks of all slots of an image find.
fn paths_in(alloc: Global, name: &str) -> Result<String, AllocError> {
    let cells = image(alloc, name)?;
    let mut disk = disk_of(alloc, &cells)?;
    let mut text = String::new(alloc);
    for inode in 0..18 {
        push_paths(alloc, &mut text, &cells, &mut disk, inode)?;
    }
    Ok(text)
}

// The inodes of an image that the check of a chain says are agreed, where those that a text tells are known to be, or
// that the check says which keeps what it finds.
fn agreed_of(alloc: Global, name: &str, known: Option<&str>) -> Result<String, AllocError> {
    let mut disk = image_disk(alloc, name)?;
    match known {
        Some(known) => agreed_in(alloc, &mut disk, &numbers_of(alloc, known)?),
        None => learned_in(alloc, &mut disk),
    }
}

fn numbers_of(alloc: Global, text: &str) -> Result<Vec<u32>, AllocError> {
    let mut numbers = Vec::new(alloc);
    for word in text.split_whitespace() {
        numbers.push(word.parse::<u32>().unwrap_or(0))?;
    }
    Ok(numbers)
}

/// The inodes that are agreed; what each slot of an inode holds that is not empty.
const ANSWERS: &str = "\
    empty: 1 2; 1:0=6+0\n\
    stamp that differs: 1 2; 1:0=6+0 2:0=lost\n\
    two owners: 1 2 3; 1:0=6+0 3:0=lost\n\
    two owners the other way: 1 2 4; 1:0=6+0 4:0=lost\n\
    inode made again: 1 2 3; 1:0=6+0 3:0=lost\n\
    bytes ff: ; \n\
    residue past the size: 1 2; 1:0=6+0 2:8=10+2 2:4294967296=9+1\n\
    blocks under the top: 1 2; 1:0=6+0 2:72=12+4 2:73=lost 2:136=lost 2:199=lost \
    2:4294967297=9+1 2:4294967298=10+2 2:4294967299=lost\n\
    dead second link: 1 2 3; 1:0=6+0\n\
    one name twice: 1 2 3 4; 1:0=6+0\n\
    entry of a free record: 1 2; 1:0=6+0\n\
    entry of another generation: 1 2; 1:0=6+0\n\
    loop of directories: 1 2; 1:0=6+0 3:0=7+3 4:0=8+4\n";

// The name of an image, the inodes that are agreed, and what its slots hold.
fn parts_of(line: &str) -> (&str, &str, &str) {
    let (name, told) = line.split_once(": ").unwrap_or((line, ""));
    let (inodes, paths) = told.split_once("; ").unwrap_or((told, ""));
    (name, inodes, paths)
}

#[test]
fn the_checks_of_a_chain_say_what_is_told_of_an_image(rt: HostRuntime) -> Result<(), Fail> {
    for line in ANSWERS.lines() {
        let (name, inodes, _) = parts_of(line);
        for known in [None, Some(""), Some(inodes)] {
            let found = agreed_of(rt.alloc(), name, known)?;
            assert_eq!(rt;
                found.as_str().trim_end(),
                inodes,
                "{name}, known: {known:?}"
            );
        }
    }
    Ok(())
}

#[test]
fn the_check_of_a_slot_says_what_is_told_of_an_image(rt: HostRuntime) -> Result<(), Fail> {
    for line in ANSWERS.lines() {
        let (name, _, paths) = parts_of(line);
        assert_eq!(rt;
            paths_in(rt.alloc(), name)?.as_str().trim_end(),
            paths,
            "{name}"
        );
    }
    Ok(())
}

// Whether the check of a chain tells of an inode of an image, where some are known to be agreed.
fn is_told(alloc: Global, name: &str, known: &[u32], inode: u32) -> Result<bool, AllocError> {
    let mut disk = image_disk(alloc, name)?;
    let answer = chain(alloc, &mut disk, known, inode)?;
    Ok(matches!(answer, Some(Ok(_))))
}

#[test]
fn what_is_wrongly_known_is_believed_or_not(rt: HostRuntime) -> Result<(), Fail> {
    for inode in 0..6 {
        let told = is_told(rt.alloc(), "loop of directories", &[3], inode)?;
        assert!(rt; told, "inode {inode}");
    }
    Ok(())
}

#[test]
fn a_chain_of_two_thousand_directories_leads_to_the_root(rt: HostRuntime) -> Result<(), Fail> {
    let alloc = rt.alloc();
    let mut disk = image_disk(alloc, "chain of directories")?;
    for (inode, want) in [(1, true), (1_000, true), (2_002, true), (2_003, false)] {
        assert!(rt;
            chain(alloc, &mut disk, &[], inode)? == Some(Ok(want)),
            "inode {inode}"
        );
    }
    assert_eq!(rt; sound_chain(alloc, &mut disk, &[], 4)?, Some(true));
    assert_eq!(rt; sound_chain(alloc, &mut disk, &[1_990], 2_002)?, Some(true));
    let mut names = Vec::new(alloc);
    for inode in 1..2_003 {
        names.push(inode)?;
    }
    for inode in 0..2_006 {
        let want = 1 <= inode && inode <= 2_002;
        assert!(rt;
            chain(alloc, &mut disk, &names, inode)? == Some(Ok(want)),
            "inode {inode}"
        );
    }
    Ok(())
}

// How many blocks the check of a slot of an image reads beside the superblock.
fn slot_reads(alloc: Global, name: &str, inode: u32, slot: u64) -> Result<u64, AllocError> {
    let mut disk = image_disk(alloc, name)?;
    Ok(path_reads(&mut disk, inode, slot))
}

// The table, the top, a child, the block itself.
#[test]
fn the_check_of_a_slot_reads_no_more_than_it_needs(rt: HostRuntime) -> Result<(), Fail> {
    for (inode, slot, reads) in [
        (5, 0, 0),
        (2, 0, 1),
        (1, 0, 2),
        (2, LEAF + 1, 2),
        (2, LEAF + 2, 3),
        (2, 136, 3),
        (2, 72, 4),
    ] {
        let found = slot_reads(rt.alloc(), "blocks under the top", inode, slot)?;
        assert_eq!(rt; found, reads, "slot {slot} of {inode}");
    }
    Ok(())
}

// How many blocks the check of a chain of an image reads beside the superblock.
fn reads_up(alloc: Global, name: &str, known: &[u32], inode: u32) -> Result<u64, AllocError> {
    let mut disk = image_disk(alloc, name)?;
    chain_reads(alloc, &mut disk, known, inode)
}

// The records of 3, 4 and the root are in one block. A chain that needs it again after the block of a directory reads
// it again. The first directory that is known ends the way up.
#[test]
fn the_check_of_a_chain_reads_no_more_than_it_needs(rt: HostRuntime) -> Result<(), Fail> {
    for (name, known, inode, reads) in [
        ("two owners", [].as_slice(), 3, 2),
        ("two owners", &[3], 3, 0),
        ("loop of directories", &[], 3, 1),
        ("loop of directories", &[], 4, 3),
        ("chain of directories", &[2_001], 2_002, 2),
    ] {
        let found = reads_up(rt.alloc(), name, known, inode)?;
        assert_eq!(rt; found, reads, "{inode} in {name}");
    }
    Ok(())
}
