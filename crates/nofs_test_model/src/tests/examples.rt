//! What the definitions say of each example image, derived by hand.
ghost use Rattle.nofs_ptrs.specs.Paths.{slot_limit};
ghost use Rattle.std.specs.Prelude.{◌<◌};

use crate::tests::images::{image, push_slot};
use nofs_disk::Cell;
use nofs_model::{Value, agreed, is_mountable, owner_of, value_of};
use nofs_test_disks::used;
use std::alloc::{AllocError, Global};
use std::test::Fail;

fn is_agreed(cells: &[Cell], inode: u32) -> bool {
    if !is_mountable(cells) {
        return false;
    }
    agreed(cells, inode)
}

fn owner_in(cells: &[Cell], block: u64) -> Option<(u32, u64)> {
    if !is_mountable(cells) {
        return None;
    }
    owner_of(cells, block)
}

// The first byte of a slot, `lost`, or nothing where nothing was ever put there.
fn says(alloc: Global, cells: &[Cell], inode: u32, slot: u64) -> Result<String, AllocError>
    requires { slot < slot_limit }
{
    if !is_mountable(cells) {
        return String::from_str(alloc, "no image");
    }
    match value_of(alloc, cells, inode, slot)? {
        Value::Hole => Ok(String::new(alloc)),
        Value::Lost => String::from_str(alloc, "lost"),
        Value::Bytes(content) => {
            let first = content.as_slice().first().copied().unwrap_or(0);
            format!(in alloc; "{first}")
        }
    }
}

// The inodes that are agreed.
fn agreed_in(alloc: Global, cells: &[Cell]) -> Result<String, AllocError> {
    let mut text = String::new(alloc);
    for inode in 0..18 {
        if is_agreed(cells, inode) {
            text.push_str(format!(in alloc; "{inode} ")?.as_str())?;
        }
    }
    Ok(text)
}

// What the slots of an inode say.
fn push_slots(
    alloc: Global,
    text: &mut String,
    cells: &[Cell],
    inode: u32,
) -> Result<(), AllocError> {
    for slot in 0..130 {
        let says = says(alloc, cells, inode, slot)?;
        push_slot(alloc, text, inode, slot, says.as_str())?;
    }
    Ok(())
}

fn slots_in(alloc: Global, cells: &[Cell]) -> Result<String, AllocError> {
    let mut text = String::new(alloc);
    for inode in 0..18 {
        push_slots(alloc, &mut text, cells, inode)?;
    }
    Ok(text)
}

// The blocks that have an owner.
fn owners_in(alloc: Global, cells: &[Cell]) -> Result<String, AllocError> {
    let mut text = String::new(alloc);
    for block in 0..cells.len() as u64 {
        if let Some((inode, slot)) = owner_in(cells, block) {
            text.push_str(format!(in alloc; "{block}={inode}:{slot} ")?.as_str())?;
        }
    }
    Ok(text)
}

// What an image means: the inodes that are agreed; what each slot of an inode says that says something; which slot of
// an inode owns each block that has an owner; how many inodes and blocks are used.
fn meaning(alloc: Global, cells: &[Cell]) -> Result<String, AllocError> {
    let inodes = agreed_in(alloc, cells)?;
    let slots = slots_in(alloc, cells)?;
    let owners = owners_in(alloc, cells)?;
    let (used_inodes, used_blocks) = used(alloc, cells)?.unwrap_or((0, 0));
    let mut text = String::new(alloc);
    for part in [&inodes, &slots, &owners] {
        text.push_str(part.as_str().trim_end())?;
        text.push_str("; ")?;
    }
    text.push_str(format!(in alloc; "{used_inodes} {used_blocks}")?.as_str())?;
    Ok(text)
}

/// A slot holds a block with just its tag; the blocks of pointers are owned too; an inode has a name where an entry and
/// a back link agree; of bytes ff only what is fixed is used.
const MEANINGS: &str = "\
    empty: 1 2; 1:0=0; 6=1:0; 2 3\n\
    stamp that differs: 1 2; 1:0=0 2:0=lost; 6=1:0; 2 3\n\
    two owners: 1 2 3; 1:0=3 3:0=lost; 6=1:0; 3 3\n\
    two owners the other way: 1 2 4; 1:0=4 4:0=lost; 6=1:0; 3 3\n\
    inode made again: 1 2 3; 1:0=3 3:0=lost; 6=1:0; 3 3\n\
    residue past the size: 1 2; 1:0=0 2:8=106; 6=1:0 9=2:4294967296 10=2:8; 2 5\n\
    blocks under the top: 1 2; 1:0=0 2:72=102 2:73=lost; 6=1:0 9=2:4294967297 10=2:4294967298 12=2:72; 2 6\n\
    dead second link: 1 2 3; 1:0=3; 6=1:0; 3 3\n\
    one name twice: 1 2 3 4; 1:0=3; 6=1:0; 4 3\n\
    entry of a free record: 1 2; 1:0=3; 6=1:0; 2 3\n\
    entry of another generation: 1 2; 1:0=3; 6=1:0; 2 3\n\
    loop of directories: 1 2; 1:0=0 3:0=4 4:0=3; 6=1:0; 2 3\n\
    bytes ff: ; ; ; 2 5\n";

#[test]
fn an_image_means_what_is_told_of_it(rt: HostRuntime) -> Result<(), Fail> {
    let alloc = rt.alloc();
    for line in MEANINGS.lines() {
        let (name, want) = line.split_once(": ").unwrap_or((line, ""));
        let cells = image(alloc, name)?;
        assert_eq!(rt; meaning(alloc, &cells)?.as_str(), want, "{name}");
    }
    Ok(())
}

#[test]
fn each_slot_below_a_lost_child_is_lost(rt: HostRuntime) -> Result<(), Fail> {
    let alloc = rt.alloc();
    let cells = image(alloc, "blocks under the top")?;
    for (slot, want) in [
        (135, ""),
        (136, "lost"),
        (199, "lost"),
        (200, ""),
        (4_167, ""),
    ] {
        assert_eq!(rt; says(alloc, &cells, 2, slot)?.as_str(), want, "slot {slot}");
    }
    Ok(())
}

#[test]
fn a_chain_of_two_thousand_directories_leads_to_the_root(rt: HostRuntime) -> Result<(), Fail> {
    let alloc = rt.alloc();
    let cells = image(alloc, "chain of directories")?;
    for inode in [1, 3, 4, 1_000, 2_002] {
        assert!(rt; is_agreed(&cells, inode), "inode {inode}");
    }
    assert!(rt; !is_agreed(&cells, 2_003));
    // Entry 0 of directory 2,001 names inode 2,002, whose low byte is 210.
    for (inode, want) in [(2_001, "210"), (2_002, "")] {
        assert_eq!(rt;
            says(alloc, &cells, inode, 0)?.as_str(),
            want,
            "inode {inode}"
        );
    }
    for (block, want) in [
        (502, Some((1, 0))),
        (2_501, Some((2_001, 0))),
        (2_502, None),
    ] {
        assert_eq!(rt; owner_in(&cells, block), want, "block {block}");
    }
    assert_eq!(rt; used(alloc, &cells)?, Some((2_002, 2_502)));
    Ok(())
}
