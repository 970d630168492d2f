//! What the definitions say of cells, by the plain slow functions of `nofs_model`.

use crate::failure::Failure;
use crate::lines::{hex_bytes, number_of};
use nofs_disk::Cell;
use nofs_model::{Value, agreed, is_mountable, owner_of, value_of};
use nofs_test_disks::used;
use std::alloc::Global;

/// Whether cells mean what a line says: `None` where it says nothing of a meaning.
///
/// `agreed 1 2` names all inodes that are agreed; `says 2 0 lost`, `says 2 0 hole` and `says 2 0 616263` tell a slot of
/// an inode, of bytes the first; `owner 6 1 0` and `owner 7 none` tell whose slot a block is; `used 2 3` counts inodes
/// and blocks.
pub fn meaning_holds(
    alloc: Global,
    cells: &[Cell],
    words: &[&str],
) -> Result<Option<bool>, Failure> {
    match words {
        ["agreed", inodes @ ..] => Ok(Some(are_agreed(cells, inodes))),
        ["says", inode, slot, what] => Ok(Some(says(alloc, cells, pair_of(inode, slot), what)?)),
        ["owner", block, "none"] => Ok(Some(is_owned(cells, number_of(block), None))),
        ["owner", block, inode, slot] => {
            let owner = pair_of(inode, slot);
            Ok(Some(owner.is_some() && is_owned(cells, number_of(block), owner)))
        }
        ["used", inodes, blocks] => {
            let counts = (number_of(inodes), number_of(blocks));
            Ok(Some(are_used(used(alloc, cells)?, counts)))
        }
        _ => Ok(None),
    }
}

fn pair_of(inode: &str, slot: &str) -> Option<(u32, u64)> {
    Some((inode.parse::<u32>().ok()?, number_of(slot)?))
}

// Whether just these of the first inodes are agreed.
fn are_agreed(cells: &[Cell], inodes: &[&str]) -> bool {
    let mut are = true;
    for inode in 0..32_u32 {
        are = are && is_agreed(cells, inode) == is_named(inodes, inode);
    }
    are
}

fn is_agreed(cells: &[Cell], inode: u32) -> bool {
    is_mountable(cells) && agreed(cells, inode)
}

fn is_named(inodes: &[&str], inode: u32) -> bool {
    let mut is_named = false;
    for word in inodes {
        is_named = is_named || word.parse::<u32>() == Ok(inode);
    }
    is_named
}

fn is_owned(cells: &[Cell], block: Option<u64>, owner: Option<(u32, u64)>) -> bool {
    match block {
        Some(block) => is_mountable(cells) && owner_of(cells, block) == owner,
        None => false,
    }
}

fn says(
    alloc: Global,
    cells: &[Cell],
    slot: Option<(u32, u64)>,
    what: &str,
) -> Result<bool, Failure> {
    let Some((inode, slot)) = slot else {
        return Ok(false);
    };
    if !is_mountable(cells) || slot >= 4_168 {
        return Ok(false);
    }
    is_value(alloc, &value_of(alloc, cells, inode, slot)?, what)
}

fn is_value(alloc: Global, value: &Value, what: &str) -> Result<bool, Failure> {
    match value {
        Value::Hole => Ok(what == "hole"),
        Value::Lost => Ok(what == "lost"),
        Value::Bytes(content) => Ok(content.as_slice().starts_with(&hex_bytes(alloc, what)?)),
    }
}

fn are_used(found: Option<(u64, u64)>, counts: (Option<u64>, Option<u64>)) -> bool {
    match found {
        Some((inodes, blocks)) => counts == (Some(inodes), Some(blocks)),
        None => false,
    }
}
