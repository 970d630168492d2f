//! Verdicts of the disk: which blocks and which inodes its scan has as used.
//!
//! Promise: each answer is the definition's, where what is said to be known of inodes is true.
ghost use Rattle.std.specs.Prelude.{◌≡◌, ◌<◌, ◌+◌, ◌/◌, ◌≤◌, is_some, Some, false, IfOk};
ghost use Rattle.nofs_model.specs.Owners as owners;
ghost use Rattle.nofs_model.specs.Files as files;
ghost use Rattle.nofs_state.specs.Books.Verdicts.{CanCheck, Judges, names_block};

use crate::books::maps::Books;
use nofs_agree::{LastRead, PathAnswer, check_chain, check_path, read_block};
use nofs_disk::{Disk, Failed, Tag, read_tag};
use nofs_model::is_slot;

/// Whether an inode is used: it is 1 or 2, or agreed.
///
/// # Errors
///
/// `Failed` where a read failed.
pub(crate) fn check_inode<D: Disk>(disk: &mut D, books: &Books, inode: u32) -> Result<bool, Failed>
    requires { CanCheck (D.state disk.old) books.now }
    ensures { Judges (D.state disk.old) (D.state disk.new) books.now.agreement
        (λ X. owners.is_used_inode X inode) result }
{
    if is_special(inode) {
        return Ok(true);
    }
    check_chain(disk, &books.at, &books.agreement, inode)
}

fn is_special(inode: u32) -> bool
    ensures { result ≡ files.is_special inode }
{
    inode == 1 || inode == 2
}

/// Whether a block is used: it is fixed, or has an owner.
///
/// # Errors
///
/// `Failed` where a read failed.
pub(crate) fn check_block<D: Disk>(disk: &mut D, books: &Books, block: u64) -> Result<bool, Failed>
    requires books { CanCheck (D.state disk.old) books.now }
    requires block { block < books.now.at.blocks }
    ensures used { Judges (D.state disk.old) (D.state disk.new) books.now.agreement
        (λ X. owners.is_used_block X block) result }
    ensures data { IfOk result (λ used. used ≡ false → 1 + books.now.at.inodes / 4 ≤ block) }
{
    if block <= books.at.inodes / 4 {
        return Ok(true);
    }
    has_owner(disk, books, block)
}

// Whether a block has an owner.
fn has_owner<D: Disk>(disk: &mut D, books: &Books, block: u64) -> Result<bool, Failed>
    requires books { CanCheck (D.state disk.old) books.now }
    requires block { block < books.now.at.blocks }
    ensures { Judges (D.state disk.old) (D.state disk.new) books.now.agreement
        (λ X. is_some (owners.owner X block)) result }
{
    let mut last = LastRead::NONE;
    match read_block(disk, block, &mut last) {
        Ok(()) => {}
        Err(failed) => return Err(failed),
    }
    match read_tag(&last.cell.tag) {
        None => Ok(false),
        Some(tag) => is_owned(disk, books, block, &tag),
    }
}

// Whether the slot that this tag names has the block, and its inode is agreed.
fn is_owned<D: Disk>(disk: &mut D, books: &Books, block: u64, tag: &Tag) -> Result<bool, Failed>
    requires { CanCheck (D.state disk.old) books.now }
    ensures { Judges (D.state disk.old) (D.state disk.new) books.now.agreement
        (λ X. is_some (owners.owner_by X block (Some tag.now))) result }
{
    if !is_slot(tag.slot) {
        return Ok(false);
    }
    let found = match check_path(disk, &books.at, tag.inode, tag.slot) {
        Ok(found) => found,
        Err(failed) => return Err(failed),
    };
    if !names_block(found, block) {
        return Ok(false);
    }
    check_chain(disk, &books.at, &books.agreement, tag.inode)
}

// Whether a slot holds this block.
fn names_block(found: PathAnswer, block: u64) -> bool
    ensures { result ≡ names_block found block }
{
    match found {
        PathAnswer::Hole => false,
        PathAnswer::Lost => false,
        PathAnswer::Holds(pointer) => pointer.block == block,
    }
}
