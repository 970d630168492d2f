//! How many inodes and blocks of an image are used.
//!
//! What is found of an inode is marked, so each directory is walked twice, however deep it lies.
ghost use Rattle.std.specs.Prelude.{◌≡◌, ◌+◌, ◌<◌, IfErr, IfOk, Some, is_some, length};
ghost use Rattle.nofs_agree.specs.Reads.{IsAt};
ghost use Rattle.nofs_history.specs.Search.{count_below};
ghost use Rattle.nofs_model.specs.Owners as owners;
ghost use Rattle.nofs_reader.specs.Answers.{IsAnswered};
ghost use Rattle.nofs_reader.specs.Counts.{IsUsed, counts_unread, is_used_place, marks_unread};
ghost use Rattle.nofs_reader.specs.Image.{disk_of, image_of};
ghost use Rattle.nofs_reader.specs.Layouts.{IsBadPage};
ghost use Rattle.nofs_reader.specs.Marks.{AreMarks, KeepsMarks};

use crate::layout::BadPage;
use crate::marks::learn_inode;
use crate::opened::Unread;
use crate::reads::{cell, path, superblock};
use nofs_agree::{LastRead, PathAnswer};
use nofs_disk::{Tag, clear, read_tag};
use nofs_model::is_slot;
use nofs_super::SuperBlock;

/// How much of an image is used, by the scan of the definitions. All else is free. C is given it as it stands.
#[repr(C)]
#[derive(Clone, Copy, Debug, PartialEq, Eq)]
pub struct Used {
    /// How many inodes there are.
    pub inodes: u64,
    /// Those that are agreed, and 1 and 2.
    pub used_inodes: u64,
    /// How many blocks the file system has.
    pub blocks: u64,
    /// Those that have an owner, and those before the data area.
    pub used_blocks: u64,
}

/// How many inodes and blocks of an image are used. `marks` has a byte for each inode, at most 65,536; what it has
/// first and last means nothing.
///
/// # Errors
///
/// `NoImage` with the first fault of the superblock; `NoRoom` where `marks` has fewer bytes than there are inodes;
/// `BadPage` where a page can't be told that shows this. `marks` may have other bytes then.
pub fn counts(bytes: &[u8], marks: &mut [u8]) -> Result<Used, Unread>
    ensures unread { IsAnswered bytes.now (counts_unread (image_of bytes.now) (length marks.old)) result }
    ensures used { IfOk result (IsUsed (image_of bytes.now)) }
    ensures len { length marks.new ≡ length marks.old }
{
    match superblock(bytes) {
        Err(why) => Err(why),
        Ok(at) => count_at(bytes, &at, marks),
    }
}

// The same, with the superblock.
fn count_at(bytes: &[u8], at: &SuperBlock, marks: &mut [u8]) -> Result<Used, Unread>
    requires { IsAt (disk_of bytes.now) at.now }
    ensures unread { IsAnswered bytes.now (marks_unread (image_of bytes.now) (length marks.old)) result }
    ensures used { IfOk result (IsUsed (image_of bytes.now)) }
    ensures len { length marks.new ≡ length marks.old }
{
    if (marks.len() as u64) < at.inodes {
        return Err(Unread::NoRoom);
    }
    clear(marks);
    match count_all(bytes, at, marks) {
        Ok(used) => Ok(used),
        Err(bad) => Err(Unread::BadPage(bad)),
    }
}

fn count_all(bytes: &[u8], at: &SuperBlock, marks: &mut [u8]) -> Result<Used, BadPage>
    requires at { IsAt (disk_of bytes.now) at.now }
    requires marks { AreMarks (image_of bytes.now) marks.old }
    ensures used { IfOk result (IsUsed (image_of bytes.now)) }
    ensures marks { KeepsMarks (image_of bytes.now) marks.old marks.new }
    ensures bad { IfErr result (IsBadPage bytes.now) }
{
    let used_inodes = count_inodes(bytes, at, marks)?;
    let used_blocks = count_blocks(bytes, at, marks)?;
    Ok(Used {
        inodes: at.inodes,
        used_inodes,
        blocks: at.blocks,
        used_blocks,
    })
}

fn count_inodes(bytes: &[u8], at: &SuperBlock, marks: &mut [u8]) -> Result<u64, BadPage>
    requires at { IsAt (disk_of bytes.now) at.now }
    requires marks { AreMarks (image_of bytes.now) marks.old }
    ensures used { IfOk result (λ used. used ≡ count_below (is_used_place (image_of bytes.now)) at.now.inodes) }
    ensures marks { KeepsMarks (image_of bytes.now) marks.old marks.new }
    ensures bad { IfErr result (IsBadPage bytes.now) }
{
    let mut used = 0;
    for number in 0..at.inodes {
        used += u64::from(is_used_inode(bytes, at, marks, number as u32 + 1)?);
    }
    Ok(used)
}

fn count_blocks(bytes: &[u8], at: &SuperBlock, marks: &mut [u8]) -> Result<u64, BadPage>
    requires at { IsAt (disk_of bytes.now) at.now }
    requires marks { AreMarks (image_of bytes.now) marks.old }
    ensures used { IfOk result
        (λ used. used ≡ count_below (owners.is_used_block (image_of bytes.now)) at.now.blocks) }
    ensures marks { KeepsMarks (image_of bytes.now) marks.old marks.new }
    ensures bad { IfErr result (IsBadPage bytes.now) }
{
    let mut used = 0;
    for block in 0..at.blocks {
        used += u64::from(is_used_block(bytes, at, marks, block)?);
    }
    Ok(used)
}

fn is_used_inode(
    bytes: &[u8],
    at: &SuperBlock,
    marks: &mut [u8],
    inode: u32,
) -> Result<bool, BadPage>
    requires at { IsAt (disk_of bytes.now) at.now }
    requires marks { AreMarks (image_of bytes.now) marks.old }
    ensures used { IfOk result (λ is. is ≡ owners.is_used_inode (image_of bytes.now) inode) }
    ensures marks { KeepsMarks (image_of bytes.now) marks.old marks.new }
    ensures bad { IfErr result (IsBadPage bytes.now) }
{
    if inode == 1 || inode == 2 {
        return Ok(true);
    }
    learn_inode(bytes, at, marks, inode)
}

fn is_used_block(
    bytes: &[u8],
    at: &SuperBlock,
    marks: &mut [u8],
    block: u64,
) -> Result<bool, BadPage>
    requires at { IsAt (disk_of bytes.now) at.now }
    requires block { block < at.now.blocks }
    requires marks { AreMarks (image_of bytes.now) marks.old }
    ensures used { IfOk result (λ is. is ≡ owners.is_used_block (image_of bytes.now) block) }
    ensures marks { KeepsMarks (image_of bytes.now) marks.old marks.new }
    ensures bad { IfErr result (IsBadPage bytes.now) }
{
    if block <= at.inodes / 4 {
        return Ok(true);
    }
    has_owner(bytes, at, marks, block)
}

// Whether a block has an owner.
#[tactic(auto, unfolding(nofs_model::specs::Owners::owner))]
fn has_owner(bytes: &[u8], at: &SuperBlock, marks: &mut [u8], block: u64) -> Result<bool, BadPage>
    requires at { IsAt (disk_of bytes.now) at.now }
    requires block { block < at.now.blocks }
    requires marks { AreMarks (image_of bytes.now) marks.old }
    ensures owned { IfOk result (λ is. is ≡ is_some (owners.owner (image_of bytes.now) block)) }
    ensures marks { KeepsMarks (image_of bytes.now) marks.old marks.new }
    ensures bad { IfErr result (IsBadPage bytes.now) }
{
    let mut last = LastRead::NONE;
    cell(bytes, block, &mut last)?;
    match read_tag(&last.cell.tag) {
        None => Ok(false),
        Some(tag) => owns(bytes, at, marks, &tag, block),
    }
}

// Whether the slot that a tag names has a block.
fn owns(
    bytes: &[u8],
    at: &SuperBlock,
    marks: &mut [u8],
    tag: &Tag,
    block: u64,
) -> Result<bool, BadPage>
    requires at { IsAt (disk_of bytes.now) at.now }
    requires marks { AreMarks (image_of bytes.now) marks.old }
    ensures owns { IfOk result
        (λ is. is ≡ is_some (owners.owner_by (image_of bytes.now) block (Some tag.now))) }
    ensures marks { KeepsMarks (image_of bytes.now) marks.old marks.new }
    ensures bad { IfErr result (IsBadPage bytes.now) }
{
    if !is_slot(tag.slot) {
        return Ok(false);
    }
    match path(bytes, at, tag.inode, tag.slot)? {
        PathAnswer::Hole => Ok(false),
        PathAnswer::Lost => Ok(false),
        PathAnswer::Holds(pointer) => {
            if pointer.block != block {
                return Ok(false);
            }
            learn_inode(bytes, at, marks, tag.inode)
        }
    }
}
