//! Which slot has a block.
ghost use Rattle.std.specs.Prelude.{◌≡◌, ◌<◌, Some};
ghost use Rattle.nofs_model.specs.Geometry.{IsMountable};
ghost use Rattle.nofs_model.specs.Owners as owners;
ghost use Rattle.nofs_model.specs.Places.{AreAgreed, IsRead};
ghost use Rattle.nofs_ptrs.specs.Paths.{is_slot};

use crate::image::path::PathAnswer;
use crate::image::{cell_at, numbers_of};
use crate::names::is_agreed;
use crate::slots::find_number;
use nofs_disk::{Cell, Tag, read_tag};
use nofs_ptrs::SLOT_LIMIT;
use nofs_super::SuperBlock;

/// The owner of a block: the inode and the slot that hold it, where the inode is agreed. It asks a
/// mountable image.
pub fn owner_of(cells: &[Cell], block: u64) -> Option<(u32, u64)>
    requires { IsMountable cells.now }
    ensures { result ≡ owners.inode_and_slot (owners.owner cells.now block) }
{
    let at = numbers_of(cells);
    find_owner(cells, &at, &[], block)
}

#[tactic(auto, using(crate::proofs::OnOwners::Slots::owner_past), unfolding(crate::specs::Owners::owner))]
pub(crate) fn find_owner(
    cells: &[Cell],
    at: &SuperBlock,
    known: &[bool],
    block: u64,
) -> Option<(u32, u64)>
    requires numbers { IsRead cells.now at.now }
    requires known { AreAgreed cells.now known.now }
    ensures { result ≡ owners.inode_and_slot (owners.owner cells.now block) }
{
    if block >= cells.len() as u64 {
        return None;
    }
    match read_tag(&cell_at(cells, block).tag) {
        None => None,
        Some(tag) => owner_by(cells, at, known, block, &tag),
    }
}

// The owner of a block with this tag.
fn owner_by(
    cells: &[Cell],
    at: &SuperBlock,
    known: &[bool],
    block: u64,
    tag: &Tag,
) -> Option<(u32, u64)>
    requires numbers { IsRead cells.now at.now }
    requires known { AreAgreed cells.now known.now }
    ensures { result ≡ owners.inode_and_slot (owners.owner_by cells.now block (Some tag.now)) }
{
    if !is_slot(tag.slot) {
        return None;
    }
    let found = find_number(cells, at, tag.inode, tag.slot);
    owner_found(cells, at, known, block, tag, found)
}

fn owner_found(
    cells: &[Cell],
    at: &SuperBlock,
    known: &[bool],
    block: u64,
    tag: &Tag,
    found: PathAnswer,
) -> Option<(u32, u64)>
    requires numbers { IsRead cells.now at.now }
    requires known { AreAgreed cells.now known.now }
    ensures { result ≡ owners.inode_and_slot (owners.owner_found cells.now block tag.now found) }
{
    match found {
        PathAnswer::Hole => None,
        PathAnswer::Lost => None,
        PathAnswer::Holds(pointer) => {
            if pointer.block == block && is_agreed(cells, at, known, tag.inode) {
                Some((tag.inode, tag.slot))
            } else {
                None
            }
        }
    }
}

/// Whether a number is a slot's: below 4,168 for content, 2^32 to 2^32 + 65 for a block of pointers.
pub fn is_slot(number: u64) -> bool
    ensures { result ≡ is_slot number }
{
    number < SLOT_LIMIT || number >= 1 << 32 && number < (1 << 32) + 66
}
