//! Whether an image can be mounted.
ghost use Rattle.std.specs.Prelude.{◌≡◌, ◌↔◌, ◌<◌, ◌==◌, IsTrue, is_none, not, position};
ghost use Rattle.nofs_super.specs.Geometry.{IsGeometry};
ghost use Rattle.nofs_model.specs.Geometry as image;
ghost use Rattle.nofs_super.specs.Super.{has_magic, is_super, is_version, rest_fault};

use crate::image::cell_at;
use nofs_disk::{Cell, read_u32_at};
use nofs_super::{MAGIC, numbers_in};

/// Whether cells are an image that can be mounted: block 0 spells a superblock of version 1 or 2
/// whose numbers format would accept on a device of so many blocks.
#[tactic(auto, unfolding(crate::specs::Geometry::super_at))]
pub fn is_mountable(cells: &[Cell]) -> bool
    ensures { IsTrue result ↔ image.IsMountable cells.now }
{
    if cells.is_empty() {
        return false;
    }
    let payload = &cell_at(cells, 0).payload;
    let at = numbers_in(payload);
    is_super(payload) && is_geometry(cells.len() as u64, at.blocks, at.inodes)
}

fn is_geometry(device: u64, blocks: u64, inodes: u64) -> bool
    ensures { IsTrue result ↔ IsGeometry device blocks inodes }
{
    inodes % 4 == 0
        && inodes >= 4
        && inodes <= 65_536
        && blocks >= 16
        && blocks >= 2 + inodes / 4
        && blocks <= 1_048_576
        && blocks <= device
}

// Whether a payload spells a superblock.
#[tactic(auto, unfolding(nofs_super::specs::Super::is_super, nofs_super::specs::Super::super_in))]
fn is_super(payload: &[u8; 1024]) -> bool
    ensures { result ≡ is_super payload.now }
{
    has_magic(payload) && has_version(read_u32_at(payload, 8)) && has_zeros(payload)
}

fn has_magic(payload: &[u8; 1024]) -> bool
    ensures { result ≡ has_magic payload.now }
{
    payload[..8] == MAGIC[..]
}

fn has_version(version: u32) -> bool
    ensures { result ≡ is_version version }
{
    version == 1 || version == 2
}

// Whether each byte that has no other meaning is zero.
fn has_zeros(payload: &[u8; 1024]) -> bool
    ensures { result ≡ is_none (rest_fault payload.now) }
{
    match first_not_zero(&payload[12..16]) {
        Some(_) => false,
        None => first_not_zero(&payload[40..1024]).is_none(),
    }
}

fn first_not_zero(bytes: &[u8]) -> Option<usize>
    ensures { result ≡ position (λ byte. not (byte == 0)) bytes.now }
{
    bytes.iter().position(|byte| *byte != 0)
}
