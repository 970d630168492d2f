//! Which inodes and blocks of an image are used.
ghost use Rattle.std.specs.Prelude.{◌≡◌, ◌+◌, ◌<◌, IfOk, ℕ, length};
ghost use Rattle.nofs_bits.specs.Bits.{is_set};
ghost use Rattle.nofs_model.specs.Geometry.{IsMountable};
ghost use Rattle.nofs_model.specs.Owners as owners;
ghost use Rattle.nofs_model.specs.Places.{AreAgreed, IsRead};

use crate::image::numbers_of;
use crate::names::is_agreed;
use crate::owner::find_owner;
use nofs_bits::Bits;
use nofs_disk::Cell;
use nofs_super::SuperBlock;
use std::alloc::{AllocError, Global};

/// What a scan of an image finds.
#[derive(Drop)]
pub struct ScanResult {
    /// The inodes that are used. Bit `i - 1` is inode `i`.
    pub inodes: Bits,
    /// The blocks that are used.
    pub blocks: Bits,
}

// An image that is scanned: its cells, its numbers, and which of its inodes are agreed.
#[derive(Clone, Copy)]
struct Scanned<'a> {
    cells: &'a [Cell],
    at: &'a SuperBlock,
    known: &'a [bool],
}

/// Which inodes and blocks are used, by the definitions: an inode that is agreed, or is 1 or 2; a
/// block that has an owner, or lies before the data area. It asks a mountable image. The error is
/// want of memory alone.
pub fn full_scan(alloc: Global, cells: &[Cell]) -> Result<ScanResult, AllocError>
    requires { IsMountable cells.now }
    ensures { IfOk result (λ scan. owners.IsScan cells.now scan.inodes scan.blocks) }
{
    let at = numbers_of(cells);
    let known = agreed_inodes(alloc, cells, &at)?;
    let of = Scanned {
        cells,
        at: &at,
        known: known.as_slice(),
    };
    let inodes = used_inodes(alloc, &of)?;
    let blocks = used_blocks(alloc, &of)?;
    Ok(ScanResult { inodes, blocks })
}

// Which inodes are agreed, in order. What is known of those before makes the way up short.
fn agreed_inodes(alloc: Global, cells: &[Cell], at: &SuperBlock) -> Result<Vec<bool>, AllocError>
    requires { IsRead cells.now at.now }
    ensures { IfOk result (λ known. AreAgreed cells.now known.items) }
{
    let mut known = Vec::new(alloc);
    for place in 0..at.inodes {
        let found = is_agreed(cells, at, known.as_slice(), place as u32 + 1);
        known.push(found)?;
    }
    Ok(known)
}

fn used_inodes(alloc: Global, of: &Scanned<'_>) -> Result<Bits, AllocError>
    requires numbers { IsRead of.now.cells.now of.now.at.now }
    requires known { AreAgreed of.now.cells.now of.now.known.now }
    ensures { IfOk result (λ bits. (length bits ≡ of.now.at.now.inodes)
        × ((k : ℕ) → k < of.now.at.now.inodes → is_set bits k ≡ owners.is_used_inode of.now.cells.now (k + 1))) }
{
    let mut bits = Bits::new(alloc, of.at.inodes)?;
    for place in 0..of.at.inodes {
        bits.set(place, is_used_inode(of, place as u32 + 1));
    }
    Ok(bits)
}

fn used_blocks(alloc: Global, of: &Scanned<'_>) -> Result<Bits, AllocError>
    requires numbers { IsRead of.now.cells.now of.now.at.now }
    requires known { AreAgreed of.now.cells.now of.now.known.now }
    ensures { IfOk result (λ bits. (length bits ≡ of.now.at.now.blocks)
        × ((p : ℕ) → p < of.now.at.now.blocks → is_set bits p ≡ owners.is_used_block of.now.cells.now p)) }
{
    let mut bits = Bits::new(alloc, of.at.blocks)?;
    for block in 0..of.at.blocks {
        bits.set(block, is_used_block(of, block));
    }
    Ok(bits)
}

fn is_used_inode(of: &Scanned<'_>, inode: u32) -> bool
    requires numbers { IsRead of.now.cells.now of.now.at.now }
    requires known { AreAgreed of.now.cells.now of.now.known.now }
    ensures { result ≡ owners.is_used_inode of.now.cells.now inode }
{
    inode == 1 || inode == 2 || is_agreed(of.cells, of.at, of.known, inode)
}

fn is_used_block(of: &Scanned<'_>, block: u64) -> bool
    requires numbers { IsRead of.now.cells.now of.now.at.now }
    requires known { AreAgreed of.now.cells.now of.now.known.now }
    ensures { result ≡ owners.is_used_block of.now.cells.now block }
{
    block <= of.at.inodes / 4 || find_owner(of.cells, of.at, of.known, block).is_some()
}
