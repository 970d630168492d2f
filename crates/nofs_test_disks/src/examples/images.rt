//! Images about slots: which block a slot holds, and which blocks no slot has.
//!
//! Promise: each image has as many cells as its contract says. Unless it says otherwise, an example
//! is the empty image with what its comment tells, and `S` is the first stamp of the first mount.
ghost use Rattle.std.specs.Prelude.{◌≡◌, ◌<◌, ◌^◌, IfOk, length};

use crate::examples::laying;
use crate::examples::laying::{
    Laid, LaidTag, S, content, file, lay_bytes, lay_entry, lay_pointer, lay_record, lay_super,
    lay_tag, roots, to,
};
use nofs_disk::Cell;
use nofs_super::SuperBlock;
use std::alloc::{AllocError, Global};

/// The number of the leaf's slot.
const LEAF: u64 = 4_294_967_296;

/// The number of the top's slot.
const TOP: u64 = 4_294_967_297;

/// The number of the slot of child 0. The other children follow.
const CHILD: u64 = 4_294_967_298;

/// What the superblock of most examples says.
pub(crate) const SIXTEEN: SuperBlock = SuperBlock {
    version: 1,
    blocks: 16,
    inodes: 4,
    mount: 1,
};

/// Sixteen blocks and four inodes, written by the first mount. The root has one block, block 6,
/// with no entry. The label file is empty, and inodes 3 and 4 are free.
pub fn empty(alloc: Global) -> Result<Vec<Cell>, AllocError>
    ensures { IfOk result (λ cells. length cells.items ≡ 16) }
{
    roots(alloc, &SIXTEEN, 6)
}

/// The label file's slot 0 points to block 5 with stamp S + 9. The block's tag names just this slot,
/// but with stamp S: it was given to the slot before, and the later content never reached the
/// device. The slot is lost, and the old content isn't taken for the new.
pub fn stamp_that_differs(alloc: Global) -> Result<Vec<Cell>, AllocError>
    ensures { IfOk result (λ cells. length cells.items ≡ 16) }
{
    let label = Laid::LABEL.sized(3).with_direct(to(5, S + 9));
    let mut cells = with_label(alloc, &SIXTEEN, label)?;
    lay_tag(&mut cells, 5, content(2, 2, 0, S));
    lay_bytes(&mut cells, 5, b"old");
    Ok(cells)
}

/// Inode 3 is the file `a`, and its slot 0 points to block 7, but the tag of block 7 names inode 4.
/// The slot is lost: a block belongs to the one that its tag names. Inode 4 is free, so that nobody
/// owns the block.
pub fn two_owners(alloc: Global) -> Result<Vec<Cell>, AllocError>
    ensures { IfOk result (λ cells. length cells.items ≡ 16) }
{
    with_file(alloc, &SIXTEEN, 3, b'a', S + 1, content(4, S + 3, 0, S + 4))
}

/// The other one's record reached the device: inode 4 is the file `b`, whose slot 0 points to block
/// 7, and the tag of block 7 names inode 3, which is free. Again the slot is lost and nobody owns
/// the block.
pub fn two_owners_the_other_way(alloc: Global) -> Result<Vec<Cell>, AllocError>
    ensures { IfOk result (λ cells. length cells.items ≡ 16) }
{
    with_file(alloc, &SIXTEEN, 4, b'b', S + 3, content(3, S + 1, 0, S + 2))
}

/// The second mount made inode 3 again, as the file `a` of generation 2S, and pointed its slot 0 to
/// block 7. The tag of block 7 is still that of inode 3 of generation S + 1. The slot is lost: the
/// new file doesn't get the bytes of the old one.
pub fn inode_made_again(alloc: Global) -> Result<Vec<Cell>, AllocError>
    ensures { IfOk result (λ cells. length cells.items ≡ 16) }
{
    let at = SuperBlock {
        mount: 2,
        ..SIXTEEN
    };
    with_file(alloc, &at, 3, b'a', 2 * S, content(3, S + 1, 0, S + 2))
}

// Entry 0 of the root names a file of one byte, whose slot 0 points to block 7 with the stamp behind
// the file's generation. The block has this tag.
fn with_file(
    alloc: Global,
    at: &SuperBlock,
    inode: u32,
    name: u8,
    generation: u64,
    tag: LaidTag,
) -> Result<Vec<Cell>, AllocError>
    requires { generation < 2 ^ 63 }
    ensures { IfOk result (λ cells. length cells.items ≡ at.now.blocks) }
{
    let mut cells = roots(alloc, at, 6)?;
    lay_entry(&mut cells, 6, 0, name, inode, generation);
    let it = file(0, generation).sized(1);
    lay_record(&mut cells, inode, it.with_direct(to(7, generation + 1)));
    lay_tag(&mut cells, 7, tag);
    Ok(cells)
}

/// The label file has 8,192 bytes, and a leaf in block 9 whose slot 8 is block 10. A crash left them
/// past the end of the file. The slot still holds, so that the label file owns both blocks, and no
/// read shows what stands there.
pub fn residue_past_the_size(alloc: Global) -> Result<Vec<Cell>, AllocError>
    ensures { IfOk result (λ cells. length cells.items ≡ 16) }
{
    let label = Laid::LABEL.sized(8_192).with_leaf(to(9, S + 1));
    let mut cells = with_label(alloc, &SIXTEEN, label)?;
    lay_tag(&mut cells, 9, pointers(LEAF, S + 1));
    lay_pointer(&mut cells, 9, 0, to(10, S + 2));
    lay_tag(&mut cells, 10, content(2, 2, 8, S + 2));
    lay_bytes(&mut cells, 10, b"junk");
    Ok(cells)
}

/// The label file of a version 2 image has a top in block 9. Child 0 is block 10 and holds; its
/// slots 72 and 73 both point to block 12, whose tag names slot 72, so that slot 73 is lost. Child 1
/// points to block 11 with another stamp than its tag has, so that it is lost with all its slots.
pub fn blocks_under_the_top(alloc: Global) -> Result<Vec<Cell>, AllocError>
    ensures { IfOk result (λ cells. length cells.items ≡ 16) }
{
    let at = SuperBlock {
        version: 2,
        ..SIXTEEN
    };
    let label = Laid::LABEL.sized(205_824).with_top(to(9, S + 1));
    let mut cells = with_label(alloc, &at, label)?;
    lay_tag(&mut cells, 9, pointers(TOP, S + 1));
    lay_pointer(&mut cells, 9, 0, to(10, S + 2));
    lay_pointer(&mut cells, 9, 1, to(11, S + 3));
    lay_tag(&mut cells, 10, pointers(CHILD, S + 2));
    lay_pointer(&mut cells, 10, 0, to(12, S + 4));
    lay_pointer(&mut cells, 10, 1, to(12, S + 4));
    lay_tag(&mut cells, 11, pointers(CHILD + 1, S));
    lay_tag(&mut cells, 12, content(2, 2, 72, S + 4));
    lay_bytes(&mut cells, 12, b"far");
    Ok(cells)
}

// The label file has this record.
fn with_label(alloc: Global, at: &SuperBlock, label: Laid) -> Result<Vec<Cell>, AllocError>
    ensures { IfOk result (λ cells. length cells.items ≡ at.now.blocks) }
{
    let mut cells = roots(alloc, at, 6)?;
    lay_record(&mut cells, 2, label);
    Ok(cells)
}

// The tag of a block of the label file's pointers.
fn pointers(slot: u64, stamp: u64) -> LaidTag {
    LaidTag {
        kind: laying::LEAF,
        ..content(2, 2, slot, stamp)
    }
}

/// Every byte is ff but those of the superblock, which has 64 blocks and 16 inodes. No bytes spell a
/// record or a tag, so that each inode is free and each block behind the inode table too.
pub fn bytes_ff(alloc: Global) -> Result<Vec<Cell>, AllocError>
    ensures { IfOk result (λ cells. length cells.items ≡ 64) }
{
    let ones = Cell {
        payload: [255; 1024],
        tag: [255; 32],
    };
    let mut cells = vec![in alloc; ones; 64]?;
    let at = SuperBlock {
        blocks: 64,
        inodes: 16,
        ..SIXTEEN
    };
    lay_super(&mut cells, &at);
    Ok(cells)
}
