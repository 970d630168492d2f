//! Images about names: which entries and back links make an inode agreed.
//!
//! Promise: each image has as many cells as its contract says. Unless it says otherwise, an example
//! is the empty image with what its comment tells, and `S` is the first stamp of the first mount.
ghost use Rattle.std.specs.Prelude.{◌≡◌, IfOk, length};

use crate::examples::images::{SIXTEEN, empty};
use crate::examples::laying::{
    DIRECTORY, Laid, LaidTag, S, content, file, in_root, lay_entry, lay_record, lay_tag, roots, to,
};
use nofs_disk::{Cell, Pointer};
use nofs_inode::{BackLink, FileKind};
use nofs_super::SuperBlock;
use std::alloc::{AllocError, Global};

/// Inode 3 is the file `a`, by entry 0 of the root. Its second back link leads to entry 1, which is
/// empty: the link is no pair, and counts for nothing.
pub fn dead_second_link(alloc: Global) -> Result<Vec<Cell>, AllocError>
    ensures { IfOk result (λ cells. length cells.items ≡ 16) }
{
    let mut cells = empty(alloc)?;
    lay_entry(&mut cells, 6, 0, b'a', 3, S + 1);
    let a = Laid {
        links: [in_root(0), in_root(1)],
        ..file(0, S + 1)
    };
    lay_record(&mut cells, 3, a);
    Ok(cells)
}

/// Entries 0 and 1 of the root both have the name `a`, and name the files 3 and 4, which name them
/// back. Both are agreed.
pub fn one_name_twice(alloc: Global) -> Result<Vec<Cell>, AllocError>
    ensures { IfOk result (λ cells. length cells.items ≡ 16) }
{
    let mut cells = empty(alloc)?;
    lay_entry(&mut cells, 6, 0, b'a', 3, S + 1);
    lay_entry(&mut cells, 6, 1, b'a', 4, S + 2);
    lay_record(&mut cells, 3, file(0, S + 1).sized(1));
    lay_record(&mut cells, 4, file(1, S + 2).sized(2));
    Ok(cells)
}

/// Entry 0 of the root names inode 3 of generation S + 1, whose record is free. The entry is dead.
pub fn entry_of_a_free_record(alloc: Global) -> Result<Vec<Cell>, AllocError>
    ensures { IfOk result (λ cells. length cells.items ≡ 16) }
{
    let mut cells = empty(alloc)?;
    lay_entry(&mut cells, 6, 0, b'a', 3, S + 1);
    Ok(cells)
}

/// Entry 0 of the root names inode 3 of generation S + 1, whose record is of generation S + 9. The
/// back link leads to the entry, but the entry means another: it is dead, and the inode has no name.
pub fn entry_of_another_generation(alloc: Global) -> Result<Vec<Cell>, AllocError>
    ensures { IfOk result (λ cells. length cells.items ≡ 16) }
{
    let mut cells = entry_of_a_free_record(alloc)?;
    lay_record(&mut cells, 3, file(0, S + 9));
    Ok(cells)
}

/// Directories 3 and 4 name each other, each in its entry 0. Each has a back link to the other, but
/// only the younger one may be named by the older one, so that no chain leads from them to the root.
pub fn loop_of_directories(alloc: Global) -> Result<Vec<Cell>, AllocError>
    ensures { IfOk result (λ cells. length cells.items ≡ 16) }
{
    let mut cells = empty(alloc)?;
    lay_record(&mut cells, 3, directory(4, S + 2, S + 1, to(7, S + 3)));
    lay_tag(&mut cells, 7, entries(3, S + 1, S + 3));
    lay_entry(&mut cells, 7, 0, b'b', 4, S + 2);
    lay_record(&mut cells, 4, directory(3, S + 1, S + 2, to(8, S + 4)));
    lay_tag(&mut cells, 8, entries(4, S + 2, S + 4));
    lay_entry(&mut cells, 8, 0, b'a', 3, S + 1);
    Ok(cells)
}

/// A chain of 2,000 directories, inodes 3 to 2,002, in 4,096 blocks with 2,004 inodes: the root names
/// inode 3 in entry 0, and each directory the next one, whose generation is one higher. The root's
/// block is 502, that of inode `i` is 500 + `i`, and the last directory has none.
pub fn chain_of_directories(alloc: Global) -> Result<Vec<Cell>, AllocError>
    ensures { IfOk result (λ cells. length cells.items ≡ 4096) }
{
    let at = SuperBlock {
        blocks: 4_096,
        inodes: 2_004,
        ..SIXTEEN
    };
    let mut cells = roots(alloc, &at, 502)?;
    for inode in 3..2_003 {
        lay_next(&mut cells, inode);
    }
    Ok(cells)
}

// The next directory of the chain, and the entry by which the one before it names it.
fn lay_next(cells: &mut [Cell], inode: u32)
    ensures { length cells.new ≡ length cells.old }
{
    let parent = if inode <= 3 { 1 } else { inode - 1 };
    let generation = chain_generation(inode);
    lay_entry(cells, chain_block(parent), 0, b'd', inode, generation);
    if inode < 2_002 {
        let direct = to(chain_block(inode), S);
        lay_record(
            cells,
            inode,
            directory(parent, chain_generation(parent), generation, direct),
        );
        lay_tag(cells, chain_block(inode), entries(inode, generation, S));
    } else {
        lay_record(
            cells,
            inode,
            directory(parent, chain_generation(parent), generation, Pointer::NULL),
        );
    }
}

fn chain_generation(inode: u32) -> u64 {
    if inode == 1 { 1 } else { S + u64::from(inode) }
}

fn chain_block(inode: u32) -> u64 {
    if inode == 1 {
        502
    } else {
        500 + u64::from(inode)
    }
}

// A directory that this one names in its entry 0.
fn directory(parent: u32, parent_generation: u64, generation: u64, direct: Pointer) -> Laid {
    let link = BackLink {
        directory: parent,
        entry: 0,
        generation: parent_generation,
    };
    Laid {
        kind: FileKind::Directory,
        generation,
        links: [link, BackLink::EMPTY],
        direct,
        ..Laid::LABEL
    }
}

// The tag of a directory's first block.
fn entries(inode: u32, generation: u64, stamp: u64) -> LaidTag {
    LaidTag {
        kind: DIRECTORY,
        ..content(inode, generation, 0, stamp)
    }
}
