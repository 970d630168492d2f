//! Lays the superblock, records, tags, pointers and entries into the cells of an image.
//!
//! Records, tags and entries are put number by number where `docs/FORMAT.md` has them, and not by
//! their writers, so that their readers meet bytes from outside. The superblock and pointers are
//! written by their own crates. What lies outside an image is not laid.
//!
//! Promise: no call changes the number of cells.
ghost use Rattle.std.specs.Prelude.{◌≡◌, ◌<◌, ◌≤◌, IfOk, length};

use nofs_disk::{Cell, Pointer, write_bytes_at, write_pointer_at, write_u32_at, write_u64_at};
use nofs_inode::{BackLink, FileKind};
use nofs_super::{SuperBlock, write_super};
use std::alloc::{AllocError, Global};

/// The first stamp of the first mount.
pub(crate) const S: u64 = 1_099_511_627_776;

/// The kinds of tags that examples have.
const CONTENT: u32 = 1;

pub(crate) const DIRECTORY: u32 = 2;

pub(crate) const LEAF: u32 = 3;

/// What a tag says, its kind by the number.
#[derive(Clone, Copy)]
pub(crate) struct LaidTag {
    pub kind: u32,
    pub inode: u32,
    pub generation: u64,
    pub slot: u64,
    pub stamp: u64,
}

/// What a live record says, as far as an example needs it: two back links, and the pointers of slot
/// 0, the leaf and the top.
#[derive(Clone, Copy)]
pub(crate) struct Laid {
    pub kind: FileKind,
    pub generation: u64,
    pub size: u64,
    pub links: [BackLink; 2],
    pub direct: Pointer,
    pub leaf: Pointer,
    pub top: Pointer,
}

impl Laid {
    /// The label file as a format leaves it.
    pub const LABEL: Laid = Laid {
        kind: FileKind::File,
        generation: 2,
        size: 0,
        links: [BackLink::EMPTY; 2],
        direct: Pointer::NULL,
        leaf: Pointer::NULL,
        top: Pointer::NULL,
    };

    /// The same with this size.
    pub fn sized(self, size: u64) -> Laid {
        Laid { size, ..self }
    }

    /// The same with this pointer of slot 0.
    pub fn with_direct(self, direct: Pointer) -> Laid {
        Laid { direct, ..self }
    }

    /// The same with this leaf.
    pub fn with_leaf(self, leaf: Pointer) -> Laid {
        Laid { leaf, ..self }
    }

    /// The same with this top.
    pub fn with_top(self, top: Pointer) -> Laid {
        Laid { top, ..self }
    }
}

/// A pointer to a block with this stamp.
pub(crate) fn to(block: u64, stamp: u64) -> Pointer {
    Pointer { block, stamp }
}

/// The back link to an entry of the root.
pub(crate) fn in_root(entry: u32) -> BackLink {
    BackLink {
        directory: 1,
        entry,
        generation: 1,
    }
}

/// A file whose one name is this entry of the root.
pub(crate) fn file(entry: u32, generation: u64) -> Laid {
    Laid {
        generation,
        links: [in_root(entry), BackLink::EMPTY],
        ..Laid::LABEL
    }
}

/// The tag of a block of content.
pub(crate) fn content(inode: u32, generation: u64, slot: u64, stamp: u64) -> LaidTag {
    LaidTag {
        kind: CONTENT,
        inode,
        generation,
        slot,
        stamp,
    }
}

/// An image whose root has one empty block, and whose label file is empty.
pub(crate) fn roots(alloc: Global, at: &SuperBlock, block: u64) -> Result<Vec<Cell>, AllocError>
    ensures { IfOk result (λ cells. length cells.items ≡ at.now.blocks) }
{
    let mut cells = vec![in alloc; Cell::ZERO; at.blocks as usize]?;
    lay_roots(&mut cells, at, block);
    Ok(cells)
}

fn lay_roots(cells: &mut [Cell], at: &SuperBlock, block: u64)
    ensures { length cells.new ≡ length cells.old }
{
    lay_super(cells, at);
    let root = Laid {
        kind: FileKind::Directory,
        generation: 1,
        direct: to(block, S),
        ..Laid::LABEL
    };
    lay_record(cells, 1, root);
    lay_record(cells, 2, Laid::LABEL);
    let tag = LaidTag {
        kind: DIRECTORY,
        ..content(1, 1, 0, S)
    };
    lay_tag(cells, block, tag);
}

/// The superblock, in block 0.
pub(crate) fn lay_super(cells: &mut [Cell], at: &SuperBlock)
    ensures { length cells.new ≡ length cells.old }
{
    if let Some(cell) = cells.get_mut(0) {
        write_super(at, cell);
    }
}

/// The record of an inode.
pub(crate) fn lay_record(cells: &mut [Cell], inode: u32, it: Laid)
    ensures { length cells.new ≡ length cells.old }
{
    if inode == 0 {
        return;
    }
    if let Some(cell) = cells.get_mut(1 + (inode as usize - 1) / 4) {
        fill_record(&mut cell.payload, 256 * ((inode as usize - 1) % 4), it);
    }
}

fn fill_record(payload: &mut [u8; 1024], at: usize, it: Laid)
    requires { at ≤ 768 }
{
    write_u64_at(payload, at, it.generation);
    write_u32_at(payload, at + 8, number_of_file_kind(it.kind));
    write_u32_at(payload, at + 12, count(it.links[0]) + count(it.links[1]));
    write_u64_at(payload, at + 16, it.size);
    fill_link(payload, at + 32, it.links[0]);
    fill_link(payload, at + 48, it.links[1]);
    write_pointer_at(payload, at + 96, it.direct);
    write_pointer_at(payload, at + 224, it.leaf);
    write_pointer_at(payload, at + 240, it.top);
}

fn number_of_file_kind(kind: FileKind) -> u32 {
    match kind {
        FileKind::File => 1,
        FileKind::Directory => 2,
    }
}

fn count(link: BackLink) -> u32
    ensures { result ≤ 1 }
{
    if link.directory == 0 { 0 } else { 1 }
}

fn fill_link(payload: &mut [u8; 1024], at: usize, it: BackLink)
    requires { at ≤ 1008 }
{
    write_u32_at(payload, at, it.directory);
    write_u32_at(payload, at + 4, it.entry);
    write_u64_at(payload, at + 8, it.generation);
}

/// The tag of a block.
pub(crate) fn lay_tag(cells: &mut [Cell], block: u64, it: LaidTag)
    ensures { length cells.new ≡ length cells.old }
{
    if let Some(cell) = cells.get_mut(block as usize) {
        fill_tag(&mut cell.tag, it);
    }
}

fn fill_tag(tag: &mut [u8; 32], it: LaidTag) {
    write_u32_at(tag, 0, it.kind);
    write_u32_at(tag, 4, it.inode);
    write_u64_at(tag, 8, it.generation);
    write_u64_at(tag, 16, it.slot);
    write_u64_at(tag, 24, it.stamp);
}

/// An entry of a directory's block, with a name of one letter.
pub(crate) fn lay_entry(
    cells: &mut [Cell],
    block: u64,
    place: usize,
    name: u8,
    inode: u32,
    generation: u64,
)
    requires { place < 16 }
    ensures { length cells.new ≡ length cells.old }
{
    if let Some(cell) = cells.get_mut(block as usize) {
        fill_entry(&mut cell.payload, 64 * place, name, inode, generation);
    }
}

fn fill_entry(payload: &mut [u8; 1024], at: usize, name: u8, inode: u32, generation: u64)
    requires { at ≤ 960 }
{
    write_u32_at(payload, at, inode);
    write_u32_at(payload, at + 4, 1);
    write_u64_at(payload, at + 8, generation);
    write_bytes_at(payload, at + 16, &[name]);
}

/// A pointer in a block of pointers.
pub(crate) fn lay_pointer(cells: &mut [Cell], block: u64, place: usize, it: Pointer)
    requires { place < 64 }
    ensures { length cells.new ≡ length cells.old }
{
    if let Some(cell) = cells.get_mut(block as usize) {
        write_pointer_at(&mut cell.payload, 16 * place, it);
    }
}

/// The first bytes of a block of content.
pub(crate) fn lay_bytes(cells: &mut [Cell], block: u64, bytes: &[u8])
    requires { length bytes.now ≤ 1024 }
    ensures { length cells.new ≡ length cells.old }
{
    if let Some(cell) = cells.get_mut(block as usize) {
        write_bytes_at(&mut cell.payload, 0, bytes);
    }
}
