//! Cells, and the tag by which each names its owner, as 32 bytes.
//!
//! Promise: a tag that was written is read, it has one spelling, and any other 32 bytes are no tag.
ghost use Rattle.std.specs.Prelude.{◌≡◌, ◌+◌, ◌*◌, ◌^◌, ◌<◌, ◌↔◌, IsTrue, IfSome, IfNone, Some};
ghost use Rattle.nofs_disk.specs.Disk.{IsSizedCell};
ghost use Rattle.nofs_disk.specs.Number.{IsBytes};
ghost use Rattle.nofs_disk.specs.Pointer.{is_null, null};
ghost use Rattle.nofs_disk.specs.Tag.{HasTagSpelling, SpellsTag, allows_parts, kind_number, kind_of, tag_bytes, tag_of};
ghost use Rattle.nofs_disk.specs.declared.tag.Tag.{Tag};

use crate::number::{read_u32_at, read_u64_at, write_u32_at, write_u64_at};

/// What a block holds.
#[derive(Clone, Copy)]
pub struct Cell {
    /// The bytes that the file system stores.
    pub payload: [u8; 1024],
    /// The bytes that name the owner, where they spell a `Tag`.
    pub tag: [u8; 32],
}

impl Cell {
    /// A cell of zeros, whose tag is that of an unused block.
    pub const ZERO: Cell = Cell {
        payload: [0; 1024],
        tag: [0; 32],
    };

    /// Says for proofs what the type says: a cell has 1,024 and 32 bytes. It does nothing.
    pub fn note_sizes(&self)
        ensures { IsSizedCell self.now }
    {
        note_bytes(&self.payload, &self.tag);
    }
}

fn note_bytes(payload: &[u8; 1024], tag: &[u8; 32])
    ensures payload { IsBytes 1024 payload.now }
    ensures tag { IsBytes 32 tag.now }
{
    let _ = payload[0];
    let _ = tag[0];
}

/// What a cell is for.
#[derive(Clone, Copy, Debug, PartialEq, Eq)]
pub enum Kind {
    /// An unused block.
    Nothing,
    /// Bytes of a file.
    Content,
    /// Entries of a directory.
    Directory,
    /// Pointers of an inode to further blocks.
    Leaf,
    /// Inode records.
    Table,
    /// The superblock.
    Super,
}

/// The owner that a cell names.
#[derive(Clone, Copy, Debug, PartialEq, Eq)]
pub struct Tag {
    pub kind: Kind,
    /// The inode that owns the block, from 1 on; 0 where none does.
    pub inode: u32,
    /// The generation of that inode.
    pub generation: u64,
    /// The slot of that inode in which the block is.
    pub slot: u64,
    /// The stamp of the claim that put the block there.
    pub stamp: u64,
}

/// A place that names a block, with the stamp that the block's tag has to carry.
#[derive(Clone, Copy, Debug, PartialEq, Eq)]
pub struct Pointer {
    /// The number of the block, from 0 on.
    pub block: u64,
    /// The stamp of the claim that put the block there.
    pub stamp: u64,
}

impl Pointer {
    /// The pointer that names no block: block 0 with stamp 0.
    pub const NULL: Pointer = Pointer { block: 0, stamp: 0 };

    /// Whether it names no block.
    pub fn is_null(&self) -> bool
        ensures value { result ≡ is_null self.now }
        ensures fact { IsTrue result ↔ (self.now ≡ null) }
    {
        self.block == 0 && self.stamp == 0
    }
}

/// The stamp of a claim: the number of its mount in the upper 24 bits, and its number in that
/// mount in the lower 40.
pub fn stamp_of(mount: u64, serial: u64) -> u64
    requires mount { mount < 2 ^ 24 }
    requires serial { serial < 2 ^ 40 }
    ensures { result ≡ mount * 2 ^ 40 + serial }
{
    (mount << 40) + serial
}

fn number_of_kind(kind: Kind) -> u32
    ensures { result ≡ kind_number kind }
{
    match kind {
        Kind::Nothing => 0,
        Kind::Content => 1,
        Kind::Directory => 2,
        Kind::Leaf => 3,
        Kind::Table => 4,
        Kind::Super => 5,
    }
}

fn kind_with_number(number: u32) -> Option<Kind>
    ensures some { IfSome result (λ kind. number ≡ kind_number kind) }
    ensures none { IfNone result (5 < number) }
    ensures value { result ≡ kind_of number }
{
    match number {
        0 => Some(Kind::Nothing),
        1 => Some(Kind::Content),
        2 => Some(Kind::Directory),
        3 => Some(Kind::Leaf),
        4 => Some(Kind::Table),
        5 => Some(Kind::Super),
        _ => None,
    }
}

/// The tag that 32 bytes spell; `None` exactly where they spell no tag. No other bytes spell it.
#[tactic(auto, unfolding(crate::specs::Tag::tag_of))]
pub fn read_tag(bytes: &[u8; 32]) -> Option<Tag>
    ensures some { IfSome result (SpellsTag bytes.now) }
    ensures none { IfNone result ((t : Tag) → SpellsTag bytes.now t → ⊥) }
    ensures value { result ≡ tag_of bytes.now }
    ensures one_spelling { IfSome result (λ tag. bytes.now ≡ tag_bytes tag) }
{
    let kind = kind_with_number(read_u32_at(bytes, 0))?;
    let tag = Tag {
        kind,
        inode: read_u32_at(bytes, 4),
        generation: read_u64_at(bytes, 8),
        slot: read_u64_at(bytes, 16),
        stamp: read_u64_at(bytes, 24),
    };
    if has_spelling(&tag) { Some(tag) } else { None }
}

fn has_spelling(tag: &Tag) -> bool
    ensures fact { IsTrue result ↔ HasTagSpelling tag.now }
    ensures value { result ≡ allows_parts tag.now.kind tag.now }
{
    match tag.kind {
        Kind::Nothing => tag.inode == 0 && tag.generation == 0 && tag.slot == 0 && tag.stamp == 0,
        _ => true,
    }
}

/// Writes the bytes that spell a tag. One of kind `Nothing` has a spelling only where its other
/// parts are zeros.
pub fn write_tag(tag: &Tag, into: &mut [u8; 32])
    requires { HasTagSpelling tag.now }
    ensures spells { SpellsTag into.new tag.now }
    ensures bytes { into.new ≡ tag_bytes tag.now }
    ensures read { tag_of into.new ≡ Some tag.now }
{
    write_u32_at(into, 0, number_of_kind(tag.kind));
    write_u32_at(into, 4, tag.inode);
    write_u64_at(into, 8, tag.generation);
    write_u64_at(into, 16, tag.slot);
    write_u64_at(into, 24, tag.stamp);
}
