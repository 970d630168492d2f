//! The files of a base image, read whole into memory.
//!
//! Promise: they are the files of its agreed inodes, and of no other.
ghost use Rattle.std.specs.Prelude.{◌≡◌, ◌<◌, ◌≤◌, ℕ, IfOk, IsTrue, Some, length};
ghost use Rattle.nofs_disk.specs.Disk.{cell_at};
ghost use Rattle.nofs_ptrs.specs.Paths.{slot_limit};
ghost use Rattle.nofs_history.specs.Since.{agreed_files};
ghost use Rattle.nofs_model.specs.Files.{file_from};
ghost use Rattle.nofs_model.specs.Geometry as image;
ghost use Rattle.nofs_model.specs.Slots as slots;
ghost use Rattle.nofs_model.specs.declared.image.value.Value.TheVariants as value;
ghost use Rattle.nofs_history.specs.Accepted.BaseFiles.{AreFiles, AreValues};
ghost use Rattle.nofs_history.specs.Accepted.Files.{file_at, file_of, kept_files_of, value_now, kept_file, kept_files};

use crate::accepted::files::file::{FileNow, FilesNow, ValueNow};
use nofs_disk::{Cell, read_u64_at};
use nofs_inode::inode::FileKind;
use nofs_inode::{Record, record_at};
use nofs_model::{Value, agreed, value_of};
use nofs_ptrs::SLOT_LIMIT;
use std::alloc::{AllocError, Global};

/// The files of the agreed inodes of a base, which can be mounted. The error is want of memory
/// alone.
pub(crate) fn files_at(alloc: Global, base: &[Cell]) -> Result<FilesNow, AllocError>
    requires { image.IsMountable base.now }
    ensures { IfOk result (λ files. kept_files (kept_files_of files) ≡ kept_files (agreed_files base.now)) }
{
    note_sizes(base);
    let files = read_files(alloc, base, inodes_of(base))?;
    Ok(FilesNow { files })
}

// Says for proofs that each cell of a base has the bytes that its type says.
pub(crate) fn note_sizes(base: &[Cell])
    ensures { image.IsSized base.now }
{
    for cell in base {
        cell.note_sizes();
    }
}

// How many inodes a base has.
#[tactic(auto, unfolding(nofs_model::specs::Geometry::super_at, nofs_super::specs::Super::super_in))]
pub(crate) fn inodes_of(base: &[Cell]) -> u64
    requires { image.IsMountable base.now }
    ensures { result ≡ image.inodes_of base.now }
{
    read_u64_at(&cell_at(base, 0).payload, 24)
}

fn cell_at(base: &[Cell], block: u64) -> &Cell
    requires { block < length base.now }
    ensures { result.now ≡ cell_at base.now block }
{
    &base[block as usize]
}

// The agreed files among the first inodes.
fn read_files(alloc: Global, base: &[Cell], inodes: u64) -> Result<Vec<Option<FileNow>>, AllocError>
    requires image { image.IsMountable base.now }
    requires sized { image.IsSized base.now }
    requires inodes { inodes ≡ image.inodes_of base.now }
    ensures { IfOk result (λ files. AreFiles base.now inodes files.items) }
{
    let mut files = Vec::new(alloc);
    for place in 0..inodes {
        files.push(read_file(alloc, base, place as u32 + 1)?)?;
    }
    Ok(files)
}

// The file of an inode, where it is agreed.
fn read_file(alloc: Global, base: &[Cell], inode: u32) -> Result<Option<FileNow>, AllocError>
    requires image { image.IsMountable base.now }
    requires sized { image.IsSized base.now }
    requires inode { IsTrue (image.is_inode base.now inode) }
    ensures { IfOk result (λ file. kept_file (file_at (Some file)) ≡ kept_files (agreed_files base.now) inode) }
{
    if !agreed(base, inode) {
        return Ok(None);
    }
    let it = read_inode(base, inode);
    match it.kind {
        None => Ok(None),
        Some(kind) => Ok(Some(live_file(alloc, base, inode, kind, &it)?)),
    }
}

// The record of an inode: free where its bytes spell none.
#[tactic(auto, unfolding(nofs_model::specs::Geometry::inode))]
pub(crate) fn read_inode(base: &[Cell], inode: u32) -> Record
    requires image { image.IsMountable base.now }
    requires inode { IsTrue (image.is_inode base.now inode) }
    ensures { result ≡ image.inode base.now inode }
{
    let place = u64::from(inode) - 1;
    let block = cell_at(base, 1 + place / 4);
    record_at(&block.payload, (place % 4) as u32)
}

// The file of a live inode, with its record.
fn live_file(
    alloc: Global,
    base: &[Cell],
    inode: u32,
    kind: FileKind,
    it: &Record,
) -> Result<FileNow, AllocError>
    requires image { image.IsMountable base.now }
    requires sized { image.IsSized base.now }
    requires record { it.now ≡ image.inode base.now inode }
    ensures { IfOk result (λ file. kept_file (Some (file_of file)) ≡ kept_file (file_from base.now inode (Some kind))) }
{
    Ok(FileNow {
        generation: it.generation,
        kind,
        size: it.size,
        links: it.links,
        values: read_values(alloc, base, inode, slot_count(it))?,
    })
}

// How many slots to read: those behind them are holes, since no block of pointers leads to them.
// A directory has no top.
fn slot_count(it: &Record) -> u64
    ensures within { result ≤ slot_limit }
    ensures holes { (X : image.Image) (i k : ℕ)
        → image.inode X i ≡ it.now → result ≤ k → k < slot_limit → slots.value X i k ≡ value.Hole }
{
    if !it.top.is_null() {
        SLOT_LIMIT
    } else if !it.leaf.is_null() {
        72
    } else {
        8
    }
}

// The values of the first slots of an inode.
fn read_values(
    alloc: Global,
    base: &[Cell],
    inode: u32,
    count: u64,
) -> Result<Vec<ValueNow>, AllocError>
    requires image { image.IsMountable base.now }
    requires sized { image.IsSized base.now }
    requires count { count ≤ slot_limit }
    ensures { IfOk result (λ values. AreValues base.now inode count values.items) }
{
    let mut values = Vec::new(alloc);
    for slot in 0..count {
        values.push(read_value(alloc, base, inode, slot)?)?;
    }
    Ok(values)
}

// The value of a slot.
fn read_value(alloc: Global, base: &[Cell], inode: u32, slot: u64) -> Result<ValueNow, AllocError>
    requires image { image.IsMountable base.now }
    requires sized { image.IsSized base.now }
    requires slot { slot < slot_limit }
    ensures { IfOk result (λ kept. value_now kept ≡ slots.value base.now inode slot) }
{
    match value_of(alloc, base, inode, slot)? {
        Value::Hole => Ok(ValueNow::Hole),
        Value::Lost => Ok(ValueNow::Lost),
        Value::Bytes(content) => Ok(ValueNow::Bytes(boxed(alloc, content.as_slice())?)),
    }
}

// The bytes of a block, boxed.
fn boxed(alloc: Global, bytes: &[u8]) -> Result<Box<[u8; 1024]>, AllocError>
    requires { length bytes.now ≡ 1024 }
    ensures { IfOk result (λ block. block.value ≡ bytes.now) }
{
    let mut block = Box::new(alloc, [0; 1024])?;
    block.copy_from_slice(bytes);
    Ok(block)
}
