//! The value that an accepted step gives to one slot.
ghost use Rattle.std.specs.Prelude.{◌≡◌, ◌<◌, ◌+◌, ◌&&◌, ◌==◌, IfOk, Some, None, if◌then◌else◌};
ghost use Rattle.nofs_ptrs.specs.Paths.{slot_limit};
ghost use Rattle.nofs_model.specs.declared.image.value.Value.TheVariants as value;
ghost use Rattle.nofs_history.specs.Machine as machine;
ghost use Rattle.nofs_history.specs.Meta as meta;
ghost use Rattle.nofs_history.specs.Accepted.Files.{kept_files_of};
ghost use Rattle.nofs_history.specs.Accepted.Given.{cell_of, given_of, value_for, with_birth};

use crate::accepted::files::cells::trim;
use crate::accepted::files::file::FilesNow;
use crate::accepted::files::resizing::slots_in;
use crate::accepted::given::given::{Birth, GivenCell, GivenNow};
use nofs_dirent::Content;
use nofs_model::Value;
use std::alloc::{AllocError, Global};

/// A slot of one generation of an inode.
#[derive(Clone, Copy)]
pub struct Wanted {
    pub inode: u32,
    pub generation: u64,
    pub slot: u64,
}

impl Wanted {
    fn is_in(&self, inode: u32, generation: u64) -> bool
        ensures { result ≡ machine.is_at inode generation self.now.inode self.now.generation }
    {
        inode == self.inode && generation == self.generation
    }

    fn is(&self, inode: u32, generation: u64, slot: u64) -> bool
        ensures { result ≡ (machine.is_at inode generation self.now.inode self.now.generation
            && (slot == self.now.slot)) }
    {
        self.is_in(inode, generation) && slot == self.slot
    }
}

fn bytes_value(alloc: Global, cell: &[u8; 1024]) -> Result<Value, AllocError>
    ensures { IfOk result (λ it. it ≡ value.Bytes cell.now) }
{
    Ok(Value::Bytes(Content::from_slice(alloc, cell)?))
}

impl GivenCell {
    /// The value that goes to a slot.
    fn value_for(&self, alloc: Global, wanted: &Wanted) -> Result<Option<Value>, AllocError>
        ensures { IfOk result (λ it. it ≡ value_for (cell_of self.now machine.no_meta) wanted.now) }
    {
        if !wanted.is(self.inode, self.generation, self.slot) {
            return Ok(None);
        }
        Ok(Some(bytes_value(alloc, &self.cell)?))
    }

    /// The value that goes to a slot where a file is new beside this cell: a hole to each of its slots.
    fn value_beside(
        &self,
        alloc: Global,
        wanted: &Wanted,
        birth: &Birth,
    ) -> Result<Option<Value>, AllocError>
        ensures { IfOk result
            (λ it. it ≡ value_for (with_birth (cell_of self.now machine.no_meta) birth.now) wanted.now) }
    {
        if wanted.is_in(birth.inode, birth.generation) {
            return Ok(Some(Value::Hole));
        }
        self.value_for(alloc, wanted)
    }
}

// The last slot of a file with zeros behind its old end, where it has bytes.
fn end_given(
    alloc: Global,
    files: &FilesNow,
    inode: u32,
    slot: u64,
    cut: u64,
) -> Result<Option<Value>, AllocError>
    requires { cut < 1024 }
    ensures { IfOk result (λ it. it ≡ (if meta.is_bytes (machine.value_of (kept_files_of files.now) inode slot)
        then Some (value.Bytes
        (machine.trimmed cut (machine.bytes_in (machine.value_of (kept_files_of files.now) inode slot)))) else None)) }
{
    if !files.has_bytes(inode, slot) {
        return Ok(None);
    }
    let mut cell = files.bytes_in(alloc, inode, slot)?;
    trim(&mut cell, cut as usize);
    Ok(Some(bytes_value(alloc, &cell)?))
}

fn size_given(
    alloc: Global,
    files: &FilesNow,
    inode: u32,
    size: u64,
    slot: u64,
) -> Result<Option<Value>, AllocError>
    requires { slot < slot_limit }
    ensures { IfOk result (λ it. it ≡ machine.resize_slot (kept_files_of files.now) inode size slot) }
{
    let old = files.size(inode);
    let slots = slots_in(old).min(slots_in(size));
    if slots <= slot {
        return Ok(Some(Value::Hole));
    }
    if old <= size && slot + 1 == slots && old % 1024 != 0 {
        return end_given(alloc, files, inode, slot, old % 1024);
    }
    Ok(None)
}

// What a change of size gives.
fn resize_given(
    alloc: Global,
    files: &FilesNow,
    wanted: &Wanted,
    inode: u32,
    generation: u64,
    size: u64,
) -> Result<Option<Value>, AllocError>
    requires { wanted.now.slot < slot_limit }
    ensures { IfOk result
        (λ it. it ≡ value_for (machine.resize_given (kept_files_of files.now) inode generation size) wanted.now) }
{
    if !wanted.is_in(inode, generation) {
        return Ok(None);
    }
    size_given(alloc, files, inode, size, wanted.slot)
}

impl GivenNow {
    /// The value that goes to a slot.
    pub(crate) fn value_for(
        &self,
        alloc: Global,
        files: &FilesNow,
        wanted: &Wanted,
    ) -> Result<Option<Value>, AllocError>
        requires { wanted.now.slot < slot_limit }
        ensures { IfOk result (λ it. it ≡ value_for (given_of (kept_files_of files.now) self.now) wanted.now) }
    {
        match self {
            GivenNow::Nothing => Ok(None),
            GivenNow::Size {
                inode,
                generation,
                size,
            } => resize_given(alloc, files, wanted, *inode, *generation, *size),
            GivenNow::Cell { cell, .. } => cell.value_for(alloc, wanted),
            GivenNow::Make { cell, birth } => cell.value_beside(alloc, wanted, birth),
        }
    }
}
