//! The content of cells, as entries of a history change it.
ghost use Rattle.std.specs.Prelude.{◌≡◌, ◌<◌, ◌≤◌, ◌+◌, ◌*◌, ◌/◌, ◌%◌, IfOk, length};
ghost use Rattle.nofs_ptrs.specs.Paths.{slot_limit};
ghost use Rattle.nofs_dirent.specs.Entries.{spelled_entry};
ghost use Rattle.nofs_history.specs.Machine as machine;
ghost use Rattle.nofs_model.specs.declared.image.value.Value.TheVariants as value;
ghost use Rattle.nofs_history.specs.Accepted.Files.{value_now, kept_files_of};

use crate::accepted::files::file::{FilesNow, ValueNow};
use nofs_disk::{clear, write_bytes_at, write_u32_at, write_u64_at};
use std::alloc::{AllocError, Global};

/// Writes the bytes of a hole.
fn write_hole(into: &mut [u8; 1024])
    ensures { into.new ≡ machine.bytes_in value.Hole }
{
    clear(into);
}

/// Writes the bytes of a value, zeros where it has none.
fn write_kept(kept: &ValueNow, into: &mut [u8; 1024])
    ensures { into.new ≡ machine.bytes_in (value_now kept.now) }
{
    match kept {
        ValueNow::Bytes(bytes) => *into = **bytes,
        ValueNow::Hole => write_hole(into),
        ValueNow::Lost => write_hole(into),
    }
}

/// Writes the 64 bytes of an entry.
#[tactic(auto, unfolding(nofs_dirent::specs::Entries::spelled_entry))]
fn spell(inode: u32, generation: u64, name: &[u8], into: &mut [u8; 64])
    requires { length name.now ≤ 48 }
    ensures { into.new ≡ spelled_entry inode generation name.now }
{
    clear(into);
    write_bytes_at(into, 16, name);
    write_u64_at(into, 8, generation);
    write_u32_at(into, 4, name.len() as u32);
    write_u32_at(into, 0, inode);
}

/// The 64 bytes of an entry.
pub(crate) fn spelled(inode: u32, generation: u64, name: &[u8]) -> [u8; 64]
    requires { length name.now ≤ 48 }
    ensures { result ≡ spelled_entry inode generation name.now }
{
    let mut bytes = [0; 64];
    spell(inode, generation, name, &mut bytes);
    bytes
}

/// The 64 bytes of a place without an entry.
pub(crate) fn cleared() -> [u8; 64]
    ensures { result ≡ machine.zero_bytes 64 }
{
    let mut bytes = [0; 64];
    clear(&mut bytes);
    bytes
}

/// Makes the bytes of a cell from a place on zeros.
#[tactic(auto, unfolding(nofs_disk::specs::Number::zeros, crate::specs::Machine::trimmed))]
pub(crate) fn trim(cell: &mut [u8; 1024], cut: usize)
    requires { cut ≤ 1024 }
    ensures { cell.new ≡ machine.trimmed cut cell.old }
{
    clear(&mut cell[cut..1024]);
}

impl FilesNow {
    // Writes the bytes of a slot, zeros where it has none.
    fn write_slot(&self, inode: u32, slot: u64, into: &mut [u8; 1024])
        ensures { into.new ≡ machine.bytes_in (machine.value_of (kept_files_of self.now) inode slot) }
    {
        match self.kept(inode, slot) {
            None => write_hole(into),
            Some(kept) => write_kept(kept, into),
        }
    }

    /// The bytes of a slot, zeros where it has none.
    pub fn bytes_in(
        &self,
        alloc: Global,
        inode: u32,
        slot: u64,
    ) -> Result<Box<[u8; 1024]>, AllocError>
        ensures { IfOk result
            (λ cell. cell.value ≡ machine.bytes_in (machine.value_of (kept_files_of self.now) inode slot)) }
    {
        let mut cell = Box::new(alloc, [0; 1024])?;
        self.write_slot(inode, slot, &mut *cell);
        Ok(cell)
    }

    /// The size of a file in bytes, 0 where there is none.
    pub fn size(&self, inode: u32) -> u64
        ensures { result ≡ machine.size_of (kept_files_of self.now) inode }
    {
        match self.file(inode) {
            None => 0,
            Some(file) => file.size,
        }
    }

    /// The content of a slot with these bytes in it: zeros past the size.
    #[tactic(auto, unfolding(crate::specs::Machine::put_content))]
    pub fn put_content(
        &self,
        alloc: Global,
        inode: u32,
        slot: u64,
        at: u32,
        bytes: &[u8],
    ) -> Result<Box<[u8; 1024]>, AllocError>
        requires slot { slot < slot_limit }
        requires range { at + length bytes.now ≤ 1024 }
        ensures { IfOk result
            (λ cell. cell.value ≡ machine.put_content (machine.value_of (kept_files_of self.now) inode slot)
            (machine.size_of (kept_files_of self.now) inode) slot at bytes.now) }
    {
        let mut cell = self.bytes_in(alloc, inode, slot)?;
        let cut = self.size(inode).saturating_sub(1024 * slot).min(1024);
        trim(&mut cell, cut as usize);
        write_bytes_at(&mut *cell, at as usize, bytes);
        Ok(cell)
    }

    /// The cell of a directory with these 64 bytes in place of an entry.
    pub fn with_entry(
        &self,
        alloc: Global,
        directory: u32,
        entry: u32,
        bytes: &[u8],
    ) -> Result<Box<[u8; 1024]>, AllocError>
        requires { length bytes.now ≡ 64 }
        ensures { IfOk result (λ cell. value.Bytes cell.value
            ≡ machine.with_entry (machine.value_of (kept_files_of self.now) directory (entry / 16)) entry bytes.now) }
    {
        let mut cell = self.bytes_in(alloc, directory, u64::from(entry / 16))?;
        write_bytes_at(&mut *cell, 64 * (entry as usize % 16), bytes);
        Ok(cell)
    }
}
