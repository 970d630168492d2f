//! The files of the machine, whole in memory, and the entries of their directories.
ghost use Rattle.std.specs.Prelude.{◌≡◌, ◌<◌, ◌/◌, IfOk, IfSome, IsNone, Some, None};
ghost use Rattle.nofs_history.specs.Machine as machine;
ghost use Rattle.nofs_model.specs.Files as files;
ghost use Rattle.nofs_model.specs.declared.image.value.Value.TheVariants as value;
ghost use Rattle.nofs_history.specs.Accepted.Files.{value_now, file_of, kept_files_of};

use nofs_dirent::{ENTRY_LIMIT, Entry, read_entry};
use nofs_inode::inode::{BackLink, FileKind};
use std::alloc::{AllocError, Global};

/// The value of a slot.
#[derive(Drop)]
pub enum ValueNow {
    Hole,
    Bytes(Box<[u8; 1024]>),
    Lost,
}

/// A file with its values, from slot 0 on. Slots behind them are holes.
#[derive(Drop)]
pub struct FileNow {
    pub generation: u64,
    pub kind: FileKind,
    pub size: u64,
    pub links: [BackLink; 4],
    pub values: Vec<ValueNow>,
}

/// The files of all inodes, from inode 1 on.
#[derive(Drop)]
pub struct FilesNow {
    pub files: Vec<Option<FileNow>>,
}

fn entry_in(alloc: Global, kept: &ValueNow, entry: u32) -> Result<Option<Entry>, AllocError>
    ensures { IfOk result (λ found. found ≡ files.entry_held (value_now kept.now) entry) }
{
    match kept {
        ValueNow::Bytes(bytes) => read_entry(alloc, bytes, entry % 16),
        ValueNow::Hole => Ok(None),
        ValueNow::Lost => Ok(None),
    }
}

impl FileNow {
    /// The entry at a place of a directory.
    pub(crate) fn entry_at(&self, alloc: Global, entry: u32) -> Result<Option<Entry>, AllocError>
        ensures { IfOk result (λ found. found ≡ files.entry_in_file (Some (file_of self.now)) entry) }
    {
        if self.kind != FileKind::Directory || entry >= ENTRY_LIMIT {
            return Ok(None);
        }
        match self.values.get(entry as usize / 16) {
            None => Ok(None),
            Some(kept) => entry_in(alloc, kept, entry),
        }
    }
}

impl FilesNow {
    /// The file of an inode.
    pub fn file(&self, inode: u32) -> Option<&FileNow>
        ensures some { IfSome result (λ file. kept_files_of self.now inode ≡ Some (file_of file.now)) }
        ensures none { IsNone result → kept_files_of self.now inode ≡ None }
    {
        if inode == 0 {
            return None;
        }
        match self.files.get(inode as usize - 1) {
            None => None,
            Some(None) => None,
            Some(Some(file)) => Some(file),
        }
    }

    /// What is kept of a slot. A slot of which nothing is kept is a hole.
    pub(crate) fn kept(&self, inode: u32, slot: u64) -> Option<&ValueNow>
        ensures some { IfSome result
            (λ kept. machine.value_of (kept_files_of self.now) inode slot ≡ value_now kept.now) }
        ensures none { IsNone result → machine.value_of (kept_files_of self.now) inode slot ≡ value.Hole }
    {
        match self.file(inode) {
            None => None,
            Some(file) => file.values.get(slot as usize),
        }
    }

    /// The entry at a place of a directory.
    pub fn entry_at(
        &self,
        alloc: Global,
        directory: u32,
        entry: u32,
    ) -> Result<Option<Entry>, AllocError>
        ensures { IfOk result (λ found. found ≡ files.entry_at (kept_files_of self.now) directory entry) }
    {
        match self.file(directory) {
            None => Ok(None),
            Some(file) => file.entry_at(alloc, entry),
        }
    }
}

/// Whether an entry names this generation of an inode.
pub(crate) fn names(found: &Option<Entry>, inode: u32, generation: u64) -> bool
    ensures { result ≡ files.names found.now inode generation }
{
    match found {
        None => false,
        Some(entry) => entry.inode == inode && entry.generation == generation,
    }
}
