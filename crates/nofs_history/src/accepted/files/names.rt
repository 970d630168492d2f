//! Which names of a directory lead to files, and where a new one goes.
ghost use Rattle.std.specs.Prelude.{◌≡◌, ◌<◌, ◌≤◌, ◌+◌, ◌&&◌, IfOk, IfSome, Some, None};
ghost use Rattle.std.specs.List.{list_any};
ghost use Rattle.nofs_dirent.specs.Entries.{entry_limit};
ghost use Rattle.nofs_inode.specs.declared.inode.FileKind.TheVariants as kind;
ghost use Rattle.nofs_history.specs.Machine as machine;
ghost use Rattle.nofs_history.specs.Search.{least_from};
ghost use Rattle.nofs_model.specs.Files as files;
ghost use Rattle.nofs_history.specs.Accepted.Files.{file_of, kept_files_of, leads};

use crate::accepted::files::file::{FileNow, FilesNow, names};
use nofs_dirent::ENTRY_LIMIT;
use nofs_inode::inode::{BackLink, FileKind};
use std::alloc::{AllocError, Global};

/// A name in one generation of a directory.
#[derive(Clone, Copy)]
pub struct DirectoryName<'a> {
    pub directory: u32,
    pub generation: u64,
    pub name: &'a [u8],
}

impl DirectoryName<'_> {
    /// An entry of the directory.
    pub fn at(&self, entry: u32) -> BackLink
        ensures { result ≡ machine.link_to self.now.directory entry self.now.generation }
    {
        BackLink {
            directory: self.directory,
            entry,
            generation: self.generation,
        }
    }
}

pub(crate) fn same_link(a: &BackLink, b: &BackLink) -> bool
    ensures { result ≡ machine.same_link a.now b.now }
{
    a.directory == b.directory && a.entry == b.entry && a.generation == b.generation
}

fn has_link(file: &FileNow, wanted: &BackLink) -> bool
    ensures { result ≡ list_any (λ link. machine.same_link link wanted.now) file.now.links }
{
    file.links.iter().any(|link| same_link(link, wanted))
}

impl FilesNow {
    /// Whether an inode is a directory of this generation.
    pub(crate) fn is_directory(&self, directory: u32, generation: u64) -> bool
        ensures { result ≡ files.is_a kind.Directory generation (kept_files_of self.now directory) }
    {
        match self.file(directory) {
            None => false,
            Some(file) => file.kind == FileKind::Directory && file.generation == generation,
        }
    }

    /// The generation of a file, 0 where there is none.
    pub(crate) fn generation(&self, inode: u32) -> u64
        ensures { result ≡ machine.generation_of (kept_files_of self.now) inode }
    {
        match self.file(inode) {
            None => 0,
            Some(file) => file.generation,
        }
    }

    /// Whether a back link of an inode is a pair.
    pub(crate) fn is_pair(
        &self,
        alloc: Global,
        inode: u32,
        link: &BackLink,
    ) -> Result<bool, AllocError>
        ensures { IfOk result (λ is. is ≡ files.is_pair (kept_files_of self.now) inode link.now) }
    {
        match self.file(inode) {
            None => Ok(false),
            Some(file) => self.pairs(alloc, inode, file, link),
        }
    }

    fn pairs(
        &self,
        alloc: Global,
        inode: u32,
        file: &FileNow,
        link: &BackLink,
    ) -> Result<bool, AllocError>
        ensures { IfOk result (λ is. is ≡ files.pairs (Some (file_of file.now))
            (kept_files_of self.now link.now.directory) inode link.now) }
    {
        if !self.is_directory(link.directory, link.generation) {
            return Ok(false);
        }
        let entry = self.entry_at(alloc, link.directory, link.entry)?;
        Ok(
            names(&entry, inode, file.generation)
                && (file.kind != FileKind::Directory || link.generation < file.generation),
        )
    }

    fn has_link(&self, inode: u32, link: &BackLink) -> bool
        ensures { result ≡ list_any (λ l. machine.same_link l link.now)
            (files.links_of (kept_files_of self.now) inode) }
    {
        match self.file(inode) {
            None => false,
            Some(file) => has_link(file, link),
        }
    }

    fn has_pair(&self, alloc: Global, inode: u32, link: &BackLink) -> Result<bool, AllocError>
        ensures { IfOk result (λ is. is
            ≡ (list_any (λ l. machine.same_link l link.now) (files.links_of (kept_files_of self.now) inode)
            && files.is_pair (kept_files_of self.now) inode link.now)) }
    {
        if !self.has_link(inode, link) {
            return Ok(false);
        }
        self.is_pair(alloc, inode, link)
    }

    /// Whether the inode has this back link, as a pair.
    fn is_linked(&self, alloc: Global, inode: u32, link: &BackLink) -> Result<bool, AllocError>
        ensures { IfOk result
            (λ is. is ≡ list_any (λ l. machine.same_link l link.now && files.is_pair (kept_files_of self.now) inode l)
            (files.links_of (kept_files_of self.now) inode)) }
    {
        self.has_pair(alloc, inode, link)
    }

    /// Whether an entry of a directory is the other half of a back link.
    pub(crate) fn is_paired(
        &self,
        alloc: Global,
        directory: u32,
        entry: u32,
    ) -> Result<bool, AllocError>
        ensures { IfOk result (λ is. is ≡ machine.is_paired (kept_files_of self.now) directory entry) }
    {
        match self.entry_at(alloc, directory, entry)? {
            None => Ok(false),
            Some(found) => {
                let link = BackLink {
                    directory,
                    entry,
                    generation: self.generation(directory),
                };
                self.is_linked(alloc, found.inode, &link)
            }
        }
    }

    /// Whether an entry of a directory has this name.
    fn has_name(
        &self,
        alloc: Global,
        name: &DirectoryName<'_>,
        entry: u32,
    ) -> Result<bool, AllocError>
        ensures { IfOk result
            (λ has. has ≡ machine.entry_has_name (kept_files_of self.now) name.now.directory name.now.name.now entry) }
    {
        match self.entry_at(alloc, name.directory, entry)? {
            None => Ok(false),
            Some(found) => Ok(found.name.as_slice() == name.name),
        }
    }

    /// Whether a name stands in this entry, and leads to a file there or to none, as is asked.
    fn leads(
        &self,
        alloc: Global,
        name: &DirectoryName<'_>,
        to_file: bool,
        entry: u32,
    ) -> Result<bool, AllocError>
        ensures { IfOk result
            (λ is. is ≡ leads (kept_files_of self.now) name.now.directory name.now.name.now to_file entry) }
    {
        if !self.has_name(alloc, name, entry)? {
            return Ok(false);
        }
        Ok(self.is_paired(alloc, name.directory, entry)? == to_file)
    }

    #[tactic(auto, using(crate::proofs::Links::least_none, crate::proofs::Links::least_here, //
    crate::proofs::Links::least_further))]
    fn first_from(
        &self,
        alloc: Global,
        name: &DirectoryName<'_>,
        to_file: bool,
        at: u32,
        count: u32,
    ) -> Result<Option<u32>, AllocError>
        requires { at + count ≤ entry_limit }
        ensures first { IfOk result (λ found. found
            ≡ least_from
            (λ e. leads (kept_files_of self.now) name.now.directory name.now.name.now to_file e) at count) }
        ensures range { IfOk result (λ found. IfSome found (λ e. e < entry_limit)) }
    {
        if count == 0 {
            return Ok(None);
        }
        if self.leads(alloc, name, to_file, at)? {
            return Ok(Some(at));
        }
        self.first_from(alloc, name, to_file, at + 1, count - 1)
    }

    /// The least entry by which a name leads to a file.
    #[tactic(auto, unfolding(crate::specs::Machine::found))]
    pub fn found(&self, alloc: Global, name: &DirectoryName<'_>) -> Result<Option<u32>, AllocError>
        ensures found { IfOk result
            (λ found. found ≡ machine.found (kept_files_of self.now) name.now.directory name.now.name.now) }
        ensures range { IfOk result (λ found. IfSome found (λ e. e < entry_limit)) }
    {
        self.first_from(alloc, name, true, 0, ENTRY_LIMIT)
    }

    /// The least entry of a name that leads to no file.
    #[tactic(auto, unfolding(crate::specs::Machine::first_dead))]
    pub(crate) fn first_dead(
        &self,
        alloc: Global,
        name: &DirectoryName<'_>,
    ) -> Result<Option<u32>, AllocError>
        ensures found { IfOk result
            (λ found. found ≡ machine.first_dead (kept_files_of self.now) name.now.directory name.now.name.now) }
        ensures range { IfOk result (λ found. IfSome found (λ e. e < entry_limit)) }
    {
        self.first_from(alloc, name, false, 0, ENTRY_LIMIT)
    }
}
