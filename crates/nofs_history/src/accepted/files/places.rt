//! Where a new entry goes.
ghost use Rattle.std.specs.Prelude.{◌≡◌, ◌<◌, ◌≤◌, ◌+◌, ◌*◌, ◌/◌, ◌&&◌, ◌∷◌, [], not, IfOk, IfSome, Some, None};
ghost use Rattle.std.specs.Prelude.{is_some, option_map};
ghost use Rattle.nofs_dirent.specs.Entries.{entry_limit};
ghost use Rattle.nofs_history.specs.Machine as machine;
ghost use Rattle.nofs_history.specs.Meta as meta;
ghost use Rattle.nofs_history.specs.Search.{first_of, least_from};
ghost use Rattle.nofs_model.specs.Files as files;
ghost use Rattle.nofs_history.specs.Accepted.Files.{value_now, kept_files_of};

use crate::accepted::files::file::{FilesNow, ValueNow};
use crate::accepted::files::names::DirectoryName;
use nofs_dirent::ENTRY_LIMIT;
use std::alloc::{AllocError, Global};

fn has_bytes(kept: &ValueNow) -> bool
    ensures { result ≡ meta.is_bytes (value_now kept.now) }
{
    match kept {
        ValueNow::Bytes(_) => true,
        ValueNow::Hole => false,
        ValueNow::Lost => false,
    }
}

fn is_hole(kept: &ValueNow) -> bool
    ensures { result ≡ machine.is_hole (value_now kept.now) }
{
    match kept {
        ValueNow::Hole => true,
        ValueNow::Bytes(_) => false,
        ValueNow::Lost => false,
    }
}

impl FilesNow {
    /// Whether a slot has bytes.
    pub fn has_bytes(&self, inode: u32, slot: u64) -> bool
        ensures { result ≡ meta.is_bytes (machine.value_of (kept_files_of self.now) inode slot) }
    {
        match self.kept(inode, slot) {
            None => false,
            Some(kept) => has_bytes(kept),
        }
    }

    fn is_hole(&self, inode: u32, slot: u64) -> bool
        ensures { result ≡ machine.is_hole (machine.value_of (kept_files_of self.now) inode slot) }
    {
        match self.kept(inode, slot) {
            None => true,
            Some(kept) => is_hole(kept),
        }
    }

    /// Whether an entry's place is empty, in a slot with bytes.
    fn is_empty(&self, alloc: Global, directory: u32, entry: u32) -> Result<bool, AllocError>
        ensures { IfOk result
            (λ is. is ≡ (meta.is_bytes (machine.value_of (kept_files_of self.now) directory (entry / 16))
            && not (is_some (files.entry_at (kept_files_of self.now) directory entry)))) }
    {
        if !self.has_bytes(directory, u64::from(entry / 16)) {
            return Ok(false);
        }
        Ok(self.entry_at(alloc, directory, entry)?.is_none())
    }

    #[tactic(auto, using(crate::proofs::Links::least_none, crate::proofs::Links::least_here, //
    crate::proofs::Links::least_further))]
    fn empty_from(
        &self,
        alloc: Global,
        directory: u32,
        at: u32,
        count: u32,
    ) -> Result<Option<u32>, AllocError>
        requires { at + count ≤ entry_limit }
        ensures range { IfOk result (λ found. IfSome found (λ e. e < entry_limit)) }
        ensures found { IfOk result (λ found.
            found ≡ least_from (λ e. meta.is_bytes (machine.value_of (kept_files_of self.now) directory (e / 16))
            && not (is_some (files.entry_at (kept_files_of self.now) directory e))) at count) }
    {
        if count == 0 {
            return Ok(None);
        }
        if self.is_empty(alloc, directory, at)? {
            return Ok(Some(at));
        }
        self.empty_from(alloc, directory, at + 1, count - 1)
    }

    #[tactic(auto, using(crate::proofs::Links::least_none, crate::proofs::Links::least_here, //
    crate::proofs::Links::least_further))]
    fn hole_from(&self, directory: u32, at: u32, count: u32) -> Option<u32>
        requires { at + count ≤ 72 }
        ensures found { result ≡ least_from
            (λ k. machine.is_hole (machine.value_of (kept_files_of self.now) directory k)) at count }
        ensures range { IfSome result (λ k. k < 72) }
    {
        if count == 0 {
            return None;
        }
        if self.is_hole(directory, u64::from(at)) {
            return Some(at);
        }
        self.hole_from(directory, at + 1, count - 1)
    }

    fn hole_place(&self, directory: u32) -> Option<u32>
        ensures range { IfSome result (λ e. e < entry_limit) }
        ensures place { result ≡ option_map (λ k. 16 * k)
            (least_from (λ k. machine.is_hole (machine.value_of (kept_files_of self.now) directory k)) 0 72) }
    {
        match self.hole_from(directory, 0, 72) {
            None => None,
            Some(slot) => Some(16 * slot),
        }
    }

    fn fresh_place(&self, alloc: Global, directory: u32) -> Result<Option<u32>, AllocError>
        ensures range { IfOk result (λ place. IfSome place (λ e. e < entry_limit)) }
        ensures place { IfOk result (λ place. place ≡ first_of (
            least_from (λ e. meta.is_bytes (machine.value_of (kept_files_of self.now) directory (e / 16))
            && not (is_some (files.entry_at (kept_files_of self.now) directory e))) 0 entry_limit
            ∷ option_map (λ k. 16 * k)
            (least_from (λ k. machine.is_hole (machine.value_of (kept_files_of self.now) directory k)) 0 72)
            ∷ [])) }
    {
        match self.empty_from(alloc, directory, 0, ENTRY_LIMIT)? {
            Some(entry) => Ok(Some(entry)),
            None => Ok(self.hole_place(directory)),
        }
    }

    /// Where a new entry of a name goes; `None` where the directory is full.
    #[tactic(auto, unfolding(crate::specs::Machine::place_for))]
    pub fn place_for(
        &self,
        alloc: Global,
        name: &DirectoryName<'_>,
    ) -> Result<Option<u32>, AllocError>
        ensures range { IfOk result (λ place. IfSome place (λ e. e < entry_limit)) }
        ensures place { IfOk result
            (λ place. place ≡ machine.place_for (kept_files_of self.now) name.now.directory name.now.name.now) }
    {
        match self.first_dead(alloc, name)? {
            Some(entry) => Ok(Some(entry)),
            None => self.fresh_place(alloc, name.directory),
        }
    }
}
