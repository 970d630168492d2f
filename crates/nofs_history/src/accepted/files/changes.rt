//! How one inode's file changes.
ghost use Rattle.std.specs.Prelude.{◌≡◌, ◌<◌, IfOk, IfSome, IsNone, OnOk, Some, None, false, option_map};
ghost use Rattle.nofs_ptrs.specs.Paths.{slot_limit};
ghost use Rattle.nofs_history.specs.Accepted.Files.{value_now, file_of, kept_files_of, with_file, with_value};
ghost use Rattle.nofs_history.specs.Accepted.Files.{has_generation};

use crate::accepted::files::file::{FileNow, FilesNow, ValueNow};
use crate::accepted::files::growing::{grow_files, grow_values};
use std::alloc::AllocError;

impl FileNow {
    /// The file with a value in a slot.
    pub fn with_value(self, slot: u64, kept: ValueNow) -> Result<FileNow, AllocError>
        requires { slot < slot_limit }
        ensures { IfOk result (λ file. file_of file ≡ with_value (file_of self) slot (value_now kept)) }
    {
        let mut file = self;
        grow_values(&mut file.values, slot as usize + 1)?;
        file.values[slot as usize] = kept;
        Ok(file)
    }
}

impl FilesNow {
    fn has_generation(&self, inode: u32, generation: u64) -> bool
        ensures { result ≡ has_generation (kept_files_of self.now) inode generation }
    {
        match self.file(inode) {
            None => false,
            Some(file) => file.generation == generation,
        }
    }

    /// Takes the file of an inode out, where it has this generation.
    pub fn take(&mut self, inode: u32, generation: u64) -> Option<FileNow>
        ensures taken { IfSome result (λ file. kept_files_of self.old inode ≡ Some (file_of file)) }
        ensures same { IfSome result (λ file. file.generation ≡ generation) }
        ensures left { IfSome result (λ file. kept_files_of self.new ≡ with_file (kept_files_of self.old) inode None) }
        ensures inode { IfSome result (λ file. 0 < inode) }
        ensures none { IsNone result → kept_files_of self.new ≡ kept_files_of self.old }
        ensures missing { IsNone result → has_generation (kept_files_of self.old) inode generation ≡ false }
    {
        if !self.has_generation(inode, generation) {
            return None;
        }
        self.take_out(inode)
    }

    fn take_out(&mut self, inode: u32) -> Option<FileNow>
        requires { 0 < inode }
        ensures taken { kept_files_of self.old inode ≡ option_map file_of result }
        ensures left { kept_files_of self.new ≡ with_file (kept_files_of self.old) inode None }
    {
        let at = inode as usize - 1;
        if at < self.files.len() {
            self.files[at].take()
        } else {
            None
        }
    }

    /// Gives an inode a file.
    pub fn put(&mut self, inode: u32, file: FileNow) -> Result<(), AllocError>
        requires { 0 < inode }
        ensures { OnOk result
            (kept_files_of self.new ≡ with_file (kept_files_of self.old) inode (Some (file_of file))) }
    {
        grow_files(&mut self.files, inode as usize)?;
        self.files[inode as usize - 1] = Some(file);
        Ok(())
    }
}
