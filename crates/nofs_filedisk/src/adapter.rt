//! The system's file. What it holds is not known to proofs: here the proved part ends.
//!
//! Promise: a call that fails is counted, and one that a signal interrupts is made again.
//!
//! An image has one program at a time: the file is locked as a whole from its opening until it is dropped. Its length
//! is kept, as it was then and as writes made it: where the file is found shorter, someone has cut it, and what was cut
//! off is a fault and not zeros. Where its last name was taken from it, or given to another file, nobody finds what it
//! holds: so that it is synced is a fault too.
ghost use Rattle.std.specs.Prelude.{◌^◌, ◌<◌, ◌≤◌, IfSome, length};
ghost use Rattle.nofs_disk.specs.Disk.{Rose};

use crate::positioned::Positioned;
use nofs_disk::Failed;
use std::fs::{File, FileType, OpenOptions};
use std::io::{self, ErrorKind, Seek, SeekFrom};
use std::os::unix::fs::{FileExt, FileTypeExt, MetadataExt};

/// A file of the system, with its count of faults.
#[derive(Drop)]
pub struct HostFile {
    file: File,
    // Where it ended when it was opened, or where a write has ended since, the greater of both.
    end: u64,
    faults: u64,
    ghost counted: { faults < 2 ^ 64 },
}

// Whether files of a kind are read and written by position: a directory, a pipe, a socket and a device that gives its
// bytes one after the other are not.
fn has_places(kind: FileType) -> bool {
    kind.is_file() || kind.is_block_device()
}

// Where a file ends. The metadata of a device say nothing of it.
fn end_of(file: &File) -> io::Result<u64> {
    let mut file = file;
    file.seek(SeekFrom::End(0))
}

impl HostFile {
    /// Opens a file for reading and writing, makes it where there is none, and takes its lock.
    ///
    /// # Errors
    ///
    /// The system's, where the file can't be opened or made, or what it holds can't be made durable; that it can't be
    /// positioned; that another program, or another `HostFile`, has it open. Then no byte of it was read or written.
    pub fn open(rt: &HostRuntime, path: &str) -> io::Result<HostFile> {
        HostFile::with(
            OpenOptions::new()
                .read(true)
                .write(true)
                .create(true)
                .open(rt, path)?,
        )
    }

    /// The same of a file that is there; none is made.
    ///
    /// # Errors
    ///
    /// Those of `open`, and the system's where there is no such file.
    pub fn open_existing(rt: &HostRuntime, path: &str) -> io::Result<HostFile> {
        HostFile::with(OpenOptions::new().read(true).write(true).open(rt, path)?)
    }

    // A file that was opened, with its lock.
    fn with(file: File) -> io::Result<HostFile> {
        if !has_places(file.metadata()?.file_type()) {
            return Err(ErrorKind::InvalidInput.into());
        }
        file.try_lock()?;
        let end = end_of(&file)?;
        // Whoever wrote it before, and was killed or has copied it here, may have left some of it in the system's
        // memory alone. Only what is durable is what a crash leaves from now on.
        file.sync_data()?;
        Ok(HostFile {
            file,
            end,
            faults: 0,
        })
    }

    // Whether nobody has cut it since it was opened.
    fn is_whole(&self) -> bool {
        match end_of(&self.file) {
            Ok(end) => self.end <= end,
            Err(_) => false,
        }
    }

    // Whether it still has a name.
    fn has_name(&self) -> bool {
        match self.file.metadata() {
            Ok(found) => found.nlink() > 0,
            Err(_) => false,
        }
    }

    // Writes some of the bytes, at least one where there is one. In a file that was cut a write past its end would fill
    // with zeros what was cut off.
    fn write_some(&self, at: u64, from: &[u8]) -> Option<usize>
        ensures fits { IfSome result (λ count. count ≤ length from.now) }
        ensures some { IfSome result (λ count. 0 < length from.now → 0 < count) }
    {
        if !self.is_whole() {
            return None;
        }
        for _ in 0..u64::MAX {
            match self.file.write_at(from, at) {
                Ok(count) if count > 0 || from.is_empty() => return Some(count),
                Err(error) if error.kind() == ErrorKind::Interrupted => {}
                _ => break,
            }
        }
        None
    }

    fn failed(&mut self) -> Failed
        ensures { Rose self.old.faults self.new.faults }
    {
        self.faults = self.faults.saturating_add(1);
        Failed
    }
}

impl Positioned for HostFile {
    ghost use Rattle.nofs_filedisk.specs.Untold.{untold, untold_is};

    ghost state = { λ f. untold f.faults };

    // No byte before its end is one that was cut off.
    fn read_at(&mut self, at: u64, into: &mut [u8]) -> Result<usize, Failed> {
        for _ in 0..u64::MAX {
            match self.file.read_at(into, at) {
                Ok(count) if count > 0 || into.is_empty() || self.end <= at => return Ok(count),
                Err(error) if error.kind() == ErrorKind::Interrupted => {}
                _ => break,
            }
        }
        Err(self.failed())
    }

    fn read_ahead(&mut self, at: u64, into: &mut [u8]) -> Result<Option<usize>, Failed> {
        match self.read_at(at, into) {
            Ok(count) => Ok(Some(count)),
            Err(failed) => Err(failed),
        }
    }

    fn write_at(&mut self, at: u64, from: &[u8]) -> Result<usize, Failed> {
        match self.write_some(at, from) {
            Some(count) => {
                self.end = self.end.max(at + count as u64);
                Ok(count)
            }
            None => Err(self.failed()),
        }
    }

    // `fdatasync` leaves out of `fsync` only what no read needs, such as times.
    fn sync(&mut self) -> Result<(), Failed> {
        if !self.is_whole() || !self.has_name() {
            return Err(self.failed());
        }
        match self.file.sync_data() {
            Ok(()) => Ok(()),
            Err(_) => Err(self.failed()),
        }
    }

    ghost is_file = { λ f. untold_is f.faults f.counted };
}
