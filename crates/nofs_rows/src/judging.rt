//! Lines that judge the disk between runs, or go on with what a crash leaves of it: `nofs_test_lines` has what they
//! say. `same` says that all cells are those that were laid down, `same A version-2` that they are those of images.

use crate::mounts::counts_text;
use crate::stage::Stage;
use nofs_test_disks::bytes_of;
use nofs_test_lines::{Failure, all_cells, crashed, disk_holds, lay_images, meaning_holds};
use nofs_versions::CallCounts;
use std::alloc::{AllocError, Global};

impl Stage {
    /// Obeys a line that judges the disk, or that a crash leaves it; whether this is one.
    pub fn judge_disk(&mut self, words: &[&str]) -> Result<bool, Failure> {
        match words {
            ["crash" | "left", ..] => Ok(self.crash(words)?),
            ["calls" | "choices", ..] if self.layout.is_some() => Ok(true),
            _ => match self.holds(words)? {
                Some(holds) => {
                    self.judge(holds)?;
                    Ok(true)
                }
                None => Ok(false),
            },
        }
    }

    // Whether it holds what a line says of the disk, or of the cells of the one that is to be made.
    fn holds(&mut self, words: &[&str]) -> Result<Option<bool>, Failure> {
        match &mut self.disk {
            Some(disk) => disk_holds(self.alloc, disk, self.turn, words),
            None => meaning_holds(self.alloc, &self.cells, words),
        }
    }

    /// Judges whether the cells of the disk are those that were laid down, or those of images of these names.
    pub fn judge_cells(&mut self, images: &[&str], names: &[&str]) -> Result<(), Failure> {
        let laid = self.laid_bytes(images, names)?;
        let is_same = match &mut self.disk {
            Some(disk) => bytes_of(self.alloc, &all_cells(self.alloc, disk)?)? == laid,
            None => false,
        };
        self.judge(is_same)
    }

    // The bytes of the cells that were laid down, or of images of these names.
    fn laid_bytes(&self, images: &[&str], names: &[&str]) -> Result<Vec<u8>, Failure> {
        if names.is_empty() {
            return Ok(bytes_of(self.alloc, &self.cells)?);
        }
        let mut cells = Vec::new(self.alloc);
        lay_images(self.alloc, &mut cells, images, names)?;
        Ok(bytes_of(self.alloc, &cells)?)
    }

    // Goes on with a disk that a crash may leave, if it may.
    fn crash(&mut self, words: &[&str]) -> Result<bool, AllocError> {
        let Some(disk) = self.disk.take() else {
            return Ok(false);
        };
        self.disk = crashed(self.alloc, &disk, words)?;
        Ok(self.disk.is_some())
    }

    /// Tells what the disk and the mount count.
    pub fn tell_counts(&mut self) -> Result<(), AllocError> {
        if let Some(disk) = &self.disk {
            let calls = calls_text(self.alloc, disk.calls())?;
            self.told.push_str(calls.as_str())?;
        }
        if let Some(mount) = &self.mount {
            let counts = counts_text(self.alloc, mount)?;
            self.told.push_str(counts.as_str())?;
        }
        Ok(())
    }
}

fn calls_text(alloc: Global, calls: CallCounts) -> Result<String, AllocError> {
    format!(in alloc; "with {calls:?} ")
}
