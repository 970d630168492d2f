//! What stands while the lines of a case are obeyed, one after another.
//!
//! Promise: a line that says nothing that is known fails its case, and so do lines that judge nothing, and lines of a
//! run that is not made.

use crate::files::is_of_memory;
use crate::runs::{RunOptions, USUAL};
use nofs_disk::Cell;
use nofs_memdisk::MemDisk;
use nofs_pages::Layout;
use nofs_shared::Mount;
use nofs_test_lines::{Failure, is_of_run, lay, lay_images, words_of};
use nofs_versions::FaultAt;
use std::alloc::{AllocError, Global};
use std::sync::Wait;
use std::thread::Threads;

/// What stands so far.
#[derive(Drop)]
pub struct Stage {
    pub alloc: Global,
    /// The cells of the disk, until it is made.
    pub cells: Vec<Cell>,
    pub disk: Option<MemDisk>,
    /// The layout in which each case is run, if it is not over the disk in memory.
    asked: Option<Layout>,
    /// The layout of the file over which runs are made, if they are, and the file, once it is laid down.
    pub layout: Option<Layout>,
    pub file: Option<Vec<u8>>,
    /// A mount that steps are made at.
    pub mount: Option<Mount<MemDisk>>,
    /// The calls that fail of a disk that is not made.
    pub faults: Vec<FaultAt>,
    pub options: RunOptions,
    /// Which turn of the case this is.
    pub turn: u64,
    /// Whether a line judged something, and whether a run is written that was not made.
    has_judged: bool,
    has_run: bool,
    /// Where this is, and what came where it is not as wanted.
    pub told: String,
}

impl Stage {
    /// Before the first line of a case, in this turn of it, over files in a layout if one is asked for.
    pub fn new(alloc: Global, asked: Option<Layout>, turn: u64) -> Stage {
        Stage {
            alloc,
            cells: Vec::new(alloc),
            disk: None,
            asked,
            layout: asked,
            file: None,
            mount: None,
            faults: Vec::new(alloc),
            options: USUAL,
            turn,
            has_judged: false,
            has_run: false,
            told: String::new(alloc),
        }
    }

    /// Whether a case is run: over files those alone that are not of the disk in memory.
    pub fn runs(&self, body: &[&str]) -> bool {
        self.asked.is_none() || !is_of_memory(body)
    }

    /// Begins anew, in this turn of a case, over a disk, if there is one. `place` tells where that is.
    pub fn begin(&mut self, turn: u64, disk: Option<MemDisk>, place: String) {
        *self = Stage::new(self.alloc, self.asked, turn);
        self.disk = disk;
        self.told = place;
    }

    /// Obeys lines, of which one judges at least. `images` has the lines of the images that have a name.
    pub fn obey_all<R: Threads + Wait + Sync>(
        &mut self,
        rt: &R,
        images: &[&str],
        lines: &[&str],
    ) -> Result<(), Failure> {
        let mut first = 0;
        for (at, line) in lines.iter().enumerate() {
            let before = lines.get(first..at).unwrap_or(&[]);
            let end = self.obey(rt, images, before, line);
            self.tell_line(line, end)?;
            if line.starts_with("status ") {
                first = at;
            }
        }
        match (self.has_run, self.has_judged) {
            (true, _) => Err(Failure::Case("a run is not made")),
            (false, false) => Err(Failure::Case("no line judges")),
            (false, true) => Ok(()),
        }
    }

    // Tells the line that failed.
    fn tell_line(&mut self, line: &str, end: Result<(), Failure>) -> Result<(), Failure> {
        if end.is_err() {
            self.tell("at `")?;
            self.tell(line)?;
            self.tell("`: ")?;
        }
        end
    }

    /// Adds to what is told of a case that fails.
    pub fn tell(&mut self, text: &str) -> Result<(), AllocError> {
        self.told.push_str(text)
    }

    /// Notes that a line judged something; it fails where that does not hold.
    pub fn judge(&mut self, holds: bool) -> Result<(), Failure> {
        self.has_judged = true;
        if holds {
            return Ok(());
        }
        self.tell_counts()?;
        Err(Failure::Case("not as it is to be"))
    }

    // Obeys a line. `before` has those behind the last run.
    fn obey<R: Threads + Wait + Sync>(
        &mut self,
        rt: &R,
        images: &[&str],
        before: &[&str],
        line: &str,
    ) -> Result<(), Failure> {
        if is_of_run(line) {
            self.has_run = true;
            return Ok(());
        }
        match words_of(self.alloc, line)?.as_slice() {
            [] => Ok(()),
            ["status", status] => {
                self.has_run = false;
                self.end_run(rt, before, status)
            }
            ["same", names @ ..] => self.judge_cells(images, names),
            words => self.obey_words(images, words),
        }
    }

    fn obey_words(&mut self, images: &[&str], words: &[&str]) -> Result<(), Failure> {
        if self.set(words)?
            || self.set_file(words)?
            || self.ask_mount(words)?
            || self.judge_disk(words)?
        {
            return Ok(());
        }
        self.disk = None;
        self.file = None;
        match words {
            ["like", names @ ..] => lay_images(self.alloc, &mut self.cells, images, names),
            _ => lay(self.alloc, &mut self.cells, words),
        }
    }
}
