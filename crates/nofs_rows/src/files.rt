//! Lines that lay the file of an image down in a layout, or damage it, and runs of the program's call over it.
//!
//! Promise: what is laid down is durable before a run, and a run finds the layout by the first bytes, as the program
//! does, but for one that makes its image anew. Behind a run the disk has the cells of the file, up to one that can't
//! be read.

use crate::runs::{USUAL, run_over};
use crate::stage::Stage;
use nofs_disk::{Cell, Disk, write_bytes_at};
use nofs_io::{MemSink, MemSource};
use nofs_pages::Layout;
use nofs_test_disks::{bytes_of, cached, cells_of, disk_with};
use nofs_test_layouts::{LaidDisk, found_disk, fresh_disk, laid_bytes, unlaid};
use nofs_test_lines::{Failure, all_cells, number_of};
use std::alloc::{AllocError, Global};
use std::sync::Wait;
use std::thread::Threads;

/// The bytes of a page.
const PAGE: usize = 4_096;

/// How the lines begin that only a case over the disk in memory can obey.
const OF_MEMORY: [&str; 12] = [
    "memory",
    "fails ",
    "rooms ",
    "each write ",
    "each read ",
    "each flush ",
    "each rooms ",
    "images ",
    "crash ",
    "left ",
    "format ",
    "begin ",
];

/// Whether a case is one of the disk in memory alone: it says so, sets its calls, or goes on with what a crash leaves
/// of it.
pub fn is_of_memory(body: &[&str]) -> bool {
    let mut is_of_memory = false;
    for line in body {
        is_of_memory = is_of_memory || begins_in(line, &OF_MEMORY);
    }
    is_of_memory
}

// Whether a line begins in one of these ways.
fn begins_in(line: &str, ways: &[&str]) -> bool {
    let mut begins = false;
    for way in ways {
        begins = begins || line.starts_with(*way);
    }
    begins
}

fn layout_named(word: &str) -> Option<Layout> {
    match word {
        "packed" => Some(Layout::Packed),
        "paged" => Some(Layout::Paged),
        "twin" => Some(Layout::Twin),
        _ => None,
    }
}

// Changes every bit of a byte; whether there is one.
fn rot(bytes: &mut [u8], place: Option<u64>) -> Option<()> {
    let byte = bytes.get_mut(place? as usize)?;
    *byte = !*byte;
    Some(())
}

// Where a page begins, and where it ends.
fn ends_of(number: Option<u64>) -> Option<(usize, usize)> {
    let first = (number? as usize).checked_mul(PAGE)?;
    Some((first, first.checked_add(PAGE)?))
}

// Writes zeros over a page; whether there is one.
fn wipe(bytes: &mut [u8], number: Option<u64>) -> Option<()> {
    let (first, end) = ends_of(number)?;
    bytes.get_mut(first..end)?.fill(0);
    Some(())
}

// Puts bytes at their place, if they end inside.
fn put(bytes: &mut [u8], at: usize, part: &[u8]) -> bool {
    if at > bytes.len() || part.len() > bytes.len() - at {
        return false;
    }
    write_bytes_at(bytes, at, part);
    true
}

// Puts a page in the place of another one; whether there are both.
fn copy_page(
    alloc: Global,
    bytes: &mut [u8],
    from: Option<u64>,
    to: Option<u64>,
) -> Result<bool, AllocError> {
    let (Some((first, end)), Some((to, _))) = (ends_of(from), ends_of(to)) else {
        return Ok(false);
    };
    let Some(page) = bytes.get(first..end) else {
        return Ok(false);
    };
    let copy = page.to_vec(alloc)?;
    Ok(put(bytes, to, copy.as_slice()))
}

// Cuts what is behind so many bytes off; whether there is something.
fn cut(bytes: &mut Vec<u8>, length: Option<u64>) -> bool {
    match length {
        Some(length) if (length as usize) < bytes.len() => {
            bytes.truncate(length as usize);
            true
        }
        _ => false,
    }
}

// Obeys a line that damages a file; whether it does.
fn damage(alloc: Global, bytes: &mut Vec<u8>, words: &[&str]) -> Result<bool, AllocError> {
    match words {
        ["rot", place] => Ok(rot(bytes.as_mut_slice(), number_of(place)).is_some()),
        ["wipe", page] => Ok(wipe(bytes.as_mut_slice(), number_of(page)).is_some()),
        ["cut", length] => Ok(cut(bytes, number_of(length))),
        ["copy", from, to] => {
            copy_page(alloc, bytes.as_mut_slice(), number_of(from), number_of(to))
        }
        _ => Ok(false),
    }
}

// Whether a command makes its image anew, whatever was in its file.
fn makes_anew(words: &[String]) -> bool {
    match words.first() {
        Some(word) => word.as_str() == "new" || word.as_str() == "drill",
        None => false,
    }
}

// The disk in a file with these bytes: made anew by these words in a layout, or as it is found.
fn disk_for(
    alloc: Global,
    layout: Layout,
    words: &[String],
    bytes: &[u8],
) -> Result<LaidDisk, AllocError> {
    if makes_anew(words) {
        fresh_disk(alloc, layout, bytes)
    } else {
        found_disk(alloc, bytes)
    }
}

// Makes a run over the disk in a file: the status, and the bytes of the file then.
fn run_on_file<R: Threads + Wait + Sync>(
    rt: &R,
    alloc: Global,
    words: &[String],
    source: &mut MemSource,
    sink: &mut MemSink,
    disk: LaidDisk,
) -> Result<(u8, Vec<u8>), AllocError> {
    let (status, disk) = run_over(rt, alloc, words, source, sink, cached(alloc, disk)?);
    let file = unlaid(disk.below().file());
    Ok((status, file.bytes().to_vec(alloc)?))
}

impl Stage {
    /// Obeys a line of the file of an image; whether this is one.
    pub fn set_file(&mut self, words: &[&str]) -> Result<bool, Failure> {
        match words {
            ["memory"] => Ok(true),
            ["file", "layout", word] => self.lay_file(layout_named(word)),
            ["file", rest @ ..] => match &mut self.file {
                Some(bytes) => Ok(damage(self.alloc, bytes, rest)?),
                None => Ok(false),
            },
            _ => Ok(false),
        }
    }

    // Lays the cells of the disk down in a file in a layout, over which runs are made from now on.
    fn lay_file(&mut self, layout: Option<Layout>) -> Result<bool, Failure> {
        let Some(layout) = layout else {
            return Ok(false);
        };
        self.layout = Some(layout);
        self.file = Some(self.file_bytes(layout)?);
        Ok(true)
    }

    // The bytes of a file in a layout that has the cells of the disk, which stays.
    fn file_bytes(&mut self, layout: Layout) -> Result<Vec<u8>, AllocError> {
        let mut disk = self.take_disk()?;
        let cells = all_cells(self.alloc, &mut disk)?;
        self.disk = Some(disk);
        laid_bytes(self.alloc, layout, &bytes_of(self.alloc, &cells)?)
    }

    // The bytes of the file as it is now, which is laid down where there is none.
    fn take_file(&mut self, layout: Layout) -> Result<Vec<u8>, AllocError> {
        match self.file.take() {
            Some(bytes) => Ok(bytes),
            None => self.file_bytes(layout),
        }
    }

    /// Makes a run over the file of the image, and gives its status.
    pub fn run_in_file<R: Threads + Wait + Sync>(
        &mut self,
        rt: &R,
        layout: Layout,
        words: &[String],
        source: &mut MemSource,
        sink: &mut MemSink,
    ) -> Result<u8, AllocError> {
        let bytes = self.take_file(layout)?;
        let disk = disk_for(self.alloc, layout, words, &bytes)?;
        let (status, bytes) = run_on_file(rt, self.alloc, words, source, sink, disk)?;
        self.keep_file(bytes)?;
        self.options = USUAL;
        Ok(status)
    }

    // Goes on with a file of these bytes, and the disk with its cells.
    fn keep_file(&mut self, bytes: Vec<u8>) -> Result<(), AllocError> {
        let blocks = self.take_disk()?.blocks();
        let cells = found_cells(self.alloc, blocks, &bytes)?;
        self.disk = Some(disk_with(self.alloc, blocks, &cells)?);
        self.file = Some(bytes);
        Ok(())
    }
}

// The first cells of the file with these bytes, up to one that can't be read.
fn found_cells(alloc: Global, blocks: u64, bytes: &[u8]) -> Result<Vec<Cell>, AllocError> {
    let mut disk = found_disk(alloc, bytes)?;
    cells_of(alloc, &mut disk, blocks)
}
