//! What a salvage is to tell of an image, by a slow walk over its cells.
//!
//! It goes by the definitions alone: `nofs_model` says which inodes are agreed, what each slot has and
//! which bytes are an entry, and numbers are read where `docs/FORMAT.md` puts them.

use nofs_disk::{Cell, read_u32_at, write_bytes_at};
use nofs_model::{Value, agreed, is_mountable, names_inode, value_of};
use nofs_test_sessions::number_in;
use std::alloc::{AllocError, Global};

/// How many slots a directory has, and a file in version 1 and in version 2.
const SLOTS: (u32, u64, u64) = (72, 72, 4_168);

/// What is told of an image whose root or label file isn't there.
const NO_ROOTS: &str = "refused 14 stale\n";

/// The text that a salvage of a mountable image prints, about the names that begin with a prefix.
pub(crate) fn told_of(alloc: Global, cells: &[Cell], prefix: &[u8]) -> Result<Vec<u8>, AllocError> {
    if !is_agreed(cells, 1) || !is_agreed(cells, 2) {
        return NO_ROOTS.as_bytes().to_vec(alloc);
    }
    let mut walk = Walk {
        alloc,
        cells,
        prefix,
        text: Vec::new(alloc),
        directories: vec![in alloc; 1u32; 1]?,
    };
    walk.tell_file(2)?;
    walk.tell_directories()?;
    let Walk { text, .. } = walk;
    Ok(text)
}

/// A walk, with what it told so far.
#[derive(Drop)]
struct Walk<'a> {
    alloc: Global,
    cells: &'a [Cell],
    prefix: &'a [u8],
    text: Vec<u8>,
    /// Those that were met, in the order in which they are walked.
    directories: Vec<u32>,
}

/// An entry, and where it stands.
#[derive(Clone, Copy)]
struct PlacedEntry<'a> {
    directory: u32,
    /// Counted over the whole content of the directory.
    place: u32,
    bytes: &'a [u8],
}

impl Walk<'_> {
    // A block of the inode table has four inodes.
    fn tell_directories(&mut self) -> Result<(), AllocError> {
        for at in 0..self.cells.len().saturating_mul(4) {
            if let Some(directory) = self.directories.get(at).copied() {
                self.tell_directory(directory)?;
            }
        }
        Ok(())
    }

    fn tell_directory(&mut self, directory: u32) -> Result<(), AllocError> {
        let mut pairs = Vec::new(self.alloc);
        for slot in 0..SLOTS.0 {
            self.tell_slot(directory, slot, &mut pairs)?;
        }
        Ok(())
    }

    fn tell_slot(
        &mut self,
        directory: u32,
        slot: u32,
        pairs: &mut Vec<Vec<u8>>,
    ) -> Result<(), AllocError> {
        match value_in(self.alloc, self.cells, directory, u64::from(slot))? {
            Value::Hole => Ok(()),
            Value::Lost => self.push_slot(directory, u64::from(slot)),
            Value::Bytes(content) => {
                let first = slot.wrapping_mul(16);
                self.tell_entries(directory, first, content.as_slice(), pairs)
            }
        }
    }

    fn tell_entries(
        &mut self,
        directory: u32,
        first: u32,
        content: &[u8],
        pairs: &mut Vec<Vec<u8>>,
    ) -> Result<(), AllocError> {
        for (number, bytes) in content.chunks(64).enumerate() {
            let entry = PlacedEntry {
                directory,
                place: first.wrapping_add((number % 16) as u32),
                bytes,
            };
            if is_entry(bytes) {
                self.tell_entry(entry, pairs)?;
            }
        }
        Ok(())
    }

    // `pairs` has the names of the pairs before, in this directory.
    fn tell_entry(
        &mut self,
        entry: PlacedEntry<'_>,
        pairs: &mut Vec<Vec<u8>>,
    ) -> Result<(), AllocError> {
        let name = name_in(entry.bytes);
        if !is_pair(self.cells, entry) {
            return self.push_name("dead", entry);
        }
        if pairs.iter().any(|pair| pair.as_slice() == name) {
            return self.push_name("twice", entry);
        }
        pairs.push(name.to_vec(self.alloc)?)?;
        self.tell_pair(entry)
    }

    fn tell_pair(&mut self, entry: PlacedEntry<'_>) -> Result<(), AllocError> {
        let inode = word_in(entry.bytes, 0);
        if is_directory(record_of(self.cells, inode)) {
            self.meet(inode)
        } else if name_in(entry.bytes).starts_with(self.prefix) {
            self.tell_file(inode)
        } else {
            Ok(())
        }
    }

    // Puts a directory behind the others, where it isn't among them.
    fn meet(&mut self, directory: u32) -> Result<(), AllocError> {
        if self.directories.iter().any(|met| *met == directory) {
            return Ok(());
        }
        self.directories.push(directory)?;
        Ok(())
    }

    fn tell_file(&mut self, file: u32) -> Result<(), AllocError> {
        let size = number_in(record_of(self.cells, file), 16);
        for slot in 0..size.div_ceil(1_024).min(slots_in(self.cells)) {
            if is_lost(self.alloc, self.cells, file, slot)? {
                self.push_slot(file, slot)?;
            }
        }
        Ok(())
    }

    fn push_slot(&mut self, inode: u32, slot: u64) -> Result<(), AllocError> {
        let line = format!(in self.alloc; "lost {inode} slot {slot}\n")?;
        self.text.extend_from_slice(line.as_bytes())
    }

    // Tells of a name that begins with the prefix.
    fn push_name(&mut self, what: &str, entry: PlacedEntry<'_>) -> Result<(), AllocError> {
        let name = name_in(entry.bytes);
        if !name.starts_with(self.prefix) {
            return Ok(());
        }
        let words = format!(in self.alloc; "{what} {} ", entry.directory)?;
        self.text.extend_from_slice(words.as_bytes())?;
        self.text.extend_from_slice(name)?;
        self.text.push(b'\n')?;
        Ok(())
    }
}

fn is_agreed(cells: &[Cell], inode: u32) -> bool {
    is_mountable(cells) && agreed(cells, inode)
}

fn value_in(alloc: Global, cells: &[Cell], inode: u32, slot: u64) -> Result<Value, AllocError> {
    if is_mountable(cells) && slot < 4_168 {
        value_of(alloc, cells, inode, slot)
    } else {
        Ok(Value::Hole)
    }
}

fn is_lost(alloc: Global, cells: &[Cell], inode: u32, slot: u64) -> Result<bool, AllocError> {
    Ok(matches!(value_in(alloc, cells, inode, slot)?, Value::Lost))
}

// How many slots a file may have.
fn slots_in(cells: &[Cell]) -> u64 {
    match cells.first() {
        Some(cell) if word_in(&cell.payload, 8) == 2 => SLOTS.2,
        _ => SLOTS.1,
    }
}

// The number of four bytes at a place, or 0.
fn word_in(bytes: &[u8], at: usize) -> u32 {
    if at <= bytes.len() && 4 <= bytes.len() - at {
        read_u32_at(bytes, at)
    } else {
        0
    }
}

// The bytes of an inode's record and those behind it in its block, or none.
fn record_of(cells: &[Cell], inode: u32) -> &[u8] {
    let before = (inode as usize).saturating_sub(1);
    let at = (before % 4).saturating_mul(256);
    match cells.get((before / 4).saturating_add(1)) {
        Some(cell) => cell.payload.get(at..).unwrap_or(&[]),
        None => &[],
    }
}

fn is_directory(record: &[u8]) -> bool {
    word_in(record, 8) == 2
}

// Whether 64 bytes are an entry.
fn is_entry(bytes: &[u8]) -> bool {
    let mut cell = Cell::ZERO;
    if bytes.len() <= 1_024 {
        write_bytes_at(&mut cell.payload, 0, bytes);
    }
    names_inode(&cell.payload, 0, word_in(bytes, 0), number_in(bytes, 8))
}

fn name_in(entry: &[u8]) -> &[u8] {
    match entry.get(16..) {
        Some(rest) => rest.get(..word_in(entry, 4) as usize).unwrap_or(rest),
        None => &[],
    }
}

// Whether an entry of an agreed directory names an inode that names the entry back. A directory is
// younger than the one that names it.
fn is_pair(cells: &[Cell], entry: PlacedEntry<'_>) -> bool {
    let inode = word_in(entry.bytes, 0);
    let record = record_of(cells, inode);
    let above = number_in(record_of(cells, entry.directory), 0);
    is_agreed(cells, inode)
        && number_in(record, 0) == number_in(entry.bytes, 8)
        && (!is_directory(record) || above < number_in(record, 0))
        && has_link(record, entry, above)
}

// Whether a record has a back link to an entry of a directory of this generation.
fn has_link(record: &[u8], entry: PlacedEntry<'_>, generation: u64) -> bool {
    [32, 48, 64, 80].iter().any(|at| {
        word_in(record, *at) == entry.directory
            && word_in(record, at.saturating_add(4)) == entry.place
            && number_in(record, at.saturating_add(8)) == generation
    })
}
