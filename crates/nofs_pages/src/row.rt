//! The cells of some neighbouring pages.
//!
//! Promise: it lies within the cells of a file.
ghost use Rattle.std.specs.Prelude.{◌≡◌, ◌⊎◌, ◌+◌, ◌-◌, ◌*◌, ◌<◌, ◌≤◌, ℕ, IfOk, IsFalse, IsTrue, length, slice_index};
ghost use Rattle.std.specs.Prelude.{slice_range};
ghost use Rattle.nofs_disk.specs.Number.{put_bytes};

use crate::page::AREA_BYTES;
use nofs_disk::write_bytes_at;
use std::alloc::{AllocError, Global};
use std::mem;

/// How many pages a row has at most. A window of 66 cells has 22.
pub const ROW_PAGES: usize = 32;

/// How many bytes the cells of these pages have.
pub const ROW_AREA: usize = 101_376;

/// The cells of some pages.
#[derive(Drop)]
pub struct Row {
    /// The number of the first one.
    pub first: u64,
    /// How many there are.
    pub count: usize,
    pub bytes: Vec<u8>,
    ghost size: { length bytes.items ≡ 101376 },
    ghost most: { count ≤ 32 },
    ghost inside: { first + count ≤ 349526 },
    ghost small: { (k : ℕ) → slice_index bytes.items k < 256 },
}

/// So many zeros.
pub fn zeros(alloc: Global, count: usize) -> Result<Vec<u8>, AllocError>
    ensures len { IfOk result (λ bytes. length bytes.items ≡ count) }
    ensures small { IfOk result (λ bytes. (k : ℕ) → slice_index bytes.items k < 256) }
{
    vec![in alloc; 0u8; count]
}

// Copies the cells of a page.
fn copy_area(from: &[u8], at: usize, into: &mut [u8], to: usize)
    requires from { at + 3168 ≤ length from.now }
    requires into { to + 3168 ≤ length into.old }
    ensures { into.new ≡ put_bytes to (slice_range from.now at (at + 3168)) into.old }
{
    write_bytes_at(into, to, &from[at..at + AREA_BYTES]);
}

/// Puts some bytes at their place.
pub fn put_part(bytes: &mut Vec<u8>, at: usize, part: &[u8])
    requires { at + length part.now ≤ length bytes.old.items }
    ensures len { length bytes.new.items ≡ length bytes.old.items }
    ensures part { bytes.new.items ≡ put_bytes at part.now bytes.old.items }
    ensures small { (k : ℕ) → slice_index bytes.new.items k < 256 }
{
    write_bytes_at(bytes.as_mut_slice(), at, part);
}

// Bytes are below 256.
fn note_bytes(bytes: &Vec<u8>)
    ensures { (k : ℕ) → slice_index bytes.now.items k < 256 }
{}

impl Row {
    /// No page.
    pub fn new(alloc: Global) -> Result<Row, AllocError>
        ensures { IfOk result (λ row. row.count ≡ 0) }
    {
        Ok(Row {
            first: 0,
            count: 0,
            bytes: zeros(alloc, ROW_AREA)?,
        })
    }

    /// It has the cells of other pages now; what it had is handed back.
    pub fn turn(&mut self, first: u64, count: usize, areas: &mut Vec<u8>)
        requires size { length areas.old.items ≡ 101376 }
        requires most { count ≤ 32 }
        requires inside { first + count ≤ 349526 }
        ensures first { self.new.first ≡ first }
        ensures count { self.new.count ≡ count }
        ensures bytes { self.new.bytes.items ≡ areas.old.items }
        ensures back { areas.new.items ≡ self.old.bytes.items }
    {
        note_bytes(areas);
        mem::swap(&mut self.bytes, areas);
        self.first = first;
        self.count = count;
    }

    /// Puts some bytes among its cells.
    pub fn put(&mut self, at: usize, part: &[u8])
        requires { at + length part.now ≤ 3168 * self.old.count }
        ensures first { self.new.first ≡ self.old.first }
        ensures count { self.new.count ≡ self.old.count }
        ensures part { self.new.bytes.items ≡ put_bytes at part.now self.old.bytes.items }
    {
        put_part(&mut self.bytes, at, part);
    }

    /// Copies the cells of one of its pages to a place.
    pub fn copy(&self, number: u64, areas: &mut Vec<u8>, to: usize)
        requires low { self.now.first ≤ number }
        requires high { number < self.now.first + self.now.count }
        requires areas { to + 3168 ≤ length areas.old.items }
        ensures len { length areas.new.items ≡ length areas.old.items }
        ensures part { let at = 3168 * (number - self.now.first) in
            areas.new.items ≡ put_bytes to (slice_range self.now.bytes.items at (at + 3168)) areas.old.items }
    {
        let at = AREA_BYTES * (number - self.first) as usize;
        copy_area(self.bytes.as_slice(), at, areas.as_mut_slice(), to);
    }

    /// Whether it has a page.
    pub fn has(&self, number: u64) -> bool
        ensures yes { IsTrue result → (self.now.first ≤ number) × (number < self.now.first + self.now.count) }
        ensures no { IsFalse result → (number < self.now.first) ⊎ (self.now.first + self.now.count ≤ number) }
    {
        self.first <= number && number < self.first + self.count as u64
    }

    /// Whether it has none of some pages.
    pub fn is_apart(&self, first: u64, count: usize) -> bool
        requires { first + count ≤ 349526 }
        ensures { IsTrue result → (first + count ≤ self.now.first) ⊎ (self.now.first + self.now.count ≤ first) }
    {
        first + count as u64 <= self.first || self.first + self.count as u64 <= first
    }
}
