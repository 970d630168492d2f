//! Which pages were put since the last sync.
//!
//! Promise: one that is added is one of them, until all are forgotten. It takes no memory but at first, room of a byte
//! a page, and writes to it as far as the last page that was put.
ghost use Rattle.std.specs.Prelude.{◌≡◌, ◌⊎◌, ◌+◌, ◌<◌, ◌≤◌, ℕ, IfOk, IsFalse, length, max, slice_index, vec_capacity};

use std::alloc::{AllocError, Global};

/// How many pages the cells of a disk take: 1,048,576 cells, three a page.
pub const ALL_PAGES: usize = 349_526;

/// The pages that were put.
#[derive(Drop)]
pub struct PutPages {
    // Of each page whether it was, as 1 or 0; 0 of those behind.
    pages: Vec<u8>,
    ghost room: { 349526 ≤ vec_capacity pages },
    ghost within: { length pages.items ≤ 349526 },
}

// Adds zeros up to a page, where there is room.
fn reach(pages: &mut Vec<u8>, end: usize)
    requires { end ≤ vec_capacity pages.old }
    ensures len { length pages.new.items ≡ max (length pages.old.items) end }
    ensures kept { (p : ℕ) → slice_index pages.new.items p ≡ slice_index pages.old.items p }
    ensures room { vec_capacity pages.old ≤ vec_capacity pages.new }
{
    if pages.len() < end {
        pages.resize(end, 0).unwrap();
    }
}

impl PutPages {
    ghost use Rattle.nofs_pages.specs.Views.{AreOld, IsOld};

    /// None. All memory is taken here.
    pub fn new(alloc: Global) -> Result<PutPages, AllocError>
        ensures { IfOk result (λ put. (p : ℕ) → IsOld put p) }
    {
        Ok(PutPages {
            pages: Vec::with_capacity(alloc, ALL_PAGES)?,
        })
    }

    /// Whether one of some pages was put.
    pub fn has_any(&self, first: u64, count: usize) -> bool
        requires { first + count ≤ 349526 }
        ensures { IsFalse result → AreOld self.now first count }
    {
        let first = first as usize;
        for at in first..first + count {
            if at < self.pages.len() && self.pages[at] != 0 {
                return true;
            }
        }
        false
    }

    /// Some pages are put.
    pub fn add(&mut self, first: u64, count: usize)
        requires { first + count ≤ 349526 }
        ensures here { (p : ℕ) → first ≤ p → p < first + count → slice_index self.new.pages.items p ≡ 1 }
        ensures others { (p : ℕ) → (p < first) ⊎ (first + count ≤ p)
            → slice_index self.new.pages.items p ≡ slice_index self.old.pages.items p }
    {
        let first = first as usize;
        reach(&mut self.pages, first + count);
        for at in first..first + count {
            self.pages[at] = 1;
        }
    }

    /// Forgets them all.
    pub fn clear(&mut self)
        ensures { (p : ℕ) → IsOld self.new p }
    {
        self.pages.clear();
    }
}
