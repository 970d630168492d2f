//! The next versions of pages, as far as they are known.
//!
//! Promise: what is noted of a page is there until it is taken. It takes no memory but at first, room of eight bytes a
//! page, and writes to it as far as the last page that was noted.
ghost use Rattle.std.specs.Prelude.{◌≡◌, ◌≢◌, ◌⊎◌, ◌+◌, ◌<◌, ◌≤◌, ℕ, IfOk, IsTrue, length, max, slice_index};
ghost use Rattle.std.specs.Prelude.{vec_capacity};

use crate::put_pages::ALL_PAGES;
use std::alloc::{AllocError, Global};

/// The next versions of pages.
#[derive(Drop)]
pub struct Versions {
    // Of each page the next version, or 0 where it is not known; 0 of those behind.
    next: Vec<u64>,
    ghost room: { 349526 ≤ vec_capacity next },
    ghost within: { length next.items ≤ 349526 },
}

// Adds zeros up to a page, where there is room.
fn reach(next: &mut Vec<u64>, end: usize)
    requires { end ≤ vec_capacity next.old }
    ensures len { length next.new.items ≡ max (length next.old.items) end }
    ensures kept { (p : ℕ) → slice_index next.new.items p ≡ slice_index next.old.items p }
    ensures room { vec_capacity next.old ≤ vec_capacity next.new }
{
    if next.len() < end {
        next.resize(end, 0).unwrap();
    }
}

impl Versions {
    ghost use Rattle.nofs_pages.specs.Twins.{NextsTouch};

    /// None is known. All memory is taken here.
    pub fn new(alloc: Global) -> Result<Versions, AllocError>
        ensures { IfOk result (λ versions. (p : ℕ) → slice_index versions.next.items p ≡ 0) }
    {
        Ok(Versions {
            next: Vec::with_capacity(alloc, ALL_PAGES)?,
        })
    }

    /// Whether those of some pages are all known.
    pub fn has_all(&self, first: u64, count: usize) -> bool
        requires { first + count ≤ 349526 }
        ensures { IsTrue result → (p : ℕ) → first ≤ p → p < first + count → 0 < slice_index self.now.next.items p }
    {
        let first = first as usize;
        for at in first..first + count {
            if at >= self.next.len() || self.next[at] == 0 {
                return false;
            }
        }
        true
    }

    /// Whether the next places of a page and of the one behind it are known to touch: then the first one's next version
    /// is odd, and the other one's is even.
    pub fn touch(&self, page: u64) -> bool
        requires { page + 1 < 349526 }
        ensures { IsTrue result → NextsTouch self.now page }
    {
        let at = page as usize;
        if at + 1 >= self.next.len() {
            return false;
        }
        let (one, two) = (self.next[at], self.next[at + 1]);
        one % 2 == 1 && two != 0 && two % 2 == 0
    }

    /// Notes the next version of a page that has a version. One that has no next is not known.
    pub fn note(&mut self, page: u64, version: u64)
        requires { page < 349526 }
        ensures here { (slice_index self.new.next.items page ≡ version + 1)
            ⊎ (slice_index self.new.next.items page ≡ 0) }
        ensures others { (p : ℕ) → p ≢ page → slice_index self.new.next.items p ≡ slice_index self.old.next.items p }
    {
        let at = page as usize;
        reach(&mut self.next, at + 1);
        self.next[at] = version.checked_add(1).unwrap_or(0);
    }

    /// Answers the next version of a page, 0 where it is not known, and forgets it.
    pub fn take(&mut self, page: u64) -> u64
        requires { page < 349526 }
        ensures result { result ≡ slice_index self.old.next.items page }
        ensures here { slice_index self.new.next.items page ≡ 0 }
        ensures others { (p : ℕ) → p ≢ page → slice_index self.new.next.items p ≡ slice_index self.old.next.items p }
    {
        let at = page as usize;
        reach(&mut self.next, at + 1);
        let next = self.next[at];
        self.next[at] = 0;
        next
    }
}
