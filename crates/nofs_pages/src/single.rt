//! A file with one place for each page: page `p` has the 4,096 bytes from `4096 * p` on.
//!
//! Promise: a page whose magic, number or sum is wrong can't be told, but in a file that is going to be written anew,
//! where it has zeros until the first sync. What lies past the end has zeros.
ghost use Rattle.std.specs.Prelude.{◌≡◌, ◌⊎◌, ◌+◌, ◌*◌, ◌^◌, ◌<◌, ◌≤◌, ℕ, IfOk, IsFalse, IsTrue, OnErr, OnOk, length};
ghost use Rattle.std.specs.Prelude.{take};
ghost use Rattle.nofs_disk.specs.Disk.{Rose};
ghost use Rattle.nofs_filedisk.specs.Bytes.{IsPartlyPut, IsPut, KeepsBytes, KeepsDurable};
ghost use Rattle.nofs_pages.specs.Pages.{HasAreas, HasPages, HasTold};
ghost use Rattle.nofs_pages.specs.Singles.{HasRead, SingleRests, SingleTold};

use crate::page::{PAGE_BYTES, open_pages, seal_pages};
use crate::row::zeros;
use crate::store::PageStore;
use nofs_disk::Failed;
use nofs_filedisk::{Positioned, read_part, write_part};
use std::alloc::{AllocError, Global};

/// How many bytes 32 pages have: so many a call of the file reads or writes at most.
const ROW_BYTES: usize = 131_072;

/// A file with one place for each page.
#[derive(Drop)]
pub struct Single<B: Positioned + Drop> {
    file: B,
    // Whether the file is going to be written anew: until its first sync a page that can't be told has zeros.
    fresh: bool,
    // Where pages are made, and read.
    pages: Vec<u8>,
    ghost size: { length pages.items ≡ 131072 },
}

// Reads some pages.
fn read_pages<B: Positioned>(
    file: &mut B,
    first: u64,
    count: usize,
    into: &mut Vec<u8>,
) -> Result<(), Failed>
    requires place { first + count ≤ 349526 }
    requires size { 4096 * count ≤ length into.old.items }
    ensures keeps { KeepsBytes (B.state file.old) (B.state file.new) }
    ensures len { length into.new.items ≡ length into.old.items }
    ensures part { OnOk result (IsTrue (B.state file.old).tells
        → HasRead (B.state file.old).bytes first count into.new.items) }
    ensures cause { OnErr result (Rose (B.state file.old).faults (B.state file.new).faults) }
    ensures no_fault { OnOk result ((B.state file.new).faults ≡ (B.state file.old).faults) }
{
    let end = PAGE_BYTES * count;
    read_part(
        file,
        PAGE_BYTES as u64 * first,
        &mut into.as_mut_slice()[0..end],
    )
}

// Writes some pages.
fn write_pages<B: Positioned>(
    file: &mut B,
    first: u64,
    count: usize,
    pages: &[u8],
) -> Result<(), Failed>
    requires place { first + count ≤ 349526 }
    requires size { 4096 * count ≤ length pages.now }
    ensures keeps { KeepsDurable (B.state file.old) (B.state file.new) }
    ensures put { OnOk result (IsTrue (B.state file.old).tells
        → IsPut (4096 * first) (take (4096 * count) pages.now) (B.state file.old).bytes (B.state file.new).bytes) }
    ensures err { OnErr result (IsTrue (B.state file.old).tells
        → IsPartlyPut (4096 * first) (take (4096 * count) pages.now)
        (B.state file.old).bytes (B.state file.new).bytes) }
    ensures cause { OnErr result (Rose (B.state file.old).faults (B.state file.new).faults) }
    ensures no_fault { OnOk result ((B.state file.new).faults ≡ (B.state file.old).faults) }
{
    write_part(
        file,
        PAGE_BYTES as u64 * first,
        &pages[..PAGE_BYTES * count],
    )
}

// The cells of some pages that were read, from a place on.
fn open_row(
    pages: &Vec<u8>,
    first: u64,
    count: usize,
    fresh: bool,
    into: &mut [u8],
    to: usize,
) -> bool
    requires pages { 4096 * count ≤ length pages.now.items }
    requires into { to + 3168 * count ≤ length into.old }
    requires number { first + count < 2 ^ 60 }
    ensures len { length into.new ≡ length into.old }
    ensures areas { IsTrue result → HasAreas pages.now.items first count to into.old into.new }
    ensures told { IsTrue result → IsFalse fresh → HasTold pages.now.items first count }
{
    open_pages(pages.as_slice(), first, count, fresh, into, to)
}

// Makes some pages.
fn seal_row(areas: &[u8], first: u64, count: usize, pages: &mut Vec<u8>)
    requires areas { 3168 * count ≤ length areas.now }
    requires pages { 4096 * count ≤ length pages.old.items }
    requires number { first + count < 2 ^ 60 }
    ensures len { length pages.new.items ≡ length pages.old.items }
    ensures pages { HasPages areas.now first count pages.new.items }
{
    seal_pages(areas, first, count, pages.as_mut_slice());
}

impl<B: Positioned + Drop> Single<B> {
    /// The pages of a file, which nothing else writes from now on. All memory is taken here. `fresh` says that it is
    /// going to be written anew, whatever is in it.
    pub fn over(alloc: Global, file: B, fresh: bool) -> Result<Single<B>, AllocError>
        requires { (p : ℕ) → SingleRests (B.state file) p }
        ensures file { IfOk result (λ single. single.file ≡ file) }
        ensures fresh { IfOk result (λ single. single.fresh ≡ fresh) }
        ensures rests { IfOk result (λ single. (p : ℕ) → (⟦<Single<B> as PageStore>⟧.rests single p)) }
    {
        Ok(Single {
            file,
            fresh,
            pages: zeros(alloc, ROW_BYTES)?,
        })
    }

    /// The file.
    pub fn into_file(self) -> B
        ensures { result ≡ self.file }
    {
        self.file
    }
}

impl<B: Positioned + Drop> PageStore for Single<B> {
    ghost use Rattle.nofs_pages.specs.Laws.{single_is};
    ghost use Rattle.nofs_pages.specs.Singles.{SingleRests, SingleTold, WritesPages, single_state};
    ghost use Rattle.nofs_pages.specs.Stores.{Puts, SyncsPages};

    ghost state = { λ s. single_state (B.state s.file) };

    ghost rests = { λ s p. SingleRests (B.state s.file) p };

    ghost told = { λ s p. SingleTold (B.state s.file) s.fresh p };

    fn show(
        &mut self,
        first: u64,
        count: usize,
        into: &mut [u8],
        to: usize,
    ) -> Result<bool, Failed> {
        read_pages(&mut self.file, first, count, &mut self.pages)?;
        let fresh = self.fresh;
        Ok(open_row(&self.pages, first, count, fresh, into, to))
    }

    /// What was durable stays so. Each byte of these pages is what it was, which is durable, or that of the page that
    /// is put.
    fn put(&mut self, first: u64, count: usize, areas: &[u8]) -> Result<(), Failed>
        requires place { first + count ≤ 349526 }
        requires count { count ≤ 32 }
        requires areas { 3168 * count ≤ length areas.now }
        requires rests { (p : ℕ) → first ≤ p → p < first + count → ∥ SingleRests (B.state self.old.file) p ∥₁ }
        ensures puts { Puts (single_state (B.state self.old.file)) (single_state (B.state self.new.file)) first count
            areas.now result }
        ensures rests { (p : ℕ) → (p < first) ⊎ (first + count ≤ p)
            → SingleRests (B.state self.old.file) p → SingleRests (B.state self.new.file) p }
        ensures durable { (B.state self.new.file).durable ≡ (B.state self.old.file).durable }
        ensures writes { IsTrue (B.state self.old.file).tells
            → WritesPages (B.state self.old.file).bytes (B.state self.new.file).bytes first count areas.now }
    {
        seal_row(areas, first, count, &mut self.pages);
        write_pages(&mut self.file, first, count, self.pages.as_slice())
    }

    /// After one that succeeded the file isn't fresh.
    fn sync(&mut self) -> Result<(), Failed>
        ensures syncs { SyncsPages (single_state (B.state self.old.file))
            (single_state (B.state self.new.file)) result }
        ensures rests { OnOk result ((p : ℕ) → SingleRests (B.state self.new.file) p) }
        ensures told { OnOk result (IsFalse self.new.fresh) }
    {
        self.file.sync()?;
        self.fresh = false;
        Ok(())
    }

    ghost is_store = { λ s. single_is (B.state s.file) (B.is_file s.file) };
}
