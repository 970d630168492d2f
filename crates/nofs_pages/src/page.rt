//! A page of 4,096 bytes: a magic, its number, a sum, and three cells behind them.
//!
//! Promise: the bytes of a page's cells are shown only where its magic, its number and its sum are right.
//!
//! | Bytes | What |
//! |---|---|
//! | 0..8 | "NoFSpage" |
//! | 8..16 | its number, so that a write that went to another place is found |
//! | 16..24 | XXH64 of the bytes 928..4096, with its number as the seed |
//! | 24..928 | zeros, which nobody looks at |
//! | 928..4096 | three cells |
ghost use Rattle.std.specs.Prelude.{◌≡◌, ◌==◌, ◌+◌, ◌*◌, ◌-◌, ◌/◌, ◌%◌, ◌<◌, ◌≤◌, ◌^◌, ℕ, IsFalse, IsTrue, length};
ghost use Rattle.std.specs.Prelude.{slice_range};
ghost use Rattle.std.specs.List.{list_all};
ghost use Rattle.nofs_disk.specs.Number.{put_bytes, zeros};
ghost use Rattle.nofs_pages.specs.Pages.{HasAreas, HasPages, HasTold, IsBlank, IsTold, area_of, is_made, is_page};
ghost use Rattle.nofs_pages.specs.Pages.{sealed, signed};

use crate::sum::sum_of;
use nofs_disk::{clear, read_u64_at, write_bytes_at, write_u64_at};

/// How many bytes a page has.
pub const PAGE_BYTES: usize = 4_096;

/// Where its cells begin.
pub const AREA_AT: usize = 928;

/// How many bytes its cells have.
pub const AREA_BYTES: usize = 3_168;

/// "NoFSpage" as a number.
pub const MAGIC: u64 = 0x6567_6170_5346_6f4e;

/// Whether these bytes begin with a magic and a number, and their sum is that of what stands from a place on.
#[tactic(auto, unfolding(crate::specs::Pages::is_made))]
pub fn is_made(magic: u64, at: usize, page: &[u8], number: u64) -> bool
    requires page { length page.now ≡ 4096 }
    requires at { at ≤ 4096 }
    ensures { result ≡ is_made magic at number page.now }
{
    read_u64_at(page, 0) == magic
        && read_u64_at(page, 8) == number
        && read_u64_at(page, 16) == sum_of(&page[at..PAGE_BYTES], number)
}

/// Whether these bytes are the page with a number.
pub fn is_page(page: &[u8], number: u64) -> bool
    requires { length page.now ≡ 4096 }
    ensures { result ≡ is_page number page.now }
{
    is_made(MAGIC, AREA_AT, page, number)
}

// Clears what a page has before a place.
#[tactic(auto, unfolding(nofs_disk::specs::Number::put_bytes))]
fn clear_front(page: &mut [u8], at: usize)
    requires { at ≤ length page.old }
    ensures { page.new ≡ put_bytes 0 (zeros at) page.old }
{
    clear(&mut page[0..at]);
}

/// Puts some bytes at the end of a page, from a place on, with zeros before them.
pub fn lay(page: &mut [u8], at: usize, body: &[u8])
    requires body { at + length body.now ≡ 4096 }
    requires page { length page.old ≡ 4096 }
    ensures { page.new ≡ put_bytes at body.now (zeros 4096) }
{
    clear_front(page, at);
    write_bytes_at(page, at, body);
}

/// Puts a magic, a number and the sum of what stands from a place on at the beginning of a page.
#[tactic(auto, unfolding(crate::specs::Pages::signed))]
pub fn sign(magic: u64, at: usize, number: u64, page: &mut [u8])
    requires at { at ≤ 4096 }
    requires page { length page.old ≡ 4096 }
    ensures { page.new ≡ signed magic at number page.old }
{
    let sum = sum_of(&page[at..PAGE_BYTES], number);
    write_u64_at(page, 0, magic);
    write_u64_at(page, 8, number);
    write_u64_at(page, 16, sum);
}

// Makes the page with a number and these cells.
fn seal(number: u64, area: &[u8], page: &mut [u8])
    requires area { length area.now ≡ 3168 }
    requires page { length page.old ≡ 4096 }
    ensures { page.new ≡ sealed number area.now }
{
    lay(page, AREA_AT, area);
    sign(MAGIC, AREA_AT, number, page);
}

/// Whether all bytes are zeros. Their bits are joined up to the end, which LLVM does for many bytes at once; to stop at
/// the first other one it looks at each.
pub fn is_blank(page: &[u8]) -> bool
    ensures value { result ≡ list_all (λ byte. byte == 0) page.now }
    ensures blank { IsTrue result → IsBlank page.now }
{
    let mut joined = 0u8;
    for byte in page {
        joined |= *byte;
    }
    joined == 0
}

/// Clears the cells of a page at a place.
#[tactic(auto, unfolding(nofs_disk::specs::Number::put_bytes))]
pub fn clear_area(into: &mut [u8], at: usize)
    requires { at + 3168 ≤ length into.old }
    ensures { into.new ≡ put_bytes at (zeros 3168) into.old }
{
    clear(&mut into[at..at + AREA_BYTES]);
}

// Shows the cells of one of several pages. One that is neither the page with its number nor blank shows zeros where it
// is going to be written over, else it can't be told.
fn open_one(raw: &[u8], from: usize, number: u64, fresh: bool, into: &mut [u8], to: usize) -> bool
    requires raw { from + 4096 ≤ length raw.now }
    requires into { to + 3168 ≤ length into.old }
    ensures len { length into.new ≡ length into.old }
    ensures area { IsTrue result
        → into.new ≡ put_bytes to (area_of number (slice_range raw.now from (from + 4096))) into.old }
    ensures told { IsTrue result → IsFalse fresh → IsTold number (slice_range raw.now from (from + 4096)) }
{
    let page = &raw[from..from + PAGE_BYTES];
    if is_page(page, number) {
        write_bytes_at(into, to, &page[AREA_AT..PAGE_BYTES]);
        return true;
    }
    clear_area(into, to);
    fresh || is_blank(page)
}

/// Shows the cells of some pages, the first of which has a number, from a place on; where one can't be told, of those
/// before it alone.
pub fn open_pages(
    raw: &[u8],
    first: u64,
    count: usize,
    fresh: bool,
    into: &mut [u8],
    to: usize,
) -> bool
    requires raw { 4096 * count ≤ length raw.now }
    requires into { to + 3168 * count ≤ length into.old }
    requires number { first + count < 2 ^ 60 }
    ensures len { length into.new ≡ length into.old }
    ensures areas { IsTrue result → HasAreas raw.now first count to into.old into.new }
    ensures told { IsTrue result → IsFalse fresh → HasTold raw.now first count }
{
    for at in 0..count {
        if !open_one(
            raw,
            PAGE_BYTES * at,
            first + at as u64,
            fresh,
            into,
            to + AREA_BYTES * at,
        ) {
            return false;
        }
    }
    true
}

// Makes one of several pages.
fn seal_one(area: &[u8], from: usize, number: u64, raw: &mut [u8], to: usize)
    requires area { from + 3168 ≤ length area.now }
    requires raw { to + 4096 ≤ length raw.old }
    ensures { raw.new ≡ put_bytes to (sealed number (slice_range area.now from (from + 3168))) raw.old }
{
    seal(
        number,
        &area[from..from + AREA_BYTES],
        &mut raw[to..to + PAGE_BYTES],
    );
}

/// Makes some pages of their cells; the first has a number.
pub fn seal_pages(areas: &[u8], first: u64, count: usize, raw: &mut [u8])
    requires areas { 3168 * count ≤ length areas.now }
    requires raw { 4096 * count ≤ length raw.old }
    requires number { first + count < 2 ^ 60 }
    ensures len { length raw.new ≡ length raw.old }
    ensures pages { HasPages areas.now first count raw.new }
{
    for at in 0..count {
        seal_one(
            areas,
            AREA_BYTES * at,
            first + at as u64,
            raw,
            PAGE_BYTES * at,
        );
    }
}
