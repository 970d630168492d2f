//! The cells of some pages, put together from a row and from the pages themselves.
//!
//! Promise: where the row has a page, it stands in place of what there is; what can't be told is not shown.
ghost use Rattle.std.specs.Prelude.{◌≡◌, ◌⊎◌, ◌+◌, ◌*◌, ◌/◌, ◌<◌, ◌≤◌, ℕ, IfOk, IsTrue, OnErr, OnOk, length};
ghost use Rattle.nofs_disk.specs.Disk.{Rose};
ghost use Rattle.nofs_pages.specs.Stores.{KeepsCells, Shows};
ghost use Rattle.nofs_pages.specs.Views.{FetchesFirst, FetchesLast, HasTold, IsComposed, ShowsCells, byte_over};

use crate::page::AREA_BYTES;
use crate::row::{Row, put_part};
use crate::store::PageStore;
use nofs_disk::Failed;

/// How many pages have so many bytes of cells.
pub fn pages_of(end: usize) -> usize
    requires { end ≤ 101376 }
    ensures { result ≡ (end + 3167) / 3168 }
{
    (end + (AREA_BYTES - 1)) / AREA_BYTES
}

// Shows the cells of some pages among these, from a place on.
fn show_among<S: PageStore>(
    store: &mut S,
    first: u64,
    count: usize,
    areas: &mut Vec<u8>,
    to: usize,
) -> Result<bool, Failed>
    requires place { first + count ≤ 349526 }
    requires count { count ≤ 32 }
    requires areas { to + 3168 * count ≤ length areas.old.items }
    ensures shows { Shows (S.state store.old) (S.state store.new) first count to areas.old.items areas.new.items
        result }
    ensures told { IfOk result (λ all. IsTrue all → (j : ℕ) → j < count → S.told store.new (first + j)) }
    ensures stays_told { (p : ℕ) → S.told store.old p → S.told store.new p }
    ensures rests { (p : ℕ) → S.rests store.old p → S.rests store.new p }
{
    store.show(first, count, areas.as_mut_slice(), to)
}

/// Puts the cells of a page to a place, from the row or from the pages.
pub fn fetch<S: PageStore>(
    store: &mut S,
    row: &Row,
    number: u64,
    areas: &mut Vec<u8>,
    to: usize,
) -> Result<bool, Failed>
    requires place { number < 349526 }
    requires areas { to + 3168 ≤ length areas.old.items }
    ensures keeps { KeepsCells (S.state store.old) (S.state store.new) }
    ensures rests { (p : ℕ) → S.rests store.old p → S.rests store.new p }
    ensures stays_told { (p : ℕ) → S.told store.old p → S.told store.new p }
    ensures len { length areas.new.items ≡ length areas.old.items }
    ensures cells { IfOk result (λ all. IsTrue all → IsTrue (S.state store.old).tells
        → ShowsCells (byte_over (S.state store.old).bytes row.now) number 1 to areas.old.items areas.new.items) }
    ensures told { IfOk result (λ all. IsTrue all → HasTold (S.told store.new) row.now number 1) }
    ensures cause { OnErr result (Rose (S.state store.old).faults (S.state store.new).faults) }
    ensures no_fault { OnOk result ((S.state store.new).faults ≡ (S.state store.old).faults) }
{
    if row.has(number) {
        row.copy(number, areas, to);
        return Ok(true);
    }
    show_among(store, number, 1, areas, to)
}

/// The cells of some pages, one after the other.
pub fn gather<S: PageStore>(
    store: &mut S,
    row: &Row,
    first: u64,
    count: usize,
    areas: &mut Vec<u8>,
) -> Result<bool, Failed>
    requires place { first + count ≤ 349526 }
    requires count { count ≤ 32 }
    requires areas { length areas.old.items ≡ 101376 }
    ensures keeps { KeepsCells (S.state store.old) (S.state store.new) }
    ensures rests { (p : ℕ) → S.rests store.old p → S.rests store.new p }
    ensures len { length areas.new.items ≡ 101376 }
    ensures cells { IfOk result (λ all. IsTrue all → IsTrue (S.state store.old).tells
        → ShowsCells (byte_over (S.state store.old).bytes row.now) first count 0 areas.old.items areas.new.items) }
    ensures told { IfOk result (λ all. IsTrue all → HasTold (S.told store.new) row.now first count) }
    ensures cause { OnErr result (Rose (S.state store.old).faults (S.state store.new).faults) }
    ensures no_fault { OnOk result ((S.state store.new).faults ≡ (S.state store.old).faults) }
{
    if row.is_apart(first, count) {
        return show_among(store, first, count, areas, 0);
    }
    for at in 0..count {
        if !fetch(store, row, first + at as u64, areas, AREA_BYTES * at)? {
            return Ok(false);
        }
    }
    Ok(true)
}

// Fetches the first page that some bytes go to, where they don't go to all of it.
fn fetch_first<S: PageStore>(
    store: &mut S,
    row: &Row,
    first: u64,
    offset: usize,
    end: usize,
    areas: &mut Vec<u8>,
) -> Result<bool, Failed>
    requires place { first < 349526 }
    requires areas { length areas.old.items ≡ 101376 }
    ensures keeps { KeepsCells (S.state store.old) (S.state store.new) }
    ensures rests { (p : ℕ) → S.rests store.old p → S.rests store.new p }
    ensures len { length areas.new.items ≡ 101376 }
    ensures cells { IfOk result (λ all. IsTrue all → IsTrue (S.state store.old).tells
        → FetchesFirst (byte_over (S.state store.old).bytes row.now) first offset end areas.new.items) }
    ensures cause { OnErr result (Rose (S.state store.old).faults (S.state store.new).faults) }
    ensures no_fault { OnOk result ((S.state store.new).faults ≡ (S.state store.old).faults) }
{
    if offset > 0 || end < AREA_BYTES {
        fetch(store, row, first, areas, 0)
    } else {
        Ok(true)
    }
}

// Fetches the last of several pages that some bytes go to, where they don't go to all of it.
fn fetch_last<S: PageStore>(
    store: &mut S,
    row: &Row,
    first: u64,
    count: usize,
    end: usize,
    areas: &mut Vec<u8>,
) -> Result<bool, Failed>
    requires place { first + count ≤ 349526 }
    requires count { count ≤ 32 }
    requires areas { length areas.old.items ≡ 101376 }
    ensures keeps { KeepsCells (S.state store.old) (S.state store.new) }
    ensures rests { (p : ℕ) → S.rests store.old p → S.rests store.new p }
    ensures len { length areas.new.items ≡ 101376 }
    ensures cells { IfOk result (λ all. IsTrue all → IsTrue (S.state store.old).tells
        → FetchesLast (byte_over (S.state store.old).bytes row.now) first count end areas.old.items areas.new.items) }
    ensures cause { OnErr result (Rose (S.state store.old).faults (S.state store.new).faults) }
    ensures no_fault { OnOk result ((S.state store.new).faults ≡ (S.state store.old).faults) }
{
    if count > 1 && end < AREA_BYTES * count {
        let last = count - 1;
        fetch(store, row, first + last as u64, areas, AREA_BYTES * last)
    } else {
        Ok(true)
    }
}

/// Puts together the cells of the pages that some bytes go to, with them.
pub fn compose<S: PageStore>(
    store: &mut S,
    row: &Row,
    first: u64,
    offset: usize,
    from: &[u8],
    areas: &mut Vec<u8>,
) -> Result<bool, Failed>
    requires some { 0 < length from.now }
    requires offset { offset < 3168 }
    requires fits { offset + length from.now ≤ 101376 }
    requires place { 3168 * first + offset + length from.now ≤ 1107296256 }
    requires areas { length areas.old.items ≡ 101376 }
    ensures keeps { KeepsCells (S.state store.old) (S.state store.new) }
    ensures rests { (p : ℕ) → S.rests store.old p → S.rests store.new p }
    ensures len { length areas.new.items ≡ 101376 }
    ensures composed { IfOk result (λ all. IsTrue all → IsTrue (S.state store.old).tells
        → IsComposed (byte_over (S.state store.old).bytes row.now) first offset from.now areas.new.items) }
    ensures cause { OnErr result (Rose (S.state store.old).faults (S.state store.new).faults) }
    ensures no_fault { OnOk result ((S.state store.new).faults ≡ (S.state store.old).faults) }
{
    let end = offset + from.len();
    let begins = fetch_first(store, row, first, offset, end, areas)?;
    let ends = fetch_last(store, row, first, pages_of(end), end, areas)?;
    put_part(areas, offset, from);
    Ok(begins && ends)
}
