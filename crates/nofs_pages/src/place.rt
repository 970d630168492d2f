//! A page in two places of 4,096 bytes, each with a magic, the page's number, a sum, a version, and three cells.
//!
//! Promise: the bytes of a page's cells are shown only where magic, number, sum and version of a place are right: of
//! two such places those with the higher version.
//!
//! | Bytes of a place | What |
//! |---|---|
//! | 0..8 | "NoFStwin" |
//! | 8..16 | the number of the page, so that a write that went to another place is found |
//! | 16..24 | XXH64 of the bytes 896..4096, with the number as the seed |
//! | 24..896 | zeros, which nobody looks at |
//! | 896..904 | the version: an even one in the first place, an odd one in the second |
//! | 904..928 | zeros |
//! | 928..4096 | three cells |
//!
//! A page of which neither place is right has zeros, and is told where one of them is blank. The first place is an even
//! page's own, the second one an odd page's. Where its own is blank, the page has the version 0 or 1 that would stand
//! there, else the other one: so what another layout left at the beginning of a file is written over first, and the
//! places that two neighbours get first touch.
ghost use Rattle.std.specs.Prelude.{◌≡◌, ◌+◌, ◌*◌, ◌<◌, ◌≤◌, ◌^◌, ◌%◌, ℕ, IfSome, IsFalse, IsTrue, length, slice_range};
ghost use Rattle.nofs_disk.specs.CellsOfBytes.{part_of};
ghost use Rattle.nofs_disk.specs.Number.{put_bytes};
ghost use Rattle.nofs_pages.specs.Twins.{HasTwinAreas, HasTwinsTold, IsTwinTold, LearnsVersions, current_of, is_blank};
ghost use Rattle.nofs_pages.specs.Twins.{is_twin};
ghost use Rattle.nofs_pages.specs.Twins.{twin_area, twin_sealed, twin_version, version_in, version_of_none};

use crate::page::{AREA_AT, AREA_BYTES, PAGE_BYTES, clear_area, is_blank, is_made, lay, sign};
use crate::versions::Versions;
use nofs_disk::{read_u64_at, write_bytes_at, write_u64_at};

/// How many bytes both places of a page have.
pub const PAIR_BYTES: usize = 8_192;

/// "NoFStwin" as a number.
pub const TWIN_MAGIC: u64 = 0x6e69_7774_5346_6f4e;

/// Where in a place stands what is under its sum, the version first.
const BODY_AT: usize = 896;

/// Which place of a page is current.
#[derive(Clone, Copy, Debug, PartialEq, Eq)]
pub enum Current {
    First,
    Second,
    /// Neither is told.
    Neither,
}

// The version in a place.
#[tactic(auto, unfolding(crate::specs::Twins::version_in))]
fn version_at(page: &[u8]) -> u64
    requires { length page.now ≡ 4096 }
    ensures { result ≡ version_in page.now }
{
    read_u64_at(page, BODY_AT)
}

// Whether a place, 0 or 1, is told.
#[tactic(auto, unfolding(crate::specs::Twins::is_twin))]
fn is_told(place: u64, page: &[u8], number: u64) -> bool
    requires { length page.now ≡ 4096 }
    ensures { result ≡ is_twin place number page.now }
{
    is_made(TWIN_MAGIC, BODY_AT, page, number) && version_at(page) % 2 == place
}

/// Which place of a page is current. The sum of the one with the higher version is looked at first, and mostly alone.
#[tactic(auto, unfolding(crate::specs::Twins::current_of))]
pub fn judge(one: &[u8], two: &[u8], number: u64) -> Current
    requires one { length one.now ≡ 4096 }
    requires two { length two.now ≡ 4096 }
    ensures { result ≡ current_of number one.now two.now }
{
    let later = version_at(one) < version_at(two);
    if later && is_told(1, two, number) {
        Current::Second
    } else if is_told(0, one, number) {
        Current::First
    } else if !later && is_told(1, two, number) {
        Current::Second
    } else {
        Current::Neither
    }
}

// Copies the cells of a place, and answers its version.
fn copy_place(page: &[u8], into: &mut [u8], to: usize) -> u64
    requires page { length page.now ≡ 4096 }
    requires into { to + 3168 ≤ length into.old }
    ensures area { into.new ≡ put_bytes to (slice_range page.now 928 4096) into.old }
    ensures version { result ≡ version_in page.now }
{
    write_bytes_at(into, to, &page[AREA_AT..PAGE_BYTES]);
    version_at(page)
}

// The version of a page of which neither place is told.
fn version_of_none(one: &[u8], two: &[u8], number: u64) -> u64
    ensures { result ≡ version_of_none number one.now two.now }
{
    if number % 2 == 0 {
        if is_blank(one) { 0 } else { 1 }
    } else if is_blank(two) {
        1
    } else {
        0
    }
}

// Shows the cells of a page, and answers its version. One that can't be told has zeros where it is going to be written
// over, else there is no answer.
#[tactic(auto, unfolding(crate::specs::Twins::twin_area, crate::specs::Twins::twin_version))]
fn open_pair(
    one: &[u8],
    two: &[u8],
    number: u64,
    fresh: bool,
    into: &mut [u8],
    to: usize,
) -> Option<u64>
    requires one { length one.now ≡ 4096 }
    requires two { length two.now ≡ 4096 }
    requires into { to + 3168 ≤ length into.old }
    ensures area { into.new ≡ put_bytes to (twin_area number one.now two.now) into.old }
    ensures version { IfSome result (λ version. version ≡ twin_version number one.now two.now) }
    ensures told { IfSome result (λ version. IsFalse fresh → IsTwinTold number one.now two.now) }
{
    match judge(one, two, number) {
        Current::First => Some(copy_place(one, into, to)),
        Current::Second => Some(copy_place(two, into, to)),
        Current::Neither => {
            clear_area(into, to);
            if fresh || is_blank(one) || is_blank(two) {
                Some(version_of_none(one, two, number))
            } else {
                None
            }
        }
    }
}

// The version of a page.
#[tactic(auto, unfolding(crate::specs::Twins::twin_version))]
fn version_of(one: &[u8], two: &[u8], number: u64) -> u64
    requires one { length one.now ≡ 4096 }
    requires two { length two.now ≡ 4096 }
    ensures { result ≡ twin_version number one.now two.now }
{
    match judge(one, two, number) {
        Current::First => version_at(one),
        Current::Second => version_at(two),
        Current::Neither => version_of_none(one, two, number),
    }
}

/// Shows the cells of some pages, the first of which has a number, from a place on, and notes their versions; where one
/// can't be told, of those before it alone.
pub fn open_pairs(
    raw: &[u8],
    first: u64,
    count: usize,
    fresh: bool,
    versions: &mut Versions,
    into: &mut [u8],
    to: usize,
) -> bool
    requires raw { 8192 * count ≤ length raw.now }
    requires into { to + 3168 * count ≤ length into.old }
    requires number { first + count ≤ 349526 }
    ensures len { length into.new ≡ length into.old }
    ensures areas { IsTrue result → HasTwinAreas raw.now first count to into.old into.new }
    ensures told { IsTrue result → IsFalse fresh → HasTwinsTold raw.now first count }
    ensures learns { LearnsVersions raw.now first count versions.old versions.new }
{
    for at in 0..count {
        let (from, number) = (PAIR_BYTES * at, first + at as u64);
        let one = &raw[from..from + PAGE_BYTES];
        let two = &raw[from + PAGE_BYTES..from + PAIR_BYTES];
        match open_pair(one, two, number, fresh, into, to + AREA_BYTES * at) {
            Some(version) => versions.note(number, version),
            None => return false,
        }
    }
    true
}

/// Notes the versions of some pages, the first of which has a number.
pub fn learn_pairs(raw: &[u8], first: u64, count: usize, versions: &mut Versions)
    requires raw { 8192 * count ≤ length raw.now }
    requires number { first + count ≤ 349526 }
    ensures { LearnsVersions raw.now first count versions.old versions.new }
{
    for at in 0..count {
        let (from, number) = (PAIR_BYTES * at, first + at as u64);
        let one = &raw[from..from + PAGE_BYTES];
        let two = &raw[from + PAGE_BYTES..from + PAIR_BYTES];
        versions.note(number, version_of(one, two, number));
    }
}

// Makes the place with a page's number, a version and these cells.
fn seal_one(number: u64, version: u64, area: &[u8], page: &mut [u8])
    requires area { length area.now ≡ 3168 }
    requires page { length page.old ≡ 4096 }
    ensures { page.new ≡ twin_sealed number version area.now }
{
    lay(page, AREA_AT, area);
    write_u64_at(page, BODY_AT, version);
    sign(TWIN_MAGIC, BODY_AT, number, page);
}

/// Makes the place of a version of one of some pages, behind the places of those before it.
pub fn seal_place(first: u64, at: usize, version: u64, areas: &[u8], places: &mut [u8])
    requires number { first + at < 349526 }
    requires areas { 3168 * at + 3168 ≤ length areas.now }
    requires places { 4096 * at + 4096 ≤ length places.old }
    ensures { places.new ≡ put_bytes (4096 * at)
        (twin_sealed (first + at) version (part_of areas.now (3168 * at) 3168)) places.old }
{
    let (from, to) = (AREA_BYTES * at, PAGE_BYTES * at);
    seal_one(
        first + at as u64,
        version,
        &areas[from..from + AREA_BYTES],
        &mut places[to..to + PAGE_BYTES],
    );
}
