//! A file with two places for each page, side by side: page `p` has the 8,192 bytes from `8192 * p` on.
//!
//! Promise: a page is put to the place that is not current, with the next version. So what is durable of a page stays
//! whole until what was put behind it is durable: whatever a crash leaves in a place that was being written, the page
//! has what it had at the last sync, or what was put since. A page that can't be told shows nothing, but in a file that
//! is going to be written anew, where it has zeros until the first sync. What lies past the end has zeros.
//!
//! The next places of two neighbours touch where that of the first one is its second place, and that of the other one
//! its first: then both are put by one call. Mostly they do, since new pages of odd numbers begin in the first place.
//!
//! A place that decays shows the version before, which may be older than the last sync, never another page's.
ghost use Rattle.std.specs.Prelude.{◌≡◌, ◌⊎◌, ◌+◌, ◌*◌, ◌^◌, ◌<◌, ◌≤◌, ◌%◌, ℕ, IfOk, IsFalse, IsTrue, OnErr, OnOk};
ghost use Rattle.std.specs.Prelude.{length, take};
ghost use Rattle.nofs_disk.specs.CellsOfBytes.{part_of};
ghost use Rattle.nofs_disk.specs.Number.{put_bytes};
ghost use Rattle.nofs_disk.specs.Disk.{Rose};
ghost use Rattle.nofs_filedisk.specs.Bytes.{IsPartlyPut, IsPut, KeepsBytes, KeepsDurable};
ghost use Rattle.nofs_pages.specs.Twins.{HasReadPairs, HasTwinAreas, HasTwins, HasTwinsTold, KnowsVersions};
ghost use Rattle.nofs_pages.specs.Twins.{LearnsVersions, NextsTouch};
ghost use Rattle.nofs_pages.specs.Twins.{TwinRests, WritesTwins, next_in, twin_sealed, twin_state};

use crate::page::{AREA_BYTES, PAGE_BYTES};
use crate::place::{PAIR_BYTES, learn_pairs, open_pairs, seal_place};
use crate::row::zeros;
use crate::store::PageStore;
use crate::versions::Versions;
use nofs_disk::Failed;
use nofs_filedisk::{Positioned, read_part, write_part};
use std::alloc::{AllocError, Global};

/// How many bytes both places of 32 pages have: so many a call of the file reads at most.
const ROW_BYTES: usize = 262_144;

/// Where places are made: one, or two that touch.
#[derive(Drop)]
struct Bench {
    places: Vec<u8>,
    ghost places_size: { length places.items ≡ 8192 },
}

/// A file with two places for each page.
#[derive(Drop)]
pub struct Twin<B: Positioned + Drop> {
    file: B,
    // Whether the file is going to be written anew: until its first sync a page that can't be told has zeros.
    fresh: bool,
    // The next version of each page that was read or put.
    versions: Versions,
    // How often a call has failed.
    faults: u64,
    // Where pages are read.
    pairs: Vec<u8>,
    bench: Bench,
    ghost counted: { faults < 2 ^ 64 },
    ghost size: { length pairs.items ≡ 262144 },
    ghost known: { KnowsVersions (B.state file) versions },
}

impl Bench {
    // Makes the place of a version of one of some pages, behind those of the pages before it.
    fn seal(&mut self, first: u64, at: usize, version: u64, areas: &[u8])
        requires first { first + at < 349526 }
        requires at { at < 2 }
        requires areas { 3168 * at + 3168 ≤ length areas.now }
        ensures { self.new.places.items ≡ put_bytes (4096 * at)
            (twin_sealed (first + at) version (part_of areas.now (3168 * at) 3168)) self.old.places.items }
    {
        seal_place(first, at, version, areas, self.places.as_mut_slice());
    }
}

// Reads both places of some pages.
fn read_pairs<B: Positioned>(
    file: &mut B,
    first: u64,
    count: usize,
    into: &mut Vec<u8>,
) -> Result<(), Failed>
    requires place { first + count ≤ 349526 }
    requires size { 8192 * count ≤ length into.old.items }
    ensures keeps { KeepsBytes (B.state file.old) (B.state file.new) }
    ensures len { length into.new.items ≡ length into.old.items }
    ensures part { OnOk result (IsTrue (B.state file.old).tells
        → HasReadPairs (B.state file.old).bytes first count into.new.items) }
{
    let end = PAIR_BYTES * count;
    read_part(
        file,
        PAIR_BYTES as u64 * first,
        &mut into.as_mut_slice()[0..end],
    )
}

// The cells of some pages that were read, from a place on.
fn open_row(
    pairs: &Vec<u8>,
    first: u64,
    count: usize,
    fresh: bool,
    versions: &mut Versions,
    into: &mut [u8],
    to: usize,
) -> bool
    requires pairs { 8192 * count ≤ length pairs.now.items }
    requires into { to + 3168 * count ≤ length into.old }
    requires number { first + count ≤ 349526 }
    ensures len { length into.new ≡ length into.old }
    ensures areas { IsTrue result → HasTwinAreas pairs.now.items first count to into.old into.new }
    ensures told { IsTrue result → IsFalse fresh → HasTwinsTold pairs.now.items first count }
    ensures learns { LearnsVersions pairs.now.items first count versions.old versions.new }
{
    open_pairs(pairs.as_slice(), first, count, fresh, versions, into, to)
}

// Learns the versions of some pages where not all are known.
fn learn<B: Positioned>(
    file: &mut B,
    first: u64,
    count: usize,
    pairs: &mut Vec<u8>,
    versions: &mut Versions,
) -> Result<(), Failed>
    requires place { first + count ≤ 349526 }
    requires size { 8192 * count ≤ length pairs.old.items }
    requires known { KnowsVersions (B.state file.old) versions.old }
    ensures keeps { KeepsBytes (B.state file.old) (B.state file.new) }
    ensures len { length pairs.new.items ≡ length pairs.old.items }
    ensures known { KnowsVersions (B.state file.new) versions.new }
{
    if !versions.has_all(first, count) {
        read_pairs(file, first, count, pairs)?;
        learn_pairs(pairs.as_slice(), first, count, versions);
    }
    Ok(())
}

// Writes so many places that were made, from that of a version of a page on.
fn write_places<B: Positioned>(
    file: &mut B,
    number: u64,
    version: u64,
    count: usize,
    places: &Vec<u8>,
) -> Result<(), Failed>
    requires number { number < 349526 }
    requires count { count ≤ 2 }
    requires places { length places.now.items ≡ 8192 }
    ensures keeps { KeepsDurable (B.state file.old) (B.state file.new) }
    ensures put { OnOk result (IsTrue (B.state file.old).tells
        → IsPut (8192 * number + 4096 * (version % 2)) (take (4096 * count) places.now.items)
        (B.state file.old).bytes (B.state file.new).bytes) }
    ensures err { OnErr result (IsTrue (B.state file.old).tells
        → IsPartlyPut (8192 * number + 4096 * (version % 2)) (take (4096 * count) places.now.items)
        (B.state file.old).bytes (B.state file.new).bytes) }
{
    let at = PAIR_BYTES as u64 * number + PAGE_BYTES as u64 * (version % 2);
    write_part(file, at, &places.as_slice()[..PAGE_BYTES * count])
}

// Puts a page whose version is known.
fn put_one<B: Positioned>(
    file: &mut B,
    versions: &mut Versions,
    bench: &mut Bench,
    number: u64,
    areas: &[u8],
) -> Result<(), Failed>
    requires number { number < 349526 }
    requires areas { 3168 ≤ length areas.now }
    requires known { KnowsVersions (B.state file.old) versions.old }
    ensures keeps { KeepsDurable (B.state file.old) (B.state file.new) }
    ensures known { KnowsVersions (B.state file.new) versions.new }
    ensures writes { IsTrue (B.state file.old).tells
        → WritesTwins (B.state file.old).bytes (B.state file.new).bytes number 1 areas.now }
    ensures twins { OnOk result (IsTrue (B.state file.old).tells
        → HasTwins (B.state file.old).bytes (B.state file.new).bytes number 1 areas.now) }
{
    let version = versions.take(number);
    if version == 0 {
        return Err(Failed);
    }
    bench.seal(number, 0, version, areas);
    write_places(file, number, version, 1, &bench.places)?;
    versions.note(number, version);
    Ok(())
}

// Puts a page and the one behind it, the next places of which touch, by one call.
fn put_two<B: Positioned>(
    file: &mut B,
    versions: &mut Versions,
    bench: &mut Bench,
    number: u64,
    areas: &[u8],
) -> Result<(), Failed>
    requires number { number + 2 ≤ 349526 }
    requires areas { 6336 ≤ length areas.now }
    requires known { KnowsVersions (B.state file.old) versions.old }
    requires touch { NextsTouch versions.old number }
    ensures keeps { KeepsDurable (B.state file.old) (B.state file.new) }
    ensures known { KnowsVersions (B.state file.new) versions.new }
    ensures writes { IsTrue (B.state file.old).tells
        → WritesTwins (B.state file.old).bytes (B.state file.new).bytes number 2 areas.now }
    ensures twins { OnOk result (IsTrue (B.state file.old).tells
        → HasTwins (B.state file.old).bytes (B.state file.new).bytes number 2 areas.now) }
{
    let one = versions.take(number);
    let two = versions.take(number + 1);
    bench.seal(number, 0, one, areas);
    bench.seal(number, 1, two, areas);
    write_places(file, number, one, 2, &bench.places)?;
    versions.note(number, one);
    versions.note(number + 1, two);
    Ok(())
}

// Puts the first one of some pages, or the first two where their next places touch, and answers how many.
fn put_next<B: Positioned>(
    file: &mut B,
    versions: &mut Versions,
    bench: &mut Bench,
    first: u64,
    count: usize,
    areas: &[u8],
) -> Result<usize, Failed>
    requires place { first + count ≤ 349526 }
    requires count { 0 < count }
    requires areas { 3168 * count ≤ length areas.now }
    requires known { KnowsVersions (B.state file.old) versions.old }
    ensures keeps { KeepsDurable (B.state file.old) (B.state file.new) }
    ensures known { KnowsVersions (B.state file.new) versions.new }
    ensures some { IfOk result (λ n. (0 < n) × (n ≤ count)) }
    ensures writes { IfOk result (λ n. IsTrue (B.state file.old).tells
        → WritesTwins (B.state file.old).bytes (B.state file.new).bytes first n areas.now) }
    ensures twins { IfOk result (λ n. IsTrue (B.state file.old).tells
        → HasTwins (B.state file.old).bytes (B.state file.new).bytes first n areas.now) }
    ensures err { OnErr result (IsTrue (B.state file.old).tells
        → WritesTwins (B.state file.old).bytes (B.state file.new).bytes first count areas.now) }
{
    if count > 1 && versions.touch(first) {
        put_two(file, versions, bench, first, areas)?;
        Ok(2)
    } else {
        put_one(file, versions, bench, first, areas)?;
        Ok(1)
    }
}

// Puts some pages.
fn put_all<B: Positioned>(
    file: &mut B,
    versions: &mut Versions,
    bench: &mut Bench,
    first: u64,
    count: usize,
    areas: &[u8],
) -> Result<(), Failed>
    requires place { first + count ≤ 349526 }
    requires areas { 3168 * count ≤ length areas.now }
    requires known { KnowsVersions (B.state file.old) versions.old }
    ensures keeps { KeepsDurable (B.state file.old) (B.state file.new) }
    ensures known { KnowsVersions (B.state file.new) versions.new }
    ensures writes { IsTrue (B.state file.old).tells
        → WritesTwins (B.state file.old).bytes (B.state file.new).bytes first count areas.now }
    ensures twins { OnOk result (IsTrue (B.state file.old).tells
        → HasTwins (B.state file.old).bytes (B.state file.new).bytes first count areas.now) }
{
    let mut at = 0;
    while at < count {
        let rest = &areas[AREA_BYTES * at..];
        at += put_next(file, versions, bench, first + at as u64, count - at, rest)?;
    }
    Ok(())
}

impl<B: Positioned + Drop> Twin<B> {
    /// The pages of a file, which nothing else writes from now on, and which is durable. All memory is taken here.
    /// `fresh` says that it is going to be written anew, whatever is in it.
    pub fn over(alloc: Global, file: B, fresh: bool) -> Result<Twin<B>, AllocError>
        requires { (p : ℕ) → TwinRests (B.state file) p }
        ensures file { IfOk result (λ twin. twin.file ≡ file) }
        ensures fresh { IfOk result (λ twin. twin.fresh ≡ fresh) }
        ensures rests { IfOk result (λ twin. (p : ℕ) → (⟦<Twin<B> as PageStore>⟧.rests twin p)) }
    {
        Ok(Twin {
            file,
            fresh,
            versions: Versions::new(alloc)?,
            faults: 0,
            pairs: zeros(alloc, ROW_BYTES)?,
            bench: Bench {
                places: zeros(alloc, PAIR_BYTES)?,
            },
        })
    }

    /// The file.
    pub fn into_file(self) -> B
        ensures { result ≡ self.file }
    {
        self.file
    }

    // Counts a fault.
    fn failed(&mut self) -> Failed
        ensures file { self.new.file ≡ self.old.file }
        ensures fresh { self.new.fresh ≡ self.old.fresh }
        ensures cause { Rose self.old.faults self.new.faults }
    {
        self.faults = self.faults.saturating_add(1);
        Failed
    }

    // Reads some pages, and shows their cells from a place on.
    fn show_row(
        &mut self,
        first: u64,
        count: usize,
        into: &mut [u8],
        to: usize,
    ) -> Result<bool, Failed>
        requires place { first + count ≤ 349526 }
        requires count { count ≤ 32 }
        requires into { to + 3168 * count ≤ length into.old }
        ensures keeps { KeepsBytes (B.state self.old.file) (B.state self.new.file) }
        ensures fresh { self.new.fresh ≡ self.old.fresh }
        ensures faults { self.new.faults ≡ self.old.faults }
        ensures len { length into.new ≡ length into.old }
        ensures areas { IfOk result (λ all. IsTrue all → IsTrue (B.state self.old.file).tells
            → HasReadPairs (B.state self.old.file).bytes first count self.new.pairs.items
            × HasTwinAreas self.new.pairs.items first count to into.old into.new) }
        ensures told { IfOk result (λ all. IsTrue all → IsFalse self.old.fresh
            → HasTwinsTold self.new.pairs.items first count) }
    {
        read_pairs(&mut self.file, first, count, &mut self.pairs)?;
        let fresh = self.fresh;
        Ok(open_row(
            &self.pairs,
            first,
            count,
            fresh,
            &mut self.versions,
            into,
            to,
        ))
    }

    // Puts some pages.
    fn put_row(&mut self, first: u64, count: usize, areas: &[u8]) -> Result<(), Failed>
        requires place { first + count ≤ 349526 }
        requires count { count ≤ 32 }
        requires areas { 3168 * count ≤ length areas.now }
        ensures keeps { KeepsDurable (B.state self.old.file) (B.state self.new.file) }
        ensures faults { self.new.faults ≡ self.old.faults }
        ensures writes { IsTrue (B.state self.old.file).tells
            → WritesTwins (B.state self.old.file).bytes (B.state self.new.file).bytes first count areas.now }
        ensures twins { OnOk result (IsTrue (B.state self.old.file).tells
            → HasTwins (B.state self.old.file).bytes (B.state self.new.file).bytes first count areas.now) }
    {
        learn(
            &mut self.file,
            first,
            count,
            &mut self.pairs,
            &mut self.versions,
        )?;
        put_all(
            &mut self.file,
            &mut self.versions,
            &mut self.bench,
            first,
            count,
            areas,
        )
    }
}

impl<B: Positioned + Drop> PageStore for Twin<B> {
    ghost use Rattle.nofs_pages.specs.Laws.{twin_is};
    ghost use Rattle.nofs_pages.specs.Stores.{Puts, SyncsPages};
    ghost use Rattle.nofs_pages.specs.Twins.{TwinRests, TwinTold, twin_state};

    ghost state = { λ s. twin_state (B.state s.file) s.faults };

    ghost rests = { λ s p. TwinRests (B.state s.file) p };

    ghost told = { λ s p. TwinTold (B.state s.file) s.fresh p };

    fn show(
        &mut self,
        first: u64,
        count: usize,
        into: &mut [u8],
        to: usize,
    ) -> Result<bool, Failed> {
        match self.show_row(first, count, into, to) {
            Ok(all) => Ok(all),
            Err(_) => Err(self.failed()),
        }
    }

    /// Of each page the place that is current in what is durable stays as it is; the other one gets the next version.
    /// Where it fails, each byte of that one stays, or is that of the next version. A page whose version has no next
    /// one can't be put.
    fn put(&mut self, first: u64, count: usize, areas: &[u8]) -> Result<(), Failed>
        requires place { first + count ≤ 349526 }
        requires count { count ≤ 32 }
        requires areas { 3168 * count ≤ length areas.now }
        requires rests { (p : ℕ) → first ≤ p → p < first + count → ∥ TwinRests (B.state self.old.file) p ∥₁ }
        ensures puts { Puts (twin_state (B.state self.old.file) self.old.faults)
            (twin_state (B.state self.new.file) self.new.faults) first count areas.now result }
        ensures rests { (p : ℕ) → (p < first) ⊎ (first + count ≤ p)
            → TwinRests (B.state self.old.file) p → TwinRests (B.state self.new.file) p }
        ensures durable { (B.state self.new.file).durable ≡ (B.state self.old.file).durable }
        ensures writes { IsTrue (B.state self.old.file).tells
            → WritesTwins (B.state self.old.file).bytes (B.state self.new.file).bytes first count areas.now }
        ensures twins { OnOk result (IsTrue (B.state self.old.file).tells
            → HasTwins (B.state self.old.file).bytes (B.state self.new.file).bytes first count areas.now) }
    {
        match self.put_row(first, count, areas) {
            Ok(()) => Ok(()),
            Err(_) => Err(self.failed()),
        }
    }

    /// After one that succeeded the file isn't fresh.
    fn sync(&mut self) -> Result<(), Failed>
        ensures syncs { SyncsPages (twin_state (B.state self.old.file) self.old.faults)
            (twin_state (B.state self.new.file) self.new.faults) result }
        ensures rests { OnOk result ((p : ℕ) → TwinRests (B.state self.new.file) p) }
        ensures told { OnOk result (IsFalse self.new.fresh) }
    {
        match self.file.sync() {
            Ok(()) => {
                self.fresh = false;
                Ok(())
            }
            Err(_) => Err(self.failed()),
        }
    }

    ghost is_store = { λ s. twin_is (B.state s.file) s.faults (B.is_file s.file) };
}
