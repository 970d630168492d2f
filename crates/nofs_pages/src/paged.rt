//! A file in pages, seen as the bytes of the cells in them.
//!
//! Promise: it is a file that keeps the cells that were written to it. What it shows of a page that can't be told is
//! zeros, and to read them fails.
//!
//! The last row that was written stays in memory, and stands in place of what the pages have there, until another
//! begins or a sync comes: so neighbouring cells that are written one after the other are one write of the file, and in
//! rising order nothing is read. Before a page would be written a second time since the last sync, a sync makes the
//! first one durable. After a write or a sync that failed nobody knows what is durable, and nothing is written any
//! more.
ghost use Rattle.std.specs.Prelude.{◌≡◌, ◌⊎◌, ◌+◌, ◌-◌, ◌*◌, ◌/◌, ◌%◌, ◌^◌, ◌<◌, ◌≤◌, ℕ, IfOk, IfSome, IsFalse, IsTrue};
ghost use Rattle.std.specs.Prelude.{OnErr, OnOk, length, min, slice_index, slice_range, take};
ghost use Rattle.nofs_disk.specs.Disk.{Rose};
ghost use Rattle.nofs_filedisk.specs.Bytes.{IsPart, IsPut, IsSynced, KeepsBytes, KeepsDurable};
ghost use Rattle.nofs_pages.specs.Views.{AreOld, EndsWithin, HasFront, HasRest, HasTold, IsComposed, IsOld, IsPlainRow};
ghost use Rattle.nofs_pages.specs.Views.{ReadsCells};
ghost use Rattle.nofs_pages.specs.Views.{byte_over, paged_state};

use crate::compose::{compose, gather, pages_of};
use crate::page::AREA_BYTES;
use crate::put_pages::PutPages;
use crate::row::{ROW_AREA, Row, zeros};
use crate::store::PageStore;
use nofs_disk::Failed;
use nofs_filedisk::Positioned;
use std::alloc::{AllocError, Global};
use std::snapshot::Snapshot;

/// How many bytes the cells of a disk have: 1,048,576 of 1,056 bytes.
const ALL_BYTES: u64 = 1_107_296_256;

/// A file in pages.
#[derive(Drop)]
pub struct Paged<S: PageStore + Drop> {
    store: S,
    /// The pages as they were when a sync last succeeded.
    synced: Snapshot<S>,
    /// The row that was written last.
    row: Row,
    /// Whether it stands in place of what the pages have there.
    ahead: bool,
    /// Whether a write or a sync has failed.
    stuck: bool,
    /// The pages that were put since the last sync.
    put: PutPages,
    faults: u64,
    // Where the cells of pages are put together.
    areas: Vec<u8>,
    ghost counted: { faults < 2 ^ 64 },
    ghost size: { length areas.items ≡ 101376 },
    ghost plain: { IsFalse ahead → IsTrue (S.state store).tells → IsPlainRow (S.state store).bytes row },
    ghost rests: { IsFalse stuck → (p : ℕ) → IsOld put p → ∥ S.rests store p ∥₁ },
    ghost unput: { IsFalse stuck → IsTrue ahead → AreOld put row.first row.count },
}

// The page that a byte of the cells is in, and its place in it.
fn place_of(at: u64) -> (u64, usize)
    ensures page { result.0 ≡ at / 3168 }
    ensures offset { result.1 ≡ at % 3168 }
{
    (at / AREA_BYTES as u64, (at % AREA_BYTES as u64) as usize)
}

// How many bytes of cells from a place on a call moves.
fn count_at(at: u64, offset: usize, most: usize) -> usize
    requires { offset < 3168 }
    ensures { result ≡ min (min most (101376 - offset)) (1107296256 - at) }
{
    let left = ALL_BYTES.saturating_sub(at);
    most.min(ROW_AREA - offset).min(left as usize)
}

// Copies some bytes.
fn copy_some(from: &[u8], at: usize, count: usize, into: &mut [u8])
    requires from { at + count ≤ length from.now }
    requires into { count ≤ length into.old }
    ensures len { length into.new ≡ length into.old }
    ensures part { take count into.new ≡ slice_range from.now at (at + count) }
{
    into[..count].copy_from_slice(&from[at..at + count]);
}

// Puts the first pages of a row. They were not put since the last sync.
fn put_front<S: PageStore>(
    store: &mut S,
    put: &mut PutPages,
    row: &Row,
    count: usize,
) -> Result<(), Failed>
    requires count { count ≤ row.now.count }
    requires old { AreOld put.old row.now.first row.now.count }
    requires rests { (p : ℕ) → IsOld put.old p → ∥ S.rests store.old p ∥₁ }
    ensures tells { (S.state store.new).tells ≡ (S.state store.old).tells }
    ensures view { IsTrue (S.state store.old).tells → (k : ℕ)
        → byte_over (S.state store.new).bytes row.now k ≡ byte_over (S.state store.old).bytes row.now k }
    ensures front { OnOk result (IsTrue (S.state store.old).tells → HasFront (S.state store.new).bytes row.now count) }
    ensures old { (p : ℕ) → row.now.first + count ≤ p → IsOld put.old p → IsOld put.new p }
    ensures rests { OnOk result ((p : ℕ) → IsOld put.new p → ∥ S.rests store.new p ∥₁) }
{
    put.add(row.first, count);
    store.put(row.first, count, row.bytes.as_slice())
}

// Puts what a row has before some pages, where it isn't there yet. It has nothing behind them.
fn put_rest<S: PageStore>(
    store: &mut S,
    put: &mut PutPages,
    row: &Row,
    ahead: bool,
    first: u64,
    count: usize,
) -> Result<(), Failed>
    requires ends { IsTrue ahead → EndsWithin row.now first count }
    requires plain { IsFalse ahead → IsTrue (S.state store.old).tells → IsPlainRow (S.state store.old).bytes row.now }
    requires old { IsTrue ahead → AreOld put.old row.now.first row.now.count }
    requires rests { (p : ℕ) → IsOld put.old p → ∥ S.rests store.old p ∥₁ }
    ensures tells { (S.state store.new).tells ≡ (S.state store.old).tells }
    ensures view { IsTrue (S.state store.old).tells → (k : ℕ)
        → byte_over (S.state store.new).bytes row.now k ≡ byte_over (S.state store.old).bytes row.now k }
    ensures rest { OnOk result (IsTrue (S.state store.old).tells
        → HasRest (S.state store.new).bytes (byte_over (S.state store.old).bytes row.now) first count) }
    ensures old { (p : ℕ) → first ≤ p → IsOld put.old p → IsOld put.new p }
    ensures rests { OnOk result ((p : ℕ) → IsOld put.new p → ∥ S.rests store.new p ∥₁) }
    ensures cause { OnErr result (IsTrue ahead) }
{
    if !ahead {
        return Ok(());
    }
    put_front(store, put, row, (first - row.first) as usize)
}

impl<S: PageStore + Drop> Paged<S> {
    /// The cells of these pages, which nothing else writes from now on, and which are durable. All memory is taken
    /// here.
    pub fn over(alloc: Global, store: S) -> Result<Paged<S>, AllocError>
        requires { (p : ℕ) → S.rests store p }
        ensures synced { IfOk result
            (λ p. IsSynced (paged_state (S.state p.store) (S.state p.synced.value) p.row p.faults)) }
        ensures store { IfOk result (λ p. p.store ≡ store) }
    {
        let synced = Snapshot::of(&store);
        Ok(Paged {
            store,
            synced,
            row: Row::new(alloc)?,
            ahead: false,
            stuck: false,
            put: PutPages::new(alloc)?,
            faults: 0,
            areas: zeros(alloc, ROW_AREA)?,
        })
    }

    /// The pages. The row that was written last may not be among them.
    pub fn into_store(self) -> S
        ensures { result ≡ self.store }
    {
        self.store
    }
}

impl<S: PageStore + Drop> Paged<S> {
    // Counts a fault.
    fn failed(&mut self) -> Failed
        ensures keeps { KeepsBytes
            (paged_state (S.state self.old.store) (S.state self.old.synced.value) self.old.row self.old.faults)
            (paged_state (S.state self.new.store) (S.state self.new.synced.value) self.new.row self.new.faults) }
        ensures store { self.new.store ≡ self.old.store }
        ensures row { self.new.row ≡ self.old.row }
        ensures ahead { self.new.ahead ≡ self.old.ahead }
        ensures cause { Rose self.old.faults self.new.faults }
    {
        self.faults = self.faults.saturating_add(1);
        Failed
    }

    // Puts the row, where it isn't among the pages.
    fn settle(&mut self) -> Result<(), Failed>
        ensures keeps { KeepsBytes
            (paged_state (S.state self.old.store) (S.state self.old.synced.value) self.old.row self.old.faults)
            (paged_state (S.state self.new.store) (S.state self.new.synced.value) self.new.row self.new.faults) }
        ensures plain { OnOk result (IsFalse self.new.ahead) }
        ensures cause { OnErr result (Rose self.old.faults self.new.faults) }
        ensures no_fault { OnOk result (self.new.faults ≡ self.old.faults) }
    {
        if !self.ahead {
            return Ok(());
        }
        if self.stuck {
            return Err(self.failed());
        }
        let count = self.row.count;
        match put_front(&mut self.store, &mut self.put, &self.row, count) {
            Ok(()) => {
                self.ahead = false;
                Ok(())
            }
            Err(_) => {
                self.stuck = true;
                Err(self.failed())
            }
        }
    }

    // Makes durable what was put.
    fn sync_store(&mut self) -> Result<(), Failed>
        ensures keeps { KeepsBytes
            (paged_state (S.state self.old.store) (S.state self.old.synced.value) self.old.row self.old.faults)
            (paged_state (S.state self.new.store) (S.state self.new.synced.value) self.new.row self.new.faults) }
        ensures bytes { IsTrue (S.state self.old.store).tells → (k : ℕ)
            → slice_index (S.state self.new.store).bytes k ≡ slice_index (S.state self.old.store).bytes k }
        ensures row { self.new.row ≡ self.old.row }
        ensures ahead { self.new.ahead ≡ self.old.ahead }
        ensures old { OnOk result ((p : ℕ) → IsOld self.new.put p) }
        ensures moving { OnOk result (IsFalse self.new.stuck) }
        ensures cause { OnErr result (Rose self.old.faults self.new.faults) }
        ensures no_fault { OnOk result (self.new.faults ≡ self.old.faults) }
    {
        if self.stuck {
            return Err(self.failed());
        }
        match self.store.sync() {
            Ok(()) => {
                self.put.clear();
                Ok(())
            }
            Err(_) => {
                self.stuck = true;
                Err(self.failed())
            }
        }
    }

    // Whether bytes that begin in a page go on where the row is.
    fn joins(&self, first: u64) -> bool
        ensures { IsTrue result
            → IsTrue self.now.ahead × IsFalse self.now.stuck
            × (self.now.row.first ≤ first) × (first < self.now.row.first + self.now.row.count) }
    {
        self.ahead && !self.stuck && self.row.has(first)
    }

    // Makes durable what some pages have, where one of them was put since the last sync.
    fn renew(&mut self, first: u64, count: usize) -> Result<(), Failed>
        requires place { first + count ≤ 349526 }
        ensures keeps { KeepsBytes
            (paged_state (S.state self.old.store) (S.state self.old.synced.value) self.old.row self.old.faults)
            (paged_state (S.state self.new.store) (S.state self.new.synced.value) self.new.row self.new.faults) }
        ensures bytes { IsTrue (S.state self.old.store).tells → (k : ℕ)
            → slice_index (S.state self.new.store).bytes k ≡ slice_index (S.state self.old.store).bytes k }
        ensures row { self.new.row ≡ self.old.row }
        ensures ahead { self.new.ahead ≡ self.old.ahead }
        ensures old { OnOk result (AreOld self.new.put first count) }
        ensures moving { OnOk result (IsFalse self.new.stuck) }
        ensures cause { OnErr result (Rose self.old.faults self.new.faults) }
        ensures no_fault { OnOk result (self.new.faults ≡ self.old.faults) }
    {
        if self.stuck {
            return Err(self.failed());
        }
        if self.put.has_any(first, count) {
            return self.sync_store();
        }
        Ok(())
    }

    // Puts together the cells of the pages that some bytes go to, with them, for a row of them that is yet to be put.
    fn compose(&mut self, first: u64, offset: usize, from: &[u8]) -> Result<(), Failed>
        requires some { 0 < length from.now }
        requires offset { offset < 3168 }
        requires fits { offset + length from.now ≤ 101376 }
        requires place { 3168 * first + offset + length from.now ≤ 1107296256 }
        ensures keeps { KeepsBytes
            (paged_state (S.state self.old.store) (S.state self.old.synced.value) self.old.row self.old.faults)
            (paged_state (S.state self.new.store) (S.state self.new.synced.value) self.new.row self.new.faults) }
        ensures row { self.new.row ≡ self.old.row }
        ensures ahead { self.new.ahead ≡ self.old.ahead }
        ensures composed { OnOk result (IsTrue (S.state self.new.store).tells
            → IsComposed (byte_over (S.state self.new.store).bytes self.new.row) first offset from.now
            self.new.areas.items) }
        ensures old { OnOk result (AreOld self.new.put first ((offset + length from.now + 3167) / 3168)) }
        ensures moving { OnOk result (IsFalse self.new.stuck) }
        ensures cause { OnErr result (Rose self.old.faults self.new.faults) }
        ensures no_fault { OnOk result (self.new.faults ≡ self.old.faults) }
    {
        self.renew(first, pages_of(offset + from.len()))?;
        match compose(
            &mut self.store,
            &self.row,
            first,
            offset,
            from,
            &mut self.areas,
        ) {
            Ok(true) => Ok(()),
            Ok(false) | Err(_) => Err(self.failed()),
        }
    }

    // What was put together with some bytes is the row now, and not among the pages. What the row before has beside it,
    // and is not among them yet, is put.
    fn turn(&mut self, first: u64, offset: usize, from: &[u8]) -> Result<(), Failed>
        requires some { 0 < length from.now }
        requires offset { offset < 3168 }
        requires fits { offset + length from.now ≤ 101376 }
        requires place { 3168 * first + offset + length from.now ≤ 1107296256 }
        requires old { AreOld self.old.put first ((offset + length from.now + 3167) / 3168) }
        requires moving { IsFalse self.old.stuck }
        requires joins { IsTrue self.old.ahead
            → EndsWithin self.old.row first ((offset + length from.now + 3167) / 3168) }
        requires composed { IsTrue (S.state self.old.store).tells
            → IsComposed (byte_over (S.state self.old.store).bytes self.old.row) first offset from.now
            self.old.areas.items }
        ensures keeps { KeepsDurable
            (paged_state (S.state self.old.store) (S.state self.old.synced.value) self.old.row self.old.faults)
            (paged_state (S.state self.new.store) (S.state self.new.synced.value) self.new.row self.new.faults) }
        ensures put { OnOk result (IsTrue (S.state self.old.store).tells → IsPut (3168 * first + offset) from.now
            (paged_state (S.state self.old.store) (S.state self.old.synced.value) self.old.row self.old.faults).bytes
            (paged_state (S.state self.new.store) (S.state self.new.synced.value) self.new.row self.new.faults).bytes) }
        ensures err { OnErr result (
            (paged_state (S.state self.new.store) (S.state self.new.synced.value) self.new.row self.new.faults).bytes
            ≡ (paged_state (S.state self.old.store)
            (S.state self.old.synced.value) self.old.row self.old.faults).bytes) }
        ensures cause { OnErr result (Rose self.old.faults self.new.faults) }
        ensures no_fault { OnOk result (self.new.faults ≡ self.old.faults) }
    {
        let (ahead, count) = (self.ahead, pages_of(offset + from.len()));
        match put_rest(
            &mut self.store,
            &mut self.put,
            &self.row,
            ahead,
            first,
            count,
        ) {
            Ok(()) => {
                self.ahead = true;
                self.row.turn(first, count, &mut self.areas);
                Ok(())
            }
            Err(_) => {
                self.stuck = true;
                Err(self.failed())
            }
        }
    }

    // Makes way for some pages: true where the row has them all, and is yet to be put.
    fn make_way(&mut self, first: u64, count: usize) -> Result<bool, Failed>
        requires place { first + count ≤ 349526 }
        ensures keeps { KeepsBytes
            (paged_state (S.state self.old.store) (S.state self.old.synced.value) self.old.row self.old.faults)
            (paged_state (S.state self.new.store) (S.state self.new.synced.value) self.new.row self.new.faults) }
        ensures inside { IfOk result (λ inside. IsTrue inside → IsTrue self.new.ahead × IsFalse self.new.stuck
            × (self.new.row.first ≤ first) × (first + count ≤ self.new.row.first + self.new.row.count)) }
        ensures joins { IfOk result (λ inside. IsFalse inside → IsTrue self.new.ahead
            → EndsWithin self.new.row first count) }
        ensures cause { OnErr result (Rose self.old.faults self.new.faults) }
        ensures no_fault { OnOk result (self.new.faults ≡ self.old.faults) }
    {
        if self.joins(first) {
            return Ok(first + count as u64 <= self.row.first + self.row.count as u64);
        }
        self.settle()?;
        Ok(false)
    }

    // Puts some bytes among those of the row.
    fn put_inside(&mut self, first: u64, offset: usize, from: &[u8])
        requires some { 0 < length from.now }
        requires offset { offset < 3168 }
        requires fits { offset + length from.now ≤ 101376 }
        requires place { 3168 * first + offset + length from.now ≤ 1107296256 }
        requires ahead { IsTrue self.old.ahead }
        requires low { self.old.row.first ≤ first }
        requires high { first + (offset + length from.now + 3167) / 3168 ≤ self.old.row.first + self.old.row.count }
        ensures keeps { KeepsDurable
            (paged_state (S.state self.old.store) (S.state self.old.synced.value) self.old.row self.old.faults)
            (paged_state (S.state self.new.store) (S.state self.new.synced.value) self.new.row self.new.faults) }
        ensures put { IsTrue (S.state self.old.store).tells → IsPut (3168 * first + offset) from.now
            (paged_state (S.state self.old.store) (S.state self.old.synced.value) self.old.row self.old.faults).bytes
            (paged_state (S.state self.new.store) (S.state self.new.synced.value) self.new.row self.new.faults).bytes }
        ensures faults { self.new.faults ≡ self.old.faults }
    {
        let at = AREA_BYTES * (first - self.row.first) as usize + offset;
        self.row.put(at, from);
    }

    // Writes some bytes that a row has a place for.
    fn write_some(&mut self, at: u64, from: &[u8]) -> Result<(), Failed>
        requires some { 0 < length from.now }
        requires fits { at % 3168 + length from.now ≤ 101376 }
        requires place { at + length from.now ≤ 1107296256 }
        ensures keeps { KeepsDurable
            (paged_state (S.state self.old.store) (S.state self.old.synced.value) self.old.row self.old.faults)
            (paged_state (S.state self.new.store) (S.state self.new.synced.value) self.new.row self.new.faults) }
        ensures put { OnOk result (IsTrue (S.state self.old.store).tells → IsPut at from.now
            (paged_state (S.state self.old.store) (S.state self.old.synced.value) self.old.row self.old.faults).bytes
            (paged_state (S.state self.new.store) (S.state self.new.synced.value) self.new.row self.new.faults).bytes) }
        ensures err { OnErr result (
            (paged_state (S.state self.new.store) (S.state self.new.synced.value) self.new.row self.new.faults).bytes
            ≡ (paged_state (S.state self.old.store)
            (S.state self.old.synced.value) self.old.row self.old.faults).bytes) }
        ensures cause { OnErr result (Rose self.old.faults self.new.faults) }
        ensures no_fault { OnOk result (self.new.faults ≡ self.old.faults) }
    {
        let (first, offset) = place_of(at);
        if self.make_way(first, pages_of(offset + from.len()))? {
            self.put_inside(first, offset, from);
            return Ok(());
        }
        self.compose(first, offset, from)?;
        self.turn(first, offset, from)
    }

    // Reads bytes of cells, as many as a row has; none where they can't be told.
    fn read_some(&mut self, at: u64, into: &mut [u8]) -> Result<Option<usize>, Failed>
        ensures keeps { KeepsBytes
            (paged_state (S.state self.old.store) (S.state self.old.synced.value) self.old.row self.old.faults)
            (paged_state (S.state self.new.store) (S.state self.new.synced.value) self.new.row self.new.faults) }
        ensures row { self.new.row ≡ self.old.row }
        ensures len { length into.new ≡ length into.old }
        ensures fits { IfOk result (λ told. IfSome told (λ n. n ≤ length into.old)) }
        ensures part { IfOk result (λ told. IfSome told (λ n. IsTrue (S.state self.old.store).tells
            → IsPart (paged_state (S.state self.old.store)
            (S.state self.old.synced.value) self.old.row self.old.faults).bytes
            at (take n into.new))) }
        ensures end { IfOk result (λ told. IfSome told (λ n. n ≡ 0 → 0 < length into.old → 1107296256 ≤ at)) }
        ensures told { IfOk result (λ told. IfSome told (λ n. 0 < n
            → HasTold (S.told self.new.store) self.new.row (at / 3168) ((at % 3168 + n + 3167) / 3168))) }
        ensures cause { OnErr result (Rose self.old.faults self.new.faults) }
        ensures no_fault { OnOk result (self.new.faults ≡ self.old.faults) }
    {
        let (first, offset) = place_of(at);
        let count = count_at(at, offset, into.len());
        if count == 0 {
            return Ok(Some(0));
        }
        self.read_pieces(first, offset, count, into)
    }

    // Reads some bytes of the cells from a place in a page on.
    fn read_pieces(
        &mut self,
        first: u64,
        offset: usize,
        count: usize,
        into: &mut [u8],
    ) -> Result<Option<usize>, Failed>
        requires offset { offset < 3168 }
        requires fits { offset + count ≤ 101376 }
        requires place { 3168 * first + offset + count ≤ 1107296256 }
        requires into { count ≤ length into.old }
        ensures keeps { KeepsBytes
            (paged_state (S.state self.old.store) (S.state self.old.synced.value) self.old.row self.old.faults)
            (paged_state (S.state self.new.store) (S.state self.new.synced.value) self.new.row self.new.faults) }
        ensures row { self.new.row ≡ self.old.row }
        ensures len { length into.new ≡ length into.old }
        ensures fits { IfOk result (λ told. IfSome told (λ n. n ≡ count)) }
        ensures part { IfOk result (λ told. IfSome told (λ n. IsTrue (S.state self.old.store).tells
            → ReadsCells (byte_over (S.state self.old.store).bytes self.old.row)
            (3168 * first + offset) count into.new)) }
        ensures told { IfOk result (λ told. IfSome told (λ n.
            HasTold (S.told self.new.store) self.new.row first ((offset + count + 3167) / 3168))) }
        ensures cause { OnErr result (Rose self.old.faults self.new.faults) }
        ensures no_fault { OnOk result (self.new.faults ≡ self.old.faults) }
    {
        if self.are_whole(first, offset, count) {
            return self.read_whole(first, count, into);
        }
        self.read_parts(first, offset, count, into)
    }

    // Whether some bytes of the cells are those of whole pages, none of which the row has.
    fn are_whole(&self, first: u64, offset: usize, count: usize) -> bool
        requires { 3168 * first + offset + count ≤ 1107296256 }
        ensures offset { IsTrue result → offset ≡ 0 }
        ensures count { IsTrue result → count % 3168 ≡ 0 }
        ensures apart { IsTrue result → (first + count / 3168 ≤ self.now.row.first)
            ⊎ (self.now.row.first + self.now.row.count ≤ first) }
    {
        offset == 0 && count % AREA_BYTES == 0 && self.row.is_apart(first, count / AREA_BYTES)
    }

    // Reads the cells of whole pages, none of which the row has: they are shown right where they are wanted.
    fn read_whole(
        &mut self,
        first: u64,
        count: usize,
        into: &mut [u8],
    ) -> Result<Option<usize>, Failed>
        requires whole { count % 3168 ≡ 0 }
        requires fits { count ≤ 101376 }
        requires place { 3168 * first + count ≤ 1107296256 }
        requires into { count ≤ length into.old }
        requires apart { (first + count / 3168 ≤ self.old.row.first)
            ⊎ (self.old.row.first + self.old.row.count ≤ first) }
        ensures keeps { KeepsBytes
            (paged_state (S.state self.old.store) (S.state self.old.synced.value) self.old.row self.old.faults)
            (paged_state (S.state self.new.store) (S.state self.new.synced.value) self.new.row self.new.faults) }
        ensures row { self.new.row ≡ self.old.row }
        ensures len { length into.new ≡ length into.old }
        ensures fits { IfOk result (λ told. IfSome told (λ n. n ≡ count)) }
        ensures part { IfOk result (λ told. IfSome told (λ n. IsTrue (S.state self.old.store).tells
            → ReadsCells (byte_over (S.state self.old.store).bytes self.old.row) (3168 * first) count into.new)) }
        ensures told { IfOk result (λ told. IfSome told (λ n.
            HasTold (S.told self.new.store) self.new.row first ((count + 3167) / 3168))) }
        ensures cause { OnErr result (Rose self.old.faults self.new.faults) }
        ensures no_fault { OnOk result (self.new.faults ≡ self.old.faults) }
    {
        match self.store.show(first, count / AREA_BYTES, into, 0) {
            Ok(true) => Ok(Some(count)),
            Ok(false) => Ok(None),
            Err(_) => Err(self.failed()),
        }
    }

    // Reads some bytes of the cells from a place in a page on, out of the pages that they are in.
    fn read_parts(
        &mut self,
        first: u64,
        offset: usize,
        count: usize,
        into: &mut [u8],
    ) -> Result<Option<usize>, Failed>
        requires offset { offset < 3168 }
        requires fits { offset + count ≤ 101376 }
        requires place { 3168 * first + offset + count ≤ 1107296256 }
        requires into { count ≤ length into.old }
        ensures keeps { KeepsBytes
            (paged_state (S.state self.old.store) (S.state self.old.synced.value) self.old.row self.old.faults)
            (paged_state (S.state self.new.store) (S.state self.new.synced.value) self.new.row self.new.faults) }
        ensures row { self.new.row ≡ self.old.row }
        ensures len { length into.new ≡ length into.old }
        ensures fits { IfOk result (λ told. IfSome told (λ n. n ≡ count)) }
        ensures part { IfOk result (λ told. IfSome told (λ n. IsTrue (S.state self.old.store).tells
            → ReadsCells (byte_over (S.state self.old.store).bytes self.old.row)
            (3168 * first + offset) count into.new)) }
        ensures told { IfOk result (λ told. IfSome told (λ n.
            HasTold (S.told self.new.store) self.new.row first ((offset + count + 3167) / 3168))) }
        ensures cause { OnErr result (Rose self.old.faults self.new.faults) }
        ensures no_fault { OnOk result (self.new.faults ≡ self.old.faults) }
    {
        match gather(
            &mut self.store,
            &self.row,
            first,
            pages_of(offset + count),
            &mut self.areas,
        ) {
            Ok(true) => {
                copy_some(self.areas.as_slice(), offset, count, into);
                Ok(Some(count))
            }
            Ok(false) => Ok(None),
            Err(_) => Err(self.failed()),
        }
    }
}

impl<S: PageStore + Drop> Positioned for Paged<S> {
    ghost use Rattle.nofs_filedisk.specs.Bytes.{ReadsSome, Syncs};
    ghost use Rattle.nofs_pages.specs.Laws.{paged_is};

    ghost state = { λ p. paged_state (S.state p.store) (S.state p.synced.value) p.row p.faults };

    /// Bytes are read of pages alone that can be told, or of the row.
    fn read_at(&mut self, at: u64, into: &mut [u8]) -> Result<usize, Failed>
        ensures reads { ReadsSome
            (paged_state (S.state self.old.store) (S.state self.old.synced.value) self.old.row self.old.faults)
            (paged_state (S.state self.new.store) (S.state self.new.synced.value) self.new.row self.new.faults) at
            into.old into.new result }
        ensures told { IfOk result (λ n. 0 < n
            → HasTold (S.told self.new.store) self.new.row (at / 3168) ((at % 3168 + n + 3167) / 3168)) }
    {
        match self.read_some(at, into) {
            Ok(Some(count)) => Ok(count),
            Ok(None) => Err(self.failed()),
            Err(failed) => Err(failed),
        }
    }

    fn read_ahead(&mut self, at: u64, into: &mut [u8]) -> Result<Option<usize>, Failed> {
        self.read_some(at, into)
    }

    fn write_at(&mut self, at: u64, from: &[u8]) -> Result<usize, Failed> {
        let (_, offset) = place_of(at);
        let count = count_at(at, offset, from.len());
        if count == 0 {
            return if from.is_empty() {
                Ok(0)
            } else {
                Err(self.failed())
            };
        }
        match self.write_some(at, &from[..count]) {
            Ok(()) => Ok(count),
            Err(failed) => Err(failed),
        }
    }

    /// After one that succeeded what every page has is durable.
    fn sync(&mut self) -> Result<(), Failed>
        ensures syncs { Syncs
            (paged_state (S.state self.old.store) (S.state self.old.synced.value) self.old.row self.old.faults)
            (paged_state (S.state self.new.store) (S.state self.new.synced.value) self.new.row self.new.faults) result }
        ensures rests { OnOk result ((p : ℕ) → ∥ S.rests self.new.store p ∥₁) }
    {
        self.settle()?;
        self.sync_store()?;
        self.synced = Snapshot::of(&self.store);
        Ok(())
    }

    ghost is_file = { λ p. paged_is (S.state p.store) (S.state p.synced.value) p.row p.faults
        (S.is_store p.store).small p.counted p.row.small };
}
