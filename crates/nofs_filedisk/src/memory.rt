//! A file in memory, which tells its bytes.
//!
//! Promise: a call fails where its number was named, or where there is no memory to grow.
ghost use Rattle.std.specs.Prelude.{◌≡◌, ◌+◌, ◌≤◌, ◌<◌, ◌^◌, ◌-◌, ◌==◌, max, min, IfOk, OnErr, OnOk, is_err, length};
ghost use Rattle.std.specs.Prelude.{slice_index, slice_range, take, ℕ};
ghost use Rattle.std.specs.List.{list_any};
ghost use Rattle.nofs_disk.specs.Disk.{Rose};
ghost use Rattle.nofs_filedisk.specs.Bytes.{IsPut, IsSynced};
ghost use Rattle.nofs_disk.specs.Number.{put_bytes};

use crate::positioned::Positioned;
use nofs_disk::{Failed, write_bytes_at};
use std::alloc::{AllocError, Global};

/// A file in memory. It moves at most `piece` bytes a call, and fails the calls that are named.
#[derive(Drop)]
pub struct MemFile {
    bytes: Vec<u8>,
    durable: Vec<u8>,
    piece: usize,
    fails: Vec<u64>,
    calls: u64,
    faults: u64,
    alloc: Global,
    ghost counted: { faults < 2 ^ 64 },
    ghost some: { 1 ≤ piece },
    ghost small: { (k : ℕ) → slice_index bytes.items k < 256 },
}

impl MemFile {
    /// A file with these bytes, which are durable. Its calls are numbered from 1; those in
    /// `fails` fail and do nothing.
    pub fn new(
        alloc: Global,
        bytes: &[u8],
        piece: usize,
        fails: &[u64],
    ) -> Result<MemFile, AllocError>
        requires { 1 ≤ piece }
        ensures bytes { IfOk result (λ file. file.bytes.items ≡ bytes.now) }
        ensures durable { IfOk result (λ file. file.durable.items ≡ bytes.now) }
        ensures synced { IfOk result (λ file. IsSynced (⟦<MemFile as Positioned>⟧.state file)) }
        ensures piece { IfOk result (λ file. file.piece ≡ piece) }
        ensures fails { IfOk result (λ file. file.fails.items ≡ fails.now) }
        ensures calls { IfOk result (λ file. file.calls ≡ 0) }
        ensures faults { IfOk result (λ file. file.faults ≡ 0) }
    {
        Ok(MemFile {
            bytes: bytes.to_vec(alloc)?,
            durable: bytes.to_vec(alloc)?,
            piece,
            fails: fails.to_vec(alloc)?,
            calls: 0,
            faults: 0,
            alloc,
        })
    }

    /// Its bytes.
    pub fn bytes(&self) -> &[u8]
        ensures { result.now ≡ self.now.bytes.items }
    {
        self.bytes.as_slice()
    }

    /// What it held when a sync last succeeded.
    pub fn durable(&self) -> &[u8]
        ensures { result.now ≡ self.now.durable.items }
    {
        self.durable.as_slice()
    }

    /// How many calls were made.
    pub fn calls(&self) -> u64
        ensures { result ≡ self.now.calls }
    {
        self.calls
    }
}

impl MemFile {
    ghost use Rattle.nofs_filedisk.specs.Memory.{StaysButCounts};

    // Counts a call, up to the greatest u64, and whether it fails.
    fn begin(&mut self) -> Result<(), Failed>
        ensures stays { StaysButCounts self.old self.new }
        ensures calls { self.new.calls ≡ min (self.old.calls + 1) (2 ^ 64 - 1) }
        ensures faults { self.old.faults ≤ self.new.faults }
        ensures no_fault { OnOk result (self.new.faults ≡ self.old.faults) }
        ensures fails { is_err result ≡ list_any (λ call. call == self.new.calls) self.old.fails.items }
        ensures cause { OnErr result (Rose self.old.faults self.new.faults) }
    {
        self.calls = self.calls.saturating_add(1);
        if self.is_named() {
            return Err(self.failed());
        }
        Ok(())
    }

    // Whether this call is to fail.
    fn is_named(&self) -> bool
        ensures { result ≡ list_any (λ call. call == self.now.calls) self.now.fails.items }
    {
        self.fails.iter().any(|call| *call == self.calls)
    }

    // Counts a fault.
    fn failed(&mut self) -> Failed
        ensures stays { StaysButCounts self.old self.new }
        ensures calls { self.new.calls ≡ self.old.calls }
        ensures faults { self.old.faults ≤ self.new.faults }
        ensures cause { Rose self.old.faults self.new.faults }
    {
        self.faults = self.faults.saturating_add(1);
        Failed
    }

    // How many bytes of a place on a call moves.
    fn count_at(&self, at: u64, most: usize) -> usize
        ensures value { result ≡ min (min self.now.piece most) (length self.now.bytes.items - at) }
    {
        let left = (self.bytes.len() as u64).saturating_sub(at);
        self.piece.min(most).min(left as usize)
    }
}

impl Positioned for MemFile {
    ghost use Rattle.nofs_filedisk.specs.Memory.{telling_file, telling_file-is};

    ghost state = { λ f. telling_file f.bytes.items f.durable.items f.faults };

    fn read_at(&mut self, at: u64, into: &mut [u8]) -> Result<usize, Failed> {
        self.begin()?;
        let count = self.count_at(at, into.len());
        if count > 0 {
            copy_from(&self.bytes, at as usize, count, into);
        }
        Ok(count)
    }

    fn read_ahead(&mut self, at: u64, into: &mut [u8]) -> Result<Option<usize>, Failed> {
        match self.read_at(at, into) {
            Ok(count) => Ok(Some(count)),
            Err(failed) => Err(failed),
        }
    }

    fn write_at(&mut self, at: u64, from: &[u8]) -> Result<usize, Failed> {
        self.begin()?;
        let count = self.piece.min(from.len());
        match put_part(&mut self.bytes, at as usize, &from[..count]) {
            Ok(()) => Ok(count),
            Err(_) => Err(self.failed()),
        }
    }

    fn sync(&mut self) -> Result<(), Failed> {
        self.begin()?;
        match copy_of(&self.bytes, self.alloc) {
            Ok(bytes) => {
                self.durable = bytes;
                Ok(())
            }
            Err(_) => Err(self.failed()),
        }
    }

    ghost is_file = { λ f. telling_file-is f.bytes.items f.durable.items f.faults f.counted f.small };
}

// Copies some bytes from a place on.
fn copy_from(bytes: &Vec<u8>, at: usize, count: usize, into: &mut [u8])
    requires from { at + count ≤ length bytes.now.items }
    requires into { count ≤ length into.old }
    ensures len { length into.new ≡ length into.old }
    ensures part { take count into.new ≡ slice_range bytes.now.items at (at + count) }
{
    into[..count].copy_from_slice(&bytes[at..at + count]);
}

// Puts a part at a place, with zeros between the end and it.
fn put_part(bytes: &mut Vec<u8>, at: usize, part: &[u8]) -> Result<(), AllocError>
    requires { at + length part.now < 2 ^ 63 }
    ensures ok { OnOk result (IsPut at part.now bytes.old.items bytes.new.items) }
    ensures err { OnErr result (bytes.new.items ≡ bytes.old.items) }
    ensures small { (k : ℕ) → slice_index bytes.new.items k < 256 }
{
    if part.is_empty() {
        return Ok(());
    }
    grow(bytes, at + part.len())?;
    put_at(bytes, at, part);
    Ok(())
}

// Adds zeros up to this length.
fn grow(bytes: &mut Vec<u8>, end: usize) -> Result<(), AllocError>
    ensures len { OnOk result (length bytes.new.items ≡ max (length bytes.old.items) end) }
    ensures same { OnOk result ((k : ℕ) → slice_index bytes.new.items k ≡ slice_index bytes.old.items k) }
    ensures err { OnErr result (bytes.new.items ≡ bytes.old.items) }
{
    if end <= bytes.len() {
        return Ok(());
    }
    bytes.resize(end, 0)
}

// Puts a part over bytes that are there.
fn put_at(bytes: &mut Vec<u8>, at: usize, part: &[u8])
    requires { at + length part.now ≤ length bytes.old.items }
    ensures { bytes.new.items ≡ put_bytes at part.now bytes.old.items }
{
    write_bytes_at(bytes.as_mut_slice(), at, part);
}

// A copy of all bytes.
fn copy_of(bytes: &Vec<u8>, alloc: Global) -> Result<Vec<u8>, AllocError>
    ensures { IfOk result (λ copy. copy.items ≡ bytes.now.items) }
{
    bytes.as_slice().to_vec(alloc)
}
