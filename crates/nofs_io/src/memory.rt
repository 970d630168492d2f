//! A source and a sink in memory, whose calls fail by number.
//!
//! Promise: a call fails exactly where its number is among those given at the start, or where a
//! sink without room left is given a piece that is not empty. It then takes and appends nothing.
ghost use Rattle.std.specs.Prelude.{◌≡◌, ◌+◌, ◌-◌, ◌<◌, ◌≤◌, ◌↔◌, ◌⊎◌, min, length, drop, Contains, [], IfOk, IsErr};
ghost use Rattle.std.specs.Prelude.{OnErr, OnOk};
ghost use Rattle.nofs_io.specs.Calls.{Gives, Takes, raised_count};
ghost use Rattle.nofs_io.specs.Memory.{MemSinkState, MemSourceState, sink_of, source_of};

use crate::traits::{Failed, Sink, Source};
use std::alloc::{AllocError, Global};
use std::marker::Model;

/// A source of bytes in memory. It tells which bytes are left.
#[derive(Drop)]
pub struct MemSource {
    bytes: Vec<u8>,
    at: usize,
    piece: u64,
    fails: Vec<u64>,
    calls: u64,
    faults: u64,
}

impl Model for MemSource {
    ghost Value = { MemSourceState };

    ghost view = { λ s. record {
      left = drop s.at s.bytes.items;
      piece = s.piece;
      fails = s.fails.items;
      calls = s.calls;
      faults = s.faults;
    } };

    ghost invariant = { λ s. (s.at ≤ length s.bytes.items) × (0 < s.piece) };
}

impl MemSource {
    /// A source of these bytes, which gives at most `piece` of them a call, at least 1. Its calls
    /// are numbered from 1, and those that `fails` names fail.
    pub fn new(alloc: Global, bytes: &[u8], piece: u64, fails: &[u64]) -> Result<Self, AllocError>
        requires { 0 < piece }
        ensures { IfOk result
            (λ s. s ≡ record { left = bytes.now; piece = piece; fails = fails.now; calls = 0; faults = 0 }) }
    {
        Ok(MemSource {
            bytes: bytes.to_vec(alloc)?,
            at: 0,
            piece,
            fails: fails.to_vec(alloc)?,
            calls: 0,
            faults: 0,
        })
    }
}

impl Source for MemSource {
    ghost state = { source_of };

    /// Takes as many bytes as there are left, up to the piece and to what `into` has room for.
    fn take(&mut self, into: &mut [u8]) -> Result<usize, Failed>
        ensures takes { Takes (source_of self.old) (source_of self.new) result into.new }
        ensures number { self.new.calls ≡ raised_count self.old.calls }
        ensures fails { IsErr result ↔ Contains self.old.fails self.new.calls }
        ensures most { IfOk result
            (λ count. count ≡ min (min self.old.piece (length into.old)) (length self.old.left)) }
        ensures counts { OnErr result (self.new.faults ≡ raised_count self.old.faults) }
        ensures counts_faults_alone { OnOk result (self.new.faults ≡ self.old.faults) }
        ensures stays { (self.new.piece ≡ self.old.piece) × (self.new.fails ≡ self.old.fails) }
    {
        self.calls = self.calls.saturating_add(1);
        if self.fails.contains(&self.calls) {
            self.faults = self.faults.saturating_add(1);
            return Err(Failed);
        }
        let most = (into.len() as u64).min(self.piece) as usize;
        let count = most.min(self.bytes.len() - self.at);
        into[..count].copy_from_slice(&self.bytes[self.at..self.at + count]);
        self.at += count;
        Ok(count)
    }
}

/// A sink in memory with room for a number of bytes. It tells which bytes it took.
#[derive(Drop)]
pub struct MemSink {
    bytes: Vec<u8>,
    room: usize,
    fails: Vec<u64>,
    calls: u64,
    faults: u64,
}

impl Model for MemSink {
    ghost use Rattle.std.specs.Prelude.{◌≡◌, ◌+◌, ◌-◌, ◌≤◌, length, vec_len, vec_capacity};
    ghost use Rattle.nofs_io.specs.Memory.{MemSinkState};

    ghost Value = { MemSinkState };

    ghost view = { λ s. record {
      given = s.bytes.items;
      room = s.room - length s.bytes.items;
      fails = s.fails.items;
      calls = s.calls;
      faults = s.faults;
    } };

    ghost invariant = { λ s. (vec_len s.bytes ≤ s.room) × (s.room ≤ vec_capacity s.bytes) };
}

impl MemSink {
    /// A sink with room for so many bytes, whose memory it takes now. Its calls are numbered from
    /// 1, and those that `fails` names fail.
    pub fn new(alloc: Global, room: u64, fails: &[u64]) -> Result<Self, AllocError>
        ensures { IfOk result (λ s. s ≡ record { given = []; room = room; fails = fails.now; calls = 0; faults = 0 }) }
    {
        Ok(MemSink {
            bytes: Vec::with_capacity(alloc, room as usize)?,
            room: room as usize,
            fails: fails.to_vec(alloc)?,
            calls: 0,
            faults: 0,
        })
    }

    /// The bytes that it took.
    pub fn bytes(&self) -> &[u8]
        ensures { result.now ≡ self.now.given }
    {
        &self.bytes
    }
}

impl Sink for MemSink {
    ghost state = { sink_of };

    /// Appends as much of the piece as there is room for. It takes no memory.
    fn give(&mut self, piece: &[u8]) -> Result<usize, Failed>
        ensures gives { Gives (sink_of self.old) (sink_of self.new) result piece.now }
        ensures number { self.new.calls ≡ raised_count self.old.calls }
        ensures fails { IsErr result
            ↔ (Contains self.old.fails self.new.calls ⊎ ((self.old.room ≡ 0) × (0 < length piece.now))) }
        ensures most { IfOk result
            (λ count. (count ≡ min self.old.room (length piece.now)) × (self.new.room + count ≡ self.old.room)) }
        ensures counts { OnErr result
            ((self.new.faults ≡ raised_count self.old.faults) × (self.new.room ≡ self.old.room)) }
        ensures counts_faults_alone { OnOk result (self.new.faults ≡ self.old.faults) }
        ensures stays { self.new.fails ≡ self.old.fails }
    {
        self.calls = self.calls.saturating_add(1);
        let count = piece.len().min(self.room - self.bytes.len());
        if self.fails.contains(&self.calls) || (count == 0 && !piece.is_empty()) {
            self.faults = self.faults.saturating_add(1);
            return Err(Failed);
        }
        match self.bytes.extend_from_slice(&piece[..count]) {
            Ok(()) => Ok(count),
            Err(_) => unreachable!(),
        }
    }
}
