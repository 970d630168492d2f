//! The history of a mount: every step with its reply, in the order of the turn.
//!
//! Promise: an entry that was pushed stays, after `reserve` pushing is never refused, there are fewer
//! than 2^62 entries, and whether a call of the device failed in one is told without looking at them.
ghost use Rattle.std.specs.Prelude.{◌≡◌, ◌∷◌, ◌++◌, ◌<◌, ◌≤◌, ◌-◌, ◌^◌, [], length, OnOk, OnErr, slice_get};
ghost use Rattle.std.specs.Option.{option_copied};
ghost use Rattle.nofs_history.specs.HistoryState.{HistoryState};
ghost use Rattle.nofs_history.specs.Faults.{has_fault};

use crate::machine::replies::Reply;
use crate::machine::steps::Step;
use nofs_disk::Pointer;
use std::alloc::{AllocError, Global};
use std::marker::Model;

/// A history has fewer entries than this, 2^62: twice their number and one fit 64 bits.
const MOST_ENTRIES: u64 = 4_611_686_018_427_387_904;

/// What a step claimed: an inode with its fresh generation, and blocks with their fresh stamps. Each is
/// zero where nothing was claimed.
#[derive(Clone, Copy, Debug, PartialEq, Eq)]
pub struct Claims {
    pub inode: u32,
    pub generation: u64,
    /// The block of a slot.
    pub cell: Pointer,
    /// The block of pointers right above the slot: a leaf or a child.
    pub leaf: Pointer,
    /// The block of pointers above a child.
    pub top: Pointer,
}

/// Nothing was claimed.
pub const NO_CLAIMS: Claims = Claims {
    inode: 0,
    generation: 0,
    cell: Pointer::NULL,
    leaf: Pointer::NULL,
    top: Pointer::NULL,
};

/// One entry of a history. `from` and `to` are the moments of the device as the step began and ended.
#[derive(Drop)]
pub struct Entry1 {
    pub caller: u32,
    pub from: u64,
    pub to: u64,
    pub step: Step,
    pub reply: Reply,
    pub claims: Claims,
}

/// The steps of one mount with their replies, and the moment at which the mount was made. Contracts see it
/// as its start, its entries and `spare`, the number of entries for which memory is kept.
#[derive(Drop)]
pub struct History {
    start: u64,
    entries: Vec<Entry1>,
    spare: u64,
    // whether a call of the device failed in some step
    faulty: bool,
}

impl Model for History {
    ghost use Rattle.std.specs.Prelude.{◌≡◌, ◌+◌, ◌^◌, ◌<◌, ◌≤◌, vec_len, vec_capacity};
    ghost use Rattle.nofs_history.specs.HistoryState.{HistoryState};
    ghost use Rattle.nofs_history.specs.Faults.{has_fault};

    ghost Value = { HistoryState };

    ghost view = { λ h. record { start = h.start; entries = h.entries.items; spare = h.spare } };

    ghost invariant = { λ h. (vec_len h.entries + h.spare ≤ vec_capacity h.entries)
        × (vec_len h.entries + h.spare < 2 ^ 62)
        × (h.faulty ≡ has_fault h.entries.items) };
}

impl History {
    /// A history without entries. `start` is the moment at which the mount was made.
    pub fn new(alloc: Global, start: u64) -> Self
        ensures { result ≡ record { start = start; entries = []; spare = 0 } }
    {
        History {
            start,
            entries: Vec::new(alloc),
            spare: 0,
            faulty: false,
        }
    }

    /// Gives a history that has no entry another start. It takes no memory.
    pub fn restart(&mut self, start: u64)
        requires { self.old.entries ≡ [] }
        ensures { self.new ≡ record { start = start; entries = []; spare = self.old.spare } }
    {
        self.start = start;
    }

    /// Takes the memory for so many further entries. Never 2^62 entries are kept: more are refused as
    /// want of memory.
    pub fn reserve(&mut self, entries: u64) -> Result<(), AllocError>
        ensures ok { OnOk result (entries ≤ self.new.spare) }
        ensures no_less { self.old.spare ≤ self.new.spare }
        ensures stays { (self.new.entries ≡ self.old.entries) × (self.new.start ≡ self.old.start) }
        ensures err { OnErr result (self.new ≡ self.old) }
    {
        if entries <= self.spare {
            return Ok(());
        }
        if entries >= MOST_ENTRIES - self.len() {
            return Err(AllocError);
        }
        self.entries.reserve(entries as usize)?;
        self.spare = entries;
        Ok(())
    }

    /// Adds an entry at the end. It takes no memory.
    #[tactic(auto, using(crate::proofs::Faults::fault_more))]
    pub fn push(&mut self, it: Entry1)
        requires { 0 < self.old.spare }
        ensures { self.new
            ≡ record { start = self.old.start; entries = self.old.entries ++ it ∷ []; spare = self.old.spare - 1 } }
    {
        self.spare -= 1;
        self.faulty |= it.reply.is_fault();
        match self.entries.push(it) {
            Ok(()) => {}
            Err(_) => unreachable!(),
        }
    }

    /// The number of entries.
    pub fn len(&self) -> u64
        ensures value { result ≡ length self.now.entries }
        ensures small { result < 2 ^ 62 }
    {
        self.entries.len() as u64
    }

    /// An entry by its place, counted from 0; `None` at or past the end.
    pub fn entry(&self, at: u64) -> Option<&Entry1>
        ensures { option_copied result ≡ slice_get self.now.entries at }
    {
        self.entries.get(at as usize)
    }

    /// Whether a call of the device failed in some step.
    pub fn has_fault(&self) -> bool
        ensures { result ≡ has_fault self.now.entries }
    {
        self.faulty
    }

    /// The moment at which the mount was made.
    pub fn start(&self) -> u64
        ensures { result ≡ self.now.start }
    {
        self.start
    }
}
