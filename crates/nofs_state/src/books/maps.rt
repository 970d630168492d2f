//! What a mount keeps in memory: which inodes and blocks were examined, which of them are free, the
//! next stamp, and the history.
ghost use Rattle.std.specs.Prelude.{◌≡◌, ◌+◌, ◌-◌, ◌/◌, ◌^◌, ◌<◌, ◌≤◌, None, true, length, unwrap_or, IfOk, IfSome};
ghost use Rattle.nofs_bits.specs.Bits.{NoneSet, is_set};
ghost use Rattle.nofs_super.specs.Geometry.{IsGeometry};
ghost use Rattle.nofs_history.specs.World.{World, next_block, next_inode};
ghost use Rattle.nofs_state.specs.Books.Maps.{InodesFit, IsRoom, MapsAll, MapsFit, Says, claimed_books};
ghost use Rattle.nofs_state.specs.Books.Maps.{claimed_inode, claimed_pointer, made_books};

use nofs_agree::Known;
use nofs_bits::Bits;
use nofs_disk::{Pointer, stamp_of};
use nofs_history::History;
use nofs_super::SuperBlock;
use std::alloc::{AllocError, Global};

/// What a mount keeps in memory. Bit `i - 1` of a map of inodes is inode `i`.
#[derive(Drop)]
pub struct Books {
    /// The numbers of the disk.
    pub at: SuperBlock,
    /// The inodes that were not examined.
    pub unknown_inodes: Bits,
    /// The inodes that were examined and are free.
    pub free_inodes: Bits,
    /// Which inodes are known to be agreed, and which not to be. A disk may have more of both.
    pub agreement: Known,
    /// The blocks that were not examined.
    pub unknown_blocks: Bits,
    /// The blocks that were examined and are free.
    pub free_blocks: Bits,
    /// The next stamp's number in this mount.
    pub serial: u64,
    /// Whether a write or a flush has failed.
    pub stopped: bool,
    pub history: History,
}

/// An inode that was claimed, with its generation.
#[derive(Clone, Copy, Debug, PartialEq, Eq)]
pub struct InodeClaim {
    pub inode: u32,
    pub generation: u64,
}

/// How many inodes and blocks are known to be used, are known to be free, and were not examined.
#[derive(Clone, Copy, Debug, PartialEq, Eq)]
pub struct Counts {
    pub inodes_used: u64,
    pub inodes_free: u64,
    pub inodes_unchecked: u64,
    pub blocks_used: u64,
    pub blocks_free: u64,
    pub blocks_unchecked: u64,
}

/// The memory for the maps and for the entries of both sweeps.
#[derive(Drop)]
pub struct Room {
    pub unknown_inodes: Bits,
    pub free_inodes: Bits,
    pub agreement: Known,
    pub unknown_blocks: Bits,
    pub free_blocks: Bits,
    pub history: History,
}

impl Room {
    /// Takes the memory for a disk with these numbers. It asks numbers of some device.
    pub fn new(alloc: Global, at: &SuperBlock) -> Result<Room, AllocError>
        requires { IsGeometry at.now.blocks at.now.blocks at.now.inodes }
        ensures { IfOk result (λ room. IsRoom at.now room) }
    {
        let mut history = History::new(alloc, 0);
        history.reserve(at.inodes + at.blocks)?;
        Ok(Room {
            unknown_inodes: all_from(alloc, at.inodes, 2)?,
            free_inodes: Bits::new(alloc, at.inodes)?,
            agreement: Known::nothing(alloc, at.inodes)?,
            unknown_blocks: all_from(alloc, at.blocks, 1 + at.inodes / 4)?,
            free_blocks: Bits::new(alloc, at.blocks)?,
            history,
        })
    }
}

// A map of so many places, of which those from one on are set.
fn all_from(alloc: Global, places: u64, from: u64) -> Result<Bits, AllocError>
    requires { from ≤ places }
    ensures { IfOk result (MapsAll places from) }
{
    let mut bits = Bits::new(alloc, places)?;
    for place in from..places {
        bits.set(place, true);
    }
    Ok(bits)
}

impl Books {
    /// The least block that was examined and is free; `None` exactly where there is none.
    pub fn least_free_block(&self) -> Option<u64>
        ensures found { IfSome result (λ at. is_set self.now.free_blocks at ≡ true) }
        ensures within { IfSome result (λ at. at < length self.now.free_blocks) }
        ensures none { result ≡ None → NoneSet self.now.free_blocks 0 (length self.now.free_blocks) }
    {
        self.free_blocks.next_set(0)
    }

    /// The least block that was not examined, 0 where there is none.
    pub fn next_block(&self) -> u64
        ensures { (W : World) → Says self.now W → MapsFit self.now → result ≡ next_block W }
    {
        or_zero(self.unknown_blocks.next_set(0))
    }

    /// Claims a block that was examined and is free. It is used from then on.
    pub fn claim_block(&mut self, block: u64) -> Pointer
        requires within { block < length self.old.free_blocks }
        requires serial { self.old.serial < 2 ^ 40 }
        requires mount { self.old.at.mount < 2 ^ 24 }
        ensures pointer { result ≡ claimed_pointer self.old block }
        ensures claimed { self.new ≡ claimed_books self.old block }
    {
        let stamp = stamp_of(self.at.mount, self.serial);
        self.serial += 1;
        self.free_blocks.set(block, false);
        Pointer { block, stamp }
    }

    /// The least inode that was examined and is free; `None` exactly where there is none.
    pub fn least_free_inode(&self) -> Option<u32>
        requires { length self.now.free_inodes ≤ 65536 }
        ensures found { IfSome result (λ i. is_set self.now.free_inodes (i - 1) ≡ true) }
        ensures above { IfSome result (λ i. 1 ≤ i) }
        ensures within { IfSome result (λ i. i ≤ length self.now.free_inodes) }
        ensures none { result ≡ None → NoneSet self.now.free_inodes 0 (length self.now.free_inodes) }
    {
        match self.free_inodes.next_set(0) {
            None => None,
            Some(place) => Some(1 + place as u32),
        }
    }

    /// The least inode that was not examined, 0 where there is none.
    pub fn next_inode(&self) -> u64
        requires { length self.now.unknown_inodes ≤ 65536 }
        ensures next { (W : World) → Says self.now W → InodesFit self.now → result ≡ next_inode W }
        ensures range { result ≤ 65536 }
    {
        match self.unknown_inodes.next_set(0) {
            None => 0,
            Some(place) => 1 + place,
        }
    }

    /// Claims an inode that was examined and is free. It is used, and known to be, from then on.
    pub fn claim_inode(&mut self, inode: u32) -> InodeClaim
        requires above { 1 ≤ inode }
        requires within { inode ≤ length self.old.free_inodes }
        requires agreed { inode ≤ length self.old.agreement }
        requires serial { self.old.serial < 2 ^ 40 }
        requires mount { self.old.at.mount < 2 ^ 24 }
        ensures claim { result ≡ claimed_inode self.old inode }
        ensures claimed { self.new ≡ made_books self.old inode }
    {
        let generation = stamp_of(self.at.mount, self.serial);
        let place = u64::from(inode) - 1;
        self.serial += 1;
        self.free_inodes.set(place, false);
        self.agreement.set(inode, Some(true));
        InodeClaim { inode, generation }
    }
}

fn or_zero(found: Option<u64>) -> u64
    ensures { result ≡ unwrap_or found 0 }
{
    match found {
        Some(at) => at,
        None => 0,
    }
}
