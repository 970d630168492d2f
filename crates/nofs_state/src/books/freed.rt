//! The blocks that a step frees.
//!
//! Promise: contracts see them as a map with a place for each block of the disk. The list holds just those that were
//! found, so that freeing them takes time that goes with their number, and not with the disk's.
ghost use Rattle.std.specs.Prelude.{◌≡◌, ◌<◌, All, false, true, length, replicate, slice_set, OnErr, OnOk};
ghost use Rattle.nofs_state.specs.Inodes.Blocks.{BlocksFreed, with_all};
ghost use Rattle.nofs_state.specs.Books.Verdicts.{learned_block};

use crate::books::maps::Books;
use std::alloc::{AllocError, Global};
use std::marker::Model;

/// Some blocks of a disk, in the order in which they were found.
#[derive(Drop)]
pub struct FreedBlocks {
    blocks: Vec<u64>,
    /// How many blocks the disk has.
    bound: u64,
}

impl Model for FreedBlocks {
    ghost use Rattle.std.specs.Prelude.{◌<◌, All, Bool, List, false, replicate};
    ghost use Rattle.nofs_state.specs.Inodes.Blocks.{with_all};

    ghost Value = { List Bool };

    ghost view = { λ freed. with_all (replicate freed.bound false) freed.blocks.items };

    ghost invariant = { λ freed. All (λ b. b < freed.bound) freed.blocks.items };
}

impl FreedBlocks {
    /// No block of a disk of so many. It takes no memory.
    pub fn new(alloc: Global, bound: u64) -> Self
        ensures { result ≡ replicate bound false }
    {
        FreedBlocks {
            blocks: Vec::new(alloc),
            bound,
        }
    }

    /// Adds a block. Where memory is refused, all stays as it was.
    pub fn add(&mut self, block: u64) -> Result<(), AllocError>
        requires { block < length self.old }
        ensures added { OnOk result (self.new ≡ slice_set self.old block true) }
        ensures unchanged { OnErr result (self.new ≡ self.old) }
    {
        self.blocks.push(block)?;
        Ok(())
    }

    // The blocks, as they were found.
    fn as_slice(&self) -> &[u64]
        ensures marks { with_all (replicate (length self.now) false) result.now ≡ self.now }
        ensures within { All (λ b. b < length self.now) result.now }
    {
        &self.blocks
    }
}

impl Books {
    /// Marks a block as examined and free. It may not be used from then on.
    pub fn free_block(&mut self, block: u64)
        requires unknown { block < length self.old.unknown_blocks }
        requires free { block < length self.old.free_blocks }
        ensures { self.new ≡ learned_block self.old block false }
    {
        self.learn_block(block, false);
    }

    /// Marks blocks as examined and free. None of them may be used from then on.
    pub fn free_blocks(&mut self, freed: &FreedBlocks)
        requires free { length self.old.free_blocks ≡ self.old.at.blocks }
        requires unknown { length self.old.unknown_blocks ≡ self.old.at.blocks }
        requires freed { length freed.now ≡ self.old.at.blocks }
        ensures { BlocksFreed self.old self.new freed.now }
    {
        for block in freed.as_slice() {
            self.free_block(*block);
        }
    }
}
