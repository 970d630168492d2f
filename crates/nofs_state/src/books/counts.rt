//! How many inodes and blocks are used, free, and not examined, by the maps.
ghost use Rattle.std.specs.Prelude.{◌≡◌, ◌+◌, ◌-◌, length, min};
ghost use Rattle.nofs_bits.specs.Bits.{count_set};
ghost use Rattle.nofs_history.specs.World.{World};
ghost use Rattle.nofs_state.specs.Books.Maps.{Says};
ghost use Rattle.nofs_state.specs.Books.Counts.{CountsBlocks, CountsInodes};

use crate::books::maps::{Books, Counts};
use nofs_bits::Bits;

// What of so many elements is used, free, and not examined.
#[derive(Clone, Copy)]
struct Parts {
    used: u64,
    free: u64,
    unchecked: u64,
}

fn parts_of(all: u64, unknown: &Bits, free: &Bits) -> Parts
    requires { length unknown.now ≡ all }
    ensures unchecked { result.unchecked ≡ count_set unknown.now }
    ensures free { result.free ≡ min (count_set free.now) (all - count_set unknown.now) }
    ensures whole { result.used + result.free + result.unchecked ≡ all }
{
    let unchecked = unknown.count();
    let known = all - unchecked;
    let free = free.count().min(known);
    Parts {
        used: known - free,
        free,
        unchecked,
    }
}

impl Books {
    /// How many inodes and blocks are known to be used, are known to be free, and were not examined.
    /// Of each kind the three numbers are all that the disk has.
    pub fn counts(&self) -> Counts
        requires inodes { length self.now.unknown_inodes ≡ self.now.at.inodes }
        requires free_inodes { length self.now.free_inodes ≡ self.now.at.inodes }
        requires blocks { length self.now.unknown_blocks ≡ self.now.at.blocks }
        requires free_blocks { length self.now.free_blocks ≡ self.now.at.blocks }
        ensures inodes { result.inodes_used + result.inodes_free + result.inodes_unchecked ≡ self.now.at.inodes }
        ensures blocks { result.blocks_used + result.blocks_free + result.blocks_unchecked ≡ self.now.at.blocks }
        ensures machine { (W : World) → Says self.now W → CountsInodes W result × CountsBlocks W result }
    {
        let inodes = parts_of(self.at.inodes, &self.unknown_inodes, &self.free_inodes);
        let blocks = parts_of(self.at.blocks, &self.unknown_blocks, &self.free_blocks);
        Counts {
            inodes_used: inodes.used,
            inodes_free: inodes.free,
            inodes_unchecked: inodes.unchecked,
            blocks_used: blocks.used,
            blocks_free: blocks.free,
            blocks_unchecked: blocks.unchecked,
        }
    }
}
