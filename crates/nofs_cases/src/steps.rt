//! Small instances of the laws of steps on files, of the maps and of the stamps: their premises are met
//! by disks of 16 blocks.
//!
//! Promise: the disks before and after a Put with a claimed block, a Put in place and a Resize lie as
//! the laws ask.

ghost use Rattle.nofs_cases.specs.Steps.Files.{GrownCase, PutCase, PutHeldCase, ResizeCase, UntouchedCase};
ghost use Rattle.nofs_cases.specs.Steps.Leaf.{LeafCase};
ghost use Rattle.nofs_cases.specs.Steps.Maps.{FreshCase, GoodCase, GrowCase, HomesCase, MovesCase, PiecesCase};
ghost use Rattle.nofs_cases.specs.Steps.Maps.{ShrinkCase};

/// A Put to an empty slot, with a leaf and without, a Put in place, and a Resize.
pub fn law_file_cases()
    ensures put { PutCase }
    ensures leaf { LeafCase }
    ensures put_held { PutHeldCase }
    ensures resize { ResizeCase }
    ensures untouched { UntouchedCase }
    ensures grown { GrownCase }
{}

/// The maps and the stamps over a Put, and what a cut leaves.
pub fn law_state_cases()
    ensures homes { HomesCase }
    ensures good { GoodCase }
    ensures moves { MovesCase }
    ensures grow { GrowCase }
    ensures shrink { ShrinkCase }
    ensures fresh { FreshCase }
    ensures pieces { PiecesCase }
{}
