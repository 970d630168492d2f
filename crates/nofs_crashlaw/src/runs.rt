//! What a run of the machine keeps, whatever its entries, over the base that a mount leaves.
//!
//! Promise: each directory has a chain of names from the root, and stays with its generation as long as
//! it is not empty; and a back link that is a pair stays one, in its place, until its name is dropped.

ghost use Rattle.nofs_crashlaw.specs.Runs.Bases.{LawMounted};
ghost use Rattle.nofs_crashlaw.specs.Runs.Laws.{LawDirectory, LawPair, LawRooted};

/// A mount raises the mount number of a sound image. What that leaves is a base: block 0 spells the
/// numbers of a device, and each generation and stamp is below the first one that this mount gives.
pub fn law_base()
    ensures mounted { LawMounted }
{}

/// In a run on such a base, whatever its entries: a directory stays one, of its generation, but for a
/// Drop while no entry in it is half of a pair. Each directory has a chain of names from the root. A
/// back link that is a pair keeps its place and stays a pair, but for a Drop of the entry to which it
/// leads.
pub fn law_run()
    ensures directory { LawDirectory }
    ensures rooted { LawRooted }
    ensures pair { LawPair }
{}
