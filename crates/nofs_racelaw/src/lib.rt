//! Verdicts while others work: what was found of an inode or a block, and is said of it later.
//!
//! Promise: over each run of the machine, an element that isn't known has one verdict.
#![tactic(auto)]

ghost use Rattle.nofs_racelaw.specs.Laws.{LawLate, LawOneRun, LawPasses, LawStale, LawUnchanged};

/// What is not known at the end of a run has one verdict in each of its worlds.
pub fn law_unchanged()
    ensures { LawUnchanged }
{}

/// A verdict that was right in one world of a run is right in every later one in which its element
/// isn't known.
pub fn law_stale()
    ensures passes { LawPasses }
    ensures stale { LawStale }
{}

/// The history decides files and homes, whatever its run learns; so a verdict that was right after
/// a part of a history is right at its end, where its element isn't known there.
pub fn law_late()
    ensures one { LawOneRun }
    ensures late { LawLate }
{}
