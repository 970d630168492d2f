//! What a step leaves of the maps and of the stamps: the homes of the machine are the owners of the
//! image, each verdict is the scan's, and each number on the disk is below the next one.

ghost use Rattle.nofs_crashlaw.specs.Maps.Fresh.{LawFresh, LawOld};
ghost use Rattle.nofs_crashlaw.specs.Maps.Homes.{LawClaims, LawGood, LawGoodDone, LawGoodKept, LawGoodNext, LawHomes};
ghost use Rattle.nofs_crashlaw.specs.Maps.Moves.{LawBare, LawGrow, LawHomesMove, LawShrink};
ghost use Rattle.nofs_crashlaw.specs.Maps.Pieces.{LawEntries, LawEntryNumbers, LawPick, LawPointers};

/// After a step the machine's homes are the owners of the image, and the maps that say what the
/// machine says are right.
pub fn law_homes()
    ensures homes { LawHomes }
    ensures good { LawGood }
{}

/// The maps stay right over each step that has no fault of writing, and what a step claims the
/// scan of the disk has free.
pub fn law_good()
    ensures done { LawGoodDone }
    ensures kept { LawGoodKept }
    ensures claims { LawClaims }
    ensures next { LawGoodNext }
{}

/// What the files say of a step gives where each block has its home.
pub fn law_moves()
    ensures touched { LawHomesMove }
    ensures grows { LawGrow }
    ensures shrinks { LawShrink }
    ensures bare { LawBare }
{}

/// Each step keeps every number that a crash may leave below the next one, and what is below it
/// has pointers of old stamps alone.
pub fn law_fresh()
    ensures fresh { LawFresh }
    ensures old { LawOld }
{}

/// Where the numbers in a written cell come from.
pub fn law_pieces()
    ensures pick { LawPick }
    ensures pointers { LawPointers }
    ensures entries { LawEntries }
    ensures numbers { LawEntryNumbers }
{}
