//! Small instances of the laws of homes, numbers, maps and verdicts over one step: their premises are met by
//! disks of 16 blocks.
//!
//! Promise: the disks before and after a Put, a Make, a Link, a Rename, a Drop and a Resize lie as these laws
//! ask; a Make under a leaf, a step that is refused and a run in which something is not known at its end are
//! among them.

ghost use Rattle.nofs_cases.specs.Numbers.Cells.{ContentCellCase, EntryInHoleCase, EntryInPlaceCase};
ghost use Rattle.nofs_cases.specs.Numbers.Cells.{TableChangedCase, TableFreedCase, TableMadeCase};
ghost use Rattle.nofs_cases.specs.Steps.Cut.{CutCase, CutSlotCase};
ghost use Rattle.nofs_cases.specs.Names.Leaf.{DeepMakeCase};
ghost use Rattle.nofs_cases.specs.Numbers.Homes.{DropFileHomesCase, DropNameHomesCase, DropNumbersCase};
ghost use Rattle.nofs_cases.specs.Numbers.Homes.{LinkHomesCase, LinkNumbersCase, MakeHomesCase};
ghost use Rattle.nofs_cases.specs.Numbers.Homes.{MakeNumbersCase, PutNumbersCase, RenameHomesCase, RenameNumbersCase};
ghost use Rattle.nofs_cases.specs.Numbers.Refused.{KeptCase};
ghost use Rattle.nofs_cases.specs.Names.Places.{LinkInHoleCase, MakeInPlaceCase};
ghost use Rattle.nofs_cases.specs.Numbers.Verdicts.{EmptyRunCase, StaleCase, UnchangedCase};

/// A look at inode 3 leaves inode 4 and block 2 unknown, and the maps right.
pub fn law_verdict_cases()
    ensures unchanged { UnchangedCase }
    ensures empty { EmptyRunCase }
    ensures stale { StaleCase }
{}

/// A Make in a hole, a Link in place, a Rename, and a Drop of one of two names and of the only one, each
/// with all that the law of its homes asks.
pub fn law_home_cases()
    ensures make { MakeHomesCase }
    ensures link { LinkHomesCase }
    ensures rename { RenameHomesCase }
    ensures drop_name { DropNameHomesCase }
    ensures drop_file { DropFileHomesCase }
{}

/// The same steps and a Put, each with all that the law of its numbers asks.
pub fn law_number_cases()
    ensures make { MakeNumbersCase }
    ensures link { LinkNumbersCase }
    ensures rename { RenameNumbersCase }
    ensures drop { DropNumbersCase }
    ensures put { PutNumbersCase }
{}

/// A Resize to the size 0 cuts off the one block of a file, a Make claims a leaf for its entry, and a
/// step that is refused keeps the maps right.
pub fn law_step_cases()
    ensures cut { CutCase }
    ensures slot { CutSlotCase }
    ensures leaf { DeepMakeCase }
    ensures kept { KeptCase }
{}

/// A Make in the block that the directory has, and a Link for which it gets a second block, each with all
/// that the laws of its homes and of its numbers ask.
pub fn law_place_cases()
    ensures make_in_place { MakeInPlaceCase }
    ensures link_in_hole { LinkInHoleCase }
{}

/// The cells of a Put, a Make, a Link and a Drop, each with all that the law of its numbers asks.
pub fn law_cell_cases()
    ensures content { ContentCellCase }
    ensures entry_in_hole { EntryInHoleCase }
    ensures entry_in_place { EntryInPlaceCase }
    ensures table_changed { TableChangedCase }
    ensures table_made { TableMadeCase }
    ensures table_freed { TableFreedCase }
{}
