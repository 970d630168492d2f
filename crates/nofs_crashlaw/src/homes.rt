//! The homes of the blocks after each step on names: Rename, Drop, Link and Make.
//!
//! Promise: each law speaks of the disk before a step and the disk after it, and of no code. Its
//! premises are those that make the step's writes proper, what was claimed, and where the entry goes.

ghost use Rattle.nofs_crashlaw.specs.Homes.Entries.{LawDropFileHomes, LawDropNameHomes, LawLinkInHoleHomes};
ghost use Rattle.nofs_crashlaw.specs.Homes.Entries.{LawLinkInPlaceHomes, LawMakeInHoleHomes};
ghost use Rattle.nofs_crashlaw.specs.Homes.Entries.{LawMakeInPlaceHomes, LawRenameHomes};
ghost use Rattle.nofs_crashlaw.specs.Names.Places.{LawEntryPlace, LawSpelledEntry};

/// A new entry goes into a slot that holds or into a hole, and never into one that is lost.
pub fn law_entry_place()
    ensures { LawEntryPlace }
{}

/// The bytes of a spelled entry are read back as the entry, as the laws of Link and Make ask.
pub fn law_spelled_entry()
    ensures { LawSpelledEntry }
{}

/// After a Rename each block has the home that it had.
pub fn law_rename_homes()
    ensures { LawRenameHomes }
{}

/// After a Drop each block has the home that it had, where the file has another name, and where it
/// is removed each block but its own.
pub fn law_drop_homes()
    ensures name { LawDropNameHomes }
    ensures file { LawDropFileHomes }
{}

/// After a Link each block has its home, and so have the claimed ones.
pub fn law_link_homes()
    ensures in_place { LawLinkInPlaceHomes }
    ensures in_hole { LawLinkInHoleHomes }
{}

/// After a Make each block has its home, and so have the claimed ones.
pub fn law_make_homes()
    ensures in_place { LawMakeInPlaceHomes }
    ensures in_hole { LawMakeInHoleHomes }
{}
