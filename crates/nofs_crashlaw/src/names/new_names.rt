//! What a new entry leaves on the disk: Link and Make, in a slot that holds and in one that claims a
//! block, with or without its leaf.
//!
//! Promise: each law speaks of the disk before a step and the disk after it, and of no code. A step
//! function shows that its writes lie as the law asks.

ghost use Rattle.nofs_crashlaw.specs.Names.NewEntries.{LawLinkInHole, LawLinkInPlace, LawMakeInHole, LawMakeInPlace};
ghost use Rattle.nofs_crashlaw.specs.Homes.Names.{LawNameHomes};

/// A file that gets a further name: the writes are proper, and the machine's files are those of the
/// disk.
pub fn law_link()
    ensures in_place { LawLinkInPlace }
    ensures in_hole { LawLinkInHole }
{}

/// A new file or directory: the writes are proper, and the machine's files are those of the disk.
pub fn law_make()
    ensures in_place { LawMakeInPlace }
    ensures in_hole { LawMakeInHole }
{}

/// After a step that writes one directory and one inode each block has its home, in place, with a
/// claim, and where a file is removed.
pub fn law_name_homes()
    ensures { LawNameHomes }
{}
