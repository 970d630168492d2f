//! That the answers are those of a mount of the same image, as laws.
ghost use Rattle.nofs_reader.specs.Laws.{LawEntries, LawNames};

/// An entry is dead exactly where it is to the machine that a mount answers by.
pub fn law_entries()
    ensures { LawEntries }
{}

/// An inode has as many names as it has to that machine.
pub fn law_names()
    ensures { LawNames }
{}
