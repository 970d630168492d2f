//! What the steps on names leave on the disk where the entry's slot holds: Rename and Drop.
//!
//! Promise: each law speaks of the disk before a step and the disk after it, and of no code. A step
//! function shows that its writes lie as the law asks.

ghost use Rattle.nofs_crashlaw.specs.Names.OldEntries.{LawDropEntry, LawDropFile, LawDropName, LawRename};

/// A found entry whose name is written in place: the write is proper, and the machine's files are
/// those of the disk.
pub fn law_rename()
    ensures { LawRename }
{}

/// A found entry that is cleared: the writes are proper, and the machine's files are those of the
/// disk, where the file has another name and where it is removed.
pub fn law_drop()
    ensures entry { LawDropEntry }
    ensures name { LawDropName }
    ensures file { LawDropFile }
{}
