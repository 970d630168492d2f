//! What the steps on files leave on the disk: Put wherever its slot lies, and Resize.
//!
//! Promise: each law speaks of the disk before a step and the disk after it, and of no code. A step
//! function shows that its writes lie as the law asks.

ghost use Rattle.nofs_crashlaw.specs.Files.Puts.{LawPutFiles, LawPutHeld, LawPutHomes};
ghost use Rattle.nofs_crashlaw.specs.Files.Resizes.{LawResizeFiles, LawResizeHoles, LawResizeHomes};
ghost use Rattle.nofs_crashlaw.specs.Files.Writes.{LawContent, LawPointerBlock, LawRecord};

/// After a Put, in place or with claimed blocks at any depth, the machine's files are those of the
/// disk, and each block has its home.
pub fn law_put()
    ensures held { LawPutHeld }
    ensures files { LawPutFiles }
    ensures homes { LawPutHomes }
{}

/// After a Resize the machine's files are those of the disk, each block that stays has its home, and
/// holes are given to all that is cut off.
pub fn law_resize()
    ensures files { LawResizeFiles }
    ensures homes { LawResizeHomes }
    ensures holes { LawResizeHoles }
{}

/// Why a cell of content, a block of pointers and a record that a step on a file writes are proper.
pub fn law_writes()
    ensures content { LawContent }
    ensures pointer_block { LawPointerBlock }
    ensures inode { LawRecord }
{}
