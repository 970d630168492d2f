//! What a step leaves as it was: files that it does not touch, and slots beside the one that it
//! changes.
//!
//! Promise: each law speaks of the disk before a step and the disk after it, and of no code.

ghost use Rattle.nofs_crashlaw.specs.Untouched.Laws.{LawGrown, LawUntouched};

/// A file that a step does not touch stays; and where a slot gets its block, with blocks of pointers
/// above it or without, every other slot of the file stays.
pub fn law_frames()
    ensures untouched { LawUntouched }
    ensures grown { LawGrown }
{}
