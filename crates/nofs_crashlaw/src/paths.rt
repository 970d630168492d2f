//! Names after a crash: which name finds its file in every image that a crash may leave.
//!
//! Promise: a path each of whose names is the same in every version since the last flush leads to its
//! file, whatever other names its directories were given.

ghost use Rattle.nofs_crashlaw.specs.Paths.Names.{LawSureChain, LawSureName};

/// A directory to which names lead that every version since the last flush has is agreed in each
/// image, and a name in it that every version has finds its file.
pub fn law_path()
    ensures chain { LawSureChain }
    ensures name { LawSureName }
{}
