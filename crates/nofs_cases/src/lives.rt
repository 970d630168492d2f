//! Small instances of the laws of lives, paths and moves: their premises are met by real disks.
//!
//! Promise: the lists of lives of which the laws speak are there, an upgrade among them; so are a name
//! that leads to its file, and a durable move. One disk shows that the promise refuses an image.

ghost use Rattle.nofs_cases.specs.Lives.Begin.{BeginCase, UpgradeCase};
ghost use Rattle.nofs_cases.specs.Lives.Contents.{BytesCase};
ghost use Rattle.nofs_cases.specs.Lives.Moves.{DirectoryCase, MoveCase, PairCase};
ghost use Rattle.nofs_cases.specs.Lives.Paths.{NamePathCase, RootCase};
ghost use Rattle.nofs_cases.specs.Lives.Refused.{RefusedCase};

/// The root leads to itself, and a name to its file.
pub fn law_path_cases()
    ensures root { RootCase }
    ensures name { NamePathCase }
{}

/// The formatted disk is sound; the next mount raises it, before or after an upgrade. A life begins
/// with the byte that the life before it put.
pub fn law_begin_cases()
    ensures begin { BeginCase }
    ensures upgrade { UpgradeCase }
    ensures bytes { BytesCase }
{}

/// A slot with the bytes of another file is not allowed, at any moment, though every tag and every
/// pointer is in order.
pub fn law_refused_case()
    ensures { RefusedCase }
{}

/// A durable move of the file from a to b: its five entries are a run over a base that a mount leaves, in
/// which the root is a directory and the name a pair, and the move is one of which the laws speak.
pub fn law_move_cases()
    ensures directory { DirectoryCase }
    ensures pair { PairCase }
    ensures moved { MoveCase }
{}
