//! What the entries of a move promise of a crash, wherever they stand in a history.
//!
//! Promise: the replies to the steps of the command, and what other callers did to its two names, are all
//! that has to be known of a history for this.
ghost use Rattle.nofs_crashlaw.specs.Paths.Moves.{LawAlone, LawMove, LawMoved};
ghost use Rattle.nofs_move.specs.Laws.{LawIsMove, LawNamesLeft, LawNewName, LawOneName};

/// A file that is looked up, flushed, linked under a new name, flushed again and dropped under its old
/// name, while other entries leave these two names: from the end of the first flush each image has one
/// of the names, and from the end of the second the new one. Where no other entry comes between, it is
/// enough that its steps were accepted. A base is what a mount leaves (`nofs_crashlaw::law_base`).
pub fn law_move()
    ensures either { LawMove }
    ensures moved { LawMoved }
    ensures alone { LawAlone }
{}

/// Over a base that a mount leaves, whatever else the history holds: where no other entry changes the entry
/// that Look found, until Drop, or from Link on the new one, the entries of the run are a durable move. So
/// from the end of its first flush on every image that a crash may leave has the file under one of the two
/// names; and where Drop came, from the end of the second flush on under the new one. It is enough that no
/// other step renames or drops one of these two names: whatever else the other callers do leaves them.
pub fn law_move_run()
    ensures is_move { LawIsMove }
    ensures either { LawOneName }
    ensures moved { LawNewName }
    ensures left { LawNamesLeft }
{}
