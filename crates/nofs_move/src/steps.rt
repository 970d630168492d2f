//! The steps of one run of the command, by their replies.
//!
//! Promise: which step is which is settled by what they were answered.
ghost use Rattle.nofs_move.specs.Steps.{LawCommandBegun, LawCommandRun, LawMovedSteps, LawSteps};

/// The steps of one run of the command, by their replies. Where one was answered `Linked`: the Look that
/// found the file, the first flush and the Link were accepted, in this order, and each other step changed
/// nothing, but for Drop, which comes after an accepted second flush only. Where the line is `moved`, the
/// second flush and Drop came. In the history of a session each command of a user has such a run, the one
/// at which the user ended early as far as it came.
pub fn law_move_steps()
    ensures linked { LawSteps }
    ensures moved { LawMovedSteps }
    ensures run { LawCommandRun }
    ensures begun { LawCommandBegun }
{}
