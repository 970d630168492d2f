//! Laws of the machine, and worked examples of its steps.
//!
//! Promise: a law is the contract of a function here; each example is computed from the definitions.

ghost use Rattle.nofs_crashlaw.specs.Machine.Examples.{AreShown, FailedFlush, FailedRead, GivenToSlot, contents};
ghost use Rattle.nofs_crashlaw.specs.Machine.Examples.{elements, large_files, name_examples};
ghost use Rattle.nofs_crashlaw.specs.Machine.Examples.{new_names};
ghost use Rattle.nofs_crashlaw.specs.Machine.Laws.{LawAccepted, LawFits, LawFunction, LawTotal};

/// In every world each step can be answered, and but for claims, faults and what becomes known in one
/// way alone.
pub fn law_next()
    ensures total { LawTotal }
    ensures function { LawFunction }
{}

/// While no write failed, the files of the machine are what its history accepted last.
pub fn law_accepted()
    ensures { LawAccepted }
{}

/// Where no slot has other than 1,024 bytes, what the machine answers fits the step.
pub fn law_fits()
    ensures { LawFits }
{}

/// Seventy steps in small worlds, each with the answer that was worked by hand, and each refusal among them.
pub fn law_examples()
    ensures names { AreShown name_examples }
    ensures new_names { AreShown new_names }
    ensures contents { AreShown contents }
    ensures large_files { AreShown large_files }
    ensures elements { AreShown elements }
    ensures failed_read { FailedRead }
    ensures failed_flush { FailedFlush }
    ensures given { GivenToSlot }
{}
