//! Small instances of the laws of a crash and of the machine: their premises are met by real disks.
//!
//! Promise: the stages of which the laws speak are there, and so are a first life on a new disk, a mark with
//! the writes of a Put, and the states of a disk around it.

ghost use Rattle.nofs_cases.specs.Lives.Runs.{EarlyLife, NewDisk, TwoLives};
ghost use Rattle.nofs_cases.specs.Crashes.Put.{FirstStageCase, FlushCase, FlushStageCase, IdleStageCase, ImagesCase};
ghost use Rattle.nofs_cases.specs.Crashes.Put.{LaterCase, MomentCase, NamesCase};
ghost use Rattle.nofs_cases.specs.Crashes.Put.{PointersCase, RestCase, SameDisk, StageCase, SteadyCase, StepCase};
ghost use Rattle.nofs_cases.specs.Crashes.Put.{UnflushedCase, WritesCase};
ghost use Rattle.nofs_cases.specs.Crashes.Machine.{AcceptedCase, FitsCase};

use nofs_crashlaw::law_next;

/// A formatted disk of 16 blocks is new, and so may be the base of a first life. From any new disk any
/// step can be taken; a crash may lose it, and after an upgrade the next life begins. A mount that
/// ended inside its raise is a life too.
pub fn law_cases()
    ensures new_disk { NewDisk }
    ensures two_lives { TwoLives }
    ensures early_life { EarlyLife }
{
    law_next();
}

/// The formatted disk is a mark, each write of a Put is proper, and a pick that has one of its two
/// writes alone is explained.
pub fn law_mark_cases()
    ensures same_disk { SameDisk }
    ensures images { ImagesCase }
    ensures moment { MomentCase }
    ensures flush { FlushCase }
    ensures writes { WritesCase }
    ensures pointers { PointersCase }
{}

/// The Put is a step under way, comes after moment 0, has no flush, and spares the rest.
pub fn law_history_cases()
    ensures step { StepCase }
    ensures later { LaterCase }
    ensures names { NamesCase }
    ensures unflushed { UnflushedCase }
    ensures rest { RestCase }
{}

/// The states of a disk after a mount, over a Put of two writes, over a look at a block, and over a
/// flush.
pub fn law_stage_cases()
    ensures first { FirstStageCase }
    ensures stage { StageCase }
    ensures idle { IdleStageCase }
    ensures steady { SteadyCase }
    ensures flush { FlushStageCase }
{}

/// The Put is a step of a sized world, in a history without a write fault.
pub fn law_machine_cases()
    ensures fits { FitsCase }
    ensures accepted { AcceptedCase }
{}
