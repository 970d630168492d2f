//! The lost slots of a file.
//!
//! Promise: each lost slot below the size is noted, in order, and no other.
ghost use Rattle.std.specs.Prelude.{◌≡◌, ◌<◌, ℕ, List, ◌++◌, min, true, false, IfOk, OnOk};
ghost use Rattle.nofs_history.specs.Steps.{Made};
ghost use Rattle.nofs_history.specs.Machine.{slots_in as slots_of_size};
ghost use Rattle.nofs_history.specs.Refusals.{slots as slots_of};
ghost use Rattle.nofs_history.specs.World.{World};
ghost use Rattle.nofs_salvage.specs.Walk.Steps.{MakesReads, refusal_by};
ghost use Rattle.nofs_salvage.specs.Report.Losses.{lost_below, file_losses};
ghost use Rattle.nofs_salvage.specs.Walk.Answers.{AreAnswered, IsNoted};
ghost use Rattle.nofs_salvage.specs.Walk.Refusals.{is_there, AreFair, MayAsk};
ghost use Rattle.nofs_salvage.specs.Walk.Asks.{Asks, AsksOn, HasReached, HasTold};

use crate::report::answers::{InodeHandle, SlotState};
use crate::report::fault::SalvageFault;
use crate::report::report::{Loss, Report};
use crate::walk::steps::{get, size_of};
use nofs_history::Steps;

// How many slots a size reaches into.
fn slots_in(size: u64) -> u64
    ensures { result ≡ slots_of_size size }
{
    size / 1024 + u64::from(size % 1024 != 0)
}

// Notes a slot where it is lost. Whether files have such a slot.
fn note_slot<S: Steps>(
    steps: &mut S,
    at: InodeHandle,
    slot: u64,
    report: &mut Report,
) -> Result<bool, SalvageFault>
    ensures reads { MakesReads (S.made steps.old) (S.made steps.new) (refusal_by result) }
    ensures noted { IfOk result (λ more. (W : World) → AreAnswered W (S.made steps.old) (S.made steps.new)
        → IsNoted W at.inode slot more report.old report.new) }
    ensures right { (W : World) → AreAnswered W (S.made steps.old) (S.made steps.new) → MayAsk W.files false at
        → AreFair W.files (S.made steps.old) (S.made steps.new) }
    ensures asks { (first : List Made) (size : ℕ) → slot < slots_of_size size → Asks first (S.made steps.old)
        → HasReached first (S.made steps.old) at
        → HasTold first (S.made steps.old) at size → Asks first (S.made steps.new) }
    ensures told { IfOk result
        (λ more. (first : List Made) (size : ℕ) → more ≡ true → HasTold first (S.made steps.old) at size
        → HasTold first (S.made steps.new) at size) }
    ensures goes { S.goes steps.old steps.new }
{
    match get(steps, at, slot)? {
        SlotState::Kept => Ok(true),
        SlotState::Lost => {
            report.push(Loss::Slot {
                inode: at.inode,
                slot,
            })?;
            Ok(true)
        }
        SlotState::NoSlot => Ok(false),
    }
}

// Notes the lost slots below a size.
fn note_slots<S: Steps>(
    steps: &mut S,
    at: InodeHandle,
    report: &mut Report,
    size: u64,
) -> Result<(), SalvageFault>
    ensures reads { MakesReads (S.made steps.old) (S.made steps.new) (refusal_by result) }
    ensures noted { OnOk result ((W : World) → AreAnswered W (S.made steps.old) (S.made steps.new)
        → report.new ≡ report.old ++ lost_below W.files at.inode (min (slots_of_size size) (slots_of W))) }
    ensures right { (W : World) → AreAnswered W (S.made steps.old) (S.made steps.new) → MayAsk W.files false at
        → AreFair W.files (S.made steps.old) (S.made steps.new) }
    ensures asks { (first : List Made) → Asks first (S.made steps.old) → HasReached first (S.made steps.old) at
        → HasTold first (S.made steps.old) at size → Asks first (S.made steps.new) }
    ensures goes { S.goes steps.old steps.new }
{
    for slot in 0..slots_in(size) {
        if !note_slot(steps, at, slot, report)? {
            return Ok(());
        }
    }
    Ok(())
}

/// Notes the lost slots of a file.
pub(crate) fn note_file<S: Steps>(
    steps: &mut S,
    at: InodeHandle,
    report: &mut Report,
) -> Result<(), SalvageFault>
    ensures reads { MakesReads (S.made steps.old) (S.made steps.new) (refusal_by result) }
    ensures noted { OnOk result ((W : World) → AreAnswered W (S.made steps.old) (S.made steps.new)
        → report.new ≡ report.old ++ file_losses W at.inode) }
    ensures there { OnOk result ((W : World) → AreAnswered W (S.made steps.old) (S.made steps.new)
        → is_there W.files at.inode at.generation ≡ true) }
    ensures right { (W : World) → AreAnswered W (S.made steps.old) (S.made steps.new) → MayAsk W.files false at
        → AreFair W.files (S.made steps.old) (S.made steps.new) }
    ensures asks { AsksOn (S.made steps.old) (S.made steps.new) at }
    ensures goes { S.goes steps.old steps.new }
{
    let size = size_of(steps, at)?;
    note_slots(steps, at, report, size)
}
