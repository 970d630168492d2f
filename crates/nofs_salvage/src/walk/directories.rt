//! The slots of a directory.
//!
//! Promise: each lost slot is noted, and each line of each slot that has lines, in order.
ghost use Rattle.std.specs.Prelude.{◌≡◌, ◌+◌, ◌<◌, ◌≤◌, ℕ, Bool, true, List, IfOk, OnOk};
ghost use Rattle.std.specs.Fn.{FnReturnsAt};
ghost use Rattle.nofs_history.specs.World.{World};
ghost use Rattle.nofs_salvage.specs.declared.report.findings.Findings.{Findings as Found};
ghost use Rattle.nofs_salvage.specs.Walk.Steps.{MakesReads, refusal_by};
ghost use Rattle.nofs_salvage.specs.Walk.Answers.{AreAnswered};
ghost use Rattle.nofs_salvage.specs.Report.Trees.{IsWalked};
ghost use Rattle.nofs_salvage.specs.Walk.Refusals.{AreFair, MayAsk};
ghost use Rattle.nofs_salvage.specs.Report.Findings.{SlotsNoted, FolderNoted};
ghost use Rattle.nofs_salvage.specs.Walk.Asks.{AsksOn};

use crate::report::answers::{InodeHandle, NextSlot};
use crate::report::fault::SalvageFault;
use crate::report::filter::{NameFilter, NameRule};
use crate::report::findings::Findings;
use crate::report::report::Loss;
use crate::report::seen::SeenNames;
use crate::walk::lines::note_lines;
use crate::walk::steps::list;
use nofs_history::Steps;
use std::alloc::Global;

// How many slots a directory has.
const SLOTS: u64 = 72;

// The slot behind the one that was listed from a slot on.
fn slot_behind(slot: u64, held: u64) -> u64
    requires slot { slot < 72 }
    requires held { held < 72 }
    ensures later { (slot < result) × (result ≤ 72) }
    ensures is { slot ≤ held → result ≡ held + 1 }
{
    held.max(slot) + 1
}

// Notes the first slot from a given one on that isn't a hole. The slot behind it.
fn note_next<S: Steps, P: Fn(&[u8]) -> bool, R: NameRule>(
    alloc: Global,
    steps: &mut S,
    filter: &NameFilter<P, R>,
    at: InodeHandle,
    slot: u64,
    seen: &mut SeenNames,
    findings: &mut Findings,
) -> Result<u64, SalvageFault>
    requires may { P.IsAlwaysCallable filter.now.keep }
    requires decides { (name : List ℕ) (yes : Bool) → FnReturnsAt P.Fn filter.now.keep name yes
        → yes ≡ R.picks filter.now.rule name }
    requires slot { slot < 72 }
    ensures reads { MakesReads (S.made steps.old) (S.made steps.new) (refusal_by result) }
    ensures slots { IfOk result
        (λ next. SlotsNoted (R.picks filter.now.rule) at slot next (S.made steps.old) (S.made steps.new)
        findings.old findings.new seen.old seen.new) }
    ensures right { (W : World) (start : Found)
        → IsWalked W (R.picks filter.now.rule) at.inode slot start findings.old seen.old
        → AreAnswered W (S.made steps.old) (S.made steps.new) → MayAsk W.files true at
        → AreFair W.files (S.made steps.old) (S.made steps.new) }
    ensures asks { AsksOn (S.made steps.old) (S.made steps.new) at }
    ensures goes { S.goes steps.old steps.new }
{
    let listed = list(steps, at, slot)?;
    match listed {
        NextSlot::Names(held, lines) => {
            note_lines(alloc, steps, filter, at, &lines, seen, findings)?;
            Ok(slot_behind(slot, held))
        }
        NextSlot::LostNames(held) => {
            findings.report.push(Loss::Slot {
                inode: at.inode,
                slot: held,
            })?;
            Ok(slot_behind(slot, held))
        }
        NextSlot::NoMore => Ok(SLOTS),
    }
}

/// Notes the lost slots and the names of a directory.
pub(crate) fn note_folder<S: Steps, P: Fn(&[u8]) -> bool, R: NameRule>(
    alloc: Global,
    steps: &mut S,
    filter: &NameFilter<P, R>,
    at: InodeHandle,
    findings: &mut Findings,
) -> Result<(), SalvageFault>
    requires may { P.IsAlwaysCallable filter.now.keep }
    requires decides { (name : List ℕ) (yes : Bool) → FnReturnsAt P.Fn filter.now.keep name yes
        → yes ≡ R.picks filter.now.rule name }
    ensures reads { MakesReads (S.made steps.old) (S.made steps.new) (refusal_by result) }
    ensures folder { OnOk result
        (FolderNoted (R.picks filter.now.rule) at (S.made steps.old) (S.made steps.new) findings.old findings.new) }
    ensures right { (W : World) → AreAnswered W (S.made steps.old) (S.made steps.new) → MayAsk W.files true at
        → AreFair W.files (S.made steps.old) (S.made steps.new) }
    ensures asks { AsksOn (S.made steps.old) (S.made steps.new) at }
    ensures goes { S.goes steps.old steps.new }
{
    let mut seen = SeenNames::new(alloc);
    let mut slot = 0;
    while slot < SLOTS {
        slot = note_next(alloc, steps, filter, at, slot, &mut seen, findings)?;
    }
    Ok(())
}
