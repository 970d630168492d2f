//! The walk: the label file, and then all directories from the root on.
//!
//! Promise: it only reads, asks only of the two first files and of what it was told itself, ends with the refusal of
//! any step but one for a slot beyond what a file can have, and else, where no file changed meanwhile, gives the report
//! of the definition.
ghost use Rattle.std.specs.Prelude.{◌≡◌, ℕ, Bool, true, List, [], ◌∷◌, IfOk, OnOk, IfSome};
ghost use Rattle.std.specs.Fn.{FnReturnsAt};
ghost use Rattle.nofs_history.specs.World.{World};
ghost use Rattle.nofs_history.specs.Steps.{Made};
ghost use Rattle.nofs_salvage.specs.Walk.Asks.{Asks};
ghost use Rattle.nofs_salvage.specs.Walk.Steps.{MakesReads, refusal_by};
ghost use Rattle.nofs_salvage.specs.Walk.Answers.{AreAnswered};
ghost use Rattle.nofs_salvage.specs.Walk.Refusals.{is_there, HasRoots, MayRefuse, AreFair};
ghost use Rattle.nofs_salvage.specs.Report.Findings.{TreeNoted};
ghost use Rattle.nofs_salvage.specs.Report.InHand.{handles_in};
ghost use Rattle.nofs_salvage.specs.Report.Inodes.{root_handle};
ghost use Rattle.nofs_salvage.specs.Report.Losses.{report_of};

use crate::report::answers::InodeHandle;
use crate::report::fault::SalvageFault;
use crate::report::filter::{NameFilter, NameRule};
use crate::report::findings::Findings;
use crate::report::report::Report;
use crate::walk::directories::note_folder;
use crate::walk::slots::note_file;
use nofs_history::Steps;
use std::alloc::Global;

// Notes what is lost in all directories.
fn note_tree<S: Steps, P: Fn(&[u8]) -> bool, R: NameRule>(
    alloc: Global,
    steps: &mut S,
    filter: &NameFilter<P, R>,
    findings: &mut Findings,
) -> Result<(), SalvageFault>
    requires may { P.IsAlwaysCallable filter.now.keep }
    requires decides { (name : List ℕ) (yes : Bool) → FnReturnsAt P.Fn filter.now.keep name yes
        → yes ≡ R.picks filter.now.rule name }
    requires root { handles_in findings.old.tree ≡ root_handle ∷ [] }
    ensures reads { MakesReads (S.made steps.old) (S.made steps.new) (refusal_by result) }
    ensures tree { OnOk result (TreeNoted (R.picks filter.now.rule) (S.made steps.old)
        (S.made steps.new) findings.old.report findings.new.report) }
    ensures right { (W : World) → HasRoots W.files → AreAnswered W (S.made steps.old) (S.made steps.new)
        → AreFair W.files (S.made steps.old) (S.made steps.new) }
    ensures asks { (first : List Made) → Asks first (S.made steps.old) → Asks first (S.made steps.new) }
    ensures goes { S.goes steps.old steps.new }
{
    let mut at: usize = 0;
    while let Some(directory) = findings.tree.get(at) {
        note_folder(alloc, steps, filter, directory, findings)?;
        at += 1;
    }
    Ok(())
}

/// What is lost on a disk: the lost slots of the label file and of the files whose names the filter picks, the lost
/// slots of all directories, and of the names that the filter picks those that lead to no file and those that an
/// earlier one hides.
///
/// The steps that are made only look, list, tell sizes and read. Where one is refused, other than for a slot beyond
/// what a file can have, the walk ends with its refusal; want of memory may end it anywhere.
///
/// Names are looked up only where a list gave them as not dead. Lists, sizes and slots are asked only of the root, of
/// the label file and of what such a look found, and slots only below the size.
///
/// Where no file changes meanwhile, it is refused only for a read that failed, a mount that has stopped, or since inode
/// 1 or 2 isn't there with its generation. Where one of them isn't, it gives no report.
pub fn salvage<S: Steps, P: Fn(&[u8]) -> bool, R: NameRule>(
    alloc: Global,
    steps: &mut S,
    filter: &NameFilter<P, R>,
) -> Result<Report, SalvageFault>
    requires may { P.IsAlwaysCallable filter.now.keep }
    requires decides { (name : List ℕ) (yes : Bool) → FnReturnsAt P.Fn filter.now.keep name yes
        → yes ≡ R.picks filter.now.rule name }
    ensures reads { MakesReads (S.made steps.old) (S.made steps.new) (refusal_by result) }
    ensures report { IfOk result (λ report. (W : World) → AreAnswered W (S.made steps.old) (S.made steps.new)
        → report ≡ report_of W (R.picks filter.now.rule)) }
    ensures refused { (W : World) → HasRoots W.files → AreAnswered W (S.made steps.old) (S.made steps.new)
        → IfSome (refusal_by result) (MayRefuse W.files) }
    ensures agreed { IfOk result (λ report. (W : World) → AreAnswered W (S.made steps.old) (S.made steps.new)
        → (is_there W.files 1 1 ≡ true) × (is_there W.files 2 2 ≡ true)) }
    ensures asks { Asks (S.made steps.old) (S.made steps.new) }
    ensures goes { S.goes steps.old steps.new }
{
    let mut findings = Findings::new(alloc)?;
    let label = InodeHandle {
        inode: 2,
        generation: 2,
    };
    note_file(steps, label, &mut findings.report)?;
    note_tree(alloc, steps, filter, &mut findings)?;
    let Findings { report, .. } = findings;
    Ok(report)
}
