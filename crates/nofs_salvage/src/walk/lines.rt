//! The names of a directory, line by line.
//!
//! Promise: each line is noted as what it is: dead, doubled, a file with its lost slots, or a directory.
ghost use Rattle.std.specs.Prelude.{◌≡◌, ◌++◌, ℕ, Bool, true, false, List, [], ◌∷◌, OnOk};
ghost use Rattle.nofs_model.specs.Files.{is_folder};
ghost use Rattle.std.specs.Fn.{FnReturnsAt};
ghost use Rattle.nofs_history.specs.World.{World};
ghost use Rattle.nofs_history.specs.Steps.{Made};
ghost use Rattle.nofs_history.specs.declared.machine.replies.NameLine.{NameLine as Line};
ghost use Rattle.nofs_salvage.specs.Walk.Steps.{MakesReads, refusal_by};
ghost use Rattle.nofs_salvage.specs.Report.Losses.{pair_losses, pair_folders, line_losses, line_folders};
ghost use Rattle.nofs_salvage.specs.Walk.Answers.{AreAnswered};
ghost use Rattle.nofs_salvage.specs.Report.Trees.{AreSeen, AddsFindings};
ghost use Rattle.nofs_salvage.specs.Walk.Refusals.{AreFair, MayAsk, LeadsTo};
ghost use Rattle.nofs_salvage.specs.Report.Lines.{IsTold, AreTold, AreFolders};
ghost use Rattle.nofs_salvage.specs.Walk.Asks.{Asks, HasGiven, AreGiven, AreReached};
ghost use Rattle.nofs_salvage.specs.Report.Findings.{LinesNoted};

use crate::report::answers::InodeHandle;
use crate::report::fault::SalvageFault;
use crate::report::filter::{NameFilter, NameRule};
use crate::report::findings::{Findings, NameFlaw, note_name};
use crate::report::seen::SeenNames;
use crate::walk::slots::note_file;
use crate::walk::steps::find;
use nofs_history::{NameLine, NameList, Steps};
use nofs_inode::inode::FileKind;
use std::alloc::Global;

// What a pair leads to is noted: a directory joins the list, and of a file, where it is wanted, the lost slots are
// noted.
fn note_pair<S: Steps>(
    alloc: Global,
    steps: &mut S,
    wanted: bool,
    at: InodeHandle,
    line: &NameLine,
    findings: &mut Findings,
) -> Result<(), SalvageFault>
    ensures reads { MakesReads (S.made steps.old) (S.made steps.new) (refusal_by result) }
    ensures noted { OnOk result ((W : World) → AreAnswered W (S.made steps.old) (S.made steps.new)
        → AddsFindings (pair_losses W wanted at.inode line.now)
        (pair_folders W.files at.inode line.now) findings.old findings.new) }
    ensures right { (W : World) → AreAnswered W (S.made steps.old) (S.made steps.new) → MayAsk W.files true at
        → LeadsTo W.files at.inode line.now.name (is_folder line.now.kind)
        → AreFair W.files (S.made steps.old) (S.made steps.new) }
    ensures folders { OnOk result ((W : World) → AreAnswered W (S.made steps.old) (S.made steps.new)
        → LeadsTo W.files at.inode line.now.name (is_folder line.now.kind) → AreFolders W.files findings.old.tree
        → AreFolders W.files findings.new.tree) }
    ensures asks { (first : List Made) → Asks first (S.made steps.old)
        → HasGiven first (S.made steps.old) at line.now.name → Asks first (S.made steps.new) }
    ensures met { OnOk result
        ((first : List Made) → Asks first (S.made steps.old) → AreReached first (S.made steps.old) findings.old.tree
        → AreReached first (S.made steps.new) findings.new.tree) }
    ensures goes { S.goes steps.old steps.new }
{
    match line.kind {
        FileKind::Directory => {
            let directory = find(alloc, steps, at, &line.name)?;
            findings.tree.add(directory)?;
            Ok(())
        }
        FileKind::File => {
            if wanted {
                let file = find(alloc, steps, at, &line.name)?;
                note_file(steps, file, &mut findings.report)
            } else {
                Ok(())
            }
        }
    }
}

// Notes one line; a file, a dead name or a doubled one where it is wanted.
fn note_line<S: Steps>(
    alloc: Global,
    steps: &mut S,
    wanted: bool,
    at: InodeHandle,
    line: &NameLine,
    seen: &mut SeenNames,
    findings: &mut Findings,
) -> Result<(), SalvageFault>
    ensures reads { MakesReads (S.made steps.old) (S.made steps.new) (refusal_by result) }
    ensures names { OnOk result
        ((earlier : List Line) → AreSeen seen.old earlier → AreSeen seen.new (earlier ++ line.now ∷ [])) }
    ensures noted { OnOk result ((W : World) (picks : List ℕ → Bool) (earlier : List Line)
        → wanted ≡ picks line.now.name → AreSeen seen.old earlier
        → AreAnswered W (S.made steps.old) (S.made steps.new)
        → AddsFindings (line_losses W picks at.inode earlier line.now)
        (line_folders W.files at.inode earlier line.now) findings.old findings.new) }
    ensures right { (W : World) (earlier : List Line) → AreSeen seen.old earlier
        → AreAnswered W (S.made steps.old) (S.made steps.new) → MayAsk W.files true at
        → IsTold W.files at.inode earlier line.now → AreFair W.files (S.made steps.old) (S.made steps.new) }
    ensures folders { OnOk result ((W : World) (earlier : List Line) → AreSeen seen.old earlier
        → AreAnswered W (S.made steps.old) (S.made steps.new)
        → IsTold W.files at.inode earlier line.now → AreFolders W.files findings.old.tree
        → AreFolders W.files findings.new.tree) }
    ensures asks { (first : List Made) → Asks first (S.made steps.old)
        → (line.now.dead ≡ false → HasGiven first (S.made steps.old) at line.now.name)
        → Asks first (S.made steps.new) }
    ensures met { OnOk result
        ((first : List Made) → Asks first (S.made steps.old) → AreReached first (S.made steps.old) findings.old.tree
        → AreReached first (S.made steps.new) findings.new.tree) }
    ensures goes { S.goes steps.old steps.new }
{
    if line.dead {
        note_name(
            alloc,
            wanted,
            NameFlaw::Dead,
            at.inode,
            &line.name,
            &mut findings.report,
        )?;
        return Ok(());
    }
    if seen.meet(alloc, line.name.as_slice())? {
        return note_pair(alloc, steps, wanted, at, line, findings);
    }
    note_name(
        alloc,
        wanted,
        NameFlaw::Twice,
        at.inode,
        &line.name,
        &mut findings.report,
    )?;
    Ok(())
}

/// Notes the lines of one slot, behind earlier lines of the directory.
pub(crate) fn note_lines<S: Steps, P: Fn(&[u8]) -> bool, R: NameRule>(
    alloc: Global,
    steps: &mut S,
    filter: &NameFilter<P, R>,
    at: InodeHandle,
    lines: &NameList,
    seen: &mut SeenNames,
    findings: &mut Findings,
) -> Result<(), SalvageFault>
    requires decides { (name : List ℕ) (yes : Bool) → FnReturnsAt P.Fn filter.now.keep name yes
        → yes ≡ R.picks filter.now.rule name }
    requires may { P.IsAlwaysCallable filter.now.keep }
    ensures reads { MakesReads (S.made steps.old) (S.made steps.new) (refusal_by result) }
    ensures lines { OnOk result (LinesNoted (R.picks filter.now.rule) at lines.now (S.made steps.old) (S.made steps.new)
        findings.old findings.new seen.old seen.new) }
    ensures right { (W : World) (earlier : List Line) → AreSeen seen.old earlier
        → AreAnswered W (S.made steps.old) (S.made steps.new) → MayAsk W.files true at
        → AreTold W.files at.inode earlier lines.now → AreFair W.files (S.made steps.old) (S.made steps.new) }
    ensures asks { (first : List Made) → Asks first (S.made steps.old) → AreGiven first (S.made steps.old) at lines.now
        → Asks first (S.made steps.new) }
    ensures goes { S.goes steps.old steps.new }
{
    for line in lines.as_slice() {
        let wanted = filter.picks(line.name.as_slice());
        note_line(alloc, steps, wanted, at, line, seen, findings)?;
    }
    Ok(())
}
