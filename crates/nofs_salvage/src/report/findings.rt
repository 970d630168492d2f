//! What a walk has found so far.
//!
//! Promise: losses are noted at the end, and directories once.
ghost use Rattle.std.specs.Prelude.{◌≡◌, ◌++◌, [], ◌∷◌, IfOk, OnOk};
ghost use Rattle.nofs_salvage.specs.Report.Inodes.{root_handle};
ghost use Rattle.nofs_salvage.specs.Report.InHand.{handles_in};
ghost use Rattle.nofs_salvage.specs.Report.Losses.{if_so, name_loss};

use crate::report::answers::InodeHandle;
use crate::report::report::{Loss, Report};
use crate::report::tree::Tree;
use nofs_dirent::Name;
use std::alloc::{AllocError, Global};

/// The losses, and the directories whose names are or will be gone through.
#[derive(Drop)]
pub struct Findings {
    pub report: Report,
    pub tree: Tree,
}

impl Findings {
    /// No losses, and the root.
    pub fn new(alloc: Global) -> Result<Self, AllocError>
        ensures begins { IfOk result (λ findings. findings.report ≡ []) }
        ensures root { IfOk result (λ findings. handles_in findings.tree ≡ root_handle ∷ []) }
    {
        let mut tree = Tree::new(alloc);
        tree.add(InodeHandle {
            inode: 1,
            generation: 1,
        })?;
        Ok(Findings {
            report: Report::new(alloc),
            tree,
        })
    }
}

/// Why a name is noted.
#[derive(Clone, Copy)]
pub enum NameFlaw {
    /// It leads to no file.
    Dead,
    /// An earlier one hides it.
    Twice,
}

fn loss_of(flaw: NameFlaw, directory: u32, name: Name) -> Loss
    ensures { result ≡ name_loss flaw directory name }
{
    match flaw {
        NameFlaw::Dead => Loss::Dead { directory, name },
        NameFlaw::Twice => Loss::Twice { directory, name },
    }
}

/// Notes a name with a flaw, where it is wanted.
pub(crate) fn note_name(
    alloc: Global,
    wanted: bool,
    flaw: NameFlaw,
    directory: u32,
    name: &Name,
    report: &mut Report,
) -> Result<(), AllocError>
    ensures { OnOk result (report.new ≡ report.old ++ if_so wanted (name_loss flaw directory name.now)) }
{
    if wanted {
        let name = name.copy(alloc)?;
        report.push(loss_of(flaw, directory, name))?;
    }
    Ok(())
}
