//! The file of a name.
ghost use Rattle.nofs_names.specs.Looks.{LookGoes};
ghost use Rattle.nofs_names.specs.Searches.Refusals.{look_answer};
ghost use Rattle.nofs_history.specs.declared.machine.steps.Step.TheVariants as step;
ghost use Rattle.nofs_state.specs.Cores.FirstRows.{RefusesEarly};
ghost use Rattle.nofs_state.specs.Books.Maps.{IsSafe};

use crate::searches::directories::{NameIn, find_pair, open_named};
use nofs_agree::LastRead;
use nofs_disk::Disk;
use nofs_history::{Found, Refusal};
use nofs_state::Core;

/// Finds the file of a name. One that is no name is `BadName`, over any disk.
pub fn look<D: Disk + Drop>(
    core: &mut Core<D>,
    directory: u32,
    generation: u64,
    name: &[u8],
) -> Result<Found, Refusal>
    requires { IsSafe (D.state core.old.disk) core.old.books }
    ensures goes { LookGoes (D.state core.old.disk) core.old.books
        (D.state core.new.disk) core.new.books directory generation name.now result }
    ensures early { RefusesEarly core.old.books (step.Look directory generation name.now) (look_answer result) }
{
    let at = NameIn {
        directory,
        generation,
        name,
    };
    let mut names = LastRead::NONE;
    let it = match open_named(&mut core.disk, &core.books, at, &mut names) {
        Ok(it) => it,
        Err(why) => return Err(why),
    };
    let mut records = LastRead::NONE;
    match find_pair(
        &mut core.disk,
        &core.books.at,
        &it,
        at,
        &mut names,
        &mut records,
    ) {
        Ok(found) => Ok(Found {
            inode: found.inode,
            generation: found.record.generation,
            kind: found.kind,
        }),
        Err(why) => Err(why),
    }
}
