//! Another name in place of one.
ghost use Rattle.std.specs.Prelude.{◌≡◌, ◌≤◌, false};
ghost use Rattle.nofs_history.specs.declared.machine.steps.Step.TheVariants as step;
ghost use Rattle.nofs_history.specs.declared.machine.replies.Reply.TheVariants as reply;
ghost use Rattle.nofs_history.specs.Claims.{no_claims};
ghost use Rattle.nofs_agree.specs.Reads.{IsLast};
ghost use Rattle.nofs_state.specs.Cores.FirstRows.{RefusesEarly};
ghost use Rattle.nofs_state.specs.Books.Maps.{IsSafe};
ghost use Rattle.nofs_state.specs.Cores.Steps.{Goes};
ghost use Rattle.nofs_names.specs.Renames.Parts.{done_answer};
ghost use Rattle.nofs_names.specs.Renames.Answers.{MayRename, RenameGoes};

use crate::entries::cells::{hold_entry, put_entry};
use crate::searches::directories::{NameIn, find_pair, find_unused, open_named};
use crate::searches::inodes::ReadInode;
use crate::searches::pairs::NamedPair;
use nofs_agree::LastRead;
use nofs_dirent::name_ok;
use nofs_disk::Disk;
use nofs_history::Refusal;
use nofs_state::{Core, write_one};
use std::alloc::Global;

/// Writes a new name over an old one, in its place.
pub fn rename<D: Disk + Drop>(
    alloc: Global,
    core: &mut Core<D>,
    directory: u32,
    generation: u64,
    old: &[u8],
    new: &[u8],
) -> Result<(), Refusal>
    requires { IsSafe (D.state core.old.disk) core.old.books }
    ensures goes { Goes (D.state core.old.disk) core.old.books (D.state core.new.disk) core.new.books
        (step.Rename directory generation old.now new.now) no_claims (done_answer reply.Renamed result) }
    ensures early { RefusesEarly core.old.books (step.Rename directory generation old.now new.now)
        (done_answer reply.Renamed result) }
{
    let at = NameIn {
        directory,
        generation,
        name: old,
    };
    match core.disk.ready(1) {
        Ok(()) => rename_with_room(alloc, core, at, new),
        Err(_) => Err(Refusal::OutOfMemory),
    }
}

fn rename_with_room<D: Disk + Drop>(
    alloc: Global,
    core: &mut Core<D>,
    at: NameIn<'_>,
    new: &[u8],
) -> Result<(), Refusal>
    requires safe { IsSafe (D.state core.old.disk) core.old.books }
    requires spare { 1 ≤ (D.state core.old.disk).spare }
    ensures goes { RenameGoes (D.state core.old.disk) core.old.books
        (D.state core.new.disk) core.new.books at.entry new.now result }
    ensures early { RefusesEarly core.old.books
        (step.Rename at.entry.directory at.entry.generation at.entry.name.now new.now)
        (done_answer reply.Renamed result) }
{
    if core.books.stopped {
        return Err(Refusal::Stopped);
    }
    if !name_ok(at.name) {
        return Err(Refusal::BadName);
    }
    if !name_ok(new) {
        return Err(Refusal::BadName);
    }
    let mut names = LastRead::NONE;
    let mut records = LastRead::NONE;
    let it = match open_named(&mut core.disk, &core.books, at, &mut names) {
        Ok(it) => it,
        Err(why) => return Err(why),
    };
    let numbers = &core.books.at;
    let found = match find_pair(&mut core.disk, numbers, &it, at, &mut names, &mut records) {
        Ok(found) => found,
        Err(why) => return Err(why),
    };
    let directory = ReadInode {
        at: core.books.at,
        inode: at.directory,
        record: it,
    };
    let pair = NamedPair { at, it, found };
    match find_unused(&mut core.disk, new, &directory, &mut names, &mut records) {
        Ok(_) => rename_found(alloc, core, pair, new, &mut names),
        Err(why) => Err(why),
    }
}

// Writes the new name over that of the entry that was found.
fn rename_found<D: Disk + Drop>(
    alloc: Global,
    core: &mut Core<D>,
    pair: NamedPair<'_>,
    new: &[u8],
    names: &mut LastRead,
) -> Result<(), Refusal>
    requires may { MayRename (D.state core.old.disk) core.old.books pair new.now }
    requires safe { IsSafe (D.state core.old.disk) core.old.books }
    requires spare { 1 ≤ (D.state core.old.disk).spare }
    requires going { core.old.books.stopped ≡ false }
    requires last { IsLast (D.state core.old.disk) names.old }
    ensures { RenameGoes (D.state core.old.disk) core.old.books
        (D.state core.new.disk) core.new.books pair.entry.at new.now result }
{
    let found = &pair.found;
    let directory = ReadInode {
        at: core.books.at,
        inode: pair.at.directory,
        record: pair.it,
    };
    match hold_entry(&mut core.disk, &directory, found, names) {
        Err(why) => Err(why),
        Ok(pointer) => {
            let mut cell = names.cell;
            let place = found.entry % 16;
            let generation = found.record.generation;
            match put_entry(
                alloc,
                &mut cell.payload,
                place,
                found.inode,
                generation,
                new,
            ) {
                Ok(()) => write_one(core, pointer.block, &cell),
                Err(_) => Err(Refusal::OutOfMemory),
            }
        }
    }
}
