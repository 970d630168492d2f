//! A name is taken away.
ghost use Rattle.std.specs.Prelude.{◌≡◌, ◌*◌, ◌≤◌, ◌<◌, false, length, if◌then◌else◌};
ghost use Rattle.nofs_disk.specs.Number.{put_bytes, zeros};
ghost use Rattle.nofs_history.specs.Machine as machine;
ghost use Rattle.nofs_history.specs.declared.machine.steps.Step.TheVariants as step;
ghost use Rattle.nofs_history.specs.declared.machine.replies.Reply.TheVariants as reply;
ghost use Rattle.nofs_state.specs.Cores.FirstRows.{RefusesEarly};
ghost use Rattle.nofs_state.specs.Cores.Steps.{Goes};
ghost use Rattle.nofs_agree.specs.Reads.{IsLast};
ghost use Rattle.nofs_history.specs.Claims.{no_claims};
ghost use Rattle.nofs_state.specs.Books.Maps.{IsSafe};
ghost use Rattle.nofs_names.specs.Drops.Parts.{KeepsName, relinked, without_name};
ghost use Rattle.nofs_names.specs.Drops.Removal.{LosesName};
ghost use Rattle.nofs_names.specs.Renames.Parts.{done_answer};
ghost use Rattle.nofs_names.specs.Drops.Answers.{DropGoes, IsCleared, MayDrop, drop_answer};

use crate::drops::blocks::owned_blocks;
use crate::drops::other_names::keeps_name;
use crate::drops::refusals::refuse_filled;
use crate::drops::removal::remove_file;
use crate::entries::cells::hold_entry;
use crate::entries::tables::with_record;
use crate::searches::directories::{NameIn, find_pair, open_named};
use crate::searches::inodes::ReadInode;
use crate::searches::pair_tests::same_link;
use crate::searches::pairs::NamedPair;
use nofs_agree::{LastRead, read_block};
use nofs_dirent::clear_entry;
use nofs_disk::{Cell, Disk, Pointer};
use nofs_history::Refusal;
use nofs_inode::{BackLink, Record};
use nofs_state::{Core, table_block, write_two};
use std::alloc::Global;

/// The cell of a slot without the entry that goes.
#[derive(Clone, Copy)]
pub struct Cleared<'a> {
    pub pointer: Pointer,
    pub cell: Cell,
    pub pair: NamedPair<'a>,
}

/// Takes a name away, and with the last one the inode and its blocks. The answer is whether the
/// inode was removed.
///
/// # Errors
///
/// `Stopped`, `BadName`, `Stale`, `NotDirectory`, `LostEntry`, `LostSlot`, `Missing`, `NotEmpty`,
/// `ReadFault`, `WriteFault` and `OutOfMemory`. All but `WriteFault` leave the disk as it was.
pub fn drop_name<D: Disk + Drop>(
    core: &mut Core<D>,
    alloc: Global,
    directory: u32,
    generation: u64,
    name: &[u8],
) -> Result<bool, Refusal>
    requires { IsSafe (D.state core.old.disk) core.old.books }
    ensures goes { Goes (D.state core.old.disk) core.old.books (D.state core.new.disk) core.new.books
        (step.Drop directory generation name.now) no_claims (drop_answer result) }
    ensures early { RefusesEarly core.old.books (step.Drop directory generation name.now) (drop_answer result) }
{
    let at = NameIn {
        directory,
        generation,
        name,
    };
    match core.disk.ready(2) {
        Ok(()) => drop_with_room(core, at, alloc),
        Err(_) => Err(Refusal::OutOfMemory),
    }
}

fn drop_with_room<D: Disk + Drop>(
    core: &mut Core<D>,
    at: NameIn<'_>,
    alloc: Global,
) -> Result<bool, Refusal>
    requires safe { IsSafe (D.state core.old.disk) core.old.books }
    requires spare { 2 ≤ (D.state core.old.disk).spare }
    ensures goes { DropGoes (D.state core.old.disk) core.old.books (D.state core.new.disk) core.new.books at.entry
        (drop_answer result) }
    ensures early { RefusesEarly core.old.books
        (step.Drop at.entry.directory at.entry.generation at.entry.name.now) (drop_answer result) }
{
    let mut names = LastRead::NONE;
    let it = match open_named(&mut core.disk, &core.books, at, &mut names) {
        Ok(it) => it,
        Err(why) => return Err(why),
    };
    let mut records = LastRead::NONE;
    let numbers = &core.books.at;
    let found = match find_pair(&mut core.disk, numbers, &it, at, &mut names, &mut records) {
        Ok(found) => found,
        Err(why) => return Err(why),
    };
    let pair = NamedPair { at, it, found };
    match refuse_filled(&mut core.disk, numbers, &found, &mut names, &mut records) {
        Ok(()) => drop_found(core, alloc, pair),
        Err(why) => Err(why),
    }
}

// Takes the entry away that was found.
fn drop_found<D: Disk + Drop>(
    core: &mut Core<D>,
    alloc: Global,
    pair: NamedPair<'_>,
) -> Result<bool, Refusal>
    requires finds { MayDrop (D.state core.old.disk) core.old.books pair.at.directory pair.at.generation
        pair.at.name.now pair.it pair.found }
    requires safe { IsSafe (D.state core.old.disk) core.old.books }
    requires spare { 2 ≤ (D.state core.old.disk).spare }
    requires going { core.old.books.stopped ≡ false }
    ensures { DropGoes (D.state core.old.disk) core.old.books (D.state core.new.disk) core.new.books pair.entry.at
        (drop_answer result) }
{
    let directory = ReadInode {
        at: core.books.at,
        inode: pair.at.directory,
        record: pair.it,
    };
    let mut names = LastRead::NONE;
    match hold_entry(&mut core.disk, &directory, &pair.found, &mut names) {
        Err(why) => Err(why),
        Ok(pointer) => {
            let mut cell = names.cell;
            clear_place(&mut cell.payload, pair.found.entry % 16);
            let cleared = Cleared {
                pair,
                pointer,
                cell,
            };
            drop_cleared(core, alloc, cleared)
        }
    }
}

// Makes a place of a directory's cell empty.
fn clear_place(payload: &mut [u8; 1024], place: u32)
    requires { place < 16 }
    ensures whole { length payload.old ≡ 1024 }
    ensures put { payload.new ≡ put_bytes (64 * place) (zeros 64) payload.old }
{
    clear_entry(payload, place);
}

// The record of what was found, without its back link.
fn without_name(it: NamedPair<'_>) -> Record
    ensures { result ≡ without_name it.entry }
{
    let gone = BackLink {
        directory: it.at.directory,
        entry: it.found.entry,
        generation: it.at.generation,
    };
    relinked(&it.found.record, &gone)
}

// Writes the cell without the entry, and the inode without the name.
fn drop_cleared<D: Disk + Drop>(
    core: &mut Core<D>,
    alloc: Global,
    it: Cleared<'_>,
) -> Result<bool, Refusal>
    requires { IsCleared (D.state core.old.disk) core.old.books it }
    ensures { DropGoes (D.state core.old.disk) core.old.books (D.state core.new.disk) core.new.books it.entry.pair.at
        (drop_answer result) }
{
    let found = it.pair.found;
    let rest = without_name(it.pair);
    let read = ReadInode {
        at: core.books.at,
        inode: found.inode,
        record: found.record,
    };
    let known = &core.books.agreement;
    let mut records = LastRead::NONE;
    match keeps_name(&mut core.disk, &read, known, &rest.links, &mut records) {
        Err(_) => Err(Refusal::ReadFault),
        Ok(true) => dropped(drop_link(core, it, &mut records), false),
        Ok(false) => drop_file(core, alloc, it, &mut records),
    }
}

// Writes the cell without the entry, and removes the inode with its blocks.
fn drop_file<D: Disk + Drop>(
    core: &mut Core<D>,
    alloc: Global,
    it: Cleared<'_>,
    records: &mut LastRead,
) -> Result<bool, Refusal>
    requires cleared { IsCleared (D.state core.old.disk) core.old.books it }
    requires loses { LosesName (D.state core.old.disk) core.old.books it.pair.at.directory
        it.pair.at.generation it.pair.found }
    requires last { IsLast (D.state core.old.disk) records.old }
    ensures { DropGoes (D.state core.old.disk) core.old.books (D.state core.new.disk) core.new.books it.entry.pair.at
        (drop_answer result) }
{
    let read = ReadInode {
        at: core.books.at,
        inode: it.pair.found.inode,
        record: it.pair.found.record,
    };
    match owned_blocks(alloc, &mut core.disk, &read, records) {
        Err(why) => Err(why),
        Ok(freed) => dropped(remove_file(core, it, &freed, records), true),
    }
}

fn dropped(done: Result<(), Refusal>, removed: bool) -> Result<bool, Refusal>
    ensures { drop_answer result ≡ done_answer (reply.Dropped removed) done }
{
    match done {
        Ok(()) => Ok(removed),
        Err(why) => Err(why),
    }
}

// A back link, or an empty place where it is the one that goes.
fn kept_link(link: &BackLink, gone: &BackLink) -> BackLink
    ensures { result ≡ (if machine.same_link link.now gone.now then machine.link_to 0 0 0 else link.now) }
{
    if same_link(link, gone) {
        BackLink::EMPTY
    } else {
        *link
    }
}

// A record without a back link.
fn relinked(it: &Record, gone: &BackLink) -> Record
    ensures { result ≡ relinked it.now gone.now }
{
    let links = [
        kept_link(&it.links[0], gone),
        kept_link(&it.links[1], gone),
        kept_link(&it.links[2], gone),
        kept_link(&it.links[3], gone),
    ];
    Record { links, ..*it }
}

// Writes the cell without the entry, and the record without the back link.
fn drop_link<D: Disk + Drop>(
    core: &mut Core<D>,
    it: Cleared<'_>,
    records: &mut LastRead,
) -> Result<(), Refusal>
    requires cleared { IsCleared (D.state core.old.disk) core.old.books it }
    requires keeps { KeepsName (D.state core.old.disk) core.old.books it.pair.at.directory
        it.pair.at.generation it.pair.found }
    requires last { IsLast (D.state core.old.disk) records.old }
    ensures { DropGoes (D.state core.old.disk) core.old.books (D.state core.new.disk) core.new.books it.entry.pair.at
        (done_answer (reply.Dropped false) result) }
{
    let found = it.pair.found;
    let rest = without_name(it.pair);
    let block = table_block(found.inode);
    match read_block(&mut core.disk, block, records) {
        Ok(()) => {
            let mut table = records.cell;
            with_record(&mut table, found.inode, &rest);
            write_two(core, it.pointer.block, &it.cell, block, &table)
        }
        Err(_) => Err(Refusal::ReadFault),
    }
}
