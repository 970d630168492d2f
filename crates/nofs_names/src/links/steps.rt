//! A file gets a further name.
ghost use Rattle.std.specs.Prelude.{◌≡◌, ◌≤◌, ◌<◌, IfOk, false, length};
ghost use Rattle.nofs_history.specs.declared.machine.steps.Step.TheVariants as step;
ghost use Rattle.nofs_history.specs.declared.machine.replies.Reply.TheVariants as reply;
ghost use Rattle.nofs_dirent.specs.Entries.{HasEntrySpelling, entry_with, spelled_entry};
ghost use Rattle.nofs_dirent.specs.EntryLaws.{Spells};
ghost use Rattle.nofs_dirent.specs.Names.{NameOk};
ghost use Rattle.nofs_state.specs.Cores.FirstRows.{RefusesEarly};
ghost use Rattle.nofs_state.specs.Cores.Steps.{Goes};
ghost use Rattle.nofs_agree.specs.Reads.{IsAt};
ghost use Rattle.nofs_state.specs.Books.Maps.{IsSafe};
ghost use Rattle.nofs_names.specs.Entries.Writes.{MayEnter};
ghost use Rattle.nofs_names.specs.Renames.Parts.{done_answer};
ghost use Rattle.nofs_names.specs.Links.{HasPlaces, Leads, LinkEnds, LinkGoes, MayLink, OpensBoth};
ghost use Rattle.nofs_names.specs.Links.{StandsLink};
ghost use Rattle.nofs_names.specs.Links.{block_rows, both_as, entry_step, link_step, named_rows};
ghost use Rattle.nofs_names.specs.Links.{with_link};

use crate::entries::places::{entry_place, find_entry_slot, take_blocks};
use crate::entries::writes::{EntryPlace, NewEntry, enter, read_tables};
use crate::links::new_name::{Both, NewName};
use crate::links::places::link_place;
use crate::searches::directories::{NameIn, find_unused};
use crate::searches::inodes::ReadInode;
use nofs_agree::LastRead;
use nofs_dirent::{Entry, Name, name_ok};
use nofs_disk::Disk;
use nofs_history::Refusal;
use nofs_inode::{BackLink, FileKind, Record};
use nofs_state::{Books, Core, Ended, Opened, open_inode, refused};
use std::alloc::{AllocError, Global};

/// Writes a further name of a file.
///
/// # Errors
///
/// `Stopped`, `BadName`, `Stale`, `NotDirectory`, `IsDirectory`, `Exists`, `TooManyLinks`,
/// `DirectoryFull`, `Full`, `SerialsSpent`, `ReadFault`, `WriteFault` and `OutOfMemory`. All but
/// `WriteFault` leave the disk as it was.
pub fn link<D: Disk + Drop>(
    core: &mut Core<D>,
    alloc: Global,
    directory: u32,
    generation: u64,
    name: &[u8],
    inode: u32,
    of: u64,
) -> Ended
    requires { IsSafe (D.state core.old.disk) core.old.books }
    ensures goes { Goes (D.state core.old.disk) core.old.books (D.state core.new.disk) core.new.books
        (step.Link directory generation name.now inode of) result.claims (done_answer reply.Linked result.result) }
    ensures early { RefusesEarly core.old.books (step.Link directory generation name.now inode of)
        (done_answer reply.Linked result.result) }
{
    let at = NameIn {
        directory,
        generation,
        name,
    };
    let new = NewName { at, inode, of };
    match core.disk.ready(4) {
        Ok(()) => link_with_room(core, alloc, new),
        Err(_) => refused(Refusal::OutOfMemory),
    }
}

fn link_with_room<D: Disk + Drop>(core: &mut Core<D>, alloc: Global, new: NewName<'_>) -> Ended
    requires safe { IsSafe (D.state core.old.disk) core.old.books }
    requires spare { 4 ≤ (D.state core.old.disk).spare }
    ensures goes { LinkGoes (D.state core.old.disk) core.old.books
        (D.state core.new.disk) core.new.books new.entry result }
    ensures early { RefusesEarly core.old.books (link_step new.entry) (done_answer reply.Linked result.result) }
{
    if core.books.stopped {
        return refused(Refusal::Stopped);
    }
    if !name_ok(new.at.name) {
        return refused(Refusal::BadName);
    }
    let both = match open_both(&mut core.disk, &core.books, new) {
        Ok(both) => both,
        Err(why) => return refused(why),
    };
    link_opened(core, alloc, new, &both)
}

// The directory and the file.
fn open_both<D: Disk>(disk: &mut D, books: &Books, new: NewName<'_>) -> Result<Both, Refusal>
    requires numbers { IsAt (D.state disk.old) books.now.at }
    requires agreed { length books.now.agreement ≡ books.now.at.inodes }
    ensures { OpensBoth (D.state disk.old) (D.state disk.new) books.now new.entry.at.directory new.entry.at.generation
        new.entry.inode new.entry.of result }
{
    let mut last = LastRead::NONE;
    let at = new.at;
    let above = match open_inode(disk, books, at.directory, at.generation, &mut last) {
        Ok(above) => above,
        Err(why) => return Err(why),
    };
    let file = match open_inode(disk, books, new.inode, new.of, &mut last) {
        Ok(file) => file,
        Err(why) => return Err(why),
    };
    both_of(&above, &file)
}

fn both_of(above: &Opened, file: &Opened) -> Result<Both, Refusal>
    ensures { result ≡ both_as above.now.kind file.now.kind above.now.found file.now.found }
{
    match above.kind {
        FileKind::File => Err(Refusal::NotDirectory),
        FileKind::Directory => match file.kind {
            FileKind::Directory => Err(Refusal::IsDirectory),
            FileKind::File => Ok(Both {
                directory: above.found,
                file: file.found,
            }),
        },
    }
}

// Finds the places of the name and of its back link, and what they take.
fn link_opened<D: Disk + Drop>(
    core: &mut Core<D>,
    alloc: Global,
    new: NewName<'_>,
    both: &Both,
) -> Ended
    requires lead { Leads (D.state core.old.disk) core.old.books (link_step new)
        (named_rows new.at.directory new.at.name.now new.inode (link_step new)) }
    requires safe { IsSafe (D.state core.old.disk) core.old.books }
    requires spare { 4 ≤ (D.state core.old.disk).spare }
    requires going { core.old.books.stopped ≡ false }
    requires stands { StandsLink (D.state core.old.disk) core.old.books new.at.directory new.at.generation
        new.at.name.now new.inode new.of both.now }
    requires name { NameOk new.at.name.now }
    ensures { LinkGoes (D.state core.old.disk) core.old.books (D.state core.new.disk) core.new.books new.entry result }
{
    let mut names = LastRead::NONE;
    let mut records = LastRead::NONE;
    let numbers = &core.books.at;
    let directory = ReadInode {
        at: core.books.at,
        inode: new.at.directory,
        record: both.directory,
    };
    let name = new.at.name;
    let seen = match find_unused(&mut core.disk, name, &directory, &mut names, &mut records) {
        Ok(seen) => seen,
        Err(why) => return refused(why),
    };
    let file = ReadInode {
        at: core.books.at,
        inode: new.inode,
        record: both.file,
    };
    let link = match link_place(&mut core.disk, &file, &core.books.agreement, &mut records) {
        Ok(link) => link,
        Err(why) => return refused(why),
    };
    match entry_place(&seen) {
        Ok(entry) => link_at(core, alloc, new, both, link, entry),
        Err(why) => refused(why),
    }
}

// Takes the blocks of an entry, and writes it with its back link.
fn link_at<D: Disk + Drop>(
    core: &mut Core<D>,
    alloc: Global,
    new: NewName<'_>,
    both: &Both,
    link: u32,
    entry: u32,
) -> Ended
    requires places { HasPlaces (D.state core.old.disk) core.old.books new link entry }
    requires stands { StandsLink (D.state core.old.disk) core.old.books new.at.directory new.at.generation
        new.at.name.now new.inode new.of both.now }
    requires name { NameOk new.at.name.now }
    requires lead { Leads (D.state core.old.disk) core.old.books (link_step new) (block_rows (link_step new)) }
    requires safe { IsSafe (D.state core.old.disk) core.old.books }
    requires spare { 4 ≤ (D.state core.old.disk).spare }
    requires going { core.old.books.stopped ≡ false }
    ensures { LinkGoes (D.state core.old.disk) core.old.books (D.state core.new.disk) core.new.books new.entry result }
{
    let mut last = LastRead::NONE;
    let directory = ReadInode {
        at: core.books.at,
        inode: new.at.directory,
        record: both.directory,
    };
    let slot = match find_entry_slot(&mut core.disk, &directory, entry / 16, &mut last) {
        Ok(slot) => slot,
        Err(why) => return refused(why),
    };
    let needed = slot.blocks();
    let blocks = match take_blocks(core, needed, 0) {
        Ok(blocks) => blocks,
        Err(why) => return refused(why),
    };
    let place = EntryPlace {
        entry,
        slot,
        blocks,
        cell: last.cell,
    };
    let named = match named_entry(alloc, new.inode, new.of, new.at.name) {
        Ok(named) => named,
        Err(_) => return refused(Refusal::OutOfMemory),
    };
    link_named(core, new.at, both, link, &place, &named)
}

// The entry of a name.
fn named_entry(alloc: Global, inode: u32, generation: u64, name: &[u8]) -> Result<Entry, AllocError>
    requires { HasEntrySpelling (entry_with inode generation name.now) }
    ensures value { IfOk result (λ it. it ≡ entry_with inode generation name.now) }
    ensures spells { Spells (spelled_entry inode generation name.now) (entry_with inode generation name.now) }
{
    Ok(Entry {
        inode,
        generation,
        name: Name::from_slice(alloc, name)?,
    })
}

// Writes an entry and its back link.
fn link_named<D: Disk + Drop>(
    core: &mut Core<D>,
    at: NameIn<'_>,
    both: &Both,
    link: u32,
    place: &EntryPlace,
    named: &Entry,
) -> Ended
    requires safe { IsSafe (D.state core.old.disk) core.old.books }
    requires spare { 4 ≤ (D.state core.old.disk).spare }
    requires going { core.old.books.stopped ≡ false }
    requires may { MayEnter (D.state core.old.disk)
        core.old.books at.directory both.now.directory place.now.entry place.now.slot place.now.blocks
        named.now both.now.file }
    requires known { MayLink (D.state core.old.disk) core.old.books at.directory at.generation both.now place.now
        named.now link }
    requires link { link < 4 }
    ensures { LinkEnds (D.state core.old.disk) core.old.books (D.state core.new.disk) core.new.books
        (entry_step at.entry named.now) result }
{
    let mut last = LastRead::NONE;
    let tables = match read_tables(&mut core.disk, at.directory, named.inode, &mut last) {
        Ok(tables) => tables,
        Err(_) => return refused(Refusal::ReadFault),
    };
    let back = BackLink {
        directory: at.directory,
        entry: place.entry,
        generation: both.directory.generation,
    };
    let after = linked(&both.file, link, back);
    let new = NewEntry {
        directory: at.directory,
        it: &both.directory,
        place,
        named,
        record: &after,
        tables: &tables,
    };
    enter(core, new)
}

// The record with a back link in a place.
fn linked(it: &Record, place: u32, link: BackLink) -> Record
    requires { place < 4 }
    ensures { result ≡ with_link it.now place link }
{
    let mut links = it.links;
    links[place as usize] = link;
    Record { links, ..*it }
}
