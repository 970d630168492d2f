//! A new file or directory.
ghost use Rattle.std.specs.Prelude.{◌≡◌, ◌≤◌, false, length};
ghost use Rattle.nofs_inode.specs.InodeRecords.{HasRecordSpelling};
ghost use Rattle.nofs_history.specs.declared.machine.steps.Step.TheVariants as step;
ghost use Rattle.nofs_state.specs.Cores.FirstRows.{RefusesEarly};
ghost use Rattle.nofs_state.specs.Cores.Steps.{Goes};
ghost use Rattle.nofs_agree.specs.Reads.{IsLast};
ghost use Rattle.nofs_state.specs.Books.Maps.{IsSafe};
ghost use Rattle.nofs_state.specs.Writes.Premises.{RowsPass};
ghost use Rattle.nofs_names.specs.Makes.{AreInodesFull, FindsInode, GoesIn, MakeGoes, MayMake, RowsLeft, is_raised};
ghost use Rattle.nofs_names.specs.Makes.{made_answer, made_record, with_inode};

use crate::entries::places::{entry_place, find_entry_slot, take_blocks};
use crate::entries::writes::{EntryPlace, NewEntry, enter, read_tables};
use crate::makes::new_file::NewFile;
use crate::searches::directories::{NameIn, find_unused, open_named};
use crate::searches::inodes::ReadInode;
use nofs_agree::LastRead;
use nofs_dirent::{Entry, Name};
use nofs_disk::Disk;
use nofs_history::{Claims, Refusal};
use nofs_inode::{BackLink, FREE_RECORD, FileKind, Record};
use nofs_state::{Books, Core, Ended, InodeClaim, refused};
use std::alloc::Global;

/// Makes a file or a directory, with a fresh generation, and gives it a name.
pub fn make<D: Disk + Drop>(
    alloc: Global,
    core: &mut Core<D>,
    directory: u32,
    generation: u64,
    name: &[u8],
    kind: FileKind,
) -> Ended
    requires { IsSafe (D.state core.old.disk) core.old.books }
    ensures goes { Goes (D.state core.old.disk) core.old.books (D.state core.new.disk) core.new.books
        (step.Make directory generation name.now kind) result.claims (made_answer result.claims result.result) }
    ensures early { RefusesEarly core.old.books (step.Make directory generation name.now kind)
        (made_answer result.claims result.result) }
{
    let owned = match Name::from_slice(alloc, name) {
        Ok(owned) => owned,
        Err(_) => return refused(Refusal::OutOfMemory),
    };
    let at = NameIn {
        directory,
        generation,
        name,
    };
    match core.disk.ready(4) {
        Ok(()) => make_with_room(core, at, owned, kind),
        Err(_) => refused(Refusal::OutOfMemory),
    }
}

fn make_with_room<D: Disk + Drop>(
    core: &mut Core<D>,
    at: NameIn<'_>,
    owned: Name,
    kind: FileKind,
) -> Ended
    requires owned { owned ≡ at.name.now }
    requires safe { IsSafe (D.state core.old.disk) core.old.books }
    requires spare { 4 ≤ (D.state core.old.disk).spare }
    ensures goes { MakeGoes (D.state core.old.disk) core.old.books (D.state core.new.disk) core.new.books
        (step.Make at.entry.directory at.entry.generation at.entry.name.now kind) result }
    ensures early { RefusesEarly core.old.books
        (step.Make at.entry.directory at.entry.generation at.entry.name.now kind)
        (made_answer result.claims result.result) }
{
    let mut names = LastRead::NONE;
    let it = match open_named(&mut core.disk, &core.books, at, &mut names) {
        Ok(it) => it,
        Err(why) => return refused(why),
    };
    let mut records = LastRead::NONE;
    let read = ReadInode {
        at: core.books.at,
        inode: at.directory,
        record: it,
    };
    let seen = match find_unused(&mut core.disk, at.name, &read, &mut names, &mut records) {
        Ok(seen) => seen,
        Err(why) => return refused(why),
    };
    let to = NewFile {
        directory: at.directory,
        generation: at.generation,
        kind,
        it,
    };
    match entry_place(&seen) {
        Err(why) => refused(why),
        Ok(entry) => make_entry(core, to, owned, entry, &mut names, &mut records),
    }
}

// Makes it where the name is not used and there is a place for the entry.
fn make_entry<D: Disk + Drop>(
    core: &mut Core<D>,
    to: NewFile,
    name: Name,
    entry: u32,
    names: &mut LastRead,
    records: &mut LastRead,
) -> Ended
    requires goes_in { GoesIn (D.state core.old.disk) core.old.books to name entry }
    requires safe { IsSafe (D.state core.old.disk) core.old.books }
    requires spare { 4 ≤ (D.state core.old.disk).spare }
    requires going { core.old.books.stopped ≡ false }
    requires rows { RowsLeft (D.state core.old.disk) core.old.books to.directory to.generation name to.kind }
    requires names { IsLast (D.state core.old.disk) names.old }
    requires records { IsLast (D.state core.old.disk) records.old }
    ensures { MakeGoes (D.state core.old.disk) core.old.books (D.state core.new.disk) core.new.books
        (step.Make to.directory to.generation name to.kind) result }
{
    let read = ReadInode {
        at: core.books.at,
        inode: to.directory,
        record: to.it,
    };
    let slot = match find_entry_slot(&mut core.disk, &read, entry / 16, names) {
        Ok(slot) => slot,
        Err(why) => return refused(why),
    };
    let inode = match free_inode(&core.books) {
        Ok(inode) => inode,
        Err(why) => return refused(why),
    };
    match take_blocks(core, slot.blocks(), 1) {
        Err(why) => refused(why),
        Ok(blocks) => {
            let place = EntryPlace {
                entry,
                slot,
                blocks,
                cell: names.cell,
            };
            make_at(core, to, &place, name, inode, records)
        }
    }
}

// The least inode that is known to be free. Each mount raises its number, so that a stamp is not 0.
fn free_inode(books: &Books) -> Result<u32, Refusal>
    requires free { length books.now.free_inodes ≤ 65536 }
    requires unknown { length books.now.unknown_inodes ≤ 65536 }
    ensures { FindsInode books.now result }
{
    match books.least_free_inode() {
        None => Err(inodes_full(books)),
        Some(inode) => {
            if is_raised(books) {
                Ok(inode)
            } else {
                Err(Refusal::SerialsSpent)
            }
        }
    }
}

fn is_raised(books: &Books) -> bool
    ensures { result ≡ is_raised books.now }
{
    books.at.mount > 0 || books.serial > 0
}

fn inodes_full(books: &Books) -> Refusal
    requires { length books.now.unknown_inodes ≤ 65536 }
    ensures { AreInodesFull books.now result }
{
    Refusal::InodesFull {
        unverified: books.unknown_inodes.count(),
        next: books.next_inode(),
    }
}

// Makes it as this inode, which is free, with its entry in this place.
fn make_at<D: Disk + Drop>(
    core: &mut Core<D>,
    to: NewFile,
    place: &EntryPlace,
    name: Name,
    inode: u32,
    records: &mut LastRead,
) -> Ended
    requires may { MayMake (D.state core.old.disk) core.old.books to.directory to.generation name to.it
        place.now inode }
    requires safe { IsSafe (D.state core.old.disk) core.old.books }
    requires spare { 4 ≤ (D.state core.old.disk).spare }
    requires going { core.old.books.stopped ≡ false }
    requires rows { RowsPass (D.state core.old.disk) core.old.books
        (step.Make to.directory to.generation name to.kind) }
    requires records { IsLast (D.state core.old.disk) records.old }
    ensures { MakeGoes (D.state core.old.disk) core.old.books (D.state core.new.disk) core.new.books
        (step.Make to.directory to.generation name to.kind) result }
{
    let tables = match read_tables(&mut core.disk, to.directory, inode, records) {
        Ok(tables) => tables,
        Err(_) => return refused(Refusal::ReadFault),
    };
    let claim = core.books.claim_inode(inode);
    let named = Entry {
        inode,
        generation: claim.generation,
        name,
    };
    let link = BackLink {
        directory: to.directory,
        entry: place.entry,
        generation: to.generation,
    };
    let made = made_record(to.kind, claim.generation, link);
    let new = NewEntry {
        directory: to.directory,
        it: &to.it,
        place,
        named: &named,
        record: &made,
        tables: &tables,
    };
    let ended = enter(core, new);
    with_inode(ended, claim)
}

// The record of a new inode, with its only back link.
fn made_record(kind: FileKind, generation: u64, link: BackLink) -> Record
    requires generation { 1 ≤ generation }
    requires link { 1 ≤ link.directory }
    ensures made { result ≡ made_record kind generation link }
    ensures spelling { HasRecordSpelling result }
{
    Record {
        generation,
        kind: Some(kind),
        links: [link, BackLink::EMPTY, BackLink::EMPTY, BackLink::EMPTY],
        ..FREE_RECORD
    }
}

// What was claimed for an entry, with the inode.
fn with_inode(ended: Ended, claim: InodeClaim) -> Ended
    ensures claims { result.claims ≡ with_inode ended.claims claim }
    ensures result { result.result ≡ ended.result }
{
    let Ended { claims, result } = ended;
    Ended {
        claims: Claims {
            inode: claim.inode,
            generation: claim.generation,
            ..claims
        },
        result,
    }
}
