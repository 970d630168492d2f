//! The directory that a step names, and a name in it.
ghost use Rattle.std.specs.Prelude.{◌≡◌, ◌<◌, IfSome, Some};
ghost use Rattle.nofs_dirent.specs.Entries.{entry_limit};
ghost use Rattle.nofs_agree.specs.Reads.{IsLast, KnowsDirectory};
ghost use Rattle.nofs_state.specs.Books.Maps.{IsSafe};
ghost use Rattle.nofs_names.specs.Searches.Inodes.{KnowsFolder};
ghost use Rattle.nofs_names.specs.Searches.Directories.{OpensNamed};
ghost use Rattle.nofs_names.specs.Entries.Places.{LiesInside};
ghost use Rattle.nofs_names.specs.Searches.Refusals.{FindsNone, FindsPair, IsPairOf, OpensDirectory, hole_place};
ghost use Rattle.nofs_names.specs.Searches.Refusals.{lost_in, missing_in, place_of_entry};
ghost use Rattle.nofs_names.specs.Searches.Refusals.{unused_in};

use crate::searches::inodes::ReadInode;
use crate::searches::slots::{Paired, Searched, Unfound, search};
use nofs_agree::LastRead;
use nofs_dirent::{ENTRY_LIMIT, name_ok};
use nofs_disk::Disk;
use nofs_history::Refusal;
use nofs_inode::{FileKind, Record};
use nofs_state::{Books, open_inode};
use nofs_super::SuperBlock;

/// A name in a directory, as a step gives them.
#[derive(Clone, Copy)]
pub struct NameIn<'a> {
    pub directory: u32,
    pub generation: u64,
    pub name: &'a [u8],
}

/// The record of the directory of this number and generation.
///
/// # Errors
///
/// `Stale` where there is none, `NotDirectory` where it is a file, and `ReadFault` where a read
/// failed.
pub(crate) fn open_directory<D: Disk>(
    directory: u32,
    generation: u64,
    disk: &mut D,
    books: &Books,
    last: &mut LastRead,
) -> Result<Record, Refusal>
    requires last { IsLast (D.state disk.old) last.old }
    requires safe { IsSafe (D.state disk.old) books.now }
    ensures { OpensDirectory (D.state disk.old) (D.state disk.new) books.now directory generation last.new result }
{
    let it = match open_inode(disk, books, directory, generation, last) {
        Ok(it) => it,
        Err(why) => return Err(why),
    };
    match it.kind {
        FileKind::Directory => Ok(it.found),
        FileKind::File => Err(Refusal::NotDirectory),
    }
}

/// The record of the directory of a name, where the mount is not stopped and the name is one.
///
/// # Errors
///
/// `Stopped`, `BadName`, and those of [`open_directory`].
pub(crate) fn open_named<D: Disk>(
    disk: &mut D,
    books: &Books,
    at: NameIn<'_>,
    last: &mut LastRead,
) -> Result<Record, Refusal>
    requires safe { IsSafe (D.state disk.old) books.now }
    requires last { IsLast (D.state disk.old) last.old }
    ensures { OpensNamed (D.state disk.old) (D.state disk.new) books.now at.entry last.new result }
{
    if books.stopped {
        return Err(Refusal::Stopped);
    }
    if !name_ok(at.name) {
        return Err(Refusal::BadName);
    }
    open_directory(at.directory, at.generation, disk, books, last)
}

/// The entry that a name finds in its directory.
///
/// # Errors
///
/// `LostEntry`, `LostSlot` or `Missing` where there is none, and `ReadFault` where a read failed.
pub(crate) fn find_pair<D: Disk>(
    disk: &mut D,
    at: &SuperBlock,
    it: &Record,
    wanted: NameIn<'_>,
    names: &mut LastRead,
    records: &mut LastRead,
) -> Result<Paired, Refusal>
    requires directory { KnowsDirectory (D.state disk.old) at.now wanted.directory it.now.generation it.now }
    requires names { IsLast (D.state disk.old) names.old }
    requires last { IsLast (D.state disk.old) records.old }
    ensures { FindsPair (D.state disk.old)
        (D.state disk.new) at.now wanted.entry.directory wanted.entry.name.now names.new records.new result }
{
    let directory = ReadInode {
        at: *at,
        inode: wanted.directory,
        record: *it,
    };
    match search(disk, &directory, wanted.name, false, names, records) {
        Err(_) => Err(Refusal::ReadFault),
        Ok(searched) => pair_of(searched),
    }
}

fn pair_of(searched: Searched) -> Result<Paired, Refusal>
    ensures { IsPairOf searched result }
{
    match searched {
        Searched::Found(it) => Ok(it),
        Searched::Unfound(seen) => Err(missing(&seen)),
    }
}

// Why a name is not found.
fn missing(seen: &Unfound) -> Refusal
    ensures { Some result ≡ missing_in seen.now }
{
    match seen.dead {
        Some(entry) => Refusal::LostEntry { entry },
        None => lost(seen.lost),
    }
}

fn lost(slot: Option<u32>) -> Refusal
    ensures { Some result ≡ lost_in slot }
{
    match slot {
        Some(slot) => Refusal::LostSlot {
            slot: u64::from(slot),
        },
        None => Refusal::Missing,
    }
}

/// What was seen of a directory in which a name finds nothing.
///
/// # Errors
///
/// `Exists` where the name finds an entry, and `ReadFault` where a read failed.
pub(crate) fn find_unused<D: Disk>(
    disk: &mut D,
    name: &[u8],
    directory: &ReadInode,
    names: &mut LastRead,
    records: &mut LastRead,
) -> Result<Unfound, Refusal>
    requires names { IsLast (D.state disk.old) names.old }
    requires last { IsLast (D.state disk.old) records.old }
    requires directory { KnowsFolder (D.state disk.old) directory.now }
    ensures { FindsNone (D.state disk.old)
        (D.state disk.new) directory.now.inode name.now names.new records.new result }
{
    match search(disk, directory, name, true, names, records) {
        Err(_) => Err(Refusal::ReadFault),
        Ok(searched) => unused(searched),
    }
}

fn unused(searched: Searched) -> Result<Unfound, Refusal>
    ensures { result ≡ unused_in searched }
{
    match searched {
        Searched::Found(_) => Err(Refusal::Exists),
        Searched::Unfound(seen) => Ok(seen),
    }
}

/// Where a new entry goes: to a dead entry of its name, to an empty place of a slot that holds, or
/// to the first place of a hole.
pub(crate) fn place_of_new(seen: &Unfound) -> Option<u32>
    ensures place { LiesInside seen.now → result ≡ place_of_entry seen.now }
    ensures range { IfSome result (λ entry. entry < entry_limit) }
{
    match in_directory(seen.dead) {
        Some(entry) => Some(entry),
        None => match in_directory(seen.empty) {
            Some(entry) => Some(entry),
            None => in_hole(seen.hole),
        },
    }
}

// An entry of a directory.
fn in_directory(entry: Option<u32>) -> Option<u32>
    ensures range { IfSome result (λ entry. entry < entry_limit) }
    ensures same { IfSome entry (λ e. e < entry_limit) → result ≡ entry }
{
    match entry {
        Some(entry) => {
            if entry < ENTRY_LIMIT {
                Some(entry)
            } else {
                None
            }
        }
        None => None,
    }
}

fn in_hole(hole: Option<u32>) -> Option<u32>
    ensures range { IfSome result (λ entry. entry < entry_limit) }
    ensures same { IfSome hole (λ k. k < 72) → result ≡ hole_place hole }
{
    match hole {
        Some(slot) => { if slot < 72 { Some(16 * slot) } else { None } }
        None => None,
    }
}
