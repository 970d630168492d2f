//! The names of a directory.
ghost use Rattle.std.specs.Prelude.{◌≡◌, ◌++◌, ◌*◌, ◌<◌, IsTrue, IfOk, OnOk, option_to_list, false};
ghost use Rattle.nofs_history.specs.Faults.{is_fault};
ghost use Rattle.nofs_history.specs.declared.machine.replies.Refusal.TheVariants as refusal;
ghost use Rattle.nofs_history.specs.declared.machine.replies.Reply.TheVariants as reply;
ghost use Rattle.nofs_history.specs.declared.machine.steps.Step.TheVariants as step;
ghost use Rattle.nofs_model.specs.Slots.{value};
ghost use Rattle.nofs_model.specs.declared.image.value.Value.TheVariants.{Bytes};
ghost use Rattle.nofs_state.specs.Cores.Steps.{Goes};
ghost use Rattle.nofs_agree.specs.Reads.{IsAt, IsLast};
ghost use Rattle.nofs_state.specs.Books.Maps.{IsSafe};
ghost use Rattle.nofs_history.specs.Claims.{no_claims};
ghost use Rattle.nofs_names.specs.Searches.Inodes.{Knows, KnowsFolder};
ghost use Rattle.nofs_names.specs.Lists.{FindsListed, HasListed, ReadsLine, ReadsLines, line_with, list_answer};

use crate::searches::directories::open_directory;
use crate::searches::entries::Named;
use crate::searches::inodes::ReadInode;
use crate::searches::pair_tests::paired_kind;
use nofs_agree::{LastRead, find_slot, read_inode};
use nofs_dirent::{Entry, read_entry};
use nofs_disk::{Disk, Failed};
use nofs_history::{NameLine, NameList, Refusal};
use nofs_inode::{BackLink, FileKind};
use nofs_model::{PathAnswer, place_of};
use nofs_state::Core;
use nofs_super::SuperBlock;
use std::alloc::{AllocError, Global};

/// What a directory lists.
#[derive(Drop)]
pub enum Listed {
    /// The first slot from the given one on that isn't a hole, and its names.
    Names(u64, NameList),
    /// That slot, whose content is lost.
    LostNames(u64),
    /// Each slot from the given one on is a hole.
    NoMore,
}

// The first slot that isn't a hole.
#[derive(Clone, Copy)]
pub enum ListedSlot {
    Holds(u32),
    Lost(u32),
    NoMore,
}

/// Lists the first slot of a directory, from the given one on, that isn't a hole. Since it only reads,
/// a caller that has no memory for the answer may take the step as one that found none.
pub fn list<D: Disk + Drop>(
    alloc: Global,
    core: &mut Core<D>,
    directory: u32,
    generation: u64,
    slot: u64,
) -> Result<Listed, Refusal>
    requires { IsSafe (D.state core.old.disk) core.old.books }
    ensures goes { Goes (D.state core.old.disk) core.old.books (D.state core.new.disk) core.new.books
        (step.List directory generation slot) no_claims (list_answer result) }
    ensures memory { is_fault (list_answer result) ≡ false
        → Goes (D.state core.old.disk) core.old.books (D.state core.new.disk) core.new.books
        (step.List directory generation slot) no_claims (reply.Refused refusal.OutOfMemory) }
    ensures listed { IfOk result HasListed }
{
    if core.books.stopped {
        return Err(Refusal::Stopped);
    }
    let mut names = LastRead::NONE;
    let books = &core.books;
    let it = match open_directory(directory, generation, &mut core.disk, books, &mut names) {
        Ok(it) => it,
        Err(why) => return Err(why),
    };
    let read = ReadInode {
        at: core.books.at,
        inode: directory,
        record: it,
    };
    let found = match find_listed(&mut core.disk, &read, &mut names, slot) {
        Ok(found) => found,
        Err(_) => return Err(Refusal::ReadFault),
    };
    match found {
        ListedSlot::NoMore => Ok(Listed::NoMore),
        ListedSlot::Lost(slot) => Ok(Listed::LostNames(u64::from(slot))),
        ListedSlot::Holds(slot) => {
            let payload = &names.cell.payload;
            match read_lines(alloc, &mut core.disk, &read, payload, slot) {
                Ok(lines) => Ok(Listed::Names(u64::from(slot), lines)),
                Err(why) => Err(why),
            }
        }
    }
}

// The first slot, from the given one on, that isn't a hole. Where it holds, its block is the one
// that was read last.
fn find_listed<D: Disk>(
    disk: &mut D,
    directory: &ReadInode,
    names: &mut LastRead,
    from: u64,
) -> Result<ListedSlot, Failed>
    requires known { Knows (D.state disk.old) directory.now }
    requires last { IsLast (D.state disk.old) names.old }
    ensures { FindsListed (D.state disk.old) (D.state disk.new) directory.now.inode from names.new result }
{
    for slot in from..72 {
        match find_slot(
            disk,
            &directory.at,
            directory.inode,
            &directory.record,
            place_of(slot),
            names,
        )? {
            PathAnswer::Hole => {}
            PathAnswer::Lost => return Ok(ListedSlot::Lost(slot as u32)),
            PathAnswer::Holds(_) => return Ok(ListedSlot::Holds(slot as u32)),
        }
    }
    Ok(ListedSlot::NoMore)
}

// The lines of a slot that holds.
fn read_lines<D: Disk>(
    alloc: Global,
    disk: &mut D,
    directory: &ReadInode,
    payload: &[u8; 1024],
    slot: u32,
) -> Result<NameList, Refusal>
    requires directory { KnowsFolder (D.state disk.old) directory.now }
    requires slot { slot < 72 }
    requires cell { IsTrue (D.state disk.old).tells
        → value (D.state disk.old).now directory.now.inode slot ≡ Bytes payload.now }
    ensures { ReadsLines (D.state disk.old) (D.state disk.new) directory.now.inode slot result }
{
    let mut lines = NameList::new(alloc);
    let mut records = LastRead::NONE;
    for place in 0..16 {
        let link = BackLink {
            directory: directory.inode,
            entry: 16 * slot + place,
            generation: directory.record.generation,
        };
        let line = match read_line(
            alloc,
            disk,
            &directory.at,
            &link,
            payload,
            place,
            &mut records,
        ) {
            Ok(line) => line,
            Err(why) => return Err(why),
        };
        match push_line(&mut lines, line) {
            Ok(()) => {}
            Err(_) => return Err(Refusal::OutOfMemory),
        }
    }
    Ok(lines)
}

fn push_line(lines: &mut NameList, line: Option<NameLine>) -> Result<(), AllocError>
    ensures { OnOk result (lines.new ≡ lines.old ++ option_to_list line) }
{
    match line {
        None => Ok(()),
        Some(line) => lines.push(line),
    }
}

// The line of the entry at a place.
fn read_line<D: Disk>(
    alloc: Global,
    disk: &mut D,
    at: &SuperBlock,
    link: &BackLink,
    payload: &[u8; 1024],
    place: u32,
    records: &mut LastRead,
) -> Result<Option<NameLine>, Refusal>
    requires numbers { IsAt (D.state disk.old) at.now }
    requires place { place < 16 }
    requires last { IsLast (D.state disk.old) records.old }
    ensures { ReadsLine (D.state disk.old) (D.state disk.new) link.now payload.now place records.new result }
{
    match read_entry(alloc, payload, place) {
        Err(_) => Err(Refusal::OutOfMemory),
        Ok(None) => Ok(None),
        Ok(Some(entry)) => {
            let named = Named {
                inode: entry.inode,
                generation: entry.generation,
            };
            match read_inode(disk, at, named.inode, records) {
                Err(_) => Err(Refusal::ReadFault),
                Ok(record) => Ok(Some(line_with(entry, paired_kind(&record, named, link)))),
            }
        }
    }
}

fn line_with(entry: Entry, kind: Option<FileKind>) -> NameLine
    ensures { result ≡ line_with entry kind }
{
    match kind {
        None => NameLine {
            name: entry.name,
            kind: FileKind::File,
            dead: true,
        },
        Some(kind) => NameLine {
            name: entry.name,
            kind,
            dead: false,
        },
    }
}
