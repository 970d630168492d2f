//! The search of a directory for a name.
ghost use Rattle.std.specs.Prelude.{◌≡◌, ◌+◌, ◌*◌, ◌<◌, ◌&&◌, IsTrue, OnOk, Some, is_some, not};
ghost use Rattle.nofs_dirent.specs.Entries.{entry_in, entry_limit};
ghost use Rattle.nofs_model.specs.Slots.{value};
ghost use Rattle.nofs_model.specs.declared.image.value.Value.TheVariants.{Bytes};
ghost use Rattle.nofs_agree.specs.Reads.{IsAt, IsLast};
ghost use Rattle.nofs_names.specs.Searches.Inodes.{KnowsFolder};
ghost use Rattle.nofs_names.specs.Searches.Slots.{IsEntrySpelled, Searches, SearchesOn, SeesNamed};
ghost use Rattle.nofs_names.specs.Searches.Slots.{first_or, other_seen, where_true, with_holes};

use crate::searches::entries::{Named, is_empty, named_inode};
use crate::searches::inodes::ReadInode;
use crate::searches::pair_tests::paired_kind;
use nofs_agree::{LastRead, read_inode};
use nofs_dirent::has_name;
use nofs_disk::{Disk, Failed};
use nofs_inode::{BackLink, FileKind, Record};
use nofs_model::PathAnswer;
use nofs_super::SuperBlock;

/// An entry and the inode that it names, which are a pair.
#[derive(Clone, Copy)]
pub struct Paired {
    pub entry: u32,
    pub inode: u32,
    pub kind: FileKind,
    pub record: Record,
}

/// What was seen of a directory in which no pair has the name: the first of each.
#[derive(Clone, Copy)]
pub struct Unfound {
    /// An entry that has the name, and is no pair.
    pub dead: Option<u32>,
    /// An empty place in a slot that holds, where one was looked for.
    pub empty: Option<u32>,
    /// A slot that is lost.
    pub lost: Option<u32>,
    /// A slot that is a hole.
    pub hole: Option<u32>,
}

/// What a search of a whole directory gives.
#[derive(Clone, Copy)]
pub enum Searched {
    Found(Paired),
    Unfound(Unfound),
}

fn first(so_far: Option<u32>, at: u32) -> Option<u32>
    ensures { result ≡ first_or so_far (Some at) }
{
    match so_far {
        None => Some(at),
        Some(first) => Some(first),
    }
}

impl Unfound {
    /// Nothing was seen yet.
    const NONE: Unfound = Unfound {
        dead: None,
        empty: None,
        lost: None,
        hole: None,
    };

    fn see_dead(&mut self, entry: u32)
        ensures { self.new ≡ record self.old { dead = first_or self.old.dead (Some entry) } }
    {
        self.dead = first(self.dead, entry);
    }

    // The entry at a place, if there is one, has another name.
    fn see_other(&mut self, wants_place: bool, payload: &[u8; 1024], place: u32, entry: u32)
        requires { place < 16 }
        ensures { self.new ≡ other_seen wants_place (entry_in payload.now place) entry self.old }
    {
        self.empty = match self.empty {
            None => empty_place(wants_place, payload, place, entry),
            Some(first) => Some(first),
        };
    }

    // Each slot from this one on is a hole.
    fn see_holes(&mut self, slot: u32)
        ensures { self.new ≡ with_holes slot self.old }
    {
        if slot < 72 {
            self.hole = first(self.hole, slot);
        }
    }
}

// The place, where it is wanted and empty.
fn empty_place(wants_place: bool, payload: &[u8; 1024], place: u32, entry: u32) -> Option<u32>
    requires { place < 16 }
    ensures { result ≡ where_true (wants_place && not (is_some (entry_in payload.now place))) entry }
{
    if wants_place && is_empty(payload, place) {
        Some(entry)
    } else {
        None
    }
}

// The pair of an entry with the name, to which the back link leads; `None` where the two are none.
fn see_named<D: Disk>(
    disk: &mut D,
    at: &SuperBlock,
    link: &BackLink,
    named: Named,
    records: &mut LastRead,
) -> Result<Option<Paired>, Failed>
    requires numbers { IsAt (D.state disk.old) at.now }
    requires range { link.now.entry < entry_limit }
    requires named { IsEntrySpelled named }
    requires last { IsLast (D.state disk.old) records.old }
    ensures { SeesNamed (D.state disk.old) (D.state disk.new) at.now link.now named records.new result }
{
    let record = read_inode(disk, at, named.inode, records)?;
    match paired_kind(&record, named, link) {
        None => Ok(None),
        Some(kind) => Ok(Some(Paired {
            entry: link.entry,
            inode: named.inode,
            kind,
            record,
        })),
    }
}

// Searches a cell of a directory. Where no pair has the name, `unfound` is what was seen up to here.
fn search_cell<D: Disk>(
    disk: &mut D,
    directory: &ReadInode,
    payload: &[u8; 1024],
    slot: u32,
    name: &[u8],
    wants_place: bool,
    unfound: &mut Unfound,
    records: &mut LastRead,
) -> Result<Option<Paired>, Failed>
    requires directory { KnowsFolder (D.state disk.old) directory.now }
    requires slot { slot < 72 }
    requires cell { IsTrue (D.state disk.old).tells
        → value (D.state disk.old).now directory.now.inode slot ≡ Bytes payload.now }
    requires last { IsLast (D.state disk.old) records.old }
    ensures { SearchesOn (D.state disk.old) (D.state disk.new) directory.now.at directory.now.inode name.now wants_place
        (16 * slot) slot (16 * (slot + 1)) (slot + 1) unfound.old unfound.new records.new result }
{
    for place in 0..16 {
        let entry = 16 * slot + place;
        if !has_name(payload, name, place) {
            unfound.see_other(wants_place, payload, place, entry);
            continue;
        }
        let link = BackLink {
            directory: directory.inode,
            entry,
            generation: directory.record.generation,
        };
        match see_named(
            disk,
            &directory.at,
            &link,
            named_inode(payload, place),
            records,
        )? {
            None => unfound.see_dead(entry),
            Some(found) => return Ok(Some(found)),
        }
    }
    Ok(None)
}

// Searches a slot of a directory.
fn search_slot<D: Disk>(
    disk: &mut D,
    directory: &ReadInode,
    slot: u32,
    name: &[u8],
    wants_place: bool,
    unfound: &mut Unfound,
    names: &mut LastRead,
    records: &mut LastRead,
) -> Result<Option<Paired>, Failed>
    requires directory { KnowsFolder (D.state disk.old) directory.now }
    requires slot { slot < 72 }
    requires names { IsLast (D.state disk.old) names.old }
    requires last { IsLast (D.state disk.old) records.old }
    ensures search { SearchesOn (D.state disk.old) (D.state disk.new) directory.now.at directory.now.inode name.now
        wants_place (16 * slot) slot (16 * (slot + 1)) (slot + 1) unfound.old unfound.new records.new result }
    ensures kept { OnOk result (IsLast (D.state disk.new) names.new) }
{
    match directory.find(disk, slot, names)? {
        PathAnswer::Hole => {
            unfound.hole = first(unfound.hole, slot);
            Ok(None)
        }
        PathAnswer::Lost => {
            unfound.lost = first(unfound.lost, slot);
            Ok(None)
        }
        PathAnswer::Holds(_) => search_cell(
            disk,
            directory,
            &names.cell.payload,
            slot,
            name,
            wants_place,
            unfound,
            records,
        ),
    }
}

/// Searches a directory for a name, and for an empty place where one is wanted.
pub(crate) fn search<D: Disk>(
    disk: &mut D,
    directory: &ReadInode,
    name: &[u8],
    wants_place: bool,
    names: &mut LastRead,
    records: &mut LastRead,
) -> Result<Searched, Failed>
    requires directory { KnowsFolder (D.state disk.old) directory.now }
    requires names { IsLast (D.state disk.old) names.old }
    requires last { IsLast (D.state disk.old) records.old }
    ensures { Searches (D.state disk.old)
        (D.state disk.new) directory.now.at directory.now.inode name.now wants_place names.new records.new result }
{
    let mut unfound = Unfound::NONE;
    let end = directory.slot_end();
    for slot in 0..end {
        match search_slot(
            disk,
            directory,
            slot,
            name,
            wants_place,
            &mut unfound,
            names,
            records,
        )? {
            None => {}
            Some(found) => return Ok(Searched::Found(found)),
        }
    }
    unfound.see_holes(end);
    Ok(Searched::Unfound(unfound))
}
