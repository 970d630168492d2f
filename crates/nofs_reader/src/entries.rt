//! An entry of a directory: what it says, and whether it is a pair.
//!
//! Promise: it is the entry of the definition, and it has a kind exactly where the inode that it names is agreed and
//! names it back.
ghost use Rattle.std.specs.Prelude.{◌≡◌, ◌<◌, ◌≤◌, IfErr, IfOk, IfSome, OnOk, bytes_eq, length, take};
ghost use Rattle.std.specs.List.{list_any};
ghost use Rattle.nofs_agree.specs.Reads.{IsLast};
ghost use Rattle.nofs_dirent.specs.Entries.{entry_limit, entry_of, entry_with, has_entry_spelling};
ghost use Rattle.nofs_reader.specs.Answers.{IsDirectoryKnown};
ghost use Rattle.nofs_reader.specs.Entries.{StandsAt, entry_read, is_same_link, kind_named};
ghost use Rattle.nofs_reader.specs.Image.{disk_of, image_of};
ghost use Rattle.nofs_reader.specs.Layouts.{IsBadPage};

use crate::chain::{is_agreed, is_pair};
use crate::layout::BadPage;
use crate::opened::{Opened, slot};
use crate::reads::record;
use nofs_agree::{LastRead, PathAnswer};
use nofs_dirent::{bytes_of, has_zeros_after, name_ok};
use nofs_disk::{clear, read_u32_at, read_u64_at, write_bytes_at};
use nofs_inode::{BackLink, FileKind};
use nofs_model::place_of;

/// An entry of a directory as its 64 bytes spell it.
#[derive(Clone, Copy, Debug, PartialEq, Eq)]
pub struct Named {
    /// The inode that it names.
    pub inode: u32,
    /// The generation of that inode when it was named.
    pub generation: u64,
    /// How many bytes the name has, 1 to 48.
    pub length: u32,
    /// The name. What stands behind it is not promised.
    pub name: [u8; 48],
}

/// What stands at a place of a directory.
#[derive(Clone, Copy)]
pub(crate) enum Stands {
    Nothing,
    /// The slot of the place is lost.
    Lost,
    Entry(Named),
}

/// What stands at a place of a directory.
pub(crate) fn read_place(
    bytes: &[u8],
    it: &Opened,
    place: u32,
    last: &mut LastRead,
) -> Result<Stands, BadPage>
    requires directory { IsDirectoryKnown bytes.now it.now }
    requires place { place < entry_limit }
    requires last { IsLast (disk_of bytes.now) last.old }
    ensures stands { IfOk result (StandsAt (image_of bytes.now) it.now.inode place) }
    ensures last { OnOk result (IsLast (disk_of bytes.now) last.new) }
    ensures bad { IfErr result (IsBadPage bytes.now) }
{
    match slot(bytes, it, place_of(u64::from(place / 16)), last)? {
        PathAnswer::Hole => Ok(Stands::Nothing),
        PathAnswer::Lost => Ok(Stands::Lost),
        PathAnswer::Holds(_) => match spelled(bytes_of(&last.cell.payload, place % 16)) {
            None => Ok(Stands::Nothing),
            Some(entry) => Ok(Stands::Entry(entry)),
        },
    }
}

// The entry that 64 bytes spell.
fn spelled(bytes: &[u8]) -> Option<Named>
    requires { length bytes.now ≡ 64 }
    ensures entry { entry_read result ≡ entry_of bytes.now }
    ensures short { IfSome result (λ it. it.length ≤ 48) }
{
    let length = read_u32_at(bytes, 4);
    if !has_zeros_after(bytes, length as usize) {
        return None;
    }
    let inode = read_u32_at(bytes, 0);
    let generation = read_u64_at(bytes, 8);
    let name = &bytes[16..16 + length as usize];
    if !has_spelling(inode, generation, name) {
        return None;
    }
    let mut it = Named {
        inode,
        generation,
        length,
        name: [0; 48],
    };
    copy_name(name, &mut it.name);
    Some(it)
}

// Whether some bytes spell the entry of this inode, generation and name.
fn has_spelling(inode: u32, generation: u64, name: &[u8]) -> bool
    ensures { result ≡ has_entry_spelling (entry_with inode generation name.now) }
{
    inode >= 1 && generation >= 1 && name_ok(name)
}

// Copies a name. What stands behind it are zeros, which no clause promises.
fn copy_name(name: &[u8], into: &mut [u8; 48])
    requires { length name.now ≤ 48 }
    ensures { take (length name.now) into.new ≡ name.now }
{
    clear(into);
    write_bytes_at(into, 0, name);
}

/// The kind of the inode that an entry of a directory names; `None` where the entry is dead: where the inode is not
/// agreed, or has no back link to the entry that is a pair.
pub(crate) fn kind_named(
    bytes: &[u8],
    it: &Opened,
    place: u32,
    inode: u32,
) -> Result<Option<FileKind>, BadPage>
    requires { IsDirectoryKnown bytes.now it.now }
    ensures kind { IfOk result (λ kind. kind ≡ kind_named (image_of bytes.now) it.now.inode place inode) }
    ensures bad { IfErr result (IsBadPage bytes.now) }
{
    let link = BackLink {
        directory: it.inode,
        entry: place,
        generation: it.record.generation,
    };
    let mut last = LastRead::NONE;
    let found = record(bytes, &it.at, inode, &mut last)?;
    if has_link(&found.links, &link)
        && is_pair(bytes, &it.at, inode, &found, &link)?
        && is_agreed(bytes, &it.at, inode)?
    {
        Ok(found.kind)
    } else {
        Ok(None)
    }
}

// Whether this back link is among others.
fn has_link(links: &[BackLink; 4], link: &BackLink) -> bool
    ensures { result ≡ list_any (λ other. is_same_link other link.now) links.now }
{
    links.iter().any(|other| is_same_link(other, link))
}

fn is_same_link(a: &BackLink, b: &BackLink) -> bool
    ensures { result ≡ is_same_link a.now b.now }
{
    a.directory == b.directory && a.entry == b.entry && a.generation == b.generation
}

/// Whether an entry has this name.
pub(crate) fn has_name(entry: &Named, name: &[u8]) -> bool
    requires { entry.now.length ≤ 48 }
    ensures { result ≡ bytes_eq (take entry.now.length entry.now.name) name.now }
{
    &entry.name[..entry.length as usize] == name
}
