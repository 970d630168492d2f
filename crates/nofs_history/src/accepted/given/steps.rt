//! What each accepted step gives.
//!
//! Promise: it is what the machine's definition gives for the step.
ghost use Rattle.std.specs.Prelude.{◌≡◌, ◌<◌, ◌≤◌, ◌+◌, ◌*◌, ◌/◌, ℕ, IfOk, length, true, Option};
ghost use Rattle.nofs_ptrs.specs.Paths.{slot_limit};
ghost use Rattle.nofs_dirent.specs.Entries.{spelled_entry, entry_limit};
ghost use Rattle.nofs_history.specs.Machine as machine;
ghost use Rattle.nofs_history.specs.Meta.{Meta};
ghost use Rattle.nofs_history.specs.Accepted.Files.{kept_files_of};
ghost use Rattle.nofs_history.specs.Accepted.Given.{cell_of, given_of, is_sound, metas_of, with_birth};

use crate::accepted::files::cells::{cleared, spelled};
use crate::accepted::files::file::FilesNow;
use crate::accepted::files::names::DirectoryName;
use crate::accepted::given::given::{Birth, GivenCell, GivenMeta, GivenNow};
use crate::accepted::given::metas::{grown, linked, unlinked};
use crate::machine::history::Claims;
use nofs_inode::inode::{BackLink, FileKind};
use std::alloc::{AllocError, Global};

/// What an entry says: one generation of an inode, and a name of it.
#[derive(Clone, Copy)]
struct Says<'a> {
    inode: u32,
    generation: u64,
    name: &'a [u8],
}

/// Bytes for a slot of one generation of an inode.
#[derive(Clone, Copy)]
pub(crate) struct BytesIn<'a> {
    pub inode: u32,
    pub generation: u64,
    pub slot: u64,
    pub at: u32,
    pub bytes: &'a [u8],
}

impl<'a> BytesIn<'a> {
    /// Bytes for a slot, from a place in it on.
    pub(crate) fn new(inode: u32, generation: u64, slot: u64, at: u32, bytes: &'a [u8]) -> Self
        ensures place { (result.inode ≡ inode) × (result.generation ≡ generation) × (result.slot ≡ slot) }
        ensures bytes { (result.at ≡ at) × (result.bytes.now ≡ bytes.now) }
    {
        BytesIn {
            inode,
            generation,
            slot,
            at,
            bytes,
        }
    }
}

impl Says<'_> {
    // The 64 bytes of the entry.
    fn bytes(&self) -> [u8; 64]
        requires { length self.now.name.now ≤ 48 }
        ensures { result ≡ spelled_entry self.now.inode self.now.generation self.now.name.now }
    {
        spelled(self.inode, self.generation, self.name)
    }
}

/// What a put gives.
pub(crate) fn put_given(
    alloc: Global,
    files: &FilesNow,
    put: &BytesIn<'_>,
) -> Result<GivenNow, AllocError>
    requires slot { put.now.slot < slot_limit }
    requires range { put.now.at + length put.now.bytes.now ≤ 1024 }
    ensures given { IfOk result (λ it. given_of (kept_files_of files.now) it
        ≡ machine.put_given (kept_files_of files.now) put.now.inode put.now.generation put.now.slot put.now.at
        put.now.bytes.now) }
    ensures sound { IfOk result (λ it. is_sound it ≡ true) }
{
    let end = 1024 * put.slot + u64::from(put.at) + put.bytes.len() as u64;
    let cell = GivenCell {
        inode: put.inode,
        generation: put.generation,
        slot: put.slot,
        cell: files.put_content(alloc, put.inode, put.slot, put.at, put.bytes)?,
    };
    let meta = GivenMeta {
        inode: put.inode,
        generation: put.generation,
        meta: grown(files, put.inode, end),
    };
    Ok(GivenNow::Cell {
        cell,
        meta: Some(meta),
    })
}

// The cell of a directory with these 64 bytes in place of an entry.
fn entry_cell(
    alloc: Global,
    files: &FilesNow,
    at: BackLink,
    bytes: &[u8; 64],
) -> Result<GivenCell, AllocError>
    requires { at.entry < entry_limit }
    ensures given { IfOk result (λ it. (metas : ℕ → ℕ → Option Meta) → cell_of it metas
        ≡ machine.entry_given (kept_files_of files.now) at.directory at.generation at.entry bytes.now metas) }
    ensures range { IfOk result (λ it. it.slot < slot_limit) }
{
    Ok(GivenCell {
        inode: at.directory,
        generation: at.generation,
        slot: u64::from(at.entry / 16),
        cell: files.with_entry(alloc, at.directory, at.entry, bytes)?,
    })
}

// What is given by these 64 bytes in place of an entry, with what an inode becomes.
fn spelled_given(
    alloc: Global,
    files: &FilesNow,
    at: BackLink,
    bytes: &[u8; 64],
    meta: Option<GivenMeta>,
) -> Result<GivenNow, AllocError>
    requires { at.entry < entry_limit }
    ensures given { IfOk result (λ it. given_of (kept_files_of files.now) it
        ≡ machine.entry_given (kept_files_of files.now) at.directory at.generation at.entry bytes.now (metas_of meta)) }
    ensures sound { IfOk result (λ it. is_sound it ≡ true) }
{
    let cell = entry_cell(alloc, files, at, bytes)?;
    Ok(GivenNow::Cell { cell, meta })
}

fn make_given_at(
    alloc: Global,
    files: &FilesNow,
    at: BackLink,
    said: &Says<'_>,
    kind: FileKind,
) -> Result<GivenNow, AllocError>
    requires entry { at.entry < entry_limit }
    requires name { length said.now.name.now ≤ 48 }
    requires inode { 0 < said.now.inode }
    ensures given { IfOk result (λ it. given_of (kept_files_of files.now) it
        ≡ with_birth (machine.entry_given (kept_files_of files.now) at.directory at.generation at.entry
        (spelled_entry said.now.inode said.now.generation said.now.name.now) machine.no_meta)
        (record { inode = said.now.inode; generation = said.now.generation; kind = kind; link = at })) }
    ensures sound { IfOk result (λ it. is_sound it ≡ true) }
{
    let cell = entry_cell(alloc, files, at, &said.bytes())?;
    let birth = Birth {
        inode: said.inode,
        generation: said.generation,
        kind,
        link: at,
    };
    Ok(GivenNow::Make { cell, birth })
}

/// What the making of a file gives.
pub(crate) fn make_given(
    alloc: Global,
    files: &FilesNow,
    name: &DirectoryName<'_>,
    kind: FileKind,
    claims: &Claims,
) -> Result<GivenNow, AllocError>
    requires name { length name.now.name.now ≤ 48 }
    requires inode { 0 < claims.now.inode }
    ensures given { IfOk result (λ it. given_of (kept_files_of files.now) it
        ≡ machine.at_place (machine.place_for (kept_files_of files.now) name.now.directory name.now.name.now) (λ e.
        machine.make_given (kept_files_of files.now) name.now.directory name.now.generation name.now.name.now kind
        claims.now e)) }
    ensures sound { IfOk result (λ it. is_sound it ≡ true) }
{
    let said = Says {
        inode: claims.inode,
        generation: claims.generation,
        name: name.name,
    };
    match files.place_for(alloc, name)? {
        None => Ok(GivenNow::Nothing),
        Some(entry) => make_given_at(alloc, files, name.at(entry), &said, kind),
    }
}

fn link_given_in(
    alloc: Global,
    files: &FilesNow,
    at: BackLink,
    said: &Says<'_>,
) -> Result<GivenNow, AllocError>
    requires entry { at.entry < entry_limit }
    requires name { length said.now.name.now ≤ 48 }
    ensures given { IfOk result (λ it. given_of (kept_files_of files.now) it
        ≡ machine.at_place (machine.link_place (kept_files_of files.now) said.now.inode) (λ b.
        machine.link_given (kept_files_of files.now) at.directory at.generation said.now.name.now said.now.inode
        said.now.generation at.entry b)) }
    ensures sound { IfOk result (λ it. is_sound it ≡ true) }
{
    match files.link_place(alloc, said.inode)? {
        None => Ok(GivenNow::Nothing),
        Some(place) => {
            let meta = GivenMeta {
                inode: said.inode,
                generation: said.generation,
                meta: linked(files, said.inode, place, at),
            };
            spelled_given(alloc, files, at, &said.bytes(), Some(meta))
        }
    }
}

/// What a further name of a file gives.
pub(crate) fn link_given(
    alloc: Global,
    files: &FilesNow,
    name: &DirectoryName<'_>,
    inode: u32,
    of: u64,
) -> Result<GivenNow, AllocError>
    requires { length name.now.name.now ≤ 48 }
    ensures given { IfOk result (λ it. given_of (kept_files_of files.now) it
        ≡ machine.at_place (machine.place_for (kept_files_of files.now) name.now.directory name.now.name.now) (λ e.
        machine.at_place (machine.link_place (kept_files_of files.now) inode) (λ b.
        machine.link_given (kept_files_of files.now) name.now.directory name.now.generation name.now.name.now
        inode of e b))) }
    ensures sound { IfOk result (λ it. is_sound it ≡ true) }
{
    let said = Says {
        inode,
        generation: of,
        name: name.name,
    };
    match files.place_for(alloc, name)? {
        None => Ok(GivenNow::Nothing),
        Some(entry) => link_given_in(alloc, files, name.at(entry), &said),
    }
}

fn drop_given_of(
    alloc: Global,
    files: &FilesNow,
    at: BackLink,
    inode: u32,
    of: u64,
) -> Result<GivenNow, AllocError>
    requires { at.entry < entry_limit }
    ensures given { IfOk result (λ it. given_of (kept_files_of files.now) it
        ≡ machine.entry_given (kept_files_of files.now) at.directory at.generation at.entry (machine.zero_bytes 64)
        (machine.meta_given inode of (machine.drop_meta (kept_files_of files.now) inode at))) }
    ensures sound { IfOk result (λ it. is_sound it ≡ true) }
{
    let meta = GivenMeta {
        inode,
        generation: of,
        meta: unlinked(alloc, files, inode, &at)?,
    };
    spelled_given(alloc, files, at, &cleared(), Some(meta))
}

fn drop_given_at(alloc: Global, files: &FilesNow, at: BackLink) -> Result<GivenNow, AllocError>
    requires { at.entry < entry_limit }
    ensures given { IfOk result (λ it. given_of (kept_files_of files.now) it
        ≡ machine.drop_given (kept_files_of files.now) at.directory at.generation at.entry) }
    ensures sound { IfOk result (λ it. is_sound it ≡ true) }
{
    match files.entry_at(alloc, at.directory, at.entry)? {
        None => Ok(GivenNow::Nothing),
        Some(found) => drop_given_of(alloc, files, at, found.inode, found.generation),
    }
}

/// What the drop of a name gives.
pub(crate) fn drop_given(
    alloc: Global,
    files: &FilesNow,
    name: &DirectoryName<'_>,
) -> Result<GivenNow, AllocError>
    ensures given { IfOk result (λ it. given_of (kept_files_of files.now) it
        ≡ machine.at_place (machine.found (kept_files_of files.now) name.now.directory name.now.name.now) (λ e.
        machine.drop_given (kept_files_of files.now) name.now.directory name.now.generation e)) }
    ensures sound { IfOk result (λ it. is_sound it ≡ true) }
{
    match files.found(alloc, name)? {
        None => Ok(GivenNow::Nothing),
        Some(entry) => drop_given_at(alloc, files, name.at(entry)),
    }
}

fn rename_given_at(
    alloc: Global,
    files: &FilesNow,
    at: BackLink,
    new: &[u8],
) -> Result<GivenNow, AllocError>
    requires entry { at.entry < entry_limit }
    requires name { length new.now ≤ 48 }
    ensures given { IfOk result (λ it. given_of (kept_files_of files.now) it
        ≡ machine.rename_given (kept_files_of files.now) at.directory at.generation new.now at.entry) }
    ensures sound { IfOk result (λ it. is_sound it ≡ true) }
{
    match files.entry_at(alloc, at.directory, at.entry)? {
        None => Ok(GivenNow::Nothing),
        Some(found) => {
            let bytes = spelled(found.inode, found.generation, new);
            spelled_given(alloc, files, at, &bytes, None)
        }
    }
}

/// What the change of a name gives.
pub(crate) fn rename_given(
    alloc: Global,
    files: &FilesNow,
    old: &DirectoryName<'_>,
    new: &[u8],
) -> Result<GivenNow, AllocError>
    requires { length new.now ≤ 48 }
    ensures given { IfOk result (λ it. given_of (kept_files_of files.now) it
        ≡ machine.at_place (machine.found (kept_files_of files.now) old.now.directory old.now.name.now) (λ e.
        machine.rename_given (kept_files_of files.now) old.now.directory old.now.generation new.now e)) }
    ensures sound { IfOk result (λ it. is_sound it ≡ true) }
{
    match files.found(alloc, old)? {
        None => Ok(GivenNow::Nothing),
        Some(entry) => rename_given_at(alloc, files, old.at(entry), new),
    }
}
