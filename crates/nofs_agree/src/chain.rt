//! The check of a chain of directories, from an inode up to the root.
//!
//! Promise: it answers whether the inode is agreed, where what is said to be known is true, and ends
//! whatever the image is, since each directory on the way is older than the one below.
ghost use Rattle.std.specs.Prelude.{◌≡◌, IfOk, IsTrue, OnErr, OnOk};
ghost use Rattle.std.specs.List.{list_any};
ghost use Rattle.nofs_disk.specs.Disk.{Rose, StaysButFaults};
ghost use Rattle.nofs_inode.specs.declared.inode.FileKind.TheVariants as kind;
ghost use Rattle.nofs_model.specs.Files as files;
ghost use Rattle.nofs_model.specs.Geometry as image;
ghost use Rattle.nofs_agree.specs.Chain.{AreTrue, ReadsParent, TellsAgreed, is_agreed_link};
ghost use Rattle.nofs_agree.specs.Reads.{IsAt, IsLast, KnowsDirectory, KnowsInode};

use crate::known::Known;
use crate::pair::{first_link, is_directory, read_pair};
use crate::reads::{LastRead, read_inode};
use nofs_disk::{Disk, Failed};
use nofs_inode::{BackLink, FileKind, Record};
use nofs_super::SuperBlock;

/// Whether an inode is agreed, where something may be known of some. It asks the superblock of the
/// disk. Where something that is known isn't true, the answer may be either.
///
/// # Errors
///
/// `Failed` where a read failed.
pub fn check_chain<D: Disk>(
    disk: &mut D,
    at: &SuperBlock,
    known: &Known,
    inode: u32,
) -> Result<bool, Failed>
    requires numbers { IsAt (D.state disk.old) at.now }
    ensures stays { StaysButFaults (D.state disk.old) (D.state disk.new) }
    ensures agreed { IfOk result (λ answer. IsTrue (D.state disk.old).tells → AreTrue (D.state disk.old).now known.now
        → answer ≡ files.agreed (files.files_in (D.state disk.old).now) inode) }
    ensures cause { OnErr result (Rose (D.state disk.old).faults (D.state disk.new).faults) }
    ensures no_fault { OnOk result ((D.state disk.new).faults ≡ (D.state disk.old).faults) }
{
    if let Some(agreed) = known.told(inode) {
        return Ok(agreed);
    }
    let mut last = LastRead::NONE;
    let it = read_inode(disk, at, inode, &mut last)?;
    if is_root(inode, &it) {
        return Ok(true);
    }
    if is_special(inode) {
        return Ok(false);
    }
    any_agreed_link(disk, at, known, inode, &it, &mut last)
}

// Whether this is the root or the label file, and live as such.
pub(crate) fn is_root(inode: u32, it: &Record) -> bool
    ensures { (X : image.Image) → image.inode X inode ≡ it.now → result ≡ files.is_root (files.files_in X) inode }
{
    match inode {
        1 => is_directory(it, 1),
        2 => is_file(it, 2),
        _ => false,
    }
}

fn is_file(it: &Record, generation: u64) -> bool
    ensures { result ≡ files.is_record kind.File generation it.now }
{
    it.kind == Some(FileKind::File) && it.generation == generation
}

pub(crate) fn is_special(inode: u32) -> bool
    ensures { result ≡ files.is_special inode }
{
    inode == 1 || inode == 2
}

// Whether some back link of the inode is a pair with an agreed directory.
fn any_agreed_link<D: Disk>(
    disk: &mut D,
    at: &SuperBlock,
    known: &Known,
    inode: u32,
    it: &Record,
    last: &mut LastRead,
) -> Result<bool, Failed>
    requires record { KnowsInode (D.state disk.old) at.now inode it.now }
    requires last { IsLast (D.state disk.old) last.old }
    ensures { TellsAgreed (D.state disk.old) (D.state disk.new) known.now
        (λ X. list_any (is_agreed_link (files.files_in X) inode) it.now.links) last.new result }
{
    if it.kind.is_none() {
        return Ok(false);
    }
    for place in 0..4 {
        if is_agreed_link(disk, at, known, inode, it, &it.links[place], last)? {
            return Ok(true);
        }
    }
    Ok(false)
}

/// Whether a back link of an inode is a pair with an agreed directory.
pub fn is_agreed_link<D: Disk>(
    disk: &mut D,
    at: &SuperBlock,
    known: &Known,
    inode: u32,
    it: &Record,
    link: &BackLink,
    last: &mut LastRead,
) -> Result<bool, Failed>
    requires record { KnowsInode (D.state disk.old) at.now inode it.now }
    requires last { IsLast (D.state disk.old) last.old }
    ensures { TellsAgreed (D.state disk.old) (D.state disk.new) known.now
        (λ X. is_agreed_link (files.files_in X) inode link.now) last.new result }
{
    match read_pair(disk, at, inode, it, link, last)? {
        None => Ok(false),
        Some(record) => {
            let directory = Directory {
                inode: link.directory,
                record,
            };
            is_agreed_directory(disk, at, known, directory, last)
        }
    }
}

// A directory on the way up, and its record.
#[derive(Clone, Copy)]
pub(crate) struct Directory {
    pub inode: u32,
    pub record: Record,
}

// Whether a directory is agreed: the way up from it ends at the root, or at one that is known.
pub(crate) fn is_agreed_directory<D: Disk>(
    disk: &mut D,
    at: &SuperBlock,
    known: &Known,
    directory: Directory,
    last: &mut LastRead,
) -> Result<bool, Failed>
    requires record { KnowsDirectory (D.state disk.old) at.now directory.inode directory.record.generation
        directory.record }
    requires last { IsLast (D.state disk.old) last.old }
    ensures { TellsAgreed (D.state disk.old) (D.state disk.new) known.now
        (λ X. files.agreed (files.files_in X) directory.inode) last.new result }
{
    let mut here = directory;
    loop {
        if let Some(agreed) = known.told(here.inode) {
            return Ok(agreed);
        }
        if is_root(here.inode, &here.record) {
            return Ok(true);
        }
        if is_special(here.inode) {
            return Ok(false);
        }
        match read_parent(disk, at, &here, last)? {
            None => return Ok(false),
            Some(parent) => here = parent,
        }
    }
}

// The directory that names this one, and that this one names back.
pub(crate) fn read_parent<D: Disk>(
    disk: &mut D,
    at: &SuperBlock,
    directory: &Directory,
    last: &mut LastRead,
) -> Result<Option<Directory>, Failed>
    requires record { KnowsDirectory (D.state disk.old) at.now directory.now.inode directory.now.record.generation
        directory.now.record }
    requires last { IsLast (D.state disk.old) last.old }
    ensures { ReadsParent (D.state disk.old) (D.state disk.new) at.now directory.now last.new result }
{
    let link = first_link(&directory.record.links);
    match read_pair(disk, at, directory.inode, &directory.record, &link, last)? {
        None => Ok(None),
        Some(record) => Ok(Some(Directory {
            inode: link.directory,
            record,
        })),
    }
}
