//! Back links that are pairs: the entry to which the link leads names the inode.
ghost use Rattle.std.specs.Prelude.{◌≡◌, ◌<◌, ◌||◌, Some, not, nat_lt};
ghost use Rattle.std.specs.List.{position};
ghost use Rattle.nofs_inode.specs.InodeRecords.{is_empty_link};
ghost use Rattle.nofs_inode.specs.declared.inode.FileKind.TheVariants as kind;
ghost use Rattle.nofs_model.specs.Files as files;
ghost use Rattle.nofs_agree.specs.Chain.{ReadsPair, TellsAnswer, first_link};
ghost use Rattle.nofs_agree.specs.Reads.{IsLast, KnowsDirectory, KnowsInode};

use crate::path::find_slot;
use crate::reads::{LastRead, read_inode};
use nofs_dirent::ENTRY_LIMIT;
use nofs_disk::{Disk, Failed};
use nofs_inode::{BackLink, FileKind, Record};
use nofs_model::{PathAnswer, names_inode, place_of};
use nofs_super::SuperBlock;

/// Reads the record of the directory to which a back link leads; `None` where the link isn't a
/// pair. A directory's own link is a pair only with an older directory.
///
/// # Errors
///
/// `Failed` where a read failed.
pub fn read_pair<D: Disk>(
    disk: &mut D,
    at: &SuperBlock,
    inode: u32,
    it: &Record,
    link: &BackLink,
    last: &mut LastRead,
) -> Result<Option<Record>, Failed>
    requires known { KnowsInode (D.state disk.old) at.now inode it.now }
    requires last { IsLast (D.state disk.old) last.old }
    ensures { ReadsPair (D.state disk.old) (D.state disk.new) at.now inode it.now link.now last.new result }
{
    match it.kind {
        None => Ok(None),
        Some(kind) => {
            let directory = read_inode(disk, at, link.directory, last)?;
            if !is_directory(&directory, link.generation)
                || !is_older(kind, link.generation, it.generation)
            {
                return Ok(None);
            }
            if has_entry(disk, at, link, &directory, inode, it.generation, last)? {
                Ok(Some(directory))
            } else {
                Ok(None)
            }
        }
    }
}

/// Whether this is the record of a live directory of this generation.
pub(crate) fn is_directory(it: &Record, generation: u64) -> bool
    ensures { result ≡ files.is_record kind.Directory generation it.now }
{
    it.kind == Some(FileKind::Directory) && it.generation == generation
}

// Whether a directory of this generation may name an inode: where that is one, too, it is younger.
fn is_older(kind: FileKind, directory: u64, generation: u64) -> bool
    ensures { result ≡ (not (files.is_folder kind) || nat_lt directory generation) }
{
    kind == FileKind::File || directory < generation
}

// Whether the entry of a directory to which a back link leads names this generation of an inode.
fn has_entry<D: Disk>(
    disk: &mut D,
    at: &SuperBlock,
    link: &BackLink,
    directory: &Record,
    inode: u32,
    generation: u64,
    last: &mut LastRead,
) -> Result<bool, Failed>
    requires directory { KnowsDirectory (D.state disk.old) at.now link.now.directory link.now.generation directory.now }
    requires last { IsLast (D.state disk.old) last.old }
    ensures { TellsAnswer (D.state disk.old) (D.state disk.new)
        (λ X. files.names (files.entry_at (files.files_in X) link.now.directory link.now.entry) inode generation)
        last.new result }
{
    if link.entry >= ENTRY_LIMIT {
        return Ok(false);
    }
    let place = place_of(u64::from(link.entry / 16));
    match find_slot(disk, at, link.directory, directory, place, last)? {
        PathAnswer::Holds(_) => {
            let place = link.entry % 16;
            Ok(names_inode(&last.cell.payload, place, inode, generation))
        }
        PathAnswer::Hole => Ok(false),
        PathAnswer::Lost => Ok(false),
    }
}

/// The first back link that isn't empty, or an empty one. A directory has no other.
pub(crate) fn first_link(links: &[BackLink; 4]) -> BackLink
    ensures { result ≡ first_link links.now }
{
    match first_place(links) {
        None => BackLink::EMPTY,
        Some(place) => links[place],
    }
}

fn first_place(links: &[BackLink; 4]) -> Option<usize>
    ensures { result ≡ position (λ link. not (is_empty_link link)) links.now }
{
    links.iter().position(|link| link.directory != 0)
}
