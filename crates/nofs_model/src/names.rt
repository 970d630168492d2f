//! Which inodes have a name, by a chain of directories up to the root.
ghost use Rattle.std.specs.Prelude.{◌≡◌, ◌<◌, ◌&&◌, Some, true, false, IfSome, IsNone};
ghost use Rattle.std.specs.List.{list_any, position};
ghost use Rattle.nofs_inode.specs.declared.inode.FileKind.TheVariants as kind;
ghost use Rattle.nofs_model.specs.Files as files;
ghost use Rattle.nofs_model.specs.Geometry as image;
ghost use Rattle.nofs_model.specs.Places.{AreAgreed, IsRead, IsRecord, is_known};

use crate::image::entry::names_inode;
use crate::image::path::PathAnswer;
use crate::image::{cell_at, numbers_of, read_inode};
use crate::slots::find_number;
use nofs_dirent::ENTRY_LIMIT;
use nofs_disk::Cell;
use nofs_inode::{BackLink, FileKind, Record};
use nofs_super::SuperBlock;

/// Whether an inode is agreed: the root, the label file, or one that an agreed directory names and
/// that names the directory back. It asks a mountable image.
pub fn agreed(cells: &[Cell], inode: u32) -> bool
    requires image { image.IsMountable cells.now }
    ensures { result ≡ files.agreed (files.files_in cells.now) inode }
{
    let at = numbers_of(cells);
    is_agreed(cells, &at, &[], inode)
}

/// Whether an inode is agreed, where some are known to be.
pub(crate) fn is_agreed(cells: &[Cell], at: &SuperBlock, known: &[bool], inode: u32) -> bool
    requires numbers { IsRead cells.now at.now }
    requires known { AreAgreed cells.now known.now }
    ensures { result ≡ files.agreed (files.files_in cells.now) inode }
{
    if is_agreed_at_once(cells, at, known, inode) {
        return true;
    }
    if is_special(inode) {
        return false;
    }
    let it = read_inode(cells, at, inode);
    has_agreed_link(cells, at, known, inode, &it)
}

// Whether the inode is known to be agreed, or is the root or the label file.
fn is_agreed_at_once(cells: &[Cell], at: &SuperBlock, known: &[bool], inode: u32) -> bool
    requires numbers { IsRead cells.now at.now }
    requires known { AreAgreed cells.now known.now }
    ensures yes { result ≡ true → files.agreed (files.files_in cells.now) inode ≡ true }
    ensures no { result ≡ false → files.is_root (files.files_in cells.now) inode ≡ false }
{
    is_known(known, inode) || is_root(cells, at, inode)
}

// Whether the inode is the root or the label file, and live as such.
fn is_root(cells: &[Cell], at: &SuperBlock, inode: u32) -> bool
    requires { IsRead cells.now at.now }
    ensures { result ≡ files.is_root (files.files_in cells.now) inode }
{
    match inode {
        1 => is_directory(&read_inode(cells, at, 1), 1),
        2 => is_file(&read_inode(cells, at, 2), 2),
        _ => false,
    }
}

fn is_known(known: &[bool], inode: u32) -> bool
    ensures { result ≡ is_known known.now inode }
{
    if inode == 0 {
        return false;
    }
    match known.get(inode as usize - 1) {
        None => false,
        Some(found) => *found,
    }
}

fn is_special(inode: u32) -> bool
    ensures { result ≡ files.is_special inode }
{
    inode == 1 || inode == 2
}

// Whether this is the record of a live directory of this generation.
fn is_directory(it: &Record, generation: u64) -> bool
    ensures { result ≡ files.is_record kind.Directory generation it.now }
{
    it.kind == Some(FileKind::Directory) && it.generation == generation
}

fn is_file(it: &Record, generation: u64) -> bool
    ensures { result ≡ files.is_record kind.File generation it.now }
{
    it.kind == Some(FileKind::File) && it.generation == generation
}

// Whether some back link of the inode is a pair with an agreed directory.
fn has_agreed_link(cells: &[Cell], at: &SuperBlock, known: &[bool], inode: u32, it: &Record) -> bool
    requires record { IsRecord cells.now at.now inode it.now }
    requires known { AreAgreed cells.now known.now }
    ensures { result ≡ list_any (λ link. files.is_pair (files.files_in cells.now) inode link
        && files.agreed (files.files_in cells.now) link.directory) it.now.links }
{
    it.links
        .iter()
        .any(|link| is_agreed_link(cells, at, known, inode, it, link))
}

fn is_agreed_link(
    cells: &[Cell],
    at: &SuperBlock,
    known: &[bool],
    inode: u32,
    it: &Record,
    link: &BackLink,
) -> bool
    requires record { IsRecord cells.now at.now inode it.now }
    requires known { AreAgreed cells.now known.now }
    ensures { result ≡ (files.is_pair (files.files_in cells.now) inode link.now
        && files.agreed (files.files_in cells.now) link.now.directory) }
{
    is_pair(cells, at, inode, it, link) && is_agreed_directory(cells, at, known, link.directory)
}

// Whether the entry to which a back link leads names the inode, in a directory that may have it.
fn is_pair(cells: &[Cell], at: &SuperBlock, inode: u32, it: &Record, link: &BackLink) -> bool
    requires { IsRecord cells.now at.now inode it.now }
    ensures { result ≡ files.is_pair (files.files_in cells.now) inode link.now }
{
    match it.kind {
        None => false,
        Some(kind) => {
            let directory = read_inode(cells, at, link.directory);
            is_directory(&directory, link.generation)
                && has_entry(cells, at, link, inode, it.generation)
                && (kind == FileKind::File || link.generation < it.generation)
        }
    }
}

// Whether the entry of a directory to which a back link leads names this generation of an inode.
fn has_entry(cells: &[Cell], at: &SuperBlock, link: &BackLink, inode: u32, generation: u64) -> bool
    requires numbers { IsRead cells.now at.now }
    requires directory { (image.inode cells.now link.now.directory).kind ≡ Some kind.Directory }
    ensures { result ≡ files.names (files.entry_at (files.files_in cells.now) link.now.directory link.now.entry)
        inode generation }
{
    if link.entry >= ENTRY_LIMIT {
        return false;
    }
    match find_number(cells, at, link.directory, u64::from(link.entry / 16)) {
        PathAnswer::Holds(pointer) => {
            let block = cell_at(cells, pointer.block);
            names_inode(&block.payload, link.entry % 16, inode, generation)
        }
        PathAnswer::Hole => false,
        PathAnswer::Lost => false,
    }
}

// Whether a directory is agreed: the way up from it ends at the root, or at a known one. A directory has one back
// link at most, and generations fall on the way.
fn is_agreed_directory(cells: &[Cell], at: &SuperBlock, known: &[bool], directory: u32) -> bool
    requires numbers { IsRead cells.now at.now }
    requires known { AreAgreed cells.now known.now }
    requires directory { (image.inode cells.now directory).kind ≡ Some kind.Directory }
    ensures { result ≡ files.agreed (files.files_in cells.now) directory }
{
    let mut here = directory;
    loop {
        if is_agreed_at_once(cells, at, known, here) {
            return true;
        }
        if is_special(here) {
            return false;
        }
        match parent_of(cells, at, here) {
            None => return false,
            Some(parent) => here = parent,
        }
    }
}

// The directory that names this one, and that this one names back.
fn parent_of(cells: &[Cell], at: &SuperBlock, directory: u32) -> Option<u32>
    requires numbers { IsRead cells.now at.now }
    requires directory { (image.inode cells.now directory).kind ≡ Some kind.Directory }
    ensures parent { IfSome result (files.IsParent cells.now directory) }
    ensures none { IsNone result → files.has_agreed_link (files.files_in cells.now) directory ≡ false }
{
    let it = read_inode(cells, at, directory);
    let place = first_pair(cells, at, directory, &it)?;
    Some(it.links[place].directory)
}

// The first back link that is a pair.
fn first_pair(cells: &[Cell], at: &SuperBlock, inode: u32, it: &Record) -> Option<usize>
    requires { IsRecord cells.now at.now inode it.now }
    ensures { result ≡ position (λ link. files.is_pair (files.files_in cells.now) inode link) it.now.links }
{
    it.links
        .iter()
        .position(|link| is_pair(cells, at, inode, it, link))
}
