//! Which inodes of an image are agreed, where what was found of one is kept for the others.
//!
//! Promise: each answer is that of the image, and what is marked stays true of it. All ways up together walk each
//! directory twice, however deep it lies: once to where something is marked or the way ends, and once to mark what was
//! found there. A mark is a byte of the caller's.
ghost use Rattle.std.specs.Prelude.{◌≡◌, ◌≢◌, IfErr, IfOk, IfSome, Some, not};
ghost use Rattle.std.specs.List.{list_any, position};
ghost use Rattle.nofs_agree.specs.Chain.{first_link, is_agreed_link};
ghost use Rattle.nofs_agree.specs.Reads.{IsAt, KnowsInode};
ghost use Rattle.nofs_inode.specs.InodeRecords.{is_empty_link};
ghost use Rattle.nofs_model.specs.Files as files;
ghost use Rattle.nofs_model.specs.Geometry.{Image};
ghost use Rattle.nofs_reader.specs.Image.{disk_of, image_of};
ghost use Rattle.nofs_reader.specs.Layouts.{IsBadPage};
ghost use Rattle.nofs_reader.specs.Marks.{AreMarks, IsDirectory, IsWay, KeepsMarks, mark_of};

use crate::chain::{is_agreed, partner};
use crate::layout::BadPage;
use crate::reads::record;
use nofs_agree::LastRead;
use nofs_inode::{BackLink, Record};
use nofs_super::SuperBlock;

/// What the way up from a directory shows of it.
#[derive(Clone, Copy)]
pub(crate) enum Way {
    /// It ends: the directory is agreed, or it is not.
    Ends(bool),
    /// The directory is agreed exactly where this one is, which names it.
    Up(u32),
}

/// Whether an inode is agreed. Afterwards that is marked, of it and of each directory on the ways up from it.
pub(crate) fn learn_inode(
    bytes: &[u8],
    at: &SuperBlock,
    marks: &mut [u8],
    inode: u32,
) -> Result<bool, BadPage>
    requires at { IsAt (disk_of bytes.now) at.now }
    requires marks { AreMarks (image_of bytes.now) marks.old }
    ensures agreed { IfOk result (λ is. is ≡ files.agreed (files.files_in (image_of bytes.now)) inode) }
    ensures marks { KeepsMarks (image_of bytes.now) marks.old marks.new }
    ensures bad { IfErr result (IsBadPage bytes.now) }
{
    if inode == 1 || inode == 2 {
        return is_agreed(bytes, at, inode);
    }
    match told(marks, inode) {
        Some(agreed) => Ok(agreed),
        None => learn_untold(bytes, at, marks, inode),
    }
}

// The same where nothing is marked of it.
fn learn_untold(
    bytes: &[u8],
    at: &SuperBlock,
    marks: &mut [u8],
    inode: u32,
) -> Result<bool, BadPage>
    requires at { IsAt (disk_of bytes.now) at.now }
    requires marks { AreMarks (image_of bytes.now) marks.old }
    requires root { inode ≢ 1 }
    requires label { inode ≢ 2 }
    ensures agreed { IfOk result (λ is. is ≡ files.agreed (files.files_in (image_of bytes.now)) inode) }
    ensures marks { KeepsMarks (image_of bytes.now) marks.old marks.new }
    ensures bad { IfErr result (IsBadPage bytes.now) }
{
    let mut last = LastRead::NONE;
    let it = record(bytes, at, inode, &mut last)?;
    let agreed = any_agreed_link(bytes, at, marks, inode, &it)?;
    mark(marks, inode, agreed);
    Ok(agreed)
}

// What is marked of an inode.
fn told(marks: &[u8], inode: u32) -> Option<bool>
    ensures { (X : Image) → AreMarks X marks.now → IfSome result (λ is. is ≡ files.agreed (files.files_in X) inode) }
{
    let place = inode as usize;
    if place == 0 || place > marks.len() {
        return None;
    }
    read_mark(marks[place - 1])
}

fn read_mark(byte: u8) -> Option<bool>
    ensures { result ≡ mark_of byte }
{
    match byte {
        0 => None,
        1 => Some(true),
        _ => Some(false),
    }
}

// Marks whether an inode is agreed, where there is a place for it.
fn mark(marks: &mut [u8], inode: u32, agreed: bool)
    ensures { (X : Image) → AreMarks X marks.old → agreed ≡ files.agreed (files.files_in X) inode
        → KeepsMarks X marks.old marks.new }
{
    let place = inode as usize;
    if place == 0 || place > marks.len() {
        return;
    }
    marks[place - 1] = mark_byte(agreed);
}

fn mark_byte(agreed: bool) -> u8
    ensures { mark_of result ≡ Some agreed }
{
    if agreed { 1 } else { 2 }
}

// Whether some back link of an inode is a pair with an agreed directory.
fn any_agreed_link(
    bytes: &[u8],
    at: &SuperBlock,
    marks: &mut [u8],
    inode: u32,
    it: &Record,
) -> Result<bool, BadPage>
    requires known { KnowsInode (disk_of bytes.now) at.now inode it.now }
    requires marks { AreMarks (image_of bytes.now) marks.old }
    ensures agreed { IfOk result
        (λ is. is ≡ list_any (is_agreed_link (files.files_in (image_of bytes.now)) inode) it.now.links) }
    ensures marks { KeepsMarks (image_of bytes.now) marks.old marks.new }
    ensures bad { IfErr result (IsBadPage bytes.now) }
{
    for place in 0..4 {
        if is_marked_link(bytes, at, marks, inode, it, &it.links[place])? {
            return Ok(true);
        }
    }
    Ok(false)
}

// Whether a back link of an inode is a pair with an agreed directory.
fn is_marked_link(
    bytes: &[u8],
    at: &SuperBlock,
    marks: &mut [u8],
    inode: u32,
    it: &Record,
    link: &BackLink,
) -> Result<bool, BadPage>
    requires known { KnowsInode (disk_of bytes.now) at.now inode it.now }
    requires marks { AreMarks (image_of bytes.now) marks.old }
    ensures agreed { IfOk result (λ is. is ≡ is_agreed_link (files.files_in (image_of bytes.now)) inode link.now) }
    ensures marks { KeepsMarks (image_of bytes.now) marks.old marks.new }
    ensures bad { IfErr result (IsBadPage bytes.now) }
{
    match partner(bytes, at, inode, it, link)? {
        None => Ok(false),
        Some(_) => learn_directory(bytes, at, marks, link.directory),
    }
}

// Whether a directory is agreed. The way up from it is walked twice: what the first walk finds, the second one marks.
fn learn_directory(
    bytes: &[u8],
    at: &SuperBlock,
    marks: &mut [u8],
    directory: u32,
) -> Result<bool, BadPage>
    requires at { IsAt (disk_of bytes.now) at.now }
    requires directory { IsDirectory (image_of bytes.now) directory }
    requires marks { AreMarks (image_of bytes.now) marks.old }
    ensures agreed { IfOk result (λ is. is ≡ files.agreed (files.files_in (image_of bytes.now)) directory) }
    ensures marks { KeepsMarks (image_of bytes.now) marks.old marks.new }
    ensures bad { IfErr result (IsBadPage bytes.now) }
{
    let agreed = find_end(bytes, at, marks, directory)?;
    mark_way(bytes, at, marks, directory, agreed)?;
    Ok(agreed)
}

// Whether a directory is agreed, by the way up from it as far as to a mark.
fn find_end(bytes: &[u8], at: &SuperBlock, marks: &[u8], directory: u32) -> Result<bool, BadPage>
    requires at { IsAt (disk_of bytes.now) at.now }
    requires directory { IsDirectory (image_of bytes.now) directory }
    requires marks { AreMarks (image_of bytes.now) marks.now }
    ensures agreed { IfOk result (λ is. is ≡ files.agreed (files.files_in (image_of bytes.now)) directory) }
    ensures bad { IfErr result (IsBadPage bytes.now) }
{
    let mut here = directory;
    loop {
        match told(marks, here) {
            Some(agreed) => return Ok(agreed),
            None => {}
        }
        match way_up(bytes, at, here)? {
            Way::Ends(agreed) => return Ok(agreed),
            Way::Up(above) => here = above,
        }
    }
}

// Marks each directory on the way up from one as far as to a mark: what it is, they are.
fn mark_way(
    bytes: &[u8],
    at: &SuperBlock,
    marks: &mut [u8],
    directory: u32,
    agreed: bool,
) -> Result<(), BadPage>
    requires at { IsAt (disk_of bytes.now) at.now }
    requires directory { IsDirectory (image_of bytes.now) directory }
    requires marks { AreMarks (image_of bytes.now) marks.old }
    requires agreed { agreed ≡ files.agreed (files.files_in (image_of bytes.now)) directory }
    ensures marks { KeepsMarks (image_of bytes.now) marks.old marks.new }
    ensures bad { IfErr result (IsBadPage bytes.now) }
{
    let mut here = directory;
    while told(marks, here).is_none() {
        mark(marks, here, agreed);
        match way_up(bytes, at, here)? {
            Way::Ends(_) => return Ok(()),
            Way::Up(above) => here = above,
        }
    }
    Ok(())
}

// One step up from a directory.
fn way_up(bytes: &[u8], at: &SuperBlock, directory: u32) -> Result<Way, BadPage>
    requires at { IsAt (disk_of bytes.now) at.now }
    requires directory { IsDirectory (image_of bytes.now) directory }
    ensures way { IfOk result (IsWay (image_of bytes.now) directory) }
    ensures bad { IfErr result (IsBadPage bytes.now) }
{
    if directory == 1 || directory == 2 {
        return Ok(Way::Ends(is_agreed(bytes, at, directory)?));
    }
    let mut last = LastRead::NONE;
    let it = record(bytes, at, directory, &mut last)?;
    let link = first_link(&it.links);
    match partner(bytes, at, directory, &it, &link)? {
        None => Ok(Way::Ends(false)),
        Some(_) => Ok(Way::Up(link.directory)),
    }
}

// The first back link that isn't empty, or an empty one. A directory has no other.
fn first_link(links: &[BackLink; 4]) -> BackLink
    ensures { result ≡ first_link links.now }
{
    match first_place(links) {
        None => BackLink::EMPTY,
        Some(place) => links[place],
    }
}

fn first_place(links: &[BackLink; 4]) -> Option<usize>
    ensures { result ≡ position (λ link. not (is_empty_link link)) links.now }
{
    links.iter().position(|link| link.directory != 0)
}
