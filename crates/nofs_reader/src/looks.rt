//! What a name finds in a directory.
ghost use Rattle.std.specs.Prelude.{◌≡◌, ◌<◌, IfErr, IfOk, IfSome, OnOk, false, is_some};
ghost use Rattle.nofs_agree.specs.Reads.{IsLast};
ghost use Rattle.nofs_dirent.specs.Entries.{entry_limit};
ghost use Rattle.nofs_reader.specs.Answers.{IsAnswered, IsDirectoryKnown, directory_unread};
ghost use Rattle.nofs_reader.specs.Directories.{FindsLeast, FindsLine, IsFoundAt, IsLooked, is_lost_at, is_named_at};
ghost use Rattle.nofs_reader.specs.Image.{disk_of, image_of};
ghost use Rattle.nofs_reader.specs.Layouts.{IsBadPage};

use crate::entries::{Stands, has_name, read_place};
use crate::layout::BadPage;
use crate::lists::{Line, line_of};
use crate::opened::{Opened, Unread, Wanted, open, slot};
use nofs_agree::{LastRead, PathAnswer};
use nofs_dirent::ENTRY_LIMIT;
use nofs_model::place_of;

/// What a name finds.
#[derive(Clone, Copy, Debug, PartialEq, Eq)]
pub enum Looked {
    /// The least entry of the name that is no dead one.
    Found(Line),
    /// All entries of the name are dead, and this is the least of them.
    LostEntry { place: u32 },
    /// No entry has the name, and this is the least lost slot, in which one may have stood.
    LostSlot { slot: u32 },
    /// No entry has the name, and no slot is lost.
    Missing,
}

/// What a name finds in a directory.
///
/// # Errors
///
/// `NoImage` with the first fault of the superblock; `NoInode` where no inode of this number is agreed; `NotDirectory`;
/// `BadPage` where a page can't be told that shows this, or what the name finds.
pub fn look(bytes: &[u8], directory: u32, name: &[u8]) -> Result<Looked, Unread>
    ensures unread { IsAnswered bytes.now (directory_unread (image_of bytes.now) directory) result }
    ensures looked { IfOk result (IsLooked (image_of bytes.now) directory name.now) }
{
    match open(bytes, Wanted::Directories, directory) {
        Ok(it) => match search(bytes, &it, name) {
            Ok(looked) => Ok(looked),
            Err(bad) => Err(Unread::BadPage(bad)),
        },
        Err(why) => Err(why),
    }
}

fn search(bytes: &[u8], it: &Opened, name: &[u8]) -> Result<Looked, BadPage>
    requires { IsDirectoryKnown bytes.now it.now }
    ensures looked { IfOk result (IsLooked (image_of bytes.now) it.now.inode name.now) }
    ensures bad { IfErr result (IsBadPage bytes.now) }
{
    match first_found(bytes, it, name)? {
        Some(line) => Ok(Looked::Found(line)),
        None => match first_named(bytes, it, name)? {
            Some(place) => Ok(Looked::LostEntry { place }),
            None => match first_lost(bytes, it)? {
                Some(slot) => Ok(Looked::LostSlot { slot }),
                None => Ok(Looked::Missing),
            },
        },
    }
}

// The least entry of the name that is no dead one.
fn first_found(bytes: &[u8], it: &Opened, name: &[u8]) -> Result<Option<Line>, BadPage>
    requires { IsDirectoryKnown bytes.now it.now }
    ensures found { IfOk result (FindsLine (image_of bytes.now) it.now.inode name.now) }
    ensures bad { IfErr result (IsBadPage bytes.now) }
{
    let mut last = LastRead::NONE;
    for place in 0..ENTRY_LIMIT {
        match found_at(bytes, it, name, place, &mut last)? {
            Some(line) => return Ok(Some(line)),
            None => {}
        }
    }
    Ok(None)
}

// The entry at a place, where it has the name and is no dead one.
fn found_at(
    bytes: &[u8],
    it: &Opened,
    name: &[u8],
    place: u32,
    last: &mut LastRead,
) -> Result<Option<Line>, BadPage>
    requires directory { IsDirectoryKnown bytes.now it.now }
    requires place { place < entry_limit }
    requires last { IsLast (disk_of bytes.now) last.old }
    ensures found { IfOk result (IsFoundAt (image_of bytes.now) it.now.inode name.now place) }
    ensures last { OnOk result (IsLast (disk_of bytes.now) last.new) }
    ensures bad { IfErr result (IsBadPage bytes.now) }
{
    match read_place(bytes, it, place, last)? {
        Stands::Nothing => Ok(None),
        Stands::Lost => Ok(None),
        Stands::Entry(named) => {
            if !has_name(&named, name) {
                return Ok(None);
            }
            let line = line_of(bytes, it, place, named)?;
            Ok(live_line(line))
        }
    }
}

// The line, where it is no dead one.
fn live_line(line: Line) -> Option<Line>
    ensures some { is_some result ≡ is_some line.kind }
    ensures same { IfSome result (λ it. it ≡ line) }
{
    match line.kind {
        None => None,
        Some(_) => Some(line),
    }
}

// The least entry of the name.
fn first_named(bytes: &[u8], it: &Opened, name: &[u8]) -> Result<Option<u32>, BadPage>
    requires { IsDirectoryKnown bytes.now it.now }
    ensures named { IfOk result
        (FindsLeast (is_named_at (image_of bytes.now) it.now.inode name.now) entry_limit) }
    ensures bad { IfErr result (IsBadPage bytes.now) }
{
    let mut last = LastRead::NONE;
    for place in 0..ENTRY_LIMIT {
        if is_named_at(bytes, it, name, place, &mut last)? {
            return Ok(Some(place));
        }
    }
    Ok(None)
}

// Whether the entry at a place has the name.
fn is_named_at(
    bytes: &[u8],
    it: &Opened,
    name: &[u8],
    place: u32,
    last: &mut LastRead,
) -> Result<bool, BadPage>
    requires directory { IsDirectoryKnown bytes.now it.now }
    requires place { place < entry_limit }
    requires last { IsLast (disk_of bytes.now) last.old }
    ensures named { IfOk result
        (λ is. is ≡ is_named_at (image_of bytes.now) it.now.inode name.now place) }
    ensures last { OnOk result (IsLast (disk_of bytes.now) last.new) }
    ensures bad { IfErr result (IsBadPage bytes.now) }
{
    match read_place(bytes, it, place, last)? {
        Stands::Nothing => Ok(false),
        Stands::Lost => Ok(false),
        Stands::Entry(named) => Ok(has_name(&named, name)),
    }
}

// The least slot that is lost.
fn first_lost(bytes: &[u8], it: &Opened) -> Result<Option<u32>, BadPage>
    requires { IsDirectoryKnown bytes.now it.now }
    ensures lost { IfOk result (FindsLeast (is_lost_at (image_of bytes.now) it.now.inode) 72) }
    ensures bad { IfErr result (IsBadPage bytes.now) }
{
    let mut last = LastRead::NONE;
    for slot in 0..72 {
        if is_lost_at(bytes, it, slot, &mut last)? {
            return Ok(Some(slot));
        }
    }
    Ok(None)
}

// Whether a slot is lost.
fn is_lost_at(bytes: &[u8], it: &Opened, number: u32, last: &mut LastRead) -> Result<bool, BadPage>
    requires directory { IsDirectoryKnown bytes.now it.now }
    requires number { number < 72 }
    requires last { IsLast (disk_of bytes.now) last.old }
    ensures lost { IfOk result (λ is. is ≡ is_lost_at (image_of bytes.now) it.now.inode number) }
    ensures last { OnOk result (IsLast (disk_of bytes.now) last.new) }
    ensures bad { IfErr result (IsBadPage bytes.now) }
{
    match slot(bytes, it, place_of(u64::from(number)), last)? {
        PathAnswer::Hole => Ok(false),
        PathAnswer::Lost => Ok(true),
        PathAnswer::Holds(_) => Ok(false),
    }
}
