//! What a directory has, place by place.
ghost use Rattle.std.specs.Prelude.{◌≡◌, ◌<◌, ◌≤◌, IfErr, IfOk, Some};
ghost use Rattle.nofs_dirent.specs.Entries.{entry_limit};
ghost use Rattle.nofs_model.specs.Files.{entry_at, files_in};
ghost use Rattle.nofs_reader.specs.Answers.{IsAnswered, IsDirectoryKnown, directory_unread};
ghost use Rattle.nofs_reader.specs.Directories.{IsNext};
ghost use Rattle.nofs_reader.specs.Entries.{IsLine, entry_in};
ghost use Rattle.nofs_reader.specs.Image.{image_of};
ghost use Rattle.nofs_reader.specs.Layouts.{IsBadPage};

use crate::entries::{Named, Stands, kind_named, read_place};
use crate::layout::BadPage;
use crate::opened::{Opened, Unread, Wanted, open};
use nofs_agree::LastRead;
use nofs_dirent::ENTRY_LIMIT;
use nofs_inode::FileKind;

/// An entry of a directory, and what it leads to.
#[derive(Clone, Copy, Debug, PartialEq, Eq)]
pub struct Line {
    /// The place of the entry, counted from 0 over the directory's whole content.
    pub place: u32,
    pub named: Named,
    /// The kind of the inode that it names; `None` where the entry is dead.
    pub kind: Option<FileKind>,
}

/// What a directory has at the first place, from one on, at which something stands.
#[derive(Clone, Copy, Debug, PartialEq, Eq)]
pub enum NextLine {
    /// An entry.
    Line(Line),
    /// Its slot is lost, and with it the entries from this place on to the next multiple of 16.
    Lost { place: u32 },
    /// Nothing stands from there on.
    End,
}

/// The first place of a directory, from one on, at which an entry stands or whose slot is lost. A directory has places
/// 0 to 1,151.
///
/// # Errors
///
/// `NoImage` with the first fault of the superblock; `NoInode` where no inode of this number is agreed; `NotDirectory`;
/// `BadPage` where a page can't be told that shows this, or what stands at the places up to the first.
pub fn next_line(bytes: &[u8], directory: u32, from: u32) -> Result<NextLine, Unread>
    ensures unread { IsAnswered bytes.now (directory_unread (image_of bytes.now) directory) result }
    ensures next { IfOk result (IsNext (image_of bytes.now) directory from) }
{
    match open(bytes, Wanted::Directories, directory) {
        Ok(it) => match first_line(bytes, &it, from) {
            Ok(line) => Ok(line),
            Err(bad) => Err(Unread::BadPage(bad)),
        },
        Err(why) => Err(why),
    }
}

// What stands at the first place, from one on, at which something does.
fn first_line(bytes: &[u8], it: &Opened, from: u32) -> Result<NextLine, BadPage>
    requires { IsDirectoryKnown bytes.now it.now }
    ensures next { IfOk result (IsNext (image_of bytes.now) it.now.inode from) }
    ensures bad { IfErr result (IsBadPage bytes.now) }
{
    let mut last = LastRead::NONE;
    for place in from..ENTRY_LIMIT {
        match read_place(bytes, it, place, &mut last)? {
            Stands::Nothing => {}
            Stands::Lost => return Ok(NextLine::Lost { place }),
            Stands::Entry(named) => {
                return Ok(NextLine::Line(line_of(bytes, it, place, named)?));
            }
        }
    }
    Ok(NextLine::End)
}

/// The line of an entry.
pub(crate) fn line_of(bytes: &[u8], it: &Opened, place: u32, named: Named) -> Result<Line, BadPage>
    requires directory { IsDirectoryKnown bytes.now it.now }
    requires place { place < entry_limit }
    requires entry { entry_at (files_in (image_of bytes.now)) it.now.inode place ≡ Some (entry_in named) }
    requires short { named.length ≤ 48 }
    ensures line { IfOk result (IsLine (image_of bytes.now) it.now.inode) }
    ensures place { IfOk result (λ line. line.place ≡ place) }
    ensures named { IfOk result (λ line. line.named ≡ named) }
    ensures bad { IfErr result (IsBadPage bytes.now) }
{
    let kind = kind_named(bytes, it, place, named.inode)?;
    Ok(Line { place, named, kind })
}
