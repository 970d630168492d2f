//! The inode that a call names, and its slots.
//!
//! Promise: it is agreed, and of the kind that is wanted, or the answer says why it is not. Each slot is that of the
//! image.
ghost use Rattle.std.specs.Prelude.{◌≡◌, IfErr, IfOk, OnOk, Some, true};
ghost use Rattle.nofs_agree.specs.Path.{IsCellOf};
ghost use Rattle.nofs_agree.specs.Reads.{IsAt, IsLast, KnowsInode};
ghost use Rattle.nofs_model.specs.Files.{agreed, files_in};
ghost use Rattle.nofs_model.specs.Places.{IsPlace, place_path};
ghost use Rattle.nofs_model.specs.Slots as slots;
ghost use Rattle.nofs_reader.specs.Answers.{IsAnswered, IsKnown, IsOpened, IsUnwanted, agreed_unread, inode_unread};
ghost use Rattle.nofs_reader.specs.Answers.{kind_unread, live_unread};
ghost use Rattle.nofs_reader.specs.Image.{disk_of, image_of};
ghost use Rattle.nofs_reader.specs.Layouts.{IsBadPage};

use crate::chain::is_agreed;
use crate::disk::ImageDisk;
use crate::layout::BadPage;
use crate::reads::{record, superblock};
use nofs_agree::{LastRead, PathAnswer, find_slot};
use nofs_inode::{FileKind, Record};
use nofs_model::Place;
use nofs_super::{MountFault, SuperBlock};

/// What a call may name.
#[derive(Clone, Copy)]
pub(crate) enum Wanted {
    Any,
    Files,
    Directories,
}

/// Why a call has no answer.
#[derive(Clone, Copy, Debug, PartialEq, Eq)]
pub enum Unread {
    /// The bytes are no image that can be mounted: the first fault of the superblock.
    NoImage(MountFault),
    /// No inode is agreed that has this number.
    NoInode,
    /// The inode is a file, and a directory is wanted.
    NotDirectory,
    /// The inode is a directory, and a file is wanted.
    IsDirectory,
    /// No file has such a slot: it is 4,168 or more.
    TooLarge,
    /// There is no room for a slot: fewer than 1,024 bytes; or for a mark an inode.
    NoRoom,
    /// A page that the answer needs can't be told.
    BadPage(BadPage),
}

/// An agreed inode of an image.
#[derive(Clone, Copy)]
pub(crate) struct Opened {
    pub at: SuperBlock,
    pub inode: u32,
    pub record: Record,
    pub kind: FileKind,
}

/// The agreed inode of a number.
///
/// # Errors
///
/// `NoImage` where the superblock has a fault, `NoInode` where no inode of this number is agreed, `NotDirectory` or
/// `IsDirectory` where it is not of the wanted kind, and `BadPage` where a page can't be told that shows this.
pub(crate) fn open(bytes: &[u8], wanted: Wanted, inode: u32) -> Result<Opened, Unread>
    ensures unread { IsAnswered bytes.now (inode_unread wanted (image_of bytes.now) inode) result }
    ensures opened { IfOk result (IsOpened bytes.now wanted inode) }
{
    match superblock(bytes) {
        Err(why) => Err(why),
        Ok(at) => open_at(bytes, at, wanted, inode),
    }
}

// The agreed inode of a number, in an image whose superblock this is.
fn open_at(bytes: &[u8], at: SuperBlock, wanted: Wanted, inode: u32) -> Result<Opened, Unread>
    requires { IsAt (disk_of bytes.now) at }
    ensures unread { IsAnswered bytes.now (agreed_unread wanted (image_of bytes.now) inode) result }
    ensures opened { IfOk result (IsOpened bytes.now wanted inode) }
{
    let mut last = LastRead::NONE;
    match record(bytes, &at, inode, &mut last) {
        Ok(it) => open_record(bytes, at, wanted, inode, it),
        Err(bad) => Err(Unread::BadPage(bad)),
    }
}

// The same with the record of the inode.
fn open_record(
    bytes: &[u8],
    at: SuperBlock,
    wanted: Wanted,
    inode: u32,
    record: Record,
) -> Result<Opened, Unread>
    requires { KnowsInode (disk_of bytes.now) at inode «record» }
    ensures unread { IsAnswered bytes.now (agreed_unread wanted (image_of bytes.now) inode) result }
    ensures opened { IfOk result (IsOpened bytes.now wanted inode) }
{
    match is_agreed(bytes, &at, inode) {
        Ok(agreed) => {
            if agreed {
                open_agreed(bytes, at, wanted, inode, record)
            } else {
                Err(Unread::NoInode)
            }
        }
        Err(bad) => Err(Unread::BadPage(bad)),
    }
}

// The same where it is agreed.
fn open_agreed(
    bytes: &[u8],
    at: SuperBlock,
    wanted: Wanted,
    inode: u32,
    record: Record,
) -> Result<Opened, Unread>
    requires known { KnowsInode (disk_of bytes.now) at inode «record» }
    requires agreed { agreed (files_in (image_of bytes.now)) inode ≡ true }
    ensures unread { IsAnswered bytes.now (agreed_unread wanted (image_of bytes.now) inode) result }
    ensures opened { IfOk result (IsOpened bytes.now wanted inode) }
{
    match wanted_kind(wanted, record.kind) {
        Ok(kind) => Ok(Opened {
            at,
            inode,
            record,
            kind,
        }),
        Err(why) => Err(why),
    }
}

// The kind of a record that is wanted.
fn wanted_kind(wanted: Wanted, kind: Option<FileKind>) -> Result<FileKind, Unread>
    ensures unread { IsUnwanted (kind_unread wanted kind) result }
    ensures kind { IfOk result (λ it. kind ≡ Some it) }
{
    match kind {
        None => Err(Unread::NoInode),
        Some(kind) => wanted_live(wanted, kind),
    }
}

fn wanted_live(wanted: Wanted, kind: FileKind) -> Result<FileKind, Unread>
    ensures unread { IsUnwanted (live_unread wanted kind) result }
    ensures kind { IfOk result (λ it. kind ≡ it) }
{
    match wanted {
        Wanted::Any => Ok(kind),
        Wanted::Files => match kind {
            FileKind::File => Ok(kind),
            FileKind::Directory => Err(Unread::IsDirectory),
        },
        Wanted::Directories => match kind {
            FileKind::File => Err(Unread::NotDirectory),
            FileKind::Directory => Ok(kind),
        },
    }
}

/// What stands in the slot at a place of an inode. Where it holds, its block is the one that was read last.
pub(crate) fn slot(
    bytes: &[u8],
    it: &Opened,
    place: Place,
    last: &mut LastRead,
) -> Result<PathAnswer, BadPage>
    requires known { IsKnown bytes.now it.now }
    requires place { IsPlace place }
    requires last { IsLast (disk_of bytes.now) last.old }
    ensures found { IfOk result (λ found. found ≡ slots.find (image_of bytes.now) it.now.inode (place_path place)) }
    ensures cell { IfOk result (λ found. IsCellOf (image_of bytes.now) found last.new.cell) }
    ensures last { OnOk result (IsLast (disk_of bytes.now) last.new) }
    ensures bad { IfErr result (IsBadPage bytes.now) }
{
    let mut disk = ImageDisk::over(bytes);
    match find_slot(&mut disk, &it.at, it.inode, &it.record, place, last) {
        Ok(found) => Ok(found),
        Err(_) => Err(disk.bad_page(bytes)),
    }
}
