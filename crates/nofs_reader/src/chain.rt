//! Which inodes of an image are agreed, and which back links are pairs, by the checks of `nofs_agree` over its disk.
//!
//! Promise: each is that of the image. What one walk finds isn't kept for the next one, so none takes memory.
ghost use Rattle.std.specs.Prelude.{◌≡◌, IfErr, IfOk, IfSome, is_some};
ghost use Rattle.nofs_agree.specs.Chain.{IsPartner, is_agreed_link};
ghost use Rattle.nofs_agree.specs.Reads.{IsAt, KnowsInode};
ghost use Rattle.nofs_model.specs.Files as files;
ghost use Rattle.nofs_reader.specs.Answers.{IsKnown};
ghost use Rattle.nofs_reader.specs.Image.{disk_of, image_of};
ghost use Rattle.nofs_reader.specs.Layouts.{IsBadPage};

use crate::disk::ImageDisk;
use crate::layout::BadPage;
use crate::opened::Opened;
use nofs_agree::{Known, LastRead, check_chain, is_agreed_link as check_link, read_pair};
use nofs_inode::{BackLink, Record};
use nofs_super::SuperBlock;

/// Whether an inode is agreed.
pub(crate) fn is_agreed(bytes: &[u8], at: &SuperBlock, inode: u32) -> Result<bool, BadPage>
    requires { IsAt (disk_of bytes.now) at.now }
    ensures agreed { IfOk result (λ is. is ≡ files.agreed (files.files_in (image_of bytes.now)) inode) }
    ensures bad { IfErr result (IsBadPage bytes.now) }
{
    let mut disk = ImageDisk::over(bytes);
    match check_chain(&mut disk, at, &Known::NONE, inode) {
        Ok(agreed) => Ok(agreed),
        Err(_) => Err(disk.bad_page(bytes)),
    }
}

/// Whether a back link of an inode is a pair with an agreed directory.
pub(crate) fn is_agreed_link(bytes: &[u8], it: &Opened, link: &BackLink) -> Result<bool, BadPage>
    requires { IsKnown bytes.now it.now }
    ensures agreed { IfOk result
        (λ is. is ≡ is_agreed_link (files.files_in (image_of bytes.now)) it.now.inode link.now) }
    ensures bad { IfErr result (IsBadPage bytes.now) }
{
    let mut disk = ImageDisk::over(bytes);
    let mut last = LastRead::NONE;
    match check_link(
        &mut disk,
        &it.at,
        &Known::NONE,
        it.inode,
        &it.record,
        link,
        &mut last,
    ) {
        Ok(agreed) => Ok(agreed),
        Err(_) => Err(disk.bad_page(bytes)),
    }
}

/// The record of the directory to which a back link of an inode leads, where the link is a pair.
pub(crate) fn partner(
    bytes: &[u8],
    at: &SuperBlock,
    inode: u32,
    it: &Record,
    link: &BackLink,
) -> Result<Option<Record>, BadPage>
    requires { KnowsInode (disk_of bytes.now) at.now inode it.now }
    ensures pair { IfOk result
        (λ found. is_some found ≡ files.is_pair (files.files_in (image_of bytes.now)) inode link.now) }
    ensures directory { IfOk result
        (λ found. IfSome found (IsPartner (disk_of bytes.now) at.now it.now link.now)) }
    ensures bad { IfErr result (IsBadPage bytes.now) }
{
    let mut disk = ImageDisk::over(bytes);
    let mut last = LastRead::NONE;
    match read_pair(&mut disk, at, inode, it, link, &mut last) {
        Ok(directory) => Ok(directory),
        Err(_) => Err(disk.bad_page(bytes)),
    }
}

/// Whether a back link of an inode is a pair.
pub(crate) fn is_pair(
    bytes: &[u8],
    at: &SuperBlock,
    inode: u32,
    it: &Record,
    link: &BackLink,
) -> Result<bool, BadPage>
    requires { KnowsInode (disk_of bytes.now) at.now inode it.now }
    ensures pair { IfOk result (λ is. is ≡ files.is_pair (files.files_in (image_of bytes.now)) inode link.now) }
    ensures bad { IfErr result (IsBadPage bytes.now) }
{
    match partner(bytes, at, inode, it, link) {
        Ok(found) => Ok(found.is_some()),
        Err(bad) => Err(bad),
    }
}
