//! What an inode is.
ghost use Rattle.std.specs.Prelude.{◌≡◌, IfErr, IfOk, count_by};
ghost use Rattle.nofs_agree.specs.Chain.{is_agreed_link};
ghost use Rattle.nofs_model.specs.Files.{files_in};
ghost use Rattle.nofs_reader.specs.Answers.{IsAnswered, IsKnown, IsStat, any_unread};
ghost use Rattle.nofs_reader.specs.Image.{image_of};
ghost use Rattle.nofs_reader.specs.Layouts.{IsBadPage};

use crate::chain::is_agreed_link;
use crate::layout::BadPage;
use crate::opened::{Opened, Unread, Wanted, open};
use nofs_inode::FileKind;

/// A file or directory.
#[derive(Clone, Copy, Debug, PartialEq, Eq)]
pub struct InodeStat {
    pub kind: FileKind,
    pub generation: u64,
    /// In bytes, at most 4,268,032. A directory has 0.
    pub size: u64,
    /// How many of its names lead to it: from 0, of the root and the label file, to 4.
    pub links: u32,
}

/// The kind, generation, size and number of names of an agreed inode.
///
/// # Errors
///
/// `NoImage` with the first fault of the superblock; `NoInode` where no inode of this number is agreed; `BadPage` where
/// a page can't be told that shows this, or how many names there are.
pub fn stat(bytes: &[u8], inode: u32) -> Result<InodeStat, Unread>
    ensures unread { IsAnswered bytes.now (any_unread (image_of bytes.now) inode) result }
    ensures stat { IfOk result (IsStat (image_of bytes.now) inode) }
{
    match open(bytes, Wanted::Any, inode) {
        Ok(it) => match count_links(bytes, &it) {
            Ok(links) => Ok(InodeStat {
                kind: it.kind,
                generation: it.record.generation,
                size: it.record.size,
                links,
            }),
            Err(bad) => Err(Unread::BadPage(bad)),
        },
        Err(why) => Err(why),
    }
}

// How many back links of an inode are pairs with agreed directories.
fn count_links(bytes: &[u8], it: &Opened) -> Result<u32, BadPage>
    requires { IsKnown bytes.now it.now }
    ensures links { IfOk result (λ links. links
        ≡ count_by (λ link. is_agreed_link (files_in (image_of bytes.now)) it.now.inode link) it.now.record.links) }
    ensures bad { IfErr result (IsBadPage bytes.now) }
{
    let mut links = 0;
    for place in 0..4 {
        links += u32::from(is_agreed_link(bytes, it, &it.record.links[place])?);
    }
    Ok(links)
}
