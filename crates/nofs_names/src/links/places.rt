//! The place of a file for one more back link, and why there is none.

ghost use Rattle.std.specs.Prelude.{◌≡◌, ◌<◌, IfSome, length};
ghost use Rattle.nofs_inode.specs.InodeRecords.{is_empty_link};
ghost use Rattle.nofs_history.specs.Machine as machine;
ghost use Rattle.nofs_agree.specs.Reads.{IsLast};
ghost use Rattle.nofs_names.specs.Searches.Inodes.{Knows};
ghost use Rattle.nofs_names.specs.Links.{FindsLinkPlace, TellsDeadPlace, place_or_many};

use crate::searches::inodes::ReadInode;
use nofs_agree::{Known, LastRead, is_agreed_link};
use nofs_disk::{Disk, Failed};
use nofs_history::Refusal;
use nofs_inode::BackLink;

// The place of a new back link: the first one that is empty, or else the first one that is no pair
// with an agreed directory.
pub(crate) fn link_place<D: Disk>(
    disk: &mut D,
    it: &ReadInode,
    known: &Known,
    last: &mut LastRead,
) -> Result<u32, Refusal>
    requires record { Knows (D.state disk.old) it.now }
    requires known { length known.now ≡ it.now.at.inodes }
    requires last { IsLast (D.state disk.old) last.old }
    ensures { FindsLinkPlace (D.state disk.old) (D.state disk.new) known.now it.now.inode last.new result }
{
    if it.inode == 2 {
        return Err(Refusal::TooManyLinks);
    }
    match empty_place(&it.record.links) {
        Some(place) => Ok(place),
        None => match dead_place(disk, it, known, last) {
            Ok(place) => place_or_full(place),
            Err(_) => Err(Refusal::ReadFault),
        },
    }
}

fn place_or_full(place: Option<u32>) -> Result<u32, Refusal>
    ensures { result ≡ place_or_many place }
{
    match place {
        Some(place) => Ok(place),
        None => Err(Refusal::TooManyLinks),
    }
}

fn empty_place(links: &[BackLink; 4]) -> Option<u32>
    ensures place { result ≡ machine.place_for_link is_empty_link links.now 0 }
    ensures range { IfSome result (λ b. b < 4) }
{
    if is_empty(&links[0]) {
        return Some(0);
    }
    if is_empty(&links[1]) {
        return Some(1);
    }
    if is_empty(&links[2]) {
        return Some(2);
    }
    if is_empty(&links[3]) {
        return Some(3);
    }
    None
}

fn is_empty(link: &BackLink) -> bool
    ensures { result ≡ is_empty_link link.now }
{
    link.directory == 0
}

fn dead_place<D: Disk>(
    disk: &mut D,
    it: &ReadInode,
    known: &Known,
    last: &mut LastRead,
) -> Result<Option<u32>, Failed>
    requires record { Knows (D.state disk.old) it.now }
    requires known { length known.now ≡ it.now.at.inodes }
    requires last { IsLast (D.state disk.old) last.old }
    ensures { TellsDeadPlace (D.state disk.old)
        (D.state disk.new) known.now it.now.inode it.now.record last.new result }
{
    for place in 0..4 {
        let link = it.record.links[place];
        if !is_agreed_link(disk, &it.at, known, it.inode, &it.record, &link, last)? {
            return Ok(Some(place as u32));
        }
    }
    Ok(None)
}
