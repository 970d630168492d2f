//! Whether an inode keeps a name.
ghost use Rattle.std.specs.Prelude.{◌≡◌, ◌||◌, length};
ghost use Rattle.std.specs.List.{list_any};
ghost use Rattle.nofs_model.specs.Files as files;
ghost use Rattle.nofs_agree.specs.Chain.{TellsAgreed, is_agreed_link};
ghost use Rattle.nofs_agree.specs.Reads.{IsLast};
ghost use Rattle.nofs_names.specs.Searches.Inodes.{Knows};
ghost use Rattle.nofs_names.specs.Drops.OtherNames.{TellsKept};

use crate::searches::inodes::ReadInode;
use nofs_agree::{Known, LastRead, is_agreed_link};
use nofs_disk::{Disk, Failed};
use nofs_inode::BackLink;

/// Whether an inode stays with these links: it is the root or the label file, or one of them is a
/// pair with an agreed directory.
pub(crate) fn keeps_name<D: Disk>(
    disk: &mut D,
    it: &ReadInode,
    known: &Known,
    links: &[BackLink; 4],
    last: &mut LastRead,
) -> Result<bool, Failed>
    requires record { Knows (D.state disk.old) it.now }
    requires known { length known.now ≡ it.now.at.inodes }
    requires last { IsLast (D.state disk.old) last.old }
    ensures { TellsKept (D.state disk.old) (D.state disk.new) known.now it.now.inode links.now last.new result }
{
    if it.inode == 1 || it.inode == 2 {
        return Ok(true);
    }
    has_agreed_link(disk, it, links, known, last)
}

fn has_agreed_link<D: Disk>(
    disk: &mut D,
    it: &ReadInode,
    links: &[BackLink; 4],
    known: &Known,
    last: &mut LastRead,
) -> Result<bool, Failed>
    requires last { IsLast (D.state disk.old) last.old }
    requires record { Knows (D.state disk.old) it.now }
    requires known { length known.now ≡ it.now.at.inodes }
    ensures { TellsAgreed (D.state disk.old) (D.state disk.new) known.now
        (λ X. list_any (is_agreed_link (files.files_in X) it.now.inode) links.now) last.new result }
{
    for place in 0..4 {
        if is_agreed_link(
            disk,
            &it.at,
            known,
            it.inode,
            &it.record,
            &links[place],
            last,
        )? {
            return Ok(true);
        }
    }
    Ok(false)
}
