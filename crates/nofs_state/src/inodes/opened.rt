//! The file or directory that a step names.
ghost use Rattle.std.specs.Prelude.{◌≡◌, length, IfOk, IfErr};
ghost use Rattle.nofs_agree.specs.Reads.{IsAt, IsLast};
ghost use Rattle.nofs_state.specs.Inodes.Opened.{Opens};

use crate::books::maps::Books;
use nofs_agree::{LastRead, check_chain, read_inode};
use nofs_disk::Disk;
use nofs_history::Refusal;
use nofs_inode::{FileKind, Record};

/// A file or directory that is there.
#[derive(Clone, Copy)]
pub struct Opened {
    pub found: Record,
    pub kind: FileKind,
}

/// The file or directory of this number and generation.
///
/// # Errors
///
/// `Stale` where there is none, and `ReadFault` where a read failed.
pub fn open_inode<D: Disk>(
    disk: &mut D,
    books: &Books,
    inode: u32,
    generation: u64,
    last: &mut LastRead,
) -> Result<Opened, Refusal>
    requires numbers { IsAt (D.state disk.old) books.now.at }
    requires agreed { length books.now.agreement ≡ books.now.at.inodes }
    requires last { IsLast (D.state disk.old) last.old }
    ensures { Opens (D.state disk.old) (D.state disk.new) books.now inode generation last.new result }
{
    let found = match read_inode(disk, &books.at, inode, last) {
        Ok(found) => found,
        Err(_) => return Err(Refusal::ReadFault),
    };
    if found.generation != generation {
        return Err(Refusal::Stale);
    }
    match check_chain(disk, &books.at, &books.agreement, inode) {
        Ok(true) => with_kind(found),
        Ok(false) => Err(Refusal::Stale),
        Err(_) => Err(Refusal::ReadFault),
    }
}

fn with_kind(found: Record) -> Result<Opened, Refusal>
    ensures opened { IfOk result (λ it. (it.found ≡ found) × (found.kind ≡ Some it.kind)) }
    ensures refused { IfErr result (λ why. (why ≡ Refusal.Stale) × (found.kind ≡ None)) }
{
    match found.kind {
        Some(kind) => Ok(Opened { found, kind }),
        None => Err(Refusal::Stale),
    }
}
