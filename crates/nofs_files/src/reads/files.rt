//! The file that a step names, and its slots.
ghost use Rattle.std.specs.Prelude.{◌≡◌, ◌<◌, ◌≤◌, Some, length};
ghost use Rattle.nofs_ptrs.specs.Paths.{slot_limit};
ghost use Rattle.nofs_inode.specs.InodeRecords.{HasRecordSpelling, largest_size};
ghost use Rattle.nofs_ptrs.specs.Paths as paths;
ghost use Rattle.nofs_model.specs.Slots as slots;
ghost use Rattle.nofs_model.specs.Files.{is_folder};
ghost use Rattle.nofs_agree.specs.Reads.{IsLast, KnowsInode};
ghost use Rattle.nofs_agree.specs.Path.{FindsSlot};
ghost use Rattle.nofs_state.specs.Books.Maps.{IsSafe};
ghost use Rattle.nofs_files.specs.Reads.{OpensFile, slots_of};

use nofs_agree::{LastRead, PathAnswer, find_slot};
use nofs_disk::{Disk, Failed};
use nofs_history::Refusal;
use nofs_inode::{FileKind, Record};
use nofs_model::place_of;
use nofs_ptrs::SLOT_LIMIT;
use nofs_state::{Books, open_inode};
use nofs_super::SuperBlock;

/// How many slots a file can have.
pub(crate) fn slots_of(at: &SuperBlock) -> u64
    ensures { result ≡ slots_of at.now }
{
    if at.version == 1 { 72 } else { SLOT_LIMIT }
}

fn is_folder(kind: FileKind) -> bool
    ensures { result ≡ is_folder kind }
{
    match kind {
        FileKind::Directory => true,
        FileKind::File => false,
    }
}

/// The record of the file of this number and generation.
///
/// # Errors
///
/// `Stale` where there is none, `IsDirectory` where it is a directory, and `ReadFault` where a read
/// failed.
pub(crate) fn open_file<D: Disk>(
    disk: &mut D,
    books: &Books,
    inode: u32,
    generation: u64,
    last: &mut LastRead,
) -> Result<Record, Refusal>
    requires safe { IsSafe (D.state disk.old) books.now }
    requires last { IsLast (D.state disk.old) last.old }
    ensures { OpensFile (D.state disk.old) (D.state disk.new) books.now inode generation last.new result }
{
    match open_inode(disk, books, inode, generation, last) {
        Err(why) => Err(why),
        Ok(it) => {
            if is_folder(it.kind) {
                return Err(Refusal::IsDirectory);
            }
            Ok(it.found)
        }
    }
}

/// Says for proofs what is known of a file's record. It does nothing.
pub(crate) fn note_file(it: &Record)
    requires spelled { HasRecordSpelling it.now }
    requires kind { it.now.kind ≡ Some FileKind.File }
    ensures size { it.now.size ≤ largest_size }
    ensures eight { length it.now.direct ≡ 8 }
{
    let _ = it.direct[0];
}

/// What stands in a slot of content. Where it holds, its block is the one that was read last.
pub(crate) fn find_content<D: Disk>(
    disk: &mut D,
    last: &mut LastRead,
    at: &SuperBlock,
    inode: u32,
    it: &Record,
    slot: u64,
) -> Result<PathAnswer, Failed>
    requires known { KnowsInode (D.state disk.old) at.now inode it.now }
    requires slot { slot < slot_limit }
    requires last { IsLast (D.state disk.old) last.old }
    ensures { FindsSlot (D.state disk.old) (D.state disk.new) at.now
        (λ X. slots.find X inode (paths.path_of slot)) last.new result }
{
    find_slot(disk, at, inode, it, place_of(slot), last)
}
