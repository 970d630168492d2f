//! An entry in a cell.
ghost use Rattle.std.specs.Prelude.{◌≡◌, ◌*◌, ◌/◌, ◌<◌, length, OnOk};
ghost use Rattle.nofs_disk.specs.Number.{put_bytes};
ghost use Rattle.nofs_dirent.specs.Entries.{HasEntrySpelling, entry_limit, entry_with, spelled_entry};
ghost use Rattle.nofs_dirent.specs.EntryLaws.{Spells};
ghost use Rattle.nofs_agree.specs.Reads.{IsLast};
ghost use Rattle.nofs_names.specs.Searches.Inodes.{Knows};
ghost use Rattle.nofs_names.specs.Renames.Parts.{HoldsSlot, IsSlotHeld};

use crate::searches::inodes::ReadInode;
use crate::searches::slots::Paired;
use nofs_agree::LastRead;
use nofs_dirent::{Entry, Name, write_entry};
use nofs_disk::{Disk, Pointer};
use nofs_history::Refusal;
use nofs_model::PathAnswer;
use std::alloc::{AllocError, Global};

/// Writes an entry at a place of a directory's cell.
pub(crate) fn put_entry(
    alloc: Global,
    payload: &mut [u8; 1024],
    place: u32,
    inode: u32,
    generation: u64,
    name: &[u8],
) -> Result<(), AllocError>
    requires place { place < 16 }
    requires spelling { HasEntrySpelling (entry_with inode generation name.now) }
    ensures whole { length payload.old ≡ 1024 }
    ensures spells { Spells (spelled_entry inode generation name.now) (entry_with inode generation name.now) }
    ensures put { OnOk result
        (payload.new ≡ put_bytes (64 * place) (spelled_entry inode generation name.now) payload.old) }
{
    let entry = Entry {
        inode,
        generation,
        name: Name::from_slice(alloc, name)?,
    };
    write_entry(payload, place, &entry);
    Ok(())
}

/// The block of the slot of an entry, which holds. It is the one that was read last.
///
/// # Errors
///
/// `ReadFault` where a read failed. Where the disk tells, the slot must hold; where it does not, it
/// may answer `LostSlot`.
pub(crate) fn hold_entry<D: Disk>(
    disk: &mut D,
    directory: &ReadInode,
    found: &Paired,
    names: &mut LastRead,
) -> Result<Pointer, Refusal>
    requires range { found.now.entry < entry_limit }
    requires known { Knows (D.state disk.old) directory.now }
    requires last { IsLast (D.state disk.old) names.old }
    ensures { HoldsSlot (D.state disk.old) (D.state disk.new) directory.now.at directory.now.inode
        (found.now.entry / 16) names.new result }
{
    let slot = found.entry / 16;
    match directory.find(disk, slot, names) {
        Err(_) => Err(Refusal::ReadFault),
        Ok(answer) => held(answer, slot),
    }
}

fn held(answer: PathAnswer, slot: u32) -> Result<Pointer, Refusal>
    ensures { IsSlotHeld slot answer result }
{
    match answer {
        PathAnswer::Holds(pointer) => Ok(pointer),
        PathAnswer::Hole => Err(Refusal::LostSlot {
            slot: u64::from(slot),
        }),
        PathAnswer::Lost => Err(Refusal::LostSlot {
            slot: u64::from(slot),
        }),
    }
}
