//! Whether a directory has a name of a file.
ghost use Rattle.std.specs.Prelude.{◌≡◌, ◌+◌, ◌*◌, ◌<◌, IsTrue, OnOk};
ghost use Rattle.nofs_dirent.specs.Entries.{entry_limit};
ghost use Rattle.nofs_model.specs.Slots.{value};
ghost use Rattle.nofs_model.specs.declared.image.value.Value.TheVariants.{Bytes};
ghost use Rattle.nofs_agree.specs.Reads.{IsAt, IsLast};
ghost use Rattle.nofs_names.specs.Searches.Inodes.{KnowsFolder};
ghost use Rattle.nofs_names.specs.Drops.Emptiness.{NamesOn, TellsPair};

use crate::searches::entries::named_at;
use crate::searches::inodes::ReadInode;
use crate::searches::pair_tests::paired_kind;
use nofs_agree::{LastRead, read_inode};
use nofs_disk::{Disk, Failed};
use nofs_inode::BackLink;
use nofs_model::PathAnswer;
use nofs_super::SuperBlock;

/// Whether some entry of a directory is a pair.
pub(crate) fn has_names<D: Disk>(
    disk: &mut D,
    directory: &ReadInode,
    names: &mut LastRead,
    records: &mut LastRead,
) -> Result<bool, Failed>
    requires names { IsLast (D.state disk.old) names.old }
    requires directory { KnowsFolder (D.state disk.old) directory.now }
    requires last { IsLast (D.state disk.old) records.old }
    ensures search { NamesOn (D.state disk.old)
        (D.state disk.new) directory.now.inode 0 entry_limit records.new result }
{
    for slot in 0..72 {
        if slot_has_names(disk, directory, slot, names, records)? {
            return Ok(true);
        }
    }
    Ok(false)
}

fn slot_has_names<D: Disk>(
    disk: &mut D,
    directory: &ReadInode,
    slot: u32,
    names: &mut LastRead,
    records: &mut LastRead,
) -> Result<bool, Failed>
    requires directory { KnowsFolder (D.state disk.old) directory.now }
    requires slot { slot < 72 }
    requires names { IsLast (D.state disk.old) names.old }
    requires last { IsLast (D.state disk.old) records.old }
    ensures search { NamesOn (D.state disk.old) (D.state disk.new) directory.now.inode (16 * slot)
        (16 * (slot + 1)) records.new result }
    ensures kept { OnOk result (IsLast (D.state disk.new) names.new) }
{
    match directory.find(disk, slot, names)? {
        PathAnswer::Hole => Ok(false),
        PathAnswer::Lost => Ok(false),
        PathAnswer::Holds(_) => cell_has_names(disk, directory, &names.cell.payload, slot, records),
    }
}

fn cell_has_names<D: Disk>(
    disk: &mut D,
    directory: &ReadInode,
    payload: &[u8; 1024],
    slot: u32,
    records: &mut LastRead,
) -> Result<bool, Failed>
    requires directory { KnowsFolder (D.state disk.old) directory.now }
    requires slot { slot < 72 }
    requires cell { IsTrue (D.state disk.old).tells
        → value (D.state disk.old).now directory.now.inode slot ≡ Bytes payload.now }
    requires last { IsLast (D.state disk.old) records.old }
    ensures { NamesOn (D.state disk.old) (D.state disk.new) directory.now.inode (16 * slot)
        (16 * (slot + 1)) records.new result }
{
    for place in 0..16 {
        let link = BackLink {
            directory: directory.inode,
            entry: 16 * slot + place,
            generation: directory.record.generation,
        };
        if is_paired(disk, &directory.at, payload, place, &link, records)? {
            return Ok(true);
        }
    }
    Ok(false)
}

fn is_paired<D: Disk>(
    disk: &mut D,
    at: &SuperBlock,
    payload: &[u8; 1024],
    place: u32,
    link: &BackLink,
    records: &mut LastRead,
) -> Result<bool, Failed>
    requires numbers { IsAt (D.state disk.old) at.now }
    requires place { place < 16 }
    requires last { IsLast (D.state disk.old) records.old }
    ensures { TellsPair (D.state disk.old) (D.state disk.new) link.now payload.now place records.new result }
{
    match named_at(payload, place) {
        None => Ok(false),
        Some(named) => {
            let record = read_inode(disk, at, named.inode, records)?;
            Ok(paired_kind(&record, named, link).is_some())
        }
    }
}
