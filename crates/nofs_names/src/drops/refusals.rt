//! Whether what a name finds may go.
ghost use Rattle.nofs_agree.specs.Reads.{IsLast};
ghost use Rattle.nofs_names.specs.Searches.Slots.{KnowsPaired};
ghost use Rattle.nofs_names.specs.Drops.Answers.{FindsEmpty};

use crate::drops::emptiness::has_names;
use crate::searches::inodes::ReadInode;
use crate::searches::slots::Paired;
use nofs_agree::LastRead;
use nofs_disk::Disk;
use nofs_history::Refusal;
use nofs_inode::FileKind;
use nofs_super::SuperBlock;

/// Lets go what was found, where it is a file or a directory with no name of a file.
///
/// # Errors
///
/// `NotEmpty` where a directory has a name of a file, and `ReadFault` where a read failed.
pub(crate) fn refuse_filled<D: Disk>(
    disk: &mut D,
    at: &SuperBlock,
    found: &Paired,
    names: &mut LastRead,
    records: &mut LastRead,
) -> Result<(), Refusal>
    requires known { KnowsPaired (D.state disk.old) at.now found.now }
    requires names { IsLast (D.state disk.old) names.old }
    requires last { IsLast (D.state disk.old) records.old }
    ensures { FindsEmpty (D.state disk.old) (D.state disk.new) found.now.inode result }
{
    match found.kind {
        FileKind::File => Ok(()),
        FileKind::Directory => {
            let directory = ReadInode {
                at: *at,
                inode: found.inode,
                record: found.record,
            };
            match has_names(disk, &directory, names, records) {
                Ok(true) => Err(Refusal::NotEmpty),
                Ok(false) => Ok(()),
                Err(_) => Err(Refusal::ReadFault),
            }
        }
    }
}
