//! An inode goes: its record and its blocks are free.
ghost use Rattle.std.specs.Prelude.{◌≡◌, ◌≤◌, length, true};
ghost use Rattle.nofs_history.specs.declared.machine.replies.Reply.TheVariants as reply;
ghost use Rattle.nofs_agree.specs.Reads.{IsLast};
ghost use Rattle.nofs_names.specs.Drops.Removal.{BlocksOf, FreedAs, HasSizes, LosesName};
ghost use Rattle.nofs_names.specs.Renames.Parts.{done_answer};
ghost use Rattle.nofs_names.specs.Drops.Answers.{DropGoes, IsCleared};

use crate::drops::steps::Cleared;
use crate::entries::tables::with_record;
use nofs_agree::{LastRead, read_block};
use nofs_disk::Disk;
use nofs_history::Refusal;
use nofs_inode::FREE_RECORD;
use nofs_state::{Books, Core, FreedBlocks, table_block, write_two};

// Marks an inode and its blocks as known and free.
fn free_all(books: &mut Books, freed: &FreedBlocks, inode: u32)
    requires sizes { HasSizes books.old }
    requires freed { length freed.now ≡ books.old.at.blocks }
    requires above { 1 ≤ inode }
    requires below { inode ≤ books.old.at.inodes }
    ensures { FreedAs books.old books.new inode freed.now }
{
    let number = u64::from(inode) - 1;
    books.unknown_inodes.set(number, false);
    books.free_inodes.set(number, true);
    books.agreement.set(inode, None);
    books.free_blocks(freed);
}

// Writes the cell without the entry, and a free record.
pub(crate) fn remove_file<D: Disk + Drop>(
    core: &mut Core<D>,
    it: Cleared<'_>,
    freed: &FreedBlocks,
    records: &mut LastRead,
) -> Result<(), Refusal>
    requires cleared { IsCleared (D.state core.old.disk) core.old.books it }
    requires loses { LosesName (D.state core.old.disk) core.old.books it.pair.at.directory
        it.pair.at.generation it.pair.found }
    requires freed { BlocksOf (D.state core.old.disk) core.old.books.at it.pair.found.inode freed.now }
    requires last { IsLast (D.state core.old.disk) records.old }
    ensures { DropGoes (D.state core.old.disk) core.old.books (D.state core.new.disk) core.new.books it.entry.pair.at
        (done_answer (reply.Dropped true) result) }
{
    let inode = it.pair.found.inode;
    let block = table_block(inode);
    match read_block(&mut core.disk, block, records) {
        Ok(()) => {
            let mut table = records.cell;
            with_record(&mut table, inode, &FREE_RECORD);
            match write_two(core, it.pointer.block, &it.cell, block, &table) {
                Ok(()) => {
                    free_all(&mut core.books, freed, inode);
                    Ok(())
                }
                Err(why) => Err(why),
            }
        }
        Err(_) => Err(Refusal::ReadFault),
    }
}
