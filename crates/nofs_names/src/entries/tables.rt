//! The cells of the inode table: a record in its cell, and the writes of two records.
ghost use Rattle.std.specs.Prelude.{◌≡◌, ◌+◌, ◌-◌, ◌/◌, ◌≤◌, ◌<◌, ◌∷◌};
ghost use Rattle.nofs_inode.specs.InodeRecords.{HasRecordSpelling};
ghost use Rattle.nofs_model.specs.Geometry.{in_one_table_cell};
ghost use Rattle.nofs_state.specs.Writes.Cells.{Stores};
ghost use Rattle.nofs_names.specs.Entries.Tables.{IsTable, table_block};
ghost use Rattle.nofs_names.specs.Entries.Writes.{table_writes};

use crate::entries::writes::Tables;
use nofs_disk::{Cell, Disk, Kind, Tag, write_tag};
use nofs_history::Refusal;
use nofs_inode::{Record, write_record};
use nofs_state::{Core, table_block, write_four, write_three, write_two};

/// Puts a record into the cell of the inode table, with the tag of that cell.
pub(crate) fn with_record(table: &mut Cell, inode: u32, it: &Record)
    requires inode { 1 ≤ inode }
    requires spelling { HasRecordSpelling it.now }
    ensures { IsTable table.old inode it.now table.new }
{
    let tag = Tag {
        kind: Kind::Table,
        inode: 0,
        generation: 0,
        slot: table_block(inode),
        stamp: 0,
    };
    write_tag(&tag, &mut table.tag);
    write_record(&mut table.payload, (inode - 1) % 4, it);
}

// Whether the records of two inodes stand in one cell of the table.
fn in_one_cell(inode: u32, other: u32) -> bool
    requires inode { 1 ≤ inode }
    requires other { 1 ≤ other }
    ensures { result ≡ in_one_table_cell inode other }
{
    (inode - 1) / 4 == (other - 1) / 4
}

/// Writes a cell, and the cells of the table with the records of a directory and of an inode: one where both lie in it.
///
/// # Errors
///
/// `WriteFault` where a write failed: each of them may be written or not.
pub(crate) fn write_with_tables<D: Disk + Drop>(
    core: &mut Core<D>,
    block: u64,
    cell: &Cell,
    directory: u32,
    inode: u32,
    after: &Tables,
) -> Result<(), Refusal>
    requires directory { 1 ≤ directory }
    requires inode { 1 ≤ inode }
    requires first { block < (D.state core.old.disk).blocks }
    requires second { table_block directory < (D.state core.old.disk).blocks }
    requires third { table_block inode < (D.state core.old.disk).blocks }
    requires spare { 3 ≤ (D.state core.old.disk).spare }
    ensures { Stores (D.state core.old.disk) core.old.books (D.state core.new.disk) core.new.books
        ((block, cell.now) ∷ table_writes directory inode after.now) result }
{
    let table = table_block(inode);
    if in_one_cell(directory, inode) {
        return write_two(core, block, cell, table, &after.inode);
    }
    let above = table_block(directory);
    write_three(
        core,
        block,
        cell,
        above,
        &after.directory,
        table,
        &after.inode,
    )
}

/// The same with a leaf, where one is claimed above the cell.
///
/// # Errors
///
/// `WriteFault` where a write failed: each of them may be written or not.
pub(crate) fn write_leaf_with_tables<D: Disk + Drop>(
    core: &mut Core<D>,
    block: u64,
    cell: &Cell,
    leaf: u64,
    pointers: &Cell,
    directory: u32,
    inode: u32,
    after: &Tables,
) -> Result<(), Refusal>
    requires first { block < (D.state core.old.disk).blocks }
    requires second { leaf < (D.state core.old.disk).blocks }
    requires third { table_block directory < (D.state core.old.disk).blocks }
    requires fourth { table_block inode < (D.state core.old.disk).blocks }
    requires spare { 4 ≤ (D.state core.old.disk).spare }
    requires directory { 1 ≤ directory }
    requires inode { 1 ≤ inode }
    ensures { Stores (D.state core.old.disk) core.old.books (D.state core.new.disk) core.new.books
        ((block, cell.now) ∷ (leaf, pointers.now) ∷ table_writes directory inode after.now) result }
{
    let table = table_block(inode);
    if in_one_cell(directory, inode) {
        return write_three(core, block, cell, leaf, pointers, table, &after.inode);
    }
    let (above, fourth) = (table_block(directory), &after.inode);
    write_four(
        core,
        block,
        cell,
        leaf,
        pointers,
        above,
        &after.directory,
        table,
        fourth,
    )
}
