//! The cells that a Put writes, and the Put into a slot that has its block.
ghost use Rattle.std.specs.Prelude.{◌≡◌, ℕ, ◌+◌, ◌*◌, ◌-◌, ◌/◌, ◌<◌, ◌≤◌, Err, length, IsTrue};
ghost use Rattle.nofs_disk.specs.Disk.{cell_at};
ghost use Rattle.nofs_disk.specs.Number.{zeros};
ghost use Rattle.nofs_ptrs.specs.Paths as paths;
ghost use Rattle.nofs_ptrs.specs.Paths.{slot_limit};
ghost use Rattle.nofs_inode.specs.InodeRecords.{HasRecordSpelling};
ghost use Rattle.nofs_model.specs.Places.{IsPlace, place_path};
ghost use Rattle.nofs_agree.specs.Reads.{IsLast};
ghost use Rattle.nofs_crashlaw.specs.Numbers.Cells.{table_tag};
ghost use Rattle.nofs_state.specs.Writes.Premises.{RowsPass};
ghost use Rattle.nofs_files.specs.Puts.{HeldAt, IsContent, IsRecordCell, MayPut, OnePointer, PutGoes, ReadsTable};
ghost use Rattle.nofs_files.specs.Puts.{size_after, sized, step_of_put};

use crate::puts::content::put_content;
use crate::puts::put::Put;
use nofs_agree::{LastRead, read_block};
use nofs_disk::{Cell, Disk, Kind, Pointer, Tag, write_bytes_at, write_tag};
use nofs_history::{NO_CLAIMS, Refusal};
use nofs_inode::{Record, write_record};
use nofs_model::{Place, slot_number};
use nofs_ptrs::write_pointer;
use nofs_state::{Core, Ended, refused, table_block, write_two};

/// The file's size after a Put.
pub(crate) fn size_after(put: &Put<'_>, size: u64) -> u64
    requires slot { put.now.slot < slot_limit }
    requires range { put.now.at + length put.now.bytes.now ≤ 1024 }
    ensures { result ≡ size_after put.now size }
{
    size.max(1024 * put.slot + u64::from(put.at) + put.bytes.len() as u64)
}

/// The record with another size.
pub(crate) fn sized(it: &Record, size: u64) -> Record
    ensures { result ≡ sized it.now size }
{
    Record { size, ..*it }
}

// The tag of a block of the inode table.
fn table_tag(block: u64) -> Tag
    ensures { result ≡ table_tag block }
{
    Tag {
        kind: Kind::Table,
        inode: 0,
        generation: 0,
        slot: block,
        stamp: 0,
    }
}

/// Reads the cell of the inode table where a record stands.
pub(crate) fn read_table<D: Disk>(
    disk: &mut D,
    inode: u32,
    last: &mut LastRead,
) -> Result<(), Refusal>
    requires inode { 1 ≤ inode }
    requires there { 1 + (inode - 1) / 4 < (D.state disk.old).blocks }
    requires last { IsLast (D.state disk.old) last.old }
    ensures { ReadsTable (D.state disk.old) (D.state disk.new) inode last.new result }
{
    match read_block(disk, table_block(inode), last) {
        Ok(()) => Ok(()),
        Err(_) => Err(Refusal::ReadFault),
    }
}

/// Puts another record into a cell of the inode table, and its tag.
pub(crate) fn put_record(table: &mut Cell, inode: u32, it: &Record)
    requires inode { 1 ≤ inode }
    requires spelling { HasRecordSpelling it.now }
    ensures { IsRecordCell table.old inode it.now table.new }
{
    write_tag(&table_tag(table_block(inode)), &mut table.tag);
    write_record(&mut table.payload, (inode - 1) % 4, it);
}

/// A cell of zeros, to be filled.
#[tactic(auto, unfolding(nofs_disk::specs::Number::zeros))]
pub(crate) fn zero_cell() -> Cell
    ensures { result.payload ≡ zeros 1024 }
{
    Cell::ZERO
}

/// Fills the cell of a slot that had no bytes, in a block with this stamp.
pub(crate) fn fill_content(put: &Put<'_>, stamp: u64, cell: &mut Cell)
    requires slot { put.now.slot < slot_limit }
    requires range { put.now.at + length put.now.bytes.now ≤ 1024 }
    requires zeros { cell.old.payload ≡ zeros 1024 }
    ensures { (size : ℕ) → IsContent put.now size stamp cell.new }
{
    let owner = Tag {
        kind: Kind::Content,
        inode: put.inode,
        generation: put.generation,
        slot: put.slot,
        stamp,
    };
    write_tag(&owner, &mut cell.tag);
    write_bytes_at(&mut cell.payload, put.at as usize, put.bytes);
}

/// Fills the cell of a new block of pointers that has one pointer, in a block with this stamp.
pub(crate) fn fill_pointers(
    put: &Put<'_>,
    above: Place,
    stamp: u64,
    place: u32,
    it: Pointer,
    cell: &mut Cell,
)
    requires above { IsPlace above }
    requires place { place < 64 }
    requires zeros { cell.old.payload ≡ zeros 1024 }
    ensures { OnePointer put.now.inode put.now.generation (place_path above) place it stamp cell.new }
{
    let owner = Tag {
        kind: Kind::Leaf,
        inode: put.inode,
        generation: put.generation,
        slot: slot_number(above),
        stamp,
    };
    write_tag(&owner, &mut cell.tag);
    write_pointer(&mut cell.payload, place, it);
}

/// Puts bytes into a slot that holds. Its block was read last.
pub(crate) fn put_in_place<D: Disk + Drop>(
    core: &mut Core<D>,
    put: &Put<'_>,
    it: &Record,
    pointer: Pointer,
    last: &mut LastRead,
) -> Ended
    requires may { MayPut (D.state core.old.disk) core.old.books put.now it.now last.old 2 }
    requires slot { put.now.slot < slot_limit }
    requires held { HeldAt (D.state core.old.disk) core.old.books put.now.inode (paths.path_of put.now.slot) pointer }
    requires cell { IsTrue (D.state core.old.disk).tells
        → last.old.cell ≡ cell_at (D.state core.old.disk).now pointer.block }
    requires rows { RowsPass (D.state core.old.disk) core.old.books (step_of_put put.now) }
    ensures { PutGoes (D.state core.old.disk) core.old.books (D.state core.new.disk) core.new.books put.now result }
{
    let mut cell = last.cell;
    put_content(
        &mut cell.payload,
        it.size,
        put.slot,
        put.at as usize,
        put.bytes,
    );
    match read_table(&mut core.disk, put.inode, last) {
        Ok(()) => {}
        Err(why) => return refused(why),
    }
    put_record(
        &mut last.cell,
        put.inode,
        &sized(it, size_after(put, it.size)),
    );
    Ended {
        claims: NO_CLAIMS,
        result: write_two(
            core,
            pointer.block,
            &cell,
            table_block(put.inode),
            &last.cell,
        ),
    }
}
