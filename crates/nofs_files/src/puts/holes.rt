//! A Put into a slot that is a hole: a block is claimed for it, and the blocks of pointers above it that are missing.
ghost use Rattle.std.specs.Prelude.{◌≡◌, ◌<◌, length};
ghost use Rattle.nofs_ptrs.specs.Paths as paths;
ghost use Rattle.nofs_model.specs.Places.{place_path};
ghost use Rattle.nofs_files.specs.Puts.{HeldAt, IsEmptySlot, IsFar, IsHole, IsUnder, MayPut, PutGoes, RowsLead};
ghost use Rattle.nofs_files.specs.Puts.{pointed, rooted, step_of_put};

use crate::puts::cells::{
    fill_content, fill_pointers, put_record, read_table, size_after, sized, zero_cell,
};
use crate::puts::claims::{claim_one, claim_three, claim_two, one_block, three_blocks, two_blocks};
use crate::puts::put::Put;
use nofs_agree::{LastRead, read_block};
use nofs_disk::{Disk, Pointer};
use nofs_history::Refusal;
use nofs_inode::Record;
use nofs_model::Place;
use nofs_ptrs::write_pointer;
use nofs_state::{Core, Ended, refused, table_block, write_four, write_three, write_two};

// The record with another size and another direct pointer.
fn pointed(it: &Record, size: u64, slot: u64, pointer: Pointer) -> Record
    requires slot { slot < 8 }
    requires eight { length it.now.direct ≡ 8 }
    ensures { result ≡ pointed it.now size slot pointer }
{
    let mut direct = it.direct;
    direct[slot as usize] = pointer;
    Record {
        size,
        direct,
        ..*it
    }
}

// Puts bytes into a direct slot that has no block.
pub(crate) fn put_in_hole<D: Disk + Drop>(
    core: &mut Core<D>,
    put: &Put<'_>,
    it: &Record,
    last: &mut LastRead,
) -> Ended
    requires direct { put.now.slot < 8 }
    requires may { MayPut (D.state core.old.disk) core.old.books put.now it.now last.old 2 }
    requires empty { IsEmptySlot (D.state core.old.disk) put.now }
    requires rows { RowsLead (D.state core.old.disk) core.old.books (step_of_put put.now) }
    ensures { PutGoes (D.state core.old.disk) core.old.books (D.state core.new.disk) core.new.books put.now result }
{
    let block = match one_block(&core.books) {
        Ok(block) => block,
        Err(why) => return refused(why),
    };
    match read_table(&mut core.disk, put.inode, last) {
        Ok(()) => {}
        Err(why) => return refused(why),
    }
    let claims = claim_one(&mut core.books, block);
    let mut cell = zero_cell();
    fill_content(put, claims.cell.stamp, &mut cell);
    let it = pointed(it, size_after(put, it.size), put.slot, claims.cell);
    put_record(&mut last.cell, put.inode, &it);
    Ended {
        claims,
        result: write_two(
            core,
            claims.cell.block,
            &cell,
            table_block(put.inode),
            &last.cell,
        ),
    }
}

// Puts bytes into a slot below a block of pointers that holds: claims its block.
pub(crate) fn put_below<D: Disk + Drop>(
    core: &mut Core<D>,
    put: &Put<'_>,
    above: Place,
    upper: Pointer,
    it: &Record,
    place: u32,
    last: &mut LastRead,
) -> Ended
    requires may { MayPut (D.state core.old.disk) core.old.books put.now it.now last.old 3 }
    requires upper { HeldAt (D.state core.old.disk) core.old.books put.now.inode (place_path above) upper }
    requires path { IsUnder put.now.slot (place_path above) place }
    requires empty { IsEmptySlot (D.state core.old.disk) put.now }
    requires rows { RowsLead (D.state core.old.disk) core.old.books (step_of_put put.now) }
    ensures { PutGoes (D.state core.old.disk) core.old.books (D.state core.new.disk) core.new.books put.now result }
{
    let block = match one_block(&core.books) {
        Ok(block) => block,
        Err(why) => return refused(why),
    };
    match read_block(&mut core.disk, upper.block, last) {
        Ok(()) => {}
        Err(_) => return refused(Refusal::ReadFault),
    }
    let mut pointers = last.cell;
    match read_table(&mut core.disk, put.inode, last) {
        Ok(()) => {}
        Err(why) => return refused(why),
    }
    let claims = claim_one(&mut core.books, block);
    let mut cell = zero_cell();
    fill_content(put, claims.cell.stamp, &mut cell);
    write_pointer(&mut pointers.payload, place, claims.cell);
    put_record(
        &mut last.cell,
        put.inode,
        &sized(it, size_after(put, it.size)),
    );
    let number = table_block(put.inode);
    Ended {
        claims,
        result: write_three(
            core,
            claims.cell.block,
            &cell,
            upper.block,
            &pointers,
            number,
            &last.cell,
        ),
    }
}

// The record with another size and another pointer of its leaf, place 8, or of its top.
fn rooted(it: &Record, size: u64, place: u64, pointer: Pointer) -> Record
    ensures { result ≡ rooted it.now size place pointer }
{
    if place == 8 {
        Record {
            size,
            leaf: pointer,
            ..*it
        }
    } else {
        Record {
            size,
            top: pointer,
            ..*it
        }
    }
}

// Puts bytes into a slot of a file without a leaf: claims its block and the leaf.
pub(crate) fn put_with_leaf<D: Disk + Drop>(
    core: &mut Core<D>,
    put: &Put<'_>,
    place: u32,
    it: &Record,
    last: &mut LastRead,
) -> Ended
    requires may { MayPut (D.state core.old.disk) core.old.books put.now it.now last.old 3 }
    requires path { IsUnder put.now.slot (paths.InRecord 8) place }
    requires hole { IsHole (D.state core.old.disk) put.now.inode (paths.InRecord 8) }
    requires empty { IsEmptySlot (D.state core.old.disk) put.now }
    requires rows { RowsLead (D.state core.old.disk) core.old.books (step_of_put put.now) }
    ensures { PutGoes (D.state core.old.disk) core.old.books (D.state core.new.disk) core.new.books put.now result }
{
    let two = match two_blocks(&core.books) {
        Ok(two) => two,
        Err(why) => return refused(why),
    };
    match read_table(&mut core.disk, put.inode, last) {
        Ok(()) => {}
        Err(why) => return refused(why),
    }
    let claims = claim_two(&mut core.books, two);
    let mut cell = zero_cell();
    fill_content(put, claims.cell.stamp, &mut cell);
    let above = Place::InRecord(8);
    let mut leaf = zero_cell();
    fill_pointers(put, above, claims.leaf.stamp, place, claims.cell, &mut leaf);
    let it = rooted(it, size_after(put, it.size), 8, claims.leaf);
    put_record(&mut last.cell, put.inode, &it);
    let number = table_block(put.inode);
    Ended {
        claims,
        result: write_three(
            core,
            claims.cell.block,
            &cell,
            claims.leaf.block,
            &leaf,
            number,
            &last.cell,
        ),
    }
}

// Puts bytes into a slot whose child is missing under a top that holds: claims its block and the child.
pub(crate) fn put_with_child<D: Disk + Drop>(
    core: &mut Core<D>,
    put: &Put<'_>,
    top: Pointer,
    it: &Record,
    child: u64,
    place: u32,
    last: &mut LastRead,
) -> Ended
    requires top { HeldAt (D.state core.old.disk) core.old.books put.now.inode (paths.InRecord 9) top }
    requires may { MayPut (D.state core.old.disk) core.old.books put.now it.now last.old 4 }
    requires path { IsFar put.now.slot child place }
    requires hole { IsHole (D.state core.old.disk) put.now.inode (paths.Under (paths.InRecord 9) child) }
    requires empty { IsEmptySlot (D.state core.old.disk) put.now }
    requires rows { RowsLead (D.state core.old.disk) core.old.books (step_of_put put.now) }
    ensures { PutGoes (D.state core.old.disk) core.old.books (D.state core.new.disk) core.new.books put.now result }
{
    let two = match two_blocks(&core.books) {
        Ok(two) => two,
        Err(why) => return refused(why),
    };
    match read_block(&mut core.disk, top.block, last) {
        Ok(()) => {}
        Err(_) => return refused(Refusal::ReadFault),
    }
    let mut tops = last.cell;
    match read_table(&mut core.disk, put.inode, last) {
        Ok(()) => {}
        Err(why) => return refused(why),
    }
    let claims = claim_two(&mut core.books, two);
    write_pointer(&mut tops.payload, child as u32, claims.leaf);
    let above = Place::UnderRecord {
        at: 9,
        place: child,
    };
    let mut pointers = zero_cell();
    fill_pointers(
        put,
        above,
        claims.leaf.stamp,
        place,
        claims.cell,
        &mut pointers,
    );
    let mut cell = zero_cell();
    fill_content(put, claims.cell.stamp, &mut cell);
    put_record(
        &mut last.cell,
        put.inode,
        &sized(it, size_after(put, it.size)),
    );
    let number = table_block(put.inode);
    Ended {
        claims,
        result: write_four(
            core,
            claims.cell.block,
            &cell,
            claims.leaf.block,
            &pointers,
            top.block,
            &tops,
            number,
            &last.cell,
        ),
    }
}

// Puts bytes into a slot of a file without a top: claims its block, the child and the top.
pub(crate) fn put_with_top<D: Disk + Drop>(
    core: &mut Core<D>,
    put: &Put<'_>,
    it: &Record,
    child: u64,
    place: u32,
    last: &mut LastRead,
) -> Ended
    requires may { MayPut (D.state core.old.disk) core.old.books put.now it.now last.old 4 }
    requires path { IsFar put.now.slot child place }
    requires hole { IsHole (D.state core.old.disk) put.now.inode (paths.InRecord 9) }
    requires empty { IsEmptySlot (D.state core.old.disk) put.now }
    requires rows { RowsLead (D.state core.old.disk) core.old.books (step_of_put put.now) }
    ensures { PutGoes (D.state core.old.disk) core.old.books (D.state core.new.disk) core.new.books put.now result }
{
    let three = match three_blocks(&core.books) {
        Ok(three) => three,
        Err(why) => return refused(why),
    };
    match read_table(&mut core.disk, put.inode, last) {
        Ok(()) => {}
        Err(why) => return refused(why),
    }
    let claims = claim_three(&mut core.books, three);
    let mut cell = zero_cell();
    fill_content(put, claims.cell.stamp, &mut cell);
    let above = Place::UnderRecord {
        at: 9,
        place: child,
    };
    let mut pointers = zero_cell();
    fill_pointers(
        put,
        above,
        claims.leaf.stamp,
        place,
        claims.cell,
        &mut pointers,
    );
    let root = Place::InRecord(9);
    let mut tops = zero_cell();
    fill_pointers(
        put,
        root,
        claims.top.stamp,
        child as u32,
        claims.leaf,
        &mut tops,
    );
    let it = rooted(it, size_after(put, it.size), 9, claims.top);
    put_record(&mut last.cell, put.inode, &it);
    let number = table_block(put.inode);
    Ended {
        claims,
        result: write_four(
            core,
            claims.cell.block,
            &cell,
            claims.leaf.block,
            &pointers,
            claims.top.block,
            &tops,
            number,
            &last.cell,
        ),
    }
}
