//! A Put into any slot of a file, with all its refusals.
ghost use Rattle.std.specs.Prelude.{◌≡◌, ◌<◌, ◌≤◌, ◌^◌};
ghost use Rattle.nofs_ptrs.specs.Paths.{slot_limit};
ghost use Rattle.nofs_inode.specs.InodeRecords.{largest_size};
ghost use Rattle.nofs_ptrs.specs.Paths as paths;
ghost use Rattle.nofs_history.specs.declared.machine.steps.Step.TheVariants as step;
ghost use Rattle.nofs_state.specs.Books.Maps.{IsSafe};
ghost use Rattle.nofs_state.specs.Cores.FirstRows.{RefusesEarly};
ghost use Rattle.nofs_state.specs.Cores.Steps.{Goes};
ghost use Rattle.nofs_files.specs.Puts.{HeldAt, IsEmptySlot, IsFar, MayPut, PutGoes, RowsReachOf, is_bad_range};
ghost use Rattle.nofs_files.specs.Puts.{is_past_end, is_lost_under};
ghost use Rattle.nofs_files.specs.Puts.{put_answer, step_of_put};

use crate::puts::cells::put_in_place;
use crate::puts::content::cut_of;
use crate::puts::holes::{put_below, put_in_hole, put_with_child, put_with_leaf, put_with_top};
use crate::puts::put::Put;
use crate::reads::files::{find_content, note_file, open_file, slots_of};
use nofs_agree::{LastRead, PathAnswer, find_slot};
use nofs_disk::{Disk, Pointer};
use nofs_history::Refusal;
use nofs_inode::Record;
use nofs_model::Place;
use nofs_state::{Core, Ended, refused};

fn is_bad_range(at: u32, len: usize) -> bool
    requires { len < 2 ^ 63 }
    ensures { result ≡ is_bad_range at len }
{
    at as usize + len > 1024 || len == 0
}

fn is_past_end(size: u64, slot: u64) -> bool
    requires { size ≤ largest_size }
    ensures { result ≡ is_past_end size slot }
{
    let slots = (size + 1023) / 1024;
    slots < slot || slot == slots && size % 1024 != 0
}

fn is_lost_under(size: u64, slot: u64, at: u32, len: usize) -> bool
    requires size { size ≤ largest_size }
    requires slot { slot < slot_limit }
    ensures { result ≡ is_lost_under size slot at len }
{
    slot < (size + 1023) / 1024 && !(at == 0 && cut_of(size, slot) <= len)
}

/// Puts bytes into a slot of a file. A slot that has bytes keeps its block; any other gets a new
/// one, with the blocks of pointers above it that are missing. Bytes that are none, or that do not lie in one slot, are
/// `BadRange`, and a slot that no file has is `TooLarge`: so it is over any disk, and nothing else is.
pub fn put<D: Disk + Drop>(
    core: &mut Core<D>,
    inode: u32,
    generation: u64,
    slot: u64,
    at: u32,
    bytes: &[u8],
) -> Ended
    requires { IsSafe (D.state core.old.disk) core.old.books }
    ensures goes { Goes (D.state core.old.disk) core.old.books (D.state core.new.disk) core.new.books
        (step.Put inode generation slot at bytes.now) result.claims (put_answer result.result) }
    ensures early { RefusesEarly core.old.books (step.Put inode generation slot at bytes.now)
        (put_answer result.result) }
{
    let put = Put {
        inode,
        generation,
        slot,
        at,
        bytes,
    };
    match core.disk.ready(4) {
        Ok(()) => put_with_room(core, &put),
        Err(_) => refused(Refusal::OutOfMemory),
    }
}

fn put_with_room<D: Disk + Drop>(core: &mut Core<D>, put: &Put<'_>) -> Ended
    requires safe { IsSafe (D.state core.old.disk) core.old.books }
    requires spare { 4 ≤ (D.state core.old.disk).spare }
    ensures goes { PutGoes (D.state core.old.disk) core.old.books
        (D.state core.new.disk) core.new.books put.now result }
    ensures early { RefusesEarly core.old.books (step_of_put put.now) (put_answer result.result) }
{
    if core.books.stopped {
        return refused(Refusal::Stopped);
    }
    if is_bad_range(put.at, put.bytes.len()) {
        return refused(Refusal::BadRange);
    }
    if put.slot >= slots_of(&core.books.at) {
        return refused(Refusal::TooLarge);
    }
    let mut last = LastRead::NONE;
    let it = match open_file(
        &mut core.disk,
        &core.books,
        put.inode,
        put.generation,
        &mut last,
    ) {
        Ok(it) => it,
        Err(why) => return refused(why),
    };
    note_file(&it);
    if is_past_end(it.size, put.slot) {
        return refused(Refusal::PastEnd);
    }
    let found = match find_content(
        &mut core.disk,
        &mut last,
        &core.books.at,
        put.inode,
        &it,
        put.slot,
    ) {
        Ok(found) => found,
        Err(_) => return refused(Refusal::ReadFault),
    };
    match found {
        PathAnswer::Holds(pointer) => put_in_place(core, put, &it, pointer, &mut last),
        PathAnswer::Hole => put_new_block(core, put, &it, &mut last),
        PathAnswer::Lost => {
            if is_lost_under(it.size, put.slot, put.at, put.bytes.len()) {
                return refused(Refusal::LostSlot { slot: put.slot });
            }
            put_new_block(core, put, &it, &mut last)
        }
    }
}

// Puts bytes into a slot that has no block.
fn put_new_block<D: Disk + Drop>(
    core: &mut Core<D>,
    put: &Put<'_>,
    it: &Record,
    last: &mut LastRead,
) -> Ended
    requires may { MayPut (D.state core.old.disk) core.old.books put.now it.now last.old 4 }
    requires empty { IsEmptySlot (D.state core.old.disk) put.now }
    requires rows { RowsReachOf (D.state core.old.disk) core.old.books put.now }
    ensures { PutGoes (D.state core.old.disk) core.old.books (D.state core.new.disk) core.new.books put.now result }
{
    if put.slot < 8 {
        return put_in_hole(core, put, it, last);
    }
    if put.slot < 72 {
        return put_under_leaf(core, put, it, last);
    }
    put_under_top(core, put, it, last)
}

// The same for a slot under the leaf.
fn put_under_leaf<D: Disk + Drop>(
    core: &mut Core<D>,
    put: &Put<'_>,
    it: &Record,
    last: &mut LastRead,
) -> Ended
    requires from { 8 ≤ put.now.slot }
    requires slot { put.now.slot < 72 }
    requires may { MayPut (D.state core.old.disk) core.old.books put.now it.now last.old 4 }
    requires empty { IsEmptySlot (D.state core.old.disk) put.now }
    requires rows { RowsReachOf (D.state core.old.disk) core.old.books put.now }
    ensures { PutGoes (D.state core.old.disk) core.old.books (D.state core.new.disk) core.new.books put.now result }
{
    let above = Place::InRecord(8);
    let place = (put.slot - 8) as u32;
    let found = match find_slot(&mut core.disk, &core.books.at, put.inode, it, above, last) {
        Ok(found) => found,
        Err(_) => return refused(Refusal::ReadFault),
    };
    match found {
        PathAnswer::Lost => refused(Refusal::LostSlot { slot: put.slot }),
        PathAnswer::Hole => put_with_leaf(core, put, place, it, last),
        PathAnswer::Holds(leaf) => put_below(core, put, above, leaf, it, place, last),
    }
}

// The same for a slot under a child of the top.
fn put_under_top<D: Disk + Drop>(
    core: &mut Core<D>,
    put: &Put<'_>,
    it: &Record,
    last: &mut LastRead,
) -> Ended
    requires from { 72 ≤ put.now.slot }
    requires may { MayPut (D.state core.old.disk) core.old.books put.now it.now last.old 4 }
    requires empty { IsEmptySlot (D.state core.old.disk) put.now }
    requires rows { RowsReachOf (D.state core.old.disk) core.old.books put.now }
    ensures { PutGoes (D.state core.old.disk) core.old.books (D.state core.new.disk) core.new.books put.now result }
{
    let top = Place::InRecord(9);
    let child = (put.slot - 72) / 64;
    let place = ((put.slot - 72) % 64) as u32;
    let found = match find_slot(&mut core.disk, &core.books.at, put.inode, it, top, last) {
        Ok(found) => found,
        Err(_) => return refused(Refusal::ReadFault),
    };
    match found {
        PathAnswer::Lost => refused(Refusal::LostSlot { slot: put.slot }),
        PathAnswer::Hole => put_with_top(core, put, it, child, place, last),
        PathAnswer::Holds(top) => put_under_child(core, put, top, child, place, it, last),
    }
}

// The same where the top holds.
fn put_under_child<D: Disk + Drop>(
    core: &mut Core<D>,
    put: &Put<'_>,
    top: Pointer,
    child: u64,
    place: u32,
    it: &Record,
    last: &mut LastRead,
) -> Ended
    requires may { MayPut (D.state core.old.disk) core.old.books put.now it.now last.old 4 }
    requires path { IsFar put.now.slot child place }
    requires top { HeldAt (D.state core.old.disk) core.old.books put.now.inode (paths.InRecord 9) top }
    requires empty { IsEmptySlot (D.state core.old.disk) put.now }
    requires rows { RowsReachOf (D.state core.old.disk) core.old.books put.now }
    ensures { PutGoes (D.state core.old.disk) core.old.books (D.state core.new.disk) core.new.books put.now result }
{
    let above = Place::UnderRecord {
        at: 9,
        place: child,
    };
    let found = match find_slot(&mut core.disk, &core.books.at, put.inode, it, above, last) {
        Ok(found) => found,
        Err(_) => return refused(Refusal::ReadFault),
    };
    match found {
        PathAnswer::Lost => refused(Refusal::LostSlot { slot: put.slot }),
        PathAnswer::Hole => put_with_child(core, put, top, it, child, place, last),
        PathAnswer::Holds(upper) => put_below(core, put, above, upper, it, place, last),
    }
}
