//! Where a new entry goes, and the blocks that it takes.
ghost use Rattle.std.specs.Prelude.{◌≡◌, ◌≤◌, ◌<◌, ◌^◌, IfErr, IfOk, IfSome, IsTrue, None, length};
ghost use Rattle.nofs_dirent.specs.Entries.{entry_limit};
ghost use Rattle.nofs_bits.specs.Bits.{count_set};
ghost use Rattle.nofs_ptrs.specs.Paths as paths;
ghost use Rattle.nofs_model.specs.Slots as slots;
ghost use Rattle.nofs_model.specs.declared.image.path.PathAnswer.TheVariants as answer;
ghost use Rattle.nofs_agree.specs.Reads.{IsLast};
ghost use Rattle.nofs_state.specs.Books.Maps.{IsSafe};
ghost use Rattle.nofs_names.specs.Searches.Inodes.{Knows};
ghost use Rattle.nofs_names.specs.Entries.Places.{AreFree, FindsEntrySlot, IsPlaceOf, IsUnderLeaf, TakesBlocks};
ghost use Rattle.nofs_names.specs.Entries.Places.{slot_blocks};

use crate::searches::directories::place_of_new;
use crate::searches::inodes::ReadInode;
use crate::searches::slots::Unfound;
use nofs_agree::{LastRead, find_slot};
use nofs_disk::{Disk, Pointer};
use nofs_history::Refusal;
use nofs_model::{PathAnswer, Place};
use nofs_state::{Books, Core};

/// What stands in the slot of a new entry.
#[derive(Clone, Copy)]
pub enum EntrySlot {
    /// The slot holds, in this block.
    Held(Pointer),
    /// A hole of the record.
    Direct,
    /// A hole under a leaf that holds, in this block.
    UnderLeaf(Pointer),
    /// A hole where there is no leaf.
    WithLeaf,
}

impl EntrySlot {
    /// How many blocks a new entry takes in this slot: one for its cell and one for the leaf.
    pub fn blocks(self) -> u64
        ensures { result ≡ slot_blocks self }
    {
        match self {
            EntrySlot::Held(_) => 0,
            EntrySlot::Direct => 1,
            EntrySlot::UnderLeaf(_) => 1,
            EntrySlot::WithLeaf => 2,
        }
    }
}

/// The blocks that a new entry takes, each 0 where it takes none.
#[derive(Clone, Copy)]
pub struct EntryBlocks {
    pub cell: u64,
    pub leaf: u64,
}

/// The place of a new entry.
///
/// # Errors
///
/// `DirectoryFull` where there is none.
pub(crate) fn entry_place(seen: &Unfound) -> Result<u32, Refusal>
    ensures place { IsPlaceOf seen.now result }
    ensures range { IfOk result (λ entry. entry < entry_limit) }
    ensures refused { IfErr result (λ why. why ≡ Refusal.DirectoryFull) }
{
    match place_of_new(seen) {
        Some(entry) => Ok(entry),
        None => Err(Refusal::DirectoryFull),
    }
}

/// What stands in the slot of a new entry. Where the slot holds, or its leaf, that block is the one
/// that was read last.
///
/// # Errors
///
/// `ReadFault` where a read failed. Where the disk tells, the slot must hold or be a hole; where it
/// does not, it may answer `LostSlot`.
pub(crate) fn find_entry_slot<D: Disk>(
    disk: &mut D,
    directory: &ReadInode,
    slot: u32,
    names: &mut LastRead,
) -> Result<EntrySlot, Refusal>
    requires known { Knows (D.state disk.old) directory.now }
    requires slot { slot < 72 }
    requires last { IsLast (D.state disk.old) names.old }
    ensures { FindsEntrySlot (D.state disk.old)
        (D.state disk.new) directory.now.at directory.now.inode slot names.new result }
{
    let found = match directory.find(disk, slot, names) {
        Ok(found) => found,
        Err(_) => return Err(Refusal::ReadFault),
    };
    match found {
        PathAnswer::Holds(pointer) => Ok(EntrySlot::Held(pointer)),
        PathAnswer::Hole => find_hole(slot, disk, directory, names),
        PathAnswer::Lost => Err(Refusal::LostSlot {
            slot: u64::from(slot),
        }),
    }
}

// Whether a hole is one of the record, or what leaf is above it.
fn find_hole<D: Disk>(
    slot: u32,
    disk: &mut D,
    directory: &ReadInode,
    names: &mut LastRead,
) -> Result<EntrySlot, Refusal>
    requires hole { IsTrue (D.state disk.old).tells
        → slots.find (D.state disk.old).now directory.now.inode (paths.path_of slot) ≡ answer.Hole }
    requires known { Knows (D.state disk.old) directory.now }
    requires slot { slot < 72 }
    requires last { IsLast (D.state disk.old) names.old }
    ensures { FindsEntrySlot (D.state disk.old)
        (D.state disk.new) directory.now.at directory.now.inode slot names.new result }
{
    if slot < 8 {
        return Ok(EntrySlot::Direct);
    }
    let leaf = Place::InRecord(8);
    match find_slot(
        disk,
        &directory.at,
        directory.inode,
        &directory.record,
        leaf,
        names,
    ) {
        Err(_) => Err(Refusal::ReadFault),
        Ok(leaf) => under_leaf(leaf, slot),
    }
}

fn under_leaf(leaf: PathAnswer, slot: u32) -> Result<EntrySlot, Refusal>
    ensures { IsUnderLeaf slot leaf result }
{
    match leaf {
        PathAnswer::Holds(pointer) => Ok(EntrySlot::UnderLeaf(pointer)),
        PathAnswer::Hole => Ok(EntrySlot::WithLeaf),
        PathAnswer::Lost => Err(Refusal::LostSlot {
            slot: u64::from(slot),
        }),
    }
}

/// The blocks for a new entry that takes so many, where the step claims so many inodes beside.
///
/// # Errors
///
/// `Full` where fewer blocks are known and free, and `SerialsSpent` where fewer stamps are left.
pub(crate) fn take_blocks<D: Disk + Drop>(
    core: &Core<D>,
    needed: u64,
    inodes: u64,
) -> Result<EntryBlocks, Refusal>
    requires safe { IsSafe (D.state core.now.disk) core.now.books }
    requires needed { needed ≤ 2 }
    requires inodes { inodes ≤ 1 }
    ensures { TakesBlocks core.now.books needed inodes result }
{
    match least_blocks(&core.books, needed) {
        None => {
            let why = Refusal::Full {
                needed,
                free: core.books.free_blocks.count(),
                unverified: core.books.unknown_blocks.count(),
                next: core.books.next_block(),
            };
            Err(why)
        }
        Some(blocks) => {
            if core.books.serial + inodes + needed > 1 << 40 {
                return Err(Refusal::SerialsSpent);
            }
            Ok(blocks)
        }
    }
}

// The least blocks that are known and free, none, one or two; `None` exactly where there are fewer.
fn least_blocks(books: &Books, needed: u64) -> Option<EntryBlocks>
    requires fits { length books.now.free_blocks < 2 ^ 64 }
    requires needed { needed ≤ 2 }
    ensures found { IfSome result (AreFree books.now.free_blocks needed) }
    ensures none { result ≡ None → count_set books.now.free_blocks < needed }
{
    match needed {
        0 => Some(EntryBlocks { cell: 0, leaf: 0 }),
        1 => least_block(books),
        _ => least_two(books),
    }
}

fn least_block(books: &Books) -> Option<EntryBlocks>
    ensures found { IfSome result (AreFree books.now.free_blocks 1) }
    ensures none { result ≡ None → count_set books.now.free_blocks < 1 }
{
    match books.least_free_block() {
        None => None,
        Some(cell) => Some(EntryBlocks { cell, leaf: 0 }),
    }
}

fn least_two(books: &Books) -> Option<EntryBlocks>
    requires fits { length books.now.free_blocks < 2 ^ 64 }
    ensures found { IfSome result (AreFree books.now.free_blocks 2) }
    ensures none { result ≡ None → count_set books.now.free_blocks < 2 }
{
    match books.free_blocks.next_set(0) {
        None => None,
        Some(cell) => match books.free_blocks.next_set(cell + 1) {
            None => None,
            Some(leaf) => Some(EntryBlocks { cell, leaf }),
        },
    }
}
