//! A new entry is written, with the blocks that it takes and the record of the inode that it names.
ghost use Rattle.std.specs.Prelude.{◌≡◌, ◌≢◌, ◌+◌, ◌-◌, ◌*◌, ◌/◌, ◌^◌, ◌≤◌, ◌<◌, ℕ, Some, length, true};
ghost use Rattle.nofs_disk.specs.Number.{put_bytes, zeros};
ghost use Rattle.nofs_disk.specs.Pointer.{is_null};
ghost use Rattle.nofs_dirent.specs.Entries.{HasEntrySpelling, entry_limit, spelled_entry};
ghost use Rattle.nofs_disk.specs.Tag.{tag_of};
ghost use Rattle.nofs_ptrs.specs.Cells.{pointer_at};
ghost use Rattle.nofs_inode.specs.InodeRecords.{HasRecordSpelling};
ghost use Rattle.nofs_agree.specs.Reads.{IsLast};
ghost use Rattle.nofs_names.specs.Entries.Tables.{IsTable};
ghost use Rattle.nofs_names.specs.Entries.Writes.{AreTables, Enters, EntersDirect, EntersHeld, EntersUnderLeaf};
ghost use Rattle.nofs_names.specs.Entries.Writes.{EntersWithLeaf, IsEntering, IsNewCell};
ghost use Rattle.nofs_names.specs.Entries.Writes.{ReadsTables, with_direct, with_leaf};

use crate::entries::claims::claims_of;
use crate::entries::places::{EntryBlocks, EntrySlot};
use crate::entries::tables::{with_record, write_leaf_with_tables, write_with_tables};
use nofs_agree::{LastRead, read_block};
use nofs_dirent::{Entry, write_entry};
use nofs_disk::{Cell, Disk, Failed, Kind, Pointer, Tag, clear, write_tag};
use nofs_inode::Record;
use nofs_ptrs::write_pointer;
use nofs_state::{Core, Ended, table_block, write_three, write_two};

/// The cells of the inode table with the records of a directory and of an inode that it names.
#[derive(Clone, Copy)]
pub struct Tables {
    pub directory: Cell,
    pub inode: Cell,
}

/// Where a new entry is written.
#[derive(Clone, Copy)]
pub struct EntryPlace {
    pub entry: u32,
    pub slot: EntrySlot,
    pub blocks: EntryBlocks,
    /// The block of the slot, or of its leaf, where it holds.
    pub cell: Cell,
}

/// A new entry, and what its writes change.
#[derive(Clone, Copy)]
pub struct NewEntry<'a> {
    pub directory: u32,
    /// The record of the directory.
    pub it: &'a Record,
    pub place: &'a EntryPlace,
    pub named: &'a Entry,
    /// The record of the inode that it names.
    pub record: &'a Record,
    pub tables: &'a Tables,
}

/// Reads the cells of the table that a new entry needs.
pub(crate) fn read_tables<D: Disk>(
    disk: &mut D,
    directory: u32,
    inode: u32,
    last: &mut LastRead,
) -> Result<Tables, Failed>
    requires directory { 1 ≤ directory }
    requires inode { 1 ≤ inode }
    requires first { 1 + (directory - 1) / 4 < (D.state disk.old).blocks }
    requires second { 1 + (inode - 1) / 4 < (D.state disk.old).blocks }
    requires last { IsLast (D.state disk.old) last.old }
    ensures { ReadsTables (D.state disk.old) (D.state disk.new) directory inode last.new result }
{
    read_block(disk, table_block(directory), last)?;
    let cell = last.cell;
    read_block(disk, table_block(inode), last)?;
    Ok(Tables {
        directory: cell,
        inode: last.cell,
    })
}

// The cells of the table with another record of the directory and one of the inode. Where both
// records lie in one cell, both are that cell.
fn new_tables(new: NewEntry<'_>, it: &Record) -> Tables
    requires directory { 1 ≤ new.directory }
    requires inode { 1 ≤ new.named.now.inode }
    requires it { HasRecordSpelling it.now }
    requires new { HasRecordSpelling new.record.now }
    ensures { AreTables new.entry.tables.now new.entry.directory it.now new.entry.named.now.inode
        new.entry.record.now result }
{
    let inode = new.named.inode;
    let mut first = new.tables.directory;
    with_record(&mut first, new.directory, it);
    if (new.directory - 1) / 4 == (inode - 1) / 4 {
        with_record(&mut first, inode, new.record);
        return Tables {
            directory: first,
            inode: first,
        };
    }
    Tables {
        directory: first,
        inode: named_table(new),
    }
}

// A cell of a directory that has this entry alone, with its tag.
fn fill_entries(cell: &mut Cell, owner: &Tag, place: u32, named: &Entry)
    requires kind { owner.now.kind ≡ Kind.Directory }
    requires place { place < 16 }
    requires spelling { HasEntrySpelling named.now }
    ensures tag { tag_of cell.new.tag ≡ Some owner.now }
    ensures payload { cell.new.payload ≡ put_bytes (64 * place)
        (spelled_entry named.now.inode named.now.generation named.now.name) (zeros 1024) }
{
    write_tag(owner, &mut cell.tag);
    clear_payload(&mut cell.payload);
    write_entry(&mut cell.payload, place, named);
}

// An entry in its place of a directory's cell.
fn add_entry(payload: &mut [u8; 1024], place: u32, named: &Entry)
    requires place { place < 16 }
    requires spelling { HasEntrySpelling named.now }
    ensures was { length payload.old ≡ 1024 }
    ensures put { payload.new ≡ put_bytes (64 * place)
        (spelled_entry named.now.inode named.now.generation named.now.name) payload.old }
{
    write_entry(payload, place, named);
}

fn clear_payload(payload: &mut [u8; 1024])
    ensures { payload.new ≡ zeros 1024 }
{
    clear(payload);
}

// A leaf that has this pointer alone, with its tag.
fn fill_leaf(cell: &mut Cell, owner: &Tag, place: u32, it: Pointer)
    requires kind { owner.now.kind ≡ Kind.Leaf }
    requires place { place < 64 }
    ensures tag { tag_of cell.new.tag ≡ Some owner.now }
    ensures long { length cell.new.payload ≡ 1024 }
    ensures pointer { pointer_at cell.new.payload place ≡ it }
    ensures others { (j : ℕ) → j ≢ place → j < 64 → is_null (pointer_at cell.new.payload j) ≡ true }
{
    write_tag(owner, &mut cell.tag);
    clear_payload(&mut cell.payload);
    add_pointer(&mut cell.payload, place, it);
}

// One pointer more in a leaf.
fn add_pointer(payload: &mut [u8; 1024], place: u32, it: Pointer)
    requires { place < 64 }
    ensures here { pointer_at payload.new place ≡ it }
    ensures others { (j : ℕ) → j ≢ place → j < 64 → pointer_at payload.new j ≡ pointer_at payload.old j }
    ensures was { length payload.old ≡ 1024 }
    ensures long { length payload.new ≡ 1024 }
{
    write_pointer(payload, place, it);
}

// The record with another direct pointer.
fn pointed(it: &Record, slot: u32, pointer: Pointer) -> Record
    requires slot { slot < 8 }
    ensures { result ≡ with_direct it.now slot pointer }
{
    let mut direct = it.direct;
    direct[slot as usize] = pointer;
    Record { direct, ..*it }
}

// The record with another leaf.
fn rooted(it: &Record, leaf: Pointer) -> Record
    ensures { result ≡ with_leaf it.now leaf }
{
    Record { leaf, ..*it }
}

// The tag of a directory's cell.
fn cell_tag(inode: u32, generation: u64, slot: u32, stamp: u64) -> Tag
    ensures { result
        ≡ record { kind = Kind.Directory; inode = inode; generation = generation; slot = slot; stamp = stamp } }
{
    Tag {
        kind: Kind::Directory,
        inode,
        generation,
        slot: u64::from(slot),
        stamp,
    }
}

// The tag of a leaf.
fn leaf_tag(inode: u32, generation: u64, stamp: u64) -> Tag
    ensures { result
        ≡ record { kind = Kind.Leaf; inode = inode; generation = generation; slot = 2 ^ 32; stamp = stamp } }
{
    Tag {
        kind: Kind::Leaf,
        inode,
        generation,
        slot: 1 << 32,
        stamp,
    }
}

// The cell of a new entry, where the slot is a hole: its directory's, under a pointer with this stamp.
fn new_cell(new: NewEntry<'_>, stamp: u64) -> Cell
    requires range { new.place.now.entry < entry_limit }
    requires spelling { HasEntrySpelling new.named.now }
    ensures { IsNewCell new.entry.directory new.entry.it.now.generation new.entry.place.now.entry
        new.entry.named.now stamp result }
{
    let mut cell = new.place.cell;
    let slot = new.place.entry / 16;
    let owner = cell_tag(new.directory, new.it.generation, slot, stamp);
    fill_entries(&mut cell, &owner, new.place.entry % 16, new.named);
    cell
}

// The cell of the table with the record of the inode that a new entry names.
fn named_table(new: NewEntry<'_>) -> Cell
    requires inode { 1 ≤ new.named.now.inode }
    requires spelling { HasRecordSpelling new.record.now }
    ensures { IsTable new.entry.tables.now.inode new.entry.named.now.inode new.entry.record.now result }
{
    let mut table = new.tables.inode;
    with_record(&mut table, new.named.inode, new.record);
    table
}

// Writes an entry into a slot that holds.
fn enter_held<D: Disk + Drop>(core: &mut Core<D>, new: NewEntry<'_>, pointer: Pointer) -> Ended
    requires slot { new.place.now.slot ≡ EntrySlot.Held pointer }
    requires entering { IsEntering 2 (D.state core.old.disk) core.old.books new }
    ensures { EntersHeld (D.state core.old.disk) core.old.books (D.state core.new.disk)
        core.new.books new.entry.place.now pointer new.entry.named.now new.entry.record.now
        new.entry.tables.now result }
{
    let mut cell = new.place.cell;
    add_entry(&mut cell.payload, new.place.entry % 16, new.named);
    let table = named_table(new);
    let number = table_block(new.named.inode);
    let result = write_two(core, pointer.block, &cell, number, &table);
    let claims = claims_of(Pointer::NULL, Pointer::NULL);
    Ended { claims, result }
}

// Writes an entry into a hole of the record.
fn enter_direct<D: Disk + Drop>(core: &mut Core<D>, new: NewEntry<'_>) -> Ended
    requires entering { IsEntering 3 (D.state core.old.disk) core.old.books new }
    requires slot { new.place.now.slot ≡ EntrySlot.Direct }
    ensures { EntersDirect (D.state core.old.disk) core.old.books (D.state core.new.disk)
        core.new.books new.entry.directory new.entry.it.now new.entry.place.now new.entry.named.now new.entry.record.now
        new.entry.tables.now result }
{
    let block = new.place.blocks.cell;
    let pointer = core.books.claim_block(block);
    let cell = new_cell(new, pointer.stamp);
    let changed = pointed(new.it, new.place.entry / 16, pointer);
    let after = new_tables(new, &changed);
    let (directory, inode) = (new.directory, new.named.inode);
    let result = write_with_tables(core, block, &cell, directory, inode, &after);
    let claims = claims_of(pointer, Pointer::NULL);
    Ended { claims, result }
}

// Writes an entry into a hole under a leaf that holds.
fn enter_under_leaf<D: Disk + Drop>(core: &mut Core<D>, new: NewEntry<'_>, leaf: Pointer) -> Ended
    requires slot { new.place.now.slot ≡ EntrySlot.UnderLeaf leaf }
    requires entering { IsEntering 3 (D.state core.old.disk) core.old.books new }
    ensures { EntersUnderLeaf (D.state core.old.disk) core.old.books (D.state core.new.disk)
        core.new.books new.entry.directory new.entry.it.now new.entry.place.now leaf new.entry.named.now
        new.entry.record.now new.entry.tables.now result }
{
    let block = new.place.blocks.cell;
    let pointer = core.books.claim_block(block);
    let mut pointers = new.place.cell;
    add_pointer(&mut pointers.payload, new.place.entry / 16 - 8, pointer);
    let cell = new_cell(new, pointer.stamp);
    let table = named_table(new);
    let number = table_block(new.named.inode);
    let result = write_three(core, block, &cell, leaf.block, &pointers, number, &table);
    let claims = claims_of(pointer, Pointer::NULL);
    Ended { claims, result }
}

// Writes an entry into a hole where there is no leaf.
fn enter_with_leaf<D: Disk + Drop>(core: &mut Core<D>, new: NewEntry<'_>) -> Ended
    requires slot { new.place.now.slot ≡ EntrySlot.WithLeaf }
    requires entering { IsEntering 4 (D.state core.old.disk) core.old.books new }
    ensures { EntersWithLeaf (D.state core.old.disk) core.old.books (D.state core.new.disk)
        core.new.books new.entry.directory new.entry.it.now new.entry.place.now new.entry.named.now new.entry.record.now
        new.entry.tables.now result }
{
    let blocks = new.place.blocks;
    let pointer = core.books.claim_block(blocks.cell);
    let leaf = core.books.claim_block(blocks.leaf);
    let mut pointers = new.place.cell;
    let root = leaf_tag(new.directory, new.it.generation, leaf.stamp);
    fill_leaf(&mut pointers, &root, new.place.entry / 16 - 8, pointer);
    let cell = new_cell(new, pointer.stamp);
    let changed = rooted(new.it, leaf);
    let after = new_tables(new, &changed);
    let (cell_block, leaf_block) = (blocks.cell, blocks.leaf);
    let (directory, inode) = (new.directory, new.named.inode);
    let result = write_leaf_with_tables(
        core, cell_block, &cell, leaf_block, &pointers, directory, inode, &after,
    );
    let claims = claims_of(pointer, leaf);
    Ended { claims, result }
}

/// Writes a new entry, and the record of the inode that it names: into the slot where it holds,
/// else into a block that it claims, with a leaf where there is none.
pub(crate) fn enter<D: Disk + Drop>(core: &mut Core<D>, new: NewEntry<'_>) -> Ended
    requires { IsEntering 4 (D.state core.old.disk) core.old.books new }
    ensures { Enters (D.state core.old.disk) core.old.books (D.state core.new.disk)
        core.new.books new.entry.directory new.entry.it.now new.entry.place.now new.entry.named.now new.entry.record.now
        new.entry.tables.now new.entry.place.now.slot result }
{
    match new.place.slot {
        EntrySlot::Held(pointer) => enter_held(core, new, pointer),
        EntrySlot::Direct => enter_direct(core, new),
        EntrySlot::UnderLeaf(leaf) => enter_under_leaf(core, new, leaf),
        EntrySlot::WithLeaf => enter_with_leaf(core, new),
    }
}
