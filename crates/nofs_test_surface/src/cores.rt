//! The core: the device of a mount beside what is known of it.
ghost use Rattle.nofs_agree.specs.Reads.{IsAt};
ghost use Rattle.nofs_disk.specs.Disk.{cell_at};
ghost use Rattle.nofs_ptrs.specs.Paths.{is_slot, path_of};
ghost use Rattle.nofs_state.specs.Books.Maps.{IsRoom, IsSafe};
ghost use Rattle.nofs_state.specs.Writes.Pointers.{spot_at};
ghost use Rattle.nofs_super.specs.Geometry.{IsGeometry};
ghost use Rattle.std.specs.Prelude.{IsTrue, length, ◌<◌, ◌^◌, ◌≡◌, ◌≤◌};

use nofs_agree::Known;
use nofs_bits::Bits;
use nofs_disk::{Cell, Disk, Failed, OutFault, Pointer};
use nofs_history::History;
use nofs_state::{Books, Core, Counts, InodeClaim, Room, SlotCells};
use nofs_super::SuperBlock;
use std::alloc::{AllocError, Global};

/// `nofs_state::Core`
pub fn core_fields<D: Disk + Drop>(it: Core<D>) -> (D, Books) {
    let Core { disk, books } = it;
    (disk, books)
}

/// `nofs_state::Counts`
pub fn counts_fields(it: Counts) -> ([u64; 3], [u64; 3]) {
    let Counts {
        inodes_used,
        inodes_free,
        inodes_unchecked,
        blocks_used,
        blocks_free,
        blocks_unchecked,
    } = it;
    let inodes = [inodes_used, inodes_free, inodes_unchecked];
    (inodes, [blocks_used, blocks_free, blocks_unchecked])
}

/// `nofs_state::Room`
pub fn room_fields(it: Room) -> ([Bits; 2], Known, [Bits; 2], History) {
    let Room {
        unknown_inodes,
        free_inodes,
        agreement,
        unknown_blocks,
        free_blocks,
        history,
    } = it;
    let inodes = [unknown_inodes, free_inodes];
    (inodes, agreement, [unknown_blocks, free_blocks], history)
}

/// `nofs_state::InodeClaim`
pub fn inode_claim_fields(it: InodeClaim) -> (u32, u64) {
    let InodeClaim { inode, generation } = it;
    (inode, generation)
}

/// `nofs_state::SlotCells`
pub fn slot_cells_fields(it: SlotCells) -> (Cell, Cell, Cell) {
    let SlotCells { table, leaf, top } = it;
    (table, leaf, top)
}

/// `nofs_state::Room::new`
pub fn room_new(alloc: Global, at: &SuperBlock) -> Result<Room, AllocError>
    requires { IsGeometry at.now.blocks at.now.blocks at.now.inodes }
{
    Room::new(alloc, at)
}

/// `nofs_state::Core::over`
pub fn core_over<D: Disk + Drop>(disk: D, at: SuperBlock, first: u64, room: Room) -> Core<D>
    requires numbers { IsAt (D.state disk) at }
    requires mount { at.mount < 2 ^ 24 }
    requires first { first ≤ 2 ^ 40 }
    requires room { IsRoom at room }
{
    Core::over(disk, at, first, room)
}

/// `nofs_state::Core::write_out`
pub fn core_write_out<D: Disk + Drop>(this: &mut Core<D>) -> Result<Option<u64>, OutFault> {
    this.write_out()
}

/// `nofs_state::Core::verify_block`
pub fn core_verify_block<D: Disk + Drop>(this: &mut Core<D>, block: u64) -> Result<bool, Failed>
    requires safe { IsSafe (D.state this.old.disk) this.old.books }
    requires block { block < this.old.books.at.blocks }
{
    this.verify_block(block)
}

/// `nofs_state::Core::verify_inode`
pub fn core_verify_inode<D: Disk + Drop>(this: &mut Core<D>, inode: u32) -> Result<bool, Failed>
    requires safe { IsSafe (D.state this.old.disk) this.old.books }
    requires from_one { 1 ≤ inode }
    requires within { inode ≤ this.old.books.at.inodes }
{
    this.verify_inode(inode)
}

/// `nofs_state::Core::set_pointer`
pub fn core_set_pointer<D: Disk + Drop>(
    this: &mut Core<D>,
    cells: &SlotCells,
    inode: u32,
    slot: u64,
    to: Pointer,
) -> Result<(), Failed>
    requires spare { 1 ≤ (D.state this.old.disk).spare }
    requires inode { 1 ≤ inode }
    requires slot { IsTrue (is_slot slot) }
    requires block { (spot_at cells.now inode (path_of slot)).block < (D.state this.old.disk).blocks }
    requires told { IsTrue (D.state this.old.disk).tells
        → (spot_at cells.now inode (path_of slot)).cell
        ≡ cell_at (D.state this.old.disk).now (spot_at cells.now inode (path_of slot)).block }
{
    this.set_pointer(cells, inode, slot, to)
}

/// `nofs_state::Books::claim_block`
pub fn books_claim_block(this: &mut Books, block: u64) -> Pointer
    requires within { block < length this.old.free_blocks }
    requires serial { this.old.serial < 2 ^ 40 }
    requires mount { this.old.at.mount < 2 ^ 24 }
{
    this.claim_block(block)
}

/// `nofs_state::Books::claim_inode`
pub fn books_claim_inode(this: &mut Books, inode: u32) -> InodeClaim
    requires above { 1 ≤ inode }
    requires within { inode ≤ length this.old.free_inodes }
    requires agreed { inode ≤ length this.old.agreement }
    requires serial { this.old.serial < 2 ^ 40 }
    requires mount { this.old.at.mount < 2 ^ 24 }
{
    this.claim_inode(inode)
}

/// `nofs_state::Books::counts`
pub fn books_counts(this: &Books) -> Counts
    requires inodes { length this.now.unknown_inodes ≡ this.now.at.inodes }
    requires free_inodes { length this.now.free_inodes ≡ this.now.at.inodes }
    requires blocks { length this.now.unknown_blocks ≡ this.now.at.blocks }
    requires free_blocks { length this.now.free_blocks ≡ this.now.at.blocks }
{
    this.counts()
}

/// `nofs_state::Books::free_block`
pub fn books_free_block(this: &mut Books, block: u64)
    requires unknown { block < length this.old.unknown_blocks }
    requires free { block < length this.old.free_blocks }
{
    this.free_block(block);
}
