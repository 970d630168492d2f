//! Cells and records of an image.
pub(crate) mod entry;
pub(crate) mod path;
pub(crate) mod place;
pub(crate) mod tags;
pub(crate) mod value;

ghost use Rattle.std.specs.Prelude.{◌≡◌, ◌<◌, length};
ghost use Rattle.nofs_disk.specs.Disk.{cell_at};
ghost use Rattle.nofs_model.specs.Geometry as image;
ghost use Rattle.nofs_model.specs.Places.{IsRead, IsRecord};

use nofs_disk::Cell;
use nofs_inode::{FREE_RECORD, Record, record_at};
use nofs_super::{SuperBlock, numbers_in};

/// The cell of a block.
pub(crate) fn cell_at(cells: &[Cell], block: u64) -> &Cell
    requires { block < length cells.now }
    ensures { result.now ≡ cell_at cells.now block }
{
    &cells[block as usize]
}

/// The numbers of a mountable image.
#[tactic(auto, unfolding(crate::specs::Geometry::super_at))]
pub(crate) fn numbers_of(cells: &[Cell]) -> SuperBlock
    requires { image.IsMountable cells.now }
    ensures { IsRead cells.now result }
{
    numbers_in(&cell_at(cells, 0).payload)
}

/// The record of an inode: free where its bytes spell none, and where there is no such inode.
#[tactic(auto, unfolding(crate::specs::Geometry::inode))]
pub(crate) fn read_inode(cells: &[Cell], at: &SuperBlock, inode: u32) -> Record
    requires { IsRead cells.now at.now }
    ensures { IsRecord cells.now at.now inode result }
{
    let number = u64::from(inode);
    if number == 0 || number > at.inodes {
        return FREE_RECORD;
    }
    let block = cell_at(cells, 1 + (number - 1) / 4);
    record_at(&block.payload, ((number - 1) % 4) as u32)
}
