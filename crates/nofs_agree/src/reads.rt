//! Reads of blocks and of inode records. The block that was read last isn't read again.
ghost use Rattle.std.specs.Prelude.{◌≡◌, ◌<◌, IsTrue, Some};
ghost use Rattle.nofs_agree.specs.Reads.{IsAt, IsLast, ReadsBlock, ReadsInode};

use nofs_disk::{Cell, Disk, Failed};
use nofs_inode::{FREE_RECORD, Record, record_at};
use nofs_super::SuperBlock;

/// The block that was read last, and its cell.
#[derive(Drop)]
pub struct LastRead {
    /// `None` before the first read.
    pub block: Option<u64>,
    pub cell: Cell,
}

impl LastRead {
    /// No block was read yet.
    pub const NONE: LastRead = LastRead {
        block: None,
        cell: Cell::ZERO,
    };
}

/// Reads a block, where it isn't the one that was read last.
pub fn read_block<D: Disk>(disk: &mut D, block: u64, last: &mut LastRead) -> Result<(), Failed>
    requires there { block < (D.state disk.old).blocks }
    requires last { IsLast (D.state disk.old) last.old }
    ensures { ReadsBlock (D.state disk.old) (D.state disk.new) block last.new result }
{
    if is_last(last, block) {
        return Ok(());
    }
    last.block = None;
    disk.read(block, &mut last.cell)?;
    last.block = Some(block);
    Ok(())
}

fn is_last(last: &LastRead, block: u64) -> bool
    ensures { IsTrue result → last.now.block ≡ Some block }
{
    last.block == Some(block)
}

/// Reads the record of an inode: free where its bytes spell none, and where there is no such inode.
#[tactic(auto, unfolding(nofs_model::specs::Geometry::inode))]
pub fn read_inode<D: Disk>(
    disk: &mut D,
    at: &SuperBlock,
    inode: u32,
    last: &mut LastRead,
) -> Result<Record, Failed>
    requires numbers { IsAt (D.state disk.old) at.now }
    requires last { IsLast (D.state disk.old) last.old }
    ensures { ReadsInode (D.state disk.old) (D.state disk.new) at.now inode last.new result }
{
    let number = u64::from(inode);
    if number == 0 || number > at.inodes {
        return Ok(FREE_RECORD);
    }
    read_block(disk, 1 + (number - 1) / 4, last)?;
    Ok(record_at(&last.cell.payload, ((number - 1) % 4) as u32))
}
