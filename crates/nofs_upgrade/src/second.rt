//! Block 0 gets version 2: one write and one flush.
ghost use Rattle.std.specs.Prelude.{◌<◌, ◌≤◌, OnOk, OnErr};
ghost use Rattle.nofs_disk.specs.Adds.{Adds};
ghost use Rattle.nofs_super.specs.Raise.{IsRaiseStopped, IsRaised, IsSuperCell};
ghost use Rattle.nofs_upgrade.specs.Upgrades.{second};

use nofs_disk::{Cell, Disk, Failed};
use nofs_super::{SuperBlock, write_super};

/// Writes the superblock with version 2, and flushes.
///
/// # Errors
///
/// `Failed` where the write or the flush failed.
pub(crate) fn write_second<D: Disk>(disk: &mut D, old: &SuperBlock) -> Result<(), Failed>
    requires blocks { 0 < (D.state disk.old).blocks }
    requires spare { 2 ≤ (D.state disk.old).spare }

    ensures ends { OnOk result (IsRaised (second old.now) (D.state disk.old) (D.state disk.new)) }
    ensures adds { Adds (IsSuperCell (second old.now)) (D.state disk.old) (D.state disk.new) }
    ensures stopped { OnErr result (IsRaiseStopped (second old.now) (D.state disk.old) (D.state disk.new)) }
{
    let it = SuperBlock {
        version: 2,
        blocks: old.blocks,
        inodes: old.inodes,
        mount: old.mount,
    };
    let mut cell = Cell::ZERO;
    write_super(&it, &mut cell);
    if disk.write(0, &cell).is_err() {
        return Err(Failed);
    }
    // An answer is durable: without this flush a crash after it could bring version 1 back.
    match disk.flush() {
        Ok(()) => Ok(()),
        Err(_) => Err(Failed),
    }
}
