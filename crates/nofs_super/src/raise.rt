//! The mount number is raised, so that no stamp of an earlier mount comes again.
ghost use Rattle.std.specs.Prelude.{◌≡◌, ◌+◌, ◌-◌, ◌^◌, ◌<◌, ◌≤◌, IfOk, IfErr, OnOk, OnErr};
ghost use Rattle.nofs_disk.specs.Adds.{Adds};
ghost use Rattle.nofs_super.specs.Raise.{IsRaiseStopped, IsRaised, IsSuperCell, raised};

use crate::superblock::{MountFault, SuperBlock, write_super};
use nofs_disk::{Cell, Disk};

/// Writes the superblock with its mount number one higher, and flushes.
///
/// At each moment of the call a crash leaves in block 0 what it may have left before or the raised
/// superblock, and in each other block what it may have left before.
///
/// # Errors
///
/// `WriteFault` where the write or the flush failed.
pub fn raise_mount<D: Disk>(disk: &mut D, old: &SuperBlock) -> Result<SuperBlock, MountFault>
    requires blocks { 0 < (D.state disk.old).blocks }
    requires spare { 2 ≤ (D.state disk.old).spare }
    requires mount { old.now.mount < 2 ^ 24 - 1 }

    ensures value { IfOk result (λ it. it ≡ raised old.now) }
    ensures ends { OnOk result (IsRaised (raised old.now) (D.state disk.old) (D.state disk.new)) }
    ensures adds { Adds (IsSuperCell (raised old.now)) (D.state disk.old) (D.state disk.new) }
    ensures fault { IfErr result (λ fault. fault ≡ MountFault.WriteFault) }
    ensures stopped { OnErr result (IsRaiseStopped (raised old.now) (D.state disk.old) (D.state disk.new)) }
{
    let it = SuperBlock {
        version: old.version,
        blocks: old.blocks,
        inodes: old.inodes,
        mount: old.mount + 1,
    };
    let mut cell = Cell::ZERO;
    write_super(&it, &mut cell);
    if disk.write(0, &cell).is_err() {
        return Err(MountFault::WriteFault);
    }
    // A crash after later writes and before this flush would leave their stamps under the old
    // number, and the next mount would give them again.
    match disk.flush() {
        Ok(()) => Ok(it),
        Err(_) => Err(MountFault::WriteFault),
    }
}
