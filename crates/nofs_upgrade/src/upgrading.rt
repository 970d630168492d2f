//! The upgrade: what is asked before it, and why it is refused.
ghost use Rattle.std.specs.Prelude.{◌≡◌, ◌≢◌, IfErr, IsTrue, OnOk};
ghost use Rattle.nofs_disk.specs.Disk.{IsSameDisk, KeepsPast};
ghost use Rattle.nofs_upgrade.specs.Upgrades.{IsUpgradeRefused, IsUpgraded, IsUpgradeStopped, PreparesUpgrade};
ghost use Rattle.nofs_upgrade.specs.Upgrades.{StaysOrUpgrades};

use crate::fault::UpgradeFault;
use crate::second::write_second;
use nofs_disk::Disk;
use nofs_super::{MountFault, SuperBlock, read_super};

/// Raises an image that isn't mounted from version 1 to version 2, durably: one read, one write of
/// block 0 and one flush.
///
/// # Errors
///
/// The first fault of the table of a mount; then `Already` where the version is 2; then want of memory.
/// Where the write or the flush failed, a crash may leave either version, and the upgrade may be run
/// again.
pub fn upgrade<D: Disk>(disk: &mut D) -> Result<(), UpgradeFault>
    ensures disk { IsSameDisk (D.state disk.old) (D.state disk.new) }
    ensures past { KeepsPast (D.state disk.old) (D.state disk.new) }
    ensures upgraded { OnOk result (IsUpgraded (D.state disk.old) (D.state disk.new)) }
    ensures stopped { result ≡ Err (UpgradeFault.Mount MountFault.WriteFault)
        → IsUpgradeStopped (D.state disk.old) (D.state disk.new) }
    ensures refused { IfErr result (λ why. why ≢ UpgradeFault.Mount MountFault.WriteFault
        → IsUpgradeRefused (D.state disk.old) (D.state disk.new) why) }
    ensures images { IsTrue (D.state disk.old).tells → StaysOrUpgrades (D.state disk.old) (D.state disk.new) }
{
    let old = prepare(disk)?;
    match write_second(disk, &old) {
        Ok(()) => Ok(()),
        Err(_) => Err(UpgradeFault::Mount(MountFault::WriteFault)),
    }
}

// The superblock of version 1 that was read, with room for the two calls.
fn prepare<D: Disk>(disk: &mut D) -> Result<SuperBlock, UpgradeFault>
    ensures { PreparesUpgrade (D.state disk.old) (D.state disk.new) result }
{
    let old = match read_super(disk) {
        Ok(old) => old,
        Err(why) => return Err(UpgradeFault::Mount(why)),
    };
    if old.version == 2 {
        return Err(UpgradeFault::Already);
    }
    match disk.ready(2) {
        Ok(()) => Ok(old),
        Err(_) => Err(UpgradeFault::Mount(MountFault::OutOfMemory)),
    }
}
