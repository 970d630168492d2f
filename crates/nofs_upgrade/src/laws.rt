//! What an upgrade between two mounts keeps.
ghost use Rattle.nofs_upgrade.specs.Between.{LawSoundUpgrade, LawUpgradeAgain, LawUpgradeBetween};

use nofs_disk::Disk;

/// Over the states of a disk before and after an upgrade: sound images stay sound, at each moment too;
/// the next mount begins a life that comes next after the one before; and an upgrade that ended early
/// and is run again is one upgrade.
pub fn law_upgrade<D: Disk>()
    ensures sound { (old new : D) → LawSoundUpgrade (D.state old) (D.state new) }
    ensures between { (old new : D) → LawUpgradeBetween (D.state old) (D.state new) }
    ensures again { LawUpgradeAgain }
{}
