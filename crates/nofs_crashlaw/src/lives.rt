//! Lives: runs of the machine with crashes between them, an upgrade or a mount that ended inside its
//! raise among them.
//!
//! Promise: over all lives, contents come from entries, and no generation and no stamp is claimed
//! twice. No format lies between two lives.

ghost use Rattle.nofs_crashlaw.specs.Lives.{LawBegin, LawGiven, LawLives, LawOnce, LawOnlySuper, LawUpgraded};
ghost use Rattle.nofs_crashlaw.specs.Maps.Fresh.{LawMountStamps};

/// Bytes in the base of a life were given to their slot by an entry of an earlier one, and no
/// generation and no stamp is claimed twice, in all lives together.
pub fn law_lives()
    ensures values { LawLives }
    ensures once { LawOnce }
    ensures given { LawGiven }
{}

/// What a mount finds: a sound image whose mount number is raised is sound and fresh, so is one
/// that is upgraded, and block 0 changes nothing of files, owners and verdicts.
pub fn law_begin()
    ensures begin { LawBegin }
    ensures upgraded { LawUpgraded }
    ensures only_super { LawOnlySuper }
{}

/// All stays within the stamps of the mount, also with a fault of writing.
pub fn law_mount_stamps()
    ensures { LawMountStamps }
{}
