//! Mounts with crashes between them are lives.
//!
//! Promise: what a mount says of itself at its end makes it a life, and one that finds what a crash of
//! another may leave is the life after that. So over all mounts since a format, contents come from
//! entries, and no generation and no stamp is claimed twice. A last flush of the whole disk was made where nothing
//! failed before it.

ghost use Rattle.nofs_shared.specs.Laws.{LawFirstDisk, LawFoundSound, LawInRaise, LawKeptAfter, LawLastFlush};
ghost use Rattle.nofs_shared.specs.Laws.{LawMountContents};
ghost use Rattle.nofs_shared.specs.Laws.{LawMountLife, LawMountLives};
ghost use Rattle.nofs_shared.specs.Laws.{LawMountOnce, LawNextMount, LawSettledAfter, LawUpgradedAfter};

use nofs_disk::Disk;

/// Over the states of a disk: a mount that found a sound disk is a life, and one that finds what a
/// crash of another may leave since its flush is the life after that. A crash inside the raise leaves
/// what could be found, or such an image with the raised number. What a mount finds after another is
/// sound.
pub fn law_mount_life<D: Disk>()
    ensures life { LawMountLife D.state }
    ensures next { LawNextMount D.state }
    ensures raise { LawInRaise D.state }
    ensures sound { LawFoundSound D.state }
{}

/// Over the states of a disk: a disk comes after a mount where it holds one image that a crash of the
/// mount may leave, where its cells stayed since, and where an upgrade ran in between, to its end or to
/// a crash.
pub fn law_comes_after<D: Disk>()
    ensures settled { LawSettledAfter D.state }
    ensures kept { LawKeptAfter D.state }
    ensures upgraded { LawUpgradedAfter D.state }
{}

/// Over the states of a disk: mounts since a format, with crashes and upgrades between them, are lives.
/// No stamp and no generation is claimed twice over them, and bytes in a base were given by an entry of
/// an earlier mount.
pub fn law_mounts<D: Disk>()
    ensures first { (old new : D) → LawFirstDisk (D.state old) (D.state new) }
    ensures lives { LawMountLives D.state }
    ensures once { LawMountOnce D.state }
    ensures contents { LawMountContents D.state }
{}

/// Of the history of a mount over any disk, in which no call of the device failed: a Flush of the whole disk that is
/// its last step, and found memory, was made.
pub fn law_last_flush()
    ensures { LawLastFlush }
{}
