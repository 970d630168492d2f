//! Raising an image from version 1 to version 2.
//!
//! Promise: status 0 says that the version is 2, durably, and that the line was taken. No mount begins, so there is no
//! history.

ghost use Rattle.std.specs.Prelude.{◌≡◌, ◌⊎◌, [], None};
ghost use Rattle.nofs_disk.specs.Disk.{Rose};
ghost use Rattle.nofs_io.specs.Texts.{AppendsAll};
ghost use Rattle.nofs_tool.specs.Begin.Lines.{fixed_line};
ghost use Rattle.nofs_tool.specs.declared.begin.lines.FixedLine.TheVariants.{Upgraded as UpgradedLine};
ghost use Rattle.nofs_tool.specs.Runs.Says.{Prints};
ghost use Rattle.nofs_tool.specs.Runs.Said.{SaysUpgrade};
ghost use Rattle.nofs_tool.specs.Upgrade.{UpgradeEnds, upgrade_status as status_in};

use crate::begin::lines::{FixedLine, fixed_text, upgrade_text};
use crate::runs::outcomes::{Outcome, told_line};
use crate::runs::says::say;
use nofs_disk::Disk;
use nofs_io::Sink;
use nofs_super::MountFault;
use nofs_upgrade::{UpgradeFault, upgrade};

// The status that a refused upgrade ends the program with: 3 for the device, 7 for memory, else 4.
fn status_of(why: UpgradeFault) -> u8
    ensures { result ≡ status_in why }
{
    match why {
        UpgradeFault::Already => 4,
        UpgradeFault::Mount(MountFault::ReadFault) => 3,
        UpgradeFault::Mount(MountFault::WriteFault) => 3,
        UpgradeFault::Mount(MountFault::OutOfMemory) => 7,
        UpgradeFault::Mount(_) => 4,
    }
}

// The status after the line of an upgrade was written.
fn said<K: Sink>(sink: &mut K) -> u8
    ensures done { result ≡ 0 → AppendsAll (K.state sink.old) (K.state sink.new) (fixed_line UpgradedLine) }
    ensures says { Prints (K.state sink.old) (K.state sink.new) (fixed_line UpgradedLine) }
    ensures sink { result ≡ 5 → Rose (K.state sink.old).faults (K.state sink.new).faults }
    ensures named { (result ≡ 0) ⊎ (result ≡ 5) }
{
    match say(sink, fixed_text(FixedLine::Upgraded).as_bytes()) {
        Ok(()) => 0,
        Err(_) => 5,
    }
}

/// What comes of an upgrade.
pub(crate) fn upgrade_outcome<K: Sink, D: Disk + Drop>(sink: &mut K, disk: D) -> Outcome<D>
    ensures history { result.history ≡ None }
    ensures ends { UpgradeEnds (D.state disk) (D.state result.disk) (K.state sink.old)
        (K.state sink.new) result.status }
    ensures says { SaysUpgrade (D.state disk) (D.state result.disk) (K.state sink.old)
        (K.state sink.new) result.status }
    ensures silent { result.status ≡ 7 → AppendsAll (K.state sink.old) (K.state sink.new) [] }
{
    let mut disk = disk;
    match upgrade(&mut disk) {
        Ok(()) => Outcome {
            status: said(sink),
            disk,
            history: None,
        },
        Err(why) => told_line(sink, disk, status_of(why), upgrade_text(why)),
    }
}
