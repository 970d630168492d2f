//! What comes of a scan, a salvage and a drill.

ghost use Rattle.std.specs.Prelude.{◌≡◌, ◌≤◌, ◌⊎◌, [], None, Some, map, IfSome, string_bytes};
ghost use Rattle.nofs_io.specs.Texts.{AppendsAll};
ghost use Rattle.nofs_tool.specs.Begin.Mounts.{HasNoMount};
ghost use Rattle.nofs_tool.specs.Begin.Words.{picks_in};
ghost use Rattle.nofs_tool.specs.Visits.Salvage.{AreReads, IsSalvaged, SaysWalk};
ghost use Rattle.nofs_tool.specs.Visits.Visit.{FollowsVisit};
ghost use Rattle.nofs_tool.specs.Drill.{IsDrillDone};
ghost use Rattle.nofs_tool.specs.Session.Counts.{IsScanned, SaysCounts};
ghost use Rattle.nofs_tool.specs.Runs.Said.{SaysCause, SaysDrill};
ghost use Rattle.nofs_tool.specs.Runs.Headline.{HeadlineOf, IsDrillHeadline, IsHeadlineOf};
ghost use Rattle.nofs_tool.specs.Runs.Tool.{IsRefusedBy};
ghost use Rattle.nofs_tool.specs.Runs.Tool.{SessionEnds};

use crate::begin::mounts::{Numbers, format_and_mount, mount};
use crate::drill::runs::run_drill;
use crate::runs::outcomes::{Outcome, refused, written};
use crate::session::serve::run_scan;
use crate::visits::salvage::run_salvage;
use nofs_disk::Disk;
use nofs_io::{Sink, Source};
use std::alloc::Global;
use std::sync::Wait;
use std::thread::Threads;

// What comes of a scan.
pub(crate) fn scan_outcome<R: Threads + Wait + Sync, K: Sink, D: Disk + Drop + Send>(
    rt: &R,
    alloc: Global,
    sink: &mut K,
    disk: D,
) -> Outcome<D>
    ensures headline { IfSome result.history (HeadlineOf D.state None [] disk (D.state result.disk) result.status) }
    ensures ends { SessionEnds (IsRefusedBy None (D.state disk) (D.state result.disk)) (D.state disk)
        (D.state result.disk)
        (K.state sink.old) (K.state sink.new) result.status result.history }
    ensures done { result.status ≡ 0
        → IsScanned (D.state disk) (D.state result.disk) result.history (K.state sink.old) (K.state sink.new) }
    ensures unserved { result.history ≡ None → SaysCause (HasNoMount D.state None disk result.disk)
        (K.state sink.old) (K.state sink.new) result.status }
    ensures silent { result.status ≡ 7 → AppendsAll (K.state sink.old) (K.state sink.new) [] }
    ensures part { (result.status ≡ 3) ⊎ (result.status ≡ 5)
        → SaysCounts (D.state disk) (D.state result.disk) result.history (K.state sink.old) (K.state sink.new) }
{
    match mount(alloc, disk) {
        Ok(mount) => written(sink, run_scan(rt, alloc, mount)),
        Err(why) => refused(sink, why),
    }
}

// What comes of a salvage.
pub(crate) fn salvage_outcome<R: Threads + Wait + Sync, K: Sink, D: Disk + Drop + Send>(
    rt: &R,
    alloc: Global,
    sink: &mut K,
    disk: D,
    words: &[String],
) -> Outcome<D>
    ensures headline { IfSome result.history
        (λ h. ∥ IsHeadlineOf (FollowsVisit AreReads) (D.state disk) (D.state result.disk) result.status h ∥₁) }
    ensures ends { SessionEnds (IsRefusedBy None (D.state disk) (D.state result.disk)) (D.state disk)
        (D.state result.disk)
        (K.state sink.old) (K.state sink.new) result.status result.history }
    ensures done { result.status ≡ 0 → IsSalvaged (picks_in (map string_bytes words.now)) (D.state disk) result.history
        (K.state sink.old) (K.state sink.new) }
    ensures unserved { result.history ≡ None → SaysCause (HasNoMount D.state None disk result.disk)
        (K.state sink.old) (K.state sink.new) result.status }
    ensures silent { result.status ≡ 7 → AppendsAll (K.state sink.old) (K.state sink.new) [] }
    ensures part { (result.status ≡ 3) ⊎ (result.status ≡ 5) → SaysWalk (picks_in (map string_bytes words.now))
        (D.state disk) result.history (K.state sink.old) (K.state sink.new) }
{
    match mount(alloc, disk) {
        Ok(mount) => written(sink, run_salvage(rt, alloc, mount, words)),
        Err(why) => refused(sink, why),
    }
}

// The numbers of the file system of a drill.
const DRILL: Numbers = Numbers {
    blocks: 4096,
    inodes: 256,
};

// What comes of a drill.
pub(crate) fn drill_outcome<R: Threads + Wait + Sync, K: Sink, D: Disk + Drop + Send>(
    rt: &R,
    alloc: Global,
    sink: &mut K,
    disk: D,
    start: u64,
    steps: u64,
) -> Outcome<D>
    requires { steps ≤ 4000 }
    ensures headline { IfSome result.history
        (IsDrillHeadline D.state start steps disk (D.state result.disk) result.status) }
    ensures ends { SessionEnds
        (IsRefusedBy (Some (record { blocks = 4096; inodes = 256 })) (D.state disk) (D.state result.disk))
        (D.state disk) (D.state result.disk) (K.state sink.old) (K.state sink.new) result.status result.history }
    ensures done { result.status ≡ 0 → IsDrillDone start steps result.history (K.state sink.old) (K.state sink.new) }
    ensures unserved { result.history ≡ None
        → SaysCause (HasNoMount D.state (Some (record { blocks = 4096; inodes = 256 })) disk result.disk)
        (K.state sink.old) (K.state sink.new) result.status }
    ensures silent { result.status ≡ 7 → AppendsAll (K.state sink.old) (K.state sink.new) [] }
    ensures part { (result.status ≡ 3) ⊎ (result.status ≡ 5)
        → SaysDrill (K.state sink.old) (K.state sink.new) start steps result.history }
{
    match format_and_mount(alloc, disk, DRILL) {
        Ok(mount) => written(sink, run_drill(rt, alloc, mount, start, steps)),
        Err(why) => refused(sink, why),
    }
}
