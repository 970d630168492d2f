//! The program's call: words, a source, a sink and a device in; a status, the device and the history out.
//!
//! Promise: each status says what came of the run, in the order 1, 6, 8, 2, 4, 7, 3, 5, 0 of what is found first. At
//! status 0 the sink took the whole text of the session, as it follows from the replies in the history. Wherever there
//! is a history, the headline holds of it.

ghost use Rattle.std.specs.Prelude.{◌≡◌, ◌↔◌, ◌⊎◌, None, Some, map, IfSome, string_bytes};
ghost use Rattle.nofs_tool.specs.Begin.Words.{picks_in, task_in};
ghost use Rattle.nofs_tool.specs.Runs.Said.{IsUnserved, Said};
ghost use Rattle.nofs_tool.specs.Runs.Headline.{HeadlineIn};
ghost use Rattle.nofs_tool.specs.Runs.Complete.{IsReady, NoneRose};
ghost use Rattle.nofs_tool.specs.Runs.Statuses.{HoldsOfTask, IsExplained, KeepsDevice, TakesOnly};
ghost use Rattle.nofs_tool.specs.Runs.Tool.{IsDone, IsRefusedTask};

use crate::begin::lines::{FixedLine, fixed_text};
use crate::begin::mounts::Numbers;
use crate::begin::words::{Request, task_of};
use crate::runs::outcomes::{Outcome, told};
use crate::runs::sessions::source_outcome;
use crate::runs::tasks::{drill_outcome, salvage_outcome, scan_outcome};
use crate::upgrade::upgrade_outcome;
use crate::visits::wire::wire_outcome;
use nofs_disk::Disk;
use nofs_io::{Sink, Source, TEXT_LIMIT};
use std::alloc::Global;
use std::sync::Wait;
use std::thread::Threads;

/// Runs the program on a device. `words` are those behind the image's path.
///
/// | Status | Comes |
/// |---|---|
/// | 1 | exactly where the words are no command |
/// | 6 | only where the source failed |
/// | 8 | only where the source of `new`, `run` or `wire` had more than 16,777,216 bytes |
/// | 2 | only where the text is no session, or a frame is bad or cut |
/// | 4 | only where format, mount or upgrade refused with another cause than the device or memory |
/// | 7 | where memory was wanting |
/// | 3 | only where the device failed: in format, mount or upgrade, or in a step; where a step has a fault, 3 or 7 |
/// | 5 | only where the sink failed |
/// | 0 | where none of these came |
///
/// At status 1, and at 2, 6 and 8 but of `wire`, no call of the device was made; at 4 no write was made but a format's,
/// and a device that tells was refused by the table of the numbers or of the superblock's faults (`KeepsDevice` in
/// specs/Runs/Statuses.antt here). At 0, 3, 4 and 5 of `new` and `run` the text is a session. Each cause is a field of
/// `IsExplained` there, by its name.
///
/// What the sink was told at each status is in `Said` (specs/Runs/Said.antt there): the line of that status, or the
/// session's text, or a part of it; at status 7 nothing, but for the replies to frames.
///
/// There is no history only where no session was read, or where format or mount refused, and of an upgrade.
/// `IsUnserved` there says by which fault, what it left of the device, and that the line is that of this very fault,
/// which takes no memory. At 4 and 7 the cells are then as they were, or as a whole format left them.
///
/// Of its source a task takes only what it reads as a session or as frames (`TakesOnly` in specs/Runs/Statuses.antt).
///
/// Where there is a history, the headline holds of it (`IsHeadline` in specs/Runs/Headline.antt there): its entries are
/// the steps that the session asks for; and where the premises are met, it is a run of the machine, and at every moment
/// a crash leaves only what it allows.
///
/// A salvage tells of its walk: where the premises are met, what is lost in the world that the mount found
/// (`IsSalvaged` in specs/Visits/Salvage.antt here). Frames are served until they end (`WireEnds` in
/// specs/Visits/Wire.antt here); of its statuses 6, 8, 2 and 7 come before 3, and 5 after it.
///
/// An upgrade begins no mount: at each moment of it a crash leaves an image that it could leave before, or that one
/// with version 2.
///
/// Where the words are a command, its session is one, its device is ready, and no count of faults rose, the status is 0
/// or 7.
pub fn tool<R: Threads + Wait + Sync, S: Source, K: Sink, D: Disk + Drop + Send>(
    rt: &R,
    alloc: Global,
    words: &[String],
    source: &mut S,
    sink: &mut K,
    disk: D,
) -> Outcome<D>
    ensures headline { IfSome result.history
        (HeadlineIn D.state (task_in (map string_bytes words.now)) (S.state source.old) (S.state source.new)
        TEXT_LIMIT disk (D.state result.disk) result.status) }
    ensures usage { result.status ≡ 1 ↔ task_in (map string_bytes words.now) ≡ None }
    ensures causes { IsExplained (task_in (map string_bytes words.now)) (S.state source.old)
        (S.state source.new) TEXT_LIMIT (K.state sink.old)
        (K.state sink.new) (D.state disk) (D.state result.disk) result.status result.history }
    ensures kept { KeepsDevice
        (IsRefusedTask (task_in (map string_bytes words.now)) (D.state disk) (D.state result.disk))
        (task_in (map string_bytes words.now)) disk result.disk result.status result.history }
    ensures done { result.status ≡ 0
        → IsDone (task_in (map string_bytes words.now)) (S.state source.old) (S.state source.new) TEXT_LIMIT
        (K.state sink.old) (K.state sink.new) (D.state disk) (D.state result.disk) result.history }
    ensures said { Said (task_in (map string_bytes words.now)) (S.state source.old) (S.state source.new) TEXT_LIMIT
        (K.state sink.old)
        (K.state sink.new) result.status result.history }
    ensures unserved { result.history ≡ None
        → IsUnserved D.state (task_in (map string_bytes words.now)) disk result.disk
        (K.state sink.old) (K.state sink.new) result.status }
    ensures taken { TakesOnly (task_in (map string_bytes words.now)) (S.state source.old)
        (S.state source.new) TEXT_LIMIT }
    ensures further { HoldsOfTask (task_in (map string_bytes words.now)) (picks_in (map string_bytes words.now))
        (S.state source.old)
        (S.state source.new) (K.state sink.old) (K.state sink.new) (D.state disk)
        (D.state result.disk) result.status result.history }
    ensures complete { IsReady (task_in (map string_bytes words.now)) (S.state source.old) TEXT_LIMIT (D.state disk)
        → NoneRose (S.state source.old) (S.state source.new) (D.state disk) (D.state result.disk) (K.state sink.old)
        (K.state sink.new)
        → (result.status ≡ 0) ⊎ (result.status ≡ 7) }
{
    match task_of(words) {
        None => told(sink, disk, 1, fixed_text(FixedLine::Usage)),
        Some(Request::New { blocks, inodes }) => {
            let numbers = Numbers { blocks, inodes };
            source_outcome(rt, alloc, source, sink, disk, Some(numbers))
        }
        Some(Request::Run) => source_outcome(rt, alloc, source, sink, disk, None),
        Some(Request::Scan) => scan_outcome(rt, alloc, sink, disk),
        Some(Request::Drill { start, steps }) => drill_outcome(rt, alloc, sink, disk, start, steps),
        Some(Request::Upgrade) => upgrade_outcome(sink, disk),
        Some(Request::Salvage) => salvage_outcome(rt, alloc, sink, disk, words),
        Some(Request::Wire) => wire_outcome(rt, alloc, source, sink, disk),
    }
}
