//! What comes of a session: its text is read, a mount serves it, and its lines are written.

ghost use Rattle.std.specs.Prelude.{◌≡◌, ◌≢◌, ◌⊎◌, ◌+◌, [], ℕ, IfOk, IfSome, List, None, Some};
ghost use Rattle.nofs_script.specs.Pieces.{Spells};
ghost use Rattle.nofs_script.specs.Session.{IsSession};
ghost use Rattle.nofs_io.specs.Texts.{AppendsAll, TakesAtMost};
ghost use Rattle.nofs_tool.specs.Begin.Mounts.{HasNoMount, IsRaisedFrom};
ghost use Rattle.nofs_tool.specs.Runs.Said.{IsUnread, Said, SaysCause, SaysFault, SaysSession};
ghost use Rattle.nofs_tool.specs.Runs.Headline.{HeadlineOf, IsHeadline};
ghost use Rattle.nofs_tool.specs.Runs.Statuses.{IsExplained, KeepsDevice};
ghost use Rattle.nofs_tool.specs.Runs.Tool.{IsNoSession, IsRefusedBy, IsSessionAnswered};
ghost use Rattle.nofs_tool.specs.Runs.Tool.{MountEnds, SessionEnds, WithSession, WithText};

use crate::begin::lines::{FixedLine, fixed_text, script_text};
use crate::begin::mounts::{Numbers, format_and_mount, mount};
use crate::begin::words::Request;
use crate::runs::outcomes::{Outcome, refused, told, told_line, told_nothing, written};
use crate::runs::texts::read_session;
use crate::session::serve::run_session;
use nofs_disk::Disk;
use nofs_io::{ReadFault, Sink, Source, TEXT_LIMIT};
use nofs_script::{ParseFault, Session};
use nofs_shared::Mount;
use std::alloc::Global;
use std::sync::Wait;
use std::thread::Threads;

// What comes of a session at a mount.
fn mounted<R: Threads + Wait + Sync, K: Sink, D: Disk + Drop + Send>(
    rt: &R,
    alloc: Global,
    sink: &mut K,
    mount: Mount<D>,
    session: Session,
) -> Outcome<D>
    requires session { IsSession session }
    requires new { mount.core.books.history.entries ≡ [] }
    requires first { mount.first ≡ 0 }
    requires raised { IsRaisedFrom (D.state mount.found.value) mount.core.books.at }
    ensures headline { IfSome result.history
        (λ h. ∥ IsHeadline session (D.state mount.found.value) (D.state result.disk) result.status h ∥₁) }
    ensures ends { MountEnds (D.state mount.found.value) (D.state result.disk) (K.state sink.old)
        (K.state sink.new) result.status result.history }
    ensures done { result.status ≡ 0 → IsSessionAnswered session result.history (K.state sink.old) (K.state sink.new) }
    ensures part { (result.status ≡ 3) ⊎ (result.status ≡ 5)
        → SaysSession (K.state sink.old) (K.state sink.new) session result.history }
    ensures silent { result.status ≡ 7 → AppendsAll (K.state sink.old) (K.state sink.new) [] }
{
    written(sink, run_session(rt, alloc, mount, session))
}

// What comes of a session on a device that is formatted first.
fn new_outcome<R: Threads + Wait + Sync, K: Sink, D: Disk + Drop + Send>(
    rt: &R,
    alloc: Global,
    sink: &mut K,
    disk: D,
    numbers: Numbers,
    session: Session,
) -> Outcome<D>
    requires { IsSession session }
    ensures headline { IfSome result.history
        (HeadlineOf D.state (Some numbers) session disk (D.state result.disk) result.status) }
    ensures ends { SessionEnds (IsRefusedBy (Some numbers) (D.state disk) (D.state result.disk)) (D.state disk)
        (D.state result.disk)
        (K.state sink.old) (K.state sink.new) result.status result.history }
    ensures done { result.status ≡ 0 → IsSessionAnswered session result.history (K.state sink.old) (K.state sink.new) }
    ensures unserved { result.history ≡ None → SaysCause (HasNoMount D.state (Some numbers) disk result.disk)
        (K.state sink.old) (K.state sink.new) result.status }
    ensures silent { result.status ≡ 7 → AppendsAll (K.state sink.old) (K.state sink.new) [] }
    ensures part { (result.status ≡ 3) ⊎ (result.status ≡ 5)
        → SaysSession (K.state sink.old) (K.state sink.new) session result.history }
{
    match format_and_mount(alloc, disk, numbers) {
        Ok(mount) => mounted(rt, alloc, sink, mount, session),
        Err(why) => refused(sink, why),
    }
}

// What comes of a session on a device as it is.
fn run_outcome<R: Threads + Wait + Sync, K: Sink, D: Disk + Drop + Send>(
    rt: &R,
    alloc: Global,
    sink: &mut K,
    disk: D,
    session: Session,
) -> Outcome<D>
    requires { IsSession session }
    ensures headline { IfSome result.history
        (HeadlineOf D.state None session disk (D.state result.disk) result.status) }
    ensures ends { SessionEnds (IsRefusedBy None (D.state disk) (D.state result.disk)) (D.state disk)
        (D.state result.disk)
        (K.state sink.old) (K.state sink.new) result.status result.history }
    ensures done { result.status ≡ 0 → IsSessionAnswered session result.history (K.state sink.old) (K.state sink.new) }
    ensures unserved { result.history ≡ None → SaysCause (HasNoMount D.state None disk result.disk)
        (K.state sink.old) (K.state sink.new) result.status }
    ensures silent { result.status ≡ 7 → AppendsAll (K.state sink.old) (K.state sink.new) [] }
    ensures part { (result.status ≡ 3) ⊎ (result.status ≡ 5)
        → SaysSession (K.state sink.old) (K.state sink.new) session result.history }
{
    match mount(alloc, disk) {
        Ok(mount) => mounted(rt, alloc, sink, mount, session),
        Err(why) => refused(sink, why),
    }
}

// What comes of a session: where there are numbers, the device is formatted with them.
fn session_outcome<R: Threads + Wait + Sync, K: Sink, D: Disk + Drop + Send>(
    rt: &R,
    alloc: Global,
    sink: &mut K,
    disk: D,
    numbers: Option<Numbers>,
    session: Session,
) -> Outcome<D>
    requires { IsSession session }
    ensures ends { SessionEnds (IsRefusedBy numbers (D.state disk) (D.state result.disk)) (D.state disk)
        (D.state result.disk)
        (K.state sink.old) (K.state sink.new) result.status result.history }
    ensures headline { IfSome result.history
        (HeadlineOf D.state numbers session disk (D.state result.disk) result.status) }
    ensures unserved { result.history ≡ None → SaysCause (HasNoMount D.state numbers disk result.disk)
        (K.state sink.old) (K.state sink.new) result.status }
    ensures silent { result.status ≡ 7 → AppendsAll (K.state sink.old) (K.state sink.new) [] }
    ensures done { result.status ≡ 0 → IsSessionAnswered session result.history (K.state sink.old) (K.state sink.new) }
    ensures part { (result.status ≡ 3) ⊎ (result.status ≡ 5)
        → SaysSession (K.state sink.old) (K.state sink.new) session result.history }
{
    match numbers {
        Some(numbers) => new_outcome(rt, alloc, sink, disk, numbers, session),
        None => run_outcome(rt, alloc, sink, disk, session),
    }
}

// What comes of what a text was read to.
fn text_outcome<R: Threads + Wait + Sync, K: Sink, D: Disk + Drop + Send>(
    rt: &R,
    alloc: Global,
    sink: &mut K,
    disk: D,
    numbers: Option<Numbers>,
    read: Result<Session, ParseFault>,
) -> Outcome<D>
    requires { IfOk read IsSession }
    ensures headline { (text : List ℕ) → Spells text read → IfSome result.history (λ h. WithSession text (λ session.
        HeadlineOf D.state numbers session disk (D.state result.disk) result.status h)) }
    ensures script { (text : List ℕ) → Spells text read
        → result.status ≡ 2 → IsNoSession text × (result.disk ≡ disk) × (result.history ≡ None) }
    ensures ends { result.status ≢ 2
        → SessionEnds (IsRefusedBy numbers (D.state disk) (D.state result.disk)) (D.state disk) (D.state result.disk)
        (K.state sink.old) (K.state sink.new) result.status result.history }
    ensures session { (text : List ℕ) → Spells text read
        → (result.status ≡ 0) ⊎ (result.status ≡ 3) ⊎ (result.status ≡ 4) ⊎ (result.status ≡ 5)
        → WithSession text (λ _. Unit {0}) }
    ensures done { (text : List ℕ) → Spells text read → result.status ≡ 0 → WithSession text
        (λ session. IsSessionAnswered session result.history (K.state sink.old) (K.state sink.new)) }
    ensures fault { (text : List ℕ) → Spells text read
        → result.status ≡ 2 → SaysFault (K.state sink.old) (K.state sink.new) text }
    ensures unserved { result.history ≡ None → IsUnread disk result.disk result.status
        ⊎ SaysCause (HasNoMount D.state numbers disk result.disk) (K.state sink.old) (K.state sink.new) result.status }
    ensures silent { result.status ≡ 7 → AppendsAll (K.state sink.old) (K.state sink.new) [] }
    ensures part { (text : List ℕ) → Spells text read → (result.status ≡ 3) ⊎ (result.status ≡ 5)
        → WithSession text (λ session. SaysSession (K.state sink.old) (K.state sink.new) session result.history) }
{
    match read {
        Ok(session) => session_outcome(rt, alloc, sink, disk, numbers, session),
        Err(ParseFault::Wrong(fault)) => told_line(sink, disk, 2, script_text(fault)),
        Err(ParseFault::OutOfMemory) => told_nothing(sink, disk),
    }
}

// What comes of a source. But for the headline and a refusal, what is promised is that of `run`, also where the device
// is formatted first.
pub(crate) fn source_outcome<R: Threads + Wait + Sync, S: Source, K: Sink, D: Disk + Drop + Send>(
    rt: &R,
    alloc: Global,
    source: &mut S,
    sink: &mut K,
    disk: D,
    numbers: Option<Numbers>,
) -> Outcome<D>
    ensures headline { IfSome result.history
        (λ h. WithText (S.state source.old) (S.state source.new) TEXT_LIMIT (λ text.
        WithSession text (λ session. HeadlineOf D.state numbers session disk (D.state result.disk) result.status h))) }
    ensures usage { result.status ≢ 1 }
    ensures causes { IsExplained (Some Request.Run) (S.state source.old) (S.state source.new) TEXT_LIMIT
        (K.state sink.old) (K.state sink.new)
        (D.state disk) (D.state result.disk) result.status result.history }
    ensures kept { KeepsDevice (IsRefusedBy numbers (D.state disk) (D.state result.disk))
        (Some Request.Run) disk result.disk result.status
        result.history }
    ensures done { result.status ≡ 0 → WithText (S.state source.old) (S.state source.new) TEXT_LIMIT (λ text.
        WithSession text (λ session. IsSessionAnswered session result.history (K.state sink.old) (K.state sink.new))) }
    ensures unserved { result.history ≡ None → IsUnread disk result.disk result.status
        ⊎ SaysCause (HasNoMount D.state numbers disk result.disk) (K.state sink.old) (K.state sink.new) result.status }
    ensures taken { TakesAtMost (S.state source.old) (S.state source.new) (TEXT_LIMIT + 1) }
    ensures said { Said (Some Request.Run) (S.state source.old) (S.state source.new) TEXT_LIMIT (K.state sink.old)
        (K.state sink.new) result.status
        result.history }
{
    match read_session(alloc, source, TEXT_LIMIT) {
        Ok(read) => text_outcome(rt, alloc, sink, disk, numbers, read),
        Err(ReadFault::Source) => told(sink, disk, 6, fixed_text(FixedLine::SourceFault)),
        Err(ReadFault::TooLong) => told(sink, disk, 8, fixed_text(FixedLine::TooLong)),
        Err(ReadFault::OutOfMemory) => told_nothing(sink, disk),
    }
}
