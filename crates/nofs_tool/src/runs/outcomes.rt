//! What a run ends with, and what its sink was told.

ghost use Rattle.std.specs.Prelude.{◌≡◌, ◌≢◌, ◌↔◌, ◌⊎◌, [], None, Some, true, false, ℕ, List, IfSome};
ghost use Rattle.nofs_disk.specs.Disk.{Rose};
ghost use Rattle.nofs_io.specs.Texts.{AppendsAll};
ghost use Rattle.nofs_tool.specs.Begin.Lines.{cause_line, parts_text};
ghost use Rattle.nofs_tool.specs.Begin.Mounts.{status_of as status_in};
ghost use Rattle.nofs_history.specs.Faults.{has_fault};
ghost use Rattle.nofs_tool.specs.Runs.Says.{Prints};

use crate::begin::lines::{PartedLine, cause_text};
use crate::begin::mounts::{Refused, status_of};
use crate::runs::says::{say, say_parts, say_told};
use crate::session::serve::Ran;
use nofs_disk::Disk;
use nofs_history::History;
use nofs_io::Sink;
use nofs_script::Told;

/// What a run ends with. The history is there exactly where a mount stood.
#[derive(Drop)]
pub struct Outcome<D> {
    pub status: u8,
    pub disk: D,
    pub history: Option<History>,
}

/// A run that served nothing, and says why. A sink that fails here changes nothing.
pub(crate) fn told<K: Sink, D>(sink: &mut K, disk: D, status: u8, line: &str) -> Outcome<D>
    ensures is { (result.status ≡ status) × (result.disk ≡ disk) × (result.history ≡ None) }
    ensures says { Prints (K.state sink.old) (K.state sink.new) line.now }
{
    let _said = say(sink, line.as_bytes());
    Outcome {
        status,
        disk,
        history: None,
    }
}

/// A run that served nothing, since memory was wanting: nothing is said.
pub(crate) fn told_nothing<K: Sink, D>(sink: &mut K, disk: D) -> Outcome<D>
    ensures is { (result.status ≡ 7) × (result.disk ≡ disk) × (result.history ≡ None) }
    ensures silent { AppendsAll (K.state sink.old) (K.state sink.new) [] }
{
    told(sink, disk, 7, "")
}

/// A run that served nothing, and says why in a line of parts. A sink that fails here changes nothing.
pub(crate) fn told_line<K: Sink, D>(
    sink: &mut K,
    disk: D,
    status: u8,
    line: PartedLine,
) -> Outcome<D>
    ensures is { (result.status ≡ status) × (result.disk ≡ disk) × (result.history ≡ None) }
    ensures says { (text : List ℕ) → parts_text line.parts ≡ text
        → Prints (K.state sink.old) (K.state sink.new) text }
{
    let _said = say_parts(sink, &line.parts);
    Outcome {
        status,
        disk,
        history: None,
    }
}

// The status after all was told.
fn status_after<K: Sink>(sink: &mut K, told: &Told, faulty: bool) -> u8
    ensures device { result ≡ 3 ↔ faulty ≡ true }
    ensures sink { result ≡ 5 → Rose (K.state sink.old).faults (K.state sink.new).faults }
    ensures done { result ≡ 0 → (faulty ≡ false) × AppendsAll (K.state sink.old) (K.state sink.new) told.now }
    ensures sound { result ≡ 5 → faulty ≡ false }
    ensures named { (result ≡ 0) ⊎ (result ≡ 3) ⊎ (result ≡ 5) }
    ensures says { Prints (K.state sink.old) (K.state sink.new) told.now }
{
    let end = say_told(sink, told);
    if faulty {
        return 3;
    }
    match end {
        Ok(()) => 0,
        Err(_) => 5,
    }
}

// Writes the text of a run that was mounted.
#[tactic(auto, using(crate::proofs::OnRuns::Said::says_nothing))]
pub(crate) fn written<K: Sink, D: Disk>(sink: &mut K, ran: Ran<D>) -> Outcome<D>
    ensures disk { (result.disk ≡ ran.disk) × (result.history ≡ Some ran.history) }
    ensures device { result.status ≡ 3 → has_fault ran.history.entries ≡ true }
    ensures faulty { has_fault ran.history.entries ≡ true → (result.status ≡ 3) ⊎ (result.status ≡ 7) }
    ensures sink { result.status ≡ 5
        → Rose (K.state sink.old).faults (K.state sink.new).faults × (has_fault ran.history.entries ≡ false) }
    ensures done { result.status ≡ 0 → (has_fault ran.history.entries ≡ false) × (ran.text ≢ None)
        × IfSome ran.text (AppendsAll (K.state sink.old) (K.state sink.new)) }
    ensures named { (result.status ≡ 0) ⊎ (result.status ≡ 3) ⊎ (result.status ≡ 5) ⊎ (result.status ≡ 7) }
    ensures unsaid { ran.text ≡ None → result.status ≡ 7 }
    ensures silent { result.status ≡ 7 → AppendsAll (K.state sink.old) (K.state sink.new) [] }
    ensures says { IfSome ran.text (Prints (K.state sink.old) (K.state sink.new)) }
{
    let Ran {
        disk,
        history,
        text,
    } = ran;
    let status = match text {
        None => 7,
        Some(told) => status_after(sink, &told, history.has_fault()),
    };
    Outcome {
        status,
        disk,
        history: Some(history),
    }
}

/// A device that was not mounted.
pub(crate) fn refused<K: Sink, D: Disk>(sink: &mut K, refused: Refused<D>) -> Outcome<D>
    ensures is { (result.status ≡ status_in refused.cause) × (result.disk ≡ refused.disk) × (result.history ≡ None) }
    ensures says { Prints (K.state sink.old) (K.state sink.new) (cause_line refused.cause) }
    ensures silent { result.status ≡ 7 → AppendsAll (K.state sink.old) (K.state sink.new) [] }
{
    let Refused { disk, cause } = refused;
    told_line(sink, disk, status_of(cause), cause_text(cause))
}
