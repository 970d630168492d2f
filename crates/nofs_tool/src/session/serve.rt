//! Serving a session at a mount, and counting what is used.
//!
//! Promise: user `u` of a session is caller `u`, the sweeps and the flusher are the callers that `nofs_history`
//! names; the flusher makes no entry, and the program itself the last one, a flush of the whole disk, where there is
//! memory for it. The text is that of the session by the replies in the history, and is not there where memory was
//! wanting.

ghost use Rattle.std.specs.Prelude.{◌≡◌, ◌≤◌, [], true, false, not, map};
ghost use Rattle.std.specs.Prelude.{All, List, vec_len, IfOk, IfSome};
ghost use Rattle.nofs_history.specs.Steps.{is_out_of_memory};
ghost use Rattle.nofs_history.specs.declared.machine.steps.Step.TheVariants as step;
ghost use Rattle.nofs_history.specs.declared.machine.replies.Reply.{Reply};
ghost use Rattle.nofs_client.specs.Task.Commands.{AreWellFormed};
ghost use Rattle.nofs_client.specs.declared.task.lines.Line.{Line};
ghost use Rattle.nofs_script.specs.Session.{IsSession};
ghost use Rattle.nofs_serve.specs.Session.{TeamServed};
ghost use Rattle.nofs_shared.specs.Passes.Entries.{TellsStep};
ghost use Rattle.nofs_tool.specs.Session.Entries.{session_text};
ghost use Rattle.nofs_tool.specs.Session.Counts.{IsCounted, IsScanText};
ghost use Rattle.nofs_tool.specs.Session.Serve.{AreSwept, IsClosed, IsFollowed, IsSessionRun};
ghost use Rattle.nofs_tool.specs.Session.Whole.{Finished};

use crate::session::counts::scan_text;
use nofs_disk::Disk;
use nofs_history::{History, MOST_USERS, PROGRAM, Step};
use nofs_script::{Session, Told};
use nofs_serve::{Plan, Served, Sweeps, WriteOuts, serve};
use nofs_shared::Mount;
use nofs_workers::OpenGate;
use std::alloc::{AllocError, Global};
use std::sync::Wait;
use std::thread::Threads;

/// A device after a run, with the history and the text; none where memory was wanting.
#[derive(Drop)]
pub struct Ran<D> {
    pub disk: D,
    pub history: History,
    pub text: Option<Told>,
}

/// Makes all durable; false where memory was wanting.
pub(crate) fn close<D: Disk + Drop>(alloc: Global, mount: &mut Mount<D>) -> bool
    ensures adds { (reply : Reply)
        × TellsStep PROGRAM
        (step.Flush 0 0) mount.old.core.books.history.entries mount.new.core.books.history.entries reply
        × (result ≡ not (is_out_of_memory reply)) }
    ensures closed { result ≡ true → IsClosed (D.state mount.new.core.disk) mount.new.core.books.history.entries }
    ensures same { (mount.new.found ≡ mount.old.found) × (mount.new.first ≡ mount.old.first) }
{
    let flush = Step::Flush {
        inode: 0,
        generation: 0,
    };
    let reply = mount.step(alloc, PROGRAM, flush);
    !reply.is_out_of_memory()
}

// A plan for each user: nothing holds its steps.
fn plans_of(alloc: Global, session: Session) -> Result<Vec<Plan<OpenGate>>, AllocError>
    requires { IsSession session }
    ensures few { IfOk result (λ plans. vec_len plans ≤ MOST_USERS) }
    ensures formed { IfOk result (λ plans. All (λ p. AreWellFormed p.commands) plans.items) }
    ensures scripts { IfOk result (λ plans. map (λ p. p.commands) plans.items ≡ session) }
{
    let mut scripts = session.into_vec();
    let mut plans = Vec::new(alloc);
    while !scripts.is_empty() {
        plans.push(Plan {
            commands: scripts.remove(0),
            gate: OpenGate,
        })?;
    }
    Ok(plans)
}

/// Serves users, each beside the sweeps and the flusher, which writes out as often as the disk has blocks. At a
/// new mount both sweeps examine each element, since it took memory for their entries; or nobody is served.
pub(crate) fn serve_users<R: Threads + Wait + Sync, D: Disk + Drop + Send>(
    rt: &R,
    alloc: Global,
    mount: Mount<D>,
    plans: Vec<Plan<OpenGate>>,
) -> Served<Mount<D>>
    requires few { vec_len plans ≤ MOST_USERS }
    requires formed { All (λ p. AreWellFormed p.commands) plans.items }
    ensures same { (result.mount.found.value ≡ mount.found.value) × (result.mount.first ≡ mount.first) }
    ensures swept { mount.core.books.history.entries ≡ []
        → AreSwept mount.core.books.at.inodes mount.core.books.at.blocks mount.core.books.history.entries
        result.mount.core.books.history.entries }
    ensures served { TeamServed (map (λ p. p.commands) plans.items) mount.core.books.at.inodes
        mount.core.books.at.blocks result.out_of_memory
        result.lines.items mount.core.books.history.entries result.mount.core.books.history.entries }
{
    let at = mount.numbers();
    let sweeps = Sweeps {
        inodes: at.inodes,
        blocks: at.blocks,
        gates: (OpenGate, OpenGate),
    };
    let outs = WriteOuts {
        turns: at.blocks,
        gate: OpenGate,
    };
    serve(rt, alloc, mount, plans, sweeps, outs)
}

// Serves users, and makes all durable.
fn serve_and_close<R: Threads + Wait + Sync, D: Disk + Drop + Send>(
    rt: &R,
    alloc: Global,
    mount: Mount<D>,
    plans: Vec<Plan<OpenGate>>,
) -> Served<Mount<D>>
    requires new { mount.core.books.history.entries ≡ [] }
    requires few { vec_len plans ≤ MOST_USERS }
    requires formed { All (λ p. AreWellFormed p.commands) plans.items }
    ensures same { (result.mount.found.value ≡ mount.found.value) × (result.mount.first ≡ mount.first) }
    ensures ran { IsSessionRun (map (λ p. p.commands) plans.items) mount.core.books.at.inodes mount.core.books.at.blocks
        result.out_of_memory
        result.lines.items result.mount.core.books.history.entries }
    ensures closed { result.out_of_memory ≡ false
        → IsClosed (D.state result.mount.core.disk) result.mount.core.books.history.entries }
{
    let Served {
        mut mount,
        lines,
        ended_early,
        out_of_memory,
    } = serve_users(rt, alloc, mount, plans);
    let closed = close(alloc, &mut mount);
    Served {
        mount,
        lines,
        ended_early,
        out_of_memory: out_of_memory || !closed,
    }
}

/// A mount at its end with a text.
pub(crate) fn ended<D: Disk + Drop>(mount: Mount<D>, text: Option<Told>) -> Ran<D>
    ensures text { result.text ≡ text }
    ensures history { result.history ≡ mount.core.books.history }
    ensures disk { result.disk ≡ mount.core.disk }
    ensures ends { ∥ Finished (D.state mount.found.value) (D.state result.disk) mount.first result.history ∥₁ }
{
    let (disk, history) = mount.end();
    Ran {
        disk,
        history,
        text,
    }
}

/// Serves the users of a session, and then makes all durable.
pub(crate) fn run_session<R: Threads + Wait + Sync, D: Disk + Drop + Send>(
    rt: &R,
    alloc: Global,
    mount: Mount<D>,
    session: Session,
) -> Ran<D>
    requires session { IsSession session }
    requires new { mount.core.books.history.entries ≡ [] }
    ensures ends { ∥ Finished (D.state mount.found.value) (D.state result.disk) mount.first result.history ∥₁ }
    ensures follows { IsFollowed session mount.core.books.at result.text result.history.entries }
    ensures closed { IfSome result.text (λ _. IsClosed (D.state result.disk) result.history.entries) }
    ensures ran { IfSome result.text (λ text. (lines : List (List Line))
        × IsSessionRun session mount.core.books.at.inodes mount.core.books.at.blocks false lines result.history.entries
        × (text ≡ session_text session result.history.entries)) }
{
    let Ok(plans) = plans_of(alloc, session) else {
        return ended(mount, None);
    };
    let Served {
        mount,
        lines,
        ended_early: _,
        out_of_memory,
    } = serve_and_close(rt, alloc, mount, plans);
    if out_of_memory {
        return ended(mount, None);
    }
    ended(mount, Some(Told::of_lines(alloc, lines)))
}

/// Examines every inode and every block, makes all durable, and says how many are used, where no write failed.
pub(crate) fn run_scan<R: Threads + Wait + Sync, D: Disk + Drop + Send>(
    rt: &R,
    alloc: Global,
    mount: Mount<D>,
) -> Ran<D>
    requires new { mount.core.books.history.entries ≡ [] }
    requires first { mount.first ≡ 0 }
    ensures ends { ∥ Finished (D.state mount.found.value) (D.state result.disk) mount.first result.history ∥₁ }
    ensures follows { IsFollowed [] mount.core.books.at result.text result.history.entries }
    ensures closed { IfSome result.text (λ _. IsClosed (D.state result.disk) result.history.entries) }
    ensures counted { IfSome result.text (IsScanText result.history.entries
        (IsCounted (D.state mount.found.value) (D.state result.disk) result.history)) }
{
    let Served {
        mount,
        lines: _,
        ended_early: _,
        out_of_memory,
    } = serve_and_close(rt, alloc, mount, Vec::new(alloc));
    if out_of_memory {
        return ended(mount, None);
    }
    let text = scan_text(alloc, mount.history(), &mount.counts()).ok();
    ended(mount, text)
}
