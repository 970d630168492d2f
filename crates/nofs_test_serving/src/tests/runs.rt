//! Runs of two users at a mount.
ghost use Rattle.std.specs.Prelude.{◌≤◌, All, IfOk, vec_len};
ghost use Rattle.nofs_client.specs.Task.Commands.{AreWellFormed};
ghost use Rattle.nofs_script.specs.Session.{IsSession};

use nofs_client::{CommandList, LineList};
use nofs_disk::Disk;
use nofs_history::{Entry1, History, PROGRAM, Step};
use nofs_script::{Session, line_text, parse};
use nofs_serve::{Plan, Served, Sweeps, WriteOuts, serve};
use nofs_shared::Mount;
use nofs_test_asks::told;
use nofs_workers::Gate;
use std::alloc::{AllocError, Global};
use std::sync::Wait;
use std::test::Fail;
use std::thread::Threads;

// The commands of a text of one user.
fn script(alloc: Global, text: &[u8]) -> Result<CommandList, Fail>
    ensures { IfOk result AreWellFormed }
{
    match parse(alloc, text) {
        Ok(session) => last_of(session),
        Err(_) => Err("no session".into()),
    }
}

fn last_of(session: Session) -> Result<CommandList, Fail>
    requires { IsSession session }
    ensures { IfOk result AreWellFormed }
{
    let mut scripts = session.into_vec();
    match scripts.pop() {
        Some(commands) => Ok(commands),
        None => Err("no user".into()),
    }
}

// The plans of two users.
fn plans_of<T: Drop>(
    alloc: Global,
    scripts: (CommandList, CommandList),
    gates: (T, T),
) -> Result<Vec<Plan<T>>, AllocError>
    requires formed { AreWellFormed scripts.0 × AreWellFormed scripts.1 }
    ensures few { IfOk result (λ plans. vec_len plans ≤ 8) }
    ensures formed { IfOk result (λ plans. All (λ p. AreWellFormed p.commands) plans.items) }
{
    let mut plans = Vec::with_capacity(alloc, 2)?;
    plans.push_reserved(Plan {
        commands: scripts.0,
        gate: gates.0,
    });
    plans.push_reserved(Plan {
        commands: scripts.1,
        gate: gates.1,
    });
    Ok(plans)
}

/// The plans of two users with these texts.
pub(crate) fn plans_for<T: Drop>(
    alloc: Global,
    texts: (&[u8], &[u8]),
    gates: (T, T),
) -> Result<Vec<Plan<T>>, Fail>
    ensures few { IfOk result (λ plans. vec_len plans ≤ 8) }
    ensures formed { IfOk result (λ plans. All (λ p. AreWellFormed p.commands) plans.items) }
{
    let scripts = (script(alloc, texts.0)?, script(alloc, texts.1)?);
    match plans_of(alloc, scripts, gates) {
        Ok(plans) => Ok(plans),
        Err(_) => Err("no memory".into()),
    }
}

/// What two users were told, and the history then.
#[derive(Drop)]
pub struct RunOutput {
    /// The text of all lines, the first user's first.
    pub text: Vec<u8>,
    pub history: History,
    pub out_of_memory: bool,
}

/// Serves users at a mount, each with a gate, beside both sweeps, of so many inodes and blocks, and a flusher of 64
/// turns, each with one too. Then it flushes, as the program.
pub(crate) fn run_of<R: Threads + Wait + Sync, D: Disk + Drop + Send, T: Gate + Send + Drop>(
    rt: &R,
    alloc: Global,
    mount: Mount<D>,
    plans: Vec<Plan<T>>,
    swept: (u32, u64),
    gates: (T, T, T),
) -> Result<RunOutput, AllocError>
    requires few { vec_len plans ≤ 8 }
    requires formed { All (λ p. AreWellFormed p.commands) plans.items }
{
    let sweeps = Sweeps {
        inodes: u64::from(swept.0),
        blocks: swept.1,
        gates: (gates.0, gates.1),
    };
    let outs = WriteOuts {
        turns: 64,
        gate: gates.2,
    };
    let served = serve(rt, alloc, mount, plans, sweeps, outs);
    output_of(alloc, served)
}

const FLUSH: Step = Step::Flush {
    inode: 0,
    generation: 0,
};

fn output_of<D: Disk + Drop>(
    alloc: Global,
    served: Served<Mount<D>>,
) -> Result<RunOutput, AllocError> {
    let text = text_of(alloc, &served.lines)?;
    let out_of_memory = served.out_of_memory;
    Ok(RunOutput {
        text,
        history: flushed(alloc, served.mount),
        out_of_memory,
    })
}

fn flushed<D: Disk + Drop>(alloc: Global, mount: Mount<D>) -> History {
    let mut mount = mount;
    let _reply = mount.step(alloc, PROGRAM, FLUSH);
    let (_disk, history) = mount.end();
    history
}

fn text_of(alloc: Global, users: &[LineList]) -> Result<Vec<u8>, AllocError> {
    let mut text = Vec::new(alloc);
    for lines in users {
        add_text(alloc, lines, &mut text)?;
    }
    Ok(text)
}

fn add_text(alloc: Global, lines: &LineList, text: &mut Vec<u8>) -> Result<(), AllocError> {
    for line in lines.as_slice() {
        text.extend_from_slice(&line_text(alloc, line)?)?;
    }
    Ok(())
}

fn is_by(entry: Option<&Entry1>, callers: &[u32]) -> bool {
    match entry {
        Some(it) => callers.contains(&it.caller),
        None => false,
    }
}

/// How many entries are of steps that these callers made.
pub(crate) fn count_of(history: &History, callers: &[u32]) -> u64 {
    let mut count = 0u64;
    for at in 0..history.len() {
        if is_by(history.entry(at), callers) {
            count = count.saturating_add(1);
        }
    }
    count
}

/// Whether the last entry is of a step that this caller made.
pub(crate) fn is_last_by(history: &History, caller: u32) -> bool {
    is_by(history.entry(history.len().saturating_sub(1)), &[caller])
}

fn add_told(
    alloc: Global,
    entry: &Entry1,
    caller: u32,
    text: &mut String,
) -> Result<(), AllocError> {
    if entry.caller != caller {
        return Ok(());
    }
    text.push_str(told(alloc, &entry.reply)?.as_str())?;
    text.push_str(", ")
}

fn add_told_to(
    alloc: Global,
    history: &History,
    caller: u32,
    text: &mut String,
) -> Result<(), AllocError> {
    for at in 0..history.len() {
        if let Some(entry) = history.entry(at) {
            add_told(alloc, entry, caller, text)?;
        }
    }
    text.push_str("end\n")
}

/// What is told of the replies to the steps that each of these callers made, a line each.
pub(crate) fn told_to(
    alloc: Global,
    history: &History,
    callers: &[u32],
) -> Result<String, AllocError> {
    let mut text = String::new(alloc);
    for caller in callers {
        add_told_to(alloc, history, *caller, &mut text)?;
    }
    Ok(text)
}
