//! The drill: four users with drawn scripts at a fresh mount, and a line that tells whether their files have what was
//! accepted.
//!
//! Promise: where the line is told, each user made just the steps of its script, `PROGRAM` read the four files after
//! them and made all durable, and the numbers are those of the lines, of these reads, and of a replay of the history.
//! Where none is told each of them may have ended early: what it made is a beginning of these steps. Where the reads
//! did, nothing was made durable.

ghost use Rattle.std.specs.Prelude.{◌≡◌, ◌≤◌, ◌∷◌, ◌++◌, ◌+◌, [], false, sum_by, count_by, All, map, vec_len, IfOk};
ghost use Rattle.std.specs.Prelude.{IfSome, OnOk};
ghost use Rattle.nofs_client.specs.Task.Commands.{AreWellFormed};
ghost use Rattle.nofs_gen.specs.Script.{script_of as script_in};
ghost use Rattle.nofs_tool.specs.Session.Serve.{IsClosed};
ghost use Rattle.nofs_tool.specs.Session.Whole.{Finished};
ghost use Rattle.nofs_tool.specs.Drill.{IsDrillFollowed, IsDrilled, IsReadFollowed, IsReadOut};
ghost use Rattle.nofs_gen.specs.Tally.{drill_line};
ghost use Rattle.nofs_tool.specs.Drill.{drill_session};
ghost use Rattle.nofs_gen.specs.Tally.{is_refused_line, size_told};
ghost use Rattle.nofs_gen.specs.Tally.{sum_told, wrong_told};

use crate::drill::reads::read_files;
use crate::session::serve::{Ran, close, ended, serve_users};
use nofs_client::LineList;
use nofs_disk::Disk;
use nofs_gen::{FileRead, drill_text, numbers_of, script_of};
use nofs_history::{History, MOST_USERS};
use nofs_script::Told;
use nofs_serve::{Plan, Served};
use nofs_shared::Mount;
use nofs_workers::OpenGate;
use std::alloc::{AllocError, Global};
use std::sync::Wait;
use std::thread::Threads;

// Adds the plan of a user: nothing holds its steps.
fn push_plan(
    alloc: Global,
    start: u64,
    steps: u64,
    user: u32,
    plans: &mut Vec<Plan<OpenGate>>,
) -> Result<(), AllocError>
    requires steps { steps ≤ 4000 }
    requires user { (1 ≤ user) × (user ≤ 4) }
    ensures more { OnOk result (vec_len plans.new ≡ vec_len plans.old + 1) }
    ensures scripts { OnOk result (map (λ p. p.commands) plans.new.items ≡ map (λ p. p.commands) plans.old.items
        ++ script_in start steps user ∷ []) }
{
    let commands = script_of(alloc, start, steps, user)?;
    let plan = Plan {
        commands,
        gate: OpenGate,
    };
    plans.push(plan)?;
    Ok(())
}

// The plans of the four users.
fn drill_plans(alloc: Global, start: u64, steps: u64) -> Result<Vec<Plan<OpenGate>>, AllocError>
    requires { steps ≤ 4000 }
    ensures few { IfOk result (λ plans. vec_len plans ≤ MOST_USERS) }
    ensures formed { IfOk result (λ plans. All (λ p. AreWellFormed p.commands) plans.items) }
    ensures scripts { IfOk result (λ plans. map (λ p. p.commands) plans.items ≡ drill_session start steps) }
{
    let mut plans = Vec::new(alloc);
    push_plan(alloc, start, steps, 1, &mut plans)?;
    push_plan(alloc, start, steps, 2, &mut plans)?;
    push_plan(alloc, start, steps, 3, &mut plans)?;
    push_plan(alloc, start, steps, 4, &mut plans)?;
    Ok(plans)
}

// The line, where memory was found for all that it takes.
fn line_of(
    alloc: Global,
    start: u64,
    steps: u64,
    users: &[LineList],
    reads: &[Option<FileRead>],
    history: &History,
) -> Result<Told, AllocError>
    requires { steps ≤ 4000 }
    ensures { IfOk result (λ text. text ≡ drill_line start steps (sum_by (count_by is_refused_line) users.now)
        (sum_by size_told reads.now)
        (sum_by sum_told reads.now) (sum_by (wrong_told history.now.entries) reads.now)) }
{
    let told = numbers_of(alloc, users, reads, history)?;
    let text = drill_text(alloc, start, steps, &told)?;
    Ok(Told::of_text(alloc, text.into_vec()))
}

// Reads the files of the users, makes all durable, and ends the mount with the line.
fn read_and_close<D: Disk + Drop>(
    alloc: Global,
    start: u64,
    steps: u64,
    served: Served<Mount<D>>,
) -> Ran<D>
    requires { steps ≤ 4000 }
    ensures ends { ∥ Finished (D.state served.mount.found.value)
        (D.state result.disk) served.mount.first result.history ∥₁ }
    ensures closed { IfSome result.text (λ _. IsClosed (D.state result.disk) result.history.entries) }
    ensures out { IfSome result.text (λ text. (served.out_of_memory ≡ false)
        × IsReadOut start steps (sum_by (count_by is_refused_line) served.lines.items)
        served.mount.core.books.history.entries result.history.entries text) }
    ensures follows { IsReadFollowed served.out_of_memory served.mount.core.books.history.entries result.text
        result.history.entries }
{
    let Served {
        mount,
        lines,
        ended_early: _,
        out_of_memory,
    } = served;
    let mut mount = mount;
    // Where the reads were cut, there is nothing to tell, and nothing more is asked of the device.
    let reads = match read_files(alloc, &mut mount) {
        Ok(reads) => reads,
        Err(_) => return ended(mount, None),
    };
    let closed = close(alloc, &mut mount);
    if out_of_memory {
        return ended(mount, None);
    }
    if !closed {
        return ended(mount, None);
    }
    let text = line_of(alloc, start, steps, &lines, &reads, mount.history()).ok();
    ended(mount, text)
}

/// Serves the drawn scripts of four users at a mount, reads their files, makes all durable, and tells of it in a line.
pub(crate) fn run_drill<R: Threads + Wait + Sync, D: Disk + Drop + Send>(
    rt: &R,
    alloc: Global,
    mount: Mount<D>,
    start: u64,
    steps: u64,
) -> Ran<D>
    requires steps { steps ≤ 4000 }
    requires new { mount.core.books.history.entries ≡ [] }
    ensures ends { ∥ Finished (D.state mount.found.value) (D.state result.disk) mount.first result.history ∥₁ }
    ensures follows { IsDrillFollowed start steps mount.core.books.at result.text result.history.entries }
    ensures closed { IfSome result.text (λ _. IsClosed (D.state result.disk) result.history.entries) }
    ensures drilled { IfSome result.text (IsDrilled start steps result.history.entries) }
{
    match drill_plans(alloc, start, steps) {
        Ok(plans) => read_and_close(alloc, start, steps, serve_users(rt, alloc, mount, plans)),
        Err(_) => ended(mount, None),
    }
}
