//! What a command does next, by all the replies to its steps so far.
//!
//! Promise: the answer is that of the definition, for every command and all replies that fit.
ghost use Rattle.std.specs.Prelude.{◌≡◌, IfOk};
ghost use Rattle.nofs_client.specs.Task.Commands.{IsWellFormed};
ghost use Rattle.nofs_client.specs.Task.State.{TaskStands};
ghost use Rattle.nofs_client.specs.Task.Steps.{IsSaid, task_asks};
ghost use Rattle.nofs_client.specs.Progress.{AllAnswer, start_of, asks, drive_of};
ghost use Rattle.nofs_client.specs.declared.task.next.Next.TheVariants.{Say};

use crate::progress::{Progress, after, next_step, start};
use crate::task::commands::Command;
use crate::task::lines::Line;
use crate::task::next::Next;
use crate::task::state::Task;
use nofs_history::Reply;
use std::alloc::{AllocError, Global};

fn line_of_task(command: &Command, task: Task) -> Line
    requires { IsSaid (task_asks command.now task) }
    ensures { task_asks command.now task ≡ Say result }
{
    match task {
        Task::Ended(line) => line,
        _ => unreachable!(),
    }
}

/// The line of a command that has ended.
pub(crate) fn line_of(command: &Command, progress: Progress) -> Line
    requires { IsSaid (asks command.now progress) }
    ensures { asks command.now progress ≡ Say result }
{
    match progress.see {
        None => line_of_task(command, progress.task),
        Some(_) => unreachable!(),
    }
}

fn what_next(alloc: Global, command: &Command, progress: Progress) -> Result<Next, AllocError>
    requires { TaskStands command.now progress.task }
    ensures { IfOk result (λ next. next ≡ asks command.now progress) }
{
    match next_step(alloc, command, &progress)? {
        Some(step) => Ok(Next::Do(step)),
        None => Ok(Next::Say(line_of(command, progress))),
    }
}

/// The next step of a command after these replies to its steps, or the line that it ends with. Each
/// reply fits the step that it answers, none tells want of memory, and none comes after the line.
#[tactic(auto, unfolding(crate::specs::Progress::drive_of))]
pub fn drive(alloc: Global, command: &Command, replies: &[Reply]) -> Result<Next, AllocError>
    requires formed { IsWellFormed command.now }
    requires fits { AllAnswer command.now (start_of command.now) replies.now }
    ensures { IfOk result (λ next. next ≡ drive_of command.now replies.now) }
{
    let mut progress = start(alloc, command);
    for reply in replies {
        progress = after(alloc, command, progress, reply)?;
    }
    what_next(alloc, command, progress)
}
