//! Where a command stands after the reply to its step, as if there were always room.

ghost use Rattle.std.specs.Prelude.{◌≡◌, ◌-◌, ◌<◌, IfOk};
ghost use Rattle.nofs_client.specs.Task.State.{TaskStands};
ghost use Rattle.nofs_client.specs.Task.Steps.{IsAnsweredTask};
ghost use Rattle.nofs_client.specs.Task.Answers.{task_after as after_task};

use crate::task::commands::Command;
use crate::task::names::{acted, linked, looked, looked_new};
use crate::task::slots::{after_get, after_list, after_put};
use crate::task::state::Task;
use nofs_history::Reply;
use std::alloc::{AllocError, Global};

/// A task after the reply to its step.
pub(crate) fn task_after(
    alloc: Global,
    command: &Command,
    task: Task,
    reply: &Reply,
) -> Result<Task, AllocError>
    requires { IsAnsweredTask command.now task reply.now }
    ensures is { IfOk result (λ next. next ≡ after_task command.now task reply.now) }
    ensures stands { IfOk result (TaskStands command.now) }
{
    match task {
        Task::Looking { place, depth } => Ok(looked(alloc, command, place, depth, reply)),
        Task::LookingNew { place, to, depth } => Ok(looked_new(command, place, to, depth, reply)),
        Task::Acting { at } => Ok(acted(alloc, command, at, reply)),
        Task::Linking { place, to, stage } => Ok(linked(command, place, to, stage, reply)),
        Task::Putting { at, done } => Ok(after_put(command, at, done, reply)),
        Task::Getting {
            at,
            from,
            end,
            parts,
        } => after_get(alloc, at, from, end, parts, reply),
        Task::Listing { at, slot, parts } => after_list(alloc, at, slot, parts, reply),
        Task::Ended(line) => Ok(Task::Ended(line)),
    }
}
