//! Commands run over the steps of a mount.
//!
//! Promise: a command makes just the steps that it asks for, each after the reply to the one before,
//! and always comes to its line.
ghost use Rattle.std.specs.Prelude.{◌≡◌, IfOk, OnOk};
ghost use Rattle.nofs_client.specs.Task.Commands.{IsWellFormed, AreWellFormed};
ghost use Rattle.nofs_client.specs.Task.State.{TaskStands};
ghost use Rattle.nofs_client.specs.Progress.{asks, progress_after as after_of};
ghost use Rattle.nofs_client.specs.Task.Steps.{Answers};
ghost use Rattle.nofs_client.specs.Driver.{RunsTo, RunsPartly, RunsAll, RunsSome, LinesFollow};

use crate::driver::line_of;
use crate::progress::{Progress, after, next_step, start};
use crate::task::commands::{Command, CommandList};
use crate::task::lines::{Line, LineList};
use nofs_history::{Reply, Steps};
use std::alloc::{AllocError, Global};

/// A user of a mount.
#[derive(Drop)]
pub struct Client<S: Steps> {
    /// The way to the mount.
    pub steps: S,
}

fn taken(
    alloc: Global,
    command: &Command,
    progress: Progress,
    reply: Reply,
) -> Result<Progress, AllocError>
    requires formed { IsWellFormed command.now }
    requires stands { TaskStands command.now progress.task }
    requires fits { Answers (asks command.now progress) reply }
    ensures is { IfOk result (λ next. next ≡ after_of command.now progress reply) }
    ensures stands { IfOk result (λ next. TaskStands command.now next.task) }
{
    after(alloc, command, progress, &reply)
}

impl<S: Steps> Client<S> {
    /// A user that makes its steps through `steps`.
    pub fn new(steps: S) -> Self
        ensures { result.steps ≡ steps }
    {
        Client { steps }
    }

    /// The way to the mount, handed back.
    pub fn into_inner(self) -> S
        ensures { result ≡ self.steps }
    {
        let Client { steps } = self;
        steps
    }

    /// Runs a command to its line. Where a step wants memory it ends there, and the steps that were
    /// made are those that the command asks for first.
    pub fn run(&mut self, alloc: Global, command: &Command) -> Result<Line, AllocError>
        requires { IsWellFormed command.now }
        ensures ran { IfOk result (RunsTo command.now (S.made self.old.steps) (S.made self.new.steps)) }
        ensures partly { RunsPartly command.now (S.made self.old.steps) (S.made self.new.steps) }
        ensures goes { S.goes self.old.steps self.new.steps }
    {
        let mut progress = start(alloc, command);
        loop {
            let Some(step) = next_step(alloc, command, &progress)? else {
                return Ok(line_of(command, progress));
            };
            let reply = self.steps.step(step);
            if reply.is_out_of_memory() {
                return Err(AllocError);
            }
            progress = taken(alloc, command, progress, reply)?;
        }
    }

    /// Runs commands one after the other and appends the line of each. Where memory is wanted it ends
    /// there: the lines of the commands that were run stand, and the next one is run in part.
    pub fn run_all(
        &mut self,
        alloc: Global,
        commands: &CommandList,
        lines: &mut LineList,
    ) -> Result<(), AllocError>
        requires { AreWellFormed commands.now }
        ensures ran { OnOk result
            (RunsAll commands.now (S.made self.old.steps) (S.made self.new.steps) lines.old lines.new) }
        ensures some { RunsSome commands.now (S.made self.old.steps) (S.made self.new.steps) lines.old lines.new }
        ensures goes { S.goes self.old.steps self.new.steps }
        ensures lines_follow { LinesFollow }
    {
        for command in commands.as_slice() {
            lines.push(self.run(alloc, command)?)?;
        }
        Ok(())
    }
}
