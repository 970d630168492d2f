//! A worker that runs the commands of one user.
//!
//! Promise: its steps are just those that its commands ask for, in order, and its lines are theirs.
ghost use Rattle.std.specs.Prelude.{◌≡◌, false, [], OnOk};
ghost use Rattle.nofs_client.specs.Driver.{LinesFollow, RunsAll, RunsSome};
ghost use Rattle.nofs_client.specs.Task.Commands.{AreWellFormed};
ghost use Rattle.nofs_workers.specs.User.{steps_in, WorkedAsUser};

use crate::gate::{Gate, Gated};
use crate::tasks::Script;
use nofs_client::{Client, Command, CommandList, LineList, Path};
use nofs_history::Steps;
use std::alloc::{AllocError, Global};
use std::mem;

/// A worker that runs the commands of one user, with a gate before each of its steps.
#[derive(Drop)]
pub struct UserWorker<S: Steps, T: Gate> {
    client: Client<Gated<S, T>>,
    script: Script,
    /// The lines of the commands that were run.
    pub lines: LineList,
    /// Whether the last call of `work` ended for want of memory.
    pub out_of_memory: bool,
    alloc: Global,
}

/// What a user's worker leaves.
#[derive(Drop)]
pub struct UserEnd<S: Steps> {
    /// The way to the mount.
    pub steps: S,
    /// The lines of the commands that were run, in order.
    pub lines: LineList,
    /// Whether memory was wanting, so that not all commands were run.
    pub out_of_memory: bool,
}

// Runs the commands one after the other, and appends the line of each. A command is given up as soon as it has its
// line, so that its bytes are room for what comes next. It ends early for want of memory alone.
fn run_out<S: Steps>(
    client: &mut Client<S>,
    alloc: Global,
    commands: CommandList,
    lines: &mut LineList,
) -> Result<(), AllocError>
    requires { AreWellFormed commands }
    ensures ran { OnOk result
        (RunsAll commands (S.made client.old.steps) (S.made client.new.steps) lines.old lines.new) }
    ensures some { RunsSome commands (S.made client.old.steps) (S.made client.new.steps) lines.old lines.new }
    ensures goes { S.goes client.old.steps client.new.steps }
    ensures lines_follow { LinesFollow }
{
    let mut left = commands.into_vec();
    for at in 0..left.len() {
        lines.push(client.run(alloc, &left[at])?)?;
        left[at] = Command::Stat { path: Path::Label };
    }
    Ok(())
}

impl<S: Steps, T: Gate> UserWorker<S, T> {
    /// A worker that has run no command yet. It takes no memory.
    pub fn new(alloc: Global, steps: S, commands: CommandList, gate: T) -> Self
        requires { AreWellFormed commands }
        ensures steps { steps_in result ≡ steps }
        ensures commands { result.script.commands ≡ commands }
        ensures fresh { (result.lines ≡ []) × (result.out_of_memory ≡ false) }
    {
        UserWorker {
            client: Client::new(Gated::new(steps, gate)),
            script: Script::new(commands),
            lines: LineList::new(alloc),
            out_of_memory: false,
            alloc,
        }
    }

    /// Runs the commands one after the other, and has none left. It ends early for want of memory alone.
    pub fn work(&mut self)
        ensures { WorkedAsUser S.made S.goes self.old self.new }
    {
        let none = Script::new(CommandList::new(self.alloc));
        let Script { commands } = mem::replace(&mut self.script, none);
        let ran = run_out(&mut self.client, self.alloc, commands, &mut self.lines);
        self.out_of_memory = ran.is_err();
    }
}

impl<S: Steps, T: Gate + Drop> UserWorker<S, T> {
    /// The way to the mount with the lines, and whether memory was wanting.
    pub fn into_inner(self) -> UserEnd<S>
        ensures steps { result.steps ≡ steps_in self }
        ensures lines { result.lines ≡ self.lines }
        ensures out_of_memory { result.out_of_memory ≡ self.out_of_memory }
    {
        let UserWorker {
            client,
            script: _,
            lines,
            out_of_memory,
            alloc: _,
        } = self;
        UserEnd {
            steps: client.into_inner().into_inner(),
            lines,
            out_of_memory,
        }
    }
}
