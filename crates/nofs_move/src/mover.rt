//! One call that moves a file.
//!
//! Promise: it makes just the steps of the command, in order, and ends with its line. What these steps
//! promise of a crash the laws say.
ghost use Rattle.std.specs.Prelude.{◌≡◌, IfOk};
ghost use Rattle.nofs_client.specs.Task.Commands.{HasName};
ghost use Rattle.nofs_client.specs.declared.task.commands.Command.TheVariants as command;
ghost use Rattle.nofs_client.specs.Driver.{RunsTo, RunsPartly};

use crate::paths::copy_path;
use nofs_client::{Client, Command, Line, Path};
use nofs_history::Steps;
use std::alloc::{AllocError, Global};

fn move_command(alloc: Global, from: &Path, to: &Path) -> Result<Command, AllocError>
    ensures { IfOk result (λ moves. moves ≡ command.Move from.now to.now) }
{
    Ok(Command::Move {
        from: copy_path(alloc, from)?,
        to: copy_path(alloc, to)?,
    })
}

/// Moves the file at `from` to the name `to`, durably at each step: looks both directories up, flushes the
/// file, links it under its new name, flushes again, and drops the old name. The line is `Moved`, or that
/// of the step that was refused; then both names may stand, and nothing is undone. Memory for the command
/// is taken before the first step. Where memory is wanting it ends, and the steps that were made are those
/// that the command asks for first.
pub fn move_file<S: Steps>(
    alloc: Global,
    client: &mut Client<S>,
    from: &Path,
    to: &Path,
) -> Result<Line, AllocError>
    requires from { HasName from.now }
    requires to { HasName to.now }
    ensures ran { IfOk result
        (RunsTo (command.Move from.now to.now) (S.made client.old.steps) (S.made client.new.steps)) }
    ensures partly { RunsPartly (command.Move from.now to.now) (S.made client.old.steps) (S.made client.new.steps) }
    ensures goes { S.goes client.old.steps client.new.steps }
{
    let command = move_command(alloc, from, to)?;
    client.run(alloc, &command)
}
