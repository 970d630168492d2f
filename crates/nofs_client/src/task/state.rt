//! Where a command stands, apart from the steps that make room.
ghost use Rattle.std.specs.Prelude.{◌≡◌};
ghost use Rattle.nofs_client.specs.Task.Commands.{IsWellFormed};
ghost use Rattle.nofs_client.specs.Task.State.{TaskStands, HasTwoPaths, first_stage as stage_of};
ghost use Rattle.nofs_client.specs.Task.State.{arrived_new as arrived_at_new, acting as acting_at};
ghost use Rattle.nofs_client.specs.Task.State.{arrived as arrived_at, first_task as first_task_of};
ghost use Rattle.nofs_client.specs.Task.State.{refused as refused_by};

use crate::task::commands::Command;
use crate::task::lines::{GotParts, Line, ListParts};
use crate::task::places::{
    Handle, Location, first_of, look_count, new_look_count, new_path_of, path_of,
};
use nofs_history::Refusal;
use std::alloc::Global;

/// The steps of a command with two paths, after both are looked up.
#[derive(Clone, Copy, Debug, PartialEq, Eq)]
pub enum Stage {
    /// What the file holds is made durable.
    Flush,
    /// The file gets its new name.
    Link,
    /// The new name is made durable.
    FlushAgain,
    /// The old name is taken away.
    Drop,
}

/// Where a command stands, as if there were always room.
#[derive(Drop)]
pub enum Task {
    /// So many names of the path were looked up.
    Looking {
        place: Location,
        depth: u64,
    },
    /// So many names of the new path were looked up, and lead to `to`.
    LookingNew {
        place: Location,
        to: Handle,
        depth: u64,
    },
    /// The names are looked up, and one step does what the command asks.
    Acting {
        at: Handle,
    },
    /// The names of both paths are looked up, and `to` is the directory of the new name.
    Linking {
        place: Location,
        to: Handle,
        stage: Stage,
    },
    /// So many bytes are stored.
    Putting {
        at: Handle,
        done: u64,
    },
    /// The bytes from `from` up to `end` are still to be got.
    Getting {
        at: Handle,
        from: u64,
        end: u64,
        parts: GotParts,
    },
    /// The slots from `slot` on are still to be listed.
    Listing {
        at: Handle,
        slot: u64,
        parts: ListParts,
    },
    /// The command has its line.
    Ended(Line),
}

fn first_stage(command: &Command) -> Stage
    ensures { result ≡ stage_of command.now }
{
    match command {
        Command::Link { .. } => Stage::Link,
        Command::Make { .. }
        | Command::MakeDirectory { .. }
        | Command::Put { .. }
        | Command::Get { .. }
        | Command::Size { .. }
        | Command::Stat { .. }
        | Command::List { .. }
        | Command::Drop { .. }
        | Command::Rename { .. }
        | Command::Fsync { .. }
        | Command::Move { .. } => Stage::Flush,
    }
}

/// The task after so many names of the new path.
pub(crate) fn arrived_new(command: &Command, place: Location, to: Handle, depth: u64) -> Task
    requires { HasTwoPaths command.now }
    ensures is { result ≡ arrived_at_new command.now place to depth }
    ensures stands { TaskStands command.now result }
{
    if depth < new_look_count(command) {
        Task::LookingNew { place, to, depth }
    } else {
        Task::Linking {
            place,
            to,
            stage: first_stage(command),
        }
    }
}

fn acting(alloc: Global, command: &Command, place: Location) -> Task
    requires { IsWellFormed command.now }
    ensures is { result ≡ acting_at command.now place }
    ensures stands { TaskStands command.now result }
{
    match command {
        Command::Put { .. } => Task::Putting {
            at: place.found,
            done: 0,
        },
        Command::List { .. } => Task::Listing {
            at: place.found,
            slot: 0,
            parts: ListParts::new(alloc),
        },
        Command::Link { .. } => arrived_new(command, place, first_of(new_path_of(command)), 0),
        Command::Move { .. } => arrived_new(command, place, first_of(new_path_of(command)), 0),
        Command::Make { .. }
        | Command::MakeDirectory { .. }
        | Command::Get { .. }
        | Command::Size { .. }
        | Command::Stat { .. }
        | Command::Drop { .. }
        | Command::Rename { .. }
        | Command::Fsync { .. } => Task::Acting { at: place.found },
    }
}

/// The task after so many names of the path.
pub(crate) fn arrived(alloc: Global, command: &Command, place: Location, depth: u64) -> Task
    requires { IsWellFormed command.now }
    ensures is { result ≡ arrived_at command.now place depth }
    ensures stands { TaskStands command.now result }
{
    if depth < look_count(command) {
        Task::Looking { place, depth }
    } else {
        acting(alloc, command, place)
    }
}

/// The task of a command before its first step.
pub(crate) fn first_task(alloc: Global, command: &Command) -> Task
    requires { IsWellFormed command.now }
    ensures is { result ≡ first_task_of command.now }
    ensures stands { TaskStands command.now result }
{
    let at = first_of(path_of(command));
    let place = Location {
        directory: at,
        found: at,
    };
    arrived(alloc, command, place, 0)
}

/// The end of a command of which a step was refused after so many bytes were stored.
pub(crate) fn refused(command: &Command, stored: u64, refusal: Refusal) -> Task
    ensures is { result ≡ refused_by command.now stored refusal }
    ensures stands { TaskStands command.now result }
{
    match command {
        Command::Put { .. } => Task::Ended(Line::RefusedPut { refusal, stored }),
        Command::Make { .. }
        | Command::MakeDirectory { .. }
        | Command::Get { .. }
        | Command::Size { .. }
        | Command::Stat { .. }
        | Command::List { .. }
        | Command::Link { .. }
        | Command::Drop { .. }
        | Command::Rename { .. }
        | Command::Fsync { .. }
        | Command::Move { .. } => Task::Ended(Line::Refused(refusal)),
    }
}
