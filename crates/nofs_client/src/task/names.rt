//! Where a command stands after the reply to a step on names, or to one that changes a file.
ghost use Rattle.std.specs.Prelude.{◌≡◌, ◌+◌, ◌-◌, ◌<◌, length};
ghost use Rattle.nofs_client.specs.Task.Commands.{IsWellFormed};
ghost use Rattle.nofs_client.specs.Task.Places.{looks, new_looks};
ghost use Rattle.nofs_client.specs.Task.State.{TaskStands, IsActing, IsLinking, HasTwoPaths};
ghost use Rattle.nofs_client.specs.Task.Answers.{handle_of as handle_in, looked as looked_by};
ghost use Rattle.nofs_client.specs.Task.Answers.{looked_new as looked_new_by, getting as getting_from};
ghost use Rattle.nofs_client.specs.Task.Answers.{task_after_stat as sized_by, acted as acted_by};
ghost use Rattle.nofs_client.specs.Task.Answers.{next_stage as stage_after, linked as linked_by};

use crate::task::commands::Command;
use crate::task::lines::{GotParts, Line};
use crate::task::places::{Handle, Location, look_count, new_look_count};
use crate::task::state::{Stage, Task, arrived, arrived_new, refused};
use nofs_history::{Found, Refusal, Reply, Stat};
use nofs_inode::inode::FileKind;
use std::alloc::Global;

fn handle_of(found: &Found) -> Handle
    ensures { result ≡ handle_in found.now }
{
    Handle {
        inode: found.inode,
        generation: found.generation,
    }
}

pub(crate) fn looked(
    alloc: Global,
    command: &Command,
    place: Location,
    depth: u64,
    reply: &Reply,
) -> Task
    requires formed { IsWellFormed command.now }
    requires stands { depth < looks command.now }
    ensures is { result ≡ looked_by command.now place depth reply.now }
    ensures stands { TaskStands command.now result }
{
    let _count = look_count(command);
    match reply {
        Reply::Found(found) => {
            let next = Location {
                directory: place.found,
                found: handle_of(found),
            };
            arrived(alloc, command, next, depth + 1)
        }
        Reply::Refused(refusal) => refused(command, 0, *refusal),
        _ => Task::Looking { place, depth },
    }
}

pub(crate) fn looked_new(
    command: &Command,
    place: Location,
    to: Handle,
    depth: u64,
    reply: &Reply,
) -> Task
    requires paths { HasTwoPaths command.now }
    requires stands { depth < new_looks command.now }
    ensures is { result ≡ looked_new_by command.now place to depth reply.now }
    ensures stands { TaskStands command.now result }
{
    let _count = new_look_count(command);
    match reply {
        Reply::Found(found) => arrived_new(command, place, handle_of(found), depth + 1),
        Reply::Refused(refusal) => refused(command, 0, *refusal),
        _ => Task::LookingNew { place, to, depth },
    }
}

pub(crate) fn getting(at: Handle, from: u64, end: u64, parts: GotParts) -> Task
    ensures is { result ≡ getting_from at from end parts }
    ensures stands { (c : _) → TaskStands c result }
{
    if from < end {
        Task::Getting {
            at,
            from,
            end,
            parts,
        }
    } else {
        Task::Ended(Line::Got(parts))
    }
}

fn sized(alloc: Global, at: Handle, offset: u64, length: u64, stat: &Stat) -> Task
    ensures is { result ≡ sized_by at offset length stat.now stat.now.kind }
    ensures stands { (c : _) → TaskStands c result }
{
    match stat.kind {
        FileKind::Directory => Task::Ended(Line::Refused(Refusal::IsDirectory)),
        FileKind::File => {
            let end = offset.saturating_add(length).min(stat.size);
            getting(at, offset, end, GotParts::new(alloc))
        }
    }
}

pub(crate) fn acted(alloc: Global, command: &Command, at: Handle, reply: &Reply) -> Task
    requires { IsActing command.now }
    ensures is { result ≡ acted_by command.now at reply.now }
    ensures stands { TaskStands command.now result }
{
    match reply {
        Reply::Refused(refusal) => refused(command, 0, *refusal),
        Reply::Stat(stat) => match command {
            Command::Get {
                path: _,
                offset,
                length,
            } => sized(alloc, at, *offset, *length, stat),
            Command::Stat { .. } => Task::Ended(Line::Stat(*stat)),
            _ => Task::Acting { at },
        },
        Reply::Resized => match command {
            Command::Size { path: _, size } => Task::Ended(Line::Sized(*size)),
            _ => Task::Acting { at },
        },
        Reply::Made { .. } => match command {
            Command::Make { .. } | Command::MakeDirectory { .. } => Task::Ended(Line::Made),
            _ => Task::Acting { at },
        },
        Reply::Dropped { .. } => match command {
            Command::Drop { .. } => Task::Ended(Line::Dropped),
            _ => Task::Acting { at },
        },
        Reply::Renamed => match command {
            Command::Rename { .. } => Task::Ended(Line::Renamed),
            _ => Task::Acting { at },
        },
        Reply::Flushed => match command {
            Command::Fsync { .. } => Task::Ended(Line::Synced),
            _ => Task::Acting { at },
        },
        // No other reply fits a step that does what a command asks.
        _ => Task::Acting { at },
    }
}

fn next_stage(command: &Command, place: Location, to: Handle, stage: Stage) -> Task
    requires { IsLinking command.now stage }
    ensures is { result ≡ stage_after command.now place to stage }
    ensures stands { TaskStands command.now result }
{
    if let Command::Link { .. } = command {
        return Task::Ended(Line::Linked);
    }
    let stage = match stage {
        Stage::Flush => Stage::Link,
        Stage::Link => Stage::FlushAgain,
        Stage::FlushAgain => Stage::Drop,
        Stage::Drop => return Task::Ended(Line::Moved),
    };
    Task::Linking { place, to, stage }
}

pub(crate) fn linked(
    command: &Command,
    place: Location,
    to: Handle,
    stage: Stage,
    reply: &Reply,
) -> Task
    requires { IsLinking command.now stage }
    ensures is { result ≡ linked_by command.now place to stage reply.now }
    ensures stands { TaskStands command.now result }
{
    match reply {
        Reply::Refused(refusal) => refused(command, 0, *refusal),
        Reply::Found(_)
        | Reply::Made { .. }
        | Reply::Linked
        | Reply::Dropped { .. }
        | Reply::Renamed
        | Reply::Names(_, _)
        | Reply::LostNames(_)
        | Reply::NoMore
        | Reply::Bytes(_)
        | Reply::Hole
        | Reply::Lost
        | Reply::Stored
        | Reply::Resized
        | Reply::Stat(_)
        | Reply::Flushed
        | Reply::Seen { .. } => { next_stage(command, place, to, stage) }
    }
}
