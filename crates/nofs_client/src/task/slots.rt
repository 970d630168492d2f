//! Where a command stands that goes from slot to slot: Put, Get and List.

ghost use Rattle.std.specs.Prelude.{◌≡◌, ◌+◌, ◌-◌, ◌/◌, ◌%◌, ◌<◌, ◌≤◌, ◌++◌, [], ◌∷◌, length, IfOk, map, take, drop};
ghost use Rattle.nofs_history.specs.Steps.{Fits};
ghost use Rattle.nofs_history.specs.declared.machine.steps.Step.TheVariants.{Get as get_step, List as list_step};
ghost use Rattle.nofs_client.specs.declared.task.lines.ListPart.TheVariants.{Name as listed_name, Lost as listed_lost};
ghost use Rattle.nofs_client.specs.Task.State.{TaskStands, IsPutting};
ghost use Rattle.nofs_client.specs.Task.Answers.{stored as stored_of, after_put as put_after, after_get as get_after};
ghost use Rattle.nofs_client.specs.Task.Answers.{listing as listing_from};
ghost use Rattle.nofs_client.specs.Task.Answers.{after_list as list_after};

use crate::task::commands::Command;
use crate::task::lines::{GotPart, GotParts, Line, ListPart, ListParts};
use crate::task::names::getting;
use crate::task::places::Handle;
use crate::task::state::{Task, refused};
use crate::task::steps::SLOT;
use nofs_dirent::Content;
use nofs_history::{NameLine, NameList, Reply};
use std::alloc::{AllocError, Global};

fn stored(command: &Command, at: Handle, done: u64) -> Task
    requires { IsPutting command.now done }
    ensures is { result ≡ stored_of command.now at done }
    ensures stands { TaskStands command.now result }
{
    match command {
        Command::Put { offset, bytes, .. } => {
            let length = bytes.as_slice().len() as u64;
            let within = (*offset % SLOT + done) % SLOT;
            let next = done + (SLOT - within).min(length - done);
            if next < length {
                Task::Putting { at, done: next }
            } else {
                Task::Ended(Line::Put(length))
            }
        }
        _ => unreachable!(),
    }
}

pub(crate) fn after_put(command: &Command, at: Handle, done: u64, reply: &Reply) -> Task
    requires { IsPutting command.now done }
    ensures is { result ≡ put_after command.now at done reply.now }
    ensures stands { TaskStands command.now result }
{
    match reply {
        Reply::Stored => stored(command, at, done),
        Reply::Refused(refusal) => refused(command, done, *refusal),
        _ => Task::Putting { at, done },
    }
}

fn got_bytes(alloc: Global, bytes: &Content, within: u64, count: u64) -> Result<Content, AllocError>
    requires { within + count ≤ length bytes.now }
    ensures { IfOk result (λ part. part ≡ take count (drop within bytes.now)) }
{
    let bytes = bytes.as_slice();
    Content::from_slice(alloc, &bytes[within as usize..(within + count) as usize])
}

pub(crate) fn after_get(
    alloc: Global,
    at: Handle,
    from: u64,
    end: u64,
    mut parts: GotParts,
    reply: &Reply,
) -> Result<Task, AllocError>
    requires here { from < end }
    requires fits { Fits (get_step at.inode at.generation (from / 1024)) reply.now }
    ensures is { IfOk result (λ task. task ≡ get_after at from end parts reply.now) }
    ensures stands { IfOk result (λ task. (c : _) → TaskStands c task) }
{
    let count = (SLOT - from % SLOT).min(end - from);
    match reply {
        Reply::Bytes(bytes) => {
            parts.push(GotPart::Bytes(got_bytes(alloc, bytes, from % SLOT, count)?))?;
            Ok(getting(at, from + count, end, parts))
        }
        Reply::Hole => {
            parts.push(GotPart::Hole(count))?;
            Ok(getting(at, from + count, end, parts))
        }
        Reply::Lost => {
            parts.push(GotPart::Lost(count))?;
            Ok(getting(at, from + count, end, parts))
        }
        Reply::Refused(refusal) => Ok(Task::Ended(Line::Refused(*refusal))),
        _ => unreachable!(),
    }
}

fn name_line(alloc: Global, line: &NameLine) -> Result<NameLine, AllocError>
    ensures { IfOk result (λ copy. copy ≡ line.now) }
{
    Ok(NameLine {
        name: line.name.copy(alloc)?,
        kind: line.kind,
        dead: line.dead,
    })
}

fn with_names(
    alloc: Global,
    mut parts: ListParts,
    names: &NameList,
) -> Result<ListParts, AllocError>
    ensures { IfOk result (λ all. all ≡ parts ++ map listed_name names.now) }
{
    for line in names.as_slice() {
        parts.push(ListPart::Name(name_line(alloc, line)?))?;
    }
    Ok(parts)
}

fn after_names(
    alloc: Global,
    at: Handle,
    asked: u64,
    parts: ListParts,
    slot: u64,
    names: &NameList,
) -> Result<Task, AllocError>
    requires { slot < 72 }
    ensures is { IfOk result (λ task. task ≡ listing_from at asked slot parts (map listed_name names.now)) }
    ensures stands { IfOk result (λ task. (c : _) → TaskStands c task) }
{
    if slot < asked {
        Ok(Task::Ended(Line::Names(parts)))
    } else {
        Ok(Task::Listing {
            at,
            slot: slot + 1,
            parts: with_names(alloc, parts, names)?,
        })
    }
}

fn after_lost(at: Handle, asked: u64, mut parts: ListParts, slot: u64) -> Result<Task, AllocError>
    requires { slot < 72 }
    ensures is { IfOk result (λ task. task ≡ listing_from at asked slot parts (listed_lost slot ∷ [])) }
    ensures stands { IfOk result (λ task. (c : _) → TaskStands c task) }
{
    if slot < asked {
        Ok(Task::Ended(Line::Names(parts)))
    } else {
        parts.push(ListPart::Lost(slot))?;
        Ok(Task::Listing {
            at,
            slot: slot + 1,
            parts,
        })
    }
}

pub(crate) fn after_list(
    alloc: Global,
    at: Handle,
    asked: u64,
    parts: ListParts,
    reply: &Reply,
) -> Result<Task, AllocError>
    requires slot { asked ≤ 72 }
    requires fits { Fits (list_step at.inode at.generation asked) reply.now }
    ensures is { IfOk result (λ task. task ≡ list_after at asked parts reply.now) }
    ensures stands { IfOk result (λ task. (c : _) → TaskStands c task) }
{
    match reply {
        Reply::Names(slot, names) => after_names(alloc, at, asked, parts, *slot, names),
        Reply::LostNames(slot) => after_lost(at, asked, parts, *slot),
        Reply::NoMore => Ok(Task::Ended(Line::Names(parts))),
        Reply::Refused(refusal) => Ok(Task::Ended(Line::Refused(*refusal))),
        _ => unreachable!(),
    }
}
