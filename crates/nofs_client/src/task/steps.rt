//! The next step of a command, as if there were always room.
ghost use Rattle.std.specs.Prelude.{◌≡◌, ◌+◌, ◌-◌, ◌/◌, ◌%◌, ◌<◌, IfOk, List};
ghost use Rattle.nofs_client.specs.Task.State.{IsActing, IsPutting, TaskStands};
ghost use Rattle.nofs_client.specs.Task.Steps.{IsAsked, look_in, act_of, stage_step, put_slot_step};
ghost use Rattle.nofs_client.specs.Task.Steps.{task_asks};

use crate::task::commands::Command;
use crate::task::places::{Handle, Location, last_name, name_at, new_path_of, path_of};
use crate::task::state::{Stage, Task};
use nofs_dirent::{Content, Name};
use nofs_history::Step;
use nofs_inode::inode::FileKind;
use std::alloc::{AllocError, Global};

/// The bytes of a slot.
pub(crate) const SLOT: u64 = 1024;

fn look(at: Handle, name: Name) -> Step
    ensures { result ≡ look_in at name }
{
    Step::Look {
        directory: at.inode,
        generation: at.generation,
        name,
    }
}

fn act(alloc: Global, command: &Command, at: Handle) -> Result<Step, AllocError>
    requires { IsActing command.now }
    ensures { IfOk result (λ step. step ≡ act_of command.now at) }
{
    let Handle { inode, generation } = at;
    Ok(match command {
        Command::Make { path } => Step::Make {
            directory: inode,
            generation,
            name: last_name(alloc, path)?,
            kind: FileKind::File,
        },
        Command::MakeDirectory { path } => Step::Make {
            directory: inode,
            generation,
            name: last_name(alloc, path)?,
            kind: FileKind::Directory,
        },
        Command::Get { .. } => Step::Stat { inode, generation },
        Command::Size { path: _, size } => Step::Resize {
            inode,
            generation,
            size: *size,
        },
        Command::Stat { .. } => Step::Stat { inode, generation },
        Command::Drop { path } => Step::Drop {
            directory: inode,
            generation,
            name: last_name(alloc, path)?,
        },
        Command::Rename { path, name } => Step::Rename {
            directory: inode,
            generation,
            old: last_name(alloc, path)?,
            new: name.copy(alloc)?,
        },
        Command::Fsync { .. } => Step::Flush { inode, generation },
        Command::Put { .. } | Command::List { .. } | Command::Link { .. } | Command::Move { .. } =>
            unreachable!(),
    })
}

fn link(
    alloc: Global,
    command: &Command,
    place: Location,
    to: Handle,
    stage: Stage,
) -> Result<Step, AllocError>
    ensures { IfOk result (λ step. step ≡ stage_step command.now place to stage) }
{
    let Location { directory, found } = place;
    Ok(match stage {
        Stage::Link => Step::Link {
            directory: to.inode,
            generation: to.generation,
            name: last_name(alloc, new_path_of(command))?,
            inode: found.inode,
            of: found.generation,
        },
        Stage::Drop => Step::Drop {
            directory: directory.inode,
            generation: directory.generation,
            name: last_name(alloc, path_of(command))?,
        },
        Stage::Flush | Stage::FlushAgain => Step::Flush {
            inode: found.inode,
            generation: found.generation,
        },
    })
}

fn put(alloc: Global, command: &Command, at: Handle, done: u64) -> Result<Step, AllocError>
    requires { IsPutting command.now done }
    ensures { IfOk result (λ step. step ≡ put_slot_step command.now at done) }
{
    let Handle { inode, generation } = at;
    match command {
        Command::Put { offset, bytes, .. } => {
            let (offset, bytes) = (*offset, bytes.as_slice());
            let place = offset % SLOT + done;
            let within = place % SLOT;
            let count = (SLOT - within).min(bytes.len() as u64 - done);
            Ok(Step::Put {
                inode,
                generation,
                slot: offset / SLOT + place / SLOT,
                at: within as u32,
                bytes: Content::from_slice(alloc, &bytes[done as usize..(done + count) as usize])?,
            })
        }
        _ => unreachable!(),
    }
}

/// The next step of a task; none where it has ended.
pub(crate) fn task_step(
    alloc: Global,
    command: &Command,
    task: &Task,
) -> Result<Option<Step>, AllocError>
    requires { TaskStands command.now task.now }
    ensures { IfOk result (λ step. IsAsked (task_asks command.now task.now) step) }
{
    match task {
        Task::Looking { place, depth } => {
            let name = name_at(alloc, path_of(command), *depth)?;
            Ok(Some(look(place.found, name)))
        }
        Task::LookingNew {
            place: _,
            to,
            depth,
        } => {
            let name = name_at(alloc, new_path_of(command), *depth)?;
            Ok(Some(look(*to, name)))
        }
        Task::Acting { at } => Ok(Some(act(alloc, command, *at)?)),
        Task::Linking { place, to, stage } => {
            Ok(Some(link(alloc, command, *place, *to, *stage)?))
        }
        Task::Putting { at, done } => Ok(Some(put(alloc, command, *at, *done)?)),
        Task::Getting { at, from, .. } => Ok(Some(Step::Get {
            inode: at.inode,
            generation: at.generation,
            slot: *from / SLOT,
        })),
        Task::Listing { at, slot, parts: _ } => Ok(Some(Step::List {
            directory: at.inode,
            generation: at.generation,
            slot: *slot,
        })),
        Task::Ended(_) => Ok(None),
    }
}
