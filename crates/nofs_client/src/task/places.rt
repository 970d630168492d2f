//! Which names a command looks up, and where it begins.
ghost use Rattle.std.specs.Prelude.{◌≡◌, length, IfOk};
ghost use Rattle.nofs_client.specs.Task.Commands.{names_of};
ghost use Rattle.nofs_client.specs.Task.Places.{first_handle as begins_at, command_path as path_in};
ghost use Rattle.nofs_client.specs.Task.Places.{new_path_of as new_path_in, name_at as name_in};
ghost use Rattle.nofs_client.specs.Task.Places.{last_name as last_in, looks, new_looks};

use crate::task::commands::{Command, Path};
use nofs_dirent::Name;
use std::alloc::{AllocError, Global};

/// A file or a directory: its inode, with the generation that tells it from an earlier one.
#[derive(Clone, Copy, Debug, PartialEq, Eq)]
pub struct Handle {
    pub inode: u32,
    pub generation: u64,
}

/// Where the names of a path lead, and the directory in which the last of them was looked up.
#[derive(Clone, Copy, Debug, PartialEq, Eq)]
pub struct Location {
    pub directory: Handle,
    pub found: Handle,
}

/// Where a path begins: at the label file, or at the root.
pub(crate) fn first_of(path: &Path) -> Handle
    ensures { result ≡ begins_at path.now }
{
    match path {
        Path::Label => Handle {
            inode: 2,
            generation: 2,
        },
        Path::Names(_) => Handle {
            inode: 1,
            generation: 1,
        },
    }
}

fn count_names(path: &Path) -> u64
    ensures { result ≡ length (names_of path.now) }
{
    match path {
        Path::Label => 0,
        Path::Names(names) => names.len(),
    }
}

/// A copy of one name of a path, counted from 0.
pub(crate) fn name_at(alloc: Global, path: &Path, at: u64) -> Result<Name, AllocError>
    ensures { IfOk result (λ name. name ≡ name_in path.now at) }
{
    match path {
        Path::Label => Ok(Name::new(alloc)),
        Path::Names(names) => match names.item(at) {
            Some(name) => name.copy(alloc),
            None => Ok(Name::new(alloc)),
        },
    }
}

/// A copy of the last name of a path.
pub(crate) fn last_name(alloc: Global, path: &Path) -> Result<Name, AllocError>
    ensures { IfOk result (λ name. name ≡ last_in path.now) }
{
    name_at(alloc, path, count_names(path).saturating_sub(1))
}

/// The path of a command, of two the first.
pub(crate) fn path_of(command: &Command) -> &Path
    ensures { result.now ≡ path_in command.now }
{
    match command {
        Command::Make { path } => path,
        Command::MakeDirectory { path } => path,
        Command::Put { path, .. } => path,
        Command::Get { path, .. } => path,
        Command::Size { path, .. } => path,
        Command::Stat { path } => path,
        Command::List { path } => path,
        Command::Link { path, .. } => path,
        Command::Drop { path } => path,
        Command::Rename { path, .. } => path,
        Command::Fsync { path } => path,
        Command::Move { from, .. } => from,
    }
}

/// The path of a command, of two the second.
pub(crate) fn new_path_of(command: &Command) -> &Path
    ensures { result.now ≡ new_path_in command.now }
{
    match command {
        Command::Link { path: _, new_path } => new_path,
        Command::Move { from: _, to } => to,
        Command::Make { .. }
        | Command::MakeDirectory { .. }
        | Command::Put { .. }
        | Command::Get { .. }
        | Command::Size { .. }
        | Command::Stat { .. }
        | Command::List { .. }
        | Command::Drop { .. }
        | Command::Rename { .. }
        | Command::Fsync { .. } => path_of(command),
    }
}

/// How many names of its path a command looks up.
pub(crate) fn look_count(command: &Command) -> u64
    ensures { result ≡ looks command.now }
{
    let names = count_names(path_of(command));
    match command {
        Command::Make { .. } => names.saturating_sub(1),
        Command::MakeDirectory { .. } => names.saturating_sub(1),
        Command::Drop { .. } => names.saturating_sub(1),
        Command::Rename { .. } => names.saturating_sub(1),
        Command::Put { .. }
        | Command::Get { .. }
        | Command::Size { .. }
        | Command::Stat { .. }
        | Command::List { .. }
        | Command::Link { .. }
        | Command::Fsync { .. }
        | Command::Move { .. } => names,
    }
}

/// How many names of its new path a command looks up: those of the directory.
pub(crate) fn new_look_count(command: &Command) -> u64
    ensures { result ≡ new_looks command.now }
{
    count_names(new_path_of(command)).saturating_sub(1)
}
