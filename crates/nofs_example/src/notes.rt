//! What the user of the example asks: a file is made in a directory, written, made durable and written again. After the
//! power cut it is read.
//!
//! Promise: each command is one that a session can have.
ghost use Rattle.std.specs.Prelude.{IfOk};
ghost use Rattle.nofs_client.specs.Task.Commands.{AreWellFormed, HasName};

use nofs_client::{Command, CommandList, GotPart, Line, Path};
use nofs_dirent::{Content, Name, PathNames};
use std::alloc::{AllocError, Global};
use std::str;

// The directory `/notes`.
fn directory(alloc: Global) -> Result<Path, AllocError>
    ensures { IfOk result HasName }
{
    let mut names = PathNames::new(alloc);
    names.push(Name::from_slice(alloc, b"notes")?)?;
    Ok(Path::Names(names))
}

// The file `/notes/today`.
fn file(alloc: Global) -> Result<Path, AllocError>
    ensures { IfOk result HasName }
{
    let mut names = PathNames::new(alloc);
    names.push(Name::from_slice(alloc, b"notes")?)?;
    names.push(Name::from_slice(alloc, b"today")?)?;
    Ok(Path::Names(names))
}

/// `tea` is made durable, and `jam` is written over it.
pub fn write_the_file(alloc: Global) -> Result<CommandList, AllocError>
    ensures { IfOk result AreWellFormed }
{
    let mut commands = CommandList::new(alloc);
    commands.push(Command::MakeDirectory {
        path: directory(alloc)?,
    })?;
    commands.push(Command::Make { path: file(alloc)? })?;
    commands.push(Command::Put {
        path: file(alloc)?,
        offset: 0,
        bytes: Content::from_slice(alloc, b"tea")?,
    })?;
    commands.push(Command::Fsync { path: file(alloc)? })?;
    commands.push(Command::Put {
        path: file(alloc)?,
        offset: 0,
        bytes: Content::from_slice(alloc, b"jam")?,
    })?;
    Ok(commands)
}

/// The first three bytes are read.
pub fn read_the_file(alloc: Global) -> Result<CommandList, AllocError>
    ensures { IfOk result AreWellFormed }
{
    let mut commands = CommandList::new(alloc);
    commands.push(Command::Get {
        path: file(alloc)?,
        offset: 0,
        length: 3,
    })?;
    Ok(commands)
}

/// What is told of a line.
pub fn text_of(line: &Line) -> &str {
    match line {
        Line::Made => "made",
        Line::Put(_) => "put",
        Line::Synced => "synced",
        Line::Got(parts) => match parts.as_slice() {
            [GotPart::Bytes(bytes)] => str::from_utf8(bytes.as_slice()).unwrap_or("bytes"),
            _ => "lost",
        },
        _ => "refused",
    }
}
