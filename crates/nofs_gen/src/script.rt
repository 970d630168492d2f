//! The scripts of a drill (docs/FORMAT.md, "Other lines of the program").
//!
//! Promise: a user works on a file of its own, by commands that its number alone draws.
ghost use Rattle.std.specs.Prelude.{◌≡◌, ◌≤◌, ◌<◌, ◌++◌, IfOk, OnOk, replicate};
ghost use Rattle.nofs_client.specs.Task.Commands.{AreWellFormed};
ghost use Rattle.nofs_gen.specs.Script.{digit, directory_of as directory_in, user_path as file_in};
ghost use Rattle.nofs_gen.specs.Script.{first_number as first_in, next_number as next_in, drawn, drawn_command};
ghost use Rattle.nofs_gen.specs.Script.{script_of as script_in};

use nofs_client::{Command, CommandList, Path};
use nofs_dirent::{Content, Name, PathNames};
use std::alloc::{AllocError, Global};

/// How many users a drill has.
pub const USERS: u32 = 4;

/// The most commands that a user of a drill draws.
pub const MOST_STEPS: u64 = 4000;

// A user's number is below this.
const RANGE: u64 = 2_147_483_648;

// The name that is a user's digit.
fn digit_name(alloc: Global, user: u32) -> Result<Name, AllocError>
    requires { user ≤ 4 }
    ensures { IfOk result (λ name. name ≡ digit user) }
{
    Name::from_slice(alloc, &[b'0' + user as u8])
}

fn directory(alloc: Global, user: u32) -> Result<Path, AllocError>
    requires { user ≤ 4 }
    ensures { IfOk result (λ path. path ≡ directory_in user) }
{
    let mut names = PathNames::new(alloc);
    names.push(digit_name(alloc, user)?)?;
    Ok(Path::Names(names))
}

fn file(alloc: Global, user: u32) -> Result<Path, AllocError>
    requires { user ≤ 4 }
    ensures { IfOk result (λ path. path ≡ file_in user) }
{
    let mut names = PathNames::new(alloc);
    names.push(digit_name(alloc, user)?)?;
    names.push(Name::from_slice(alloc, b"f")?)?;
    Ok(Path::Names(names))
}

// The number that a user begins with.
fn first_number(start: u64, user: u32) -> u64
    requires { (1 ≤ user) × (user ≤ 4) }
    ensures is { result ≡ first_in start user }
    ensures small { result < 2147483648 }
{
    (start % RANGE + u64::from(user) - 1) % RANGE
}

// The number after one more draw.
#[tactic(auto, unfolding(crate::specs::Script::next_number))]
fn next_number(number: u64) -> u64
    requires { number < 2147483648 }
    ensures is { result ≡ next_in number }
    ensures small { result < 2147483648 }
{
    (number * 1_103_515_245 + 12_345) % RANGE
}

// So many bytes, all the same.
fn repeated(alloc: Global, byte: u8, count: usize) -> Result<Content, AllocError>
    ensures { IfOk result (λ bytes. bytes ≡ replicate count byte) }
{
    Ok(Content::from_vec(vec![in alloc; byte; count]?))
}

// The command that a draw stands for.
fn drawn_command(alloc: Global, user: u32, draw: u64) -> Result<Command, AllocError>
    requires { user ≤ 4 }
    ensures { IfOk result (λ command. command ≡ drawn_command user draw) }
{
    let path = file(alloc, user)?;
    match draw % 4 {
        0 => Ok(Command::Size {
            path,
            size: draw / 4,
        }),
        1 => Ok(Command::Get {
            path,
            offset: 0,
            length: 4096,
        }),
        _ => Ok(Command::Put {
            path,
            offset: draw / 4,
            bytes: repeated(alloc, (draw % 256) as u8, 1 + draw as usize % 1000)?,
        }),
    }
}

// Adds so many drawn commands.
fn push_drawn(
    alloc: Global,
    user: u32,
    first: u64,
    steps: u64,
    commands: &mut CommandList,
) -> Result<(), AllocError>
    requires user { user ≤ 4 }
    requires small { first < 2147483648 }
    ensures { OnOk result (commands.new ≡ commands.old ++ drawn user first steps) }
{
    let mut number = first;
    for at in 0..steps {
        number = next_number(number);
        commands.push(drawn_command(alloc, user, number / 65_536)?)?;
    }
    Ok(())
}

// The script of a user.
#[tactic(auto, unfolding(crate::specs::Script::script_of))]
fn drawn_script(alloc: Global, start: u64, steps: u64, user: u32) -> Result<CommandList, AllocError>
    requires { (1 ≤ user) × (user ≤ 4) }
    ensures { IfOk result (λ commands. commands ≡ script_in start steps user) }
{
    let mut commands = CommandList::new(alloc);
    commands.push(Command::MakeDirectory {
        path: directory(alloc, user)?,
    })?;
    commands.push(Command::Make {
        path: file(alloc, user)?,
    })?;
    push_drawn(alloc, user, first_number(start, user), steps, &mut commands)?;
    commands.push(Command::Fsync {
        path: file(alloc, user)?,
    })?;
    Ok(commands)
}

/// The script of a user from 1 to 4, of at most 4,000 drawn commands and those that make its file first and durable at
/// last.
pub fn script_of(
    alloc: Global,
    start: u64,
    steps: u64,
    user: u32,
) -> Result<CommandList, AllocError>
    requires steps { steps ≤ 4000 }
    requires user { (1 ≤ user) × (user ≤ 4) }
    ensures is { IfOk result (λ commands. commands ≡ script_in start steps user) }
    ensures formed { IfOk result (λ commands. AreWellFormed commands) }
{
    let commands = drawn_script(alloc, start, steps, user)?;
    Ok(commands)
}
