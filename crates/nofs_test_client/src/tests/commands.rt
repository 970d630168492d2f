//! Commands over a stand-in for a mount, with the steps and the line of each.

mod cases;

ghost use Rattle.std.specs.Prelude.{IfOk};
ghost use Rattle.nofs_client.specs.Task.Commands.{AreWellFormed};

use crate::tests::commands::cases::{ACCEPTED, BYTES, MOVES, REFUSED, REPEATED};
use crate::tests::texts::{first_command, plain_text};
use nofs_client::{Client, Command, CommandList, Line, LineList, Next, Path, drive};
use nofs_dirent::PathNames;
use nofs_history::{Reply, Stat};
use nofs_inode::inode::FileKind;
use nofs_move::move_file;
use nofs_script::parse;
use nofs_test_standin::{Told, Transcript, step_text};
use std::alloc::{AllocError, Global};
use std::process::Abort;
use std::slice;
use std::test::Fail;

/// A user of a stand-in that replies what these lines tell.
fn client_of(alloc: Global, told: &str) -> Client<Told<Transcript<'_>>> {
    Client::new(Told::new(Transcript::new(alloc, told)))
}

/// The text of a line, with all that a refusal keeps.
fn text_of(alloc: Global, line: &Line) -> Result<String, AllocError> {
    match line {
        Line::Refused(refusal) => format!(in alloc; "{refusal:?}\n"),
        Line::RefusedPut { refusal, stored } => {
            format!(in alloc; "{refusal:?} stored {stored}\n")
        }
        _ => plain_text(alloc, line),
    }
}

/// How it ended.
fn end_text(alloc: Global, end: Result<Line, AllocError>) -> Result<String, AllocError> {
    match end {
        Ok(line) => text_of(alloc, &line),
        Err(_) => String::from_str(alloc, "no memory\n"),
    }
}

/// The steps that were made, and how it ended.
fn ended(
    alloc: Global,
    client: Client<Told<Transcript<'_>>>,
    end: Result<Line, AllocError>,
) -> Result<String, AllocError> {
    let mut text = client.into_inner().answers.text;
    text.push_str(end_text(alloc, end)?.as_str())?;
    Ok(text)
}

/// The steps and the line of a command to which these replies come.
fn run(alloc: Global, command: &Command, told: &str) -> Result<String, AllocError> {
    if !command.is_well_formed() {
        return String::from_str(alloc, "not well formed");
    }
    let mut client = client_of(alloc, told);
    let end = client.run(alloc, command);
    ended(alloc, client, end)
}

/// The steps and the line of a move to which these replies come.
fn moved(alloc: Global, command: &Command, told: &str) -> Result<String, AllocError> {
    let Command::Move { from, to } = command else {
        return String::from_str(alloc, "no move");
    };
    if !from.has_name() || !to.has_name() {
        return String::from_str(alloc, "no name");
    }
    let mut client = client_of(alloc, told);
    let end = move_file(alloc, &mut client, from, to);
    ended(alloc, client, end)
}

/// What comes of a case: of its command, or of its move by `move_file`.
fn came_of(alloc: Global, case: &str, by_mover: bool) -> Result<String, AllocError> {
    let (command, told) = case.split_once('\n').unwrap_or((case, ""));
    let Ok(session) = parse(alloc, command.as_bytes()) else {
        return String::from_str(alloc, "no session");
    };
    match first_command(&session) {
        None => String::from_str(alloc, "no command"),
        Some(command) if by_mover => moved(alloc, command, told),
        Some(command) => run(alloc, command, told),
    }
}

/// Whether that which is told comes of a case.
fn comes_of(alloc: Global, case: &str, by_mover: bool) -> Result<bool, AllocError> {
    let (_, told) = case.split_once('\n').unwrap_or((case, ""));
    let came = came_of(alloc, case, by_mover)?;
    Ok(came.as_str().trim_end() == told.trim_end())
}

fn check(rt: &impl Abort, alloc: Global, cases: &str, by_mover: bool) -> Result<(), Fail> {
    for case in cases.split("\n\n") {
        assert!(rt; comes_of(alloc, case, by_mover)?, "{case}");
    }
    Ok(())
}

#[test]
fn each_command_makes_its_steps_and_says_its_line(rt: HostRuntime) -> Result<(), Fail> {
    for cases in [ACCEPTED, BYTES, REPEATED, REFUSED, MOVES] {
        check(&rt, rt.alloc(), cases, false)?;
    }
    Ok(())
}

#[test]
fn a_move_by_itself_makes_the_steps_of_the_command(rt: HostRuntime) -> Result<(), Fail> {
    check(&rt, rt.alloc(), MOVES, true)
}

fn is_named(path: Path) -> bool {
    path.has_name()
}

#[test]
fn a_path_without_names_has_no_name(rt: HostRuntime) -> Result<(), Fail> {
    assert!(rt; !is_named(Path::Names(PathNames::new(rt.alloc()))));
    Ok(())
}

/// What a driver asks for, or says.
fn next_text(alloc: Global, next: &Next) -> Result<String, AllocError> {
    match next {
        Next::Do(step) => step_text(alloc, step),
        Next::Say(line) => text_of(alloc, line),
    }
}

// What it asks for in a stat of the label file.
fn asked(alloc: Global) -> Result<String, AllocError> {
    let command = Command::Stat { path: Path::Label };
    next_text(alloc, &drive(alloc, &command, &[])?)
}

#[test]
fn a_driver_asks_for_a_stat(rt: HostRuntime) -> Result<(), Fail> {
    assert_eq!(rt; asked(rt.alloc())?.as_str(), "stat 2/2");
    Ok(())
}

// What it says behind the reply.
fn said(alloc: Global) -> Result<String, AllocError> {
    let command = Command::Stat { path: Path::Label };
    let told = Reply::Stat(Stat {
        kind: FileKind::File,
        size: 9,
        links: 0,
    });
    next_text(alloc, &drive(alloc, &command, slice::from_ref(&told))?)
}

#[test]
fn a_driver_ends_with_its_line(rt: HostRuntime) -> Result<(), Fail> {
    assert_eq!(rt; said(rt.alloc())?.as_str(), "stat file 9 0\n");
    Ok(())
}

// What comes of a get of all bytes from the last on.
fn got_from_last(alloc: Global, told: &str) -> Result<String, AllocError> {
    let all = Command::Get {
        path: Path::Label,
        offset: u64::MAX,
        length: u64::MAX,
    };
    run(alloc, &all, told)
}

#[test]
fn a_get_of_all_bytes_from_the_last_on_is_empty(rt: HostRuntime) -> Result<(), Fail> {
    let came = got_from_last(rt.alloc(), "stat 2/2 -> file 10 1")?;
    assert_eq!(rt; came.as_str(), "stat 2/2 -> file 10 1\ngot\n");
    Ok(())
}

// A size and a flush of the label file.
fn size_and_flush(alloc: Global) -> Result<CommandList, AllocError>
    ensures { IfOk result (λ commands. AreWellFormed commands) }
{
    let mut commands = CommandList::new(alloc);
    commands.push(Command::Size {
        path: Path::Label,
        size: 0,
    })?;
    commands.push(Command::Fsync { path: Path::Label })?;
    Ok(commands)
}

// The steps of both commands, and how many lines they end with.
fn ran_both(alloc: Global, told: &str) -> Result<(String, u64), AllocError> {
    let commands = size_and_flush(alloc)?;
    let mut client = client_of(alloc, told);
    let mut lines = LineList::new(alloc);
    client.run_all(alloc, &commands, &mut lines)?;
    Ok((client.into_inner().answers.text, lines.len()))
}

#[test]
fn a_user_runs_each_command_to_its_line(rt: HostRuntime) -> Result<(), Fail> {
    let told = "size 2/2 0 -> resized\nflush 2/2 -> flushed\n";
    let (text, lines) = ran_both(rt.alloc(), told)?;
    assert_eq!(rt; (text.as_str(), lines), (told, 2));
    Ok(())
}
