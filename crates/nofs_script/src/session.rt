//! Sessions: what is read of the lines of a text.

ghost use Rattle.std.specs.Prelude.{◌≡◌, ◌≢◌, ◌<◌, All, Some, [], map, length, ◌∷◌, MatchOption, IfOk, IfSome};
ghost use Rattle.std.specs.Prelude.{slice_get, take};
ghost use Rattle.std.specs.Str.Lines.{strip_carriage_return};
ghost use Rattle.nofs_script.specs.Words.{piece_of, text_lines};
ghost use Rattle.nofs_script.specs.Grammar.{MatchesReading};
ghost use Rattle.nofs_script.specs.Session.{IsSession, asked_by as asked_in, with_command as command_added, user_of};
ghost use Rattle.nofs_script.specs.Session.{read_verb as verb_read, read_words as words_read, read_line as line_read};
ghost use Rattle.nofs_script.specs.Session.{at_line, is_skipped as is_skipped_in, read_from, empty_reading};
ghost use Rattle.nofs_script.specs.Session.{session_of};

use crate::commands::{Verb, command, verb_of};
use crate::faults::{LineFault, ParseFault, ScriptFault, ScriptKind};
use crate::words::{is_spelled, place_of, words};
use nofs_client::{Command, CommandList};
use nofs_dirent::ListOf;
use nofs_history::MOST_USERS;
use std::alloc::Global;

/// The scripts of a session, one a user, each the list of its commands.
pub type Session = ListOf<CommandList>;

// Bytes that the gets of a session may ask for together.
const MOST_ASKED: u64 = 67_108_864;

const MOST_COMMANDS: u64 = 65_536;

/// What was read so far: the scripts that have ended, the one that is read, and the commands and the bytes asked for in
/// all.
#[derive(Drop)]
pub struct Reading {
    pub done: Session,
    pub current: CommandList,
    pub count: u64,
    pub asked: u64,
}

fn asked_by(command: &Command) -> u64
    ensures { result ≡ asked_in command.now }
{
    match command {
        Command::Get {
            path: _,
            offset: _,
            length,
        } => *length,
        Command::Make { .. }
        | Command::MakeDirectory { .. }
        | Command::Put { .. }
        | Command::Size { .. }
        | Command::Stat { .. }
        | Command::List { .. }
        | Command::Link { .. }
        | Command::Drop { .. }
        | Command::Rename { .. }
        | Command::Fsync { .. }
        | Command::Move { .. } => 0,
    }
}

fn with_command(reading: Reading, command: Command) -> Result<Reading, LineFault>
    ensures { MatchesReading (λ r. r) result (command_added reading command) }
{
    let Reading {
        done,
        mut current,
        count,
        asked,
    } = reading;
    let asked = asked.saturating_add(asked_by(&command));
    if asked > MOST_ASKED {
        return Err(LineFault::Wrong(ScriptKind::TooMuchAsked));
    }
    if count >= MOST_COMMANDS {
        return Err(LineFault::Wrong(ScriptKind::TooManyCommands));
    }
    current.push(command)?;
    Ok(Reading {
        done,
        current,
        count: count + 1,
        asked,
    })
}

fn next_user(alloc: Global, reading: Reading) -> Result<Reading, LineFault>
    ensures { MatchesReading (λ r. r) result (user_of reading []) }
{
    let Reading {
        mut done,
        current,
        count,
        asked,
    } = reading;
    if done.len() + 1 >= MOST_USERS {
        return Err(LineFault::Wrong(ScriptKind::TooManyUsers));
    }
    done.push(current)?;
    Ok(Reading {
        done,
        current: CommandList::new(alloc),
        count,
        asked,
    })
}

fn user(alloc: Global, reading: Reading, args: &[&[u8]]) -> Result<Reading, LineFault>
    ensures { MatchesReading (λ r. r) result (user_of reading (map piece_of args.now)) }
{
    match args {
        [] => next_user(alloc, reading),
        [_, ..] => Err(LineFault::Wrong(ScriptKind::WordCount)),
    }
}

fn read_verb(
    alloc: Global,
    reading: Reading,
    verb: Option<Verb>,
    args: &[&[u8]],
) -> Result<Reading, LineFault>
    ensures { MatchesReading (λ r. r) result (verb_read reading verb (map piece_of args.now)) }
{
    match verb {
        None => Err(LineFault::Wrong(ScriptKind::UnknownCommand)),
        Some(verb) => {
            let command = command(alloc, verb, args)?;
            with_command(reading, command)
        }
    }
}

fn read_named(
    alloc: Global,
    reading: Reading,
    word: &[u8],
    args: &[&[u8]],
) -> Result<Reading, LineFault>
    ensures { MatchesReading (λ r. r) result (words_read reading (word.now ∷ map piece_of args.now)) }
{
    if is_spelled(word, "user") {
        user(alloc, reading, args)
    } else {
        read_verb(alloc, reading, verb_of(word), args)
    }
}

fn read_words(alloc: Global, reading: Reading, words: &[&[u8]]) -> Result<Reading, LineFault>
    ensures { MatchesReading (λ r. r) result (words_read reading (map piece_of words.now)) }
{
    match words {
        [] => Ok(reading),
        [word, args @ ..] => read_named(alloc, reading, word, args),
    }
}

fn is_skipped(line: &[u8]) -> bool
    ensures { result ≡ is_skipped_in line.now }
{
    !line.is_empty() && line[0] == b'#'
}

#[tactic(auto, unfolding(crate::specs::Session::read_line), using(crate::proofs::OnGrammar::read_five))]
fn read_line(alloc: Global, reading: Reading, line: &[u8]) -> Result<Reading, LineFault>
    ensures { MatchesReading (λ r. r) result (line_read reading line.now) }
{
    if is_skipped(line) {
        return Ok(reading);
    }
    let words = words(alloc, line)?;
    read_words(alloc, reading, &words)
}

/// A line without the carriage return at its end.
pub(crate) fn without_return(line: &[u8]) -> &[u8]
    ensures { result.now ≡ strip_carriage_return line.now }
{
    let length = line.len();
    if length > 0 && line[length - 1] == b'\r' {
        &line[..length - 1]
    } else {
        line
    }
}

/// The place of the first line feed.
pub(crate) fn end_of(text: &[u8]) -> Option<usize>
    ensures first { MatchOption result (All (λ byte. byte ≢ 10) text.now)
        (λ end. (slice_get text.now end ≡ Some 10) × All (λ byte. byte ≢ 10) (take end text.now)) }
    ensures within { IfSome result (λ end. end < length text.now) }
{
    place_of(b'\n', text)
}

/// Reads one line.
pub(crate) fn read_at(
    alloc: Global,
    number: u64,
    reading: Reading,
    line: &[u8],
) -> Result<Reading, ParseFault>
    ensures { MatchesReading (λ r. r) result (at_line number (line_read reading line.now)) }
{
    match read_line(alloc, reading, line) {
        Ok(reading) => Ok(reading),
        Err(LineFault::OutOfMemory) => Err(ParseFault::OutOfMemory),
        Err(LineFault::Wrong(kind)) => Err(ParseFault::Wrong(ScriptFault { line: number, kind })),
    }
}
