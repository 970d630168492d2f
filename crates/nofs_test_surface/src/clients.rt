//! Clients with their commands and lines, sessions and their texts, and drawn scripts.
ghost use Rattle.nofs_client.specs.Task.Commands.{IsWellFormed};
ghost use Rattle.nofs_client.specs.Progress.{AllAnswer, start_of};
ghost use Rattle.std.specs.Prelude.{◌<◌, ◌≤◌};

use crate::typed::typed;
use nofs_client::{
    Client, Command, CommandList, GotPart, GotParts, Line, LineList, ListPart, ListParts, Next,
    Path,
};
use nofs_dirent::{Content, Name, PathNames};
use nofs_gen::{DrillNumbers, FileRead, ValueList};
use nofs_history::{Found, History, NameLine, Refusal, Reply, Stat, Step, Steps};
use nofs_io::{Failed, Sink};
use nofs_script::{ParseFault, ScriptFault, ScriptKind, Session, Told};
use std::alloc::{AllocError, Global};

/// `nofs_client::Path`
pub fn path_variant(it: &Path) -> u8 {
    match it {
        Path::Label => 0,
        Path::Names(first) => typed::<PathNames>(first, 1),
    }
}

/// `nofs_client::Command`
pub fn command_variant(it: &Command) -> u8 {
    match it {
        Command::Make { path } => typed::<Path>(path, 0),
        Command::MakeDirectory { path } => typed::<Path>(path, 1),
        Command::Put {
            path,
            offset,
            bytes,
        } => typed::<(&Path, &u64, &Content)>(&(path, offset, bytes), 2),
        Command::Get {
            path,
            offset,
            length,
        } => typed::<(&Path, &u64, &u64)>(&(path, offset, length), 3),
        Command::Size { path, size } => typed::<(&Path, &u64)>(&(path, size), 4),
        Command::Stat { path } => typed::<Path>(path, 5),
        Command::List { path } => typed::<Path>(path, 6),
        Command::Link { path, new_path } => typed::<(&Path, &Path)>(&(path, new_path), 7),
        Command::Drop { path } => typed::<Path>(path, 8),
        Command::Rename { path, name } => typed::<(&Path, &Name)>(&(path, name), 9),
        Command::Fsync { path } => typed::<Path>(path, 10),
        Command::Move { from, to } => typed::<(&Path, &Path)>(&(from, to), 11),
    }
}

/// `nofs_client::GotPart`
pub fn got_part_variant(it: &GotPart) -> u8 {
    match it {
        GotPart::Bytes(first) => typed::<Content>(first, 0),
        GotPart::Hole(first) => typed::<u64>(first, 1),
        GotPart::Lost(first) => typed::<u64>(first, 2),
    }
}

/// `nofs_client::ListPart`
pub fn list_part_variant(it: &ListPart) -> u8 {
    match it {
        ListPart::Name(first) => typed::<NameLine>(first, 0),
        ListPart::Lost(first) => typed::<u64>(first, 1),
    }
}

/// `nofs_client::Line`
pub fn line_variant(it: &Line) -> u8 {
    match it {
        Line::Made => 0,
        Line::Put(first) => typed::<u64>(first, 1),
        Line::Got(first) => typed::<GotParts>(first, 2),
        Line::Sized(first) => typed::<u64>(first, 3),
        Line::Stat(first) => typed::<Stat>(first, 4),
        Line::Names(first) => typed::<ListParts>(first, 5),
        Line::Linked => 6,
        Line::Dropped => 7,
        Line::Renamed => 8,
        Line::Synced => 9,
        Line::Moved => 10,
        Line::Refused(first) => typed::<Refusal>(first, 11),
        Line::RefusedPut { refusal, stored } => typed::<(&Refusal, &u64)>(&(refusal, stored), 12),
    }
}

/// `nofs_client::drive`
pub fn client_drive(alloc: Global, command: &Command, replies: &[Reply]) -> Result<Next, AllocError>
    requires formed { IsWellFormed command.now }
    requires fits { AllAnswer command.now (start_of command.now) replies.now }
{
    nofs_client::drive(alloc, command, replies)
}

/// `nofs_client::Next`
pub fn next_variant(it: &Next) -> u8 {
    match it {
        Next::Do(first) => typed::<Step>(first, 0),
        Next::Say(first) => typed::<Line>(first, 1),
    }
}

/// `nofs_client::Client`
pub fn client_fields<S: Steps>(it: Client<S>) -> S {
    let Client { steps } = it;
    steps
}

/// `nofs_client::CommandList`
pub fn command_list_itself(it: CommandList) -> CommandList {
    it
}

/// `nofs_client::Client::new`
pub fn client_new<S: Steps>(steps: S) -> Client<S> {
    Client::new(steps)
}

/// `nofs_client::Client::into_inner`
pub fn client_into_inner<S: Steps>(this: Client<S>) -> S {
    this.into_inner()
}

/// `nofs_client::Client::run`
pub fn client_run<S: Steps>(
    this: &mut Client<S>,
    alloc: Global,
    command: &Command,
) -> Result<Line, AllocError>
    requires { IsWellFormed command.now }
{
    this.run(alloc, command)
}

/// `nofs_script::parse`
pub fn script_parse(alloc: Global, text: &[u8]) -> Result<Session, ParseFault> {
    nofs_script::parse(alloc, text)
}

/// `nofs_script::add_line`
pub fn script_add_line(alloc: Global, text: &mut Vec<u8>, line: &Line) -> Result<(), AllocError> {
    nofs_script::add_line(alloc, text, line)
}

/// `nofs_script::line_text`
pub fn script_line_text(alloc: Global, line: &Line) -> Result<Vec<u8>, AllocError> {
    nofs_script::line_text(alloc, line)
}

/// `nofs_script::Told::of_text`
pub fn told_of_text(alloc: Global, text: Vec<u8>) -> Told {
    Told::of_text(alloc, text)
}

/// `nofs_script::Told::of_lines`
pub fn told_of_lines(alloc: Global, users: Vec<LineList>) -> Told {
    Told::of_lines(alloc, users)
}

/// `nofs_script::Told::tell`
pub fn told_tell<K: Sink>(this: &Told, sink: &mut K) -> Result<(), Failed> {
    this.tell(sink)
}

/// `nofs_script::Session`
pub fn session_itself(it: Session) -> Session {
    it
}

/// `nofs_script::ParseFault`
pub fn parse_fault_itself(it: ParseFault) -> ParseFault {
    it
}

/// `nofs_script::ScriptFault`
pub fn script_fault_fields(it: ScriptFault) -> (u64, ScriptKind) {
    let ScriptFault { line, kind } = it;
    (line, kind)
}

/// `nofs_script::ScriptKind`
pub fn script_kind_variant(it: &ScriptKind) -> u8 {
    match it {
        ScriptKind::UnknownCommand => 0,
        ScriptKind::WordCount => 1,
        ScriptKind::BadPath => 2,
        ScriptKind::BadNumber => 3,
        ScriptKind::BadHex => 4,
        ScriptKind::TooManyUsers => 5,
        ScriptKind::TooMuchAsked => 6,
        ScriptKind::TooManyCommands => 7,
    }
}

/// A drawn script, or want of memory.
type Drawn = Result<CommandList, AllocError>;

/// `nofs_gen::script_of`
pub fn gen_script_of(alloc: Global, start: u64, steps: u64, user: u32) -> Drawn
    requires steps { steps ≤ 4000 }
    requires user { (1 ≤ user) × (user ≤ 4) }
{
    nofs_gen::script_of(alloc, start, steps, user)
}

/// `nofs_gen::replay`
pub fn gen_replay(
    alloc: Global,
    history: &History,
    inode: u32,
    generation: u64,
) -> Result<ValueList, AllocError> {
    nofs_gen::replay(alloc, history, inode, generation)
}

/// `nofs_gen::FileRead`
pub fn file_read_fields(it: FileRead) -> (Found, u64, Vec<Reply>) {
    let FileRead { found, size, slots } = it;
    (found, size, slots)
}

/// `nofs_gen::DrillNumbers`
pub fn drill_numbers_fields(it: DrillNumbers) -> [u64; 4] {
    [it.refused, it.bytes, it.sum, it.wrong]
}

/// `nofs_gen::numbers_of`
pub fn gen_numbers_of(
    alloc: Global,
    users: &[LineList],
    reads: &[Option<FileRead>],
    history: &History,
) -> Result<DrillNumbers, AllocError> {
    nofs_gen::numbers_of(alloc, users, reads, history)
}

/// The line of a drill, or want of memory.
type DrillText = Result<Content, AllocError>;

/// `nofs_gen::drill_text`
pub fn gen_drill_text(alloc: Global, from: u64, steps: u64, it: &DrillNumbers) -> DrillText
    requires { steps ≤ 4000 }
{
    nofs_gen::drill_text(alloc, from, steps, it)
}
