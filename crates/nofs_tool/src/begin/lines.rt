//! The lines of a run that served no session (docs/FORMAT.md, "Other lines of the program").
//!
//! Promise: each line is the one that `specs/Begin/Lines.antt` defines, byte by byte. None takes memory: a line is its
//! parts, of which each is words, a number or bytes.

ghost use Rattle.std.specs.Prelude.{◌≡◌, ◌++◌};
ghost use Rattle.std.specs.Fmt.{decimal};
ghost use Rattle.nofs_tool.specs.Begin.Lines.{cause_line, fixed_line, format_line, geometry_line, magic_line};
ghost use Rattle.nofs_tool.specs.Begin.Lines.{mount_line, parts_text};
ghost use Rattle.nofs_tool.specs.Begin.Lines.{script_line, script_words, upgrade_line};

use crate::begin::mounts::Cause;
use nofs_script::{ScriptFault, ScriptKind};
use nofs_super::{FormatFault, MountFault};
use nofs_upgrade::UpgradeFault;

/// A line that is always the same.
#[derive(Clone, Copy, Debug, PartialEq, Eq)]
pub enum FixedLine {
    /// Of words that are no command.
    Usage,
    /// Of a source that failed.
    SourceFault,
    /// Of a session that is too long.
    TooLong,
    /// Of a device that failed before a mount stood.
    DeviceFault,
    /// Of an upgrade that ended well.
    Upgraded,
}

/// The text of such a line.
#[tactic(auto, unfolding(crate::specs::Begin::Lines::fixed_line))]
pub fn fixed_text(line: FixedLine) -> &'static str
    ensures { result.now ≡ fixed_line line }
{
    match line {
        FixedLine::Usage => {
            "usage: nofs IMAGE new BLOCKS INODES | run | scan | drill START STEPS | upgrade | salvage [PREFIX] | wire\n"
        }
        FixedLine::SourceFault => "source fault\n",
        FixedLine::TooLong => "session longer than 16777216 bytes\n",
        FixedLine::DeviceFault => "device fault\n",
        FixedLine::Upgraded => "upgraded\n",
    }
}

/// A part of a line.
#[derive(Clone, Copy)]
pub enum Part {
    /// Words as they stand.
    Words(&'static str),
    /// A number in decimal.
    Number(u64),
    /// Bytes in hexadecimal.
    Bytes([u8; 8]),
}

/// A line by its parts, in order. One with fewer ends in words that are empty.
#[derive(Clone, Copy)]
pub struct PartedLine {
    pub parts: [Part; 5],
}

/// A line of words alone.
pub(crate) fn words_line(words: &'static str) -> PartedLine
    ensures { parts_text result.parts ≡ words.now }
{
    let none = Part::Words("");
    PartedLine {
        parts: [Part::Words(words), none, none, none, none],
    }
}

// A line of words, a number and words.
fn counted_line(words: &'static str, number: u64, rest: &'static str) -> PartedLine
    ensures { parts_text result.parts ≡ words.now ++ decimal number ++ rest.now }
{
    let none = Part::Words("");
    PartedLine {
        parts: [
            Part::Words(words),
            Part::Number(number),
            Part::Words(rest),
            none,
            none,
        ],
    }
}

fn kind_text(kind: ScriptKind) -> &'static str
    ensures { result.now ≡ script_words kind }
{
    match kind {
        ScriptKind::UnknownCommand => "unknown command",
        ScriptKind::WordCount => "wrong number of words",
        ScriptKind::BadPath => "bad path",
        ScriptKind::BadNumber => "bad number",
        ScriptKind::BadHex => "bad hex",
        ScriptKind::TooManyUsers => "too many users",
        ScriptKind::TooMuchAsked => "too much asked",
        ScriptKind::TooManyCommands => "too many commands",
    }
}

/// The line of a text that is no session.
#[tactic(auto, unfolding(crate::specs::Begin::Lines::script_line))]
pub(crate) fn script_text(fault: ScriptFault) -> PartedLine
    ensures { parts_text result.parts ≡ script_line fault }
{
    PartedLine {
        parts: [
            Part::Words("line "),
            Part::Number(fault.line),
            Part::Words(": "),
            Part::Words(kind_text(fault.kind)),
            Part::Words("\n"),
        ],
    }
}

fn format_text(fault: FormatFault) -> PartedLine
    ensures { parts_text result.parts ≡ format_line fault }
{
    match fault {
        FormatFault::TooSmall { least } => {
            counted_line("format: too small, least ", least, "\n")
        }
        FormatFault::TooLarge { most } => counted_line("format: too large, most ", most, "\n"),
        FormatFault::NotMultiple { inodes } => counted_line("format: bad inodes ", inodes, "\n"),
        FormatFault::WriteFault => words_line(fixed_text(FixedLine::DeviceFault)),
        FormatFault::OutOfMemory => words_line(""),
    }
}

fn magic_text(found: [u8; 8]) -> PartedLine
    ensures { parts_text result.parts ≡ magic_line found }
{
    let none = Part::Words("");
    PartedLine {
        parts: [
            Part::Words("mount: bad magic "),
            Part::Bytes(found),
            Part::Words("\n"),
            none,
            none,
        ],
    }
}

fn geometry_text(blocks: u64, inodes: u64) -> PartedLine
    ensures { parts_text result.parts ≡ geometry_line blocks inodes }
{
    PartedLine {
        parts: [
            Part::Words("mount: bad geometry, blocks "),
            Part::Number(blocks),
            Part::Words(", inodes "),
            Part::Number(inodes),
            Part::Words("\n"),
        ],
    }
}

fn mount_text(fault: MountFault) -> PartedLine
    ensures { parts_text result.parts ≡ mount_line fault }
{
    match fault {
        MountFault::BadMagic { found } => magic_text(found),
        MountFault::BadVersion { found } => {
            counted_line("mount: bad version ", u64::from(found), "\n")
        }
        MountFault::BadGeometry { blocks, inodes } => geometry_text(blocks, inodes),
        MountFault::DeviceTooSmall { has } => {
            counted_line("mount: device too small, has ", has, "\n")
        }
        MountFault::MountsSpent { found } => {
            counted_line("mount: mounts spent, number ", found, "\n")
        }
        MountFault::BadRest { at } => counted_line("mount: byte ", at, " is not zero\n"),
        MountFault::ReadFault | MountFault::WriteFault => {
            words_line(fixed_text(FixedLine::DeviceFault))
        }
        MountFault::OutOfMemory => words_line(""),
    }
}

/// The line of a format or a mount that was refused; nothing is said where memory was wanting.
pub(crate) fn cause_text(cause: Cause) -> PartedLine
    ensures { parts_text result.parts ≡ cause_line cause }
{
    match cause {
        Cause::Device => words_line(fixed_text(FixedLine::DeviceFault)),
        Cause::NoMemory => words_line(""),
        Cause::Format(fault) => format_text(fault),
        Cause::Mount(fault) => mount_text(fault),
    }
}

/// The line of an upgrade that was refused; nothing is said where memory was wanting.
pub(crate) fn upgrade_text(fault: UpgradeFault) -> PartedLine
    ensures { parts_text result.parts ≡ upgrade_line fault }
{
    match fault {
        UpgradeFault::Mount(fault) => mount_text(fault),
        UpgradeFault::Already => words_line("upgrade: already version 2\n"),
    }
}
