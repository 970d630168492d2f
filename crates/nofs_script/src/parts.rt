//! The parts of a line's text.
//!
//! Promise: the parts of a line's head, those of what it lists, and a line feed, one behind the other, are its text.
//! They take no memory: a part is words, a number, or bytes of the line itself.

ghost use Rattle.std.specs.Prelude.{◌≡◌, ◌++◌};
ghost use Rattle.nofs_script.specs.Parts.{middle_text, part_text, parts_text};
ghost use Rattle.nofs_script.specs.Text.{got_text, listed_text, name_text, refused_text, stat_text, words_text};
ghost use Rattle.nofs_script.specs.Text.{refusal_rest as rest_of_refusal, refusal_words as words_of_refusal};

use nofs_client::{GotPart, Line, ListPart};
use nofs_history::{NameLine, Refusal, Stat};
use nofs_inode::inode::FileKind;

/// A part of a line.
#[derive(Clone, Copy)]
pub(crate) enum LinePart<'a> {
    /// Words as they stand.
    Words(&'static str),
    /// Words, and a number in decimal.
    Counted(&'static str, u64),
    /// Bytes in hexadecimal, two small digits each.
    Digits(&'a [u8]),
    /// The bytes of a name as they stand.
    Name(&'a [u8]),
}

/// The parts of what was got of one slot.
pub(crate) fn got_parts(part: &GotPart) -> [LinePart<'_>; 2]
    ensures { parts_text result ≡ got_text part.now }
{
    let none = LinePart::Words("");
    match part {
        GotPart::Bytes(bytes) => [
            LinePart::Words(" bytes:"),
            LinePart::Digits(bytes.as_slice()),
        ],
        GotPart::Hole(number) => [LinePart::Counted(" hole:", *number), none],
        GotPart::Lost(number) => [LinePart::Counted(" lost:", *number), none],
    }
}

fn name_parts(entry: &NameLine) -> [LinePart<'_>; 3]
    ensures { parts_text result ≡ name_text entry.now.name entry.now.kind entry.now.dead }
{
    let none = LinePart::Words("");
    let name = LinePart::Name(entry.name.as_slice());
    if entry.dead {
        return [LinePart::Words(" /dead:"), name, none];
    }
    match entry.kind {
        FileKind::File => [LinePart::Words(" "), name, none],
        FileKind::Directory => [LinePart::Words(" "), name, LinePart::Words("/")],
    }
}

/// The parts of one part of a list.
pub(crate) fn listed_parts(part: &ListPart) -> [LinePart<'_>; 3]
    ensures { parts_text result ≡ listed_text part.now }
{
    let none = LinePart::Words("");
    match part {
        ListPart::Lost(slot) => [LinePart::Counted(" /lost:", *slot), none, none],
        ListPart::Name(entry) => name_parts(entry),
    }
}

fn refusal_words(refusal: &Refusal) -> &'static str
    ensures { result.now ≡ words_of_refusal refusal.now }
{
    match refusal {
        Refusal::Missing => "1 missing",
        Refusal::LostEntry { entry: _ } => "2 lost entry ",
        Refusal::LostSlot { slot: _ } => "3 lost slot ",
        Refusal::Exists => "4 exists",
        Refusal::NotDirectory => "5 not a directory",
        Refusal::IsDirectory => "6 is a directory",
        Refusal::NotEmpty => "7 not empty",
        Refusal::BadName => "8 bad name",
        Refusal::BadRange => "9 bad range",
        Refusal::TooManyLinks => "10 too many links",
        Refusal::DirectoryFull => "11 directory full",
        Refusal::TooLarge => "12 too large",
        Refusal::PastEnd => "13 past end",
        Refusal::Stale => "14 stale",
        Refusal::Full { .. } => "15 full",
        Refusal::InodesFull { .. } => "16 inodes full",
        Refusal::SerialsSpent => "17 serials spent",
        Refusal::ReadFault => "18 read fault",
        Refusal::WriteFault => "19 write fault",
        Refusal::Stopped => "20 stopped",
        Refusal::OutOfMemory => "21 out of memory",
    }
}

// What a refusal tells beside its words.
fn refusal_rest(refusal: &Refusal) -> (LinePart<'static>, LinePart<'static>, LinePart<'static>)
    ensures { part_text result.0 ++ part_text result.1 ++ part_text result.2 ≡ rest_of_refusal refusal.now }
{
    let none = LinePart::Words("");
    match refusal {
        Refusal::LostEntry { entry } => (LinePart::Counted("", u64::from(*entry)), none, none),
        Refusal::LostSlot { slot } => (LinePart::Counted("", *slot), none, none),
        Refusal::Full {
            needed,
            free,
            unverified,
            next: _,
        } => (
            LinePart::Counted(", needed ", *needed),
            LinePart::Counted(", free ", *free),
            LinePart::Counted(", unchecked ", *unverified),
        ),
        Refusal::InodesFull {
            unverified,
            next: _,
        } => (LinePart::Counted(", unchecked ", *unverified), none, none),
        Refusal::Missing
        | Refusal::Exists
        | Refusal::NotDirectory
        | Refusal::IsDirectory
        | Refusal::NotEmpty
        | Refusal::BadName
        | Refusal::BadRange
        | Refusal::TooManyLinks
        | Refusal::DirectoryFull
        | Refusal::TooLarge
        | Refusal::PastEnd
        | Refusal::Stale
        | Refusal::SerialsSpent
        | Refusal::ReadFault
        | Refusal::WriteFault
        | Refusal::Stopped
        | Refusal::OutOfMemory => (none, none, none),
    }
}

// A refused command, and what is told behind the refusal.
fn refused_parts(refusal: &Refusal, stored: LinePart<'static>) -> [LinePart<'static>; 6]
    ensures { parts_text result ≡ refused_text refusal.now ++ part_text stored.entry }
{
    let (first, second, third) = refusal_rest(refusal);
    [
        LinePart::Words("refused "),
        LinePart::Words(refusal_words(refusal)),
        first,
        second,
        third,
        stored,
    ]
}

// A head of one or two parts.
fn short_head(first: LinePart<'static>, second: LinePart<'static>) -> [LinePart<'static>; 6]
    ensures { parts_text result ≡ part_text first.entry ++ part_text second.entry }
{
    let none = LinePart::Words("");
    [first, second, none, none, none, none]
}

fn stat_parts(stat: &Stat) -> [LinePart<'static>; 6]
    ensures { parts_text result ≡ stat_text stat.now.kind stat.now }
{
    let links = u64::from(stat.links);
    match stat.kind {
        FileKind::File => short_head(
            LinePart::Counted("stat file ", stat.size),
            LinePart::Counted(" ", links),
        ),
        FileKind::Directory => short_head(
            LinePart::Counted("stat dir 0 ", links),
            LinePart::Words(""),
        ),
    }
}

/// The parts of a line before what it lists; of a line that lists nothing, all but the line feed.
pub(crate) fn head_parts(line: &Line) -> [LinePart<'static>; 6]
    ensures { parts_text result ++ middle_text line.now ≡ words_text line.now }
{
    let none = LinePart::Words("");
    match line {
        Line::Made => short_head(LinePart::Words("made"), none),
        Line::Put(number) => short_head(LinePart::Counted("put ", *number), none),
        Line::Got(_) => short_head(LinePart::Words("got"), none),
        Line::Sized(number) => short_head(LinePart::Counted("sized ", *number), none),
        Line::Stat(stat) => stat_parts(stat),
        Line::Names(_) => short_head(LinePart::Words("names"), none),
        Line::Linked => short_head(LinePart::Words("linked"), none),
        Line::Dropped => short_head(LinePart::Words("dropped"), none),
        Line::Renamed => short_head(LinePart::Words("renamed"), none),
        Line::Synced => short_head(LinePart::Words("synced"), none),
        Line::Moved => short_head(LinePart::Words("moved"), none),
        Line::Refused(refusal) => refused_parts(refusal, none),
        Line::RefusedPut { refusal, stored } => {
            refused_parts(refusal, LinePart::Counted(", stored ", *stored))
        }
    }
}
