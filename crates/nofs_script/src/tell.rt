//! Telling a sink the lines of a session.
//!
//! Promise: a sink takes the text of all lines, or, where it fails, a part of that text from its front. No text of a
//! line or of the session is built: what is told next stands in a room of one piece, which goes to the sink where it is
//! full. Nothing here takes memory.

ghost use Rattle.std.specs.Prelude.{◌≡◌, ◌≤◌, ◌++◌, [], OnErr, OnOk, flat_map, length};
ghost use Rattle.std.specs.Fmt.{decimal};
ghost use Rattle.hex.specs.Hex.{encode_lower};
ghost use Rattle.nofs_script.specs.Parts.{middle_text, part_text, parts_text};
ghost use Rattle.nofs_script.specs.Text.{got_text, listed_text, text_of};
ghost use Rattle.nofs_io.specs.Calls.{HasCause};
ghost use Rattle.nofs_io.specs.Texts.{AppendsAll, AppendsPart};
ghost use Rattle.nofs_script.specs.Telling.{TellsThrough};

use crate::digits::put_digits;
use crate::parts::{LinePart, got_parts, head_parts, listed_parts};
use arrayvec::ArrayVec;
use itoa::Buffer;
use nofs_client::{GotParts, Line, LineList, ListParts};
use nofs_io::{Failed, Sink, write_all};

/// How many bytes go to a sink at once.
const PIECE: usize = 65_536;

/// What is told and was not given to the sink yet.
type Room = ArrayVec<u8, PIECE>;

// Gives the sink all that stands in the room.
fn empty<K: Sink>(sink: &mut K, room: &mut Room) -> Result<(), Failed>
    ensures goes { TellsThrough (K.state sink.old) (K.state sink.new) room.old.items room.new.items result [] }
    ensures empty { OnOk result (room.new.items ≡ []) }
{
    write_all(sink, room.as_slice())?;
    room.clear();
    Ok(())
}

// Tells bytes for which the room has no place. Those that are more than a piece go to the sink by themselves.
fn tell_next<K: Sink>(sink: &mut K, room: &mut Room, bytes: &[u8]) -> Result<(), Failed>
    ensures { TellsThrough (K.state sink.old) (K.state sink.new) room.old.items room.new.items result bytes.now }
{
    empty(sink, room)?;
    match room.try_extend_from_slice(bytes) {
        Ok(()) => Ok(()),
        Err(_) => write_all(sink, bytes),
    }
}

fn tell_bytes<K: Sink>(sink: &mut K, room: &mut Room, bytes: &[u8]) -> Result<(), Failed>
    ensures { TellsThrough (K.state sink.old) (K.state sink.new) room.old.items room.new.items result bytes.now }
{
    match room.try_extend_from_slice(bytes) {
        Ok(()) => Ok(()),
        Err(_) => tell_next(sink, room, bytes),
    }
}

fn tell_counted<K: Sink>(
    sink: &mut K,
    room: &mut Room,
    words: &'static str,
    number: u64,
) -> Result<(), Failed>
    ensures { TellsThrough (K.state sink.old) (K.state sink.new) room.old.items room.new.items result
        (words.now ++ decimal number) }
{
    let mut digits = Buffer::new();
    tell_bytes(sink, room, words.as_bytes())?;
    tell_bytes(sink, room, digits.format(number).as_bytes())
}

// Tells the digits of at most a slot's bytes.
fn tell_slot<K: Sink>(sink: &mut K, room: &mut Room, bytes: &[u8]) -> Result<(), Failed>
    requires { length bytes.now ≤ 1024 }
    ensures { TellsThrough (K.state sink.old) (K.state sink.new) room.old.items room.new.items result
        (encode_lower bytes.now) }
{
    let mut digits = [0; 2048];
    let spelled = &mut digits[..2 * bytes.len()];
    put_digits(bytes, spelled);
    tell_bytes(sink, room, spelled)
}

fn tell_digits<K: Sink>(sink: &mut K, room: &mut Room, bytes: &[u8]) -> Result<(), Failed>
    ensures { TellsThrough (K.state sink.old) (K.state sink.new) room.old.items room.new.items result
        (encode_lower bytes.now) }
{
    for chunk in bytes.chunks(1024) {
        tell_slot(sink, room, chunk)?;
    }
    Ok(())
}

fn tell_part<K: Sink>(sink: &mut K, room: &mut Room, part: LinePart<'_>) -> Result<(), Failed>
    ensures { TellsThrough (K.state sink.old) (K.state sink.new) room.old.items room.new.items result
        (part_text part.entry) }
{
    match part {
        LinePart::Words(words) => tell_bytes(sink, room, words.as_bytes()),
        LinePart::Counted(words, number) => tell_counted(sink, room, words, number),
        LinePart::Digits(bytes) => tell_digits(sink, room, bytes),
        LinePart::Name(name) => tell_bytes(sink, room, name),
    }
}

fn tell_parts<K: Sink>(sink: &mut K, room: &mut Room, parts: &[LinePart<'_>]) -> Result<(), Failed>
    ensures { TellsThrough (K.state sink.old) (K.state sink.new) room.old.items room.new.items result
        (parts_text parts.now) }
{
    for part in parts {
        tell_part(sink, room, *part)?;
    }
    Ok(())
}

fn tell_got<K: Sink>(sink: &mut K, room: &mut Room, parts: &GotParts) -> Result<(), Failed>
    ensures { TellsThrough (K.state sink.old) (K.state sink.new) room.old.items room.new.items result
        (flat_map got_text parts.now) }
{
    for part in parts.as_slice() {
        tell_parts(sink, room, &got_parts(part))?;
    }
    Ok(())
}

fn tell_listed<K: Sink>(sink: &mut K, room: &mut Room, parts: &ListParts) -> Result<(), Failed>
    ensures { TellsThrough (K.state sink.old) (K.state sink.new) room.old.items room.new.items result
        (flat_map listed_text parts.now) }
{
    for part in parts.as_slice() {
        tell_parts(sink, room, &listed_parts(part))?;
    }
    Ok(())
}

// Tells what stands in a line behind its head.
fn tell_middle<K: Sink>(sink: &mut K, room: &mut Room, line: &Line) -> Result<(), Failed>
    ensures { TellsThrough (K.state sink.old) (K.state sink.new) room.old.items room.new.items result
        (middle_text line.now) }
{
    match line {
        Line::Got(parts) => tell_got(sink, room, parts),
        Line::Names(parts) => tell_listed(sink, room, parts),
        Line::Made
        | Line::Put(_)
        | Line::Sized(_)
        | Line::Stat(_)
        | Line::Linked
        | Line::Dropped
        | Line::Renamed
        | Line::Synced
        | Line::Moved
        | Line::Refused(_)
        | Line::RefusedPut { .. } => tell_bytes(sink, room, b""),
    }
}

fn tell_line<K: Sink>(sink: &mut K, room: &mut Room, line: &Line) -> Result<(), Failed>
    ensures { TellsThrough (K.state sink.old) (K.state sink.new) room.old.items room.new.items result
        (text_of line.now) }
{
    tell_parts(sink, room, &head_parts(line))?;
    tell_middle(sink, room, line)?;
    tell_bytes(sink, room, b"\n")
}

fn tell_lines<K: Sink>(sink: &mut K, room: &mut Room, lines: &LineList) -> Result<(), Failed>
    ensures { TellsThrough (K.state sink.old) (K.state sink.new) room.old.items room.new.items result
        (flat_map text_of lines.now) }
{
    for line in lines.as_slice() {
        tell_line(sink, room, line)?;
    }
    Ok(())
}

fn tell_users<K: Sink>(sink: &mut K, room: &mut Room, users: &[LineList]) -> Result<(), Failed>
    ensures { TellsThrough (K.state sink.old) (K.state sink.new) room.old.items room.new.items result
        (flat_map (λ lines. flat_map text_of lines) users.now) }
{
    for lines in users {
        tell_lines(sink, room, lines)?;
    }
    Ok(())
}

// Tells a text and the lines of all users, and leaves nothing in the room.
fn tell_through<K: Sink>(
    sink: &mut K,
    room: &mut Room,
    text: &[u8],
    users: &[LineList],
) -> Result<(), Failed>
    ensures goes { TellsThrough (K.state sink.old) (K.state sink.new) room.old.items room.new.items result
        (text.now ++ flat_map (λ lines. flat_map text_of lines) users.now) }
    ensures empty { OnOk result (room.new.items ≡ []) }
{
    tell_bytes(sink, room, text)?;
    tell_users(sink, room, users)?;
    empty(sink, room)
}

/// Tells the lines of all users, in order, behind a text.
pub(crate) fn tell_all<K: Sink>(sink: &mut K, text: &[u8], users: &[LineList]) -> Result<(), Failed>
    ensures whole { OnOk result (AppendsAll (K.state sink.old) (K.state sink.new)
        (text.now ++ flat_map (λ lines. flat_map text_of lines) users.now)) }
    ensures part { OnErr result (AppendsPart (K.state sink.old) (K.state sink.new)
        (text.now ++ flat_map (λ lines. flat_map text_of lines) users.now)) }
    ensures cause { HasCause (K.state sink.old).faults (K.state sink.new).faults result }
{
    tell_through(sink, &mut Room::new(), text, users)
}
