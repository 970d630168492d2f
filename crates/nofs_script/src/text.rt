//! The text of a line.

ghost use Rattle.std.specs.Prelude.{◌≡◌, ◌++◌, IfOk, OnOk, flat_map};
ghost use Rattle.std.specs.Fmt.{decimal};
ghost use Rattle.nofs_script.specs.Parts.{middle_text, part_text, parts_text};
ghost use Rattle.nofs_script.specs.Text.{got_text, listed_text, text_of};

use crate::digits::push_digits;
use crate::parts::{LinePart, got_parts, head_parts, listed_parts};
use nofs_client::{GotParts, Line, ListParts};
use std::alloc::{AllocError, Global};

fn push_words(text: &mut Vec<u8>, words: &str) -> Result<(), AllocError>
    ensures { OnOk result (text.new.items ≡ text.old.items ++ words.now) }
{
    text.extend_from_slice(words.as_bytes())
}

/// Adds words and a number to a text.
pub fn push_number(
    alloc: Global,
    text: &mut Vec<u8>,
    words: &str,
    number: u64,
) -> Result<(), AllocError>
    ensures { OnOk result (text.new.items ≡ text.old.items ++ (words.now ++ decimal number)) }
{
    push_words(text, words)?;
    push_words(text, number.to_string(alloc)?.as_str())
}

fn push_part(alloc: Global, text: &mut Vec<u8>, part: LinePart<'_>) -> Result<(), AllocError>
    ensures { OnOk result (text.new.items ≡ text.old.items ++ part_text part.entry) }
{
    match part {
        LinePart::Words(words) => push_words(text, words),
        LinePart::Counted(words, number) => push_number(alloc, text, words, number),
        LinePart::Digits(bytes) => push_digits(text, bytes),
        LinePart::Name(name) => text.extend_from_slice(name),
    }
}

fn push_parts(alloc: Global, text: &mut Vec<u8>, parts: &[LinePart<'_>]) -> Result<(), AllocError>
    ensures { OnOk result (text.new.items ≡ text.old.items ++ parts_text parts.now) }
{
    for part in parts {
        push_part(alloc, text, *part)?;
    }
    Ok(())
}

fn push_got(alloc: Global, text: &mut Vec<u8>, parts: &GotParts) -> Result<(), AllocError>
    ensures { OnOk result (text.new.items ≡ text.old.items ++ flat_map got_text parts.now) }
{
    for part in parts.as_slice() {
        push_parts(alloc, text, &got_parts(part))?;
    }
    Ok(())
}

fn push_listed(alloc: Global, text: &mut Vec<u8>, parts: &ListParts) -> Result<(), AllocError>
    ensures { OnOk result (text.new.items ≡ text.old.items ++ flat_map listed_text parts.now) }
{
    for part in parts.as_slice() {
        push_parts(alloc, text, &listed_parts(part))?;
    }
    Ok(())
}

// What stands in a line behind its head.
fn push_middle(alloc: Global, text: &mut Vec<u8>, line: &Line) -> Result<(), AllocError>
    ensures { OnOk result (text.new.items ≡ text.old.items ++ middle_text line.now) }
{
    match line {
        Line::Got(parts) => push_got(alloc, text, parts),
        Line::Names(parts) => push_listed(alloc, text, parts),
        Line::Made
        | Line::Put(_)
        | Line::Sized(_)
        | Line::Stat(_)
        | Line::Linked
        | Line::Dropped
        | Line::Renamed
        | Line::Synced
        | Line::Moved
        | Line::Refused(_)
        | Line::RefusedPut { .. } => Ok(()),
    }
}

/// Adds the one text of a line, with its line feed (docs/FORMAT.md, "Lines").
#[tactic(auto, unfolding(crate::specs::Text::text_of))]
pub fn add_line(alloc: Global, text: &mut Vec<u8>, line: &Line) -> Result<(), AllocError>
    ensures { OnOk result (text.new.items ≡ text.old.items ++ text_of line.now) }
{
    push_parts(alloc, text, &head_parts(line))?;
    push_middle(alloc, text, line)?;
    text.push(b'\n')?;
    Ok(())
}

/// The one text of a line, with its line feed, by itself.
pub fn line_text(alloc: Global, line: &Line) -> Result<Vec<u8>, AllocError>
    ensures { IfOk result (λ text. text.items ≡ text_of line.now) }
{
    let mut text = Vec::new(alloc);
    add_line(alloc, &mut text, line)?;
    Ok(text)
}
