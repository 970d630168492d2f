//! Replies and claims as lines of a case write them.

use crate::lines::{FIRST_STAMP, number_of};
use nofs_dirent::Content;
use nofs_disk::Pointer;
use nofs_history::{Claims, Found, NameLine, NameList, Reply, Stat};
use nofs_inode::FileKind;
use std::alloc::{AllocError, Global};

/// A number, or a stamp of the first two mounts by its place.
pub fn number_text(alloc: Global, number: u64) -> Result<String, AllocError> {
    let (letter, place) = match number / FIRST_STAMP {
        1 => ("S", number % FIRST_STAMP),
        2 => ("T", number % FIRST_STAMP),
        _ => return format!(in alloc; "{number}"),
    };
    if place == 0 {
        String::from_str(alloc, letter)
    } else {
        format!(in alloc; "{letter}+{place}")
    }
}

/// What a step was answered, and the stamps of what it claimed. Which free block it claimed is not told.
pub fn reply_text(alloc: Global, reply: &Reply, claims: &Claims) -> Result<String, AllocError> {
    let mut text = answer_text(alloc, reply)?;
    push_claim(alloc, &mut text, " cell ", claims.cell)?;
    push_claim(alloc, &mut text, " leaf ", claims.leaf)?;
    push_claim(alloc, &mut text, " top ", claims.top)?;
    Ok(text)
}

fn push_claim(
    alloc: Global,
    text: &mut String,
    what: &str,
    claim: Pointer,
) -> Result<(), AllocError> {
    if claim.stamp == 0 {
        return Ok(());
    }
    text.push_str(what)?;
    text.push_str(number_text(alloc, claim.stamp)?.as_str())
}

fn answer_text(alloc: Global, reply: &Reply) -> Result<String, AllocError> {
    match reply {
        Reply::Found(found) => found_text(alloc, found),
        Reply::Made { inode, generation } => handle_text(alloc, "made", *inode, *generation),
        Reply::Linked => String::from_str(alloc, "linked"),
        Reply::Dropped { removed: true } => String::from_str(alloc, "dropped and removed"),
        Reply::Dropped { removed: false } => String::from_str(alloc, "dropped"),
        Reply::Renamed => String::from_str(alloc, "renamed"),
        Reply::Names(slot, names) => names_text(alloc, *slot, names),
        Reply::LostNames(slot) => format!(in alloc; "lost names {slot}"),
        Reply::NoMore => String::from_str(alloc, "no more"),
        Reply::Bytes(content) => bytes_text(alloc, content),
        Reply::Hole => String::from_str(alloc, "hole"),
        Reply::Lost => String::from_str(alloc, "lost"),
        Reply::Stored => String::from_str(alloc, "stored"),
        Reply::Resized => String::from_str(alloc, "resized"),
        Reply::Stat(stat) => stat_text(alloc, stat),
        Reply::Flushed => String::from_str(alloc, "flushed"),
        Reply::Seen { used: true } => String::from_str(alloc, "used"),
        Reply::Seen { used: false } => String::from_str(alloc, "free"),
        Reply::Refused(why) => format!(in alloc; "refused {why:?}"),
    }
}

fn kind_text(kind: FileKind) -> &'static str {
    match kind {
        FileKind::File => "file",
        FileKind::Directory => "directory",
    }
}

fn handle_text(
    alloc: Global,
    what: &str,
    inode: u32,
    generation: u64,
) -> Result<String, AllocError> {
    let generation = number_text(alloc, generation)?;
    format!(in alloc; "{what} {inode}/{generation}")
}

fn found_text(alloc: Global, found: &Found) -> Result<String, AllocError> {
    let mut text = handle_text(alloc, "found", found.inode, found.generation)?;
    text.push_str(" ")?;
    text.push_str(kind_text(found.kind))?;
    Ok(text)
}

fn stat_text(alloc: Global, stat: &Stat) -> Result<String, AllocError> {
    let kind = kind_text(stat.kind);
    format!(in alloc; "{kind} {} {}", stat.size, stat.links)
}

fn names_text(alloc: Global, slot: u64, names: &NameList) -> Result<String, AllocError> {
    let mut text = format!(in alloc; "names {slot}")?;
    for line in names.as_slice() {
        text.push_str(" ")?;
        push_name(alloc, &mut text, line)?;
    }
    Ok(text)
}

fn push_name(alloc: Global, text: &mut String, line: &NameLine) -> Result<(), AllocError> {
    if line.dead {
        text.push_str("dead:")?;
    }
    match std::str::from_utf8(line.name.as_slice()) {
        Ok(name) => text.push_str(name)?,
        Err(_) => text.push_str(hex::encode(alloc, line.name.as_slice())?.as_str())?,
    }
    match line.kind {
        FileKind::File => Ok(()),
        FileKind::Directory => text.push_str("/"),
    }
}

// The bytes of a slot up to the last that is not zero.
fn bytes_text(alloc: Global, content: &Content) -> Result<String, AllocError> {
    let all = hex::encode(alloc, content.as_slice())?;
    let digits = all.as_str().trim_end_matches("00");
    format!(in alloc; "bytes {digits}")
}

/// Whether an answer is as wanted: any, bytes from a place on, or just these words.
pub fn is_answer(alloc: Global, wanted: &[&str], came: &str) -> Result<bool, AllocError> {
    match wanted {
        ["*"] => Ok(true),
        ["at", at, digits] => Ok(has_digits(came, number_of(at), digits)),
        _ => Ok(wanted.join(alloc, " ")?.as_str() == came),
    }
}

// Whether the bytes that are told have these from a place on. Zeros at their end are not told.
fn has_digits(came: &str, at: Option<u64>, digits: &str) -> bool {
    let (Some(bytes), Some(at)) = (came.strip_prefix("bytes "), at) else {
        return false;
    };
    let first = (at as usize).saturating_mul(2);
    let mut are = true;
    for (place, digit) in digits.as_bytes().iter().enumerate() {
        let came = bytes.as_bytes().get(first.saturating_add(place));
        are = are && came.unwrap_or(&b'0') == digit;
    }
    are
}

/// The words before an arrow, and those behind it.
pub fn halves<'a, 'b>(words: &'a [&'b str]) -> Option<(&'a [&'b str], &'a [&'b str])> {
    let at = words.iter().position(|word| *word == "->")?;
    Some((words.get(..at)?, words.get(at.checked_add(1)?..)?))
}
