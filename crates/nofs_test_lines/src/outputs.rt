//! The words of a run, what it is to print, and whether it printed it.
//!
//! A line that is wanted begins with its mark: `>` before the line itself, `|` before another line that may stand in
//! its place, `^` before what it begins with, and `~` before the bytes of a file, where each part of the line has these
//! and zeros alone. Behind a line `or 3`, which gives the lines before it a status, stand those of another right end.

use crate::failure::Failure;
use crate::lines::{counted, hex_bytes, marked_bytes, number_of, words_at, words_of};
use std::alloc::{AllocError, Global};

/// What a run ends with.
#[derive(Clone, Copy)]
pub struct RunEnd<'a> {
    pub status: u8,
    pub printed: &'a [u8],
    /// How many bytes are taken of what is wanted, where it is not all.
    pub taken: Option<u64>,
}

/// How far what was printed is as wanted.
#[derive(Clone, Copy)]
struct Walk<'a> {
    /// What was printed from the last line that was wanted on, and behind it, where it is as wanted up to there.
    from: Option<&'a [u8]>,
    rest: Option<&'a [u8]>,
    /// Whether an end that was written before is right.
    is_right: bool,
}

/// Whether a line is one of a run: its words, a line of its session, or how it may end.
pub fn is_of_run(line: &str) -> bool {
    marked(line).is_some()
        || line.starts_with('<')
        || line.starts_with("words ")
        || line.starts_with("or ")
}

// The mark of a line that is wanted, and what follows.
fn marked(line: &str) -> Option<(u8, &str)> {
    match line.as_bytes().first()? {
        mark @ (b'>' | b'|' | b'^' | b'~') => Some((*mark, line.get(1..)?)),
        _ => None,
    }
}

/// Whether a run ended as its lines want it, of which the last have this status.
pub fn is_right(alloc: Global, lines: &[&str], status: &str, end: RunEnd) -> Result<bool, Failure> {
    let mut walk = start(end, false);
    for line in lines {
        walk = walk_on(alloc, walk, line, end)?;
    }
    is_end(walk, status, end)
}

fn start(end: RunEnd, is_right: bool) -> Walk {
    Walk {
        from: None,
        rest: Some(end.printed),
        is_right,
    }
}

// Whether an end before is right, or this one is: nothing else was printed, with this status.
fn is_end(walk: Walk, status: &str, end: RunEnd) -> Result<bool, Failure> {
    let Some(status) = number_of(status) else {
        return Err(Failure::Case("no status"));
    };
    let count = end.printed.len() as u64;
    let is_whole = walk.rest == Some(&[]) && end.taken.unwrap_or(count) == count;
    Ok(walk.is_right || (is_whole && status == end.status as u64))
}

fn walk_on<'a>(
    alloc: Global,
    walk: Walk<'a>,
    line: &str,
    end: RunEnd<'a>,
) -> Result<Walk<'a>, Failure> {
    let is_cut = end.taken.is_some();
    match (marked(line), line.strip_prefix("or ")) {
        (Some((b'|', text)), _) => {
            let rest = walk.rest.or(behind(alloc, b'|', text, walk.from, is_cut)?);
            Ok(Walk { rest, ..walk })
        }
        (Some((mark, text)), _) => {
            let rest = behind(alloc, mark, text, walk.rest, is_cut)?;
            Ok(Walk {
                from: walk.rest,
                rest,
                ..walk
            })
        }
        (None, Some(status)) => Ok(start(end, is_end(walk, status, end)?)),
        (None, None) => Ok(walk),
    }
}

// What was printed behind a line that is wanted, where this line begins it.
fn behind<'a>(
    alloc: Global,
    mark: u8,
    text: &str,
    printed: Option<&'a [u8]>,
    is_cut: bool,
) -> Result<Option<&'a [u8]>, Failure> {
    match mark {
        b'^' => Ok(behind_beginnings(counted(text)?, printed)),
        b'~' => {
            let digits = words_of(alloc, text)?.join(alloc, "")?;
            behind_own(
                alloc,
                &hex_bytes(alloc, digits.as_str())?,
                first_line(printed),
            )
        }
        _ => Ok(behind_bytes(&marked_bytes(alloc, text)?, printed, is_cut)),
    }
}

// Where not all is taken, what was printed may end in these bytes.
fn behind_bytes<'a>(bytes: &[u8], printed: Option<&'a [u8]>, is_cut: bool) -> Option<&'a [u8]> {
    let printed = printed?;
    if is_cut && bytes.starts_with(printed) {
        return Some(&[]);
    }
    printed.strip_prefix(bytes)
}

fn behind_beginnings<'a>(counted: (u64, &str), printed: Option<&'a [u8]>) -> Option<&'a [u8]> {
    let (count, text) = counted;
    let mut rest = printed;
    for _ in 0..count {
        let (line, next) = first_line(rest)?;
        if !line.starts_with(text.as_bytes()) {
            return None;
        }
        rest = Some(next);
    }
    rest
}

// The first line of what was printed, and what stands behind it.
fn first_line(printed: Option<&[u8]>) -> Option<(&[u8], &[u8])> {
    let printed = printed?;
    let end = printed.iter().position(|byte| *byte == b'\n')?;
    Some((printed.get(..end)?, printed.get(end.saturating_add(1)..)?))
}

fn behind_own<'a>(
    alloc: Global,
    own: &[u8],
    printed: Option<(&[u8], &'a [u8])>,
) -> Result<Option<&'a [u8]>, Failure> {
    match printed {
        Some((line, rest)) if has_own(alloc, own, line)? => Ok(Some(rest)),
        _ => Ok(None),
    }
}

// Whether each part of a line that tells bytes has these and zeros alone.
fn has_own(alloc: Global, own: &[u8], line: &[u8]) -> Result<bool, Failure> {
    let Ok(line) = std::str::from_utf8(line) else {
        return Ok(false);
    };
    let mut all = true;
    for part in line.split(' ') {
        if let Some(digits) = part.strip_prefix("bytes:") {
            all = are_own(own, &hex_bytes(alloc, digits)?) && all;
        }
    }
    Ok(all)
}

fn are_own(own: &[u8], bytes: &[u8]) -> bool {
    let mut are = true;
    for byte in bytes {
        are = are && (*byte == 0 || own.contains(byte));
    }
    are
}

/// The words of a command, behind that which begins their line.
pub fn command_of(alloc: Global, lines: &[&str]) -> Result<Vec<String>, AllocError> {
    let mut command = Vec::new(alloc);
    for word in words_at(alloc, lines, "words ")?.iter().skip(1) {
        command.push(String::from_str(alloc, word)?)?;
    }
    Ok(command)
}

/// The lines of a run, and what came.
pub fn end_text(alloc: Global, lines: &[&str], end: RunEnd) -> Result<String, AllocError> {
    let (lines, status) = (lines.join(alloc, "\n")?, end.status);
    let printed = match std::str::from_utf8(end.printed) {
        Ok(text) => String::from_str(alloc, text)?,
        Err(_) => hex::encode(alloc, end.printed)?,
    };
    format!(in alloc; "{lines}\ncame status {status}\n{printed}\n")
}
