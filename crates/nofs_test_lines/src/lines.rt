//! The lines of a file, their words, and the numbers and bytes that words write.
//!
//! A number is decimal, or a stamp: `S` and `T` are the first of mount 1 and of mount 2, and `S+9` is the ninth after
//! it. A kind has its name.

use crate::failure::Failure;
use std::alloc::{AllocError, Global};

/// The first stamp of the first mount.
pub const FIRST_STAMP: u64 = 1_099_511_627_776;

/// The lines of a text, without those that are comments.
pub fn lines_of<'a>(alloc: Global, text: &'a str) -> Result<Vec<&'a str>, AllocError> {
    text.lines()
        .filter(|line| !line.starts_with('#'))
        .collect(alloc)
}

/// The place of the first line that begins with this word; the number of lines where there is none.
pub fn place_of(lines: &[&str], word: &str) -> usize {
    for (place, line) in lines.iter().enumerate() {
        if line.starts_with(word) {
            return place;
        }
    }
    lines.len()
}

/// The words of the first line that begins with this word; none where there is no such line.
pub fn words_at<'a>(
    alloc: Global,
    lines: &[&'a str],
    word: &str,
) -> Result<Vec<&'a str>, AllocError> {
    match lines.get(place_of(lines, word)) {
        Some(line) => words_of(alloc, line),
        None => Ok(Vec::new(alloc)),
    }
}

/// The words of a line.
pub fn words_of<'a>(alloc: Global, line: &'a str) -> Result<Vec<&'a str>, AllocError> {
    line.split_whitespace().collect(alloc)
}

/// The number that a word writes.
pub fn number_of(word: &str) -> Option<u64> {
    match word.split_once('+') {
        Some((first, more)) => named_number(first)?.checked_add(more.parse::<u64>().ok()?),
        None => named_number(word),
    }
}

fn named_number(word: &str) -> Option<u64> {
    match word {
        "S" => Some(FIRST_STAMP),
        "T" => Some(2 * FIRST_STAMP),
        "file" | "content" => Some(1),
        "directory" => Some(2),
        "pointers" => Some(3),
        "table" => Some(4),
        "super" => Some(5),
        _ => word.parse::<u64>().ok(),
    }
}

/// The first and the last number of a range, which is not empty. A number alone is its own range.
pub fn range_of(word: &str) -> Option<(u64, u64)> {
    let (first, last) = word.split_once("..").unwrap_or((word, word));
    let (first, last) = (number_of(first)?, number_of(last)?);
    if first <= last {
        Some((first, last))
    } else {
        None
    }
}

/// How often a line counts, and its text: both follow its mark.
pub fn counted(rest: &str) -> Result<(u64, &str), Failure> {
    let (count, text) = rest.split_once(' ').unwrap_or((rest, ""));
    if count.is_empty() {
        return Ok((1, text));
    }
    match count.parse::<u64>() {
        Ok(count) => Ok((count, text)),
        Err(_) => Err(Failure::Case("no count")),
    }
}

/// The bytes of a line behind its mark: its text as often as it counts, or what its digits write behind an `x`.
pub fn marked_bytes(alloc: Global, rest: &str) -> Result<Vec<u8>, Failure> {
    match rest.strip_prefix('x') {
        Some(digits) => hex_bytes(alloc, digits.trim()),
        None => Ok(repeated(alloc, counted(rest)?)?),
    }
}

fn repeated(alloc: Global, counted: (u64, &str)) -> Result<Vec<u8>, AllocError> {
    let mut bytes = Vec::new(alloc);
    for _ in 0..counted.0 {
        push_spread(&mut bytes, counted.1)?;
        bytes.push(b'\n')?;
    }
    Ok(bytes)
}

/// The bytes that digits write.
pub fn hex_bytes(alloc: Global, digits: &str) -> Result<Vec<u8>, Failure> {
    let mut spread = Vec::new(alloc);
    push_spread(&mut spread, digits)?;
    match hex::decode(alloc, &spread) {
        Ok(bytes) => Ok(bytes),
        Err(_) => Err(Failure::Case("no digits")),
    }
}

// Adds a text. A word of it that ends in two letters, `*` and a number has the letters so many times.
fn push_spread(bytes: &mut Vec<u8>, text: &str) -> Result<(), AllocError> {
    for word in text.split(' ') {
        push_word(bytes, word)?;
        bytes.push(b' ')?;
    }
    bytes.pop();
    Ok(())
}

fn push_word(bytes: &mut Vec<u8>, word: &str) -> Result<(), AllocError> {
    match word.split_once('*') {
        None => bytes.extend_from_slice(word.as_bytes()),
        Some((before, count)) => {
            bytes.extend_from_slice(before.as_bytes())?;
            let pair = last_two(before.as_bytes());
            push_pairs(bytes, pair, number_of(count).unwrap_or(0))
        }
    }
}

fn last_two(bytes: &[u8]) -> &[u8] {
    bytes.get(bytes.len().saturating_sub(2)..).unwrap_or(&[])
}

// Adds a pair so many times but one.
fn push_pairs(bytes: &mut Vec<u8>, pair: &[u8], count: u64) -> Result<(), AllocError> {
    for _ in 1..count {
        bytes.extend_from_slice(pair)?;
    }
    Ok(())
}
