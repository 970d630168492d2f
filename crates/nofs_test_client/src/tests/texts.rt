//! Texts that are read and written: hexadecimal digits, beside what the crate `hex` makes of them, and refusals.

use nofs_client::{Command, GotPart, GotParts, Line};
use nofs_dirent::Content;
use nofs_script::{Session, line_text, parse};
use nofs_test_standin::refusal_of;
use std::alloc::{AllocError, Global};
use std::test::Fail;

// An even number of digits, more than a processor takes at a time.
const DIGITS: &[u8; 66] = b"0123456789abcdefABCDEF0123456789abcdefABCDEF0123456789abcdefABCDEF";

/// The first command of a session.
pub(crate) fn first_command(session: &Session) -> Option<&Command> {
    session.item(0)?.item(0)
}

/// Adds the letters that bytes stand for.
pub(crate) fn push_letters(text: &mut String, bytes: &[u8]) -> Result<(), AllocError> {
    for byte in bytes {
        text.push(char::from(*byte))?;
    }
    Ok(())
}

/// The text of a line.
pub(crate) fn plain_text(alloc: Global, line: &Line) -> Result<String, AllocError> {
    let bytes = line_text(alloc, line)?;
    let mut text = String::new(alloc);
    push_letters(&mut text, &bytes)?;
    Ok(text)
}

// The bytes that a session puts by its first command.
fn put_bytes(session: &Session) -> &[u8] {
    match first_command(session) {
        Some(Command::Put { bytes, .. }) => bytes.as_slice(),
        _ => &[],
    }
}

// A session that puts this word.
fn put_of(alloc: Global, word: &[u8]) -> Result<Vec<u8>, AllocError> {
    let mut text = b"put @ 0 ".to_vec(alloc)?;
    text.extend_from_slice(word)?;
    Ok(text)
}

// The bytes that the put of this word stores; none where it is no put.
fn bytes_read(alloc: Global, word: &[u8]) -> Result<Vec<u8>, AllocError> {
    let text = put_of(alloc, word)?;
    match parse(alloc, &text) {
        Ok(session) => put_bytes(&session).to_vec(alloc),
        Err(_) => Ok(Vec::new(alloc)),
    }
}

// The bytes that the crate `hex` reads; none where it reads none.
fn bytes_by_hex(alloc: Global, word: &[u8]) -> Vec<u8> {
    hex::decode(alloc, word).unwrap_or(Vec::new(alloc))
}

// Whether a word is read as by the crate `hex`.
fn is_read_as_by_hex(alloc: Global, word: &[u8]) -> Result<bool, AllocError> {
    let read = bytes_read(alloc, word)?;
    Ok(read == bytes_by_hex(alloc, word))
}

// The digits with another byte at a place.
fn with_byte(place: usize, byte: u8) -> [u8; 66] {
    let mut word = *DIGITS;
    if let Some(at) = word.get_mut(place) {
        *at = byte;
    }
    word
}

#[test]
fn each_byte_at_each_place_is_read_as_by_hex(rt: HostRuntime) -> Result<(), Fail> {
    for turn in 0..66 * 256usize {
        let word = with_byte(turn / 256, (turn % 256) as u8);
        assert!(rt; is_read_as_by_hex(rt.alloc(), &word)?, "turn {turn}");
    }
    Ok(())
}

#[test]
fn a_word_of_each_length_is_read_as_by_hex(rt: HostRuntime) -> Result<(), Fail> {
    for length in 0..=66usize {
        let word = DIGITS.get(..length).unwrap_or(DIGITS);
        assert!(rt; is_read_as_by_hex(rt.alloc(), word)?, "{length} digits");
    }
    Ok(())
}

// The text of a get of these bytes.
fn got_text(alloc: Global, bytes: &[u8]) -> Result<String, AllocError> {
    let mut parts = GotParts::new(alloc);
    parts.push(GotPart::Bytes(Content::from_slice(alloc, bytes)?))?;
    plain_text(alloc, &Line::Got(parts))
}

// Whether bytes are written as by the crate `hex`.
fn is_written_as_by_hex(alloc: Global, bytes: &[u8]) -> Result<bool, AllocError> {
    let digits = hex::encode(alloc, bytes)?;
    let want = format!(in alloc; "got bytes:{digits}\n")?;
    Ok(got_text(alloc, bytes)? == want)
}

// The first count of the bytes 0, 1, 2 .. 255 at which they are written otherwise, if there is one.
fn first_otherwise(alloc: Global) -> Result<Option<usize>, AllocError> {
    let mut bytes = Vec::new(alloc);
    for count in 0..=256usize {
        if !is_written_as_by_hex(alloc, &bytes)? {
            return Ok(Some(count));
        }
        bytes.push((count % 256) as u8)?;
    }
    Ok(None)
}

#[test]
fn each_byte_is_written_as_by_hex(rt: HostRuntime) -> Result<(), Fail> {
    assert_eq!(rt; first_otherwise(rt.alloc())?, None);
    Ok(())
}

/// Refusals, each with its text.
const REFUSALS: &str = "\
Missing -> 1 missing
LostEntry { entry: 17 } -> 2 lost entry 17
LostSlot { slot: 8 } -> 3 lost slot 8
Exists -> 4 exists
NotDirectory -> 5 not a directory
IsDirectory -> 6 is a directory
NotEmpty -> 7 not empty
BadName -> 8 bad name
BadRange -> 9 bad range
TooManyLinks -> 10 too many links
DirectoryFull -> 11 directory full
TooLarge -> 12 too large
PastEnd -> 13 past end
Stale -> 14 stale
Full { needed: 1, free: 2, unverified: 30, next: 24 } -> 15 full, needed 1, free 2, unchecked 30
InodesFull { unverified: 5, next: 3 } -> 16 inodes full, unchecked 5
SerialsSpent -> 17 serials spent
ReadFault -> 18 read fault
WriteFault -> 19 write fault
Stopped -> 20 stopped";

// The text of a put of which six bytes were stored before this refusal.
fn refused_text(alloc: Global, refusal: &str) -> Result<String, AllocError> {
    let refusal = refusal_of(refusal);
    plain_text(alloc, &Line::RefusedPut { refusal, stored: 6 })
}

// Whether the text of such a put has these words.
fn has_words(alloc: Global, refusal: &str, words: &str) -> Result<bool, AllocError> {
    let want = format!(in alloc; "refused {words}, stored 6\n")?;
    Ok(refused_text(alloc, refusal)? == want)
}

#[test]
fn each_refusal_has_its_text(rt: HostRuntime) -> Result<(), Fail> {
    for row in REFUSALS.split('\n') {
        let (refusal, words) = row.split_once(" -> ").unwrap_or((row, ""));
        assert!(rt; has_words(rt.alloc(), refusal, words)?, "{row}");
    }
    Ok(())
}
