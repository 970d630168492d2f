//! What a sink in memory is told of lines that are longer than what goes to it at once.

use nofs_client::{GotPart, GotParts, Line, LineList};
use nofs_dirent::Content;
use nofs_io::{Failed, MemSink};
use nofs_script::Told;
use std::alloc::{AllocError, Global};
use std::test::Fail;

// Slots of a get. Their digits are 81,920, and at most 65,536 bytes go to a sink at once.
const SLOTS: usize = 40;

// A get of slots of the letter `a`.
fn got_line(alloc: Global) -> Result<Line, AllocError> {
    let mut parts = GotParts::new(alloc);
    for _ in 0..SLOTS {
        let bytes = vec![in alloc; b'a'; 1024]?;
        parts.push(GotPart::Bytes(Content::from_vec(bytes)))?;
    }
    Ok(Line::Got(parts))
}

// The lines of a user that has one.
fn lines_of(alloc: Global, line: Line) -> Result<LineList, AllocError> {
    let mut lines = LineList::new(alloc);
    lines.push(line)?;
    Ok(lines)
}

// What two users have: such a get, and a file that was made.
fn told(alloc: Global) -> Result<Told, AllocError> {
    let mut users = Vec::new(alloc);
    users.push(lines_of(alloc, got_line(alloc)?)?)?;
    users.push(lines_of(alloc, Line::Made)?)?;
    Ok(Told::of_lines(alloc, users))
}

// Its text, of 82,209 bytes.
fn text(alloc: Global) -> Result<Vec<u8>, AllocError> {
    let mut text = b"got".to_vec(alloc)?;
    for _ in 0..SLOTS {
        text.extend_from_slice(b" bytes:")?;
        text.extend_from_slice("61".repeat(alloc, 1024)?.as_bytes())?;
    }
    text.extend_from_slice(b"\nmade\n")?;
    Ok(text)
}

// How a sink was told whose call of this number fails, whether it took the front of the text, and how many bytes.
fn told_with(alloc: Global, fails: u64) -> Result<(Result<(), Failed>, bool, usize), AllocError> {
    let mut sink = MemSink::new(alloc, 100_000, &[fails])?;
    let end = told(alloc)?.tell(&mut sink);
    let taken = sink.bytes();
    Ok((end, text(alloc)?.starts_with(taken), taken.len()))
}

#[test]
fn lines_of_more_than_a_piece_are_told_from_their_front(rt: HostRuntime) -> Result<(), Fail> {
    for (fails, want) in [
        (1, (Err(Failed), true, 0)),
        (2, (Err(Failed), true, 63_715)),
        (3, (Ok(()), true, 82_209)),
    ] {
        assert_eq!(rt; told_with(rt.alloc(), fails)?, want, "{fails}");
    }
    Ok(())
}
