//! What is read of the files of a story, and the file that nobody changed.

use crate::tests::stories::Story;
use nofs_test_sessions::{ReadTally, push_bytes, see_line};
use std::alloc::{AllocError, Global};
use std::test::Fail;

/// How many bytes the file of the evening has that nobody changed.
pub const KEPT: usize = 3_072;

/// Gets every file, in order, and lists the directories.
pub fn reading(alloc: Global, story: Story) -> Result<Vec<u8>, AllocError> {
    let mut text = Vec::new(alloc);
    for file in story.files {
        let line = format!(in alloc; "get {} 0 200000\n", file.0)?;
        text.extend_from_slice(line.as_bytes())?;
    }
    text.extend_from_slice(b"list /\nlist /d\n".as_slice())?;
    Ok(text)
}

/// The line that gets the file of the evening that nobody changed.
pub fn kept_line(alloc: Global) -> Result<Vec<u8>, Fail> {
    let mut line = Vec::new(alloc);
    line.extend_from_slice(b"got".as_slice())?;
    for _ in 0..KEPT / 1_024 {
        line.extend_from_slice(b" bytes:".as_slice())?;
        push_bytes(alloc, &mut line, 16, 1_024)?;
    }
    line.push(b'\n')?;
    Ok(line)
}

/// What is seen in the lines of a reading, one a file.
pub fn see(alloc: Global, story: Story, seen: &mut ReadTally, lines: &[u8]) -> Result<(), Fail> {
    for (at, line) in lines.split(|byte| *byte == b'\n').enumerate() {
        if let Some(file) = story.files.get(at) {
            see_line(alloc, seen, line, &[file.1])?;
        }
    }
    Ok(())
}
