//! Stories: an evening whose files are durable, and a day in which a call fails or a crash comes.

use nofs_memdisk::MemDisk;
use nofs_test_disks::{draw, drawn_call, fault_after, made};
use nofs_test_sessions::run_on;
use std::alloc::{AllocError, Global};
use std::sync::Wait;
use std::test::Fail;
use std::thread::Threads;

/// A line of a session: its words, and how often their last two digits stand there.
pub type SessionLine = (&'static str, usize);

/// Two sessions over an image of 16 inodes: one that ends well, and one in which a crash comes.
#[derive(Clone, Copy)]
pub struct Story {
    pub blocks: u64,
    pub is_upgraded: bool,
    /// All of it is durable.
    pub evening: &'static [SessionLine],
    /// Each of `files` has bytes of its own, and its name is never given to a second file. The blocks of files
    /// that were dropped are needed again.
    pub day: &'static [SessionLine],
    /// Where the files are or were, and the byte of each.
    pub files: &'static [(&'static str, u8)],
}

/// The session of these lines.
pub fn text_of_lines(alloc: Global, lines: &[SessionLine]) -> Result<Vec<u8>, AllocError> {
    let mut text = Vec::new(alloc);
    for line in lines {
        push_line(&mut text, *line)?;
    }
    Ok(text)
}

fn push_line(text: &mut Vec<u8>, line: SessionLine) -> Result<(), AllocError> {
    let words = line.0.as_bytes();
    text.extend_from_slice(words)?;
    let digits = words.get(words.len().saturating_sub(2)..).unwrap_or(&[]);
    for _ in 1..line.1 {
        text.extend_from_slice(digits)?;
    }
    text.push(b'\n')?;
    Ok(())
}

/// A disk with the files of the evening.
pub fn evening<R: Threads + Wait + Sync>(
    rt: &R,
    alloc: Global,
    story: Story,
) -> Result<MemDisk, Fail> {
    let disk = MemDisk::new(alloc, story.blocks)?;
    let new = format!(in alloc; "new {} 16", story.blocks)?;
    let (_, _, mut disk) = run_on(rt, alloc, new.as_str(), b"".as_slice(), disk)?;
    if story.is_upgraded {
        (_, _, disk) = run_on(rt, alloc, "upgrade", b"".as_slice(), disk)?;
    }
    let text = text_of_lines(alloc, story.evening)?;
    let (_, _, disk) = run_on(rt, alloc, "run", &text, disk)?;
    Ok(disk)
}

/// How many writes and flushes a whole day makes after its mount, which makes one of each.
pub fn day_calls<R: Threads + Wait + Sync>(
    rt: &R,
    alloc: Global,
    story: Story,
) -> Result<(u64, u64), Fail> {
    let disk = evening(rt, alloc, story)?;
    let before = made(&disk);
    let (_, _, disk) = run_on(rt, alloc, "run", &text_of_lines(alloc, story.day)?, disk)?;
    let after = made(&disk);
    Ok((
        after.0.saturating_sub(before.0).saturating_sub(1),
        after.1.saturating_sub(before.1).saturating_sub(1),
    ))
}

/// A disk on which a day was stopped by a call that failed, and the status.
pub fn stopped<R: Threads + Wait + Sync>(
    rt: &R,
    alloc: Global,
    story: Story,
    state: &mut u64,
    calls: (u64, u64),
) -> Result<(u8, MemDisk), Fail> {
    let mut disk = evening(rt, alloc, story)?;
    let call = drawn_call(state, calls);
    let fault = fault_after(made(&disk), call, draw(state, 2) == 0);
    disk.fail_at(&[fault])?;
    let (status, _, disk) = run_on(rt, alloc, "run", &text_of_lines(alloc, story.day)?, disk)?;
    Ok((status, disk))
}
