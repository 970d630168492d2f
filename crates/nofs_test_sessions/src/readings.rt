//! What is read of the files of images, and whose bytes they have.

use crate::runs::{run_on, run_with};
use nofs_disk::{Disk, read_u64_at};
use nofs_io::{MemSink, MemSource};
use std::alloc::Global;
use std::sync::Wait;
use std::test::Fail;
use std::thread::Threads;

/// Adds so many times this byte in hexadecimal digits.
pub fn push_bytes(alloc: Global, text: &mut Vec<u8>, byte: u8, count: usize) -> Result<(), Fail> {
    let bytes = vec![in alloc; byte; count]?;
    let digits = hex::encode(alloc, bytes.as_slice())?;
    text.extend_from_slice(digits.as_bytes())?;
    Ok(())
}

/// What was read of the files in all images.
#[derive(Clone, Copy)]
pub struct ReadTally {
    pub images: u64,
    pub bytes: u64,
    pub holes: u64,
    pub lost: u64,
    pub refused: u64,
    /// How many parts had a byte that is neither zero nor one of the file's own.
    pub foreign: u64,
}

impl ReadTally {
    /// What is seen of no image.
    pub const NOTHING: ReadTally = ReadTally {
        images: 0,
        bytes: 0,
        holes: 0,
        lost: 0,
        refused: 0,
        foreign: 0,
    };
}

/// Counts one more.
pub fn count(number: &mut u64) {
    *number = number.saturating_add(1);
}

// Whether these digits spell these bytes and zeros alone.
fn is_own(alloc: Global, digits: &[u8], own: &[u8]) -> Result<bool, Fail> {
    let mut is_own = true;
    for byte in &hex::decode(alloc, digits)? {
        is_own = is_own && (*byte == 0 || own.contains(byte));
    }
    Ok(is_own)
}

fn see_part(alloc: Global, seen: &mut ReadTally, part: &[u8], own: &[u8]) -> Result<(), Fail> {
    if part.starts_with(b"hole:".as_slice()) {
        count(&mut seen.holes);
    } else if part.starts_with(b"lost:".as_slice()) {
        count(&mut seen.lost);
    } else if part.starts_with(b"refused".as_slice()) {
        count(&mut seen.refused);
    } else if let Some(digits) = part.strip_prefix(b"bytes:".as_slice()) {
        count(&mut seen.bytes);
        if !is_own(alloc, digits, own)? {
            count(&mut seen.foreign);
        }
    }
    Ok(())
}

/// Counts the parts of the line of a file that has these bytes.
pub fn see_line(alloc: Global, seen: &mut ReadTally, line: &[u8], own: &[u8]) -> Result<(), Fail> {
    for part in line.split(|byte| *byte == b' ') {
        see_part(alloc, seen, part, own)?;
    }
    Ok(())
}

/// Whether a scan of an image and then this session end well, and the lines of the session.
pub fn scanned_and_read<R: Threads + Wait + Sync, D: Disk + Drop + Send>(
    rt: &R,
    alloc: Global,
    session: &[u8],
    image: D,
) -> Result<(bool, MemSink), Fail> {
    let (scanned, _, image) = run_on(rt, alloc, "scan", b"".as_slice(), image)?;
    let mut source = MemSource::new(alloc, session, 65_536, &[])?;
    let mut sink = MemSink::new(alloc, 2_000_000, &[])?;
    let (read, _) = run_with(rt, alloc, "run", &mut source, &mut sink, image)?;
    Ok((scanned == 0 && read == 0, sink))
}

/// The number of eight bytes at a place, or 0.
pub fn number_in(bytes: &[u8], at: usize) -> u64 {
    if at <= bytes.len() && 8 <= bytes.len() - at {
        read_u64_at(bytes, at)
    } else {
        0
    }
}
