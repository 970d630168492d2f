//! Disks in memory that these tests begin with, and scripts of calls on any disk.
//!
//! The words of a script are calls with their answers, in order; a call that fails has `!` behind it.
//!
//! - `1=5` writes a cell of bytes 5 to block 1, and `1?5` reads it there
//! - `0..63=5` and `63..0?5` do so in each block from the first to the last
//! - `flush` flushes; `out` finds nothing to write out, and `out1` writes block 1 out

use nofs_disk::{Cell, Disk};
use nofs_memdisk::MemDisk;
use nofs_versions::{CallKind, FaultAt};
use std::alloc::{AllocError, Global};
use std::test::Fail;

fn kind_of(word: &str) -> Option<CallKind> {
    match word {
        "read" => Some(CallKind::Read),
        "write" => Some(CallKind::Write),
        "flush" => Some(CallKind::Flush),
        _ => None,
    }
}

// The call that a line names: `write 2`, or `write 2 taken`.
fn fault_of(line: &str) -> Option<FaultAt> {
    let (kind, rest) = line.split_once(' ')?;
    let number = rest.strip_suffix(" taken").unwrap_or(rest);
    Some(FaultAt {
        call: kind_of(kind)?,
        number: number.parse::<u64>().ok()?,
        taken: number.len() < rest.len(),
    })
}

/// A disk of so many blocks, of which the calls that these lines name fail.
pub(crate) fn failing(alloc: Global, blocks: u64, calls: &str) -> Result<MemDisk, Fail> {
    let mut disk = MemDisk::new(alloc, blocks)?;
    for call in calls.lines() {
        match fault_of(call) {
            Some(fault) => disk.fail_at(&[fault])?,
            None => return Err("no call".into()),
        }
    }
    Ok(disk)
}

/// A cell of this byte.
pub(crate) fn cell_of(byte: u8) -> Cell {
    Cell {
        payload: [byte; 1024],
        tag: [byte; 32],
    }
}

// Writes a cell of this byte; whether that fails or not as it is to.
fn is_written<D: Disk>(
    disk: &mut D,
    block: u64,
    byte: Option<u8>,
    fails: bool,
) -> Result<bool, AllocError> {
    disk.ready(1)?;
    match byte {
        Some(byte) if block < disk.blocks() => {
            Ok(disk.write(block, &cell_of(byte)).is_err() == fails)
        }
        _ => Ok(false),
    }
}

// Reads a block; whether it has a cell of this byte, or where none is given whether that fails.
fn is_read<D: Disk>(disk: &mut D, block: u64, byte: Option<u8>) -> bool {
    if block >= disk.blocks() {
        return false;
    }
    let mut cell = cell_of(0xee);
    let done = disk.read(block, &mut cell).is_ok();
    match byte {
        Some(byte) => done && cell.payload == [byte; 1024] && cell.tag == [byte; 32],
        None => !done,
    }
}

// The block at a place of a range, which goes up or down.
fn nth(ends: (u64, u64), place: u64) -> u64 {
    if ends.0 < ends.1 {
        ends.0.saturating_add(place)
    } else {
        ends.0.saturating_sub(place)
    }
}

fn ends_of(word: &str) -> Option<(u64, u64)> {
    let (first, last) = word.split_once("..").unwrap_or((word, word));
    Some((first.parse::<u64>().ok()?, last.parse::<u64>().ok()?))
}

// Writes or reads the blocks of a range; whether each call is answered as it is to be.
fn are_answered<D: Disk>(
    disk: &mut D,
    ends: (u64, u64),
    byte: Option<u8>,
    writes: bool,
    fails: bool,
) -> Result<bool, AllocError> {
    for place in 0..ends.0.abs_diff(ends.1).saturating_add(1) {
        let block = nth(ends, place);
        let is_answered = if writes {
            is_written(disk, block, byte, fails)?
        } else {
            is_read(disk, block, byte)
        };
        if !is_answered {
            return Ok(false);
        }
    }
    Ok(true)
}

fn is_flushed<D: Disk>(disk: &mut D, fails: bool) -> Result<bool, AllocError> {
    disk.ready(1)?;
    Ok(disk.flush().is_err() == fails)
}

// Writes out; whether it is this block, or none, or fails as it is to.
fn is_out<D: Disk>(disk: &mut D, block: &str, fails: bool) -> Result<bool, AllocError> {
    disk.ready(1)?;
    match disk.write_out() {
        Ok(out) => Ok(!fails && out == block.parse::<u64>().ok()),
        Err(_) => Ok(fails),
    }
}

// Writes or reads blocks, as the words around a mark say.
fn blocks_are_answered<D: Disk>(
    disk: &mut D,
    words: (&str, &str),
    writes: bool,
    fails: bool,
) -> Result<bool, AllocError> {
    match ends_of(words.0) {
        Some(ends) => are_answered(disk, ends, words.1.parse::<u8>().ok(), writes, fails),
        None => Ok(false),
    }
}

fn is_answered<D: Disk>(disk: &mut D, word: &str) -> Result<bool, AllocError> {
    let call = word.strip_suffix('!').unwrap_or(word);
    let fails = call.len() < word.len();
    if let Some(words) = call.split_once('=') {
        return blocks_are_answered(disk, words, true, fails);
    }
    if let Some(words) = call.split_once('?') {
        return blocks_are_answered(disk, words, false, fails);
    }
    match call.strip_prefix("out") {
        Some(block) => is_out(disk, block, fails),
        None => Ok(call == "flush" && is_flushed(disk, fails)?),
    }
}

/// Follows a script on a disk. It is an error where a call is answered otherwise.
pub(crate) fn follow<D: Disk>(disk: &mut D, script: &str) -> Result<(), Fail> {
    for word in script.split_whitespace() {
        if !is_answered(disk, word)? {
            return Err(Fail::new(format_args!("not {word} in {script}")));
        }
    }
    Ok(())
}
