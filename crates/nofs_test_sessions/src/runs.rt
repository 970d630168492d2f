//! Runs of the program's call over a disk, with a source and a sink in memory.

use nofs_disk::Disk;
use nofs_io::{MemSink, MemSource};
use nofs_tool::{Outcome, tool};
use std::alloc::{AllocError, Global};
use std::sync::Wait;
use std::test::Fail;
use std::thread::Threads;

const NO_CALLS: [u64; 0] = [];

// The words of a command, from one text.
fn words(alloc: Global, text: &str) -> Result<Vec<String>, AllocError> {
    let mut words = Vec::new(alloc);
    for word in text.split(' ') {
        words.push(String::from_str(alloc, word)?)?;
    }
    Ok(words)
}

/// A run over a disk: its status, what the sink took, and the disk.
pub fn run_on<R: Threads + Wait + Sync, D: Disk + Drop + Send>(
    rt: &R,
    alloc: Global,
    command: &str,
    session: &[u8],
    disk: D,
) -> Result<(u8, MemSink, D), AllocError> {
    let mut source = MemSource::new(alloc, session, 65_536, &NO_CALLS)?;
    let mut sink = MemSink::new(alloc, 65_536, &NO_CALLS)?;
    let (status, disk) = run_with(rt, alloc, command, &mut source, &mut sink, disk)?;
    Ok((status, sink, disk))
}

/// A run with a source and a sink: its status, and the disk.
pub fn run_with<R: Threads + Wait + Sync, D: Disk + Drop + Send>(
    rt: &R,
    alloc: Global,
    command: &str,
    source: &mut MemSource,
    sink: &mut MemSink,
    disk: D,
) -> Result<(u8, D), AllocError> {
    let words = words(alloc, command)?;
    let Outcome {
        status,
        disk,
        history: _,
    } = tool(rt, alloc, &words, source, sink, disk);
    Ok((status, disk))
}

/// Runs on a disk, which is to print these lines and to end with this status: the disk then, or what came in place of
/// it.
pub fn prints<R: Threads + Wait + Sync + AllocGlobal, D: Disk + Drop + Send>(
    rt: &R,
    disk: D,
    command: &str,
    session: &str,
    lines: &str,
    status: u8,
) -> Result<D, Fail> {
    let (ended, sink, disk) = run_on(rt, rt.alloc(), command, session.as_bytes(), disk)?;
    let printed = sink.bytes();
    if ended == status && printed == lines.as_bytes() {
        return Ok(disk);
    }
    Err(Fail::new(format_args!("{command}: {session}: status {ended}, printed {printed:?}")))
}

/// A session of one user that is served without a refusal.
pub const SESSION: &str = "put @ 0 616263\nget @ 0 3\nfsync @";

/// What is printed of it.
pub const LINES: &str = "put 3\ngot bytes:616263\nsynced\n";
