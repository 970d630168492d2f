//! Runs of the program's call over a disk in memory, with a source and a sink that may fail, and how they end.

use crate::stage::Stage;
use nofs_disk::Disk;
use nofs_io::{MemSink, MemSource};
use nofs_memdisk::Unready;
use nofs_test_disks::cached;
use nofs_test_lines::{Failure, RunEnd, command_of, end_text, is_right, marked_bytes, number_of};
use nofs_tool::{Outcome, tool};
use std::alloc::{AllocError, Global};
use std::sync::Wait;
use std::thread::Threads;

/// How a run is made.
#[derive(Clone, Copy)]
pub struct RunOptions {
    /// How many bytes the source gives a call at most, and which call fails, 0 for none.
    pub source: (u64, u64),
    /// For how many bytes the sink has room, and which call fails, 0 for none.
    pub sink: (u64, u64),
    /// How often the disk finds memory for its calls.
    pub rooms: u64,
    /// Whether a cache stands before the disk.
    pub is_cached: bool,
    /// How many bytes are taken of what is wanted, where it is not all.
    pub taken: Option<u64>,
}

/// Nothing fails.
pub const USUAL: RunOptions = RunOptions {
    source: (65_536, 0),
    sink: (2_000_000, 0),
    rooms: u64::MAX,
    is_cached: false,
    taken: None,
};

/// These options with what a line says, if it says one.
pub fn option_of(options: RunOptions, words: &[&str]) -> Option<RunOptions> {
    match words {
        ["source", piece, call] => {
            let source = (number_of(piece)?, number_of(call)?);
            Some(RunOptions { source, ..options })
        }
        ["sink", room, call] => {
            let sink = (number_of(room)?, number_of(call)?);
            Some(RunOptions { sink, ..options })
        }
        ["rooms", count] => {
            let rooms = number_of(count)?;
            Some(RunOptions { rooms, ..options })
        }
        ["taken", count] => {
            let taken = Some(number_of(count)?);
            Some(RunOptions { taken, ..options })
        }
        ["cache"] => Some(RunOptions {
            is_cached: true,
            ..options
        }),
        _ => None,
    }
}

/// These options with the call of this number failing, of the source or of the sink, or with room for so many calls.
pub fn failing(options: RunOptions, kind: &str, number: u64) -> Option<RunOptions> {
    match kind {
        "source" => Some(RunOptions {
            source: (options.source.0, number),
            ..options
        }),
        "sink" => Some(RunOptions {
            sink: (options.sink.0, number),
            ..options
        }),
        "rooms" => Some(RunOptions {
            rooms: number,
            ..options
        }),
        _ => None,
    }
}

impl Stage {
    /// Makes the run of these lines, and judges its end.
    pub fn end_run<R: Threads + Wait + Sync>(
        &mut self,
        rt: &R,
        lines: &[&str],
        status: &str,
    ) -> Result<(), Failure> {
        let RunOptions {
            source,
            sink,
            taken,
            ..
        } = self.options;
        let words = command_of(self.alloc, lines)?;
        let mut source = source_of(self.alloc, lines, source)?;
        let mut sink = MemSink::new(self.alloc, sink.0, &[sink.1])?;
        let came = self.run(rt, &words, &mut source, &mut sink)?;
        let end = RunEnd {
            status: came,
            printed: sink.bytes(),
            taken,
        };
        self.judge_end(lines, status, end)
    }

    // Makes a run over the file, or over the disk as it is, and gives its status.
    fn run<R: Threads + Wait + Sync>(
        &mut self,
        rt: &R,
        words: &[String],
        source: &mut MemSource,
        sink: &mut MemSink,
    ) -> Result<u8, AllocError> {
        match self.layout {
            Some(layout) => self.run_in_file(rt, layout, words, source, sink),
            None => self.run_in_memory(rt, words, source, sink),
        }
    }

    // Makes a run over the disk in memory.
    fn run_in_memory<R: Threads + Wait + Sync>(
        &mut self,
        rt: &R,
        words: &[String],
        source: &mut MemSource,
        sink: &mut MemSink,
    ) -> Result<u8, AllocError> {
        let RunOptions {
            rooms,
            is_cached,
            ..
        } = self.options;
        let under = self.take_disk()?;
        let disk = Unready { under, rooms };
        let (status, disk) = if is_cached {
            let disk = cached(self.alloc, disk)?;
            let (status, disk) = run_over(rt, self.alloc, words, source, sink, disk);
            (status, disk.below())
        } else {
            run_over(rt, self.alloc, words, source, sink, disk)
        };
        self.disk = Some(disk.under);
        self.options = USUAL;
        Ok(status)
    }

    fn judge_end(&mut self, lines: &[&str], status: &str, end: RunEnd) -> Result<(), Failure> {
        let is_right = is_right(self.alloc, lines, status, end)?;
        if !is_right {
            self.tell(end_text(self.alloc, lines, end)?.as_str())?;
        }
        self.judge(is_right)
    }
}

/// A run over a disk: its status, and the disk.
pub fn run_over<R: Threads + Wait + Sync, D: Disk + Drop + Send>(
    rt: &R,
    alloc: Global,
    words: &[String],
    source: &mut MemSource,
    sink: &mut MemSink,
    disk: D,
) -> (u8, D) {
    let Outcome { status, disk, .. } = tool(rt, alloc, words, source, sink, disk);
    (status, disk)
}

// A source of a session, with how many bytes it gives a call at most, and the call that fails.
fn source_of(alloc: Global, lines: &[&str], calls: (u64, u64)) -> Result<MemSource, Failure> {
    let mut session = Vec::new(alloc);
    for line in lines {
        if let Some(rest) = line.strip_prefix('<') {
            session.extend_from_slice(&marked_bytes(alloc, rest)?)?;
        }
    }
    Ok(MemSource::new(alloc, &session, calls.0.max(1), &[calls.1])?)
}
