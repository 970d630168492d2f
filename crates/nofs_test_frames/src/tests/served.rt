//! Streams that are served, in pieces of any size and while calls fail.

use nofs_io::{MemSink, MemSource};
use nofs_test_standin::{Told, Transcript, number, parted};
use nofs_wire::{WireEnd, serve, serve_up_to};
use std::alloc::{AllocError, Global};

/// The frame of a stat of the label file.
pub(crate) const STAT: &str = "0d000000 0a 02000000 0200000000000000";

/// The frame of a get of its first slot.
pub(crate) const GET: &str = "15000000 07 02000000 0200000000000000 0000000000000000";

/// How a stream comes, and what fails.
#[derive(Clone, Copy)]
pub struct Flow {
    /// How many bytes a call of the source gives at most.
    pub piece: u64,
    /// Which read and which write fail, counted from 1; 0 for none.
    pub read: u64,
    pub write: u64,
    /// How many bytes the sink takes.
    pub room: u64,
    /// How many bytes a stream may have; none where `serve` says so.
    pub limit: Option<u32>,
}

/// A stream that comes in pieces of 4,096 bytes, while nothing fails.
pub(crate) const WHOLE: Flow = Flow {
    piece: 4096,
    read: 0,
    write: 0,
    room: 400_000,
    limit: None,
};

/// What became of a stream.
#[derive(Drop)]
pub struct ServedStream {
    pub end: WireEnd,
    /// The steps that were made and the replies that were told, each on its line.
    pub steps: String,
    /// The bytes that were given.
    pub given: Vec<u8>,
    /// The source, with what was not taken.
    pub source: MemSource,
}

// Serves a stream that may have so many bytes.
fn end_of(
    alloc: Global,
    limit: Option<u32>,
    told: &mut Told<Transcript<'_>>,
    source: &mut MemSource,
    sink: &mut MemSink,
) -> WireEnd {
    match limit {
        None => serve(alloc, told, source, sink),
        Some(limit) => serve_up_to(alloc, u64::from(limit), told, source, sink),
    }
}

/// Serves a stream. The stand-in replies what these lines tell.
pub(crate) fn serve_told(
    alloc: Global,
    flow: Flow,
    stream: &[u8],
    told: &str,
) -> Result<ServedStream, AllocError> {
    let mut told = Told::new(Transcript::new(alloc, told));
    let mut source = MemSource::new(alloc, stream, flow.piece.max(1), &[flow.read])?;
    let mut sink = MemSink::new(alloc, flow.room, &[flow.write])?;
    let end = end_of(alloc, flow.limit, &mut told, &mut source, &mut sink);
    let given = sink.bytes().to_vec(alloc)?;
    let steps = told.answers.text;
    Ok(ServedStream {
        end,
        steps,
        given,
        source,
    })
}

/// The bytes of hexadecimal digits between which there may be spaces.
pub(crate) fn bytes_of(alloc: Global, digits: &str) -> Result<Vec<u8>, AllocError> {
    let mut bytes = Vec::new(alloc);
    for word in digits.split(' ') {
        if let Ok(part) = hex::decode(alloc, word) {
            bytes.extend_from_slice(&part)?;
        }
    }
    Ok(bytes)
}

/// The lines of a case behind a mark, each as often as it says, with this end.
pub(crate) fn marked(
    alloc: Global,
    case: &str,
    mark: &str,
    end: &str,
) -> Result<String, AllocError> {
    let mut text = String::new(alloc);
    for line in case.split('\n') {
        if let Some(line) = line.strip_prefix(mark) {
            let (count, line) = parted(line, ' ');
            let line = format!(in alloc; "{line}{end}")?;
            text.push_str(line.repeat(alloc, number(count) as usize)?.as_str())?;
        }
    }
    Ok(text)
}

/// The bytes of a case behind a mark.
pub(crate) fn marked_bytes(alloc: Global, case: &str, mark: &str) -> Result<Vec<u8>, AllocError> {
    let digits = marked(alloc, case, mark, " ")?;
    bytes_of(alloc, digits.as_str())
}
