//! Sources and sinks, and texts in pieces.
ghost use Rattle.std.specs.Prelude.{◌<◌, ◌^◌};

use nofs_io::{Failed, MemSink, MemSource, ReadFault, ReadSource, Sink, Source, WriteSink};
use std::alloc::{AllocError, Global};
use std::io::{Read, Write};

/// `nofs_io::MemSource`
pub fn mem_source_itself(it: MemSource) -> MemSource {
    it
}

/// `nofs_io::MemSink`
pub fn mem_sink_itself(it: MemSink) -> MemSink {
    it
}

/// `nofs_io::ReadSource`
pub fn read_source_itself<R: Read>(it: ReadSource<R>) -> ReadSource<R> {
    it
}

/// `nofs_io::WriteSink`
pub fn write_sink_itself<W: Write>(it: WriteSink<W>) -> WriteSink<W> {
    it
}

/// The bytes that a source has left, or why not.
type Left = Result<Vec<u8>, ReadFault>;

/// `nofs_io::read_all`
pub fn io_read_all<S: Source>(alloc: Global, source: &mut S, limit: usize) -> Left
    requires { limit < 2 ^ 32 }
{
    nofs_io::read_all(alloc, source, limit)
}

/// `nofs_io::write_all`
pub fn io_write_all<K: Sink>(sink: &mut K, text: &[u8]) -> Result<(), Failed> {
    nofs_io::write_all(sink, text)
}

/// `nofs_io::Failed`
pub fn failed_itself(it: Failed) -> Failed {
    it
}

/// `nofs_io::MemSource::new`
pub fn mem_source_new(
    alloc: Global,
    bytes: &[u8],
    piece: u64,
    fails: &[u64],
) -> Result<MemSource, AllocError>
    requires { 0 < piece }
{
    MemSource::new(alloc, bytes, piece, fails)
}

/// `nofs_io::MemSink::new`
pub fn mem_sink_new(alloc: Global, room: u64, fails: &[u64]) -> Result<MemSink, AllocError> {
    MemSink::new(alloc, room, fails)
}

/// `nofs_io::MemSink::bytes`
pub fn mem_sink_bytes(this: &MemSink) -> &[u8] {
    this.bytes()
}

/// `nofs_io::ReadSource::new`
pub fn read_source_new<R: Read>(inner: R) -> ReadSource<R> {
    ReadSource::new(inner)
}

/// `nofs_io::WriteSink::new`
pub fn write_sink_new<W: Write>(inner: W) -> WriteSink<W> {
    WriteSink::new(inner)
}
