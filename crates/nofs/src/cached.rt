//! Runs behind a write-back cache, over one disk or over a mirror of two.
//!
//! Promise: all that `tool` says holds of them word for word, of the cached disk, or of the one that gathers over it.

ghost use Rattle.std.specs.Prelude.{map, string_bytes};
ghost use Rattle.nofs_tool.specs.Runs.Call.{IsCall};

use nofs_cache::{Cached, Gathered};
use nofs_disk::Disk;
use nofs_io::{Sink, Source, TEXT_LIMIT};
use nofs_mirror::Mirror;
use nofs_tool::{Outcome, tool};
use std::alloc::Global;
use std::sync::Wait;
use std::thread::Threads;

// Runs the program on a disk. What its call says stands in one record.
fn tool_on<R: Threads + Wait + Sync, S: Source, K: Sink, D: Disk + Drop + Send>(
    rt: &R,
    alloc: Global,
    words: &[String],
    source: &mut S,
    sink: &mut K,
    disk: D,
) -> Outcome<D>
    ensures { IsCall D.state (map string_bytes words.now) (S.state source.old) (S.state source.new) TEXT_LIMIT
        (K.state sink.old) (K.state sink.new) disk result.disk result.status result.history }
{
    tool(rt, alloc, words, source, sink, disk)
}

/// Runs the program on a disk behind a cache.
pub fn tool_cached<R: Threads + Wait + Sync, S: Source, K: Sink, D: Disk + Drop + Send>(
    rt: &R,
    alloc: Global,
    words: &[String],
    source: &mut S,
    sink: &mut K,
    disk: Cached<D>,
) -> Outcome<Cached<D>>
    ensures { IsCall (⟦<Cached<D> as Disk>⟧.state) (map string_bytes words.now) (S.state source.old)
        (S.state source.new) TEXT_LIMIT (K.state sink.old) (K.state sink.new) disk result.disk result.status
        result.history }
{
    tool_on(rt, alloc, words, source, sink, disk)
}

/// Runs the program on a mirror of two disks behind a cache.
pub fn tool_mirrored<
    R: Threads + Wait + Sync,
    S: Source,
    K: Sink,
    A: Disk + Drop + Send,
    B: Disk + Drop + Send,
>(
    rt: &R,
    alloc: Global,
    words: &[String],
    source: &mut S,
    sink: &mut K,
    disk: Cached<Mirror<A, B>>,
) -> Outcome<Cached<Mirror<A, B>>>
    ensures { IsCall (⟦<Cached<Mirror<A, B>> as Disk>⟧.state) (map string_bytes words.now) (S.state source.old)
        (S.state source.new) TEXT_LIMIT (K.state sink.old) (K.state sink.new) disk result.disk result.status
        result.history }
{
    tool_cached(rt, alloc, words, source, sink, disk)
}

/// Runs the program on a disk, or on a mirror of two, behind a cache of which nothing is written out between two
/// flushes.
pub fn tool_gathered<R: Threads + Wait + Sync, S: Source, K: Sink, D: Disk + Drop + Send>(
    rt: &R,
    alloc: Global,
    words: &[String],
    source: &mut S,
    sink: &mut K,
    disk: Gathered<Cached<D>>,
) -> Outcome<Gathered<Cached<D>>>
    ensures { IsCall (⟦<Gathered<Cached<D>> as Disk>⟧.state) (map string_bytes words.now) (S.state source.old)
        (S.state source.new) TEXT_LIMIT (K.state sink.old) (K.state sink.new) disk result.disk result.status
        result.history }
{
    tool_on(rt, alloc, words, source, sink, disk)
}
