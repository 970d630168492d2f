//! How many calls a stream costs, and what a client that waits for each reply is given.
ghost use Rattle.nofs_io.specs.Memory.{sink_of, source_of};

use crate::tests::cases::PUT;
use crate::tests::served::{Flow, GET, STAT, WHOLE, bytes_of, marked_bytes, serve_told};
use nofs_io::{Failed, MemSink, MemSource, Sink, Source};
use nofs_test_standin::{Told, Transcript};
use nofs_wire::{WireEnd, serve};
use std::alloc::Global;
use std::process::Abort;
use std::sync::atomic::{AtomicU64, Ordering};
use std::test::Fail;

/// A stream of one piece costs so many reads and so many writes: one more doesn't come, so that its failing changes
/// nothing.
fn expect_calls(
    rt: &impl Abort,
    alloc: Global,
    stream: &[u8],
    told: &str,
    calls: [u64; 2],
) -> Result<(), Fail> {
    let [reads, writes] = calls;
    for (read, write, end) in [
        (reads, 0, WireEnd::SourceFault),
        (reads.saturating_add(1), 0, WireEnd::End),
        (0, writes, WireEnd::SinkFault),
        (0, writes.saturating_add(1), WireEnd::End),
    ] {
        let flow = Flow {
            piece: 1_000_000,
            read,
            write,
            ..WHOLE
        };
        let came = serve_told(alloc, flow, stream, told)?;
        assert_eq!(rt; came.end, end, "read {read}, write {write}");
    }
    Ok(())
}

#[test]
fn three_hundred_frames_cost_a_call_for_each_64_kib(rt: HostRuntime) -> Result<(), Fail> {
    let alloc = rt.alloc();
    let gets = bytes_of(alloc, GET)?.repeat(alloc, 300)?;
    expect_calls(&rt, alloc, &gets, "", [2, 1])?;
    let large = "get 2/2 0 -> bytes 0 07\n".repeat(alloc, 300)?;
    expect_calls(&rt, alloc, &gets, large.as_str(), [2, 5])?;
    let puts = marked_bytes(alloc, PUT, "<")?.repeat(alloc, 300)?;
    expect_calls(&rt, alloc, &puts, "", [7, 6])
}

/// A sink that tells how many bytes it took.
#[derive(Drop)]
struct Counted<'a> {
    inner: MemSink,
    given: &'a AtomicU64,
}

impl Sink for Counted<'_> {
    ghost state = { λ s. sink_of s.inner };

    fn give(&mut self, piece: &[u8]) -> Result<usize, Failed> {
        let count = self.inner.give(piece)?;
        self.given.fetch_add(count as u64, Ordering::SeqCst);
        Ok(count)
    }
}

/// A client that sends a stat at a time, and notes where it is asked for one before all replies came.
#[derive(Drop)]
struct Waiting<'a> {
    inner: MemSource,
    given: &'a AtomicU64,
    sent: u64,
    early: bool,
}

impl Source for Waiting<'_> {
    ghost state = { λ s. source_of s.inner };

    fn take(&mut self, into: &mut [u8]) -> Result<usize, Failed> {
        if self.given.load(Ordering::SeqCst) != self.sent.saturating_mul(5) {
            self.early = true;
        }
        self.sent = self.sent.saturating_add(1);
        self.inner.take(into)
    }
}

#[test]
fn a_client_that_waits_for_each_reply_is_given_it(rt: HostRuntime) -> Result<(), Fail> {
    let alloc = rt.alloc();
    let stream = bytes_of(alloc, STAT)?.repeat(alloc, 100)?;
    let given = AtomicU64::new(0);
    let mut told = Told::new(Transcript::new(alloc, ""));
    let mut source = Waiting {
        inner: MemSource::new(alloc, &stream, 17, &[])?,
        given: &given,
        sent: 0,
        early: false,
    };
    let mut sink = Counted {
        inner: MemSink::new(alloc, 1000, &[])?,
        given: &given,
    };
    let end = serve(alloc, &mut told, &mut source, &mut sink);
    assert_eq!(rt;
        (end, source.sent, source.early),
        (WireEnd::End, 101, false)
    );
    let want = "stat 2/2 -> refused Stopped\n".repeat(alloc, 100)?;
    assert_eq!(rt; told.answers.text, want);
    Ok(())
}
