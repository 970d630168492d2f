//! A server: steps come in frames from a source, and their replies go in frames to a sink.
//!
//! Promise: each whole frame's step is made once, in order, and each reply is given before the source is asked for
//! further bytes. No frame is answered before it is whole, and none is made up where the source ends.
ghost use Rattle.std.specs.Prelude.{◌≡◌, ◌+◌, ◌<◌, ◌≤◌, ◌^◌, [], IfSome, IfNone, List, None, Some, length, ℕ};
ghost use Rattle.nofs_io.specs.Calls.{CountRose};
ghost use Rattle.nofs_wire.specs.Frames.Split.{HasFront, front_of as front_in};
ghost use Rattle.nofs_wire.specs.Server.Serve.{Serves};
ghost use Rattle.nofs_wire.specs.Server.Turns.{FailsAt, GoesOn, KeepsAnswer, Stops, StopsSo};
ghost use Rattle.nofs_wire.specs.Server.Buffers.{MayTake};
ghost use Rattle.nofs_wire.specs.declared.server.serve.WireEnd.TheVariants.{Bad as bad_end};
ghost use Rattle.nofs_history.specs.Steps.{Made};
ghost use Rattle.std.specs.declared.option.Option.{Option};
ghost use Rattle.std.specs.Io.KnownBytes.{IsAtEnd};
ghost use Rattle.nofs_wire.specs.declared.frames.split.Front.TheVariants.{Whole as whole_front, Short as short_front};

use crate::frames::split::{FRAME_LIMIT, Front, LENGTH_BYTES, front_body, front_of};
use crate::server::answers::{Answered, answer};
use crate::server::buffers::Buffers;
use nofs_history::Steps;
use nofs_io::{Sink, Source};
use std::alloc::Global;

/// How many bytes a stream may have, 16 MiB.
pub const STREAM_LIMIT: u64 = 16_777_216;

/// Why a server ended.
#[derive(Clone, Copy, Debug, PartialEq, Eq)]
pub enum WireEnd {
    /// The source ended after a whole frame, or before any.
    End,
    /// The source ended inside the frame that begins at byte `at`, counted from 0: before the four bytes of its length
    /// were whole, or with a length in range.
    Cut { at: u64 },
    /// The frame that begins at byte `at` is bad: its length is out of range, or its body is no spelling of a step.
    Bad { at: u64 },
    /// More than 16,777,216 bytes were taken.
    TooLong,
    /// A call of the source failed.
    SourceFault,
    /// A call of the sink failed.
    SinkFault,
    /// Memory was wanting.
    OutOfMemory,
}

/// Serves the frames of a source until it ends, a frame is bad or something fails.
///
/// A call of the source takes what is there, up to 64 KiB, and the replies to its frames are given together: before the
/// source is called again, at the end, and where they have 64 KiB. That no reply is kept at a call of the source is
/// what `Buffers::fill` asks of its caller. This contract can't say it, since source and sink have no common order.
///
/// At `SourceFault`, `Cut`, `Bad` and `End` the steps made are those of all whole frames taken, at `TooLong` of those
/// in the first 16,777,216 bytes; all are answered. At `SinkFault` and `OutOfMemory` they are the first of them: at
/// `OutOfMemory` the last of them may have no reply, at `SinkFault` the first bytes of the replies were given.
pub fn serve<S: Steps, Q: Source, K: Sink>(
    alloc: Global,
    steps: &mut S,
    source: &mut Q,
    sink: &mut K,
) -> WireEnd
    ensures serves { Serves 16777216 result (Q.state source.old).left (Q.state source.new).left (K.state sink.old).given
        (K.state sink.new).given (S.made steps.old) (S.made steps.new) }
    ensures goes { S.goes steps.old steps.new }
    ensures source_fault { result ≡ WireEnd.SourceFault
        → CountRose (Q.state source.old).faults (Q.state source.new).faults }
    ensures sink_fault { result ≡ WireEnd.SinkFault → CountRose (K.state sink.old).faults (K.state sink.new).faults }
    ensures source_later { (Q.state source.old).faults ≤ (Q.state source.new).faults }
    ensures sink_later { (K.state sink.old).faults ≤ (K.state sink.new).faults }
{
    serve_up_to(alloc, STREAM_LIMIT, steps, source, sink)
}

/// Serves a stream that may have so many bytes, below 2^32.
pub fn serve_up_to<S: Steps, Q: Source, K: Sink>(
    alloc: Global,
    limit: u64,
    steps: &mut S,
    source: &mut Q,
    sink: &mut K,
) -> WireEnd
    requires { limit < 2 ^ 32 }
    ensures serves { Serves limit result (Q.state source.old).left (Q.state source.new).left
        (K.state sink.old).given (K.state sink.new).given (S.made steps.old) (S.made steps.new) }
    ensures goes { S.goes steps.old steps.new }
    ensures source_fault { result ≡ WireEnd.SourceFault
        → CountRose (Q.state source.old).faults (Q.state source.new).faults }
    ensures sink_fault { result ≡ WireEnd.SinkFault → CountRose (K.state sink.old).faults (K.state sink.new).faults }
    ensures source_later { (Q.state source.old).faults ≤ (Q.state source.new).faults }
    ensures sink_later { (K.state sink.old).faults ≤ (K.state sink.new).faults }
{
    let Ok(mut buffers) = Buffers::new(alloc) else {
        return WireEnd::OutOfMemory;
    };
    let Ok(mut frame) = Vec::with_capacity(alloc, FRAME_LIMIT) else {
        return WireEnd::OutOfMemory;
    };
    loop {
        match turn(alloc, limit, steps, source, sink, &mut buffers, &mut frame) {
            Some(end) => return end,
            None => {}
        }
    }
}

// Answers the frame in front where it is whole, else gives all replies and takes further bytes; the end where there is
// one. `frame` is room for the frame of a reply.
fn turn<S: Steps, Q: Source, K: Sink>(
    alloc: Global,
    limit: u64,
    steps: &mut S,
    source: &mut Q,
    sink: &mut K,
    buffers: &mut Buffers,
    frame: &mut Vec<u8>,
) -> Option<WireEnd>
    requires may { MayTake limit buffers.old }
    ensures on { IfNone result (GoesOn buffers.old buffers.new (Q.state source.old).left (Q.state source.new).left
        (K.state sink.old).given (K.state sink.new).given (S.made steps.old) (S.made steps.new)) }
    ensures within { IfNone result (buffers.new.taken ≤ limit) }
    ensures ends { IfSome result (λ end. Stops limit end buffers.old (Q.state source.old).left (Q.state source.new).left
        (K.state sink.old).given (K.state sink.new).given (S.made steps.old) (S.made steps.new)) }
    ensures goes { S.goes steps.old steps.new }
    ensures source { FailsAt (result ≡ Some WireEnd.SourceFault)
        (Q.state source.old).faults (Q.state source.new).faults }
    ensures sink { FailsAt (result ≡ Some WireEnd.SinkFault) (K.state sink.old).faults (K.state sink.new).faults }
{
    match front_of(buffers.window()) {
        Front::Whole { size } => match buffers.give_many(sink) {
            Err(_) => Some(WireEnd::SinkFault),
            Ok(()) => answer_front(alloc, steps, sink, buffers, size, frame),
        },
        Front::Bad => match buffers.give(sink) {
            Err(_) => Some(WireEnd::SinkFault),
            Ok(()) => Some(bad_at(buffers)),
        },
        Front::Short { .. } => match buffers.give(sink) {
            Err(_) => Some(WireEnd::SinkFault),
            Ok(()) => take_more(source, buffers, limit),
        },
    }
}

// The end at a bad frame in front.
fn bad_at(buffers: &Buffers) -> WireEnd
    requires { length buffers.now.window ≤ buffers.now.taken }
    ensures { (at : ℕ) × (result ≡ bad_end at) × (at + length buffers.now.window ≡ buffers.now.taken) }
{
    WireEnd::Bad {
        at: place_of(buffers),
    }
}

// Where the first byte that wasn't used stands in the stream.
fn place_of(buffers: &Buffers) -> u64
    requires { length buffers.now.window ≤ buffers.now.taken }
    ensures { result + length buffers.now.window ≡ buffers.now.taken }
{
    buffers.taken() - buffers.window().len() as u64
}

// Answers the whole frame in front. Where the server ends with it, the replies that are kept are given first.
fn answer_front<S: Steps, K: Sink>(
    alloc: Global,
    steps: &mut S,
    sink: &mut K,
    buffers: &mut Buffers,
    size: usize,
    frame: &mut Vec<u8>,
) -> Option<WireEnd>
    requires front { HasFront (whole_front size) buffers.old.window }
    requires order { length buffers.old.window ≤ buffers.old.taken }
    ensures on { (left : Option (List ℕ)) → IfNone result (GoesOn buffers.old buffers.new left left
        (K.state sink.old).given (K.state sink.new).given (S.made steps.old) (S.made steps.new)) }
    ensures taken { IfNone result (buffers.new.taken ≡ buffers.old.taken) }
    ensures ends { (left : Option (List ℕ)) (most : ℕ) → IfSome result (λ end. Stops most end buffers.old left left
        (K.state sink.old).given (K.state sink.new).given (S.made steps.old) (S.made steps.new)) }
    ensures goes { S.goes steps.old steps.new }
    ensures no_source_fault { result ≡ Some WireEnd.SourceFault → ⊥ }
    ensures sink { FailsAt (result ≡ Some WireEnd.SinkFault) (K.state sink.old).faults (K.state sink.new).faults }
{
    match keep_answer(alloc, steps, buffers, size, frame) {
        Answered::Whole => None,
        Answered::Bad => match buffers.give(sink) {
            Err(_) => Some(WireEnd::SinkFault),
            Ok(()) => Some(bad_at(buffers)),
        },
        Answered::OutOfMemory => match buffers.give(sink) {
            Err(_) => Some(WireEnd::SinkFault),
            Ok(()) => Some(WireEnd::OutOfMemory),
        },
    }
}

// Makes the step of the whole frame in front, and keeps the reply to it.
fn keep_answer<S: Steps>(
    alloc: Global,
    steps: &mut S,
    buffers: &mut Buffers,
    size: usize,
    frame: &mut Vec<u8>,
) -> Answered
    requires { HasFront (whole_front size) buffers.old.window }
    ensures so { KeepsAnswer result buffers.old buffers.new (S.made steps.old) (S.made steps.new) }
    ensures goes { S.goes steps.old steps.new }
{
    let body = front_body(buffers.window(), size);
    match answer(alloc, steps, body, frame) {
        Answered::Bad => Answered::Bad,
        Answered::OutOfMemory => Answered::OutOfMemory,
        Answered::Whole => match buffers.keep(frame) {
            Err(_) => Answered::OutOfMemory,
            Ok(()) => {
                buffers.pass(LENGTH_BYTES + size);
                Answered::Whole
            }
        },
    }
}

// Takes what is there, up to the limit of the stream.
fn take_more<Q: Source>(source: &mut Q, buffers: &mut Buffers, limit: u64) -> Option<WireEnd>
    requires none_kept { buffers.old.kept ≡ [] }
    requires short { (wanted : ℕ) × HasFront (short_front wanted) buffers.old.window }
    requires may { MayTake limit buffers.old }
    ensures on { (given : Option (List ℕ)) (made : List Made)
        → IfNone result
        (GoesOn buffers.old buffers.new (Q.state source.old).left (Q.state source.new).left given given made made) }
    ensures within { IfNone result (buffers.new.taken ≤ limit) }
    ensures ends { (given : Option (List ℕ)) (made : List Made)
        → IfSome result
        (λ end. Stops limit end buffers.old (Q.state source.old).left (Q.state source.new).left given given made made) }
    ensures source { FailsAt (result ≡ Some WireEnd.SourceFault)
        (Q.state source.old).faults (Q.state source.new).faults }
    ensures no_sink_fault { result ≡ Some WireEnd.SinkFault → ⊥ }
{
    let left = limit - buffers.taken();
    if left == 0 {
        return Some(take_past(source, buffers));
    }
    match buffers.fill(source, left as usize) {
        Err(_) => Some(WireEnd::SourceFault),
        Ok(0) => Some(end_of(buffers)),
        Ok(_) => None,
    }
}

// The end of a stream of which so many bytes were taken as it may have.
fn take_past<Q: Source>(source: &mut Q, buffers: &mut Buffers) -> WireEnd
    requires none_kept { buffers.old.kept ≡ [] }
    requires short { (wanted : ℕ) × (front_in buffers.old.window ≡ short_front wanted) }
    requires room { length buffers.old.window < 65536 }
    requires small { buffers.old.taken < 2 ^ 32 }
    requires order { length buffers.old.window ≤ buffers.old.taken }
    ensures ends { (given : Option (List ℕ)) (made : List Made)
        → Stops buffers.old.taken result buffers.old
        (Q.state source.old).left (Q.state source.new).left given given made made }
    ensures source { FailsAt (result ≡ WireEnd.SourceFault) (Q.state source.old).faults (Q.state source.new).faults }
    ensures no_sink_fault { result ≡ WireEnd.SinkFault → ⊥ }
{
    match buffers.fill(source, 1) {
        Err(_) => WireEnd::SourceFault,
        Ok(0) => end_of(buffers),
        Ok(_) => WireEnd::TooLong,
    }
}

// The end where the source has ended.
fn end_of(buffers: &Buffers) -> WireEnd
    requires none_kept { buffers.now.kept ≡ [] }
    requires short { (wanted : ℕ) × (front_in buffers.now.window ≡ short_front wanted) }
    requires order { length buffers.now.window ≤ buffers.now.taken }
    ensures ends { (most : ℕ) (left : Option (List ℕ)) → IsAtEnd left → StopsSo most result buffers.now left [] [] [] }
    ensures no_source_fault { result ≡ WireEnd.SourceFault → ⊥ }
    ensures no_sink_fault { result ≡ WireEnd.SinkFault → ⊥ }
{
    if buffers.window().is_empty() {
        WireEnd::End
    } else {
        WireEnd::Cut {
            at: place_of(buffers),
        }
    }
}
