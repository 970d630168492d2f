//! Serving the frames of a source at a mount, on the calling thread.
//!
//! Promise: the steps of the frames are those of `FIRST_USER`, in order, and the sink takes just their replies. The
//! status is that of the end of the frames, or of a fault of the device where they ended well.

ghost use Rattle.std.specs.Prelude.{◌≡◌, ◌≢◌, ◌+◌, [], None, Some, false, IfSome};
ghost use Rattle.nofs_disk.specs.Disk.{Rose};
ghost use Rattle.nofs_io.specs.Texts.{TakesAtMost};
ghost use Rattle.nofs_wire.specs.Server.Serve.{Serves};
ghost use Rattle.nofs_tool.specs.Begin.Mounts.{HasNoMount, IsRaisedFrom};
ghost use Rattle.nofs_tool.specs.Session.Serve.{IsClosed};
ghost use Rattle.nofs_tool.specs.Session.Whole.{Finished};
ghost use Rattle.nofs_tool.specs.Visits.Visit.{FollowsVisit, IsVisitRun};
ghost use Rattle.nofs_tool.specs.Visits.Wire.{IsWired, WireEnds, end_status, wire_status};
ghost use Rattle.nofs_tool.specs.Runs.Headline.{IsHeadlineOf};
ghost use Rattle.nofs_tool.specs.Runs.Said.{SaysCause};
ghost use Rattle.nofs_history.specs.Callers.{steps_by};

use crate::begin::mounts::mount;
use crate::runs::outcomes::{Outcome, refused};
use crate::visits::visit::visit_and_close;
use nofs_disk::Disk;
use nofs_history::{History, Steps};
use nofs_io::{Sink, Source};
use nofs_serve::{Visited, Visits};
use nofs_shared::Mount;
use nofs_wire::{WireEnd, serve};
use std::alloc::Global;
use std::sync::Wait;
use std::thread::Threads;

// A server of frames, with what its stream ended with.
#[derive(Drop)]
struct Server<'a, 'b, Q, K> {
    alloc: Global,
    source: &'a mut Q,
    sink: &'b mut K,
    end: WireEnd,
}

impl<Q: Source, K: Sink> Visits for Server<'_, '_, Q, K> {
    ghost use Rattle.std.proofs.Common.{◌≡◌, refl};
    ghost use Rattle.nofs_wire.specs.declared.server.serve.WireEnd.TheVariants as ended;
    ghost use Rattle.nofs_tool.specs.Visits.Wire.{HasServed, served_none};

    ghost is_ready = { λ s. s.end ≡ ended.OutOfMemory };

    ghost visited = { λ old new made new_made. (new.source.ghost_name ≡ old.source.ghost_name)
        × (new.sink.ghost_name ≡ old.sink.ghost_name)
        × HasServed Q.state K.state new.end old.source.now new.source.now old.sink.now new.sink.now made new_made };

    ghost visited_none = { λ s made ready.
        (refl, refl, served_none Q.state K.state s.end s.source.now s.sink.now made ready) };

    fn visit<S: Steps>(&mut self, steps: &mut S) {
        self.end = serve(self.alloc, steps, self.source, self.sink);
    }
}

// A mount at its end, and the end of its frames.
#[derive(Drop)]
struct Wired<D> {
    disk: D,
    history: History,
    end: WireEnd,
    out_of_memory: bool,
}

// Gives a reference back to whom it was lent by.
fn take_back<T>(_lent: &mut T)
    ensures { _lent.new ≡ _lent.old }
{}

// Serves the frames of a source at a mount, and makes all durable.
fn run_wire<R: Threads + Wait + Sync, Q: Source, K: Sink, D: Disk + Drop + Send>(
    rt: &R,
    alloc: Global,
    source: &mut Q,
    sink: &mut K,
    mount: Mount<D>,
) -> Wired<D>
    requires { mount.core.books.history.entries ≡ [] }
    ensures ends { ∥ Finished (D.state mount.found.value) (D.state result.disk) mount.first result.history ∥₁ }
    ensures ran { IsVisitRun (IsWired (Q.state source.old).left (Q.state source.new).left) mount.core.books.at.inodes
        mount.core.books.at.blocks
        result.out_of_memory result.history.entries }
    ensures closed { result.out_of_memory ≡ false → IsClosed (D.state result.disk) result.history.entries }
    ensures served { Serves 16777216 result.end
        (Q.state source.old).left (Q.state source.new).left (K.state sink.old).given (K.state sink.new).given
        [] (steps_by 1 result.history.entries) }
    ensures source_fault { result.end ≡ WireEnd.SourceFault
        → Rose (Q.state source.old).faults (Q.state source.new).faults }
    ensures sink_fault { result.end ≡ WireEnd.SinkFault → Rose (K.state sink.old).faults (K.state sink.new).faults }
{
    let mut server = Server {
        alloc,
        source,
        sink,
        end: WireEnd::OutOfMemory,
    };
    let Visited {
        mount,
        out_of_memory,
    } = visit_and_close(rt, alloc, mount, &mut server);
    let Server {
        source: lent,
        sink: other,
        end,
        ..
    } = server;
    take_back(lent);
    take_back(other);
    let (disk, history) = mount.end();
    Wired {
        disk,
        history,
        end,
        out_of_memory,
    }
}

// The status that frames end the program with, where an entry has a fault of the device or none has.
fn end_status(end: WireEnd, faulty: bool) -> u8
    ensures { result ≡ end_status end faulty }
{
    match end {
        WireEnd::SourceFault => 6,
        WireEnd::TooLong => 8,
        WireEnd::Cut { .. } | WireEnd::Bad { .. } => 2,
        WireEnd::OutOfMemory => 7,
        WireEnd::SinkFault => if faulty { 3 } else { 5 },
        WireEnd::End => if faulty { 3 } else { 0 },
    }
}

// The status, where memory was wanting beside the frames, or not.
fn wire_status(out_of_memory: bool, end: WireEnd, faulty: bool) -> u8
    ensures { result ≡ wire_status out_of_memory end faulty }
{
    if out_of_memory {
        7
    } else {
        end_status(end, faulty)
    }
}

// What comes of frames at a mount.
fn mounted<R: Threads + Wait + Sync, Q: Source, K: Sink, D: Disk + Drop + Send>(
    rt: &R,
    alloc: Global,
    source: &mut Q,
    sink: &mut K,
    mount: Mount<D>,
) -> Outcome<D>
    requires new { mount.core.books.history.entries ≡ [] }
    requires first { mount.first ≡ 0 }
    requires raised { IsRaisedFrom (D.state mount.found.value) mount.core.books.at }
    ensures headline { IfSome result.history
        (λ h. ∥ IsHeadlineOf (FollowsVisit (IsWired (Q.state source.old).left (Q.state source.new).left))
        (D.state mount.found.value) (D.state result.disk) result.status h ∥₁) }
    ensures ends { WireEnds (D.state mount.found.value) (D.state result.disk) (Q.state source.old) (Q.state source.new)
        (K.state sink.old) (K.state sink.new) result.status result.history }
    ensures stood { result.history ≢ None }
    ensures taken { TakesAtMost (Q.state source.old) (Q.state source.new) (16777216 + 1) }
{
    let Wired {
        disk,
        history,
        end,
        out_of_memory,
    } = run_wire(rt, alloc, source, sink, mount);
    let status = wire_status(out_of_memory, end, history.has_fault());
    Outcome {
        status,
        disk,
        history: Some(history),
    }
}

/// What comes of the frames of a source.
pub(crate) fn wire_outcome<R: Threads + Wait + Sync, Q: Source, K: Sink, D: Disk + Drop + Send>(
    rt: &R,
    alloc: Global,
    source: &mut Q,
    sink: &mut K,
    disk: D,
) -> Outcome<D>
    ensures headline { IfSome result.history
        (λ h. ∥ IsHeadlineOf (FollowsVisit (IsWired (Q.state source.old).left (Q.state source.new).left))
        (D.state disk) (D.state result.disk) result.status h ∥₁) }
    ensures ends { WireEnds (D.state disk) (D.state result.disk) (Q.state source.old) (Q.state source.new)
        (K.state sink.old) (K.state sink.new)
        result.status result.history }
    ensures unserved { result.history ≡ None → SaysCause (HasNoMount D.state None disk result.disk)
        (K.state sink.old) (K.state sink.new) result.status }
    ensures taken { TakesAtMost (Q.state source.old) (Q.state source.new) (16777216 + 1) }
{
    match mount(alloc, disk) {
        Ok(mount) => mounted(rt, alloc, source, sink, mount),
        Err(why) => refused(sink, why),
    }
}
