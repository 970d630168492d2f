//! A visit at a mount: one caller at work on the calling thread, beside the sweeps and the flusher.
//!
//! Promise: the visitor is `FIRST_USER`, and the history has of it just the steps that it made; the sweeps are the
//! callers that `nofs_history` names, the flusher makes no entry, and the program itself the last one, a flush of
//! the whole disk, where there is memory for it.

ghost use Rattle.std.specs.Prelude.{◌≡◌, [], false};
ghost use Rattle.nofs_serve.specs.Visit.{VisitServed};
ghost use Rattle.nofs_tool.specs.Session.Serve.{AreSwept, IsClosed};
ghost use Rattle.nofs_tool.specs.Visits.Visit.{IsVisitRun};

use crate::session::serve::close;
use nofs_disk::Disk;
use nofs_serve::{Sweeps, Visited, Visits, WriteOuts, attend};
use nofs_shared::Mount;
use nofs_workers::OpenGate;
use std::alloc::Global;
use std::sync::Wait;
use std::thread::Threads;

// A visit, beside the sweeps and the flusher, which writes out as often as the disk has blocks. At a new mount both
// sweeps examine each element, since it took memory for their entries; or nobody is served.
fn visit<R: Threads + Wait + Sync, D: Disk + Drop + Send, G: Visits>(
    rt: &R,
    alloc: Global,
    mount: Mount<D>,
    visitor: &mut G,
) -> Visited<Mount<D>>
    requires { G.is_ready visitor.old }
    ensures same { (result.mount.found.value ≡ mount.found.value) × (result.mount.first ≡ mount.first) }
    ensures swept { mount.core.books.history.entries ≡ []
        → AreSwept mount.core.books.at.inodes mount.core.books.at.blocks mount.core.books.history.entries
        result.mount.core.books.history.entries }
    ensures served { VisitServed (G.visited visitor.old visitor.new []) mount.core.books.at.inodes
        mount.core.books.at.blocks result.out_of_memory
        mount.core.books.history.entries result.mount.core.books.history.entries }
{
    let at = mount.numbers();
    let outs = WriteOuts {
        turns: at.blocks,
        gate: OpenGate,
    };
    let sweeps = Sweeps {
        inodes: at.inodes,
        blocks: at.blocks,
        gates: (OpenGate, OpenGate),
    };
    match attend(rt, alloc, mount, visitor, sweeps, outs) {
        Ok(visited) => visited,
        Err(mount) => Visited {
            mount,
            out_of_memory: true,
        },
    }
}

/// Serves a visitor beside the sweeps and the flusher, and makes all durable.
pub(crate) fn visit_and_close<R: Threads + Wait + Sync, D: Disk + Drop + Send, G: Visits>(
    rt: &R,
    alloc: Global,
    mount: Mount<D>,
    visitor: &mut G,
) -> Visited<Mount<D>>
    requires ready { G.is_ready visitor.old }
    requires new { mount.core.books.history.entries ≡ [] }
    ensures same { (result.mount.found.value ≡ mount.found.value) × (result.mount.first ≡ mount.first) }
    ensures ran { IsVisitRun (G.visited visitor.old visitor.new []) mount.core.books.at.inodes
        mount.core.books.at.blocks result.out_of_memory
        result.mount.core.books.history.entries }
    ensures closed { result.out_of_memory ≡ false
        → IsClosed (D.state result.mount.core.disk) result.mount.core.books.history.entries }
{
    let Visited {
        mount,
        out_of_memory,
    } = visit(rt, alloc, mount, visitor);
    let mut mount = mount;
    let closed = close(alloc, &mut mount);
    Visited {
        mount,
        out_of_memory: out_of_memory || !closed,
    }
}
