//! All workers at once.
ghost use Rattle.std.specs.Prelude.{◌≡◌, ℕ, ◌<◌, length, slice_index_or};

use crate::teams::works::{Visits, Works};
use nofs_history::Steps;
use std::thread;
use std::thread::Threads;

/// Lends each worker to a thread of its own, where one can be made, and waits for all. Each has then
/// done its work once.
pub(crate) fn work_all<R: Threads + Sync, W: Works + Send>(rt: &R, workers: &mut [W])
    ensures len { length workers.new ≡ length workers.old }
    ensures each { (place : ℕ) (default : W) → place < length workers.old
        → W.worked (slice_index_or workers.old place default) (slice_index_or workers.new place default) }
{
    let count = workers.len();
    if count == 0 {
        return;
    }
    thread::for_each_mut(
        rt,
        workers,
        count,
        &|_: usize, worker: &mut W|
            ensures { W.worked worker.old worker.new }
        { worker.work() },
    );
}

/// Lends the users, both sweepers and the flusher to threads at once. Each has then done its work once. The last user
/// works on this thread: users take the most memory, and a thread that is made takes its own from an arena apart, which
/// asks the system for it page by page.
pub(crate) fn work_team<
    R: Threads + Sync,
    U: Works + Send,
    I: Works + Send,
    B: Works + Send,
    F: Works + Send,
>(rt: &R, users: &mut Vec<U>, inodes: &mut I, blocks: &mut B, flusher: &mut F)
    ensures len { length users.new.items ≡ length users.old.items }
    ensures users { (place : ℕ) (default : U) → place < length users.old.items
        → U.worked (slice_index_or users.old.items place default) (slice_index_or users.new.items place default) }
    ensures inodes { I.worked inodes.old inodes.new }
    ensures blocks { B.worked blocks.old blocks.new }
    ensures flusher { F.worked flusher.old flusher.new }
{
    thread::join_mut(
        rt,
        &mut || work_three(rt, inodes, blocks, flusher),
        &mut || work_all(rt, users.as_mut_slice()),
    );
}

/// Lends both sweepers and the flusher to threads at once, while a visitor works on this one. Each has then done its
/// work once.
pub(crate) fn work_beside<
    R: Threads + Sync,
    I: Works + Send,
    B: Works + Send,
    F: Works + Send,
    G: Visits,
    S: Steps,
>(rt: &R, inodes: &mut I, blocks: &mut B, flusher: &mut F, visitor: &mut G, steps: &mut S)
    requires { G.is_ready visitor.old }
    ensures inodes { I.worked inodes.old inodes.new }
    ensures blocks { B.worked blocks.old blocks.new }
    ensures flusher { F.worked flusher.old flusher.new }
    ensures visited { G.visited visitor.old visitor.new (S.made steps.old) (S.made steps.new) }
    ensures goes { S.goes steps.old steps.new }
{
    thread::join_mut(
        rt,
        &mut || work_three(rt, inodes, blocks, flusher),
        &mut ||
            requires { G.is_ready visitor.now }
            ensures { G.visited visitor.entry.now visitor.exit.now (S.made steps.entry.now) (S.made steps.exit.now)
                × S.goes steps.entry.now steps.exit.now }
        { visitor.visit(steps) },
    );
}

// Lends three workers to threads at once.
fn work_three<R: Threads + Sync, U: Works + Send, V: Works + Send, W: Works + Send>(
    rt: &R,
    first: &mut U,
    second: &mut V,
    third: &mut W,
)
    ensures first { U.worked first.old first.new }
    ensures second { V.worked second.old second.new }
    ensures third { W.worked third.old third.new }
{
    thread::join_mut(
        rt,
        &mut || first.work(),
        &mut || work_two(rt, second, third),
    );
}

// Lends two workers to threads at once.
fn work_two<R: Threads + Sync, V: Works + Send, W: Works + Send>(
    rt: &R,
    first: &mut V,
    second: &mut W,
)
    ensures first { V.worked first.old first.new }
    ensures second { W.worked second.old second.new }
{
    thread::join_mut(rt, &mut || first.work(), &mut || second.work());
}
