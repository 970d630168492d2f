//! The values that a history gave to a file, in a plain way: step by step, from nothing.
//!
//! Promise: they are those of the definition. A step that was refused gives nothing.
ghost use Rattle.std.specs.Prelude.{◌≡◌, ◌<◌, ◌+◌, length, IfOk, fold, drop};
ghost use Rattle.nofs_history.specs.Machine as machine;
ghost use Rattle.nofs_gen.specs.Replay.{after_entry as entry_after, file_with_step as step_after, replayed_file};
ghost use Rattle.nofs_gen.specs.Replay.{replay_of};

use crate::file::Replayed;
use nofs_dirent::ListOf;
use nofs_history::{Entry1, History, Reply, Step};
use nofs_model::Value;
use std::alloc::{AllocError, Global};

/// Values of slots, in order.
pub type ValueList = ListOf<Value>;

// A file by its inode and generation.
#[derive(Clone, Copy)]
struct Wanted {
    inode: u32,
    generation: u64,
}

impl Wanted {
    fn is(&self, inode: u32, generation: u64) -> bool
        ensures { result ≡ machine.is_at self.now.inode self.now.generation inode generation }
    {
        self.inode == inode && self.generation == generation
    }

    // The file after a step that was accepted.
    fn replay(&self, alloc: Global, file: Replayed, step: &Step) -> Result<Replayed, AllocError>
        ensures { IfOk result
            (λ next. replayed_file next ≡ step_after self.now.inode self.now.generation (replayed_file file) step.now) }
    {
        match step {
            Step::Put {
                inode,
                generation,
                ..
            }
            | Step::Resize {
                inode,
                generation,
                ..
            } if !self.is(*inode, *generation) => Ok(file),
            Step::Put {
                slot,
                at,
                bytes,
                ..
            } => file.with_put(alloc, *slot, *at, bytes.as_slice()),
            Step::Resize { size, .. } => file.resized(alloc, *size),
            Step::Look { .. }
            | Step::Make { .. }
            | Step::Link { .. }
            | Step::Drop { .. }
            | Step::Rename { .. }
            | Step::List { .. }
            | Step::Get { .. }
            | Step::Stat { .. }
            | Step::Flush { .. }
            | Step::SeeInode { .. }
            | Step::SeeBlock { .. } => Ok(file),
        }
    }

    // The file after an entry.
    fn take(&self, alloc: Global, file: Replayed, it: &Entry1) -> Result<Replayed, AllocError>
        ensures { IfOk result
            (λ next. replayed_file next ≡ entry_after self.now.inode self.now.generation (replayed_file file) it.now) }
    {
        if is_refused(&it.reply) {
            Ok(file)
        } else {
            self.replay(alloc, file, &it.step)
        }
    }
}

fn is_refused(reply: &Reply) -> bool
    ensures { result ≡ machine.is_refused reply.now }
{
    matches!(reply, Reply::Refused(_))
}

// The file after the entry at a place.
fn after_place(
    alloc: Global,
    wanted: &Wanted,
    file: Replayed,
    history: &History,
    at: u64,
) -> Result<Replayed, AllocError>
    requires { at < length history.now.entries }
    ensures { IfOk result (λ next. fold (entry_after wanted.now.inode wanted.now.generation) (replayed_file next)
        (drop (at + 1) history.now.entries)
        ≡ fold (entry_after wanted.now.inode wanted.now.generation) (replayed_file file)
        (drop at history.now.entries)) }
{
    match history.entry(at) {
        Some(entry) => wanted.take(alloc, file, entry),
        None => Ok(file),
    }
}

/// The 72 values that the accepted puts and resizes of a file give one after the other, beginning with 72 holes and
/// size 0.
#[tactic(auto, unfolding(crate::specs::Replay::replay_of))]
pub fn replay(
    alloc: Global,
    history: &History,
    inode: u32,
    generation: u64,
) -> Result<ValueList, AllocError>
    ensures { IfOk result (λ values. values ≡ replay_of history.now.entries inode generation) }
{
    let wanted = Wanted { inode, generation };
    let mut file = Replayed::empty(alloc)?;
    for at in 0..history.len() {
        file = after_place(alloc, &wanted, file, history, at)?;
    }
    Ok(ValueList::from_vec(file.into_values(alloc)?))
}
