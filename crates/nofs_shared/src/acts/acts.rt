//! One step at a mount: each kind of step by its step function.
ghost use Rattle.std.specs.Prelude.{◌≡◌, true, false};
ghost use Rattle.nofs_history.specs.Claims.{no_claims};
ghost use Rattle.nofs_history.specs.Faults.{is_fault};
ghost use Rattle.nofs_history.specs.Steps.{Fits, is_out_of_memory};
ghost use Rattle.nofs_history.specs.declared.machine.replies.Refusal.TheVariants as refusal;
ghost use Rattle.nofs_history.specs.declared.machine.replies.Reply.TheVariants as reply;
ghost use Rattle.nofs_history.specs.declared.machine.steps.Step.TheVariants as step;
ghost use Rattle.nofs_state.specs.Books.Maps.{IsSafe};
ghost use Rattle.nofs_state.specs.Cores.FirstRows.{RefusesEarly};
ghost use Rattle.nofs_state.specs.Cores.Steps.{Goes};
ghost use Rattle.nofs_shared.specs.Acts.Contents.{reads_content};
ghost use Rattle.nofs_shared.specs.Acts.Names.{is_on_names};
ghost use Rattle.nofs_shared.specs.Acts.Sees.{is_see};
ghost use Rattle.nofs_shared.specs.Mount.Flushes.{Settles, is_whole_answer, names_whole};

use crate::acts::acted::{
    Acted, dropped, flushed, found, got, linked, listed, made, refused, renamed, resized, seen,
    slot_room, stated, stored,
};
use nofs_disk::Disk;
use nofs_files::{flush, get, put, resize, stat};
use nofs_history::{Refusal, Step};
use nofs_names::{drop_name, link, list, look, make, rename};
use nofs_scan::{see_block, see_inode};
use nofs_state::Core;
use std::alloc::Global;

// A Get. The memory for its bytes comes first: without it nothing is read.
fn get_content<D: Disk + Drop>(
    core: &mut Core<D>,
    alloc: Global,
    inode: u32,
    generation: u64,
    slot: u64,
) -> Acted
    requires { IsSafe (D.state core.old.disk) core.old.books }
    ensures goes { Goes (D.state core.old.disk) core.old.books (D.state core.new.disk) core.new.books
        (step.Get inode generation slot) result.claims result.reply }
    ensures memory { is_fault result.reply ≡ false
        → Goes (D.state core.old.disk) core.old.books (D.state core.new.disk) core.new.books
        (step.Get inode generation slot) no_claims (reply.Refused refusal.OutOfMemory) }
    ensures fits { Fits (step.Get inode generation slot) result.reply }
    ensures early { RefusesEarly core.old.books (step.Get inode generation slot) result.reply }
{
    let Ok(room) = slot_room(alloc) else {
        return refused(Refusal::OutOfMemory);
    };
    let mut bytes = [0; 1024];
    let done = get(core, inode, generation, slot, &mut bytes);
    got(done, room, &bytes)
}

// Makes one step on a name, or on the names of a directory.
fn act_on_names<D: Disk + Drop>(core: &mut Core<D>, alloc: Global, step: &Step) -> Acted
    requires safe { IsSafe (D.state core.old.disk) core.old.books }
    requires names { is_on_names step.now ≡ true }
    ensures goes { Goes (D.state core.old.disk) core.old.books
        (D.state core.new.disk) core.new.books step.now result.claims result.reply }
    ensures memory { reads_content step.now ≡ true → is_fault result.reply ≡ false
        → Goes (D.state core.old.disk) core.old.books
        (D.state core.new.disk) core.new.books step.now no_claims (reply.Refused refusal.OutOfMemory) }
    ensures fits { Fits step.now result.reply }
    ensures early { RefusesEarly core.old.books step.now result.reply }
{
    match step {
        Step::Look {
            directory,
            generation,
            name,
        } => found(look(core, *directory, *generation, name.as_slice())),
        Step::Make {
            directory,
            generation,
            name,
            kind,
        } => made(make(alloc, core, *directory, *generation, name.as_slice(), *kind)),
        Step::Link {
            directory,
            generation,
            name,
            of,
            inode,
        } => linked(link(
            core,
            alloc,
            *directory,
            *generation,
            name.as_slice(),
            *inode,
            *of,
        )),
        Step::Drop {
            directory,
            generation,
            name,
        } => dropped(drop_name(core, alloc, *directory, *generation, name.as_slice())),
        Step::Rename {
            directory,
            generation,
            old,
            new,
        } => renamed(rename(
            alloc,
            core,
            *directory,
            *generation,
            old.as_slice(),
            new.as_slice(),
        )),
        Step::List {
            directory,
            generation,
            slot,
        } => listed(list(alloc, core, *directory, *generation, *slot)),
        _ => unreachable!(),
    }
}

/// Makes one step. What of it needs memory takes it before anything is written. A step whose reply has the content of
/// a slot has only read, and may be taken as one that found no memory.
pub(crate) fn act<D: Disk + Drop>(core: &mut Core<D>, alloc: Global, step: &Step) -> Acted
    requires { IsSafe (D.state core.old.disk) core.old.books }
    ensures goes { Goes (D.state core.old.disk) core.old.books
        (D.state core.new.disk) core.new.books step.now result.claims result.reply }
    ensures memory { reads_content step.now ≡ true → is_fault result.reply ≡ false
        → Goes (D.state core.old.disk) core.old.books
        (D.state core.new.disk) core.new.books step.now no_claims (reply.Refused refusal.OutOfMemory) }
    ensures fits { Fits step.now result.reply }
    ensures sees { is_see step.now ≡ true → is_out_of_memory result.reply ≡ false }
    ensures settled { Settles step.now result.reply (D.state core.new.disk) }
    ensures whole { names_whole step.now ≡ true → is_whole_answer result.reply ≡ true }
    ensures early { RefusesEarly core.old.books step.now result.reply }
{
    match step {
        Step::Look { .. } => act_on_names(core, alloc, step),
        Step::Make { .. } => act_on_names(core, alloc, step),
        Step::Link { .. } => act_on_names(core, alloc, step),
        Step::Drop { .. } => act_on_names(core, alloc, step),
        Step::Rename { .. } => act_on_names(core, alloc, step),
        Step::List { .. } => act_on_names(core, alloc, step),
        Step::Get {
            inode,
            generation,
            slot,
        } => get_content(core, alloc, *inode, *generation, *slot),
        Step::Put {
            inode,
            generation,
            bytes,
            slot,
            at,
        } => stored(put(core, *inode, *generation, *slot, *at, bytes.as_slice())),
        Step::Stat { inode, generation } => stated(stat(core, *inode, *generation)),
        Step::Flush { inode, generation } => flushed(flush(core, *inode, *generation)),
        Step::Resize {
            inode,
            generation,
            size,
        } => resized(resize(core, alloc, *inode, *generation, *size)),
        Step::SeeInode { inode } => seen(see_inode(core, *inode)),
        Step::SeeBlock { block } => seen(see_block(core, *block)),
    }
}
