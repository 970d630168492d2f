//! One step of a caller, and its entry. A Look of a name that was found before reads nothing.
//!
//! Promise: what the index tells is what the step would have found, and each step that was made is noted in it.
ghost use Rattle.std.specs.Prelude.{◌≡◌, ◌-◌, ◌++◌, ◌∷◌, ◌<◌, ℕ, [], true, false, IfSome};
ghost use Rattle.nofs_history.specs.Claims.{no_claims};
ghost use Rattle.nofs_history.specs.Steps.{is_out_of_memory};
ghost use Rattle.nofs_state.specs.Books.Maps.{with_history};
ghost use Rattle.nofs_state.specs.Cores.Steps.{MeetsOpen, entry};
ghost use Rattle.nofs_shared.specs.Index.Truths.{IsTold, IsTrueIndex};
ghost use Rattle.nofs_shared.specs.Mount.Entries.{Unowned};
ghost use Rattle.nofs_shared.specs.Mount.Books.{BooksGoOn, CanStep};
ghost use Rattle.nofs_shared.specs.Mount.Invariant.{IsMount, IsSoundDisk};
ghost use Rattle.nofs_shared.specs.Passes.Entries.{TellsStep};
ghost use Rattle.nofs_shared.specs.Acts.Sees.{is_see};
ghost use Rattle.nofs_shared.specs.Mount.Flushes.{Settles};
ghost use Rattle.nofs_shared.specs.Mount.Causes.{StepCauses, StepGiven, StepOrder};

use crate::acts::acted::Acted;
use crate::acts::acts::act;
use crate::acts::copies::kept_reply;
use crate::index::Index;
use nofs_disk::Disk;
use nofs_history::{Found, NO_CLAIMS, Refusal, Reply, Step};
use nofs_state::Core;
use std::alloc::Global;

// What the index tells of a step: of a Look alone, and of none once a write has failed.
fn told(index: &Index, stopped: bool, step: &Step) -> Option<Found>
    ensures going { IfSome result (λ it. stopped ≡ false) }
    ensures told { IfSome result (IsTold index.now step.now) }
{
    if stopped {
        return None;
    }
    match step {
        Step::Look {
            directory,
            generation,
            name,
        } => index.found(*directory, *generation, name.as_slice()),
        _ => None,
    }
}

// Adds the entry of a Look that found this file. It takes no memory.
fn keep_found<D: Disk + Drop>(core: &mut Core<D>, caller: u32, step: Step, found: Found)
    requires { 0 < core.old.books.history.spare }
    ensures disk { core.new.disk ≡ core.old.disk }
    ensures books { core.new.books ≡ with_history core.old.books (record {
      start = core.old.books.history.start;
      entries = core.old.books.history.entries
          ++ entry caller (D.state core.old.disk) (D.state core.old.disk) step no_claims (Reply.Found found) ∷ [];
      spare = core.old.books.history.spare - 1;
    }) }
{
    let from = core.disk.moment();
    core.keep_step(caller, from, step, Reply::Found(found), NO_CLAIMS);
}

/// Makes one step of a caller, for whose entry there is memory, and notes it in the index. It adds one entry, but none
/// where memory was wanting. Where the index tells the answer, nothing is read.
pub(crate) fn step_in<D: Disk + Drop>(
    core: &mut Core<D>,
    index: &mut Index,
    alloc: Global,
    caller: u32,
    step: Step,
) -> Reply
    requires can { CanStep (D.state core.old.disk) core.old.books }
    ensures keeps { (found : D) (first : ℕ) → IsMount (D.state found) (D.state core.old.disk) first core.old.books
        → IsTrueIndex (D.state found) (D.state core.old.disk) core.old.books index.old
        → IsMount (D.state found) (D.state core.new.disk) first core.new.books }
    ensures notes { (found : D) (first : ℕ) → IsMount (D.state found) (D.state core.old.disk) first core.old.books
        → IsTrueIndex (D.state found) (D.state core.old.disk) core.old.books index.old
        → IsTrueIndex (D.state found) (D.state core.new.disk) core.new.books index.new }
    ensures claims { (found : D) (first : ℕ) → IsMount (D.state found) (D.state core.old.disk) first core.old.books
        → IsSoundDisk (D.state found)
        → Unowned (D.state core.old.disk).now core.old.books.history.entries core.new.books.history.entries }
    ensures tells { TellsStep caller step core.old.books.history.entries core.new.books.history.entries result }
    ensures goes_on { BooksGoOn (D.state core.new.disk) core.old.books core.new.books }
    ensures sees { is_see step ≡ true → is_out_of_memory result ≡ false }
    ensures settled { Settles step result (D.state core.new.disk) }
    ensures causes { StepCauses (D.state core.old.disk) (D.state core.new.disk) core.old.books core.new.books result }
    ensures given { StepGiven core.old.books step result }
    ensures order { StepOrder (D.state core.old.disk) (D.state core.new.disk)
        (MeetsOpen (D.state core.old.disk) core.old.books) step result core.new.books.history.entries }
{
    match told(index, core.books.stopped, &step) {
        Some(it) => {
            keep_found(core, caller, step, it);
            return Reply::Found(it);
        }
        None => {}
    }
    let from = core.disk.moment();
    let Acted { reply, claims } = act(core, alloc, &step);
    match kept_reply(alloc, &reply) {
        Ok(kept) => {
            index.note(alloc, &step, &reply);
            core.keep_step(caller, from, step, kept, claims);
            reply
        }
        // What found no memory has only read. Without memory for its entry a step is none.
        Err(_) => Reply::Refused(Refusal::OutOfMemory),
    }
}
