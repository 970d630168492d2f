//! The steps of a walk, one by one.
//!
//! Promise: each only reads. A refusal is the fault that it ends with, but for a slot beyond what a file can have.
//! Where the machine answers, what is told holds in its files.
ghost use Rattle.std.specs.Prelude.{◌≡◌, ◌<◌, ℕ, IfOk, Bool, List, None, true, false};
ghost use Rattle.nofs_history.specs.Machine.{size_of as size_of_file, slots_in as slots_of_size};
ghost use Rattle.nofs_history.specs.Steps.{Made};
ghost use Rattle.nofs_history.specs.World.{World};
ghost use Rattle.nofs_salvage.specs.Walk.Steps.{IsReadingStep, is_get, MakesReads, IsAccepted, refusal_by, found_by};
ghost use Rattle.nofs_salvage.specs.Walk.Steps.{size_by, listed_by, got_by};
ghost use Rattle.nofs_salvage.specs.Walk.Steps.{is_too_large as too_large_by};
ghost use Rattle.nofs_salvage.specs.Report.Losses.{inode_found};
ghost use Rattle.nofs_salvage.specs.Walk.Answers.{AreAnswered, IsListedFrom, IsGot};
ghost use Rattle.nofs_salvage.specs.Walk.Refusals.{is_there, AreFair, MakesOne, MayAsk, LeadsTo};
ghost use Rattle.nofs_salvage.specs.Report.Lines.{IsFolderPart};
ghost use Rattle.nofs_salvage.specs.Walk.Asks.{Asks, AsksOn, HasReached, HasGiven, HasTold, ListGives, has_slot};

use crate::report::answers::{InodeHandle, NextSlot, SlotState};
use crate::report::fault::{SalvageFault, fault_of};
use nofs_dirent::Name;
use nofs_history::{Refusal, Reply, Step, Steps};
use std::alloc::Global;

// Makes a step that reads.
fn ask<S: Steps>(steps: &mut S, step: Step) -> Result<Reply, SalvageFault>
    requires read { IsReadingStep step }
    requires no_get { is_get step ≡ false }
    ensures reads { MakesReads (S.made steps.old) (S.made steps.new) (refusal_by result) }
    ensures accepted { IfOk result (λ reply. IsAccepted (S.made steps.old) (S.made steps.new) step reply) }
    ensures one { MakesOne (S.made steps.old) (S.made steps.new) step }
    ensures goes { S.goes steps.old steps.new }
{
    match steps.step(step) {
        Reply::Refused(why) => Err(fault_of(why)),
        reply => Ok(reply),
    }
}

// What the reply to a look says.
fn found_in(reply: Reply) -> Result<InodeHandle, SalvageFault>
    ensures is { result ≡ found_by reply }
    ensures no_refusal { refusal_by result ≡ None }
{
    match reply {
        Reply::Found(found) => Ok(InodeHandle {
            inode: found.inode,
            generation: found.generation,
        }),
        _ => Err(SalvageFault::OutOfMemory),
    }
}

// The file or directory that a name finds.
fn look<S: Steps>(steps: &mut S, at: InodeHandle, name: Name) -> Result<InodeHandle, SalvageFault>
    ensures reads { MakesReads (S.made steps.old) (S.made steps.new) (refusal_by result) }
    ensures goes { S.goes steps.old steps.new }
    ensures right { (W : World) (folder : Bool) → AreAnswered W (S.made steps.old) (S.made steps.new)
        → MayAsk W.files true at
        → LeadsTo W.files at.inode name folder → AreFair W.files (S.made steps.old) (S.made steps.new) }
    ensures asks { (first : List Made) → Asks first (S.made steps.old) → HasGiven first (S.made steps.old) at name
        → Asks first (S.made steps.new) }
    ensures found { IfOk result (λ found. (W : World) → AreAnswered W (S.made steps.old) (S.made steps.new)
        → inode_found W.files at.inode name ≡ found.inode) }
    ensures there { IfOk result (λ found. (W : World) → AreAnswered W (S.made steps.old) (S.made steps.new)
        → is_there W.files found.inode found.generation ≡ true) }
    ensures met { IfOk result
        (λ found. (first : List Made) → Asks first (S.made steps.old) → HasReached first (S.made steps.new) found) }
{
    let step = Step::Look {
        directory: at.inode,
        generation: at.generation,
        name,
    };
    found_in(ask(steps, step)?)
}

/// The file or directory that a name finds, which is copied for the step.
pub(crate) fn find<S: Steps>(
    alloc: Global,
    steps: &mut S,
    at: InodeHandle,
    name: &Name,
) -> Result<InodeHandle, SalvageFault>
    ensures reads { MakesReads (S.made steps.old) (S.made steps.new) (refusal_by result) }
    ensures goes { S.goes steps.old steps.new }
    ensures right { (W : World) (folder : Bool) → AreAnswered W (S.made steps.old) (S.made steps.new)
        → MayAsk W.files true at
        → LeadsTo W.files at.inode name.now folder → AreFair W.files (S.made steps.old) (S.made steps.new) }
    ensures asks { (first : List Made) → Asks first (S.made steps.old) → HasGiven first (S.made steps.old) at name.now
        → Asks first (S.made steps.new) }
    ensures found { IfOk result (λ found. (W : World) → AreAnswered W (S.made steps.old) (S.made steps.new)
        → inode_found W.files at.inode name.now ≡ found.inode) }
    ensures there { IfOk result (λ found. (W : World) → AreAnswered W (S.made steps.old) (S.made steps.new)
        → is_there W.files found.inode found.generation ≡ true) }
    ensures met { IfOk result
        (λ found. (first : List Made) → Asks first (S.made steps.old) → HasReached first (S.made steps.new) found) }
{
    let name = name.copy(alloc)?;
    look(steps, at, name)
}

// What the reply to a stat says.
fn size_in(reply: Reply) -> Result<u64, SalvageFault>
    ensures is { result ≡ size_by reply }
    ensures no_refusal { refusal_by result ≡ None }
{
    match reply {
        Reply::Stat(stat) => Ok(stat.size),
        _ => Err(SalvageFault::OutOfMemory),
    }
}

/// The size of a file in bytes.
pub(crate) fn size_of<S: Steps>(steps: &mut S, at: InodeHandle) -> Result<u64, SalvageFault>
    ensures reads { MakesReads (S.made steps.old) (S.made steps.new) (refusal_by result) }
    ensures goes { S.goes steps.old steps.new }
    ensures right { (W : World) (folder : Bool) → AreAnswered W (S.made steps.old) (S.made steps.new)
        → MayAsk W.files folder at
        → AreFair W.files (S.made steps.old) (S.made steps.new) }
    ensures asks { AsksOn (S.made steps.old) (S.made steps.new) at }
    ensures size { IfOk result (λ size. (W : World) → AreAnswered W (S.made steps.old) (S.made steps.new)
        → size_of_file W.files at.inode ≡ size) }
    ensures there { IfOk result (λ size. (W : World) → AreAnswered W (S.made steps.old) (S.made steps.new)
        → is_there W.files at.inode at.generation ≡ true) }
    ensures told { IfOk result
        (λ size. (first : List Made) → Asks first (S.made steps.old) → HasTold first (S.made steps.new) at size) }
{
    let step = Step::Stat {
        inode: at.inode,
        generation: at.generation,
    };
    size_in(ask(steps, step)?)
}

// What the reply to a list says.
fn listed_in(reply: Reply) -> Result<NextSlot, SalvageFault>
    ensures is { result ≡ listed_by reply }
    ensures no_refusal { refusal_by result ≡ None }
{
    match reply {
        Reply::Names(slot, names) => Ok(NextSlot::Names(slot, names)),
        Reply::LostNames(slot) => Ok(NextSlot::LostNames(slot)),
        Reply::NoMore => Ok(NextSlot::NoMore),
        _ => Err(SalvageFault::OutOfMemory),
    }
}

/// The first slot of a directory, from the given one on, that isn't a hole.
pub(crate) fn list<S: Steps>(
    steps: &mut S,
    at: InodeHandle,
    slot: u64,
) -> Result<NextSlot, SalvageFault>
    ensures part { IfOk result IsFolderPart }
    ensures reads { MakesReads (S.made steps.old) (S.made steps.new) (refusal_by result) }
    ensures goes { S.goes steps.old steps.new }
    ensures right { (W : World) → AreAnswered W (S.made steps.old) (S.made steps.new) → MayAsk W.files true at
        → AreFair W.files (S.made steps.old) (S.made steps.new) }
    ensures asks { AsksOn (S.made steps.old) (S.made steps.new) at }
    ensures there { IfOk result (λ listed. (W : World) → AreAnswered W (S.made steps.old) (S.made steps.new)
        → is_there W.files at.inode at.generation ≡ true) }
    ensures listed { IfOk result (λ listed. (W : World) → AreAnswered W (S.made steps.old) (S.made steps.new)
        → IsListedFrom W.files at.inode slot listed) }
    ensures gives { IfOk result
        (λ listed. (first : List Made) → Asks first (S.made steps.old) → ListGives first (S.made steps.new) at listed) }
{
    let step = Step::List {
        directory: at.inode,
        generation: at.generation,
        slot,
    };
    listed_in(ask(steps, step)?)
}

fn is_too_large(why: Refusal) -> bool
    ensures { result ≡ too_large_by why }
{
    matches!(why, Refusal::TooLarge)
}

// What the reply to a get says.
fn told(reply: Reply) -> Result<SlotState, SalvageFault>
    ensures { result ≡ got_by reply }
{
    match reply {
        Reply::Bytes(_) | Reply::Hole => Ok(SlotState::Kept),
        Reply::Lost => Ok(SlotState::Lost),
        Reply::Refused(why) => {
            if is_too_large(why) {
                Ok(SlotState::NoSlot)
            } else {
                Err(fault_of(why))
            }
        }
        _ => Err(SalvageFault::OutOfMemory),
    }
}

/// What a slot of a file has.
pub(crate) fn get<S: Steps>(
    steps: &mut S,
    at: InodeHandle,
    slot: u64,
) -> Result<SlotState, SalvageFault>
    ensures reads { MakesReads (S.made steps.old) (S.made steps.new) (refusal_by result) }
    ensures goes { S.goes steps.old steps.new }
    ensures asks { (first : List Made) (size : ℕ) → slot < slots_of_size size → Asks first (S.made steps.old)
        → HasReached first (S.made steps.old) at
        → HasTold first (S.made steps.old) at size → Asks first (S.made steps.new) }
    ensures right { (W : World) → AreAnswered W (S.made steps.old) (S.made steps.new) → MayAsk W.files false at
        → AreFair W.files (S.made steps.old) (S.made steps.new) }
    ensures got { IfOk result
        (λ got. (W : World) → AreAnswered W (S.made steps.old) (S.made steps.new) → IsGot W at.inode slot got) }
    ensures told { IfOk result
        (λ got. (first : List Made) (size : ℕ) → has_slot got ≡ true → HasTold first (S.made steps.old) at size
        → HasTold first (S.made steps.new) at size) }
{
    let step = Step::Get {
        inode: at.inode,
        generation: at.generation,
        slot,
    };
    let reply = steps.step(step);
    told(reply)
}
