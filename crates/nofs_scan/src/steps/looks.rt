//! Several elements are looked at in one turn.
ghost use Rattle.std.specs.Prelude.{◌≡◌, ◌<◌, ◌^◌, length, false, true, All, Err, IfErr, IfOk, OnOk};
ghost use Rattle.nofs_agree.specs.Reads.{IsAt};
ghost use Rattle.nofs_history.specs.declared.machine.replies.Refusal.TheVariants as refusal;
ghost use Rattle.nofs_state.specs.Books.Maps.{IsSafe};
ghost use Rattle.nofs_scan.specs.Steps.Elements.{HasElement, items_of};
ghost use Rattle.nofs_scan.specs.Steps.Looks.{IsBatch, LookFails, LooksAll, OnlyLearns};

use crate::sights::evidence::{Evidence, Verdicts};
use crate::sights::last_reads::LastReads;
use crate::sights::reads::read_sight;
use crate::sights::sights::Sight;
use nofs_agree::Known;
use nofs_dirent::ListOf;
use nofs_disk::Disk;
use nofs_history::{ElementKind, Refusal};
use nofs_state::Core;
use nofs_super::SuperBlock;
use std::alloc::Global;
use std::snapshot::Snapshot;

/// Looks at 1 to 64 elements. It makes no entry, and no verdict changes: they are committed later, one by one. What it
/// finds of inodes on the ways up, which are agreed and which are not, the books know from then on.
///
/// # Errors
///
/// `Stopped` exactly where the mount is stopped; `ReadFault` where a read failed; `OutOfMemory`.
pub fn look_batch<D: Disk + Drop>(
    alloc: Global,
    core: &mut Core<D>,
    kind: ElementKind,
    items: &[u64],
) -> Result<Evidence<D>, Refusal>
    requires safe { IsSafe (D.state core.old.disk) core.old.books }
    requires asked { IsBatch kind core.old.books.at items.now }
    ensures only { OnlyLearns (D.state core.old.disk) core.old.books (D.state core.new.disk) core.new.books }
    ensures no_fault { OnOk result ((D.state core.new.disk).faults ≡ (D.state core.old.disk).faults) }
    ensures core { IfOk result (λ evidence. evidence.core.value ≡ core.old) }
    ensures asked { IfOk result (λ evidence. (evidence.kind ≡ kind) × (items_of evidence.verdicts ≡ items.now)) }
    ensures stopped { core.old.books.stopped ≡ true → result ≡ Err refusal.Stopped }
    ensures going { IfOk result (λ evidence. core.old.books.stopped ≡ false) }
    ensures refused { IfErr result (LookFails (D.state core.old.disk) core.old.books (D.state core.new.disk)) }
{
    if core.books.stopped {
        return Err(Refusal::Stopped);
    }
    let early = Snapshot::of(&*core);
    let known = &mut core.books.agreement;
    let sights = match look_at_all(alloc, &mut core.disk, &core.books.at, known, kind, items) {
        Ok(sights) => sights,
        Err(why) => return Err(why),
    };
    Ok(Evidence {
        core: early,
        kind,
        verdicts: Verdicts { sights },
    })
}

// What is read of these elements, in their order. It takes memory once.
fn look_at_all<D: Disk>(
    alloc: Global,
    disk: &mut D,
    at: &SuperBlock,
    known: &mut Known,
    kind: ElementKind,
    items: &[u64],
) -> Result<ListOf<Sight>, Refusal>
    requires numbers { IsAt (D.state disk.old) at.now }
    requires known { length known.old ≡ at.now.inodes }
    requires range { All (HasElement kind at.now) items.now }
    requires small { at.now.inodes < 2 ^ 32 }
    ensures { LooksAll (D.state disk.old) at.now known.old known.new (D.state disk.new) kind items.now result }
{
    let mut sights = match Vec::with_capacity(alloc, items.len()) {
        Ok(room) => ListOf::from_vec(room),
        Err(_) => return Err(Refusal::OutOfMemory),
    };
    let mut reads = LastReads::NONE;
    for place in 0..items.len() {
        let sight = match read_sight(disk, at, known, kind, items[place], &mut reads) {
            Ok(sight) => sight,
            Err(_) => return Err(Refusal::ReadFault),
        };
        match sights.push(sight) {
            Ok(()) => {}
            Err(_) => return Err(Refusal::OutOfMemory),
        }
    }
    Ok(sights)
}
