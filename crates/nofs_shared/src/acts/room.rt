//! The memory for entries: some of it is kept for the sweeps.
ghost use Rattle.std.specs.Prelude.{◌≡◌, ◌+◌, ◌-◌, ◌^◌, ◌<◌, ◌≤◌, true, false, Some, None, length, IfSome};
ghost use Rattle.nofs_shared.specs.Acts.Sees.{is_of_sweep, is_see};

use nofs_history::{BLOCK_SWEEPER, History, INODE_SWEEPER, Step};

// As many entries as no memory holds.
const MOST_ENTRIES: u64 = 1 << 62;

fn is_see(step: &Step) -> bool
    ensures { result ≡ is_see step.now }
{
    matches!(step, Step::SeeInode { .. } | Step::SeeBlock { .. })
}

/// Whether the entry of a step is one for which the mount keeps memory.
pub(crate) fn is_of_sweep(caller: u32, step: &Step) -> bool
    ensures { result ≡ is_of_sweep caller step.now }
{
    (caller == INODE_SWEEPER || caller == BLOCK_SWEEPER) && is_see(step)
}

/// Makes sure of memory for the entry of a step, beside the entries for which it stays kept: the
/// answer is how many these are then. `None` for want of memory, which an entry of a sweep does not
/// meet while some is kept.
pub(crate) fn take_room(history: &mut History, kept: u64, caller: u32, step: &Step) -> Option<u64>
    requires kept { kept ≤ history.old.spare }
    requires few { length history.old.entries + kept ≤ 2 ^ 62 }
    ensures stays { (history.new.entries ≡ history.old.entries) × (history.new.start ≡ history.old.start) }
    ensures kept { kept ≤ history.new.spare }
    ensures room { IfSome result (λ left. left < history.new.spare) }
    ensures few { IfSome result (λ left. length history.new.entries + left < 2 ^ 62) }
    ensures sweep { is_of_sweep caller step.now ≡ true → 0 < kept → result ≡ Some (kept - 1) }
    ensures others { is_of_sweep caller step.now ≡ false → IfSome result (λ left. left ≡ kept) }
{
    if is_of_sweep(caller, step) && kept > 0 {
        return Some(kept - 1);
    }
    reserve_one(history, kept)
}

// Takes memory for one entry more than these.
fn reserve_one(history: &mut History, kept: u64) -> Option<u64>
    requires kept { kept ≤ history.old.spare }
    requires few { length history.old.entries + kept ≤ 2 ^ 62 }
    ensures stays { (history.new.entries ≡ history.old.entries) × (history.new.start ≡ history.old.start) }
    ensures kept { kept ≤ history.new.spare }
    ensures room { IfSome result (λ left. (left ≡ kept) × (left < history.new.spare)) }
    ensures few { IfSome result (λ left. length history.new.entries + left < 2 ^ 62) }
{
    if history.len() + kept >= MOST_ENTRIES {
        return None;
    }
    match history.reserve(kept + 1) {
        Ok(()) => Some(kept),
        Err(_) => None,
    }
}
