//! What the tests share: a disk that is full, two passes, and verdicts that are committed.
//!
//! Promise: each ends with a value or an error, so it is the test that judges.

ghost use Rattle.std.specs.Prelude.{◌≡◌, ◌<◌, [], IfSome, length};
ghost use Rattle.nofs_turn.specs.Passes.{MayRun};
ghost use Rattle.nofs_turn.specs.Turn.{view_of, IsPassOf};

use nofs_history::Reply;
use nofs_memdisk::MemDisk;
use nofs_shared::{Mount, Serves, SharedMount, SharedPass};
use nofs_test_asks::{Ask, LABEL, examined, follow};
use nofs_test_disks::formatted;
use nofs_turn::Pass;
use std::alloc::Global;
use std::sync::Wait;
use std::test::Fail;

/// A mount of a new disk of 64 blocks, whose blocks 5 to 23 were examined and hold the first 18 slots of
/// the label file and a leaf. A put into the next slot finds the disk full.
pub fn full_below_24(alloc: Global) -> Result<Mount<MemDisk>, Fail> {
    let mut mount = examined(alloc, formatted(alloc, 64, 16)?, 5, 24)?;
    fill_below_24(alloc, &mut mount)?;
    Ok(mount)
}

fn fill_below_24(alloc: Global, mount: &mut Mount<MemDisk>) -> Result<(), Fail> {
    for slot in 0..18 {
        follow(alloc, mount, &[(whole(slot), "stored")])?;
    }
    let full = "Full { needed: 1, free: 0, unverified: 40, next: 24 }";
    follow(alloc, mount, &[(whole(18), full)])
}

/// A put of a whole slot of the label file.
pub fn whole(slot: u64) -> Ask<'static> {
    Ask::Put(LABEL, slot, 1024, b'A')
}

/// A mount behind a turn, with two passes that have no entries.
pub fn two_passes<V: Serves>(alloc: Global, mount: V) -> Option<(SharedMount<V>, Pass<V>, Pass<V>)>
    ensures of { IfSome result (λ t. IsPassOf t.0.turn t.1 × IsPassOf t.0.turn t.2) }
    ensures new { IfSome result (λ t. ((view_of t.1).mine ≡ []) × ((view_of t.2).mine ≡ [])) }
{
    let (shared, mut passes) = match SharedMount::new(alloc, mount, 2) {
        Ok(made) => made,
        Err(_) => return None,
    };
    let second = passes.pop()?;
    let first = passes.pop()?;
    Some((shared, first, second))
}

// The verdict in the reply of a step that examined.
fn seen(reply: &Reply) -> Option<bool> {
    match reply {
        Reply::Seen { used } => Some(*used),
        _ => None,
    }
}

/// Whether an element is found used, and whether it stands as used when that is committed; `None` where it was not
/// looked at.
pub type Verdict = Option<(bool, bool)>;

/// Commits what was found at a place of a batch.
pub fn committed<R: Wait, V: Serves>(
    pass: &mut SharedPass<'_, R, V>,
    evidence: &V::Evidence,
    at: u32,
) -> Verdict
    requires own { MayRun (V.is_of evidence.now) (view_of pass.old.pass) }
    requires within { at < length (V.items_in evidence.now) }
    ensures { pass.new.turn.now ≡ pass.old.turn.now }
{
    let used = V::judge(evidence, at);
    match seen(&pass.commit(evidence, at, used)) {
        Some(stands) => Some((used, stands)),
        None => None,
    }
}
