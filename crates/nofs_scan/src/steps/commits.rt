//! A verdict that was found before is committed.
ghost use Rattle.std.specs.Prelude.{◌≡◌, ◌<◌, ◌^◌, length};
ghost use Rattle.nofs_state.specs.Books.Verdicts.{OffersVerdict};
ghost use Rattle.nofs_scan.specs.Steps.Elements.{HasElement, learned, verdict_at, verdict_of};
ghost use Rattle.nofs_scan.specs.Steps.Commits.{Commits, MayCommit};

use crate::sights::evidence::Evidence;
use nofs_disk::Disk;
use nofs_history::ElementKind;
use nofs_state::{Books, Core};

/// Commits a verdict of an evidence: it is set where the element was not examined since, and else
/// the one that stands stays. The answer is the verdict that stands then. It makes no call of the
/// device and takes no memory.
pub fn commit<D: Disk + Drop>(
    core: &mut Core<D>,
    evidence: &Evidence<D>,
    at: u32,
    used: bool,
) -> bool
    requires { MayCommit (D.state core.old.disk) core.old.books evidence.now.core.value.books
        evidence.now.verdicts at used }
    ensures disk { core.new.disk ≡ core.old.disk }
    ensures commits { Commits (D.state evidence.now.core.value.disk) evidence.now.core.value.books
        (D.state core.old.disk)
        core.old.books core.new.books evidence.now.kind (verdict_at evidence.now.verdicts at).item used result }
{
    let item = evidence.verdicts.item(at);
    settle(&mut core.books, evidence.kind, item, used)
}

// Sets a verdict where none stands, and answers the one that stands then.
fn settle(books: &mut Books, kind: ElementKind, item: u64, used: bool) -> bool
    requires range { HasElement kind books.old.at item }
    requires inodes { length books.old.unknown_inodes ≡ books.old.at.inodes }
    requires free_inodes { length books.old.free_inodes ≡ books.old.at.inodes }
    requires agreed { length books.old.agreement ≡ books.old.at.inodes }
    requires blocks { length books.old.unknown_blocks ≡ books.old.at.blocks }
    requires free_blocks { length books.old.free_blocks ≡ books.old.at.blocks }
    requires small { books.old.at.inodes < 2 ^ 32 }
    ensures { OffersVerdict books.old books.new (verdict_of kind books.old item)
        (learned kind books.old item) used result }
{
    match kind {
        ElementKind::Inode => books.settle_inode(item as u32, used),
        ElementKind::Block => books.settle_block(item, used),
    }
}
