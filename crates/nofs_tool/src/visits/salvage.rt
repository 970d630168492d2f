//! Telling what is lost on a disk.
//!
//! Promise: the walk is `FIRST_USER`'s and only reads, and the text tells of it. Where the premises are met and no call
//! of the device failed, that is the report of the world that the mount found; or the refusal of the root or of the
//! label file, where one of them isn't there.

ghost use Rattle.std.specs.Prelude.{◌≡◌, ◌≢◌, ◌++◌, ℕ, Bool, List, [], Err, IfOk, IfSome, OnOk, codes, map};
ghost use Rattle.std.specs.Prelude.{string_bytes};
ghost use Rattle.std.specs.Fn.{FnReturnsAt};
ghost use Rattle.std.specs.Fmt.{decimal};
ghost use Rattle.nofs_tool.specs.Begin.Words.{picks_in};
ghost use Rattle.nofs_tool.specs.Session.Whole.{Finished};
ghost use Rattle.nofs_tool.specs.Session.Serve.{IsClosed};
ghost use Rattle.nofs_tool.specs.Visits.Visit.{IsVisitFollowed};
ghost use Rattle.nofs_tool.specs.Visits.Salvage.{AreReads, IsWalkTold, loss_line, losses_text};
ghost use Rattle.nofs_tool.specs.Visits.Salvage.{walk_text as walk_text_in};

use crate::session::serve::{Ran, ended};
use crate::visits::visit::visit_and_close;
use nofs_client::Line;
use nofs_dirent::Name;
use nofs_disk::Disk;
use nofs_history::Steps;
use nofs_salvage::{All, Loss, NameFilter, NameRule, Prefix, Report, SalvageFault, salvage};
use nofs_script::{Told, line_text, push_number};
use nofs_serve::{Visited, Visits};
use nofs_shared::Mount;
use std::alloc::{AllocError, Global};
use std::sync::Wait;
use std::thread::Threads;

// A walk, with what came of it.
#[derive(Drop)]
struct Walker<'a, P, R> {
    alloc: Global,
    filter: &'a NameFilter<P, R>,
    told: Result<Report, SalvageFault>,
}

impl<P: Fn(&[u8]) -> bool, R: NameRule> Visits for Walker<'_, P, R> {
    ghost use Rattle.std.specs.Prelude.{◌≡◌, ℕ, Bool, List, Err};
    ghost use Rattle.std.specs.Fn.{FnReturnsAt};
    ghost use Rattle.nofs_salvage.specs.declared.report.fault.SalvageFault.TheVariants.{OutOfMemory};
    ghost use Rattle.nofs_tool.specs.Visits.Salvage.{IsWalk, walk_none};

    ghost is_ready = { λ w. (w.told ≡ Err OutOfMemory) × P.IsAlwaysCallable w.filter.now.keep
        × ((name : List ℕ) (yes : Bool) → FnReturnsAt P.Fn w.filter.now.keep name yes
        → yes ≡ R.picks w.filter.now.rule name) };

    ghost visited = { λ old new made new_made. IsWalk (R.picks old.filter.now.rule) new.told made new_made };

    ghost visited_none = { λ w made ready. walk_none (R.picks w.filter.now.rule) w.told made ready.0 };

    fn visit<S: Steps>(&mut self, steps: &mut S) {
        self.told = salvage(self.alloc, steps, self.filter);
    }
}

fn push_slot(alloc: Global, text: &mut Vec<u8>, inode: u32, slot: u64) -> Result<(), AllocError>
    ensures { OnOk result (text.new.items ≡ text.old.items ++ loss_line (Loss.Slot inode slot)) }
{
    push_number(alloc, text, "lost ", u64::from(inode))?;
    push_number(alloc, text, " slot ", slot)?;
    text.extend_from_slice(b"\n")
}

fn push_name(
    alloc: Global,
    text: &mut Vec<u8>,
    word: &str,
    directory: u32,
    name: &Name,
) -> Result<(), AllocError>
    ensures { OnOk result
        (text.new.items ≡ text.old.items ++ (word.now ++ decimal directory ++ codes " " ++ name.now ++ codes "\n")) }
{
    push_number(alloc, text, word, u64::from(directory))?;
    text.extend_from_slice(b" ")?;
    text.extend_from_slice(name.as_slice())?;
    text.extend_from_slice(b"\n")
}

fn push_loss(alloc: Global, text: &mut Vec<u8>, loss: &Loss) -> Result<(), AllocError>
    ensures { OnOk result (text.new.items ≡ text.old.items ++ loss_line loss.now) }
{
    match loss {
        Loss::Slot { inode, slot } => push_slot(alloc, text, *inode, *slot),
        Loss::Dead { directory, name } => push_name(alloc, text, "dead ", *directory, name),
        Loss::Twice { directory, name } => push_name(alloc, text, "twice ", *directory, name),
    }
}

// A line for each loss.
fn losses_in(alloc: Global, report: &Report) -> Result<Vec<u8>, AllocError>
    ensures { IfOk result (λ text. text.items ≡ losses_text report.now) }
{
    let mut text = Vec::new(alloc);
    for loss in report.as_slice() {
        push_loss(alloc, &mut text, loss)?;
    }
    Ok(text)
}

// What a walk tells; nothing where memory was wanting.
fn walk_text(alloc: Global, told: &Result<Report, SalvageFault>) -> Result<Told, AllocError>
    ensures { IfOk result (λ text. (text ≡ walk_text_in told.now) × (told.now ≢ Err SalvageFault.OutOfMemory)) }
{
    let text = match told {
        Ok(report) => losses_in(alloc, report)?,
        Err(SalvageFault::Refused(why)) => line_text(alloc, &Line::Refused(*why))?,
        Err(SalvageFault::OutOfMemory) => return Err(AllocError),
    };
    Ok(Told::of_text(alloc, text))
}

// Walks with a filter, and makes all durable.
fn run_walk<R: Threads + Wait + Sync, D: Disk + Drop + Send, P: Fn(&[u8]) -> bool, N: NameRule>(
    rt: &R,
    alloc: Global,
    mount: Mount<D>,
    filter: &NameFilter<P, N>,
) -> Ran<D>
    requires new { mount.core.books.history.entries ≡ [] }
    requires first { mount.first ≡ 0 }
    requires may { P.IsAlwaysCallable filter.now.keep }
    requires decides { (name : List ℕ) (yes : Bool) → FnReturnsAt P.Fn filter.now.keep name yes
        → yes ≡ N.picks filter.now.rule name }
    ensures ends { ∥ Finished (D.state mount.found.value) (D.state result.disk) mount.first result.history ∥₁ }
    ensures follows { IsVisitFollowed AreReads mount.core.books.at result.text result.history.entries }
    ensures closed { IfSome result.text (λ _. IsClosed (D.state result.disk) result.history.entries) }
    ensures told { IfSome result.text
        (IsWalkTold (N.picks filter.now.rule) (D.state mount.found.value) result.history) }
{
    let mut walker = Walker {
        alloc,
        filter,
        told: Err(SalvageFault::OutOfMemory),
    };
    let Visited {
        mount,
        out_of_memory,
    } = visit_and_close(rt, alloc, mount, &mut walker);
    if out_of_memory {
        return ended(mount, None);
    }
    let text = walk_text(alloc, &walker.told).ok();
    ended(mount, text)
}

/// Walks all names, or those with a prefix, and makes all durable.
pub(crate) fn run_salvage<R: Threads + Wait + Sync, D: Disk + Drop + Send>(
    rt: &R,
    alloc: Global,
    mount: Mount<D>,
    words: &[String],
) -> Ran<D>
    requires new { mount.core.books.history.entries ≡ [] }
    requires first { mount.first ≡ 0 }
    ensures ends { ∥ Finished (D.state mount.found.value) (D.state result.disk) mount.first result.history ∥₁ }
    ensures follows { IsVisitFollowed AreReads mount.core.books.at result.text result.history.entries }
    ensures closed { IfSome result.text (λ _. IsClosed (D.state result.disk) result.history.entries) }
    ensures told { IfSome result.text
        (IsWalkTold (picks_in (map string_bytes words.now)) (D.state mount.found.value) result.history) }
{
    match words {
        [_, prefix] => {
            let prefix = prefix.as_bytes();
            let Ok(bytes) = Name::from_slice(alloc, prefix) else {
                return ended(mount, None);
            };
            let filter = NameFilter::new(|name: &[u8]| name.starts_with(prefix), Prefix { bytes });
            run_walk(rt, alloc, mount, &filter)
        }
        _ => run_walk(rt, alloc, mount, &NameFilter::new(|_: &[u8]| true, All)),
    }
}
