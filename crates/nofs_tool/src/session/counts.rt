//! The line of a scan (docs/FORMAT.md, "Other lines of the program").
//!
//! Promise: the line spells the counts that it is given. There is none where a write or a flush of the device failed:
//! the maps of such a mount are not used again.

ghost use Rattle.std.specs.Prelude.{◌≡◌, ◌+◌, ◌<◌, ◌++◌, ◌||◌, IfOk, OnOk, drop, length};
ghost use Rattle.nofs_history.specs.Machine.{is_write_fault};
ghost use Rattle.nofs_tool.specs.Session.Counts.{IsScanText, counts_line, has_write_fault, kind_text};

use nofs_history::{History, Refusal, Reply};
use nofs_script::{Told, push_number};
use nofs_state::Counts;
use std::alloc::{AllocError, Global};

// Adds how many of one kind are used, free and not examined.
fn push_counts(
    alloc: Global,
    text: &mut Vec<u8>,
    kind: &str,
    counts: (u64, u64, u64),
) -> Result<(), AllocError>
    ensures { OnOk result (text.new.items ≡ text.old.items ++ kind_text kind.now counts.0 counts.1 counts.2) }
{
    let (used, free, unchecked) = counts;
    push_number(alloc, text, kind, used)?;
    push_number(alloc, text, " free ", free)?;
    push_number(alloc, text, " unchecked ", unchecked)?;
    Ok(())
}

// The line that says how many inodes and blocks are used, free and not examined.
fn counts_text(alloc: Global, counts: &Counts) -> Result<Told, AllocError>
    ensures { IfOk result (λ text. text ≡ counts_line counts.now) }
{
    let inodes = (
        counts.inodes_used,
        counts.inodes_free,
        counts.inodes_unchecked,
    );
    let blocks = (
        counts.blocks_used,
        counts.blocks_free,
        counts.blocks_unchecked,
    );
    let mut text = Vec::new(alloc);
    push_counts(alloc, &mut text, "inodes used ", inodes)?;
    push_counts(alloc, &mut text, ", blocks used ", blocks)?;
    text.push(b'\n')?;
    Ok(Told::of_text(alloc, text))
}

fn is_write_fault(reply: &Reply) -> bool
    ensures { result ≡ is_write_fault reply.now }
{
    matches!(reply, Reply::Refused(Refusal::WriteFault))
}

// Whether it failed in the step at a place.
fn is_unwritten(history: &History, at: u64) -> bool
    requires { at < length history.now.entries }
    ensures { has_write_fault (drop at history.now.entries)
        ≡ (result || has_write_fault (drop (at + 1) history.now.entries)) }
{
    match history.entry(at) {
        Some(entry) => is_write_fault(&entry.reply),
        None => false,
    }
}

// Whether a write of the device or a flush failed in some step. Few histories have a fault of any kind: the others are
// not looked through.
fn has_write_fault(history: &History) -> bool
    ensures { result ≡ has_write_fault history.now.entries }
{
    if !history.has_fault() {
        return false;
    }
    let mut found = false;
    for at in 0..history.len() {
        found |= is_unwritten(history, at);
    }
    found
}

/// The text of a scan: its line, or nothing where a write of the device or a flush failed.
pub(crate) fn scan_text(
    alloc: Global,
    history: &History,
    counts: &Counts,
) -> Result<Told, AllocError>
    ensures { IfOk result (IsScanText history.now.entries (λ c. c ≡ counts.now)) }
{
    if has_write_fault(history) {
        Ok(Told::of_text(alloc, Vec::new(alloc)))
    } else {
        counts_text(alloc, counts)
    }
}
