//! What was found of some elements in one state of a mount.
//!
//! Promise: each verdict is that of the disk as it was then, and is computed from what was read.
ghost use Rattle.std.specs.Prelude.{◌≡◌, ◌<◌, length, All};
ghost use Rattle.nofs_state.specs.Books.Maps.{IsSafe};
ghost use Rattle.nofs_scan.specs.Steps.Elements.{IsRight, verdict_at};

use crate::sights::sights::Sight;
use nofs_dirent::ListOf;
use nofs_disk::Disk;
use nofs_history::ElementKind;
use nofs_state::Core;
use std::marker::Model;
use std::snapshot::Snapshot;

/// Whether an element is used.
#[derive(Clone, Copy, Debug, PartialEq, Eq)]
pub struct Verdict {
    pub item: u64,
    pub used: bool,
}

/// What was read of some elements. Contracts see of each its number, and the verdict that follows
/// from what was read of it.
#[derive(Drop)]
pub struct Verdicts {
    pub sights: ListOf<Sight>,
}

impl Model for Verdicts {
    ghost use Rattle.std.specs.Prelude.{List, map};
    ghost use Rattle.nofs_scan.specs.declared.sights.evidence.Verdict.{Verdict};
    ghost use Rattle.nofs_scan.specs.Sights.Verdicts.{verdict_by};

    ghost Value = { List Verdict };

    ghost view = { λ v. map verdict_by v.sights };
}

impl Verdicts {
    /// How many elements they are.
    pub fn len(&self) -> u64
        ensures { result ≡ length self.now }
    {
        self.sights.len()
    }

    /// The number of the element at a place.
    pub fn item(&self, at: u32) -> u64
        requires { at < length self.now }
        ensures { result ≡ (verdict_at self.now at).item }
    {
        self.sights.as_slice()[at as usize].item()
    }

    /// The verdict at a place, by what was read of its element.
    pub fn is_used(&self, at: u32) -> bool
        requires { at < length self.now }
        ensures { result ≡ (verdict_at self.now at).used }
    {
        self.sights.as_slice()[at as usize].is_used()
    }
}

/// What was read of some elements, and the core from which it was read.
#[derive(Drop)]
pub struct Evidence<D: Disk + Drop> {
    /// The core, of which it keeps no bytes.
    pub core: Snapshot<Core<D>>,
    pub kind: ElementKind,
    pub verdicts: Verdicts,
    pub ghost safe: { IsSafe (D.state core.value.disk) core.value.books },
    pub ghost right: { All (IsRight (D.state core.value.disk) core.value.books kind) verdicts },
}

/// Whether the element at a place is used, by what was read of it. It asks no device, and no turn.
pub fn judge<D: Disk + Drop>(evidence: &Evidence<D>, at: u32) -> bool
    requires { at < length evidence.now.verdicts }
    ensures value { result ≡ (verdict_at evidence.now.verdicts at).used }
    ensures right { IsRight (D.state evidence.now.core.value.disk) evidence.now.core.value.books evidence.now.kind
        (record { item = (verdict_at evidence.now.verdicts at).item; used = result }) }
{
    evidence.verdicts.is_used(at)
}
