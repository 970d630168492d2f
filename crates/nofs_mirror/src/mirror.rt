//! The mirror.
//!
//! Promise: it keeps every promise of a disk, over any two disks below. It goes on as long as one
//! of them does, and each side that is in holds its cells.
//!
//! Which sides are in:
//!
//! ```text
//!             a write or flush of the other fails, at `open` too
//!   both in -----------------------------------------------------> lead in
//!      |   \                      both fail: the call answers Failed   ^
//!      |    +-----------------------------------------------------------+
//!      +--> other in      a write or flush of the lead alone fails
//! ```
//!
//! - both in: each call goes to both, and a read asks the lead first.
//! - one in: each call goes to that side alone. It stays in for good, also where a call of it fails.
//! - A read puts no side out. The side that went out is not touched again.
ghost use Rattle.std.specs.Prelude.{◌≡◌, ◌+◌, ◌<◌, ◌≤◌, ◌⊎◌, ◌||◌, [], IfOk, IfErr, IsFalse, IsTrue, OnOk, OnErr};
ghost use Rattle.nofs_disk.specs.Disk.{Flushes, IsSettled, Reads, Rose, StaysButFaults, Writes, WritesOut};
ghost use Rattle.nofs_mirror.specs.Sides.Calls.{Rests};
ghost use Rattle.nofs_mirror.specs.Copying.{HasCopied};
ghost use Rattle.nofs_mirror.specs.Laws.{MirrorKeeps};
ghost use Rattle.nofs_mirror.specs.Mirror.{ChangesSides, Counts, EitherReads, IsFrom, IsReadFault, IsSide, LeadBack};
ghost use Rattle.nofs_mirror.specs.Mirror.{LeavesOut, OpensMirror};
ghost use Rattle.nofs_mirror.specs.Mirror.{OtherBack, ReadFails, Refuses, SideLeaves, SideServes, last_span};
ghost use Rattle.nofs_mirror.specs.Sides.Past.{mirror_calls};

use crate::copying::{CopyFault, copy_and_flush};
use crate::sides::calls::{SideAnswer, flush_side, read_side, write_side};
use crate::sides::choices::{MirrorCause, MirrorStart};
use crate::sides::log::{Log, Sides, flush_effect};
use crate::sides::past::{Effect, Span};
use nofs_disk::{Cell, Disk, Failed};
use std::alloc::AllocError;
use std::snapshot::Snapshot;

/// Two disks as one, of which one may fail for good. Its moments and its count of faults are its
/// own. It keeps no write back: where a side does, the mirror's flush makes it write them out.
#[derive(Drop)]
pub struct Mirror<A: Disk + Drop, B: Disk + Drop> {
    lead: A,
    other: B,
    /// The lead as it was given.
    first: Snapshot<A>,
    opening: MirrorStart,
    log: Log,
    ghost lead_side: { IsSide opening.blocks log.spare (λ c. c.lead) opening.lead (mirror_calls log.past.value)
        (A.state lead) },
    ghost other_side: { IsSide opening.blocks log.spare (λ c. c.other) opening.other (mirror_calls log.past.value)
        (B.state other) },
    ghost lead_in: { log.sides.lead_in ≡ (last_span (λ c. c.lead) opening.lead (mirror_calls log.past.value)).is_in },
    ghost other_in: { log.sides.other_in
        ≡ (last_span (λ c. c.other) opening.other (mirror_calls log.past.value)).is_in },
    ghost some_in: { IsTrue (log.sides.lead_in || log.sides.other_in) },
    ghost kept: { ∥ MirrorKeeps (A.state lead) (B.state other) (A.state first.value) opening
        (mirror_calls log.past.value) ∥₁ },
}

/// A mirror was not opened. Both disks come back.
#[derive(Drop)]
pub struct MirrorFault<A: Disk + Drop, B: Disk + Drop> {
    pub lead: A,
    pub other: B,
    pub cause: MirrorCause,
}

// Makes both disks ready.
fn ready_both<A: Disk, B: Disk>(lead: &mut A, other: &mut B, calls: u64) -> Result<(), AllocError>
    ensures lead { Rests (A.state lead.old) (A.state lead.new) }
    ensures other { Rests (B.state other.old) (B.state other.new) }
    ensures lead_room { OnOk result (calls ≤ (A.state lead.new).spare) }
    ensures other_room { OnOk result (calls ≤ (B.state other.new).spare) }
{
    match lead.ready(calls) {
        Ok(()) => other.ready(calls),
        Err(error) => Err(error),
    }
}

// Reads from the lead where it is in, and then from the other where it is in.
fn read_either<A: Disk, B: Disk>(
    lead: &mut A,
    other: &mut B,
    sides: Sides,
    block: u64,
    into: &mut Cell,
) -> Result<(), Failed>
    requires lead { block < (A.state lead.old).blocks }
    requires other { block < (B.state other.old).blocks }
    ensures lead_first { IsTrue sides.lead_in
        → (other.new ≡ other.old) ⊎ Rose (A.state lead.old).faults (A.state lead.new).faults }
    ensures out { LeavesOut sides lead.old lead.new other.old other.new }
    ensures reads { EitherReads (A.state lead.old) (A.state lead.new) (B.state other.old)
        (B.state other.new) sides block into.new result }
{
    match read_side(lead, sides.lead_in, block, into) {
        SideAnswer::Out => ask_other(other, sides.other_in, block, into),
        SideAnswer::Done => Ok(()),
        SideAnswer::Fault => ask_other(other, sides.other_in, block, into),
    }
}

fn ask_other<B: Disk>(other: &mut B, is_in: bool, block: u64, into: &mut Cell) -> Result<(), Failed>
    requires { block < (B.state other.old).blocks }
    ensures stays { StaysButFaults (B.state other.old) (B.state other.new) }
    ensures cell { OnOk result (IsFrom is_in (B.state other.old) block into.new) }
    ensures untouched { IsFalse is_in → other.new ≡ other.old }
    ensures cause { OnErr result (IsTrue is_in → Rose (B.state other.old).faults (B.state other.new).faults) }
{
    match read_side(other, is_in, block, into) {
        SideAnswer::Out => Err(Failed),
        SideAnswer::Done => Ok(()),
        SideAnswer::Fault => Err(Failed),
    }
}

impl<A: Disk + Drop, B: Disk + Drop> Mirror<A, B> {
    /// A mirror of so many blocks over a lead and an other, onto which the lead's cells are copied.
    /// Where the other could not be written or flushed it starts out. Each of its blocks has then its
    /// own cell or the lead's; where the lead could not be read, those from that block on have their own.
    pub fn open(lead: A, other: B, blocks: u64) -> Result<Mirror<A, B>, MirrorFault<A, B>>
        ensures opens { IfOk result (λ m. OpensMirror (A.state lead) (B.state other) (A.state m.lead) (B.state m.other)
            (⟦<Mirror<A, B> as Disk>⟧.state m) blocks m.log.sides) }
        ensures refuses { IfErr result (λ fault. Refuses fault.cause blocks (A.state lead) (B.state other)
            (A.state fault.lead) (B.state fault.other)) }
        ensures lead_back { IfErr result (λ fault. LeadBack fault.cause lead fault.lead) }
        ensures other_back { IfErr result (λ fault. OtherBack fault.cause other fault.other) }
    {
        let lead_blocks = lead.blocks();
        let other_blocks = other.blocks();
        if lead_blocks < blocks || other_blocks < blocks {
            let cause = MirrorCause::TooSmall {
                lead: lead_blocks,
                other: other_blocks,
            };
            return Err(MirrorFault { lead, other, cause });
        }
        let mut other = other;
        match other.ready(blocks.saturating_add(1)) {
            Ok(()) => Mirror::copied(lead, other, blocks),
            Err(_) => Err(MirrorFault {
                lead,
                other,
                cause: MirrorCause::OutOfMemory,
            }),
        }
    }

    // A mirror over two disks that have the blocks, of which the other has room for the calls.
    fn copied(lead: A, other: B, blocks: u64) -> Result<Mirror<A, B>, MirrorFault<A, B>>
        requires lead { blocks ≤ (A.state lead).blocks }
        requires other { blocks ≤ (B.state other).blocks }
        requires spare { blocks + 1 ≤ (B.state other).spare }
        ensures opens { IfOk result (λ m. OpensMirror (A.state lead) (B.state other) (A.state m.lead) (B.state m.other)
            (⟦<Mirror<A, B> as Disk>⟧.state m) blocks m.log.sides) }
        ensures refuses { IfErr result (λ fault. Refuses fault.cause blocks (A.state lead) (B.state other)
            (A.state fault.lead) (B.state fault.other)) }
        ensures cause { IfErr result (λ fault. IsReadFault fault.cause) }
    {
        let first = Snapshot::of(&lead);
        let mut lead = lead;
        let mut other = other;
        match copy_and_flush(&mut lead, &mut other, blocks) {
            Ok(()) => Ok(Mirror::of(lead, other, first, blocks, true)),
            Err(CopyFault::Write) => Ok(Mirror::of(lead, other, first, blocks, false)),
            Err(CopyFault::Read) => Err(MirrorFault {
                lead,
                other,
                cause: MirrorCause::ReadFault,
            }),
        }
    }

    // A mirror over two disks, of which the lead is in, and the other where it is a copy.
    fn of(lead: A, other: B, first: Snapshot<A>, blocks: u64, other_in: bool) -> Mirror<A, B>
        requires lead { blocks ≤ (A.state lead).blocks }
        requires other { blocks ≤ (B.state other).blocks }
        requires first { StaysButFaults (A.state first.value) (A.state lead) }
        requires copied { IsTrue other_in
            → HasCopied (A.state lead) (B.state other) blocks × IsSettled (B.state other) }
        ensures disks { (result.lead ≡ lead) × (result.other ≡ other) × (result.first ≡ first) }
        ensures blocks { result.opening.blocks ≡ blocks }
        ensures fresh { (mirror_calls result.log.past.value ≡ []) × (result.log.spare ≡ 0) × (result.log.faults ≡ 0) }
        ensures sides { IsTrue result.log.sides.lead_in × (result.log.sides.other_in ≡ other_in)
            × IsTrue result.opening.lead.is_in }
    {
        let lead_at = lead.moment();
        let other_at = other.moment();
        Mirror {
            lead,
            other,
            first,
            opening: MirrorStart {
                blocks,
                lead: Span {
                    began: lead_at,
                    ended: lead_at,
                    is_in: true,
                },
                other: Span {
                    began: other_at,
                    ended: other_at,
                    is_in: other_in,
                },
            },
            log: Log::new(other_in),
        }
    }

    /// Which sides are in. The first cells of each side that is in are the mirror's, and what a
    /// crash leaves of them is what one may leave of the mirror.
    pub fn sides(&self) -> Sides
        ensures sides { result ≡ self.now.log.sides }
        ensures some_in { IsTrue (result.lead_in || result.other_in) }
        ensures lead { SideServes result.lead_in (⟦<Mirror<A, B> as Disk>⟧.state self.now) (A.state self.now.lead) }
        ensures other { SideServes result.other_in (⟦<Mirror<A, B> as Disk>⟧.state self.now) (B.state self.now.other) }
    {
        self.log.sides
    }

    /// The lead and the other, each as it is. A side that is in holds the mirror's cells.
    pub fn apart(self) -> (A, B)
        ensures lead { result.0 ≡ self.lead }
        ensures other { result.1 ≡ self.other }
        ensures lead_serves { SideServes self.log.sides.lead_in (⟦<Mirror<A, B> as Disk>⟧.state self)
            (A.state result.0) }
        ensures other_serves { SideServes self.log.sides.other_in (⟦<Mirror<A, B> as Disk>⟧.state self)
            (B.state result.1) }
    {
        (self.lead, self.other)
    }
}

impl<A: Disk + Drop, B: Disk + Drop> Disk for Mirror<A, B> {
    ghost use Rattle.nofs_mirror.specs.Mirror.{mirror_state};
    ghost use Rattle.nofs_mirror.specs.Laws.{mirror_is};

    ghost state = { λ m. mirror_state (A.state m.lead) (B.state m.other) (A.state m.first.value) m.opening
        (mirror_calls m.log.past.value) m.log.spare m.log.faults };

    ghost is_disk = { λ m. mirror_is (A.state m.lead) (B.state m.other) (A.state m.first.value) m.opening
        (mirror_calls m.log.past.value) m.log.spare m.log.faults (A.is_disk m.lead) (B.is_disk m.other)
        m.lead_side m.other_side m.lead_in m.other_in m.some_in m.log.made m.log.room m.log.counted m.kept };

    fn blocks(&self) -> u64 {
        self.opening.blocks
    }

    fn moment(&self) -> u64 {
        self.log.moment
    }

    fn ready(&mut self, calls: u64) -> Result<(), AllocError> {
        if calls <= self.log.spare {
            return Ok(());
        }
        if !self.log.has_moments(calls) {
            return Err(AllocError);
        }
        match ready_both(&mut self.lead, &mut self.other, calls) {
            Ok(()) => {
                self.log.spare = calls;
                Ok(())
            }
            Err(error) => Err(error),
        }
    }

    fn read(&mut self, block: u64, into: &mut Cell) -> Result<(), Failed>
        requires { block < (⟦<Mirror<A, B> as Disk>⟧.state self.old).blocks }
        ensures does { Reads (⟦<Mirror<A, B> as Disk>⟧.state self.old)
            (⟦<Mirror<A, B> as Disk>⟧.state self.new) block into.new result }
        ensures sides { self.new.log.sides ≡ self.old.log.sides }
        ensures lead_first { IsTrue self.old.log.sides.lead_in → (self.new.other ≡ self.old.other)
            ⊎ Rose (A.state self.old.lead).faults (A.state self.new.lead).faults }
        ensures fails { ReadFails self.old.log.sides (A.state self.old.lead) (A.state self.new.lead)
            (B.state self.old.other) (B.state self.new.other) result }
        ensures out { LeavesOut self.old.log.sides self.old.lead self.new.lead self.old.other self.new.other }
        ensures counts { Counts self.old.log.faults self.new.log.faults result }
    {
        match read_either(&mut self.lead, &mut self.other, self.log.sides, block, into) {
            Ok(()) => Ok(()),
            Err(failed) => {
                self.log.note_fault();
                Err(failed)
            }
        }
    }

    /// What a crash may leave meanwhile of a side that is in, it may leave of the mirror at its moment
    /// during the call.
    fn write(&mut self, block: u64, cell: &Cell) -> Result<(), Failed>
        requires block { block < (⟦<Mirror<A, B> as Disk>⟧.state self.old).blocks }
        requires spare { 1 ≤ (⟦<Mirror<A, B> as Disk>⟧.state self.old).spare }
        ensures does { Writes (⟦<Mirror<A, B> as Disk>⟧.state self.old)
            (⟦<Mirror<A, B> as Disk>⟧.state self.new) block cell.now result }
        ensures sides { ChangesSides self.old.log.sides self.new.log.sides (A.state self.old.lead)
            (A.state self.new.lead)
            (B.state self.old.other) (B.state self.new.other) result }
        ensures out { LeavesOut self.old.log.sides self.old.lead self.new.lead self.old.other self.new.other }
        ensures counts { Counts self.old.log.faults self.new.log.faults result }
        ensures lead_left { SideLeaves self.old.log.sides.lead_in (A.state self.old.lead).moment
            (⟦<Mirror<A, B> as Disk>⟧.state self.new) (A.state self.new.lead)
            ((⟦<Mirror<A, B> as Disk>⟧.state self.old).moment + 1) }
        ensures other_left { SideLeaves self.old.log.sides.other_in (B.state self.old.other).moment
            (⟦<Mirror<A, B> as Disk>⟧.state self.new) (B.state self.new.other)
            ((⟦<Mirror<A, B> as Disk>⟧.state self.old).moment + 1) }
    {
        cell.note_sizes();
        let sides = self.log.sides;
        let lead = write_side(&mut self.lead, sides.lead_in, block, cell);
        let other = write_side(&mut self.other, sides.other_in, block, cell);
        let effect = Effect::Write {
            block,
            cell: Snapshot::of(cell),
        };
        self.log.note(effect, &lead, &other)
    }

    /// What a crash may leave meanwhile of a side that is in, it may leave of the mirror at its moment
    /// during the call.
    fn flush(&mut self) -> Result<(), Failed>
        requires { 1 ≤ (⟦<Mirror<A, B> as Disk>⟧.state self.old).spare }
        ensures does { Flushes (⟦<Mirror<A, B> as Disk>⟧.state self.old)
            (⟦<Mirror<A, B> as Disk>⟧.state self.new) result }
        ensures sides { ChangesSides self.old.log.sides self.new.log.sides
            (A.state self.old.lead) (A.state self.new.lead) (B.state self.old.other) (B.state self.new.other) result }
        ensures out { LeavesOut self.old.log.sides self.old.lead self.new.lead self.old.other self.new.other }
        ensures counts { Counts self.old.log.faults self.new.log.faults result }
        ensures lead_left { SideLeaves self.old.log.sides.lead_in
            (A.state self.old.lead).moment (⟦<Mirror<A, B> as Disk>⟧.state self.new)
            (A.state self.new.lead) ((⟦<Mirror<A, B> as Disk>⟧.state self.old).moment + 1) }
        ensures other_left { SideLeaves self.old.log.sides.other_in (B.state self.old.other).moment
            (⟦<Mirror<A, B> as Disk>⟧.state self.new) (B.state self.new.other)
            ((⟦<Mirror<A, B> as Disk>⟧.state self.old).moment + 1) }
    {
        let sides = self.log.sides;
        let lead = flush_side(&mut self.lead, sides.lead_in);
        let other = flush_side(&mut self.other, sides.other_in);
        let effect = flush_effect(lead.answer, other.answer);
        self.log.note(effect, &lead, &other)
    }

    /// No write is kept back, and neither side is called.
    fn write_out(&mut self) -> Result<Option<u64>, Failed>
        requires { 1 ≤ (⟦<Mirror<A, B> as Disk>⟧.state self.old).spare }
        ensures does { WritesOut (⟦<Mirror<A, B> as Disk>⟧.state self.old)
            (⟦<Mirror<A, B> as Disk>⟧.state self.new) result }
        ensures lead { self.new.lead ≡ self.old.lead }
        ensures other { self.new.other ≡ self.old.other }
        ensures sides { self.new.log.sides ≡ self.old.log.sides }
    {
        self.log.spare -= 1;
        Ok(None)
    }
}
