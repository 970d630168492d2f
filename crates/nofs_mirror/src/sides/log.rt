//! What a mirror keeps of its calls: their number, which sides are in, and how many failed.
//!
//! Promise: a call is Ok exactly where some side succeeded, and each one that failed is counted.
ghost use Rattle.std.specs.Prelude.{◌≡◌, ◌+◌, ◌*◌, ◌^◌, ◌<◌, ◌≤◌, ◌∷◌, [], length, is_ok, true, IsFalse, IsTrue};
ghost use Rattle.nofs_mirror.specs.Sides.Calls.{any_done, answered_call, counted, counted_if, flush_effect};
ghost use Rattle.nofs_mirror.specs.Sides.Calls.{sides_after};
ghost use Rattle.nofs_mirror.specs.Sides.Past.{mirror_calls};

use crate::sides::calls::{SideAnswer, SideCall, any_done, lead_stays, other_stays};
use crate::sides::past::{Effect, MirrorCall, MirroredPast, Span};
use nofs_disk::Failed;
use std::mem;
use std::snapshot::Snapshot;

/// Which sides of a mirror are in.
#[derive(Clone, Copy, Debug, PartialEq, Eq)]
pub struct Sides {
    pub lead_in: bool,
    pub other_in: bool,
}

/// What a mirror keeps of its calls.
#[derive(Drop)]
pub struct Log {
    /// The writes and flushes so far.
    pub past: Snapshot<MirroredPast>,
    /// Which sides are in.
    pub sides: Sides,
    pub moment: u64,
    /// For how many writes, flushes and write-outs there is room.
    pub spare: u64,
    /// How often a call of the mirror has failed.
    pub faults: u64,
    ghost made: { moment ≡ 2 * length (mirror_calls past.value) },
    ghost room: { 2 * spare + moment < 2 ^ 64 },
    ghost counted: { faults < 2 ^ 64 },
}

// Adds a call.
fn add(call: MirrorCall, past: &mut Snapshot<MirroredPast>)
    ensures { mirror_calls past.new.value ≡ call ∷ mirror_calls past.old.value }
{
    let earlier = mem::replace(past, Snapshot::of(&MirroredPast::Start));
    let next = MirroredPast::Made(call, earlier);
    *past = Snapshot::of(&next);
}

// Counts a fault, up to the greatest u64.
fn count_fault(faults: &mut u64)
    ensures value { faults.new ≡ counted faults.old }
    ensures range { faults.new < 2 ^ 64 }
{
    *faults = faults.saturating_add(1);
}

// Counts a call that failed, and answers so.
fn answer(done: bool, faults: &mut u64) -> Result<(), Failed>
    ensures result { is_ok result ≡ done }
    ensures faults { faults.new ≡ counted_if done faults.old }
    ensures range { faults.new < 2 ^ 64 }
{
    if done {
        let _kept = *faults;
        return Ok(());
    }
    count_fault(faults);
    Err(Failed)
}

// The call with these answers.
fn call_of(effect: Effect, lead: &SideCall, other: &SideCall) -> MirrorCall
    ensures { result ≡ answered_call effect lead.now other.now }
{
    let lead_in = lead_stays(lead.answer, other.answer);
    let other_in = other_stays(lead.answer, other.answer);
    MirrorCall {
        effect,
        lead: Span {
            began: lead.began,
            ended: lead.ended,
            is_in: lead_in,
        },
        other: Span {
            began: other.began,
            ended: other.ended,
            is_in: other_in,
        },
    }
}

/// What a flush with these answers does: where a side succeeded, its cells are settled.
pub(crate) fn flush_effect(lead: SideAnswer, other: SideAnswer) -> Effect
    ensures { result ≡ flush_effect lead other }
{
    if any_done(lead, other) {
        Effect::Settle
    } else {
        Effect::Nothing
    }
}

impl Log {
    /// No calls yet. The lead is in.
    pub fn new(other_in: bool) -> Log
        ensures past { mirror_calls result.past.value ≡ [] }
        ensures lead_in { result.sides.lead_in ≡ true }
        ensures other_in { result.sides.other_in ≡ other_in }
        ensures moment { result.moment ≡ 0 }
        ensures spare { result.spare ≡ 0 }
        ensures faults { result.faults ≡ 0 }
    {
        Log {
            past: Snapshot::of(&MirroredPast::Start),
            sides: Sides {
                lead_in: true,
                other_in,
            },
            moment: 0,
            spare: 0,
            faults: 0,
        }
    }

    /// Whether there are moments for so many calls.
    pub fn has_moments(&self, calls: u64) -> bool
        ensures room { IsTrue result → 2 * calls + self.now.moment < 2 ^ 64 }
        ensures no_room { IsFalse result → 2 ^ 64 ≤ 2 * calls + self.now.moment }
    {
        calls <= (u64::MAX - self.moment) / 2
    }

    /// Adds a write or flush with the answers of both sides, and answers for the mirror. A side that
    /// failed goes out, but for the last one.
    pub fn note(&mut self, effect: Effect, lead: &SideCall, other: &SideCall) -> Result<(), Failed>
        requires { 1 ≤ self.old.spare }
        ensures past { mirror_calls self.new.past.value ≡ answered_call effect lead.now other.now
            ∷ mirror_calls self.old.past.value }
        ensures sides { self.new.sides ≡ sides_after lead.now.answer other.now.answer }
        ensures spare { self.new.spare + 1 ≡ self.old.spare }
        ensures result { is_ok result ≡ any_done lead.now.answer other.now.answer }
        ensures faults { self.new.faults ≡ counted_if (any_done lead.now.answer other.now.answer) self.old.faults }
    {
        add(call_of(effect, lead, other), &mut self.past);
        self.sides = Sides {
            lead_in: lead_stays(lead.answer, other.answer),
            other_in: other_stays(lead.answer, other.answer),
        };
        self.moment += 2;
        self.spare -= 1;
        answer(any_done(lead.answer, other.answer), &mut self.faults)
    }

    /// Counts a call that failed and made no moment.
    pub fn note_fault(&mut self)
        ensures past { self.new.past ≡ self.old.past }
        ensures sides { self.new.sides ≡ self.old.sides }
        ensures spare { self.new.spare ≡ self.old.spare }
        ensures faults { self.new.faults ≡ counted self.old.faults }
    {
        count_fault(&mut self.faults);
    }
}
