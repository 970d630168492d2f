//! Passes by which callers make steps at a shared mount. Workers take one as their way to it.
//!
//! Promise: a step is made under one turn, and its entry is the pass's own and lies behind all that the pass had seen.
//! Under that turn nothing else is done: the value does what `Serves` says of the step, which orders no write and
//! writes no block out. A step of a sweep wants for no memory while room for its entry was taken. A batch is looked at
//! under one turn, and each of its verdicts is committed under a later one. A write-out makes no step, and takes the
//! turn only where a block may be kept back.
ghost use Rattle.std.specs.Prelude.{◌≡◌, ℕ, ◌+◌, ◌/◌, ◌%◌, ◌<◌, ◌≤◌, true, [], length, IfOk, IfErr, OnErr};
ghost use Rattle.nofs_turn.specs.Turn.{view_of, IsPassOf};
ghost use Rattle.nofs_turn.specs.Rule.Views.{looked};
ghost use Rattle.nofs_history.specs.Steps.{Fits, with_made};
ghost use Rattle.nofs_shared.specs.Passes.Entries.{all_by, own_steps};
ghost use Rattle.nofs_shared.specs.Passes.Rooms.{StepRan};
ghost use Rattle.nofs_shared.specs.Passes.Seats.{SameSeat};

use crate::mount::serves::Serves;
use nofs_history::{Reply, Step, Steps};
use nofs_turn::{Busy, Pass, Section, Turn};
use std::alloc::Global;
use std::sync::Wait;
use std::sync::atomic::{AtomicBool, Ordering};

// One step of a caller, under the turn. From its beginning on a block may be kept back.
#[derive(Drop)]
struct Move<'a> {
    alloc: Global,
    clean: &'a AtomicBool,
    caller: u32,
    step: Step,
}

impl<V: Serves> Section<V> for Move<'_> {
    ghost use Rattle.nofs_shared.specs.Acts.Sees.{FindsRoom};
    ghost use Rattle.nofs_shared.specs.Passes.Entries.{TellsStep};

    type Out = Reply;

    ghost asks = { λ _ _ _. Unit {0} };

    ghost tells = { λ s f xs ys r. TellsStep s.caller s.step xs ys r
        × FindsRoom (V.room_in f) s.caller s.step xs r };

    ghost does = { λ s x y r. V.does x y s.step r };

    ghost lasts = { λ _ _ _ _ _. tt };

    fn run(self, value: &mut V) -> Reply {
        self.clean.store(false, Ordering::SeqCst);
        value.serve(self.alloc, self.caller, self.step)
    }
}

/// The turn was taken, so the step was not made.
#[derive(Drop)]
pub struct BusyStep {
    pub step: Step,
    pub word: u64,
}

/// A pass of one caller, which makes steps at the shared mount.
#[derive(Drop)]
pub struct SharedPass<'a, R, V: Serves> {
    pub(crate) rt: &'a R,
    pub(crate) alloc: Global,
    pub(crate) turn: &'a Turn<V>,
    // Whether a write-out found no block kept back, and no step has begun since.
    pub(crate) clean: &'a AtomicBool,
    pub(crate) caller: u32,
    pub(crate) pass: Pass<V>,
    ghost of: { IsPassOf turn.now pass },
    ghost own: { all_by caller (view_of pass).mine ≡ true },
}

impl<'a, R, V: Serves> SharedPass<'a, R, V> {
    /// A pass of a turn, for this caller. The pass has no entries yet.
    pub fn new(
        rt: &'a R,
        alloc: Global,
        turn: &'a Turn<V>,
        clean: &'a AtomicBool,
        caller: u32,
        pass: Pass<V>,
    ) -> SharedPass<'a, R, V>
        requires of { IsPassOf turn.now pass }
        requires new { (view_of pass).mine ≡ [] }
        ensures { (result.turn.now ≡ turn.now) × (result.caller ≡ caller) × (result.pass ≡ pass) }
    {
        SharedPass {
            rt,
            alloc,
            turn,
            clean,
            caller,
            pass,
        }
    }

    /// Makes the step where the turn is free, and else answers `BusyStep` with the step and the odd word found. It
    /// makes one look, waits for nobody and takes no memory of its own. A pass that stands for all passes never finds
    /// the turn busy.
    pub fn try_step(&mut self, step: Step) -> Result<Reply, BusyStep>
        ensures same { (self.new.turn.now ≡ self.old.turn.now) × (self.new.caller ≡ self.old.caller)
            × SameSeat (view_of self.old.pass) (view_of self.new.pass) }
        ensures made { IfOk result
            (λ r. (own_steps (view_of self.new.pass).mine ≡ with_made (own_steps (view_of self.old.pass).mine) step r)
            × Fits step r) }
        ensures ran { IfOk result
            (StepRan V.entries V.fixed V.room_in V.does self.old.caller step
            (view_of self.old.pass) (view_of self.new.pass)) }
        ensures one_look { (view_of self.new.pass).looks ≡ (view_of self.old.pass).looks + 1 }
        ensures busy { IfErr result (λ b. (b.step ≡ step) × (b.word % 2 ≡ 1)
            × (view_of self.new.pass ≡ looked (view_of self.old.pass) b.word)) }
        ensures others { OnErr result ((view_of self.old.pass).stands < (view_of self.old.pass).seats) }
    {
        let section = Move {
            alloc: self.alloc,
            clean: self.clean,
            caller: self.caller,
            step,
        };
        match self.turn.try_with(&mut self.pass, section) {
            Ok(reply) => Ok(reply),
            Err(busy) => {
                let Busy { section, word } = busy;
                Err(BusyStep {
                    step: section.step,
                    word,
                })
            }
        }
    }

    /// The number of entries, at least as many as the pass had seen. It makes one look and no step, waits for nobody
    /// and takes no memory.
    pub fn progress(&mut self) -> u64
        ensures same { (self.new.turn.now ≡ self.old.turn.now) × (self.new.caller ≡ self.old.caller)
            × SameSeat (view_of self.old.pass) (view_of self.new.pass) }
        ensures at_least { length (view_of self.old.pass).seen ≤ result }
        ensures look { result ≡ (view_of self.new.pass).last / 2 }
        ensures one_look { (found : ℕ) × (result ≡ found / 2)
            × (view_of self.new.pass ≡ looked (view_of self.old.pass) found) }
    {
        self.turn.count(&mut self.pass)
    }

    /// The pass, handed back with its entries. They are all its caller's.
    pub fn back(self) -> Pass<V>
        ensures same { result ≡ self.entry.pass }
        ensures of { IsPassOf self.entry.turn.now result }
        ensures own { all_by self.entry.caller (view_of result).mine ≡ true }
    {
        let SharedPass { pass, .. } = self;
        pass
    }
}

impl<R: Wait, V: Serves> Steps for SharedPass<'_, R, V> {
    ghost use Rattle.std.proofs.Common.{refl, ◌∙◌};
    ghost use Rattle.nofs_shared.specs.Passes.Seats.{same_seat, same_seats};

    ghost made = { λ p. own_steps (view_of p.pass).mine };

    ghost goes = { λ p q. (q.turn.now ≡ p.turn.now) × (q.caller ≡ p.caller)
        × SameSeat (view_of p.pass) (view_of q.pass) };

    ghost goes_none = { λ p. (refl, refl, same_seat (view_of p.pass)) };

    ghost goes_on = { λ a b c p q.
        (q.0 ∙ p.0, q.1 ∙ p.1, same_seats (view_of a.pass) (view_of b.pass) (view_of c.pass) p.2 q.2) };

    fn step(&mut self, step: Step) -> Reply
        ensures made { own_steps (view_of self.new.pass).mine
            ≡ with_made (own_steps (view_of self.old.pass).mine) step result }
        ensures fits { Fits step result }
        ensures goes { (self.new.turn.now ≡ self.old.turn.now) × (self.new.caller ≡ self.old.caller)
            × SameSeat (view_of self.old.pass) (view_of self.new.pass) }
        ensures ran { StepRan V.entries V.fixed V.room_in V.does self.old.caller step
            (view_of self.old.pass) (view_of self.new.pass) result }
    {
        let section = Move {
            alloc: self.alloc,
            clean: self.clean,
            caller: self.caller,
            step,
        };
        self.turn.with(self.rt, &mut self.pass, section)
    }
}
