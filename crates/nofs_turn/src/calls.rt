//! What a pass does at the turn: look, take and give, join and close.
//!
//! Promise: the list that a section meets begins with all that its pass had seen, and the pass then has seen the
//! whole list. Only `with` waits. What its thread goes through:
//!
//! ```text
//!            the word is odd              odd at `LOOKS` looks              asleep while it is the same
//!   trying -------------------> looking ------------------------> counted ------------------------------> asleep
//!     ^                            |                                 |                                       |
//!     +----------------------------+---------------------------------+---------------------------------------+
//!              it is even                  it is another now                  a wake, or `NAP` is over
//! ```
//!
//! - counted: `parked` has it in its number, so that the next give takes it off and sends a wake.
//! - asleep: counted, or the wake for it is sent. Nothing is promised of who is woken: any sleeper is.
ghost use Rattle.std.specs.Prelude.{◌≡◌, ℕ, ◌+◌, ◌*◌, ◌/◌, ◌%◌, ◌<◌, ◌≤◌, true, false, [], ◌∷◌, length, Some, IfOk};
ghost use Rattle.std.specs.Prelude.{IfErr, OnErr};
ghost use mathlib.Core.List.{IsPrefix};

use crate::rule::kept::{Kept, Section};
use crate::rule::steps::{Give, Look, Settle, Take, Unite};
use crate::rule::view::View;
use crate::turn::{Busy, Pass, PassesOut, Turn};
use atomic_table::Seat;
use std::hint::spin_loop;
use std::sync::Wait;
use std::sync::atomic::Ordering;
use std::time::Duration;

// How often a thread looks at the word before it sleeps.
const LOOKS: u32 = 50;

// The longest sleep, in milliseconds. It is for two races. The wake for a thread is sent after it counted itself and
// before it sleeps, and the word comes back to the same odd number, since the section between made no entry: then it
// sleeps and no give knows of it. And a wake that finds nobody asleep leaves `waking` set until a sleeper comes up.
const NAP: u64 = 1;

impl<V: Kept> Turn<V> {
    ghost use Rattle.nofs_turn.specs.Rule.Views.{looked, joined};
    ghost use Rattle.nofs_turn.specs.Passes.{Ran, RanOnce, Carries, HasRun, MayRun, Closes, TellsDone, Waited};
    ghost use Rattle.nofs_turn.specs.Rule.Steps.{TakesFree, TakesBusy};
    ghost use Rattle.nofs_turn.specs.Turn.{view_of, IsPassOf};
    ghost use Rattle.nofs_turn.specs.Lists.{rises};

    /// The number of entries, at least as many as the pass had seen. It makes one look, waits for nobody and takes
    /// no memory.
    pub fn count(&self, pass: &mut Pass<V>) -> u64
        requires { IsPassOf self.now pass.old }
        ensures of { IsPassOf self.now pass.new }
        ensures look { (found : ℕ) × (result ≡ found / 2) × (view_of pass.new ≡ looked (view_of pass.old) found) }
        ensures at_least { length (view_of pass.old).seen ≤ result }
    {
        self.look(pass) / 2
    }

    // The word, from one look.
    fn look(&self, pass: &mut Pass<V>) -> u64
        requires { IsPassOf self.now pass.old }
        ensures of { IsPassOf self.now pass.new }
        ensures look { view_of pass.new ≡ looked (view_of pass.old) result }
        ensures at_least { 2 * length (view_of pass.old).seen ≤ result }
    {
        self.table.shared.load::<Look>(&mut pass.seat, 0)
    }

    // One look, which takes the turn where it is free.
    fn take(&self, seat: &mut Seat<Option<V>, View<V::Entry, V::Fixed>>) -> u64
        requires of { seat.old.table_id ≡ self.now.table.shared.table_id }
        requires rests { (0 < seat.old.me.0.stands) × (seat.old.me.0.has ≡ false) × (seat.old.me.1 ≡ []) }
        ensures same { (seat.new.table_id ≡ seat.old.table_id) × (seat.new.id ≡ seat.old.id) }
        ensures free { result % 2 ≡ 0 → TakesFree V.entries V.fixed seat.old.me.0 result seat.new.me }
        ensures busy { result % 2 ≡ 1 → TakesBusy seat.old.me.0 result seat.new.me }
    {
        self.table.shared.fetch_or::<Take>(seat, 0, 1)
    }

    // Runs the section on the value that the seat carries, and gives the turn back.
    fn run<S: Section<V>>(
        &self,
        seat: &mut Seat<Option<V>, View<V::Entry, V::Fixed>>,
        section: S,
    ) -> S::Out
        requires of { seat.old.table_id ≡ self.now.table.shared.table_id }
        requires has { seat.old.me.0.has ≡ true }
        requires carries { Carries V.entries V.fixed (S.asks section) seat.old.me }
        ensures same { (seat.new.table_id ≡ seat.old.table_id) × (seat.new.id ≡ seat.old.id) }
        ensures ran { HasRun V.entries V.fixed (S.tells section) (S.does section) seat.old.me.0 result seat.new.me }
        ensures rising { rises 0 seat.new.me.0.mine ≡ true }
    {
        let (out, kept) = self.run_in_place(seat, section);
        self.table.shared.store::<Give>(seat, 0, 2 * kept);
        self.wake();
        out
    }

    // Runs the section on the value where it lies, and counts its entries. A value is not moved, however large it is.
    fn run_in_place<S: Section<V>>(
        &self,
        seat: &mut Seat<Option<V>, View<V::Entry, V::Fixed>>,
        section: S,
    ) -> (S::Out, u64)
        requires of { seat.old.table_id ≡ self.now.table.shared.table_id }
        requires carries { (x : V) × (seat.old.me.1 ≡ (0, Some x) ∷ []) × S.asks section (V.fixed x) (V.entries x) }
        ensures same { (seat.new.table_id ≡ seat.old.table_id) × (seat.new.id ≡ seat.old.id)
            × (seat.new.me.0 ≡ seat.old.me.0) }
        ensures ran { (x y : V) × (seat.old.me.1 ≡ (0, Some x) ∷ []) × (seat.new.me.1 ≡ (0, Some y) ∷ [])
            × RanOnce V.entries V.fixed (S.tells section) (S.does section) x y result }
    {
        match seat.slot_mut(&self.table.shared, 0) {
            Some(value) => {
                let out = section.run(value);
                (out, value.kept())
            }
            None => unreachable!(),
        }
    }

    // Wakes one thread that is counted, and takes it off the count: the gives that come before it is up send no
    // wake for it. Nor do they send one for another thread: while one is on its way up, a second would only find the
    // turn taken. Where the exchange fails, another thread gave or counted itself meanwhile. That one is up and
    // comes to the word after this give, so it sends the next wake itself.
    fn wake(&self) {
        let parked = self.parked.load(Ordering::SeqCst);
        if parked == 0 || self.waking.load(Ordering::SeqCst) {
            return;
        }
        let claim = self
            .parked
            .compare_exchange(parked, parked - 1, Ordering::SeqCst, Ordering::SeqCst);
        if claim.is_ok() {
            self.waking.store(true, Ordering::SeqCst);
            self.table.shared.wake_one(0);
        }
    }

    // Looks at the word until it is even, `LOOKS` times at most: the last word found.
    fn watch(&self, pass: &mut Pass<V>, word: u64) -> u64
        requires { IsPassOf self.now pass.old }
        ensures of { IsPassOf self.now pass.new }
        ensures waited { Waited (view_of pass.old) (view_of pass.new) }
    {
        let mut found = word;
        for _ in 0..LOOKS {
            if found % 2 == 0 {
                return found;
            }
            spin_loop();
            found = self.look(pass);
        }
        found
    }

    // Waits until the turn was free at a look, or for a wake, or for `NAP`. A thread counts itself before its last
    // look, which the kernel makes: it finds the word changed and doesn't sleep, or the give that will change the
    // word finds it counted. It doesn't take itself off: the wake did. Where it comes back for another reason, the
    // count is one too high until a give sends one wake for nobody.
    fn wait<R: Wait>(&self, rt: &R, pass: &mut Pass<V>, word: u64)
        requires { IsPassOf self.now pass.old }
        ensures of { IsPassOf self.now pass.new }
        ensures waited { Waited (view_of pass.old) (view_of pass.new) }
    {
        let last = self.watch(pass, word);
        if last % 2 == 0 {
            return;
        }
        self.parked.fetch_add(1, Ordering::SeqCst);
        let (low, nap) = ((last % (1 << 32)) as u32, Duration::from_millis(NAP));
        self.table.shared.park_timeout(rt, 0, low, nap);
        self.waking.store(false, Ordering::SeqCst);
    }

    /// Runs the section where the turn is free, and else answers `Busy` with the section and the odd word found. It
    /// makes one look, waits for nobody and takes no memory. A pass that stands for all passes never finds it busy.
    pub fn try_with<S: Section<V>>(&self, pass: &mut Pass<V>, section: S) -> Result<S::Out, Busy<S>>
        requires of { IsPassOf self.now pass.old }
        requires may { MayRun (S.asks section) (view_of pass.old) }
        ensures of { IsPassOf self.now pass.new }
        ensures ran { IfOk result (Ran (TellsDone V.entries V.fixed (S.tells section) (S.does section))
            (view_of pass.old) (view_of pass.new)) }
        ensures one_look { (view_of pass.new).looks ≡ (view_of pass.old).looks + 1 }
        ensures busy { IfErr result
            (λ b. (b.section ≡ section) × (b.word % 2 ≡ 1) × (view_of pass.new ≡ looked (view_of pass.old) b.word)) }
        ensures others { OnErr result ((view_of pass.old).stands < (view_of pass.old).seats) }
    {
        let found = self.take(&mut pass.seat);
        if found % 2 == 1 {
            return Err(Busy {
                section,
                word: found,
            });
        }
        Ok(self.run(&mut pass.seat, section))
    }

    /// Waits for the turn, and runs the section once.
    pub fn with<R: Wait, S: Section<V>>(&self, rt: &R, pass: &mut Pass<V>, section: S) -> S::Out
        requires of { IsPassOf self.now pass.old }
        requires may { MayRun (S.asks section) (view_of pass.old) }
        ensures of { IsPassOf self.now pass.new }
        ensures ran { Ran (TellsDone V.entries V.fixed (S.tells section) (S.does section))
            (view_of pass.old) (view_of pass.new) result }
    {
        let mut waiting = section;
        for _ in rt.forever() {
            match self.try_with(pass, waiting) {
                Ok(out) => return out,
                Err(busy) => {
                    let Busy { section, word } = busy;
                    waiting = section;
                    self.wait(rt, pass, word);
                }
            }
        }
        unreachable!()
    }

    /// The one pass then has seen what both had seen, has the entries of both, and stands for the passes of both.
    pub fn join(&self, into: &mut Pass<V>, from: Pass<V>)
        requires of { IsPassOf self.now into.old × IsPassOf self.now from }
        ensures of { IsPassOf self.now into.new }
        ensures joined { view_of into.new ≡ joined (view_of into.old) (view_of from) }
        ensures knows { IsPrefix (view_of into.old).seen (view_of into.new).seen
            × IsPrefix (view_of from).seen (view_of into.new).seen }
    {
        let Pass { seat, stands } = from;
        self.table.shared.join_seat::<Unite>(&mut into.seat, seat);
        self.table.shared.load::<Settle>(&mut into.seat, 0);
        into.stands += stands;
    }

    /// The value, where the pass stands for all passes of the turn; else all comes back with the number of those
    /// that are out. A pass that was dropped stays out for good.
    pub fn close(self, pass: Pass<V>) -> Result<V, PassesOut<V>>
        requires of { IsPassOf self pass }
        ensures closed { IfOk result
            (λ value. Closes V.entries V.fixed (view_of pass) value × ((view_of pass).stands ≡ (view_of pass).seats)) }
        ensures out { IfErr result (λ e. (e.turn ≡ self) × (e.pass ≡ pass) × (0 < e.out)
            × (e.out + (view_of pass).stands ≡ (view_of pass).seats)) }
    {
        if pass.stands < self.seats {
            let out = self.seats - pass.stands;
            return Err(PassesOut {
                turn: self,
                pass,
                out,
            });
        }
        let Turn {
            table,
            seats: _,
            parked: _,
            waking: _,
        } = self;
        let Pass { seat, stands: _ } = pass;
        let mut closed = table.close_with(seat);
        let Some(value) = closed.take(0) else {
            unreachable!()
        };
        closed.free();
        Ok(value)
    }
}
