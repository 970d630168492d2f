//! The turn and its passes, and what refused calls hand back.
//!
//! What the turn goes through (`Counted` is the rule of it):
//!
//! ```text
//!                    take: the word from 2n to 2n + 1
//!   free, n entries -----------------------------------> taken, n entries
//!         ^                                                     |
//!         +-----------------------------------------------------+
//!                give: the word to 2n, or to 2n + 2 with one entry more
//! ```
//!
//! - free: the value is at home, and each pass has seen a beginning of its list.
//! - taken: one pass has the value, and no other can take it.
//!
//! A pass rests, or its section runs and it has the turn. It stands for itself and those that were joined to it; the
//! one that stands for all can close the turn.
ghost use Rattle.std.specs.Prelude.{◌≡◌, ◌<◌, ◌≤◌, false, true, []};
ghost use Rattle.nofs_turn.specs.Lists.{rises};

use crate::rule::kept::Kept;
use crate::rule::steps::Counted;
use crate::rule::view::{Opening, View};
use atomic_table::{Seat, Table};
use std::alloc::Global;
use std::sync::atomic::{AtomicBool, AtomicU64};

/// A value that one pass at a time gets hold of. Its word is 2n while the turn is free and n entries are kept,
/// and 2n + 1 while it is taken.
#[derive(Drop)]
pub struct Turn<V: Kept> {
    pub(crate) table: Table<Option<V>, View<V::Entry, V::Fixed>, Opening<V>, Counted, Global>,
    pub(crate) seats: u64,
    // How many threads sleep or are about to, and were sent no wake; at times more, never for long.
    pub(crate) parked: AtomicU64,
    // Whether a wake was sent, and no sleeper has come up since.
    pub(crate) waking: AtomicBool,
    ghost words: { table.shared.table_id.words ≡ 1 },
    ghost slots: { table.shared.table_id.slots ≡ 1 },
    ghost seats_are: { (seats ≡ table.shared.key.seats) × (seats ≤ 64) },
}

/// The right to take the turn, for one thread at a time. It stands for itself and for the passes joined to it.
#[derive(Drop)]
pub struct Pass<V: Kept> {
    pub(crate) seat: Seat<Option<V>, View<V::Entry, V::Fixed>>,
    pub(crate) stands: u64,
    ghost carries: { seat.me.1 ≡ [] },
    ghost rests: { seat.me.0.has ≡ false },
    ghost stands_are: { (stands ≡ seat.me.0.stands) × (0 < stands) },
    ghost at_most: { stands ≤ seat.me.0.seats },
    ghost settled: { seat.me.0.heard ≡ [] },
    ghost rising: { rises 0 seat.me.0.mine ≡ true },
    ghost whole: { seat.me.0.splits ≡ 0 },
}

/// A turn was not closed, since passes of it are out. All comes back unchanged.
#[derive(Drop)]
pub struct PassesOut<V: Kept> {
    /// The turn.
    pub turn: Turn<V>,
    /// The pass that was given.
    pub pass: Pass<V>,
    /// How many passes the given one doesn't stand for, above 0.
    pub out: u64,
}

/// There was no memory for a turn. The value comes back unchanged.
#[derive(Drop)]
pub struct TurnFault<V> {
    /// The value that was given.
    pub value: V,
}

/// The turn was taken, so the section did not run.
#[derive(Drop)]
pub struct Busy<S> {
    /// The section that was given.
    pub section: S,
    /// The odd word that the one look found.
    pub word: u64,
}
