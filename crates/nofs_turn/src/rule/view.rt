//! What a seat of the turn's table knows. It is there for the proofs alone.
use crate::rule::kept::Kept;
use std::collections::LinkedList;
use std::snapshot::Snapshot;

/// What a seat knows. No value of it is made.
pub struct View<E, F> {
    /// The fixed part of the value; None only of a seat that was joined to another.
    pub fixed: Option<F>,
    /// The number of entries when the turn was made.
    pub start: u64,
    /// The number of passes that the turn was made with.
    pub seats: u64,
    /// The entries that it has seen.
    pub seen: LinkedList<E>,
    /// The entries that a seat had seen which was joined to it, until the next look settles them.
    pub heard: LinkedList<E>,
    /// Its own entries, each with its place.
    pub mine: LinkedList<(u64, E)>,
    /// Whether it has the turn.
    pub has: bool,
    /// How many seats it has still to split.
    pub splits: u64,
    /// How many passes it stands for.
    pub stands: u64,
    /// How often it looked at the word, by a load or a take.
    pub looks: u64,
    /// The word that the last look found.
    pub last: u64,
    /// How many sections it has run.
    pub runs: u64,
}

/// The value as it was when the turn was made, and the number of seats.
#[derive(Drop)]
pub struct Opening<V: Kept> {
    pub value: Snapshot<V>,
    pub seats: u64,
}
