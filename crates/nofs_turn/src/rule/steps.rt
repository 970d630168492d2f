//! The rule of the turn's table, and what each kind of atomic step tells. `specs/Rule/Steps.antt` states both.
use crate::rule::kept::Kept;
use crate::rule::view::{Opening, View};
use atomic_table::{Join, Play, Split, TableRule};

/// The word counts the entries, and tells whether the turn is taken.
pub struct Counted;

impl<V: Kept> TableRule<Option<V>, View<V::Entry, V::Fixed>, Opening<V>> for Counted {
    ghost use Rattle.std.specs.Prelude.{length};
    ghost use Rattle.nofs_turn.specs.Rule.Views.{maker};
    ghost use Rattle.nofs_turn.specs.Rule.Steps.{TurnHolds};

    ghost holds = { λ k. TurnHolds V.entries V.fixed (V.fixed k.value.value)
        (length (V.entries k.value.value)) k.seats };

    ghost first = { λ k. maker (V.fixed k.value.value) (V.entries k.value.value) k.seats };
}

/// A load of the word.
pub struct Look;

impl<V: Kept> Play<Option<V>, View<V::Entry, V::Fixed>> for Look {
    ghost use Rattle.nofs_turn.specs.Rule.Steps.{Looks};

    ghost then = { Looks };
}

/// One fetch-or of the word with 1: it takes the turn where it is free.
pub struct Take;

impl<V: Kept> Play<Option<V>, View<V::Entry, V::Fixed>> for Take {
    ghost use Rattle.nofs_turn.specs.Rule.Steps.{Takes};

    ghost then = { Takes V.entries V.fixed };
}

/// A store of twice the number of entries: it gives the turn back.
pub struct Give;

impl<V: Kept> Play<Option<V>, View<V::Entry, V::Fixed>> for Give {
    ghost use Rattle.nofs_turn.specs.Rule.Steps.{Gives};

    ghost then = { Gives V.entries };
}

/// A load after a join: it settles which of the two seen lists is the longer one.
pub struct Settle;

impl<V: Kept> Play<Option<V>, View<V::Entry, V::Fixed>> for Settle {
    ghost use Rattle.nofs_turn.specs.Rule.Steps.{Settles};

    ghost then = { Settles };
}

/// A seat is split into two.
pub struct Deal;

impl<E, F> Split<View<E, F>> for Deal {
    ghost use Rattle.nofs_turn.specs.Rule.Views.{dealt, newcomer};

    ghost left = { dealt };

    ghost right = { newcomer };
}

/// A seat is joined to another.
pub struct Unite;

impl<E, F> Join<View<E, F>> for Unite {
    ghost use Rattle.nofs_turn.specs.Rule.Views.{united, spent};

    ghost both = { united };

    ghost spent = { spent };
}
