//! What lies behind a turn, and what is done to it there.
//!
//! Promise: a section keeps the fixed part and every entry, and adds at most one.
ghost use Rattle.std.specs.Prelude.{◌≡◌, ◌+◌, ◌^◌, ◌<◌, ◌≤◌, List, ◌++◌, length};
ghost use mathlib.Core.List.{IsPrefix};

/// A value that keeps a list of entries beside a part that never changes.
pub trait Kept {
    /// What its list is made of.
    type Entry;

    /// The part that no section changes.
    type Fixed;

    /// The entries so far, the oldest first.
    ghost entries: { Self → List Self.Entry };

    /// What every pass knows from the beginning.
    ghost fixed: { Self → Self.Fixed };

    /// The number of entries. It is below 2^63, since twice of it and one is the turn's word.
    fn kept(&self) -> u64
        ensures { (result ≡ length (entries self.now)) × (result < 2 ^ 63) };
}

/// What is done while the turn is taken. It adds one entry at most.
pub trait Section<V: Kept> {
    /// What it answers.
    type Out;

    /// What it asks of the fixed part and of the list that it meets.
    ghost asks: { Self → V.Fixed → List V.Entry → Type 0 };

    /// What it tells: of the fixed part, the list before, the list after, and its answer.
    ghost tells: { Self → V.Fixed → List V.Entry → List V.Entry → Self.Out → Type 0 };

    /// What it does to the value: from the value before it to the one after it, with its answer.
    ghost does: { Self → V → V → Self.Out → Type 0 };

    /// Does it, once.
    fn run(self, value: &mut V) -> Self::Out
        requires { asks self (V.fixed value.old) (V.entries value.old) }
        ensures fixed { V.fixed value.new ≡ V.fixed value.old }
        ensures keeps { IsPrefix (V.entries value.old) (V.entries value.new) }
        ensures at_most_one { length (V.entries value.new) ≤ length (V.entries value.old) + 1 }
        ensures tells { tells self (V.fixed value.old) (V.entries value.old) (V.entries value.new) result }
        ensures does { does self value.old value.new result };

    /// What it asks stays true of each list that begins with that one.
    ghost lasts: { (s : Self) (f : V.Fixed) (xs ys : List V.Entry) → asks s f xs → asks s f (xs ++ ys) };
}
