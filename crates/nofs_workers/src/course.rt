//! What a sweep goes along: an order, seen by the item of each place.
ghost use Rattle.std.specs.Prelude.{◌≡◌, ℕ, ◌<◌};

use nofs_sweep::{SweepOrder, ToItem};

/// An order of the numbers below a count.
pub trait Course {
    /// How many places it has.
    ghost count_of: { Self → ℕ };

    /// Which item a place can have.
    ghost has_item: { Self → ℕ → ℕ → Type 0 };

    /// The number of places.
    fn count(&self) -> u64
        ensures { result ≡ count_of self.now };

    /// The item of a place.
    fn item_at(&self, place: u64) -> u64
        requires { place < count_of self.now }
        ensures below { result < count_of self.now }
        ensures item { has_item self.now place result };
}

impl Course for SweepOrder {
    ghost count_of = { λ order. order.count };

    ghost has_item = { λ order. ToItem.post order.to_item order.count };

    fn count(&self) -> u64 {
        self.count
    }

    fn item_at(&self, place: u64) -> u64 {
        self.item(place)
    }
}
