//! The two plain orders in which sweeps go over their elements.
//!
//! Promise: upwards, the item of a place is the place itself; downwards, it is the one as far from the other end.

use crate::course::Course;

/// The order from 0 to the last number below a count.
#[derive(Clone, Copy, Debug, PartialEq, Eq)]
pub struct Upwards {
    pub count: u64,
}

impl Course for Upwards {
    ghost use Rattle.std.specs.Prelude.{◌≡◌};

    ghost count_of = { λ it. it.count };

    ghost has_item = { λ _ place item. item ≡ place };

    fn count(&self) -> u64 {
        self.count
    }

    fn item_at(&self, place: u64) -> u64 {
        place
    }
}

/// The order from the last number below a count to 0.
#[derive(Clone, Copy, Debug, PartialEq, Eq)]
pub struct Downwards {
    pub count: u64,
}

impl Course for Downwards {
    ghost use Rattle.std.specs.Prelude.{◌≡◌, ◌-◌};

    ghost count_of = { λ it. it.count };

    ghost has_item = { λ it place item. item ≡ it.count - 1 - place };

    fn count(&self) -> u64 {
        self.count
    }

    fn item_at(&self, place: u64) -> u64 {
        self.count - 1 - place
    }
}
