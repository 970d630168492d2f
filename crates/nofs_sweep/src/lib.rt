//! Orders in which a sweep goes through the numbers below a count.
//!
//! Promise: the item of an item's place is that item, so each number below the count is the item of
//! some place. Items and places stay below the count.
#![tactic(auto)]

ghost use Rattle.std.specs.Prelude.{◌≡◌, ℕ, ◌-◌, ◌<◌};
ghost use Rattle.nofs_sweep.specs.Orders.{EachHasPlace};

/// A function from the count of an order and a place to the item of that place.
pub type ToItem = fn(u64, u64) -> u64;

/// A function from the count of an order and an item to the place of that item.
pub type ToPlace = fn(u64, u64) -> u64;

/// An order of the numbers below a count: the item of each place, and the place of each item. It
/// keeps two functions beside the facts that make them an order. They take no memory, and a
/// closure that captures nothing is one.
#[derive(Drop)]
pub struct SweepOrder {
    pub count: u64,
    to_item: ToItem,
    to_place: ToPlace,
    pub ghost item_may: { (place : ℕ) → place < count → ToItem.pre to_item count place },
    pub ghost item_below: { (place item : ℕ) → place < count → ToItem.post to_item count place item → item < count },
    pub ghost place_may: { (item : ℕ) → item < count → ToPlace.pre to_place count item },
    pub ghost place_below: { (item place : ℕ) → item < count → ToPlace.post to_place count item place → place < count },
    pub ghost inverse: { (item place found : ℕ) → item < count → ToPlace.post to_place count item place
        → ToItem.post to_item count place found → found ≡ item },
    pub ghost each: { ∥ EachHasPlace count (ToItem.post to_item count) ∥₁ },
}

impl SweepOrder {
    /// An order of the numbers below `count`. Both functions may be called below it and answer
    /// below it, each item has a place, and the item of an item's place is the item itself.
    pub fn new(count: u64, to_item: ToItem, to_place: ToPlace) -> Self
        requires item_may { (place : ℕ) → place < count → ToItem.pre to_item count place }
        requires item_below { (place item : ℕ) → place < count → ToItem.post to_item count place item → item < count }
        requires place_may { (item : ℕ) → item < count → ToPlace.pre to_place count item }
        requires place_below { (item place : ℕ) → item < count → ToPlace.post to_place count item place
            → place < count }
        requires inverse { (item place found : ℕ) → item < count → ToPlace.post to_place count item place
            → ToItem.post to_item count place found → found ≡ item }
        requires each { EachHasPlace count (ToItem.post to_item count) }
        ensures { (result.count ≡ count) × (result.to_item ≡ to_item) × (result.to_place ≡ to_place) }
    {
        SweepOrder {
            count,
            to_item,
            to_place,
        }
    }

    /// The item of a place.
    pub fn item(&self, place: u64) -> u64
        requires { place < self.now.count }
        ensures below { result < self.now.count }
        ensures item { ToItem.post self.now.to_item self.now.count place result }
        ensures each { ∥ EachHasPlace self.now.count (ToItem.post self.now.to_item self.now.count) ∥₁ }
    {
        (self.to_item)(self.count, place)
    }

    /// The place of an item.
    pub fn place(&self, item: u64) -> u64
        requires { item < self.now.count }
        ensures below { result < self.now.count }
        ensures place { ToPlace.post self.now.to_place self.now.count item result }
        ensures inverse { (found : ℕ) → ToItem.post self.now.to_item self.now.count result found → found ≡ item }
    {
        (self.to_place)(self.count, item)
    }
}
