//! Pages that are read and put by their numbers, each with three cells.
//!
//! Promise: what a page shows is what was put there last, and one that can't be told shows nothing. A page is put only
//! where what the file has of it is durable: so between two syncs no page is written twice, and whatever of a page is
//! under way in a crash, there is one content before it, which is durable, and one behind it.
ghost use Rattle.std.specs.Prelude.{◌⊎◌, ◌+◌, ◌*◌, ◌<◌, ◌≤◌, ℕ, IfOk, IsTrue, OnOk, length};
ghost use Rattle.nofs_pages.specs.Stores.{IsStore, Puts, Shows, SyncsPages};
ghost use Rattle.nofs_pages.specs.Views.{StoreState};

use nofs_disk::Failed;

/// The pages of a file. A call answers `Failed` only where the count of faults rose in it.
pub trait PageStore {
    /// What contracts see of them.
    ghost state: { Self → StoreState };

    /// What the file has of a page is durable.
    ghost rests: { Self → ℕ → Type 0 };

    /// What the file has of a page is what was put there, or nothing ever was.
    ghost told: { Self → ℕ → Type 0 };

    /// Shows the cells of some pages, at most 32, from a place on. It answers false where one of them can't be told.
    fn show(&mut self, first: u64, count: usize, into: &mut [u8], to: usize) -> Result<bool, Failed>
        requires place { first + count ≤ 349526 }
        requires count { count ≤ 32 }
        requires into { to + 3168 * count ≤ length into.old }
        ensures shows { Shows (state self.old) (state self.new) first count to into.old into.new result }
        ensures told { IfOk result (λ all. IsTrue all → (j : ℕ) → j < count → told self.new (first + j)) }
        ensures stays_told { (p : ℕ) → told self.old p → told self.new p }
        ensures rests { (p : ℕ) → rests self.old p → rests self.new p };

    /// Puts some pages, at most 32, with these cells. Where it fails, each has any of the bytes that it had, and of
    /// those that it was to get.
    fn put(&mut self, first: u64, count: usize, areas: &[u8]) -> Result<(), Failed>
        requires place { first + count ≤ 349526 }
        requires count { count ≤ 32 }
        requires areas { 3168 * count ≤ length areas.now }
        requires rests { (p : ℕ) → first ≤ p → p < first + count → ∥ rests self.old p ∥₁ }
        ensures puts { Puts (state self.old) (state self.new) first count areas.now result }
        ensures rests { (p : ℕ) → (p < first) ⊎ (first + count ≤ p) → rests self.old p → rests self.new p };

    /// Makes what the file has durable.
    fn sync(&mut self) -> Result<(), Failed>
        ensures syncs { SyncsPages (state self.old) (state self.new) result }
        ensures rests { OnOk result ((p : ℕ) → rests self.new p) };

    ghost is_store: { (store : Self) → IsStore (state store) };
}
