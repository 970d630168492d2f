//! The names of a directory that were met so far.
//!
//! Promise: a name is fresh exactly where it was not met before.
ghost use Rattle.std.specs.Prelude.{◌≡◌, ℕ, ◌||◌, not, false, List, IfOk, OnOk, bytes_eq};
ghost use Rattle.nofs_salvage.specs.Report.Trees.{is_seen};

use std::alloc::{AllocError, Global};
use std::collections::BTreeSet;

/// A set of names.
#[derive(Drop)]
pub struct SeenNames {
    names: BTreeSet<Vec<u8>>,
}

impl SeenNames {
    /// No name was met yet.
    pub fn new(alloc: Global) -> Self
        ensures { (name : List ℕ) → is_seen result name ≡ false }
    {
        SeenNames {
            names: BTreeSet::new(alloc),
        }
    }

    /// Meets a name. Whether it is fresh.
    pub fn meet(&mut self, alloc: Global, name: &[u8]) -> Result<bool, AllocError>
        ensures fresh { IfOk result (λ fresh. fresh ≡ not (is_seen self.old name.now)) }
        ensures met { OnOk result
            ((other : List ℕ) → is_seen self.new other ≡ (bytes_eq other name.now || is_seen self.old other)) }
    {
        let key = Vec::from_slice(alloc, name)?;
        let fresh = self.names.insert(key)?;
        Ok(fresh)
    }
}
