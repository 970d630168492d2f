//! A line of the index.
//!
//! Promise: over any disk its name is one that a file can have.
ghost use Rattle.std.specs.Prelude.{◌≡◌, true, IfSome};
ghost use Rattle.nofs_dirent.specs.Names.{is_name};

use nofs_dirent::Name;
use nofs_history::Found;

/// A name in a directory, which a file can have, and the file to which it leads.
#[derive(Drop)]
pub struct Line {
    pub(crate) directory: u32,
    pub(crate) generation: u64,
    pub(crate) name: Name,
    pub(crate) found: Found,
    ghost good: { is_name name ≡ true },
}

impl Line {
    /// The file, where the line is of this name.
    pub(crate) fn found(&self, directory: u32, generation: u64, name: &[u8]) -> Option<Found>
        ensures of { IfSome result (λ it. (self.now.directory ≡ directory) × (self.now.generation ≡ generation)
            × (self.now.name ≡ name.now)) }
        ensures is { IfSome result (λ it. self.now.found ≡ it) }
    {
        let is_of = self.directory == directory && self.generation == generation;
        if is_of && self.name.as_slice() == name {
            return Some(self.found);
        }
        None
    }
}
