//! The search through the calls for one of the cells that a block may hold.
ghost use Rattle.std.specs.Prelude.{◌≡◌, ◌^◌, ◌<◌, ◌≤◌, ◌+◌};
ghost use Rattle.nofs_versions.specs.Memory.{count_after, searched};

use crate::call::Call;
use nofs_disk::Cell;

/// What a search has found so far.
#[derive(Clone, Copy)]
pub struct Search {
    /// How many cells the block may hold.
    pub count: u64,
    /// The last of them.
    pub last: Cell,
    /// The one that is sought, where it has come.
    pub found: Cell,
}

/// The search after one call more.
pub fn search_on(search: &Search, block: u64, version: u64, call: &Call) -> Search
    requires { search.now.count < 2 ^ 63 }
    ensures value { result ≡ searched search.now block version call.now }
    ensures more { result.count ≤ search.now.count + 1 }
{
    match call {
        Call::Write {
            block: at,
            cell,
            taken,
        } => {
            if *taken && *at == block {
                Search {
                    count: search.count + 1,
                    last: *cell,
                    found: if search.count == version {
                        *cell
                    } else {
                        search.found
                    },
                }
            } else {
                *search
            }
        }
        Call::Flush { settles } => {
            if *settles {
                Search {
                    count: 1,
                    last: search.last,
                    found: if version == 0 {
                        search.last
                    } else {
                        search.found
                    },
                }
            } else {
                *search
            }
        }
    }
}

/// How many cells a block may hold after a call.
pub fn choices_after(block: u64, count: u64, call: &Call) -> u64
    requires { count < 2 ^ 63 }
    ensures value { result ≡ count_after block count call.now }
    ensures more { result ≤ count + 1 }
{
    match call {
        Call::Write {
            block: at,
            taken,
            ..
        } => {
            if *taken && block == *at {
                count + 1
            } else {
                count
            }
        }
        Call::Flush { settles } => if *settles { 1 } else { count },
    }
}
