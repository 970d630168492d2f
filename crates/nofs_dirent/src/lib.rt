//! Entries of a directory, and the names that they can have.
//!
//! Promise: an entry has one spelling. A reader answers `None` exactly where the bytes are no
//! spelling, what is written is read back, and a write leaves every other byte of the cell.
#![tactic(auto)]

mod entry;
mod lists;
mod name;

pub use entry::{
    ENTRY_LIMIT, Entry, bytes_of, clear_entry, find_name, has_name, has_zeros_after, is_entry,
    read_entry, write_entry,
};
pub use lists::{Content, ListOf, Name, PathNames};
pub use name::name_ok;
