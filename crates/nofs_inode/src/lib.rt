//! Records of the inode table: what the table says of each file and directory.
//!
//! Promise: a record has one spelling. A reader answers `None` exactly where the bytes are no
//! spelling, what is written is read back, and a write leaves every other byte of the cell.
//!
//! - `inode`: the record, its back links, and its bytes
#![tactic(auto)]

pub mod inode;

pub use inode::{BackLink, FREE_RECORD, FileKind, Record, read_record, record_at, write_record};
