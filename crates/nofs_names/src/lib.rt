//! The steps on names: Look, List, Make, Link, Rename and Drop, over any disk that a mount stands on.
//!
//! Promise: each answers as the machine does, also where memory is wanting or a call of the disk fails, and leaves the
//! mount standing. What its writes leave after a crash is allowed by the entry that it adds.
//!
//! The parts, from the lowest up:
//!
//! - `searches`: a name is searched in a directory, slot by slot and place by place, and leads to an inode with its
//!   record.
//! - `entries`: a new entry: its place, what is claimed for it, and the cells and the record that are written.
//! - `looks`: Look, the file of a name.
//! - `lists`: List, the names in a slot of a directory.
//! - `makes`: Make, a new file or directory with its first name.
//! - `links`: Link, one more name for a file, with a back link in the file's record.
//! - `renames`: Rename, another name in the same directory, written in place.
//! - `drops`: Drop, a name goes, and with the last one the inode, its record and its blocks.
//!
//! A folder of `specs/` has the words of a part's contracts, and `proofs/On..` its lemmas; `OnSteps` has those that
//! all steps on names share.
#![tactic(auto)]

mod drops;
mod entries;
mod links;
mod lists;
mod looks;
mod makes;
mod renames;
mod searches;

pub use drops::steps::drop_name;
pub use links::steps::link;
pub use lists::{Listed, list};
pub use looks::look;
pub use makes::steps::make;
pub use nofs_history::{Found, NameLine};
pub use renames::rename;
