//! What an image means: its inodes, the values of their slots, their names, and which blocks are whose. An image is a
//! list of cells, one for each block.
//!
//! Promise: the plain slow functions answer the definitions of `specs/`. `docs/DEFINITIONS.md` tells them in prose.
//!
//! The parts, from the lowest up:
//!
//! - `image`: the cells and records of an image: tags, pointers, places of slots, entries.
//! - `slots`: what stands in a slot.
//! - `names`: which inodes have a name, by a chain of directories up to the root.
//! - `owner`: which slot has a block.
//! - `scan`: which inodes and blocks are used.
//! - `mountable`: whether an image can be mounted.
//! - `laws`: what the definitions say together.
//!
//! Each file of `specs/` has the words of one part; `Image` hands all of them on, and `Definitions` states each as a
//! fact by itself.
#![tactic(auto)]

mod image;
mod laws;
mod mountable;
mod names;
mod owner;
mod scan;
mod slots;

pub use image::entry::names_inode;
pub use image::path::PathAnswer;
pub use image::place::{Place, place_of, slot_number};
pub use image::tags::{is_tag, kind_in, record_pointer};
pub use image::value::Value;
pub use laws::{law_formatted, law_sound};
pub use mountable::is_mountable;
pub use names::agreed;
pub use owner::{is_slot, owner_of};
pub use scan::{ScanResult, full_scan};
pub use slots::value_of;
