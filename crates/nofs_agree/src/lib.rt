//! Agreement on a disk: what a slot holds, and which inodes are agreed, read block by block.
//!
//! Promise: each check answers its definition of the disk's image, whatever the bytes are. It
//! changes no disk, takes no memory, and fails only where the disk's count of faults rose.
//!
//! - `reads`: a block and a record as they stand on the disk, and the last ones that were read
//! - `path`: the pointer of a slot and whether the blocks on its way agree
//! - `pair`, `chain`: whether an entry and a back link name each other, and whether such pairs lead to the root
//! - `known`, `learn`: what is known of which inodes are agreed, and how a walk adds to it
#![tactic(auto)]

mod chain;
mod known;
mod learn;
mod pair;
mod path;
mod reads;

pub use chain::{check_chain, is_agreed_link};
pub use known::Known;
pub use learn::learn_chain;
pub use nofs_model::PathAnswer;
pub use pair::read_pair;
pub use path::{check_path, find_slot};
pub use reads::{LastRead, read_block, read_inode};
