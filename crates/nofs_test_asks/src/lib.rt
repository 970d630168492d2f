//! Mounts that tests ask step by step.
//!
//! - `asks`: steps as tables write them down, and what is told of their replies
//! - `mounts`: mounts of disks, of which blocks were examined
//!
//! Promise: each ends with a value or an error, so it is the test that judges.
#![tactic(auto)]

mod asks;
mod mounts;

pub use asks::{Ask, Cases, HandlePair, LABEL, S, follow, follow_as, told};
pub use mounts::{examined, mounted};
