//! The scans of a mounted disk: which inodes and which blocks are used.
//!
//! Promise: each verdict that the maps get is that of the disk, and one that stands stays. Once each element was
//! examined, the maps are the full scan of the disk.
//!
//! The parts, from the lowest up:
//!
//! - `sights`: what is read of an element at one look, and the verdict that follows from it alone, with no device.
//! - `steps`: one element is examined in one step; several are looked at together; a verdict that was found is
//!   committed later.
//! - `laws`: what the scans come to.
//!
//! `specs/` and `proofs/On..` have a folder for each part.
#![tactic(auto)]

mod laws;
mod sights;
mod steps;

pub use laws::law_scanned;
pub use nofs_history::ElementKind;
pub use sights::evidence::{Evidence, judge};
pub use steps::commits::commit;
pub use steps::entries::step_of;
pub use steps::looks::look_batch;
pub use steps::sees::{see_block, see_inode};
