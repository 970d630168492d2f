//! The upgrade of an image that isn't mounted: version 1 becomes version 2, in which files reach past
//! their leaf.
//!
//! Promise: whenever a crash comes, it leaves an image that could be there before, or such an image in
//! which the version and the tag of block 0 alone differ, with the same files, owners and verdicts. A
//! refusal that is no fault of writing leaves the disk as it was.
//!
//! - `fault`: why an upgrade is refused
//! - `upgrading`, `second`: the upgrade, and its one write
//! - `laws`: what an upgrade is between two lives
#![tactic(auto)]

mod fault;
mod laws;
mod second;
mod upgrading;

pub use fault::UpgradeFault;
pub use laws::law_upgrade;
pub use upgrading::upgrade;
