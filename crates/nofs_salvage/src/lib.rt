//! A walk that names what is lost on a disk: slots whose content is gone, names that lead to no file, and names that
//! stand twice in one directory.
//!
//! Promise: where nobody changes files meanwhile, the report is that of the definition. The walk only reads.
//!
//! The parts, from the lowest up:
//!
//! - `report`: what a walk reports, which names it is about, and what it keeps in hand.
//! - `walk`: all directories from the root on: their slots, their names line by line, and the slots of their files.
//!
//! `specs/` and `proofs/On..` have a folder for each part.
#![tactic(auto)]

mod report;
mod walk;

pub use report::fault::SalvageFault;
pub use report::filter::{All, NameFilter, NameRule, Prefix};
pub use report::report::{Loss, Report};
pub use walk::walk::salvage;
