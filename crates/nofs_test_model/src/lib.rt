//! Tests of what an image means and of what a history says, by calls from outside.
//!
//! - `images`: the example images by their names, and disks of them
//! - `examples`: what the definitions say of each
//! - `agree`: what the checks say of each, read by read
//! - `history`, `accepted`: entries in their order, and the lists of what was accepted
//! - `upgrade`: which fault stops an upgrade
//! - `given_cells`: disks of given cells
//!
//! Promise: worked cases come out as derived by hand; nothing is promised of all cases.
#![tactic(auto)]

#[cfg(test)]
mod tests;
