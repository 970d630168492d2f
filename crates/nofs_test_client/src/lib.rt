//! Tests of those who make steps, over a stand-in for a mount, and of the texts that they read.
//!
//! - `standin`: the stand-in itself
//! - `commands`, `salvage`: the steps of commands and walks, and what becomes of the replies
//! - `texts`, `told`, `draws`: digits and refusals, lines that a sink is told, and drawn scripts
//!
//! Promise: worked cases come out as derived by hand; nothing is promised of all cases.
#![tactic(auto)]

#[cfg(test)]
mod tests;
