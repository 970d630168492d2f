//! Tests of the passes of a mount of a disk in memory, by calls from outside. Steps and their replies alone are the
//! cases of `nofs_rows`.
//!
//! - `passes`, `verdicts`: passes of one mount, and verdicts that are committed after steps of another pass
//! - `write_outs`: what a cache keeps back
//! - `mounts`: what these tests share
//!
//! Promise: worked cases come out as derived by hand; nothing is promised of all cases.
#![tactic(auto)]

#[cfg(test)]
mod tests;
