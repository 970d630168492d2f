//! Tests of what goes in and out, over a stand-in for a mount: frames, and texts in pieces.
//!
//! - `cases`: streams of frames, with the steps and the replies of each; `served`: how a stream is served
//! - `streams`, `in_turn`: what becomes of them, and how many calls they cost
//! - `pieces`: texts in pieces, calls that fail, and std's readers and writers
//!
//! Promise: worked cases come out as derived by hand; nothing is promised of all cases.
#![tactic(auto)]

#[cfg(test)]
mod tests;
