//! Tests of an evening whose files are durable, and of a day in which a call fails or a crash comes.
//!
//! - `stories`: the evening and the day
//! - `caches`: days over a cache that keeps writes back, which are stopped; `reads`: what is read of their files
//! - `crashes`: what a crash in a day may leave of a file, in each layout; `mirrors`: of the two files of a mirror;
//!   `recorder`: a file in memory that draws what a crash may leave
//! - `failing`: one call of the disk below a cache fails
//! - `salvages`: what a salvage prints of a crashed day; `walks`: the slow walk that tells what it is to print
//!
//! Promise: each run prints the lines that stand beside it, and ends with that status.
#![tactic(auto)]

#[cfg(test)]
mod tests;
