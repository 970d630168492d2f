//! Tests of the formats, and of the small parts that stand on no disk, by calls from outside.
//!
//! - `inode`, `ptrs`, `dirent`: worked bytes of records, pointers and entries
//! - `lists`, `bits`, `sweep`: lists of items, maps of bits, and orders of a sweep
//! - `turn`: turns and passes, on one thread and on several
//!
//! Promise: worked cases come out as derived by hand; nothing is promised of all cases.
#![tactic(auto)]

#[cfg(test)]
mod tests;
