//! Tests of devices, by calls from outside.
//!
//! - `tags`: worked bytes of tags, pointers and stamps
//! - `memdisk`, `filedisk`: the disk in memory, and the disk in a real file
//! - `pages`, `twins`: a file in pages, with one place for each and with two
//! - `cache`, `mirror`: the devices over others, of which calls fail; `disks` has what both begin with
//!
//! Promise: worked cases come out as derived by hand; nothing is promised of all cases.
#![tactic(auto)]

#[cfg(test)]
mod tests;
