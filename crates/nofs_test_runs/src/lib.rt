//! Tests of whole runs of the program's call that are more than a session and its lines: they are over a file or a
//! mirror, or what a crash in them leaves is drawn. The others are the cases of `nofs_rows`.
//!
//! Runs over disks that hold what was written:
//! - `files`: an image in a file of the host
//! - `mirrors`: a side of a mirror fails
//! - `instance`: disks on which the premises of the headline are met, in memory and in a file in each layout
//!
//! Runs over images that were laid down cell by cell, and over what a crash leaves:
//! - `images`: a long chain of directories is counted
//! - `lives`: chains of lives, each of which ends with a crash
//!
//! Promise: each run prints the lines that stand beside it, and ends with that status.
#![tactic(auto)]

#[cfg(test)]
mod tests;
