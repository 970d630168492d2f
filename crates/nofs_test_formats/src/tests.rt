//! The tests, by what they test, with what they share.

mod bits;
mod dirent;
mod inode;
mod lists;
mod ptrs;
mod sweep;
mod turn;
