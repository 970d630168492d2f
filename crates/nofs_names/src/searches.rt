//! A name is searched in a directory, cell by cell, and leads to an inode.
pub(crate) mod directories;
pub(crate) mod entries;
pub(crate) mod inodes;
pub(crate) mod pair_tests;
pub(crate) mod pairs;
pub(crate) mod slots;
