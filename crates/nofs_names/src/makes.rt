//! Make: a new file or directory gets its inode and its first name.

pub(crate) mod new_file;
pub(crate) mod steps;
