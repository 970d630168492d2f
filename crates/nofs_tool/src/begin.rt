//! How a run begins: its words, the mount that is made for them, and the line of what went wrong.
pub(crate) mod lines;
pub(crate) mod mounts;
pub(crate) mod words;
