//! Resize: a file gets another size, and the blocks behind it are free.
pub(crate) mod cuts;
pub(crate) mod steps;
