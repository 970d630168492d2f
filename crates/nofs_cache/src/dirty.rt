//! The blocks that a write-back cache has yet to write, and what became of the calls that it got.
pub(crate) mod cells;
pub(crate) mod past;
pub(crate) mod writes;
