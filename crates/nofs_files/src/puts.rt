//! Put: bytes are stored in a slot of a file, and blocks are claimed for it where it has none.
pub(crate) mod cells;
pub(crate) mod claims;
pub(crate) mod content;
pub(crate) mod holes;
pub(crate) mod put;
pub(crate) mod steps;
