//! The writes of one step: up to four cells, and the pointer of a slot among them.

pub(crate) mod cells;
pub(crate) mod ends;
pub(crate) mod pointers;
