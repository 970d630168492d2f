//! A new entry: its place, what is claimed for it, and the cells and the record that are written.

pub(crate) mod cells;
pub(crate) mod claims;
pub(crate) mod places;
pub(crate) mod tables;
pub(crate) mod writes;
