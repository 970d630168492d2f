//! The rule of a turn: what its words hold, who may change what, and how passes stand in one order.
pub(crate) mod kept;
pub(crate) mod steps;
pub(crate) mod view;
