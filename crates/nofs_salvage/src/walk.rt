//! The walk: all directories from the root on, step by step.

pub(crate) mod directories;
pub(crate) mod lines;
pub(crate) mod slots;
pub(crate) mod steps;
pub(crate) mod walk;
