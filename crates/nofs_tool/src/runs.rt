//! A run of the program: what it ends with, by its task.

pub(crate) mod outcomes;
pub(crate) mod says;
pub(crate) mod sessions;
pub(crate) mod tasks;
pub(crate) mod texts;
pub(crate) mod tool;
