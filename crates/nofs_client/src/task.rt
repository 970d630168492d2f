//! A command as a task: the steps that it is made of, and what each reply makes of it.
pub(crate) mod answers;
pub(crate) mod commands;
pub(crate) mod lines;
pub(crate) mod names;
pub(crate) mod next;
pub(crate) mod places;
pub(crate) mod slots;
pub(crate) mod state;
pub(crate) mod steps;
