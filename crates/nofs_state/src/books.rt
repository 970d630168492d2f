//! What a mount keeps in memory: a map of what was examined and what is free, the next stamp, and the history.

pub(crate) mod counts;
pub(crate) mod freed;
pub(crate) mod maps;
pub(crate) mod verdicts;
