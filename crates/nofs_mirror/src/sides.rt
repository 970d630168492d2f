//! The two sides of a mirror: what a call asks of each, which of them are in, and what became of the calls.
pub(crate) mod calls;
pub(crate) mod choices;
pub(crate) mod log;
pub(crate) mod past;
