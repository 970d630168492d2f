//! Passes by which several callers make steps at one mount, and what each learns of the history.

pub(crate) mod batches;
pub(crate) mod shared_mount;
pub(crate) mod steps;
pub(crate) mod write_outs;
