//! One caller at work on the calling thread, beside the sweeps: a visit, a salvage, and the frames of a source.
pub(crate) mod salvage;
pub(crate) mod visit;
pub(crate) mod wire;
