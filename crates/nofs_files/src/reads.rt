//! The steps that change no file: Get, Stat and Flush.
pub(crate) mod files;
pub(crate) mod flushes;
pub(crate) mod gets;
pub(crate) mod stats;
