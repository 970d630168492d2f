//! A server: frames come from a source, their steps are made, and replies go to a sink.

pub(crate) mod answers;
pub(crate) mod buffers;
pub(crate) mod serve;
