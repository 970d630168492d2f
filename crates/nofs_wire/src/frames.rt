//! Frames as bytes: how a stream splits into them, the step that one spells, and the bytes of its reply.
pub(crate) mod replies;
pub(crate) mod requests;
pub(crate) mod split;
