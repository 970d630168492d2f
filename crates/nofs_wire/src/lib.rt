//! Steps of a mount as frames of bytes, and the replies to them.
//!
//! Promise: however the source cuts its pieces, the steps made are those of the frames that came, in order, and what
//! is written are their replies.
//!
//! The parts, from the lowest up:
//!
//! - `frames`: how bytes split into frames, the step that a body spells, and the bytes of a reply (docs/FORMAT.md,
//!   "Frames").
//! - `server`: frames come from a source, each one's step is made, and its reply goes to a sink.
//!
//! `specs/` and `proofs/On..` have a folder for each part.
#![tactic(auto)]

mod frames;
mod server;

pub use server::serve::{STREAM_LIMIT, WireEnd, serve, serve_up_to};
