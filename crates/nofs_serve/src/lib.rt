//! A mount serves its users: a worker for each on a thread of its own, beside the two sweepers and the flusher. Or it
//! serves one visitor on the calling thread, beside them.
//!
//! Promise: every worker comes back, and has done what its own kind promises.
//!
//! The parts, from the lowest up:
//!
//! - `teams`: who works, what each is lent, how all are started, and how their passes are gathered again.
//! - `session`: a team serves the users of a session.
//! - `visit`: a team serves one visitor.
//!
//! `specs/` and `proofs/On..` have a folder or a file for each part.
#![tactic(auto)]

mod session;
mod teams;
mod visit;

pub use session::{Served, serve};
pub use teams::team::{Plan, Sweeps, WriteOuts};
pub use teams::works::Visits;
pub use visit::{Visited, attend};
