//! Tests of a mount that serves: users, sweepers and flushers, on threads and over a stand-in, and what a crash leaves.
//!
//! - `users`: a worker waits for its gate alone, a flusher makes no step, and what two threads leave in the history
//! - `runs`: runs of two users at a mount; `gates`: gates that hold a worker, and that note what it does
//! - `workers`: what each asks a stand-in for, and how it ends
//! - `crashes`: every image that a crash may leave of a few steps, each mounted and read
//! - `looks`: what a further look reads; `instances`: the instances of a mount's invariant are there
//!
//! Promise: worked cases come out as derived by hand; nothing is promised of all cases.
#![tactic(auto)]

#[cfg(test)]
mod tests;
