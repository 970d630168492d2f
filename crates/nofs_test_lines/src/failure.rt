//! Why a case fails.

use std::alloc::AllocError;

/// Why a case fails.
#[derive(Clone, Copy)]
pub enum Failure {
    OutOfMemory,
    /// What is not as it is to be.
    Case(&'static str),
}

impl From<AllocError> for Failure {
    fn from(_: AllocError) -> Self {
        Failure::OutOfMemory
    }
}
