//! What a mirror was opened with, and why one was not.
//!
//! Promise: plain data: what is said of it stands with the mirror.
use crate::sides::past::Span;

/// How many blocks a mirror has, and the moments of both sides at its opening.
#[derive(Clone, Copy)]
pub struct MirrorStart {
    /// The blocks of the mirror.
    pub blocks: u64,
    /// The moments of the lead.
    pub lead: Span,
    /// The moments of the other.
    pub other: Span,
}

/// Why a mirror was not opened.
#[derive(Clone, Copy, Debug, PartialEq, Eq)]
pub enum MirrorCause {
    /// A side has fewer blocks than the mirror is to have: so many has each.
    TooSmall { lead: u64, other: u64 },
    /// The lead could not be read. Part of the copy may stand on the other.
    ReadFault,
    /// There is no memory for the calls of the other.
    OutOfMemory,
}
