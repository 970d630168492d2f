//! The reader of an image for C: `include/nofs_reader.h` declares what stands here.
//!
//! Promise: each function answers as the call of `nofs_reader` that it makes, on any bytes and any arguments. It keeps
//! nothing, takes no memory, and writes only where it is told to: what an answer has no use for stays, but the marks of
//! a count.
#![tactic(auto)]

mod codes;
mod exports;
mod outs;

pub use exports::{
    nofs_reader_counts, nofs_reader_get, nofs_reader_look, nofs_reader_next, nofs_reader_stat,
    nofs_reader_superblock,
};
pub use outs::{CLine, CRun, CStat, CSuperblock};
