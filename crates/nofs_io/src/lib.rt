//! Where bytes come from and where they go, in pieces, with a count of faults.
//!
//! Promise: bytes are taken and given in order, none lost and none twice, in whatever pieces. A
//! call answers `Failed` only where its object's count of faults rose.
#![tactic(auto)]

pub mod adapters;
pub mod memory;
pub mod texts;
pub mod traits;

pub use adapters::{ReadSource, WriteSink};
pub use memory::{MemSink, MemSource};
pub use texts::{ReadFault, TEXT_LIMIT, read_all, write_all};
pub use traits::{Failed, Sink, Source};
