//! A disk in a file: 1,056 bytes a cell, and zeros past the end.
//!
//! Promise: over a file that tells its bytes it is a disk that tells all: what a read gives, and what a
//! crash may leave at each moment. A flush puts all cells into the file and makes its bytes durable, and
//! a call fails only where one of the file's did. That the system's file is such a file is not proved.
//!
//! - `positioned`, `moving`: a file that is read and written by position, and whole parts of it
//! - `adapter`, `memory`: a file of the host, which tells nothing, and one in memory, which tells its bytes
//! - `windows`, `run`: cells that were read and are kept, and those that wait to be written in one call
//! - `contents`: the file with its windows and its run
//! - `past`, `filedisk`: the calls that were made, and the disk
#![tactic(auto)]

mod adapter;
mod contents;
mod filedisk;
mod memory;
mod moving;
mod past;
mod positioned;
mod run;
mod windows;

pub use adapter::HostFile;
pub use filedisk::FileDisk;
pub use memory::MemFile;
pub use moving::{read_part, write_part};
pub use positioned::Positioned;
