//! A disk that finds memory for its calls only so often.
//!
//! Promise: it is the disk below it but in this.

use nofs_disk::{Cell, Disk, Failed};
use std::alloc::AllocError;

/// A disk over one below.
#[derive(Drop)]
pub struct Unready<D: Disk + Drop> {
    pub under: D,
    /// How often it still finds memory.
    pub rooms: u64,
}

impl<D: Disk + Drop> Disk for Unready<D> {
    ghost state = { λ d. D.state d.under };

    ghost is_disk = { λ d. D.is_disk d.under };

    fn blocks(&self) -> u64 {
        self.under.blocks()
    }

    fn moment(&self) -> u64 {
        self.under.moment()
    }

    fn ready(&mut self, calls: u64) -> Result<(), AllocError> {
        if self.rooms == 0 {
            return Err(AllocError);
        }
        self.rooms -= 1;
        self.under.ready(calls)
    }

    fn read(&mut self, block: u64, into: &mut Cell) -> Result<(), Failed> {
        self.under.read(block, into)
    }

    fn write(&mut self, block: u64, cell: &Cell) -> Result<(), Failed> {
        self.under.write(block, cell)
    }

    fn flush(&mut self) -> Result<(), Failed> {
        self.under.flush()
    }

    fn write_out(&mut self) -> Result<Option<u64>, Failed> {
        self.under.write_out()
    }
}
