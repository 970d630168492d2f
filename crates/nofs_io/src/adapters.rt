//! Readers and writers of std as sources and sinks.
//!
//! Promise: an error of std counts as a fault, and one that says that the call was interrupted is
//! tried again. What standard input and output really hold is not promised: they tell nothing.
ghost use Rattle.std.specs.Prelude.{◌≡◌};

use crate::traits::{Failed, Sink, Source};
use std::io::{ErrorKind, Read, Write};

/// A source over a reader of std. It tells what the reader tells.
#[derive(Drop)]
pub struct ReadSource<R: Read> {
    inner: R,
    faults: u64,
}

impl<R: Read> ReadSource<R> {
    /// The reader from where it stands, with no faults yet.
    pub fn new(inner: R) -> Self
        ensures { (result.inner ≡ inner) × (result.faults ≡ 0) }
    {
        ReadSource { inner, faults: 0 }
    }
}

impl<R: Read> Source for ReadSource<R> {
    ghost state = { λ s. record { left = R.remaining s.inner; faults = s.faults } };

    fn take(&mut self, into: &mut [u8]) -> Result<usize, Failed> {
        for _ in 0..u64::MAX {
            match self.inner.read(into) {
                Ok(count) => return Ok(count),
                Err(error) if error.kind() == ErrorKind::Interrupted => {}
                Err(_) => break,
            }
        }
        self.faults = self.faults.saturating_add(1);
        Err(Failed)
    }
}

/// A sink over a writer of std. It tells what the writer tells. A writer that takes nothing of a
/// piece that is not empty has failed.
#[derive(Drop)]
pub struct WriteSink<W: Write> {
    inner: W,
    faults: u64,
}

impl<W: Write> Sink for WriteSink<W> {
    ghost state = { λ s. record { given = W.contents s.inner; faults = s.faults } };

    fn give(&mut self, piece: &[u8]) -> Result<usize, Failed> {
        for _ in 0..u64::MAX {
            match self.inner.write(piece) {
                Ok(count) if count > 0 || piece.is_empty() => return Ok(count),
                Err(error) if error.kind() == ErrorKind::Interrupted => {}
                _ => break,
            }
        }
        self.faults = self.faults.saturating_add(1);
        Err(Failed)
    }
}

impl<W: Write> WriteSink<W> {
    /// The writer with what it took so far, and no faults yet.
    pub fn new(inner: W) -> Self
        ensures { (result.inner ≡ inner) × (result.faults ≡ 0) }
    {
        WriteSink { inner, faults: 0 }
    }
}
