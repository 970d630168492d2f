//! The interfaces of a source of bytes and of a sink for bytes.
//!
//! Promise: a source gives the bytes that are left from the front, a sink appends what it takes,
//! and a call answers `Failed` only where the object's count of faults rose.
ghost use Rattle.nofs_io.specs.Calls.{Gives, SinkState, SourceState, Takes};

/// A call of a source or of a sink has failed, and the object's count of faults rose.
#[derive(Clone, Copy, Debug, PartialEq, Eq)]
pub struct Failed;

/// A source of bytes, as standard input. It may tell which bytes are left.
pub trait Source {
    /// What contracts see of it.
    ghost state: { Self → SourceState };

    /// Takes bytes from the front into the front of `into`, and answers how many. It answers 0 for
    /// an `into` that is not empty only where nothing is left. Where it fails, it took nothing.
    fn take(&mut self, into: &mut [u8]) -> Result<usize, Failed>
        ensures { Takes (state self.old) (state self.new) result into.new };
}

/// A sink for bytes, as standard output. It may tell which bytes it took.
pub trait Sink {
    /// What contracts see of it.
    ghost state: { Self → SinkState };

    /// Appends a prefix of the piece and answers its length, at least 1 for a piece that is not
    /// empty. Where it fails, it appended nothing.
    fn give(&mut self, piece: &[u8]) -> Result<usize, Failed>
        ensures { Gives (state self.old) (state self.new) result piece.now };
}
