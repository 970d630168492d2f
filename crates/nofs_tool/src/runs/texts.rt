//! The session that a source gives.
//!
//! Promise: it is that of all bytes that the source had left, in whatever pieces they came. They are read to their end,
//! or to the limit, also behind a bad line, so that the faults of a source come before those of its text. No more is
//! kept of them than one line and the commands.
ghost use Rattle.std.specs.Prelude.{◌≡◌, ◌+◌, ◌<◌, ◌≤◌, ◌^◌, ℕ, IfOk, IsErrOf, OnErr, length, vec_len};
ghost use Rattle.std.specs.Io.KnownBytes.{IsAtEnd};
ghost use Rattle.nofs_io.specs.Calls.{CountRose};
ghost use Rattle.nofs_io.specs.Texts.{TakesAtMost, TakesJust};
ghost use Rattle.nofs_script.specs.Pieces.{IsWithin, Spells};
ghost use Rattle.nofs_script.specs.Session.{IsSession};
ghost use Rattle.nofs_tool.specs.Runs.Texts.{HasReadOn};
ghost use Rattle.nofs_tool.specs.Runs.Tool.{WithText};

use nofs_io::{ReadFault, Source};
use nofs_script::{ParseFault, Session, SessionReader};
use std::alloc::{AllocError, Global};

// How many bytes are asked of a source at once.
const PIECE: usize = 65_536;

// So many zeros.
fn cleared(alloc: Global, len: usize) -> Result<Vec<u8>, AllocError>
    ensures { IfOk result (λ bytes. vec_len bytes ≡ len) }
{
    vec![in alloc; 0u8; len]
}

// Takes the next piece of a source, and reads it. It answers how many bytes that has, 0 at the end.
fn read_next<S: Source>(
    source: &mut S,
    piece: &mut [u8],
    reader: SessionReader,
) -> Result<(usize, SessionReader), ReadFault>
    requires { IfOk reader.reading (λ lines. lines.number + length piece.old < 2 ^ 64) }
    ensures read { IfOk result (λ r. HasReadOn (S.state source.old) (S.state source.new) reader r.1 r.0) }
    ensures count { IfOk result (λ r. r.0 ≤ length piece.old) }
    ensures number { IfOk result (λ r. (n : ℕ) → IsWithin reader n → IsWithin r.1 (n + r.0)) }
    ensures ended { IfOk result (λ r. r.0 ≡ 0 → 0 < length piece.old → IsAtEnd (S.state source.new).left) }
    ensures taken { OnErr result (TakesAtMost (S.state source.old) (S.state source.new) 0) }
    ensures fault { OnErr result (CountRose (S.state source.old).faults (S.state source.new).faults) }
    ensures cause { OnErr result (IsErrOf result ReadFault.Source) }
    ensures later { (S.state source.old).faults ≤ (S.state source.new).faults }
{
    match source.take(piece) {
        Ok(count) => Ok((count, reader.with_piece(&piece[..count]))),
        Err(_) => Err(ReadFault::Source),
    }
}

/// The session that a source's text spells, where that has at most `limit` bytes. It takes at most `limit` and one
/// more.
///
/// `TooLong` comes where it took `limit + 1` bytes, `Source` where a call failed. In whatever way it ends, what it took
/// is a prefix of what was left.
pub(crate) fn read_session<S: Source>(
    alloc: Global,
    source: &mut S,
    limit: usize,
) -> Result<Result<Session, ParseFault>, ReadFault>
    requires { limit < 2 ^ 32 }
    ensures whole { IfOk result
        (λ read. WithText (S.state source.old) (S.state source.new) limit (λ text. Spells text read)) }
    ensures session { IfOk result (λ read. IfOk read IsSession) }
    ensures too_long { IsErrOf result ReadFault.TooLong
        → TakesJust (S.state source.old) (S.state source.new) (limit + 1) }
    ensures fault { IsErrOf result ReadFault.Source
        → CountRose (S.state source.old).faults (S.state source.new).faults }
    ensures later { (S.state source.old).faults ≤ (S.state source.new).faults }
    ensures taken { TakesAtMost (S.state source.old) (S.state source.new) (limit + 1) }
{
    let mut piece = cleared(alloc, PIECE)?;
    let mut reader = SessionReader::new(alloc);
    let mut taken = 0;
    while taken <= limit {
        let room = PIECE.min(limit + 1 - taken);
        let (count, next) = read_next(source, &mut piece[..room], reader)?;
        if count == 0 {
            return Ok(next.end());
        }
        taken += count;
        reader = next;
    }
    Err(ReadFault::TooLong)
}
