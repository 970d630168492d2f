//! Whole texts: a source read to its end, and a text given to a sink.
//!
//! Promise: no byte is lost, none comes twice, and their order stays, in whatever pieces they come
//! and go. A fault is reported only where the object had one, and then a prefix was taken or given.
ghost use Rattle.std.specs.Prelude.{◌≡◌, ◌+◌, ◌<◌, ◌≤◌, ◌^◌, IfOk, OnOk, OnErr, IsErrOf, length, vec_len};
ghost use Rattle.std.specs.Io.KnownBytes.{IsAtEnd};
ghost use Rattle.nofs_io.specs.Calls.{HasCause, CountRose};
ghost use Rattle.nofs_io.specs.Texts.{AppendsAll, AppendsPart, IsWhole, MovesBehind, TakesAtMost, TakesJust};
ghost use Rattle.nofs_io.specs.declared.texts.ReadFault.TheVariants.{OutOfMemory};

use crate::traits::{Failed, Sink, Source};
use std::alloc::{AllocError, Global};

/// How many bytes a text may have, 16 MiB.
pub const TEXT_LIMIT: usize = 16_777_216;

/// How many bytes are asked of a source at once.
const PIECE: usize = 65_536;

/// Why a source was not read to its end.
#[derive(Clone, Copy, Debug, PartialEq, Eq)]
pub enum ReadFault {
    /// A call of the source failed.
    Source,
    /// The source had more bytes than the limit.
    TooLong,
    /// No memory for the bytes.
    OutOfMemory,
}

impl From<AllocError> for ReadFault {
    ghost from_gives = { λ _ fault. fault ≡ OutOfMemory };

    fn from(_: AllocError) -> Self {
        ReadFault::OutOfMemory
    }
}

/// All the bytes that a source has left, where they are not more than `limit`. It takes at most
/// `limit` and one more.
///
/// `TooLong` comes where it took `limit + 1` bytes, `Source` where a call failed. In whatever way
/// it ends, what it took is a prefix of what was left.
pub fn read_all<S: Source>(
    alloc: Global,
    source: &mut S,
    limit: usize,
) -> Result<Vec<u8>, ReadFault>
    requires { limit < 2 ^ 32 }
    ensures whole { IfOk result (λ bytes. IsWhole (S.state source.old) (S.state source.new) bytes.items limit) }
    ensures too_long { IsErrOf result ReadFault.TooLong
        → TakesJust (S.state source.old) (S.state source.new) (limit + 1) }
    ensures fault { IsErrOf result ReadFault.Source
        → CountRose (S.state source.old).faults (S.state source.new).faults }
    ensures later { (S.state source.old).faults ≤ (S.state source.new).faults }
    ensures taken { TakesAtMost (S.state source.old) (S.state source.new) (limit + 1) }
{
    let mut bytes = Vec::new(alloc);
    let mut piece = cleared(alloc, PIECE)?;
    while bytes.len() <= limit {
        let room = PIECE.min(limit + 1 - bytes.len());
        if take_piece(source, &mut piece[..room], &mut bytes)? == 0 {
            return Ok(bytes);
        }
    }
    Err(ReadFault::TooLong)
}

/// Takes one piece, appends it to the bytes read before, and answers its length, 0 at the end.
fn take_piece<S: Source>(
    source: &mut S,
    piece: &mut [u8],
    bytes: &mut Vec<u8>,
) -> Result<usize, ReadFault>
    ensures moved { OnOk result
        (MovesBehind (S.state source.old) (S.state source.new) bytes.old.items bytes.new.items) }
    ensures count { IfOk result
        (λ count. (count ≤ length piece.old) × (vec_len bytes.new ≡ vec_len bytes.old + count)) }
    ensures ended { IfOk result (λ count. count ≡ 0 → 0 < length piece.old → IsAtEnd (S.state source.new).left) }
    ensures taken { OnErr result (TakesAtMost (S.state source.old) (S.state source.new) (length piece.old)) }
    ensures fault { IsErrOf result ReadFault.Source
        → CountRose (S.state source.old).faults (S.state source.new).faults }
    ensures later { (S.state source.old).faults ≤ (S.state source.new).faults }
    ensures short { IsErrOf result ReadFault.TooLong → ⊥ }
{
    let count = match source.take(piece) {
        Ok(count) => count,
        Err(_) => return Err(ReadFault::Source),
    };
    bytes.extend_from_slice(&piece[..count])?;
    Ok(count)
}

/// So many zeros.
fn cleared(alloc: Global, len: usize) -> Result<Vec<u8>, AllocError>
    ensures { IfOk result (λ bytes. vec_len bytes ≡ len) }
{
    vec![in alloc; 0u8; len]
}

/// Gives a whole text to a sink. `Failed` comes where a call failed, and then the sink took less
/// than the whole text, from its front.
pub fn write_all<K: Sink>(sink: &mut K, text: &[u8]) -> Result<(), Failed>
    ensures whole { OnOk result (AppendsAll (K.state sink.old) (K.state sink.new) text.now) }
    ensures part { OnErr result (AppendsPart (K.state sink.old) (K.state sink.new) text.now) }
    ensures cause { HasCause (K.state sink.old).faults (K.state sink.new).faults result }
{
    let mut at = 0;
    while at < text.len() {
        at += sink.give(&text[at..])?;
    }
    Ok(())
}
