//! The bytes of a reply (docs/FORMAT.md, "Frames").
//!
//! Promise: the bytes are those of the reply, behind what stood there, and nothing else.
ghost use Rattle.std.specs.Prelude.{◌≡◌, ◌<◌, ◌≤◌, ◌^◌, ◌∷◌, ◌++◌, [], All, OnOk, drop, flat_map, length, vec_len};
ghost use Rattle.nofs_wire.specs.Frames.Replies.{HasSpelling, FitsOneByte, body_bytes, field_bytes};
ghost use Rattle.nofs_wire.specs.Frames.Replies.{first_byte as byte_of_reply, kept_bytes, line_bytes};
ghost use Rattle.nofs_wire.specs.Frames.Replies.{refusal_byte as byte_of_refusal, reply_bytes};
ghost use Rattle.nofs_wire.specs.Frames.Fields.{kind_byte as byte_of_kind, name_bytes, number_bytes, truth_byte};

use crate::frames::split::LENGTH_BYTES;
use byteorder::{ByteOrder, LittleEndian};
use nofs_history::{Found, NameLine, NameList, Refusal, Reply, Stat};
use nofs_inode::inode::FileKind;
use std::alloc::AllocError;

#[tactic(auto, unfolding(crate::specs::Frames::Fields::number_bytes))]
fn push_u32(out: &mut Vec<u8>, number: u32) -> Result<(), AllocError>
    ensures { OnOk result (out.new.items ≡ out.old.items ++ number_bytes 4 number) }
{
    let mut bytes = [0; 4];
    LittleEndian::write_u32(&mut bytes, number);
    out.extend_from_slice(&bytes)
}

#[tactic(auto, unfolding(crate::specs::Frames::Fields::number_bytes))]
fn push_u64(out: &mut Vec<u8>, number: u64) -> Result<(), AllocError>
    ensures { OnOk result (out.new.items ≡ out.old.items ++ number_bytes 8 number) }
{
    let mut bytes = [0; 8];
    LittleEndian::write_u64(&mut bytes, number);
    out.extend_from_slice(&bytes)
}

fn push_byte(out: &mut Vec<u8>, byte: u8) -> Result<(), AllocError>
    ensures { OnOk result (out.new.items ≡ out.old.items ++ byte ∷ []) }
{
    out.push(byte)?;
    Ok(())
}

fn kind_byte(kind: FileKind) -> u8
    ensures { result ≡ byte_of_kind kind }
{
    match kind {
        FileKind::File => 1,
        FileKind::Directory => 2,
    }
}

fn push_truth(out: &mut Vec<u8>, truth: bool) -> Result<(), AllocError>
    ensures { OnOk result (out.new.items ≡ out.old.items ++ truth_byte truth ∷ []) }
{
    if truth {
        push_byte(out, 1)
    } else {
        push_byte(out, 0)
    }
}

fn push_name(out: &mut Vec<u8>, name: &[u8]) -> Result<(), AllocError>
    requires { length name.now < 256 }
    ensures { OnOk result (out.new.items ≡ out.old.items ++ name_bytes name.now) }
{
    push_byte(out, name.len() as u8)?;
    out.extend_from_slice(name)
}

#[tactic(auto, unfolding(crate::specs::Frames::Replies::line_bytes))]
fn push_line(out: &mut Vec<u8>, line: &NameLine) -> Result<(), AllocError>
    requires { FitsOneByte line.now }
    ensures { OnOk result (out.new.items ≡ out.old.items ++ line_bytes line.now) }
{
    push_byte(out, kind_byte(line.kind))?;
    push_truth(out, line.dead)?;
    push_name(out, line.name.as_slice())
}

fn push_lines(out: &mut Vec<u8>, lines: &NameList) -> Result<(), AllocError>
    requires { All FitsOneByte lines.now }
    ensures { OnOk result (out.new.items ≡ out.old.items ++ flat_map line_bytes lines.now) }
{
    for line in lines.as_slice() {
        push_line(out, line)?;
    }
    Ok(())
}

fn refusal_byte(refusal: &Refusal) -> u8
    ensures { result ≡ byte_of_refusal refusal.now }
{
    match refusal {
        Refusal::Missing => 1,
        Refusal::LostEntry { .. } => 2,
        Refusal::LostSlot { .. } => 3,
        Refusal::Exists => 4,
        Refusal::NotDirectory => 5,
        Refusal::IsDirectory => 6,
        Refusal::NotEmpty => 7,
        Refusal::BadName => 8,
        Refusal::BadRange => 9,
        Refusal::TooManyLinks => 10,
        Refusal::DirectoryFull => 11,
        Refusal::TooLarge => 12,
        Refusal::PastEnd => 13,
        Refusal::Stale => 14,
        Refusal::Full { .. } => 15,
        Refusal::InodesFull { .. } => 16,
        Refusal::SerialsSpent => 17,
        Refusal::ReadFault => 18,
        Refusal::WriteFault => 19,
        Refusal::Stopped => 20,
        Refusal::OutOfMemory => 21,
    }
}

fn push_kept(out: &mut Vec<u8>, refusal: &Refusal) -> Result<(), AllocError>
    ensures { OnOk result (out.new.items ≡ out.old.items ++ kept_bytes refusal.now) }
{
    match refusal {
        Refusal::LostEntry { entry } => push_u32(out, *entry),
        Refusal::LostSlot { slot } => push_u64(out, *slot),
        Refusal::Full {
            needed,
            free,
            unverified,
            next,
        } => {
            push_u64(out, *needed)?;
            push_u64(out, *free)?;
            push_u64(out, *unverified)?;
            push_u64(out, *next)
        }
        Refusal::InodesFull { unverified, next } => {
            push_u64(out, *unverified)?;
            push_u64(out, *next)
        }
        Refusal::Missing
        | Refusal::Exists
        | Refusal::NotDirectory
        | Refusal::IsDirectory
        | Refusal::NotEmpty
        | Refusal::BadName
        | Refusal::BadRange
        | Refusal::TooManyLinks
        | Refusal::DirectoryFull
        | Refusal::TooLarge
        | Refusal::PastEnd
        | Refusal::Stale
        | Refusal::SerialsSpent
        | Refusal::ReadFault
        | Refusal::WriteFault
        | Refusal::Stopped
        | Refusal::OutOfMemory => Ok(()),
    }
}

fn push_found(out: &mut Vec<u8>, found: &Found) -> Result<(), AllocError>
    ensures { OnOk result (out.new.items ≡ out.old.items
        ++ (number_bytes 4 found.now.inode
        ++ (number_bytes 8 found.now.generation ++ byte_of_kind found.now.kind ∷ []))) }
{
    push_u32(out, found.inode)?;
    push_u64(out, found.generation)?;
    push_byte(out, kind_byte(found.kind))
}

fn push_made(out: &mut Vec<u8>, inode: u32, generation: u64) -> Result<(), AllocError>
    ensures { OnOk result (out.new.items ≡ out.old.items ++ (number_bytes 4 inode ++ number_bytes 8 generation)) }
{
    push_u32(out, inode)?;
    push_u64(out, generation)
}

fn push_names(out: &mut Vec<u8>, slot: u64, lines: &NameList) -> Result<(), AllocError>
    requires few { length lines.now < 256 }
    requires short { All FitsOneByte lines.now }
    ensures { OnOk result (out.new.items ≡ out.old.items
        ++ (1 ∷ (number_bytes 8 slot ++ (length lines.now ∷ flat_map line_bytes lines.now)))) }
{
    push_byte(out, 1)?;
    push_u64(out, slot)?;
    push_byte(out, lines.len() as u8)?;
    push_lines(out, lines)
}

fn push_lost_names(out: &mut Vec<u8>, slot: u64) -> Result<(), AllocError>
    ensures { OnOk result (out.new.items ≡ out.old.items ++ (2 ∷ number_bytes 8 slot)) }
{
    push_byte(out, 2)?;
    push_u64(out, slot)
}

fn push_content(out: &mut Vec<u8>, bytes: &[u8]) -> Result<(), AllocError>
    ensures { OnOk result (out.new.items ≡ out.old.items ++ (1 ∷ bytes.now)) }
{
    push_byte(out, 1)?;
    out.extend_from_slice(bytes)
}

fn push_stat(out: &mut Vec<u8>, stat: &Stat) -> Result<(), AllocError>
    ensures { OnOk result (out.new.items ≡ out.old.items
        ++ (byte_of_kind stat.now.kind ∷ (number_bytes 8 stat.now.size ++ number_bytes 4 stat.now.links))) }
{
    push_byte(out, kind_byte(stat.kind))?;
    push_u64(out, stat.size)?;
    push_u32(out, stat.links)
}

#[tactic(auto, unfolding(crate::specs::Frames::Replies::field_bytes))]
fn push_fields(out: &mut Vec<u8>, reply: &Reply) -> Result<(), AllocError>
    requires { HasSpelling reply.now }
    ensures { OnOk result (out.new.items ≡ out.old.items ++ field_bytes reply.now) }
{
    match reply {
        Reply::Found(found) => push_found(out, found),
        Reply::Made { inode, generation } => push_made(out, *inode, *generation),
        Reply::Dropped { removed } => push_truth(out, *removed),
        Reply::Names(slot, lines) => push_names(out, *slot, lines),
        Reply::LostNames(slot) => push_lost_names(out, *slot),
        Reply::NoMore => push_byte(out, 3),
        Reply::Bytes(bytes) => push_content(out, bytes.as_slice()),
        Reply::Hole => push_byte(out, 2),
        Reply::Lost => push_byte(out, 3),
        Reply::Stat(stat) => push_stat(out, stat),
        Reply::Seen { used } => push_truth(out, *used),
        Reply::Refused(refusal) => push_kept(out, refusal),
        Reply::Linked | Reply::Renamed | Reply::Stored | Reply::Resized | Reply::Flushed => Ok(()),
    }
}

fn first_byte(reply: &Reply) -> u8
    ensures { result ≡ byte_of_reply reply.now }
{
    match reply {
        Reply::Refused(refusal) => refusal_byte(refusal),
        _ => 0,
    }
}

// The body of a reply behind four zeros.
fn push_body(out: &mut Vec<u8>, reply: &Reply) -> Result<(), AllocError>
    requires { HasSpelling reply.now }
    ensures { OnOk result (out.new.items ≡ out.old.items ++ body_bytes reply.now) }
{
    push_byte(out, first_byte(reply))?;
    push_fields(out, reply)
}

// Puts a length into the first four bytes.
#[tactic(auto, unfolding(crate::specs::Frames::Fields::number_bytes))]
fn put_length(out: &mut [u8], size: u32)
    requires { 4 ≤ length out.old }
    ensures { out.new ≡ number_bytes 4 size ++ drop 4 out.old }
{
    LittleEndian::write_u32(out, size);
}

// Gives a frame its length: `out` is four bytes with the body behind them.
fn close(out: &mut Vec<u8>, size: u32)
    requires { 4 ≤ vec_len out.old }
    ensures { out.new.items ≡ number_bytes 4 size ++ drop 4 out.old.items }
{
    put_length(out, size);
}

// Four zeros, and the body behind them.
fn write_parts(out: &mut Vec<u8>, reply: &Reply) -> Result<(), AllocError>
    requires { HasSpelling reply.now }
    ensures { OnOk result (out.new.items ≡ number_bytes 4 0 ++ body_bytes reply.now) }
{
    out.clear();
    push_u32(out, 0)?;
    push_body(out, reply)
}

/// Makes `out` the frame of a reply. It takes memory only where the frame doesn't fit into `out`, and fails only then.
pub(crate) fn write_reply(out: &mut Vec<u8>, reply: &Reply) -> Result<(), AllocError>
    requires lists { HasSpelling reply.now }
    requires short { length (body_bytes reply.now) < 2 ^ 32 }
    ensures { OnOk result (out.new.items ≡ reply_bytes reply.now) }
{
    write_parts(out, reply)?;
    let size = out.len() - LENGTH_BYTES;
    close(out, size as u32);
    Ok(())
}
