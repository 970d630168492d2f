//! The step of a frame's body (docs/FORMAT.md, "Frames").
//!
//! Promise: a body gives a step exactly where it spells one to its last byte, and then just that one.
ghost use Rattle.std.specs.Prelude.{◌≡◌, ◌+◌, ◌≤◌, ◌==◌, IfOk, IfSome, Some, if◌then◌else◌, length};
ghost use Rattle.std.specs.Option.{option_copied as copied};
ghost use Rattle.nofs_wire.specs.Frames.Requests.{drop_of, flush_of, generation_field, get_of, handled_of};
ghost use Rattle.nofs_wire.specs.Frames.Requests.{inode_field, kind_numbered, link_of};
ghost use Rattle.nofs_wire.specs.Frames.Requests.{list_of, look_request, make_of, name_field as name_in, named_of};
ghost use Rattle.nofs_wire.specs.Frames.Requests.{put_of, rename_of, resize_of, see_block_of};
ghost use Rattle.nofs_wire.specs.Frames.Requests.{see_inode_of, stat_of, step_by, step_of, where_ends};
ghost use Rattle.nofs_wire.specs.Frames.Spellings.{FitsBody, request_bytes};
ghost use Rattle.nofs_history.specs.declared.machine.steps.Step.{Step};
ghost use Rattle.nofs_history.specs.declared.machine.steps.Step.TheVariants.{Rename as rename_step};

use nofs_dirent::{Content, Name};
use nofs_disk::{read_u32_at, read_u64_at};
use nofs_history::Step;
use nofs_inode::inode::FileKind;
use std::alloc::{AllocError, Global};

/// How many bytes a kind, an inode number and a generation take.
const HANDLE_END: usize = 13;

/// Where the first byte of a first name stands.
const NAME_AT: usize = 14;

/// How many bytes a body has whose last part is one number behind the inode number and the generation.
const NUMBER_END: usize = 21;

/// Where the bytes of a put begin.
const BYTES_AT: usize = 25;

/// The step that a body spells; `None` exactly where it spells none to its last byte. Each step has one body, and is
/// read from it. It fails only for want of memory for a name or for the bytes of a put.
pub(crate) fn read_step(alloc: Global, body: &[u8]) -> Result<Option<Step>, AllocError>
    ensures value { IfOk result (λ step. step ≡ step_of body.now) }
    ensures one_spelling { IfOk result (λ step. IfSome step (λ s. body.now ≡ request_bytes s)) }
    ensures each_step { (s : Step) → FitsBody s → body.now ≡ request_bytes s → IfOk result (λ step. step ≡ Some s) }
{
    read_body(alloc, body)
}

#[tactic(auto, unfolding(crate::specs::Frames::Requests::step_of, crate::specs::Frames::Requests::step_by))]
fn read_body(alloc: Global, body: &[u8]) -> Result<Option<Step>, AllocError>
    ensures { IfOk result (λ step. step ≡ step_of body.now) }
{
    if body.is_empty() {
        return Ok(None);
    }
    step_by(alloc, body[0], body)
}

#[tactic(auto, unfolding(crate::specs::Frames::Requests::step_by))]
fn step_by(alloc: Global, first: u8, body: &[u8]) -> Result<Option<Step>, AllocError>
    ensures { IfOk result (λ step. step ≡ step_by first body.now) }
{
    if first == 12 {
        Ok(see_inode(body))
    } else if first == 13 {
        Ok(see_block(body))
    } else if body.len() < HANDLE_END {
        Ok(None)
    } else {
        handled(alloc, first, body)
    }
}

#[tactic(auto, unfolding(crate::specs::Frames::Requests::handled_of))]
fn handled(alloc: Global, first: u8, body: &[u8]) -> Result<Option<Step>, AllocError>
    requires { 13 ≤ length body.now }
    ensures { IfOk result (λ step. step ≡ handled_of first body.now) }
{
    match first {
        6 | 7 | 9 => Ok(numbered(first, body)),
        8 => put(alloc, body),
        10 | 11 => Ok(of_handle(first, body)),
        _ => match name_at(body, HANDLE_END) {
            None => Ok(None),
            Some(name) => named(alloc, first, name, body),
        },
    }
}

#[tactic(auto, unfolding(crate::specs::Frames::Requests::named_of))]
fn named(alloc: Global, first: u8, name: &[u8], body: &[u8]) -> Result<Option<Step>, AllocError>
    requires { 14 + length name.now ≤ length body.now }
    ensures { IfOk result (λ step. step ≡ named_of first name.now body.now) }
{
    match first {
        1 | 4 => of_name(alloc, first, name, body),
        2 => make(alloc, name, body),
        3 => link(alloc, name, body),
        5 => rename(alloc, name, body),
        _ => Ok(None),
    }
}

// The name at a place, behind the byte for its length.
#[tactic(auto, unfolding(crate::specs::Frames::Requests::name_field))]
fn name_at(body: &[u8], at: usize) -> Option<&[u8]>
    ensures is { copied result ≡ name_in at body.now }
    ensures within { IfSome result (λ name. at + 1 + length name.now ≤ length body.now) }
{
    if at >= body.len() {
        return None;
    }
    let length = body[at] as usize;
    if body.len() - at - 1 < length {
        return None;
    }
    Some(&body[at + 1..at + 1 + length])
}

#[tactic(auto, unfolding(crate::specs::Frames::Requests::kind_numbered))]
fn kind_of(number: u8) -> Option<FileKind>
    ensures { result ≡ kind_numbered number }
{
    match number {
        1 => Some(FileKind::File),
        2 => Some(FileKind::Directory),
        _ => None,
    }
}

// A look, 1, or a drop, 4: behind the name stands nothing.
#[tactic(auto, unfolding(crate::specs::Frames::Requests::look_request, crate::specs::Frames::Requests::drop_of))]
fn of_name(alloc: Global, first: u8, name: &[u8], body: &[u8]) -> Result<Option<Step>, AllocError>
    requires { 14 + length name.now ≤ length body.now }
    ensures { IfOk result
        (λ step. step ≡ (if first == 1 then look_request name.now body.now else drop_of name.now body.now)) }
{
    if body.len() != NAME_AT + name.len() {
        return Ok(None);
    }
    let (directory, generation) = (read_u32_at(body, 1), read_u64_at(body, 5));
    let name = Name::from_slice(alloc, name)?;
    Ok(Some(match first {
        1 => Step::Look {
            directory,
            generation,
            name,
        },
        _ => Step::Drop {
            directory,
            generation,
            name,
        },
    }))
}

#[tactic(auto, unfolding(crate::specs::Frames::Requests::make_of))]
fn make(alloc: Global, name: &[u8], body: &[u8]) -> Result<Option<Step>, AllocError>
    requires { 14 + length name.now ≤ length body.now }
    ensures { IfOk result (λ step. step ≡ make_of name.now body.now) }
{
    let end = NAME_AT + name.len();
    if body.len() != end + 1 {
        return Ok(None);
    }
    match kind_of(body[end]) {
        None => Ok(None),
        Some(kind) => Ok(Some(Step::Make {
            directory: read_u32_at(body, 1),
            generation: read_u64_at(body, 5),
            name: Name::from_slice(alloc, name)?,
            kind,
        })),
    }
}

#[tactic(auto, unfolding(crate::specs::Frames::Requests::link_of))]
fn link(alloc: Global, name: &[u8], body: &[u8]) -> Result<Option<Step>, AllocError>
    requires { 14 + length name.now ≤ length body.now }
    ensures { IfOk result (λ step. step ≡ link_of name.now body.now) }
{
    if body.len() != NAME_AT + name.len() + 12 {
        return Ok(None);
    }
    let end = NAME_AT + name.len();
    Ok(Some(Step::Link {
        directory: read_u32_at(body, 1),
        generation: read_u64_at(body, 5),
        name: Name::from_slice(alloc, name)?,
        inode: read_u32_at(body, end),
        of: read_u64_at(body, end + 4),
    }))
}

#[tactic(auto, unfolding(crate::specs::Frames::Requests::rename_of))]
fn rename(alloc: Global, old: &[u8], body: &[u8]) -> Result<Option<Step>, AllocError>
    requires { 14 + length old.now ≤ length body.now }
    ensures { IfOk result (λ step. step ≡ rename_of old.now body.now) }
{
    match name_at(body, NAME_AT + old.len()) {
        None => Ok(None),
        Some(new) => renamed(alloc, old, new, body),
    }
}

fn renamed(alloc: Global, old: &[u8], new: &[u8], body: &[u8]) -> Result<Option<Step>, AllocError>
    requires { 15 + length old.now + length new.now ≤ length body.now }
    ensures { IfOk result (λ step. step ≡ where_ends (length body.now == 15 + length old.now + length new.now)
        (rename_step (inode_field body.now) (generation_field body.now) old.now new.now)) }
{
    if body.len() != NAME_AT + old.len() + 1 + new.len() {
        return Ok(None);
    }
    Ok(Some(Step::Rename {
        directory: read_u32_at(body, 1),
        generation: read_u64_at(body, 5),
        old: Name::from_slice(alloc, old)?,
        new: Name::from_slice(alloc, new)?,
    }))
}

// A list, 6, a get, 7, or a resize, 9: behind the generation stands one number.
#[tactic(auto, unfolding(crate::specs::Frames::Requests::list_of, crate::specs::Frames::Requests::get_of, //
crate::specs::Frames::Requests::resize_of))]
fn numbered(first: u8, body: &[u8]) -> Option<Step>
    requires { 13 ≤ length body.now }
    ensures { result ≡ (if first == 6 then list_of body.now else if first == 7 then get_of body.now
        else resize_of body.now) }
{
    if body.len() != NUMBER_END {
        return None;
    }
    let (inode, generation, number) = (
        read_u32_at(body, 1),
        read_u64_at(body, 5),
        read_u64_at(body, 13),
    );
    Some(match first {
        6 => Step::List {
            directory: inode,
            generation,
            slot: number,
        },
        7 => Step::Get {
            inode,
            generation,
            slot: number,
        },
        _ => Step::Resize {
            inode,
            generation,
            size: number,
        },
    })
}

#[tactic(auto, unfolding(crate::specs::Frames::Requests::put_of))]
fn put(alloc: Global, body: &[u8]) -> Result<Option<Step>, AllocError>
    requires { 13 ≤ length body.now }
    ensures { IfOk result (λ step. step ≡ put_of body.now) }
{
    if body.len() < BYTES_AT {
        return Ok(None);
    }
    let (_, bytes) = body.split_at(BYTES_AT);
    Ok(Some(Step::Put {
        inode: read_u32_at(body, 1),
        generation: read_u64_at(body, 5),
        slot: read_u64_at(body, 13),
        at: read_u32_at(body, 21),
        bytes: Content::from_slice(alloc, bytes)?,
    }))
}

// A stat, 10, or a flush, 11: behind the generation stands nothing.
#[tactic(auto, unfolding(crate::specs::Frames::Requests::stat_of, crate::specs::Frames::Requests::flush_of))]
fn of_handle(first: u8, body: &[u8]) -> Option<Step>
    requires { 13 ≤ length body.now }
    ensures { result ≡ (if first == 10 then stat_of body.now else flush_of body.now) }
{
    if body.len() != HANDLE_END {
        return None;
    }
    let (inode, generation) = (read_u32_at(body, 1), read_u64_at(body, 5));
    Some(match first {
        10 => Step::Stat { inode, generation },
        _ => Step::Flush { inode, generation },
    })
}

// The examination of an inode, 12, or of a block, 13: behind the first byte stands its number alone.
#[tactic(auto, unfolding(crate::specs::Frames::Requests::see_inode_of))]
fn see_inode(body: &[u8]) -> Option<Step>
    ensures { result ≡ see_inode_of body.now }
{
    match body.len() {
        5 => Some(Step::SeeInode {
            inode: read_u32_at(body, 1),
        }),
        _ => None,
    }
}

#[tactic(auto, unfolding(crate::specs::Frames::Requests::see_block_of))]
fn see_block(body: &[u8]) -> Option<Step>
    ensures { result ≡ see_block_of body.now }
{
    if body.len() != 9 {
        return None;
    }
    Some(Step::SeeBlock {
        block: read_u64_at(body, 1),
    })
}
