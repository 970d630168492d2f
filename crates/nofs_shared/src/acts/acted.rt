//! What a step came to: a small function for each kind of answer.
ghost use Rattle.std.specs.Prelude.{◌≡◌, ℕ, List, length, vec_len, IfErr, IfOk};
ghost use Rattle.nofs_history.specs.Claims.{no_claims};
ghost use Rattle.nofs_history.specs.Steps.{Fits, InRange};
ghost use Rattle.nofs_history.specs.declared.machine.replies.Reply.TheVariants as reply;
ghost use Rattle.nofs_history.specs.declared.machine.steps.Step.{Step};
ghost use Rattle.nofs_history.specs.declared.machine.steps.Step.TheVariants as step;
ghost use Rattle.nofs_inode.specs.declared.inode.FileKind.{FileKind};
ghost use Rattle.nofs_scan.specs.Steps.Sees.{seen_answer};
ghost use Rattle.nofs_files.specs.Puts.{put_answer};
ghost use Rattle.nofs_files.specs.Reads.{flush_answer, got_answer, stat_answer};
ghost use Rattle.nofs_files.specs.Resizes.{resize_answer};
ghost use Rattle.nofs_names.specs.Drops.Answers.{drop_answer};
ghost use Rattle.nofs_names.specs.Renames.Parts.{done_answer};
ghost use Rattle.nofs_names.specs.Searches.Refusals.{look_answer};
ghost use Rattle.nofs_names.specs.Lists.{HasListed, list_answer};
ghost use Rattle.nofs_names.specs.Makes.{made_answer};

use nofs_dirent::Content;
use nofs_files::Got;
use nofs_history::{Claims, Found, NO_CLAIMS, Refusal, Reply, Stat};
use nofs_names::Listed;
use nofs_state::Ended;
use std::alloc::{AllocError, Global};

/// What a step came to: its reply, and what was claimed.
#[derive(Drop)]
pub struct Acted {
    pub reply: Reply,
    pub claims: Claims,
}

// The reply of a step that claimed nothing.
fn unclaimed(reply: Reply) -> Acted
    ensures { result ≡ record { reply = reply; claims = no_claims } }
{
    Acted {
        reply,
        claims: NO_CLAIMS,
    }
}

/// The step was refused.
pub(crate) fn refused(why: Refusal) -> Acted
    requires { InRange why }
    ensures is { result ≡ record { reply = Reply.Refused why; claims = no_claims } }
    ensures fits { (s : Step) → Fits s result.reply }
{
    unclaimed(Reply::Refused(why))
}

/// What a Look came to.
pub(crate) fn found(done: Result<Found, Refusal>) -> Acted
    requires { IfErr done InRange }
    ensures is { result ≡ record { reply = look_answer done; claims = no_claims } }
    ensures fits { (d g : ℕ) (name : List ℕ) → Fits (step.Look d g name) result.reply }
{
    match done {
        Ok(it) => unclaimed(Reply::Found(it)),
        Err(why) => refused(why),
    }
}

/// What a Rename came to.
pub(crate) fn renamed(done: Result<(), Refusal>) -> Acted
    requires { IfErr done InRange }
    ensures is { result ≡ record { reply = done_answer reply.Renamed done; claims = no_claims } }
    ensures fits { (d g : ℕ) (old new : List ℕ) → Fits (step.Rename d g old new) result.reply }
{
    match done {
        Ok(()) => unclaimed(Reply::Renamed),
        Err(why) => refused(why),
    }
}

/// What a List came to.
pub(crate) fn listed(done: Result<Listed, Refusal>) -> Acted
    requires listed { IfOk done HasListed }
    requires refused { IfErr done InRange }
    ensures is { result ≡ record { reply = list_answer done; claims = no_claims } }
    ensures fits { (d g k : ℕ) → Fits (step.List d g k) result.reply }
{
    match done {
        Ok(Listed::Names(slot, names)) => unclaimed(Reply::Names(slot, names)),
        Ok(Listed::LostNames(slot)) => unclaimed(Reply::LostNames(slot)),
        Ok(Listed::NoMore) => unclaimed(Reply::NoMore),
        Err(why) => refused(why),
    }
}

/// Memory for the bytes of a slot.
pub(crate) fn slot_room(alloc: Global) -> Result<Vec<u8>, AllocError>
    ensures { IfOk result (λ room. vec_len room ≡ 1024) }
{
    vec![in alloc; 0; 1024]
}

fn filled(mut room: Vec<u8>, bytes: &[u8; 1024]) -> Content
    requires { vec_len room ≡ 1024 }
    ensures bytes { result ≡ bytes.now }
    ensures len { length result ≡ 1024 }
{
    room.as_mut_slice().copy_from_slice(bytes);
    Content::from_vec(room)
}

/// What a Get came to. The bytes go into the memory that was taken for them.
pub(crate) fn got(done: Result<Got, Refusal>, room: Vec<u8>, bytes: &[u8; 1024]) -> Acted
    requires room { vec_len room ≡ 1024 }
    requires refused { IfErr done InRange }
    ensures is { result ≡ record { reply = got_answer bytes.now done; claims = no_claims } }
    ensures fits { (i g k : ℕ) → Fits (step.Get i g k) result.reply }
{
    match done {
        Ok(Got::Bytes) => unclaimed(Reply::Bytes(filled(room, bytes))),
        Ok(Got::Hole) => unclaimed(Reply::Hole),
        Ok(Got::Lost) => unclaimed(Reply::Lost),
        Err(why) => refused(why),
    }
}

// The reply of a step that may claim: this one, where it was not refused.
fn ended(done: Ended, reply: Reply) -> Acted
    requires { IfErr done.result InRange }
    ensures is { result ≡ record { reply = done_answer reply done.result; claims = done.claims } }
    ensures fits { (s : Step) → Fits s reply → Fits s result.reply }
{
    let Ended { claims, result } = done;
    match result {
        Ok(()) => Acted { reply, claims },
        Err(why) => Acted {
            reply: Reply::Refused(why),
            claims,
        },
    }
}

/// What a Put came to.
pub(crate) fn stored(done: Ended) -> Acted
    requires { IfErr done.result InRange }
    ensures is { result ≡ record { reply = put_answer done.result; claims = done.claims } }
    ensures fits { (i g k at : ℕ) (bytes : List ℕ) → Fits (step.Put i g k at bytes) result.reply }
{
    ended(done, Reply::Stored)
}

/// What a Make came to: the new file is what it claimed.
pub(crate) fn made(done: Ended) -> Acted
    requires { IfErr done.result InRange }
    ensures is { result ≡ record { reply = made_answer done.claims done.result; claims = done.claims } }
    ensures fits { (d g : ℕ) (name : List ℕ) (kind : FileKind) → Fits (step.Make d g name kind) result.reply }
{
    let Claims {
        inode,
        generation,
        ..
    } = done.claims;
    ended(done, Reply::Made { inode, generation })
}

/// What a Link came to.
pub(crate) fn linked(done: Ended) -> Acted
    requires { IfErr done.result InRange }
    ensures is { result ≡ record { reply = done_answer reply.Linked done.result; claims = done.claims } }
    ensures fits { (d g : ℕ) (name : List ℕ) (i of : ℕ) → Fits (step.Link d g name i of) result.reply }
{
    ended(done, Reply::Linked)
}

/// What a Stat came to.
pub(crate) fn stated(done: Result<Stat, Refusal>) -> Acted
    requires { IfErr done InRange }
    ensures is { result ≡ record { reply = stat_answer done; claims = no_claims } }
    ensures fits { (i g : ℕ) → Fits (step.Stat i g) result.reply }
{
    match done {
        Ok(it) => unclaimed(Reply::Stat(it)),
        Err(why) => refused(why),
    }
}

/// What a Flush came to.
pub(crate) fn flushed(done: Result<(), Refusal>) -> Acted
    requires { IfErr done InRange }
    ensures is { result ≡ record { reply = flush_answer done; claims = no_claims } }
    ensures fits { (i g : ℕ) → Fits (step.Flush i g) result.reply }
{
    match done {
        Ok(()) => unclaimed(Reply::Flushed),
        Err(why) => refused(why),
    }
}

/// What a Resize came to.
pub(crate) fn resized(done: Result<(), Refusal>) -> Acted
    requires { IfErr done InRange }
    ensures is { result ≡ record { reply = resize_answer done; claims = no_claims } }
    ensures fits { (i g size : ℕ) → Fits (step.Resize i g size) result.reply }
{
    match done {
        Ok(()) => unclaimed(Reply::Resized),
        Err(why) => refused(why),
    }
}

/// What a Drop came to.
pub(crate) fn dropped(done: Result<bool, Refusal>) -> Acted
    requires { IfErr done InRange }
    ensures is { result ≡ record { reply = drop_answer done; claims = no_claims } }
    ensures fits { (d g : ℕ) (name : List ℕ) → Fits (step.Drop d g name) result.reply }
{
    match done {
        Ok(removed) => unclaimed(Reply::Dropped { removed }),
        Err(why) => refused(why),
    }
}

/// What a step that examines an element came to.
pub(crate) fn seen(done: Result<bool, Refusal>) -> Acted
    requires { IfErr done InRange }
    ensures is { result ≡ record { reply = seen_answer done; claims = no_claims } }
    ensures inode { (i : ℕ) → Fits (step.SeeInode i) result.reply }
    ensures block { (b : ℕ) → Fits (step.SeeBlock b) result.reply }
{
    match done {
        Ok(used) => unclaimed(Reply::Seen { used }),
        Err(why) => refused(why),
    }
}
