//! What one entry of a history gives, to files and to one slot.
ghost use Rattle.std.specs.Prelude.{◌≡◌, ◌<◌, ◌+◌, ◌&&◌, nat_lt, nat_le, true, IfOk};
ghost use Rattle.nofs_ptrs.specs.Paths.{slot_limit};
ghost use Rattle.nofs_history.specs.Machine as machine;
ghost use Rattle.nofs_history.specs.Accepted.Files.{kept_files_of};
ghost use Rattle.nofs_history.specs.Accepted.Fit.{is_fit, IsFit};
ghost use Rattle.nofs_history.specs.Accepted.Given.{given_of, is_sound, value_for};
ghost use Rattle.nofs_history.specs.declared.accepted.given.given.GivenNow.TheVariants as given;

use crate::accepted::files::file::FilesNow;
use crate::accepted::files::names::DirectoryName;
use crate::accepted::given::given::GivenNow;
use crate::accepted::given::slots::Wanted;
use crate::accepted::given::steps::{
    BytesIn, drop_given, link_given, make_given, put_given, rename_given,
};
use crate::machine::history::{Claims, Entry1};
use crate::machine::replies::{Refusal, Reply};
use crate::machine::steps::Step;
use nofs_dirent::Name;
use nofs_model::Value;
use nofs_ptrs::SLOT_LIMIT;
use std::alloc::{AllocError, Global};

/// Whether a step keeps the bounds without which what it gives is no cell or no file.
pub(crate) fn is_fit(step: &Step, claims: &Claims) -> bool
    ensures { result ≡ is_fit step.now claims.now }
{
    match step {
        Step::Put {
            slot,
            at,
            bytes,
            ..
        } => fits_cell(*slot, *at, bytes.len()),
        Step::Make { name, .. } => name.len() <= 48 && 0 < claims.inode,
        Step::Link { name, .. } => name.len() <= 48,
        Step::Rename { new, .. } => new.len() <= 48,
        Step::Look { .. } => true,
        Step::Drop { .. } => true,
        Step::List { .. } => true,
        Step::Get { .. } => true,
        Step::Resize { .. } => true,
        Step::Stat { .. } => true,
        Step::Flush { .. } => true,
        Step::SeeInode { .. } => true,
        Step::SeeBlock { .. } => true,
    }
}

fn fits_cell(slot: u64, at: u32, count: u64) -> bool
    ensures { result ≡ (nat_lt slot slot_limit && nat_le (at + count) 1024) }
{
    slot < SLOT_LIMIT && at <= 1024 && count <= 1024 - u64::from(at)
}

// A name in one generation of a directory.
fn name_in(directory: u32, generation: u64, name: &Name) -> DirectoryName<'_>
    ensures directory { result.directory ≡ directory }
    ensures generation { result.generation ≡ generation }
    ensures name { result.name.now ≡ name.now }
{
    DirectoryName {
        directory,
        generation,
        name: name.as_slice(),
    }
}

fn is_write_fault(reply: &Reply) -> bool
    ensures { result ≡ machine.is_write_fault reply.now }
{
    matches!(reply, Reply::Refused(Refusal::WriteFault))
}

/// Whether a reply is a refusal.
pub(crate) fn is_refused(reply: &Reply) -> bool
    ensures { result ≡ machine.is_refused reply.now }
{
    matches!(reply, Reply::Refused(_))
}

// A new size of one generation of an inode.
fn size_in(inode: u32, generation: u64, size: u64) -> GivenNow
    ensures { result ≡ given.Size inode generation size }
{
    GivenNow::Size {
        inode,
        generation,
        size,
    }
}

/// What an accepted step gives.
#[tactic(auto, unfolding(crate::specs::Machine::gives))]
pub(crate) fn step_given(
    alloc: Global,
    files: &FilesNow,
    step: &Step,
    claims: &Claims,
) -> Result<GivenNow, AllocError>
    requires { is_fit step.now claims.now ≡ true }
    ensures given { IfOk result
        (λ it. given_of (kept_files_of files.now) it ≡ machine.gives (kept_files_of files.now) step.now claims.now) }
    ensures sound { IfOk result (λ it. is_sound it ≡ true) }
{
    match step {
        Step::Make {
            directory,
            generation,
            name,
            kind,
        } => {
            let name = name_in(*directory, *generation, name);
            make_given(alloc, files, &name, *kind, claims)
        }
        Step::Link {
            directory,
            generation,
            name,
            inode,
            of,
        } => {
            let name = name_in(*directory, *generation, name);
            link_given(alloc, files, &name, *inode, *of)
        }
        Step::Drop {
            directory,
            generation,
            name,
        } => drop_given(alloc, files, &name_in(*directory, *generation, name)),
        Step::Rename {
            directory,
            generation,
            old,
            new,
        } => {
            let old = name_in(*directory, *generation, old);
            rename_given(alloc, files, &old, new.as_slice())
        }
        Step::Put {
            inode,
            generation,
            slot,
            at,
            bytes,
        } => {
            let put = BytesIn::new(*inode, *generation, *slot, *at, bytes.as_slice());
            put_given(alloc, files, &put)
        }
        Step::Resize {
            inode,
            generation,
            size,
        } => Ok(size_in(*inode, *generation, *size)),
        Step::Look { .. }
        | Step::List { .. }
        | Step::Get { .. }
        | Step::Stat { .. }
        | Step::Flush { .. }
        | Step::SeeInode { .. }
        | Step::SeeBlock { .. } => Ok(GivenNow::Nothing),
    }
}

/// What an entry gives to a slot: nothing where its step was refused for good.
pub(crate) fn value_by_entry(
    alloc: Global,
    files: &FilesNow,
    wanted: &Wanted,
    entry: &Entry1,
) -> Result<Option<Value>, AllocError>
    requires { wanted.now.slot < slot_limit }
    ensures { IfOk result
        (λ it. IsFit entry.now → it ≡ value_for (machine.given_by (kept_files_of files.now) entry.now) wanted.now) }
{
    let may_give = !is_refused(&entry.reply) || is_write_fault(&entry.reply);
    if may_give && is_fit(&entry.step, &entry.claims) {
        let given = step_given(alloc, files, &entry.step, &entry.claims)?;
        given.value_for(alloc, files, wanted)
    } else {
        Ok(None)
    }
}
