//! What an accepted step, and an entry with it, does to files.
ghost use Rattle.std.specs.Prelude.{◌≡◌, ◌<◌, OnOk, option_map, true};
ghost use Rattle.nofs_ptrs.specs.Paths.{slot_limit};
ghost use Rattle.nofs_history.specs.Machine as machine;
ghost use Rattle.nofs_history.specs.Accepted.Files.{file_of, kept_files, kept_files_of};
ghost use Rattle.nofs_history.specs.Accepted.Taken.{HasTaken, made_file, metas_alone};
ghost use Rattle.nofs_history.specs.Accepted.Fit.{IsFit};
ghost use Rattle.nofs_history.specs.Accepted.Given.{cell_of, given_of, is_sound, meta_now, metas_of, with_birth};

use crate::accepted::files::file::{FileNow, FilesNow, ValueNow};
use crate::accepted::given::entries::{is_fit, is_refused, step_given};
use crate::accepted::given::given::{Birth, GivenCell, GivenMeta, GivenNow, MetaNow};
use crate::machine::history::Entry1;
use nofs_inode::inode::BackLink;
use std::alloc::{AllocError, Global};

/// A file without content, with one back link.
fn new_file(alloc: Global, birth: &Birth) -> FileNow
    ensures { file_of result ≡ made_file birth.now.generation birth.now.kind birth.now.link }
{
    FileNow {
        generation: birth.generation,
        kind: birth.kind,
        size: 0,
        links: [
            birth.link,
            BackLink::EMPTY,
            BackLink::EMPTY,
            BackLink::EMPTY,
        ],
        values: Vec::new(alloc),
    }
}

/// What is left of the file: it with another kind, size and back links, or nothing.
fn with_meta(file: FileNow, meta: MetaNow) -> Option<FileNow>
    ensures { option_map file_of result ≡ machine.with_meta (file_of file) (meta_now meta) }
{
    match meta {
        MetaNow::Gone => None,
        MetaNow::Is { kind, size, links } => Some(FileNow {
            generation: file.generation,
            kind,
            size,
            links,
            values: file.values,
        }),
    }
}

/// Gives a slot its cell.
fn take_cell(files: &mut FilesNow, given: GivenCell) -> Result<(), AllocError>
    requires { given.slot < slot_limit }
    ensures { OnOk result (HasTaken files.old files.new (cell_of given machine.no_meta)) }
{
    match files.take(given.inode, given.generation) {
        None => Ok(()),
        Some(file) => {
            let changed = file.with_value(given.slot, ValueNow::Bytes(given.cell))?;
            files.put(given.inode, changed)?;
            Ok(())
        }
    }
}

/// Gives a file another size.
fn resize(files: &mut FilesNow, inode: u32, generation: u64, size: u64) -> Result<(), AllocError>
    ensures { OnOk result
        (HasTaken files.old files.new (machine.resize_given (kept_files_of files.old) inode generation size)) }
{
    match files.take(inode, generation) {
        None => Ok(()),
        Some(file) => {
            files.put(inode, file.resized(size))?;
            Ok(())
        }
    }
}

/// Makes of an inode what it becomes.
fn take_meta(files: &mut FilesNow, given: GivenMeta) -> Result<(), AllocError>
    ensures { OnOk result (HasTaken files.old files.new
        (metas_alone (machine.meta_given given.inode given.generation (meta_now given.meta)))) }
{
    match files.take(given.inode, given.generation) {
        None => Ok(()),
        Some(file) => match with_meta(file, given.meta) {
            None => Ok(()),
            Some(changed) => {
                files.put(given.inode, changed)?;
                Ok(())
            }
        },
    }
}

/// Makes of inodes what they become, which may be none.
fn take_metas(files: &mut FilesNow, given: Option<GivenMeta>) -> Result<(), AllocError>
    ensures { OnOk result (HasTaken files.old files.new (metas_alone (metas_of given))) }
{
    match given {
        None => Ok(()),
        Some(given) => take_meta(files, given),
    }
}

fn take_both(
    files: &mut FilesNow,
    cell: GivenCell,
    meta: Option<GivenMeta>,
) -> Result<(), AllocError>
    requires { cell.slot < slot_limit }
    ensures { OnOk result (HasTaken files.old files.new (cell_of cell (metas_of meta))) }
{
    take_metas(files, meta)?;
    take_cell(files, cell)?;
    Ok(())
}

fn take_birth(
    alloc: Global,
    files: &mut FilesNow,
    cell: GivenCell,
    birth: Birth,
) -> Result<(), AllocError>
    requires slot { cell.slot < slot_limit }
    requires inode { 0 < birth.inode }
    ensures { OnOk result (HasTaken files.old files.new (with_birth (cell_of cell machine.no_meta) birth)) }
{
    take_cell(files, cell)?;
    files.put(birth.inode, new_file(alloc, &birth))?;
    Ok(())
}

/// Does what a step gives.
pub(crate) fn take_given(
    alloc: Global,
    files: &mut FilesNow,
    given: GivenNow,
) -> Result<(), AllocError>
    requires { is_sound given ≡ true }
    ensures { OnOk result (HasTaken files.old files.new (given_of (kept_files_of files.old) given)) }
{
    match given {
        GivenNow::Nothing => Ok(()),
        GivenNow::Size {
            inode,
            generation,
            size,
        } => resize(files, inode, generation, size),
        GivenNow::Cell { cell, meta } => take_both(files, cell, meta),
        GivenNow::Make { cell, birth } => take_birth(alloc, files, cell, birth),
    }
}

/// Does an entry's step, where it was accepted.
pub(crate) fn do_entry(
    alloc: Global,
    files: &mut FilesNow,
    entry: &Entry1,
) -> Result<(), AllocError>
    ensures { OnOk result (IsFit entry.now
        → kept_files (kept_files_of files.new) ≡ kept_files (machine.files_by (kept_files_of files.old) entry.now)) }
{
    if !is_refused(&entry.reply) && is_fit(&entry.step, &entry.claims) {
        let given = step_given(alloc, files, &entry.step, &entry.claims)?;
        take_given(alloc, files, given)
    } else {
        Ok(())
    }
}
