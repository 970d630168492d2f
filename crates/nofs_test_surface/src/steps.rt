//! The steps on a core: on files, on names, and on elements.
ghost use Rattle.nofs_scan.specs.Steps.Commits.{MayCommit};
ghost use Rattle.nofs_scan.specs.Steps.Looks.{IsBatch};
ghost use Rattle.nofs_state.specs.Books.Maps.{IsSafe};
ghost use Rattle.std.specs.Prelude.{length, ◌<◌};

use crate::typed::typed;
use nofs_dirent::Name;
use nofs_disk::Disk;
use nofs_files::{Got, Stat};
use nofs_history::{NameList, Refusal};
use nofs_inode::FileKind;
use nofs_names::{Found, Listed, NameLine};
use nofs_scan::{ElementKind, Evidence};
use nofs_state::{Core, Ended};
use std::alloc::Global;

/// What a step may be asked, with the type of each: a file or a directory with its generation, a place and a number of
/// bytes in a file, bytes for it, names, and a kind.
#[derive(Clone, Copy)]
pub struct Asked<'a> {
    inode: u32,
    generation: u64,
    directory: u32,
    of: u64,
    slot: u64,
    at: u32,
    size: u64,
    bytes: &'a [u8],
    name: &'a [u8],
    new: &'a [u8],
    kind: FileKind,
}

/// What a step answers, or why not.
type Answer<T> = Result<T, Refusal>;

/// `nofs_files::get`
pub fn files_get<D: Disk + Drop>(
    core: &mut Core<D>,
    it: Asked<'_>,
    into: &mut [u8; 1024],
) -> Answer<Got>
    requires { IsSafe (D.state core.old.disk) core.old.books }
{
    nofs_files::get(core, it.inode, it.generation, it.slot, into)
}

/// `nofs_files::put`
pub fn files_put<D: Disk + Drop>(core: &mut Core<D>, it: Asked<'_>) -> Ended
    requires { IsSafe (D.state core.old.disk) core.old.books }
{
    nofs_files::put(core, it.inode, it.generation, it.slot, it.at, it.bytes)
}

/// `nofs_files::resize`
pub fn files_resize<D: Disk + Drop>(core: &mut Core<D>, alloc: Global, it: Asked<'_>) -> Answer<()>
    requires { IsSafe (D.state core.old.disk) core.old.books }
{
    nofs_files::resize(core, alloc, it.inode, it.generation, it.size)
}

/// `nofs_files::stat`
pub fn files_stat<D: Disk + Drop>(core: &mut Core<D>, it: Asked<'_>) -> Answer<Stat>
    requires { IsSafe (D.state core.old.disk) core.old.books }
{
    nofs_files::stat(core, it.inode, it.generation)
}

/// `nofs_files::flush`
pub fn files_flush<D: Disk + Drop>(core: &mut Core<D>, it: Asked<'_>) -> Answer<()>
    requires { IsSafe (D.state core.old.disk) core.old.books }
{
    nofs_files::flush(core, it.inode, it.generation)
}

/// `nofs_files::Got`
pub fn got_variant(it: &Got) -> u8 {
    match it {
        Got::Bytes => 0,
        Got::Hole => 1,
        Got::Lost => 2,
    }
}

/// `nofs_files::Stat`
pub fn stat_fields(it: Stat) -> (FileKind, u64, u32) {
    let Stat { kind, size, links } = it;
    (kind, size, links)
}

/// `nofs_names::look`
pub fn names_look<D: Disk + Drop>(core: &mut Core<D>, it: Asked<'_>) -> Answer<Found>
    requires { IsSafe (D.state core.old.disk) core.old.books }
{
    nofs_names::look(core, it.directory, it.of, it.name)
}

/// `nofs_names::make`
pub fn names_make<D: Disk + Drop>(alloc: Global, core: &mut Core<D>, it: Asked<'_>) -> Ended
    requires { IsSafe (D.state core.old.disk) core.old.books }
{
    nofs_names::make(alloc, core, it.directory, it.of, it.name, it.kind)
}

/// `nofs_names::link`
pub fn names_link<D: Disk + Drop>(core: &mut Core<D>, alloc: Global, it: Asked<'_>) -> Ended
    requires { IsSafe (D.state core.old.disk) core.old.books }
{
    let (inode, generation) = (it.inode, it.generation);
    nofs_names::link(core, alloc, it.directory, it.of, it.name, inode, generation)
}

/// `nofs_names::drop_name`
pub fn names_drop_name<D: Disk + Drop>(
    core: &mut Core<D>,
    alloc: Global,
    it: Asked<'_>,
) -> Answer<bool>
    requires { IsSafe (D.state core.old.disk) core.old.books }
{
    nofs_names::drop_name(core, alloc, it.directory, it.of, it.name)
}

/// `nofs_names::rename`
pub fn names_rename<D: Disk + Drop>(alloc: Global, core: &mut Core<D>, it: Asked<'_>) -> Answer<()>
    requires { IsSafe (D.state core.old.disk) core.old.books }
{
    nofs_names::rename(alloc, core, it.directory, it.of, it.name, it.new)
}

/// `nofs_names::list`
pub fn names_list<D: Disk + Drop>(
    alloc: Global,
    core: &mut Core<D>,
    it: Asked<'_>,
) -> Answer<Listed>
    requires { IsSafe (D.state core.old.disk) core.old.books }
{
    nofs_names::list(alloc, core, it.directory, it.of, it.slot)
}

/// `nofs_names::Found`
pub fn found_fields(it: Found) -> (u32, u64, FileKind) {
    let Found {
        inode,
        generation,
        kind,
    } = it;
    (inode, generation, kind)
}

/// `nofs_names::Listed`
pub fn listed_variant(it: &Listed) -> u8 {
    match it {
        Listed::Names(first, second) => typed::<(&u64, &NameList)>(&(first, second), 0),
        Listed::LostNames(first) => typed::<u64>(first, 1),
        Listed::NoMore => 2,
    }
}

/// `nofs_names::NameLine`
pub fn name_line_fields(it: NameLine) -> (Name, FileKind, bool) {
    let NameLine { name, kind, dead } = it;
    (name, kind, dead)
}

/// `nofs_scan::see_inode`
pub fn scan_see_inode<D: Disk + Drop>(core: &mut Core<D>, inode: u32) -> Answer<bool>
    requires { IsSafe (D.state core.old.disk) core.old.books }
{
    nofs_scan::see_inode(core, inode)
}

/// `nofs_scan::see_block`
pub fn scan_see_block<D: Disk + Drop>(core: &mut Core<D>, block: u64) -> Answer<bool>
    requires { IsSafe (D.state core.old.disk) core.old.books }
{
    nofs_scan::see_block(core, block)
}

/// `nofs_scan::look_batch`
pub fn scan_look_batch<D: Disk + Drop>(
    alloc: Global,
    core: &mut Core<D>,
    kind: ElementKind,
    items: &[u64],
) -> Answer<Evidence<D>>
    requires safe { IsSafe (D.state core.old.disk) core.old.books }
    requires asked { IsBatch kind core.old.books.at items.now }
{
    nofs_scan::look_batch(alloc, core, kind, items)
}

/// `nofs_scan::judge`
pub fn scan_judge<D: Disk + Drop>(evidence: &Evidence<D>, at: u32) -> bool
    requires { at < length evidence.now.verdicts }
{
    nofs_scan::judge(evidence, at)
}

/// `nofs_scan::commit`
pub fn scan_commit<D: Disk + Drop>(
    core: &mut Core<D>,
    evidence: &Evidence<D>,
    at: u32,
    used: bool,
) -> bool
    requires may { MayCommit (D.state core.old.disk) core.old.books evidence.now.core.value.books
        evidence.now.verdicts at used }
{
    nofs_scan::commit(core, evidence, at, used)
}

/// `nofs_scan::Evidence`
pub fn evidence_itself<D: Disk + Drop>(it: Evidence<D>) -> Evidence<D> {
    it
}

/// `nofs_scan::ElementKind`
pub fn element_kind_variant(it: &ElementKind) -> u8 {
    match it {
        ElementKind::Inode => 0,
        ElementKind::Block => 1,
    }
}
