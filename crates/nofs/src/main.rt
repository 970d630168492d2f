//! `nofs IMAGE WORDS`: serves a session on a disk image.
//!
//! Promise: what holds of a run is the contract of `tool` in `nofs_tool`, of the disk that is made for it; or the
//! status is 7, or that of a device that can't be used, and no call was made. That is a clause of each run: in memory,
//! in a file and on a mirror of two files (`run_in_memory`, `run_in_file`, `run_in_mirror`), the last two over disks of
//! any type. What stands here takes the words, makes the disk, puts a write-back cache before it, hands over standard
//! input and output, and ends with the status. Nothing goes to standard error.
#![tactic(auto)]

mod cached;
mod image;

ghost use Rattle.std.specs.Prelude.{◌≡◌, ◌⊎◌, Err, IfOk, OnErr, map, replicate, string_bytes};
ghost use Rattle.nofs_disk.specs.Tag.{zero_cell};
ghost use Rattle.nofs_filedisk.specs.Bytes.{IsSynced};
ghost use Rattle.nofs_io.specs.Calls.{SourceState};
ghost use Rattle.nofs_memdisk.specs.Parts.{fresh_parts, parts_of};
ghost use Rattle.nofs_tool.specs.Begin.Lines.{fixed_line};
ghost use Rattle.nofs_tool.specs.Runs.Call.{RunsOn};
ghost use Rattle.nofs_tool.specs.Runs.Says.{Prints};
ghost use Rattle.nofs.specs.Runs.{HasNoDevice, HasNoImage, HasNoRoom, RunsOrNot};

use crate::cached::{tool_cached, tool_gathered, tool_mirrored};
use crate::image::{ImageChoice, image_of};
use nofs_cache::{Cached, Gathered};
use nofs_disk::Disk;
use nofs_filedisk::{FileDisk, HostFile, MemFile, Positioned};
use nofs_io::{ReadSource, Sink, Source, TEXT_LIMIT, WriteSink, write_all};
use nofs_memdisk::MemDisk;
use nofs_mirror::{Mirror, MirrorCause, MirrorFault};
use nofs_pages::{ImageFile, Layout, Paged, Single, Twin, layout_of, single_pages, twin_pages};
use nofs_super::{MountFault, read_super};
use nofs_tool::{FixedLine, Outcome, fixed_text, task_of};
use std::alloc::Global;
use std::fs::File;
use std::process::ExitCode;
use std::rt::Env;
use std::sync::Wait;
use std::thread::Threads;
use std::{env, io, mem};

// The blocks of the disk in memory, whose path is `-`.
const MEMORY_BLOCKS: u64 = 4096;

// The status of want of memory.
const NO_MEMORY: u8 = 7;

// The words behind the program's name. One that isn't UTF-8 is an error.
fn all_words<R: Env + AllocGlobal>(rt: &R) -> io::Result<Vec<String>> {
    let mut words = Vec::new(rt.alloc());
    for word in env::args(rt)?.skip(1) {
        words.push(word)?;
    }
    Ok(words)
}

// The image and the words behind it, where they are a command. They are judged before any image is opened: a mistyped
// command line leaves nothing behind.
fn command(words: &[String]) -> Option<(ImageChoice<'_>, &[String])> {
    match words {
        [first, rest @ ..] if task_of(rest).is_some() => {
            let image = image_of(first.as_str())?;
            Some((image, rest))
        }
        _ => None,
    }
}

// The status of a run. The process ends next: its history goes with it, and no entry is taken apart by itself.
fn ended<D: Drop>(outcome: Outcome<D>) -> u8
    ensures { result ≡ outcome.status }
{
    let Outcome {
        status,
        history,
        ..
    } = outcome;
    mem::forget(history);
    status
}

// A run on a disk behind a write-back cache.
fn run_cached<R: Threads + Wait + Sync, S: Source, K: Sink, D: Disk + Drop + Send>(
    rt: &R,
    alloc: Global,
    disk: D,
    words: &[String],
    source: &mut S,
    sink: &mut K,
) -> u8
    ensures { RunsOn (⟦<Cached<D> as Disk>⟧.state) (map string_bytes words.now) (S.state source.old)
        (S.state source.new) TEXT_LIMIT (K.state sink.old) (K.state sink.new) (λ cached. cached.under ≡ disk) result
        ⊎ HasNoRoom (S.state source.old) (S.state source.new) (K.state sink.old) (K.state sink.new) result }
{
    match Cached::new(alloc, disk) {
        Ok(cached) => ended(tool_cached(rt, alloc, words, source, sink, cached)),
        Err(_) => NO_MEMORY,
    }
}

// A run on a disk of pages behind a write-back cache. A cell that is written alone costs a read and a write of its
// page, and a cell more of that page a sync before it: so all are written at a flush, page by page.
fn run_gathered<R: Threads + Wait + Sync, S: Source, K: Sink, D: Disk + Drop + Send>(
    rt: &R,
    alloc: Global,
    disk: D,
    words: &[String],
    source: &mut S,
    sink: &mut K,
) -> u8
    ensures { RunsOn (⟦<Gathered<Cached<D>> as Disk>⟧.state) (map string_bytes words.now) (S.state source.old)
        (S.state source.new) TEXT_LIMIT (K.state sink.old) (K.state sink.new) (λ it. it.under.under ≡ disk) result
        ⊎ HasNoRoom (S.state source.old) (S.state source.new) (K.state sink.old) (K.state sink.new) result }
{
    match Cached::new(alloc, disk) {
        Ok(cached) => {
            let gathered = Gathered::new(cached);
            ended(tool_gathered(rt, alloc, words, source, sink, gathered))
        }
        Err(_) => NO_MEMORY,
    }
}

// A run on a mirror of two disks behind a write-back cache.
fn run_mirrored<
    R: Threads + Wait + Sync,
    S: Source,
    K: Sink,
    A: Disk + Drop + Send,
    B: Disk + Drop + Send,
>(rt: &R, alloc: Global, words: &[String], source: &mut S, sink: &mut K, disk: Mirror<A, B>) -> u8
    ensures { RunsOn (⟦<Cached<Mirror<A, B>> as Disk>⟧.state) (map string_bytes words.now) (S.state source.old)
        (S.state source.new) TEXT_LIMIT (K.state sink.old) (K.state sink.new) (λ cached. cached.under ≡ disk) result
        ⊎ HasNoRoom (S.state source.old) (S.state source.new) (K.state sink.old) (K.state sink.new) result }
{
    match Cached::new(alloc, disk) {
        Ok(cached) => ended(tool_mirrored(rt, alloc, words, source, sink, cached)),
        Err(_) => NO_MEMORY,
    }
}

// A run on a disk in memory.
fn run_in_memory<R: Threads + Wait + Sync, S: Source, K: Sink>(
    rt: &R,
    alloc: Global,
    words: &[String],
    source: &mut S,
    sink: &mut K,
) -> u8
    ensures { RunsOn (⟦<Cached<MemDisk> as Disk>⟧.state) (map string_bytes words.now) (S.state source.old)
        (S.state source.new) TEXT_LIMIT (K.state sink.old) (K.state sink.new)
        (λ cached. parts_of cached.under ≡ fresh_parts (replicate 4096 zero_cell)) result
        ⊎ HasNoRoom (S.state source.old) (S.state source.new) (K.state sink.old) (K.state sink.new) result }
{
    match MemDisk::new(alloc, MEMORY_BLOCKS) {
        Ok(disk) => run_cached(rt, alloc, disk, words, source, sink),
        Err(_) => NO_MEMORY,
    }
}

// The line and the status of a device that can't be used. A sink that fails here changes nothing.
fn no_device<K: Sink>(sink: &mut K) -> u8
    ensures status { result ≡ 3 }
    ensures says { Prints (K.state sink.old) (K.state sink.new) (fixed_line FixedLine.DeviceFault) }
{
    match write_all(sink, fixed_text(FixedLine::DeviceFault).as_bytes()) {
        Ok(()) | Err(_) => 3,
    }
}

// Whether a command makes its image anew, whatever was in it.
fn makes_anew(words: &[String]) -> bool {
    match words {
        [first, ..] => {
            first.as_bytes() == b"new".as_slice() || first.as_bytes() == b"drill".as_slice()
        }
        [] => false,
    }
}

// The file of an image of this system, in one layout or another.
type HostImage = ImageFile<HostFile, Paged<Single<HostFile>>, Paged<Twin<HostFile>>>;

// Why a file isn't opened as an image.
enum ImageFault {
    Failed,
    OutOfMemory,
}

// The layout of a file: that which is asked for where it is made anew, else that which its first bytes show.
fn layout_in(file: &mut HostFile, asked: Layout, anew: bool) -> Result<Layout, ImageFault> {
    if anew {
        return Ok(asked);
    }
    match layout_of(file) {
        Ok(layout) => Ok(layout),
        Err(_) => Err(ImageFault::Failed),
    }
}

// The file of an image in a layout, in which it is made anew, or found.
fn image_file(
    alloc: Global,
    file: HostFile,
    layout: Layout,
    anew: bool,
) -> Result<HostImage, ImageFault>
    ensures { IfOk result (λ image. IsSynced (⟦<HostImage as Positioned>⟧.state image)) }
{
    match layout {
        Layout::Packed => Ok(ImageFile::Packed(file)),
        Layout::Paged => match single_pages(alloc, file, anew) {
            Ok(pages) => Ok(ImageFile::Paged(pages)),
            Err(_) => Err(ImageFault::OutOfMemory),
        },
        Layout::Twin => match twin_pages(alloc, file, anew) {
            Ok(pages) => Ok(ImageFile::Twin(pages)),
            Err(_) => Err(ImageFault::OutOfMemory),
        },
    }
}

// The disk of an image.
#[derive(Drop)]
struct ImageDisk<D: Disk + Drop> {
    disk: D,
    // Whether it is in a file that has pages, each of several cells.
    in_pages: bool,
}

// The disk in the file of an image, where it was opened: made anew in the layout that is asked for, or as it is found.
fn image_disk(
    alloc: Global,
    file: io::Result<HostFile>,
    asked: Layout,
    anew: bool,
) -> Result<ImageDisk<FileDisk<HostImage>>, ImageFault>
    ensures { OnErr file (result ≡ Err ImageFault.Failed) }
{
    let Ok(file) = file else {
        return Err(ImageFault::Failed);
    };
    let mut file = file;
    let layout = layout_in(&mut file, asked, anew)?;
    let image = image_file(alloc, file, layout, anew)?;
    match FileDisk::over(alloc, image) {
        Ok(disk) => Ok(ImageDisk {
            disk,
            in_pages: layout != Layout::Packed,
        }),
        Err(_) => Err(ImageFault::OutOfMemory),
    }
}

// The line and the status of a file that isn't opened as an image.
fn no_image<K: Sink>(sink: &mut K, why: ImageFault) -> u8
    ensures none { (s : SourceState) → HasNoImage s s (K.state sink.old) (K.state sink.new) result }
    ensures failed { (s : SourceState)
        → why ≡ ImageFault.Failed → HasNoDevice s s (K.state sink.old) (K.state sink.new) result }
{
    match why {
        ImageFault::OutOfMemory => NO_MEMORY,
        ImageFault::Failed => no_device(sink),
    }
}

// A run on the disk of an image, where there is one.
fn run_in_file<R: Threads + Wait + Sync, S: Source, K: Sink, D: Disk + Drop + Send>(
    rt: &R,
    alloc: Global,
    words: &[String],
    source: &mut S,
    sink: &mut K,
    image: Result<ImageDisk<D>, ImageFault>,
) -> u8
    ensures runs { RunsOrNot (⟦<Cached<D> as Disk>⟧.state) (⟦<Gathered<Cached<D>> as Disk>⟧.state)
        (λ cached. IfOk image (λ i. cached.under ≡ i.disk)) (λ it. IfOk image (λ i. it.under.under ≡ i.disk))
        (map string_bytes words.now) (S.state source.old) (S.state source.new) TEXT_LIMIT (K.state sink.old)
        (K.state sink.new) result }
    ensures failed { image ≡ Err ImageFault.Failed → HasNoDevice (S.state source.old) (S.state source.new)
        (K.state sink.old) (K.state sink.new) result }
{
    match image {
        Ok(image) => {
            if image.in_pages {
                run_gathered(rt, alloc, image.disk, words, source, sink)
            } else {
                run_cached(rt, alloc, image.disk, words, source, sink)
            }
        }
        Err(why) => no_image(sink, why),
    }
}

// Why no mirror was opened, as a status: 7 for want of memory, else 3. A file has blocks enough.
fn unopened<K: Sink>(sink: &mut K, cause: MirrorCause) -> u8
    ensures { (s : SourceState) → HasNoImage s s (K.state sink.old) (K.state sink.new) result }
{
    match cause {
        MirrorCause::OutOfMemory => NO_MEMORY,
        MirrorCause::ReadFault | MirrorCause::TooSmall { .. } => no_device(sink),
    }
}

// A run on a mirror of two disks, where it could be opened. `in_pages` says whether one of them is in a file in pages.
fn run_on_sides<
    R: Threads + Wait + Sync,
    S: Source,
    K: Sink,
    A: Disk + Drop + Send,
    B: Disk + Drop + Send,
>(
    rt: &R,
    alloc: Global,
    words: &[String],
    source: &mut S,
    sink: &mut K,
    blocks: u64,
    in_pages: bool,
    sides: (A, B),
) -> u8
    ensures { RunsOrNot (⟦<Cached<Mirror<A, B>> as Disk>⟧.state) (⟦<Gathered<Cached<Mirror<A, B>>> as Disk>⟧.state)
        (λ cached. (⟦<Mirror<A, B> as Disk>⟧.state cached.under).blocks ≡ blocks)
        (λ it. (⟦<Mirror<A, B> as Disk>⟧.state it.under.under).blocks ≡ blocks)
        (map string_bytes words.now) (S.state source.old) (S.state source.new) TEXT_LIMIT (K.state sink.old)
        (K.state sink.new) result }
{
    let (lead, other) = sides;
    match Mirror::open(lead, other, blocks) {
        Ok(mirror) => {
            if in_pages {
                run_gathered(rt, alloc, mirror, words, source, sink)
            } else {
                run_mirrored(rt, alloc, words, source, sink, mirror)
            }
        }
        Err(MirrorFault { cause, .. }) => unopened(sink, cause),
    }
}

// The disks of a mirror.
#[derive(Drop)]
enum MirrorDisks<D: Disk + Drop, N: Disk + Drop> {
    // Those in both files, the lead first, and whether one of the files has pages.
    Both(D, D, bool),
    // That of a lead that can't be mounted on the mirror, and in place of the other one that takes no write: the mount
    // refuses the lead by its own line, and the other file is left as it is.
    Lead(D, N),
}

// Whether an image can be mounted on a disk of so many blocks.
fn can_mount<D: Disk>(disk: &mut D, blocks: u64) -> Result<bool, ImageFault> {
    match read_super(disk) {
        Ok(found) => Ok(found.blocks <= blocks),
        Err(MountFault::ReadFault) => Err(ImageFault::Failed),
        Err(_) => Ok(false),
    }
}

// A disk that takes no write to its file: each call of it fails.
fn no_disk(alloc: Global) -> Result<FileDisk<MemFile>, ImageFault> {
    match MemFile::new(alloc, &[], 1, &[1]) {
        Ok(file) => match FileDisk::over(alloc, file) {
            Ok(disk) => Ok(disk),
            Err(_) => Err(ImageFault::OutOfMemory),
        },
        Err(_) => Err(ImageFault::OutOfMemory),
    }
}

// The disks of a mirror of so many blocks in two files, where both were opened. Only a lead that can be mounted is
// copied.
fn mirror_disks(
    alloc: Global,
    files: (io::Result<HostFile>, io::Result<HostFile>),
    asked: Layout,
    anew: bool,
    blocks: u64,
) -> Result<MirrorDisks<FileDisk<HostImage>, FileDisk<MemFile>>, ImageFault>
    ensures lead { OnErr files.0 (result ≡ Err ImageFault.Failed) }
    ensures other { OnErr files.1 (result ≡ Err ImageFault.Failed) }
{
    let (lead, other) = files;
    let Ok(other) = other else {
        return Err(ImageFault::Failed);
    };
    let mut lead = match image_disk(alloc, lead, asked, anew) {
        Ok(lead) => lead,
        Err(why) => return Err(why),
    };
    if !anew && !can_mount(&mut lead.disk, blocks)? {
        return Ok(MirrorDisks::Lead(lead.disk, no_disk(alloc)?));
    }
    let other = image_disk(alloc, Ok(other), asked, anew)?;
    let in_pages = lead.in_pages || other.in_pages;
    Ok(MirrorDisks::Both(lead.disk, other.disk, in_pages))
}

// A run on a mirror of so many blocks, where there are disks for it.
fn run_in_mirror<
    R: Threads + Wait + Sync,
    S: Source,
    K: Sink,
    D: Disk + Drop + Send,
    N: Disk + Drop + Send,
>(
    rt: &R,
    alloc: Global,
    words: &[String],
    source: &mut S,
    sink: &mut K,
    blocks: u64,
    disks: Result<MirrorDisks<D, N>, ImageFault>,
) -> u8
    ensures runs { RunsOrNot (⟦<Cached<Mirror<D, D>> as Disk>⟧.state) (⟦<Gathered<Cached<Mirror<D, D>>> as Disk>⟧.state)
        (λ cached. (⟦<Mirror<D, D> as Disk>⟧.state cached.under).blocks ≡ blocks)
        (λ it. (⟦<Mirror<D, D> as Disk>⟧.state it.under.under).blocks ≡ blocks)
        (map string_bytes words.now) (S.state source.old) (S.state source.new) TEXT_LIMIT (K.state sink.old)
        (K.state sink.new) result
        ⊎ RunsOrNot (⟦<Cached<Mirror<D, N>> as Disk>⟧.state) (⟦<Gathered<Cached<Mirror<D, N>>> as Disk>⟧.state)
        (λ cached. (⟦<Mirror<D, N> as Disk>⟧.state cached.under).blocks ≡ blocks)
        (λ it. (⟦<Mirror<D, N> as Disk>⟧.state it.under.under).blocks ≡ blocks)
        (map string_bytes words.now) (S.state source.old) (S.state source.new) TEXT_LIMIT (K.state sink.old)
        (K.state sink.new) result }
    ensures failed { disks ≡ Err ImageFault.Failed → HasNoDevice (S.state source.old) (S.state source.new)
        (K.state sink.old) (K.state sink.new) result }
{
    match disks {
        Ok(MirrorDisks::Both(lead, other, in_pages)) => {
            run_on_sides(
                rt,
                alloc,
                words,
                source,
                sink,
                blocks,
                in_pages,
                (lead, other),
            )
        }
        Ok(MirrorDisks::Lead(lead, none)) => {
            run_on_sides(rt, alloc, words, source, sink, blocks, false, (lead, none))
        }
        Err(why) => no_image(sink, why),
    }
}

// The file of an image. It is made where there is none, but only by a command that makes its image anew.
fn open_file(rt: &HostRuntime, path: &str, words: &[String]) -> io::Result<HostFile> {
    if makes_anew(words) {
        HostFile::open(rt, path)
    } else {
        HostFile::open_existing(rt, path)
    }
}

// Takes the numbers of standard input, output and error where the caller closed them. Else an image that is opened
// would get one of them, and the lines would be written into it. What it gives is kept to the program's end.
fn hold_numbers(rt: &HostRuntime) -> [io::Result<File>; 3] {
    [
        File::open(rt, "/dev/null"),
        File::open(rt, "/dev/null"),
        File::open(rt, "/dev/null"),
    ]
}

fn main(rt: HostRuntime) -> ExitCode {
    let _held = hold_numbers(&rt);
    let (mut source, mut sink) = (ReadSource::new(rt.stdin()), WriteSink::new(rt.stdout()));
    let words = match all_words(&rt) {
        Ok(words) => words,
        Err(error) if error.kind() == io::ErrorKind::OutOfMemory => {
            return ExitCode::from(NO_MEMORY);
        }
        Err(_) => Vec::new(rt.alloc()),
    };
    let Some((image, rest)) = command(&words) else {
        let _told = write_all(&mut sink, fixed_text(FixedLine::Usage).as_bytes());
        return ExitCode::from(1);
    };
    let alloc = rt.alloc();
    let status = match image {
        ImageChoice::Memory => run_in_memory(&rt, alloc, rest, &mut source, &mut sink),
        ImageChoice::File { layout, path } => {
            let file = open_file(&rt, path, rest);
            let image = image_disk(alloc, file, layout, makes_anew(rest));
            run_in_file(&rt, alloc, rest, &mut source, &mut sink, image)
        }
        ImageChoice::Mirror {
            layout,
            blocks,
            lead,
            other,
        } => {
            let files = (open_file(&rt, lead, rest), open_file(&rt, other, rest));
            let disks = mirror_disks(alloc, files, layout, makes_anew(rest), blocks);
            run_in_mirror(&rt, alloc, rest, &mut source, &mut sink, blocks, disks)
        }
    };
    ExitCode::from(status)
}
