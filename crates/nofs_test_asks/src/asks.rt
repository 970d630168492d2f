//! Steps as tables write them down, and what is told of their replies.

use nofs_dirent::{Content, Name};
use nofs_disk::Disk;
use nofs_history::{Found, NameList, Reply, Stat, Step, Steps};
use nofs_inode::FileKind;
use nofs_shared::Mount;
use std::alloc::{AllocError, Global};
use std::test::Fail;

/// A file or directory: its inode and its generation.
pub type HandlePair = (u32, u64);

/// The label file.
pub const LABEL: HandlePair = (2, 2);

/// The first stamp of the first mount.
pub const S: u64 = 1_099_511_627_776;

/// A step. Names are those of the root.
#[derive(Clone, Copy)]
pub enum Ask<'a> {
    Look(&'a [u8]),
    /// Makes a file.
    Make(&'a [u8]),
    Rename(&'a [u8], &'a [u8]),
    List,
    Get(HandlePair, u64),
    /// So many times a byte at the front of a slot.
    Put(HandlePair, u64, usize, u8),
    Resize(HandlePair, u64),
    Stat(HandlePair),
    /// Flushes the whole disk.
    Flush,
    SeeInode(u32),
    SeeBlock(u64),
}

/// The step.
fn step_of(alloc: Global, ask: Ask) -> Result<Step, AllocError> {
    Ok(match ask {
        Ask::Look(name) => Step::Look {
            directory: 1,
            generation: 1,
            name: Name::from_slice(alloc, name)?,
        },
        Ask::Make(name) => Step::Make {
            directory: 1,
            generation: 1,
            name: Name::from_slice(alloc, name)?,
            kind: FileKind::File,
        },
        Ask::Rename(old, new) => Step::Rename {
            directory: 1,
            generation: 1,
            old: Name::from_slice(alloc, old)?,
            new: Name::from_slice(alloc, new)?,
        },
        Ask::List => Step::List {
            directory: 1,
            generation: 1,
            slot: 0,
        },
        Ask::Get((inode, generation), slot) => Step::Get {
            inode,
            generation,
            slot,
        },
        Ask::Put((inode, generation), slot, count, byte) => Step::Put {
            inode,
            generation,
            slot,
            at: 0,
            bytes: Content::from_vec(vec![in alloc; byte; count]?),
        },
        Ask::Resize((inode, generation), size) => Step::Resize {
            inode,
            generation,
            size,
        },
        Ask::Stat((inode, generation)) => Step::Stat { inode, generation },
        Ask::Flush => Step::Flush {
            inode: 0,
            generation: 0,
        },
        Ask::SeeInode(inode) => Step::SeeInode { inode },
        Ask::SeeBlock(block) => Step::SeeBlock { block },
    })
}

/// What is told of a reply: of bytes the first four, of a list the slot and the names.
pub fn told(alloc: Global, reply: &Reply) -> Result<String, AllocError> {
    match reply {
        Reply::Found(it) => found_text(alloc, it),
        Reply::Made { inode, generation } => format!(in alloc; "made {inode} {generation}"),
        Reply::Names(slot, names) => names_text(alloc, *slot, names),
        Reply::Bytes(content) => bytes_text(alloc, content.as_slice()),
        Reply::Stat(it) => stat_text(alloc, it),
        Reply::Refused(why) => format!(in alloc; "{why:?}"),
        _ => String::from_str(alloc, word_of(reply)),
    }
}

// The word of a reply that tells no more.
fn word_of(reply: &Reply) -> &'static str {
    match reply {
        Reply::Hole => "hole",
        Reply::Lost => "lost",
        Reply::Stored => "stored",
        Reply::Resized => "resized",
        Reply::Renamed => "renamed",
        Reply::Flushed => "flushed",
        Reply::Seen { used: true } => "used",
        Reply::Seen { used: false } => "free",
        _ => "something else",
    }
}

fn found_text(alloc: Global, found: &Found) -> Result<String, AllocError> {
    let Found {
        inode,
        generation,
        kind,
    } = *found;
    format!(in alloc; "found {inode} {generation} {kind:?}")
}

fn stat_text(alloc: Global, stat: &Stat) -> Result<String, AllocError> {
    let Stat { kind, size, links } = *stat;
    format!(in alloc; "{kind:?} {size} {links}")
}

fn bytes_text(alloc: Global, bytes: &[u8]) -> Result<String, AllocError> {
    let mut text = String::new(alloc);
    push_bytes(&mut text, bytes.get(..4).unwrap_or(bytes))?;
    Ok(text)
}

fn push_bytes(text: &mut String, bytes: &[u8]) -> Result<(), AllocError> {
    for byte in bytes {
        text.push(char::from(*byte))?;
    }
    Ok(())
}

fn names_text(alloc: Global, slot: u64, names: &NameList) -> Result<String, AllocError> {
    let mut text = format!(in alloc; "names {slot}")?;
    for line in names.as_slice() {
        text.push_str(if line.dead { " dead:" } else { " " })?;
        push_bytes(&mut text, line.name.as_slice())?;
        text.push_str(mark_of(line.kind))?;
    }
    Ok(text)
}

// What is told behind the name of a file or directory.
fn mark_of(kind: FileKind) -> &'static str {
    match kind {
        FileKind::File => "",
        FileKind::Directory => "/",
    }
}

// What is told of a reply that is not needed any more.
fn last_told(alloc: Global, reply: Reply) -> Result<String, AllocError> {
    told(alloc, &reply)
}

// It is an error, of the case of this number, where something else is told.
fn is_told(case: usize, came: Result<String, AllocError>, want: &str) -> Result<(), Fail> {
    let came = came?;
    if came.as_str() == want {
        return Ok(());
    }
    Err(Fail::new(format_args!("case {case}: {}, not {want}", came.as_str())))
}

/// Steps, and what is to be told of the reply to each.
pub type Cases<'a> = &'a [(Ask<'a>, &'a str)];

// Makes a step at a mount: what is told of its reply.
fn answer<D: Disk + Drop>(
    alloc: Global,
    mount: &mut Mount<D>,
    ask: Ask,
) -> Result<String, AllocError> {
    let step = step_of(alloc, ask)?;
    last_told(alloc, mount.step(alloc, 1, step))
}

/// Makes steps at a mount, of whose replies this is to be told.
pub fn follow<D: Disk + Drop>(
    alloc: Global,
    mount: &mut Mount<D>,
    cases: Cases,
) -> Result<(), Fail> {
    for case in 0..cases.len() {
        let (ask, want) = cases[case];
        is_told(case, answer(alloc, mount, ask), want)?;
    }
    Ok(())
}

// Makes a step of a user: what is told of its reply.
fn answer_to<S: Steps>(alloc: Global, user: &mut S, ask: Ask) -> Result<String, AllocError>
    ensures { S.goes user.old user.new }
{
    let step = step_of(alloc, ask)?;
    last_told(alloc, user.step(step))
}

/// Makes steps of a user, of whose replies this is to be told.
pub fn follow_as<S: Steps>(alloc: Global, user: &mut S, cases: Cases) -> Result<(), Fail>
    ensures { S.goes user.old user.new }
{
    for case in 0..cases.len() {
        let (ask, want) = cases[case];
        is_told(case, answer_to(alloc, user, ask), want)?;
    }
    Ok(())
}
