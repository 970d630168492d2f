//! Replies from their words, which docs/CASES.md has too.

use nofs_dirent::{Content, Name};
use nofs_history::{Found, NameLine, NameList, Refusal, Reply, Stat};
use nofs_inode::inode::FileKind;
use std::alloc::{AllocError, Global};

// The digits behind the name of a field.
fn field<'a>(fields: &'a str, name: &str) -> &'a str {
    match fields.split_once(name) {
        Some((_, rest)) => parted(parted(rest, ',').0, ' ').0,
        None => "",
    }
}

// A refusal that keeps nothing.
fn plain_refusal(word: &str) -> Refusal {
    match word {
        "Missing" => Refusal::Missing,
        "Exists" => Refusal::Exists,
        "NotDirectory" => Refusal::NotDirectory,
        "IsDirectory" => Refusal::IsDirectory,
        "NotEmpty" => Refusal::NotEmpty,
        "BadName" => Refusal::BadName,
        "BadRange" => Refusal::BadRange,
        "TooManyLinks" => Refusal::TooManyLinks,
        "DirectoryFull" => Refusal::DirectoryFull,
        "TooLarge" => Refusal::TooLarge,
        "PastEnd" => Refusal::PastEnd,
        "Stale" => Refusal::Stale,
        "SerialsSpent" => Refusal::SerialsSpent,
        "ReadFault" => Refusal::ReadFault,
        "WriteFault" => Refusal::WriteFault,
        "OutOfMemory" => Refusal::OutOfMemory,
        _ => Refusal::Stopped,
    }
}

/// The refusal that these words tell, with what it keeps; `Stopped` where they tell none.
pub fn refusal_of(text: &str) -> Refusal {
    let (word, fields) = parted(text, ' ');
    match word {
        "LostEntry" => Refusal::LostEntry {
            entry: short(field(fields, "entry: ")),
        },
        "LostSlot" => Refusal::LostSlot {
            slot: number(field(fields, "slot: ")),
        },
        "Full" => Refusal::Full {
            needed: number(field(fields, "needed: ")),
            free: number(field(fields, "free: ")),
            unverified: number(field(fields, "unverified: ")),
            next: number(field(fields, "next: ")),
        },
        "InodesFull" => Refusal::InodesFull {
            unverified: number(field(fields, "unverified: ")),
            next: number(field(fields, "next: ")),
        },
        _ => plain_refusal(word),
    }
}

/// The number that a word spells; 0 where it spells none.
pub fn number(word: &str) -> u64 {
    word.parse::<u64>().unwrap_or(0)
}

/// The number of at most 32 bits that a word spells; 0 where it spells none.
pub fn short(word: &str) -> u32 {
    word.parse::<u32>().unwrap_or(0)
}

/// What stands before the first of a separator, and what behind it; the whole text and nothing where it has none.
pub fn parted(text: &str, by: char) -> (&str, &str) {
    text.split_once(by).unwrap_or((text, ""))
}

fn kind_of(word: &str) -> FileKind {
    if word == "directory" {
        FileKind::Directory
    } else {
        FileKind::File
    }
}

// An inode and its generation, and what stands behind them.
fn handle(text: &str) -> (u32, u64, &str) {
    let (inode, rest) = parted(text, '/');
    let (generation, rest) = parted(rest, ' ');
    (short(inode), number(generation), rest)
}

fn found(text: &str) -> Reply {
    let (inode, generation, kind) = handle(text);
    Reply::Found(Found {
        inode,
        generation,
        kind: kind_of(kind),
    })
}

fn made(text: &str) -> Reply {
    let (inode, generation, _) = handle(text);
    Reply::Made { inode, generation }
}

fn stat(kind: &str, text: &str) -> Reply {
    let (size, links) = parted(text, ' ');
    Reply::Stat(Stat {
        kind: kind_of(kind),
        size: number(size),
        links: short(links),
    })
}

// An entry: its name, behind `dead:` where it is dead, with `/` behind a directory's.
fn entry(alloc: Global, word: &str) -> Result<NameLine, AllocError> {
    let (dead, name) = match word.strip_prefix("dead:") {
        Some(name) => (true, name),
        None => (false, word),
    };
    let (kind, name) = match name.strip_suffix('/') {
        Some(name) => (FileKind::Directory, name),
        None => (FileKind::File, name),
    };
    let name = Name::from_slice(alloc, name.as_bytes())?;
    Ok(NameLine { name, kind, dead })
}

fn names(alloc: Global, text: &str) -> Result<NameList, AllocError> {
    let mut names = NameList::new(alloc);
    for word in text.split(' ') {
        names.push(entry(alloc, word)?)?;
    }
    Ok(names)
}

// A slot that is zero but for these bytes at this place.
fn slot(alloc: Global, text: &str) -> Result<Content, AllocError> {
    let (at, digits) = parted(text, ' ');
    let mut bytes = Vec::new(alloc);
    bytes.resize(number(at) as usize, 0)?;
    bytes.extend_from_slice(&hex::decode(alloc, digits).unwrap_or(Vec::new(alloc)))?;
    bytes.resize(1024, 0)?;
    Ok(Content::from_vec(bytes))
}

/// The reply that these words tell; `Stopped` where they tell none.
pub fn reply_of(alloc: Global, text: &str) -> Result<Reply, AllocError> {
    let (word, rest) = parted(text, ' ');
    Ok(match word {
        "found" => found(rest),
        "made" => made(rest),
        "linked" => Reply::Linked,
        "dropped" => Reply::Dropped {
            removed: rest == "and removed",
        },
        "renamed" => Reply::Renamed,
        "names" => {
            let (at, words) = parted(rest, ' ');
            Reply::Names(number(at), names(alloc, words)?)
        }
        "no" => Reply::NoMore,
        "bytes" => Reply::Bytes(slot(alloc, rest)?),
        "hole" => Reply::Hole,
        "lost" => match rest.strip_prefix("names ") {
            Some(at) => Reply::LostNames(number(at)),
            None => Reply::Lost,
        },
        "stored" => Reply::Stored,
        "resized" => Reply::Resized,
        "file" | "directory" => stat(word, rest),
        "flushed" => Reply::Flushed,
        "used" => Reply::Seen { used: true },
        "free" => Reply::Seen { used: false },
        _ => Reply::Refused(refusal_of(rest)),
    })
}
