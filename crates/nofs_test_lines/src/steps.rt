//! Steps as lines of a case write them.
//!
//! A line says who asks, the step, `->`, and what is to be answered and claimed. A file or directory is
//! `INODE/GENERATION`.

use crate::failure::Failure;
use crate::lines::{hex_bytes, number_of};
use nofs_dirent::{Content, Name};
use nofs_history::Step;
use nofs_inode::FileKind;
use std::alloc::{AllocError, Global};

// An inode and its generation.
fn handle_of(word: &str) -> Option<(u32, u64)> {
    let (inode, generation) = word.split_once('/')?;
    Some((inode.parse::<u32>().ok()?, number_of(generation)?))
}

/// The step that words write, if they do.
pub fn step_of(alloc: Global, words: &[&str]) -> Result<Option<Step>, Failure> {
    match words {
        ["inode", inode] => Ok(inode_step(inode.parse::<u32>().ok())),
        [verb, on, args @ ..] => match handle_of(on) {
            Some(on) => step_on(alloc, verb, on, args),
            None => Ok(None),
        },
        _ => Ok(None),
    }
}

fn inode_step(inode: Option<u32>) -> Option<Step> {
    Some(Step::SeeInode { inode: inode? })
}

fn step_on(
    alloc: Global,
    verb: &str,
    on: (u32, u64),
    args: &[&str],
) -> Result<Option<Step>, Failure> {
    match (verb, args) {
        ("stat" | "flush", []) => Ok(plain_step(verb, on)),
        ("get" | "list" | "size", [number]) => Ok(number_step(verb, on, number_of(number))),
        ("put", [slot, at, digits]) => {
            put_step(alloc, on, (number_of(slot), at.parse::<u32>().ok()), digits)
        }
        (_, [name]) => Ok(name_step(verb, on, name_of(alloc, name)?)),
        ("link", [name, file]) => Ok(link_step(on, name_of(alloc, name)?, handle_of(file))),
        ("rename", [old, new]) => Ok(Some(Step::Rename {
            directory: on.0,
            generation: on.1,
            old: name_of(alloc, old)?,
            new: name_of(alloc, new)?,
        })),
        _ => Ok(None),
    }
}

fn name_of(alloc: Global, word: &str) -> Result<Name, AllocError> {
    Name::from_slice(alloc, word.as_bytes())
}

fn plain_step(verb: &str, on: (u32, u64)) -> Option<Step> {
    let (inode, generation) = on;
    match verb {
        "stat" => Some(Step::Stat { inode, generation }),
        "flush" => Some(Step::Flush { inode, generation }),
        _ => None,
    }
}

fn number_step(verb: &str, on: (u32, u64), number: Option<u64>) -> Option<Step> {
    let (inode, generation) = on;
    let number = number?;
    match verb {
        "get" => Some(Step::Get {
            inode,
            generation,
            slot: number,
        }),
        "list" => Some(Step::List {
            directory: inode,
            generation,
            slot: number,
        }),
        "size" => Some(Step::Resize {
            inode,
            generation,
            size: number,
        }),
        _ => None,
    }
}

fn put_step(
    alloc: Global,
    on: (u32, u64),
    numbers: (Option<u64>, Option<u32>),
    digits: &str,
) -> Result<Option<Step>, Failure> {
    let (Some(slot), Some(at)) = numbers else {
        return Ok(None);
    };
    let digits = digits.strip_prefix('-').unwrap_or(digits);
    let bytes = Content::from_vec(hex_bytes(alloc, digits)?);
    let (inode, generation) = on;
    Ok(Some(Step::Put {
        inode,
        generation,
        slot,
        at,
        bytes,
    }))
}

fn name_step(verb: &str, on: (u32, u64), name: Name) -> Option<Step> {
    let (directory, generation) = on;
    match verb {
        "look" => Some(Step::Look {
            directory,
            generation,
            name,
        }),
        "drop" => Some(Step::Drop {
            directory,
            generation,
            name,
        }),
        "make" => Some(make_step(on, name, FileKind::File)),
        "mkdir" => Some(make_step(on, name, FileKind::Directory)),
        _ => None,
    }
}

fn make_step(on: (u32, u64), name: Name, kind: FileKind) -> Step {
    Step::Make {
        directory: on.0,
        generation: on.1,
        name,
        kind,
    }
}

fn link_step(on: (u32, u64), name: Name, file: Option<(u32, u64)>) -> Option<Step> {
    let (inode, of) = file?;
    Some(Step::Link {
        directory: on.0,
        generation: on.1,
        name,
        inode,
        of,
    })
}
