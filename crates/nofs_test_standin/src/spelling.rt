//! A step as a line: its word, the file or directory that it is on, and what else it says.

use nofs_dirent::ListOf;
use nofs_history::Step;
use nofs_inode::inode::FileKind;
use std::alloc::{AllocError, Global};

// Bytes as the letters that they stand for.
fn letters(name: &ListOf<u8>) -> &str {
    std::str::from_utf8(name.as_slice()).unwrap_or("?")
}

fn make_word(kind: FileKind) -> &'static str {
    match kind {
        FileKind::File => "make",
        FileKind::Directory => "mkdir",
    }
}

/// The line of a step, as docs/CASES.md writes them.
pub fn step_text(alloc: Global, step: &Step) -> Result<String, AllocError> {
    match step {
        Step::Look {
            directory,
            generation,
            name,
        } => format!(in alloc; "look {directory}/{generation} {}", letters(name)),
        Step::Make {
            directory,
            generation,
            name,
            kind,
        } => {
            format!(in alloc;
                "{} {directory}/{generation} {}",
                make_word(*kind),
                letters(name)
            )
        }
        Step::Link {
            directory,
            generation,
            name,
            inode,
            of,
        } => format!(in alloc;
            "link {directory}/{generation} {} {inode}/{of}",
            letters(name)
        ),
        Step::Drop {
            directory,
            generation,
            name,
        } => format!(in alloc; "drop {directory}/{generation} {}", letters(name)),
        Step::Rename {
            directory,
            generation,
            old,
            new,
        } => {
            format!(in alloc;
                "rename {directory}/{generation} {} {}",
                letters(old),
                letters(new)
            )
        }
        Step::List {
            directory,
            generation,
            slot,
        } => format!(in alloc; "list {directory}/{generation} {slot}"),
        Step::Get {
            inode,
            generation,
            slot,
        } => format!(in alloc; "get {inode}/{generation} {slot}"),
        Step::Put {
            inode,
            generation,
            slot,
            at,
            bytes,
        } => {
            let digits = hex::encode(alloc, bytes.as_slice())?;
            format!(in alloc; "put {inode}/{generation} {slot} {at} {digits}")
        }
        Step::Resize {
            inode,
            generation,
            size,
        } => format!(in alloc; "size {inode}/{generation} {size}"),
        Step::Stat { inode, generation } => format!(in alloc; "stat {inode}/{generation}"),
        Step::Flush { inode, generation } => format!(in alloc; "flush {inode}/{generation}"),
        Step::SeeInode { inode } => format!(in alloc; "inode {inode}"),
        Step::SeeBlock { block } => format!(in alloc; "block {block}"),
    }
}
