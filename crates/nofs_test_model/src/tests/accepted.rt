//! The lists of two worked histories, over the empty example image.
ghost use Rattle.std.specs.Prelude.{◌≤◌, IfOk};

use nofs_dirent::{Content, Name};
use nofs_disk::Pointer;
use nofs_history::{Claims, Entry1, History, NO_CLAIMS, Reply, Step, accepted_of};
use nofs_inode::inode::FileKind;
use nofs_model::Value;
use nofs_test_disks::empty;
use std::alloc::{AllocError, Global};
use std::test::Fail;

/// The first stamp of the first mount.
const S: u64 = 1_099_511_627_776;

fn entry(step: Step, reply: Reply, claims: Claims) -> Entry1 {
    Entry1 {
        caller: 0,
        from: 2,
        to: 2,
        step,
        reply,
        claims,
    }
}

// The bytes that are not 0, by their places.
fn push_bytes(alloc: Global, text: &mut String, bytes: &[u8]) -> Result<(), AllocError> {
    for (at, byte) in bytes.iter().enumerate() {
        if *byte != 0 {
            text.push_str(format!(in alloc; " {at}={byte}")?.as_str())?;
        }
    }
    Ok(())
}

fn push_value(alloc: Global, text: &mut String, value: &Value) -> Result<(), AllocError> {
    match value {
        Value::Hole => text.push_str("hole"),
        Value::Lost => text.push_str("lost"),
        Value::Bytes(content) => {
            text.push_str("bytes")?;
            push_bytes(alloc, text, content.as_slice())
        }
    }
}

// The values that a history accepted for a slot over the empty image, each with a mark behind it.
fn accepted_in(
    alloc: Global,
    history: &History,
    inode: u32,
    generation: u64,
    slot: u64,
) -> Result<String, AllocError> {
    let values = accepted_of(alloc, &empty(alloc)?, history, inode, generation, slot)?;
    let mut text = String::new(alloc);
    for value in values.as_slice() {
        push_value(alloc, &mut text, value)?;
        text.push_str(";")?;
    }
    Ok(text)
}

// A history with room for so many entries.
fn begun(alloc: Global, entries: u64) -> Result<History, AllocError>
    ensures { IfOk result (λ history. entries ≤ history.spare) }
{
    let mut history = History::new(alloc, 2);
    history.reserve(entries)?;
    Ok(history)
}

/// Resizes the label file, and puts a byte 255 into its slot 2.
fn sized_and_put(alloc: Global) -> Result<History, AllocError> {
    let mut history = begun(alloc, 2)?;
    let size = Step::Resize {
        inode: 2,
        generation: 2,
        size: 5000,
    };
    history.push(entry(size, Reply::Resized, NO_CLAIMS));
    let put = Step::Put {
        inode: 2,
        generation: 2,
        slot: 2,
        at: 0,
        bytes: Content::from_slice(alloc, &[255])?,
    };
    let claims = Claims {
        cell: Pointer { block: 7, stamp: S },
        ..NO_CLAIMS
    };
    history.push(entry(put, Reply::Stored, claims));
    Ok(history)
}

#[test]
fn a_put_behind_a_new_size_is_the_third_value(rt: HostRuntime) -> Result<(), Fail> {
    let alloc = rt.alloc();
    let values = accepted_in(alloc, &sized_and_put(alloc)?, 2, 2, 2)?;
    assert_eq!(rt; values.as_str(), "hole;hole;bytes 0=255;");
    Ok(())
}

/// Makes the file `a` in the root, inode 3.
fn made(alloc: Global) -> Result<History, AllocError> {
    let mut history = begun(alloc, 1)?;
    let make = Step::Make {
        directory: 1,
        generation: 1,
        name: Name::from_slice(alloc, b"a")?,
        kind: FileKind::File,
    };
    let reply = Reply::Made {
        inode: 3,
        generation: S,
    };
    let claims = Claims {
        inode: 3,
        generation: S,
        ..NO_CLAIMS
    };
    history.push(entry(make, reply, claims));
    Ok(history)
}

#[test]
fn a_new_name_is_in_the_second_value_of_its_directory(rt: HostRuntime) -> Result<(), Fail> {
    let alloc = rt.alloc();
    let history = made(alloc)?;
    let root = accepted_in(alloc, &history, 1, 1, 0)?;
    assert_eq!(rt; root.as_str(), "bytes;bytes 0=3 4=1 13=1 16=97;");
    let file = accepted_in(alloc, &history, 3, S, 0)?;
    assert_eq!(rt; file.as_str(), "hole;");
    Ok(())
}
