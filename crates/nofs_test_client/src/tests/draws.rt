//! The worked draws, and a replay of a history that was made by hand.

use crate::tests::texts::push_letters;
use nofs_client::{Command, Path};
use nofs_dirent::Content;
use nofs_gen::{ValueList, replay, script_of};
use nofs_history::{Entry1, History, NO_CLAIMS, Step};
use nofs_model::Value;
use nofs_test_standin::{number, parted, reply_of, short};
use std::alloc::{AllocError, Global};
use std::test::Fail;

// The names of a path, each behind a stroke.
fn path_text(alloc: Global, path: Option<&Path>) -> Result<String, AllocError> {
    let mut text = String::new(alloc);
    if let Some(Path::Names(names)) = path {
        for name in names.as_slice() {
            text.push_str("/")?;
            push_letters(&mut text, name.as_slice())?;
        }
    }
    Ok(text)
}

// The word of a command, its path and its numbers: of a put the place, the first byte and how many bytes.
fn parts_of(command: &Command) -> (&'static str, Option<&Path>, [u64; 3]) {
    match command {
        Command::MakeDirectory { path } => ("mkdir", Some(path), [0; 3]),
        Command::Make { path } => ("make", Some(path), [0; 3]),
        Command::Fsync { path } => ("fsync", Some(path), [0; 3]),
        Command::Size { path, size } => ("size", Some(path), [*size, 0, 0]),
        Command::Get {
            path,
            offset,
            length,
        } => ("get", Some(path), [*offset, *length, 0]),
        Command::Put {
            path,
            offset,
            bytes,
        } => ("put", Some(path), [*offset, first_of(bytes), bytes.len()]),
        _ => ("another", None, [0; 3]),
    }
}

// The first of some bytes, 0 where there is none.
fn first_of(bytes: &Content) -> u64 {
    u64::from(bytes.item(0).copied().unwrap_or(0))
}

// A command: its word, its path and its numbers, 0 where it has none.
fn command_text(alloc: Global, command: &Command) -> Result<String, AllocError> {
    let (word, path, [first, second, third]) = parts_of(command);
    let path = path_text(alloc, path)?;
    format!(in alloc; "{word} {path} {first} {second} {third}\n")
}

// Commands, one a line.
fn commands_text(alloc: Global, commands: &[Command]) -> Result<String, AllocError> {
    let mut text = String::new(alloc);
    for command in commands {
        text.push_str(command_text(alloc, command)?.as_str())?;
    }
    Ok(text)
}

// The commands of a script.
fn script_text(alloc: Global, start: u64, steps: u64, user: u32) -> Result<String, AllocError> {
    if 4000 < steps || user < 1 || 4 < user {
        return String::from_str(alloc, "no drill");
    }
    commands_text(alloc, script_of(alloc, start, steps, user)?.as_slice())
}

/// The start of a drill, its steps and a user, and the commands between the first two and the last.
const DRAWS: [(u64, u64, u32, &str); 7] = [
    (1, 1, 1, "put /1/f 4209 198 839\n"),
    (1, 1, 2, "size /2/f 227 0 0\n"),
    (1, 1, 3, "put /3/f 4436 83 748\n"),
    (1, 1, 4, "get /4/f 0 4096 0\n"),
    (2_147_483_649, 1, 1, "put /1/f 4209 198 839\n"),
    (2_147_483_647, 1, 3, "put /3/f 4209 198 839\n"),
    (1, 0, 2, ""),
];

// Whether a user draws these commands between the first two and the last.
fn is_drawn(
    alloc: Global,
    start: u64,
    steps: u64,
    user: u32,
    drawn: &str,
) -> Result<bool, AllocError> {
    let begins = format!(in alloc; "mkdir /{user} 0 0 0\nmake /{user}/f 0 0 0\n")?;
    let want = format!(in alloc; "{begins}{drawn}fsync /{user}/f 0 0 0\n")?;
    Ok(script_text(alloc, start, steps, user)? == want)
}

#[test]
fn each_user_draws_its_own_commands(rt: HostRuntime) -> Result<(), Fail> {
    for (start, steps, user, drawn) in DRAWS {
        assert!(rt;
            is_drawn(rt.alloc(), start, steps, user, drawn)?,
            "start {start}"
        );
    }
    Ok(())
}

// The step of these words, of generation 9: a put has its inode, slot, place and bytes, and a size is that of inode 3.
fn step_of(alloc: Global, words: &str) -> Result<Step, AllocError> {
    let (word, rest) = parted(words, ' ');
    if word == "size" {
        return Ok(Step::Resize {
            inode: 3,
            generation: 9,
            size: number(rest),
        });
    }
    let (inode, rest) = parted(rest, ' ');
    let (slot, rest) = parted(rest, ' ');
    let (at, bytes) = parted(rest, ' ');
    Ok(Step::Put {
        inode: short(inode),
        generation: 9,
        slot: number(slot),
        at: short(at),
        bytes: Content::from_slice(alloc, bytes.as_bytes())?,
    })
}

// Adds the step before an arrow, with the reply behind it.
fn push_entry(alloc: Global, history: &mut History, done: &str) -> Result<(), AllocError> {
    history.reserve(1)?;
    let (step, reply) = done.split_once(" -> ").unwrap_or((done, ""));
    let reply = reply_of(alloc, reply)?;
    let step = step_of(alloc, step)?;
    history.push(Entry1 {
        caller: 1,
        from: 0,
        to: 0,
        step,
        reply,
        claims: NO_CLAIMS,
    });
    Ok(())
}

// The first seven bytes of each slot that is no hole, with a point for a zero.
fn values_text(alloc: Global, values: &ValueList) -> Result<String, AllocError> {
    let mut text = String::new(alloc);
    for (slot, value) in values.as_slice().iter().enumerate() {
        if let Value::Bytes(bytes) = value {
            text.push_str(format!(in alloc; " {slot}:")?.as_str())?;
            for byte in bytes.as_slice().iter().take(7) {
                text.push(if *byte == 0 { '.' } else { char::from(*byte) })?;
            }
        }
    }
    Ok(text)
}

/// What was done one after the other, and the slots of inode 3 then.
const REPLAYS: &str = "\
put 3 0 0 abcdef -> stored | 0:abcdef.
put 4 0 0 other -> stored | 0:abcdef.
put 3 0 0 refused -> refused Stopped | 0:abcdef.
size 2050 -> resized | 0:abcdef.
put 3 2 1 z -> stored | 0:abcdef. 2:.z.....
put 3 72 0 z -> stored | 0:abcdef. 2:.z.....
size 3 -> resized | 0:abcdef.
size 5000 -> resized | 0:abc....";

// How many slots inode 3 of a generation has after a history, and those that are no holes.
fn replayed(
    alloc: Global,
    history: &History,
    generation: u64,
) -> Result<(u64, String), AllocError> {
    let values = replay(alloc, history, 3, generation)?;
    let text = values_text(alloc, &values)?;
    Ok((values.len(), text))
}

// Adds what a row tells; whether all slots then are as it tells.
fn goes_on(alloc: Global, history: &mut History, row: &str) -> Result<bool, AllocError> {
    let (done, want) = row.split_once(" |").unwrap_or((row, ""));
    push_entry(alloc, history, done)?;
    let (slots, text) = replayed(alloc, history, 9)?;
    Ok(slots == 72 && text.as_str() == want)
}

// The first row that is wrong, if there is one, and what the slots of another generation are behind all rows.
fn gone_through(alloc: Global) -> Result<(Option<&'static str>, String), AllocError> {
    let mut history = History::new(alloc, 0);
    let mut wrong = None;
    for row in REPLAYS.split('\n') {
        if !goes_on(alloc, &mut history, row)? {
            wrong = wrong.or(Some(row));
        }
    }
    let (_, other) = replayed(alloc, &history, 8)?;
    Ok((wrong, other))
}

#[test]
fn a_replay_has_what_was_accepted_and_nothing_else(rt: HostRuntime) -> Result<(), Fail> {
    let (wrong, other) = gone_through(rt.alloc())?;
    assert_eq!(rt; (wrong, other.as_str()), (None, ""));
    Ok(())
}
