//! The cases of streams: in pieces of any size, at their limits, with frames that spell no step, and while calls fail.

use crate::tests::cases::{
    BETWEEN, CUTS, LIMITS, NO_STEPS, ON_FILES, ON_NAMES, PIECES, PUT, REFUSALS, THREE_STATS,
    TWO_STATS,
};
use crate::tests::served::{Flow, ServedStream, WHOLE, bytes_of, marked, marked_bytes, serve_told};
use nofs_io::{MemSource, read_all};
use nofs_test_standin::{parted, short};
use std::alloc::{AllocError, Global};
use std::process::Abort;
use std::test::Fail;

/// The number behind a word; `None` where the word is not there.
fn number_behind(words: &str, word: &str) -> Option<u32> {
    match words.split_once(word) {
        Some((_, rest)) => Some(short(parted(rest, ' ').0)),
        None => None,
    }
}

/// How a stream comes by these words.
fn flow_of(words: &str) -> Flow {
    Flow {
        piece: u64::from(number_behind(words, "piece ").unwrap_or(4096)),
        read: u64::from(number_behind(words, "read ").unwrap_or(0)),
        write: u64::from(number_behind(words, "write ").unwrap_or(0)),
        room: u64::from(number_behind(words, "room ").unwrap_or(400_000)),
        limit: number_behind(words, "limit "),
    }
}

/// Serves the stream of a case that comes by these words.
fn came_by(alloc: Global, case: &str, words: &str) -> Result<ServedStream, AllocError> {
    let sent = marked_bytes(alloc, case, "<")?;
    let first = number_behind(words, "first ").unwrap_or(u32::MAX);
    let sent = sent.get(..first as usize).unwrap_or(&sent);
    let told = marked(alloc, case, "=", "\n")?;
    serve_told(alloc, flow_of(words), sent, told.as_str())
}

/// Its end, the steps that were made, and the bytes that were given.
fn outcome_of(alloc: Global, came: ServedStream) -> Result<(String, String, Vec<u8>), AllocError> {
    let ServedStream {
        end,
        steps,
        given,
        source: _,
    } = came;
    let end = format!(in alloc; "{end:?}")?;
    Ok((end, steps, given))
}

/// The outcome that a case tells.
fn told_by(alloc: Global, case: &str, end: &str) -> Result<(String, String, Vec<u8>), AllocError> {
    let steps = marked(alloc, case, "=", "\n")?;
    let given = marked_bytes(alloc, case, ">")?;
    Ok((String::from_str(alloc, end)?, steps, given))
}

/// The stream of a case that comes by these words makes its steps, gives its bytes and has this end.
fn expect(rt: &impl Abort, alloc: Global, case: &str, words: &str, end: &str) -> Result<(), Fail> {
    let told = told_by(alloc, case, end)?;
    let came = outcome_of(alloc, came_by(alloc, case, words)?)?;
    assert_eq!(rt; came, told, "{words} of {case}");
    Ok(())
}

/// Each stream of a case has its outcome.
fn expect_case(rt: &impl Abort, alloc: Global, case: &str) -> Result<(), Fail> {
    let (head, _) = parted(case, '\n');
    let (end, flows) = head.split_once(" | ").unwrap_or((head, ""));
    for words in flows.split(", ") {
        expect(rt, alloc, case, words, end)?;
    }
    Ok(())
}

#[test]
fn each_stream_has_its_steps_its_replies_and_its_end(rt: HostRuntime) -> Result<(), Fail> {
    for cases in [PIECES, LIMITS, ON_NAMES, ON_FILES, REFUSALS] {
        for case in cases.split("\n\n") {
            expect_case(&rt, rt.alloc(), case)?;
        }
    }
    Ok(())
}

/// The case of a row: how many stats are made, how many replies given, the end, and how the frames come.
fn case_of(alloc: Global, frames: &str, row: &str) -> Result<String, AllocError> {
    let (made, rest) = parted(row, ' ');
    let (given, head) = parted(rest, ' ');
    let made = format!(in alloc; "={made} stat 2/2 -> refused Stopped")?;
    format!(in alloc; "{head}\n{frames}\n{made}\n>{given} 01000000 14")
}

#[test]
fn a_stream_ends_where_a_call_fails_a_frame_is_cut_or_there_are_too_many_bytes(
    rt: HostRuntime,
) -> Result<(), Fail> {
    let cut = format!(in rt.alloc();
        "<1 {TWO}\n<1 15000000 07 02000000 0200000000000000 4800000000000000"
    )?;
    for (frames, rows) in [
        ("<3 0d000000 0a 02000000 0200000000000000", THREE_STATS),
        ("<2 0d000000 0a 02000000 0200000000000000", TWO_STATS),
        (cut.as_str(), CUTS),
    ] {
        for row in rows.lines() {
            let case = case_of(rt.alloc(), frames, row)?;
            expect_case(&rt, rt.alloc(), case.as_str())?;
        }
    }
    Ok(())
}

#[test]
fn a_frame_that_spells_no_step_is_bad(rt: HostRuntime) -> Result<(), Fail> {
    let alloc = rt.alloc();
    for frame in NO_STEPS.lines() {
        let sent = format!(in alloc; "<1 0d000000 0a 02000000 0200000000000000\n<1 {frame}")?;
        let case = format!(in alloc; "Bad {{ at: 17 }} | piece 7\n{sent}\n{BETWEEN}")?;
        expect_case(&rt, alloc, case.as_str())?;
    }
    Ok(())
}

#[test]
fn a_body_has_1100_bytes(rt: HostRuntime) -> Result<(), Fail> {
    let alloc = rt.alloc();
    let digits = "07".repeat(alloc, 1075)?;
    let case = format!(in alloc; "{PUT}=1 put 2/2 1 0 {digits} -> stored")?;
    expect_case(&rt, alloc, case.as_str())
}

/// A stat, and a get of the first slot.
const TWO: &str = "\
0d000000 0a 02000000 0200000000000000 \
15000000 07 02000000 0200000000000000 0000000000000000";

/// The bytes that a source has left.
fn left_in(alloc: Global, source: &mut MemSource) -> Result<Vec<u8>, AllocError> {
    match read_all(alloc, source, 100) {
        Ok(left) => left.as_slice().to_vec(alloc),
        Err(_) => Ok(Vec::new(alloc)),
    }
}

#[test]
fn a_reply_is_given_before_more_is_taken(rt: HostRuntime) -> Result<(), Fail> {
    let alloc = rt.alloc();
    let flow = Flow {
        piece: 21,
        read: 2,
        ..WHOLE
    };
    let stream = bytes_of(alloc, TWO)?;
    let mut came = serve_told(alloc, flow, &stream, "")?;
    let left = left_in(alloc, &mut came.source)?;
    let outcome = outcome_of(alloc, came)?;
    let case = "=1 stat 2/2 -> refused Stopped\n>1 01000000 14";
    assert_eq!(rt; outcome, told_by(alloc, case, "SourceFault")?);
    assert_eq!(rt; left.as_slice(), stream.get(21..).unwrap_or(&[]));
    Ok(())
}
