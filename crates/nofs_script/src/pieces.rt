//! A session that is read as its text comes, in whatever pieces.
//!
//! Promise: it is the session of the whole text. Of that nothing is kept but its commands, and the line that has not
//! ended yet.

ghost use Rattle.std.specs.Prelude.{◌≡◌, ◌≢◌, ◌+◌, ◌<◌, ◌≤◌, ◌^◌, ◌++◌, ◌∷◌, [], ℕ, All, IfOk, List, length};
ghost use Rattle.std.specs.Str.Lines.{strip_carriage_return};
ghost use Rattle.nofs_script.specs.Grammar.{MatchesReading};
ghost use Rattle.nofs_script.specs.Pieces.{IsRead, IsWithin, ReadsOn, Spells};
ghost use Rattle.nofs_script.specs.Session.{IsSession, at_line, read_line, session_of};

use crate::faults::ParseFault;
use crate::session::{Reading, Session, end_of, read_at, without_return};
use crate::words::text_after;
use nofs_client::CommandList;
use std::alloc::Global;

/// What was read of a text of which no line so far was bad.
#[derive(Drop)]
pub struct LineReader {
    alloc: Global,
    // What the lines gave that have ended.
    reading: Reading,
    // The bytes of the line that has not.
    line: Vec<u8>,
    // Its number.
    number: u64,
}

// Reads the line of which these bytes are the end.
fn read_joined(
    alloc: Global,
    number: u64,
    reading: Reading,
    line: &mut Vec<u8>,
    end: &[u8],
) -> Result<Reading, ParseFault>
    ensures read { MatchesReading (λ r. r) result
        (at_line number (read_line reading (strip_carriage_return (line.old.items ++ end.now)))) }
    ensures cleared { IfOk result (λ _. line.new.items ≡ []) }
{
    if line.is_empty() {
        return read_at(alloc, number, reading, without_return(end));
    }
    line.extend_from_slice(end)?;
    let reading = read_at(alloc, number, reading, without_return(line))?;
    line.clear();
    Ok(reading)
}

impl LineReader {
    // Nothing was read yet.
    fn new(alloc: Global) -> LineReader
        ensures read { ReadsOn result [] [] }
        ensures number { result.number ≡ 1 }
    {
        LineReader {
            alloc,
            reading: Reading {
                done: Session::new(alloc),
                current: CommandList::new(alloc),
                count: 0,
                asked: 0,
            },
            line: Vec::new(alloc),
            number: 1,
        }
    }

    // The line goes on with these bytes.
    fn with_part(self, part: &[u8]) -> Result<LineReader, ParseFault>
        requires { All (λ byte. byte ≢ 10) part.now }
        ensures read { (text : List ℕ) → ReadsOn self part.now text → IsRead result [] text }
        ensures number { IfOk result (λ reader. reader.number ≡ self.number) }
    {
        let mut reader = self;
        reader.line.extend_from_slice(part)?;
        Ok(reader)
    }

    // The line ends with these bytes.
    fn with_end(self, end: &[u8]) -> Result<LineReader, ParseFault>
        requires line { All (λ byte. byte ≢ 10) end.now }
        requires number { self.number + 1 < 2 ^ 64 }
        ensures read { (left text : List ℕ) → ReadsOn self (end.now ++ 10 ∷ left) text → IsRead result left text }
        ensures number { IfOk result (λ reader. reader.number ≡ self.number + 1) }
    {
        let LineReader {
            alloc,
            reading,
            mut line,
            number,
        } = self;
        let reading = read_joined(alloc, number, reading, &mut line, end)?;
        Ok(LineReader {
            alloc,
            reading,
            line,
            number: number + 1,
        })
    }

    // The next piece of the text.
    fn with_piece(self, piece: &[u8]) -> Result<LineReader, ParseFault>
        requires { self.number + length piece.now < 2 ^ 64 }
        ensures read { (text : List ℕ) → ReadsOn self [] text → IsRead result [] (text ++ piece.now) }
        ensures number { IfOk result (λ reader. reader.number ≤ self.number + length piece.now) }
    {
        let mut reader = self;
        let mut rest = piece;
        for _turn in 0..piece.len() + 1 {
            match end_of(rest) {
                None => return reader.with_part(rest),
                Some(end) => {
                    reader = reader.with_end(&rest[..end])?;
                    rest = text_after(rest, end);
                }
            }
        }
        unreachable!()
    }

    // The session, where the text has ended.
    fn end(self) -> Result<Session, ParseFault>
        ensures { (text : List ℕ) → ReadsOn self [] text → Spells text result }
    {
        let LineReader {
            alloc,
            reading,
            line,
            number,
        } = self;
        let Reading {
            mut done,
            current,
            count: _,
            asked: _,
        } = read_at(alloc, number, reading, &line)?;
        done.push(current)?;
        Ok(done)
    }
}

/// A session that is read as its text comes.
#[derive(Drop)]
pub struct SessionReader {
    reading: Result<LineReader, ParseFault>,
}

impl SessionReader {
    /// Nothing was read yet.
    pub fn new(alloc: Global) -> SessionReader
        ensures read { IsRead result.reading [] [] }
        ensures number { IsWithin result 1 }
    {
        SessionReader {
            reading: Ok(LineReader::new(alloc)),
        }
    }

    /// The next piece of the text. Behind a bad line nothing is read. Lines are counted in 64 bits.
    pub fn with_piece(self, piece: &[u8]) -> SessionReader
        requires { IfOk self.reading (λ reader. reader.number + length piece.now < 2 ^ 64) }
        ensures read { (text : List ℕ) → IsRead self.reading [] text → IsRead result.reading [] (text ++ piece.now) }
        ensures number { (n : ℕ) → IsWithin self n → IsWithin result (n + length piece.now) }
    {
        let reading = match self.reading {
            Ok(reader) => reader.with_piece(piece),
            Err(fault) => Err(fault),
        };
        SessionReader { reading }
    }

    /// What the text spells, where it has ended (docs/FORMAT.md, "Session text"): a session, or its first bad line.
    /// Only want of memory can stop it otherwise. A session has 1 to 8 scripts, and each of its commands is well
    /// formed.
    pub fn end(self) -> Result<Session, ParseFault>
        ensures { (text : List ℕ) → IsRead self.reading [] text → Spells text result }
    {
        match self.reading {
            Ok(reader) => reader.end(),
            Err(fault) => Err(fault),
        }
    }
}

/// The session that a text spells, or its first bad line (docs/FORMAT.md, "Session text"). Only want of memory can stop
/// it otherwise. A session has 1 to 8 scripts, and each of its commands is well formed.
pub fn parse(alloc: Global, text: &[u8]) -> Result<Session, ParseFault>
    ensures exact { MatchesReading (λ session. session) result (session_of text.now) }
    ensures session { IfOk result IsSession }
{
    SessionReader::new(alloc).with_piece(text).end()
}
