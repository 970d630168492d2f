//! Commands by their words.

ghost use Rattle.std.specs.Prelude.{◌≡◌, ◌∷◌, ◌==◌, map, IfOk};
ghost use Rattle.std.specs.List.{list_all, slice_split};
ghost use Rattle.nofs_script.specs.Words.{piece_of, is_word};
ghost use Rattle.nofs_script.specs.Grammar.{MatchesReading, path_word, new_path_word, number_word, hex_word, verb_in};
ghost use Rattle.nofs_script.specs.Grammar.{one_path as one_path_in, on_path as on_path_in, one_word as one_word_in};
ghost use Rattle.nofs_script.specs.Grammar.{two_words as two_words_in, three_words as three_words_in, command_of};
ghost use Rattle.nofs_script.specs.Grammar.{spelled_path, path_of_parts};

use crate::digits::spelled_bytes;
use crate::faults::{LineFault, ScriptKind};
use crate::words::{is_spelled, number_of};
use nofs_client::{Command, Path};
use nofs_dirent::{Content, Name, PathNames};
use std::alloc::{AllocError, Global};

/// What the first word of a line asks for.
#[derive(Clone, Copy)]
pub enum Verb {
    Make,
    MakeDirectory,
    Put,
    Get,
    Size,
    Stat,
    List,
    Link,
    Drop,
    Rename,
    Fsync,
    Move,
}

/// The verb of a word.
#[tactic(auto, unfolding(crate::specs::Grammar::verb_in))]
pub(crate) fn verb_of(word: &[u8]) -> Option<Verb>
    ensures { result ≡ verb_in word.now }
{
    if is_spelled(word, "make") {
        Some(Verb::Make)
    } else if is_spelled(word, "mkdir") {
        Some(Verb::MakeDirectory)
    } else if is_spelled(word, "put") {
        Some(Verb::Put)
    } else if is_spelled(word, "get") {
        Some(Verb::Get)
    } else if is_spelled(word, "size") {
        Some(Verb::Size)
    } else if is_spelled(word, "stat") {
        Some(Verb::Stat)
    } else if is_spelled(word, "list") {
        Some(Verb::List)
    } else if is_spelled(word, "link") {
        Some(Verb::Link)
    } else if is_spelled(word, "drop") {
        Some(Verb::Drop)
    } else if is_spelled(word, "rename") {
        Some(Verb::Rename)
    } else if is_spelled(word, "fsync") {
        Some(Verb::Fsync)
    } else if is_spelled(word, "move") {
        Some(Verb::Move)
    } else {
        None
    }
}

// The parts of a word between slashes.
fn parts(alloc: Global, word: &[u8]) -> Result<Vec<&[u8]>, AllocError>
    ensures { IfOk result (λ parts. map piece_of parts.items ≡ slice_split (λ byte. byte == 47) word.now) }
{
    word.split(|byte| *byte == b'/').collect(alloc)
}

fn names(alloc: Global, parts: &[&[u8]]) -> Result<PathNames, AllocError>
    ensures { IfOk result (λ names. names ≡ map piece_of parts.now) }
{
    let mut names = PathNames::new(alloc);
    for part in parts {
        names.push(Name::from_slice(alloc, part)?)?;
    }
    Ok(names)
}

fn all_words(parts: &[&[u8]]) -> bool
    ensures { result ≡ list_all (λ part. is_word part.now) parts.now }
{
    parts.iter().all(|part| !part.is_empty())
}

#[tactic(auto, using(crate::proofs::OnWords::Pieces::list_all_pieces))]
fn names_behind(alloc: Global, front: &[u8], rest: &[&[u8]]) -> Result<Option<Path>, AllocError>
    ensures { IfOk result (λ path. path ≡ path_of_parts (front.now ∷ map piece_of rest.now)) }
{
    if front.is_empty() && all_words(rest) {
        Ok(Some(Path::Names(names(alloc, rest)?)))
    } else {
        Ok(None)
    }
}

fn names_after(alloc: Global, parts: &[&[u8]]) -> Result<Option<Path>, AllocError>
    ensures { IfOk result (λ path. path ≡ path_of_parts (map piece_of parts.now)) }
{
    match parts {
        [] => Ok(None),
        [front, rest @ ..] => names_behind(alloc, front, rest),
    }
}

#[tactic(auto, unfolding(crate::specs::Grammar::spelled_path))]
fn path_of(alloc: Global, word: &[u8]) -> Result<Option<Path>, AllocError>
    ensures { IfOk result (λ path. path ≡ spelled_path word.now) }
{
    if is_spelled(word, "@") {
        Ok(Some(Path::Label))
    } else if is_spelled(word, "/") {
        Ok(Some(Path::Names(PathNames::new(alloc))))
    } else {
        names_after(alloc, &parts(alloc, word)?)
    }
}

#[tactic(auto, unfolding(crate::specs::Grammar::path_word))]
fn path(alloc: Global, word: &[u8]) -> Result<Path, LineFault>
    ensures { MatchesReading (λ path. path) result (path_word word.now) }
{
    match path_of(alloc, word)? {
        Some(path) => Ok(path),
        None => Err(LineFault::Wrong(ScriptKind::BadPath)),
    }
}

#[tactic(auto, unfolding(crate::specs::Grammar::new_path_word))]
fn new_path(alloc: Global, word: &[u8]) -> Result<Path, LineFault>
    ensures { MatchesReading (λ path. path) result (new_path_word word.now) }
{
    let path = path(alloc, word)?;
    if path.has_name() {
        Ok(path)
    } else {
        Err(LineFault::Wrong(ScriptKind::BadPath))
    }
}

#[tactic(auto, unfolding(crate::specs::Grammar::number_word))]
fn number(word: &[u8]) -> Result<u64, LineFault>
    ensures { MatchesReading (λ n. n) result (number_word word.now) }
{
    match number_of(word) {
        Some(number) => Ok(number),
        None => Err(LineFault::Wrong(ScriptKind::BadNumber)),
    }
}

#[tactic(auto, unfolding(crate::specs::Grammar::hex_word))]
fn hex_bytes(alloc: Global, word: &[u8]) -> Result<Content, LineFault>
    ensures { MatchesReading (λ bytes. bytes) result (hex_word word.now) }
{
    if word.is_empty() {
        return Err(LineFault::Wrong(ScriptKind::BadHex));
    }
    spelled_bytes(alloc, word)
}

// PATH, or NEWPATH where a name is made or dropped.
fn one_path(alloc: Global, verb: Verb, a: &[u8]) -> Result<Path, LineFault>
    ensures { MatchesReading (λ path. path) result (one_path_in verb a.now) }
{
    match verb {
        Verb::Make | Verb::MakeDirectory | Verb::Drop => new_path(alloc, a),
        Verb::Stat | Verb::List | Verb::Fsync => path(alloc, a),
        Verb::Put | Verb::Get | Verb::Size | Verb::Link | Verb::Rename | Verb::Move => {
            Err(LineFault::Wrong(ScriptKind::WordCount))
        }
    }
}

fn on_path(verb: Verb, path: Path) -> Result<Command, LineFault>
    ensures { MatchesReading (λ command. command) result (on_path_in verb path) }
{
    match verb {
        Verb::Make => Ok(Command::Make { path }),
        Verb::MakeDirectory => Ok(Command::MakeDirectory { path }),
        Verb::Drop => Ok(Command::Drop { path }),
        Verb::Stat => Ok(Command::Stat { path }),
        Verb::List => Ok(Command::List { path }),
        Verb::Fsync => Ok(Command::Fsync { path }),
        Verb::Put | Verb::Get | Verb::Size | Verb::Link | Verb::Rename | Verb::Move => {
            Err(LineFault::Wrong(ScriptKind::WordCount))
        }
    }
}

#[tactic(auto, unfolding(crate::specs::Grammar::one_word))]
fn one_word(alloc: Global, verb: Verb, a: &[u8]) -> Result<Command, LineFault>
    ensures { MatchesReading (λ command. command) result (one_word_in verb a.now) }
{
    let path = one_path(alloc, verb, a)?;
    on_path(verb, path)
}

#[tactic(auto, unfolding(crate::specs::Grammar::two_words))]
fn two_words(alloc: Global, verb: Verb, a: &[u8], b: &[u8]) -> Result<Command, LineFault>
    ensures { MatchesReading (λ command. command) result (two_words_in verb a.now b.now) }
{
    match verb {
        Verb::Size => Ok(Command::Size {
            path: path(alloc, a)?,
            size: number(b)?,
        }),
        Verb::Link => Ok(Command::Link {
            path: path(alloc, a)?,
            new_path: new_path(alloc, b)?,
        }),
        Verb::Rename => Ok(Command::Rename {
            path: new_path(alloc, a)?,
            name: Name::from_slice(alloc, b)?,
        }),
        Verb::Move => Ok(Command::Move {
            from: new_path(alloc, a)?,
            to: new_path(alloc, b)?,
        }),
        Verb::Make
        | Verb::MakeDirectory
        | Verb::Put
        | Verb::Get
        | Verb::Stat
        | Verb::List
        | Verb::Drop
        | Verb::Fsync => Err(LineFault::Wrong(ScriptKind::WordCount)),
    }
}

#[tactic(auto, unfolding(crate::specs::Grammar::three_words))]
fn three_words(
    alloc: Global,
    verb: Verb,
    a: &[u8],
    b: &[u8],
    c: &[u8],
) -> Result<Command, LineFault>
    ensures { MatchesReading (λ command. command) result (three_words_in verb a.now b.now c.now) }
{
    match verb {
        Verb::Put => Ok(Command::Put {
            path: path(alloc, a)?,
            offset: number(b)?,
            bytes: hex_bytes(alloc, c)?,
        }),
        Verb::Get => Ok(Command::Get {
            path: path(alloc, a)?,
            offset: number(b)?,
            length: number(c)?,
        }),
        Verb::Make
        | Verb::MakeDirectory
        | Verb::Size
        | Verb::Stat
        | Verb::List
        | Verb::Link
        | Verb::Drop
        | Verb::Rename
        | Verb::Fsync
        | Verb::Move => Err(LineFault::Wrong(ScriptKind::WordCount)),
    }
}

/// The command of a verb with the words after it.
pub(crate) fn command(alloc: Global, verb: Verb, args: &[&[u8]]) -> Result<Command, LineFault>
    ensures { MatchesReading (λ command. command) result (command_of verb (map piece_of args.now)) }
{
    match args {
        [a] => one_word(alloc, verb, a),
        [a, b] => two_words(alloc, verb, a, b),
        [a, b, c] => three_words(alloc, verb, a, b, c),
        _ => Err(LineFault::Wrong(ScriptKind::WordCount)),
    }
}
