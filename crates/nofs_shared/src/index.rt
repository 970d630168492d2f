//! An index of names that were found or made, each with what a Look of it answers.
//!
//! Promise: where each line was true of the machine's files, so is all that the index tells. Whoever has an index
//! notes each step in it: one after which a name may find something else takes all lines out. Without memory there are
//! fewer lines.
ghost use Rattle.std.specs.Prelude.{◌≡◌, ℕ, true, List, IfSome};
ghost use Rattle.nofs_dirent.specs.Names.{is_name};
ghost use Rattle.nofs_model.specs.Files.{Files};
ghost use Rattle.nofs_shared.specs.Index.Lines.{AllTrue, IsTrueLine};
ghost use Rattle.nofs_shared.specs.Index.Names.{Answered, Finds, NamesGoOn, moves_names};
ghost use Rattle.nofs_history.specs.Machine.{is_refused};

pub(crate) mod line;

use crate::index::line::Line;
use nofs_dirent::{Name, name_ok};
use nofs_history::{Found, Reply, Step};
use nofs_inode::inode::FileKind;
use std::alloc::Global;
use std::collections::HashMap;

// As many names as an index holds at most.
const MOST_NAMES: usize = 65_536;

// The code of no name, and what each part of one is multiplied by.
const FIRST_CODE: u64 = 0xcbf2_9ce4_8422_2325;

const CODE_FACTOR: u64 = 0x0100_0000_01b3;

/// Names that were found or made. Names of one code push each other out.
#[derive(Drop)]
pub struct Index {
    pub(crate) lines: HashMap<u64, Line>,
}

// Joins a part of a name with the code of those before it.
fn code_with(code: u64, part: u64) -> u64 {
    (code ^ part).wrapping_mul(CODE_FACTOR)
}

// A number for a name in a directory. Another name may have the same one.
fn code_of(directory: u32, generation: u64, name: &[u8]) -> u64 {
    let mut code = code_with(FIRST_CODE, u64::from(directory));
    code = code_with(code, generation);
    for byte in name {
        code = code_with(code, u64::from(*byte));
    }
    code
}

impl Index {
    /// An index without lines. It takes no memory.
    pub(crate) fn empty(alloc: Global) -> Index
        ensures { (F : Files) → AllTrue F result }
    {
        Index {
            lines: HashMap::new(alloc),
        }
    }

    /// What a Look of this name answers; `None` where the index does not tell.
    pub(crate) fn found(&self, directory: u32, generation: u64, name: &[u8]) -> Option<Found>
        ensures finds { IfSome result
            (λ it. (F : Files) → AllTrue F self.now → Finds F directory generation name.now it) }
        ensures good { IfSome result (λ it. is_name name.now ≡ true) }
    {
        match self.lines.get(&code_of(directory, generation, name)) {
            Some(line) => line.found(directory, generation, name),
            None => None,
        }
    }

    // Takes all lines out, and gives their memory back.
    fn forget(&mut self, alloc: Global)
        ensures { (F : Files) → AllTrue F self.new }
    {
        self.lines = HashMap::new(alloc);
    }

    // Sees to it that there are fewer lines than the most.
    fn make_place(&mut self, alloc: Global)
        ensures { (F : Files) → AllTrue F self.old → AllTrue F self.new }
    {
        if self.lines.len() < MOST_NAMES {
            return;
        }
        self.forget(alloc);
    }

    // Adds a line, where there is memory.
    fn add(&mut self, alloc: Global, line: Line)
        ensures { (F : Files) → AllTrue F self.old → IsTrueLine F line → AllTrue F self.new }
    {
        self.make_place(alloc);
        self.put(line);
    }

    fn put(&mut self, line: Line)
        ensures { (F : Files) → AllTrue F self.old → IsTrueLine F line → AllTrue F self.new }
    {
        let code = code_of(line.directory, line.generation, line.name.as_slice());
        let _done = self.lines.insert(code, line);
    }

    // Adds what a Look of the name answers. Over any disk no line has a name that no file can have.
    fn learn(&mut self, alloc: Global, directory: u32, generation: u64, name: &Name, found: Found)
        ensures { (F : Files) → AllTrue F self.old → Finds F directory generation name.now found → AllTrue F self.new }
    {
        if !name_ok(name.as_slice()) {
            return;
        }
        match name.copy(alloc) {
            Ok(name) => {
                let line = Line {
                    directory,
                    generation,
                    name,
                    found,
                };
                self.add(alloc, line)
            }
            Err(_) => {}
        }
    }

    // Adds the file of a name, where there is one.
    fn learn_some(
        &mut self,
        alloc: Global,
        directory: u32,
        generation: u64,
        name: &Name,
        found: Option<Found>,
    )
        ensures { (F : Files) → AllTrue F self.old
            → IfSome found (λ it. Finds F directory generation name.now it) → AllTrue F self.new }
    {
        match found {
            Some(it) => self.learn(alloc, directory, generation, name, it),
            None => {}
        }
    }

    // Adds the name of a step, where its reply tells which file it finds.
    fn learn_from(&mut self, alloc: Global, step: &Step, reply: &Reply)
        ensures { (F : Files) → AllTrue F self.old → Answered step.now reply.now F → AllTrue F self.new }
    {
        match step {
            Step::Look {
                directory,
                generation,
                name,
            } => self.learn_some(alloc, *directory, *generation, name, found_in(reply)),
            Step::Make {
                directory,
                generation,
                name,
                kind,
            } => self.learn_some(alloc, *directory, *generation, name, made_in(reply, *kind)),
            Step::Link {
                directory,
                generation,
                name,
                ..
            } => self.learn_some(alloc, *directory, *generation, name, linked_in(step, reply)),
            _ => {}
        }
    }

    /// Notes a step that was made, with its reply.
    pub(crate) fn note(&mut self, alloc: Global, step: &Step, reply: &Reply)
        ensures { (F G : Files) → AllTrue F self.old → NamesGoOn F G step.now reply.now → AllTrue G self.new }
    {
        if moves_names(step, reply) {
            self.forget(alloc);
            return;
        }
        self.learn_from(alloc, step, reply);
    }
}

// The file that a Look found.
fn found_in(reply: &Reply) -> Option<Found>
    ensures { (F : Files) (d g : ℕ) (name : List ℕ) → Answered (Step.Look d g name) reply.now F
        → IfSome result (λ it. Finds F d g name it) }
{
    match reply {
        Reply::Found(it) => Some(*it),
        _ => None,
    }
}

// The file that a Make of this kind made.
fn made_in(reply: &Reply, kind: FileKind) -> Option<Found>
    ensures { (F : Files) (d g : ℕ) (name : List ℕ) → Answered (Step.Make d g name kind) reply.now F
        → IfSome result (λ it. Finds F d g name it) }
{
    match reply {
        Reply::Made { inode, generation } => Some(Found {
            inode: *inode,
            generation: *generation,
            kind,
        }),
        _ => None,
    }
}

// The file that a Link gave a name. It is no directory.
fn linked_in(step: &Step, reply: &Reply) -> Option<Found>
    ensures { (F : Files) (d g i of : ℕ) (name : List ℕ) → step.now ≡ Step.Link d g name i of
        → Answered step.now reply.now F → IfSome result (λ it. Finds F d g name it) }
{
    match (step, reply) {
        (Step::Link { inode, of, .. }, Reply::Linked) => Some(Found {
            inode: *inode,
            generation: *of,
            kind: FileKind::File,
        }),
        _ => None,
    }
}

fn is_refused(reply: &Reply) -> bool
    ensures { result ≡ is_refused reply.now }
{
    matches!(reply, Reply::Refused(_))
}

// Whether after a step with this reply a name may no longer find what it found.
fn moves_names(step: &Step, reply: &Reply) -> bool
    ensures { result ≡ moves_names step.now reply.now }
{
    match step {
        Step::Drop { .. } => !is_refused(reply),
        Step::Rename { .. } => !is_refused(reply),
        // A name that is made found nothing before, and leaves all others.
        Step::Make { .. }
        | Step::Link { .. }
        | Step::Look { .. }
        | Step::List { .. }
        | Step::Get { .. }
        | Step::Put { .. }
        | Step::Resize { .. }
        | Step::Stat { .. }
        | Step::Flush { .. }
        | Step::SeeInode { .. }
        | Step::SeeBlock { .. } => false,
    }
}
