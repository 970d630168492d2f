//! The commands of a session, each with the path or the two paths that it names.

ghost use Rattle.std.specs.Prelude.{◌≡◌, ◌↔◌, IsTrue};
ghost use Rattle.nofs_client.specs.Task.Commands.{HasName, IsWellFormed, has_last_name};

use nofs_dirent::{Content, ListOf, Name, PathNames};

/// A path of a session (docs/FORMAT.md, "Session text").
#[derive(Drop)]
pub enum Path {
    /// `@`, the label file.
    Label,
    /// The names from the root on; without a name it is the root, `/`.
    Names(PathNames),
}

impl Path {
    /// Whether the path can name an entry of a directory.
    pub fn has_name(&self) -> bool
        ensures name { IsTrue result ↔ HasName self.now }
        ensures value { result ≡ has_last_name self.now }
    {
        match self {
            Path::Label => false,
            Path::Names(names) => names.len() > 0,
        }
    }
}

/// One command of a session. A path that is to name an entry of a directory has at least one name.
#[derive(Drop)]
pub enum Command {
    /// Makes an empty file.
    Make {
        path: Path,
    },
    /// Makes an empty directory.
    MakeDirectory {
        path: Path,
    },
    /// Writes at least one byte from `offset` on, counted in bytes.
    Put {
        path: Path,
        offset: u64,
        bytes: Content,
    },
    /// Reads at most `length` bytes from `offset` on, both counted in bytes.
    Get {
        path: Path,
        offset: u64,
        length: u64,
    },
    /// Makes the file `size` bytes long.
    Size {
        path: Path,
        size: u64,
    },
    /// Asks for kind, size and number of names.
    Stat {
        path: Path,
    },
    /// Lists a directory.
    List {
        path: Path,
    },
    /// Gives the file at `path` a further name.
    Link {
        path: Path,
        new_path: Path,
    },
    /// Takes a name away.
    Drop {
        path: Path,
    },
    /// Replaces the last name of the path.
    Rename {
        path: Path,
        name: Name,
    },
    /// Makes what was accepted durable.
    Fsync {
        path: Path,
    },
    /// Moves a file to another name, durably at each step.
    Move {
        from: Path,
        to: Path,
    },
}

impl Command {
    /// Whether each path that is to name an entry has a name, and a put has a byte.
    pub fn is_well_formed(&self) -> bool
        ensures { IsTrue result ↔ IsWellFormed self.now }
    {
        match self {
            Command::Make { path } => path.has_name(),
            Command::MakeDirectory { path } => path.has_name(),
            Command::Put { bytes, .. } => bytes.len() > 0,
            Command::Link { new_path, .. } => new_path.has_name(),
            Command::Drop { path } => path.has_name(),
            Command::Rename { path, .. } => path.has_name(),
            Command::Move { from, to } => from.has_name() && to.has_name(),
            Command::Get { .. }
            | Command::Size { .. }
            | Command::Stat { .. }
            | Command::List { .. }
            | Command::Fsync { .. } => true,
        }
    }
}

/// The commands of one user, in order.
pub type CommandList = ListOf<Command>;
