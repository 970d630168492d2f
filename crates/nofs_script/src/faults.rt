//! What can be wrong with a text.

ghost use Rattle.std.specs.Prelude.{◌≡◌};
ghost use Rattle.nofs_script.specs.declared.faults.TextFault.TheVariants.{OutOfMemory};

use std::alloc::AllocError;

/// What is wrong in a bad line (docs/FORMAT.md, "Session text").
#[derive(Clone, Copy, Debug, PartialEq, Eq)]
pub enum ScriptKind {
    /// The first word is no command and not `user`.
    UnknownCommand,
    /// The command has another number of words.
    WordCount,
    /// A word is no path, or a path without a name where one is needed.
    BadPath,
    /// A word is no number.
    BadNumber,
    /// A word is not an even number of at least two hexadecimal digits.
    BadHex,
    /// The line would begin a ninth script.
    TooManyUsers,
    /// The lengths of all gets up to here add up to more than 67,108,864 bytes.
    TooMuchAsked,
    /// This is the command 65,537.
    TooManyCommands,
}

/// The first bad line of a text, counted from 1.
#[derive(Clone, Copy, Debug, PartialEq, Eq)]
pub struct ScriptFault {
    pub line: u64,
    pub kind: ScriptKind,
}

/// Why a text, or a line of it, gave nothing.
#[derive(Clone, Copy, Debug, PartialEq, Eq)]
pub enum TextFault<W> {
    /// What is wrong in it.
    Wrong(W),
    /// Memory was wanting.
    OutOfMemory,
}

impl<W> From<AllocError> for TextFault<W> {
    ghost from_gives = { λ _ e. e ≡ OutOfMemory };

    fn from(_: AllocError) -> Self {
        TextFault::OutOfMemory
    }
}

/// What stopped the reading of one line.
pub type LineFault = TextFault<ScriptKind>;

/// Why a text gave no session: by its first bad line, it is none, or memory was wanting.
pub type ParseFault = TextFault<ScriptFault>;
