//! The text of a session and of its lines.
//!
//! Promise: a text is read as a session exactly where it is one, and otherwise the first bad line is named with what
//! is wrong in it. Each line of a reply has one text. `docs/FORMAT.md` states the grammar under "Session text" and
//! "Lines".
//!
//! The parts, from the lowest up:
//!
//! - `faults`: what can be wrong with a text.
//! - `digits`: hexadecimal digits, read and written.
//! - `words`: the words of a line, and the numbers among them.
//! - `commands`: commands by their words.
//! - `session`: what is read of the lines of a text.
//! - `pieces`: the session of a text that comes in pieces.
//! - `parts`: the parts of a line's text.
//! - `text`: the text of a line.
//! - `tell`, `told`: what a run has to tell, and how a sink is told it without memory.
#![tactic(auto)]

mod commands;
mod digits;
mod faults;
mod parts;
mod pieces;
mod session;
mod tell;
mod text;
mod told;
mod words;

pub use faults::{ParseFault, ScriptFault, ScriptKind, TextFault};
pub use pieces::{SessionReader, parse};
pub use session::Session;
pub use text::{add_line, line_text, push_number};
pub use told::Told;
pub use words::number_of;
