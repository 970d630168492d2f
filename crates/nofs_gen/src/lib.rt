//! What a drill does: the drawn scripts of its four users, the values that the steps on a file give, and its line.
//!
//! Promise: a script is that of the definition for its start, and a replay has the values that the accepted puts and
//! resizes of a file give one after the other, and nothing of a step that was refused.
//!
//! - `script`: the scripts that are drawn
//! - `file`, `replays`: a file's values after a step, and after all entries of a history
//! - `tally`: the line, by what was read of the files
#![tactic(auto)]

mod file;
mod replays;
mod script;
mod tally;

pub use replays::{ValueList, replay};
pub use script::{MOST_STEPS, USERS, script_of};
pub use tally::{DrillNumbers, FileRead, drill_text, numbers_of};
