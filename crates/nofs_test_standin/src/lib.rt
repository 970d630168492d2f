//! A stand-in for a mount: it replies what it is told to, and notes what it is asked.
//!
//! - `mount`: the stand-in itself; `fitting`: which replies fit a step; `made`: the steps that it made
//! - `transcript`: replies from the lines of a case; `replies`, `spelling`: replies and steps as words
//! - `fake`: replies to workers, and what they asked for
//!
//! Promise: like each maker of steps it gives replies that fit, and knows the steps that it made.
#![tactic(auto)]

mod fake;
mod fitting;
mod made;
mod mount;
mod replies;
mod spelling;
mod transcript;

pub use fake::{Fake, Odds};
pub use mount::{Answers, Told};
pub use replies::{number, parted, refusal_of, reply_of, short};
pub use spelling::step_text;
pub use transcript::Transcript;
