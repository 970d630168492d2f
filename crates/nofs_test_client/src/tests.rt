//! The tests, by what they test, with what they share.

mod commands;
mod draws;
mod salvage;
mod standin;
mod texts;
mod told;
