//! The tests, by what they test, with what they share.

mod caches;
mod crashes;
mod failing;
mod mirrors;
mod reads;
mod recorder;
mod salvages;
mod stories;
mod walks;
