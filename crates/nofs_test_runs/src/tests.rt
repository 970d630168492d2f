//! The tests, by what they test, with what they share.

mod files;
mod images;
mod instance;
mod lives;
mod mirrors;
