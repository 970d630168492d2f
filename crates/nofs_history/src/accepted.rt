//! The values that a history accepted for a slot.
//!
//! - `base`: the files of a base image, read whole into memory.
//! - `files`: these files, what is looked up in them, and how one of them changes.
//! - `given`: what an accepted step gives to slots and files, and what an entry gives to one slot.
//! - `applying`: what a step, and an entry with it, does to the files.
//! - `list`: the list of values, entry by entry.
pub(crate) mod applying;
pub(crate) mod base;
pub(crate) mod files;
pub(crate) mod given;
pub(crate) mod list;
