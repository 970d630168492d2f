//! A mounted disk: its device with its books.

pub(crate) mod checks;
pub(crate) mod mounted_disk;
pub(crate) mod verdicts;
