//! A drill: users with drawn scripts, whose files are then read and compared.
pub(crate) mod reads;
pub(crate) mod runs;
