//! The steps of a scan: one element is examined, several are looked at, and a verdict that was found is committed.

pub(crate) mod commits;
pub(crate) mod entries;
pub(crate) mod looks;
pub(crate) mod sees;
