//! Link: a file gets one more name.

pub(crate) mod new_name;
pub(crate) mod places;
pub(crate) mod steps;
