//! A session of users at a mount, and a scan: what each leaves in the history.
pub(crate) mod counts;
pub(crate) mod serve;
