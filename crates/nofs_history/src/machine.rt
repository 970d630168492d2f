//! The steps, what each is answered, who makes them, and the history of a mount.
pub(crate) mod callers;
pub(crate) mod history;
pub(crate) mod replies;
pub(crate) mod steps;
