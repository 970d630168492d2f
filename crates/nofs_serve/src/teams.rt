//! Workers on threads: who works, what each is lent, and how their passes are gathered again.
pub(crate) mod beside;
pub(crate) mod gather;
pub(crate) mod lend;
pub(crate) mod team;
pub(crate) mod works;
