//! Each step by its kind: the call of the core that makes it, and the room in the history that it needs.
pub(crate) mod acted;
pub(crate) mod acts;
pub(crate) mod copies;
pub(crate) mod room;
