//! The files of the machine, whole in memory: what is looked up in them, and how one of them changes.
pub(crate) mod cells;
pub(crate) mod changes;
pub(crate) mod file;
pub(crate) mod growing;
pub(crate) mod links;
pub(crate) mod names;
pub(crate) mod places;
pub(crate) mod resizing;
