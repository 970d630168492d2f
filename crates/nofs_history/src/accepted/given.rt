//! What an accepted step gives to slots and files, and what an entry of a history gives to one slot.
pub(crate) mod entries;
pub(crate) mod given;
pub(crate) mod metas;
pub(crate) mod slots;
pub(crate) mod steps;
