//! What is read of an element at one look, and the verdict that follows from it alone.
pub(crate) mod evidence;
pub(crate) mod last_reads;
pub(crate) mod reads;
pub(crate) mod sights;
pub(crate) mod verdicts;
