//! What a walk reports: lost slots and names, and what it keeps in hand on its way.
pub(crate) mod answers;
pub(crate) mod fault;
pub(crate) mod filter;
pub(crate) mod findings;
pub(crate) mod report;
pub(crate) mod seen;
pub(crate) mod tree;
