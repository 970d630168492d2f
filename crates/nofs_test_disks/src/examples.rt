//! Example images, each of which shows one thing that a definition says. `docs/DEFINITIONS.md`
//! tells them in prose, and the tests say what each one means.
pub(crate) mod images;
pub(crate) mod laying;
pub(crate) mod names;
