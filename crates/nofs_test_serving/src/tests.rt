//! The tests, with what they share.

mod crashes;
mod gates;
mod instances;
mod looks;
mod runs;
mod users;
mod workers;
