//! The tests, by what they test, with what they share.

mod accepted;
mod agree;
mod examples;
mod given_cells;
mod history;
mod images;
mod upgrade;
