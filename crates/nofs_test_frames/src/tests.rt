//! The tests, by what they test, with what they share.

mod cases;
mod in_turn;
mod pieces;
mod served;
mod streams;
