//! A mount: a mounted disk with its history, and the value behind a turn at which callers make steps.
pub(crate) mod batches;
pub(crate) mod begin;
pub(crate) mod mount;
pub(crate) mod numbers;
pub(crate) mod serves;
pub(crate) mod steps;
