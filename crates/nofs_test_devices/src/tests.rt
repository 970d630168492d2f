//! The tests, by what they test, with what they share.

mod cache;
mod disks;
mod filedisk;
mod memdisk;
mod mirror;
mod pages;
mod tags;
mod twins;
