//! Cites every public item that programs and other crates build on, under its crate and with its signature: each
//! function is called with what it asks, each field and each variant is named with its type. What no longer reads so
//! does not compile, and what asks for more is not proved.
//!
//! In layers, the lowest first: `base`, `texts`, `disks`, `pages`, `formats`, `meaning`, `history`, `cores`, `steps`,
//! `clients`, `callers`, `mounts`. `typed` names the type of a field, `traits` calls each method of a trait through its
//! bound, and `laws` calls the laws.
//!
//! Where a signature says more than its plain form, docs/DECISIONS.md says why:
//! - what takes memory takes an allocator, `alloc`; what waits takes `rt`
//! - `Turn` and `Pass` name the value behind the turn: `Turn<V: Kept>`, `Pass<V>`, `SharedMount<V: Serves>`
//! - `SweepOrder` keeps two function pointers, and sweepers go along any `Course`: no type parameters `F`, `G`
//! - `put`, `make` and `link` answer `Ended`: the claims stand beside the refusal
//! - claims of blocks and inodes, `free_block` and `counts` stand at `Books`, the part of a `Core` that is in memory
//! - `check_chain` takes `Known`: what is known of each inode, both ways
//! - `Record` has a `top`, `SlotPath` a `Child`, and `SlotCells` a `top`: those of version 2
//! - `tool` and `Outcome` stand in `nofs_tool`, since no crate can cite a program
#![tactic(auto)]

mod base;
mod callers;
mod clients;
mod cores;
mod disks;
mod formats;
mod history;
mod laws;
mod meaning;
mod mounts;
mod pages;
mod steps;
mod texts;
mod traits;
mod typed;
