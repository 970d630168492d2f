//! A file in pages of 4,096 bytes, each with a magic, its number and a sum, seen as the bytes of the cells in them.
//!
//! Promise: over a file that keeps pages of 4,096 bytes whole it is a file that keeps cells of 1,056 bytes whole; where
//! each page has two places, over one that keeps what it isn't writing. What a page that is torn, rotten or in
//! another's place has is never shown: a read of it fails, but where the file is going to be written anew. Between two
//! syncs no page is written twice.
//!
//! - `sum`: XXH64
//! - `page`: the bytes of a page, and of several
//! - `row`: the cells of neighbouring pages
//! - `store`: pages that are read and put by their numbers
//! - `single`: a file with one place for each page
//! - `place`, `versions`, `twin`: a file with two places for each page
//! - `put_pages`, `compose`, `paged`: pages, seen as their cells
//! - `laws`: what a crash leaves of cells
//! - `layout`: a file in one layout or another
#![tactic(auto)]

mod compose;
mod laws;
mod layout;
mod page;
mod paged;
mod place;
mod put_pages;
mod row;
mod single;
mod store;
mod sum;
mod twin;
mod versions;

pub use laws::{law_pages, law_twin_pages};
pub use layout::{ImageFile, Layout, layout_of, single_pages, twin_pages};
pub use page::{AREA_AT, MAGIC, PAGE_BYTES, is_made};
pub use paged::Paged;
pub use place::{Current, PAIR_BYTES, TWIN_MAGIC, judge};
pub use single::Single;
pub use store::PageStore;
pub use sum::sum_of;
pub use twin::Twin;
