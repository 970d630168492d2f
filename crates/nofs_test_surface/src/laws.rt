//! The laws, which are called and change nothing.

use nofs_crashlaw::{law_lives, law_moment, law_names};
use nofs_move::law_move;
use nofs_pages::{law_pages, law_twin_pages};
use nofs_racelaw::{law_stale, law_unchanged};

/// Each law is called under its crate.
pub fn laws_themselves() {
    law_pages();
    law_twin_pages();
    law_moment();
    law_names();
    law_lives();
    law_unchanged();
    law_stale();
    law_move();
}
