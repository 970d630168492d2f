//! The laws of a file in pages.
ghost use Rattle.nofs_pages.specs.Crashes.{PagesKeepCells, TwinsKeepCells, TwinsStayTold};

/// Of a file that keeps pages whole through a crash, each cell is what was durable, or what it was at a moment since.
pub fn law_pages()
    ensures { PagesKeepCells }
{}

/// Of a file with two places for each page, whatever a crash leaves in the place of a page that was being written, each
/// cell is what was durable, or what it was at a moment since; and a page that was told is told.
pub fn law_twin_pages()
    ensures cells { TwinsKeepCells }
    ensures told { TwinsStayTold }
{}
