//! The law that the pages of a search are its hits.
ghost use Rattle.par_search.specs.Hits.{PagesAreHits};

use store_machine::{calls_give_pages, needs_screen};

/// The pages of a search that ended, matched, are the hits of its pattern at its version. The records that were tried
/// are those whose print holds the bits that the pattern needs.
pub fn pages_are_hits()
    ensures { PagesAreHits }
{
    calls_give_pages();
    needs_screen();
}
