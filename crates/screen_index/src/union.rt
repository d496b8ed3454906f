//! The union of prints.
ghost use Rattle.screen_index.specs.Pairs.{AreCovered};

use crate::entry::Screened;
use chem_core::Print;

/// A print that holds the print of each of these.
pub fn union_of<V>(entries: &[Screened<V>]) -> Print
    ensures { AreCovered result entries.now }
{
    let mut union = Print::empty();
    for entry in entries {
        union.unite(&entry.print);
    }
    union
}
