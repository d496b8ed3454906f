//! The choice of the disk that is read.

ghost use Rattle.std.specs.Prelude.{List, ℕ};
ghost use Rattle.journal_core.specs.Fronts.{IsPeeked};
ghost use Rattle.disk_pair.specs.Choices.{Chosen};

use journal_core::Header;

/// One of two disks.
#[derive(Clone, Copy, Debug, PartialEq, Eq)]
pub enum Which {
    First,
    Second,
}

/// The one of two disks that is read, by the header of each that is open. It is that of the greater generation, and the
/// first if both are equal. `None` if neither is open.
pub(crate) fn choose(first: Option<Header>, second: Option<Header>) -> Option<Which>
    ensures { (a b : List ℕ) → IsPeeked first a → IsPeeked second b → Chosen result a b }
{
    match (first, second) {
        (None, None) => None,
        (Some(_), None) => Some(Which::First),
        (None, Some(_)) => Some(Which::Second),
        (Some(a), Some(b)) => {
            if b.generation > a.generation {
                Some(Which::Second)
            } else {
                Some(Which::First)
            }
        }
    }
}
