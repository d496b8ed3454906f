//! The latest entries at a version, one identifier after another.
ghost use Rattle.std.specs.Prelude.{◌≡◌, ◌+◌, List, MatchOption, None, Some, ℕ};
ghost use Rattle.record_versions.specs.Readings.{IsAhead, IsFirstAt};
ghost use Rattle.record_versions.specs.Rows.{Row};

use crate::chain::Chain;
use crate::steps::Steps;
use std::collections::btree_map::Range;
use std::marker::Model;
use std::sync::ledger::Ledger;

/// The identifiers that have an entry at a version, ascending, each with its latest entry that is not after the version.
/// Contracts see the version, and the chains that were not passed yet.
#[derive(Drop)]
pub struct Readings<'a, V> {
    ahead: Range<'a, u32, Chain<V>>,
    version: u32,
}

impl<'a, V> Model for Readings<'a, V> {
    ghost use Rattle.record_versions.specs.Readings.{Reads};

    ghost Value = { Reads V };

    ghost view = { λ r. record { ahead = r.ahead; version = r.version } };
}

impl<'a, V: Drop> Readings<'a, V> {
    // Of chains that are ahead.
    pub(crate) fn begin(ahead: Range<'a, u32, Chain<V>>, version: u32) -> Readings<'a, V>
        ensures { result ≡ record { ahead = ahead.entry; version = version } }
    {
        Readings { ahead, version }
    }

    /// The next identifier, with the version and the value of its entry; `None` only if no identifier that was not
    /// passed has one. It takes one step, and no memory.
    pub fn next<L: Ledger>(&mut self, steps: &mut Steps<L>) -> Option<(u32, u32, &'a V)>
        ensures next { (from : ℕ) (chains : List (ℕ × Row V)) → IsAhead from chains self.old.ahead
            → MatchOption result (IsFirstAt self.old.version from chains None)
            (λ r. IsFirstAt self.old.version from chains (Some (r.0, record { version = r.1; value = r.2.now }))
            × IsAhead (r.0 + 1) chains self.new.ahead) }
        ensures version { self.new.version ≡ self.old.version }
        ensures steps { steps.new ≡ steps.old + 1 }
    {
        steps.raise();
        next_at(&mut self.ahead, self.version)
    }
}

// The next identifier whose chain has an entry at a version. Its chain is passed, and those before it.
fn next_at<'a, V: Drop>(
    ahead: &mut Range<'a, u32, Chain<V>>,
    version: u32,
) -> Option<(u32, u32, &'a V)>
    ensures { (from : ℕ) (chains : List (ℕ × Row V)) → IsAhead from chains ahead.old
        → MatchOption result (IsFirstAt version from chains None)
        (λ r. IsFirstAt version from chains (Some (r.0, record { version = r.1; value = r.2.now }))
        × IsAhead (r.0 + 1) chains ahead.new) }
{
    while let Some((id, chain)) = ahead.next() {
        if let Some(entry) = chain.latest(version) {
            return Some((*id, entry.version, &entry.value));
        }
    }
    None
}
