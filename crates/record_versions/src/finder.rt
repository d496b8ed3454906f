//! Finds the chains of ascending identifiers: each is looked for near the last one, before the map is searched.
ghost use Rattle.std.specs.Prelude.{◌≡◌, ◌+◌, ◌<◌, ◌≤◌, [], IfSome, List, MatchOption, None, Some, ℕ};
ghost use Rattle.std.specs.List.{AllPairs};
ghost use Rattle.record_versions.specs.Entries.{IsLatest, chain_of};
ghost use Rattle.record_versions.specs.Rows.{Row};
ghost use Rattle.record_versions.specs.Ahead.{AreOwn, IsOwn, Rise};

use crate::chain::Chain;
use crate::steps::Steps;
use std::collections::BTreeMap;
use std::collections::btree_map::Range;
use std::marker::Model;
use std::sync::ledger::Ledger;

// The most chains that are passed before the map is searched.
const NEAR: usize = 8;

/// Finds chains, fastest if each identifier is a little above the one before. Contracts see the chains.
#[derive(Drop)]
pub struct Finder<'a, V> {
    chains: &'a BTreeMap<u32, Chain<V>>,
    ahead: Range<'a, u32, Chain<V>>,
    // the number of chains that the next look passes: one if the last look did not reach its chain so
    reach: usize,
}

impl<'a, V> Model for Finder<'a, V> {
    ghost use Rattle.std.specs.Prelude.{List, ℕ};
    ghost use Rattle.record_versions.specs.Rows.{Row};
    ghost use Rattle.record_versions.specs.Ahead.{AreOwn};

    ghost Value = { List (ℕ × Row V) };

    ghost view = { λ w. w.chains.now.entries };

    ghost invariant = { λ w. AreOwn w.chains.now.entries w.ahead };
}

impl<'a, V: Drop> Finder<'a, V> {
    // Begins at an identifier.
    pub(crate) fn begin(chains: &'a BTreeMap<u32, Chain<V>>, id: u32) -> Finder<'a, V>
        ensures { result ≡ chains.now.entries }
    {
        Finder {
            chains,
            ahead: chains.range(id..),
            reach: NEAR,
        }
    }

    /// As `Chains::at`, whatever was asked before. It takes one step, and no memory.
    pub fn at<L: Ledger>(
        &mut self,
        id: u32,
        version: u32,
        steps: &mut Steps<L>,
    ) -> Option<(u32, &'a V)>
        ensures latest { MatchOption result (IsLatest version (chain_of self.old id) None)
            (λ r. IsLatest version (chain_of self.old id) (Some (record { version = r.0; value = r.1.now }))) }
        ensures ascending { AllPairs (λ k l. k.version < l.version) (chain_of self.old id) }
        ensures chains { self.new ≡ self.old }
        ensures steps { steps.new ≡ steps.old + 1 }
    {
        steps.raise();
        let entry = self.find(id)?.latest(version)?;
        Some((entry.version, &entry.value))
    }

    // The chain of an identifier, if it has one.
    fn find(&mut self, id: u32) -> Option<&'a Chain<V>>
        ensures chain { MatchOption result (chain_of self.old id ≡ [])
            (λ chain. chain_of self.old id ≡ chain.now.entries) }
        ensures chains { self.new ≡ self.old }
    {
        if let Some(chain) = near(&mut self.ahead, id, self.reach) {
            self.reach = NEAR;
            return Some(chain);
        }
        self.reach = 1;
        self.ahead = self.chains.range(id..);
        first(&mut self.ahead, id)
    }
}

// The chain of an identifier, if it is among the next `reach`.
fn near<'a, V>(ahead: &mut Range<'a, u32, Chain<V>>, id: u32, reach: usize) -> Option<&'a Chain<V>>
    ensures own { (all : List (ℕ × Row V)) → AreOwn all ahead.old
        → AreOwn all ahead.new × IfSome result (λ chain. IsOwn all (id, chain.now)) }
{
    for _turn in 0..reach {
        let (next, chain) = ahead.next()?;
        if *next >= id {
            return if *next == id { Some(chain) } else { None };
        }
    }
    None
}

// The chain of an identifier, if it is the next.
fn first<'a, V>(ahead: &mut Range<'a, u32, Chain<V>>, id: u32) -> Option<&'a Chain<V>>
    requires { Rise id ahead.old }
    ensures own { (all : List (ℕ × Row V)) → AreOwn all ahead.old → AreOwn all ahead.new }
    ensures chain { MatchOption result (chain_of ahead.old id ≡ [])
        (λ chain. chain_of ahead.old id ≡ chain.now.entries) }
{
    let (next, chain) = ahead.next()?;
    if *next == id { Some(chain) } else { None }
}
