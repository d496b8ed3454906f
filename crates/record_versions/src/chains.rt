//! The entries of all identifiers, and those of them that no version in use reads.
ghost use Rattle.std.specs.Prelude.{◌≡◌, ◌==◌, ◌≢◌, ◌+◌, ◌++◌, ◌<◌, ◌≤◌, ℕ, [], ◌∷◌, All, Contains, MatchOption, None, OnOk, Some, filter, if◌then◌else◌, length};
ghost use Rattle.std.specs.List.{AllPairs};
ghost use Rattle.record_versions.specs.Entries.{IsLatest, IsLeastDead, IsLeastId, IsReserved, chain_of, entries, is_other};
ghost use Rattle.record_versions.specs.Readings.{IsAhead};

use crate::chain::Chain;
use crate::finder::Finder;
use crate::readings::Readings;
use crate::steps::Steps;
use std::alloc::{AllocError, Global};
use std::collections::BTreeMap;
use std::marker::Model;
use std::sync::ledger::Ledger;

/// A list of entries, each an identifier, a version and a value; no identifier has a version twice. Contracts see the
/// entries by their identifiers, each identifier's in the order of their versions.
#[derive(Drop)]
pub struct Chains<V> {
    alloc: Global,
    chains: BTreeMap<u32, Chain<V>>,
    kept: u32,
}

impl<V> Model for Chains<V> {
    ghost use Rattle.std.specs.Prelude.{◌≡◌, List, length, ℕ};
    ghost use Rattle.record_versions.specs.Rows.{Row};
    ghost use Rattle.record_versions.specs.Entries.{entries};

    ghost Value = { List (ℕ × Row V) };

    ghost view = { λ c. c.chains.entries };

    ghost invariant = { λ c. length (entries c.chains.entries) ≡ c.kept };
}

impl<V: Drop> Chains<V> {
    /// Chains without entries. It takes no memory.
    pub fn new(alloc: Global) -> Chains<V>
        ensures { result ≡ [] }
    {
        Chains {
            alloc,
            chains: BTreeMap::new(alloc),
            kept: 0,
        }
    }

    /// Takes the memory of one more entry of an identifier. Memory that was reserved for others stays reserved.
    pub fn reserve(&mut self, id: u32) -> Result<(), AllocError>
        ensures ok { OnOk result (IsReserved id self.new) }
        ensures entries { entries self.new ≡ entries self.old }
        ensures chains { (q : ℕ) → chain_of self.new q ≡ chain_of self.old q }
        ensures others { (q : ℕ) → IsReserved q self.old → IsReserved q self.new }
    {
        if let Some(chain) = self.chains.get_mut(&id) {
            return chain.reserve();
        }
        let mut chain = Chain::new(self.alloc);
        chain.reserve()?;
        match self.chains.insert(id, chain) {
            Ok(_) => Ok(()),
            Err(_) => Err(AllocError),
        }
    }

    /// Adds an entry, whose version exceeds the identifier's others. It takes no memory.
    pub fn add(&mut self, id: u32, version: u32, value: V)
        requires reserved { IsReserved id self.old }
        requires later { All (λ k. k.version < version) (chain_of self.old id) }
        requires few { length (entries self.old) < u32.MAX }
        ensures chains { (q : ℕ) → chain_of self.new q ≡ (if q == id
            then chain_of self.old id ++ record { version = version; value = value } ∷ []
            else chain_of self.old q) }
        ensures one_more { length (entries self.new) ≡ length (entries self.old) + 1 }
        ensures others { (q : ℕ) → q ≢ id → IsReserved q self.old → IsReserved q self.new }
    {
        if let Some(chain) = self.chains.get_mut(&id) {
            chain.add(version, value);
            self.kept += 1;
        }
    }

    /// The version and the value of an identifier's latest entry that is not after `version`; `None` only if no entry
    /// of the identifier is at or before `version`. It takes one step, and no memory.
    pub fn at<L: Ledger>(&self, id: u32, version: u32, steps: &mut Steps<L>) -> Option<(u32, &V)>
        ensures latest { MatchOption result (IsLatest version (chain_of self.now id) None)
            (λ r. IsLatest version (chain_of self.now id) (Some (record { version = r.0; value = r.1.now }))) }
        ensures ascending { AllPairs (λ k l. k.version < l.version) (chain_of self.now id) }
        ensures steps { steps.new ≡ steps.old + 1 }
    {
        steps.raise();
        let entry = self.chains.get(&id)?.latest(version)?;
        Some((entry.version, &entry.value))
    }

    /// A finder for one identifier after another, from `id` on.
    pub fn finder(&self, id: u32) -> Finder<'_, V>
        ensures { result ≡ self.now }
    {
        Finder::begin(&self.chains, id)
    }

    /// The identifiers from `from` on that have an entry at a version, each with its latest one. It takes no memory.
    pub fn readings(&self, from: u32, version: u32) -> Readings<'_, V>
        ensures ahead { IsAhead from self.now result.ahead }
        ensures version { result.version ≡ version }
    {
        Readings::begin(self.chains.range(from..), version)
    }

    /// The identifier and the version of the least entry that is not the latest of its identifier at any version of
    /// `live`; `None` only if there is no such entry. It takes no memory.
    pub fn dead(&self, live: &[u32]) -> Option<(u32, u32)>
        ensures { IsLeastDead live.now (0, 0) self.now result }
    {
        self.dead_from((0, 0), live)
    }

    /// As `dead`, but from a place on: an identifier and a version. Removing a dead entry leaves each other one as dead
    /// or alive as it was, so a prune goes on from the last one removed.
    pub fn dead_from(&self, from: (u32, u32), live: &[u32]) -> Option<(u32, u32)>
        ensures { IsLeastDead live.now from self.now result }
    {
        for (id, chain) in self.chains.range(from.0..) {
            if let Some(version) = chain.unread_from(first_version(*id, from), live) {
                return Some((*id, version));
            }
        }
        None
    }

    /// The least identifier from `from` on that has an entry; `None` only if no identifier has one. It takes no memory.
    pub fn next_id(&self, from: u32) -> Option<u32>
        ensures { IsLeastId from self.now result }
    {
        // at no version every entry is dead
        let (id, _) = self.dead_from((from, 0), &[])?;
        Some(id)
    }

    /// Removes an entry and returns its value; `None` only if the entry is not there. It takes no memory.
    pub fn take(&mut self, id: u32, version: u32) -> Option<V>
        ensures value { MatchOption result (All (λ k. k.version ≢ version) (chain_of self.old id))
            (λ v. Contains (chain_of self.old id) (record { version = version; value = v })) }
        ensures chains { (q : ℕ) → chain_of self.new q
            ≡ (if q == id then filter (is_other version) (chain_of self.old id) else chain_of self.old q) }
        ensures fewer { MatchOption result (length (entries self.new) ≡ length (entries self.old))
            (λ _. length (entries self.new) + 1 ≡ length (entries self.old)) }
        ensures reserved { (q : ℕ) → IsReserved q self.old → IsReserved q self.new }
    {
        let value = self.chains.get_mut(&id)?.take(version)?;
        self.kept -= 1;
        Some(value)
    }

    /// The number of entries. It takes no memory.
    pub fn kept(&self) -> u32
        ensures { result ≡ length (entries self.now) }
    {
        self.kept
    }
}

// The version from which a chain is searched.
fn first_version(id: u32, from: (u32, u32)) -> u32
    ensures { result ≡ (if id == from.0 then from.1 else 0) }
{
    if id == from.0 { from.1 } else { 0 }
}
