//! The entries of one identifier, oldest first.
ghost use Rattle.std.specs.Prelude.{◌≡◌, ◌≢◌, ◌+◌, ◌++◌, ◌<◌, ◌≤◌, [], ◌∷◌, All, Contains, MatchOption, None, OnOk, Some, filter, length, option_copied, slice_index_or, ℕ};
ghost use Rattle.std.specs.List.{AllPairs, AllWithin};
ghost use Rattle.record_versions.specs.declared.entries.Entry.{Entry};
ghost use Rattle.record_versions.specs.Entries.{IsLatest, IsLeastUnread, IsReadBefore, is_other};

use crate::entries::{Entries, Entry};
use std::alloc::{AllocError, Global};
use std::marker::Model;

/// Contracts see the entries, and the number that there is room for.
#[derive(Drop)]
pub struct Chain<V> {
    entries: Entries<V>,
}

impl<V> Model for Chain<V> {
    ghost use Rattle.std.specs.Prelude.{◌<◌};
    ghost use Rattle.std.specs.List.{AllPairs};
    ghost use Rattle.record_versions.specs.Rows.{Row};

    ghost Value = { Row V };

    ghost view = { λ c. c.entries };

    ghost invariant = { λ c. AllPairs (λ k l. k.version < l.version) c.entries.entries };
}

impl<V: Drop> Chain<V> {
    /// A chain without entries.
    pub fn new(alloc: Global) -> Chain<V>
        ensures { result.entries ≡ [] }
    {
        Chain {
            entries: Entries::new(alloc),
        }
    }

    /// Takes room for one more entry.
    pub fn reserve(&mut self) -> Result<(), AllocError>
        ensures entries { self.new.entries ≡ self.old.entries }
        ensures grows { self.old.room ≤ self.new.room }
        ensures room { OnOk result (length self.new.entries < self.new.room) }
    {
        self.entries.reserve_one()
    }

    /// Adds an entry, later than the others.
    pub fn add(&mut self, version: u32, value: V)
        requires room { length self.old.entries < self.old.room }
        requires later { All (λ k. k.version < version) self.old.entries }
        ensures { self.new.entries ≡ self.old.entries ++ record { version = version; value = value } ∷ [] }
    {
        self.entries.push_reserved(Entry { version, value });
    }

    /// The latest entry that is not after a version; `None` if all are after it.
    pub fn latest(&self, version: u32) -> Option<&Entry<V>>
        ensures latest { IsLatest version self.now.entries (option_copied result) }
        ensures ascending { AllPairs (λ k l. k.version < l.version) self.now.entries }
    {
        self.entries.latest(version)
    }

    /// Removes the entry of a version, if there is one, and returns its value.
    pub fn take(&mut self, version: u32) -> Option<V>
        ensures entries { self.new.entries ≡ filter (is_other version) self.old.entries }
        ensures room { self.new.room ≡ self.old.room }
        ensures value { MatchOption result (All (λ k. k.version ≢ version) self.old.entries)
            (λ v. Contains self.old.entries (record { version = version; value = v })) }
        ensures fewer { MatchOption result (self.new.entries ≡ self.old.entries)
            (λ _. length self.new.entries + 1 ≡ length self.old.entries) }
    {
        let place = self.entries.up_to(version).checked_sub(1)?;
        if self.entries[place].version != version {
            return None;
        }
        let Entry { version: _, value } = self.entries.remove(place)?;
        Some(value)
    }

    /// The least version from `from` on whose entry is the latest at none of the versions `live`.
    pub fn unread_from(&self, from: u32, live: &[u32]) -> Option<u32>
        ensures { IsLeastUnread live.now from self.now.entries result }
    {
        for place in before(&self.entries, from)..self.entries.len() {
            let version = self.entries[place].version;
            if !is_read(version, version_at(&self.entries, place + 1), live) {
                return Some(version);
            }
        }
        None
    }
}

// The number of entries before a version.
fn before<V: Drop>(entries: &Entries<V>, version: u32) -> usize
    requires { AllPairs (λ k l. k.version < l.version) entries.now.entries }
    ensures within { result ≤ length entries.now.entries }
    ensures before { AllWithin (λ k. k.version < version) entries.now.entries 0 result }
    ensures behind { AllWithin (λ k. version ≤ k.version) entries.now.entries result
        (length entries.now.entries) }
{
    match version.checked_sub(1) {
        Some(last) => entries.up_to(last),
        None => 0,
    }
}

// The version of the entry at a place, if there is one.
fn version_at<V: Drop>(entries: &Entries<V>, place: usize) -> Option<u32>
    ensures { MatchOption result (length entries.now.entries ≤ place)
        (λ v. (place < length entries.now.entries)
        × ((d : Entry V) → v ≡ (slice_index_or entries.now.entries place d).version)) }
{
    Some(entries.get(place)?.version)
}

// True if one of the versions `live` is at or after `from`, and before that of the next entry if one follows.
fn is_read(from: u32, next: Option<u32>, live: &[u32]) -> bool
    ensures { IsReadBefore from next live.now result }
{
    live.iter().any(|version| from <= *version && next.is_none_or(|next| *version < next))
}
