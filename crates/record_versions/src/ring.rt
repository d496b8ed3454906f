//! Entries in order. The newest is kept apart, since it is read first. The older ones are in a ring, so that the oldest
//! leave without moving the others.
ghost use Rattle.std.specs.Prelude.{◌≡◌, ◌+◌, ◌++◌, ◌<◌, ◌≤◌, ◌↔◌, [], ◌∷◌, IfOk, IfSome, IsSome, IfNone, OnOk, OnSome, length, option_copied, slice_index_or};
ghost use Rattle.std.specs.List.{AllPairs, AllWithin, remove};
ghost use Rattle.record_versions.specs.Entries.{IsLatest};

use crate::entries::Entry;
use std::alloc::{AllocError, Global};
use std::collections::VecDeque;
use std::marker::Model;
use std::ops::Index;

/// Contracts see the entries, and the number that there is room for.
#[derive(Drop)]
pub(crate) struct Ring<V> {
    older: VecDeque<Entry<V>>,
    // `None` if there is no entry, or if the newest was removed
    newest: Option<Entry<V>>,
}

impl<V> Model for Ring<V> {
    ghost use Rattle.std.specs.Prelude.{◌+◌, ◌++◌};
    ghost use Rattle.record_versions.specs.Rows.{Row};
    ghost use Rattle.std.specs.Option.{option_to_list};
    ghost use Rattle.std.specs.VecDeque.{deque_capacity};

    ghost Value = { Row V };

    ghost view = { λ r. record {
      entries = r.older.items ++ option_to_list r.newest;
      room = deque_capacity r.older + 1;
    } };
}

impl<V> Ring<V> {
    /// A ring without entries, with room for two.
    pub(crate) fn of_two(alloc: Global) -> Result<Ring<V>, AllocError>
        ensures entries { IfOk result (λ r. r.entries ≡ []) }
        ensures room { IfOk result (λ r. 2 ≤ r.room) }
    {
        Ok(Ring {
            older: VecDeque::with_capacity(alloc, 1)?,
            newest: None,
        })
    }

    /// The number of entries.
    pub(crate) fn len(&self) -> usize
        ensures { result ≡ length self.now.entries }
    {
        match self.newest {
            Some(_) => self.older.len() + 1,
            None => self.older.len(),
        }
    }

    /// Takes room for one more entry.
    pub(crate) fn reserve_one(&mut self) -> Result<(), AllocError>
        ensures entries { self.new.entries ≡ self.old.entries }
        ensures grows { self.old.room ≤ self.new.room }
        ensures room { OnOk result (length self.new.entries < self.new.room) }
    {
        if self.newest.is_none() {
            return Ok(());
        }
        self.older.reserve(1)
    }

    /// Adds an entry, the newest.
    pub(crate) fn push_reserved(&mut self, entry: Entry<V>)
        requires { length self.old.entries < self.old.room }
        ensures entries { self.new.entries ≡ self.old.entries ++ entry ∷ [] }
        ensures room { self.new.room ≡ self.old.room }
    {
        if let Some(older) = self.newest.replace(entry) {
            self.older.push_back_reserved(older);
        }
    }

    /// Removes the entry at a place, if there is one.
    pub(crate) fn remove(&mut self, place: usize) -> Option<Entry<V>>
        ensures value { IfSome result (λ k. k ≡ slice_index_or self.old.entries place k) }
        ensures entries { OnSome result (self.new.entries ≡ remove self.old.entries place) }
        ensures variant { IsSome result ↔ (place < length self.old.entries) }
        ensures unchanged { IfNone result (self.new ≡ self.old) }
        ensures room { self.new.room ≡ self.old.room }
    {
        if place == self.older.len() {
            return self.newest.take();
        }
        self.older.remove(place)
    }

    /// The number of entries that are not after a version. The newest is read first.
    pub(crate) fn up_to(&self, version: u32) -> usize
        requires { AllPairs (λ k l. k.version < l.version) self.now.entries }
        ensures within { result ≤ length self.now.entries }
        ensures before { AllWithin (λ k. k.version ≤ version) self.now.entries 0 result }
        ensures behind { AllWithin (λ k. version < k.version) self.now.entries result
            (length self.now.entries) }
    {
        match &self.newest {
            Some(newest) if newest.version <= version => self.older.len() + 1,
            _ => older_up_to(&self.older, version),
        }
    }

    /// The latest entry that is not after a version; `None` if all are after it. The newest is read first.
    pub(crate) fn latest(&self, version: u32) -> Option<&Entry<V>>
        requires { AllPairs (λ k l. k.version < l.version) self.now.entries }
        ensures { IsLatest version self.now.entries (option_copied result) }
    {
        match &self.newest {
            Some(newest) if newest.version <= version => Some(newest),
            _ => Some(&self[self.up_to(version).checked_sub(1)?]),
        }
    }
}

impl<V> Index<usize> for Ring<V> {
    type Output = Entry<V>;

    ghost use Rattle.std.specs.Prelude.{◌≡◌, ◌<◌, length, slice_index_or};

    ghost can_index = { λ r place. place < length r.entries };

    ghost index_gives = { λ r place k. k ≡ slice_index_or r.entries place k };

    fn index(&self, place: usize) -> &Entry<V>
        requires { place < length self.now.entries }
        ensures { result.now ≡ slice_index_or self.now.entries place result.now }
    {
        match &self.newest {
            Some(newest) if place == self.older.len() => newest,
            _ => &self.older[place],
        }
    }
}

// The number of older entries that are not after a version.
fn older_up_to<V>(older: &VecDeque<Entry<V>>, version: u32) -> usize
    requires { AllPairs (λ k l. k.version < l.version) older.now.items }
    ensures within { result ≤ length older.now.items }
    ensures before { AllWithin (λ k. k.version ≤ version) older.now.items 0 result }
    ensures behind { AllWithin (λ k. version < k.version) older.now.items result
        (length older.now.items) }
{
    older.partition_point(|entry| entry.version <= version)
}
