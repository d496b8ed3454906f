//! Entries in order. One alone takes no block of memory; for a second one a ring on the heap is taken.
ghost use Rattle.std.specs.Prelude.{◌≡◌, ◌+◌, ◌++◌, ◌<◌, ◌≤◌, ◌↔◌, [], ◌∷◌, IfSome, IsSome, IfNone, OnOk, OnSome, length, option_copied, slice_index_or};
ghost use Rattle.std.specs.List.{AllPairs, AllWithin, remove};
ghost use Rattle.record_versions.specs.Entries.{IsLatest};

use crate::ring::Ring;
use std::alloc::{AllocError, Global};
use std::marker::Model;
use std::mem;
use std::ops::Index;

/// A value with the version that made it.
#[derive(Drop)]
pub struct Entry<V> {
    pub version: u32,
    pub value: V,
}

/// Contracts see the entries, and the number that there is room for.
#[derive(Drop)]
pub(crate) struct Entries<V> {
    alloc: Global,
    form: Form<V>,
}

// The layouts of entries.
#[derive(Drop)]
enum Form<V> {
    Empty,
    One(Entry<V>),
    // any number of entries; the ring stays if entries are removed
    More(Box<Ring<V>>),
}

impl<V> Model for Entries<V> {
    ghost use Rattle.record_versions.specs.Forms.{row_in};
    ghost use Rattle.record_versions.specs.Rows.{Row};

    ghost Value = { Row V };

    ghost view = { λ e. row_in e.form };
}

impl<V: Drop> Entries<V> {
    /// No entries. It takes no memory.
    pub(crate) fn new(alloc: Global) -> Entries<V>
        ensures { result.entries ≡ [] }
    {
        Entries {
            alloc,
            form: Form::Empty,
        }
    }

    /// The number of entries.
    pub(crate) fn len(&self) -> usize
        ensures { result ≡ length self.now.entries }
    {
        match &self.form {
            Form::Empty => 0,
            Form::One(_) => 1,
            Form::More(ring) => ring.len(),
        }
    }

    /// The entry at a place, if there is one.
    pub(crate) fn get(&self, place: usize) -> Option<&Entry<V>>
        ensures variant { IsSome result ↔ (place < length self.now.entries) }
        ensures lookup { IfSome result (λ k. k.now ≡ slice_index_or self.now.entries place k.now) }
    {
        if place < self.len() {
            Some(&self[place])
        } else {
            None
        }
    }

    /// Takes room for one more entry. The first one takes no memory.
    pub(crate) fn reserve_one(&mut self) -> Result<(), AllocError>
        ensures entries { self.new.entries ≡ self.old.entries }
        ensures grows { self.old.room ≤ self.new.room }
        ensures room { OnOk result (length self.new.entries < self.new.room) }
    {
        match &mut self.form {
            Form::Empty => Ok(()),
            Form::One(_) => {
                let mut ring = Box::new(self.alloc, Ring::of_two(self.alloc)?)?;
                if let Form::One(entry) = mem::replace(&mut self.form, Form::Empty) {
                    ring.push_reserved(entry);
                }
                self.form = Form::More(ring);
                Ok(())
            }
            Form::More(ring) => ring.reserve_one(),
        }
    }

    /// Adds an entry, the newest.
    pub(crate) fn push_reserved(&mut self, entry: Entry<V>)
        requires { length self.old.entries < self.old.room }
        ensures entries { self.new.entries ≡ self.old.entries ++ entry ∷ [] }
        ensures room { self.new.room ≡ self.old.room }
    {
        match &mut self.form {
            Form::More(ring) => ring.push_reserved(entry),
            _ => self.form = Form::One(entry),
        }
    }

    /// Removes the entry at a place, if there is one.
    pub(crate) fn remove(&mut self, place: usize) -> Option<Entry<V>>
        ensures value { IfSome result (λ k. k ≡ slice_index_or self.old.entries place k) }
        ensures entries { OnSome result (self.new.entries ≡ remove self.old.entries place) }
        ensures variant { IsSome result ↔ (place < length self.old.entries) }
        ensures unchanged { IfNone result (self.new ≡ self.old) }
        ensures room { self.new.room ≡ self.old.room }
    {
        if let Form::More(ring) = &mut self.form {
            return ring.remove(place);
        }
        if place > 0 {
            return None;
        }
        match mem::replace(&mut self.form, Form::Empty) {
            Form::One(entry) => Some(entry),
            _ => None,
        }
    }

    /// The number of entries that are not after a version. The newest is read first.
    pub(crate) fn up_to(&self, version: u32) -> usize
        requires { AllPairs (λ k l. k.version < l.version) self.now.entries }
        ensures within { result ≤ length self.now.entries }
        ensures before { AllWithin (λ k. k.version ≤ version) self.now.entries 0 result }
        ensures behind { AllWithin (λ k. version < k.version) self.now.entries result
            (length self.now.entries) }
    {
        match &self.form {
            Form::One(entry) if entry.version <= version => 1,
            Form::More(ring) => ring.up_to(version),
            _ => 0,
        }
    }

    /// The latest entry that is not after a version; `None` if all are after it. The newest is read first.
    pub(crate) fn latest(&self, version: u32) -> Option<&Entry<V>>
        requires { AllPairs (λ k l. k.version < l.version) self.now.entries }
        ensures { IsLatest version self.now.entries (option_copied result) }
    {
        match &self.form {
            Form::One(entry) if entry.version <= version => Some(entry),
            Form::More(ring) => ring.latest(version),
            _ => None,
        }
    }
}

impl<V> Index<usize> for Entries<V> {
    type Output = Entry<V>;

    ghost use Rattle.std.specs.Prelude.{◌≡◌, ◌<◌, length, slice_index_or};

    ghost can_index = { λ e place. place < length e.entries };

    ghost index_gives = { λ e place k. k ≡ slice_index_or e.entries place k };

    fn index(&self, place: usize) -> &Entry<V>
        requires { place < length self.now.entries }
        ensures { result.now ≡ slice_index_or self.now.entries place result.now }
    {
        match &self.form {
            Form::Empty => unreachable!(),
            Form::One(entry) => entry,
            Form::More(ring) => &ring[place],
        }
    }
}
