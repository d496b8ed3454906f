//! A block of pairs in ascending order, with a union of their prints, and rows that show the pairs that may hold the
//! wanted bits.
ghost use Rattle.std.specs.Prelude.{◌≡◌, ◌+◌, ◌++◌, ◌<◌, ◌≤◌, [], All, IfOk, IsTrue, false, filter, length, map, option_copied, vec_capacity};
ghost use Rattle.std.specs.List.{AllWithin};
ghost use Rattle.screen_index.specs.declared.entry.Screened.{Screened};
ghost use Rattle.screen_index.specs.Pairs.{Ascend, IsNext, Lacks, Rises, ends_before, is_apart, put_in, rank, rank_of, superseded};
ghost use Rattle.screen_index.specs.Pairs.{AreNoted, IsWanted, column_of};

use crate::entry::Screened;
use crate::rows::{Rows, has_column};
use crate::union::union_of;
use crate::want::Want;
use chem_core::Print;
use std::alloc::{AllocError, Global};
use std::marker::Model;

/// The number of pairs that a block has room for.
pub const ROOM: usize = 256;

// The number of pairs after an answer that are read one by one before the rows are used.
const NEAR: usize = 32;

/// Contracts see the pairs. The union holds the print of each of them, and maybe bits of others that were there.
#[derive(Drop)]
pub struct Block<V> {
    entries: Vec<Screened<V>>,
    union: Print,
    // the column of each pair
    columns: Vec<u8>,
    rows: Rows,
}

impl<V> Model for Block<V> {
    ghost use Rattle.std.specs.Prelude.{◌≡◌, ◌≤◌, List, length, map};
    ghost use Rattle.std.specs.Vec.{vec_capacity};
    ghost use Rattle.screen_index.specs.declared.entry.Screened.{Screened};
    ghost use Rattle.screen_index.specs.Pairs.{AreCovered, AreNoted, column_of};

    ghost Value = { List (Screened V) };

    ghost view = { λ b. b.entries.items };

    ghost invariant = { λ b. (256 ≤ vec_capacity b.entries) × (length b.entries.items ≤ 256)
        × AreCovered b.union b.entries.items
        × (256 ≤ vec_capacity b.columns)
        × (b.columns.items ≡ map column_of b.entries.items)
        × AreNoted b.rows b.entries.items };
}

impl<V: Drop> Block<V> {
    /// A block without pairs.
    pub fn new(alloc: Global) -> Result<Block<V>, AllocError>
        ensures { IfOk result (λ b. b ≡ []) }
    {
        Ok(Block {
            entries: Vec::with_capacity(alloc, ROOM)?,
            union: Print::empty(),
            columns: Vec::with_capacity(alloc, ROOM)?,
            rows: Rows::new(alloc)?,
        })
    }

    pub fn len(&self) -> usize
        ensures len { result ≡ length self.now }
        ensures few { result ≤ ROOM }
    {
        self.entries.len()
    }

    /// True if the last pair is before a place, or if there is no pair.
    pub fn ends_before(&self, place: (u32, u32)) -> bool
        ensures { result ≡ ends_before (rank place.0 place.1) self.now }
    {
        let len = self.entries.len();
        len == 0 || self.entries[len - 1].is_before(place)
    }

    // The number of pairs before a place.
    fn count_before(&self, place: (u32, u32)) -> usize
        requires { Ascend 0 self.now }
        ensures within { result ≤ length self.now }
        ensures before { AllWithin (λ x. rank_of x < rank place.0 place.1) self.now 0 result }
        ensures behind { AllWithin (λ x. rank place.0 place.1 ≤ rank_of x) self.now result (length self.now) }
    {
        self.entries
            .as_slice()
            .partition_point(|entry| entry.is_before(place))
    }

    // As `count_before`, but the hint is tried first.
    fn count_near(&self, place: (u32, u32), hint: usize) -> usize
        requires { Ascend 0 self.now }
        ensures within { result ≤ length self.now }
        ensures before { AllWithin (λ x. rank_of x < rank place.0 place.1) self.now 0 result }
        ensures behind { AllWithin (λ x. rank place.0 place.1 ≤ rank_of x) self.now result (length self.now) }
    {
        if self.is_first_from(hint, place) {
            hint
        } else {
            self.count_before(place)
        }
    }

    // True if the pair at an index is the first that is not before a place.
    fn is_first_from(&self, index: usize, place: (u32, u32)) -> bool
        requires { Ascend 0 self.now }
        ensures within { IsTrue result → index ≤ length self.now }
        ensures before { IsTrue result
            → AllWithin (λ x. rank_of x < rank place.0 place.1) self.now 0 index }
        ensures behind { IsTrue result
            → AllWithin (λ x. rank place.0 place.1 ≤ rank_of x) self.now index (length self.now) }
    {
        if index >= self.entries.len() || self.entries[index].is_before(place) {
            return false;
        }
        index == 0 || self.entries[index - 1].is_before(place)
    }

    /// Inserts a pair at its place.
    pub fn insert(&mut self, entry: Screened<V>)
        requires room { length self.old < ROOM }
        requires ascending { Ascend 0 self.old }
        requires absent { Lacks (rank_of entry) self.old }
        ensures { self.new ≡ put_in entry self.old }
    {
        let place = self.count_before((entry.id, entry.version));
        self.union.unite(&entry.print);
        let column = entry.column();
        self.rows.note(&entry.print, column);
        let Ok(()) = self.entries.insert(place, entry) else {
            unreachable!()
        };
        let Ok(()) = self.columns.insert(place, column) else {
            unreachable!()
        };
    }

    /// Inserts a pair into a full block, whose pairs from an index on move to a block without pairs. New pairs after
    /// the others, or before them, leave full blocks.
    pub fn insert_split(&mut self, entry: Screened<V>, upper: &mut Block<V>)
        requires full { ROOM ≤ length self.old }
        requires ascending { Ascend 0 self.old }
        requires absent { Lacks (rank_of entry) self.old }
        requires empty { upper.old ≡ [] }
        ensures whole { self.new ++ upper.new ≡ put_in entry self.old }
        ensures some { 0 < length self.new }
        ensures upper_some { 0 < length upper.new }
    {
        let place = (entry.id, entry.version);
        self.split(split_point(self.count_before(place), self.len()), upper);
        if upper.count_before(place) == 0 {
            self.insert(entry);
        } else {
            upper.insert(entry);
        }
    }

    /// Notes, for the pair at a place if there is one, the version before which it is the latest.
    pub fn supersede(&mut self, place: (u32, u32), until: u32)
        requires { Ascend 0 self.old }
        ensures { self.new ≡ superseded (rank place.0 place.1) until self.old }
    {
        let index = self.count_before(place);
        if index < self.entries.len() && !self.entries[index].is_behind(place) {
            self.entries[index].until = until;
        }
    }

    /// Removes the pairs at these places.
    pub fn drop_all(&mut self, places: &[(u32, u32)])
        requires { Rises places.now }
        ensures { self.new ≡ filter (is_apart places.now) self.old }
    {
        drop_places(&mut self.entries, places);
        list_columns(self.entries.as_slice(), &mut self.columns);
    }

    /// The number of leading `places` that are at or before the last pair.
    pub fn reach(&self, places: &[(u32, u32)]) -> usize
        ensures within { result ≤ length places.now }
        ensures reached { AllWithin (λ p. ends_before (rank p.0 p.1) self.now ≡ false)
            places.now 0 result }
    {
        let mut count = 0;
        while count < places.len() && !self.ends_before(places[count]) {
            count += 1;
        }
        count
    }

    /// The least pair from a place on whose print holds the wanted bits. If no bit is wanted, no print is read. The
    /// hint is the index at which the pairs from the place on may begin, and then the index after the answer.
    ///
    /// After an answer a few pairs are read one by one: if many hold the wanted bits, one of them is the next.
    pub fn next(&self, want: &Want<'_>, from: (u32, u32), hint: &mut usize) -> Option<&Screened<V>>
        requires { Ascend 0 self.now }
        ensures { IsNext want.now (rank from.0 from.1) self.now (option_copied result) }
    {
        let start = self.count_near(from, *hint);
        // The union is read once, if a search enters the block.
        if start == 0 && !want.is_met_by(&self.union) {
            return None;
        }
        let near = near_end(start, self.entries.len());
        for place in start..near {
            let entry = &self.entries[place];
            if want.is_met_by(&entry.print) {
                *hint = place + 1;
                return Some(entry);
            }
        }
        self.next_noted(want, from, near, hint)
    }

    // As `next`, but by the rows: no pair before index `near` is wanted, and each from there on is from the place on.
    fn next_noted(
        &self,
        want: &Want<'_>,
        from: (u32, u32),
        near: usize,
        hint: &mut usize,
    ) -> Option<&Screened<V>>
        requires ascending { Ascend 0 self.now }
        requires none { AllWithin (λ x. ¬ IsWanted want.now (rank from.0 from.1) x) self.now 0 near }
        requires behind { AllWithin (λ x. rank from.0 from.1 ≤ rank_of x) self.now near (length self.now) }
        ensures { IsNext want.now (rank from.0 from.1) self.now (option_copied result) }
    {
        let columns = self.rows.columns_of(want.print());
        if columns == 0 {
            return None;
        }
        for place in near..self.entries.len() {
            if has_column(columns, self.columns[place]) {
                let entry = &self.entries[place];
                if want.is_met_by(&entry.print) {
                    *hint = place + 1;
                    return Some(entry);
                }
            }
        }
        None
    }

    // Moves the pairs from an index on into a block without pairs.
    fn split(&mut self, index: usize, upper: &mut Block<V>)
        requires within { index ≤ length self.old }
        requires empty { upper.old ≡ [] }
        ensures whole { self.new ++ upper.new ≡ self.old }
        ensures lower { length self.new ≡ index }
        ensures room { length self.old ≤ ROOM }
    {
        move_tail(&mut self.entries, index, &mut upper.entries);
        self.union = union_of(self.entries.as_slice());
        upper.union = union_of(upper.entries.as_slice());
        list_columns(self.entries.as_slice(), &mut self.columns);
        list_columns(upper.entries.as_slice(), &mut upper.columns);
        note_left(self.entries.as_slice(), &mut self.rows);
        note_all(upper.entries.as_slice(), &mut upper.rows);
    }

    /// Moves all pairs of the next block to the end of this one.
    pub fn append(&mut self, next: &mut Block<V>)
        requires { length self.old + length next.old ≤ ROOM }
        ensures moved { self.new ≡ self.old ++ next.old }
        ensures empty { next.new ≡ [] }
    {
        self.union.unite(&next.union);
        self.rows.unite(&next.rows);
        let Ok(()) = self.entries.append(&mut next.entries) else {
            unreachable!()
        };
        list_columns(self.entries.as_slice(), &mut self.columns);
        next.columns.clear();
    }
}

// Lists the columns of pairs.
fn list_columns<V>(entries: &[Screened<V>], columns: &mut Vec<u8>)
    requires { length entries.now ≤ vec_capacity columns.old }
    ensures columns { columns.new.items ≡ map column_of entries.now }
    ensures capacity { vec_capacity columns.new ≡ vec_capacity columns.old }
{
    columns.clear();
    for entry in entries {
        columns.push_reserved(entry.column());
    }
}

// Notes pairs in rows that note them and others, and forgets most of the others. If a block loses its last pair alone,
// as for each new one after a full block, the rows stay as they are.
fn note_left<V>(entries: &[Screened<V>], rows: &mut Rows)
    requires { AreNoted rows.old entries.now }
    ensures { AreNoted rows.new entries.now }
{
    if entries.len() < ROOM - 1 {
        note_all(entries, rows);
    }
}

// Notes pairs, and no others, in rows.
fn note_all<V>(entries: &[Screened<V>], rows: &mut Rows)
    ensures { AreNoted rows.new entries.now }
{
    rows.clear();
    for entry in entries {
        rows.note(&entry.print, entry.column());
    }
}

// Moves the elements from an index on to the end of an empty vector with room for them.
fn move_tail<V>(entries: &mut Vec<Screened<V>>, index: usize, upper: &mut Vec<Screened<V>>)
    requires within { index ≤ length entries.old.items }
    requires room { length entries.old.items ≤ index + vec_capacity upper.old }
    requires empty { upper.old.items ≡ [] }
    ensures whole { entries.new.items ++ upper.new.items ≡ entries.old.items }
    ensures lower { length entries.new.items ≡ index }
    ensures capacity { vec_capacity entries.new ≡ vec_capacity entries.old }
    ensures upper_capacity { vec_capacity upper.new ≡ vec_capacity upper.old }
{
    while entries.len() > index {
        if let Some(entry) = entries.pop() {
            upper.push_reserved(entry);
        }
    }
    upper.as_mut_slice().reverse();
}

// The index up to which pairs are read one by one; `start` if a search enters the block.
fn near_end(start: usize, len: usize) -> usize
    ensures within { start ≤ len → (start ≤ result) × (result ≤ len) }
    ensures most { result ≤ start + len }
{
    if start == 0 || len <= start {
        start
    } else {
        start + NEAR.min(len - start)
    }
}

// The index at which a full block is split for a pair that has `before` of its `len` pairs before it.
fn split_point(before: usize, len: usize) -> usize
    requires { ROOM ≤ len }
    ensures some { 0 < result }
    ensures within { result < len }
    ensures few { result < ROOM }
{
    if before == 0 {
        1
    } else if before == len {
        ROOM - 1
    } else {
        ROOM / 2
    }
}

// Removes the pairs at these places.
fn drop_places<V: Drop>(entries: &mut Vec<Screened<V>>, places: &[(u32, u32)])
    requires { Rises places.now }
    ensures entries { entries.new.items ≡ filter (is_apart places.now) entries.old.items }
    ensures fewer { length entries.new.items ≤ length entries.old.items }
    ensures capacity { vec_capacity entries.new ≡ vec_capacity entries.old }
{
    entries.retain(|entry| entry.is_apart(places));
}
