//! The kept entries of a store, and an index of the prints and records of those that have a record.
ghost use Rattle.std.specs.Prelude.{◌≡◌, ◌==◌, ◌+◌, ◌^◌, ◌++◌, ◌<◌, ◌≤◌, ◌↔◌, ℕ, [], ◌∷◌, All, Contains, IfSome, List, OnOk, Option, filter, if◌then◌else◌, length, option_copied, option_map};
ghost use Rattle.record_versions.specs.Entries.{IsLatest, IsRead, chain_of, entries, is_other};
ghost use Rattle.store_machine.specs.declared.machine.Entry.{Entry};
ghost use Rattle.store_core.specs.Kept.{AreIndexed, HasEntry, HasRoom, IsCandidate, IsFoundAt, IsNextId, Kept, Lists, first_of, kept_of};
ghost use Rattle.record_versions.specs.Readings.{IsAhead, IsFirstAt};
ghost use Rattle.record_versions.specs.Rows.{Row};
ghost use Rattle.store_core.specs.Records.{Shared};
ghost use Rattle.screen_index.specs.Pairs.{Rises, is_apart, rank};

use crate::record::Record;
use arrayvec::ArrayVec;
use chem_core::Print;
use record_versions::{Chains, Counted, Finder, Readings, Steps};
use screen_index::{Hint, ScreenIndex, Screened, Want};
use std::alloc::{AllocError, Global};
use std::marker::{Brand, Model};
use std::sync::Arc;
use std::sync::ledger::{Blank, Ledger};

/// An entry whose print holds the wanted bits, with its record and the version before which it is known to be its
/// identifier's latest.
pub type Candidate = Screened<Counted<Arc<Record>>>;

/// A finder of entries. Contracts see all of them.
pub type EntryFinder<'a> = Finder<'a, Option<Arc<Record>>>;

/// The entries at a version.
pub type EntryReadings<'a> = Readings<'a, Option<Arc<Record>>>;

// Places of entries that have left the chains, in ascending order.
type Gone = ArrayVec<(u32, u32), 256>;

// Records that are dropped together.
type Leaving = ArrayVec<Option<Arc<Record>>, 32>;

/// Entries by identifier and version, each with the record that its commit left, if it left one. Contracts see the
/// entries, and the record for which memory was taken.
#[derive(Drop)]
pub struct KeptEntries {
    chains: Chains<Option<Arc<Record>>>,
    index: ScreenIndex<Counted<Arc<Record>>>,
}

impl Model for KeptEntries {
    ghost use Rattle.std.specs.Prelude.{◌≡◌, IfSome, option_map};
    ghost use Rattle.std.specs.Arc.{arc_value};
    ghost use Rattle.store_core.specs.Kept.{AreIndexed, KeptTerm};

    ghost Value = { KeptTerm };

    ghost view = { λ e. record { chains = e.chains; reserved = option_map (λ p. arc_value p.1) e.index.reserved } };

    ghost invariant = { λ e. AreIndexed e.chains e.index.entries
        × IfSome e.index.reserved (λ p. p.0 ≡ (arc_value p.1).print) };
}

impl KeptEntries {
    /// No entries. It takes no memory.
    pub fn new(alloc: Global) -> KeptEntries
        ensures { result.chains ≡ [] }
    {
        KeptEntries {
            chains: Chains::new(alloc),
            index: ScreenIndex::new(alloc),
        }
    }

    /// Takes the memory of one more entry of an identifier, with this record, if it has one.
    pub fn reserve(&mut self, id: u32, entry: Option<&Arc<Record>>) -> Result<(), AllocError>
        ensures ok { OnOk result (HasRoom id (option_copied entry.entry) self.new) }
        ensures entries { entries self.new.chains ≡ entries self.old.chains }
        ensures chains { (q : ℕ) → chain_of self.new.chains q ≡ chain_of self.old.chains q }
    {
        self.chains.reserve(id)?;
        match entry {
            Some(record) => self
                .index
                .reserve(record.print(), Counted::new(Arc::try_clone(record)?)),
            None => Ok(()),
        }
    }

    /// Adds an entry, whose version exceeds the identifier's others. It takes no memory.
    pub fn add(&mut self, id: u32, version: u32, entry: Option<Arc<Record>>)
        requires room { HasRoom id entry self.old }
        requires later { All (λ k. k.version < version) (chain_of self.old.chains id) }
        requires few { length (entries self.old.chains) < u32.MAX }
        ensures chains { (q : ℕ) → chain_of self.new.chains q ≡ (if q == id
            then chain_of self.old.chains id ++ record { version = version; value = entry } ∷ []
            else chain_of self.old.chains q) }
        ensures one_more { length (entries self.new.chains) ≡ length (entries self.old.chains) + 1 }
    {
        supersede(&mut self.index, &self.chains, id, version);
        if entry.is_some() {
            self.index.add(id, version);
        }
        self.chains.add(id, version, entry);
    }

    /// A finder for one identifier after another, from `id` on.
    pub fn finder(&self, id: u32) -> EntryFinder<'_>
        ensures { result ≡ self.now.chains }
    {
        self.chains.finder(id)
    }

    /// The version and the record of an identifier's latest entry that is not after `version`.
    pub fn latest(&self, id: u32, version: u32) -> Option<(u32, &Option<Arc<Record>>)>
        ensures { IsLatest version (chain_of self.now.chains id) (kept_of result) }
    {
        latest_of(&self.chains, id, version)
    }

    /// The least identifier from `from` on that has an entry whose print holds the wanted bits, with the first such
    /// entry. The answer does not depend on the hint.
    pub fn next(&self, want: &Want<'_>, from: u32, hint: &mut Hint) -> Option<&Candidate>
        ensures id { IsNextId want.now from self.now.chains (option_map (λ x. x.id) (option_copied result)) }
        ensures entry { IfSome (option_copied result) (IsCandidate want.now self.now.chains) }
    {
        self.index.next(want, (from, 0), hint)
    }

    /// The entries at a version, from an identifier on.
    pub fn readings(&self, from: u32, version: u32) -> EntryReadings<'_>
        ensures ahead { IsAhead from self.now.chains result.ahead }
        ensures version { result.version ≡ version }
    {
        self.chains.readings(from, version)
    }

    /// Removes each entry that is its identifier's latest at none of the versions `live`, and returns the number of
    /// entries removed. It takes no memory.
    pub fn prune(&mut self, live: &[u32]) -> u32
        ensures left { (id : ℕ) (k : Kept) → Contains (chain_of self.new.chains id) k
            ↔ (Contains (chain_of self.old.chains id) k × IsRead live.now (chain_of self.old.chains id) k) }
        ensures lists { (es : List Entry) → Lists es self.old.chains → (left : List Entry)
            × Lists left self.new.chains × (result + length left ≡ length es) }
    {
        let before = self.chains.kept();
        prune(&mut self.chains, &mut self.index, live);
        before - self.chains.kept()
    }

    /// The number of entries. It takes no memory.
    pub fn count(&self) -> u32
        ensures { result ≡ length (entries self.now.chains) }
    {
        self.chains.kept()
    }
}

/// The record of a candidate's identifier at a version, if its print holds the wanted bits. The chain is read only if a
/// later entry may be the latest. It takes one step.
pub fn record_at<'a, L: Ledger>(
    candidate: &'a Candidate,
    finder: &mut EntryFinder<'a>,
    version: u32,
    want: &Print,
    steps: &mut Steps<L>,
) -> Option<&'a Arc<Record>>
    requires { IsCandidate want.now finder.old candidate.now }
    ensures found { IsFoundAt version want.now (chain_of finder.old candidate.now.id) (option_copied result) }
    ensures finder { finder.new ≡ finder.old }
    ensures steps { steps.new ≡ steps.old + 1 }
{
    if candidate.version <= version && version < candidate.until {
        return Some(candidate.value.read(steps));
    }
    match finder.at(candidate.id, version, steps) {
        Some((at, Some(record))) if at == candidate.version || record.print().holds(want) => Some(
            record,
        ),
        _ => None,
    }
}

// The version and the record of an identifier's latest entry that is not after `version`.
fn latest_of(
    chains: &Chains<Option<Arc<Record>>>,
    id: u32,
    version: u32,
) -> Option<(u32, &Option<Arc<Record>>)>
    ensures { IsLatest version (chain_of chains.now id) (kept_of result) }
{
    latest_by::<Brand>(chains, id, version, Blank::new(1))
}

fn latest_by<L: Ledger>(
    chains: &Chains<Option<Arc<Record>>>,
    id: u32,
    version: u32,
    blank: Blank,
) -> Option<(u32, &Option<Arc<Record>>)>
    requires name { blank.name ≡ L.name }
    requires parts { blank.parts ≡ L.parts }
    requires some { 0 < blank.parts }
    ensures { IsLatest version (chain_of chains.now id) (kept_of result) }
{
    chains.at(id, version, &mut Steps::<L>::open(blank))
}

/// The next identifier that has an entry at a version, with that entry.
pub fn next_reading<'a>(
    readings: &mut EntryReadings<'a>,
) -> Option<(u32, u32, &'a Option<Arc<Record>>)>
    ensures first { (from : ℕ) (chains : List (ℕ × Row (Option Shared)))
        → IsAhead from chains readings.old.ahead
        → IsFirstAt readings.old.version from chains (first_of result) }
    ensures ahead { (from : ℕ) (chains : List (ℕ × Row (Option Shared)))
        → IsAhead from chains readings.old.ahead
        → IfSome result (λ r. IsAhead (r.0 + 1) chains readings.new.ahead) }
    ensures version { readings.new.version ≡ readings.old.version }
{
    next_by::<Brand>(readings, Blank::new(1))
}

fn next_by<'a, L: Ledger>(
    readings: &mut EntryReadings<'a>,
    blank: Blank,
) -> Option<(u32, u32, &'a Option<Arc<Record>>)>
    requires name { blank.name ≡ L.name }
    requires parts { blank.parts ≡ L.parts }
    requires some { 0 < blank.parts }
    ensures first { (from : ℕ) (chains : List (ℕ × Row (Option Shared)))
        → IsAhead from chains readings.old.ahead
        → IsFirstAt readings.old.version from chains (first_of result) }
    ensures ahead { (from : ℕ) (chains : List (ℕ × Row (Option Shared)))
        → IsAhead from chains readings.old.ahead
        → IfSome result (λ r. IsAhead (r.0 + 1) chains readings.new.ahead) }
    ensures version { readings.new.version ≡ readings.old.version }
{
    readings.next(&mut Steps::<L>::open(blank))
}

// Notes that the pair of an identifier's latest entry is the latest before a version alone.
fn supersede(
    index: &mut ScreenIndex<Counted<Arc<Record>>>,
    chains: &Chains<Option<Arc<Record>>>,
    id: u32,
    version: u32,
)
    requires indexed { AreIndexed chains.now index.old.entries }
    requires later { All (λ k. k.version < version) (chain_of chains.now id) }
    ensures indexed { AreIndexed chains.now index.new.entries }
    ensures until { All (λ x. x.id ≡ id → x.until ≤ version) index.new.entries }
    ensures reserved { index.new.reserved ≡ index.old.reserved }
{
    if let Some((latest, _)) = latest_of(chains, id, version) {
        index.supersede(id, latest, version);
    }
}

// Removes from the chains the entries that are not read at the versions `live`, and their prints from the index. It
// goes on from the last one: removing an entry leaves each other dead or alive, as before.
fn prune(
    chains: &mut Chains<Option<Arc<Record>>>,
    index: &mut ScreenIndex<Counted<Arc<Record>>>,
    live: &[u32],
)
    requires { AreIndexed chains.old index.old.entries }
    ensures indexed { AreIndexed chains.new index.new.entries }
    ensures left { (id : ℕ) (k : Kept) → Contains (chain_of chains.new id) k
        ↔ (Contains (chain_of chains.old id) k × IsRead live.now (chain_of chains.old id) k) }
    ensures lists { (es : List Entry) → Lists es chains.old
        → (left : List Entry) × Lists left chains.new }
    ensures fewer { length (entries chains.new) ≤ length (entries chains.old) }
    ensures reserved { index.new.reserved ≡ index.old.reserved }
{
    let mut gone = Gone::new();
    let mut leaving = Leaving::new();
    let mut from = (0, 0);
    while let Some((id, version)) = chains.dead_from(from, live) {
        let_go(&mut leaving, take(chains, id, version));
        from = place(id, version);
        leave(index, &mut gone, from);
    }
    index.drop_all(gone.as_slice());
}

// Removes an entry from the chains, and returns its record.
fn take(chains: &mut Chains<Option<Arc<Record>>>, id: u32, version: u32) -> Option<Arc<Record>>
    requires { HasEntry chains.old (record { id = id; version = version }) }
    ensures chains { (q : ℕ) → chain_of chains.new q
        ≡ (if q == id then filter (is_other version) (chain_of chains.old id) else chain_of chains.old q) }
    ensures fewer { length (entries chains.new) + 1 ≡ length (entries chains.old) }
{
    let Some(entry) = chains.take(id, version) else {
        unreachable!()
    };
    entry
}

// Drops a record, together with others. The share count of each is read first, as for a page.
fn let_go(leaving: &mut Leaving, entry: Option<Arc<Record>>) {
    if !leaving.is_full() {
        leaving.push(entry);
        return;
    }
    for left in leaving.iter() {
        if let Some(record) = left {
            let _count = Arc::strong_count(record);
        }
    }
    leaving.clear();
    leaving.push(entry);
}

// The place of an entry: its identifier and version.
fn place(id: u32, version: u32) -> (u32, u32)
    ensures id { result.0 ≡ id }
    ensures version { result.1 ≡ version }
    ensures fits { result.1 < 2 ^ 32 }
{
    (id, version)
}

// Appends the place of an entry to those whose prints are still in the index. If there is no room, these prints are
// removed first.
fn leave(index: &mut ScreenIndex<Counted<Arc<Record>>>, gone: &mut Gone, place: (u32, u32))
    requires rises { Rises gone.old.items }
    requires last { All (λ p. rank p.0 p.1 ≤ rank place.0 place.1) gone.old.items }
    ensures rises { Rises gone.new.items }
    ensures last { All (λ p. rank p.0 p.1 ≤ rank place.0 place.1) gone.new.items }
    ensures left { filter (is_apart gone.new.items) index.new.entries
        ≡ filter (is_apart (place ∷ [])) (filter (is_apart gone.old.items) index.old.entries) }
    ensures reserved { index.new.reserved ≡ index.old.reserved }
{
    if !gone.is_full() {
        gone.push(place);
        return;
    }
    index.drop_all(gone.as_slice());
    gone.clear();
    gone.push(place);
}
