//! The store in memory: the kept entries of each identifier, the pins, and counts.
//!
//! It keeps no history. A commit and a look read the latest entry of one identifier. A fetch goes from one identifier
//! to the next that has an entry whose print holds the wanted bits, and a copy to the next that has any entry. A prune
//! goes over the entries once.
ghost use Rattle.std.specs.Prelude.{◌≡◌, ◌≤◌, ◌<◌, ◌+◌, ◌^◌, ◌++◌, [], ◌∷◌, All, Err, false, IfErr, IfOk, IfSome, length, map, MatchOption, None, OnErr, OnOk, option_copied, option_map, Some, true};
ghost use Rattle.std.specs.Arc.{arc_value};
ghost use Rattle.std.specs.FinMap.{entries};
ghost use Rattle.std.specs.Option.{option_to_list};
ghost use Rattle.store_machine.specs.History.{IsId, head, snapshot};
ghost use Rattle.store_machine.specs.Machine.{IsPage, committed};
ghost use Rattle.store_machine.specs.declared.machine.State.{State};
ghost use Rattle.store_machine.specs.declared.machine.TheConstants.{LAST_IDENTIFIER};
ghost use Rattle.store_core.specs.Based.{IsBefore, IsGiven, based};
ghost use Rattle.store_core.specs.Calls.{Calls, NotRaised, SameHeld, WornAs, is_compact_worn, is_worn, is_worn_out};
ghost use Rattle.store_core.specs.Copied.{KeepsCopy, Prunes};
ghost use Rattle.store_core.specs.States.{GoOn};
ghost use Rattle.store_core.specs.Kept.{status_in};
ghost use Rattle.store_core.specs.Prepared.{IsPrepared, IsWhy};
ghost use Rattle.store_core.specs.Records.{IsRecord, Shared, founds};
ghost use Rattle.store_core.specs.Replies.{change_of, commit_calls, compact_calls, fetch_calls};
ghost use Rattle.store_core.specs.Steps.{AreSteps};
ghost use Rattle.store_core.specs.Stored.{HoldsPin, IsAt, Served, StandsFor, Stretches, alone, empty, served};

use crate::kept::{KeptEntries, next_reading, record_at};
use crate::laws::laws;
use crate::page::{MOST_RECORDS, Page};
use crate::record::Record;
use crate::service::Service;
use crate::states::{States, gathered, longest};
use crate::waiting::Waiting;
use crate::words::{CallFault, Change, CommitFault, Compact, CompactFault, Look, Stats, counted};
use arrayvec::ArrayVec;
use chem_core::Print;
use mol_finish::one_structure;
use record_versions::Steps;
use screen_index::{Hint, Want};
use snap_registry::{Pin, Registry};
use std::alloc::{AllocError, Global};
use std::marker::Model;
use std::sync::Arc;
use std::sync::ledger::Ledger;

/// The most commits that a store may have.
pub const MOST_COMMITS: u32 = 16_777_215;

// The most versions that are in use: those of 64 pins, that of a copy, and the head's.
const MOST_IN_USE: usize = 66;

// Versions in use.
type InUse = ArrayVec<u32, MOST_IN_USE>;

/// A store with any number of callers. Contracts see its entries, pins and counts.
#[derive(Drop)]
pub struct Store {
    kept: KeptEntries,
    registry: Registry,
    version: u32,
    limit: u32,
    live: u32,
    withdrawn: u32,
}

impl Model for Store {
    ghost use Rattle.store_core.specs.Stored.{IsStore, StoreTerm};

    ghost Value = { StoreTerm };

    ghost view = { λ s. record {
      kept = s.kept;
      pins = s.registry;
      version = s.version;
      limit = s.limit;
      live = s.live;
      withdrawn = s.withdrawn;
    } };

    ghost invariant = { λ s. IsStore (record {
      kept = s.kept;
      pins = s.registry;
      version = s.version;
      limit = s.limit;
      live = s.live;
      withdrawn = s.withdrawn;
    }) };
}

impl Store {
    /// A store without commits, which takes `commits` of them. It has no disk to compact. Takes no memory.
    pub fn fresh(alloc: Global, commits: u32) -> Store
        requires some { 1 ≤ commits }
        requires few { commits ≤ MOST_COMMITS }
        ensures { IsAt result (alone (served (empty commits))) }
    {
        Store {
            kept: KeptEntries::new(alloc),
            registry: Registry::new(),
            version: 0,
            limit: commits,
            live: 0,
            withdrawn: 0,
        }
    }

    /// A store at the version of a base of which no state was given yet. It takes `MOST_COMMITS` commits in all. Takes
    /// no memory.
    pub fn at_base(alloc: Global, version: u32) -> Store
        requires { version ≤ MOST_COMMITS }
        ensures stands { StandsFor result (based version []) }
        ensures version { result.version ≡ version }
    {
        Store {
            kept: KeptEntries::new(alloc),
            registry: Registry::new(),
            version,
            limit: MOST_COMMITS,
            live: 0,
            withdrawn: 0,
        }
    }

    /// Gives it the state of an identifier, with the version that made it. Identifiers come in ascending order. After
    /// an error it represents the same state.
    pub fn put_base(
        &mut self,
        id: u32,
        made_at: u32,
        entry: Option<Arc<Record>>,
    ) -> Result<(), AllocError>
        requires in_range { IsId id }
        requires since { 1 ≤ made_at }
        requires until { made_at ≤ self.old.version }
        requires own { IfSome entry (λ r. (arc_value r).id ≡ id) }
        requires before { IsBefore self.old id }
        ensures given { OnOk result (IsGiven self.old self.new id (status_in made_at entry)) }
        ensures err { OnErr result ((s : Served) → StandsFor self.old s → StandsFor self.new s) }
        ensures version { self.new.version ≡ self.old.version }
    {
        self.kept.reserve(id, own_record(&entry))?;
        let (live, withdrawn) = one_more(&entry, self.live, self.withdrawn);
        self.live = live;
        self.withdrawn = withdrawn;
        self.kept.add(id, made_at, entry);
        Ok(())
    }

    /// The version of the head. Takes no memory.
    pub fn version(&self) -> u32
        ensures { result ≡ self.now.version }
    {
        self.version
    }

    /// The number of identifiers that have a state at the head. Takes no memory.
    pub fn states(&self) -> u32
        ensures count { (s : State) → StandsFor self.now (served s)
            → result ≡ length (entries (snapshot s.history (head s.history))) }
        ensures within { result ≤ LAST_IDENTIFIER + self.now.version }
    {
        self.live + self.withdrawn
    }

    /// Checks whether a change may be made, and takes the memory for it: the first half of a commit. It represents the
    /// same state afterwards.
    pub fn prepare(&mut self, change: &Change) -> Result<(), CommitFault>
        ensures prepared { OnOk result (IsPrepared self.new change.now) }
        ensures why { IfErr result (λ fault. (s : State) → StandsFor self.old (served s)
            → IsWhy s (change_of change.now) fault) }
        ensures not_worn { is_worn_out result ≡ false }
        ensures stands { (s : Served) → StandsFor self.old s → StandsFor self.new s }
        ensures pins { self.new.pins ≡ self.old.pins }
        ensures version { self.new.version ≡ self.old.version }
    {
        laws();
        let id = change.id();
        change.check(self.kept.latest(id, self.version))?;
        if self.version >= self.limit {
            return Err(CommitFault::Full);
        }
        self.kept.reserve(id, change.entry())?;
        Ok(())
    }

    /// Makes a change that was prepared: the second half of a commit. It takes no memory.
    pub fn make(&mut self, change: Change)
        requires { IsPrepared self.old change }
        ensures committed { (s : State) → StandsFor self.old (served s)
            → StandsFor self.new (served (committed s (change_of change))) }
        ensures pins { self.new.pins ≡ self.old.pins }
        ensures version { self.new.version ≡ self.old.version + 1 }
        ensures few { self.new.version ≤ MOST_COMMITS }
    {
        laws();
        let id = change.id();
        let (live, withdrawn) = counted(&change, self.live, self.withdrawn);
        self.live = live;
        self.withdrawn = withdrawn;
        self.version += 1;
        self.kept.add(id, self.version, change.into_entry());
    }

    /// Takes `commits` commits in all from now on. Those that were made stay.
    pub fn limit_to(&mut self, commits: u32)
        requires { commits ≤ MOST_COMMITS }
        ensures stands { (s : Served) → StandsFor self.old s
            → StandsFor self.new (record s { limit = commits }) }
        ensures version { self.new.version ≡ self.old.version }
    {
        self.limit = commits;
    }

    /// The states at a version, from an identifier on. Takes no memory.
    pub fn states_at(&self, from: u32, version: u32) -> States<'_>
        ensures states { GoOn version from result }
        ensures store { result.store ≡ self.now }
    {
        States::begin(self, self.kept.readings(from, version))
    }

    /// The length of the longest text of the first `count` states from `from` on, or of the first 256. It reads these
    /// texts side by side, so that a walk over the states does not wait for one after the other. Takes no memory.
    pub fn longest_text(&self, from: u32, version: u32, count: u32) -> usize {
        let records = gathered(&mut self.kept.readings(from, version), count);
        longest(records.as_slice())
    }

    /// Drops the entries that are read neither at a pinned version nor at the head, nor at the version of a copy if one
    /// runs, and returns their number. Takes no memory.
    pub fn prune_but(&mut self, copied: Option<u32>) -> u32
        ensures pruned { (s : State) → StandsFor self.old (served s) → KeepsCopy copied s
            → Prunes self.new s result }
        ensures pins { self.new.pins ≡ self.old.pins }
        ensures version { self.new.version ≡ self.old.version }
    {
        laws();
        let versions = self.in_use(copied);
        self.kept.prune(versions.as_slice())
    }

    // The versions of the pins, one more if there is one, and the head's.
    fn in_use(&self, more: Option<u32>) -> InUse
        ensures { result.items ≡ map (λ p. p.version) self.now.pins
            ++ (option_to_list more ++ self.now.version ∷ []) }
    {
        let mut versions = InUse::new();
        append(&mut versions, self.registry.live());
        append(&mut versions, more.as_slice());
        versions.push(self.version);
        versions
    }

    // Fills an empty page of a pinned version, as a service does.
    fn fill<L: Ledger>(
        &self,
        pin: &Pin,
        want: &Print,
        from: u32,
        limit: u32,
        page: &mut Page,
        steps: &mut Steps<L>,
    ) -> Result<bool, AllocError>
        requires held { HoldsPin self.now pin.now.slot pin.now.version }
        requires empty { page.old.records ≡ [] }
        requires room { limit ≤ page.old.room }
        ensures page { (s : State) → StandsFor self.now (served s)
            → IfOk result (λ last. IsPage (snapshot s.history pin.now.version) want.now from limit
            (founds page.new.records) last) }
        ensures few { length page.new.records ≤ limit }
        ensures in_range { All (λ (r : Shared). IsId (arc_value r).id) page.new.records }
        ensures room { page.new.room ≡ page.old.room }
        ensures steps { (s : State) → StandsFor self.now (served s)
            → AreSteps s from want.now steps.old steps.new }
    {
        laws();
        one_structure();
        let wanted = Want::of(want);
        let mut place = from;
        let mut hint = Hint::default();
        let mut finder = self.kept.finder(from);
        let mut waiting = Waiting::new();
        while let Some(next) = self.kept.next(&wanted, place, &mut hint) {
            if let Some(record) = record_at(next, &mut finder, pin.version, want, steps) {
                if page.records().len() + waiting.len() >= limit as usize {
                    waiting.share(page)?;
                    return Ok(false);
                }
                waiting.gather(record, page)?;
            }
            place = next.id + 1;
        }
        waiting.share(page)?;
        Ok(true)
    }
}

impl Service for Store {
    ghost use Rattle.std.specs.Prelude.{None, true};
    ghost use Rattle.store_core.specs.Stored.{Stretches, joins, lands, same, stays};
    ghost use Rattle.store_core.specs.Stored.{HoldsPin};

    ghost at = { IsAt };

    ghost owns = { λ _ _. true };

    ghost stretch = { Stretches };

    ghost worn = { λ _. ⊥ };

    ghost holds = { HoldsPin };

    ghost bounds = { λ _. (None, None) };

    fn commit(&mut self, change: Change) -> Result<u32, CommitFault>
        ensures why { IfErr result (λ fault. (s : State) → StandsFor self.old (served s)
            → IsWhy s (change_of change) fault) }
        ensures call { (s : State) → IsAt self.old s
            → Calls Stretches (λ _. true) self.old self.new s (commit_calls change result) }
        ensures worn { WornAs ⊥ ⊥ (is_worn_out result) }
        ensures held { SameHeld (HoldsPin self.old) (HoldsPin self.new) }
        ensures bounds { NotRaised (None, None) (None, None) }
    {
        self.prepare(&change)?;
        self.make(change);
        Ok(self.version)
    }

    fn pin(&mut self) -> Result<Option<Pin>, CallFault> {
        laws();
        Ok(self.registry.pin(self.version))
    }

    fn fetch<L: Ledger>(
        &mut self,
        pin: &Pin,
        want: &Print,
        from: u32,
        limit: u32,
        page: &mut Page,
        steps: &mut Steps<L>,
    ) -> Result<bool, CallFault>
        requires held { HoldsPin self.old pin.now.slot pin.now.version }
        requires some { 1 ≤ limit }
        requires few { limit ≤ MOST_RECORDS }
        requires room { limit ≤ page.old.room }
        ensures call { (s : State) → IsAt self.old s
            → Calls Stretches (λ _. true) self.old self.new s
            (fetch_calls pin.now.slot want.now from limit page.new.records result) }
        ensures few { length page.new.records ≤ limit }
        ensures in_range { All (λ (r : Shared). IsId (arc_value r).id) page.new.records }
        ensures err { OnErr result (page.new.records ≡ []) }
        ensures room { page.new.room ≡ page.old.room }
        ensures steps { (s : State) → IsAt self.new s → AreSteps s from want.now steps.old steps.new }
        ensures worn { WornAs ⊥ ⊥ (is_worn result) }
        ensures held { SameHeld (HoldsPin self.old) (HoldsPin self.new) }
        ensures bounds { NotRaised (None, None) (None, None) }
    {
        page.clear();
        match self.fill(pin, want, from, limit, page, steps) {
            Ok(last) => Ok(last),
            Err(_) => {
                page.clear();
                Err(CallFault::NoMemory)
            }
        }
    }

    fn unpin(&mut self, pin: Pin) -> Result<(), CallFault> {
        laws();
        self.registry.unpin(pin);
        Ok(())
    }

    fn prune(&mut self) -> Result<u32, CallFault> {
        laws();
        Ok(self.prune_but(None))
    }

    fn look(&mut self, id: u32) -> Result<Look, CallFault> {
        laws();
        Look::of(self.kept.latest(id, self.version))
    }

    fn stats(&mut self) -> Result<Stats, CallFault> {
        Ok(Stats {
            version: self.version,
            live: self.live,
            withdrawn: self.withdrawn,
            kept: self.kept.count(),
            pins: self.registry.live().len() as u32,
        })
    }

    // There is no disk to compact.
    fn compact(&mut self) -> Result<Compact, CompactFault>
        ensures last { result ≡ Err CompactFault.Last }
        ensures call { (s : State) → IsAt self.old s
            → Calls Stretches (λ _. true) self.old self.new s (compact_calls result) }
        ensures worn { WornAs ⊥ ⊥ (is_compact_worn result) }
        ensures held { SameHeld (HoldsPin self.old) (HoldsPin self.new) }
        ensures bounds { NotRaised (None, None) (None, None) }
    {
        Err(CompactFault::Last)
    }

    ghost stays = { stays };

    ghost joins = { joins };

    ghost lands = { lands };

    ghost same = { same };
}

// The record, if there is one, which is sound.
fn own_record(entry: &Option<Arc<Record>>) -> Option<&Arc<Record>>
    ensures record { option_copied result ≡ entry.now }
    ensures sound { IfSome entry.now (λ r. IsRecord (arc_value r)) }
{
    let record = entry.as_ref()?;
    let _ = record.id();
    Some(record)
}

// Live and withdrawn identifiers with one more, which is live if it has a record.
fn one_more(entry: &Option<Arc<Record>>, live: u32, withdrawn: u32) -> (u32, u32)
    requires { live + withdrawn < 2 ^ 30 }
    ensures { MatchOption entry.now
        ((result.0 ≡ live) × (result.1 ≡ withdrawn + 1))
        (λ _. (result.0 ≡ live + 1) × (result.1 ≡ withdrawn)) }
{
    match entry {
        Some(_) => (live + 1, withdrawn),
        None => (live, withdrawn + 1),
    }
}

// Appends versions to others.
fn append(versions: &mut InUse, more: &[u32])
    requires room { length versions.old.items + length more.now ≤ MOST_IN_USE }
    ensures { versions.new.items ≡ versions.old.items ++ more.now }
{
    let Ok(()) = versions.try_extend_from_slice(more) else {
        unreachable!()
    };
}
