//! A search that is under way.
ghost use Rattle.std.specs.Prelude.{◌≡◌, ◌≢◌, ◌≤◌, ◌↔◌, ◌⊎◌, Err, IfErr, IfOk, length, ℕ};
ghost use Rattle.std.specs.Borrow.{sem};
ghost use Rattle.smarts_parse.specs.Pattern.{pattern_of};
ghost use Rattle.smarts_parse.specs.Sound.{IsSoundPattern};
ghost use Rattle.store_machine.specs.Answers.{AreMatched};
ghost use Rattle.store_machine.specs.Searches.{End};
ghost use Rattle.store_machine.specs.declared.machine.State.{State};
ghost use Rattle.store_core.specs.Calls.{Calls, NotRaised, SameHeld, WornAs};
ghost use Rattle.store_core.specs.Records.{founds};
ghost use Rattle.par_search.specs.Batches.{IsBatch, MovesBehind};
ghost use Rattle.par_search.specs.Searches.{HasBegun, IsBegun, IsReturned, IsSearch, close_calls, is_worn, next_calls, start_calls};
ghost use Rattle.par_search.specs.Moves.{IsEnded, Moves};
ghost use Rattle.par_search.specs.declared.batch.TheConstants.{MOST_PAGES};
ghost use Rattle.par_search.specs.declared.fault.SearchFault.TheVariants.{NoMemory, Pins, Worn};
ghost use Rattle.par_search.specs.declared.pieces.TheConstants.{MOST_WORKERS};
ghost use Rattle.par_search.specs.declared.worker.TheConstants.{MOST_RECORDS};

use crate::batch::{BatchHits, next_from};
use crate::fault::SearchFault;
use crate::meter::Meter;
use crate::room::{PageHits, Room};
use chem_core::Print;
use path_print::need;
use smarts_parse::Pattern;
use snap_registry::Pin;
use std::alloc::Global;
use std::marker::Model;
use std::thread::Threads;
use store_core::{CallFault, Service};

/// A search by the pages of one pin. Contracts see its pattern, the bits that the pattern needs of a print, its pin,
/// the size of its pages, and the most pages that it searches together. They also see its place: the identifier from
/// which it fetches next, or its end.
#[derive(Drop)]
pub struct Search {
    pattern: Pattern,
    want: Print,
    pin: Pin,
    from: Option<u32>,
    room: Room,
}

impl Model for Search {
    ghost use Rattle.std.specs.Prelude.{IfSome, vec_len, ◌≤◌};
    ghost use Rattle.std.specs.Coded.{codes};
    ghost use Rattle.smarts_parse.specs.contracts.pattern.Pattern as pattern_contract;
    ghost use Rattle.par_search.specs.Rooms.{IsRoom};
    ghost use Rattle.par_search.specs.Searches.{IsSearch, SearchTerm, place_of};

    ghost Value = { SearchTerm };

    ghost coded = { Prim.hlevel (codes, pattern_contract.the_row.coded) };

    ghost view = { λ s. record {
      pattern = s.pattern;
      want = s.want;
      slot = s.pin.slot;
      version = s.pin.version;
      size = s.room.size;
      most = vec_len s.room.batch;
      place = place_of s.from;
    } };

    ghost invariant = { λ s. IsSearch (record {
      pattern = s.pattern;
      want = s.want;
      slot = s.pin.slot;
      version = s.pin.version;
      size = s.room.size;
      most = vec_len s.room.batch;
      place = place_of s.from;
    })
        × IsRoom s.room × IfSome s.from (λ from. from ≤ 1000000000) };
}

impl Search {
    /// Takes all memory, for `workers` workers, 1 to 16, and for pages of `page` records, 1 to 256, one at a time. Then
    /// pins the head.
    pub fn start<S: Service>(
        alloc: Global,
        service: &mut S,
        pattern: Pattern,
        workers: u32,
        page: u32,
    ) -> Result<Search, SearchFault>
        requires sound { IsSoundPattern (pattern_of pattern) }
        requires some_workers { 1 ≤ workers }
        requires few_workers { workers ≤ MOST_WORKERS }
        requires some { 1 ≤ page }
        requires few { page ≤ MOST_RECORDS }
        ensures call { (s : State) → S.at service.old s
            → Calls S.stretch (S.owns service.old) service.old service.new s (start_calls result) }
        ensures begun { IfOk result (λ search. HasBegun pattern page search) }
        ensures most { IfOk result (λ search. search.most ≡ 0) }
        ensures memory { result ≡ Err NoMemory → service.new ≡ service.old }
        ensures worn { result ≢ Err NoMemory → WornAs (S.worn service.old) (S.worn service.new) (is_worn result) }
        ensures held { (slot version : ℕ)
            → S.holds service.new slot version ↔ (S.holds service.old slot version ⊎ IsBegun result slot version) }
        ensures apart { (slot version other : ℕ) → IsBegun result slot version → S.holds service.old slot other → ⊥ }
        ensures bounds { NotRaised (S.bounds service.old) (S.bounds service.new) }
    {
        Search::start_batched(alloc, service, pattern, workers, page, 0)
    }

    /// As `start`, but for batches of at most `most` pages as well, 0 to 64.
    pub fn start_batched<S: Service>(
        alloc: Global,
        service: &mut S,
        pattern: Pattern,
        workers: u32,
        page: u32,
        most: u32,
    ) -> Result<Search, SearchFault>
        requires sound { IsSoundPattern (pattern_of pattern) }
        requires some_workers { 1 ≤ workers }
        requires few_workers { workers ≤ MOST_WORKERS }
        requires some { 1 ≤ page }
        requires few { page ≤ MOST_RECORDS }
        requires few_pages { most ≤ MOST_PAGES }
        ensures call { (s : State) → S.at service.old s
            → Calls S.stretch (S.owns service.old) service.old service.new s (start_calls result) }
        ensures begun { IfOk result (λ search. HasBegun pattern page search) }
        ensures most { IfOk result (λ search. search.most ≡ most) }
        ensures memory { result ≡ Err NoMemory → service.new ≡ service.old }
        ensures worn { result ≢ Err NoMemory → WornAs (S.worn service.old) (S.worn service.new) (is_worn result) }
        ensures held { (slot version : ℕ)
            → S.holds service.new slot version ↔ (S.holds service.old slot version ⊎ IsBegun result slot version) }
        ensures apart { (slot version other : ℕ) → IsBegun result slot version → S.holds service.old slot other → ⊥ }
        ensures bounds { NotRaised (S.bounds service.old) (S.bounds service.new) }
    {
        let want = need(&pattern);
        let room = Room::reserve(alloc, workers, page, most)?;
        match service.pin() {
            Ok(Some(pin)) => Ok(Search {
                pattern,
                want,
                pin,
                from: Some(0),
                room,
            }),
            Ok(None) => Err(SearchFault::Pins),
            Err(CallFault::Worn) => Err(SearchFault::Worn),
            Err(CallFault::NoMemory) => Err(SearchFault::NoMemory),
        }
    }

    /// The next page and its hits: one fetch, then matching. After the last page no call is made, and there are no
    /// hits. After a fault the search is at the same place.
    pub fn next<R: Threads + Sync, S: Service, M: Meter>(
        &mut self,
        rt: &R,
        service: &mut S,
        meter: &M,
    ) -> Result<PageHits<'_>, SearchFault>
        requires held { S.holds service.old self.old.slot self.old.version }
        ensures call { (s : State) → S.at service.old s
            → Calls S.stretch (S.owns service.old) service.old service.new s (next_calls self.old result) }
        ensures hits { IfOk result (λ page. AreMatched (pattern_of self.old.pattern)
            (founds page.records.now) page.hits.now) }
        ensures tried { IfOk result (λ page. page.tried ≡ length page.records.now) }
        ensures* moves { sem 𝓛 (Moves self.entry result) }
        ensures ended { self.old.place ≡ End → IsEnded result × (service.new ≡ service.old) }
        ensures pins { IfErr result (λ fault. fault ≢ Pins) }
        ensures worn { self.old.place ≢ End → WornAs (S.worn service.old) (S.worn service.new) (is_worn result) }
        ensures held { SameHeld (S.holds service.old) (S.holds service.new) }
        ensures bounds { NotRaised (S.bounds service.old) (S.bounds service.new) }
    {
        let Some(from) = self.from else {
            return Ok(self.room.nothing());
        };
        let last = self.room.fetch(service, &self.pin, &self.want, from)?;
        self.room.match_page(rt, &self.pattern, meter);
        self.from = next_from(last, from, self.room.page.records());
        Ok(self.room.shown(last))
    }

    /// The next pages, up to the most that are searched together, and their hits: fetches one after another, and
    /// matching, which runs beside the fetches if there are several workers. After the last page no call is made. After
    /// a fault the pages that were fetched before it are searched all the same, and the search goes on from there.
    pub fn next_pages<R: Threads + Sync, S: Service, M: Meter>(
        &mut self,
        rt: &R,
        service: &mut S,
        meter: &M,
    ) -> BatchHits<'_>
        requires held { S.holds service.old self.old.slot self.old.version }
        ensures batch { IsBatch S.Service service.old service.new self.old result }
        ensures* moves { sem 𝓛 (MovesBehind self.entry result) }
        ensures held { SameHeld (S.holds service.old) (S.holds service.new) }
        ensures bounds { NotRaised (S.bounds service.old) (S.bounds service.new) }
    {
        let fetched = self.room.search_batch(
            rt,
            service,
            &self.pin,
            &self.want,
            self.from,
            &self.pattern,
            meter,
        );
        self.from = fetched.from;
        self.room.found(fetched)
    }

    /// The version that is searched.
    pub fn version(&self) -> u32
        ensures version { result ≡ self.now.version }
        ensures sound { IsSearch self.now }
    {
        self.pin.version
    }

    /// Gives the pin back.
    pub fn close<S: Service>(self, service: &mut S) -> Result<(), SearchFault>
        requires held { S.holds service.old self.slot self.version }
        ensures call { (s : State) → S.at service.old s
            → Calls S.stretch (S.owns service.old) service.old service.new s (close_calls self.slot result) }
        ensures only_worn { IfErr result (λ fault. fault ≡ Worn) }
        ensures worn { WornAs (S.worn service.old) (S.worn service.new) (is_worn result) }
        ensures held { (slot version : ℕ)
            → S.holds service.new slot version ↔ (S.holds service.old slot version
            × ¬ IsReturned result self.slot slot) }
        ensures bounds { NotRaised (S.bounds service.old) (S.bounds service.new) }
    {
        match service.unpin(self.pin) {
            Ok(()) => Ok(()),
            Err(CallFault::Worn) => Err(SearchFault::Worn),
            Err(CallFault::NoMemory) => Err(SearchFault::NoMemory),
        }
    }
}
