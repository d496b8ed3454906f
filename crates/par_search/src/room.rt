//! The memory of a search: a page, a batch of pages, workers, and the hits.
ghost use Rattle.std.specs.Prelude.{◌≡◌, ◌≤◌, ◌<◌, [], All, IfOk, IfSome, OnErr, length, take, true, vec_len};
ghost use Rattle.std.specs.Arc.{arc_value};
ghost use Rattle.std.specs.Int.{div_ceil};
ghost use Rattle.smarts_parse.specs.Pattern.{pattern_of};
ghost use Rattle.smarts_parse.specs.Sound.{IsSoundPattern};
ghost use Rattle.store_machine.specs.Answers.{AreMatched};
ghost use Rattle.store_machine.specs.History.{IsId};
ghost use Rattle.store_machine.specs.declared.machine.State.{State};
ghost use Rattle.store_core.specs.Calls.{Calls, NotRaised, SameHeld, WornAs, is_worn};
ghost use Rattle.store_core.specs.Records.{Shared, founds};
ghost use Rattle.store_core.specs.Replies.{fetch_calls};
ghost use Rattle.par_search.specs.Rooms.{HasNothing, IsRoom, SameRoom};
ghost use Rattle.par_search.specs.Searches.{place_of};
ghost use Rattle.par_search.specs.Shares.{HasFetched, records_in};
ghost use Rattle.par_search.specs.declared.batch.TheConstants.{MOST_PAGES};
ghost use Rattle.par_search.specs.declared.pieces.TheConstants.{MOST_WORKERS};
ghost use Rattle.par_search.specs.declared.worker.TheConstants.{MOST_RECORDS};

use crate::batch::{BatchHits, Fetched};
use crate::calls::fetch;
use crate::groups::Task;
use crate::meter::Meter;
use crate::pieces::{list_hits, match_pieces};
use crate::worker::{MOST_RECORDS, Worker};
use chem_core::Print;
use smarts_parse::Pattern;
use snap_registry::Pin;
use std::alloc::{AllocError, Global};
use std::sync::Arc;
use std::thread::Threads;
use store_core::{CallFault, Page, Record, Service};

/// The hits of a page: the page's records, the identifiers of those that the pattern matches, in order, the number of
/// records tried, and whether no page follows.
#[derive(Drop)]
pub struct PageHits<'a> {
    pub records: &'a [Arc<Record>],
    pub hits: &'a [u32],
    pub tried: u32,
    pub last: bool,
}

/// Room for a page of `size` records, for a batch of pages that are searched together, and for matching them.
#[derive(Drop)]
pub struct Room {
    pub size: u32,
    pub page: Page,
    pub batch: Vec<Page>,
    pub workers: Vec<Worker>,
    pub hits: Vec<u32>,
}

impl Room {
    /// Takes the memory for `workers` workers, for pages of `size` records, and for batches of at most `most` pages.
    pub fn reserve(alloc: Global, workers: u32, size: u32, most: u32) -> Result<Room, AllocError>
        requires some_workers { 1 ≤ workers }
        requires few_workers { workers ≤ MOST_WORKERS }
        requires some { 1 ≤ size }
        requires few { size ≤ MOST_RECORDS }
        requires few_pages { most ≤ MOST_PAGES }
        ensures room { IfOk result (λ room. IsRoom room) }
        ensures size { IfOk result (λ room. room.size ≡ size) }
        ensures most { IfOk result (λ room. vec_len room.batch ≡ most) }
    {
        let share = 2 * (most * MOST_RECORDS).div_ceil(workers) as usize;
        Ok(Room {
            size,
            page: Page::reserve(alloc, size)?,
            batch: reserve_pages(alloc, most, size)?,
            workers: reserve_workers(alloc, workers, size.div_ceil(workers), share)?,
            hits: Vec::with_capacity(alloc, size.max(most * MOST_RECORDS) as usize)?,
        })
    }

    /// The next page, from an identifier on.
    pub fn fetch<S: Service>(
        &mut self,
        service: &mut S,
        pin: &Pin,
        want: &Print,
        from: u32,
    ) -> Result<bool, CallFault>
        requires held { S.holds service.old pin.now.slot pin.now.version }
        requires room { IsRoom self.old }
        ensures call { (s : State) → S.at service.old s
            → Calls S.stretch (S.owns service.old) service.old service.new s
            (fetch_calls pin.now.slot want.now from self.old.size self.new.page.records result) }
        ensures few { length self.new.page.records ≤ self.old.size }
        ensures in_range { All (λ (r : Shared). IsId (arc_value r).id) self.new.page.records }
        ensures room { SameRoom self.old self.new }
        ensures worn { WornAs (S.worn service.old) (S.worn service.new) (is_worn result) }
        ensures held { SameHeld (S.holds service.old) (S.holds service.new) }
        ensures bounds { NotRaised (S.bounds service.old) (S.bounds service.new) }
    {
        fetch(service, pin, want, from, self.size, &mut self.page)
    }

    /// Matches the page's records.
    pub fn match_page<R: Threads + Sync, M: Meter>(&mut self, rt: &R, pattern: &Pattern, meter: &M)
        requires room { IsRoom self.old }
        requires few { length self.old.page.records ≤ self.old.size }
        requires sound { IsSoundPattern (pattern_of pattern.now) }
        ensures matched { AreMatched (pattern_of pattern.now) (founds self.new.page.records) self.new.hits.items }
        ensures page { self.new.page ≡ self.old.page }
        ensures room { SameRoom self.old self.new }
    {
        match_pieces(rt, self.page.records(), pattern, &mut self.workers, meter);
        list_hits(self.page.records(), &self.workers, &mut self.hits);
    }

    /// Fetches pages into the batch, one after another, and finds the hits of their records.
    pub fn search_batch<R: Threads + Sync, S: Service, M: Meter>(
        &mut self,
        rt: &R,
        service: &mut S,
        pin: &Pin,
        want: &Print,
        from: Option<u32>,
        pattern: &Pattern,
        meter: &M,
    ) -> Fetched
        requires held { S.holds service.old pin.now.slot pin.now.version }
        requires room { IsRoom self.old }
        requires from { IfSome from (λ n. n ≤ 1000000000) }
        requires sound { IsSoundPattern (pattern_of pattern.now) }
        ensures fetched { HasFetched S.Service service.old service.new pin.now.slot self.old.size want.now
            (place_of from) self.new.batch.items result }
        ensures matched { AreMatched (pattern_of pattern.now)
            (founds (records_in (take result.count self.new.batch.items))) self.new.hits.items }
        ensures room { SameRoom self.old self.new }
    {
        let task = Task {
            rt,
            pin,
            want,
            size: self.size,
            pattern,
            meter,
        };
        task.search(
            from,
            service,
            &mut self.batch,
            &mut self.workers,
            &mut self.hits,
        )
    }

    /// The hits in the pages that were fetched.
    pub fn found(&self, fetched: Fetched) -> BatchHits<'_>
        ensures hits { result.hits.now ≡ self.now.hits.items }
        ensures tried { result.tried ≡ fetched.tried }
        ensures from { result.from ≡ fetched.from }
        ensures fault { result.fault ≡ fetched.fault }
    {
        BatchHits {
            hits: &self.hits,
            tried: fetched.tried,
            from: fetched.from,
            fault: fetched.fault,
        }
    }

    /// The page and its hits.
    pub fn shown(&self, last: bool) -> PageHits<'_>
        requires room { IsRoom self.now }
        requires few { length self.now.page.records ≤ self.now.size }
        ensures records { result.records.now ≡ self.now.page.records }
        ensures hits { result.hits.now ≡ self.now.hits.items }
        ensures tried { result.tried ≡ length self.now.page.records }
        ensures last { result.last ≡ last }
    {
        let records = self.page.records();
        PageHits {
            records,
            hits: &self.hits,
            tried: records.len() as u32,
            last,
        }
    }

    /// No records, after the last page.
    pub fn nothing(&self) -> PageHits<'_>
        ensures { HasNothing result }
    {
        PageHits {
            records: &self.page.records()[..0],
            hits: &self.hits[..0],
            tried: 0,
            last: true,
        }
    }
}

// `number` workers, each for pieces and for shares of these sizes.
fn reserve_workers(
    alloc: Global,
    number: u32,
    piece: u32,
    share: usize,
) -> Result<Vec<Worker>, AllocError>
    requires some { 1 ≤ piece }
    requires few { piece ≤ MOST_RECORDS }
    ensures number { IfOk result (λ workers. vec_len workers ≡ number) }
    ensures room { IfOk result (λ workers. All (λ w. piece ≤ w.room) workers.items) }
    ensures share { IfOk result (λ workers. All (λ w. share ≤ w.share) workers.items) }
{
    let mut workers = Vec::with_capacity(alloc, number as usize)?;
    for _place in 0..number {
        workers.push(Worker::reserve_for(alloc, piece, share)?)?;
    }
    Ok(workers)
}

// `number` pages of this size.
fn reserve_pages(alloc: Global, number: u32, size: u32) -> Result<Vec<Page>, AllocError>
    requires some { 1 ≤ size }
    requires few { size ≤ MOST_RECORDS }
    ensures number { IfOk result (λ pages. vec_len pages ≡ number) }
    ensures room { IfOk result (λ pages. All (λ p. size ≤ p.room) pages.items) }
{
    let mut pages = Vec::with_capacity(alloc, number as usize)?;
    for _place in 0..number {
        pages.push(Page::reserve(alloc, size)?)?;
    }
    Ok(pages)
}
