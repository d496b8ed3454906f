//! The shares of pages that are searched together, each by its worker: records one after another, from one page or from
//! several.
ghost use Rattle.std.specs.Prelude.{◌≡◌, ◌≤◌, ◌<◌, ◌↔◌, ◌+◌, ◌*◌, ◌++◌, All, IsTrue, length, vec_capacity};
ghost use Rattle.std.specs.Int.{div_ceil};
ghost use Rattle.smarts_parse.specs.Pattern.{pattern_of};
ghost use Rattle.smarts_parse.specs.Sound.{IsSoundPattern};
ghost use Rattle.store_machine.specs.Answers.{AreMatched};
ghost use Rattle.store_core.specs.Records.{founds};
ghost use Rattle.par_search.specs.Flags.{HasSameRoom, HaveSameRoom, WorkerTerm, piece_of};
ghost use Rattle.par_search.specs.Groups.{CanMatch, HasMatched};
ghost use Rattle.par_search.specs.Shares.{AreFoundFrom, hits_in, records_in};
ghost use Rattle.par_search.specs.declared.find.TheConstants.{LEAST_SHARE};
ghost use Rattle.par_search.specs.declared.pieces.TheConstants.{MOST_WORKERS};

use crate::meter::Meter;
use crate::worker::Worker;
use smarts_parse::Pattern;
use std::thread;
use std::thread::Threads;
use store_core::Page;

// The fewest records of a share that has a thread of its own. Making a thread takes about as long as matching a hundred
// records.
const LEAST_SHARE: u32 = 64;

/// The number of leading shares of `size` records that have threads of their own, if each worker has a share. It is all
/// but the last, or 0 if a thread would cost more than it saves.
pub fn threads_beside(size: u32, workers: usize) -> usize
    requires { 1 ≤ workers }
    ensures large { LEAST_SHARE ≤ size → result + 1 ≡ workers }
    ensures small { size < LEAST_SHARE → result ≡ 0 }
{
    if size < LEAST_SHARE { 0 } else { workers - 1 }
}

/// Searches pages of `total` records together, and appends their hits.
pub fn match_pages<R: Threads + Sync, M: Meter>(
    rt: &R,
    pages: &[Page],
    total: u32,
    pattern: &Pattern,
    meter: &M,
    workers: &mut [Worker],
    hits: &mut Vec<u32>,
)
    requires can_match { CanMatch (pattern_of pattern.now) pages.now total workers.old
        hits.old.items (vec_capacity hits.old) }
    ensures { HasMatched (pattern_of pattern.now) pages.now workers.old workers.new
        hits.old.items hits.new.items (vec_capacity hits.old) (vec_capacity hits.new) }
{
    let size = total.div_ceil(workers.len() as u32);
    let shares = Shares {
        pages,
        total,
        size,
        apart: threads_beside(size, workers.len()),
        pattern,
        meter,
    };
    let mut nothing = || {};
    shares.match_beside(rt, workers, hits, &mut nothing);
}

/// Pages that are searched in shares: of their `total` records, one after another, each share has `size`, the last ones
/// fewer or 0. The meter is called for each share that has records, before it is searched.
#[derive(Drop)]
pub struct Shares<'a, M> {
    pub pages: &'a [Page],
    pub total: u32,
    pub size: u32,
    /// The number of leading shares that are searched in threads of their own, if they have records.
    pub apart: usize,
    pub pattern: &'a Pattern,
    pub meter: &'a M,
}

impl<M: Meter> Shares<'_, M> {
    /// Searches all shares while this thread does something else, and appends their hits.
    pub fn match_beside<R: Threads + Sync, B, G: FnMut() -> B>(
        &self,
        rt: &R,
        workers: &mut [Worker],
        hits: &mut Vec<u32>,
        other: &mut G,
    ) -> B
        requires all { div_ceil self.now.total (length workers.old) ≤ self.now.size }
        requires few { self.now.size ≤ 2 * div_ceil self.now.total (length workers.old) }
        requires can_match { CanMatch (pattern_of self.now.pattern.now) self.now.pages.now
            self.now.total workers.old hits.old.items (vec_capacity hits.old) }
        requires other { G.pre other.old }
        ensures matched { HasMatched (pattern_of self.now.pattern.now) self.now.pages.now
            workers.old workers.new hits.old.items hits.new.items
            (vec_capacity hits.old) (vec_capacity hits.new) }
        ensures other { G.step other.old result other.new }
    {
        let done = self.find_beside(rt, 0, workers, other);
        add_all_hits(workers, hits);
        done
    }

    /// Searches the shares from `number` on, in threads of their own if they can be made, while this thread does
    /// something else. It starts the others one after another: two that are started at the same time may be given to
    /// one processor.
    #[cycle(beside)]
    pub fn find_beside<R: Threads + Sync, B, G: FnMut() -> B>(
        &self,
        rt: &R,
        number: usize,
        workers: &mut [Worker],
        other: &mut G,
    ) -> B
        requires few { number + length workers.old ≤ MOST_WORKERS }
        requires room { All (λ (w : WorkerTerm). self.now.size ≤ w.share) workers.old }
        requires sound { IsSoundPattern (pattern_of self.now.pattern.now) }
        requires other { G.pre other.old }
        ensures found { AreFoundFrom (pattern_of self.now.pattern.now) self.now.size number
            (records_in self.now.pages.now) workers.new }
        ensures same { HaveSameRoom workers.old workers.new }
        ensures other { G.step other.old result other.new }
    {
        let Some((worker, rest)) = workers.split_first_mut() else {
            return other();
        };
        if self.is_apart(number) {
            return self.find_one_beside(rt, number, worker, rest, other);
        }
        self.find(number, worker);
        self.find_beside(rt, number + 1, rest, other)
    }

    // True if a share is searched in a thread of its own: a leading one that has records.
    fn is_apart(&self, number: usize) -> bool
        requires number { number < 16 }
        ensures { IsTrue result ↔ ((number < self.now.apart) × (number * self.now.size < self.now.total)) }
    {
        number < self.apart && number * (self.size as usize) < self.total as usize
    }

    // As `find_beside`, for the first of these shares and the rest.
    #[cycle(beside)]
    fn find_one_beside<R: Threads + Sync, B, G: FnMut() -> B>(
        &self,
        rt: &R,
        number: usize,
        worker: &mut Worker,
        rest: &mut [Worker],
        other: &mut G,
    ) -> B
        requires few { number + length rest.old < MOST_WORKERS }
        requires share { self.now.size ≤ worker.old.share }
        requires room { All (λ (w : WorkerTerm). self.now.size ≤ w.share) rest.old }
        requires sound { IsSoundPattern (pattern_of self.now.pattern.now) }
        requires other { G.pre other.old }
        ensures found { AreMatched (pattern_of self.now.pattern.now)
            (founds (piece_of self.now.size number (records_in self.now.pages.now))) worker.new.hits }
        ensures same { HasSameRoom worker.old worker.new }
        ensures rest { AreFoundFrom (pattern_of self.now.pattern.now) self.now.size (number + 1)
            (records_in self.now.pages.now) rest.new }
        ensures rest_same { HaveSameRoom rest.old rest.new }
        ensures other { G.step other.old result other.new }
    {
        let mut share = ||
            requires number { number < 16 }
            requires share { self.now.size ≤ worker.now.share }
            requires sound { IsSoundPattern (pattern_of self.now.pattern.now) }
            ensures found { AreMatched (pattern_of self.entry.now.pattern.now)
                (founds (piece_of self.entry.now.size number (records_in self.entry.now.pages.now)))
                worker.exit.now.hits }
            ensures same { HasSameRoom worker.entry.now worker.exit.now }
        { self.find(number, worker) };
        let mut behind = || -> B
            requires few { number + 1 + length rest.now ≤ MOST_WORKERS }
            requires room { All (λ (w : WorkerTerm). self.now.size ≤ w.share) rest.now }
            requires sound { IsSoundPattern (pattern_of self.now.pattern.now) }
            requires other { G.pre other.now }
            ensures found { AreFoundFrom (pattern_of self.entry.now.pattern.now) self.entry.now.size (number + 1)
                (records_in self.entry.now.pages.now) rest.exit.now }
            ensures same { HaveSameRoom rest.entry.now rest.exit.now }
            ensures other { G.step other.entry.now result other.exit.now }
        { self.find_beside(rt, number + 1, rest, other) };
        let (_, done) = thread::join_mut(rt, &mut share, &mut behind);
        done
    }

    // Searches one share by its worker.
    fn find(&self, number: usize, worker: &mut Worker)
        requires number { number < 16 }
        requires share { self.now.size ≤ worker.old.share }
        requires sound { IsSoundPattern (pattern_of self.now.pattern.now) }
        ensures found { AreMatched (pattern_of self.now.pattern.now)
            (founds (piece_of self.now.size number (records_in self.now.pages.now))) worker.new.hits }
        ensures same { HasSameRoom worker.old worker.new }
    {
        let start = number * self.size as usize;
        if start < self.total as usize {
            self.meter.begin(number as u32);
        }
        worker.find(self.pages, start, self.size as usize, self.pattern);
    }
}

/// Appends the hits of all shares, in order.
pub fn add_all_hits(workers: &[Worker], hits: &mut Vec<u32>)
    requires room { length hits.old.items + length (hits_in workers.now) ≤ vec_capacity hits.old }
    ensures hits { hits.new.items ≡ hits.old.items ++ hits_in workers.now }
    ensures capacity { vec_capacity hits.new ≡ vec_capacity hits.old }
{
    for worker in workers {
        add_hits(worker.hits(), hits);
    }
}

// Appends the hits of one share.
fn add_hits(found: &[u32], hits: &mut Vec<u32>)
    requires room { length hits.old.items + length found.now ≤ vec_capacity hits.old }
    ensures hits { hits.new.items ≡ hits.old.items ++ found.now }
    ensures capacity { vec_capacity hits.new ≡ vec_capacity hits.old }
{
    for id in found {
        hits.push_reserved(*id);
    }
}
