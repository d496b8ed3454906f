//! A worker: memory for matching, and for each record of its piece whether the pattern matches it, or the hits of its
//! share of the records of pages.
ghost use Rattle.std.specs.Prelude.{◌≡◌, ◌≤◌, ◌+◌, ◌++◌, [], IfOk, List, drop, length, take, vec_capacity};
ghost use Rattle.matcher.specs.Prepared.{IsPreparedFor};
ghost use Rattle.smarts_parse.specs.Pattern.{pattern_of};
ghost use Rattle.smarts_parse.specs.Sound.{IsSoundPattern};
ghost use Rattle.store_core.specs.Records.{founds};
ghost use Rattle.store_machine.specs.Answers.{AreMatched};
ghost use Rattle.store_machine.specs.declared.machine.Found.{Found};
ghost use Rattle.par_search.specs.Flags.{AreFlags, HasSameRoom};
ghost use Rattle.par_search.specs.Shares.{records_in};
ghost use Rattle.par_search.specs.declared.worker.TheConstants.{MOST_RECORDS};

use matcher::Scratch;
use mol_finish::one_structure;
use smarts_parse::Pattern;
use std::alloc::{AllocError, Global};
use std::marker::Model;
use std::sync::Arc;
use store_core::{Page, Record};

/// The most records of a page.
pub const MOST_RECORDS: u32 = 256;

/// Memory for matching the records of one piece, or of one share. Contracts see its flags and its hits, and the room
/// for each.
#[derive(Drop)]
pub struct Worker {
    scratch: Scratch,
    flags: Vec<bool>,
    hits: Vec<u32>,
}

impl Model for Worker {
    ghost use Rattle.std.specs.Prelude.{vec_capacity};
    ghost use Rattle.par_search.specs.Flags.{WorkerTerm};

    ghost Value = { WorkerTerm };

    ghost view = { λ w. record {
      flags = w.flags.items;
      room = vec_capacity w.flags;
      hits = w.hits.items;
      share = vec_capacity w.hits;
    } };
}

impl Worker {
    /// A worker for pieces of `piece` records, 1 to 256. It has no flags yet.
    pub fn reserve(alloc: Global, piece: u32) -> Result<Worker, AllocError>
        requires some { 1 ≤ piece }
        requires few { piece ≤ MOST_RECORDS }
        ensures empty { IfOk result (λ worker. worker.flags ≡ []) }
        ensures room { IfOk result (λ worker. piece ≤ worker.room) }
    {
        Worker::reserve_for(alloc, piece, 0)
    }

    // As `reserve`, but for shares of `share` records as well.
    pub(crate) fn reserve_for(alloc: Global, piece: u32, share: usize) -> Result<Worker, AllocError>
        requires some { 1 ≤ piece }
        requires few { piece ≤ MOST_RECORDS }
        ensures empty { IfOk result (λ worker. worker.flags ≡ []) }
        ensures room { IfOk result (λ worker. piece ≤ worker.room) }
        ensures share { IfOk result (λ worker. share ≤ worker.share) }
    {
        let scratch = Scratch::reserve(alloc)?;
        let flags = Vec::with_capacity(alloc, piece as usize)?;
        let hits = Vec::with_capacity(alloc, share)?;
        Ok(Worker {
            scratch,
            flags,
            hits,
        })
    }

    /// For each record of its last piece, in order, true if the pattern matches it.
    pub fn flags(&self) -> &[bool]
        ensures { result.now ≡ self.now.flags }
    {
        self.flags.as_slice()
    }

    // The identifiers of the records of its last share that the pattern matches, in order.
    pub(crate) fn hits(&self) -> &[u32]
        ensures { result.now ≡ self.now.hits }
    {
        self.hits.as_slice()
    }

    // Matches the records of a piece. Takes no memory.
    pub(crate) fn mark(&mut self, piece: &[Arc<Record>], pattern: &Pattern)
        requires sound { IsSoundPattern (pattern_of pattern.now) }
        requires room { length piece.now ≤ self.old.room }
        ensures flags { AreFlags (pattern_of pattern.now) piece.now self.new.flags }
        ensures same { HasSameRoom self.old self.new }
    {
        self.scratch.prepare(pattern);
        self.flags.clear();
        for record in piece {
            let flag = self.scratch.has(pattern, record.mol());
            self.flags.push_reserved(flag);
        }
    }

    // Finds the hits of a share: of `count` records of these pages, from record `start` on. Takes no memory.
    pub(crate) fn find(&mut self, pages: &[Page], start: usize, count: usize, pattern: &Pattern)
        requires sound { IsSoundPattern (pattern_of pattern.now) }
        requires room { count ≤ self.old.share }
        ensures found { AreMatched (pattern_of pattern.now) (founds (take count (drop start (records_in pages.now))))
            self.new.hits }
        ensures same { HasSameRoom self.old self.new }
    {
        self.scratch.prepare(pattern);
        self.hits.clear();
        let mut skip = start;
        let mut left = count;
        for page in pages {
            let (passed, behind) = cut(page.records(), skip);
            let (part, _) = cut(behind, left);
            skip -= passed.len();
            left -= part.len();
            find_in(&mut self.scratch, part, pattern, &mut self.hits);
        }
    }
}

// The first piece of this size, and the records after it.
pub(crate) fn cut(records: &[Arc<Record>], size: usize) -> (&[Arc<Record>], &[Arc<Record>])
    ensures piece { result.0.now ≡ take size records.now }
    ensures behind { result.1.now ≡ drop size records.now }
{
    let end = size.min(records.len());
    (&records[..end], &records[end..])
}

// Appends the identifiers of the records that the pattern matches.
fn find_in(scratch: &mut Scratch, records: &[Arc<Record>], pattern: &Pattern, hits: &mut Vec<u32>)
    requires sound { IsSoundPattern (pattern_of pattern.now) }
    requires prepared { IsPreparedFor (pattern_of pattern.now) scratch.old }
    requires room { length hits.old.items + length records.now ≤ vec_capacity hits.old }
    ensures prepared { IsPreparedFor (pattern_of pattern.now) scratch.new }
    ensures matched { (before : List Found) → AreMatched (pattern_of pattern.now) before hits.old.items
        → AreMatched (pattern_of pattern.now) (before ++ founds records.now) hits.new.items }
    ensures few { length hits.new.items ≤ length hits.old.items + length records.now }
    ensures capacity { vec_capacity hits.new ≡ vec_capacity hits.old }
{
    one_structure();
    for record in records {
        let id = record.id();
        if scratch.has(pattern, record.mol()) {
            hits.push_reserved(id);
        }
    }
}
