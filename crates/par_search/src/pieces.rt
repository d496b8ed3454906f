//! The pieces of a page, each matched by its worker.
ghost use Rattle.std.specs.Prelude.{◌≡◌, ◌≤◌, ◌<◌, ◌+◌, ◌++◌, ◌*◌, All, List, false, length, slice_index_or, vec_capacity};
ghost use Rattle.std.specs.Int.{div_ceil};
ghost use Rattle.smarts_parse.specs.Pattern.{PatternTerm, pattern_of};
ghost use Rattle.smarts_parse.specs.Sound.{IsSoundPattern};
ghost use Rattle.store_machine.specs.Answers.{AreMatched};
ghost use Rattle.store_machine.specs.declared.machine.Found.{Found};
ghost use Rattle.store_core.specs.Records.{founds};
ghost use Rattle.par_search.specs.Flags.{AreFlagged, AreFlags, HasSameRoom, HaveSameRoom, WorkerTerm, piece_of};
ghost use Rattle.par_search.specs.declared.pieces.TheConstants.{MOST_WORKERS};

use crate::meter::Meter;
use crate::worker::{Worker, cut};
use mol_finish::one_structure;
use smarts_parse::Pattern;
use std::sync::Arc;
use std::thread;
use std::thread::Threads;
use store_core::Record;

/// The most workers of a search.
pub const MOST_WORKERS: usize = 16;

/// Matches records. They are cut into pieces of one size, one for each worker, the last ones shorter or empty. Each is
/// matched in a thread of its own, if one can be made. The meter is called for each piece that has records. Takes no
/// memory.
pub fn match_pieces<R: Threads + Sync, M: Meter>(
    rt: &R,
    records: &[Arc<Record>],
    pattern: &Pattern,
    workers: &mut [Worker],
    meter: &M,
)
    requires some { 1 ≤ length workers.old }
    requires few { length workers.old ≤ MOST_WORKERS }
    requires room { All (λ (w : WorkerTerm). div_ceil (length records.now) (length workers.old) ≤ w.room) workers.old }
    requires sound { IsSoundPattern (pattern_of pattern.now) }
    ensures flags { AreFlagged (pattern_of pattern.now) records.now workers.new }
    ensures same { HaveSameRoom workers.old workers.new }
{
    let threads = workers.len();
    let size = records.len().div_ceil(threads);
    thread::for_each_mut(
        rt,
        workers,
        threads,
        &|number: usize, worker: &mut Worker|
            requires number { number < 16 }
            requires room { size ≤ worker.old.room }
            requires sound { IsSoundPattern (pattern_of pattern.now) }
            ensures flags { AreFlags (pattern_of pattern.entry.now) (piece_of size number records.entry.now)
                worker.new.flags }
            ensures same { HasSameRoom worker.old worker.new }
        { match_piece(records, size, number, pattern, worker, meter) },
    );
}

// Matches one piece by its worker.
fn match_piece<M: Meter>(
    records: &[Arc<Record>],
    size: usize,
    number: usize,
    pattern: &Pattern,
    worker: &mut Worker,
    meter: &M,
)
    requires number { number < 16 }
    requires room { size ≤ worker.old.room }
    requires sound { IsSoundPattern (pattern_of pattern.now) }
    ensures flags { AreFlags (pattern_of pattern.now) (piece_of size number records.now) worker.new.flags }
    ensures same { HasSameRoom worker.old worker.new }
{
    let piece = piece_at(records, size, number);
    if !piece.is_empty() {
        meter.begin(number as u32);
    }
    worker.mark(piece, pattern);
}

// The items of one piece.
fn piece_at<T>(items: &[T], size: usize, number: usize) -> &[T]
    ensures { result.now ≡ piece_of size number items.now }
{
    let start = number.saturating_mul(size).min(items.len());
    let end = start + size.min(items.len() - start);
    &items[start..end]
}

/// The identifiers of the records that are flagged, in order.
pub fn list_hits(records: &[Arc<Record>], workers: &[Worker], hits: &mut Vec<u32>)
    requires some { 1 ≤ length workers.now }
    requires room { length records.now ≤ vec_capacity hits.old }
    ensures matched { (pattern : PatternTerm) → AreFlagged pattern records.now workers.now
        → AreMatched pattern (founds records.now) hits.new.items }
    ensures capacity { vec_capacity hits.new ≡ vec_capacity hits.old }
{
    hits.clear();
    let size = records.len().div_ceil(workers.len());
    let mut rest = records;
    for worker in workers {
        let (piece, behind) = cut(rest, size);
        list_piece(piece, worker.flags(), hits);
        rest = behind;
    }
}

// Appends those of a piece.
fn list_piece(piece: &[Arc<Record>], flags: &[bool], hits: &mut Vec<u32>)
    requires room { length hits.old.items + length piece.now ≤ vec_capacity hits.old }
    ensures matched { (pattern : PatternTerm) (before : List Found) → AreFlags pattern piece.now flags.now
        → AreMatched pattern before hits.old.items → AreMatched pattern (before ++ founds piece.now) hits.new.items }
    ensures few { length hits.new.items ≤ length hits.old.items + length piece.now }
    ensures capacity { vec_capacity hits.new ≡ vec_capacity hits.old }
{
    one_structure();
    for (place, record) in piece.iter().enumerate() {
        let id = record.id();
        if is_set(flags, place) {
            hits.push_reserved(id);
        }
    }
}

// The flag at a place; false after the last one.
fn is_set(flags: &[bool], place: usize) -> bool
    ensures { result ≡ slice_index_or flags.now place false }
{
    match flags.get(place) {
        Some(flag) => *flag,
        None => false,
    }
}
