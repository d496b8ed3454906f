//! A search over a store, and least embeddings.
ghost use Rattle.std.specs.Prelude.{◌≤◌};
ghost use Rattle.store_core.specs.Stored.{HoldsPin};

use crate::tests::store_of;
use matcher::{Scratch, first};
use mol_finish::Format;
use par_search::{Meter, NoMeter, Search};
use smarts_parse::parse;
use std::alloc::{AllocError, Global};
use std::sync::atomic::{AtomicU32, Ordering};
use std::test::Fail;
use std::thread;
use std::thread::Threads;
use store_core::{Change, Record, Service, Store};

// True if the next page has these hits, `tried` records were tried, and `last` says whether it is the last.
fn is_next<R: Threads + Sync, M: Meter>(
    rt: &R,
    store: &mut Store,
    search: &mut Search,
    meter: &M,
    hits: &[u32],
    tried: u32,
    last: bool,
) -> bool
    requires { HoldsPin store.old search.old.slot search.old.version }
    ensures { HoldsPin store.new search.new.slot search.new.version }
{
    match search.next(rt, store, meter) {
        Ok(page) => page.hits == hits && page.tried == tried && page.last == last,
        Err(_) => false,
    }
}

// Pentane has each path of hexane of up to five atoms: it is tried, but no hit.
#[test]
fn three_records_come_by_pages_of_two(rt: HostRuntime) -> Result<(), Fail> {
    let alloc = rt.alloc();
    let mut store = store_of(alloc, &[b"CCCCCC", b"CCCCC", b"OCCCCCC"])?;
    let pattern = parse(alloc, b"CCCCCC")?;
    let Ok(mut search) = Search::start(alloc, &mut store, pattern, 2, 2) else {
        return Err(Fail::new("not begun"));
    };
    assert_eq!(rt; search.version(), 3);
    assert!(rt; is_next(&rt, &mut store, &mut search, &NoMeter, &[1], 2, false));
    assert!(rt; is_next(&rt, &mut store, &mut search, &NoMeter, &[3], 1, true));
    assert!(rt; is_next(&rt, &mut store, &mut search, &NoMeter, &[], 0, true));
    assert!(rt; search.close(&mut store).is_ok());
    Ok(())
}

// Appends the hits of the next pages. Returns the identifier from which the search goes on, and the number of records
// tried.
fn add_next<R: Threads + Sync, M: Meter>(
    rt: &R,
    store: &mut Store,
    search: &mut Search,
    meter: &M,
    all: &mut Vec<u32>,
) -> Result<(Option<u32>, u32), AllocError>
    requires { HoldsPin store.old search.old.slot search.old.version }
    ensures { HoldsPin store.new search.new.slot search.new.version }
{
    let batch = search.next_pages(rt, store, meter);
    if batch.fault.is_some() {
        return Err(AllocError);
    }
    all.extend_from_slice(batch.hits)?;
    Ok((batch.from, batch.tried))
}

// Forty alkanes, of which each third is hexane.
fn alkanes(alloc: Global) -> Result<Store, Fail> {
    let mut texts: [&[u8]; 40] = [b"CCCCC"; 40];
    for third in 1..14 {
        texts[3 * third - 1] = b"CCCCCC";
    }
    store_of(alloc, &texts)
}

// True if the steps of a search for hexane are these, and the hits are each third record.
fn has_thirds<R: Threads + Sync>(
    rt: &R,
    alloc: Global,
    store: &mut Store,
    workers: u32,
    page: u32,
    steps: &[(Option<u32>, u32)],
) -> Result<bool, Fail>
    requires some { 1 ≤ workers }
    requires few { workers ≤ 16 }
    requires some_records { 1 ≤ page }
    requires few_records { page ≤ 256 }
{
    let pattern = parse(alloc, b"CCCCCC")?;
    let Ok(mut search) = Search::start_batched(alloc, store, pattern, workers, page, 32) else {
        return Err(Fail::new("not begun"));
    };
    let mut all = Vec::new(alloc);
    let mut are_told = true;
    for step in steps {
        are_told &= add_next(rt, store, &mut search, &NoMeter, &mut all)? == *step;
    }
    search.close(store)?;
    let thirds = [3, 6, 9, 12, 15, 18, 21, 24, 27, 30, 33, 36, 39];
    Ok(are_told && all.as_slice() == thirds.as_slice())
}

const BATCHES: &[(u32, u32, &[(Option<u32>, u32)])] = &[
    (1, 1, &[(Some(33), 32), (None, 8), (None, 0)]),
    (4, 1, &[(Some(33), 32), (None, 8), (None, 0)]),
    (16, 1, &[(Some(33), 32), (None, 8), (None, 0)]),
    (3, 2, &[(None, 40), (None, 0)]),
    (1, 256, &[(None, 40), (None, 0)]),
    (4, 256, &[(None, 40), (None, 0)]),
];

// Several workers take 32 pages of one record in four groups; twenty pages of two records end within the fourth group,
// and one page of 256 has all.
#[test]
fn batches_have_the_hits_of_their_pages(rt: HostRuntime) -> Result<(), Fail> {
    let mut store = alkanes(rt.alloc())?;
    for &(workers, page, steps) in BATCHES {
        assert!(rt;
            has_thirds(&rt, rt.alloc(), &mut store, workers, page, steps)?,
            "{workers} workers, pages of {page}"
        );
    }
    Ok(())
}

// Holds each piece until two have begun, up to a limit.
#[derive(Drop)]
struct Meeting {
    begun: AtomicU32,
    alone: AtomicU32,
}

impl Meter for Meeting {
    fn begin(&self, _piece: u32) {
        self.begun.fetch_add(1, Ordering::SeqCst);
        for _turn in 0..10_000_000 {
            if self.begun.load(Ordering::SeqCst) >= 2 {
                return;
            }
            thread::yield_now();
        }
        self.alone.fetch_add(1, Ordering::SeqCst);
    }
}

#[test]
fn two_pieces_are_matched_at_once(rt: HostRuntime) -> Result<(), Fail> {
    let alloc = rt.alloc();
    let mut store = store_of(alloc, &[b"C", b"CC"])?;
    let pattern = parse(alloc, b"C")?;
    let meeting = Meeting {
        begun: AtomicU32::new(0),
        alone: AtomicU32::new(0),
    };
    let Ok(mut search) = Search::start(alloc, &mut store, pattern, 2, 2) else {
        return Err(Fail::new("not begun"));
    };
    assert!(rt; is_next(&rt, &mut store, &mut search, &meeting, &[1, 2], 2, true));
    assert_eq!(rt; meeting.alone.load(Ordering::SeqCst), 0);
    assert!(rt; search.close(&mut store).is_ok());
    Ok(())
}

// Holds the first piece of each group until another piece of the group has begun, up to a limit.
#[derive(Drop)]
struct Groups {
    // the number of pieces of a group besides its first
    others: u32,
    firsts_begun: AtomicU32,
    others_begun: AtomicU32,
    alone: AtomicU32,
}

impl Meter for Groups {
    fn begin(&self, piece: u32) {
        if piece > 0 {
            self.others_begun.fetch_add(1, Ordering::SeqCst);
            return;
        }
        let before = self.firsts_begun.fetch_add(1, Ordering::SeqCst);
        for _turn in 0..10_000_000 {
            if self.others_begun.load(Ordering::SeqCst) > before.saturating_mul(self.others) {
                return;
            }
            thread::yield_now();
        }
        self.alone.fetch_add(1, Ordering::SeqCst);
    }
}

// For a search for methane by `workers` workers in pages of 48: the number of records tried, of groups, and of groups
// that were matched in one thread.
fn groups_of<R: Threads + Sync>(
    rt: &R,
    alloc: Global,
    store: &mut Store,
    workers: u32,
) -> Result<(u32, u32, u32), Fail>
    requires some { 2 ≤ workers }
    requires few { workers ≤ 16 }
{
    let groups = Groups {
        others: workers - 1,
        firsts_begun: AtomicU32::new(0),
        others_begun: AtomicU32::new(0),
        alone: AtomicU32::new(0),
    };
    let pattern = parse(alloc, b"C")?;
    let Ok(mut search) = Search::start_batched(alloc, store, pattern, workers, 48, 32) else {
        return Err(Fail::new("not begun"));
    };
    let mut all = Vec::new(alloc);
    let (_, tried) = add_next(rt, store, &mut search, &groups, &mut all)?;
    search.close(store)?;
    Ok((
        tried,
        groups.firsts_begun.load(Ordering::SeqCst),
        groups.alone.load(Ordering::SeqCst),
    ))
}

const SEVERAL: &[u32] = &[2, 3];

// Eight pages are matched in two groups of 192 records, each in a piece for each worker.
#[test]
fn the_pieces_of_a_group_are_matched_at_once(rt: HostRuntime) -> Result<(), Fail> {
    let methanes: [&[u8]; 384] = [b"C"; 384];
    let mut store = store_of(rt.alloc(), &methanes)?;
    for &workers in SEVERAL {
        assert_eq!(rt;
            groups_of(&rt, rt.alloc(), &mut store, workers)?,
            (384, 2, 0),
            "{workers} workers"
        );
    }
    Ok(())
}

const EMBEDDINGS: &[(&str, Option<&[u16]>)] = &[
    ("CC", Some(&[1, 2])),
    ("OC", Some(&[0, 1])),
    ("CO", Some(&[1, 0])),
    ("OO", None),
    ("*.*", Some(&[0, 1])),
    ("[C;$(*O)]", Some(&[1])),
];

// The least embedding of each pattern in ethanol, whose oxygen is written first.
#[test]
fn least_embeddings_in_ethanol(rt: HostRuntime) -> Result<(), Fail> {
    let alloc = rt.alloc();
    let ethanol = Record::make(alloc, 1, Format::Smiles, b"OCC")?;
    let mut scratch = Scratch::reserve(alloc)?;
    for &(smarts, want) in EMBEDDINGS {
        let pattern = parse(alloc, smarts.as_bytes())?;
        let found = first(&pattern, ethanol.mol(), &mut scratch);
        let atoms = found.map(|found| found.atoms);
        assert!(rt; atoms == want, "{smarts}");
    }
    Ok(())
}
