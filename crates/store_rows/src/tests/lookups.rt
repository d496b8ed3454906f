//! Lookups over a store in memory.

use crate::tests::store_of;
use lookup::{SearchFault, Similarity, find_same, find_similar};
use mol_finish::Format;
use std::alloc::Global;
use std::test::Fail;
use store_core::{Record, Service, Store};

// True if these are the records with the structure of a text, of `tried` that were tried, by pages of `size`.
fn are_same(
    alloc: Global,
    store: &mut Store,
    text: &[u8],
    size: u32,
    hits: &[u32],
    tried: u32,
) -> bool {
    if size == 0 || size > 256 {
        return false;
    }
    let Ok(record) = Record::make(alloc, 1, Format::Smiles, text) else {
        return false;
    };
    match find_same(alloc, store, &record, size) {
        Ok(list) => list.hits.as_slice() == hits
            && list.tried == tried
            && list.version == store.version(),
        Err(_) => false,
    }
}

// A text, the records of a page, the records with its structure, and the number that were tried.
const SAME: &[(&[u8], u32, &[u32], u32)] = &[
    (b"C(C)O", 256, &[1, 2], 2),
    (b"C(C)O", 1, &[1, 2], 2),
    (b"CC", 2, &[], 3),
    (b"CO", 2, &[], 2),
    (b"c1ccccc1", 256, &[4], 1),
];

#[test]
fn ethanol_written_in_two_ways(rt: HostRuntime) -> Result<(), Fail> {
    let alloc = rt.alloc();
    let mut store = store_of(alloc, &[b"OCC", b"CCO", b"CCN", b"C1=CC=CC=C1"])?;
    for &(text, size, hits, tried) in SAME {
        assert!(rt;
            are_same(alloc, &mut store, text, size, hits, tried),
            "{text:?}"
        );
    }
    Ok(())
}

// True if these are the most similar to methanol, with all records scored, by pages of two.
fn are_similar(
    alloc: Global,
    store: &mut Store,
    p: u32,
    q: u32,
    k: u32,
    hits: &[(u32, u32, u32)],
) -> bool {
    if q == 0 || q > 1000 || p > q || k == 0 || k > 256 {
        return false;
    }
    let Ok(record) = Record::make(alloc, 1, Format::Smiles, b"CO") else {
        return false;
    };
    match find_similar(alloc, store, Similarity { p, q, k }, &record, 2) {
        Ok(list) => list.best.list() == hits
            && list.scored == store.version()
            && list.version == store.version(),
        Err(_) => false,
    }
}

#[test]
fn ethanol_is_more_similar_to_methanol_than_methane_is(rt: HostRuntime) -> Result<(), Fail> {
    let alloc = rt.alloc();
    let texts: [&[u8]; 4] = [b"CCO", b"CO", b"C", b"OC"];
    let rows: [(usize, u32, u32, u32, &[(u32, u32, u32)]); 2] = [
        (3, 1, 2, 10, &[(2, 6, 6), (1, 6, 10)]),
        (4, 0, 1, 2, &[(2, 6, 6), (4, 6, 6)]),
    ];
    for (count, p, q, k, hits) in rows {
        let mut store = store_of(alloc, &texts[..count.min(4)])?;
        assert!(rt; are_similar(alloc, &mut store, p, q, k, hits), "{count}");
    }
    Ok(())
}

#[test]
fn no_pin_is_free_for_a_lookup(rt: HostRuntime) -> Result<(), Fail> {
    let alloc = rt.alloc();
    let mut store = Store::fresh(alloc, 10);
    let record = Record::make(alloc, 1, Format::Smiles, b"C")?;
    for _slot in 0..64 {
        assert!(rt; matches!(store.pin(), Ok(Some(_))));
    }
    let told = find_same(alloc, &mut store, &record, 1);
    assert!(rt; matches!(told, Err(SearchFault::Pins)));
    Ok(())
}
