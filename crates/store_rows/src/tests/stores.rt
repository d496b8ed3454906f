//! A store is made, stopped or failed at each call of its disk, and loaded again; and files that are damaged, on one
//! disk and on two.

use disk_edge::{Disk, MemDisk};
use journal_core::LoadFault;
use mol_finish::Format;
use std::alloc::{AllocError, Global};
use std::process::Abort;
use std::test::Fail;
use store_core::{Change, CommitFault, Compact, CompactFault, Record, Service};
use store_disk::{Disks, Store};

// A call of a store.
#[derive(Clone, Copy, Debug)]
enum Call {
    Register(u32, &'static [u8]),
    Withdraw(u32),
    Prune,
    Compact,
}

// The answer to a call.
#[derive(Clone, Copy, Debug, PartialEq, Eq)]
enum Told {
    Commit(Result<u32, CommitFault>),
    Pruned,
    Compact(Result<Compact, CompactFault>),
    Nothing,
}

// The answer to a step of a copy, while `left` items are left.
fn more(left: u32) -> Told {
    Told::Compact(Ok(Compact::More { left }))
}

// The answer to the last step of a copy.
fn done(generation: u32) -> Told {
    Told::Compact(Ok(Compact::Done { generation }))
}

// The answer to a call whose disk fails.
fn failed(doubt: bool) -> Told {
    Told::Compact(Err(CompactFault::DiskFault { doubt }))
}

fn answer<D: Disk + Drop>(alloc: Global, store: &mut Store<D>, call: Call) -> Told {
    match call {
        Call::Register(id, text) => Told::Commit(register(alloc, store, id, text)),
        Call::Withdraw(id) => Told::Commit(store.commit(Change::Withdraw(id))),
        Call::Prune => match store.prune() {
            Ok(_) => Told::Pruned,
            Err(_) => Told::Nothing,
        },
        Call::Compact => Told::Compact(store.compact()),
    }
}

// One call after another answers as in its row.
fn follow<R: Abort, D: Disk + Drop>(
    rt: &R,
    alloc: Global,
    store: &mut Store<D>,
    rows: &[(Call, Told)],
) {
    for (call, told) in rows {
        assert_eq!(rt; answer(alloc, store, *call), *told, "{call:?}");
    }
}

// Registers a SMILES under an identifier.
fn register<D: Disk + Drop>(
    alloc: Global,
    store: &mut Store<D>,
    id: u32,
    text: &[u8],
) -> Result<u32, CommitFault> {
    if id == 0 || id > 999_999_999 {
        return Err(CommitFault::NoMemory);
    }
    match Record::make(alloc, id, Format::Smiles, text) {
        Ok(record) => store.commit(Change::Register(record)),
        Err(_) => Err(CommitFault::NoMemory),
    }
}

// Disks with these files.
fn disks_of(alloc: Global, first: &[u8], second: &[u8]) -> Result<Disks<MemDisk>, AllocError> {
    let a = MemDisk::of(alloc, first.to_vec(alloc)?)?;
    let b = MemDisk::of(alloc, second.to_vec(alloc)?)?;
    Ok(Disks { a, b })
}

// The number of commits of a disk beside an empty one.
fn commits(alloc: Global, a: MemDisk) -> Result<u32, LoadFault> {
    let b = MemDisk::new(alloc);
    version(alloc, Disks { a, b })
}

// The version of the store of two disks.
fn version(alloc: Global, disks: Disks<MemDisk>) -> Result<u32, LoadFault> {
    match Store::load(alloc, disks, 10) {
        Ok(store) => {
            let mut store = store;
            match store.stats() {
                Ok(stats) => Ok(stats.version),
                Err(_) => Err(LoadFault::NoMemory),
            }
        }
        Err((fault, _)) => Err(fault),
    }
}

#[test]
fn a_store_without_a_journal_serves(rt: HostRuntime) {
    let alloc = rt.alloc();
    let mut store = Store::in_memory(alloc, 2);
    let rows = [
        (Call::Register(1, b"CCO"), Told::Commit(Ok(1))),
        (Call::Compact, more(1)),
        (Call::Compact, more(0)),
        (Call::Compact, done(1)),
        (Call::Withdraw(1), Told::Commit(Ok(2))),
        (Call::Withdraw(1), Told::Commit(Err(CommitFault::Withdrawn))),
        (
            Call::Register(2, b"C"),
            Told::Commit(Err(CommitFault::Full)),
        ),
    ];
    follow(&rt, alloc, &mut store, &rows);
}

#[test]
fn a_commit_is_on_the_disk(rt: HostRuntime) -> Result<(), Fail> {
    let alloc = rt.alloc();
    let mut store = Store::fresh(alloc, 2)?;
    let rows = [
        (Call::Register(1, b"CCO"), Told::Commit(Ok(1))),
        (
            Call::Register(1, b"CCO"),
            Told::Commit(Err(CommitFault::Known)),
        ),
        (Call::Withdraw(2), Told::Commit(Err(CommitFault::Absent))),
        (Call::Withdraw(1), Told::Commit(Ok(2))),
        (
            Call::Register(2, b"C"),
            Told::Commit(Err(CommitFault::Full)),
        ),
    ];
    follow(&rt, alloc, &mut store, &rows);
    let disks = store.into_disks();
    let file = b"ZCHEMDB1Z\x09\0\0\0\x01\x01\0\0\0\x01CCOZ\x05\0\0\0\x03\x01\0\0\0\0";
    assert_eq!(rt; disks.a.bytes(), file.as_slice());
    assert_eq!(rt; commits(alloc, disks.a), Ok(2));
    Ok(())
}

// Files, and the number of commits that are loaded.
const FILES: &[(&[u8], Result<u32, LoadFault>)] = &[
    (b"", Err(LoadFault::NotAStore)),
    (b"ZCHEMDB2\0\0\0\0\0\0\0\0\0\0\0\0\0", Ok(0)),
    (b"ZCHEMDB3\0", Err(LoadFault::NotAStore)),
    (b"ZCHEMDB1\0", Ok(0)),
    (b"ZCHEMDB1", Err(LoadFault::Damaged(8))),
    (b"ZCHEMDB1[\x07\0\0\0\x01\x01\0\0\0\x01C\0", Ok(0)),
    (
        b"ZCHEMDB1Z\x08\0\0\0\x01\x01\0\0\0\x01C\0",
        Err(LoadFault::Damaged(21)),
    ),
    (
        b"ZCHEMDB1Z\x07\0\0\0\x81\x01\0\0\0\x01C\0",
        Err(LoadFault::Damaged(8)),
    ),
    (
        b"ZCHEMDB1Z\x07\0\0\0\x01\x01\0\0\0\x01CZ\x07\0\0",
        Err(LoadFault::Damaged(20)),
    ),
    (b"ZCHEMDB1Z\x07\0\0\0\x01\x01\0\0\0\x01C\0", Ok(1)),
    (
        b"ZCHEMDB1Z\x07\0\0\0\x01\x01\0\0\0\x01(\0",
        Err(LoadFault::Damaged(8)),
    ),
    (
        b"ZCHEMDB1Z\x05\0\0\0\x03\x01\0\0\0\0",
        Err(LoadFault::Damaged(8)),
    ),
    (
        b"ZCHEMDB1Z\x07\0\0\0\x01\x01\0\0\0\x01CZ\x07\0\0\0\x01\x01\0\0\0\x01C\0",
        Err(LoadFault::Damaged(20)),
    ),
    (
        b"ZCHEMDB1Z\x05\0\0\0\x03\x01\0\0\0Z\0\0\0\0\0",
        Err(LoadFault::Damaged(18)),
    ),
];

#[test]
fn a_file_is_loaded_or_its_damage_told(rt: HostRuntime) -> Result<(), Fail> {
    let alloc = rt.alloc();
    for &(file, want) in FILES {
        let disk = MemDisk::of(alloc, file.to_vec(alloc)?)?;
        assert_eq!(rt; commits(alloc, disk), want, "{want:?}");
    }
    Ok(())
}

// A disk without commits, and one whose base has a structure and a withdrawn identifier, with a commit after it.
const EMPTY: [u8; 9] = *b"ZCHEMDB1\0";

const COMPACTED: [u8; 59] = *b"ZCHEMDB2\x01\0\0\0\x03\0\0\0\x02\0\0\0\
    \x0b\0\0\0\x04\x01\0\0\0\x01\0\0\0\x01C\
    \x09\0\0\0\x05\x02\0\0\0\x03\0\0\0\
    Z\x05\0\0\0\x03\x01\0\0\0\0";

// The files of two disks, and the version that is loaded.
const DISKS: &[(&[u8], &[u8], Result<u32, LoadFault>)] = &[
    (&EMPTY, &COMPACTED, Ok(4)),
    (&COMPACTED, &EMPTY, Ok(4)),
    (
        b"ZCHEMDB1Z\x07\0\0\0\x01\x01\0\0\0\x01C\0",
        b"ZCHEMDB2\0\0\0\0\x05\0\0\0\0\0\0\0\0",
        Ok(1),
    ),
    (b"ZCHEMDB2\x02\0\0\0\x05\0\0\0\0\0\0\0\0", &COMPACTED, Ok(5)),
    (
        &EMPTY,
        b"ZCHEMDB2\x01\0\0\0\0\0\0\x01\0\0\0\0\0",
        Err(LoadFault::Damaged(12)),
    ),
    (
        &EMPTY,
        b"ZCHEMDB2\x01\0\0\0\x03\0\0\0\x01\0\0\0\x09\0\0\0\x05\x02\0\0\0\x04\0\0\0\0",
        Err(LoadFault::Damaged(20)),
    ),
    (
        &EMPTY,
        b"ZCHEMDB2\x01\0\0\0\x03\0\0\0\x01\0\0\0\x0b\0\0\0\x04\x01\0\0\0\x01\0\0\0\x01(\0",
        Err(LoadFault::Damaged(20)),
    ),
];

#[test]
fn the_disk_of_the_later_generation_is_read(rt: HostRuntime) -> Result<(), Fail> {
    let alloc = rt.alloc();
    for &(first, second, want) in DISKS {
        let disks = disks_of(alloc, first, second)?;
        assert_eq!(rt; version(alloc, disks), want, "{want:?}");
    }
    Ok(())
}

// The store of two disks with these files.
fn loaded(alloc: Global, first: &[u8], second: &[u8]) -> Result<Store<MemDisk>, Fail> {
    match Store::load(alloc, disks_of(alloc, first, second)?, 9) {
        Ok(store) => Ok(store),
        Err(_) => Err(Fail::new("not loaded")),
    }
}

#[test]
fn a_commit_is_on_the_disk_that_is_read(rt: HostRuntime) -> Result<(), Fail> {
    let alloc = rt.alloc();
    let mut store = loaded(alloc, &EMPTY, &COMPACTED)?;
    let rows = [
        (
            Call::Register(2, b"C"),
            Told::Commit(Err(CommitFault::Known)),
        ),
        (Call::Register(3, b"C"), Told::Commit(Ok(5))),
    ];
    follow(&rt, alloc, &mut store, &rows);
    let disks = store.into_disks();
    assert_eq!(rt; disks.a.bytes(), EMPTY.as_slice());
    assert_eq!(rt; disks.b.bytes().len(), COMPACTED.len() + 12);
    assert_eq!(rt; version(alloc, disks), Ok(5));
    Ok(())
}

// The remains of a commit after another one, if the disk stops after `calls` calls and the image of number `choice` is
// left: its answer, and the number of commits.
fn stopped(
    alloc: Global,
    calls: u64,
    choice: u32,
) -> Result<(Result<u32, CommitFault>, Result<u32, LoadFault>), Fail> {
    let mut store = Store::fresh(alloc, 10)?;
    register(alloc, &mut store, 1, b"CCO")?;
    store.stop_after(calls);
    let answer = register(alloc, &mut store, 2, b"C");
    let disk = store.into_disks().a.image(choice);
    Ok((answer, commits(alloc, disk)))
}

const SURE: Result<u32, CommitFault> = Err(CommitFault::DiskFault { doubt: false });

const DOUBT: Result<u32, CommitFault> = Err(CommitFault::DiskFault { doubt: true });

// Calls that pass, the answer, and the number of commits of each image.
const STOPS: &[(u64, Result<u32, CommitFault>, [u32; 6])] = &[
    (0, SURE, [1, 1, 1, 1, 1, 1]),
    (1, SURE, [1, 1, 1, 1, 1, 1]),
    (2, DOUBT, [1, 1, 2, 1, 1, 1]),
    (3, DOUBT, [2, 1, 2, 1, 1, 1]),
    (4, Ok(2), [2, 2, 2, 2, 2, 2]),
];

#[test]
fn a_crash_leaves_the_commit_or_not(rt: HostRuntime) -> Result<(), Fail> {
    for &(calls, answer, left) in STOPS {
        for choice in 0..6 {
            assert_eq!(rt;
                stopped(rt.alloc(), calls, choice)?,
                (answer, Ok(left[choice as usize])),
                "{calls} {choice}"
            );
        }
    }
    Ok(())
}

#[test]
fn a_failed_call_leaves_a_store_that_commits(rt: HostRuntime) -> Result<(), Fail> {
    let alloc = rt.alloc();
    for (call, doubt) in [(1, false), (2, false), (3, true), (4, true)] {
        let mut store = Store::fresh(alloc, 10)?;
        store.fail_once(call);
        let first = register(alloc, &mut store, 1, b"C");
        store.fail_once(1);
        let second = register(alloc, &mut store, 1, b"N");
        let third = register(alloc, &mut store, 1, b"O");
        let told = [
            Err(CommitFault::DiskFault { doubt }),
            Err(CommitFault::DiskFault { doubt: false }),
            Ok(1),
        ];
        assert_eq!(rt; [first, second, third], told, "{call}");
        let disk = store.into_disks().a;
        let file = b"ZCHEMDB1Z\x07\0\0\0\x01\x01\0\0\0\x01O\0";
        assert_eq!(rt; disk.bytes(), file.as_slice(), "{call}");
        assert_eq!(rt; commits(alloc, disk), Ok(1), "{call}");
    }
    Ok(())
}

// The content of disk `b` after a copy of a store with one structure: format 2, generation 1, version 1, one base
// record.
const ONE: [u8; 38] = *b"ZCHEMDB2\x01\0\0\0\x01\0\0\0\x01\0\0\0\
    \x0d\0\0\0\x04\x01\0\0\0\x01\0\0\0\x01CCO\0";

#[test]
fn three_steps_copy_one_structure(rt: HostRuntime) -> Result<(), Fail> {
    let alloc = rt.alloc();
    let mut store = Store::fresh(alloc, 10)?;
    let rows = [
        (Call::Register(1, b"CCO"), Told::Commit(Ok(1))),
        (Call::Compact, more(1)),
        (Call::Compact, more(0)),
        (Call::Compact, done(1)),
    ];
    follow(&rt, alloc, &mut store, &rows);
    let disks = store.into_disks();
    assert_eq!(rt; disks.b.bytes(), ONE.as_slice());
    assert_eq!(rt; version(alloc, disks), Ok(1));
    Ok(())
}

#[test]
fn commits_between_steps_are_copied(rt: HostRuntime) -> Result<(), Fail> {
    let alloc = rt.alloc();
    let mut store = Store::fresh(alloc, 10)?;
    let rows = [
        (Call::Register(1, b"CCO"), Told::Commit(Ok(1))),
        (Call::Compact, more(1)),
        (Call::Register(2, b"C"), Told::Commit(Ok(2))),
        (Call::Withdraw(1), Told::Commit(Ok(3))),
        (Call::Prune, Told::Pruned),
        (Call::Compact, more(0)),
        (Call::Register(3, b"N"), Told::Commit(Ok(4))),
        (Call::Compact, more(0)),
        (Call::Compact, done(1)),
    ];
    follow(&rt, alloc, &mut store, &rows);
    assert_eq!(rt; store.version(), 4);
    let disks = store.into_disks();
    assert_eq!(rt; disks.b.bytes().len(), 37 + 12 + 10 + 12 + 1);
    assert_eq!(rt; version(alloc, disks), Ok(4));
    Ok(())
}

#[test]
fn a_copy_that_fails_is_given_up(rt: HostRuntime) -> Result<(), Fail> {
    let alloc = rt.alloc();
    let mut store = loaded(alloc, &EMPTY, &COMPACTED)?;
    for (failing, doubt) in [(1, false), (1, false), (4, true)] {
        store.fail_once(failing);
        let rows = [
            (Call::Compact, failed(doubt)),
            (Call::Compact, more(2)),
            (Call::Compact, more(0)),
        ];
        follow(&rt, alloc, &mut store, &rows);
    }
    follow(&rt, alloc, &mut store, &[(Call::Compact, done(2))]);
    let disks = store.into_disks();
    assert_eq!(rt; disks.a.bytes().get(8), Some(&2));
    assert_eq!(rt; version(alloc, disks), Ok(4));
    Ok(())
}

#[test]
fn no_copy_starts_in_the_last_generation(rt: HostRuntime) -> Result<(), Fail> {
    let alloc = rt.alloc();
    let last = b"ZCHEMDB2\xff\xff\xff\xff\x05\0\0\0\0\0\0\0\0";
    let mut store = loaded(alloc, &EMPTY, last)?;
    assert_eq!(rt; store.compact(), Err(CompactFault::Last));
    Ok(())
}
