//! `init` and `run` over disks in memory.
use super::{ONE_COMMIT, PLAIN, call, call_on, disk_of, has_left, put_by, run, run_leaves};
use disk_edge::{FileDisk, MemDisk};
use std::alloc::{AllocError, Global};
use std::fs;
use std::sync::Wait;
use std::test::Fail;
use std::thread::Threads;

// The command, its script, the status, the replies, and the bytes on the first disk then.
const USES: &[(&str, &str, u8, &str, &[u8])] = &[
    ("init", "", 0, "", b"ZCHEMDB1\0"),
    ("run", "register 1 CCO\n", 0, "ok 1\n", ONE_COMMIT),
    (
        "run",
        "show 1\nregister 1 C\nsearch O\n",
        0,
        "record 1 version 1 smiles CCO\nrefused known\nhit 1\nend at 1 tried 1 hits 1\n",
        ONE_COMMIT,
    ),
    ("init", "", 10, "", ONE_COMMIT),
];

#[test]
fn a_store_is_made_and_used_and_used_again(rt: HostRuntime) -> Result<(), Fail> {
    let alloc = rt.alloc();
    let mut disk = MemDisk::new(alloc);
    for &(command, script, status, replies, left) in USES {
        let disks = (disk, MemDisk::new(alloc));
        let answer = call_on(&rt, alloc, &[command, "f"], script.as_bytes(), PLAIN, disks)?;
        assert!(rt;
            answer.status == status && has_left(&answer, replies, (left, b"")),
            "at {command} {script:?}"
        );
        disk = answer.a;
    }
    Ok(())
}

const COUNTS: &str = "stats version 0 live 0 withdrawn 0 kept 0 pins 0\n";

// The bytes, the status, the place of damage, and the reply to `stats`.
const BYTES: &[(&[u8], u8, u64, &str)] = &[
    (b"ZCHEMDB1\0", 0, 0, COUNTS),
    (b"", 6, 0, ""),
    (b"ZCHEMDB", 6, 0, ""),
    (b"zCHEMDB1\0", 6, 0, ""),
    (b"ZCHEMDB2\0", 6, 0, ""),
    (b"ZCHEMDB1", 7, 8, ""),
    (b"ZCHEMDB1Z\x01\0\0\0\x04\0", 7, 8, ""),
    // cut within the commit, and after it
    (b"ZCHEMDB1Z\x09\0\0\0\x01\x01\0\0\0\x01CC", 7, 8, ""),
    (b"ZCHEMDB1Z\x09\0\0\0\x01\x01\0\0\0\x01CCO", 7, 22, ""),
    // an empty payload, and one that is a byte too long
    (b"ZCHEMDB1Z\0\0\0\0\0", 7, 8, ""),
    (b"ZCHEMDB1Z\x01\0\x10\0", 7, 8, ""),
    // open gates after a closed one
    (
        b"ZCHEMDB1\0\
            ZZZZZZZZZZZZZZZZZZZZZZZZZZZZZZZZZZZZZZZZZZZZZZZZZZ\
            ZZZZZZZZZZZZZZZZZZZZZZZZZZZZZZZZZZZZZZZZZZZZZZZZZZ",
        0,
        0,
        COUNTS,
    ),
    // a base at the last version that a store may have, and at the one after it
    (
        b"ZCHEMDB2\0\0\0\0\xff\xff\xff\0\0\0\0\0\0",
        0,
        0,
        "stats version 16777215 live 0 withdrawn 0 kept 0 pins 0\n",
    ),
    (b"ZCHEMDB2\0\0\0\0\0\0\0\x01\0\0\0\0\0", 7, 12, ""),
    (
        b"ZCHEMDB1Z\x07\0\0\0\x01\x01\0\0\0\x01C\0more",
        0,
        0,
        "stats version 1 live 1 withdrawn 0 kept 1 pins 0\n",
    ),
    (
        b"ZCHEMDB1Z\x07\0\0\0\x01\x01\0\0\0\x01CZ\x07\0\0\0\x01\x01\0\0\0\x01C\0",
        7,
        20,
        "",
    ),
];

const ABSENT: &str = "refused absent\nstats version 0 live 0 withdrawn 0 kept 0 pins 0\n";

// As `BYTES`, for stores that another hand wrote; `show 1` is asked before `stats`.
const BY_ANOTHER_HAND: &[(&[u8], u8, u64, &str)] = &[
    // a text that has no structure, and one with a line feed
    (b"ZCHEMDB1Z\x08\0\0\0\x01\x01\0\0\0\x01C(\0", 7, 8, ""),
    (b"ZCHEMDB1Z\x09\0\0\0\x01\x01\0\0\0\x01CC(\0", 7, 8, ""),
    (b"ZCHEMDB1Z\x09\0\0\0\x01\x01\0\0\0\x01C\nC\0", 7, 8, ""),
    // the greatest length
    (
        b"ZCHEMDB1Z\xff\xff\xff\xff\x01\x01\0\0\0\x01CCO\0",
        7,
        8,
        "",
    ),
    // identifiers of 0 and of 1,000,000,000, and the greatest
    (b"ZCHEMDB1Z\x07\0\0\0\x01\0\0\0\0\x01C\0", 7, 8, ""),
    (b"ZCHEMDB1Z\x07\0\0\0\x01\0\xca\x9a\x3b\x01C\0", 7, 8, ""),
    (
        b"ZCHEMDB1Z\x07\0\0\0\x01\xff\xc9\x9a\x3b\x01C\0",
        0,
        0,
        "refused absent\nstats version 1 live 1 withdrawn 0 kept 1 pins 0\n",
    ),
    // a withdrawal with a text, one of an absent identifier, and a registration of a withdrawn one
    (b"ZCHEMDB1Z\x06\0\0\0\x03\x01\0\0\0\x01\0", 7, 8, ""),
    (b"ZCHEMDB1Z\x05\0\0\0\x03\x01\0\0\0\0", 7, 8, ""),
    (
        b"ZCHEMDB1Z\x07\0\0\0\x01\x01\0\0\0\x01CZ\x05\0\0\0\x03\x01\0\0\0Z\x07\0\0\0\x01\x01\0\0\0\x01C\0",
        7,
        30,
        "",
    ),
    // a record after a closed gate
    (b"ZCHEMDB1\0Z\x07\0\0\0\x01\x01\0\0\0\x01C\0", 0, 0, ABSENT),
    // a molfile whose last line has no line feed is shown with one
    (
        b"ZCHEMDB1Z\x37\0\0\0\x01\x01\0\0\0\x02\n\n\n  1  0\n                               C\nM  END\0",
        0,
        0,
        "record 1 version 1 molfile 6\n\n\n\n  1  0\n                               C\nM  END\n\
            stats version 1 live 1 withdrawn 0 kept 1 pins 0\n",
    ),
];

// Scripts, and the stores that they are run over.
const RUNS: &[(&str, &[(&[u8], u8, u64, &str)])] = &[
    ("stats\n", BYTES),
    ("show 1\nstats\n", BY_ANOTHER_HAND),
];

#[test]
fn bytes_that_are_run(rt: HostRuntime) -> Result<(), Fail> {
    for &(script, rows) in RUNS {
        for &(bytes, status, place, put) in rows {
            let disks = (bytes, b"".as_slice());
            assert!(rt;
                run_leaves(&rt, rt.alloc(), disks, script, (status, place), put, disks)?,
                "at {bytes:?}"
            );
        }
    }
    Ok(())
}

// The number of registrations of a script of three that were acknowledged, by its replies.
fn acknowledged(replies: &[u8]) -> usize {
    let mut count = 0usize;
    for line in replies.split(|b| *b == b'\n') {
        if line.starts_with(b"ok ") {
            count = count.saturating_add(1);
        }
    }
    count
}

// The version of the store on a disk, if there is one.
fn version_of<R: Threads + Wait + Sync>(
    rt: &R,
    alloc: Global,
    disk: MemDisk,
) -> Result<Option<usize>, AllocError> {
    let answer = run(rt, alloc, "stats\n", (disk, MemDisk::new(alloc)))?;
    if answer.status != 0 {
        return Ok(None);
    }
    let digit = put_by(&answer).get(14).copied().unwrap_or(0);
    Ok(Some(digit.saturating_sub(b'0') as usize))
}

// Stores, and the number of their commits.
const BEGUN: &[(&[u8], usize)] = &[
    (b"ZCHEMDB1\0", 0),
    (
        b"ZCHEMDB1Z\x07\0\0\0\x01\x08\0\0\0\x01CZ\x07\0\0\0\x01\x09\0\0\0\x01N\0",
        2,
    ),
];

// True if three registrations lose nothing, over a store whose disk's call of this number fails. The image of this
// number then loads to the old commits, the acknowledged ones, and at most one more.
fn is_kept<R: Threads + Wait + Sync>(
    rt: &R,
    alloc: Global,
    store: (&[u8], usize),
    call: u64,
    image: u32,
) -> Result<bool, AllocError> {
    let (bytes, commits) = store;
    let mut disk = disk_of(alloc, bytes)?;
    disk.fail_once(call);
    let disks = (disk, MemDisk::new(alloc));
    let script = "register 1 C\nregister 2 N\nregister 3 O\n";
    let answer = run(rt, alloc, script, disks)?;
    if answer.status == 5 {
        return Ok(has_left(&answer, "", (bytes, b"")));
    }
    let made = acknowledged(put_by(&answer));
    let is_done = answer.status == 0 && made >= 2;
    let sure = commits.saturating_add(made);
    let version = version_of(rt, alloc, answer.a.image(image))?;
    Ok(is_done && (version == Some(sure) || version == Some(sure.saturating_add(1))))
}

#[test]
fn each_call_of_the_disk_fails_in_turn(rt: HostRuntime) -> Result<(), Fail> {
    for &(bytes, commits) in BEGUN {
        for call in 1..21u64 {
            for image in 0..6u32 {
                assert!(rt;
                    is_kept(&rt, rt.alloc(), (bytes, commits), call, image)?,
                    "a store of {commits} commits at {call}, image {image}"
                );
            }
        }
    }
    let alloc = rt.alloc();
    let mut disk = MemDisk::new(alloc);
    disk.fail_once(1);
    let disks = (disk, MemDisk::new(alloc));
    let made = call_on(&rt, alloc, &["init", "f"], b"", PLAIN, disks)?;
    assert!(rt; made.status == 5);
    Ok(())
}

#[test]
fn a_store_is_not_made_where_its_second_disk_cannot_be_synced(rt: HostRuntime) -> Result<(), Fail> {
    let alloc = rt.alloc();
    // its length is asked, and then it is synced
    for call in 1..=2u64 {
        let mut second = MemDisk::new(alloc);
        second.fail_once(call);
        let disks = (MemDisk::new(alloc), second);
        let made = call_on(&rt, alloc, &["init", "f"], b"", PLAIN, disks)?;
        assert!(rt;
            made.status == 5 && has_left(&made, "", (b"", b"")),
            "at {call}"
        );
    }
    Ok(())
}

#[test]
fn the_first_disk_is_asked_first(rt: HostRuntime) -> Result<(), Fail> {
    let alloc = rt.alloc();
    let mut second = MemDisk::new(alloc);
    second.fail_once(1);
    let disks = (disk_of(alloc, ONE_COMMIT)?, second);
    let made = call_on(&rt, alloc, &["init", "f"], b"", PLAIN, disks)?;
    assert!(rt; made.status == 10);
    Ok(())
}

#[test]
fn each_end_has_the_status_of_a_store_that_is_not_loaded(rt: HostRuntime) -> Result<(), Fail> {
    let words = ["serve", "f", "x", "y"];
    let answer = call(&rt, rt.alloc(), &words, b"stats\n", PLAIN)?;
    assert!(rt; answer.status == 6 && answer.ends.len() == 2);
    for end in &answer.ends {
        assert!(rt; end.status == 6);
    }
    Ok(())
}

// The command, whether it makes the files, the script, the status, and the bytes that were put.
const COMMANDS: &[(&str, bool, &str, u8, &str)] = &[
    ("run", false, "stats\n", 5u8, ""),
    ("init", true, "", 0, ""),
    ("run", false, "register 1 CCO\n", 0, "ok 1\n"),
    (
        "run",
        false,
        "show 1\n",
        0,
        "record 1 version 1 smiles CCO\n",
    ),
    ("init", true, "", 10, ""),
];

#[test]
fn a_store_in_two_files(rt: HostRuntime) -> Result<(), Fail> {
    let alloc = rt.alloc();
    let path = "chem_rows_test.store";
    let second = "chem_rows_test.store.2";
    let _ = fs::remove_file(&rt, path);
    let _ = fs::remove_file(&rt, second);
    for &(command, create, script, status, put) in COMMANDS {
        let disks = (
            FileDisk::at(&rt, path, create),
            FileDisk::at(&rt, second, create),
        );
        let words = [command, path];
        let answer = call_on(&rt, alloc, &words, script.as_bytes(), PLAIN, disks)?;
        assert!(rt;
            answer.status == status && put_by(&answer) == put.as_bytes(),
            "at {command} {script:?}"
        );
    }
    let is_first = fs::read(&rt, path)?.as_slice() == ONE_COMMIT;
    let is_second = fs::read(&rt, second)?.is_empty();
    fs::remove_file(&rt, path)?;
    fs::remove_file(&rt, second)?;
    assert!(rt; is_first && is_second);
    Ok(())
}
