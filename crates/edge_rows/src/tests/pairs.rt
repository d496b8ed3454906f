//! A finish that is stopped at each call of its disk, and a crash to each image; and a commit after a doubtful finish.

ghost use Rattle.std.specs.Prelude.{◌≡◌, ◌<◌, ◌^◌, IfOk, None, length};
ghost use Rattle.disk_pair.specs.Term.{HasRoom, IsBased, LacksBase, progress_of};

use disk_edge::MemDisk;
use disk_pair::{Pair, Picked, PutFault, Which, load};
use journal_core::{Header, Journal};
use std::alloc::{AllocError, Global};
use std::test::Fail;

// A store of format 1 with one commit, and the payloads of a base record and of a second commit.
const FILE: [u8; 15] = *b"\x5aCHEMDB1\x5a\x01\0\0\0a\0";

const BASE: [u8; 3] = *b"BCD";

const SECOND: [u8; 2] = *b"ef";

// The store on the first of two disks.
fn pair(alloc: Global) -> Result<Pair<MemDisk>, Fail>
    ensures idle { IfOk result (λ pair. progress_of pair.other ≡ None) }
    ensures place { IfOk result (λ pair. pair.journal.place ≡ 14) }
    ensures first { IfOk result (λ pair. pair.journal.header.generation ≡ 0) }
{
    let disk = MemDisk::of(alloc, FILE.to_vec(alloc)?)?;
    let header = Header {
        generation: 0,
        base_version: 0,
        base_count: 0,
    };
    Ok(Pair::new(
        alloc,
        Picked {
            journal: Journal::at_gate(alloc, disk, header, 14),
            other: MemDisk::new(alloc),
            second: false,
        },
    ))
}

// A copy of it that lacks nothing, with the second commit.
fn copied(alloc: Global) -> Result<Pair<MemDisk>, Fail>
    ensures based { IfOk result (λ pair. IsBased (progress_of pair.other)) }
    ensures place { IfOk result (λ pair. pair.journal.place < 2 ^ 62) }
{
    let mut pair = pair(alloc)?;
    if pair.start_copy(1, 1).is_err() {
        return Err(Fail::new("not started"));
    }
    if pair.put_base(&BASE).is_err() {
        return Err(Fail::new("no base record"));
    }
    if pair.append(&SECOND).is_err() {
        return Err(Fail::new("no commit"));
    }
    if pair.add(&SECOND).is_err() {
        return Err(Fail::new("no commit in the copy"));
    }
    Ok(pair)
}

// A base record as long as the bytes that gather in memory.
fn long(alloc: Global) -> Result<Vec<u8>, AllocError>
    ensures { IfOk result (λ bytes. length bytes.items ≡ 65536) }
{
    vec![in alloc; 0; 65_536]
}

// A copy of it that has that base record, in memory, and lacks another one.
fn begun(alloc: Global) -> Result<Pair<MemDisk>, Fail>
    ensures lacks { IfOk result (λ pair. LacksBase (progress_of pair.other)) }
    ensures room { IfOk result (λ pair. HasRoom (progress_of pair.other)) }
{
    let base = long(alloc)?;
    let mut pair = pair(alloc)?;
    if pair.start_copy(1, 2).is_err() {
        return Err(Fail::new("not started"));
    }
    if pair.put_base(&base).is_err() {
        return Err(Fail::new("no base record"));
    }
    Ok(pair)
}

// The generation of the disk that is read after a crash to these images.
fn generation(alloc: Global, pair: Pair<MemDisk>, image: u32) -> Result<u32, Fail> {
    let (a, b) = pair.into_disks();
    match load(alloc, a.image(image), b.image(image)) {
        Ok(picked) => Ok(picked.journal.header().generation),
        Err(_) => Err(Fail::new("not a store")),
    }
}

const SURE: Result<(), PutFault> = Err(PutFault::DiskFault { doubt: false });

const DOUBT: Result<(), PutFault> = Err(PutFault::DiskFault { doubt: true });

// Calls that pass, the answer, and the generation of each image.
const FINISHES: &[(u64, Result<(), PutFault>, [u32; 4])] = &[
    (0, SURE, [0, 0, 0, 0]),
    (1, SURE, [0, 0, 0, 0]),
    (2, DOUBT, [0, 0, 1, 0]),
    (3, DOUBT, [1, 0, 1, 0]),
    (4, Ok(()), [1, 1, 1, 1]),
];

// The answer of a finish with this many calls that pass, and the generation after a crash to these images.
fn stopped_finish(
    alloc: Global,
    calls: u64,
    image: u32,
) -> Result<(Result<(), PutFault>, u32), Fail> {
    let mut pair = copied(alloc)?;
    pair.stop_after(Which::Second, calls);
    let answer = pair.finish();
    Ok((answer, generation(alloc, pair, image)?))
}

#[test]
fn a_stopped_finish_is_there_or_not(rt: HostRuntime) -> Result<(), Fail> {
    for &(calls, outcome, left) in FINISHES {
        for image in 0..4 {
            assert_eq!(rt;
                stopped_finish(rt.alloc(), calls, image)?,
                (outcome, left[image as usize]),
                "{calls} {image}"
            );
        }
    }
    Ok(())
}

// True if a copy is left by a doubtful finish, the answer of a commit after it, and the generation after a crash to
// these images.
fn doubtful_finish(alloc: Global, image: u32) -> Result<(bool, Result<(), PutFault>, u32), Fail> {
    let mut pair = copied(alloc)?;
    pair.fail_once(Which::Second, 3);
    let Err(PutFault::DiskFault { doubt: true }) = pair.finish() else {
        return Err(Fail::new("another answer"));
    };
    let is_copying = pair.is_copying();
    let answer = pair.append(&SECOND);
    Ok((is_copying, answer, generation(alloc, pair, image)?))
}

#[test]
fn a_commit_ends_a_doubtful_finish(rt: HostRuntime) -> Result<(), Fail> {
    for image in 0..4 {
        assert_eq!(rt;
            doubtful_finish(rt.alloc(), image)?,
            (false, Ok(()), 0),
            "{image}"
        );
    }
    Ok(())
}

// The answer of a base record whose disk fails, whether a copy is left, and the generation after a crash.
fn failed_copy(alloc: Global) -> Result<(Result<(), PutFault>, bool, u32), Fail> {
    let mut pair = begun(alloc)?;
    pair.fail_once(Which::Second, 1);
    let answer = pair.put_base(&BASE);
    let is_copying = pair.is_copying();
    Ok((answer, is_copying, generation(alloc, pair, 0)?))
}

#[test]
fn a_copy_that_failed_is_given_up(rt: HostRuntime) -> Result<(), Fail> {
    assert_eq!(rt; failed_copy(rt.alloc())?, (SURE, false, 0));
    Ok(())
}
