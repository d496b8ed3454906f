//! `serve` over disks in memory: the replies to two scripts, and the bytes of the disks afterwards.
use super::{Answer, ONE_COMMIT, PLAIN, call_each, disk_of, put_by, run};
use disk_edge::MemDisk;
use std::alloc::{AllocError, Global};
use std::sync::Wait;
use std::test::Fail;
use std::thread::Threads;

// An empty store.
const EMPTY: &[u8] = b"ZCHEMDB1\0";

// `serve` of two scripts over this first disk and an empty second one; the store takes `commits` commits at most.
fn serve_two<R: Threads + Wait + Sync>(
    rt: &R,
    alloc: Global,
    commits: &str,
    disk: MemDisk,
    scripts: &[&[u8]],
) -> Result<Answer, AllocError> {
    let words = ["--commits", commits, "serve", "f", "one", "other"];
    let disks = (disk, MemDisk::new(alloc));
    call_each(rt, alloc, &words, scripts, PLAIN, disks)
}

// The replies to the end of this number; empty if there is no such end.
fn put_to(answer: &Answer, number: usize) -> &[u8] {
    match answer.ends.get(number) {
        Some(end) => end.sink.bytes(),
        None => &[],
    }
}

// A store that has all the commits that it may have refuses each registration of both ends.
#[test]
fn a_full_store_takes_of_no_end(rt: HostRuntime) -> Result<(), Fail> {
    let alloc = rt.alloc();
    let disk = disk_of(alloc, ONE_COMMIT)?;
    let answer = serve_two(
        &rt,
        alloc,
        "1",
        disk,
        &[b"register 2 C\n", b"register 3 C\n"],
    )?;
    assert_eq!(rt; answer.status, 0);
    for number in 0..2 {
        assert!(rt;
            put_to(&answer, number) == b"refused full\n".as_slice(),
            "end {number}"
        );
    }
    assert!(rt; answer.a.bytes() == ONE_COMMIT);
    Ok(())
}

// The version in the `ok` of an end, as a digit. `None` if its registration was not acknowledged.
fn told(answer: &Answer, number: usize) -> Option<u8> {
    let reply = put_to(answer, number);
    if reply.starts_with(b"ok ") {
        reply.get(3).copied()
    } else {
        None
    }
}

// True if the reply to a `show` is a record of this version. Without a version any reply will do.
fn shows(line: &[u8], version: Option<u8>) -> bool {
    match version {
        Some(digit) => line.starts_with(b"record ") && line.get(17) == Some(&digit),
        None => true,
    }
}

// The number of ends whose registration was answered `ok`, of two. `None` if that is 0, or if a reply is neither `ok`
// nor a fault of the disk.
fn acknowledged(answer: &Answer) -> Option<usize> {
    let mut faults = 0_usize;
    for number in 0..2 {
        let reply = put_to(answer, number);
        if reply.starts_with(b"fault disk ") {
            faults = faults.saturating_add(1);
        } else if !reply.starts_with(b"ok ") {
            return None;
        }
    }
    2_usize.checked_sub(faults).filter(|sure| *sure > 0)
}

// Each of two ends registers a structure over a disk whose call of this number fails. Then the disk loses power, and
// holds `image`. Returns the number of acknowledged registrations if they are there after that, and `None` if one is
// missing. If the first opening failed, it returns 0 if no end had a reply.
fn kept<R: Threads + Wait + Sync>(
    rt: &R,
    alloc: Global,
    call: u64,
    image: u32,
) -> Result<Option<usize>, AllocError> {
    let mut disk = disk_of(alloc, EMPTY)?;
    disk.fail_once(call);
    let scripts: &[&[u8]] = &[b"register 1 C\n", b"register 2 N\n"];
    let answer = serve_two(rt, alloc, "100", disk, scripts)?;
    if answer.status == 5 {
        let is_silent = put_to(&answer, 0).is_empty() && put_to(&answer, 1).is_empty();
        return Ok(is_silent.then_some(0));
    }
    let sure = acknowledged(&answer);
    let versions = [told(&answer, 0), told(&answer, 1)];
    let is_done = answer.status == 0;
    let shown = run(
        rt,
        alloc,
        "show 1\nshow 2\n",
        (answer.a.image(image), answer.b),
    )?;
    let mut lines = put_by(&shown).split(|byte| *byte == b'\n');
    let first = shows(lines.next().unwrap_or(b""), versions[0]);
    let second = shows(lines.next().unwrap_or(b""), versions[1]);
    Ok(if is_done && first && second {
        sure
    } else {
        None
    })
}

// More calls than are made, so that no call fails.
const NEVER: u64 = 1_000;

#[test]
fn each_call_of_the_disk_fails_in_turn_beside_two_ends(rt: HostRuntime) -> Result<(), Fail> {
    for image in 0..6u32 {
        assert_eq!(rt;
            kept(&rt, rt.alloc(), NEVER, image)?,
            Some(2),
            "image {image}"
        );
        for call in 1..20u64 {
            let sure = kept(&rt, rt.alloc(), call, image)?;
            assert!(rt; sure.is_some(), "at {call}, image {image}");
        }
    }
    Ok(())
}
