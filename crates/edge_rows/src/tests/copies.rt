//! Worked copies: the bytes, and the images of a crash after a stop at each call.

ghost use Rattle.std.specs.Prelude.{◌≡◌, IfOk, OnOk, length};

use compact_core::{Carry, CopyFault, FinishFault, shut};
use disk_edge::{DiskFail, MemDisk};
use journal_core::{Header, peek_header};
use std::alloc::{AllocError, Global};
use std::test::Fail;

// Generation 1, version 5, and one base record.
const HEADER: Header = Header {
    generation: 1,
    base_version: 5,
    base_count: 1,
};

// The complete copy, of the base record `ab` and the commit `c`.
const COPY: [u8; 33] = *b"\x5aCHEMDB2\x01\0\0\0\x05\0\0\0\x01\0\0\0\x02\0\0\0ab\x5a\x01\0\0\0c\0";

// A disk that has a store of format 1, without commits.
fn store(alloc: Global) -> Result<MemDisk, Fail> {
    Ok(MemDisk::of(alloc, b"\x5aCHEMDB1\0".to_vec(alloc)?)?)
}

// A copy that lacks nothing but its end.
fn copied(alloc: Global, disk: MemDisk) -> Result<Carry<MemDisk>, Fail>
    ensures { IfOk result (λ carry. (carry.bases ≡ carry.header.base_count) × (carry.place ≡ 32)) }
{
    let mut carry = match Carry::start(alloc, disk, HEADER) {
        Ok(carry) => carry,
        Err(_) => return Err(Fail::new("not started")),
    };
    if carry.put(b"ab").is_err() {
        return Err(Fail::new("no base record"));
    }
    if carry.add(b"c").is_err() {
        return Err(Fail::new("no commit"));
    }
    Ok(carry)
}

// A payload that gathers with another one in memory, and not with two.
fn long(alloc: Global) -> Result<Vec<u8>, AllocError>
    ensures { IfOk result (λ bytes. length bytes.items ≡ 30000) }
{
    vec![in alloc; 7; 30_000]
}

// True if an image of a disk is open.
fn is_open(disk: MemDisk, choice: u32) -> Result<bool, DiskFail> {
    let mut image = disk.image(choice);
    let header = peek_header(&mut image)?;
    Ok(header.is_some())
}

// The place of a copy on a disk before its finish, the header and the place of its journal, and true if it has its
// bytes.
fn finished(alloc: Global, disk: MemDisk) -> Result<(u64, Header, u64, bool), Fail> {
    let carry = copied(alloc, disk)?;
    let before = carry.place();
    let Ok(journal) = carry.finish() else {
        return Err(Fail::new("not finished"));
    };
    let (header, place) = (journal.header(), journal.place());
    let has_bytes = journal.into_disk().bytes() == COPY.as_slice();
    Ok((before, header, place, has_bytes))
}

#[test]
fn a_copy_is_written_as_its_bytes(rt: HostRuntime) -> Result<(), Fail> {
    let on_new = finished(rt.alloc(), MemDisk::new(rt.alloc()))?;
    let on_store = finished(rt.alloc(), store(rt.alloc())?)?;
    assert_eq!(rt; [on_new, on_store], [(32, HEADER, 32, true); 2]);
    Ok(())
}

// The bytes of a copy with three long payloads after its commit.
fn long_copy(alloc: Global, long: &[u8]) -> Result<Vec<u8>, AllocError> {
    let mut bytes = COPY[..32].to_vec(alloc)?;
    for _ in 0..3 {
        bytes.extend_from_slice(b"\x5a\x30\x75\0\0")?;
        bytes.extend_from_slice(long)?;
    }
    bytes.push(0)?;
    Ok(bytes)
}

// Adds a long payload three times.
fn add_thrice(carry: &mut Carry<MemDisk>, long: &Vec<u8>) -> Result<(), DiskFail>
    requires whole { carry.old.bases ≡ carry.old.header.base_count }
    requires place { carry.old.place ≡ 32 }
    requires length { length long.now.items ≡ 30000 }
    ensures { OnOk result (carry.new.bases ≡ carry.new.header.base_count) }
{
    carry.add(long)?;
    carry.add(long)?;
    carry.add(long)
}

// True if a copy with three such payloads is finished as these bytes.
fn is_written_as(alloc: Global, long: &Vec<u8>, bytes: &[u8]) -> Result<bool, Fail>
    requires { length long.now.items ≡ 30000 }
{
    let mut carry = copied(alloc, store(alloc)?)?;
    add_thrice(&mut carry, long)?;
    match carry.finish() {
        Ok(journal) => Ok(journal.into_disk().bytes() == bytes),
        Err(_) => Err(Fail::new("not finished")),
    }
}

#[test]
fn a_long_copy_is_written_whole(rt: HostRuntime) -> Result<(), Fail> {
    let long = long(rt.alloc())?;
    let bytes = long_copy(rt.alloc(), &long)?;
    assert!(rt; is_written_as(rt.alloc(), &long, &bytes)?);
    Ok(())
}

// The answer of a start with this many calls that pass, and whether the disk is open after a crash.
fn stopped_start(alloc: Global, calls: u64) -> Result<(CopyFault, bool), Fail> {
    let mut disk = store(alloc)?;
    disk.stop_after(calls);
    match Carry::start(alloc, disk, HEADER) {
        Ok(_) => Err(Fail::new("started")),
        Err((fault, disk)) => Ok((fault, is_open(disk, 1)?)),
    }
}

// Calls that pass, and whether the disk is open.
const STARTS: &[(u64, bool)] = &[(0, true), (1, true), (2, true), (3, true), (4, false)];

#[test]
fn a_stopped_start_leaves_the_store_or_none(rt: HostRuntime) -> Result<(), Fail> {
    for &(calls, left) in STARTS {
        assert_eq!(rt;
            stopped_start(rt.alloc(), calls)?,
            (CopyFault::Sure, left),
            "{calls}"
        );
    }
    Ok(())
}

// Calls that pass, whether the finish is in doubt, and whether each image is open.
const FINISHES: &[(u64, bool, [bool; 4])] = &[
    (0, false, [false, false, false, false]),
    (1, false, [false, false, false, false]),
    (2, true, [false, false, true, false]),
    (3, true, [true, false, true, false]),
];

// True if a finish with this many calls that pass is in doubt, and true if an image of its disk is open.
fn stopped_finish(alloc: Global, calls: u64, choice: u32) -> Result<(bool, bool), Fail> {
    let mut carry = copied(alloc, store(alloc)?)?;
    carry.stop_after(calls);
    match carry.finish() {
        Err(FinishFault::Sure(disk)) => Ok((false, is_open(disk, choice)?)),
        Err(FinishFault::Doubt(disk)) => Ok((true, is_open(disk, choice)?)),
        _ => Err(Fail::new("another answer")),
    }
}

#[test]
fn a_stopped_finish_is_there_or_not(rt: HostRuntime) -> Result<(), Fail> {
    for &(calls, is_doubt, left) in FINISHES {
        for choice in 0..4 {
            assert_eq!(rt;
                stopped_finish(rt.alloc(), calls, choice)?,
                (is_doubt, left[choice as usize]),
                "{calls} {choice}"
            );
        }
    }
    Ok(())
}

// The answer of a disk that is shut after a doubtful finish, and whether an image of it is open.
fn shut_in_doubt(alloc: Global, choice: u32) -> Result<(Result<(), DiskFail>, bool), Fail> {
    let mut carry = copied(alloc, store(alloc)?)?;
    carry.fail_once(4);
    let Err(FinishFault::Doubt(disk)) = carry.finish() else {
        return Err(Fail::new("another answer"));
    };
    let mut disk = disk;
    let answer = shut(&mut disk);
    Ok((answer, is_open(disk, choice)?))
}

#[test]
fn a_shut_disk_never_opens(rt: HostRuntime) -> Result<(), Fail> {
    for choice in 0..6 {
        assert_eq!(rt;
            shut_in_doubt(rt.alloc(), choice)?,
            (Ok(()), false),
            "{choice}"
        );
    }
    Ok(())
}
