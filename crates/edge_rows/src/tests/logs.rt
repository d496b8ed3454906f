//! Worked payloads, logs and bases.

use commit_log::{
    BaseEntry, BaseState, Commit, Format, Wire, decode, decode_base, encode, encode_base, read_all,
    read_base,
};
use disk_edge::MemDisk;
use journal_core::{Journal, LoadFault};
use std::alloc::{AllocError, Global};
use std::test::Fail;

// The entries of a file's base, and its commits.
fn read_both(
    alloc: Global,
    file: &[u8],
) -> Result<(Vec<(u64, BaseEntry)>, Vec<Commit>), LoadFault> {
    let disk = MemDisk::of(alloc, file.to_vec(alloc)?)?;
    let mut journal = match Journal::load(alloc, disk) {
        Ok(journal) => journal,
        Err((fault, _)) => return Err(fault),
    };
    let base = read_base(alloc, &mut journal)?;
    let commits = read_all(alloc, &mut journal)?;
    Ok((base, commits))
}

// The commits of a file.
fn read(alloc: Global, file: &[u8]) -> Result<Vec<Commit>, LoadFault> {
    let (_, commits) = read_both(alloc, file)?;
    Ok(commits)
}

// `register 1 CCO`, as the payload and as the change.
const PAYLOAD: [u8; 9] = *b"\x01\x01\0\0\0\x01CCO";

fn change(alloc: Global) -> Result<Wire, Fail> {
    let text = b"CCO".to_vec(alloc)?;
    Ok(Wire::Register {
        id: 1,
        format: Format::Smiles,
        text,
    })
}

#[test]
fn a_change_is_written_as_its_bytes(rt: HostRuntime) -> Result<(), Fail> {
    let written = encode(rt.alloc(), &change(rt.alloc())?)?;
    assert_eq!(rt; written.as_slice(), PAYLOAD.as_slice());
    assert_eq!(rt; decode(rt.alloc(), &PAYLOAD)?, Some(change(rt.alloc())?));
    Ok(())
}

// Bytes, and whether they are the payload of a change.
const PAYLOADS: &[(&[u8], bool)] = &[
    (b"", false),
    (b"\x01\x01\0\0\0\x01", true),
    (b"\x02\x01\0\0\0\x02C\n", true),
    (b"\x03\x01\0\0\0", true),
    (b"\x01\x01\0\0\0", false),
    (b"\x01\x01\0\0\0\x03C", false),
    (b"\x01\x01\0\0\0\0C", false),
    (b"\x03\x01\0\0\0\x01", false),
    (b"\x03\x01\0\0", false),
    (b"\x04\x01\0\0\0", false),
    (b"\0\x01\0\0\0", false),
    (b"\x03\0\0\0\0", false),
    (b"\x03\xff\xc9\x9a\x3b", true),
    (b"\x03\0\xca\x9a\x3b", false),
];

#[test]
fn what_is_no_payload_is_told(rt: HostRuntime) -> Result<(), Fail> {
    for &(payload, is_written) in PAYLOADS {
        match decode(rt.alloc(), payload)? {
            Some(wire) => {
                assert!(rt; is_written, "{payload:?}");
                let again = encode(rt.alloc(), &wire)?;
                assert_eq!(rt; again.as_slice(), payload);
            }
            None => assert!(rt; !is_written, "{payload:?}"),
        }
    }
    Ok(())
}

// Files, and the number of their commits.
const LOGS: &[(&[u8], Result<usize, LoadFault>)] = &[
    (b"", Err(LoadFault::NotAStore)),
    (b"ZCHEMDB1\0", Ok(0)),
    (b"ZCHEMDB1Z\x05\0\0\0\x03\x01\0\0\0\0rest", Ok(1)),
    (
        b"ZCHEMDB1Z\x05\0\0\0\x03\x01\0\0\0Z\x05\0\0\0\x03\x02\0\0\0\x01",
        Ok(2),
    ),
    (
        b"ZCHEMDB1Z\x05\0\0\0\x03\x01\0\0\0",
        Err(LoadFault::Damaged(18)),
    ),
    (
        b"ZCHEMDB1Z\x05\0\0\0\x03\x01\0\0\0Z\0\0\0\0\0",
        Err(LoadFault::Damaged(18)),
    ),
    (b"ZCHEMDB1Z\x01\0\x10\0", Err(LoadFault::Damaged(8))),
];

#[test]
fn a_log_is_read_or_its_damage_told(rt: HostRuntime) -> Result<(), Fail> {
    for &(file, want) in LOGS {
        match read(rt.alloc(), file) {
            Ok(commits) => assert_eq!(rt; Ok(commits.len()), want),
            Err(fault) => assert_eq!(rt; Err(fault), want),
        }
    }
    let commits = read(rt.alloc(), b"ZCHEMDB1Z\x09\0\0\0\x01\x01\0\0\0\x01CCO\0")?;
    let mut want = Vec::new(rt.alloc());
    want.push(Commit {
        at: 8,
        wire: change(rt.alloc())?,
    })?;
    assert_eq!(rt; commits, want);
    Ok(())
}

// `1` is live with the text `CCO` since version 2, as the payload and as the entry.
const ENTRY: [u8; 13] = *b"\x04\x01\0\0\0\x02\0\0\0\x01CCO";

fn entry(alloc: Global) -> Result<BaseEntry, Fail> {
    let text = b"CCO".to_vec(alloc)?;
    Ok(BaseEntry {
        id: 1,
        version: 2,
        state: BaseState::Live {
            format: Format::Smiles,
            text,
        },
    })
}

// Bytes, and whether they are the payload of an entry.
const ENTRIES: &[(&[u8], bool)] = &[
    (b"", false),
    (b"\x04\x01\0\0\0\0\0\0\0\x02C\n", true),
    (b"\x05\x01\0\0\0\xff\xff\xff\xff", true),
    (b"\x05\x01\0\0\0\x02\0\0\0\0", false),
    (b"\x05\x01\0\0\0\x02\0\0", false),
    (b"\x04\x01\0\0\0\x02\0\0\0", false),
    (b"\x04\x01\0\0\0\x02\0\0\0\x03C", false),
    (b"\x06\x01\0\0\0\x02\0\0\0", false),
    (b"\x05\0\0\0\0\x02\0\0\0", false),
];

#[test]
fn an_entry_is_read_from_its_payload_alone(rt: HostRuntime) -> Result<(), Fail> {
    let written = encode_base(rt.alloc(), &entry(rt.alloc())?)?;
    assert_eq!(rt; written.as_slice(), ENTRY.as_slice());
    assert_eq!(rt; decode_base(rt.alloc(), &ENTRY)?, Some(entry(rt.alloc())?));
    for &(payload, is_written) in ENTRIES {
        assert_eq!(rt; is_entry(rt.alloc(), payload)?, is_written, "{payload:?}");
    }
    Ok(())
}

// True if a payload is that of an entry, which is written as the same bytes.
fn is_entry(alloc: Global, payload: &[u8]) -> Result<bool, AllocError> {
    match decode_base(alloc, payload)? {
        Some(entry) => Ok(encode_base(alloc, &entry)?.as_slice() == payload),
        None => Ok(false),
    }
}

// Base records: `1` withdrawn at version 2, and `2` at version 5.
const ONE: &[u8] = b"\x09\0\0\0\x05\x01\0\0\0\x02\0\0\0";

const TWO: &[u8] = b"\x09\0\0\0\x05\x02\0\0\0\x05\0\0\0";

// A file of format 2, of this base version and number of base records.
fn based(alloc: Global, version: u8, count: u8, parts: &[&[u8]]) -> Result<Vec<u8>, Fail> {
    let mut file = b"ZCHEMDB2\x01\0\0\0".to_vec(alloc)?;
    file.extend_from_slice(&[version, 0, 0, 0, count, 0, 0, 0])?;
    for part in parts {
        file.extend_from_slice(part)?;
    }
    Ok(file)
}

// A base version, a number of base records, the bytes after the header, and the numbers of entries and commits read.
const BASES: &[(u8, u8, &[&[u8]], Result<(usize, usize), LoadFault>)] = &[
    (0, 0, &[b"\0"], Ok((0, 0))),
    (5, 2, &[ONE, TWO, b"\0"], Ok((2, 0))),
    (5, 1, &[ONE, b"Z\x05\0\0\0\x03\x01\0\0\0\0"], Ok((1, 1))),
    (5, 1, &[ONE, b"Z"], Err(LoadFault::Damaged(33))),
    (5, 2, &[ONE], Err(LoadFault::Damaged(33))),
    (5, 2, &[TWO, ONE, b"\0"], Err(LoadFault::Damaged(33))),
    (5, 2, &[ONE, ONE, b"\0"], Err(LoadFault::Damaged(33))),
    (4, 2, &[ONE, TWO, b"\0"], Err(LoadFault::Damaged(33))),
    (5, 1, &[b"\0\0\0\0\0"], Err(LoadFault::Damaged(20))),
    (5, 1, &[b"\x01\0\x10\0"], Err(LoadFault::Damaged(20))),
    (5, 1, &[b"\x09\0\0"], Err(LoadFault::Damaged(20))),
    (5, 1, &[b"\x01\0\0\0\x06"], Err(LoadFault::Damaged(20))),
    (
        5,
        1,
        &[b"\x09\0\0\0\x05\0\0\0\0\x02\0\0\0"],
        Err(LoadFault::Damaged(20)),
    ),
    (
        5,
        1,
        &[b"\x09\0\0\0\x05\x01\0\0\0\0\0\0\0"],
        Err(LoadFault::Damaged(20)),
    ),
];

#[test]
fn a_base_is_read_or_its_damage_told(rt: HostRuntime) -> Result<(), Fail> {
    for &(version, count, parts, want) in BASES {
        let file = based(rt.alloc(), version, count, parts)?;
        let found = match read_both(rt.alloc(), &file) {
            Ok((base, commits)) => Ok((base.len(), commits.len())),
            Err(fault) => Err(fault),
        };
        assert_eq!(rt; found, want, "{version} {count} {parts:?}");
    }
    Ok(())
}
