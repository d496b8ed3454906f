//! Worked journals: the bytes, a file cut at each byte, a base first, and a crash after a stop at each call.

ghost use Rattle.std.specs.Prelude.{◌≡◌, ◌<◌, true, false, IfOk, OnOk};

use disk_edge::{Disk, FileDisk, MemDisk};
use journal_core::{AppendFault, CreateFault, Header, Journal, LoadFault, peek_header};
use std::alloc::Global;
use std::fs;
use std::test::Fail;

// The payload of a change, and the file that has its record alone.
const PAYLOAD: [u8; 9] = *b"\x01\x01\0\0\0\x01CCO";

const FILE: [u8; 23] = *b"\x5aCHEMDB1\x5a\x09\0\0\0\x01\x01\0\0\0\x01CCO\0";

// A file of format 2: generation 1, version 5, two base records, of `ab` and `c`, and a record of `d`.
const SECOND: [u8; 38] =
    *b"\x5aCHEMDB2\x01\0\0\0\x05\0\0\0\x02\0\0\0\x02\0\0\0ab\x01\0\0\0c\x5a\x01\0\0\0d\0";

const SECOND_HEADER: Header = Header {
    generation: 1,
    base_version: 5,
    base_count: 2,
};

const FIRST_HEADER: Header = Header {
    generation: 0,
    base_version: 0,
    base_count: 0,
};

// Reads the base records, and returns their number.
fn skip_base<D: Disk>(journal: &mut Journal<D>) -> Result<u64, LoadFault>
    requires { journal.old.doubt ≡ false }
    ensures read { OnOk result (journal.new.left ≡ 0) }
    ensures settled { journal.new.doubt ≡ false }
{
    for count in 0..1000 {
        if journal.next_base()?.is_none() {
            return Ok(count);
        }
    }
    Err(LoadFault::NoMemory)
}

// The header of a journal, the number of its base records, and the place after them.
fn base_of(alloc: Global, disk: MemDisk) -> Result<(Header, u64, u64), LoadFault> {
    match Journal::load(alloc, disk) {
        Ok(journal) => {
            let mut journal = journal;
            let count = skip_base(&mut journal)?;
            Ok((journal.header(), count, journal.place()))
        }
        Err((fault, _)) => Err(fault),
    }
}

// A journal that is read to its end, and the number of its payloads.
fn read<D: Disk + Drop>(alloc: Global, disk: D) -> Result<(Journal<D>, u64), LoadFault>
    ensures { IfOk result (λ read. (read.0.ready ≡ true) × (read.0.doubt ≡ false)) }
{
    let mut journal = match Journal::load(alloc, disk) {
        Ok(journal) => journal,
        Err((fault, _)) => return Err(fault),
    };
    skip_base(&mut journal)?;
    for count in 0..1000 {
        if journal.next()?.is_none() {
            return Ok((journal, count));
        }
    }
    Err(LoadFault::NoMemory)
}

fn count<D: Disk + Drop>(alloc: Global, disk: D) -> Result<u64, LoadFault> {
    match read(alloc, disk) {
        Ok((_, count)) => Ok(count),
        Err(fault) => Err(fault),
    }
}

#[test]
fn a_record_is_written_as_its_bytes(rt: HostRuntime) -> Result<(), Fail> {
    let (disk, created) = Journal::create(MemDisk::new(rt.alloc()));
    let (mut journal, count) = read(rt.alloc(), disk)?;
    assert_eq!(rt; (created, count), (Ok(()), 0));
    assert!(rt; journal.place() < 100);
    assert_eq!(rt; journal.append(&PAYLOAD), Ok(()));
    let disk = journal.into_disk();
    assert_eq!(rt; disk.bytes(), FILE.as_slice());
    let (_, again) = Journal::create(disk);
    assert_eq!(rt; again, Err(CreateFault::NotEmpty));
    Ok(())
}

#[test]
fn a_file_cut_anywhere_is_told_apart(rt: HostRuntime) -> Result<(), Fail> {
    for len in 0..FILE.len() {
        let want = match len {
            0..8 => LoadFault::NotAStore,
            8..22 => LoadFault::Damaged(8),
            _ => LoadFault::Damaged(22),
        };
        let disk = MemDisk::of(rt.alloc(), FILE[..len].to_vec(rt.alloc())?)?;
        assert_eq!(rt; count(rt.alloc(), disk), Err(want), "{len}");
    }
    Ok(())
}

#[test]
fn a_base_stands_in_front_of_the_records(rt: HostRuntime) -> Result<(), Fail> {
    let rows: [(&[u8], Option<Header>, Result<(Header, u64, u64), LoadFault>); 7] = [
        (&FILE, Some(FIRST_HEADER), Ok((FIRST_HEADER, 0, 8))),
        (&SECOND, Some(SECOND_HEADER), Ok((SECOND_HEADER, 2, 31))),
        (
            &SECOND[..30],
            Some(SECOND_HEADER),
            Err(LoadFault::Damaged(26)),
        ),
        (
            &SECOND[..20],
            Some(SECOND_HEADER),
            Err(LoadFault::Damaged(20)),
        ),
        (&SECOND[..19], None, Err(LoadFault::NotAStore)),
        (
            b"\0CHEMDB2\0\0\0\0\0\0\0\0\0\0\0\0\0",
            None,
            Err(LoadFault::NotAStore),
        ),
        (
            b"\x5aCHEMDB2\x01\0\0\0\x05\0\0\0\x02\0\0\0\0\0\0\0\0",
            Some(SECOND_HEADER),
            Err(LoadFault::Damaged(20)),
        ),
    ];
    for (file, header, want) in rows {
        let mut disk = MemDisk::of(rt.alloc(), file.to_vec(rt.alloc())?)?;
        assert_eq!(rt; peek_header(&mut disk), Ok(header));
        assert_eq!(rt; base_of(rt.alloc(), disk), want);
    }
    let disk = MemDisk::of(rt.alloc(), SECOND.to_vec(rt.alloc())?)?;
    assert_eq!(rt; count(rt.alloc(), disk), Ok(1));
    Ok(())
}

// Calls that pass, the answer, and the number of payloads of each image.
const APPENDS: &[(u64, Result<(), AppendFault>, [u64; 6])] = &[
    (0, Err(AppendFault::Sure), [1, 1, 1, 1, 1, 1]),
    (1, Err(AppendFault::Sure), [1, 1, 1, 1, 1, 1]),
    (2, Err(AppendFault::Doubt), [1, 1, 2, 1, 1, 1]),
    (3, Err(AppendFault::Doubt), [2, 1, 2, 1, 1, 1]),
    (4, Ok(()), [2, 2, 2, 2, 2, 2]),
];

// The journal of the file, in memory.
fn journal(alloc: Global) -> Result<Journal<MemDisk>, Fail>
    ensures { IfOk result (λ j. (j.ready ≡ true) × (j.doubt ≡ false) × (j.place < 100)) }
{
    let disk = MemDisk::of(alloc, FILE.to_vec(alloc)?)?;
    let (journal, _) = read(alloc, disk)?;
    if journal.place() >= 100 {
        return Err(Fail::new("another place"));
    }
    Ok(journal)
}

// The answer of an append with this many calls that pass, and the number of payloads of an image of its disk.
fn stopped_append(
    alloc: Global,
    calls: u64,
    choice: u32,
) -> Result<(Result<(), AppendFault>, u64), Fail> {
    let mut journal = journal(alloc)?;
    journal.stop_after(calls);
    let answer = journal.append(&PAYLOAD);
    let count = count(alloc, journal.into_disk().image(choice))?;
    Ok((answer, count))
}

#[test]
fn a_crash_leaves_the_payload_or_not(rt: HostRuntime) -> Result<(), Fail> {
    for &(calls, answer, left) in APPENDS {
        for choice in 0..6 {
            assert_eq!(rt;
                stopped_append(rt.alloc(), calls, choice)?,
                (answer, left[choice as usize]),
                "{calls} {choice}"
            );
        }
    }
    Ok(())
}

// True if a journal is in doubt after the settlement of a doubtful append, and the number of payloads of an image of
// its disk.
fn settled(alloc: Global, choice: u32) -> Result<(bool, u64), Fail> {
    let mut journal = journal(alloc)?;
    journal.fail_once(4);
    let answer = journal.append(&PAYLOAD);
    if answer != Err(AppendFault::Doubt) || !journal.doubt() {
        return Err(Fail::new("not in doubt"));
    }
    journal.settle()?;
    let is_in_doubt = journal.doubt();
    let count = count(alloc, journal.into_disk().image(choice))?;
    Ok((is_in_doubt, count))
}

#[test]
fn a_settled_doubt_will_not_appear(rt: HostRuntime) -> Result<(), Fail> {
    for choice in 0..6 {
        assert_eq!(rt; settled(rt.alloc(), choice)?, (false, 1), "{choice}");
    }
    Ok(())
}

#[test]
fn a_file_keeps_a_journal(rt: HostRuntime) -> Result<(), Fail> {
    let path = "journal_core_test.bin";
    let _ = fs::remove_file(&rt, path);
    let (disk, created) = Journal::create(FileDisk::at(&rt, path, true));
    assert_eq!(rt; created, Ok(()));
    let (mut journal, _) = read(rt.alloc(), disk)?;
    assert!(rt; journal.place() < 100);
    assert_eq!(rt; journal.append(&PAYLOAD), Ok(()));
    drop(journal);
    assert_eq!(rt; count(rt.alloc(), FileDisk::at(&rt, path, false)), Ok(1));
    assert_eq!(rt; fs::read(&rt, path)?.as_slice(), FILE.as_slice());
    fs::remove_file(&rt, path)?;
    Ok(())
}
