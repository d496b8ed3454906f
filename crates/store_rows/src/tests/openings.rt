//! Journals that are longer than what is read together, opened by one worker and by several.

use disk_edge::MemDisk;
use journal_core::LoadFault;
use std::alloc::{AllocError, Global};
use std::test::Fail;
use std::thread::Threads;
use store_core::{Service, Stats};
use store_disk::{Disks, Store};

// The start of the molfile of each commit: one atom. Blank lines are behind it.
const ATOM: &[u8] = b"\n\n\n  1  0  0  0  0  0  0  0  0  0999 V2000
    0.0000    0.0000    0.0000 O   0  0  0  0  0  0\nM  END\n";

// How long each of these texts is.
const TEXT: u32 = 16_000;

// The place of the commit of this number, counted from 0. The first that is 262,144 bytes behind the front is 17.
fn place(number: u32) -> u64 {
    8 + u64::from(number) * (11 + u64::from(TEXT))
}

// How many commits a file has, the numbers of those without a structure, how many bytes its end lacks, and the version
// that is opened, or the number of the commit that is told.
type Row = (u32, &'static [u32], usize, Result<u32, u32>);

#[rattlefmt::skip]
const ROWS: &[Row] = &[
    (0, &[], 0, Ok(0)),
    (17, &[], 0, Ok(17)),
    (18, &[], 0, Ok(18)),
    (36, &[], 0, Ok(36)),
    (20, &[0], 0, Err(0)),
    (20, &[17], 0, Err(17)),
    (20, &[18], 0, Err(18)),
    (20, &[18, 3, 17], 0, Err(3)),
    (20, &[3], 2, Err(19)),
];

// A file of registrations under identifiers from 1 on.
fn journal(
    alloc: Global,
    commits: u32,
    without: &[u32],
    lacks: usize,
) -> Result<Vec<u8>, AllocError> {
    let mut file = b"ZCHEMDB1".to_vec(alloc)?;
    for number in 0..commits {
        let end = file.len().saturating_add(11 + TEXT as usize);
        file.push(b'Z')?;
        file.extend_from_slice(&(6 + TEXT).to_le_bytes())?;
        file.push(1)?;
        file.extend_from_slice(&number.saturating_add(1).to_le_bytes())?;
        file.push(2)?;
        let text = if without.contains(&number) {
            &ATOM[1..]
        } else {
            ATOM
        };
        file.extend_from_slice(text)?;
        file.resize(end, b'\n')?;
    }
    file.push(0)?;
    file.truncate(file.len().saturating_sub(lacks));
    Ok(file)
}

// What is opened of a file by this number of workers; by `load`, if there are none.
fn opened<R: Threads + Sync>(
    rt: &R,
    alloc: Global,
    workers: u32,
    file: &[u8],
) -> Result<Stats, LoadFault> {
    let a = MemDisk::of(alloc, file.to_vec(alloc)?)?;
    let disks = Disks {
        a,
        b: MemDisk::new(alloc),
    };
    let loaded = if workers == 0 {
        Store::load(alloc, disks, 1_000)
    } else {
        Store::load_by(rt, workers, alloc, disks, 1_000)
    };
    match loaded {
        Ok(mut store) => match store.stats() {
            Ok(stats) => Ok(stats),
            Err(_) => Err(LoadFault::NoMemory),
        },
        Err((fault, _)) => Err(fault),
    }
}

#[test]
fn the_first_commit_that_cannot_be_made_is_told(rt: HostRuntime) -> Result<(), Fail> {
    let alloc = rt.alloc();
    for (commits, without, lacks, want) in ROWS {
        let file = journal(alloc, *commits, without, *lacks)?;
        let want = match *want {
            Ok(version) => Ok(version),
            Err(number) => Err(LoadFault::Damaged(place(number))),
        };
        for workers in [0, 1, 3] {
            let found = match opened(&rt, alloc, workers, file.as_slice()) {
                Ok(stats) => Ok(stats.version),
                Err(fault) => Err(fault),
            };
            assert_eq!(rt; found, want, "{commits} {without:?} {workers}");
        }
    }
    Ok(())
}

// A base of 40 entries, of which one may have a text that is no SMILES, and no commit.
fn base(alloc: Global, without: Option<u32>) -> Result<Vec<u8>, AllocError> {
    let mut file = b"ZCHEMDB2\x01\0\0\0\x28\0\0\0\x28\0\0\0".to_vec(alloc)?;
    for id in 1..41_u32 {
        file.extend_from_slice(b"\x0b\0\0\0\x04")?;
        file.extend_from_slice(&id.to_le_bytes())?;
        file.extend_from_slice(&id.to_le_bytes())?;
        file.push(1)?;
        file.push(if without == Some(id) { b'(' } else { b'C' })?;
    }
    file.push(0)?;
    Ok(file)
}

#[test]
fn the_first_entry_without_a_structure_is_told(rt: HostRuntime) -> Result<(), Fail> {
    let alloc = rt.alloc();
    for (without, want) in [
        (None, Ok(40)),
        (Some(1), Err(LoadFault::Damaged(20))),
        (Some(25), Err(LoadFault::Damaged(20 + 24 * 15))),
        (Some(40), Err(LoadFault::Damaged(20 + 39 * 15))),
    ] {
        let file = base(alloc, without)?;
        for workers in [0, 1, 4, 16] {
            let found = match opened(&rt, alloc, workers, file.as_slice()) {
                Ok(stats) => Ok(stats.live),
                Err(fault) => Err(fault),
            };
            assert_eq!(rt; found, want, "{without:?} {workers}");
        }
    }
    Ok(())
}
