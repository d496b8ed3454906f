//! A store's files before they are read: the bytes that an opening depends on are written again, and synced.
//!
//! If a sync fails, Linux takes the pages for written. It shows them as long as they lie in memory, and writes them no
//! more, whatever later syncs answer. A program that starts then would read bytes that the device may lack. Such pages
//! were written since the last sync that succeeded, for a disk makes no call after one that failed. An opening depends
//! on few of these bytes. They are the first one of each file, which opens or shuts it, the gate that was opened last,
//! and the closed one after its commit. Bytes before an open gate were synced before the gate was opened. Each of these
//! bytes is written with the value that it has. So the next sync brings its page to the device, or the opening fails.
ghost use Rattle.std.specs.Prelude.{◌≡◌, OnOk, false};

use disk_edge::{Disk, DiskFail, FileDisk};
use disk_pair::{Picked, load};
use journal_core::{Journal, LoadFault};
use std::alloc::{AllocError, Global};

/// The two files of a store, settled. `None` if one of them failed. If neither is open, no file is written; the gates
/// of a damaged file are not written.
pub fn settle(
    alloc: Global,
    a: FileDisk,
    b: FileDisk,
) -> Result<Option<(FileDisk, FileDisk)>, AllocError> {
    let Picked {
        journal,
        other,
        second,
    } = match load(alloc, a, b) {
        Ok(picked) => picked,
        Err((LoadFault::NotAStore, a, b)) => return Ok(Some((a, b))),
        Err((LoadFault::NoMemory, _, _)) => return Err(AllocError),
        Err(_) => return Ok(None),
    };
    let mut journal = journal;
    let found = match gates(&mut journal) {
        Ok(found) => Some(found),
        Err(LoadFault::Damaged(_)) => None,
        Err(LoadFault::NoMemory) => return Err(AllocError),
        Err(_) => return Ok(None),
    };
    let mut disk = journal.into_disk();
    let mut other = other;
    if write_gates(&mut disk, found).is_err()
        || write_start(&mut disk).is_err()
        || write_start(&mut other).is_err()
    {
        return Ok(None);
    }
    Ok(Some(if second { (other, disk) } else { (disk, other) }))
}

// Writes the gate that was opened last again, and the closed one.
fn write_gates(disk: &mut FileDisk, found: Option<(Option<u64>, u64)>) -> Result<(), DiskFail> {
    if let Some((opened, closed)) = found {
        if let Some(place) = opened {
            disk.write_again(place)?;
        }
        disk.write_again(closed)?;
    }
    Ok(())
}

// Writes the first byte again if the file begins as a store's does, and syncs it.
fn write_start(disk: &mut FileDisk) -> Result<(), DiskFail> {
    let mut start = [0; 7];
    if disk.len()? >= 7 {
        disk.read_at(0, &mut start)?;
    }
    if start[1..].starts_with(b"CHEMDB") {
        disk.write_again(0)?;
    }
    disk.sync()
}

// The places of the gate that was opened last, if there is one, and of the closed one after all commits.
fn gates(journal: &mut Journal<FileDisk>) -> Result<(Option<u64>, u64), LoadFault>
    requires settled { journal.old.doubt ≡ false }
{
    pass_base(journal)?;
    let mut opened = None;
    for _ in 0..u64::MAX {
        match journal.next()? {
            Some((place, _)) => opened = Some(place),
            None => break,
        }
    }
    Ok((opened, journal.place()))
}

// Passes the records of the base.
fn pass_base(journal: &mut Journal<FileDisk>) -> Result<(), LoadFault>
    requires settled { journal.old.doubt ≡ false }
    ensures settled { journal.new.doubt ≡ false }
    ensures end { OnOk result (journal.new.left ≡ 0) }
{
    for _ in 0..u64::MAX {
        if journal.next_base()?.is_none() {
            return Ok(());
        }
    }
    Err(LoadFault::NotAStore)
}
