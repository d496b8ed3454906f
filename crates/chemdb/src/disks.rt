//! The two files of a store, opened for the command, and the cut of the one that is no longer read.

use crate::settle::settle;
use chem_shell::{Plan, Verb};
use disk_edge::{Disk, DiskFail, FileDisk};
use disk_pair::{Which, which_is_read};
use journal_core::peek_header;
use std::alloc::{AllocError, Global};
use std::fs::{self, File, Files};
use std::io::ErrorKind;

/// The two disks of the command and the path of the first one's file. If both files are held and one of them is open,
/// also the generation that is read: a store is there then, and stays locked.
#[derive(Drop)]
pub struct Opened {
    pub path: Option<String>,
    pub a: FileDisk,
    pub b: FileDisk,
    pub generation: Option<u32>,
}

/// The disks of the named store: its file, which `init` makes if it is missing, and the file of its name with `.2`
/// appended. If the name is a link, the store is the file that it leads to, and the second file lies beside that. The
/// second is made only beside a store, or if `init` finds no bytes. A name that is another file's second file opens
/// nothing.
pub fn open_disks<R: AllocGlobal + Files<File = File>>(
    rt: &R,
    alloc: Global,
    plan: &Plan<'_>,
) -> Result<Opened, AllocError> {
    let path = match plan.file {
        Some(path) => followed(rt, alloc, path)?,
        None => None,
    };
    let Some(path) = path else {
        return Ok(none());
    };
    let second = format!(in alloc; "{}.2", path.as_str())?;
    if plan.command == Verb::Init {
        let (a, b) = new_disks(rt, path.as_str(), second.as_str());
        return Ok(Opened {
            path: Some(path),
            a,
            b,
            generation: None,
        });
    }
    let (a, b) = store_disks(rt, path.as_str(), second.as_str());
    let settled = settle(alloc, a, b)?;
    Ok(match settled {
        Some((a, b)) => measured(path, a, b),
        None => none(),
    })
}

/// Cuts the file that is not read, if the generation that is read is greater than it was. Then a compaction ended
/// since, and each record of the store is in the file that is read. Both are synced first. If a disk fails, nothing is
/// cut.
pub fn cut_other(a: &mut FileDisk, b: &mut FileDisk, before: u32) {
    if let Ok(Some((which, generation))) = current(a, b) {
        if generation > before {
            let _ = match which {
                Which::First => b.cut(),
                Which::Second => a.cut(),
            };
        }
    }
}

// No store.
fn none() -> Opened {
    Opened {
        path: None,
        a: FileDisk::none(),
        b: FileDisk::none(),
        generation: None,
    }
}

// The path of the file that a path leads to. `None` for a link that leads nowhere, and for a file that is another's
// second file. By that name it would be one store's first file and the other's second.
fn followed<R: AllocGlobal + Files<File = File>>(
    rt: &R,
    alloc: Global,
    path: &str,
) -> Result<Option<String>, AllocError> {
    if !is_link(rt, path) {
        return of_first(rt, alloc, path);
    }
    match fs::canonicalize(rt, path) {
        Ok(end) => of_first(rt, alloc, end.as_str()),
        Err(error) if error.kind() == ErrorKind::OutOfMemory => Err(AllocError),
        Err(_) => Ok(None),
    }
}

// The path, if it is no second file's: if it does not end in `.2`, or no file has the name before that.
fn of_first<R: AllocGlobal + Files<File = File>>(
    rt: &R,
    alloc: Global,
    path: &str,
) -> Result<Option<String>, AllocError> {
    match path.strip_suffix(".2") {
        Some(first) if is_file(rt, first) => Ok(None),
        _ => Ok(Some(format!(in alloc; "{path}")?)),
    }
}

// True if a path leads to a regular file.
fn is_file<R: Files<File = File>>(rt: &R, path: &str) -> bool {
    match fs::metadata(rt, path) {
        Ok(found) => found.is_file(),
        Err(_) => false,
    }
}

// True if a path names a link.
fn is_link<R: Files<File = File>>(rt: &R, path: &str) -> bool {
    match fs::symlink_metadata(rt, path) {
        Ok(found) => found.is_symlink(),
        Err(_) => false,
    }
}

// The files of a store that is to be made. The second is made only beside a first without bytes.
fn new_disks<R: Files<File = File>>(rt: &R, path: &str, second: &str) -> (FileDisk, FileDisk) {
    let mut a = FileDisk::at(rt, path, true);
    let b = match a.len() {
        Ok(0) => FileDisk::at(rt, second, true),
        _ => FileDisk::none(),
    };
    (a, b)
}

// The files of a store that is there. The second is made only beside a store.
fn store_disks<R: Files<File = File>>(rt: &R, path: &str, second: &str) -> (FileDisk, FileDisk) {
    let mut a = FileDisk::at(rt, path, false);
    let b = match peek_header(&mut a) {
        Ok(Some(_)) => FileDisk::at(rt, second, true),
        Ok(None) => FileDisk::if_there(rt, second),
        Err(_) => FileDisk::none(),
    };
    (a, b)
}

// The two with their generation. If one of them fails, neither is held.
fn measured(path: String, a: FileDisk, b: FileDisk) -> Opened {
    let (mut a, mut b) = (a, b);
    match current(&mut a, &mut b) {
        Ok(found) => Opened {
            path: Some(path),
            a,
            b,
            generation: found.map(|(_, generation)| generation),
        },
        Err(_) => none(),
    }
}

// Syncs both, and returns the one that is read, and its generation. `None` if neither is open.
fn current(a: &mut FileDisk, b: &mut FileDisk) -> Result<Option<(Which, u32)>, DiskFail> {
    let Some(which) = which_is_read(a, b)? else {
        return Ok(None);
    };
    let header = match which {
        Which::First => peek_header(a)?,
        Which::Second => peek_header(b)?,
    };
    match header {
        Some(header) => Ok(Some((which, header.generation))),
        None => Ok(None),
    }
}
