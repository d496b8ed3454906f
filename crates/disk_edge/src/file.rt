//! A file as a disk, the trusted edge: no contract knows the bytes of std's files, so its content is not known.
//! Contracts see only its count of faults.

ghost use Rattle.std.specs.Prelude.{◌≡◌};
ghost use Rattle.disk_edge.specs.File as silent;
ghost use Rattle.disk_edge.specs.Untold.{in_parts};

use crate::disk::{Disk, DiskFail};
use std::fs;
use std::fs::{File, Files, Metadata, OpenOptions};
use std::io::ErrorKind;
use std::marker::Model;
use std::os::fd::AsRawFd;
use std::os::unix::fs::{FileExt, MetadataExt};
use std::path::Path;

/// A file as a disk, locked as long as the disk is there. Each call on a file that could not be opened fails, and each
/// failed call counts. After a sync that failed each call fails: the system may show bytes then that the device has not
/// got, and takes them for written. The lock stays.
#[derive(Drop)]
pub struct FileDisk {
    file: Option<Held>,
    lost: bool,
    faults: u64,
}

// A path that could be opened: its file, or nothing.
#[derive(Drop)]
enum Held {
    Open(File),
    // Nothing is there: no bytes, and no room for any.
    Absent,
}

impl Model for FileDisk {
    ghost use Rattle.std.specs.Prelude.{ℕ};

    ghost Value = { ℕ };

    ghost view = { λ d. d.faults };
}

impl FileDisk {
    /// The regular file of this path, for reading and writing, synced, under an exclusive lock that the disk holds.
    /// With `create` it is made if nothing is there. If the path names something else, the file has a second name,
    /// another holds the lock, or the sync failed, each call of the disk fails. So it is if a standard stream is
    /// closed, since the file would take its place. No byte of anything was changed then.
    pub fn at<R: Files<File = File>>(rt: &R, path: &str, create: bool) -> FileDisk
        ensures { result ≡ 0 }
    {
        let file = if create {
            found_or_made(rt, path)
        } else {
            found(rt, path)
        };
        FileDisk::holding(file.map(Held::Open))
    }

    /// The file of this path, as by `at`, if something is there. Else a disk without bytes, at which each read and each
    /// write fails.
    pub fn if_there<R: Files<File = File>>(rt: &R, path: &str) -> FileDisk
        ensures { result ≡ 0 }
    {
        match fs::symlink_metadata(rt, path) {
            Err(error) if error.kind() == ErrorKind::NotFound => FileDisk::holding(Some(
                Held::Absent,
            )),
            _ => FileDisk::at(rt, path, false),
        }
    }

    /// A file that could not be opened.
    pub fn none() -> FileDisk
        ensures { result ≡ 0 }
    {
        FileDisk::holding(None)
    }

    /// Writes the byte at `place` again, with the value that a read gives. The next sync then writes its page, even if
    /// the system took the page for written when a sync of it failed.
    pub fn write_again(&mut self, place: u64) -> Result<(), DiskFail>
        ensures { silent.Counted result self.old self.new }
    {
        let given = write_again(self.usable(), place);
        self.counted(given)
    }

    /// Cuts the file to no bytes, and syncs it. No contract of a store allows it: it is for a file that is not read.
    pub fn cut(&mut self) -> Result<(), DiskFail>
        ensures { silent.Counted result self.old self.new }
    {
        let given = cut(self.usable());
        self.lost = given.is_none();
        self.counted(given)
    }

    // A disk without a fault.
    fn holding(file: Option<Held>) -> FileDisk
        ensures { result ≡ 0 }
    {
        FileDisk {
            file,
            lost: false,
            faults: 0,
        }
    }

    // The file, as long as no sync of it failed.
    fn usable(&self) -> Option<&Held> {
        if self.lost { None } else { self.file.as_ref() }
    }

    // The result of a call; if it is missing, a fault is counted.
    fn counted<T: Drop>(&mut self, given: Option<T>) -> Result<T, DiskFail>
        ensures { silent.Counted result self.old self.new }
    {
        let faults = self.faults;
        match given {
            Some(value) => Ok(value),
            None => {
                self.faults = faults.saturating_add(1);
                Err(DiskFail::Failed)
            }
        }
    }
}

impl Disk for FileDisk {
    ghost model = { silent.model };

    fn len(&mut self) -> Result<u64, DiskFail> {
        let given = length_of(self.usable());
        self.counted(given)
    }

    fn read_at(&mut self, at: u64, room: &mut [u8]) -> Result<(), DiskFail> {
        let given = read(self.usable(), at, room);
        self.counted(given)
    }

    fn write_at(&mut self, at: u64, bytes: &[u8]) -> Result<(), DiskFail> {
        let given = write(self.usable(), at, bytes);
        self.counted(given)
    }

    fn sync(&mut self) -> Result<(), DiskFail> {
        let given = sync(self.usable());
        self.lost = given.is_none();
        self.counted(given)
    }

    ghost content_is_image = { λ _ _ _. tt };

    ghost loose = { λ _ _ _ _ _ _ _ _ _. tt };

    ghost counts_now = { λ _ _ _. tt };

    ghost only_now = { λ _ _ _. tt };

    ghost parts = { in_parts };

    ghost whole = { λ _ _ _ _ _ _ _ _ _. tt };

    ghost within = { silent.no_bound };
}

// The file of this path. The path is looked at first, since opening a device or a pipe may do something to it.
fn found<R: Files<File = File>>(rt: &R, path: &str) -> Option<File> {
    if !fs::metadata(rt, path).ok()?.is_file() {
        return None;
    }
    let file = OpenOptions::new()
        .read(true)
        .write(true)
        .open(rt, path)
        .ok()?;
    locked(rt, path, file)
}

// The file of this path, which is made if nothing is there, not even a link. A file without bytes may be one that
// another program made before it was stopped. So its folder is synced too: its name is kept before the first byte is
// written.
fn found_or_made<R: Files<File = File>>(rt: &R, path: &str) -> Option<File> {
    if fs::symlink_metadata(rt, path).is_err() {
        return made(rt, path);
    }
    let file = found(rt, path)?;
    if file.metadata().ok()?.len() == 0 {
        folder_at(rt, folder_of(path))?.sync_all().ok()?;
    }
    Some(file)
}

// A new file of this path. Its folder is opened before, so that no file is made if a standard stream is closed.
fn made<R: Files<File = File>>(rt: &R, path: &str) -> Option<File> {
    let folder = folder_at(rt, folder_of(path))?;
    let file = File::create_new(rt, path).ok()?;
    let file = locked(rt, path, file)?;
    folder.sync_all().ok()?;
    Some(file)
}

// The folder of this path, open. It is looked at first, since opening a pipe may wait.
fn folder_at<R: Files<File = File>>(rt: &R, path: &str) -> Option<File> {
    if !fs::metadata(rt, path).ok()?.is_dir() {
        return None;
    }
    let folder = File::open(rt, path).ok()?;
    if is_apart(&folder) {
        Some(folder)
    } else {
        None
    }
}

// The path of the folder that a path names its file in.
fn folder_of(path: &str) -> &str {
    match Path::new(path).parent() {
        Some(folder) if !folder.as_str().is_empty() => folder.as_str(),
        _ => ".",
    }
}

// Locks and syncs the file. `None` if it is not regular, shares a descriptor with a standard stream, is locked, or
// could not be synced. Also `None` if the path names another file, or a hard link gives it a second name, and so a
// second other file.
fn locked<R: Files<File = File>>(rt: &R, path: &str, file: File) -> Option<File> {
    if !is_apart(&file) || file.try_lock().is_err() {
        return None;
    }
    let opened = file.metadata().ok()?;
    let named = fs::metadata(rt, path).ok()?;
    if opened.is_file() && opened.nlink() <= 1 && is_same(&opened, &named) {
        settled(file)
    } else {
        None
    }
}

// The file, if its writes that were not synced could be synced now.
fn settled(file: File) -> Option<File> {
    file.sync_all().ok()?;
    Some(file)
}

// True if both are of one file.
fn is_same(a: &Metadata, b: &Metadata) -> bool {
    a.dev() == b.dev() && a.ino() == b.ino()
}

// True if a file has none of the descriptors of the standard streams.
fn is_apart(file: &File) -> bool {
    file.as_raw_fd() > 2
}

// The file that is open.
fn open(held: Option<&Held>) -> Option<&File> {
    match held? {
        Held::Open(file) => Some(file),
        Held::Absent => None,
    }
}

fn length_of(held: Option<&Held>) -> Option<u64> {
    match held? {
        Held::Open(file) => Some(file.metadata().ok()?.len()),
        Held::Absent => Some(0),
    }
}

fn read(held: Option<&Held>, at: u64, room: &mut [u8]) -> Option<()> {
    open(held)?.read_exact_at(room, at).ok()
}

fn write(held: Option<&Held>, at: u64, bytes: &[u8]) -> Option<()> {
    open(held)?.write_all_at(bytes, at).ok()
}

fn write_again(held: Option<&Held>, place: u64) -> Option<()> {
    let mut byte = [0];
    read(held, place, &mut byte)?;
    write(held, place, &byte)
}

fn sync(held: Option<&Held>) -> Option<()> {
    match held? {
        Held::Open(file) => file.sync_all().ok(),
        Held::Absent => Some(()),
    }
}

fn cut(held: Option<&Held>) -> Option<()> {
    let file = open(held)?;
    file.set_len(0).ok()?;
    file.sync_all().ok()
}
