//! The ends of `serve`: scripts in files, and files for their replies.
ghost use Rattle.std.specs.Prelude.{◌<◌, ◌^◌, IfOk, length, ◌≡◌, None};

use chem_shell::{End, status};
use io_edge::{PutFault, Sink, Source, StdSink, StdSource, Take};
use std::alloc::{AllocError, Global};
use std::fs::{self, File, Files, Metadata, OpenOptions};
use std::os::unix::fs::{FileExt, MetadataExt};

/// A script's file, under a shared lock. Each read fails if the file could not be opened, or if its lock was held by a
/// writer.
#[derive(Drop)]
pub struct Script {
    file: Option<StdSource<File>>,
    faults: u64,
    ghost held: { faults < 2 ^ 64 },
}

impl Script {
    fn open<R: Files<File = File>>(rt: &R, path: &str) -> Script {
        Script {
            file: readable(rt, path).map(StdSource::new),
            faults: 0,
        }
    }
}

impl Source for Script {
    ghost left = { λ _. None };

    ghost faults = { λ s. s.faults };

    fn take(&mut self, room: &mut [u8]) -> Take {
        let taken = match &mut self.file {
            Some(file) => file.take(room),
            None => Take::Failed,
        };
        if taken == Take::Failed {
            self.faults = self.faults.saturating_add(1);
        }
        taken
    }
}

/// A file for replies, under an exclusive lock. Each write fails if the file could not be made, or if its lock was held
/// by a reader or a writer.
#[derive(Drop)]
pub struct Replies {
    file: Option<StdSink<File>>,
    faults: u64,
    ghost held: { faults < 2 ^ 64 },
}

impl Replies {
    // No file: each write fails.
    fn none() -> Replies {
        Replies {
            file: None,
            faults: 0,
        }
    }

    // The file of this path, made if nothing is there, and emptied.
    fn create<R: Files<File = File>>(rt: &R, path: &str, scripts: &[&str]) -> Replies {
        Replies {
            file: emptied(rt, path, scripts).map(StdSink::new),
            faults: 0,
        }
    }
}

impl Sink for Replies {
    ghost written = { λ _. None };

    ghost faults = { λ s. s.faults };

    fn put(&mut self, bytes: &[u8]) -> Result<(), PutFault> {
        let put = match &mut self.file {
            Some(file) => file.put(bytes),
            None => Err(PutFault::Failed),
        };
        if put == Err(PutFault::Failed) {
            self.faults = self.faults.saturating_add(1);
        }
        put
    }
}

/// An end for each script. It reads the file of that name, and its replies go to the file of that name with `.out`
/// appended, which is emptied before.
///
/// Replies never replace the store, a script or another script's replies. All scripts are opened and locked first, and
/// a locked file stays as it is. So does a file that begins as a store does. Without `has_store` the files of the store
/// may not be locked, so no file for replies is made or emptied.
pub fn script_ends<R: Files<File = File>>(
    rt: &R,
    alloc: Global,
    scripts: &[&str],
    has_store: bool,
) -> Result<Vec<End<Script, Replies>>, AllocError>
    ensures { IfOk result (λ ends. length ends.items ≡ length scripts.now) }
{
    let mut ends = open_scripts(rt, alloc, scripts)?;
    if has_store {
        create_replies(rt, alloc, scripts, &mut ends)?;
    }
    Ok(ends)
}

// An end for each script, which has no file for its replies yet.
fn open_scripts<R: Files<File = File>>(
    rt: &R,
    alloc: Global,
    scripts: &[&str],
) -> Result<Vec<End<Script, Replies>>, AllocError>
    ensures { IfOk result (λ ends. length ends.items ≡ length scripts.now) }
{
    let mut ends = Vec::with_capacity(alloc, scripts.len())?;
    for script in scripts {
        ends.push(End {
            source: Script::open(rt, script),
            sink: Replies::none(),
            status: status::DONE,
        })?;
    }
    Ok(ends)
}

// Opens the file for the replies to each script.
fn create_replies<R: Files<File = File>>(
    rt: &R,
    alloc: Global,
    scripts: &[&str],
    ends: &mut [End<Script, Replies>],
) -> Result<(), AllocError>
    ensures { length ends.new ≡ length ends.old }
{
    for (end, script) in ends.iter_mut().zip(scripts) {
        let replies = format!(in alloc; "{script}.out")?;
        end.sink = Replies::create(rt, replies.as_str(), scripts);
    }
    Ok(())
}

// The file of this path, open for reading, under a shared lock. `None` if it cannot be opened, or if a writer holds its
// lock.
fn readable<R: Files<File = File>>(rt: &R, path: &str) -> Option<File> {
    let file = File::open(rt, path).ok()?;
    file.try_lock_shared().ok()?;
    Some(file)
}

// The file of this path, open for writing, under an exclusive lock, and empty. It is made if nothing is there. `None`,
// and the file is unchanged, if its lock is held, if it is one of the scripts, or if it may be a store. (A script may
// not be open, and so not be locked.) No pipe or terminal is emptied.
fn emptied<R: Files<File = File>>(rt: &R, path: &str, scripts: &[&str]) -> Option<File> {
    let file = OpenOptions::new()
        .write(true)
        .create(true)
        .open(rt, path)
        .ok()?;
    file.try_lock().ok()?;
    let found = file.metadata().ok()?;
    if is_script(rt, &found, scripts) {
        return None;
    }
    if found.is_file() {
        if may_be_store(rt, path, &found) {
            return None;
        }
        file.set_len(0).ok()?;
    }
    Some(file)
}

// True if this file is one of the scripts, by whatever name.
fn is_script<R: Files<File = File>>(rt: &R, file: &Metadata, scripts: &[&str]) -> bool {
    for script in scripts {
        if let Ok(named) = fs::metadata(rt, script) {
            if is_same(&named, file) {
                return true;
            }
        }
    }
    false
}

// True if both are the same file.
fn is_same(a: &Metadata, b: &Metadata) -> bool {
    a.dev() == b.dev() && a.ino() == b.ino()
}

// True if the file of this path begins as a store does, or if it cannot be read. False if it is too short for one.
fn may_be_store<R: Files<File = File>>(rt: &R, path: &str, file: &Metadata) -> bool {
    if file.len() < 8 {
        return false;
    }
    match start_of(rt, path, file) {
        Some(start) => is_start(&start),
        None => true,
    }
}

// The first bytes of the file of this path. `None` if the path names another file by now, or cannot be read.
fn start_of<R: Files<File = File>>(rt: &R, path: &str, file: &Metadata) -> Option<[u8; 8]> {
    let opened = File::open(rt, path).ok()?;
    if !is_same(&opened.metadata().ok()?, file) {
        return None;
    }
    let mut start = [0; 8];
    opened.read_exact_at(&mut start, 0).ok()?;
    Some(start)
}

// True if a store begins with these bytes. The first one, its gate, may be any: a copy that was not finished has a shut
// one.
fn is_start(start: &[u8; 8]) -> bool {
    matches!(start, [_, b'C', b'H', b'E', b'M', b'D', b'B', b'1' | b'2'])
}
