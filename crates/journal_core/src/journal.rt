//! A journal that is appended to. `append` is an atomic commit: first the record is written after a gate that is not
//! open, with a closed gate after it, and synced. Then the gate is opened, and synced.

ghost use Rattle.std.specs.Prelude.{◌≡◌, ◌≢◌, ◌<◌, ◌≤◌, ◌+◌, ◌^◌, [], ◌∷◌, ◌++◌, ℕ, List, None, Some, drop, take, true, false, length, OnOk, OnErr, IfOk};
ghost use Rattle.disk_edge.specs.Disk.{IfTold, Keeps, OnFailed, OnNoMemory, Counted, Faulted};
ghost use Rattle.disk_edge.specs.Moments.{AtEachMoment};
ghost use Rattle.journal_core.specs.Answers.{OnSure, OnDoubt, OnWant, is_doubt};
ghost use Rattle.journal_core.specs.Journal.{Rests, Doubts};
ghost use Rattle.journal_core.specs.Records.{Opens, IsShort, body, BeforeOrAfter};
ghost use Rattle.journal_core.specs.declared.format.TheConstants.{CLOSED, OPEN};

use crate::faults::AppendFault;
use crate::format::{CLOSED, OPEN};
use crate::header::Header;
use crate::synced::put;
use crate::window::Window;
use disk_edge::{Disk, DiskFail, MemDisk};
use std::alloc::{AllocError, Global};
use std::marker::Model;

/// A journal on a disk, at a gate: of the next record to read, or of the next to append.
#[derive(Drop)]
pub struct Journal<D: Disk> {
    // for the window, which may grow after the journal was made
    pub(crate) alloc: Global,
    pub(crate) disk: D,
    pub(crate) header: Header,
    pub(crate) left: u32,
    pub(crate) window: Window,
    pub(crate) place: u64,
    pub(crate) ready: bool,
    pub(crate) doubt: bool,
}

impl<D: Disk> Model for Journal<D> {
    ghost use Rattle.journal_core.specs.Standing.{Standing};

    ghost Value = { Standing D };

    ghost use Rattle.journal_core.specs.Inside.{IsSound};

    ghost view = { λ j. record {
      disk = j.disk;
      header = j.header;
      left = j.left;
      place = j.place;
      ready = j.ready;
      doubt = j.doubt;
    } };

    ghost invariant = { λ j. IsSound (D.model.content j.disk) j.window j.place j.ready j.doubt };
}

impl<D: Disk> Journal<D> {
    /// A journal at a gate that is not open, which may be appended to. The gate is at this place of the disk, and the
    /// header is the disk's. An open gate is refused, since an append would write over its record. Takes no memory.
    pub fn at_gate(alloc: Global, disk: D, header: Header, place: u64) -> Journal<D>
        requires gate { IfTold (D.model.content disk) (λ l. place < length l) }
        requires shut { IfTold (D.model.content disk) (λ l. take 1 (drop place l) ≢ OPEN ∷ []) }
        ensures { result ≡ record {
          disk = disk;
          header = header;
          left = 0;
          place = place;
          ready = true;
          doubt = false;
        } }
    {
        Journal {
            alloc,
            disk,
            header,
            left: 0,
            window: Window::unknown(alloc),
            place,
            ready: true,
            doubt: false,
        }
    }

    /// Adds a payload of 1 to 1,048,576 bytes at the journal's gate. At `Ok` it is acknowledged: no later crash loses
    /// it.
    pub fn append(&mut self, payload: &[u8]) -> Result<(), AppendFault>
        requires ready { self.old.ready ≡ true }
        requires sure { self.old.doubt ≡ false }
        requires some { 1 ≤ length payload.now }
        requires few { IsShort payload.now }
        requires room { self.old.place < 2 ^ 62 }

        ensures ok { OnOk result ((front : List ℕ) (ps : List (List ℕ))
            → Rests D.model self.old front ps
            → Rests D.model self.new front (ps ++ payload.now ∷ [])) }
        ensures sure { OnSure result ((front : List ℕ) (ps : List (List ℕ))
            → Rests D.model self.old front ps → Rests D.model self.new front ps) }
        ensures no_image { OnSure result ((front : List ℕ) (ps : List (List ℕ))
            → Rests D.model self.old front ps → (c : List ℕ) → D.model.images self.new.disk c
            → ¬ Opens front (ps ++ payload.now ∷ []) c) }
        ensures doubt { OnDoubt result ((front : List ℕ) (ps : List (List ℕ))
            → Rests D.model self.old front ps → Doubts D.model self.new front ps payload.now) }
        ensures no_memory { OnWant result ((front : List ℕ) (ps : List (List ℕ))
            → Rests D.model self.old front ps → Rests D.model self.new front ps) }
        ensures untold { D.model.content self.old.disk ≡ None
            → D.model.content self.new.disk ≡ None }
        ensures in_doubt { self.new.doubt ≡ is_doubt result }
        ensures ready { self.new.ready ≡ true }
        ensures header { (self.new.header ≡ self.old.header) × (self.new.left ≡ self.old.left) }
        ensures moved { OnOk result (self.new.place ≡ self.old.place + 5 + length payload.now) }
        ensures stays { OnErr result (self.new.place ≡ self.old.place) }

        // A crash at any moment of the call leaves the payloads from before it, with the new one or without.
        ensures moments { (front : List ℕ) (ps : List (List ℕ)) → Rests D.model self.old front ps
            → AtEachMoment D.model self.old.disk self.new.disk
            (BeforeOrAfter front ps payload.now) }
        ensures past { Keeps D.model self.old.disk self.new.disk }

        ensures sure_cause { OnSure result (Faulted D.model self.old.disk self.new.disk) }
        ensures doubt_cause { OnDoubt result (Faulted D.model self.old.disk self.new.disk) }
        ensures count { Counted D.model self.old.disk self.new.disk }
    {
        let Ok(staged) = staged_bytes(self.alloc, payload) else {
            return Err(AppendFault::NoMemory);
        };
        self.window.forget();
        match put(&mut self.disk, self.place + 1, &staged) {
            Ok(()) => {}
            Err(DiskFail::Failed) => return Err(AppendFault::Sure),
            Err(DiskFail::NoMemory) => return Err(AppendFault::NoMemory),
        }
        match put(&mut self.disk, self.place, &[OPEN]) {
            Ok(()) => {}
            Err(DiskFail::Failed) => {
                self.doubt = true;
                return Err(AppendFault::Doubt);
            }
            Err(DiskFail::NoMemory) => return Err(AppendFault::NoMemory),
        }
        self.place += 5 + payload.len() as u64;
        Ok(())
    }

    /// Ends a doubt. At `Ok` the payload in doubt will not appear.
    pub fn settle(&mut self) -> Result<(), DiskFail>
        requires doubt { self.old.doubt ≡ true }

        ensures ok { OnOk result ((front : List ℕ) (ps : List (List ℕ)) (p : List ℕ)
            → Doubts D.model self.old front ps p → Rests D.model self.new front ps) }
        ensures gone { OnOk result ((front : List ℕ) (ps : List (List ℕ)) (p : List ℕ)
            → Doubts D.model self.old front ps p → (c : List ℕ) → D.model.images self.new.disk c
            → ¬ Opens front (ps ++ p ∷ []) c) }
        ensures failed { OnFailed result ((front : List ℕ) (ps : List (List ℕ)) (p : List ℕ)
            → Doubts D.model self.old front ps p → Doubts D.model self.new front ps p) }
        ensures no_memory { OnNoMemory result ((front : List ℕ) (ps : List (List ℕ)) (p : List ℕ)
            → Doubts D.model self.old front ps p → Doubts D.model self.new front ps p) }
        ensures untold { D.model.content self.old.disk ≡ None
            → D.model.content self.new.disk ≡ None }
        ensures settled { OnOk result (self.new.doubt ≡ false) }
        ensures in_doubt { OnErr result (self.new.doubt ≡ true) }
        ensures ready { self.new.ready ≡ true }
        ensures header { (self.new.header ≡ self.old.header) × (self.new.left ≡ self.old.left) }
        ensures place { self.new.place ≡ self.old.place }

        // A crash at any moment of the call leaves the payloads without the one in doubt or with it.
        ensures moments { (front : List ℕ) (ps : List (List ℕ)) (p : List ℕ)
            → Doubts D.model self.old front ps p
            → AtEachMoment D.model self.old.disk self.new.disk (BeforeOrAfter front ps p) }
        ensures past { Keeps D.model self.old.disk self.new.disk }

        ensures cause { OnFailed result (Faulted D.model self.old.disk self.new.disk) }
        ensures count { Counted D.model self.old.disk self.new.disk }
    {
        self.window.forget();
        match put(&mut self.disk, self.place, &[CLOSED]) {
            Ok(()) => {
                self.doubt = false;
                Ok(())
            }
            Err(DiskFail::Failed) => Err(DiskFail::Failed),
            Err(DiskFail::NoMemory) => Err(DiskFail::NoMemory),
        }
    }

    /// True if a payload is in doubt: some crash leaves it, though it was not acknowledged. Takes no memory.
    pub fn doubt(&self) -> bool
        ensures { result ≡ self.now.doubt }
    {
        self.doubt
    }

    /// The numbers of the file's header. Takes no memory.
    pub fn header(&self) -> Header
        ensures { result ≡ self.now.header }
    {
        self.header
    }

    /// The place of the next record or gate. Takes no memory.
    pub fn place(&self) -> u64
        ensures { result ≡ self.now.place }
    {
        self.place
    }

    /// The disk. Takes no memory.
    pub fn into_disk(self) -> D
        ensures { result ≡ self.disk }
    {
        self.disk
    }
}

impl Journal<MemDisk> {
    /// The next `calls` calls of the disk pass, and each later one fails. Takes no memory.
    pub fn stop_after(&mut self, calls: u64)
        ensures { self.new ≡ record self.old {
          disk = record self.old.disk {
            failures = record self.old.disk.failures { passes = Some calls };
          };
        } }
    {
        self.disk.stop_after(calls);
    }

    /// The call of the disk of this number from now, counted from 1, fails. Takes no memory.
    pub fn fail_once(&mut self, call: u64)
        ensures { self.new ≡ record self.old {
          disk = record self.old.disk {
            failures = record self.old.disk.failures { once = Some call };
          };
        } }
    {
        self.disk.fail_once(call);
    }
}

// A payload after its length, and then a closed gate.
fn staged_bytes(alloc: Global, payload: &[u8]) -> Result<Vec<u8>, AllocError>
    requires { IsShort payload.now }
    ensures { IfOk result (λ bytes. bytes.items ≡ body payload.now ++ CLOSED ∷ []) }
{
    let mut bytes = Vec::with_capacity(alloc, payload.len() + 5)?;
    bytes.extend_from_slice(&(payload.len() as u32).to_le_bytes())?;
    bytes.extend_from_slice(payload)?;
    bytes.push(CLOSED)?;
    Ok(bytes)
}
