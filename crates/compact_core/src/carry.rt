//! A running copy, an atomic change. First the gate of the header is closed and synced. Then the copy is gathered and
//! written after it. The last of it is written with a closed gate, and all is synced. Then the header's gate is opened.

ghost use Rattle.std.specs.Prelude.{◌≡◌, ◌<◌, ◌≤◌, ◌+◌, ◌^◌, ◌⊎◌, ◌++◌, [], ◌∷◌, ℕ, List, None, Some, true, false, length, OnOk, OnErr, IfOk, IfErr};
ghost use Rattle.disk_edge.specs.Disk.{IfTold, Keeps, OnFailed, Counted, Faulted};
ghost use Rattle.disk_edge.specs.Moments.{AtEachMoment};
ghost use Rattle.journal_core.specs.Fronts.{IsOpen, IsShut, behind_gate, front_of};
ghost use Rattle.journal_core.specs.Journal.{Rests};
ghost use Rattle.journal_core.specs.Records.{IsShort};
ghost use Rattle.compact_core.specs.Answers.{OnDoubt, OnMemory, OnSure, disk_after_finish, disk_after_start};
ghost use Rattle.compact_core.specs.Copies.{Copies, InDoubt, IsCopyOrShut, Started};

use crate::closing::close;
use crate::extend::{extend, seal};
use crate::gather::{make_room, push_base, push_commit};
use disk_edge::{Disk, DiskFail, MemDisk};
use journal_core::{Header, Journal, OPEN, put};
use std::alloc::{AllocError, Global};
use std::marker::Model;
use thiserror::Error;

// The bytes after the gate of the header, before its numbers.
const SECOND_FORMAT: [u8; 7] = *b"CHEMDB2";

/// Why a copy was not started.
#[derive(Clone, Copy, Debug, PartialEq, Eq, Error)]
pub enum CopyFault {
    /// The disk failed, and counted a fault.
    #[error("the disk failed")]
    Sure,
    /// Memory ran out.
    #[error("out of memory")]
    NoMemory,
}

/// Why a copy was not finished.
#[derive(Drop)]
pub enum FinishFault<D: Disk> {
    /// Memory ran out. The copy goes on, and its disk is shut.
    Memory(Carry<D>),
    /// The disk failed before the gate of the header was written. It is shut.
    Sure(D),
    /// The disk failed as that gate was written or synced. The complete copy may be open after a crash.
    Doubt(D),
}

/// A running copy on a disk that is shut. It has a header, as many base records as the header says, and then commits.
/// `pending` holds its last bytes in memory, after those that were written.
#[derive(Drop)]
pub struct Carry<D: Disk> {
    alloc: Global,
    disk: D,
    header: Header,
    place: u64,
    bases: u32,
    pending: Vec<u8>,
}

impl<D: Disk> Model for Carry<D> {
    ghost use Rattle.std.specs.Prelude.{◌≤◌, ◌+◌, ◌^◌, length};
    ghost use Rattle.disk_edge.specs.Disk.{IfTold};
    ghost use Rattle.compact_core.specs.Carrying.{Carrying};

    ghost Value = { Carrying D };

    ghost view = { λ c. record {
      disk = c.disk;
      header = c.header;
      place = c.place;
      bases = c.bases;
      pending = c.pending.items;
    } };

    ghost invariant = { λ c. IfTold (D.model.content c.disk)
        (λ l. c.place ≤ length l + length c.pending.items)
        × (length c.pending.items ≤ c.place) × (1 ≤ c.place) × (c.place ≤ 2 ^ 62 + 1048581) };
}

impl<D: Disk> Carry<D> {
    /// Starts a copy on a disk, whatever it has. At `Ok` the disk is shut, and the copy is its header, 20 bytes. At
    /// every moment each image that is open was one at entry. After a refusal the disk, which comes back, is shut, or
    /// each image at entry is still one.
    pub fn start(alloc: Global, disk: D, header: Header) -> Result<Carry<D>, (CopyFault, D)>
        ensures ok { IfOk result (λ carry. IfTold (D.model.content disk)
            (λ _. Copies D.model carry [] [])) }
        ensures shut { IfOk result
            (λ carry. IfTold (D.model.content disk) (λ _. IsShut (D.model.images carry.disk))) }
        ensures begins { IfOk result (λ carry. (carry.header ≡ header)
            × (carry.place ≡ 20) × (carry.bases ≡ 0)) }
        ensures refused { IfErr result (λ e. IfTold (D.model.content disk)
            (λ _. IsShut (D.model.images e.1)
            ⊎ ((c : List ℕ) → D.model.images disk c → D.model.images e.1 c))) }
        ensures not_open { IfErr result (λ e. IfTold (D.model.content disk)
            (λ _. (c : List ℕ) → D.model.images disk c → ¬ IsOpen c
            → (k : List ℕ) × D.model.images e.1 k × (¬ IsOpen k))) }
        ensures no_new { IfTold (D.model.content disk) (λ _. (c : List ℕ)
            → D.model.images (disk_after_start result) c → IsOpen c → D.model.images disk c) }
        ensures moments { IfTold (D.model.content disk)
            (λ _. AtEachMoment D.model disk (disk_after_start result)
            (λ c. IsOpen c → D.model.images disk c)) }
        ensures told { IfTold (D.model.content disk)
            (λ _. (l : List ℕ) × (D.model.content (disk_after_start result) ≡ Some l)) }
        ensures untold { D.model.content disk ≡ None
            → D.model.content (disk_after_start result) ≡ None }
        ensures cause { IfErr result
            (λ e. e.0 ≡ CopyFault.Sure → Faulted D.model disk e.1) }
        ensures past { Keeps D.model disk (disk_after_start result) }
        ensures count { Counted D.model disk (disk_after_start result) }
    {
        let mut disk = disk;
        match begin(alloc, &mut disk, header) {
            Ok(()) => Ok(Carry {
                alloc,
                disk,
                header,
                place: 20,
                bases: 0,
                pending: Vec::new(alloc),
            }),
            Err(DiskFail::Failed) => Err((CopyFault::Sure, disk)),
            Err(DiskFail::NoMemory) => Err((CopyFault::NoMemory, disk)),
        }
    }

    /// Adds the next base record, a payload of 1 to 1,048,576 bytes. Requires that the header's number is not reached.
    /// It may wait in memory, and is written with others. After a refusal the copy is as before. The disk stays shut.
    /// `Failed`: the disk failed, and counted a fault.
    pub fn put(&mut self, payload: &[u8]) -> Result<(), DiskFail>
        requires left { self.old.bases < self.old.header.base_count }
        requires some { 1 ≤ length payload.now }
        requires few { IsShort payload.now }
        requires room { self.old.place < 2 ^ 62 }

        ensures ok { OnOk result ((base : List (List ℕ)) → Copies D.model self.old base []
            → Copies D.model self.new (base ++ payload.now ∷ []) []) }
        ensures stays { OnErr result ((base commits : List (List ℕ))
            → Copies D.model self.old base commits
            → Copies D.model self.new base commits) }
        ensures moments { (base commits : List (List ℕ))
            → Copies D.model self.old base commits
            → AtEachMoment D.model self.old.disk self.new.disk
            (λ c. ¬ IsOpen c) }
        ensures moved { OnOk result ((self.new.place ≡ self.old.place + 4 + length payload.now)
            × (self.new.bases ≡ self.old.bases + 1)) }
        ensures stood { OnErr result ((self.new.place ≡ self.old.place)
            × (self.new.bases ≡ self.old.bases)) }
        ensures header { self.new.header ≡ self.old.header }
        ensures untold { D.model.content self.old.disk ≡ None
            → D.model.content self.new.disk ≡ None }
        ensures cause { OnFailed result (Faulted D.model self.old.disk self.new.disk) }
        ensures past { Keeps D.model self.old.disk self.new.disk }
        ensures count { Counted D.model self.old.disk self.new.disk }
    {
        let more = 4 + payload.len();
        make_room(&mut self.disk, self.place, &mut self.pending, more)?;
        push_base(&mut self.pending, payload);
        self.place += more as u64;
        self.bases += 1;
        Ok(())
    }

    /// Adds the next commit, a payload of 1 to 1,048,576 bytes, with an open gate, after all base records. It may wait
    /// in memory, and is written with others. After a refusal the copy is as before. The disk stays shut. `Failed`: the
    /// disk failed, and counted a fault.
    pub fn add(&mut self, payload: &[u8]) -> Result<(), DiskFail>
        requires whole { self.old.bases ≡ self.old.header.base_count }
        requires some { 1 ≤ length payload.now }
        requires few { IsShort payload.now }
        requires room { self.old.place < 2 ^ 62 }

        ensures ok { OnOk result ((base commits : List (List ℕ))
            → Copies D.model self.old base commits
            → Copies D.model self.new base (commits ++ payload.now ∷ [])) }
        ensures stays { OnErr result ((base commits : List (List ℕ))
            → Copies D.model self.old base commits
            → Copies D.model self.new base commits) }
        ensures moments { (base commits : List (List ℕ))
            → Copies D.model self.old base commits
            → AtEachMoment D.model self.old.disk self.new.disk
            (λ c. ¬ IsOpen c) }
        ensures moved { OnOk result (self.new.place ≡ self.old.place + 5 + length payload.now) }
        ensures stood { OnErr result (self.new.place ≡ self.old.place) }
        ensures bases { self.new.bases ≡ self.old.bases }
        ensures header { self.new.header ≡ self.old.header }
        ensures untold { D.model.content self.old.disk ≡ None
            → D.model.content self.new.disk ≡ None }
        ensures cause { OnFailed result (Faulted D.model self.old.disk self.new.disk) }
        ensures past { Keeps D.model self.old.disk self.new.disk }
        ensures count { Counted D.model self.old.disk self.new.disk }
    {
        let more = 5 + payload.len();
        make_room(&mut self.disk, self.place, &mut self.pending, more)?;
        push_commit(&mut self.pending, payload);
        self.place += more as u64;
        Ok(())
    }

    /// Ends a copy that has all its base records. The pending bytes are written with the closed gate. At `Ok` the disk
    /// has all of the copy, each image is the complete one, and the journal may be appended to. At every moment each
    /// image is the complete one or not open.
    pub fn finish(self) -> Result<Journal<D>, FinishFault<D>>
        requires whole { self.bases ≡ self.header.base_count }

        ensures ok { IfOk result (λ journal. (base commits : List (List ℕ))
            → Copies D.model self base commits
            → Rests D.model journal (front_of self.header base) commits) }
        ensures journal { IfOk result (λ journal. (journal.header ≡ self.header)
            × (journal.place ≡ self.place) × (journal.ready ≡ true) × (journal.doubt ≡ false)) }
        ensures memory { OnMemory result (λ carry. (base commits : List (List ℕ))
            → Copies D.model self base commits
            → Copies D.model carry base commits) }
        ensures stood { OnMemory result (λ carry. (carry.header ≡ self.header)
            × (carry.place ≡ self.place) × (carry.bases ≡ self.bases)) }
        ensures sure { OnSure result (λ disk. (base commits : List (List ℕ))
            → Copies D.model self base commits → IsShut (D.model.images disk)) }
        ensures doubt { OnDoubt result (λ disk. (base commits : List (List ℕ))
            → Copies D.model self base commits
            → InDoubt (D.model.images disk) self.header base commits) }
        ensures moments { (base commits : List (List ℕ))
            → Copies D.model self base commits
            → AtEachMoment D.model self.disk (disk_after_finish result)
            (IsCopyOrShut self.header base commits) }
        ensures told { IfTold (D.model.content self.disk)
            (λ _. (l : List ℕ) × (D.model.content (disk_after_finish result) ≡ Some l)) }
        ensures untold { D.model.content self.disk ≡ None
            → D.model.content (disk_after_finish result) ≡ None }
        ensures sure_cause { OnSure result
            (λ disk. Faulted D.model self.disk disk) }
        ensures doubt_cause { OnDoubt result
            (λ disk. Faulted D.model self.disk disk) }
        ensures past { Keeps D.model self.disk (disk_after_finish result) }
        ensures count { Counted D.model self.disk (disk_after_finish result) }
    {
        let mut carry = self;
        match seal(&mut carry.disk, carry.place, &mut carry.pending) {
            Ok(()) => {}
            Err(DiskFail::Failed) => return Err(FinishFault::Sure(carry.disk)),
            Err(DiskFail::NoMemory) => return Err(FinishFault::Memory(carry)),
        }
        match put(&mut carry.disk, 0, &[OPEN]) {
            Ok(()) => Ok(Journal::at_gate(carry.alloc, carry.disk, carry.header, carry.place)),
            Err(DiskFail::Failed) => Err(FinishFault::Doubt(carry.disk)),
            Err(DiskFail::NoMemory) => Err(FinishFault::Memory(carry)),
        }
    }

    /// The length of the copy so far, with the pending bytes. Takes no memory.
    pub fn place(&self) -> u64
        ensures { result ≡ self.now.place }
    {
        self.place
    }

    /// The disk, still shut. The pending bytes are dropped. Takes no memory.
    pub fn into_disk(self) -> D
        ensures disk { result ≡ self.disk }
        ensures shut { (base commits : List (List ℕ))
            → Copies D.model self base commits → IsShut (D.model.images result) }
    {
        self.disk
    }
}

impl Carry<MemDisk> {
    /// The next `calls` calls of the disk pass, and then each fails. Takes no memory.
    pub fn stop_after(&mut self, calls: u64)
        ensures { self.new ≡ record self.old {
          disk = record self.old.disk {
            failures = record self.old.disk.failures { passes = Some calls };
          };
        } }
    {
        self.disk.stop_after(calls);
    }

    /// Call number `call` of the disk from now on, counted from 1, fails. Takes no memory.
    pub fn fail_once(&mut self, call: u64)
        ensures { self.new ≡ record self.old {
          disk = record self.old.disk {
            failures = record self.old.disk.failures { once = Some call };
          };
        } }
    {
        self.disk.fail_once(call);
    }
}

// Shuts the disk, and writes the header after its gate.
fn begin<D: Disk>(alloc: Global, disk: &mut D, header: Header) -> Result<(), DiskFail>
    ensures ok { OnOk result (IfTold (D.model.content disk.old)
        (λ _. Started D.model disk.new header)) }
    ensures long { OnOk result (IfTold (D.model.content disk.new) (λ l. 20 ≤ length l)) }
    ensures refused { OnErr result (IfTold (D.model.content disk.old)
        (λ _. IsShut (D.model.images disk.new)
        ⊎ ((c : List ℕ) → D.model.images disk.old c → D.model.images disk.new c))) }
    ensures no_new { IfTold (D.model.content disk.old)
        (λ _. (c : List ℕ) → D.model.images disk.new c → IsOpen c → D.model.images disk.old c) }
    ensures moments { IfTold (D.model.content disk.old)
        (λ _. AtEachMoment D.model disk.old disk.new
        (λ c. IsOpen c → D.model.images disk.old c)) }
    ensures told { IfTold (D.model.content disk.old)
        (λ _. (l : List ℕ) × (D.model.content disk.new ≡ Some l)) }
    ensures untold { D.model.content disk.old ≡ None → D.model.content disk.new ≡ None }
    ensures cause { OnFailed result (Faulted D.model disk.old disk.new) }
    ensures past { Keeps D.model disk.old disk.new }
    ensures count { Counted D.model disk.old disk.new }
{
    let bytes = header_bytes(alloc, header)?;
    close(disk, true)?;
    extend(disk, 1, &bytes)
}

// The header after its gate.
fn header_bytes(alloc: Global, header: Header) -> Result<Vec<u8>, AllocError>
    ensures { IfOk result (λ bytes. bytes.items ≡ behind_gate header) }
{
    let mut bytes = Vec::with_capacity(alloc, 19)?;
    bytes.extend_from_slice(&SECOND_FORMAT)?;
    bytes.extend_from_slice(&header.generation.to_le_bytes())?;
    bytes.extend_from_slice(&header.base_version.to_le_bytes())?;
    bytes.extend_from_slice(&header.base_count.to_le_bytes())?;
    Ok(bytes)
}
