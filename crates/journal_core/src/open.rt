//! A journal is created, opened, and read up to the first gate that is not open.

ghost use Rattle.std.specs.Prelude.{◌≡◌, ◌<◌, ◌≤◌, ◌+◌, ◌-◌, ◌^◌, ◌⊎◌, [], ◌∷◌, ◌++◌, ℕ, List, Some, None, true, false, length, OnOk, OnErr, IfOk, IfErr, IfSome, IsErrOf};
ghost use Rattle.std.specs.Int.{to_le_bytes, w32};
ghost use Rattle.disk_edge.specs.Disk.{Torn, TearsContent, Exactly, Keeps, IfTold, OnFailed, OnNoMemory, Counted, Faulted};
ghost use Rattle.disk_edge.specs.Moments.{AtEachMoment};
ghost use Rattle.journal_core.specs.Answers.{OnUnwritten, OnRecord, OnEnd, OnDamaged, disk_after};
ghost use Rattle.journal_core.specs.Journal.{IsEmptyJournal, Reads, Rests};
ghost use Rattle.journal_core.specs.Looks.{Narrows, Looks, Stays};
ghost use Rattle.journal_core.specs.Found.{IsMeasured};
ghost use Rattle.journal_core.specs.Fronts.{BeginsAt, BreaksBase, IsHeader, IsOpen, IsPart, IsPeeked, front_of};
ghost use Rattle.journal_core.specs.Records.{IsShort, Breaks};

use crate::base::base_at;
use crate::faults::{CreateFault, LoadFault};
use crate::format::{HEADER, NO_BASE, NO_RECORDS, SECOND_FORMAT};
use crate::header::Header;
use crate::journal::Journal;
use crate::record::{Found, record_at};
use crate::synced::put;
use crate::window::Window;
use disk_edge::{Disk, DiskFail};
use std::alloc::Global;

impl<D: Disk> Journal<D> {
    /// Writes a journal with no records on an empty disk, and syncs it. The disk comes back.
    pub fn create(disk: D) -> (D, Result<(), CreateFault>)
        ensures ok { OnOk result.1 (IfTold (D.model.content disk)
            (λ l. (l ≡ []) × IsEmptyJournal D.model result.0)) }
        ensures not_empty { IsErrOf result.1 CreateFault.NotEmpty
            → IfTold (D.model.content disk) (λ l. 1 ≤ length l) }
        ensures stays { OnUnwritten result.1 (Stays D.model disk result.0) }
        ensures kept { IsErrOf result.1 CreateFault.Disk → IfTold (D.model.content disk)
            (λ l. 1 ≤ length l → Stays D.model disk result.0) }
        ensures cause { IsErrOf result.1 CreateFault.Disk → Faulted D.model disk result.0 }

        // Whatever it answers, the content is the old one, torn in the bytes that are written.
        ensures content { TearsContent 0 9 (D.model.content disk) (D.model.content result.0) }
        ensures images { (c : List ℕ) → D.model.images result.0 c
            → (d : List ℕ) × D.model.images disk d × Torn 0 9 d c }
        ensures moments { AtEachMoment D.model disk result.0
            (λ c. (d : List ℕ) × D.model.images disk d × Torn 0 9 d c) }
        ensures past { Keeps D.model disk result.0 }
        ensures count { Counted D.model disk result.0 }
    {
        let mut disk = disk;
        let outcome = write_header(&mut disk);
        (disk, outcome)
    }

    /// Opens a journal of either format at its first base record, or at its first record if it has no base. It syncs
    /// first, and writes nothing. Takes no memory.
    pub fn load(alloc: Global, disk: D) -> Result<Journal<D>, (LoadFault, D)>
        ensures ok { IfOk result (λ journal. IfTold (D.model.content disk)
            (λ _. (front : List ℕ) × IsPart journal.header [] front
            × Reads D.model journal front [])) }
        ensures start { IfOk result (λ journal. BeginsAt journal.header journal.place
            × (journal.left ≡ journal.header.base_count)
            × (journal.ready ≡ false) × (journal.doubt ≡ false)) }
        ensures range { IfOk result (λ journal. IsHeader journal.header) }
        ensures not_a_store { IfErr result (λ e. e.0 ≡ LoadFault.NotAStore
            → IfTold (D.model.content disk) (λ l. ¬ IsOpen l)) }
        ensures cause { IfErr result (λ e. e.0 ≡ LoadFault.Disk → Faulted D.model disk e.1) }
        ensures no_other { IfErr result
            (λ e. (e.0 ≡ LoadFault.NotAStore) ⊎ (e.0 ≡ LoadFault.Disk)) }

        // Each image that was possible during the call was possible before it.
        ensures narrows { Narrows D.model disk (disk_after result) }
    {
        let mut disk = disk;
        match measured(&mut disk) {
            Ok(Some(found)) => Ok(Journal {
                alloc,
                disk,
                header: found.header,
                left: found.header.base_count,
                window: Window::new(alloc, found.len),
                place: found.place,
                ready: false,
                doubt: false,
            }),
            Ok(None) => Err((LoadFault::NotAStore, disk)),
            Err(_) => Err((LoadFault::Disk, disk)),
        }
    }

    /// Passes the next base record, and returns its place and payload. `None` if no base record is left: the commits
    /// may then be read. After a fault the journal's place is unchanged.
    pub fn next_base(&mut self) -> Result<Option<(u64, Vec<u8>)>, LoadFault>
        requires settled { self.old.doubt ≡ false }

        ensures record { OnRecord result (λ at payload. (at ≡ self.old.place) × IsShort payload
            × (1 ≤ length payload) × (self.new.place ≡ at + 4 + length payload)
            × (self.new.left + 1 ≡ self.old.left) × (self.new.ready ≡ false)) }
        ensures reads { OnRecord result (λ at payload. (base : List (List ℕ))
            → Reads D.model self.old (front_of self.old.header base) []
            → Reads D.model self.new (front_of self.old.header (base ++ payload ∷ [])) []) }
        ensures end { OnEnd result ((self.old.left ≡ 0) × (self.new ≡ self.old)) }
        ensures damaged { OnDamaged result (λ at. (at ≡ self.old.place) × ((front : List ℕ)
            → Reads D.model self.old front []
            → IfTold (D.model.content self.old.disk) (BreaksBase front))) }
        ensures cause { IsErrOf result LoadFault.Disk
            → Faulted D.model self.old.disk self.new.disk }
        ensures no_other { ¬ IsErrOf result LoadFault.NotAStore }

        ensures some_left { OnErr result (1 ≤ self.old.left) }
        ensures stays { OnErr result ((self.new.place ≡ self.old.place)
            × (self.new.left ≡ self.old.left) × (self.new.ready ≡ self.old.ready)) }
        ensures still_reads { OnErr result ((front : List ℕ)
            → Reads D.model self.old front [] → Reads D.model self.new front []) }
        ensures below { self.new.place < 2 ^ 64 }
        ensures settled { self.new.doubt ≡ false }
        ensures header { self.new.header ≡ self.old.header }
        ensures looks { Looks D.model self.old.disk self.new.disk }
    {
        if self.left == 0 {
            return Ok(None);
        }
        let place = self.place;
        match base_at(self.alloc, &mut self.disk, &mut self.window, place) {
            Ok(Some(payload)) => {
                self.place = place + 4 + payload.len() as u64;
                self.left -= 1;
                self.ready = false;
                Ok(Some((place, payload)))
            }
            Ok(None) => Err(LoadFault::Damaged(place)),
            Err(DiskFail::Failed) => Err(LoadFault::Disk),
            Err(DiskFail::NoMemory) => Err(LoadFault::NoMemory),
        }
    }

    /// Passes the next record, and returns its place and payload. `None` at a gate that is not open: the journal may
    /// then be appended to. After a fault the journal's place is unchanged. A gate in doubt may be open or not, so the
    /// doubt has to be settled first.
    pub fn next(&mut self) -> Result<Option<(u64, Vec<u8>)>, LoadFault>
        requires settled { self.old.doubt ≡ false }
        requires based { self.old.left ≡ 0 }

        ensures record { OnRecord result (λ at payload. (at ≡ self.old.place) × IsShort payload
            × (self.new.place ≡ at + 5 + length payload) × (self.new.ready ≡ false)) }
        ensures reads { OnRecord result (λ at payload. (front : List ℕ) (ps : List (List ℕ))
            → Reads D.model self.old front ps → Reads D.model self.new front (ps ++ payload ∷ [])) }
        ensures below { self.new.place < 2 ^ 64 }
        ensures end { OnEnd result ((self.new.place ≡ self.old.place) × (self.new.ready ≡ true)) }
        ensures opens { OnEnd result ((front : List ℕ) (ps : List (List ℕ))
            → Reads D.model self.old front ps → Rests D.model self.new front ps) }
        ensures damaged { OnDamaged result (λ at. (at ≡ self.old.place)
            × ((front : List ℕ) (ps : List (List ℕ)) → Reads D.model self.old front ps
            → IfTold (D.model.content self.old.disk) (Breaks front ps))) }
        ensures cause { IsErrOf result LoadFault.Disk
            → Faulted D.model self.old.disk self.new.disk }
        ensures no_other { ¬ IsErrOf result LoadFault.NotAStore }

        ensures stays { OnErr result ((self.new.place ≡ self.old.place)
            × (self.new.ready ≡ self.old.ready)) }
        ensures still_reads { OnErr result ((front : List ℕ) (ps : List (List ℕ))
            → Reads D.model self.old front ps → Reads D.model self.new front ps) }
        ensures settled { self.new.doubt ≡ false }
        ensures header { (self.new.header ≡ self.old.header) × (self.new.left ≡ self.old.left) }
        ensures looks { Looks D.model self.old.disk self.new.disk }
    {
        let place = self.place;
        match record_at(self.alloc, &mut self.disk, &mut self.window, place) {
            Ok(Found::Shut) => {
                self.ready = true;
                Ok(None)
            }
            Ok(Found::Record(payload)) => {
                self.place = place + 5 + payload.len() as u64;
                self.ready = false;
                Ok(Some((place, payload)))
            }
            Ok(Found::Broken) => Err(LoadFault::Damaged(place)),
            Err(DiskFail::Failed) => Err(LoadFault::Disk),
            Err(DiskFail::NoMemory) => Err(LoadFault::NoMemory),
        }
    }
}

/// Syncs, and returns the disk's header. `None` if the disk is not open in either format. Takes no memory.
pub fn peek_header<D: Disk>(disk: &mut D) -> Result<Option<Header>, DiskFail>
    ensures synced { OnOk result
        (IfTold (D.model.content disk.new) (λ l. Exactly l (D.model.images disk.new))) }
    ensures peeked { IfOk result (λ found. IfTold (D.model.content disk.old) (IsPeeked found)) }
    ensures failed { OnErr result (Faulted D.model disk.old disk.new) }
    ensures no_memory { OnNoMemory result ⊥ }
    ensures narrows { Narrows D.model disk.old disk.new }
{
    match measured(disk)? {
        Some(found) => Ok(Some(found.header)),
        None => Ok(None),
    }
}

// Writes the header and a closed gate if the disk is empty, and syncs them.
fn write_header<D: Disk>(disk: &mut D) -> Result<(), CreateFault>
    ensures ok { OnOk result (IfTold (D.model.content disk.old)
        (λ l. (l ≡ []) × IsEmptyJournal D.model disk.new)) }
    ensures not_empty { IsErrOf result CreateFault.NotEmpty
        → IfTold (D.model.content disk.old) (λ l. 1 ≤ length l) }
    ensures stays { OnUnwritten result (Stays D.model disk.old disk.new) }
    ensures kept { IsErrOf result CreateFault.Disk → IfTold (D.model.content disk.old)
        (λ l. 1 ≤ length l → Stays D.model disk.old disk.new) }
    ensures cause { IsErrOf result CreateFault.Disk → Faulted D.model disk.old disk.new }
    ensures content { TearsContent 0 9 (D.model.content disk.old) (D.model.content disk.new) }
    ensures images { (c : List ℕ) → D.model.images disk.new c
        → (d : List ℕ) × D.model.images disk.old d × Torn 0 9 d c }
    ensures moments { AtEachMoment D.model disk.old disk.new
        (λ c. (d : List ℕ) × D.model.images disk.old d × Torn 0 9 d c) }
    ensures past { Keeps D.model disk.old disk.new }
    ensures count { Counted D.model disk.old disk.new }
{
    match disk.len() {
        Ok(0) => {}
        Ok(_) => return Err(CreateFault::NotEmpty),
        Err(_) => return Err(CreateFault::Disk),
    }
    match put(disk, 0, &NO_RECORDS) {
        Ok(()) => Ok(()),
        Err(DiskFail::Failed) => Err(CreateFault::Disk),
        Err(DiskFail::NoMemory) => Err(CreateFault::NoMemory),
    }
}

// The opening of an open disk: its length, its header, and the place after the header.
#[derive(Clone, Copy)]
pub(crate) struct Opening {
    pub(crate) len: u64,
    pub(crate) header: Header,
    pub(crate) place: u64,
}

// Syncs, and returns the disk's opening. `None` if the disk is not open.
fn measured<D: Disk>(disk: &mut D) -> Result<Option<Opening>, DiskFail>
    ensures synced { OnOk result
        (IfTold (D.model.content disk.new) (λ l. Exactly l (D.model.images disk.new))) }
    ensures header { IfOk result (λ found. IfTold (D.model.content disk.old) (IsMeasured found)) }
    ensures place { IfOk result (λ found. IfSome found (λ o. BeginsAt o.header o.place)) }
    ensures range { IfOk result (λ found. IfSome found (λ o. IsHeader o.header)) }
    ensures failed { OnErr result (Faulted D.model disk.old disk.new) }
    ensures no_memory { OnNoMemory result ⊥ }
    ensures narrows { Narrows D.model disk.old disk.new }
{
    disk.sync()?;
    said(disk)
}

// The disk's opening. `None` if the disk is not open.
fn said<D: Disk>(disk: &mut D) -> Result<Option<Opening>, DiskFail>
    ensures found { IfOk result (λ found. IfTold (D.model.content disk.old) (IsMeasured found)) }
    ensures place { IfOk result (λ found. IfSome found (λ o. BeginsAt o.header o.place)) }
    ensures range { IfOk result (λ found. IfSome found (λ o. IsHeader o.header)) }
    ensures failed { OnErr result (Faulted D.model disk.old disk.new) }
    ensures no_memory { OnNoMemory result ⊥ }
    ensures looks { Looks D.model disk.old disk.new }
{
    let len = disk.len()?;
    if len < 8 {
        return Ok(None);
    }
    let mut start = [0; 8];
    disk.read_at(0, &mut start)?;
    if start == HEADER {
        return Ok(Some(Opening {
            len,
            header: NO_BASE,
            place: 8,
        }));
    }
    if start != SECOND_FORMAT || len < 20 {
        return Ok(None);
    }
    let mut numbers = [0; 12];
    disk.read_at(8, &mut numbers)?;
    let header = header_of(&numbers);
    Ok(Some(Opening {
        len,
        header,
        place: 20,
    }))
}

// The header whose three numbers these bytes are.
fn header_of(bytes: &[u8; 12]) -> Header
    ensures { bytes.now ≡ to_le_bytes w32 result.generation ++ to_le_bytes w32 result.base_version
        ++ to_le_bytes w32 result.base_count }
{
    Header {
        generation: u32::from_le_bytes([bytes[0], bytes[1], bytes[2], bytes[3]]),
        base_version: u32::from_le_bytes([bytes[4], bytes[5], bytes[6], bytes[7]]),
        base_count: u32::from_le_bytes([bytes[8], bytes[9], bytes[10], bytes[11]]),
    }
}
