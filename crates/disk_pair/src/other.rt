//! The disk beside the current one. It is idle, and a finish may be in doubt on it, or a copy runs on it.

ghost use Rattle.std.specs.Prelude.{◌≡◌, ◌<◌, ◌≤◌, ◌+◌, ◌^◌, [], Bool, false, length, None, IfErr, IfOk, Option, Some, true, ℕ};
ghost use Rattle.disk_edge.specs.Disk.{Faulted, IfTold};
ghost use Rattle.journal_core.specs.Fronts.{IsFront, front_of};
ghost use Rattle.journal_core.specs.Journal.{Rests};
ghost use Rattle.journal_core.specs.Records.{IsShort};
ghost use Rattle.disk_pair.specs.Gives.{OnDoubt, OnFault, progress_after};
ghost use Rattle.disk_pair.specs.Pairs.{History, with_base, with_commit};
ghost use Rattle.disk_pair.specs.Puts.{AddsTo, BesideFault, BesideStart, EndsFinish, OtherMoments, after_finish};
ghost use Rattle.disk_pair.specs.Stands.{Beside, Carries};
ghost use Rattle.disk_pair.specs.Term.{Goes, disk_of, is_doubtful, progress_of};
ghost use Rattle.disk_pair.specs.declared.other.Other.TheVariants.{Idle, Copy};
ghost use Rattle.disk_pair.specs.declared.fault.PutFault.TheVariants.{DiskFault, NoMemory};

use crate::fault::PutFault;
use compact_core::{Carry, CopyFault, FinishFault, shut};
use disk_edge::{Disk, DiskFail};
use journal_core::{Header, Journal};
use std::alloc::Global;

/// The other disk.
#[derive(Drop)]
pub enum Other<D: Disk> {
    /// Nothing is made on it. With `doubtful` a finish may be in doubt there.
    Idle { disk: D, doubtful: bool },
    /// A copy runs on it.
    Copy(Carry<D>),
}

impl<D: Disk> Other<D> {
    /// The disk, as it is. A running copy is given up.
    pub(crate) fn into_disk(self) -> D
        ensures { result ≡ disk_of self }
    {
        match self {
            Other::Idle { disk, .. } => disk,
            Other::Copy(carry) => carry.into_disk(),
        }
    }
}

/// Ends a finish that may be in doubt. A running copy goes on.
pub(crate) fn end_finish<D: Disk>(other: Other<D>) -> (Other<D>, Result<(), DiskFail>)
    ensures { EndsFinish D.model result.1 other result.0 }
{
    match other {
        Other::Idle {
            disk,
            doubtful: true,
        } => end_doubt(disk),
        Other::Idle {
            disk,
            doubtful: false,
        } => (
            Other::Idle {
                disk,
                doubtful: false,
            },
            Ok(()),
        ),
        Other::Copy(carry) => (Other::Copy(carry), Ok(())),
    }
}

// Shuts a disk on which a finish may be in doubt.
fn end_doubt<D: Disk>(disk: D) -> (Other<D>, Result<(), DiskFail>)
    ensures { EndsFinish D.model result.1 (Idle disk true) result.0 }
{
    let mut disk = disk;
    match shut(&mut disk) {
        Ok(()) => (
            Other::Idle {
                disk,
                doubtful: false,
            },
            Ok(()),
        ),
        Err(fail) => (
            Other::Idle {
                disk,
                doubtful: true,
            },
            Err(fail),
        ),
    }
}

/// Starts a copy with this header on an idle disk.
pub(crate) fn start<D: Disk>(
    alloc: Global,
    disk: D,
    doubtful: bool,
    header: Header,
) -> (Other<D>, Result<(), PutFault>)
    ensures gives { (second : Bool) (g : ℕ) (finish : Option History)
        → header.generation ≡ g + 1 → Beside D.model second g finish None (Idle disk doubtful)
        → BesideStart result.1 (λ finish copy. Beside D.model second g finish copy result.0)
        finish header }
    ensures moments { (second : Bool) (g : ℕ) (finish : Option History)
        → Beside D.model second g finish None (Idle disk doubtful)
        → OtherMoments D.model disk (disk_of result.0) second g finish }
    ensures progress { progress_of result.0 ≡ progress_after result.1 None
        (Some (record { header = header; place = 20; bases = 0 })) }
    ensures goes { Goes D.model disk (disk_of result.0) }
    ensures cause { OnFault result.1 (Faulted D.model disk (disk_of result.0)) }
{
    match Carry::start(alloc, disk, header) {
        Ok(carry) => (Other::Copy(carry), Ok(())),
        Err((CopyFault::Sure, disk)) => (
            Other::Idle { disk, doubtful },
            Err(PutFault::DiskFault { doubt: false }),
        ),
        Err((CopyFault::NoMemory, disk)) => {
            (Other::Idle { disk, doubtful }, Err(PutFault::NoMemory))
        }
    }
}

/// Adds the next base record to a copy. If the disk fails, the copy is given up.
pub(crate) fn put_base<D: Disk>(carry: Carry<D>, payload: &[u8]) -> (Other<D>, Result<(), PutFault>)
    requires left { carry.bases < carry.header.base_count }
    requires some { 1 ≤ length payload.now }
    requires few { IsShort payload.now }
    requires room { carry.place < 2 ^ 62 }

    ensures adds { AddsTo D.model result.1 carry result.0 (λ h. h.commits ≡ [])
        (λ h. with_base h payload.now) }
    ensures progress { progress_of result.0 ≡ progress_after result.1
        (progress_of (Copy carry)) (Some (record {
          header = carry.header;
          place = carry.place + 4 + length payload.now;
          bases = carry.bases + 1;
        })) }
{
    let mut carry = carry;
    match carry.put(payload) {
        Ok(()) => (Other::Copy(carry), Ok(())),
        Err(DiskFail::Failed) => (given_up(carry), Err(PutFault::DiskFault { doubt: false })),
        Err(DiskFail::NoMemory) => (Other::Copy(carry), Err(PutFault::NoMemory)),
    }
}

/// Adds the next commit to a copy. If the disk fails, the copy is given up.
pub(crate) fn add<D: Disk>(carry: Carry<D>, payload: &[u8]) -> (Other<D>, Result<(), PutFault>)
    requires whole { carry.bases ≡ carry.header.base_count }
    requires some { 1 ≤ length payload.now }
    requires few { IsShort payload.now }
    requires room { carry.place < 2 ^ 62 }

    ensures adds { AddsTo D.model result.1 carry result.0 (λ _. Unit {0})
        (λ h. with_commit h payload.now) }
    ensures progress { progress_of result.0 ≡ progress_after result.1
        (progress_of (Copy carry)) (Some (record {
          header = carry.header;
          place = carry.place + 5 + length payload.now;
          bases = carry.bases;
        })) }
{
    let mut carry = carry;
    match carry.add(payload) {
        Ok(()) => (Other::Copy(carry), Ok(())),
        Err(DiskFail::Failed) => (given_up(carry), Err(PutFault::DiskFault { doubt: false })),
        Err(DiskFail::NoMemory) => (Other::Copy(carry), Err(PutFault::NoMemory)),
    }
}

// A copy's disk, which is shut.
fn given_up<D: Disk>(carry: Carry<D>) -> Other<D>
    ensures gives { (second : Bool) (g : ℕ) (h : History) → Carries D.model g carry h
        → Beside D.model second g None None result }
    ensures is { result ≡ Idle carry.disk false }
{
    Other::Idle {
        disk: carry.into_disk(),
        doubtful: false,
    }
}

/// Ends a copy that lacks nothing. If the disk fails, it is given up. If memory runs out, it goes on.
pub(crate) fn finish<D: Disk>(carry: Carry<D>) -> Result<Journal<D>, (Other<D>, PutFault)>
    requires whole { carry.bases ≡ carry.header.base_count }

    ensures ok { IfOk result (λ journal. (g : ℕ) (h : History) → Carries D.model g carry h
        → IsFront h.header h.base (front_of h.header h.base)
        × IfTold (D.model.content journal.disk)
        (λ _. Rests D.model journal (front_of h.header h.base) h.commits)) }
    ensures journal { IfOk result (λ journal. (journal.header ≡ carry.header)
        × (journal.place ≡ carry.place) × (journal.ready ≡ true) × (journal.doubt ≡ false)) }
    ensures err { IfErr result (λ e. (second : Bool) (g : ℕ) (h : History)
        → Carries D.model g carry h
        → BesideFault e.1 (λ finish copy. Beside D.model second g finish copy e.0) h) }
    ensures moments { (second : Bool) (g : ℕ) (h : History) → Carries D.model g carry h
        → OtherMoments D.model carry.disk (after_finish result) second g (Some h) }
    ensures progress { IfErr result (λ e. progress_of e.0
        ≡ progress_after (Err e.1) (progress_of (Copy carry)) None) }
    ensures doubtful { IfErr result (λ e. OnDoubt (Err e.1) (is_doubtful e.0 ≡ true)) }
    ensures goes { Goes D.model carry.disk (after_finish result) }
    ensures cause { IfErr result (λ e. OnFault (Err e.1)
        (Faulted D.model carry.disk (after_finish result))) }
{
    match carry.finish() {
        Ok(journal) => Ok(journal),
        Err(FinishFault::Memory(carry)) => Err((Other::Copy(carry), PutFault::NoMemory)),
        Err(FinishFault::Sure(disk)) => Err((
            Other::Idle {
                disk,
                doubtful: false,
            },
            PutFault::DiskFault { doubt: false },
        )),
        Err(FinishFault::Doubt(disk)) => Err((
            Other::Idle {
                disk,
                doubtful: true,
            },
            PutFault::DiskFault { doubt: true },
        )),
    }
}
