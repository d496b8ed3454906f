//! A disk, as a journal sees it: its content, and the images that a crash may leave, now and at each moment between two
//! times of its clock. If the content is not known, the clauses on content say nothing.

ghost use Rattle.std.specs.Prelude.{◌≡◌, ◌≢◌, ◌⊎◌, ◌<◌, ◌≤◌, ◌^◌, ◌+◌, ℕ, List, Option, Some, length, take, drop, OnOk, IfOk};
ghost use Rattle.disk_edge.specs.declared.disk.DiskFail.TheVariants.{NoMemory};
ghost use Rattle.disk_edge.specs.Disk.{DiskModel, written, Torn, Same, Exactly, Tears, Elapses, OnFailed, OnNoMemory, Becomes, TearsContent, IfTold, Counted, Faulted};

use std::alloc::{AllocError, AllocFailed};
use thiserror::Error;

/// Why a call of a disk did not succeed.
#[derive(Clone, Copy, Debug, PartialEq, Eq, Error)]
pub enum DiskFail {
    /// The disk failed, and counted a fault.
    #[error("the disk failed")]
    Failed,
    /// Memory ran out, in a write. Nothing was done.
    #[error("out of memory")]
    NoMemory,
}

impl From<AllocError> for DiskFail {
    ghost from_gives = { λ _ fail. fail ≡ NoMemory };

    fn from(_: AllocError) -> DiskFail {
        DiskFail::NoMemory
    }
}

impl<T: Drop> From<AllocFailed<T>> for DiskFail {
    ghost from_gives = { λ _ fail. fail ≡ NoMemory };

    fn from(_: AllocFailed<T>) -> DiskFail {
        DiskFail::NoMemory
    }
}

/// A disk. Between two syncs, each range that was written, or was to be, may hold any bytes after a crash. So may the
/// part past the old end. Bytes outside stay. The length after a crash is that of the last sync, or a greater one, up
/// to the greatest end of a write since. After a sync that succeeds, a crash leaves the content.
pub trait Disk {
    /// The content of a disk, the images that a crash may leave, now and at each moment, and the number of faults.
    ghost model: { DiskModel Self };

    /// The length.
    fn len(&mut self) -> Result<u64, DiskFail>
        ensures length { IfOk result (λ n. IfTold (model.content self.old) (λ l. n ≡ length l)) }
        ensures content { model.content self.new ≡ model.content self.old }
        ensures images { Same (model.images self.old) (model.images self.new) }
        ensures time { Elapses model self.old self.new }
        ensures failed { OnFailed result (Faulted model self.old self.new) }
        ensures no_memory { OnNoMemory result ⊥ }
        ensures held { model.faults self.new < 2 ^ 64 }
        ensures count { Counted model self.old self.new };

    /// Fills `room` with the bytes from a place on.
    fn read_at(&mut self, at: u64, room: &mut [u8]) -> Result<(), DiskFail>
        requires { IfTold (model.content self.old) (λ l. at + length room.old ≤ length l) }
        ensures bytes { OnOk result (IfTold (model.content self.old)
            (λ l. room.new ≡ take (length room.old) (drop at l))) }
        ensures content { model.content self.new ≡ model.content self.old }
        ensures images { Same (model.images self.old) (model.images self.new) }
        ensures time { Elapses model self.old self.new }
        ensures failed { OnFailed result (Faulted model self.old self.new) }
        ensures no_memory { OnNoMemory result ⊥ }
        ensures held { model.faults self.new < 2 ^ 64 }
        ensures count { Counted model self.old self.new };

    /// Writes over the bytes from `at` on, and past the end. Until a sync succeeds, a crash may leave any bytes in the
    /// range, even if the write failed.
    fn write_at(&mut self, at: u64, bytes: &[u8]) -> Result<(), DiskFail>
        requires start { IfTold (model.content self.old) (λ l. at ≤ length l) }
        requires end { at + length bytes.now < 2 ^ 63 }
        ensures written { OnOk result
            (Becomes (model.content self.old) (model.content self.new) (written at bytes.now)) }
        ensures images { OnOk result
            (Tears at (length bytes.now) (model.images self.old) (model.images self.new)) }
        ensures failed { OnFailed result (Faulted model self.old self.new) }
        ensures failed_content { OnFailed result (TearsContent at (length bytes.now)
            (model.content self.old) (model.content self.new)) }
        ensures failed_images { OnFailed result
            (Tears at (length bytes.now) (model.images self.old) (model.images self.new)) }
        ensures no_memory_content { OnNoMemory result
            (model.content self.new ≡ model.content self.old) }
        ensures no_memory_images { OnNoMemory result
            (Same (model.images self.old) (model.images self.new)) }
        ensures no_memory_time { OnNoMemory result
            (model.clock self.new ≡ model.clock self.old) }
        ensures no_memory_count { OnNoMemory result
            (model.faults self.new ≡ model.faults self.old) }
        ensures no_memory_bound { OnNoMemory result
            (model.bound self.new ≡ model.bound self.old) }
        ensures time { Elapses model self.old self.new }
        ensures held { model.faults self.new < 2 ^ 64 }
        ensures count { Counted model self.old self.new };

    /// After a sync that succeeds a crash leaves the content.
    fn sync(&mut self) -> Result<(), DiskFail>
        ensures synced { OnOk result
            (IfTold (model.content self.old) (λ l. Exactly l (model.images self.new))) }
        ensures content { model.content self.new ≡ model.content self.old }
        ensures failed { OnFailed result (Faulted model self.old self.new) }
        ensures failed_images { OnFailed result
            (Same (model.images self.old) (model.images self.new)) }
        ensures no_new { (c : List ℕ) → model.images self.new c → model.images self.old c }
        ensures no_memory { OnNoMemory result ⊥ }
        ensures time { Elapses model self.old self.new }
        ensures held { model.faults self.new < 2 ^ 64 }
        ensures count { Counted model self.old self.new };

    /// The content is one of the images.
    ghost content_is_image: { (d : Self) (l : List ℕ)
        → model.content d ≡ Some l → model.images d l };

    /// An image and the content differ at a place, or one of them ends before it. Then the place was written, or was to
    /// be, and not synced: it may hold any byte.
    ghost loose: { (d : Self) (l c e : List ℕ) (at : ℕ) → model.content d ≡ Some l
        → model.images d c → take 1 (drop at c) ≢ take 1 (drop at l)
        → Torn at 1 c e → model.images d e };

    /// At this moment a crash leaves the images of now.
    ghost counts_now: { (d : Self) (c : List ℕ)
        → model.images d c → model.images_between d (model.clock d) (model.clock d) c };

    ghost only_now: { (d : Self) (c : List ℕ)
        → model.images_between d (model.clock d) (model.clock d) c → model.images d c };

    /// A moment lies before a time between, or after it.
    ghost parts: { (d : Self) (t v u : ℕ) (c : List ℕ) → t ≤ v → v ≤ u
        → model.images_between d t u c
        → model.images_between d t v c ⊎ model.images_between d v u c };

    /// A longer time has each moment of a shorter one.
    ghost whole: { (d : Self) (t t' u' u : ℕ) (c : List ℕ) → t ≤ t' → u' ≤ u
        → model.images_between d t' u' c → model.images_between d t u c };

    /// The count never exceeds the bound.
    ghost within: { (d : Self) (b : ℕ) → model.bound d ≡ Some b → model.faults d ≤ b };
}
