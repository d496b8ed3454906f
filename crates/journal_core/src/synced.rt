//! A write that is synced at once.

ghost use Rattle.std.specs.Prelude.{◌≡◌, ◌<◌, ◌≤◌, ◌+◌, ◌^◌, List, ℕ, length, OnOk};
ghost use Rattle.disk_edge.specs.Disk.{written, Torn, Same, Exactly, Tears, Keeps, OnFailed, OnNoMemory, Becomes, TearsContent, IfTold, Counted, Faulted};
ghost use Rattle.disk_edge.specs.Moments.{AtEachMoment};

use disk_edge::{Disk, DiskFail};

/// Writes bytes at a place and syncs. A crash at any moment of it leaves an image from before, torn in the range.
pub fn put<D: Disk>(disk: &mut D, at: u64, bytes: &[u8]) -> Result<(), DiskFail>
    requires start { IfTold (D.model.content disk.old) (λ l. at ≤ length l) }
    requires end { at + length bytes.now < 2 ^ 63 }

    ensures content { OnOk result
        (Becomes (D.model.content disk.old) (D.model.content disk.new) (written at bytes.now)) }
    ensures synced { OnOk result
        (IfTold (D.model.content disk.new) (λ l. Exactly l (D.model.images disk.new))) }
    ensures failed { OnFailed result
        (Tears at (length bytes.now) (D.model.images disk.old) (D.model.images disk.new)) }
    ensures failed_content { OnFailed result
        (TearsContent at (length bytes.now) (D.model.content disk.old) (D.model.content disk.new)) }
    ensures no_memory { OnNoMemory result
        (Same (D.model.images disk.old) (D.model.images disk.new)) }
    ensures no_memory_content { OnNoMemory result
        (D.model.content disk.new ≡ D.model.content disk.old) }

    ensures moments { AtEachMoment D.model disk.old disk.new
        (λ c. (d : List ℕ) × D.model.images disk.old d × Torn at (length bytes.now) d c) }
    ensures past { Keeps D.model disk.old disk.new }
    ensures cause { OnFailed result (Faulted D.model disk.old disk.new) }
    ensures count { Counted D.model disk.old disk.new }
{
    disk.write_at(at, bytes)?;
    disk.sync()
}
