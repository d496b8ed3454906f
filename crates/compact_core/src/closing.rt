//! The gate of a disk's header is closed.

ghost use Rattle.std.specs.Prelude.{◌≡◌, ◌≢◌, ◌≤◌, ◌⊎◌, ℕ, List, [], ◌∷◌, take, length, Some, None, true, false, OnOk, OnErr, IfOk};
ghost use Rattle.disk_edge.specs.Disk.{IfTold, Keeps, OnFailed, Counted, Faulted};
ghost use Rattle.disk_edge.specs.Moments.{AtEachMoment};
ghost use Rattle.journal_core.specs.Fronts.{IsOpen, IsShut};
ghost use Rattle.journal_core.specs.Looks.{Looks};
ghost use Rattle.journal_core.specs.declared.format.TheConstants.{OPEN};
ghost use Rattle.compact_core.specs.Copies.{IsSynced};

use disk_edge::{Disk, DiskFail};
use journal_core::{CLOSED, OPEN};

/// Closes the gate of a disk's header if it is open, and syncs. At `Ok` the disk is shut: no image of it is open. At
/// every moment each image that is open was one at entry. A refusal keeps each image that there was.
pub fn shut<D: Disk>(disk: &mut D) -> Result<(), DiskFail>
    ensures ok { OnOk result
        (IfTold (D.model.content disk.old) (λ _. IsShut (D.model.images disk.new))) }
    ensures stays { OnErr result
        ((c : List ℕ) → D.model.images disk.old c → D.model.images disk.new c) }
    ensures no_new { IfTold (D.model.content disk.old)
        (λ _. (c : List ℕ) → D.model.images disk.new c → IsOpen c → D.model.images disk.old c) }
    ensures moments { IfTold (D.model.content disk.old)
        (λ _. AtEachMoment D.model disk.old disk.new
        (λ c. IsOpen c → D.model.images disk.old c)) }
    ensures told { IfTold (D.model.content disk.old)
        (λ _. (l : List ℕ) × (D.model.content disk.new ≡ Some l)) }
    ensures untold { D.model.content disk.old ≡ None → D.model.content disk.new ≡ None }
    ensures cause { OnFailed result (Faulted D.model disk.old disk.new) }
    ensures past { Keeps D.model disk.old disk.new }
    ensures count { Counted D.model disk.old disk.new }
{
    close(disk, false)
}

/// As `shut`, and with `fill` a disk without bytes gets a closed gate.
pub(crate) fn close<D: Disk>(disk: &mut D, fill: bool) -> Result<(), DiskFail>
    ensures synced { OnOk result (IsSynced D.model disk.new) }
    ensures closed { OnOk result (IfTold (D.model.content disk.new)
        (λ l. (take 1 l ≢ OPEN ∷ []) × (fill ≡ true → 1 ≤ length l))) }
    ensures stays { OnErr result
        ((c : List ℕ) → D.model.images disk.old c → D.model.images disk.new c) }
    ensures no_new { IfTold (D.model.content disk.old)
        (λ _. (c : List ℕ) → D.model.images disk.new c → IsOpen c → D.model.images disk.old c) }
    ensures moments { IfTold (D.model.content disk.old)
        (λ _. AtEachMoment D.model disk.old disk.new
        (λ c. IsOpen c → D.model.images disk.old c)) }
    ensures told { IfTold (D.model.content disk.old)
        (λ _. (l : List ℕ) × (D.model.content disk.new ≡ Some l)) }
    ensures untold { D.model.content disk.old ≡ None → D.model.content disk.new ≡ None }
    ensures cause { OnFailed result (Faulted D.model disk.old disk.new) }
    ensures past { Keeps D.model disk.old disk.new }
    ensures count { Counted D.model disk.old disk.new }
{
    close_gate(disk, fill)?;
    disk.sync()
}

// Writes a closed gate if the gate is open; with `fill`, also if the disk has no bytes.
fn close_gate<D: Disk>(disk: &mut D, fill: bool) -> Result<(), DiskFail>
    ensures closed { OnOk result (IfTold (D.model.content disk.new)
        (λ l. (take 1 l ≢ OPEN ∷ []) × (fill ≡ true → 1 ≤ length l))) }
    ensures stays { (c : List ℕ) → D.model.images disk.old c → D.model.images disk.new c }
    ensures no_new { IfTold (D.model.content disk.old)
        (λ _. (c : List ℕ) → D.model.images disk.new c → IsOpen c → D.model.images disk.old c) }
    ensures moments { IfTold (D.model.content disk.old)
        (λ _. AtEachMoment D.model disk.old disk.new
        (λ c. IsOpen c → D.model.images disk.old c)) }
    ensures told { IfTold (D.model.content disk.old)
        (λ _. (l : List ℕ) × (D.model.content disk.new ≡ Some l)) }
    ensures untold { D.model.content disk.old ≡ None → D.model.content disk.new ≡ None }
    ensures cause { OnFailed result (Faulted D.model disk.old disk.new) }
    ensures past { Keeps D.model disk.old disk.new }
    ensures count { Counted D.model disk.old disk.new }
{
    if must_close(disk, fill)? {
        disk.write_at(0, &[CLOSED])
    } else {
        Ok(())
    }
}

// True if the gate is open; with `fill`, also if it is missing.
fn must_close<D: Disk>(disk: &mut D, fill: bool) -> Result<bool, DiskFail>
    ensures open { IfOk result (λ yes. IfTold (D.model.content disk.old)
        (λ l. yes ≡ true → (take 1 l ≡ OPEN ∷ []) ⊎ (l ≡ []))) }
    ensures closed { IfOk result (λ yes. IfTold (D.model.content disk.old)
        (λ l. yes ≡ false → (take 1 l ≢ OPEN ∷ []) × (fill ≡ true → 1 ≤ length l))) }
    ensures failed { OnErr result (Faulted D.model disk.old disk.new) }
    ensures looks { Looks D.model disk.old disk.new }
{
    if disk.len()? == 0 {
        return Ok(fill);
    }
    let mut gate = [0];
    disk.read_at(0, &mut gate)?;
    Ok(gate[0] == OPEN)
}
