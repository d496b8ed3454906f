//! Bytes are written after those of a disk that follow its one gate.

ghost use Rattle.std.specs.Prelude.{◌≡◌, ◌<◌, ◌≤◌, ◌+◌, ◌^◌, ℕ, List, [], ◌∷◌, ◌++◌, take, length, Some, None, OnOk, OnErr};
ghost use Rattle.disk_edge.specs.Disk.{IfTold, Keeps, OnFailed, Counted, Faulted};
ghost use Rattle.disk_edge.specs.Moments.{AtEachMoment};
ghost use Rattle.journal_core.specs.declared.format.TheConstants.{CLOSED};
ghost use Rattle.compact_core.specs.Copies.{Gathered, IsAt, IsSynced, Stands};

use disk_edge::{Disk, DiskFail};
use journal_core::CLOSED;

/// Writes bytes at the end of the written ones. It is not synced.
pub(crate) fn extend<D: Disk>(disk: &mut D, place: u64, bytes: &[u8]) -> Result<(), DiskFail>
    requires start { IfTold (D.model.content disk.old) (λ l. place ≤ length l) }
    requires end { place + length bytes.now < 2 ^ 63 }

    ensures ok { OnOk result ((gate : ℕ) (tail : List ℕ)
        → Stands D.model disk.old gate tail → place ≡ length tail + 1
        → Stands D.model disk.new gate (tail ++ bytes.now)) }
    ensures wrote { OnOk result (IfTold (D.model.content disk.new) (IsAt place bytes.now)) }
    ensures reaches { OnOk result (IfTold (D.model.content disk.new)
        (λ l. place + length bytes.now ≤ length l)) }
    ensures long { IfTold (D.model.content disk.new) (λ l. place ≤ length l) }
    ensures stays { OnErr result ((gate : ℕ) (tail : List ℕ)
        → Stands D.model disk.old gate tail → place ≡ length tail + 1
        → Stands D.model disk.new gate tail) }
    ensures moments { (gate : ℕ) (tail : List ℕ)
        → Stands D.model disk.old gate tail → place ≡ length tail + 1
        → AtEachMoment D.model disk.old disk.new (λ c. take 1 c ≡ gate ∷ []) }
    ensures each { (gate : ℕ) (tail : List ℕ)
        → Stands D.model disk.old gate tail → place ≡ length tail + 1
        → (c : List ℕ) → D.model.images disk.new c → take 1 c ≡ gate ∷ [] }
    ensures told { IfTold (D.model.content disk.old)
        (λ _. (l : List ℕ) × (D.model.content disk.new ≡ Some l)) }
    ensures untold { D.model.content disk.old ≡ None → D.model.content disk.new ≡ None }
    ensures cause { OnFailed result (Faulted D.model disk.old disk.new) }
    ensures past { Keeps D.model disk.old disk.new }
    ensures count { Counted D.model disk.old disk.new }
{
    disk.write_at(place, bytes)
}

/// Writes the pending bytes and then a closed gate, at the end of the written ones, and syncs. `pending` stays.
pub(crate) fn seal<D: Disk>(disk: &mut D, place: u64, pending: &mut Vec<u8>) -> Result<(), DiskFail>
    requires start { IfTold (D.model.content disk.old)
        (λ l. place ≤ length l + length pending.old.items) }
    requires within { length pending.old.items ≤ place }
    requires end { place + 1 < 2 ^ 63 }

    ensures ok { OnOk result ((gate : ℕ) (tail : List ℕ)
        → Gathered D.model disk.old gate tail pending.old.items → place ≡ length tail + 1
        → Stands D.model disk.new gate (tail ++ CLOSED ∷ [])) }
    ensures synced { OnOk result (IsSynced D.model disk.new) }
    ensures closed { OnOk result (IfTold (D.model.content disk.new) (IsAt place (CLOSED ∷ []))) }
    ensures reaches { OnOk result (IfTold (D.model.content disk.new) (λ l. place < length l)) }
    ensures long { IfTold (D.model.content disk.new)
        (λ l. place ≤ length l + length pending.old.items) }
    ensures pending { pending.new.items ≡ pending.old.items }
    ensures stays { (gate : ℕ) (tail : List ℕ)
        → Gathered D.model disk.old gate tail pending.old.items → place ≡ length tail + 1
        → Gathered D.model disk.new gate tail pending.old.items }
    ensures moments { (gate : ℕ) (tail : List ℕ)
        → Gathered D.model disk.old gate tail pending.old.items → place ≡ length tail + 1
        → AtEachMoment D.model disk.old disk.new (λ c. take 1 c ≡ gate ∷ []) }
    ensures told { IfTold (D.model.content disk.old)
        (λ _. (l : List ℕ) × (D.model.content disk.new ≡ Some l)) }
    ensures untold { D.model.content disk.old ≡ None → D.model.content disk.new ≡ None }
    ensures cause { OnFailed result (Faulted D.model disk.old disk.new) }
    ensures past { Keeps D.model disk.old disk.new }
    ensures count { Counted D.model disk.old disk.new }
{
    extend_closed(disk, place, pending)?;
    disk.sync()
}

// Writes the pending bytes and then a closed gate in one call. It is not synced.
fn extend_closed<D: Disk>(disk: &mut D, place: u64, pending: &mut Vec<u8>) -> Result<(), DiskFail>
    requires start { IfTold (D.model.content disk.old)
        (λ l. place ≤ length l + length pending.old.items) }
    requires within { length pending.old.items ≤ place }
    requires end { place + 1 < 2 ^ 63 }

    ensures ok { OnOk result ((gate : ℕ) (tail : List ℕ)
        → Gathered D.model disk.old gate tail pending.old.items → place ≡ length tail + 1
        → Stands D.model disk.new gate (tail ++ CLOSED ∷ [])) }
    ensures closed { OnOk result (IfTold (D.model.content disk.new) (IsAt place (CLOSED ∷ []))) }
    ensures reaches { OnOk result (IfTold (D.model.content disk.new) (λ l. place < length l)) }
    ensures long { IfTold (D.model.content disk.new)
        (λ l. place ≤ length l + length pending.old.items) }
    ensures pending { pending.new.items ≡ pending.old.items }
    ensures stays { (gate : ℕ) (tail : List ℕ)
        → Gathered D.model disk.old gate tail pending.old.items → place ≡ length tail + 1
        → Gathered D.model disk.new gate tail pending.old.items }
    ensures moments { (gate : ℕ) (tail : List ℕ)
        → Gathered D.model disk.old gate tail pending.old.items → place ≡ length tail + 1
        → AtEachMoment D.model disk.old disk.new (λ c. take 1 c ≡ gate ∷ []) }
    ensures told { IfTold (D.model.content disk.old)
        (λ _. (l : List ℕ) × (D.model.content disk.new ≡ Some l)) }
    ensures untold { D.model.content disk.old ≡ None → D.model.content disk.new ≡ None }
    ensures cause { OnFailed result (Faulted D.model disk.old disk.new) }
    ensures past { Keeps D.model disk.old disk.new }
    ensures count { Counted D.model disk.old disk.new }
{
    let start = place - pending.len() as u64;
    pending.push(CLOSED)?;
    let outcome = extend(disk, start, pending);
    pending.pop();
    outcome
}
