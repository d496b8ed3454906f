//! Records gather in memory after the written ones, so that the disk gets many in one call.

ghost use Rattle.std.specs.Prelude.{◌≡◌, ◌<◌, ◌≤◌, ◌+◌, ◌^◌, ◌++◌, ◌∷◌, [], ℕ, List, None, length, take, OnOk};
ghost use Rattle.std.specs.Vec.{vec_len, vec_capacity};
ghost use Rattle.disk_edge.specs.Disk.{IfTold, Keeps, OnFailed, Counted, Faulted};
ghost use Rattle.disk_edge.specs.Moments.{AtEachMoment};
ghost use Rattle.journal_core.specs.Records.{IsShort, body};
ghost use Rattle.journal_core.specs.declared.format.TheConstants.{OPEN};
ghost use Rattle.compact_core.specs.Copies.{Gathered};

use crate::extend::extend;
use disk_edge::{Disk, DiskFail};
use journal_core::OPEN;

// The number of bytes that gather before they are written. A longer record gathers alone.
const GATHERED: usize = 65_536;

/// Makes room for `more` bytes after the pending ones. If these would grow beyond `GATHERED`, they are written first,
/// and their memory is kept. After a refused write the bytes that it did not write are still pending.
pub(crate) fn make_room<D: Disk>(
    disk: &mut D,
    place: u64,
    pending: &mut Vec<u8>,
    more: usize,
) -> Result<(), DiskFail>
    requires start { IfTold (D.model.content disk.old)
        (λ l. place ≤ length l + length pending.old.items) }
    requires within { length pending.old.items ≤ place }
    requires end { place < 2 ^ 63 }
    requires few { more < 2 ^ 63 }

    ensures room { OnOk result (vec_len pending.new + more ≤ vec_capacity pending.new) }
    ensures stays { (gate : ℕ) (tail : List ℕ)
        → Gathered D.model disk.old gate tail pending.old.items → place ≡ length tail + 1
        → Gathered D.model disk.new gate tail pending.new.items }
    ensures moments { (gate : ℕ) (tail : List ℕ)
        → Gathered D.model disk.old gate tail pending.old.items → place ≡ length tail + 1
        → AtEachMoment D.model disk.old disk.new (λ c. take 1 c ≡ gate ∷ []) }
    ensures long { IfTold (D.model.content disk.new)
        (λ l. place ≤ length l + length pending.new.items) }
    ensures within { length pending.new.items ≤ place }
    ensures untold { D.model.content disk.old ≡ None → D.model.content disk.new ≡ None }
    ensures cause { OnFailed result (Faulted D.model disk.old disk.new) }
    ensures past { Keeps D.model disk.old disk.new }
    ensures count { Counted D.model disk.old disk.new }
{
    pending.reserve(more)?;
    if pending.len() + more > GATHERED && !pending.is_empty() {
        extend(disk, place - pending.len() as u64, pending)?;
        pending.clear();
    }
    Ok(())
}

/// Appends a payload after its length to the pending bytes. There is room for it.
pub(crate) fn push_base(pending: &mut Vec<u8>, payload: &[u8])
    requires few { IsShort payload.now }
    requires room { vec_len pending.old + 4 + length payload.now ≤ vec_capacity pending.old }
    ensures { pending.new.items ≡ pending.old.items ++ body payload.now }
{
    append(pending, &(payload.len() as u32).to_le_bytes());
    append(pending, payload);
}

/// As `push_base`, after an open gate.
pub(crate) fn push_commit(pending: &mut Vec<u8>, payload: &[u8])
    requires few { IsShort payload.now }
    requires room { vec_len pending.old + 5 + length payload.now ≤ vec_capacity pending.old }
    ensures { pending.new.items ≡ pending.old.items ++ OPEN ∷ body payload.now }
{
    pending.push_reserved(OPEN);
    push_base(pending, payload);
}

// Appends bytes for which there is room.
fn append(pending: &mut Vec<u8>, bytes: &[u8])
    requires { vec_len pending.old + length bytes.now ≤ vec_capacity pending.old }
    ensures items { pending.new.items ≡ pending.old.items ++ bytes.now }
    ensures len { vec_len pending.new ≡ vec_len pending.old + length bytes.now }
    ensures capacity { vec_capacity pending.old ≤ vec_capacity pending.new }
{
    let _ = pending.extend_from_slice(bytes);
}
