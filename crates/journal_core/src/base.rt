//! The base record at a place of a journal.

ghost use Rattle.std.specs.Prelude.{◌<◌, ◌≤◌, ◌+◌, ◌^◌, drop, length, IfOk, IfSome};
ghost use Rattle.disk_edge.specs.Disk.{IfTold, OnFailed, Faulted};
ghost use Rattle.journal_core.specs.Found.{IsBase, Holds};
ghost use Rattle.journal_core.specs.Looks.{Looks};
ghost use Rattle.journal_core.specs.Records.{IsShort};

use crate::window::Window;
use disk_edge::{Disk, DiskFail};
use std::alloc::Global;

/// The payload of the base record at `place`. `None` if its length or payload is missing, or its length is 0 or too
/// great.
pub(crate) fn base_at<D: Disk>(
    alloc: Global,
    disk: &mut D,
    window: &mut Window,
    place: u64,
) -> Result<Option<Vec<u8>>, DiskFail>
    requires holds { Holds (D.model.content disk.old) window.old }
    ensures found { IfOk result (λ found. IfTold (D.model.content disk.old)
        (λ l. IsBase found (drop place l))) }
    ensures ends { IfOk result (λ found. IfSome found (λ payload. (1 ≤ length payload.items)
        × IsShort payload.items × (place + 4 + length payload.items < 2 ^ 64))) }
    ensures holds { Holds (D.model.content disk.new) window.new }
    ensures looks { Looks D.model disk.old disk.new }
    ensures failed { OnFailed result (Faulted D.model disk.old disk.new) }
{
    let len = window.measure(disk)?;
    match window.payload_at(alloc, disk, place, len)? {
        Some(payload) if !payload.is_empty() => Ok(Some(payload)),
        _ => Ok(None),
    }
}
