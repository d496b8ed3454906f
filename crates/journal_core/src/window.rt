//! A window on a disk's bytes, so that records are read in large pieces.

ghost use Rattle.std.specs.Prelude.{◌≡◌, ◌<◌, ◌≤◌, ◌+◌, ◌-◌, ◌^◌, [], ◌∷◌, None, Some, length, take, drop, OnOk, IfOk, IfSome, true};
ghost use Rattle.std.specs.Int.{to_le_bytes, w32};
ghost use Rattle.disk_edge.specs.Disk.{IfTold, OnFailed, Faulted};
ghost use Rattle.journal_core.specs.Found.{Holds, Covers, IsPayload};
ghost use Rattle.journal_core.specs.Looks.{Looks};
ghost use Rattle.journal_core.specs.Records.{IsShort};

use crate::format::LONGEST_PAYLOAD;
use disk_edge::{Disk, DiskFail};
use std::alloc::Global;

// The number of bytes that are read at once, if the disk has them left.
const PIECE: usize = 65_536;

/// Bytes of a disk from a place on, and the disk's length, once it was asked for.
#[derive(Drop)]
pub(crate) struct Window {
    pub(crate) bytes: Vec<u8>,
    pub(crate) start: u64,
    pub(crate) len: Option<u64>,
}

impl Window {
    /// A window that shows nothing, over a disk of this length. Takes no memory.
    pub(crate) fn new(alloc: Global, len: u64) -> Window
        ensures bytes { result.bytes.items ≡ [] }
        ensures len { result.len ≡ Some len }
    {
        Window {
            bytes: Vec::new(alloc),
            start: 0,
            len: Some(len),
        }
    }

    /// A window that shows nothing, over a disk whose length it does not know. Takes no memory.
    pub(crate) fn unknown(alloc: Global) -> Window
        ensures bytes { result.bytes.items ≡ [] }
        ensures len { result.len ≡ None }
    {
        Window {
            bytes: Vec::new(alloc),
            start: 0,
            len: None,
        }
    }

    /// Forgets the bytes and the length, since the disk will be written.
    pub(crate) fn forget(&mut self)
        ensures bytes { self.new.bytes.items ≡ [] }
        ensures len { self.new.len ≡ None }
    {
        self.bytes.clear();
        self.len = None;
    }

    /// The disk's length.
    pub(crate) fn measure<D: Disk>(&mut self, disk: &mut D) -> Result<u64, DiskFail>
        requires holds { Holds (D.model.content disk.old) self.old }
        ensures length { IfOk result (λ n. IfTold (D.model.content disk.old) (λ l. n ≡ length l)) }
        ensures holds { Holds (D.model.content disk.new) self.new }
        ensures looks { Looks D.model disk.old disk.new }
        ensures failed { OnFailed result (Faulted D.model disk.old disk.new) }
    {
        if let Some(len) = self.len {
            return Ok(len);
        }
        let len = disk.len()?;
        self.len = Some(len);
        Ok(len)
    }

    /// The byte at a place.
    pub(crate) fn byte_at<D: Disk>(
        &mut self,
        disk: &mut D,
        at: u64,
        len: u64,
    ) -> Result<u8, DiskFail>
        requires inside { at < len }
        requires len { IfTold (D.model.content disk.old) (λ l. len ≡ length l) }
        requires holds { Holds (D.model.content disk.old) self.old }
        ensures byte { IfOk result (λ b. IfTold (D.model.content disk.old)
            (λ l. take 1 (drop at l) ≡ b ∷ [])) }
        ensures holds { Holds (D.model.content disk.new) self.new }
        ensures looks { Looks D.model disk.old disk.new }
        ensures failed { OnFailed result (Faulted D.model disk.old disk.new) }
    {
        self.cover(disk, at, 1, len)?;
        Ok(self.shown(at, 1)[0])
    }

    /// The payload after its length, which is in the four bytes from `at` on. `None` if the length or the payload is
    /// missing, or too long.
    pub(crate) fn payload_at<D: Disk>(
        &mut self,
        alloc: Global,
        disk: &mut D,
        at: u64,
        len: u64,
    ) -> Result<Option<Vec<u8>>, DiskFail>
        requires len { IfTold (D.model.content disk.old) (λ l. len ≡ length l) }
        requires holds { Holds (D.model.content disk.old) self.old }
        ensures found { IfOk result (λ found. IfTold (D.model.content disk.old)
            (λ l. IsPayload found (drop at l))) }
        ensures ends { IfOk result (λ found. IfSome found (λ payload. IsShort payload.items
            × (at + 4 + length payload.items < 2 ^ 64))) }
        ensures holds { Holds (D.model.content disk.new) self.new }
        ensures looks { Looks D.model disk.old disk.new }
        ensures failed { OnFailed result (Faulted D.model disk.old disk.new) }
    {
        if len < at || len - at < 4 {
            return Ok(None);
        }
        let size = self.number_at(disk, at, len)? as usize;
        if size > LONGEST_PAYLOAD || len - at - 4 < size as u64 {
            return Ok(None);
        }
        Ok(Some(self.copy_at(alloc, disk, at + 4, size, len)?))
    }

    // The number in the four bytes from a place on, the lowest first.
    fn number_at<D: Disk>(&mut self, disk: &mut D, at: u64, len: u64) -> Result<u32, DiskFail>
        requires inside { at + 4 ≤ len }
        requires len { IfTold (D.model.content disk.old) (λ l. len ≡ length l) }
        requires holds { Holds (D.model.content disk.old) self.old }
        ensures number { IfOk result (λ n. IfTold (D.model.content disk.old)
            (λ l. take 4 (drop at l) ≡ to_le_bytes w32 n)) }
        ensures holds { Holds (D.model.content disk.new) self.new }
        ensures looks { Looks D.model disk.old disk.new }
        ensures failed { OnFailed result (Faulted D.model disk.old disk.new) }
    {
        self.cover(disk, at, 4, len)?;
        Ok(number_of(self.shown(at, 4)))
    }

    // A copy of `count` bytes from a place on.
    fn copy_at<D: Disk>(
        &mut self,
        alloc: Global,
        disk: &mut D,
        at: u64,
        count: usize,
        len: u64,
    ) -> Result<Vec<u8>, DiskFail>
        requires inside { at + count ≤ len }
        requires few { count ≤ 1048576 }
        requires len { IfTold (D.model.content disk.old) (λ l. len ≡ length l) }
        requires holds { Holds (D.model.content disk.old) self.old }
        ensures count { IfOk result (λ v. length v.items ≡ count) }
        ensures bytes { IfOk result (λ v. IfTold (D.model.content disk.old)
            (λ l. v.items ≡ take count (drop at l))) }
        ensures holds { Holds (D.model.content disk.new) self.new }
        ensures looks { Looks D.model disk.old disk.new }
        ensures failed { OnFailed result (Faulted D.model disk.old disk.new) }
    {
        self.cover(disk, at, count, len)?;
        Ok(self.shown(at, count).to_vec(alloc)?)
    }

    // Reads a piece if the window does not show `count` bytes from `at` on.
    fn cover<D: Disk>(
        &mut self,
        disk: &mut D,
        at: u64,
        count: usize,
        len: u64,
    ) -> Result<(), DiskFail>
        requires inside { at + count ≤ len }
        requires few { count ≤ 1048576 }
        requires len { IfTold (D.model.content disk.old) (λ l. len ≡ length l) }
        requires holds { Holds (D.model.content disk.old) self.old }
        ensures covers { OnOk result (Covers self.new at count) }
        ensures holds { Holds (D.model.content disk.new) self.new }
        ensures looks { Looks D.model disk.old disk.new }
        ensures failed { OnFailed result (Faulted D.model disk.old disk.new) }
    {
        if self.covers(at, count) {
            return Ok(());
        }
        let size = piece_size(count, len - at);
        self.bytes.clear();
        self.bytes.resize(size, 0)?;
        self.start = at;
        if let Err(fail) = disk.read_at(at, &mut self.bytes) {
            self.bytes.clear();
            return Err(fail);
        }
        Ok(())
    }

    // True if it shows `count` bytes from `at` on.
    fn covers(&self, at: u64, count: usize) -> bool
        ensures { result ≡ true → Covers self.now at count }
    {
        let shown = self.bytes.len() as u64;
        let count = count as u64;
        self.start <= at && at - self.start <= shown && count <= shown - (at - self.start)
    }

    // The `count` bytes from `at` on.
    fn shown(&self, at: u64, count: usize) -> &[u8]
        requires { Covers self.now at count }
        ensures { result.now ≡ take count (drop (at - self.now.start) self.now.bytes.items) }
    {
        let from = (at - self.start) as usize;
        &self.bytes[from..from + count]
    }
}

// The number of bytes to read: a piece, or `wanted` if that is more, but no more than `left`.
fn piece_size(wanted: usize, left: u64) -> usize
    requires few { wanted ≤ 1048576 }
    requires inside { wanted ≤ left }
    ensures enough { wanted ≤ result }
    ensures inside { result ≤ left }
{
    let most = wanted.max(PIECE);
    if left < most as u64 {
        left as usize
    } else {
        most
    }
}

fn number_of(bytes: &[u8]) -> u32
    requires { length bytes.now ≡ 4 }
    ensures { to_le_bytes w32 result ≡ bytes.now }
{
    u32::from_le_bytes([bytes[0], bytes[1], bytes[2], bytes[3]])
}
