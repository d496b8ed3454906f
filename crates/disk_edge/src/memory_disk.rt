//! A disk in memory is a disk: its images at each moment follow from its record.

ghost use Rattle.std.specs.Prelude.{length};
ghost use Rattle.disk_edge.specs.Medium as medium;
ghost use Rattle.disk_edge.specs.MediumLaws as laws;
ghost use Rattle.disk_edge.specs.Loose as loose;

use crate::disk::{Disk, DiskFail};
use crate::memory::MemDisk;

impl Disk for MemDisk {
    ghost model = { medium.model };

    fn len(&mut self) -> Result<u64, DiskFail> {
        if self.call() {
            return Err(DiskFail::Failed);
        }
        Ok(self.bytes().len() as u64)
    }

    fn read_at(&mut self, at: u64, room: &mut [u8]) -> Result<(), DiskFail> {
        if self.call() {
            return Err(DiskFail::Failed);
        }
        let at = at as usize;
        room.copy_from_slice(&self.bytes()[at..at + room.len()]);
        Ok(())
    }

    fn write_at(&mut self, at: u64, bytes: &[u8]) -> Result<(), DiskFail> {
        self.write(at as usize, bytes)
    }

    fn sync(&mut self) -> Result<(), DiskFail> {
        self.sync_all()
    }

    ghost content_is_image = { laws.content_is_image };

    ghost loose = { loose.loose_at };

    ghost counts_now = { λ d. laws.counts d.first d.calls };

    ghost only_now = { λ d. laws.only_since d.first d.calls (length d.calls) };

    ghost parts = { λ d. laws.in_parts d.first d.calls };

    ghost whole = { λ d. laws.in_whole d.first d.calls };

    ghost within = { laws.within };
}
