//! A disk that keeps nothing, for a store that is never opened again: its journal is written to nowhere.

ghost use Rattle.disk_edge.specs.NoDisk as nothing;
ghost use Rattle.disk_edge.specs.Untold as untold;

use crate::disk::{Disk, DiskFail};

/// A disk that keeps nothing. Each call passes at once and takes no memory. A read leaves the room as it is.
#[derive(Clone, Copy, Debug)]
pub struct NoDisk;

impl Disk for NoDisk {
    ghost model = { nothing.model };

    fn len(&mut self) -> Result<u64, DiskFail> {
        Ok(0)
    }

    fn read_at(&mut self, _at: u64, _room: &mut [u8]) -> Result<(), DiskFail> {
        Ok(())
    }

    fn write_at(&mut self, _at: u64, _bytes: &[u8]) -> Result<(), DiskFail> {
        Ok(())
    }

    fn sync(&mut self) -> Result<(), DiskFail> {
        Ok(())
    }

    ghost content_is_image = { λ _ _ _. tt };

    ghost loose = { λ _ _ _ _ _ _ _ _ _. tt };

    ghost counts_now = { λ _ _ _. tt };

    ghost only_now = { λ _ _ _. tt };

    ghost parts = { untold.in_parts };

    ghost whole = { λ _ _ _ _ _ _ _ _ _. tt };

    ghost within = { nothing.within };
}
