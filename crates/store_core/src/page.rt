//! A page: the records that one fetch hands out, in room that was taken before.
ghost use Rattle.std.specs.Prelude.{◌≡◌, ◌≤◌, ◌<◌, ◌++◌, [], ◌∷◌, IfOk, length};
ghost use Rattle.store_core.specs.declared.page.TheConstants.{MOST_RECORDS};

use crate::record::Record;
use std::alloc::{AllocError, Global};
use std::marker::Model;
use std::sync::Arc;

/// The most records that a page has.
pub const MOST_RECORDS: u32 = 256;

/// Records by identifier, ascending. Contracts see the list of them, and the number that there is room for.
#[derive(Drop)]
pub struct Page {
    records: Vec<Arc<Record>>,
}

impl Model for Page {
    ghost use Rattle.std.specs.Prelude.{vec_capacity};
    ghost use Rattle.store_core.specs.Records.{PageTerm};

    ghost Value = { PageTerm };

    ghost view = { λ p. record { records = p.records.items; room = vec_capacity p.records } };
}

impl Page {
    /// A page without records, with room for `limit`.
    pub fn reserve(alloc: Global, limit: u32) -> Result<Page, AllocError>
        requires some { 1 ≤ limit }
        requires few { limit ≤ MOST_RECORDS }
        ensures empty { IfOk result (λ page. page.records ≡ []) }
        ensures room { IfOk result (λ page. limit ≤ page.room) }
    {
        let records = Vec::with_capacity(alloc, limit as usize)?;
        Ok(Page { records })
    }

    pub fn records(&self) -> &[Arc<Record>]
        ensures { result.now ≡ self.now.records }
    {
        self.records.as_slice()
    }

    /// Removes all records. The room stays.
    pub fn clear(&mut self)
        ensures empty { self.new.records ≡ [] }
        ensures room { self.new.room ≡ self.old.room }
    {
        self.records.clear();
    }

    // Adds a record.
    pub(crate) fn push(&mut self, entry: Arc<Record>)
        requires { length self.old.records < self.old.room }
        ensures records { self.new.records ≡ self.old.records ++ entry ∷ [] }
        ensures room { self.new.room ≡ self.old.room }
    {
        self.records.push_reserved(entry);
    }
}
