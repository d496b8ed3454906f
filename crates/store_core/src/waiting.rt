//! Records that wait to be shared with a page. The counts of several are read from memory at once, before any is raised.
ghost use Rattle.std.specs.Prelude.{◌≡◌, ◌+◌, ◌++◌, ◌<◌, ◌≤◌, [], ◌∷◌, OnErr, OnOk, length};
ghost use Rattle.store_core.specs.Waiting.{HasFirst, values};

use crate::page::Page;
use crate::record::Record;
use arrayvec::ArrayVec;
use std::alloc::AllocError;
use std::marker::Model;
use std::sync::Arc;

// The most records that wait.
const MOST_WAITING: usize = 32;

/// Contracts see the records, in the order in which they came.
#[derive(Drop)]
pub struct Waiting<'a> {
    // no element is `None`
    records: ArrayVec<Option<&'a Arc<Record>>, MOST_WAITING>,
}

impl<'a> Model for Waiting<'a> {
    ghost use Rattle.std.specs.Prelude.{◌≡◌, List, length};
    ghost use Rattle.store_core.specs.Records.{Shared};
    ghost use Rattle.store_core.specs.Waiting.{present};

    ghost Value = { List Shared };

    ghost view = { λ w. present w.records.items };

    ghost invariant = { λ w. length (present w.records.items) ≡ length w.records.items };
}

impl<'a> Waiting<'a> {
    /// No records.
    pub fn new() -> Waiting<'a>
        ensures { result ≡ [] }
    {
        Waiting {
            records: ArrayVec::new(),
        }
    }

    /// The number of records that wait.
    pub fn len(&self) -> usize
        ensures { result ≡ length self.now }
    {
        self.records.len()
    }

    /// Adds a record after the others. If there is no room, the others are shared with the page first.
    pub fn gather(&mut self, found: &'a Arc<Record>, page: &mut Page) -> Result<(), AllocError>
        requires { length page.old.records + length self.old < page.old.room }
        ensures ok { OnOk result (values (page.new.records ++ self.new)
            ≡ values (page.old.records ++ (self.old ++ found.now ∷ []))) }
        ensures err { OnErr result (HasFirst page.new.records (page.old.records ++ self.old)) }
        ensures room { page.new.room ≡ page.old.room }
    {
        if !self.records.is_full() {
            self.records.push(Some(found));
            return Ok(());
        }
        self.share(page)?;
        self.records.clear();
        self.records.push(Some(found));
        Ok(())
    }

    /// Shares them with a page, in turn. After an error the page has the first of them.
    pub fn share(&self, page: &mut Page) -> Result<(), AllocError>
        requires { length page.old.records + length self.now ≤ page.old.room }
        ensures ok { OnOk result (values page.new.records ≡ values (page.old.records ++ self.now)) }
        ensures first { HasFirst page.new.records (page.old.records ++ self.now) }
        ensures room { page.new.room ≡ page.old.room }
    {
        self.read_counts();
        for waiting in self.records.iter() {
            if let Some(record) = waiting {
                page.push(Arc::try_clone(*record)?);
            }
        }
        Ok(())
    }

    // Reads the share count of each. Reads wait for memory side by side, and raising a count that was read does not
    // wait. Without the reads, each count would wait for the one before.
    fn read_counts(&self) {
        for waiting in self.records.iter() {
            if let Some(record) = waiting {
                let _count = Arc::strong_count(*record);
            }
        }
    }
}
