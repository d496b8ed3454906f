//! The states at a version, one identifier after another. A copy reads its version so.
ghost use Rattle.std.specs.Prelude.{◌≡◌, ℕ};
ghost use Rattle.store_core.specs.States.{GivesState, GoOn};

use crate::kept::{EntryReadings, next_reading};
use crate::laws::laws;
use crate::record::Record;
use crate::store::Store;
use crate::words::IdState;
use arrayvec::ArrayVec;
use std::marker::Model;
use std::sync::Arc;

// Records whose texts are read side by side. If an identifier was withdrawn there is none.
type Gathered<'a> = ArrayVec<Option<&'a Arc<Record>>, 256>;

/// The states of a store at a version, by identifier ascending. Contracts see the store, the version, and the entries
/// that were not passed yet.
#[derive(Drop)]
pub struct States<'a> {
    store: &'a Store,
    readings: EntryReadings<'a>,
}

impl<'a> Model for States<'a> {
    ghost use Rattle.store_core.specs.States.{StatesTerm};

    ghost Value = { StatesTerm };

    ghost view = { λ s. record {
      store = s.store.now;
      ahead = s.readings.ahead;
      version = s.readings.version;
    } };
}

impl<'a> States<'a> {
    // Of a store's entries.
    pub(crate) fn begin(store: &'a Store, readings: EntryReadings<'a>) -> States<'a>
        ensures { result ≡ record {
          store = store.now;
          ahead = readings.entry.ahead;
          version = readings.entry.version;
        } }
    {
        States { store, readings }
    }

    /// The next identifier that has a state, with this state; `None` only if no identifier that was not passed has one.
    /// Takes no memory.
    pub fn next(&mut self) -> Option<IdState<'a>>
        ensures next { (version from : ℕ) → GoOn version from self.old
            → GivesState self.old self.new version from result }
        ensures store { self.new.store ≡ self.old.store }
    {
        laws();
        let (id, made_at, entry) = next_reading(&mut self.readings)?;
        Some(IdState {
            id,
            made_at,
            entry: entry.as_ref(),
        })
    }
}

/// The records of the next `count` entries, as many as fit in. No record is read.
pub(crate) fn gathered<'a>(
    readings: &mut EntryReadings<'a>,
    count: u32,
) -> ArrayVec<Option<&'a Arc<Record>>, 256> {
    let mut records = Gathered::new();
    for _ in 0..count {
        let Some((_, _, entry)) = next_reading(readings) else {
            return records;
        };
        if records.is_full() {
            return records;
        }
        records.push(entry.as_ref());
    }
    records
}

/// The length of the longest text. Each read is independent of the others, so they wait for memory side by side.
pub(crate) fn longest(records: &[Option<&Arc<Record>>]) -> usize {
    let mut longest = 0;
    for record in records.iter() {
        if let Some(record) = record {
            longest = longest.max(record.text().len());
        }
    }
    longest
}
