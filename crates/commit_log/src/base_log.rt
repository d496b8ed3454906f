//! The base records of a journal are read.

ghost use Rattle.std.specs.Prelude.{◌≡◌, ◌<◌, ◌≤◌, ◌+◌, ◌⊎◌, ◌++◌, ℕ, List, [], ◌∷◌, length, false, true, OnErr, OnOk, IfOk, IfSome, IfNone, IsErrOf};
ghost use Rattle.disk_edge.specs.Disk.{IfTold, Faulted};
ghost use Rattle.journal_core.specs.Answers.{OnDamaged};
ghost use Rattle.journal_core.specs.Fronts.{BreaksBase, front_of};
ghost use Rattle.journal_core.specs.Journal.{Reads};
ghost use Rattle.journal_core.specs.Looks.{Looks};
ghost use Rattle.journal_core.specs.Records.{IsShort};
ghost use Rattle.commit_log.specs.Base.{DamagesBase, Follows, TakesBase, UnreadBase, base_payloads, entries_of};
ghost use Rattle.commit_log.specs.Entry.{entry_of, written};

use crate::base::BaseEntry;
use crate::reading::decode_base;
use disk_edge::Disk;
use journal_core::{Journal, LoadFault};
use std::alloc::Global;

/// The entries of all base records that are left, each with the place of its record. Their identifiers ascend, and each
/// version is 1 to that of the base. The commits may then be read. After a fault, want of memory too, the journal is at
/// some base record, and is loaded anew.
pub fn read_base<D: Disk>(
    alloc: Global,
    journal: &mut Journal<D>,
) -> Result<Vec<(u64, BaseEntry)>, LoadFault>
    requires settled { journal.old.doubt ≡ false }

    ensures takes { IfOk result (λ found. TakesBase journal.old.header.base_version
        journal.old.place found.items journal.new.place) }
    ensures all { IfOk result (λ found. (length found.items ≡ journal.old.left)
        × (journal.new.left ≡ 0)) }
    ensures reads { IfOk result (λ found. (before : List (List ℕ))
        → Reads D.model journal.old (front_of journal.old.header before) []
        → Reads D.model journal.new
        (front_of journal.old.header (before ++ base_payloads (entries_of found.items))) []) }
    ensures none { OnOk result (journal.old.left ≡ 0 → journal.new ≡ journal.old) }
    ensures damaged { OnDamaged result (λ at. (before : List (List ℕ))
        → Reads D.model journal.old (front_of journal.old.header before) []
        → IfTold (D.model.content journal.old.disk)
        (DamagesBase journal.old.header before journal.old.left at)) }
    ensures cause { IsErrOf result LoadFault.Disk
        → Faulted D.model journal.old.disk journal.new.disk }
    ensures no_other { ¬ IsErrOf result LoadFault.NotAStore }
    ensures some_left { OnErr result (1 ≤ journal.old.left) }
    ensures stands { OnErr result ((before : List (List ℕ))
        → Reads D.model journal.old (front_of journal.old.header before) []
        → (more : List (List ℕ))
        × Reads D.model journal.new (front_of journal.old.header (before ++ more)) []) }

    ensures header { journal.new.header ≡ journal.old.header }
    ensures settled { journal.new.doubt ≡ false }
    ensures looks { Looks D.model journal.old.disk journal.new.disk }
{
    let mut found = Vec::new(alloc);
    let mut last = 0;
    loop {
        match next_entry(alloc, journal, last) {
            Ok(Some((at, entry))) => {
                last = entry.id;
                found.push((at, entry))?;
            }
            Ok(None) => return Ok(found),
            Err(fault) => return Err(fault),
        }
    }
}

// Passes the next base record, and returns its entry and its place. The entry may follow one of the identifier `last`.
// `None` if no base record is left.
fn next_entry<D: Disk>(
    alloc: Global,
    journal: &mut Journal<D>,
    last: u32,
) -> Result<Option<(u64, BaseEntry)>, LoadFault>
    requires settled { journal.old.doubt ≡ false }

    ensures entry { IfOk result (λ found. IfSome found (λ one. (one.0 ≡ journal.old.place)
        × Follows journal.old.header.base_version last (entry_of one.1)
        × IsShort (written (entry_of one.1))
        × (journal.new.place ≡ one.0 + 4 + length (written (entry_of one.1)))
        × (journal.new.left + 1 ≡ journal.old.left))) }
    ensures reads { IfOk result (λ found. IfSome found (λ one. (base : List (List ℕ))
        → Reads D.model journal.old (front_of journal.old.header base) []
        → Reads D.model journal.new
        (front_of journal.old.header (base ++ written (entry_of one.1) ∷ [])) [])) }
    ensures end { IfOk result (λ found. IfNone found
        ((journal.old.left ≡ 0) × (journal.new ≡ journal.old))) }
    ensures damaged { OnDamaged result (λ at. (base : List (List ℕ))
        → Reads D.model journal.old (front_of journal.old.header base) []
        → (at ≡ length (front_of journal.old.header base))
        × IfTold (D.model.content journal.old.disk) (λ l.
        BreaksBase (front_of journal.old.header base) l
        ⊎ UnreadBase journal.old.header.base_version last (front_of journal.old.header base) l)) }
    ensures cause { IsErrOf result LoadFault.Disk
        → Faulted D.model journal.old.disk journal.new.disk }
    ensures no_other { ¬ IsErrOf result LoadFault.NotAStore }
    ensures some_left { OnErr result (1 ≤ journal.old.left) }
    ensures stands { OnErr result ((base : List (List ℕ))
        → Reads D.model journal.old (front_of journal.old.header base) []
        → (more : List (List ℕ))
        × Reads D.model journal.new (front_of journal.old.header (base ++ more)) []) }

    ensures header { journal.new.header ≡ journal.old.header }
    ensures settled { journal.new.doubt ≡ false }
    ensures looks { Looks D.model journal.old.disk journal.new.disk }
{
    let version = journal.header().base_version;
    let (at, payload) = match journal.next_base() {
        Ok(Some(record)) => record,
        Ok(None) => return Ok(None),
        Err(fault) => return Err(fault),
    };
    match decode_base(alloc, &payload) {
        Ok(Some(entry)) => {
            if follows(&entry, last, version) {
                Ok(Some((at, entry)))
            } else {
                Err(LoadFault::Damaged(at))
            }
        }
        Ok(None) => Err(LoadFault::Damaged(at)),
        Err(_) => Err(LoadFault::NoMemory),
    }
}

// True if an entry may follow one of the identifier `last` in a base of this version.
fn follows(entry: &BaseEntry, last: u32, version: u32) -> bool
    requires { entry.now.id ≤ 999999999 }
    ensures yes { result ≡ true → Follows version last (entry_of entry.now) }
    ensures no { Follows version last (entry_of entry.now) → result ≡ true }
{
    entry.id > last && entry.version >= 1 && entry.version <= version
}
