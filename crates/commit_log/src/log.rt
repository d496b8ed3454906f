//! The commits of a journal are read.

ghost use Rattle.std.specs.Prelude.{◌≡◌, ◌<◌, ◌+◌, ◌^◌, ◌⊎◌, ◌++◌, ℕ, List, [], ◌∷◌, length, true, false, OnErr, OnOk, IfOk, IfSome, IfNone, IsErrOf};
ghost use Rattle.disk_edge.specs.Disk.{IfTold, Faulted};
ghost use Rattle.journal_core.specs.Answers.{OnDamaged};
ghost use Rattle.journal_core.specs.Journal.{Reads, Rests};
ghost use Rattle.journal_core.specs.Looks.{Looks};
ghost use Rattle.journal_core.specs.Records.{Breaks, prefix};
ghost use Rattle.commit_log.specs.Change.{change_of, written};
ghost use Rattle.commit_log.specs.Log.{DamagesLog, IsLog, IsLogged, Takes, Unread, changes_of, payloads};

use crate::change::Commit;
use crate::reading::decode;
use disk_edge::Disk;
use journal_core::{Journal, LoadFault};
use std::alloc::Global;

/// All commits from the journal's place on, up to the first gate that is not open. It may then be appended to. After a
/// fault, want of memory too, the journal is at some record, and is loaded anew.
pub fn read_all<D: Disk>(alloc: Global, journal: &mut Journal<D>) -> Result<Vec<Commit>, LoadFault>
    requires settled { journal.old.doubt ≡ false }
    requires based { journal.old.left ≡ 0 }

    ensures takes { IfOk result
        (λ commits. Takes journal.old.place commits.items journal.new.place) }
    ensures log { IfOk result (λ commits. (front : List ℕ) (before : List (List ℕ))
        → Reads D.model journal.old front before → IfTold (D.model.content journal.old.disk)
        (IsLog front before (changes_of commits.items))) }
    ensures rests { IfOk result (λ commits. (front : List ℕ) (before : List (List ℕ))
        → Reads D.model journal.old front before
        → Rests D.model journal.new front (before ++ payloads (changes_of commits.items))) }
    ensures ready { OnOk result (journal.new.ready ≡ true) }
    ensures damaged { OnDamaged result (λ at. (front : List ℕ) (before : List (List ℕ))
        → Reads D.model journal.old front before
        → IfTold (D.model.content journal.old.disk) (DamagesLog front before at)) }
    ensures cause { IsErrOf result LoadFault.Disk
        → Faulted D.model journal.old.disk journal.new.disk }
    ensures no_other { ¬ IsErrOf result LoadFault.NotAStore }
    ensures stands { OnErr result ((front : List ℕ) (before : List (List ℕ))
        → Reads D.model journal.old front before
        → (more : List (List ℕ)) × Reads D.model journal.new front (before ++ more)) }

    ensures settled { journal.new.doubt ≡ false }
    ensures header { (journal.new.header ≡ journal.old.header)
        × (journal.new.left ≡ journal.old.left) }
    ensures looks { Looks D.model journal.old.disk journal.new.disk }
{
    let mut commits = Vec::new(alloc);
    loop {
        match next_commit(alloc, journal) {
            Ok(Some(commit)) => commits.push(commit)?,
            Ok(None) => return Ok(commits),
            Err(fault) => return Err(fault),
        }
    }
}

/// Passes the next commit, and returns it. `None` at a gate that is not open: the journal may then be appended to.
/// After a fault, want of memory too, the journal is at some record, and is loaded anew.
pub fn next_commit<D: Disk>(
    alloc: Global,
    journal: &mut Journal<D>,
) -> Result<Option<Commit>, LoadFault>
    requires settled { journal.old.doubt ≡ false }
    requires based { journal.old.left ≡ 0 }

    ensures commit { IfOk result (λ found. IfSome found (λ commit. (commit.at ≡ journal.old.place)
        × IsLogged (change_of commit.wire)
        × (journal.new.place ≡ commit.at + 5 + length (written (change_of commit.wire))))) }
    ensures reads { IfOk result (λ found. IfSome found (λ commit. (front : List ℕ)
        (ps : List (List ℕ)) → Reads D.model journal.old front ps
        → Reads D.model journal.new front (ps ++ written (change_of commit.wire) ∷ []))) }
    ensures end { IfOk result (λ found. IfNone found ((journal.new.ready ≡ true)
        × (journal.new.place ≡ journal.old.place) × ((front : List ℕ) (ps : List (List ℕ))
        → Reads D.model journal.old front ps → Rests D.model journal.new front ps))) }
    ensures damaged { OnDamaged result (λ at. (front : List ℕ) (ps : List (List ℕ))
        → Reads D.model journal.old front ps → (at ≡ length (prefix front ps))
        × IfTold (D.model.content journal.old.disk)
        (λ l. Breaks front ps l ⊎ Unread front ps l)) }
    ensures cause { IsErrOf result LoadFault.Disk
        → Faulted D.model journal.old.disk journal.new.disk }
    ensures no_other { ¬ IsErrOf result LoadFault.NotAStore }
    ensures stands { OnErr result ((front : List ℕ) (ps : List (List ℕ))
        → Reads D.model journal.old front ps
        → (more : List (List ℕ)) × Reads D.model journal.new front (ps ++ more)) }

    ensures below { journal.new.place < 2 ^ 64 }
    ensures settled { journal.new.doubt ≡ false }
    ensures header { (journal.new.header ≡ journal.old.header)
        × (journal.new.left ≡ journal.old.left) }
    ensures looks { Looks D.model journal.old.disk journal.new.disk }
{
    let (at, payload) = match journal.next() {
        Ok(Some(record)) => record,
        Ok(None) => return Ok(None),
        Err(fault) => return Err(fault),
    };
    match decode(alloc, &payload) {
        Ok(Some(wire)) => Ok(Some(Commit { at, wire })),
        Ok(None) => Err(LoadFault::Damaged(at)),
        Err(_) => Err(LoadFault::NoMemory),
    }
}
