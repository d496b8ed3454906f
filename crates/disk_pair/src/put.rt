//! A payload is put into the journal, and an older doubt is ended first.

ghost use Rattle.std.specs.Prelude.{◌≡◌, ◌<◌, ◌≤◌, ◌+◌, ◌^◌, List, None, OnErr, OnOk, Option, false, length, true, ℕ};
ghost use Rattle.disk_edge.specs.Disk.{Faulted, IfTold, OnFailed};
ghost use Rattle.disk_edge.specs.Moments.{AtEachMoment};
ghost use Rattle.journal_core.specs.Records.{IsShort};
ghost use Rattle.disk_pair.specs.Stands.{Has};
ghost use Rattle.disk_pair.specs.Gives.{DoubtAfter, OnFault};
ghost use Rattle.disk_pair.specs.Puts.{PutGives, ShowsDoubt, ShowsOne};
ghost use Rattle.disk_pair.specs.Term.{Goes};

use crate::fault::PutFault;
use disk_edge::{Disk, DiskFail};
use journal_core::{AppendFault, Journal};

/// Appends a payload. A doubt is ended first, if there is one.
pub(crate) fn put<D: Disk>(journal: &mut Journal<D>, payload: &[u8]) -> Result<(), PutFault>
    requires ready { journal.old.ready ≡ true }
    requires some { 1 ≤ length payload.now }
    requires few { IsShort payload.now }
    requires room { journal.old.place < 2 ^ 62 }

    ensures gives { (front : List ℕ) (ps : List (List ℕ)) (doubt : Option (List ℕ))
        → Has D.model journal.old front ps doubt
        → PutGives result (Has D.model journal.new front) ps doubt payload.now }
    ensures moments { (front : List ℕ) (ps : List (List ℕ)) (doubt : Option (List ℕ))
        → Has D.model journal.old front ps doubt
        → IfTold (D.model.content journal.new.disk) (λ _. AtEachMoment D.model
        journal.old.disk journal.new.disk (ShowsOne front ps doubt payload.now)) }
    ensures goes { Goes D.model journal.old.disk journal.new.disk }
    ensures cause { OnFault result (Faulted D.model journal.old.disk journal.new.disk) }
    ensures in_doubt { DoubtAfter result journal.old.doubt journal.new.doubt }
    ensures ready { journal.new.ready ≡ true }
    ensures header { journal.new.header ≡ journal.old.header }
    ensures moved { OnOk result (journal.new.place ≡ journal.old.place + 5 + length payload.now) }
    ensures stays { OnErr result (journal.new.place ≡ journal.old.place) }
{
    match settle(journal) {
        Ok(()) => {}
        Err(DiskFail::Failed) => return Err(PutFault::DiskFault { doubt: false }),
        Err(DiskFail::NoMemory) => return Err(PutFault::NoMemory),
    }
    match journal.append(payload) {
        Ok(()) => Ok(()),
        Err(AppendFault::Sure) => Err(PutFault::DiskFault { doubt: false }),
        Err(AppendFault::Doubt) => Err(PutFault::DiskFault { doubt: true }),
        Err(AppendFault::NoMemory) => Err(PutFault::NoMemory),
    }
}

// Ends the doubt, if there is one.
fn settle<D: Disk>(journal: &mut Journal<D>) -> Result<(), DiskFail>
    requires ready { journal.old.ready ≡ true }

    ensures ok { OnOk result ((front : List ℕ) (ps : List (List ℕ)) (doubt : Option (List ℕ))
        → Has D.model journal.old front ps doubt
        → Has D.model journal.new front ps None) }
    ensures err { OnErr result ((front : List ℕ) (ps : List (List ℕ)) (doubt : Option (List ℕ))
        → Has D.model journal.old front ps doubt
        → Has D.model journal.new front ps doubt) }
    ensures moments { (front : List ℕ) (ps : List (List ℕ)) (doubt : Option (List ℕ))
        → Has D.model journal.old front ps doubt
        → IfTold (D.model.content journal.new.disk) (λ _. AtEachMoment D.model
        journal.old.disk journal.new.disk (ShowsDoubt front ps doubt)) }
    ensures goes { Goes D.model journal.old.disk journal.new.disk }
    ensures settled { OnOk result (journal.new.doubt ≡ false) }
    ensures in_doubt { OnErr result (journal.new.doubt ≡ journal.old.doubt) }
    ensures cause { OnFailed result (Faulted D.model journal.old.disk journal.new.disk) }
    ensures ready { journal.new.ready ≡ true }
    ensures header { journal.new.header ≡ journal.old.header }
    ensures place { journal.new.place ≡ journal.old.place }
{
    if journal.doubt() {
        journal.settle()
    } else {
        Ok(())
    }
}
