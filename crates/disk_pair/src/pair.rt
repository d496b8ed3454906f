//! Two disks on which commits are made, and a copy on the one that is not read. `append` makes a commit that no crash
//! undoes. First a finish that may be in doubt is ended, since the copy lacks the commit; then the journal takes it.

ghost use Rattle.std.specs.Prelude.{◌≡◌, ◌<◌, ◌≤◌, ◌+◌, ◌^◌, ◌⊎◌, [], Option, false, true, Some, None, length, not, is_some, OnErr, OnOk};
ghost use Rattle.journal_core.specs.Records.{IsShort};
ghost use Rattle.disk_pair.specs.Changed.{changed};
ghost use Rattle.disk_pair.specs.Gives.{AppendGives, CopyGives, CurrentStays, DoubtAfter, FinishGives, OnDoubt, PairGoes, StartGives, progress_after};
ghost use Rattle.disk_pair.specs.Pairs.{History, MayShow, PairOpensTo, State, with_base, with_commit};
ghost use Rattle.disk_pair.specs.Puts.{EndsFinish};
ghost use Rattle.disk_pair.specs.Stands.{StandsFor};
ghost use Rattle.disk_pair.specs.Term.{AtEachPair, HasRoom, IsBased, LacksBase, OfEachPair, disk_a, disk_b, first_of, further, is_doubtful, next_header, progress_of};
ghost use Rattle.disk_pair.specs.declared.other.Other.TheVariants.{Idle};

use crate::choice::Which;
use crate::fault::PutFault;
use crate::opening::Picked;
use crate::other::{Other, add, end_finish, finish, put_base, start};
use crate::put::put;
use disk_edge::{Disk, DiskFail, MemDisk};
use journal_core::{Header, Journal};
use std::alloc::Global;
use std::marker::Model;
use std::mem;

/// Two disks, one of them current. Its journal may be appended to. A copy may run on the other one.
#[derive(Drop)]
pub struct Pair<D: Disk> {
    alloc: Global,
    journal: Journal<D>,
    other: Option<Other<D>>,
    second: bool,
}

impl<D: Disk> Model for Pair<D> {
    ghost use Rattle.std.specs.Prelude.{◌≡◌, true};
    ghost use Rattle.disk_pair.specs.Puts.{IsThere, held};
    ghost use Rattle.disk_pair.specs.Term.{Paired};

    ghost Value = { Paired D };

    ghost view = { λ p. record {
      journal = p.journal;
      other = held p.journal.disk p.other;
      second = p.second;
    } };

    ghost invariant = { λ p. IsThere p.other × (p.journal.ready ≡ true) };
}

impl<D: Disk + Drop> Pair<D> {
    /// The two disks of a journal that was read to its end. Takes no memory.
    pub fn new(alloc: Global, picked: Picked<D>) -> Pair<D>
        requires ready { picked.journal.ready ≡ true }
        ensures { result ≡ record {
          journal = picked.journal;
          other = Idle picked.other false;
          second = picked.second;
        } }
    {
        Pair {
            alloc,
            journal: picked.journal,
            other: Some(Other::Idle {
                disk: picked.other,
                doubtful: false,
            }),
            second: picked.second,
        }
    }

    /// Makes a commit, a payload of 1 to 1,048,576 bytes. At `Ok` it is acknowledged: each crash from then on leaves
    /// it. A finish in doubt is ended first, and then a commit in doubt. A running copy goes on, and lacks the commit.
    pub fn append(&mut self, payload: &[u8]) -> Result<(), PutFault>
        requires some { 1 ≤ length payload.now }
        requires few { IsShort payload.now }
        requires room { self.old.journal.place < 2 ^ 62 }

        ensures gives { (s : State) → StandsFor D.model self.old s
            → AppendGives result (StandsFor D.model self.new) s payload.now }
        ensures acknowledged { OnOk result ((s : State) → StandsFor D.model self.old s
            → OfEachPair D.model self.new (PairOpensTo (λ h. h ≡ with_commit s.now payload.now))) }
        ensures moments { (s : State) → StandsFor D.model self.old s
            → AtEachPair D.model self.old self.new
            (PairOpensTo (λ h. MayShow s h ⊎ (h ≡ with_commit s.now payload.now))) }
        ensures goes { PairGoes D.model result self.old self.new }
        ensures moved { OnOk result
            (self.new.journal.place ≡ self.old.journal.place + 5 + length payload.now) }
        ensures stays { OnErr result (self.new.journal.place ≡ self.old.journal.place) }
        ensures in_doubt { DoubtAfter result self.old.journal.doubt self.new.journal.doubt }
        ensures header { self.new.journal.header ≡ self.old.journal.header }
        ensures progress { progress_of self.new.other ≡ progress_of self.old.other }
        ensures second { self.new.second ≡ self.old.second }
    {
        match self.end_finish() {
            Ok(()) => {}
            Err(DiskFail::Failed) => return Err(PutFault::DiskFault { doubt: false }),
            Err(DiskFail::NoMemory) => return Err(PutFault::NoMemory),
        }
        put(&mut self.journal, payload)
    }

    /// Starts a copy on the other disk, in the next generation. It gets this version and this number of base records.
    /// After a refusal no copy runs.
    pub fn start_copy(&mut self, base_version: u32, base_count: u32) -> Result<(), PutFault>
        requires idle { progress_of self.old.other ≡ None }
        requires next { self.old.journal.header.generation < 4294967295 }

        ensures gives { (s : State) → StandsFor D.model self.old s
            → StartGives result (StandsFor D.model self.new) s
            (next_header self.old.journal.header base_version base_count) }
        ensures current { CurrentStays D.model self.old self.new }
        ensures goes { PairGoes D.model result self.old self.new }
        ensures progress { progress_of self.new.other ≡ progress_after result None (Some (record {
          header = next_header self.old.journal.header base_version base_count;
          place = 20;
          bases = 0;
        })) }
    {
        let header = Header {
            generation: self.journal.header().generation + 1,
            base_version,
            base_count,
        };
        let Some(Other::Idle { disk, doubtful }) = self.other.take() else {
            unreachable!()
        };
        let (other, outcome) = start(self.alloc, disk, doubtful, header);
        self.other = Some(other);
        outcome
    }

    /// Adds a base record to the running copy, a payload of 1 to 1,048,576 bytes. If the disk fails, the copy is given
    /// up, and its disk is not open. If memory runs out, the copy goes on as it was.
    pub fn put_base(&mut self, payload: &[u8]) -> Result<(), PutFault>
        requires left { LacksBase (progress_of self.old.other) }
        requires some { 1 ≤ length payload.now }
        requires few { IsShort payload.now }
        requires room { HasRoom (progress_of self.old.other) }

        ensures gives { (s : State) (copy : History) → StandsFor D.model self.old s
            → s.copy ≡ Some copy → copy.commits ≡ []
            → CopyGives result (StandsFor D.model self.new) s (with_base copy payload.now) }
        ensures current { CurrentStays D.model self.old self.new }
        ensures goes { PairGoes D.model result self.old self.new }
        ensures progress { progress_of self.new.other ≡ progress_after result
            (progress_of self.old.other)
            (further (4 + length payload.now) 1 (progress_of self.old.other)) }
    {
        let Some(Other::Copy(carry)) = self.other.take() else {
            unreachable!()
        };
        let (other, outcome) = put_base(carry, payload);
        self.other = Some(other);
        outcome
    }

    /// Adds a commit to the running copy, a payload of 1 to 1,048,576 bytes. It has all its base records. If the disk
    /// fails, the copy is given up, and its disk is not open. If memory runs out, the copy goes on as it was.
    pub fn add(&mut self, payload: &[u8]) -> Result<(), PutFault>
        requires based { IsBased (progress_of self.old.other) }
        requires some { 1 ≤ length payload.now }
        requires few { IsShort payload.now }
        requires room { HasRoom (progress_of self.old.other) }

        ensures gives { (s : State) (copy : History) → StandsFor D.model self.old s
            → s.copy ≡ Some copy
            → CopyGives result (StandsFor D.model self.new) s (with_commit copy payload.now) }
        ensures current { CurrentStays D.model self.old self.new }
        ensures goes { PairGoes D.model result self.old self.new }
        ensures progress { progress_of self.new.other ≡ progress_after result
            (progress_of self.old.other)
            (further (5 + length payload.now) 0 (progress_of self.old.other)) }
    {
        let Some(Other::Copy(carry)) = self.other.take() else {
            unreachable!()
        };
        let (other, outcome) = add(carry, payload);
        self.other = Some(other);
        outcome
    }

    /// Ends the running copy, which has all its base records, and the commits that were made meanwhile. At `Ok` its
    /// disk is the current one, and the other one is idle: no later crash loses the copy. If the disk fails, the copy
    /// is given up; with `doubt` a crash may leave it. If memory runs out, the copy goes on as it was.
    pub fn finish(&mut self) -> Result<(), PutFault>
        requires based { IsBased (progress_of self.old.other) }

        ensures gives { (s : State) (copy : History) → StandsFor D.model self.old s
            → s.copy ≡ Some copy
            → FinishGives result (StandsFor D.model self.new) s copy }
        ensures acknowledged { OnOk result ((s : State) (copy : History)
            → StandsFor D.model self.old s → s.copy ≡ Some copy
            → OfEachPair D.model self.new (PairOpensTo (λ h. h ≡ copy))) }
        ensures moments { (s : State) → StandsFor D.model self.old s
            → AtEachPair D.model self.old self.new
            (PairOpensTo (λ h. MayShow s h ⊎ (s.copy ≡ Some h))) }
        ensures goes { PairGoes D.model result self.old self.new }
        ensures moved { OnOk result (progress_of self.old.other ≡ Some (record {
          header = self.new.journal.header;
          place = self.new.journal.place;
          bases = self.new.journal.header.base_count;
        })) }
        ensures settled { OnOk result (self.new.journal.doubt ≡ false) }
        ensures doubtful { OnDoubt result (is_doubtful self.new.other ≡ true) }
        ensures stays { OnErr result (self.new.journal ≡ self.old.journal) }
        ensures progress { progress_of self.new.other
            ≡ progress_after result (progress_of self.old.other) None }
        ensures second { OnOk result (self.new.second ≡ not self.old.second) }
        ensures same { OnErr result (self.new.second ≡ self.old.second) }
    {
        let Some(Other::Copy(carry)) = self.other.take() else {
            unreachable!()
        };
        match finish(carry) {
            Ok(next) => {
                let old = mem::replace(&mut self.journal, next);
                self.other = Some(Other::Idle {
                    disk: old.into_disk(),
                    doubtful: false,
                });
                self.second = !self.second;
                Ok(())
            }
            Err((other, fault)) => {
                self.other = Some(other);
                Err(fault)
            }
        }
    }

    /// True if a copy runs. Takes no memory.
    pub fn is_copying(&self) -> bool
        ensures { result ≡ is_some (progress_of self.now.other) }
    {
        matches!(self.other, Some(Other::Copy(_)))
    }

    /// The header of the current disk. Takes no memory.
    pub fn header(&self) -> Header
        ensures { result ≡ self.now.journal.header }
    {
        self.journal.header()
    }

    /// The first disk and the second one. A running copy is given up. Takes no memory.
    pub fn into_disks(self) -> (D, D)
        ensures a { result.0 ≡ disk_a self }
        ensures b { result.1 ≡ disk_b self }
    {
        let Pair {
            journal,
            other,
            second,
            ..
        } = self;
        let Some(other) = other else { unreachable!() };
        first_and_second(journal.into_disk(), other.into_disk(), second)
    }

    // Ends a finish that may be in doubt.
    fn end_finish(&mut self) -> Result<(), DiskFail>
        ensures ends { EndsFinish D.model result self.old.other self.new.other }
        ensures journal { self.new.journal ≡ self.old.journal }
        ensures second { self.new.second ≡ self.old.second }
    {
        let Some(other) = self.other.take() else {
            unreachable!()
        };
        let (other, outcome) = end_finish(other);
        self.other = Some(other);
        outcome
    }
}

impl Pair<MemDisk> {
    /// The next `calls` calls of a disk pass, and each later one fails. Takes no memory.
    pub fn stop_after(&mut self, disk: Which, calls: u64)
        ensures { self.new ≡ changed disk (λ d. record d {
          failures = record d.failures { passes = Some calls };
        }) self.old }
    {
        if (disk == Which::Second) == self.second {
            self.journal.stop_after(calls);
            return;
        }
        match &mut self.other {
            Some(Other::Idle { disk, .. }) => disk.stop_after(calls),
            Some(Other::Copy(carry)) => carry.stop_after(calls),
            None => unreachable!(),
        }
    }

    /// The call of a disk of this number from now, counted from 1, fails. Takes no memory.
    pub fn fail_once(&mut self, disk: Which, call: u64)
        ensures { self.new ≡ changed disk (λ d. record d {
          failures = record d.failures { once = Some call };
        }) self.old }
    {
        if (disk == Which::Second) == self.second {
            self.journal.fail_once(call);
            return;
        }
        match &mut self.other {
            Some(Other::Idle { disk, .. }) => disk.fail_once(call),
            Some(Other::Copy(carry)) => carry.fail_once(call),
            None => unreachable!(),
        }
    }
}

// The first of two disks, and the second one.
fn first_and_second<D: Disk>(current: D, other: D, second: bool) -> (D, D)
    ensures first { result.0 ≡ first_of second current other }
    ensures second { result.1 ≡ first_of second other current }
{
    if second {
        (other, current)
    } else {
        (current, other)
    }
}
