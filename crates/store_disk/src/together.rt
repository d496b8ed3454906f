//! Rebuilds the store in memory by several threads: the texts of some commits are read together, and then these commits
//! are made in order.

ghost use Rattle.std.specs.Prelude.{◌≡◌, ◌≤◌, ◌⊎◌, ◌++◌, ℕ, [], ◌∷◌, false, IfOk, IsErrOf, List, OnOk, true};
ghost use Rattle.commit_log.specs.Base.{AreEntries, entries_of};
ghost use Rattle.commit_log.specs.Change as logged;
ghost use Rattle.commit_log.specs.Log.{DamagesLog, IsLogged, changes_of};
ghost use Rattle.commit_log.specs.declared.base.BaseEntry.{BaseEntry as TheEntry};
ghost use Rattle.commit_log.specs.declared.change.Commit.{Commit as TheCommit};
ghost use Rattle.disk_edge.specs.Disk.{Faulted, IfTold};
ghost use Rattle.journal_core.specs.Answers.{OnDamaged};
ghost use Rattle.journal_core.specs.Journal.{Reads};
ghost use Rattle.journal_core.specs.Looks.{Looks};
ghost use Rattle.store_disk.specs.Replays.{AreLogged, HasBased, HasCome, HasTaken, IsReadTo, IsReplayed, LacksText, Stops};

use crate::replay::{Rebuild, put_entry};
use crate::texts::{read_changes, read_records};
use commit_log::{BaseEntry, Commit, next_commit};
use disk_edge::Disk;
use journal_core::{Journal, LoadFault};
use std::alloc::{AllocError, Global};
use std::thread::Threads;
use store_core::{MOST_COMMITS, Store as Memory};

// Bytes of the journal whose commits are read together, with one commit more.
const BATCH: u64 = 262_144;

/// As `replay`, by at most `workers` threads. The texts of some commits are read together, by several threads if they
/// are many, and the commits are made before the next are read: so memory holds a few more texts.
pub(crate) fn replay_by<R: Threads + Sync, D: Disk>(
    rt: &R,
    workers: usize,
    alloc: Global,
    journal: &mut Journal<D>,
    version: u32,
    base: &[(u64, BaseEntry)],
    commits: u32,
) -> Result<Memory, LoadFault>
    requires settled { journal.old.doubt ≡ false }
    requires based { journal.old.left ≡ 0 }
    requires some { 1 ≤ commits }
    requires few { commits ≤ MOST_COMMITS }
    requires within { version ≤ MOST_COMMITS }
    requires entries { AreEntries version 0 (entries_of base.now) }

    ensures ok { IfOk result (λ memory. (log : List TheCommit)
        × IsReadTo D.model journal.old journal.new log
        × IsReplayed memory commits version (entries_of base.now) (changes_of log)) }
    ensures ready { OnOk result (journal.new.ready ≡ true) }
    ensures damaged { OnDamaged result (λ at. ((front : List ℕ) (before : List (List ℕ))
        → Reads D.model journal.old front before
        → IfTold (D.model.content journal.old.disk) (DamagesLog front before at))
        ⊎ ((log : List TheCommit) × IsReadTo D.model journal.old journal.new log
        × (LacksText base.now at ⊎ Stops version (entries_of base.now) log at))) }
    ensures cause { IsErrOf result LoadFault.Disk
        → Faulted D.model journal.old.disk journal.new.disk }
    ensures no_other { ¬ IsErrOf result LoadFault.NotAStore }

    ensures settled { journal.new.doubt ≡ false }
    ensures header { journal.new.header ≡ journal.old.header }
    ensures looks { Looks D.model journal.old.disk journal.new.disk }
{
    let made = based_by(rt, workers, alloc, version, base);
    let rebuild = Rebuild::begin(alloc, version, made)?;
    let mut batches = Batches::of(alloc, workers, rebuild);
    loop {
        match next_commit(alloc, journal) {
            Ok(Some(commit)) => batches.add(rt, commit)?,
            Ok(None) => return batches.end(rt, commits),
            Err(fault) => return Err(fault),
        }
    }
}

// The store in memory as it is made, and the commits that wait until their texts are read together.
#[derive(Drop)]
struct Batches {
    alloc: Global,
    workers: usize,
    waiting: Vec<Commit>,
    // The place up to which commits were made.
    from: u64,
    rebuild: Rebuild,
}

impl Batches {
    // No commit waits.
    fn of(alloc: Global, workers: usize, rebuild: Rebuild) -> Batches
        ensures none { result.waiting.items ≡ [] }
        ensures rebuild { result.rebuild ≡ rebuild }
    {
        Batches {
            alloc,
            workers,
            waiting: Vec::new(alloc),
            from: 0,
            rebuild,
        }
    }

    // Takes one more commit. Those that wait are made once they are many.
    fn add<R: Threads + Sync>(&mut self, rt: &R, commit: Commit) -> Result<(), AllocError>
        requires logged { IsLogged (logged.change_of commit.wire) }
        requires waiting { AreLogged self.old.waiting.items }
        ensures waiting { OnOk result (AreLogged self.new.waiting.items) }
        ensures taken { OnOk result ((version : ℕ) (base : List (ℕ × TheEntry))
            (log : List TheCommit) → HasTaken self.old.rebuild.memory self.old.rebuild.stopped
            self.old.waiting.items version base log
            → HasTaken self.new.rebuild.memory self.new.rebuild.stopped
            self.new.waiting.items version base (log ++ commit ∷ [])) }
    {
        let at = commit.at;
        self.waiting.push(commit)?;
        self.make_many(rt, at)
    }

    // Makes the commits that wait, if those up to the one at a place are many.
    fn make_many<R: Threads + Sync>(&mut self, rt: &R, at: u64) -> Result<(), AllocError>
        requires { AreLogged self.old.waiting.items }
        ensures waiting { OnOk result (AreLogged self.new.waiting.items) }
        ensures taken { OnOk result ((version : ℕ) (base : List (ℕ × TheEntry))
            (log : List TheCommit) → HasTaken self.old.rebuild.memory self.old.rebuild.stopped
            self.old.waiting.items version base log
            → HasTaken self.new.rebuild.memory self.new.rebuild.stopped
            self.new.waiting.items version base log) }
    {
        if at.saturating_sub(self.from) < BATCH {
            return Ok(());
        }
        self.from = at;
        self.make_all(rt)
    }

    // Makes the commits that wait, if each before them was made. None waits then.
    fn make_all<R: Threads + Sync>(&mut self, rt: &R) -> Result<(), AllocError>
        requires { AreLogged self.old.waiting.items }
        ensures none { OnOk result (self.new.waiting.items ≡ []) }
        ensures come { OnOk result ((version : ℕ) (base : List (ℕ × TheEntry))
            (log : List TheCommit) → HasTaken self.old.rebuild.memory self.old.rebuild.stopped
            self.old.waiting.items version base log
            → HasCome self.new.rebuild.memory self.new.rebuild.stopped version base log) }
    {
        self.make_waiting(rt)?;
        self.waiting.clear();
        Ok(())
    }

    // Makes the commits that wait, if each before them was made. They are kept.
    fn make_waiting<R: Threads + Sync>(&mut self, rt: &R) -> Result<(), AllocError>
        requires { AreLogged self.old.waiting.items }
        ensures { OnOk result ((version : ℕ) (base : List (ℕ × TheEntry))
            (log : List TheCommit) → HasTaken self.old.rebuild.memory self.old.rebuild.stopped
            self.old.waiting.items version base log
            → HasCome self.new.rebuild.memory self.new.rebuild.stopped version base log) }
    {
        match self.rebuild.stopped {
            Some(_) => Ok(()),
            None => {
                let commits = self.waiting.as_slice();
                let changes = read_changes(rt, self.alloc, self.workers, commits)?;
                self.rebuild.add_all(commits, changes)
            }
        }
    }

    // The store, which takes `commits` commits in all, or the place of what could not be made.
    fn end<R: Threads + Sync>(self, rt: &R, commits: u32) -> Result<Memory, LoadFault>
        requires few { commits ≤ MOST_COMMITS }
        requires waiting { AreLogged self.waiting.items }
        ensures ok { IfOk result (λ memory. (version : ℕ) (base : List (ℕ × TheEntry))
            (log : List TheCommit) → HasTaken self.rebuild.memory self.rebuild.stopped
            self.waiting.items version base log
            → IsReplayed memory commits version (entries_of base) (changes_of log)) }
        ensures damaged { OnDamaged result (λ at. (version : ℕ) (base : List (ℕ × TheEntry))
            (log : List TheCommit) → HasTaken self.rebuild.memory self.rebuild.stopped
            self.waiting.items version base log
            → LacksText base at ⊎ Stops version (entries_of base) log at) }
        ensures no_disk { ¬ IsErrOf result LoadFault.Disk }
        ensures no_other { ¬ IsErrOf result LoadFault.NotAStore }
    {
        let mut batches = self;
        batches.make_all(rt)?;
        let Batches { rebuild, .. } = batches;
        rebuild.end(commits)
    }
}

// The store in memory at a base.
fn based_by<R: Threads + Sync>(
    rt: &R,
    workers: usize,
    alloc: Global,
    version: u32,
    base: &[(u64, BaseEntry)],
) -> Result<Memory, LoadFault>
    requires within { version ≤ MOST_COMMITS }
    requires entries { AreEntries version 0 (entries_of base.now) }
    ensures ok { IfOk result (λ memory. HasBased memory version (entries_of base.now)) }
    ensures damaged { OnDamaged result (LacksText base.now) }
    ensures no_disk { ¬ IsErrOf result LoadFault.Disk }
    ensures no_other { ¬ IsErrOf result LoadFault.NotAStore }
{
    let read = read_records(rt, alloc, workers, base)?;
    let mut records = read.into_iter();
    let mut memory = Memory::at_base(alloc, version);
    for one in base {
        let Some(answer) = records.next() else {
            unreachable!()
        };
        put_entry(&mut memory, one, answer)?;
    }
    Ok(memory)
}
