//! Rebuilds the store in memory: the entries of a base are put there, and then the commits of a journal are made again,
//! each as it is read.

ghost use Rattle.std.specs.Prelude.{◌≡◌, ◌≤◌, ◌⊎◌, ◌++◌, ℕ, [], ◌∷◌, false, IfOk, IsErrOf, List, None, OnOk, true};
ghost use Rattle.std.specs.List.{AllByRecursion};
ghost use Rattle.commit_log.specs.Base.{AreEntries, entries_of};
ghost use Rattle.commit_log.specs.Change as logged;
ghost use Rattle.commit_log.specs.Entry.{entry_of};
ghost use Rattle.commit_log.specs.Log.{DamagesLog, IsLogged, changes_of};
ghost use Rattle.commit_log.specs.declared.base.BaseEntry.{BaseEntry as TheEntry};
ghost use Rattle.commit_log.specs.declared.change.Commit.{Commit as TheCommit};
ghost use Rattle.disk_edge.specs.Disk.{Faulted, IfTold};
ghost use Rattle.journal_core.specs.Answers.{OnDamaged};
ghost use Rattle.journal_core.specs.Journal.{Reads};
ghost use Rattle.journal_core.specs.Looks.{Looks};
ghost use Rattle.store_core.specs.Based.{IsBefore, IsGiven};
ghost use Rattle.store_core.specs.Stored.{IsServing, StandsFor, served};
ghost use Rattle.store_machine.specs.History.{HasText, IsId};
ghost use Rattle.store_machine.specs.Machine.{MayAdd, committed};
ghost use Rattle.store_machine.specs.Openings.{IsOpened};
ghost use Rattle.store_machine.specs.declared.machine.Entry.{Entry};
ghost use Rattle.store_machine.specs.declared.machine.State.{State};
ghost use Rattle.store_disk.specs.Payloads.{told, told_entry};
ghost use Rattle.store_disk.specs.Replays.{HasBased, HasCome, IsReadTo, IsReplayed, LacksText, Made, Stops};
ghost use Rattle.store_disk.specs.Texts.{AreChanges, IsChange, IsRecord};

use crate::payload::{ReadChange, ReadRecord, change_from, record_from};
use commit_log::{BaseEntry, Commit, next_commit};
use disk_edge::Disk;
use journal_core::{Journal, LoadFault};
use mol_finish::TextFault;
use std::alloc::{AllocError, Global};
use store_core::{CommitFault, MOST_COMMITS, Recorder, Store as Memory};

// How many commits more than there are states are made before the entries that the head does not read are dropped.
const SPARE: u32 = 4096;

/// Makes the commits of a journal in memory, after the entries of its base, from the record on at which it stands. Each
/// commit is read, made and dropped before the next is read. Memory holds the entries that the head reads, and on the
/// way at most as many others and a few thousand more.
///
/// `Disk`: a call of the disk failed. `NoMemory`: memory ran out. `Damaged(at)`: the journal is damaged at this place,
/// or else the base record or the commit there cannot be made. If one cannot be made, the rest is only read, so that
/// damage to the journal is reported first.
pub(crate) fn replay<D: Disk>(
    alloc: Global,
    journal: &mut Journal<D>,
    version: u32,
    base: &[(u64, BaseEntry)],
    commits: u32,
) -> Result<Memory, LoadFault>
    requires settled { journal.old.doubt ≡ false }
    requires based { journal.old.left ≡ 0 }
    requires some { 1 ≤ commits }
    requires few { commits ≤ MOST_COMMITS }
    requires within { version ≤ MOST_COMMITS }
    requires entries { AreEntries version 0 (entries_of base.now) }

    ensures ok { IfOk result (λ memory. (log : List TheCommit)
        × IsReadTo D.model journal.old journal.new log
        × IsReplayed memory commits version (entries_of base.now) (changes_of log)) }
    ensures ready { OnOk result (journal.new.ready ≡ true) }
    ensures damaged { OnDamaged result (λ at. ((front : List ℕ) (before : List (List ℕ))
        → Reads D.model journal.old front before
        → IfTold (D.model.content journal.old.disk) (DamagesLog front before at))
        ⊎ ((log : List TheCommit) × IsReadTo D.model journal.old journal.new log
        × (LacksText base.now at ⊎ Stops version (entries_of base.now) log at))) }
    ensures cause { IsErrOf result LoadFault.Disk
        → Faulted D.model journal.old.disk journal.new.disk }
    ensures no_other { ¬ IsErrOf result LoadFault.NotAStore }

    ensures settled { journal.new.doubt ≡ false }
    ensures header { journal.new.header ≡ journal.old.header }
    ensures looks { Looks D.model journal.old.disk journal.new.disk }
{
    let mut recorder = Recorder::new(alloc);
    let made = based(alloc, &mut recorder, version, base);
    let mut rebuild = Rebuild::begin(alloc, version, made)?;
    loop {
        match next_commit(alloc, journal) {
            Ok(Some(commit)) => rebuild.read(&mut recorder, commit)?,
            Ok(None) => return rebuild.end(commits),
            Err(fault) => return Err(fault),
        }
    }
}

/// The store in memory as it is made, entry by entry and commit by commit.
#[derive(Drop)]
pub(crate) struct Rebuild {
    pub(crate) memory: Memory,
    // The number of commits that were made since the entries that the head does not read were dropped.
    since: u32,
    /// The place of the first entry or commit that could not be made; none after it is made.
    pub(crate) stopped: Option<u64>,
}

impl Rebuild {
    /// The store in memory at a base, or the place of the first entry that could not be made.
    pub(crate) fn begin(
        alloc: Global,
        version: u32,
        based: Result<Memory, LoadFault>,
    ) -> Result<Rebuild, AllocError>
        requires within { version ≤ MOST_COMMITS }
        ensures { IfOk result (λ rebuild. (base : List (ℕ × TheEntry))
            → IfOk based (λ memory. HasBased memory version (entries_of base))
            → OnDamaged based (LacksText base)
            → HasCome rebuild.memory rebuild.stopped version base []) }
    {
        match based {
            Ok(memory) => Ok(Rebuild {
                memory,
                since: 0,
                stopped: None,
            }),
            Err(LoadFault::Damaged(at)) => Ok(Rebuild {
                memory: Memory::at_base(alloc, version),
                since: 0,
                stopped: Some(at),
            }),
            Err(_) => Err(AllocError),
        }
    }

    // Reads the text of one more commit, and makes the commit if each before it was made.
    fn read(&mut self, recorder: &mut Recorder, commit: Commit) -> Result<(), AllocError>
        requires { IsLogged (logged.change_of commit.wire) }
        ensures { OnOk result ((version : ℕ) (base : List (ℕ × TheEntry))
            (log : List TheCommit) → HasCome self.old.memory self.old.stopped version base log
            → HasCome self.new.memory self.new.stopped version base (log ++ commit ∷ [])) }
    {
        let change = change_from(recorder, &commit.wire);
        self.add(&commit, change)
    }

    /// Makes commits whose texts were read, if each before them was made.
    pub(crate) fn add_all(
        &mut self,
        commits: &[Commit],
        changes: Vec<ReadChange>,
    ) -> Result<(), AllocError>
        requires { AreChanges commits.now changes.items }
        ensures { OnOk result ((version : ℕ) (base : List (ℕ × TheEntry))
            (log : List TheCommit) → HasCome self.old.memory self.old.stopped version base log
            → HasCome self.new.memory self.new.stopped version base (log ++ commits.now)) }
    {
        let mut changes = changes.into_iter();
        for commit in commits {
            let Some(change) = changes.next() else {
                unreachable!()
            };
            self.add(commit, change)?;
        }
        Ok(())
    }

    // Makes one more commit whose text was read, if each before it was made.
    fn add(&mut self, commit: &Commit, change: ReadChange) -> Result<(), AllocError>
        requires { IsChange commit.now change }
        ensures { OnOk result ((version : ℕ) (base : List (ℕ × TheEntry))
            (log : List TheCommit) → HasCome self.old.memory self.old.stopped version base log
            → HasCome self.new.memory self.new.stopped version base (log ++ commit.now ∷ [])) }
    {
        match self.stopped {
            Some(_) => Ok(()),
            None => self.make(commit, change),
        }
    }

    // Makes one more commit, or notes the place at which it cannot be made.
    fn make(&mut self, commit: &Commit, change: ReadChange) -> Result<(), AllocError>
        requires change { IsChange commit.now change }
        requires made { self.old.stopped ≡ None }
        ensures { OnOk result ((version : ℕ) (base : List (ℕ × TheEntry))
            (log : List TheCommit) → Made self.old.memory version (entries_of base) (changes_of log)
            → HasCome self.new.memory self.new.stopped version base (log ++ commit.now ∷ [])) }
    {
        match add(&mut self.memory, commit, change) {
            Ok(()) => {
                self.since = thinned(&mut self.memory, self.since);
                Ok(())
            }
            Err(LoadFault::Damaged(at)) => {
                self.stopped = Some(at);
                Ok(())
            }
            Err(_) => Err(AllocError),
        }
    }

    /// The store, which takes `commits` commits in all, or the place of what could not be made.
    pub(crate) fn end(self, commits: u32) -> Result<Memory, LoadFault>
        requires { commits ≤ MOST_COMMITS }
        ensures ok { IfOk result (λ memory. (version : ℕ) (base : List (ℕ × TheEntry))
            (log : List TheCommit) → HasCome self.memory self.stopped version base log
            → IsReplayed memory commits version (entries_of base) (changes_of log)) }
        ensures damaged { OnDamaged result (λ at. (version : ℕ) (base : List (ℕ × TheEntry))
            (log : List TheCommit) → HasCome self.memory self.stopped version base log
            → LacksText base at ⊎ Stops version (entries_of base) log at) }
        ensures no_disk { ¬ IsErrOf result LoadFault.Disk }
        ensures no_other { ¬ IsErrOf result LoadFault.NotAStore }
    {
        let Rebuild {
            memory,
            stopped,
            ..
        } = self;
        match stopped {
            None => Ok(opened(memory, commits)),
            Some(at) => Err(LoadFault::Damaged(at)),
        }
    }
}

// The store in memory at a base.
fn based(
    alloc: Global,
    recorder: &mut Recorder,
    version: u32,
    base: &[(u64, BaseEntry)],
) -> Result<Memory, LoadFault>
    requires within { version ≤ MOST_COMMITS }
    requires entries { AreEntries version 0 (entries_of base.now) }
    ensures ok { IfOk result (λ memory. HasBased memory version (entries_of base.now)) }
    ensures damaged { OnDamaged result (LacksText base.now) }
    ensures no_disk { ¬ IsErrOf result LoadFault.Disk }
    ensures no_other { ¬ IsErrOf result LoadFault.NotAStore }
{
    let mut memory = Memory::at_base(alloc, version);
    for one in base {
        put_entry(&mut memory, one, record_from(recorder, &one.1))?;
    }
    Ok(memory)
}

/// Puts one more entry, with the place of its record, into memory.
pub(crate) fn put_entry(
    memory: &mut Memory,
    one: &(u64, BaseEntry),
    answer: ReadRecord,
) -> Result<(), LoadFault>
    requires in_range { IsId one.now.1.id }
    requires since { 1 ≤ one.now.1.version }
    requires until { one.now.1.version ≤ memory.old.version }
    requires before { IsBefore memory.old one.now.1.id }
    requires read { IsRecord one.now answer }
    ensures ok { OnOk result (IsGiven memory.old memory.new one.now.1.id
        (told_entry (entry_of one.now.1)).1) }
    ensures damaged { OnDamaged result (λ at. (at ≡ one.now.0)
        × ¬ HasText (told_entry (entry_of one.now.1)).1) }
    ensures version { memory.new.version ≡ memory.old.version }
    ensures no_disk { ¬ IsErrOf result LoadFault.Disk }
    ensures no_other { ¬ IsErrOf result LoadFault.NotAStore }
{
    let (at, entry) = one;
    match answer {
        Ok(record) => match memory.put_base(entry.id, entry.version, record) {
            Ok(()) => Ok(()),
            Err(_) => Err(LoadFault::NoMemory),
        },
        Err(TextFault::NoMemory) => Err(LoadFault::NoMemory),
        Err(_) => Err(LoadFault::Damaged(*at)),
    }
}

// Makes one more commit.
fn add(memory: &mut Memory, commit: &Commit, change: ReadChange) -> Result<(), LoadFault>
    requires { IsChange commit.now change }
    ensures ok { OnOk result ((s : State) → StandsFor memory.old (served s)
        → MayAdd s (told (logged.change_of commit.now.wire))
        × StandsFor memory.new (served (committed s (told (logged.change_of commit.now.wire))))) }
    ensures damaged { OnDamaged result (λ at. (at ≡ commit.now.at)
        × ((s : State) → StandsFor memory.old (served s)
        → ¬ MayAdd s (told (logged.change_of commit.now.wire)))) }
    ensures no_disk { ¬ IsErrOf result LoadFault.Disk }
    ensures no_other { ¬ IsErrOf result LoadFault.NotAStore }
{
    match change {
        Ok(change) => match memory.prepare(&change) {
            Ok(()) => {
                memory.make(change);
                Ok(())
            }
            Err(
                CommitFault::Known
                | CommitFault::Absent
                | CommitFault::Withdrawn
                | CommitFault::Full,
            ) => Err(LoadFault::Damaged(commit.at)),
            Err(_) => Err(LoadFault::NoMemory),
        },
        Err(TextFault::NoMemory) => Err(LoadFault::NoMemory),
        Err(_) => Err(LoadFault::Damaged(commit.at)),
    }
}

// Counts one more commit since the entries that the head does not read were dropped, or drops them again, once these
// commits are more than the states and `SPARE`: so each entry is looked at a few times. Returns the new count.
fn thinned(memory: &mut Memory, since: u32) -> u32
    ensures { (s : State) → StandsFor memory.old (served s) → s.copy ≡ None → (kept : List Entry)
        × StandsFor memory.new (served (record s { kept = kept })) }
{
    if since <= memory.states().saturating_add(SPARE) {
        return since.saturating_add(1);
    }
    let _ = memory.prune_but(None);
    0
}

// Drops the entries that the head does not read. The store takes `commits` commits in all from now on.
fn opened(memory: Memory, commits: u32) -> Memory
    requires { commits ≤ MOST_COMMITS }
    ensures { (s : State) → IsServing memory s → s.copy ≡ None → s.pins ≡ []
        → (t : State) × IsServing result t × (t.history ≡ s.history) × IsOpened commits t }
{
    let mut memory = memory;
    let _ = memory.prune_but(None);
    memory.limit_to(commits);
    memory
}
