//! A store on two disks. For a commit the memory is taken first; then it is put into the journal of the disk that is
//! read, and only where that takes it, made in memory, and queued for the copy, where one runs. Of the other calls only
//! `compact` touches a disk (`Stretches`, fields `causes` and `untouched`).

ghost use Rattle.std.specs.Prelude.{◌≡◌, ◌≤◌, ◌+◌, ◌*◌, ◌⊎◌, [], All, false, IfErr, IfOk, IsErrOf, length, OnErr, OnOk, Some, true, ℕ};
ghost use Rattle.std.specs.Arc.{arc_value};
ghost use Rattle.disk_edge.specs.Disk.{Faulted, IfTold, Rose};
ghost use Rattle.disk_edge.specs.Failures.{bound_of};
ghost use Rattle.disk_edge.specs.NoDisk as nothing;
ghost use Rattle.disk_pair.specs.Changed.{changed};
ghost use Rattle.disk_pair.specs.Loads.{IsOpening};
ghost use Rattle.disk_pair.specs.Term.{disk_a, disk_b, first_of};
ghost use Rattle.disk_pair.specs.declared.choice.Which.TheVariants.{First, Second};
ghost use Rattle.journal_core.specs.Answers.{OnDamaged};
ghost use Rattle.journal_core.specs.Fronts.{IsOpen};
ghost use Rattle.journal_core.specs.Looks.{Looks, Narrows};
ghost use Rattle.journal_core.specs.declared.format.TheConstants.{LONGEST_PAYLOAD};
ghost use Rattle.store_core.specs.Calls.{Calls, NotRaised, SameHeld, WornAs, is_worn};
ghost use Rattle.store_core.specs.Records.{Shared};
ghost use Rattle.store_core.specs.Replies.{fetch_calls};
ghost use Rattle.store_core.specs.Steps.{AreSteps};
ghost use Rattle.store_core.specs.Stored.{HoldsPin, empty};
ghost use Rattle.store_core.specs.declared.page.TheConstants.{MOST_RECORDS};
ghost use Rattle.store_machine.specs.History.{IsId, begun, head};
ghost use Rattle.store_machine.specs.Openings.{IsOpened};
ghost use Rattle.store_machine.specs.declared.machine.State.{State};
ghost use Rattle.store_disk.specs.InMemory.{StandsInMemory};
ghost use Rattle.store_disk.specs.Loads.{Damages, DamagesDisk, OpensTo, a_after, b_after};
ghost use Rattle.store_disk.specs.OnDisk.{StandsFor};
ghost use Rattle.store_disk.specs.Faults.{commit_fault};
ghost use Rattle.store_disk.specs.Replays.{IsLoaded};
ghost use Rattle.store_disk.specs.Stored.{Stretches};

use crate::below::laws;
use crate::copy::{Copying, queue, reserve};
use crate::disks::Disks;
use crate::payload::payload_of;
use crate::replay::replay;
use crate::together::replay_by;
use chem_core::Print;
use commit_log::read_base;
use disk_edge::{Disk, MemDisk, NoDisk};
use disk_pair::{Pair, Picked, PutFault, Which, a_pair_opens_one_way};
use journal_core::{Header, Journal, LoadFault};
use snap_registry::Pin;
use std::alloc::{AllocError, Global};
use std::marker::Model;
use std::sync::ledger::Ledger;
use std::thread::Threads;
use store_core::{
    CallFault, Change, CommitFault, Compact, CompactFault, Look, MOST_COMMITS, Page, Service,
    Stats, Steps, Store as Memory,
};
use store_machine::rebases_keep;

// Where the version of the base stands in format 2.
const VERSION_PLACE: u64 = 12;

// What a disk says of itself to which nothing was copied.
const NO_BASE: Header = Header {
    generation: 0,
    base_version: 0,
    base_count: 0,
};

// Where the first gate stands in format 1.
const FIRST_GATE: u64 = 8;

/// A store on two disks, with any number of callers. A commit that answers `DiskFault` is not made, and the store
/// serves on. With `doubt: true` a load may still find that commit, until a later commit ends the doubt.
#[derive(Drop)]
pub struct Store<D: Disk> {
    pub(crate) alloc: Global,
    pub(crate) memory: Memory,
    pub(crate) pair: Pair<D>,
    pub(crate) copy: Option<Copying>,
}

impl<D: Disk> Model for Store<D> {
    ghost use Rattle.std.specs.Prelude.{option_map};
    ghost use Rattle.store_disk.specs.Copies.{copy_of};
    ghost use Rattle.store_disk.specs.OnDisk.{IsReady, StoreTerm};

    ghost Value = { StoreTerm D };

    ghost view = { λ s. record { memory = s.memory; pair = s.pair; copy = option_map copy_of s.copy } };

    ghost invariant = { λ s. IsReady s.memory s.pair (option_map copy_of s.copy) };
}

impl<D: Disk + Drop> Store<D> {
    /// Opens the store of two disks. Of two that are open the one of greater generation is read, and `a` where both are
    /// equal. The store takes `commits` commits in all, 1 to `MOST_COMMITS`; those that are there stay, also where they
    /// are more. What the head does not read is dropped from memory. Nothing is written, and nothing is in doubt: no image
    /// of the disk differs from what a read gives (`synced`).
    ///
    /// `NotAStore`: neither disk has a whole header. `Damaged(at)`: the disk that is read is damaged at this place, or
    /// its base record or commit there has a text without a structure, or its commit there may not follow those before
    /// it. `Disk`: a call of a disk failed, and counted a fault. `NoMemory`: memory ran out. The disks come back beside
    /// each fault.
    pub fn load(
        alloc: Global,
        disks: Disks<D>,
        commits: u32,
    ) -> Result<Store<D>, (LoadFault, Disks<D>)>
        requires some { 1 ≤ commits }
        requires few { commits ≤ MOST_COMMITS }

        ensures opened { IfOk result (λ store. (s : State) × StandsFor D.model store s
            × IsOpened commits s × IfTold (D.model.content disks.a)
            (λ x. IfTold (D.model.content disks.b) (λ y. OpensTo s.history s.generation x y))) }
        // A crash now may leave of the disk that was read what a read gives.
        ensures synced { IfOk result (λ store. IfTold (D.model.content store.pair.journal.disk)
            (D.model.images store.pair.journal.disk)) }
        ensures not_a_store { IfErr result (λ e. e.0 ≡ LoadFault.NotAStore
            → IfTold (D.model.content disks.a)
            (λ x. IfTold (D.model.content disks.b) (λ y. (¬ IsOpen x) × (¬ IsOpen y)))) }
        ensures damaged { IfErr result (λ e. (at : ℕ) → e.0 ≡ LoadFault.Damaged at
            → IfTold (D.model.content disks.a)
            (λ x. IfTold (D.model.content disks.b) (Damages at x))) }
        ensures cause { IfErr result (λ e. e.0 ≡ LoadFault.Disk
            → Rose (D.model.faults disks.a) (D.model.faults e.1.a)
            ⊎ Rose (D.model.faults disks.b) (D.model.faults e.1.b)) }

        // What a read gives stays, and each image during the call was one before.
        ensures narrows_a { Narrows D.model disks.a (a_after result) }
        ensures narrows_b { Narrows D.model disks.b (b_after result) }
    {
        rebases_keep();
        let Disks { a, b } = disks;
        let picked = match disk_pair::load(alloc, a, b) {
            Ok(picked) => picked,
            Err((fault, a, b)) => return Err((fault, Disks { a, b })),
        };
        let Picked {
            mut journal,
            other,
            second,
        } = picked;
        match memory_of(alloc, &mut journal, commits) {
            Ok(memory) => Ok(Store {
                alloc,
                memory,
                pair: Pair::new(
                    alloc,
                    Picked {
                        journal,
                        other,
                        second,
                    },
                ),
                copy: None,
            }),
            Err(fault) => Err((fault, disks_of(journal.into_disk(), other, second))),
        }
    }

    /// As `load`, by at most `workers` threads, which read the texts of base entries and of commits if there are enough of
    /// them. 0 counts as 1. What is opened or refused does not depend on their number.
    pub fn load_by<R: Threads + Sync>(
        rt: &R,
        workers: u32,
        alloc: Global,
        disks: Disks<D>,
        commits: u32,
    ) -> Result<Store<D>, (LoadFault, Disks<D>)>
        requires some { 1 ≤ commits }
        requires few { commits ≤ MOST_COMMITS }

        ensures opened { IfOk result (λ store. (s : State) × StandsFor D.model store s
            × IsOpened commits s × IfTold (D.model.content disks.a)
            (λ x. IfTold (D.model.content disks.b) (λ y. OpensTo s.history s.generation x y))) }
        // A crash now may leave of the disk that was read what a read gives.
        ensures synced { IfOk result (λ store. IfTold (D.model.content store.pair.journal.disk)
            (D.model.images store.pair.journal.disk)) }
        ensures not_a_store { IfErr result (λ e. e.0 ≡ LoadFault.NotAStore
            → IfTold (D.model.content disks.a)
            (λ x. IfTold (D.model.content disks.b) (λ y. (¬ IsOpen x) × (¬ IsOpen y)))) }
        ensures damaged { IfErr result (λ e. (at : ℕ) → e.0 ≡ LoadFault.Damaged at
            → IfTold (D.model.content disks.a)
            (λ x. IfTold (D.model.content disks.b) (Damages at x))) }
        ensures cause { IfErr result (λ e. e.0 ≡ LoadFault.Disk
            → Rose (D.model.faults disks.a) (D.model.faults e.1.a)
            ⊎ Rose (D.model.faults disks.b) (D.model.faults e.1.b)) }

        // What a read gives stays, and each image during the call was one before.
        ensures narrows_a { Narrows D.model disks.a (a_after result) }
        ensures narrows_b { Narrows D.model disks.b (b_after result) }
    {
        if workers < 2 {
            return Store::load(alloc, disks, commits);
        }
        rebases_keep();
        let Disks { a, b } = disks;
        let picked = match disk_pair::load(alloc, a, b) {
            Ok(picked) => picked,
            Err((fault, a, b)) => return Err((fault, Disks { a, b })),
        };
        let Picked {
            mut journal,
            other,
            second,
        } = picked;
        match memory_by(rt, workers as usize, alloc, &mut journal, commits) {
            Ok(memory) => Ok(Store {
                alloc,
                memory,
                pair: Pair::new(
                    alloc,
                    Picked {
                        journal,
                        other,
                        second,
                    },
                ),
                copy: None,
            }),
            Err(fault) => Err((fault, disks_of(journal.into_disk(), other, second))),
        }
    }

    /// The number of commits: the version that the store is at.
    pub fn version(&self) -> u32
        ensures { (s : State) → StandsFor D.model self.now s → result ≡ head s.history }
    {
        self.memory.version()
    }

    /// The disks. Takes no memory.
    pub fn into_disks(self) -> Disks<D>
        ensures a { result.a ≡ disk_a self.pair }
        ensures b { result.b ≡ disk_b self.pair }
    {
        let (a, b) = self.pair.into_disks();
        Disks { a, b }
    }
}

impl Store<NoDisk> {
    /// A store without commits that keeps no journal, since it is never opened again. It takes `commits` commits in
    /// all, 1 to `MOST_COMMITS`. Takes no memory.
    pub fn in_memory(alloc: Global, commits: u32) -> Store<NoDisk>
        requires some { 1 ≤ commits }
        requires few { commits ≤ MOST_COMMITS }
        ensures { StandsFor nothing.model result (empty commits) }
    {
        Store {
            alloc,
            memory: Memory::fresh(alloc, commits),
            pair: Pair::new(
                alloc,
                Picked {
                    journal: Journal::at_gate(alloc, NoDisk, NO_BASE, FIRST_GATE),
                    other: NoDisk,
                    second: false,
                },
            ),
            copy: None,
        }
    }
}

impl Store<MemDisk> {
    /// A store without commits on empty disks in memory, which takes `commits` commits in all, 1 to `MOST_COMMITS`.
    /// Disk `a` is read. Fails where memory runs out.
    pub fn fresh(alloc: Global, commits: u32) -> Result<Store<MemDisk>, AllocError>
        requires some { 1 ≤ commits }
        requires few { commits ≤ MOST_COMMITS }
        ensures opened { IfOk result (λ store. (s : State) × StandsInMemory store s
            × IsOpened commits s × (s.history ≡ begun)) }
        ensures empty { IfOk result (λ store. StandsInMemory store (empty commits)) }
        ensures no_failures { IfOk result (λ store. (bound_of (disk_a store.pair).failures ≡ Some 0)
            × (bound_of (disk_b store.pair).failures ≡ Some 0)) }
    {
        a_pair_opens_one_way();
        let (a, created) = Journal::create(MemDisk::new(alloc));
        let b = MemDisk::new(alloc);
        if created.is_err() {
            return Err(AllocError);
        }
        match Store::load(alloc, Disks { a, b }, commits) {
            Ok(store) => Ok(store),
            Err(_) => Err(AllocError),
        }
    }

    /// `calls` calls of disk `a` pass, and then each fails. Takes no memory.
    pub fn stop_after(&mut self, calls: u64)
        ensures stands { (s : State) → StandsInMemory self.old s → StandsInMemory self.new s }
        ensures only { self.new ≡ record self.old {
          pair = changed First (λ d. record d {
            failures = record d.failures { passes = Some calls };
          }) self.old.pair;
        } }
    {
        self.pair.stop_after(Which::First, calls);
    }

    /// The call of disk `a` of this number from now, counted from 1, fails. Takes no memory.
    pub fn fail_once(&mut self, call: u64)
        ensures stands { (s : State) → StandsInMemory self.old s → StandsInMemory self.new s }
        ensures only { self.new ≡ record self.old {
          pair = changed First (λ d. record d {
            failures = record d.failures { once = Some call };
          }) self.old.pair;
        } }
    {
        self.pair.fail_once(Which::First, call);
    }

    /// `calls` calls of disk `b` pass, and then each fails. Takes no memory.
    pub fn stop_after_b(&mut self, calls: u64)
        ensures stands { (s : State) → StandsInMemory self.old s → StandsInMemory self.new s }
        ensures only { self.new ≡ record self.old {
          pair = changed Second (λ d. record d {
            failures = record d.failures { passes = Some calls };
          }) self.old.pair;
        } }
    {
        self.pair.stop_after(Which::Second, calls);
    }

    /// The call of disk `b` of this number from now, counted from 1, fails. Takes no memory.
    pub fn fail_once_b(&mut self, call: u64)
        ensures stands { (s : State) → StandsInMemory self.old s → StandsInMemory self.new s }
        ensures only { self.new ≡ record self.old {
          pair = changed Second (λ d. record d {
            failures = record d.failures { once = Some call };
          }) self.old.pair;
        } }
    {
        self.pair.fail_once(Which::Second, call);
    }
}

impl<D: Disk + Drop> Service for Store<D> {
    ghost use Rattle.store_disk.specs.Stored.{joins, lands, same, stays};

    ghost at = { StandsFor D.model };

    ghost owns = { λ _ _. true };

    ghost stretch = { Stretches D.model };

    ghost worn = { λ _. ⊥ };

    ghost holds = { λ store. HoldsPin store.memory };

    ghost bounds = { λ store.
        (D.model.bound (disk_a store.pair), D.model.bound (disk_b store.pair)) };

    fn commit(&mut self, change: Change) -> Result<u32, CommitFault> {
        laws(&self.pair);
        let payload = payload_of(self.alloc, &change)?;
        reserve(&mut self.copy)?;
        self.memory.prepare(&change)?;
        match self.pair.append(&payload) {
            Ok(()) => {}
            Err(fault) => return Err(commit_fault(fault)),
        }
        self.memory.make(change);
        queue(&mut self.copy, payload);
        Ok(self.memory.version())
    }

    fn pin(&mut self) -> Result<Option<Pin>, CallFault> {
        laws(&self.pair);
        self.memory.pin()
    }

    fn fetch<L: Ledger>(
        &mut self,
        pin: &Pin,
        want: &Print,
        from: u32,
        limit: u32,
        page: &mut Page,
        steps: &mut Steps<L>,
    ) -> Result<bool, CallFault>
        requires held { HoldsPin self.old.memory pin.now.slot pin.now.version }
        requires some { 1 ≤ limit }
        requires few { limit ≤ MOST_RECORDS }
        requires room { limit ≤ page.old.room }
        ensures call { (s : State) → StandsFor D.model self.old s
            → Calls (Stretches D.model) (λ _. true) self.old self.new s
            (fetch_calls pin.now.slot want.now from limit page.new.records result) }
        ensures few { length page.new.records ≤ limit }
        ensures in_range { All (λ (r : Shared). IsId (arc_value r).id) page.new.records }
        ensures err { OnErr result (page.new.records ≡ []) }
        ensures room { page.new.room ≡ page.old.room }
        ensures steps { (s : State) → StandsFor D.model self.new s
            → AreSteps s from want.now steps.old steps.new }
        ensures worn { WornAs ⊥ ⊥ (is_worn result) }
        ensures held { SameHeld (HoldsPin self.old.memory) (HoldsPin self.new.memory) }
        ensures bounds { NotRaised
            (D.model.bound (disk_a self.old.pair), D.model.bound (disk_b self.old.pair))
            (D.model.bound (disk_a self.new.pair), D.model.bound (disk_b self.new.pair)) }
    {
        laws(&self.pair);
        self.memory.fetch(pin, want, from, limit, page, steps)
    }

    fn unpin(&mut self, pin: Pin) -> Result<(), CallFault> {
        laws(&self.pair);
        self.memory.unpin(pin)
    }

    fn prune(&mut self) -> Result<u32, CallFault> {
        laws(&self.pair);
        let copied = self.copied();
        Ok(self.memory.prune_but(copied))
    }

    fn look(&mut self, id: u32) -> Result<Look, CallFault> {
        laws(&self.pair);
        self.memory.look(id)
    }

    fn stats(&mut self) -> Result<Stats, CallFault> {
        laws(&self.pair);
        self.memory.stats()
    }

    fn compact(&mut self) -> Result<Compact, CompactFault> {
        laws(&self.pair);
        match self.left() {
            None => self.start(),
            Some(0) => self.finish(),
            Some(items) => self.go_on(items),
        }
    }

    ghost stays = { stays D.model };

    ghost joins = { joins D.model };

    ghost lands = { lands D.model };

    ghost same = { same D.model };
}

// The store in memory of a journal that was just opened, which is read to its end.
fn memory_of<D: Disk>(
    alloc: Global,
    journal: &mut Journal<D>,
    commits: u32,
) -> Result<Memory, LoadFault>
    requires some { 1 ≤ commits }
    requires few { commits ≤ MOST_COMMITS }
    requires opening { IsOpening D.model journal.old }

    ensures loaded { IfOk result (λ memory. IsLoaded D.model memory commits
        journal.old journal.new) }
    ensures ready { OnOk result (journal.new.ready ≡ true) }
    ensures place { IfOk result (λ memory. journal.new.place
        ≤ 20 + (5 + LONGEST_PAYLOAD) * (journal.new.header.base_count + memory.version)) }
    ensures damaged { OnDamaged result (λ at. IfTold (D.model.content journal.old.disk)
        (DamagesDisk at)) }
    ensures cause { IsErrOf result LoadFault.Disk
        → Faulted D.model journal.old.disk journal.new.disk }
    ensures no_other { ¬ IsErrOf result LoadFault.NotAStore }

    ensures header { journal.new.header ≡ journal.old.header }
    ensures settled { journal.new.doubt ≡ false }
    ensures looks { Looks D.model journal.old.disk journal.new.disk }
{
    let version = journal.header().base_version;
    if version > MOST_COMMITS {
        return Err(LoadFault::Damaged(VERSION_PLACE));
    }
    let base = read_base(alloc, journal)?;
    replay(alloc, journal, version, &base, commits)
}

// As `memory_of`, by at most `workers` threads.
fn memory_by<R: Threads + Sync, D: Disk>(
    rt: &R,
    workers: usize,
    alloc: Global,
    journal: &mut Journal<D>,
    commits: u32,
) -> Result<Memory, LoadFault>
    requires some { 1 ≤ commits }
    requires few { commits ≤ MOST_COMMITS }
    requires opening { IsOpening D.model journal.old }

    ensures loaded { IfOk result (λ memory. IsLoaded D.model memory commits
        journal.old journal.new) }
    ensures ready { OnOk result (journal.new.ready ≡ true) }
    ensures place { IfOk result (λ memory. journal.new.place
        ≤ 20 + (5 + LONGEST_PAYLOAD) * (journal.new.header.base_count + memory.version)) }
    ensures damaged { OnDamaged result (λ at. IfTold (D.model.content journal.old.disk)
        (DamagesDisk at)) }
    ensures cause { IsErrOf result LoadFault.Disk
        → Faulted D.model journal.old.disk journal.new.disk }
    ensures no_other { ¬ IsErrOf result LoadFault.NotAStore }

    ensures header { journal.new.header ≡ journal.old.header }
    ensures settled { journal.new.doubt ≡ false }
    ensures looks { Looks D.model journal.old.disk journal.new.disk }
{
    let version = journal.header().base_version;
    if version > MOST_COMMITS {
        return Err(LoadFault::Damaged(VERSION_PLACE));
    }
    let base = read_base(alloc, journal)?;
    replay_by(rt, workers, alloc, journal, version, &base, commits)
}

// The two disks, of which the second one may be the current one.
fn disks_of<D>(current: D, other: D, second: bool) -> Disks<D>
    ensures a { result.a ≡ first_of second current other }
    ensures b { result.b ≡ first_of second other current }
{
    if second {
        Disks {
            a: other,
            b: current,
        }
    } else {
        Disks {
            a: current,
            b: other,
        }
    }
}

// Why a commit was not made, where the disks refused it.
fn commit_fault(fault: PutFault) -> CommitFault
    ensures { result ≡ commit_fault fault }
{
    match fault {
        PutFault::DiskFault { doubt } => CommitFault::DiskFault { doubt },
        PutFault::NoMemory => CommitFault::NoMemory,
    }
}
