//! A store on two disks in memory that may be stopped at any call of either disk, and opened again. A crash leaves only
//! the bytes of the disks; the store in memory is made anew.

ghost use Rattle.std.specs.Prelude.{◌≡◌, ◌≤◌, ◌+◌, [], All, IfOk, IfSome, IsSomeAnd, length, None, OnErr, true};
ghost use Rattle.std.specs.Arc.{arc_value};
ghost use Rattle.disk_edge.specs.Fresh.{fresh};
ghost use Rattle.disk_edge.specs.Medium.{model};
ghost use Rattle.disk_pair.specs.Term.{disk_a, disk_b};
ghost use Rattle.disk_pair.specs.declared.choice.Which.TheVariants.{First, Second};
ghost use Rattle.store_core.specs.Calls.{Calls, NotRaised, SameHeld, WornAs, is_worn};
ghost use Rattle.store_core.specs.Records.{Shared};
ghost use Rattle.store_core.specs.Replies.{fetch_calls};
ghost use Rattle.store_core.specs.Steps.{AreSteps};
ghost use Rattle.store_core.specs.Stored.{HoldsPin, empty};
ghost use Rattle.store_core.specs.declared.page.TheConstants.{MOST_RECORDS};
ghost use Rattle.store_machine.specs.History.{IsId};
ghost use Rattle.store_machine.specs.declared.machine.State.{State};
ghost use Rattle.store_disk.specs.InMemory.{StandsInMemory};
ghost use Rattle.store_disk.specs.Stored.{Stretches};
ghost use Rattle.drill_core.specs.Faults.{failed_a, failed_b};
ghost use Rattle.drill_core.specs.Worlds.{HasNoFailures, HasSynced, Reopens, bounds_of, failing, left_on, stopping};

use chem_core::Print;
use disk_edge::MemDisk;
use journal_core::LoadFault;
use snap_registry::Pin;
use std::alloc::{AllocError, Global};
use std::marker::Model;
use std::sync::ledger::Ledger;
use store_core::{
    CallFault, Change, CommitFault, Compact, CompactFault, Look, MOST_COMMITS, Page, Service,
    Stats, Steps,
};
use store_disk::{Disks, Store, a_standing_store_opens, a_store_opens_one_way};
use store_machine::crash_opens;

/// A store on two disks in memory, with any number of callers. Contracts see its store.
#[derive(Drop)]
pub struct World {
    alloc: Global,
    store: Store<MemDisk>,
    commits: u32,
}

impl Model for World {
    ghost use Rattle.disk_edge.specs.Medium.{Medium};
    ghost use Rattle.store_disk.specs.OnDisk.{StoreTerm};

    ghost Value = { StoreTerm Medium };

    ghost use Rattle.drill_core.specs.Worlds.{IsWorld};

    ghost view = { λ w. w.store };

    ghost invariant = { λ w. IsWorld w.store w.commits };
}

impl World {
    /// A store that was created on empty disks, with nothing committed and no failure set. It takes `commits` commits
    /// in all, 1 to `MOST_COMMITS`. Fails if memory runs out.
    pub fn new(alloc: Global, commits: u32) -> Result<World, AllocError>
        requires some { 1 ≤ commits }
        requires few { commits ≤ MOST_COMMITS }
        ensures empty { IfOk result (λ world. StandsInMemory world (empty commits)) }
        ensures no_failures { IfOk result HasNoFailures }
    {
        let store = Store::fresh(alloc, commits)?;
        Ok(World {
            alloc,
            store,
            commits,
        })
    }

    /// The next `calls` calls of disk `a` pass, and each later one fails. This replaces a stop that was set before. The
    /// bound of that disk's faults is then not known. Disk `b` is as before. Takes no memory.
    pub fn stop_after(&mut self, calls: u64)
        ensures stands { (s : State) → StandsInMemory self.old s → StandsInMemory self.new s }
        ensures only { self.new ≡ stopping First self.old calls }
        ensures bound { (bounds_of self.new).0 ≡ None }
        ensures b { disk_b self.new.pair ≡ disk_b self.old.pair }
    {
        self.store.stop_after(calls);
    }

    /// The call of disk `a` of this number from now, counted from 1, fails. It replaces one that was set before and has
    /// not failed yet. It raises the bound of that disk's faults by at most one, and not their count. Disk `b` is as
    /// before. Takes no memory.
    pub fn fail_once(&mut self, call: u64)
        ensures stands { (s : State) → StandsInMemory self.old s → StandsInMemory self.new s }
        ensures only { self.new ≡ failing First self.old call }
        ensures bound { IfSome (bounds_of self.old).0
            (λ n. IsSomeAnd (bounds_of self.new).0 (λ m. m ≤ n + 1)) }
        ensures count { failed_a self.new ≡ failed_a self.old }
        ensures b { disk_b self.new.pair ≡ disk_b self.old.pair }
    {
        self.store.fail_once(call);
    }

    /// The next `calls` calls of disk `b` pass, and each later one fails. This replaces a stop that was set before. The
    /// bound of that disk's faults is then not known. Disk `a` is as before. Takes no memory.
    pub fn stop_after_b(&mut self, calls: u64)
        ensures stands { (s : State) → StandsInMemory self.old s → StandsInMemory self.new s }
        ensures only { self.new ≡ stopping Second self.old calls }
        ensures bound { (bounds_of self.new).1 ≡ None }
        ensures a { disk_a self.new.pair ≡ disk_a self.old.pair }
    {
        self.store.stop_after_b(calls);
    }

    /// The call of disk `b` of this number from now, counted from 1, fails. It replaces one that was set before and has
    /// not failed yet. It raises the bound of that disk's faults by at most one, and not their count. Disk `a` is as
    /// before. Takes no memory.
    pub fn fail_once_b(&mut self, call: u64)
        ensures stands { (s : State) → StandsInMemory self.old s → StandsInMemory self.new s }
        ensures only { self.new ≡ failing Second self.old call }
        ensures bound { IfSome (bounds_of self.old).1
            (λ n. IsSomeAnd (bounds_of self.new).1 (λ m. m ≤ n + 1)) }
        ensures count { failed_b self.new ≡ failed_b self.old }
        ensures a { disk_a self.new.pair ≡ disk_a self.old.pair }
    {
        self.store.fail_once_b(call);
    }

    /// A crash that leaves the image of this number of each disk, and a loading. A disk then holds the bytes of
    /// `MemDisk::image` of that number; no failure is set, and nothing is pinned or in doubt. Returns the world and the
    /// number of commits. The history is the one that the two images open to: that from before the crash, or this and
    /// the commit in doubt. Fails only if memory runs out.
    pub fn reopen(self, image: u32) -> Result<(World, u32), AllocError>
        ensures opens { IfOk result (λ r. (s : State) → StandsInMemory self s
            → Reopens s (left_on (disk_a self.pair) image) (left_on (disk_b self.pair) image) r.0 r.1) }
        ensures a { IfOk result (λ r.
            HasSynced (disk_a r.0.pair) (left_on (disk_a self.pair) image)) }
        ensures b { IfOk result (λ r.
            HasSynced (disk_b r.0.pair) (left_on (disk_b self.pair) image)) }
        ensures no_failures { IfOk result (λ r. HasNoFailures r.0) }
    {
        a_store_opens_one_way();
        crash_opens();
        let World {
            alloc,
            store,
            commits,
        } = self;
        a_standing_store_opens(&store);
        let disks = after_crash(store.into_disks(), image);
        match Store::load(alloc, disks, commits) {
            Ok(store) => {
                let version = store.version();
                Ok((
                    World {
                        alloc,
                        store,
                        commits,
                    },
                    version,
                ))
            }
            Err((LoadFault::NoMemory, _)) => Err(AllocError),
            Err((LoadFault::Disk, _)) => unreachable!(),
            Err((LoadFault::NotAStore, _)) => unreachable!(),
            Err((LoadFault::Damaged(_), _)) => unreachable!(),
        }
    }
}

// The bytes of both disks after a crash.
fn after_crash(disks: Disks<MemDisk>, image: u32) -> Disks<MemDisk>
    ensures a { result.a ≡ fresh (left_on disks.a image) }
    ensures b { result.b ≡ fresh (left_on disks.b image) }
    ensures image_a { model.images disks.a (left_on disks.a image) }
    ensures image_b { model.images disks.b (left_on disks.b image) }
{
    let Disks { a, b } = disks;
    Disks {
        a: a.image(image),
        b: b.image(image),
    }
}

impl Service for World {
    ghost use Rattle.disk_edge.specs.Medium.{model};
    ghost use Rattle.store_disk.specs.Stored.{joins, lands, same, stays};

    ghost at = { StandsInMemory };

    ghost owns = { λ _ _. true };

    ghost stretch = { Stretches model };

    ghost worn = { λ _. ⊥ };

    ghost holds = { λ world. HoldsPin world.memory };

    ghost bounds = { bounds_of };

    fn commit(&mut self, change: Change) -> Result<u32, CommitFault> {
        self.store.commit(change)
    }

    fn pin(&mut self) -> Result<Option<Pin>, CallFault> {
        self.store.pin()
    }

    fn fetch<L: Ledger>(
        &mut self,
        pin: &Pin,
        want: &Print,
        from: u32,
        limit: u32,
        page: &mut Page,
        steps: &mut Steps<L>,
    ) -> Result<bool, CallFault>
        requires held { HoldsPin self.old.memory pin.now.slot pin.now.version }
        requires some { 1 ≤ limit }
        requires few { limit ≤ MOST_RECORDS }
        requires room { limit ≤ page.old.room }
        ensures call { (s : State) → StandsInMemory self.old s
            → Calls (Stretches model) (λ _. true) self.old self.new s
            (fetch_calls pin.now.slot want.now from limit page.new.records result) }
        ensures few { length page.new.records ≤ limit }
        ensures in_range { All (λ (r : Shared). IsId (arc_value r).id) page.new.records }
        ensures err { OnErr result (page.new.records ≡ []) }
        ensures room { page.new.room ≡ page.old.room }
        ensures steps { (s : State) → StandsInMemory self.new s
            → AreSteps s from want.now steps.old steps.new }
        ensures worn { WornAs ⊥ ⊥ (is_worn result) }
        ensures held { SameHeld (HoldsPin self.old.memory) (HoldsPin self.new.memory) }
        ensures bounds { NotRaised (bounds_of self.old) (bounds_of self.new) }
    {
        self.store.fetch(pin, want, from, limit, page, steps)
    }

    fn unpin(&mut self, pin: Pin) -> Result<(), CallFault> {
        self.store.unpin(pin)
    }

    fn prune(&mut self) -> Result<u32, CallFault> {
        self.store.prune()
    }

    fn look(&mut self, id: u32) -> Result<Look, CallFault> {
        self.store.look(id)
    }

    fn stats(&mut self) -> Result<Stats, CallFault> {
        self.store.stats()
    }

    fn compact(&mut self) -> Result<Compact, CompactFault> {
        self.store.compact()
    }

    ghost stays = { stays model };

    ghost joins = { joins model };

    ghost lands = { lands model };

    ghost same = { same model };
}
