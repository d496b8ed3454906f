//! The value under the gate of a hall: the store, and the last call on it, which only contracts read.
ghost use Rattle.std.specs.Prelude.{◌≡◌, ◌≤◌, ◌++◌, [], All, false, IfErr, IfOk, length, List, OnErr, ℕ};
ghost use Rattle.std.specs.Arc.{arc_value};
ghost use Rattle.store_core.specs.Calls.{NeedsNone, is_compact_worn, is_worn, is_worn_out};
ghost use Rattle.store_core.specs.Records.{Shared};
ghost use Rattle.store_core.specs.Replies.{IsLookOf, commit_calls, compact_calls, fetch_calls, look_calls, pin_calls, prune_calls, stats_calls, unpin_calls};
ghost use Rattle.store_core.specs.Stored.{HoldsPin};
ghost use Rattle.store_core.specs.declared.page.TheConstants.{MOST_RECORDS};
ghost use Rattle.store_machine.specs.History.{IsId};
ghost use Rattle.hall.specs.Histories.{Adds, told_of};

use crate::laws::laws;
use chem_core::Print;
use disk_edge::Disk;
use snap_registry::Pin;
use std::alloc::{AllocFailed, Global};
use std::snapshot::Snapshot;
use std::sync::ledger::Ledger;
use store_core::{
    CallFault, Change, CommitFault, Compact, CompactFault, Look, Page, Service, Stats, Steps,
};
use store_disk::Store;
use store_machine::{State, Step};
use turn_gate::Stands;

/// The start of a hall's history: the store as it was given, its state, and whether it was just opened. No value of it
/// is made.
pub struct Origin<D: Disk> {
    pub store: Store<D>,
    pub state: State,
    pub opened: bool,
}

/// A call and its answer, for contracts alone.
#[derive(Drop)]
pub enum Told {
    Nothing,
    Commit {
        change: Snapshot<Change>,
        answer: Snapshot<Result<u32, CommitFault>>,
    },
    Pin {
        answer: Snapshot<Result<Option<Pin>, CallFault>>,
    },
    Fetch {
        slot: u32,
        want: Snapshot<Print>,
        from: u32,
        limit: u32,
        page: Snapshot<Page>,
        answer: Snapshot<Result<bool, CallFault>>,
    },
    Unpin {
        slot: u32,
        answer: Snapshot<Result<(), CallFault>>,
    },
    Prune {
        answer: Snapshot<Result<u32, CallFault>>,
    },
    Look {
        id: u32,
        answer: Snapshot<Result<Look, CallFault>>,
    },
    Stats {
        answer: Snapshot<Result<Stats, CallFault>>,
    },
    Compact {
        answer: Snapshot<Result<Compact, CompactFault>>,
    },
}

/// The store, its last call, and whether it was just opened when it was given: the last two take no bytes. The store is
/// in a box, so that a turn moves a pointer.
pub struct Kept<D: Disk> {
    pub store: Box<Store<D>>,
    pub told: Snapshot<Told>,
    pub opened: Snapshot<bool>,
}

impl<D: Disk> Stands for Kept<D> {
    ghost use Rattle.hall.specs.Histories.{KeptFor, Tells};

    type Event = Step;

    type Origin = Origin<D>;

    ghost stands = { KeptFor D.model };

    ghost tells = { Tells };

    ghost number = { λ e. e.owner };
}

// Each call adds one step to every history of the store. The value shows the step. Its owner may be any, but a fetch
// and an unpin have the owner of their pin.
impl<D: Disk + Drop> Kept<D> {
    // Before any call. An error gives the store back.
    pub(crate) fn new(
        alloc: Global,
        store: Store<D>,
        opened: Snapshot<bool>,
    ) -> Result<Kept<D>, AllocFailed<Store<D>>>
        ensures store { IfOk result (λ k. k.store.value ≡ store) }
        ensures opened { IfOk result (λ k. k.opened ≡ opened) }
        ensures back { IfErr result (λ e. e.value ≡ store) }
    {
        let store = Box::new(alloc, store)?;
        Ok(Kept {
            store,
            told: Snapshot::of(&Told::Nothing),
            opened,
        })
    }

    // The store alone.
    pub(crate) fn into_store(self) -> Store<D>
        ensures { result ≡ self.store.value }
    {
        let Kept {
            store,
            told,
            opened,
        } = self;
        drop(told);
        drop(opened);
        Box::into_inner(store)
    }

    pub(crate) fn commit(&mut self, change: Change) -> Result<u32, CommitFault>
        ensures adds { Adds D.model self.old self.new }
        ensures told { told_of self.new ≡ commit_calls change result }
        ensures not_worn { is_worn_out result ≡ false }
    {
        laws::<D>();
        let asked = Snapshot::of(&change);
        let answer = self.store.commit(change);
        self.told = Snapshot::of(&Told::Commit {
            change: asked,
            answer: Snapshot::of(&answer),
        });
        answer
    }

    pub(crate) fn pin(&mut self) -> Result<Option<Pin>, CallFault>
        ensures adds { Adds D.model self.old self.new }
        ensures told { told_of self.new ≡ pin_calls result }
        ensures not_worn { is_worn result ≡ false }
        ensures memory { NeedsNone result }
    {
        laws::<D>();
        let answer = self.store.pin();
        self.told = Snapshot::of(&Told::Pin {
            answer: Snapshot::of(&answer),
        });
        answer
    }

    pub(crate) fn fetch<L: Ledger>(
        &mut self,
        pin: &Pin,
        want: &Print,
        from: u32,
        limit: u32,
        page: &mut Page,
        steps: &mut Steps<L>,
    ) -> Result<bool, CallFault>
        requires held { HoldsPin self.old.store.value.memory pin.now.slot pin.now.version }
        requires some { 1 ≤ limit }
        requires few { limit ≤ MOST_RECORDS }
        requires room { limit ≤ page.old.room }
        ensures adds { Adds D.model self.old self.new }
        ensures told { told_of self.new
            ≡ fetch_calls pin.now.slot want.now from limit page.new.records result }
        ensures few { length page.new.records ≤ limit }
        ensures in_range { All (λ (r : Shared). IsId (arc_value r).id) page.new.records }
        ensures err { OnErr result (page.new.records ≡ []) }
        ensures room { page.new.room ≡ page.old.room }
        ensures not_worn { is_worn result ≡ false }
    {
        laws::<D>();
        let answer = self.store.fetch(pin, want, from, limit, page, steps);
        self.told = Snapshot::of(&Told::Fetch {
            slot: pin.slot,
            want: Snapshot::of(want),
            from,
            limit,
            page: Snapshot::of(page),
            answer: Snapshot::of(&answer),
        });
        answer
    }

    pub(crate) fn unpin(&mut self, pin: Pin) -> Result<(), CallFault>
        requires held { HoldsPin self.old.store.value.memory pin.slot pin.version }
        ensures adds { Adds D.model self.old self.new }
        ensures told { told_of self.new ≡ unpin_calls pin.slot result }
        ensures not_worn { is_worn result ≡ false }
        ensures memory { NeedsNone result }
    {
        laws::<D>();
        let answer = self.store.unpin(pin);
        self.told = Snapshot::of(&Told::Unpin {
            slot: pin.slot,
            answer: Snapshot::of(&answer),
        });
        answer
    }

    pub(crate) fn prune(&mut self) -> Result<u32, CallFault>
        ensures adds { Adds D.model self.old self.new }
        ensures told { told_of self.new ≡ prune_calls result }
        ensures not_worn { is_worn result ≡ false }
        ensures memory { NeedsNone result }
    {
        laws::<D>();
        let answer = self.store.prune();
        self.told = Snapshot::of(&Told::Prune {
            answer: Snapshot::of(&answer),
        });
        answer
    }

    pub(crate) fn look(&mut self, id: u32) -> Result<Look, CallFault>
        ensures adds { Adds D.model self.old self.new }
        ensures told { told_of self.new ≡ look_calls id result }
        ensures entry { IfOk result (λ l. IsLookOf id l) }
        ensures not_worn { is_worn result ≡ false }
    {
        laws::<D>();
        let answer = self.store.look(id);
        self.told = Snapshot::of(&Told::Look {
            id,
            answer: Snapshot::of(&answer),
        });
        answer
    }

    pub(crate) fn stats(&mut self) -> Result<Stats, CallFault>
        ensures adds { Adds D.model self.old self.new }
        ensures told { told_of self.new ≡ stats_calls result }
        ensures not_worn { is_worn result ≡ false }
        ensures memory { NeedsNone result }
    {
        laws::<D>();
        let answer = self.store.stats();
        self.told = Snapshot::of(&Told::Stats {
            answer: Snapshot::of(&answer),
        });
        answer
    }

    pub(crate) fn compact(&mut self) -> Result<Compact, CompactFault>
        ensures adds { Adds D.model self.old self.new }
        ensures told { told_of self.new ≡ compact_calls result }
        ensures not_worn { is_compact_worn result ≡ false }
    {
        laws::<D>();
        let answer = self.store.compact();
        self.told = Snapshot::of(&Told::Compact {
            answer: Snapshot::of(&answer),
        });
        answer
    }
}
