//! `init` and `run`: a store on two disks.
ghost use Rattle.std.specs.Prelude.{◌≡◌, ◌≢◌, ◌⊎◌, ◌≤◌, [], false, IfOk, length, OnErr, true};
ghost use Rattle.disk_edge.specs.Disk.{Exactly, Faulted, IfTold};
ghost use Rattle.disk_pair.specs.Term.{disk_a, disk_b};
ghost use Rattle.journal_core.specs.Looks.{Narrows, Stays};
ghost use Rattle.store_disk.specs.Loads.{OpensTo};
ghost use Rattle.store_disk.specs.OnDisk.{StandsFor};
ghost use Rattle.store_disk.specs.declared.disks.Disks.{Disks as TheDisks};
ghost use Rattle.store_machine.specs.Openings.{IsOpened};
ghost use Rattle.store_machine.specs.declared.machine.State.{State};
ghost use Rattle.chem_shell.specs.Contents.{IfBothTell};
ghost use Rattle.chem_shell.specs.Ends.{HasEndCauses};
ghost use Rattle.chem_shell.specs.Loading.{HasCauses, IsCausedBy};
ghost use Rattle.chem_shell.specs.OnDisks.{Creates, IsRefused, RunsOn};
ghost use Rattle.chem_shell.specs.Status.{IsEndStatus};
ghost use Rattle.chem_shell.specs.Words.{IsWithinLimits};

use crate::request::Plan;
use crate::settings::settings;
use crate::status::{DAMAGED, DISK_FAULT, DONE, NO_MEMORY, NOT_A_STORE, NOT_EMPTY, USAGE};
use disk_edge::{Disk, DiskFail};
use io_edge::{Sink, Source};
use journal_core::{CreateFault, Journal, LoadFault};
use par_search::NoMeter;
use serve_ends::{End, end_status};
use session_acts::services_are_true;
use session_run::session;
use std::alloc::Global;
use std::thread::Threads;
use store_disk::{Disks, Store, a_standing_store_opens};
use store_machine::{rebases_keep, replies_tell, runs_stay_sound};

/// Makes an empty store on two empty disks: it is on disk `a`, and disk `b` stays empty. Returns the disks and the
/// status. Disk `a` is looked at first, and `b` only if `a` is empty. Disk `b` is synced before the store is made, so
/// that no crash leaves another store on it.
pub fn create<D: Disk + Drop>(disks: Disks<D>) -> (Disks<D>, u8)
    ensures creates { Creates D.model disks result.0 result.1 }
    ensures disk_fault { result.1 ≡ DISK_FAULT
        → Faulted D.model disks.a result.0.a ⊎ Faulted D.model disks.b result.0.b }
{
    let Disks { mut a, mut b } = disks;
    match a.len() {
        Ok(0) => {}
        Ok(_) => return (Disks { a, b }, NOT_EMPTY),
        Err(_) => return (Disks { a, b }, DISK_FAULT),
    }
    match is_empty(&mut b) {
        Ok(true) => {}
        Ok(false) => return (Disks { a, b }, NOT_EMPTY),
        Err(_) => return (Disks { a, b }, DISK_FAULT),
    }
    let (a, created) = Journal::create(a);
    let status = match created {
        Ok(()) => DONE,
        Err(CreateFault::Disk) => DISK_FAULT,
        Err(CreateFault::NotEmpty) => NOT_EMPTY,
        Err(CreateFault::NoMemory) => NO_MEMORY,
    };
    (Disks { a, b }, status)
}

// True if a disk has no bytes. Then it has none after a crash either.
fn is_empty<D: Disk>(disk: &mut D) -> Result<bool, DiskFail>
    ensures yes { IfOk result (λ empty. empty ≡ true → IfTold (D.model.content disk.old)
        (λ l. (l ≡ []) × Exactly [] (D.model.images disk.new))) }
    ensures no { IfOk result (λ empty. empty ≡ false → Stays D.model disk.old disk.new
        × IfTold (D.model.content disk.old) (λ l. 1 ≤ length l)) }
    ensures failed { OnErr result (Faulted D.model disk.old disk.new) }
    ensures narrows { Narrows D.model disk.old disk.new }
{
    if disk.len()? > 0 {
        return Ok(false);
    }
    disk.sync()?;
    Ok(true)
}

/// Serves an end over the store of two disks. The disks come back, with the place of damage on the one that is read.
pub fn serve_run<R: Threads + Sync, D: Disk + Drop, S: Source + Drop, K: Sink + Drop>(
    rt: &R,
    alloc: Global,
    plan: &Plan<'_>,
    disks: Disks<D>,
    end: &mut End<S, K>,
) -> (Disks<D>, u64)
    requires { IsWithinLimits plan.now }
    ensures serves { IsRefused D.model disks result.0 end.old end.new
        ⊎ RunsOn D.model S.left K.written plan.now disks result.0 end.old end.new }
    ensures ends { HasEndCauses S.left S.faults K.faults end.old end.new }
    ensures status { end.new.status ≢ USAGE }
    ensures causes { HasCauses D.model disks result.0 end.new.status result.1 }
{
    match Store::load_by(rt, plan.workers, alloc, disks, plan.commits) {
        Ok(store) => (serve_loaded(rt, alloc, plan, store, end), 0),
        Err((fault, disks)) => {
            let (status, place) = refusal(fault);
            end.status = status;
            (disks, place)
        }
    }
}

// Serves an end over a store that was loaded.
fn serve_loaded<R: Threads + Sync, D: Disk + Drop, S: Source + Drop, K: Sink + Drop>(
    rt: &R,
    alloc: Global,
    plan: &Plan<'_>,
    store: Store<D>,
    end: &mut End<S, K>,
) -> Disks<D>
    requires { IsWithinLimits plan.now }
    ensures runs { (disks : TheDisks D) (s : State) → StandsFor D.model store s
        → IsOpened plan.now.commits s → IfBothTell D.model disks (OpensTo s.history s.generation)
        → Narrows D.model disks.a (disk_a store.pair) → Narrows D.model disks.b (disk_b store.pair)
        → RunsOn D.model S.left K.written plan.now disks result end.old end.new }
    ensures status { IsEndStatus end.new.status }
    ensures ends { HasEndCauses S.left S.faults K.faults end.old end.new }
{
    services_are_true();
    replies_tell();
    runs_stay_sound();
    rebases_keep();
    let mut store = store;
    let ended = session(
        rt,
        alloc,
        &mut store,
        &mut end.source,
        &mut end.sink,
        &settings(plan),
        &NoMeter,
    );
    end.status = end_status(ended);
    a_standing_store_opens(&store);
    store.into_disks()
}

/// The status of a loading that was refused, and the place of damage.
pub(crate) fn refusal(fault: LoadFault) -> (u8, u64)
    ensures { IsCausedBy fault result.0 result.1 }
{
    match fault {
        LoadFault::Disk => (DISK_FAULT, 0),
        LoadFault::NotAStore => (NOT_A_STORE, 0),
        LoadFault::Damaged(at) => (DAMAGED, at),
        LoadFault::NoMemory => (NO_MEMORY, 0),
    }
}
