//! `serve`: many ends at a time over the store of two disks, each at a desk of one hall.
ghost use Rattle.std.specs.Prelude.{◌≡◌, ◌≤◌, length};
ghost use Rattle.disk_pair.specs.Term.{disk_a, disk_b};
ghost use Rattle.journal_core.specs.Looks.{Narrows};
ghost use Rattle.serve_ends.specs.declared.serve.TheConstants.{MOST_ENDS};
ghost use Rattle.store_disk.specs.OnDisk.{StandsFor};
ghost use Rattle.store_disk.specs.declared.disks.Disks.{Disks as TheDisks};
ghost use Rattle.store_machine.specs.Openings.{IsOpened};
ghost use Rattle.store_machine.specs.declared.machine.State.{State};
ghost use Rattle.chem_shell.specs.Done.{IsDone};
ghost use Rattle.chem_shell.specs.Words.{IsWithinLimits};
ghost use Rattle.chem_shell.specs.declared.request.Verb.TheVariants as command;

use crate::disk::refusal;
use crate::outcome::Outcome;
use crate::request::Plan;
use crate::settings::settings;
use crate::status::NO_MEMORY;
use disk_edge::Disk;
use hall::Hall;
use io_edge::{Sink, Source};
use par_search::NoMeter;
use serve_ends::{End, serve_ends};
use session_acts::services_are_true;
use std::alloc::Global;
use std::snapshot::Snapshot;
use std::sync::Wait;
use std::thread::Threads;
use store_disk::{Disks, Store, a_standing_store_opens};
use store_machine::{rebases_keep, replies_tell, runs_stay_sound};

/// Serves ends at the same time over the store of two disks, each in a thread of its own.
pub fn serve_many<
    R: Threads + Wait + Sync,
    D: Disk + Send + Drop,
    S: Source + Send + Drop,
    K: Sink + Send + Drop,
>(rt: &R, alloc: Global, plan: &Plan<'_>, disks: Disks<D>, ends: Vec<End<S, K>>) -> Outcome<D, S, K>
    requires plan { IsWithinLimits plan.now }
    requires verb { plan.now.command ≡ command.Serve }
    requires some { 1 ≤ length ends.items }
    requires few { length ends.items ≤ MOST_ENDS }
    ensures { IsDone D.model S.left S.faults K.written K.faults plan.now disks ends.items result }
{
    match Store::load_by(rt, plan.workers, alloc, disks, plan.commits) {
        Ok(store) => serve_loaded(rt, alloc, plan, store, ends),
        Err((fault, disks)) => {
            let (status, place) = refusal(fault);
            Outcome::unserved(status, place, disks, ends)
        }
    }
}

// Serves them over a store that was loaded.
fn serve_loaded<
    R: Threads + Wait + Sync,
    D: Disk + Send + Drop,
    S: Source + Send + Drop,
    K: Sink + Send + Drop,
>(rt: &R, alloc: Global, plan: &Plan<'_>, store: Store<D>, ends: Vec<End<S, K>>) -> Outcome<D, S, K>
    requires plan { IsWithinLimits plan.now }
    requires verb { plan.now.command ≡ command.Serve }
    requires some { 1 ≤ length ends.items }
    requires few { length ends.items ≤ MOST_ENDS }
    requires standing { (s : State) × StandsFor D.model store s × IsOpened plan.now.commits s }
    ensures { (disks : TheDisks D) → Narrows D.model disks.a (disk_a store.pair)
        → Narrows D.model disks.b (disk_b store.pair)
        → IsDone D.model S.left S.faults K.written K.faults plan.now disks ends.items result }
{
    services_are_true();
    replies_tell();
    runs_stay_sound();
    rebases_keep();
    a_standing_store_opens(&store);
    match Hall::start(alloc, store, Snapshot::of(&true)) {
        Ok((hall, mut pass)) => {
            let (ends, served) = serve_ends(
                rt,
                alloc,
                &hall,
                &mut pass,
                ends,
                &settings(plan),
                &NoMeter,
            );
            let store = hall.close(pass);
            a_standing_store_opens(&store);
            let disks = store.into_disks();
            match served {
                Ok(()) => Outcome::served(0, disks, ends),
                Err(_) => Outcome::unserved(NO_MEMORY, 0, disks, ends),
            }
        }
        Err((_, store)) => Outcome::unserved(NO_MEMORY, 0, store.into_disks(), ends),
    }
}
