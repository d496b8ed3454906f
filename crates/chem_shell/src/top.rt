//! The top call: it takes the words, the ends and the disks, and returns them with their statuses.
ghost use Rattle.std.specs.Prelude.{◌≡◌, ◌≢◌, ◌≤◌, ◌⊎◌, [], length, map};
ghost use Rattle.std.specs.List.{AllZip};
ghost use Rattle.disk_edge.specs.Disk.{Faulted};
ghost use Rattle.journal_core.specs.Fronts.{IsOpen};
ghost use Rattle.store_disk.specs.Loads.{Damages};
ghost use Rattle.chem_shell.specs.Contents.{IfBothTell, disks_of};
ghost use Rattle.chem_shell.specs.Drills.{ServesDrill};
ghost use Rattle.chem_shell.specs.Ends.{HasEndCauses, ServesBulk, ServesMem, with_status};
ghost use Rattle.chem_shell.specs.Done.{HasEnds, IsDone};
ghost use Rattle.chem_shell.specs.OnDisks.{Creates, IsRefused, IsRefusedAs, RunsOn, ServesOn};
ghost use Rattle.chem_shell.specs.Status.{first_fault};
ghost use Rattle.chem_shell.specs.declared.request.Plan.{Plan as ThePlan};
ghost use Rattle.chem_shell.specs.Words.{texts, Asks, AsksFor, IsWithinLimits, OnPlan};

use crate::bulk::serve_bulk;
use crate::disk::{create, serve_run};
use crate::drill::serve_drill;
use crate::mem::serve_mem;
use crate::outcome::Outcome;
use crate::request::{Plan, PlanFault, Verb};
use crate::serve::serve_many;
use crate::status::{DAMAGED, DISK_FAULT, NO_MEMORY, NOT_A_STORE, USAGE};
use crate::words::plan;
use disk_edge::Disk;
use io_edge::{Sink, Source};
use serve_ends::End;
use std::alloc::Global;
use std::sync::Wait;
use std::thread::Threads;
use store_disk::Disks;

/// Runs the program over the given objects: executes the plan of the words with the ends and the disks, and returns the
/// statuses. `mem` serves one end by a session over a store in memory, and `run` over the store of both disks. `serve`
/// serves several at the same time over that store. `bulk` puts a summary to one. `drill` serves one by sessions on a
/// store in memory whose disks are stopped, failed and reopened. `init` makes a store on both disks, and has no end.
pub fn chemdb<
    R: Threads + Wait + Sync,
    D: Disk + Send + Drop,
    S: Source + Send + Drop,
    K: Sink + Send + Drop,
>(rt: &R, alloc: Global, words: &[&str], a: D, b: D, ends: Vec<End<S, K>>) -> Outcome<D, S, K>
    requires ends { Asks (texts words.now)
        → (plan : ThePlan) × AsksFor (texts words.now) plan × (length ends.items ≡ plan.ends) }

    // The words ask for nothing, and then nothing is taken or put.
    ensures usage { result.status ≡ USAGE → ¬ Asks (texts words.now) }
    ensures no_plan { ¬ Asks (texts words.now) → (result.status ≡ USAGE) ⊎ (result.status ≡ NO_MEMORY) }
    ensures no_plan_takes_nothing { ¬ Asks (texts words.now)
        → result.ends.items ≡ map (with_status result.status) ends.items }
    ensures no_plan_disks { ¬ Asks (texts words.now) → (result.a ≡ a) × (result.b ≡ b) }

    // If an end is served, the overall status is the first that is not 0.
    ensures overall { Asks (texts words.now) → 1 ≤ length ends.items
        → result.status ≡ first_fault (map (λ end. end.status) result.ends.items) }

    // A fault comes only if the end's object failed in this call, and only an input of the limit's length is too long.
    ensures end_causes { AllZip (HasEndCauses S.left S.faults K.faults) ends.items result.ends.items }

    // A fault of a disk comes only if one failed in this call. There is no store if neither disk is open, and the place
    // of damage is that of the bytes that are read.
    ensures disk_fault { result.status ≡ DISK_FAULT → Faulted D.model a result.a ⊎ Faulted D.model b result.b }
    ensures not_a_store { result.status ≡ NOT_A_STORE → IfBothTell D.model (record { a = a; b = b })
        (λ x y. (¬ IsOpen x) × (¬ IsOpen y)) }
    ensures damaged { result.status ≡ DAMAGED
        → IfBothTell D.model (record { a = a; b = b }) (Damages result.place) }
    ensures place { result.status ≢ DAMAGED → result.place ≡ 0 }

    // `mem`: the output is a prefix of a transcript of the source's bytes, by pages of the plan. Its run is of a store
    // in memory that begins empty and may have the plan's commits. It is all of one if the status is 0, and then the
    // source was read to its end. If the source failed or its bytes are too many, exactly the whole requests of its
    // taken bytes were answered.
    ensures mem { OnPlan (texts words.now) Verb.Mem (λ plan. (disks_of result ≡ record { a = a; b = b })
        × AllZip (ServesMem plan S.left K.written) ends.items result.ends.items) }

    // `init`: if it is done, both disks were empty, `a` has the empty store, and no crash leaves a byte on `b`. If one
    // has bytes, both are as before. Disk `b` is only read and synced.
    ensures init { OnPlan (texts words.now) Verb.Init (λ _. (result.ends.items ≡ [])
        × Creates D.model (record { a = a; b = b }) (disks_of result) result.status) }

    // `run`: if the store was not loaded, nothing was taken or put, and the disks were only read. Else the output is a
    // prefix of a transcript, as for `mem`, in a run that begins with the history of both disks. A crash at any moment
    // of a step leaves each commit that was acknowledged before it, in order, and at most one more. Afterwards the
    // disks have the run's history. A disk fault comes only if a disk counted one in that call.
    ensures run { OnPlan (texts words.now) Verb.Run (λ plan. AllZip (λ old new.
        IsRefused D.model (record { a = a; b = b }) (disks_of result) old new
        ⊎ RunsOn D.model S.left K.written plan (record { a = a; b = b }) (disks_of result) old new)
        ends.items result.ends.items) }

    // `serve`: if the store was not loaded, or memory ran out before any end was served, nothing was taken or put. The
    // disks were only read then, and each end has the overall status. Else there is one run on the disks, as for `run`.
    // Each end has the steps of one owner, numbered from 1 in the order of the ends, and no step has another owner. The
    // output of an end is a prefix of a transcript by its steps.
    ensures serve { OnPlan (texts words.now) Verb.Serve (λ plan.
        AllZip (IsRefusedAs D.model (record { a = a; b = b }) (disks_of result) result.status)
        ends.items result.ends.items
        ⊎ ServesOn D.model S.left K.written plan (record { a = a; b = b }) (disks_of result)
        ends.items result.ends.items) }

    // `bulk`: nothing is taken. The output is the summary of a transcript of the generated script, in a run as for
    // `mem`. It is a prefix of one if the sink failed, and empty if memory ran out.
    ensures bulk { OnPlan (texts words.now) Verb.Bulk (λ plan. (disks_of result ≡ record { a = a; b = b })
        × AllZip (ServesBulk plan K.written) ends.items result.ends.items) }

    // `drill`: the output is a prefix of a drill of the source's bytes, by pages of the plan; all of one if the status
    // is 0. Its run is of a store in memory that begins empty and may have the plan's commits, with a crash and an
    // opening for each reopening. Each session's searches, cursors, lookups and watches that ended reported exactly the
    // run's history. A disk fault comes only if earlier lines that stop or fail a disk allow it.
    ensures drill { OnPlan (texts words.now) Verb.Drill (λ plan. (disks_of result ≡ record { a = a; b = b })
        × AllZip (ServesDrill plan S.left K.written) ends.items result.ends.items) }
{
    let disks = Disks { a, b };
    match plan(alloc, words) {
        Ok(plan) => carry_out(rt, alloc, &plan, disks, ends),
        Err(PlanFault::Usage) => Outcome::unserved(USAGE, 0, disks, ends),
        Err(PlanFault::NoMemory) => Outcome::unserved(NO_MEMORY, 0, disks, ends),
    }
}

// Executes a plan.
fn carry_out<
    R: Threads + Wait + Sync,
    D: Disk + Send + Drop,
    S: Source + Send + Drop,
    K: Sink + Send + Drop,
>(rt: &R, alloc: Global, plan: &Plan<'_>, disks: Disks<D>, ends: Vec<End<S, K>>) -> Outcome<D, S, K>
    requires plan { IsWithinLimits plan.now }
    requires ends { HasEnds plan.now.command (length ends.items) }
    ensures { IsDone D.model S.left S.faults K.written K.faults plan.now disks ends.items result }
{
    match plan.command {
        Verb::Mem => mem(rt, alloc, plan, disks, ends),
        Verb::Init => init(disks, ends),
        Verb::Run => run(rt, alloc, plan, disks, ends),
        Verb::Serve => serve_many(rt, alloc, plan, disks, ends),
        Verb::Bulk => bulk(rt, alloc, plan, disks, ends),
        Verb::Drill => drill(rt, alloc, plan, disks, ends),
    }
}

// `init`: makes an empty store on two disks.
fn init<D: Disk + Drop, S: Source + Drop, K: Sink + Drop>(
    disks: Disks<D>,
    ends: Vec<End<S, K>>,
) -> Outcome<D, S, K>
    requires { length ends.items ≡ 0 }
    ensures { (plan : ThePlan) → plan.command ≡ Verb.Init
        → IsDone D.model S.left S.faults K.written K.faults plan disks ends.items result }
{
    let (Disks { a, b }, status) = create(disks);
    Outcome {
        status,
        place: 0,
        a,
        b,
        ends,
    }
}

// `mem`: serves the one end over a store in memory.
fn mem<R: Threads + Sync, D: Disk + Drop, S: Source + Drop, K: Sink + Drop>(
    rt: &R,
    alloc: Global,
    plan: &Plan<'_>,
    disks: Disks<D>,
    mut ends: Vec<End<S, K>>,
) -> Outcome<D, S, K>
    requires plan { IsWithinLimits plan.now }
    requires command { plan.now.command ≡ Verb.Mem }
    requires one_end { length ends.items ≡ 1 }
    ensures { IsDone D.model S.left S.faults K.written K.faults plan.now disks ends.items result }
{
    serve_mem(rt, alloc, plan, &mut ends[0]);
    Outcome::served(0, disks, ends)
}

// `bulk`: puts a summary to the one end.
fn bulk<R: Threads + Sync, D: Disk + Drop, S: Source + Drop, K: Sink + Drop>(
    rt: &R,
    alloc: Global,
    plan: &Plan<'_>,
    disks: Disks<D>,
    mut ends: Vec<End<S, K>>,
) -> Outcome<D, S, K>
    requires plan { IsWithinLimits plan.now }
    requires command { plan.now.command ≡ Verb.Bulk }
    requires one_end { length ends.items ≡ 1 }
    ensures { IsDone D.model S.left S.faults K.written K.faults plan.now disks ends.items result }
{
    serve_bulk(rt, alloc, plan, &mut ends[0]);
    Outcome::served(0, disks, ends)
}

// `drill`: serves the one end by a drill.
fn drill<R: Threads + Sync, D: Disk + Drop, S: Source + Drop, K: Sink + Drop>(
    rt: &R,
    alloc: Global,
    plan: &Plan<'_>,
    disks: Disks<D>,
    mut ends: Vec<End<S, K>>,
) -> Outcome<D, S, K>
    requires plan { IsWithinLimits plan.now }
    requires command { plan.now.command ≡ Verb.Drill }
    requires one_end { length ends.items ≡ 1 }
    ensures { IsDone D.model S.left S.faults K.written K.faults plan.now disks ends.items result }
{
    serve_drill(rt, alloc, plan, &mut ends[0]);
    Outcome::served(0, disks, ends)
}

// `run`: serves the one end over the store of two disks.
fn run<R: Threads + Sync, D: Disk + Drop, S: Source + Drop, K: Sink + Drop>(
    rt: &R,
    alloc: Global,
    plan: &Plan<'_>,
    disks: Disks<D>,
    mut ends: Vec<End<S, K>>,
) -> Outcome<D, S, K>
    requires plan { IsWithinLimits plan.now }
    requires command { plan.now.command ≡ Verb.Run }
    requires one_end { length ends.items ≡ 1 }
    ensures { IsDone D.model S.left S.faults K.written K.faults plan.now disks ends.items result }
{
    let (disks, place) = serve_run(rt, alloc, plan, disks, &mut ends[0]);
    Outcome::served(place, disks, ends)
}
