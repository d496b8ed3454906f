//! Ends that are served at the same time. A pass is split off for each, each is served in a thread of its own, and the
//! passes are joined again.
ghost use Rattle.std.specs.Prelude.{◌≡◌, ◌≤◌, ◌<◌, [], All, ℕ, OnErr, OnOk, length, map, slice_index_or, vec_capacity, vec_len};
ghost use Rattle.hall.specs.Passes.{IsOf, IsRoot, IsWhole, Runs, known};
ghost use Rattle.session_run.specs.Servable.{IsServable};
ghost use Rattle.serve_ends.specs.Serving.{Serving};
ghost use Rattle.serve_ends.specs.Slots.{CanServe, IsCut, Joins, WasServed, splits};
ghost use Rattle.serve_ends.specs.declared.serve.TheConstants.{MOST_ENDS};

use crate::end::End;
use crate::slot::{Slot, serve_end};
use disk_edge::Disk;
use hall::{Hall, HallPass};
use io_edge::{Sink, Source};
use par_search::Meter;
use session_run::Settings;
use std::alloc::{AllocError, Global};
use std::sync::Wait;
use std::thread;
use std::thread::Threads;

/// The most ends that are served at a time.
pub const MOST_ENDS: usize = 16;

/// Serves 1 to 16 ends, each by a session in a thread of its own at a desk of the hall. The pass gains numbers, one for
/// each end. The pass is whole again, and has seen all their calls. The ends come back in their order.
///
/// An error is want of memory for the list of the ends: nothing was taken or put, and the pass is as before.
pub fn serve_ends<
    R: Threads + Wait + Sync,
    D: Disk + Send + Drop,
    S: Source + Send + Drop,
    K: Sink + Send + Drop,
    M: Meter,
>(
    rt: &R,
    alloc: Global,
    hall: &Hall<D>,
    pass: &mut HallPass<D>,
    ends: Vec<End<S, K>>,
    settings: &Settings,
    meter: &M,
) -> (Vec<End<S, K>>, Result<(), AllocError>)
    requires of { IsOf hall.now pass.old }
    requires whole { IsWhole pass.old }
    requires runs { Runs pass.old }
    requires some { 1 ≤ length ends.items }
    requires few { length ends.items ≤ MOST_ENDS }
    requires servable { IsServable settings.now }
    ensures served { OnOk result.1
        (Serving S.Source K.Sink settings.now pass.old pass.new ends.items result.0.items) }
    ensures memory { OnErr result.1 ((pass.new ≡ pass.old) × (result.0 ≡ ends)) }
    ensures of { IsOf hall.now pass.new }
    ensures whole { IsWhole pass.new }
    ensures runs { Runs pass.new }
{
    let slots = match Vec::with_capacity(alloc, ends.len()) {
        Ok(slots) => slots,
        Err(failed) => return (ends, Err(failed)),
    };
    let served = match Vec::with_capacity(alloc, ends.len()) {
        Ok(served) => served,
        Err(failed) => return (ends, Err(failed)),
    };
    let mut slots = cut_all(hall, pass, ends, slots);
    serve_all(rt, alloc, hall, slots.as_mut_slice(), settings, meter);
    (join_all(hall, pass, slots, served), Ok(()))
}

// Splits a pass off for each end.
fn cut_all<D: Disk + Drop, S: Drop, K: Drop>(
    hall: &Hall<D>,
    pass: &mut HallPass<D>,
    ends: Vec<End<S, K>>,
    mut slots: Vec<Slot<D, S, K>>,
) -> Vec<Slot<D, S, K>>
    requires of { IsOf hall.now pass.old }
    requires root { IsRoot pass.old }
    requires none { slots.items ≡ [] }
    requires room { vec_len ends ≤ vec_capacity slots }
    ensures of { IsOf hall.now pass.new }
    ensures gave { known pass.new ≡ splits (vec_len ends) (known pass.old) }
    ensures ends { map (λ (slot : _). slot.served) result.items ≡ ends.items }
    ensures cut { (i : ℕ) (d : _) → i < vec_len result
        → IsCut hall.now (known pass.old) i (slice_index_or result.items i d) }
{
    for served in ends {
        let other = hall.split(pass);
        slots.push_reserved(Slot {
            served,
            pass: Some(other),
        });
    }
    slots
}

// Serves each end in a thread of its own.
fn serve_all<
    R: Threads + Wait + Sync,
    D: Disk + Send + Drop,
    S: Source + Send,
    K: Sink + Send,
    M: Meter,
>(
    rt: &R,
    alloc: Global,
    hall: &Hall<D>,
    slots: &mut [Slot<D, S, K>],
    settings: &Settings,
    meter: &M,
)
    requires some { 1 ≤ length slots.old }
    requires can { All (λ slot. CanServe hall.now slot) slots.old }
    requires servable { IsServable settings.now }
    ensures { (i : ℕ) (d : _) → i < length slots.old → WasServed S.Source K.Sink settings.now hall.now
        (slice_index_or slots.old i d) (slice_index_or slots.new i d) }
{
    let threads = slots.len();
    thread::for_each_mut(
        rt,
        slots,
        threads,
        &|_place: usize, slot: &mut Slot<D, S, K>|
            requires can { CanServe hall.now slot.old }
            requires servable { IsServable settings.now }
            ensures { WasServed S.Source K.Sink settings.entry.now hall.entry.now slot.old slot.new }
        { serve_end(rt, alloc, hall, slot, settings, meter) },
    );
}

// Joins the passes again.
fn join_all<D: Disk + Drop, S: Drop, K: Drop>(
    hall: &Hall<D>,
    pass: &mut HallPass<D>,
    slots: Vec<Slot<D, S, K>>,
    mut ends: Vec<End<S, K>>,
) -> Vec<End<S, K>>
    requires of { IsOf hall.now pass.old }
    requires can { All (λ slot. CanServe hall.now slot) slots.items }
    requires none { ends.items ≡ [] }
    requires room { vec_len slots ≤ vec_capacity ends }
    ensures of { IsOf hall.now pass.new }
    ensures ends { result.items ≡ map (λ (slot : _). slot.served) slots.items }
    ensures joins { Joins hall.now slots.items pass.old pass.new }
{
    for slot in slots {
        let Slot {
            served,
            pass: other,
        } = slot;
        let Some(other) = other else { unreachable!() };
        hall.join(pass, other);
        ends.push_reserved(served);
    }
    ends
}
