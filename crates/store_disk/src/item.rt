//! The next item of a copy is read, from memory or from the queue of commits, and added to the copy.

ghost use Rattle.std.specs.Prelude.{◌≡◌, ◌≤◌, OnOk, length};
ghost use Rattle.disk_pair.specs.Gives.{CurrentStays, PairGoes};
ghost use Rattle.disk_pair.specs.Term.{progress_of};
ghost use Rattle.store_core.specs.States.{GoOn};
ghost use Rattle.store_core.specs.Stored.{IsServing};
ghost use Rattle.store_machine.specs.declared.machine.State.{State};
ghost use Rattle.store_disk.specs.Copies.{copy_of};
ghost use Rattle.store_disk.specs.Items.{AddsItem, CopyGoesOn, left};
ghost use Rattle.store_disk.specs.OnDisk.{IsFollowed, Lacks};

use crate::below::laws;
use crate::copy::Copying;
use crate::payload::write_base_payload;
use disk_edge::Disk;
use disk_pair::{Pair, PutFault};
use std::alloc::AllocError;
use store_core::States;

/// Adds the next item to a copy: the first state that it lacks, which comes next in `states`, or where it lacks none
/// the first commit. `payload` is memory to work in. After a fault the copy lacks what it did.
pub(crate) fn put_next<D: Disk + Drop>(
    pair: &mut Pair<D>,
    copy: &mut Copying,
    states: &mut States<'_>,
    payload: &mut Vec<u8>,
) -> Result<(), PutFault>
    requires some { 1 ≤ left (copy_of copy.old) }
    requires follows { IsFollowed (copy_of copy.old) (progress_of pair.old.other) }
    requires stands { (s : State) × IsServing states.old.store s
        × Lacks s.history s.copy (copy_of copy.old) }
    requires states { GoOn copy.old.version copy.old.from states.old }

    ensures item { (s : State) → IsServing states.old.store s
        → Lacks s.history s.copy (copy_of copy.old)
        → AddsItem D.model result pair.old pair.new (copy_of copy.old) (copy_of copy.new) s }
    ensures goes_on { CopyGoesOn result copy.old copy.new
        (progress_of pair.old.other) (progress_of pair.new.other) }
    ensures current { CurrentStays D.model pair.old pair.new }
    ensures goes { PairGoes D.model result pair.old pair.new }
    ensures states { OnOk result (GoOn copy.new.version copy.new.from states.new) }
    ensures store { states.new.store ≡ states.old.store }
{
    if copy.states == 0 {
        return put_commit(pair, copy);
    }
    laws(pair);
    let Some(state) = states.next() else {
        unreachable!()
    };
    match write_base_payload(payload, &state) {
        Ok(()) => {}
        Err(AllocError) => return Err(PutFault::NoMemory),
    }
    let next = state.id + 1;
    match pair.put_base(payload) {
        Ok(()) => {}
        Err(fault) => return Err(fault),
    }
    copy.from = next;
    copy.states -= 1;
    Ok(())
}

// Adds the next commit to a copy that has its base records. After a fault the copy lacks what it did.
fn put_commit<D: Disk + Drop>(pair: &mut Pair<D>, copy: &mut Copying) -> Result<(), PutFault>
    requires based { copy.old.states ≡ 0 }
    requires some { 1 ≤ length copy.old.commits.items }
    requires follows { IsFollowed (copy_of copy.old) (progress_of pair.old.other) }

    ensures item { (s : State) → Lacks s.history s.copy (copy_of copy.old)
        → AddsItem D.model result pair.old pair.new (copy_of copy.old) (copy_of copy.new) s }
    ensures goes_on { CopyGoesOn result copy.old copy.new
        (progress_of pair.old.other) (progress_of pair.new.other) }
    ensures current { CurrentStays D.model pair.old pair.new }
    ensures goes { PairGoes D.model result pair.old pair.new }
    ensures version { copy.new.version ≡ copy.old.version }
    ensures from { copy.new.from ≡ copy.old.from }
{
    let Some(payload) = copy.commits.front() else {
        unreachable!()
    };
    match pair.add(payload) {
        Ok(()) => {}
        Err(fault) => return Err(fault),
    }
    let _ = copy.commits.pop_front();
    Ok(())
}
