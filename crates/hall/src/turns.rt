//! The calls of a pass: each is one turn on the store. Its turn has ended when a call returns.
ghost use Rattle.std.specs.Prelude.{◌≡◌, ◌≤◌, [], All, IfOk, length, OnErr};
ghost use Rattle.std.specs.Arc.{arc_value};
ghost use Rattle.store_core.specs.Calls.{NeedsNone, is_compact_worn, is_worn, is_worn_out};
ghost use Rattle.store_core.specs.Records.{Shared};
ghost use Rattle.store_core.specs.Replies.{IsLookOf, commit_calls, compact_calls, fetch_calls, look_calls, pin_calls, prune_calls, stats_calls, unpin_calls};
ghost use Rattle.store_core.specs.declared.page.TheConstants.{MOST_RECORDS};
ghost use Rattle.store_machine.specs.History.{IsId};
ghost use Rattle.hall.specs.Answers.{IsAnswered};
ghost use Rattle.hall.specs.Passes.{HoldsPin, IsOf};

use crate::hall::{Hall, HallPass};
use crate::laws::laws;
use chem_core::Print;
use disk_edge::Disk;
use snap_registry::Pin;
use std::sync::Wait;
use std::sync::ledger::Ledger;
use store_core::{CallFault, Change, CommitFault, Compact, CompactFault, Look, Page, Stats, Steps};

impl<D: Disk + Drop> Hall<D> {
    pub(crate) fn commit<R: Wait>(
        &self,
        rt: &R,
        pass: &mut HallPass<D>,
        change: Change,
    ) -> Result<u32, CommitFault>
        requires of { IsOf self.now pass.old }
        ensures of { IsOf self.now pass.new }
        ensures answered { IsAnswered pass.old pass.new (commit_calls change result) (is_worn_out result) }
    {
        laws::<D>();
        let Ok(mut turn) = pass.pass.turn(rt, &self.gate) else {
            return Err(CommitFault::Worn);
        };
        let answer = turn.value().commit(change);
        turn.end();
        answer
    }

    pub(crate) fn pin<R: Wait>(
        &self,
        rt: &R,
        pass: &mut HallPass<D>,
    ) -> Result<Option<Pin>, CallFault>
        requires of { IsOf self.now pass.old }
        ensures of { IsOf self.now pass.new }
        ensures answered { IsAnswered pass.old pass.new (pin_calls result) (is_worn result) }
        ensures memory { NeedsNone result }
    {
        laws::<D>();
        let Ok(mut turn) = pass.pass.turn(rt, &self.gate) else {
            return Err(CallFault::Worn);
        };
        let answer = turn.value().pin();
        turn.end();
        answer
    }

    pub(crate) fn fetch<R: Wait, L: Ledger>(
        &self,
        rt: &R,
        pass: &mut HallPass<D>,
        pin: &Pin,
        want: &Print,
        from: u32,
        limit: u32,
        page: &mut Page,
        steps: &mut Steps<L>,
    ) -> Result<bool, CallFault>
        requires of { IsOf self.now pass.old }
        requires held { HoldsPin pass.old pin.now.slot pin.now.version }
        requires some { 1 ≤ limit }
        requires few { limit ≤ MOST_RECORDS }
        requires room { limit ≤ page.old.room }
        ensures of { IsOf self.now pass.new }
        ensures answered { IsAnswered pass.old pass.new
            (fetch_calls pin.now.slot want.now from limit page.new.records result) (is_worn result) }
        ensures few { length page.new.records ≤ limit }
        ensures in_range { All (λ (r : Shared). IsId (arc_value r).id) page.new.records }
        ensures err { OnErr result (page.new.records ≡ []) }
        ensures room { page.new.room ≡ page.old.room }
    {
        laws::<D>();
        // The records that the page has are given back before the turn, and not in it.
        page.clear();
        let Ok(mut turn) = pass.pass.turn(rt, &self.gate) else {
            return Err(CallFault::Worn);
        };
        let answer = turn.value().fetch(pin, want, from, limit, page, steps);
        turn.end();
        answer
    }

    pub(crate) fn unpin<R: Wait>(
        &self,
        rt: &R,
        pass: &mut HallPass<D>,
        pin: Pin,
    ) -> Result<(), CallFault>
        requires of { IsOf self.now pass.old }
        requires held { HoldsPin pass.old pin.slot pin.version }
        ensures of { IsOf self.now pass.new }
        ensures answered { IsAnswered pass.old pass.new (unpin_calls pin.slot result) (is_worn result) }
        ensures memory { NeedsNone result }
    {
        laws::<D>();
        let Ok(mut turn) = pass.pass.turn(rt, &self.gate) else {
            return Err(CallFault::Worn);
        };
        let answer = turn.value().unpin(pin);
        turn.end();
        answer
    }

    pub(crate) fn prune<R: Wait>(&self, rt: &R, pass: &mut HallPass<D>) -> Result<u32, CallFault>
        requires of { IsOf self.now pass.old }
        ensures of { IsOf self.now pass.new }
        ensures answered { IsAnswered pass.old pass.new (prune_calls result) (is_worn result) }
        ensures memory { NeedsNone result }
    {
        laws::<D>();
        let Ok(mut turn) = pass.pass.turn(rt, &self.gate) else {
            return Err(CallFault::Worn);
        };
        let answer = turn.value().prune();
        turn.end();
        answer
    }

    pub(crate) fn look<R: Wait>(
        &self,
        rt: &R,
        pass: &mut HallPass<D>,
        id: u32,
    ) -> Result<Look, CallFault>
        requires of { IsOf self.now pass.old }
        ensures of { IsOf self.now pass.new }
        ensures answered { IsAnswered pass.old pass.new (look_calls id result) (is_worn result) }
        ensures entry { IfOk result (λ l. IsLookOf id l) }
    {
        laws::<D>();
        let Ok(mut turn) = pass.pass.turn(rt, &self.gate) else {
            return Err(CallFault::Worn);
        };
        let answer = turn.value().look(id);
        turn.end();
        answer
    }

    pub(crate) fn stats<R: Wait>(&self, rt: &R, pass: &mut HallPass<D>) -> Result<Stats, CallFault>
        requires of { IsOf self.now pass.old }
        ensures of { IsOf self.now pass.new }
        ensures answered { IsAnswered pass.old pass.new (stats_calls result) (is_worn result) }
        ensures memory { NeedsNone result }
    {
        laws::<D>();
        let Ok(mut turn) = pass.pass.turn(rt, &self.gate) else {
            return Err(CallFault::Worn);
        };
        let answer = turn.value().stats();
        turn.end();
        answer
    }

    pub(crate) fn compact<R: Wait>(
        &self,
        rt: &R,
        pass: &mut HallPass<D>,
    ) -> Result<Compact, CompactFault>
        requires of { IsOf self.now pass.old }
        ensures of { IsOf self.now pass.new }
        ensures answered { IsAnswered pass.old pass.new
            (compact_calls result) (is_compact_worn result) }
    {
        laws::<D>();
        let Ok(mut turn) = pass.pass.turn(rt, &self.gate) else {
            return Err(CompactFault::Worn);
        };
        let answer = turn.value().compact();
        turn.end();
        answer
    }
}
