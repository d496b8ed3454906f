//! A desk of a hall: a service whose calls are turns of its pass.
ghost use Rattle.std.specs.Prelude.{◌≡◌};
ghost use Rattle.turn_gate.proofs.Ids.{IsOf-prop};
ghost use Rattle.hall.specs.Passes.{IsOf};

use crate::hall::{Hall, HallPass};
use chem_core::Print;
use disk_edge::Disk;
use snap_registry::Pin;
use std::sync::Wait;
use std::sync::ledger::Ledger;
use store_core::{
    CallFault, Change, CommitFault, Compact, CompactFault, Look, Page, Service, Stats, Steps,
};

/// A pass at its hall. Each call waits for a turn and is one event of the hall's history, which begins with all events
/// that the pass had seen. The pass has then seen that history and its event. Each call is answered `Worn` exactly if
/// the hall's turns were all taken: it is then no event.
pub struct Desk<'h, R: Wait, D: Disk> {
    rt: &'h R,
    hall: &'h Hall<D>,
    pass: HallPass<D>,
    ghost of: { IsOf hall.now pass } by { IsOf-prop _ _ },
}

impl<D: Disk> Hall<D> {
    ghost use Rattle.hall.specs.Desks.{hall_of, pass_of};

    /// The pass takes its place at a desk. Takes no memory.
    pub fn desk<'h, R: Wait>(&'h self, rt: &'h R, pass: HallPass<D>) -> Desk<'h, R, D>
        requires of { IsOf self.now pass }
        ensures pass { pass_of result ≡ pass }
        ensures hall { hall_of result ≡ self.now }
    {
        Desk {
            rt,
            hall: self,
            pass,
        }
    }
}

impl<'h, R: Wait, D: Disk> Desk<'h, R, D> {
    ghost use Rattle.hall.specs.Desks.{hall_of, pass_of};

    /// The pass leaves its desk, with the pins that it holds. Takes no memory.
    pub fn leave(self) -> HallPass<D>
        ensures pass { result ≡ pass_of self.entry }
        ensures of { IsOf (hall_of self.entry) result }
    {
        let Desk {
            rt: _,
            hall: _,
            pass,
        } = self;
        pass
    }
}

impl<'h, R: Wait, D: Disk + Drop> Service for Desk<'h, R, D> {
    ghost use Rattle.std.specs.Prelude.{None};
    ghost use Rattle.turn_gate.specs.Numbers.{has};
    ghost use Rattle.hall.specs.Desks.{IsAt, IsWorn, Stretches, joins, lands, pass_of, same, stays};
    ghost use Rattle.hall.specs.Passes.{HoldsPin, known};

    ghost at = { λ d. IsAt (pass_of d) };

    ghost owns = { λ d. has (known (pass_of d)).numbers };

    ghost stretch = { λ a b. Stretches (pass_of a) (pass_of b) };

    ghost worn = { λ d. IsWorn (pass_of d) };

    ghost holds = { λ d. HoldsPin (pass_of d) };

    ghost bounds = { λ _. (None, None) };

    fn commit(&mut self, change: Change) -> Result<u32, CommitFault> {
        self.hall.commit(self.rt, &mut self.pass, change)
    }

    fn pin(&mut self) -> Result<Option<Pin>, CallFault> {
        self.hall.pin(self.rt, &mut self.pass)
    }

    fn fetch<L: Ledger>(
        &mut self,
        pin: &Pin,
        want: &Print,
        from: u32,
        limit: u32,
        page: &mut Page,
        steps: &mut Steps<L>,
    ) -> Result<bool, CallFault> {
        self.hall.fetch(self.rt, &mut self.pass, pin, want, from, limit, page, steps)
    }

    fn unpin(&mut self, pin: Pin) -> Result<(), CallFault> {
        self.hall.unpin(self.rt, &mut self.pass, pin)
    }

    fn prune(&mut self) -> Result<u32, CallFault> {
        self.hall.prune(self.rt, &mut self.pass)
    }

    fn look(&mut self, id: u32) -> Result<Look, CallFault> {
        self.hall.look(self.rt, &mut self.pass, id)
    }

    fn stats(&mut self) -> Result<Stats, CallFault> {
        self.hall.stats(self.rt, &mut self.pass)
    }

    fn compact(&mut self) -> Result<Compact, CompactFault> {
        self.hall.compact(self.rt, &mut self.pass)
    }

    ghost stays = { λ a. stays (pass_of a) };

    ghost joins = { λ a b c. joins (pass_of a) (pass_of b) (pass_of c) };

    ghost lands = { λ a b. lands (pass_of a) (pass_of b) };

    ghost same = { λ a b. same (pass_of a) (pass_of b) };
}
