//! A hall, and the passes of those who take turns in it.
ghost use Rattle.std.specs.Prelude.{◌≡◌, IfErr, IfOk};

use crate::kept::Kept;
use crate::laws::laws;
use disk_edge::Disk;
use std::alloc::{AllocError, Global};
use std::snapshot::Snapshot;
use store_disk::Store;
use turn_gate::{Gate, Pass};

/// The number of turns of a hall.
pub const TURNS: u64 = 1 << 63;

/// One store, on which passes take turns.
pub struct Hall<D: Disk> {
    pub(crate) gate: Gate<Kept<D>>,
}

/// The part of a hall's history that its holder has seen. It takes no bytes. A hall is never closed without the numbers
/// of a pass that was dropped.
#[derive(Drop)]
pub struct HallPass<D: Disk> {
    pub(crate) pass: Pass<Kept<D>>,
}

impl<D: Disk + Drop> Hall<D> {
    ghost use Rattle.store_machine.specs.declared.machine.State.{State};
    ghost use Rattle.store_core.specs.Calls.{SameHeld};
    ghost use Rattle.store_disk.specs.OnDisk.{StandsFor};
    ghost use Rattle.turn_gate.specs.Steps.{giving, given_to};
    ghost use Rattle.hall.specs.Histories.{IsStart};
    ghost use Rattle.hall.specs.Passes.{Begins, Ends, HasBoth, HoldsNone, HoldsPin, IsOf, IsRoot, IsWhole, Merged, Runs, known};

    /// A hall of a store without held pins, and its root pass, which is whole and has seen no event. The hall has 2^63
    /// turns. Its history begins at one state of the store. Only contracts read `opened`: true if the store was just
    /// opened; that state is then as after an opening. An error gives the store back.
    pub fn start(
        alloc: Global,
        store: Store<D>,
        opened: Snapshot<bool>,
    ) -> Result<(Hall<D>, HallPass<D>), (AllocError, Store<D>)>
        requires stands { (s : State) × StandsFor D.model store s × IsStart opened.value s }
        ensures of { IfOk result (λ r. IsOf r.0 r.1) }
        ensures whole { IfOk result (λ r. IsWhole r.1) }
        ensures begins { IfOk result (λ r. Begins D.model store opened.value r.1) }
        ensures runs { IfOk result (λ r. Runs r.1) }
        ensures back { IfErr result (λ e. e.1 ≡ store) }
    {
        let kept = match Kept::new(alloc, store, opened) {
            Ok(kept) => kept,
            Err(failed) => return Err((AllocError, failed.value)),
        };
        match Gate::start(alloc, kept, TURNS) {
            Ok((gate, pass)) => Ok((Hall { gate }, HallPass { pass })),
            Err((failed, kept)) => Err((failed, kept.into_store())),
        }
    }

    /// The root pass gives the next number to a new pass, which has seen the same events, and holds no pin. The root
    /// pass keeps its pins. Takes no memory.
    pub fn split(&self, pass: &mut HallPass<D>) -> HallPass<D>
        requires of { IsOf self.now pass.old }
        requires root { IsRoot pass.old }
        ensures of { IsOf self.now pass.new }
        ensures other { IsOf self.now result }
        ensures gives { known pass.new ≡ giving (known pass.old) }
        ensures given { known result ≡ given_to (known pass.old) }
        ensures pins { HoldsNone result }
        ensures kept { SameHeld (HoldsPin pass.old) (HoldsPin pass.new) }
    {
        HallPass {
            pass: self.gate.split(&mut pass.pass),
        }
    }

    /// The pass takes in another, with its numbers after its own, and so with its pins. Takes no memory.
    pub fn join(&self, pass: &mut HallPass<D>, other: HallPass<D>)
        requires of { IsOf self.now pass.old }
        requires other { IsOf self.now other }
        ensures of { IsOf self.now pass.new }
        ensures merged { Merged pass.old other pass.new }
        ensures pins { HasBoth pass.old other pass.new }
    {
        laws::<D>();
        self.gate.join(&mut pass.pass, other.into_pass());
    }

    /// Gives the store back, in the state after the whole history, which the pass had seen, with its counts of faults
    /// and its clocks. Pins that were not given back stay held. Takes no memory.
    pub fn close(self, pass: HallPass<D>) -> Store<D>
        requires of { IsOf self pass }
        requires whole { IsWhole pass }
        ensures { Ends D.model pass result }
    {
        let Hall { gate } = self;
        gate.close(pass.into_pass()).into_store()
    }
}

impl<D: Disk> HallPass<D> {
    // Its pass of the gate.
    fn into_pass(self) -> Pass<Kept<D>>
        ensures { result ≡ self.pass }
    {
        let HallPass { pass } = self;
        pass
    }
}
