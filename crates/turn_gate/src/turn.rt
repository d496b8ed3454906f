//! A turn: one pass has the value of its gate, and ends the turn with one event.
ghost use Rattle.std.specs.Prelude.{◌≡◌, [], IfOk, IfErr};

use crate::gate::{COUNT, Gate, HOLDER, Pass};
use crate::rule::{Add, Look, Release};
use crate::stands::Stands;
use std::sync::Wait;

/// A turn of a pass on the value. It must be ended: no other pass has a turn before.
pub struct Turn<'g, V: Stands> {
    pub(crate) pass: &'g mut Pass<V>,
    pub(crate) gate: &'g Gate<V>,
    pub(crate) value: V,
    pub(crate) count: u64,
}

/// All turns of the gate were taken.
#[derive(Clone, Copy, Debug, PartialEq, Eq)]
pub struct Worn;

// The value and the count, while the value is out of the slot.
struct Taken<V> {
    value: V,
    count: u64,
}

impl<V: Stands> Pass<V> {
    ghost use Rattle.std.specs.Borrow.{sem, RestsIfErr};
    ghost use Rattle.turn_gate.specs.Passes.{IsOf, InTurn, Sees, AllTaken, turns_of};
    ghost use Rattle.turn_gate.specs.contracts.gate.Pass.{the_row as pass_row};

    /// Waits for a turn, in which the pass sees the whole history.
    ///
    /// Returns `Worn` exactly if all turns of the gate were taken. The pass has then seen the whole history too.
    pub fn turn<'g, R: Wait>(&'g mut self, rt: &R, gate: &'g Gate<V>) -> Result<Turn<'g, V>, Worn>
        requires of { IsOf gate.now self.old }

        ensures same_reference { IfOk result
            (λ turn. turn.pass.ghost_name ≡ self.entry.ghost_name) }
        ensures gate { IfOk result (λ turn. turn.gate.now ≡ gate.now) }
        ensures on { IfOk result (λ turn. InTurn gate.now turn.pass.now turn.count) }
        ensures sees { IfOk result
            (λ turn. Sees V.stands V.number self.old turn.value turn.pass.now) }

        ensures* worn { sem 𝓛 (RestsIfErr (pass_row V.row V.Event.row V.Origin.row) self.entry
            (λ turn. turn.pass.ghost_name) result
            (λ n. IsOf gate.now n × AllTaken V.stands V.number (turns_of gate.now) self.old n)) }
    {
        let Taken { value, count } = gate.begin(rt, self)?;
        Ok(Turn {
            pass: self,
            gate,
            value,
            count,
        })
    }
}

impl<'g, V: Stands> Turn<'g, V> {
    ghost use Rattle.std.specs.Borrow.{sem, Lends};
    ghost use Rattle.turn_gate.specs.Passes.{IsOf, InTurn, Names, Added};
    ghost use mir.Syntax.{named};
    ghost use Rattle.turn_gate.specs.contracts.turn.Turn.{the_row};
    ghost use Rattle.turn_gate.specs.Turns.{with_value};

    /// The value of the gate.
    pub fn value(&mut self) -> &mut V
        ensures* writes_back { sem 𝓛 (Lends
            (the_row (record { mir = named 1; lft = [] }) V.row V.Event.row V.Origin.row V.Stands) V.row
            self.entry result (with_value self.old)) }
        ensures value { result.now ≡ self.old.value }
    {
        &mut self.value
    }

    /// Ends the turn with one event, which the value shows and now records.
    pub fn end(self)
        requires on { InTurn self.gate.now self.pass.now self.count }
        requires names { Names V.stands V.tells V.number self.pass.now self.value }
        ensures of { IsOf self.entry.gate.now self.exit.0.now }
        ensures added { Added V.stands V.tells V.number
            self.entry.pass.now self.entry.value self.exit.0.now }
    {
        let Turn {
            pass,
            gate,
            value,
            count,
        } = self;
        gate.finish(pass, Taken { value, count });
    }
}

impl<V: Stands> Gate<V> {
    ghost use Rattle.turn_gate.specs.Passes.{IsOf, InTurn, Sees, AllTaken, Names, Added, turns_of};

    // Takes the holder word, sees the whole history and takes the value. If all turns were taken it releases the word
    // instead.
    fn begin<R: Wait>(&self, rt: &R, pass: &mut Pass<V>) -> Result<Taken<V>, Worn>
        requires of { IsOf self.now pass.old }
        ensures in_turn { IfOk result (λ taken. InTurn self.now pass.new taken.count) }
        ensures sees { IfOk result (λ taken. Sees V.stands V.number pass.old taken.value pass.new) }
        ensures of { IfErr result (λ _. IsOf self.now pass.new) }
        ensures worn { IfErr result
            (λ _. AllTaken V.stands V.number (turns_of self.now) pass.old pass.new) }
    {
        self.take(rt, pass);
        let shared = &self.table.shared;
        let count = shared.load::<Look<V>>(&mut pass.seat, COUNT);
        if count >= self.turns {
            shared.store::<Release>(&mut pass.seat, HOLDER, 0);
            self.wake();
            return Err(Worn);
        }
        let value = shared.exchange(&mut pass.seat, 0, None).unwrap();
        Ok(Taken { value, count })
    }

    // Puts the value into the slot again, adds the event and releases the holder word.
    fn finish(&self, pass: &mut Pass<V>, taken: Taken<V>)
        requires turn { InTurn self.now pass.old taken.count }
        requires names { Names V.stands V.tells V.number pass.old taken.value }
        ensures of { IsOf self.now pass.new }
        ensures added { Added V.stands V.tells V.number pass.old taken.value pass.new }
    {
        let shared = &self.table.shared;
        let Taken { value, count } = taken;
        let left = shared.exchange(&mut pass.seat, 0, Some(value));
        let None = left else { unreachable!() };
        shared.store::<Add<V>>(&mut pass.seat, COUNT, count + 1);
        shared.store::<Release>(&mut pass.seat, HOLDER, 0);
        self.wake();
    }
}
