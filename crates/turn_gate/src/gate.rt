//! The gate and its passes.
ghost use Rattle.std.specs.Prelude.{◌≡◌, ◌<◌, ◌≤◌, ◌^◌, [], ◌∷◌, IfOk, IfErr};
ghost use Rattle.turn_gate.specs.Numbers.{own};
ghost use Rattle.turn_gate.specs.Steps.{giving, given_to};

use crate::known::Known;
use crate::rule::{About, Cut, Glue, Learn, Pick, Rule};
use crate::stands::Stands;
use atomic_table::{Refused, Seat, Table};
use std::alloc::{AllocError, Global};
use std::snapshot::Snapshot;
use std::sync::atomic::AtomicU64;

// The words of the table: the number of events of the history, and 1 in a turn.
pub(crate) const COUNT: usize = 0;

pub(crate) const HOLDER: usize = 1;

/// The holder's knowledge of the history of a gate. It takes no bytes.
pub struct Pass<V: Stands> {
    pub(crate) seat: Seat<Option<V>, Known<V, V::Event, V::Origin>>,
}

/// A gate is never closed without the numbers of a pass that was dropped.
impl<V: Stands> Drop for Pass<V> {
    fn drop(self) {
        let Self { seat } = self;
        drop(seat);
    }
}

impl<V: Stands> Pass<V> {
    fn into_seat(self) -> Seat<Option<V>, Known<V, V::Event, V::Origin>>
        ensures { result ≡ self.seat }
    {
        let Self { seat } = self;
        seat
    }
}

/// One value, on which passes take turns.
pub struct Gate<V: Stands> {
    pub(crate) table: Table<Option<V>, Known<V, V::Event, V::Origin>, About<V>, Rule<V>, Global>,
    pub(crate) turns: u64,
    // The number of callers that sleep until a turn ends.
    pub(crate) asleep: AtomicU64,
    ghost sized: { (table.shared.table_id.words ≡ 2) × (table.shared.table_id.slots ≡ 1) },
    ghost told: { table.shared.key.turns ≡ turns },
    ghost limits: { (1 ≤ turns) × (turns ≤ 2 ^ 63) },
}

impl<V: Stands> Gate<V> {
    ghost use Rattle.turn_gate.specs.Passes.{IsOf, Begins, Ends, Merged, IsRoot, IsWhole, known, turns_of};

    /// Returns a gate with a number of turns, 1 to 2^63, and its root pass, which is whole. Its history begins at one
    /// origin, after which the value records no event. An error gives the value back.
    pub fn start(alloc: Global, value: V, turns: u64) -> Result<(Gate<V>, Pass<V>), (AllocError, V)>
        requires turns { (1 ≤ turns) × (turns ≤ 2 ^ 63) }
        requires stands { (origin : V.Origin) × V.stands origin value [] }
        ensures of { IfOk result (λ r. IsOf r.0 r.1) }
        ensures turns { IfOk result (λ r. turns_of r.0 ≡ turns) }
        ensures whole { IfOk result (λ r. IsWhole r.1) }
        ensures begins { IfOk result (λ r. Begins V.stands value turns r.1) }
        ensures back { IfErr result (λ e. e.1 ≡ value) }
    {
        let about = About {
            first: Snapshot::of(&value),
            turns,
        };
        let mut slots = match Vec::with_capacity(alloc, 1) {
            Ok(slots) => slots,
            Err(failed) => return Err((failed, value)),
        };
        slots.push_reserved(Some(value));
        match Table::new(alloc, &[0, 0], slots, &about) {
            Ok((table, mut seat)) => {
                table.shared.load::<Pick<V>>(&mut seat, COUNT);
                let asleep = AtomicU64::new(0);
                let gate = Gate {
                    table,
                    turns,
                    asleep,
                };
                Ok((gate, Pass { seat }))
            }
            Err(Refused { mut slots }) => {
                let value = slots.pop().unwrap().unwrap();
                slots.destroy_empty();
                Err((AllocError, value))
            }
        }
    }

    /// The root pass gives the next number to a new pass, which has seen the same events. None of these events names
    /// that number.
    pub fn split(&self, pass: &mut Pass<V>) -> Pass<V>
        requires of { IsOf self.now pass.old }
        requires root { IsRoot pass.old }
        ensures of { IsOf self.now pass.new }
        ensures other { IsOf self.now result }
        ensures gives { known pass.new ≡ giving (known pass.old) }
        ensures given { known result ≡ given_to (known pass.old) }
        ensures fresh { own V.number (known result).numbers (known result).seen ≡ [] }
    {
        self.see_fresh(pass);
        Pass {
            seat: self.table.shared.split_seat::<Cut>(&mut pass.seat),
        }
    }

    /// The pass takes in another, with its numbers after its own.
    pub fn join(&self, pass: &mut Pass<V>, other: Pass<V>)
        requires of { IsOf self.now pass.old }
        requires other { IsOf self.now other }
        ensures of { IsOf self.now pass.new }
        ensures merged { Merged V.number pass.old other pass.new }
    {
        let seat = other.into_seat();
        self.table.shared.join_seat::<Glue>(&mut pass.seat, seat);
        self.table.shared.load::<Learn<V>>(&mut pass.seat, COUNT);
    }

    /// Gives the value back. It records the whole history, which the pass had seen: a whole pass has seen all.
    pub fn close(self, pass: Pass<V>) -> V
        requires of { IsOf self pass }
        requires whole { IsWhole pass }
        ensures { Ends V.stands pass result }
    {
        let Gate {
            table,
            turns: _,
            asleep,
        } = self;
        drop(asleep);
        let seat = pass.into_seat();
        let mut closed = table.close_with(seat);
        let value = closed.take(0).unwrap();
        closed.free();
        value
    }

    // The root pass learns that no event that it has seen names the number that it gives next. Nothing else
    // changes.
    fn see_fresh(&self, pass: &mut Pass<V>)
        requires of { IsOf self.now pass.old }
        requires root { IsRoot pass.old }
        ensures same { pass.new.seat.table_id ≡ pass.old.seat.table_id }
        ensures knows { pass.new.seat.me ≡ pass.old.seat.me }
        ensures fresh { own V.number ((known pass.old).given ∷ []) (known pass.old).seen ≡ [] }
    {
        self.table.shared.load::<Learn<V>>(&mut pass.seat, COUNT);
    }
}
