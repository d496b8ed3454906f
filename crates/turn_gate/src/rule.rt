//! The rule of the gate's table, and the knowledge that each step on it gives its pass.
use crate::known::Known;
use crate::stands::Stands;
use atomic_table::{Join, Play, Split, TableRule};
use std::marker::PhantomData;
use std::snapshot::Snapshot;

/// The constants of a gate: the value as it was given, and the number of turns.
pub struct About<V> {
    pub first: Snapshot<V>,
    pub turns: u64,
}

impl<V> Drop for About<V> {
    fn drop(self) {
        let Self { first, turns: _ } = self;
        drop(first);
    }
}

/// The rule of a gate.
pub struct Rule<V> {
    of: PhantomData<V>,
}

impl<V: Stands> TableRule<Option<V>, Known<V, V::Event, V::Origin>, About<V>> for Rule<V> {
    ghost use Rattle.turn_gate.specs.Rules.{OneHistory};
    ghost use Rattle.turn_gate.specs.Steps.{opened};

    ghost holds = { λ about. OneHistory V.stands V.number about.first.value about.turns };

    ghost first = { λ about. opened about.first.value about.turns };
}

/// The origin is picked.
pub struct Pick<V> {
    of: PhantomData<V>,
}

impl<V: Stands> Play<Option<V>, Known<V, V::Event, V::Origin>> for Pick<V> {
    ghost use Rattle.turn_gate.specs.Steps.{Picks};

    ghost then = { Picks V.stands };
}

/// The holder word is taken, or nothing changes.
pub struct Take;

impl<V, E, O> Play<Option<V>, Known<V, E, O>> for Take {
    ghost use Rattle.turn_gate.specs.Steps.{Takes};

    ghost then = { Takes };
}

/// The whole history is seen, and the value taken.
pub struct Look<V> {
    of: PhantomData<V>,
}

impl<V: Stands> Play<Option<V>, Known<V, V::Event, V::Origin>> for Look<V> {
    ghost use Rattle.turn_gate.specs.Steps.{Looks};

    ghost then = { Looks V.stands V.number };
}

/// An event is added.
pub struct Add<V> {
    of: PhantomData<V>,
}

impl<V: Stands> Play<Option<V>, Known<V, V::Event, V::Origin>> for Add<V> {
    ghost use Rattle.turn_gate.specs.Steps.{Adds};

    ghost then = { Adds V.stands V.tells V.number };
}

/// The value is given back, and the holder word released.
pub struct Release;

impl<V, E, O> Play<Option<V>, Known<V, E, O>> for Release {
    ghost use Rattle.turn_gate.specs.Steps.{Releases};

    ghost then = { Releases };
}

/// The seen events of a joined pass begin with each part. The root pass also learns that no event names a number that
/// was not given.
pub struct Learn<V> {
    of: PhantomData<V>,
}

impl<V: Stands> Play<Option<V>, Known<V, V::Event, V::Origin>> for Learn<V> {
    ghost use Rattle.turn_gate.specs.Steps.{Learns};

    ghost then = { Learns V.number };
}

/// The root pass gives the next number to a new pass.
pub struct Cut;

impl<V, E, O> Split<Known<V, E, O>> for Cut {
    ghost use Rattle.turn_gate.specs.Steps.{giving, given_to};

    ghost left = { giving };

    ghost right = { given_to };
}

/// One pass takes in another.
pub struct Glue;

impl<V, E, O> Join<Known<V, E, O>> for Glue {
    ghost use Rattle.turn_gate.specs.Steps.{joined, spent};

    ghost both = { joined };

    ghost spent = { spent };
}
