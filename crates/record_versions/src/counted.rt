//! A value beside the chains that is read only at the price of a step.
ghost use Rattle.std.specs.Prelude.{◌≡◌, ◌+◌};

use crate::steps::Steps;
use std::marker::Model;
use std::sync::ledger::Ledger;

/// The value of an entry, kept elsewhere than in its chain. Contracts see the value; code reads it by `read` alone.
#[derive(Drop)]
pub struct Counted<V> {
    value: V,
}

impl<V> Model for Counted<V> {
    ghost Value = { V };

    ghost view = { λ c. c.value };
}

impl<V> Counted<V> {
    pub fn new(value: V) -> Counted<V>
        ensures { result ≡ value }
    {
        Counted { value }
    }

    /// The value. It takes one step.
    pub fn read<L: Ledger>(&self, steps: &mut Steps<L>) -> &V
        ensures value { result.now ≡ self.now }
        ensures steps { steps.new ≡ steps.old + 1 }
    {
        steps.raise();
        &self.value
    }
}
