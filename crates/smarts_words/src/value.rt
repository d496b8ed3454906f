//! Atoms and bonds of a pattern as they are read.

ghost use Rattle.std.specs.Prelude.{◌≡◌, map};
ghost use Rattle.smarts_words.specs.Bracket.{AtomValue};

use crate::word::{AtomWord, BondWord, Step};
use std::alloc::Global;
use std::marker::Model;

/// An atom: its expression in postfix order, and the texts of its recursive parts from left to right.
#[derive(Drop)]
pub struct PatternAtom {
    steps: Vec<Step<AtomWord>>,
    parts: Vec<Vec<u8>>,
}

impl Model for PatternAtom {
    ghost use Rattle.std.specs.Prelude.{map};
    ghost use Rattle.smarts_words.specs.Bracket.{AtomValue};

    ghost Value = { AtomValue };

    ghost view = { λ a. record { steps = a.steps.items; parts = map (λ v. v.items) a.parts.items } };
}

impl PatternAtom {
    /// The atom of an expression and its parts.
    pub fn new(steps: Vec<Step<AtomWord>>, parts: Vec<Vec<u8>>) -> PatternAtom
        ensures { result ≡ record { steps = steps.items; parts = map (λ v. v.items) parts.items } }
    {
        PatternAtom { steps, parts }
    }

    /// The expression.
    pub fn steps(&self) -> &[Step<AtomWord>]
        ensures { result.now ≡ self.now.steps }
    {
        &self.steps
    }

    /// The texts of the recursive parts.
    pub fn parts(&self) -> &[Vec<u8>]
        ensures { map (λ v. v.items) result.now ≡ self.now.parts }
    {
        &self.parts
    }
}

/// A bond: its expression in postfix order, which is empty if it is not written.
#[derive(Drop)]
pub struct PatternBond {
    steps: Vec<Step<BondWord>>,
}

impl Model for PatternBond {
    ghost use Rattle.std.specs.Prelude.{List};
    ghost use Rattle.smarts_words.specs.declared.word.Step.{Step};
    ghost use Rattle.smarts_words.specs.declared.word.BondWord.{BondWord};

    ghost Value = { List (Step BondWord) };

    ghost view = { λ b. b.steps.items };
}

impl PatternBond {
    /// The bond of an expression.
    pub fn new(steps: Vec<Step<BondWord>>) -> PatternBond
        ensures { result ≡ steps.items }
    {
        PatternBond { steps }
    }

    /// The expression.
    pub fn steps(&self) -> &[Step<BondWord>]
        ensures { result.now ≡ self.now }
    {
        &self.steps
    }
}
