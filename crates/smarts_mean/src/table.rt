//! A table of the atoms at which recursive parts hold: a bit for each part and atom, in words of 64.
ghost use Rattle.std.specs.Prelude.{◌≡◌, ◌↔◌, ℕ, ◌+◌, ◌*◌, ◌/◌, ◌<◌, false, IfOk};
ghost use Rattle.std.specs.Int.{bit_at};
ghost use Rattle.smarts_mean.specs.Table.{HoldsIn, holds_at};

use chem_core::MOST_ATOMS;
use std::alloc::{AllocError, Global};
use std::marker::Model;

/// The most recursive parts of a pattern.
pub const MOST_PARTS: usize = 64;

// The words of a part's row: a bit for each atom.
const ROW: usize = 16;

/// The atoms at which each recursive part of a pattern holds: room for `MOST_PARTS` parts and `MOST_ATOMS` atoms.
/// Contracts ask it by the part's number and the atom.
#[derive(Debug, Drop)]
pub struct RecTable {
    words: Vec<u64>,
}

impl Model for RecTable {
    ghost use Rattle.std.specs.Prelude.{◌≡◌, length};
    ghost use Rattle.smarts_mean.specs.Table.{Table};

    ghost Value = { Table };

    ghost view = { λ t. record { words = t.words.items } };

    ghost invariant = { λ t. length t.words.items ≡ 1024 };
}

impl RecTable {
    /// Takes the memory. No part holds anywhere yet.
    pub fn reserve(alloc: Global) -> Result<RecTable, AllocError>
        ensures { IfOk result (λ table. (part atom : ℕ) → holds_at table part atom ≡ false) }
    {
        Ok(RecTable {
            words: vec![in alloc; 0u64; ROW * MOST_PARTS]?,
        })
    }

    /// True if the part holds at the atom.
    pub fn get(&self, part: u16, atom: u16) -> bool
        requires part { part < MOST_PARTS }
        requires atom { atom < MOST_ATOMS }
        ensures { result ≡ holds_at self.now part atom }
    {
        let word = self.words[ROW * usize::from(part) + usize::from(atom / 64)];
        (word >> (atom % 64)) & 1 == 1
    }

    /// The atoms of a block of 64 at which the part holds.
    pub fn block(&self, part: u16, block: usize) -> u64
        requires part { part < MOST_PARTS }
        requires block { block < 16 }
        ensures { (i : ℕ) → i < 64 → bit_at result i ≡ 1 ↔ HoldsIn self.now part (64 * block + i) }
    {
        self.words[ROW * usize::from(part) + block]
    }

    /// Notes the atoms of a block of 64 at which the part holds.
    pub fn put_block(&mut self, part: u16, block: usize, word: u64)
        requires part { part < MOST_PARTS }
        requires block { block < 16 }
        ensures here { (i : ℕ) → i < 64 → HoldsIn self.new part (64 * block + i) ↔ bit_at word i ≡ 1 }
        ensures others { (p a : ℕ) → p < MOST_PARTS → a < MOST_ATOMS → (p ≡ part → a / 64 ≡ block → ⊥)
            → holds_at self.new p a ≡ holds_at self.old p a }
    {
        self.words[ROW * usize::from(part) + block] = word;
    }
}
