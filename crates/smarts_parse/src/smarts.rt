//! SMARTS as a language of the walk.

ghost use Rattle.smarts_words.specs.Words.{smarts_words};
ghost use Rattle.smarts_words.proofs.Apart.{smarts_apart};

use line_walk::Notation;
use smarts_words::{PatternAtom, PatternBond};
use std::alloc::{AllocError, Global};

/// The language (Daylight Theory Manual, chapter SMARTS).
pub struct Smarts;

impl Notation for Smarts {
    type Atom = PatternAtom;

    type Bond = PatternBond;

    ghost words = { smarts_words };

    fn atom_at(alloc: Global, bytes: &[u8]) -> Result<Option<(PatternAtom, &[u8])>, AllocError> {
        smarts_words::atom_at(alloc, bytes)
    }

    fn bond_at(alloc: Global, bytes: &[u8]) -> Result<Option<(PatternBond, &[u8])>, AllocError> {
        smarts_words::bond_at(alloc, bytes)
    }

    fn unwritten(alloc: Global) -> PatternBond {
        PatternBond::new(Vec::new(alloc))
    }

    fn agree(first: PatternBond, second: PatternBond) -> Option<PatternBond> {
        smarts_words::agree(first, second)
    }

    ghost apart = { smarts_apart };
}
