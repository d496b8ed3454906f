//! SMILES as a language of the walk: its atoms, its bond symbols, and the agreement of the bonds of one ring number.

ghost use Rattle.smiles_words.specs.Words.{smiles_words};
ghost use Rattle.smiles_words.proofs.Apart.{smiles_apart};

use chem_core::{SketchAtom, SketchKind};
use line_walk::Notation;
use smiles_words::{agreed, atom_at, bond_at};
use std::alloc::{AllocError, Global};

/// The language of SMILES (OpenSMILES 1.0).
pub struct Smiles;

impl Notation for Smiles {
    type Atom = SketchAtom;

    type Bond = SketchKind;

    ghost words = { smiles_words };

    fn atom_at(_alloc: Global, bytes: &[u8]) -> Result<Option<(SketchAtom, &[u8])>, AllocError> {
        Ok(atom_at(bytes))
    }

    fn bond_at(_alloc: Global, bytes: &[u8]) -> Result<Option<(SketchKind, &[u8])>, AllocError> {
        Ok(bond_at(bytes))
    }

    fn unwritten(_alloc: Global) -> SketchKind {
        SketchKind::Unwritten
    }

    fn agree(first: SketchKind, second: SketchKind) -> Option<SketchKind> {
        agreed(first, second)
    }

    ghost apart = { smiles_apart };
}
