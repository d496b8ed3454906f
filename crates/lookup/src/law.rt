//! The laws of equal structures, and of the lists of lookups, which are exactly those of the history.
ghost use Rattle.std.specs.Prelude.{◌≤◌, ◌↔◌, Bool, List, ℕ};
ghost use Rattle.chem_core.specs.Bits.{set_bits};
ghost use Rattle.chem_core.specs.Molecule.{IsMolecule, Molecule};
ghost use Rattle.exact_find.specs.Same.{IsSame};
ghost use Rattle.mol_finish.specs.Structure.{IsStructureOf};
ghost use Rattle.path_print.specs.Prints.{IsPrint};
ghost use Rattle.store_machine.specs.Structures.{HasPrintBit};
ghost use Rattle.lookup.specs.Truths.{SamesAreAnswers, SimilarsAreAnswers};

use exact_find::same_is_symmetric;
use mol_finish::{one_structure, structures_are_molecules};
use store_machine::{calls_give_pages, runs_grow, snapshots_stay};

/// A law: molecules that are the same have the same bits in their prints.
pub fn same_have_equal_prints()
    ensures { (m n : Molecule) → IsMolecule m → IsMolecule n → IsSame m n
        → (bit : ℕ) → HasPrintBit m bit ↔ HasPrintBit n bit }
{
    same_is_symmetric();
}

/// A law: the structure of a SMILES has a bit in its print.
pub fn structures_have_bits()
    ensures { (text : List ℕ) (m : Molecule) (print : List Bool) → IsStructureOf text m → IsPrint m print
        → 1 ≤ set_bits print }
{}

/// A law: the records that are listed as the same structure are exactly those of the history.
pub fn sames_are_answers()
    ensures { SamesAreAnswers }
{
    calls_give_pages();
    snapshots_stay();
    runs_grow();
    structures_are_molecules();
    same_have_equal_prints();
}

/// A law: the records that are listed as most similar are so by the history.
pub fn similars_are_answers()
    ensures { SimilarsAreAnswers }
{
    calls_give_pages();
    snapshots_stay();
    runs_grow();
    one_structure();
    structures_have_bits();
}
