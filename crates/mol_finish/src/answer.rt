//! The structure of a text, stage by stage.
ghost use Rattle.std.specs.Prelude.{◌≡◌, ◌⊎◌, ◌≤◌, ℕ, List, All, Err, Result};
ghost use Rattle.chem_core.specs.Molecule.{Molecule};
ghost use Rattle.chem_core.specs.Sound.{IsSound};
ghost use Rattle.mol_finish.specs.Structure.{IsAnswer, IsStructure, IsMolfileStructure, IsFinished, HasMolecule};
ghost use Rattle.mol_finish.specs.declared.fault.TextFault.{TextFault};
ghost use Rattle.mol_finish.specs.declared.fault.Format.{Format};

use crate::fault::{Format, TextFault};
use crate::molecule::molecule;
use aromatic::{AromFault, perceive_in};
use bumpalo::Bump;
use chem_core::{Adjacency, Mol, Sketch};
use molfile_read::read_molfile_in;
use ring_find::rings_in;
use smiles_read::read_smiles_in;
use std::alloc::Global;
use valence::{fill_hydrogens, suppress};

/// The structure of a text, or the fault of the first stage that fails: reading, then aromaticity, by the place of the
/// atom as written.
///
/// A SMILES has at most 65,536 bytes and 256 branches open at once (OpenSMILES 1.0), a molfile 262,144 bytes (CTfile
/// formats, version V2000). Both have at most 999 atoms, 999 bonds and 12 neighbours of an atom. Hydrogens that are not
/// written are counted. Hydrogen atoms without isotope and charge become counts at their neighbours. Then aromatic
/// atoms and bonds are found by electron counts on rings, even if double bonds are written. `NoMemory` may come at any
/// text.
pub fn structure(alloc: Global, format: Format, text: &[u8]) -> Result<Mol, TextFault>
    ensures { IsAnswer format text.now result }
{
    let arena = Bump::new(alloc);
    structure_in(alloc, &arena, format, text)
}

/// As `structure`, but with working memory from an arena, for one text after another.
pub fn structure_in(
    alloc: Global,
    arena: &Bump,
    format: Format,
    text: &[u8],
) -> Result<Mol, TextFault>
    ensures { IsAnswer format text.now result }
{
    match format {
        Format::Smiles => of_smiles(alloc, arena, text),
        Format::Molfile => of_molfile(alloc, arena, text),
    }
}

/// A law: a text has one structure in a format.
pub fn one_structure()
    ensures { (format : Format) (text : List ℕ) (m n : Molecule)
        → HasMolecule format text m → HasMolecule format text n → m ≡ n }
{
    smiles_read::one_reading();
    molfile_read::one_reading();
    ring_find::one_answer();
}

/// A law: except for want of memory, a text has one answer in a format.
pub fn one_answer()
    ensures { (format : Format) (text : List ℕ) (a b : Result Molecule TextFault)
        → IsAnswer format text a → IsAnswer format text b
        → (a ≡ b) ⊎ (a ≡ Err TextFault.NoMemory) ⊎ (b ≡ Err TextFault.NoMemory) }
{
    smiles_read::one_reading();
    molfile_read::one_reading();
    ring_find::one_answer();
}

fn of_smiles(alloc: Global, arena: &Bump, text: &[u8]) -> Result<Mol, TextFault>
    ensures { IsStructure text.now result }
{
    let sketch = read_smiles_in(alloc, arena, text)?;
    Ok(of_sketch(alloc, arena, sketch)?)
}

fn of_molfile(alloc: Global, arena: &Bump, text: &[u8]) -> Result<Mol, TextFault>
    ensures { IsMolfileStructure text.now result }
{
    let sketch = read_molfile_in(alloc, arena, text)?;
    Ok(of_sketch(alloc, arena, sketch)?)
}

// The molecule of a sketch once its hydrogens are counted.
fn of_sketch(alloc: Global, arena: &Bump, mut sketch: Sketch) -> Result<Mol, AromFault>
    requires sound { IsSound sketch }
    requires few { All (λ a. a.hydrogens ≤ 9) sketch.atoms }
    ensures { IsFinished sketch result }
{
    fill_hydrogens(&mut sketch);
    suppress(&mut sketch);
    let adjacency = Adjacency::of(arena, &sketch)?;
    let rings = rings_in(alloc, arena, &adjacency)?;
    let found = perceive_in(arena, &sketch, &rings.bond_in_ring)?;
    Ok(molecule(alloc, arena, &sketch, &adjacency, &found, rings)?)
}
