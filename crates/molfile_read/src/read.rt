//! Molfiles, read into sketches.
ghost use Rattle.std.specs.Prelude.{◌≡◌, ◌⊎◌, ◌≤◌, List, ℕ, length, All, Err, Result, IfOk};
ghost use Rattle.chem_core.specs.Sketch.{SketchTerm};
ghost use Rattle.chem_core.specs.Sound.{IsSound};
ghost use Rattle.molfile_read.specs.declared.fault.MolfileFault.{MolfileFault};
ghost use Rattle.molfile_read.specs.Text.{numbered_lines};
ghost use Rattle.molfile_read.specs.Reading.{drawn, HasNoAromaticMark, IsReading};
ghost use Rattle.molfile_read.specs.Parts.{IsDrawn, AreAtoms, AreBondsAmong};

use crate::atom::read_atoms;
use crate::bond::read_bonds;
use crate::counts::read_counts;
use crate::fault::MolfileFault;
use crate::finish::{check_masses, sketch_atoms};
use crate::lines::Lines;
use crate::property::read_properties;
use bumpalo::Bump;
use chem_core::{MOST_BONDS, Sketch, are_few_neighbours};
use std::alloc::Global;

/// The longest molfile that is looked at, in bytes.
pub const MOST_BYTES: usize = 262_144;

/// Reads a molfile into a sketch (CTfile formats, version V2000).
///
/// Atoms and bonds are in the order of their lines. `MolfileFault` gives the order of several faults. `NoMemory` may
/// come at any text.
pub fn read_molfile(alloc: Global, text: &[u8]) -> Result<Sketch, MolfileFault>
    ensures reading { IsReading text.now result }
    ensures sound { IfOk result (λ s. IsSound s) }
    ensures few_hydrogens { IfOk result (λ s. All (λ a. a.hydrogens ≤ 9) s.atoms) }
    ensures no_aromatic_mark { IfOk result HasNoAromaticMark }
{
    let arena = Bump::new(alloc);
    read_molfile_in(alloc, &arena, text)
}

/// As `read_molfile`, but with working memory from an arena, for one text after another.
pub fn read_molfile_in(alloc: Global, arena: &Bump, text: &[u8]) -> Result<Sketch, MolfileFault>
    ensures reading { IsReading text.now result }
    ensures sound { IfOk result (λ s. IsSound s) }
    ensures few_hydrogens { IfOk result (λ s. All (λ a. a.hydrogens ≤ 9) s.atoms) }
    ensures no_aromatic_mark { IfOk result HasNoAromaticMark }
{
    if text.len() > MOST_BYTES {
        return Err(MolfileFault::Limit);
    }
    let sketch = drawn(alloc, arena, text)?;
    if !are_few_neighbours(alloc, sketch.atoms.len(), &sketch.bonds)? {
        return Err(MolfileFault::Limit);
    }
    Ok(sketch)
}

/// A law: except for want of memory, a text has one reading.
pub fn one_reading()
    ensures { (text : List ℕ) (a b : Result SketchTerm MolfileFault)
        → IsReading text a → IsReading text b
        → (a ≡ b) ⊎ (a ≡ Err MolfileFault.NoMemory) ⊎ (b ≡ Err MolfileFault.NoMemory) }
{}

// The sketch of the lines, whatever the number of an atom's neighbours.
fn drawn(alloc: Global, arena: &Bump, text: &[u8]) -> Result<Sketch, MolfileFault>
    requires { length text.now ≤ MOST_BYTES }
    ensures value { IsDrawn (drawn (numbered_lines text.now)) result }
    ensures atoms { IfOk result (λ s. AreAtoms s.atoms) }
    ensures bonds { IfOk result
        (λ s. AreBondsAmong (length s.atoms) s.bonds × (length s.bonds ≤ MOST_BONDS)) }
{
    let mut lines = Lines::new(text);
    let counts = read_counts(&mut lines)?;
    let atoms = read_atoms(arena, &mut lines, counts.atoms)?;
    let bonds = read_bonds(alloc, arena, &mut lines, counts)?;
    let settings = read_properties(arena, &mut lines, counts.atoms)?;
    check_masses(&atoms, &settings)?;
    let atoms = sketch_atoms(alloc, &atoms, &settings)?;
    Ok(Sketch { atoms, bonds })
}
