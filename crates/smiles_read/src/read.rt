//! SMILES, read into sketches.

ghost use Rattle.std.specs.Prelude.{◌≡◌, ◌⊎◌, ℕ, ◌≤◌, List, All, Result, Err, IfOk};
ghost use Rattle.chem_core.specs.Sketch.{SketchTerm};
ghost use Rattle.chem_core.specs.Sound.{IsSound};
ghost use Rattle.smiles_words.specs.Words.{Tree, IsTreeOf};
ghost use Rattle.smiles_read.specs.Reading.{IsReading};
ghost use Rattle.smiles_read.specs.declared.fault.SmilesFault.{SmilesFault};

use crate::fault::SmilesFault;
use crate::limits::{MOST_BYTES, has_few_parts};
use crate::notation::Smiles;
use crate::sketch::sketch;
use bumpalo::Bump;
use chem_core::{Sketch, are_few_neighbours};
use line_walk::read_graph;
use std::alloc::Global;

/// Reads a SMILES into a sketch (OpenSMILES 1.0, sections 3 and 4; Daylight Theory Manual, chapter SMILES).
///
/// Atoms are in the order of the text, and bonds in the order in which the text completes them. Chirality marks, atom
/// classes, and the direction of `/` and `\` are read and dropped; `*` is the atom of number 0. The first fault of this
/// order is returned. `Limit`: more than 65,536 bytes. `Syntax`: a text that is not in the grammar. `Ring`: ring
/// numbers that do not pair. `Limit`: more than 256 branches open at once, 999 atoms, 999 bonds or 12 neighbours of an
/// atom. `NoMemory` may come at any text. `Aromatic` never comes.
pub fn read_smiles(alloc: Global, text: &[u8]) -> Result<Sketch, SmilesFault>
    ensures reading { IsReading text.now result }
    ensures sound { IfOk result (λ s. IsSound s) }
    ensures few_hydrogens { IfOk result (λ s. All (λ a. a.hydrogens ≤ 9) s.atoms) }
{
    let arena = Bump::new(alloc);
    read_smiles_in(alloc, &arena, text)
}

/// As `read_smiles`, but with working memory from an arena, for one text after another.
pub fn read_smiles_in(alloc: Global, arena: &Bump, text: &[u8]) -> Result<Sketch, SmilesFault>
    ensures reading { IsReading text.now result }
    ensures sound { IfOk result (λ s. IsSound s) }
    ensures few_hydrogens { IfOk result (λ s. All (λ a. a.hydrogens ≤ 9) s.atoms) }
{
    if text.len() > MOST_BYTES {
        return Err(SmilesFault::Limit);
    }
    let graph = read_graph::<Smiles>(alloc, arena, text)?;
    if !has_few_parts(&graph) {
        return Err(SmilesFault::Limit);
    }
    let sketch = sketch(alloc, graph)?;
    if !are_few_neighbours(alloc, sketch.atoms.len(), &sketch.bonds)? {
        return Err(SmilesFault::Limit);
    }
    Ok(sketch)
}

/// A law: a text has at most one tree.
pub fn one_tree()
    ensures { (text : List ℕ) (s t : Tree) → IsTreeOf text s → IsTreeOf text t → s ≡ t }
{
    line_walk::one_tree::<Smiles>();
}

/// A law: except for want of memory, a text has one reading.
pub fn one_reading()
    ensures { (text : List ℕ) (a b : Result SketchTerm SmilesFault) → IsReading text a → IsReading text b
        → (a ≡ b) ⊎ (a ≡ Err SmilesFault.NoMemory) ⊎ (b ≡ Err SmilesFault.NoMemory) }
{
    line_walk::one_tree::<Smiles>();
    line_walk::one_graph::<Smiles>();
}
