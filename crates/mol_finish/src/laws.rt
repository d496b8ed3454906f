//! A law of structures, which callers need without reading a text.
ghost use Rattle.std.specs.Prelude.{ℕ, List};
ghost use Rattle.chem_core.specs.Molecule.{Molecule, IsMolecule};
ghost use Rattle.mol_finish.specs.declared.fault.Format.{Format};
ghost use Rattle.mol_finish.specs.Structure.{HasMolecule};

/// A law: the structure of a text is a molecule.
pub fn structures_are_molecules()
    ensures { (format : Format) (text : List ℕ) (m : Molecule) → HasMolecule format text m → IsMolecule m }
{
    smiles_read::readings_are_sound();
    molfile_read::readings_are_sound();
    valence::sound_stays();
}
