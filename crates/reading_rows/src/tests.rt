//! The tables, a file for each part.
ghost use Rattle.std.specs.Prelude.{◌≡◌, IfOk, length};
ghost use Rattle.chem_core.specs.Molecule.{IsAtom};

use chem_core::{Atom, Mol};
use std::alloc::{AllocError, Global};

mod hydrogens;
mod molfiles;
mod parts;
mod patterns;
mod primitives;
mod prints;
mod rings;
mod same;
mod similar;
mod sorts;
mod structures;
mod texts;

// An atom with four hydrogens.
const CARBON: Atom = Atom {
    number: 6,
    isotope: 0,
    charge: 0,
    hydrogens: 4,
    aromatic: false,
    valence: 4,
};

// A molecule of one atom.
fn alone(alloc: Global, atom: Atom) -> Result<Mol, AllocError>
    requires { IsAtom atom }
    ensures { IfOk result (λ mol. length mol.atoms ≡ 1) }
{
    let atoms = [atom].to_vec(alloc)?;
    let smallest = [0].to_vec(alloc)?;
    let component = [0].to_vec(alloc)?;
    Mol::make(
        alloc,
        atoms,
        Vec::new(alloc),
        Vec::new(alloc),
        smallest,
        component,
    )
}
