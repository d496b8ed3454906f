//! Keys of molecules: counts and sums that equal structures share.
ghost use Rattle.std.specs.Prelude.{◌≡◌, ◌<◌, ◌*◌, ◌^◌, Some, length, slice_get};
ghost use Rattle.chem_core.specs.declared.mol.Atom.{Atom};
ghost use Rattle.chem_core.specs.Molecule.{IsAtom, IsMolecule};
ghost use Rattle.exact_find.specs.Key.{IsKey, atom_code, code};

use chem_core::{Atom, Mol};

/// The counts of atoms and bonds, and the sums of the atoms' codes and of the squares of these.
///
/// The code of an atom is `((((number * 1000 + isotope) * 31 + charge + 15) * 256 + hydrogens) * 2 + aromatic) * 13 +
/// neighbours`, where `aromatic` is 1 or 0.
#[derive(Clone, Copy, Debug, PartialEq, Eq)]
pub struct Key {
    pub atoms: u16,
    pub bonds: u16,
    pub sum: u64,
    pub squares: u128,
}

/// The key of a molecule. Takes no memory.
pub fn key_of(mol: &Mol) -> Key
    ensures key { IsKey mol.now result }
    ensures valid { IsMolecule mol.now }
{
    let mut sum = 0;
    let mut squares = 0;
    for place in 0..mol.atoms().len() {
        let code = code_of(mol, place);
        sum += code;
        squares += square(code);
    }
    Key {
        atoms: mol.atoms().len() as u16,
        bonds: mol.bonds().len() as u16,
        sum,
        squares,
    }
}

/// The code of the atom at a place.
pub fn code_of(mol: &Mol, place: usize) -> u64
    requires { place < length mol.now.atoms }
    ensures value { (atom : Atom) → slice_get mol.now.atoms place ≡ Some atom
        → result ≡ code mol.now (place, atom) }
    ensures few { result < 2 ^ 35 }
{
    let atoms = mol.atoms();
    digits(&atoms[place]) * 13 + mol.neighbours(place as u16).len() as u64
}

// The part of the code that depends on the atom alone.
fn digits(atom: &Atom) -> u64
    requires { IsAtom atom.now }
    ensures value { result ≡ atom_code atom.now }
    ensures few { result < 1700000000 }
{
    let mass = u64::from(atom.number) * 1000 + u64::from(atom.isotope);
    let charge = (i16::from(atom.charge) + 15) as u64;
    ((mass * 31 + charge) * 256 + u64::from(atom.hydrogens)) * 2 + u64::from(atom.aromatic)
}

fn square(code: u64) -> u128
    requires { code < 2 ^ 35 }
    ensures value { result ≡ code * code }
    ensures few { result < 2 ^ 70 }
{
    u128::from(code) * u128::from(code)
}
