//! The number of an atom's neighbours that are hydrogen, and of its bonds that are ring bonds.
ghost use Rattle.std.specs.Prelude.{◌≡◌, ◌<◌, ◌≤◌, ◌↔◌, length, IsTrue};
ghost use Rattle.chem_core.specs.Graph.{degree, IsRingAtom, IsRingBondCount};
ghost use Rattle.chem_core.specs.Molecule.{ends_of};
ghost use Rattle.smarts_parse.specs.Truth.{hydrogen_neighbours};

use chem_core::Mol;

/// The number of neighbours of the atom.
pub fn degree_of(mol: &Mol, atom: u16) -> usize
    requires { atom < length mol.now.atoms }
    ensures value { result ≡ degree (ends_of mol.now) atom }
    ensures few { result ≤ 12 }
{
    mol.neighbours(atom).len()
}

/// The number of neighbours of the atom that are hydrogen.
pub fn hydrogen_count(mol: &Mol, atom: u16) -> usize
    requires { atom < length mol.now.atoms }
    ensures value { result ≡ hydrogen_neighbours mol.now atom }
    ensures few { result ≤ 12 }
{
    let neighbours = mol.neighbours(atom);
    let atoms = mol.atoms();
    let mut count = 0;
    for (neighbour, _) in neighbours {
        if atoms[usize::from(*neighbour)].number == 1 {
            count += 1;
        }
    }
    count
}

/// The number of the atom's bonds that are ring bonds.
pub fn ring_bond_count(mol: &Mol, atom: u16) -> usize
    requires { atom < length mol.now.atoms }
    ensures { IsRingBondCount (ends_of mol.now) atom result }
{
    let neighbours = mol.neighbours(atom);
    let mut count = 0;
    for (_, bond) in neighbours {
        if mol.ring_bond(*bond) {
            count += 1;
        }
    }
    count
}

/// True if the atom is in a ring.
pub fn is_ring_atom(mol: &Mol, atom: u16) -> bool
    requires { atom < length mol.now.atoms }
    ensures { IsTrue result ↔ IsRingAtom (ends_of mol.now) atom }
{
    mol.small(atom) != 0
}
