//! The number of bonds that lead from one atom to others.
ghost use Rattle.std.specs.Prelude.{◌≡◌, ◌<◌, ◌≤◌, ◌+◌, ℕ, List, length, take};
ghost use Rattle.chem_core.specs.Molecule.{IsMolecule};
ghost use Rattle.exact_find.specs.Levels.{AreFree, IsReached, IsSpread};

use chem_core::Mol;

/// The level of an atom that is not reached.
pub const FAR: u16 = 0xFFFF;

/// The level of an atom in a pair. It is not passed.
pub const IN_PAIR: u16 = 0xFFFE;

/// Lists the atoms that hang on an atom, that atom first, and sets their levels: the number of bonds that lead to them.
/// Bonds lead through atoms that are `FAR` before. Returns the number of atoms.
pub fn reach(mol: &Mol, start: u16, levels: &mut [u16], list: &mut [u16]) -> usize
    requires molecule { IsMolecule mol.now }
    requires in_range { start < length mol.now.atoms }
    requires room { length mol.now.atoms ≤ length levels.old }
    requires list_room { length mol.now.atoms ≤ length list.old }
    requires clear { AreFree (length mol.now.atoms) levels.old }
    ensures few { result ≤ length list.old }
    ensures reached { IsReached mol.now start levels.old levels.new (take result list.new) }
{
    levels[usize::from(start)] = 0;
    list[0] = start;
    let mut last = 1;
    let mut at = 0;
    while at < last {
        last = reach_from(mol, levels, list, at, last);
        at += 1;
    }
    last
}

// Lists the neighbours, not listed before, of the atom at a place of the list. Returns the number of listed atoms.
fn reach_from(mol: &Mol, levels: &mut [u16], list: &mut [u16], at: usize, before: usize) -> usize
    requires room { length mol.now.atoms ≤ length levels.old }
    requires list_room { length mol.now.atoms ≤ length list.old }
    requires further { at < before }
    requires spread { (start : ℕ) × (initial : List ℕ) × IsSpread mol.now start initial levels.old list.old at before }
    ensures spread { (start : ℕ) (initial : List ℕ) → IsSpread mol.now start initial levels.old list.old at before
        → IsSpread mol.now start initial levels.new list.new (at + 1) result }
{
    let atom = list[at];
    let level = levels[usize::from(atom)] + 1;
    let mut last = before;
    let neighbours = mol.neighbours(atom);
    for (neighbour, _) in neighbours {
        let place = usize::from(*neighbour);
        if levels[place] == FAR {
            levels[place] = level;
            list[last] = *neighbour;
            last += 1;
        }
    }
    last
}
