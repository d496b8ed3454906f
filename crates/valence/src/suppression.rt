//! Hydrogen atoms that become counts at their neighbours.
ghost use Rattle.std.specs.Prelude.{◌≡◌, ◌<◌, ◌≤◌, ℕ, length, map, slice_index, slice_index_or, false, take, All};
ghost use Rattle.chem_core.specs.Sound.{IsSound};
ghost use Rattle.valence.specs.Suppressed.{staying_atoms, staying_bonds, stays, renumbered, suppressed};

use crate::atom_lists::{gains, has_plain_hydrogen, new_places, suppressed_atoms};
use chem_core::{MOST_NEIGHBOURS, Sketch, SketchAtom, SketchBond};

/// Turns plain hydrogen atoms into counts at their neighbours, all at once. These are without isotope and charge. Their
/// only bond has no symbol or `-`, and leads to an atom that is not hydrogen. The others stay, as the Daylight Theory
/// Manual, chapter SMILES, requires: isotopes, charged hydrogens, and those joined to a hydrogen or to other than one
/// atom. The order is kept. Takes no memory.
pub fn suppress(sketch: &mut Sketch)
    requires sound { IsSound sketch.old }
    requires few { All (λ a. a.hydrogens ≤ 15) sketch.old.atoms }
    ensures suppressed { sketch.new ≡ suppressed sketch.old }
    ensures sound { IsSound sketch.new }
{
    if has_plain_hydrogen(&sketch.atoms) {
        take_hydrogens(sketch);
    }
}

// As `suppress`, whatever the atoms are.
fn take_hydrogens(sketch: &mut Sketch)
    requires sound { IsSound sketch.old }
    requires few { All (λ a. a.hydrogens ≤ 15) sketch.old.atoms }
    ensures suppressed { sketch.new ≡ suppressed sketch.old }
    ensures sound { IsSound sketch.new }
{
    let goes = suppressed_atoms(&sketch.atoms, &sketch.bonds);
    let gains = gains(&sketch.bonds, &goes);
    let places = new_places(&goes[..sketch.atoms.len()]);
    keep_atoms(&mut sketch.atoms, &goes, &gains);
    keep_bonds(&mut sketch.bonds, &goes, &places);
}

// Keeps the atoms that stay, with the hydrogens that they gain.
fn keep_atoms(atoms: &mut Vec<SketchAtom>, goes: &[bool], gains: &[u8])
    requires goes { length atoms.old.items ≤ length goes.now }
    requires gains { length atoms.old.items ≤ length gains.now }
    requires few { All (λ a. a.hydrogens ≤ 15) atoms.old.items }
    requires few_more { (a : ℕ) → slice_index gains.now a ≤ MOST_NEIGHBOURS }
    ensures { atoms.new.items
        ≡ staying_atoms (λ k. slice_index_or goes.now k false) (λ k. slice_index gains.now k) atoms.old.items }
{
    let kept = to_front(atoms, goes, gains);
    atoms.truncate(kept);
}

// Moves the atoms that stay to the front, with the hydrogens that they gain, and returns their number.
fn to_front(atoms: &mut [SketchAtom], goes: &[bool], gains: &[u8]) -> usize
    requires goes { length atoms.old ≤ length goes.now }
    requires gains { length atoms.old ≤ length gains.now }
    requires few { All (λ a. a.hydrogens ≤ 15) atoms.old }
    requires few_more { (a : ℕ) → slice_index gains.now a ≤ MOST_NEIGHBOURS }
    ensures { take result atoms.new
        ≡ staying_atoms (λ k. slice_index_or goes.now k false) (λ k. slice_index gains.now k) atoms.old }
{
    let mut kept = 0;
    for place in 0..atoms.len() {
        let gone = goes[place];
        if !gone {
            let mut atom = atoms[place];
            atom.hydrogens += gains[place];
            atoms[kept] = atom;
            kept += 1;
        }
    }
    kept
}

// Keeps the bonds between atoms that stay, by the new places of these.
fn keep_bonds(bonds: &mut Vec<SketchBond>, goes: &[bool], places: &[u16])
    requires { All (λ b. (b.a < length places.now) × (b.b < length places.now)) bonds.old.items }
    ensures { bonds.new.items
        ≡ staying_bonds (λ k. slice_index_or goes.now k false) (λ k. slice_index places.now k) bonds.old.items }
{
    bonds.retain(|bond| is_kept(bond, goes));
    renumber(bonds, places);
}

fn is_kept(bond: &SketchBond, goes: &[bool]) -> bool
    ensures { result ≡ stays (λ k. slice_index_or goes.now k false) bond.now }
{
    let goes = |place: u16| goes.get(usize::from(place)) == Some(&true);
    !goes(bond.a) && !goes(bond.b)
}

// Gives each bond the new places of its ends.
fn renumber(bonds: &mut [SketchBond], places: &[u16])
    requires { All (λ b. (b.a < length places.now) × (b.b < length places.now)) bonds.old }
    ensures { bonds.new ≡ map (renumbered (λ k. slice_index places.now k)) bonds.old }
{
    for bond in bonds.iter_mut() {
        bond.a = places[usize::from(bond.a)];
        bond.b = places[usize::from(bond.b)];
    }
}
