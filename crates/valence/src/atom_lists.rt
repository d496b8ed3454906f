//! The atoms that go, and the new places of the others: one list for each fact, by the atom's place.
ghost use Rattle.std.specs.Prelude.{◌≡◌, ◌≢◌, ◌<◌, ◌≤◌, ◌==◌, ◌&&◌, not, ℕ, length, count_by, slice_index, slice_index_or, false, All};
ghost use Rattle.std.specs.List.{list_any};
ghost use Rattle.chem_core.specs.Sketch.{ends_at};
ghost use Rattle.valence.specs.Suppressed.{is_single_kind, is_plain_hydrogen, leads_to_heavy, is_suppressed, new_place, brings};

use chem_core::{MOST_ATOMS, MOST_NEIGHBOURS, SketchAtom, SketchBond, SketchKind};

/// True if an atom is hydrogen without isotope and charge: no other becomes a count.
pub(crate) fn has_plain_hydrogen(atoms: &[SketchAtom]) -> bool
    ensures { result ≡ list_any is_plain_hydrogen atoms.now }
{
    atoms.iter().any(is_plain)
}

/// For each atom, true if it becomes a count at its neighbour.
pub(crate) fn suppressed_atoms(atoms: &[SketchAtom], bonds: &[SketchBond]) -> [bool; MOST_ATOMS]
    requires few { length atoms.now ≤ MOST_ATOMS }
    requires in_range { All (λ b. (b.a < length atoms.now) × (b.b < length atoms.now)) bonds.now }
    requires distinct { All (λ b. b.a ≢ b.b) bonds.now }
    requires few_neighbours { (a : ℕ) → count_by (ends_at a) bonds.now ≤ MOST_NEIGHBOURS }
    ensures { (a : ℕ) → slice_index_or result a false
        ≡ is_suppressed (record { atoms = atoms.now; bonds = bonds.now }) a }
{
    let degrees = degrees(bonds);
    let leads = heavy_neighbours(atoms, bonds);
    let mut goes = [false; MOST_ATOMS];
    for (place, atom) in atoms.iter().enumerate() {
        goes[place] = is_taken(atom, degrees[place], leads[place]);
    }
    goes
}

/// The number of neighbours of each atom that go.
pub(crate) fn gains(bonds: &[SketchBond], goes: &[bool]) -> [u8; MOST_ATOMS]
    requires long { length goes.now ≡ MOST_ATOMS }
    requires in_range { All (λ b. (b.a < MOST_ATOMS) × (b.b < MOST_ATOMS)) bonds.now }
    requires distinct { All (λ b. b.a ≢ b.b) bonds.now }
    requires few { (a : ℕ) → count_by (ends_at a) bonds.now ≤ MOST_NEIGHBOURS }
    ensures { (a : ℕ) → slice_index result a
        ≡ count_by (brings (λ k. slice_index_or goes.now k false) a) bonds.now }
{
    let mut gains = [0; MOST_ATOMS];
    for bond in bonds {
        let (a, b) = (usize::from(bond.a), usize::from(bond.b));
        gains[a] += u8::from(goes[b]);
        gains[b] += u8::from(goes[a]);
    }
    gains
}

/// For each atom, the number of atoms before it that stay.
pub(crate) fn new_places(goes: &[bool]) -> [u16; MOST_ATOMS]
    requires { length goes.now ≤ MOST_ATOMS }
    ensures { (a : ℕ) → a < length goes.now
        → slice_index result a ≡ new_place (λ k. slice_index_or goes.now k false) a }
{
    let mut places = [0; MOST_ATOMS];
    let mut kept = 0;
    for (place, gone) in goes.iter().enumerate() {
        places[place] = kept;
        kept += u16::from(!*gone);
    }
    places
}

fn is_plain(atom: &SketchAtom) -> bool
    ensures { result ≡ is_plain_hydrogen atom.now }
{
    atom.number == 1 && atom.isotope == 0 && atom.charge == 0
}

// True if the atom becomes a count: a plain hydrogen with one neighbour. `leads`: a single bond joins it to a heavy
// atom.
fn is_taken(atom: &SketchAtom, degree: u8, leads: bool) -> bool
    ensures { result ≡ (is_plain_hydrogen atom.now && ((degree == 1) && leads)) }
{
    is_plain(atom) && degree == 1 && leads
}

// The number of neighbours of each atom.
fn degrees(bonds: &[SketchBond]) -> [u8; MOST_ATOMS]
    requires in_range { All (λ b. (b.a < MOST_ATOMS) × (b.b < MOST_ATOMS)) bonds.now }
    requires distinct { All (λ b. b.a ≢ b.b) bonds.now }
    requires few { (a : ℕ) → count_by (ends_at a) bonds.now ≤ MOST_NEIGHBOURS }
    ensures { (a : ℕ) → slice_index result a ≡ count_by (ends_at a) bonds.now }
{
    let mut degrees = [0; MOST_ATOMS];
    for bond in bonds {
        degrees[usize::from(bond.a)] += 1;
        degrees[usize::from(bond.b)] += 1;
    }
    degrees
}

// For each atom, true if it has a plain bond to an atom that is not hydrogen.
fn heavy_neighbours(atoms: &[SketchAtom], bonds: &[SketchBond]) -> [bool; MOST_ATOMS]
    requires few { length atoms.now ≤ MOST_ATOMS }
    requires in_range { All (λ b. (b.a < length atoms.now) × (b.b < length atoms.now)) bonds.now }
    requires distinct { All (λ b. b.a ≢ b.b) bonds.now }
    ensures { (a : ℕ) → slice_index_or result a false ≡ list_any (leads_to_heavy atoms.now a) bonds.now }
{
    let mut leads = [false; MOST_ATOMS];
    for bond in bonds {
        let (a, b) = (usize::from(bond.a), usize::from(bond.b));
        leads[a] |= is_single_to_heavy(bond.kind, &atoms[b]);
        leads[b] |= is_single_to_heavy(bond.kind, &atoms[a]);
    }
    leads
}

// True if a bond to the atom is plain, and the atom not hydrogen.
fn is_single_to_heavy(kind: SketchKind, atom: &SketchAtom) -> bool
    ensures { result ≡ (is_single_kind kind && not (atom.now.number == 1)) }
{
    matches!(kind, SketchKind::Unwritten | SketchKind::Single) && atom.number != 1
}
