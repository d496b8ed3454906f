//! The hydrogens that are not written.
ghost use Rattle.std.specs.Prelude.{◌≡◌, ◌≢◌, ◌<◌, ◌≤◌, ℕ, length, map, sum_by, slice_index, All};
ghost use Rattle.std.specs.List.{enumerate_from};
ghost use Rattle.chem_core.specs.Sound.{IsSound, IsSketchAtom};
ghost use Rattle.valence.specs.Valence.{adds};
ghost use Rattle.valence.specs.Filled.{missing, missing_aromatic, hydrogens_of, filled_atom, filled};

use crate::table::{charged, organic};
use chem_core::{Fill, MOST_ATOMS, Sketch, SketchAtom, SketchBond};

/// Counts the hydrogens that are not written. Each atom says by which valences: those of the organic subset (OpenSMILES
/// 1.0, section 3.1.5, and at aromatic atoms 3.5), those of molfiles (CTfile formats), or a written one. Takes no
/// memory.
pub fn fill_hydrogens(sketch: &mut Sketch)
    requires { IsSound sketch.old }
    ensures filled { sketch.new ≡ filled sketch.old }
    ensures sound { IsSound sketch.new }
    ensures few { All (λ a. a.hydrogens ≤ 9) sketch.old.atoms
        → All (λ a. a.hydrogens ≤ 15) sketch.new.atoms }
{
    let sums = bond_sums(&sketch.bonds);
    fill(&mut sketch.atoms, &sums);
}

// For each atom, by its place, the sum of its bonds.
fn bond_sums(bonds: &[SketchBond]) -> [u8; MOST_ATOMS]
    requires in_range { All (λ b. (b.a < MOST_ATOMS) × (b.b < MOST_ATOMS)) bonds.now }
    requires distinct { All (λ b. b.a ≢ b.b) bonds.now }
    requires few { (a : ℕ) → sum_by (adds a) bonds.now ≤ 48 }
    ensures { (a : ℕ) → slice_index result a ≡ sum_by (adds a) bonds.now }
{
    let mut sums = [0; MOST_ATOMS];
    for bond in bonds {
        let order = bond.kind.order();
        sums[usize::from(bond.a)] += order;
        sums[usize::from(bond.b)] += order;
    }
    sums
}

// Gives each atom the hydrogens that it has if its bonds have this sum.
fn fill(atoms: &mut [SketchAtom], sums: &[u8])
    requires long { length atoms.old ≤ length sums.now }
    requires few { (a : ℕ) → slice_index sums.now a ≤ 48 }
    requires valid { All IsSketchAtom atoms.old }
    ensures { atoms.new
        ≡ map (λ p. filled_atom (slice_index sums.now p.0) p.1) (enumerate_from 0 atoms.old) }
{
    for (place, atom) in atoms.iter_mut().enumerate() {
        atom.hydrogens = hydrogens(*atom, sums[place]);
    }
}

// The hydrogens of an atom whose bonds sum to the total.
fn hydrogens(atom: SketchAtom, total: u8) -> u8
    requires few { total ≤ 48 }
    requires valid { IsSketchAtom atom }
    ensures { result ≡ hydrogens_of atom.fill atom total }
{
    match atom.fill {
        Fill::Given => atom.hydrogens,
        Fill::Organic if atom.lower => lacking_aromatic(organic(atom.number), total),
        Fill::Organic => lacking(organic(atom.number), total),
        Fill::Table { radicals } => lacking(charged(atom.number, atom.charge), total + radicals),
        Fill::Fixed { valence } => valence.saturating_sub(total),
    }
}

// `valence - total` for the least valence that is at least `total`; 0 if all are less.
fn lacking(valences: &[u8], total: u8) -> u8
    ensures { result ≡ missing valences.now total }
{
    let valence = valences.iter().find(|v| **v >= total);
    valence.map_or(0, |v| *v - total)
}

// As `lacking`, at an aromatic atom, which has one bond more: by the first valence alone.
fn lacking_aromatic(valences: &[u8], total: u8) -> u8
    ensures { result ≡ missing_aromatic valences.now total }
{
    match valences {
        [first, ..] => first.saturating_sub(total).saturating_sub(1),
        [] => 0,
    }
}
