//! The molecule of a sketch with known aromatic atoms and bonds.
ghost use Rattle.std.specs.Prelude.{◌≡◌, length, IfOk};
ghost use Rattle.chem_core.specs.Sound.{IsSound, sketch_ends};
ghost use Rattle.chem_core.specs.RingFacts.{AreRingBonds, AreSmallestRings};
ghost use Rattle.mol_finish.specs.Meant.{written_kind, meant_kind, meant_atom, meant_bond, meant_atoms, meant_bonds, meant};

use crate::components::components;
use aromatic::Arom;
use bumpalo::Bump;
use chem_core::{Adjacency, Atom, Bond, BondKind, Mol, Sketch, SketchAtom, SketchBond, SketchKind};
use ring_find::Rings;
use std::alloc::{AllocError, Global};

/// The molecule that a sketch means, given its aromatic atoms and bonds, its valences and its rings. Fails only for
/// want of memory.
pub(crate) fn molecule(
    alloc: Global,
    arena: &Bump,
    sketch: &Sketch,
    adjacency: &Adjacency<'_>,
    found: &Arom<&Bump>,
    rings: Rings,
) -> Result<Mol, AllocError>
    requires sound { IsSound sketch.now }
    requires adjacency { adjacency.now ≡ record {
      atoms = length sketch.now.atoms;
      ends = sketch_ends sketch.now;
    } }
    requires atom_flags { length found.now.atoms.items ≡ length sketch.now.atoms }
    requires bond_flags { length found.now.bonds.items ≡ length sketch.now.bonds }
    requires sums { length found.now.valences.items ≡ length sketch.now.atoms }
    requires ring_bonds { AreRingBonds (sketch_ends sketch.now) rings.bond_in_ring.items }
    requires smallest { AreSmallestRings (length sketch.now.atoms) (sketch_ends sketch.now) rings.atom_small.items }
    ensures { IfOk result
        (λ mol. mol ≡ meant sketch.now found.now.atoms.items found.now.bonds.items found.now.valences.items) }
{
    let atoms = atoms(alloc, &sketch.atoms, &found.atoms, &found.valences)?;
    let bonds = bonds(alloc, &sketch.bonds, &found.bonds)?;
    let components = components(alloc, arena, adjacency)?;
    Mol::make_along(
        alloc,
        atoms,
        bonds,
        adjacency,
        rings.bond_in_ring,
        rings.atom_small,
        components,
    )
}

// The kind of a bond that is not aromatic.
fn written_kind(kind: SketchKind) -> BondKind
    ensures { result ≡ written_kind kind }
{
    match kind {
        SketchKind::Unwritten | SketchKind::Single | SketchKind::Colon => BondKind::Single,
        SketchKind::Double => BondKind::Double,
        SketchKind::Triple => BondKind::Triple,
        SketchKind::Quad => BondKind::Quad,
    }
}

fn meant_kind(aromatic: bool, kind: SketchKind) -> BondKind
    ensures { result ≡ meant_kind aromatic kind }
{
    if aromatic {
        BondKind::Aromatic
    } else {
        written_kind(kind)
    }
}

fn meant_atom(atom: &SketchAtom, aromatic: bool, valence: u8) -> Atom
    ensures { result ≡ meant_atom aromatic valence atom.now }
{
    Atom {
        number: atom.number,
        isotope: atom.isotope,
        charge: atom.charge,
        hydrogens: atom.hydrogens,
        aromatic,
        valence,
    }
}

fn meant_bond(bond: &SketchBond, aromatic: bool) -> Bond
    ensures { result ≡ meant_bond aromatic bond.now }
{
    Bond {
        a: bond.a,
        b: bond.b,
        kind: meant_kind(aromatic, bond.kind),
    }
}

fn atoms(
    alloc: Global,
    sketch: &[SketchAtom],
    aromatic: &[bool],
    valences: &[u8],
) -> Result<Vec<Atom>, AllocError>
    requires flags { length aromatic.now ≡ length sketch.now }
    requires sums { length valences.now ≡ length sketch.now }
    ensures { IfOk result (λ atoms. atoms.items ≡ meant_atoms aromatic.now valences.now sketch.now) }
{
    let mut atoms = Vec::with_capacity(alloc, sketch.len())?;
    for (place, atom) in sketch.iter().enumerate() {
        atoms.push(meant_atom(atom, aromatic[place], valences[place]))?;
    }
    Ok(atoms)
}

fn bonds(alloc: Global, sketch: &[SketchBond], aromatic: &[bool]) -> Result<Vec<Bond>, AllocError>
    requires { length aromatic.now ≡ length sketch.now }
    ensures { IfOk result (λ bonds. bonds.items ≡ meant_bonds aromatic.now sketch.now) }
{
    let mut bonds = Vec::with_capacity(alloc, sketch.len())?;
    for (place, bond) in sketch.iter().enumerate() {
        bonds.push(meant_bond(bond, aromatic[place]))?;
    }
    Ok(bonds)
}
