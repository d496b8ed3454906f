//! Aromatic atoms and bonds of a sketch, and the valence of each atom.
ghost use Rattle.std.specs.Prelude.{◌≡◌, ◌<◌, ◌≤◌, length, map, slice_index_or, All, IfOk, IfErr, IfSome, IfNone, false};
ghost use Rattle.std.specs.List.{enumerate_from};
ghost use Rattle.chem_core.specs.RingFacts.{AreRingBonds};
ghost use Rattle.chem_core.specs.Sound.{IsSketchAtom, IsSound, ends_among, sketch_ends};
ghost use Rattle.aromatic.specs.Electrons.{candidate_row, electrons, row_at};
ghost use Rattle.aromatic.specs.Huckel.{IsFaultOf, IsPerceived, adds_by};
ghost use Rattle.aromatic.specs.Route.{AreRows};
ghost use Rattle.aromatic.specs.Tallies.{IsFirstToPass, NonePasses, refused_at, refused_by, valence_at, valence_told};

use crate::bond_tallies::{Tally, tallies};
use crate::environment::{Environment, environment_of, environments};
use crate::huckel::{find_atoms, find_bonds};
use crate::table::Row;
use bumpalo::Bump;
use chem_core::{Sketch, SketchAtom, SketchBond};
use std::alloc::{AllocError, Allocator, Global};
use thiserror::Error;

/// The result of perception: the aromatic atoms and bonds, and the valence of each atom, by their places.
#[derive(Debug, Drop)]
pub struct Arom<A: Allocator = Global> {
    pub atoms: Vec<bool, A>,
    pub bonds: Vec<bool, A>,
    /// The sum of an atom's bond orders, aromatic bonds as 1, and its hydrogens. An aromatic atom that gives one
    /// electron has 1 more. It has not if the electron is that of a double bond in a ring that is not aromatic.
    pub valences: Vec<u8, A>,
}

/// Why perception fails.
#[derive(Clone, Copy, Debug, PartialEq, Eq, Drop, Error)]
pub enum AromFault {
    /// The first atom that is written in lower case and is not aromatic, or is not in lower case and has a bond `:`.
    /// The number is its place as written.
    #[error("atom {0} is not aromatic")]
    Aromatic(u16),
    /// Memory ran out.
    #[error("out of memory")]
    NoMemory,
}

impl From<AllocError> for AromFault {
    ghost use Rattle.aromatic.specs.declared.perception.AromFault.TheVariants.{NoMemory};

    ghost from_gives = { λ _ e. e ≡ NoMemory };

    fn from(_: AllocError) -> AromFault {
        AromFault::NoMemory
    }
}

/// The aromatic atoms and bonds of a sketch, and the valence of each atom, by the rows of this project's table. An atom
/// or bond is aromatic if it lies on a simple cycle of 3 to 18 candidates whose electrons sum to 2 modulo 4.
///
/// Fails at the first atom that is written in lower case and is not aromatic, or is not in lower case and has a bond
/// `:`. Also fails for want of memory.
///
/// Most structures take time linear in their atoms and bonds. A search for each ring bond between candidates follows
/// paths of at most 18 atoms, with at most two ways on from each. So one search takes at most 2^17 paths; a bond that
/// lies on no such cycle is left out of all later searches. The worst known structure, found by a search for bad ones,
/// takes some two million steps in all; drug-like structures take some hundred. `bench/aromatic.sh` has it.
pub fn perceive(alloc: Global, sketch: &Sketch, bond_in_ring: &[bool]) -> Result<Arom, AromFault>
    requires sound { IsSound sketch.now }
    requires rings { AreRingBonds (sketch_ends sketch.now) bond_in_ring.now }
    ensures perceived { IfOk result (λ r. IsPerceived sketch.now bond_in_ring.now
        r.atoms.items r.bonds.items r.valences.items) }
    ensures refused { IfErr result (λ e. IsFaultOf sketch.now bond_in_ring.now e) }
{
    let arena = Bump::new(alloc);
    let found = perceive_in(&arena, sketch, bond_in_ring)?;
    Ok(Arom {
        atoms: found.atoms.to_vec(alloc)?,
        bonds: found.bonds.to_vec(alloc)?,
        valences: found.valences.to_vec(alloc)?,
    })
}

/// As `perceive`, but with all memory from an arena, for one sketch after another.
pub fn perceive_in<'a>(
    arena: &'a Bump,
    sketch: &Sketch,
    bond_in_ring: &[bool],
) -> Result<Arom<&'a Bump>, AromFault>
    requires sound { IsSound sketch.now }
    requires rings { AreRingBonds (sketch_ends sketch.now) bond_in_ring.now }
    ensures perceived { IfOk result (λ r. IsPerceived sketch.now bond_in_ring.now
        r.atoms.items r.bonds.items r.valences.items) }
    ensures refused { IfErr result (λ e. IsFaultOf sketch.now bond_in_ring.now e) }
{
    perceive_lists(arena, &sketch.atoms, &sketch.bonds, bond_in_ring)
}

/// The electrons that an atom gives to an aromatic ring; `None` if it is not a candidate. Takes no memory.
pub fn electrons(sketch: &Sketch, bond_in_ring: &[bool], atom: u16) -> Option<u8>
    requires sound { IsSound sketch.now }
    requires rings { AreRingBonds (sketch_ends sketch.now) bond_in_ring.now }
    requires in_range { atom < length sketch.now.atoms }
    ensures { result ≡ electrons sketch.now bond_in_ring.now atom }
{
    row_at(&sketch.atoms, &sketch.bonds, bond_in_ring, atom).map(|row| row.electrons)
}

fn perceive_lists<'a>(
    arena: &'a Bump,
    atoms: &[SketchAtom],
    bonds: &[SketchBond],
    bond_in_ring: &[bool],
) -> Result<Arom<&'a Bump>, AromFault>
    requires sound { IsSound (record { atoms = atoms.now; bonds = bonds.now }) }
    requires rings { AreRingBonds (ends_among bonds.now) bond_in_ring.now }
    ensures perceived { IfOk result (λ r. IsPerceived (record { atoms = atoms.now; bonds = bonds.now })
        bond_in_ring.now r.atoms.items r.bonds.items r.valences.items) }
    ensures refused { IfErr result (λ e. IsFaultOf (record { atoms = atoms.now; bonds = bonds.now })
        bond_in_ring.now e) }
{
    let rows = rows_of(arena, atoms, bonds, bond_in_ring)?;
    let marks = find_bonds(arena, atoms, bonds, bond_in_ring, &rows)?;
    let flags = find_atoms(arena, atoms, bonds, bond_in_ring, &marks)?;
    let tallies = tallies(arena, atoms.len(), bonds, &marks)?;
    if let Some(written) = first_refused(atoms, &tallies, &flags) {
        return Err(AromFault::Aromatic(written));
    }
    let values = valences(arena, atoms, &tallies, &rows, &flags)?;
    Ok(Arom {
        atoms: flags,
        bonds: marks,
        valences: values,
    })
}

// The row of an atom; `None` if it is not a candidate.
fn row_at(
    atoms: &[SketchAtom],
    bonds: &[SketchBond],
    bond_in_ring: &[bool],
    atom: u16,
) -> Option<Row>
    requires sound { IsSound (record { atoms = atoms.now; bonds = bonds.now }) }
    requires rings { length bond_in_ring.now ≡ length bonds.now }
    requires in_range { atom < length atoms.now }
    ensures { result ≡ row_at (record { atoms = atoms.now; bonds = bonds.now }) bond_in_ring.now atom }
{
    environment_of(atoms, bonds, bond_in_ring, atom).row()
}

// The row of each atom; `None` if it is not a candidate.
fn rows_of<'a>(
    arena: &'a Bump,
    atoms: &[SketchAtom],
    bonds: &[SketchBond],
    bond_in_ring: &[bool],
) -> Result<Vec<Option<Row>, &'a Bump>, AllocError>
    requires sound { IsSound (record { atoms = atoms.now; bonds = bonds.now }) }
    requires rings { length bond_in_ring.now ≡ length bonds.now }
    ensures { IfOk result (λ rows. AreRows (record { atoms = atoms.now; bonds = bonds.now })
        bond_in_ring.now rows.items) }
{
    let environments = environments(arena, atoms, bonds, bond_in_ring)?;
    rows_by(arena, &environments)
}

fn rows_by<'a>(
    arena: &'a Bump,
    environments: &[Environment],
) -> Result<Vec<Option<Row>, &'a Bump>, AllocError>
    ensures { IfOk result (λ rows. rows.items ≡ map candidate_row environments.now) }
{
    environments.iter().map(Environment::row).collect(arena)
}

// The valence of an atom: its bond orders, its hydrogens, and 1 more if it is aromatic and its row adds one.
fn valence(atom: &SketchAtom, tally: Tally, row: Option<Row>, aromatic: bool) -> u8
    requires few { tally.bonded ≤ 48 }
    requires hydrogens { atom.now.hydrogens ≤ 27 }
    ensures { result ≡ valence_told tally row aromatic atom.now }
{
    let more = aromatic && adds_one(row, tally.aromatic_double);
    tally.bonded + atom.hydrogens + u8::from(more)
}

// True if the row gives one electron; a double bond in a ring that it names must have become aromatic.
fn adds_one(row: Option<Row>, aromatic_double: bool) -> bool
    ensures { result ≡ adds_by aromatic_double row }
{
    match row {
        None => false,
        Some(row) => row.electrons == 1 && (!row.by_ring_double() || aromatic_double),
    }
}

// The written place of the first refused atom, if there is one.
fn first_refused(atoms: &[SketchAtom], tallies: &[Tally], flags: &[bool]) -> Option<u16>
    requires tallies_each { length tallies.now ≡ length atoms.now }
    requires flags_each { length flags.now ≡ length atoms.now }
    ensures some { IfSome result (IsFirstToPass (refused_at flags.now tallies.now) atoms.now) }
    ensures none { IfNone result (NonePasses (refused_at flags.now tallies.now) atoms.now) }
{
    for (place, atom) in atoms.iter().enumerate() {
        if is_refused(atom, flags[place], tallies[place].colon) {
            return Some(atom.written);
        }
    }
    None
}

// True if an atom is refused, by whether it is aromatic and whether a bond `:` ends at it.
fn is_refused(atom: &SketchAtom, aromatic: bool, colon: bool) -> bool
    ensures { result ≡ refused_by aromatic colon atom.now }
{
    if atom.lower { !aromatic } else { colon }
}

// The valences of all atoms.
fn valences<'a>(
    arena: &'a Bump,
    atoms: &[SketchAtom],
    tallies: &[Tally],
    rows: &[Option<Row>],
    flags: &[bool],
) -> Result<Vec<u8, &'a Bump>, AllocError>
    requires valid { All IsSketchAtom atoms.now }
    requires few { All (λ t. t.bonded ≤ 48) tallies.now }
    requires tallies_each { length tallies.now ≡ length atoms.now }
    requires rows_each { length rows.now ≡ length atoms.now }
    requires flags_each { length flags.now ≡ length atoms.now }
    ensures { IfOk result (λ v. v.items ≡ map (λ p. valence_at flags.now tallies.now rows.now p.0 p.1)
        (enumerate_from 0 atoms.now)) }
{
    let mut values = Vec::with_capacity(arena, atoms.len())?;
    for (place, atom) in atoms.iter().enumerate() {
        values.push(valence(atom, tallies[place], rows[place], flags[place]))?;
    }
    Ok(values)
}
