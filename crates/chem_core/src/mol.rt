//! Molecules: atoms and bonds as they are meant, each atom's neighbours, rings, and components.
ghost use Rattle.std.specs.Prelude.{◌≡◌, ◌↔◌, ◌+◌, ◌<◌, ◌≤◌, ℕ, List, false, length, map, IsTrue, slice_index_or, IfOk, OnOk};
ghost use Rattle.std.specs.Int.{bit_at};
ghost use Rattle.chem_core.specs.Graph.{Ends, AreNeighbours, IsRingBond, IsSmallestRing, degree};
ghost use Rattle.chem_core.specs.Molecule.{IsMolecule, bond_ends, ends_of};
ghost use Rattle.chem_core.specs.Inside.{AreNeighboursInTurn, AreSortedBehind};
ghost use Rattle.chem_core.specs.RingFacts.{AreRingBonds, AreSmallestRings};
ghost use Rattle.chem_core.specs.Component.{Reaches, IsComponent, AreComponents};
ghost use Rattle.chem_core.specs.Sorts.{AreCounts};
ghost use Rattle.chem_core.specs.Symbols.{HasClass, HasSymbolAt};
ghost use Rattle.chem_core.specs.Words.{bits_of};

use crate::adjacency::{Adjacency, Step};
use crate::bits::{has_bit, set_bit};
use crate::limits::MOST_BONDS;
use crate::sort_counts::SortCounts;
use crate::symbols::Symbols;
use bumpalo::Bump;
use smallvec::SmallVec;
use std::alloc::{AllocError, Global};
use std::marker::Model;

/// An atom of a molecule.
#[derive(Clone, Copy, Debug, PartialEq, Eq)]
pub struct Atom {
    /// The atomic number, 0 to 103; 0 is an atom of any element, written `*`.
    pub number: u8,
    /// The mass number, at most 999; 0 if none is written.
    pub isotope: u16,
    /// -15 to 15.
    pub charge: i8,
    /// The number of hydrogens that are not atoms of the molecule.
    pub hydrogens: u8,
    pub aromatic: bool,
    /// The sum of its bond orders, aromatic bonds as 1, and its hydrogens. An aromatic atom has 1 more if its row in
    /// the table of aromaticity gives one electron. A row that rests on a double bond in a ring adds it only if that
    /// bond has become aromatic.
    pub valence: u8,
}

/// The kind of a bond of a molecule.
#[derive(Clone, Copy, Debug, PartialEq, Eq)]
pub enum BondKind {
    Single,
    Double,
    Triple,
    Quad,
    Aromatic,
}

/// A bond between the atoms at places `a` and `b`.
#[derive(Clone, Copy, Debug, PartialEq, Eq)]
pub struct Bond {
    pub a: u16,
    pub b: u16,
    pub kind: BondKind,
}

// A set of bonds, a bit for each. Up to 128 bonds take no block of memory.
type BondSet = SmallVec<u64, 2>;

/// Facts worked out for an atom. They are together in one block of memory, since a catalogue has many molecules.
#[derive(Clone, Copy, Debug)]
struct AtomFacts {
    // the place of its first neighbour among those of all atoms
    first_neighbour: u16,
    // the length of its smallest ring, 0 if it is in no ring
    smallest_ring: u16,
    // the least atom of its component
    component: u16,
}

/// A molecule: atoms and bonds as they are meant, the neighbours and the component of each atom, and its rings.
///
/// It has at most `MOST_ATOMS` atoms and `MOST_BONDS` bonds, and at most `MOST_NEIGHBOURS` neighbours at an atom. No
/// two bonds join the same atoms, and no bond joins an atom to itself. Atoms and bonds are named by their places, from
/// 0. Contracts see it as its two lists.
#[derive(Debug, Drop)]
pub struct Mol {
    // first, since a search reads no more of most molecules
    counts: SortCounts,
    symbols: Symbols,
    atoms: Vec<Atom>,
    bonds: Vec<Bond>,
    // the facts of each atom
    facts: Vec<AtomFacts>,
    // the neighbours of all atoms in turn: those of an atom end at the first of the next atom
    neighbours: Vec<(u16, u16)>,
    // the set of the ring bonds
    ring_bonds: BondSet,
}

impl Model for Mol {
    ghost use Rattle.chem_core.specs.Molecule.{Molecule};

    ghost Value = { Molecule };

    ghost view = { λ m. record { atoms = m.atoms.items; bonds = m.bonds.items } };

    ghost use Rattle.chem_core.specs.Inside.{IsSoundInside};

    ghost invariant = { λ m. IsSoundInside m.atoms.items m.bonds.items m.counts m.symbols m.facts.items
        m.neighbours.items m.ring_bonds.items };
}

impl Mol {
    /// The molecule of these atoms and bonds. `bond_in_ring` is true for each ring bond. `atom_small` has the length of
    /// each atom's smallest ring, 0 if it is in no ring, and `component` the least atom of its component. Fails only
    /// for want of memory.
    pub fn make(
        alloc: Global,
        atoms: Vec<Atom>,
        bonds: Vec<Bond>,
        bond_in_ring: Vec<bool>,
        atom_small: Vec<u16>,
        component: Vec<u16>,
    ) -> Result<Mol, AllocError>
        requires molecule { IsMolecule (record { atoms = atoms.items; bonds = bonds.items }) }
        requires ring_bonds { AreRingBonds (bond_ends bonds.items) bond_in_ring.items }
        requires smallest { AreSmallestRings (length atoms.items) (bond_ends bonds.items) atom_small.items }
        requires components { AreComponents (length atoms.items) (bond_ends bonds.items) component.items }
        ensures { IfOk result (λ mol. mol ≡ record { atoms = atoms.items; bonds = bonds.items }) }
    {
        let arena = Bump::new(alloc);
        let ends = bond_pairs(&arena, &bonds)?;
        let adjacency = Adjacency::of_ends(&arena, atoms.len(), ends)?;
        Mol::make_along(
            alloc,
            atoms,
            bonds,
            &adjacency,
            bond_in_ring,
            atom_small,
            component,
        )
    }

    /// As `make`, but with the adjacency of its atoms and bonds at hand.
    pub fn make_along(
        alloc: Global,
        atoms: Vec<Atom>,
        bonds: Vec<Bond>,
        adjacency: &Adjacency<'_>,
        bond_in_ring: Vec<bool>,
        atom_small: Vec<u16>,
        component: Vec<u16>,
    ) -> Result<Mol, AllocError>
        requires molecule { IsMolecule (record { atoms = atoms.items; bonds = bonds.items }) }
        requires adjacency { adjacency.now ≡ record { atoms = length atoms.items; ends = bond_ends bonds.items } }
        requires ring_bonds { AreRingBonds (bond_ends bonds.items) bond_in_ring.items }
        requires smallest { AreSmallestRings (length atoms.items) (bond_ends bonds.items) atom_small.items }
        requires components { AreComponents (length atoms.items) (bond_ends bonds.items) component.items }
        ensures { IfOk result (λ mol. mol ≡ record { atoms = atoms.items; bonds = bonds.items }) }
    {
        let (facts, neighbours) = in_turn(alloc, adjacency, &atom_small, &component)?;
        let ring_bonds = bond_set(alloc, &bond_in_ring)?;
        Ok(Mol {
            counts: SortCounts::count(&atoms, &bonds),
            symbols: Symbols::of(&atoms),
            atoms,
            bonds,
            facts,
            neighbours,
            ring_bonds,
        })
    }

    /// The atoms, by their places.
    pub fn atoms(&self) -> &[Atom]
        ensures value { result.now ≡ self.now.atoms }
        ensures valid { IsMolecule self.now }
    {
        &self.atoms
    }

    /// The bonds, by their places.
    pub fn bonds(&self) -> &[Bond]
        ensures value { result.now ≡ self.now.bonds }
        ensures valid { IsMolecule self.now }
    {
        &self.bonds
    }

    /// The atoms among the first 64 that have this atomic number and are aromatic or not, as `aromatic` says: a word
    /// with a bit for each atom.
    #[inline(always)]
    pub fn symbol_word(&self, number: u8, aromatic: bool) -> u64
        ensures { (i : ℕ) → i < 64 → bit_at result i ≡ 1 ↔ HasSymbolAt self.now.atoms i number aromatic }
    {
        self.symbols.word(number, aromatic)
    }

    /// The classes that the atoms have: a word with a bit for each class.
    #[inline(always)]
    pub fn classes(&self) -> u64
        ensures { (c : ℕ) → c < 64 → bit_at result c ≡ 1 ↔ HasClass self.now.atoms c }
    {
        self.symbols.classes()
    }

    /// The number of its atoms and bonds of each sort.
    #[inline(always)]
    pub fn counts(&self) -> &SortCounts
        ensures { AreCounts self.now.atoms self.now.bonds result.now }
    {
        &self.counts
    }

    /// The neighbours of the atom at a place, each with the place of the bond to it, in ascending order.
    pub fn neighbours(&self, atom: u16) -> &[(u16, u16)]
        requires { atom < length self.now.atoms }
        ensures each { AreNeighbours (ends_of self.now) atom result.now }
        ensures count { length result.now ≡ degree (ends_of self.now) atom }
        ensures valid { IsMolecule self.now }
    {
        let place = usize::from(atom);
        let start = usize::from(self.facts[place].first_neighbour);
        let end = neighbours_end(&self.facts, place, self.neighbours.len());
        &self.neighbours[start..end]
    }

    /// True if the bond at a place is a ring bond: one of a simple cycle of at least three atoms.
    pub fn ring_bond(&self, bond: u16) -> bool
        requires { bond < length self.now.bonds }
        ensures { IsTrue result ↔ IsRingBond (ends_of self.now) bond }
    {
        has_bit(&self.ring_bonds, bond)
    }

    /// The length of the smallest ring through the atom at a place; 0 if it is in no ring.
    pub fn small(&self, atom: u16) -> u16
        requires { atom < length self.now.atoms }
        ensures { IsSmallestRing (ends_of self.now) atom result }
    {
        self.facts[usize::from(atom)].smallest_ring
    }

    /// The component of the atom at a place, named by its least atom: the least to which a walk along bonds leads.
    pub fn component(&self, atom: u16) -> u16
        requires { atom < length self.now.atoms }
        ensures { IsComponent (ends_of self.now) atom result }
    {
        self.facts[usize::from(atom)].component
    }
}

/// A law: an atom has one list of neighbours.
pub fn one_neighbour_list()
    ensures { (ends : Ends) (a : ℕ) (xs ys : List (ℕ × ℕ))
        → AreNeighbours ends a xs → AreNeighbours ends a ys → xs ≡ ys }
{}

/// A law: atoms have the same component exactly if a walk leads from one to the other.
pub fn same_component()
    ensures { (ends : Ends) (a b c d : ℕ) → IsComponent ends a c → IsComponent ends b d
        → (c ≡ d) ↔ Reaches ends a b }
{}

// The two ends of each bond.
fn bond_pairs<'a>(arena: &'a Bump, bonds: &[Bond]) -> Result<Vec<(u16, u16), &'a Bump>, AllocError>
    ensures { IfOk result (λ ends. ends.items ≡ bond_ends bonds.now) }
{
    bonds.iter().map(|bond| (bond.a, bond.b)).collect(arena)
}

// The place after the last neighbour of the atom at a place, among those of all atoms, of which there are `count`.
fn neighbours_end(facts: &[AtomFacts], place: usize, count: usize) -> usize
    requires { place < length facts.now }
    ensures { result ≡ slice_index_or (map (λ f. f.first_neighbour) facts.now) (place + 1) count }
{
    facts
        .get(place + 1)
        .map_or(count, |next| usize::from(next.first_neighbour))
}

// The neighbours of all atoms in turn, and the facts of each atom: the place of its first neighbour, its smallest ring
// and its component.
fn in_turn(
    alloc: Global,
    adjacency: &Adjacency<'_>,
    smallest_rings: &[u16],
    components: &[u16],
) -> Result<(Vec<AtomFacts>, Vec<(u16, u16)>), AllocError>
    requires rings { length smallest_rings.now ≡ adjacency.now.atoms }
    requires components { length components.now ≡ adjacency.now.atoms }
    ensures turn { IfOk result (λ r. AreNeighboursInTurn adjacency.now.ends adjacency.now.atoms r.1.items
        (map (λ f. f.first_neighbour) r.0.items)) }
    ensures rings { IfOk result (λ r. map (λ f. f.smallest_ring) r.0.items ≡ smallest_rings.now) }
    ensures components { IfOk result (λ r. map (λ f. f.component) r.0.items ≡ components.now) }
{
    let atoms = adjacency.atoms();
    let mut facts = Vec::with_capacity(alloc, atoms)?;
    let mut pairs: Vec<(u16, u16)> = Vec::with_capacity(alloc, 2 * adjacency.ends().len())?;
    for atom in 0..atoms {
        facts.push(AtomFacts {
            first_neighbour: pairs.len() as u16,
            smallest_ring: smallest_rings[atom],
            component: components[atom],
        })?;
        push_sorted(&mut pairs, adjacency.steps_from(atom as u16))?;
    }
    Ok((facts, pairs))
}

// Appends the steps to the pairs, as pairs in ascending order.
fn push_sorted(pairs: &mut Vec<(u16, u16)>, steps: &[Step]) -> Result<(), AllocError>
    ensures { OnOk result (AreSortedBehind pairs.old.items steps.now pairs.new.items) }
{
    let start = pairs.len();
    for step in steps {
        pairs.push((step.to, step.bond))?;
    }
    pairs[start..].sort_unstable();
    Ok(())
}

// The bonds at whose places the flags are set.
fn bond_set(alloc: Global, flags: &[bool]) -> Result<BondSet, AllocError>
    requires { length flags.now ≤ MOST_BONDS }
    ensures { IfOk result (λ set. (bond : ℕ) → bond < length flags.now
        → slice_index_or (bits_of set.items) bond false ≡ slice_index_or flags.now bond false) }
{
    let mut set = SmallVec::from_elem(alloc, 0, flags.len().div_ceil(64))?;
    for (bond, flag) in flags.iter().enumerate() {
        if *flag {
            set_bit(&mut set, bond as u16);
        }
    }
    Ok(set)
}
