//! The facts that the table reads of an atom.
ghost use Rattle.std.specs.Prelude.{◌≡◌, ◌≢◌, ◌<◌, ℕ, length, map, slice_get, slice_index_or, All, IfOk, Some, if◌then◌else◌};
ghost use Rattle.std.specs.List.{zip};
ghost use Rattle.chem_core.specs.Sketch.{ends_at};
ghost use Rattle.chem_core.specs.Sound.{IsSound};
ghost use Rattle.aromatic.specs.Electrons.{element_beyond, is_eligible, environment_among};
ghost use Rattle.aromatic.specs.Counts.{AreEnvironments, HasFewBonds, add, without_bonds};

use bumpalo::Bump;
use chem_core::{SketchAtom, SketchBond, SketchKind};
use std::alloc::AllocError;

/// The facts that the table reads of an atom: its written form, and the number of its bonds of each kind.
#[derive(Clone, Copy, Debug, PartialEq, Eq)]
pub struct Environment {
    pub number: u8,
    pub charge: i8,
    pub lower: bool,
    pub hydrogens: u8,
    pub neighbours: u16,
    pub ring_bonds: u16,
    /// Bonds of order 3 and 4.
    pub higher: u16,
    /// Double bonds that are ring bonds.
    pub ring_doubles: u16,
    /// The other double bonds.
    pub outer_doubles: u16,
    /// Those of them to O.
    pub to_oxygen: u16,
    /// Those of them to O, N and S.
    pub to_hetero: u16,
}

/// The facts that the table reads of each atom, by the atom's place, in one pass over the bonds.
pub fn environments<'a>(
    arena: &'a Bump,
    atoms: &[SketchAtom],
    bonds: &[SketchBond],
    bond_in_ring: &[bool],
) -> Result<Vec<Environment, &'a Bump>, AllocError>
    requires sound { IsSound (record { atoms = atoms.now; bonds = bonds.now }) }
    requires rings { length bond_in_ring.now ≡ length bonds.now }
    ensures { IfOk result (λ environments. AreEnvironments atoms.now
        (zip bonds.now bond_in_ring.now) environments.items) }
{
    let mut environments = without_bonds_each(arena, atoms)?;
    count_bonds(&mut environments, atoms, bonds, bond_in_ring);
    Ok(environments)
}

// Each atom before any bond is counted.
fn without_bonds_each<'a>(
    arena: &'a Bump,
    atoms: &[SketchAtom],
) -> Result<Vec<Environment, &'a Bump>, AllocError>
    ensures { IfOk result (λ environments. environments.items ≡ map without_bonds atoms.now) }
{
    atoms.iter().map(Environment::without_bonds).collect(arena)
}

fn count_bonds(
    environments: &mut [Environment],
    atoms: &[SketchAtom],
    bonds: &[SketchBond],
    bond_in_ring: &[bool],
)
    requires sound { IsSound (record { atoms = atoms.now; bonds = bonds.now }) }
    requires rings { length bond_in_ring.now ≡ length bonds.now }
    requires without_bonds { environments.old ≡ map without_bonds atoms.now }
    ensures { AreEnvironments atoms.now (zip bonds.now bond_in_ring.now) environments.new }
{
    for (place, bond) in bonds.iter().enumerate() {
        count_at_ends(environments, atoms, *bond, bond_in_ring[place]);
    }
}

// Counts a bond at its two ends.
fn count_at_ends(
    environments: &mut [Environment],
    atoms: &[SketchAtom],
    bond: SketchBond,
    ring: bool,
)
    requires each { length environments.old ≡ length atoms.now }
    requires a_in_range { bond.a < length atoms.now }
    requires b_in_range { bond.b < length atoms.now }
    requires distinct { bond.a ≢ bond.b }
    requires small { All HasFewBonds environments.old }
    ensures { (a : ℕ) (d : Environment) → slice_index_or environments.new a d ≡ (if ends_at a bond
        then add (slice_index_or environments.old a d) bond.kind ring (element_beyond atoms.now a bond)
        else slice_index_or environments.old a d) }
{
    let (a, b) = (usize::from(bond.a), usize::from(bond.b));
    environments[a].add(bond.kind, ring, atoms[b].number);
    environments[b].add(bond.kind, ring, atoms[a].number);
}

/// The facts that the table reads of one atom.
pub fn environment_of(
    atoms: &[SketchAtom],
    bonds: &[SketchBond],
    bond_in_ring: &[bool],
    atom: u16,
) -> Environment
    requires sound { IsSound (record { atoms = atoms.now; bonds = bonds.now }) }
    requires rings { length bond_in_ring.now ≡ length bonds.now }
    requires in_range { atom < length atoms.now }
    ensures { (x : SketchAtom) → slice_get atoms.now atom ≡ Some x
        → result ≡ environment_among atoms.now atom x (zip bonds.now bond_in_ring.now) }
{
    let mut environment = Environment::without_bonds(&atoms[usize::from(atom)]);
    for (place, bond) in bonds.iter().enumerate() {
        count_bond(&mut environment, atoms, atom, *bond, bond_in_ring[place]);
    }
    environment
}

// Counts a bond if it ends at the atom.
fn count_bond(
    environment: &mut Environment,
    atoms: &[SketchAtom],
    atom: u16,
    bond: SketchBond,
    ring: bool,
)
    requires a_in_range { bond.a < length atoms.now }
    requires b_in_range { bond.b < length atoms.now }
    requires small { HasFewBonds environment.old }
    ensures { environment.new ≡ (if ends_at atom bond
        then add environment.old bond.kind ring (element_beyond atoms.now atom bond)
        else environment.old) }
{
    let beyond = if bond.a == atom {
        bond.b
    } else if bond.b == atom {
        bond.a
    } else {
        return;
    };
    environment.add(bond.kind, ring, atoms[usize::from(beyond)].number);
}

impl Environment {
    /// True if it is that of a candidate, whatever its row.
    pub fn is_eligible(&self) -> bool
        ensures { result ≡ is_eligible self.now }
    {
        (self.neighbours == 2 || self.neighbours == 3) && self.ring_bonds >= 2 && self.higher == 0
    }

    // An atom before any bond is counted.
    fn without_bonds(atom: &SketchAtom) -> Environment
        ensures { result ≡ without_bonds atom.now }
    {
        Environment {
            number: atom.number,
            charge: atom.charge,
            lower: atom.lower,
            hydrogens: atom.hydrogens,
            neighbours: 0,
            ring_bonds: 0,
            higher: 0,
            ring_doubles: 0,
            outer_doubles: 0,
            to_oxygen: 0,
            to_hetero: 0,
        }
    }

    // Counts one more bond, which leads to an element of this number.
    fn add(&mut self, kind: SketchKind, ring: bool, number: u8)
        requires { HasFewBonds self.old }
        ensures { self.new ≡ add self.old kind ring number }
    {
        let outer = kind == SketchKind::Double && !ring;
        self.neighbours += 1;
        self.ring_bonds += u16::from(ring);
        self.higher += u16::from(kind == SketchKind::Triple || kind == SketchKind::Quad);
        self.ring_doubles += u16::from(kind == SketchKind::Double && ring);
        self.outer_doubles += u16::from(outer);
        self.to_oxygen += u16::from(outer && number == 8);
        self.to_hetero += u16::from(outer && (number == 8 || number == 7 || number == 16));
    }
}
