//! For each atom: its bond orders summed, and whether it has an aromatic double bond or a `:`.
ghost use Rattle.std.specs.Prelude.{◌≡◌, ◌≢◌, ◌<◌, ◌≤◌, ℕ, length, replicate, All, IfOk, if◌then◌else◌};
ghost use Rattle.chem_core.specs.Sketch.{ends_at};
ghost use Rattle.chem_core.specs.Graph.{IsSimpleGraph};
ghost use Rattle.chem_core.specs.Sound.{ends_among};
ghost use Rattle.aromatic.specs.Tallies.{AreTallies, no_bonds, tally_at, with_bond};

use bumpalo::Bump;
use chem_core::{SketchBond, SketchKind};
use std::alloc::AllocError;

/// The facts about an atom's bonds.
#[derive(Clone, Copy, Debug, PartialEq, Eq)]
pub struct Tally {
    /// The sum of their orders, aromatic ones as 1.
    pub bonded: u8,
    /// True if one of them is a double bond that has become aromatic.
    pub aromatic_double: bool,
    /// True if one of them is written `:`.
    pub colon: bool,
}

/// The tally of each atom, by its place, in one pass over the bonds.
pub fn tallies<'a>(
    arena: &'a Bump,
    count: usize,
    bonds: &[SketchBond],
    aromatic: &[bool],
) -> Result<Vec<Tally, &'a Bump>, AllocError>
    requires graph { IsSimpleGraph count (ends_among bonds.now) }
    requires each { length aromatic.now ≡ length bonds.now }
    ensures count { IfOk result (λ tallies. length tallies.items ≡ count) }
    ensures each { IfOk result (λ tallies. AreTallies bonds.now aromatic.now tallies.items) }
    ensures few { IfOk result (λ tallies. All (λ t. t.bonded ≤ 48) tallies.items) }
{
    let mut tallies = vec![in arena; Tally::none(); count]?;
    add_bonds(&mut tallies, bonds, aromatic);
    Ok(tallies)
}

fn add_bonds(tallies: &mut [Tally], bonds: &[SketchBond], aromatic: &[bool])
    requires graph { IsSimpleGraph (length tallies.old) (ends_among bonds.now) }
    requires each { length aromatic.now ≡ length bonds.now }
    requires none { tallies.old ≡ replicate (length tallies.old) no_bonds }
    ensures each { AreTallies bonds.now aromatic.now tallies.new }
    ensures few { All (λ t. t.bonded ≤ 48) tallies.new }
{
    for (place, bond) in bonds.iter().enumerate() {
        add_at_ends(tallies, *bond, aromatic[place]);
    }
}

// Adds a bond at its two ends.
fn add_at_ends(tallies: &mut [Tally], bond: SketchBond, aromatic: bool)
    requires a_in_range { bond.a < length tallies.old }
    requires b_in_range { bond.b < length tallies.old }
    requires distinct { bond.a ≢ bond.b }
    requires few { (a : ℕ) → (tally_at tallies.old a).bonded ≤ 48 }
    ensures { (a : ℕ) → tally_at tallies.new a ≡ (if ends_at a bond
        then with_bond (tally_at tallies.old a) bond.kind aromatic
        else tally_at tallies.old a) }
{
    tallies[usize::from(bond.a)].add(bond.kind, aromatic);
    tallies[usize::from(bond.b)].add(bond.kind, aromatic);
}

impl Tally {
    // An atom without bonds.
    fn none() -> Tally
        ensures { result ≡ no_bonds }
    {
        Tally {
            bonded: 0,
            aromatic_double: false,
            colon: false,
        }
    }

    // Adds one more bond.
    fn add(&mut self, kind: SketchKind, aromatic: bool)
        requires { self.old.bonded ≤ 48 }
        ensures { self.new ≡ with_bond self.old kind aromatic }
    {
        self.bonded += if aromatic { 1 } else { kind.order() };
        self.aromatic_double |= aromatic && kind == SketchKind::Double;
        self.colon |= kind == SketchKind::Colon;
    }
}
