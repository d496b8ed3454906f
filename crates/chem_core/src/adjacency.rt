//! The adjacency of a sketch: the ends of its bonds, and for each atom the steps to its neighbours.
ghost use Rattle.std.specs.Prelude.{◌≡◌, ◌<◌, ◌++◌, ◌∷◌, [], length, map, replicate, set, slice_index_or, IfOk};
ghost use Rattle.chem_core.specs.Graph.{IsSimpleGraph};
ghost use Rattle.chem_core.specs.Sound.{IsSound, ends_among, sketch_ends};
ghost use Rattle.chem_core.specs.Steps.{AreStepsFrom, IsAdjacentInside, steps_among};

use crate::limits::MOST_NEIGHBOURS;
use crate::sketch::{Sketch, SketchBond};
use arrayvec::ArrayVec;
use bumpalo::Bump;
use std::alloc::AllocError;
use std::marker::Model;

/// A step from an atom to a neighbour along a bond. `Mol::neighbours` gives pairs, since callers see their type.
#[derive(Clone, Copy, Debug, Default, PartialEq, Eq)]
pub struct Step {
    pub to: u16,
    pub bond: u16,
}

// The steps from an atom.
type Steps = ArrayVec<Step, MOST_NEIGHBOURS>;

/// The adjacency of a sketch, in an arena: for each atom the steps to its neighbours, in the order of the bonds.
/// Contracts see the number of its atoms and the ends of its bonds.
#[derive(Drop)]
pub struct Adjacency<'a> {
    ends: Vec<(u16, u16), &'a Bump>,
    lists: Vec<Steps, &'a Bump>,
}

impl<'a> Model for Adjacency<'a> {
    ghost use Rattle.std.specs.Prelude.{length, map};
    ghost use Rattle.chem_core.specs.Steps.{Network, IsAdjacentInside};

    ghost Value = { Network };

    ghost view = { λ g. record { atoms = length g.lists.items; ends = g.ends.items } };

    ghost invariant = { λ g. IsAdjacentInside g.ends.items (map (λ v. v.items) g.lists.items) };
}

impl<'a> Adjacency<'a> {
    /// The adjacency of a sketch. Fails only for want of memory.
    pub fn of(arena: &'a Bump, sketch: &Sketch) -> Result<Adjacency<'a>, AllocError>
        requires { IsSound sketch.now }
        ensures { IfOk result (λ graph. graph ≡ record {
          atoms = length sketch.now.atoms;
          ends = sketch_ends sketch.now;
        }) }
    {
        let ends = ends_of(arena, &sketch.bonds)?;
        Adjacency::of_ends(arena, sketch.atoms.len(), ends)
    }

    /// The adjacency of `atoms` atoms, by the ends of each bond. Fails only for want of memory.
    pub(crate) fn of_ends(
        arena: &'a Bump,
        atoms: usize,
        ends: Vec<(u16, u16), &'a Bump>,
    ) -> Result<Adjacency<'a>, AllocError>
        requires { IsSimpleGraph atoms ends.items }
        ensures { IfOk result (λ graph. graph ≡ record { atoms = atoms; ends = ends.entry.items }) }
    {
        let mut lists = empty_lists(arena, atoms)?;
        fill(&mut lists, &ends);
        Ok(Adjacency { ends, lists })
    }

    /// The number of its atoms.
    pub fn atoms(&self) -> usize
        ensures value { result ≡ self.now.atoms }
        ensures valid { IsSimpleGraph self.now.atoms self.now.ends }
    {
        self.lists.len()
    }

    /// The ends of each bond.
    pub fn ends(&self) -> &[(u16, u16)]
        ensures value { result.now ≡ self.now.ends }
        ensures valid { IsSimpleGraph self.now.atoms self.now.ends }
    {
        &self.ends
    }

    /// The steps from an atom to its neighbours, in the order of the bonds.
    pub fn steps_from(&self, atom: u16) -> &[Step]
        requires { atom < self.now.atoms }
        ensures value { result.now ≡ steps_among self.now.ends atom }
        ensures steps { AreStepsFrom self.now.ends atom result.now }
        ensures valid { IsSimpleGraph self.now.atoms self.now.ends }
    {
        self.lists[usize::from(atom)].as_slice()
    }
}

fn ends_of<'a>(
    arena: &'a Bump,
    bonds: &[SketchBond],
) -> Result<Vec<(u16, u16), &'a Bump>, AllocError>
    ensures { IfOk result (λ ends. ends.items ≡ ends_among bonds.now) }
{
    bonds.iter().map(|bond| (bond.a, bond.b)).collect(arena)
}

fn empty_lists<'a>(arena: &'a Bump, count: usize) -> Result<Vec<Steps, &'a Bump>, AllocError>
    ensures { IfOk result (λ lists. map (λ v. v.items) lists.items ≡ replicate count []) }
{
    let mut lists = Vec::with_capacity(arena, count)?;
    for _ in 0..count {
        lists.push(Steps::new())?;
    }
    Ok(lists)
}

// Adds each bond to the steps from each of its ends. At the start no atom has a step.
fn fill(lists: &mut [Steps], ends: &[(u16, u16)])
    requires graph { IsSimpleGraph (length lists.old) ends.now }
    requires none { map (λ v. v.items) lists.old ≡ replicate (length lists.old) [] }
    ensures { IsAdjacentInside ends.now (map (λ v. v.items) lists.new) }
{
    for (place, (a, b)) in ends.iter().enumerate() {
        let bond = place as u16;
        add(lists, *a, Step { to: *b, bond });
        add(lists, *b, Step { to: *a, bond });
    }
}

// Appends a step to those from an atom, which has room for it.
fn add(lists: &mut [Steps], from: u16, step: Step)
    requires within { from < length lists.old }
    requires room { length (slice_index_or (map (λ v. v.items) lists.old) from []) < MOST_NEIGHBOURS }
    ensures { map (λ v. v.items) lists.new ≡ set (map (λ v. v.items) lists.old) from
        (slice_index_or (map (λ v. v.items) lists.old) from [] ++ step ∷ []) }
{
    lists[usize::from(from)].push(step);
}
