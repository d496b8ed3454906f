//! The ring bonds of a sketch, and the smallest ring of each atom.
//!
//! A bond lies on a ring exactly if a walk without it joins its ends. The least such walk and the bond are the smallest
//! ring through it. So one breadth-first search for each bond finds all, and one serves a chain of bonds. Bonds that
//! lead to dead ends are stripped first, so a structure without rings costs one pass. Then, if there are many atoms,
//! bonds between rings are dropped, so that a search stays among rings that share bonds or atoms.
#![tactic(auto)]

mod bridges;
mod ring_facts;
mod search;
mod smallest;
mod strip;

ghost use Rattle.std.specs.Prelude.{◌≡◌, ◌==◌, ℕ, Bool, List, not, length, map, IfOk};
ghost use Rattle.chem_core.specs.Graph.{Ends};
ghost use Rattle.chem_core.specs.Sound.{IsSound, sketch_ends};
ghost use Rattle.chem_core.specs.RingFacts.{AreRingBonds, AreSmallestRings};

use crate::bridges::drop_bridges;
use crate::search::ring_lengths;
use crate::smallest::smallest_rings;
use crate::strip::strip_dead_ends;
use bumpalo::Bump;
use chem_core::{Adjacency, Sketch};
pub use ring_facts::Rings;
use std::alloc::{AllocError, Global};

/// The ring bonds, and the length of the smallest ring of each atom, 0 if it is in no ring.
///
/// A ring is a simple cycle. Fails only for want of memory. A sketch without rings takes time linear in its atoms and
/// bonds, and so does a chain of small rings. At worst the time is the number of ring bonds times that of atoms and
/// bonds.
pub fn rings(alloc: Global, sketch: &Sketch) -> Result<Rings, AllocError>
    requires { IsSound sketch.now }
    ensures bonds { IfOk result (λ r. AreRingBonds (sketch_ends sketch.now) r.bond_in_ring.items) }
    ensures atoms { IfOk result (λ r. AreSmallestRings (length sketch.now.atoms) (sketch_ends sketch.now)
        r.atom_small.items) }
{
    let arena = Bump::new(alloc);
    let graph = Adjacency::of(&arena, sketch)?;
    rings_in(alloc, &arena, &graph)
}

/// As `rings`, but of a given adjacency, with working memory from an arena.
pub fn rings_in(alloc: Global, arena: &Bump, graph: &Adjacency<'_>) -> Result<Rings, AllocError>
    ensures bonds { IfOk result (λ r. AreRingBonds graph.now.ends r.bond_in_ring.items) }
    ensures atoms { IfOk result (λ r. AreSmallestRings graph.now.atoms graph.now.ends r.atom_small.items) }
{
    let mut kept = strip_dead_ends(arena, graph)?;
    drop_bridges(arena, graph, &mut kept)?;
    let lengths = ring_lengths(arena, graph, &kept)?;
    let bond_in_ring = nonzero(alloc, &lengths)?;
    let atom_small = smallest_rings(alloc, graph, &lengths)?;
    Ok(Rings {
        bond_in_ring,
        atom_small,
    })
}

/// A law: a structure has one list of ring bonds, and one of smallest rings.
pub fn one_answer()
    ensures bonds { (ends : Ends) (xs ys : List Bool) → AreRingBonds ends xs → AreRingBonds ends ys → xs ≡ ys }
    ensures atoms { (atoms : ℕ) (ends : Ends) (xs ys : List ℕ)
        → AreSmallestRings atoms ends xs → AreSmallestRings atoms ends ys → xs ≡ ys }
{}

// For each bond, true if its ring length is not 0.
fn nonzero(alloc: Global, lengths: &[u16]) -> Result<Vec<bool>, AllocError>
    ensures { IfOk result (λ flags. flags.items ≡ map (λ n. not (n == 0)) lengths.now) }
{
    lengths.iter().map(|length| *length != 0).collect(alloc)
}
