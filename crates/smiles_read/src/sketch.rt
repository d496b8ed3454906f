//! From the graph of a text to its sketch: each atom gets its place.

ghost use Rattle.std.specs.Prelude.{◌≡◌, ◌<◌, ◌≤◌, length, map, IfOk};
ghost use Rattle.std.specs.List.{AllByRecursion};
ghost use Rattle.smiles_read.specs.Sketch.{numbered};
ghost use Rattle.smiles_read.specs.Limits.{bond_of};

use chem_core::{MOST_ATOMS, Sketch, SketchAtom, SketchBond, SketchKind};
use line_walk::{Graph, Link};
use std::alloc::{AllocError, Global};

/// The sketch of a graph.
pub fn sketch(alloc: Global, graph: Graph<'_, SketchAtom, SketchKind>) -> Result<Sketch, AllocError>
    requires few { length graph.atoms.items ≤ MOST_ATOMS }
    requires ends { AllByRecursion (λ x. (x.a < x.b) × (x.b < length graph.atoms.items))
        graph.links.items }
    ensures { IfOk result (λ s. s ≡ record {
      atoms = numbered graph.entry.atoms.items;
      bonds = map bond_of graph.entry.links.items;
    }) }
{
    let Graph {
        mut atoms,
        links,
        depth: _,
    } = graph;
    number(&mut atoms);
    let bonds = bonds(alloc, &links)?;
    Ok(Sketch { atoms, bonds })
}

// Writes its place into each atom.
fn number(atoms: &mut [SketchAtom])
    requires { length atoms.old ≤ MOST_ATOMS }
    ensures { atoms.new ≡ numbered atoms.old }
{
    for (place, atom) in atoms.iter_mut().enumerate() {
        atom.written = place as u16;
    }
}

// The bonds of a sketch.
fn bonds(alloc: Global, links: &[Link<SketchKind>]) -> Result<Vec<SketchBond>, AllocError>
    requires { AllByRecursion (λ x. (x.a < 65536) × (x.b < 65536)) links.now }
    ensures { IfOk result (λ bonds. bonds.items ≡ map bond_of links.now) }
{
    let mut bonds = Vec::with_capacity(alloc, links.len())?;
    for link in links {
        bonds.push(SketchBond {
            a: link.a as u16,
            b: link.b as u16,
            kind: link.kind,
        })?;
    }
    Ok(bonds)
}
