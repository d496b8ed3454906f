//! Components of a molecule: the atoms that bonds hold together, each named by its least atom.
ghost use Rattle.std.specs.Prelude.{◌≡◌, ◌<◌, ◌+◌, ℕ, [], All, length, slice_index, IfOk, OnOk};
ghost use Rattle.chem_core.specs.Graph.{IsSimpleGraph};
ghost use Rattle.chem_core.specs.Component.{IsComponent, AreComponents};
ghost use Rattle.mol_finish.specs.Naming.{IsNamed, IsNaming};

use bumpalo::Bump;
use chem_core::Adjacency;
use std::alloc::{AllocError, Global};

// The component of an atom that the walks have not come to.
const NONE: u16 = u16::MAX;

/// For each atom the least atom of its component. Fails only for want of memory.
pub(crate) fn components(
    alloc: Global,
    arena: &Bump,
    adjacency: &Adjacency<'_>,
) -> Result<Vec<u16>, AllocError>
    ensures { IfOk result (λ v. AreComponents adjacency.now.atoms adjacency.now.ends v.items) }
{
    let atoms = adjacency.atoms();
    let mut components = vec![in alloc; NONE; atoms]?;
    let mut queue = Vec::with_capacity(arena, atoms)?;
    for atom in 0..atoms {
        if components[atom] == NONE {
            name_from(adjacency, atom as u16, &mut components, &mut queue)?;
        }
    }
    Ok(components)
}

// Names the component of an atom, which no walk has come to, by that atom, its least.
fn name_from(
    adjacency: &Adjacency<'_>,
    least: u16,
    components: &mut [u16],
    queue: &mut Vec<u16, &Bump>,
) -> Result<(), AllocError>
    requires graph { IsSimpleGraph adjacency.now.atoms adjacency.now.ends }
    requires in_range { least < adjacency.now.atoms }
    requires least { IsComponent adjacency.now.ends least least }
    requires unnamed { slice_index components.old least ≡ NONE }
    requires before { IsNaming adjacency.now.atoms adjacency.now.ends components.old [] 0 }
    ensures after { OnOk result (IsNaming adjacency.now.atoms adjacency.now.ends components.new [] 0) }
    ensures named { OnOk result (IsNamed components.new least) }
    ensures kept { OnOk result ((a : ℕ) → IsNamed components.old a → IsNamed components.new a) }
{
    queue.clear();
    queue.push(least)?;
    components[usize::from(least)] = least;
    let mut next = 0;
    while next < queue.len() {
        visit(adjacency, least, next, components, queue)?;
        next += 1;
    }
    Ok(())
}

// Names the neighbours of the next atom of the queue that have no name yet, and puts them at the end of the queue.
fn visit(
    adjacency: &Adjacency<'_>,
    least: u16,
    next: usize,
    components: &mut [u16],
    queue: &mut Vec<u16, &Bump>,
) -> Result<(), AllocError>
    requires in_range { least < adjacency.now.atoms }
    requires next { next < length queue.old.items }
    requires queue { All (λ a. (a < adjacency.now.atoms) × IsComponent adjacency.now.ends a least) queue.old.items }
    requires before { IsNaming adjacency.now.atoms adjacency.now.ends components.old queue.old.items next }
    ensures queue { OnOk result
        (All (λ a. (a < adjacency.now.atoms) × IsComponent adjacency.now.ends a least) queue.new.items) }
    ensures after { OnOk result
        (IsNaming adjacency.now.atoms adjacency.now.ends components.new queue.new.items (next + 1)) }
    ensures kept { OnOk result ((a : ℕ) → IsNamed components.old a → IsNamed components.new a) }
{
    for step in adjacency.steps_from(queue[next]) {
        if components[usize::from(step.to)] == NONE {
            components[usize::from(step.to)] = least;
            queue.push(step.to)?;
        }
    }
    Ok(())
}
