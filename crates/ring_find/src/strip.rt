//! Bonds that lead to dead ends are stripped, one after another, since no ring goes through them.
ghost use Rattle.std.specs.Prelude.{◌≡◌, ◌≢◌, ◌<◌, ◌+◌, ℕ, length, All, AllPairs, IfOk, MatchOption};
ghost use Rattle.chem_core.specs.declared.adjacency.Step.{Step};
ghost use Rattle.ring_find.specs.BondRings.{KeepsRings};
ghost use Rattle.ring_find.specs.Strip.{IsOnlyKept, IsDeadEnd};

use bumpalo::Bump;
use chem_core::{Adjacency, Step};
use std::alloc::AllocError;

/// For each bond, true if it is kept: each ring bond is, and no atom is left as a dead end.
pub fn strip_dead_ends<'a>(
    arena: &'a Bump,
    graph: &Adjacency<'_>,
) -> Result<Vec<bool, &'a Bump>, AllocError>
    ensures rings { IfOk result (λ kept. KeepsRings graph.now.ends kept.items) }
    ensures ends { IfOk result (λ kept. (v : ℕ) → IsDeadEnd graph.now.ends kept.items v → ⊥) }
{
    let mut kept = vec![in arena; true; graph.ends().len()]?;
    for atom in 0..graph.atoms() {
        strip_from(graph, &mut kept, atom as u16);
    }
    Ok(kept)
}

// Walks from a dead end inwards, stripping each bond on the way, as long as no other bond is kept.
fn strip_from(graph: &Adjacency<'_>, kept: &mut [bool], atom: u16)
    requires atom { atom < graph.now.atoms }
    requires rings { KeepsRings graph.now.ends kept.old }
    requires ends { (v : ℕ) → v < atom → IsDeadEnd graph.now.ends kept.old v → ⊥ }
    ensures rings { KeepsRings graph.now.ends kept.new }
    ensures ends { (v : ℕ) → v < atom + 1 → IsDeadEnd graph.now.ends kept.new v → ⊥ }
{
    let mut at = atom;
    while let Some(step) = only_kept(graph.steps_from(at), kept) {
        kept[usize::from(step.bond)] = false;
        at = step.to;
    }
}

// The one step by a kept bond, if there is exactly one.
fn only_kept(steps: &[Step], kept: &[bool]) -> Option<Step>
    requires within { All (λ s. s.bond < length kept.now) steps.now }
    requires once { AllPairs (λ s t. s.bond ≢ t.bond) steps.now }
    ensures { MatchOption result ((s : Step) → IsOnlyKept steps.now kept.now s → ⊥) (IsOnlyKept steps.now kept.now) }
{
    let mut only = None;
    for step in steps {
        if kept[usize::from(step.bond)] {
            if only.is_some() {
                return None;
            }
            only = Some(*step);
        }
    }
    only
}
