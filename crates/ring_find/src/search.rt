//! The smallest ring through each bond, by a breadth-first search from one of its ends to the other. If an atom has
//! exactly two kept bonds, both are on the same rings, so that one search serves a chain of bonds.
ghost use Rattle.std.specs.Prelude.{◌≡◌, ◌≢◌, ◌≤◌, ◌<◌, ◌+◌, ℕ, length, replicate, slice_index, slice_get, All, Contains, Some, IfSome, IfOk, OnOk};
ghost use Rattle.chem_core.specs.declared.adjacency.Step.{Step};
ghost use Rattle.chem_core.specs.declared.limits.TheConstants.{MOST_ATOMS};
ghost use Rattle.ring_find.specs.BondRings.{KeepsRings, AreBondRings, IsSmallestThrough};
ghost use Rattle.ring_find.specs.Search.{IsRingSearch};
ghost use Rattle.ring_find.specs.Strip.{IsOnlyBeside, is_beside};

use bumpalo::Bump;
use chem_core::{Adjacency, Step};
use std::alloc::AllocError;

/// For each bond the length of the smallest ring through it, 0 without one. Only kept bonds are walked.
pub fn ring_lengths<'a>(
    arena: &'a Bump,
    graph: &Adjacency<'_>,
    kept: &[bool],
) -> Result<Vec<u16, &'a Bump>, AllocError>
    requires { KeepsRings graph.now.ends kept.now }
    ensures { IfOk result (λ lengths. AreBondRings graph.now.ends lengths.items) }
{
    let bonds = graph.ends().len();
    let mut lengths = Vec::with_capacity(arena, bonds)?;
    let mut marks = vec![in arena; 0u16; graph.atoms()]?;
    let mut queue = Vec::with_capacity(arena, graph.atoms())?;
    for place in 0..bonds {
        let length = ring_length(graph, kept, &lengths, place as u16, &mut marks, &mut queue)?;
        lengths.push(length)?;
    }
    Ok(lengths)
}

// The length of the smallest ring through a bond, 0 without one. The lengths are those of the bonds before it. No atom
// is marked, before and after.
fn ring_length(
    graph: &Adjacency<'_>,
    kept: &[bool],
    lengths: &[u16],
    bond: u16,
    marks: &mut [u16],
    queue: &mut Vec<u16, &Bump>,
) -> Result<u16, AllocError>
    requires kept { KeepsRings graph.now.ends kept.now }
    requires bond { bond < length graph.now.ends }
    requires before { (b : ℕ) → b < length lengths.now
        → IsSmallestThrough graph.now.ends b (slice_index lengths.now b) }
    requires blank { marks.old ≡ replicate graph.now.atoms 0 }
    ensures ring { IfOk result (IsSmallestThrough graph.now.ends bond) }
    ensures blank { OnOk result (marks.new ≡ replicate graph.now.atoms 0) }
{
    if !kept[usize::from(bond)] {
        return Ok(0);
    }
    if let Some(known) = known_length(graph, kept, lengths, bond) {
        return Ok(known);
    }
    let (from, to) = graph.ends()[usize::from(bond)];
    queue.clear();
    queue.push(from)?;
    marks[usize::from(from)] = 1;
    let mut next = 0;
    while next < queue.len() && marks[usize::from(to)] == 0 {
        visit(graph, kept, bond, next, marks, queue)?;
        next += 1;
    }
    let length = marks[usize::from(to)];
    unmark(marks, queue);
    Ok(length)
}

// The length of the smallest ring through a bond, if it is that of an earlier bond.
fn known_length(graph: &Adjacency<'_>, kept: &[bool], lengths: &[u16], bond: u16) -> Option<u16>
    requires kept { KeepsRings graph.now.ends kept.now }
    requires bond { bond < length graph.now.ends }
    requires before { (b : ℕ) → b < length lengths.now
        → IsSmallestThrough graph.now.ends b (slice_index lengths.now b) }
    ensures { IfSome result (IsSmallestThrough graph.now.ends bond) }
{
    let (one, other) = graph.ends()[usize::from(bond)];
    match length_beside(graph.steps_from(one), kept, lengths, bond) {
        Some(length) => Some(length),
        None => length_beside(graph.steps_from(other), kept, lengths, bond),
    }
}

// The length of the only other kept bond of an atom, if there is exactly one. All rings through the one bond are rings
// through the other.
fn length_beside(steps: &[Step], kept: &[bool], lengths: &[u16], bond: u16) -> Option<u16>
    requires within { All (λ s. s.bond < length kept.now) steps.now }
    ensures { IfSome result (λ length. (s : Step) × IsOnlyBeside steps.now kept.now bond s
        × (slice_get lengths.now s.bond ≡ Some length)) }
{
    let step = only_beside(steps, kept, bond)?;
    lengths.get(usize::from(step.bond)).copied()
}

// The one step by a kept bond other than this one, if there is exactly one.
fn only_beside(steps: &[Step], kept: &[bool], bond: u16) -> Option<Step>
    requires within { All (λ s. s.bond < length kept.now) steps.now }
    ensures { IfSome result (IsOnlyBeside steps.now kept.now bond) }
{
    let mut only = None;
    for step in steps {
        if is_beside(kept, bond, step.bond) {
            if only.is_some() {
                return None;
            }
            only = Some(*step);
        }
    }
    only
}

// True if a bond is kept and is another than this one.
fn is_beside(kept: &[bool], bond: u16, other: u16) -> bool
    requires { other < length kept.now }
    ensures { result ≡ is_beside kept.now bond other }
{
    other != bond && kept[usize::from(other)]
}

// Marks the neighbours of the next atom of the queue that are not marked yet, and puts them at the end of the queue.
// A mark is one more than the number of steps from the first atom.
fn visit(
    graph: &Adjacency<'_>,
    kept: &[bool],
    bond: u16,
    next: usize,
    marks: &mut [u16],
    queue: &mut Vec<u16, &Bump>,
) -> Result<(), AllocError>
    requires few { graph.now.atoms ≤ MOST_ATOMS }
    requires kept { length kept.now ≡ length graph.now.ends }
    requires next { next < length queue.old.items }
    requires search { IsRingSearch graph.now.ends kept.now bond graph.now.atoms marks.old queue.old.items next }
    ensures { OnOk result (IsRingSearch graph.now.ends kept.now bond graph.now.atoms marks.new
        queue.new.items (next + 1)) }
{
    let at = queue[next];
    let mark = marks[usize::from(at)] + 1;
    let steps = graph.steps_from(at);
    for step in steps {
        if step.bond == bond || !kept[usize::from(step.bond)] || marks[usize::from(step.to)] != 0 {
            continue;
        }
        marks[usize::from(step.to)] = mark;
        queue.push(step.to)?;
    }
    Ok(())
}

// Clears the marks. The queue holds every marked atom.
fn unmark(marks: &mut [u16], queue: &[u16])
    requires each { (v : ℕ) → slice_index marks.old v ≢ 0 → Contains queue.now v }
    requires in_range { All (λ v. v < length marks.old) queue.now }
    ensures { marks.new ≡ replicate (length marks.old) 0 }
{
    for atom in queue {
        marks[usize::from(*atom)] = 0;
    }
}
