//! Bonds between rings are dropped, since no ring goes through them.
//!
//! A depth-first walk over the bonds gives each atom a label, one for all atoms that hang together by rings. So a bond
//! between two labels is a bridge. Nothing is promised of the labels. Bonds between labels are dropped only if each
//! label has at most one bond to a lower label. Then no ring goes from one label to another and back.
ghost use Rattle.std.specs.Prelude.{◌≡◌, ◌<◌, ◌+◌, ◌⊎◌, length, true, IfOk, MatchOption, Ok, OnOk};
ghost use Rattle.chem_core.specs.Graph.{IsSimpleGraph};
ghost use Rattle.ring_find.specs.BondRings.{KeepsRings};
ghost use Rattle.ring_find.specs.Bridges.{AreForest, AreTaken};

use bumpalo::Bump;
use chem_core::Adjacency;
use std::alloc::AllocError;

// With so few atoms a search over the bonds between rings costs no more than to find these bonds.
const FEW_ATOMS: usize = 40;

// A missing atom, bond or visit number.
const NONE: u16 = u16::MAX;

// The way of a depth-first walk to an atom: the atom before it, and the bond.
#[derive(Clone, Copy, Debug)]
struct Way {
    to: u16,
    from: u16,
    bond: u16,
}

// An atom of the walk.
#[derive(Clone, Copy, Debug)]
struct Seen {
    /// Its number in the order of the walk; `NONE` before the walk comes to it.
    number: u16,
    from: u16,
    bond: u16,
    /// The least number that a bond leads to from here, or from an atom reached by way of here.
    low: u16,
}

/// Drops bonds that are kept and lie between rings. Each ring bond stays.
pub fn drop_bridges(
    arena: &Bump,
    graph: &Adjacency<'_>,
    kept: &mut [bool],
) -> Result<(), AllocError>
    requires { KeepsRings graph.now.ends kept.old }
    ensures { OnOk result (KeepsRings graph.now.ends kept.new) }
{
    if graph.atoms() <= FEW_ATOMS || !kept.contains(&true) {
        return Ok(());
    }
    let ends = graph.ends();
    let labels = labels(arena, graph)?;
    if is_forest(arena, ends, &labels)? {
        drop_between(kept, ends, &labels);
    }
    Ok(())
}

// Drops the bonds between labels.
fn drop_between(kept: &mut [bool], ends: &[(u16, u16)], labels: &[u16])
    requires graph { IsSimpleGraph (length labels.now) ends.now }
    requires forest { AreForest ends.now labels.now }
    requires rings { KeepsRings ends.now kept.old }
    ensures { KeepsRings ends.now kept.new }
{
    for (place, (a, b)) in ends.iter().enumerate() {
        if labels[usize::from(*a)] != labels[usize::from(*b)] {
            kept[place] = false;
        }
    }
}

// True only if each label has at most one bond to a lower label. It may answer `false` even if this holds.
fn is_forest(arena: &Bump, ends: &[(u16, u16)], labels: &[u16]) -> Result<bool, AllocError>
    requires { IsSimpleGraph (length labels.now) ends.now }
    ensures { result ≡ Ok true → AreForest ends.now labels.now }
{
    let mut taken = vec![in arena; false; labels.len()]?;
    for place in 0..ends.len() {
        if !take(&mut taken, ends, labels, place) {
            return Ok(false);
        }
    }
    Ok(true)
}

// Takes the higher label of a bond between two labels, unless a bond before it took that.
fn take(taken: &mut [bool], ends: &[(u16, u16)], labels: &[u16], place: usize) -> bool
    requires graph { IsSimpleGraph (length labels.now) ends.now }
    requires place { place < length ends.now }
    requires taken { AreTaken ends.now labels.now taken.old place }
    ensures { result ≡ true → AreTaken ends.now labels.now taken.new (place + 1) }
{
    let (a, b) = ends[place];
    let Some(high) = higher(labels[usize::from(a)], labels[usize::from(b)]) else {
        return true;
    };
    let high = usize::from(high);
    if high >= taken.len() || taken[high] {
        return false;
    }
    taken[high] = true;
    true
}

// The higher of two labels, if they differ.
fn higher(one: u16, other: u16) -> Option<u16>
    ensures { MatchOption result (one ≡ other)
        (λ high. ((one < other) × (high ≡ other)) ⊎ ((other < one) × (high ≡ one))) }
{
    if one == other {
        None
    } else if one < other {
        Some(other)
    } else {
        Some(one)
    }
}

// A label for each atom: the number of the first atom that it hangs together with by rings.
fn labels<'a>(arena: &'a Bump, graph: &Adjacency<'_>) -> Result<Vec<u16, &'a Bump>, AllocError>
    ensures { IfOk result (λ labels. length labels.items ≡ graph.now.atoms) }
{
    let unseen = Seen {
        number: NONE,
        from: NONE,
        bond: NONE,
        low: NONE,
    };
    let mut visits = vec![in arena; unseen; graph.atoms()]?;
    let mut order = Vec::with_capacity(arena, graph.atoms())?;
    let mut ways = Vec::new(arena);
    walk(graph, &mut visits, &mut order, &mut ways)?;
    find_lows(graph, &order, &mut visits);
    let mut labels = vec![in arena; 0; graph.atoms()]?;
    for atom in order.iter() {
        label(*atom, &visits, &mut labels);
    }
    Ok(labels)
}

// Walks to all atoms.
fn walk(
    graph: &Adjacency<'_>,
    visits: &mut [Seen],
    order: &mut Vec<u16, &Bump>,
    ways: &mut Vec<Way, &Bump>,
) -> Result<(), AllocError>
    requires { length visits.old ≡ graph.now.atoms }
{
    for atom in 0..graph.atoms() {
        walk_from(graph, atom as u16, visits, order, ways)?;
    }
    Ok(())
}

// Walks to all atoms that can be reached from the first and that the walk has not come to.
fn walk_from(
    graph: &Adjacency<'_>,
    first: u16,
    visits: &mut [Seen],
    order: &mut Vec<u16, &Bump>,
    ways: &mut Vec<Way, &Bump>,
) -> Result<(), AllocError>
    requires { length visits.old ≡ graph.now.atoms }
{
    ways.clear();
    ways.push(Way {
        to: first,
        from: NONE,
        bond: NONE,
    })?;
    // Each bond is a way from both of its ends, once.
    for _ in 0..=2 * graph.ends().len() {
        match ways.pop() {
            Some(way) => visit(graph, way, visits, order, ways)?,
            None => break,
        }
    }
    Ok(())
}

// Comes to an atom for the first time, and sees the ways from there.
fn visit(
    graph: &Adjacency<'_>,
    way: Way,
    visits: &mut [Seen],
    order: &mut Vec<u16, &Bump>,
    ways: &mut Vec<Way, &Bump>,
) -> Result<(), AllocError>
    requires { length visits.old ≡ graph.now.atoms }
{
    let atom = usize::from(way.to);
    if atom >= visits.len() || visits[atom].number != NONE {
        return Ok(());
    }
    visits[atom] = Seen {
        number: u16::try_from(order.len()).unwrap_or(NONE),
        from: way.from,
        bond: way.bond,
        low: NONE,
    };
    order.push(way.to)?;
    for step in graph.steps_from(way.to) {
        ways.push(Way {
            to: step.to,
            from: way.to,
            bond: step.bond,
        })?;
    }
    Ok(())
}

// Finds the lows, those of later atoms first.
fn find_lows(graph: &Adjacency<'_>, order: &[u16], visits: &mut [Seen])
    requires { length visits.old ≡ graph.now.atoms }
{
    for atom in order.iter().rev() {
        let low = low_of(graph, *atom, visits);
        if let Some(visit) = visits.get_mut(usize::from(*atom)) {
            visit.low = low;
        }
    }
}

// An atom's low number. Those of the atoms reached from it must be known.
fn low_of(graph: &Adjacency<'_>, atom: u16, visits: &[Seen]) -> u16
    requires { length visits.now ≡ graph.now.atoms }
{
    let place = usize::from(atom);
    if place >= visits.len() {
        return NONE;
    }
    let here = visits[place];
    let mut low = here.number;
    for step in graph.steps_from(atom) {
        if step.bond == here.bond {
            continue;
        }
        if let Some(there) = visits.get(usize::from(step.to)) {
            let reached = there.bond == step.bond;
            low = low.min(if reached { there.low } else { there.number });
        }
    }
    low
}

// Labels an atom, if the atom that it was reached from has a label: with that label, if bonds lead back past it.
fn label(atom: u16, visits: &[Seen], labels: &mut [u16]) {
    let Some(visit) = visits.get(usize::from(atom)) else {
        return;
    };
    let before = labels.get(usize::from(visit.from)).copied();
    let own = visit.low == visit.number;
    let label = before.filter(|_| !own).unwrap_or(visit.number);
    if let Some(place) = labels.get_mut(usize::from(atom)) {
        *place = label;
    }
}
