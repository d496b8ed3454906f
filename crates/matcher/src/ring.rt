//! Rings of a graph. An embedding maps each ring to a ring of the molecule, so the smallest rings of its atoms are no
//! longer than it. A ring is found as a bond between two places and a way between them along first bonds.
ghost use Rattle.std.specs.Prelude.{◌≡◌, ◌≢◌, ◌<◌, ◌≤◌, ◌+◌, [], ℕ, List, false, length, slice_index, slice_index_or, vec_len, Contains, IfSome, IsTrue};
ghost use Rattle.chem_core.specs.Graph.{IsSimpleCycle, JoinsAt};
ghost use Rattle.chem_core.specs.Molecule.{ends_of};
ghost use Rattle.smarts_parse.specs.Pattern.{graph_of};
ghost use Rattle.smarts_parse.specs.Sound.{pattern_ends};
ghost use Rattle.matcher.specs.Plan.{IsReady, step_at};
ghost use Rattle.matcher.specs.Ring.{AreRingMarks, IsMarked, IsMarkedWay, IsWay};
ghost use Rattle.matcher.specs.Task.{Completes, Embeds, IsReadyTask};

use crate::class::may_be;
use crate::plan::EarlierBonds;
use crate::planned::MOST_PLACES;
use crate::task::Task;
use smarts_parse::{Graph, PatBond};
use std::alloc::{AllocError, Global};

/// The bonds of a graph that may close rings, of which nothing is promised, and its bonds on rings.
#[derive(Debug, Drop)]
pub struct Closing {
    bonds: Vec<u16>,
    count: usize,
    // for each bond of the graph, true if it is known to lie on a ring of the graph
    on_ring: Vec<bool>,
    // `true` for each bond
    all: Vec<bool>,
    /// True if a bond of the graph is known to lie on a ring.
    pub has_ring: bool,
    /// True if a bond of the graph is not known to lie on a ring.
    pub has_open: bool,
    ghost room: { count ≤ vec_len bonds },
}

impl Closing {
    /// Takes the memory.
    pub fn reserve(alloc: Global) -> Result<Closing, AllocError> {
        Ok(Closing {
            bonds: vec![in alloc; 0; MOST_PLACES]?,
            count: 0,
            on_ring: vec![in alloc; false; MOST_PLACES]?,
            all: vec![in alloc; true; MOST_PLACES]?,
            has_ring: false,
            has_open: true,
        })
    }

    /// Finds the bonds of a graph.
    pub fn find(&mut self, graph: &Graph, steps: &[EarlierBonds])
        requires { IsReady (graph_of graph.now) steps.now }
        ensures { AreRingMarks (graph_of graph.now) self.new.on_ring.items }
    {
        self.count = find_closing(&graph.bonds, steps, &mut self.bonds);
        let closing = &self.bonds[..self.count];
        mark_rings(graph, steps, closing, &mut self.on_ring);
        self.has_ring = has_mark(graph, &self.on_ring);
        self.has_open = !has_all(graph, &self.on_ring);
    }

    /// The bonds that may close rings, by their numbers.
    pub fn bonds(&self) -> &[u16] {
        &self.bonds[..self.count]
    }

    /// For each bond whether it is known to lie on a ring.
    pub fn marks(&self) -> &[bool] {
        &self.on_ring
    }

    /// The marks of the bonds that are known to lie on rings; `None` if no bond is.
    pub fn rings(&self) -> Option<&[bool]>
        ensures { IfSome result (λ marks. IsTrue self.now.has_ring × (marks.now ≡ self.now.on_ring.items)) }
    {
        if self.has_ring {
            Some(&self.on_ring)
        } else {
            None
        }
    }

    /// Marks of all bonds; `None` if all are known to lie on rings.
    pub fn all(&self) -> Option<&[bool]>
        ensures { IfSome result (λ marks. IsTrue self.now.has_open) }
    {
        if self.has_open { Some(&self.all) } else { None }
    }
}

// Finds the bonds that are not the first from their higher end to an earlier place. Returns the number of them.
fn find_closing(bonds: &[PatBond], steps: &[EarlierBonds], found: &mut [u16]) -> usize
    ensures { result ≤ length found.old }
{
    let mut count = 0;
    for (place, bond) in bonds.iter().enumerate() {
        if !is_first(bond, place, steps) {
            count = put(found, count, place);
        }
    }
    count
}

// True if a bond is the first from its higher end to an earlier place.
fn is_first(bond: &PatBond, place: usize, steps: &[EarlierBonds]) -> bool {
    match steps.get(usize::from(bond.a.max(bond.b))) {
        Some(step) => step.from == place,
        None => false,
    }
}

// Appends a bond, if there is room. Returns the new number of bonds.
fn put(found: &mut [u16], count: usize, bond: usize) -> usize
    requires { count ≤ length found.old }
    ensures { result ≤ length found.old }
{
    match (found.get_mut(count), u16::try_from(bond)) {
        (Some(slot), Ok(number)) => {
            *slot = number;
            count + 1
        }
        _ => count,
    }
}

/// True only if a ring of the graph that one of these bonds closes fits no ring of the molecule, by lengths and
/// classes.
pub fn lacks_ring(task: &Task, closing: &[u16]) -> bool
    requires { IsReadyTask task.now }
    ensures { IsTrue result → ¬ Completes task.now [] }
{
    for bond in closing {
        let place = usize::from(*bond);
        if place < task.graph.bonds.len() && lacks_closed(task, place) {
            return true;
        }
    }
    false
}

// As `lacks_ring`, but of the ring that a bond closes, if it closes one.
fn lacks_closed(task: &Task, place: usize) -> bool
    requires ready { IsReadyTask task.now }
    requires place { place < length task.now.graph.now.bonds.items }
    ensures { IsTrue result → ¬ Completes task.now [] }
{
    let bond = &task.graph.bonds[place];
    let high = usize::from(bond.a.max(bond.b));
    let low = usize::from(bond.a.min(bond.b));
    if task.steps[high].from == place {
        return false;
    }
    let Some(links) = way_down(task.graph, task.steps, high, low) else {
        return false;
    };
    if links < 2 {
        return false;
    }
    !has_ring_atom(task, low, links)
}

// Marks bonds of the graph that lie on rings that one of these bonds closes, and no others.
fn mark_rings(graph: &Graph, steps: &[EarlierBonds], closing: &[u16], marks: &mut [bool])
    requires { IsReady (graph_of graph.now) steps.now }
    ensures { AreRingMarks (graph_of graph.now) marks.new }
{
    marks.fill(false);
    for bond in closing {
        let place = usize::from(*bond);
        if place < graph.bonds.len() {
            mark_closed(graph, steps, marks, place);
        }
    }
}

// Marks the bonds of the ring that a bond closes, if it closes one.
fn mark_closed(graph: &Graph, steps: &[EarlierBonds], marks: &mut [bool], place: usize)
    requires ready { IsReady (graph_of graph.now) steps.now }
    requires place { place < length graph.now.bonds.items }
    requires rings { AreRingMarks (graph_of graph.now) marks.old }
    ensures { AreRingMarks (graph_of graph.now) marks.new }
{
    let bond = &graph.bonds[place];
    let high = usize::from(bond.a.max(bond.b));
    let low = usize::from(bond.a.min(bond.b));
    if steps[high].from == place {
        return;
    }
    if mark_way(graph, steps, marks, high, low, 0) {
        mark(marks, place);
    }
}

// Marks the first bonds on the way from a place down to a lower one, if they lead there. With `above` they must be two
// at least.
fn mark_way(
    graph: &Graph,
    steps: &[EarlierBonds],
    marks: &mut [bool],
    from: usize,
    to: usize,
    above: usize,
) -> bool
    requires ready { IsReady (graph_of graph.now) steps.now }
    requires from { from < length graph.now.atoms.items }
    requires above { above + from ≤ 256 }
    ensures kept { result ≡ false → marks.new ≡ marks.old }
    ensures way { IsTrue result → IsMarkedWay (graph_of graph.now) from to above marks.old marks.new }
{
    if from == to && above >= 2 {
        return true;
    }
    let Some(next) = place_below(graph, steps, from) else {
        return false;
    };
    if !mark_way(graph, steps, marks, next, to, above + 1) {
        return false;
    }
    mark(marks, steps[from].from);
    true
}

// Marks a bond.
fn mark(marks: &mut [bool], place: usize)
    ensures { (j : ℕ) → j ≢ place
        → slice_index_or marks.new j false ≡ slice_index_or marks.old j false }
{
    if place < marks.len() {
        marks[place] = true;
    }
}

// True if a bond of the graph is marked.
fn has_mark(graph: &Graph, marks: &[bool]) -> bool {
    for index in 0..graph.bonds.len() {
        if is_marked(marks, index) {
            return true;
        }
    }
    false
}

// True if all bonds of the graph are marked.
fn has_all(graph: &Graph, marks: &[bool]) -> bool {
    for index in 0..graph.bonds.len() {
        if !is_marked(marks, index) {
            return false;
        }
    }
    true
}

/// True if the bond is marked.
pub fn is_marked(marks: &[bool], index: usize) -> bool
    ensures { result ≡ slice_index_or marks.now index false }
{
    match marks.get(index) {
        Some(mark) => *mark,
        None => false,
    }
}

// The number of bonds on the way from a place to a lower one along first bonds; `None` if these do not lead there.
fn way_down(graph: &Graph, steps: &[EarlierBonds], from: usize, to: usize) -> Option<usize>
    requires ready { IsReady (graph_of graph.now) steps.now }
    requires from { from < length graph.now.atoms.items }
    ensures few { IfSome result (λ links. links ≤ from) }
    ensures way { IfSome result
        (λ links. (places : List ℕ) × (length places ≡ links) × IsWay (graph_of graph.now) from to places) }
{
    if from == to {
        return Some(0);
    }
    let next = place_below(graph, steps, from)?;
    let links = way_down(graph, steps, next, to)?;
    Some(links + 1)
}

// The earlier place to which the first bond of a place leads, if it has one.
fn place_below(graph: &Graph, steps: &[EarlierBonds], place: usize) -> Option<usize>
    requires ready { IsReady (graph_of graph.now) steps.now }
    requires place { place < length graph.now.atoms.items }
    ensures lower { IfSome result (λ next. next < place) }
    ensures joined { IfSome result (λ next.
        JoinsAt (pattern_ends (graph_of graph.now)) (step_at steps.now place).from place next) }
{
    let step = steps[place];
    if step.from >= step.to {
        return None;
    }
    let bond = &graph.bonds[step.from];
    Some(usize::from(bond.a.min(bond.b)))
}

// False only if no atom that the place may be mapped to, by classes, has a smallest ring of at most `links + 1` bonds.
fn has_ring_atom(task: &Task, place: usize, links: usize) -> bool
    requires ready { IsReadyTask task.now }
    requires place { place < length task.now.graph.now.atoms.items }
    ensures { result ≡ false → (image : List ℕ) → Embeds task.now image
        → (ring : List ℕ) → IsSimpleCycle (ends_of task.now.mol.now) ring
        → Contains ring (slice_index image place) → length ring ≡ links + 1 → ⊥ }
{
    let classes = task.steps[place].classes;
    let atoms = task.mol.atoms();
    for atom in 0..atoms.len() as u16 {
        if !may_be(classes, atoms[usize::from(atom)]) {
            continue;
        }
        let small = usize::from(task.mol.small(atom));
        if small == 0 || small - 1 > links {
            continue;
        }
        return true;
    }
    false
}
