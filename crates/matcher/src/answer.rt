//! The calls of the crate: the least embedding of a pattern, and a test whether there is an embedding.
ghost use Rattle.std.specs.Prelude.{◌≡◌, ◌<◌, ◌≤◌, ◌↔◌, ◌+◌, ◌∷◌, [], false, length, map, take, IfNone, IfSome, IsTrue};
ghost use Rattle.smarts_mean.specs.Table.{HoldsIn};
ghost use Rattle.smarts_parse.specs.Embedding.{Matches};
ghost use Rattle.smarts_parse.specs.Pattern.{graph_of, pattern_of, term_of, Prim};
ghost use Rattle.smarts_parse.specs.Sound.{IsSoundPattern};
ghost use Rattle.matcher.specs.Candidates.{AreCandidates};
ghost use Rattle.matcher.specs.Least.{IsLeast};
ghost use Rattle.matcher.specs.Partial.{CanComplete};
ghost use Rattle.matcher.specs.Plan.{IsReady};
ghost use Rattle.matcher.specs.Prepared.{IsPrepared};
ghost use Rattle.matcher.specs.Ring.{AreRingMarks};
ghost use Rattle.matcher.specs.Laid.{IsRouteOf};
ghost use Rattle.matcher.specs.Task.{Completes, IsReadyTask};

use crate::candidates::{Candidates, MOST_BITS};
use crate::choices::Choices;
use crate::follow::{Trail, follow};
use crate::grouping::Grouping;
use crate::hunt::{is_whole, may_continue};
use crate::lay::{NO_BOND, Order, Placement, is_rare};
use crate::lean::place_least;
use crate::narrow::{Narrowing, may_narrow};
use crate::parts::note_parts;
use crate::plan::{EarlierBonds, is_loose};
use crate::prepare::Prepared;
use crate::refusal::{has_bond, is_crowded, lacks_atom};
use crate::ring::{Closing, lacks_ring};
use crate::scratch::{Memory, Scratch};
use crate::task::Task;
use chem_core::Mol;
use smarts_parse::{Expr, Graph, Pattern};

/// The most places of a graph for which `is_crowded` is not asked.
const FEW_PLACES: usize = 8;

/// An embedding of a pattern: for each atom of its top graph an atom of the molecule.
#[derive(Debug, Drop)]
pub struct Embedding<'s> {
    pub atoms: &'s [u16],
}

/// The lexicographically least embedding of the pattern in the molecule; `None` only if there is no embedding.
///
/// Takes no memory. The worst case takes exponential time.
pub fn first<'s>(pattern: &Pattern, mol: &Mol, scratch: &'s mut Scratch) -> Option<Embedding<'s>>
    requires { IsSoundPattern (pattern_of pattern.now) }
    ensures some { IfSome result (λ embedding. IsLeast (pattern_of pattern.now) mol.now embedding.atoms.now) }
    ensures none { IfNone result (¬ Matches (pattern_of pattern.now) mol.now) }
{
    scratch.prepare(pattern);
    if find(pattern, &scratch.prepared, mol, &mut scratch.memory) {
        Some(Embedding {
            atoms: &scratch.memory.image[..pattern.top.atoms.len()],
        })
    } else {
        None
    }
}

/// True if the pattern has an embedding in the molecule.
///
/// Takes no memory. The worst case takes exponential time.
pub fn has(pattern: &Pattern, mol: &Mol, scratch: &mut Scratch) -> bool
    requires { IsSoundPattern (pattern_of pattern.now) }
    ensures { IsTrue result ↔ Matches (pattern_of pattern.now) mol.now }
{
    scratch.prepare(pattern);
    scratch.has(pattern, mol)
}

impl Scratch {
    ghost use Rattle.matcher.specs.Prepared.{IsPreparedFor};

    /// True if the pattern, which was prepared last, has an embedding in the molecule.
    ///
    /// Takes no memory. The worst case takes exponential time.
    pub fn has(&mut self, pattern: &Pattern, mol: &Mol) -> bool
        requires sound { IsSoundPattern (pattern_of pattern.now) }
        requires prepared { IsPreparedFor (pattern_of pattern.now) self.old }
        ensures has { IsTrue result ↔ Matches (pattern_of pattern.now) mol.now }
        ensures prepared { IsPreparedFor (pattern_of pattern.now) self.new }
    {
        matches(pattern, &self.prepared, mol, &mut self.memory)
    }
}

// True if the pattern, for which all is prepared, has an embedding in the molecule.
fn matches(pattern: &Pattern, prepared: &Prepared, mol: &Mol, memory: &mut Memory) -> bool
    requires sound { IsSoundPattern (pattern_of pattern.now) }
    requires prepared { IsPrepared (pattern_of pattern.now) prepared.now }
    ensures { IsTrue result ↔ Matches (pattern_of pattern.now) mol.now }
{
    if mol.counts().lacks(&prepared.asked) {
        return false;
    }
    if lacks_atom(pattern, prepared.plans.top(pattern), mol) {
        return false;
    }
    match prepared.part {
        Some(part) => {
            note_parts(pattern, prepared, mol, memory, part);
            let steps = prepared.plans.part(pattern, part);
            exists(&pattern.recs[part], steps, prepared, mol, memory)
        }
        None => {
            note_parts(pattern, prepared, mol, memory, pattern.recs.len());
            let steps = prepared.plans.top(pattern);
            exists(&pattern.top, steps, prepared, mol, memory)
        }
    }
}

// True if the graph has an embedding. The table says at which atoms recursive parts hold.
fn exists(
    graph: &Graph,
    steps: &[EarlierBonds],
    prepared: &Prepared,
    mol: &Mol,
    memory: &mut Memory,
) -> bool
    requires ready { IsReady (graph_of graph.now) steps.now }
    requires marks { AreRingMarks (graph_of graph.now) prepared.now.closing.on_ring.items }
    requires route { IsRouteOf (graph_of graph.now) prepared.now.route }
    ensures { IsTrue result ↔ CanComplete (HoldsIn memory.old.table) (graph_of graph.now) mol.now [] }
{
    let task = Task {
        graph,
        mol,
        table: &memory.table,
        steps,
    };
    let candidates = &mut memory.candidates;
    if is_refused(&task, &prepared.closing, candidates, &mut memory.narrowing) {
        return false;
    }
    let image = &mut memory.image;
    let route = &prepared.route;
    if route.has_stops() && mol.atoms().len() <= MOST_BITS {
        if let Some(found) = follow(&task, candidates, route, &mut memory.trail, image) {
            return found;
        }
    }
    if is_refused_apart(&task, candidates, &mut memory.grouping, &mut memory.choices) {
        return false;
    }
    if let Some(found) = seek(&task, candidates, &prepared.order, image) {
        return found;
    }
    place_least(&task, candidates, image, &mut memory.choices)
}

// Searches in the graph's own order. Returns whether there is an embedding; `None` if the search does not decide it, or
// if it would begin at the first place, as the search for the least embedding does.
fn seek(task: &Task, candidates: &Candidates, order: &Order, image: &mut [u16]) -> Option<bool>
    requires ready { IsReadyTask task.now }
    requires room { length task.now.graph.now.atoms.items ≤ length image.old }
    requires candidates { AreCandidates task.now candidates.now.words.items }
    ensures { IfSome result (λ found. IsTrue found ↔ Completes task.now []) }
{
    let stops = order.stops();
    if stops.is_empty() {
        return None;
    }
    if order.is_loose() {
        return if lacks_component(task, candidates, stops, image) {
            Some(false)
        } else {
            None
        };
    }
    if finds_none(task, candidates, stops, image) {
        return Some(false);
    }
    if is_whole(task, candidates, image) {
        return Some(true);
    }
    None
}

// True if one of the components, whose stops follow one another, has no embedding by itself. Embeddings of different
// components could still meet.
fn lacks_component(
    task: &Task,
    candidates: &Candidates,
    stops: &[Placement],
    image: &mut [u16],
) -> bool
    requires ready { IsReadyTask task.now }
    requires room { length task.now.graph.now.atoms.items ≤ length image.old }
    requires candidates { AreCandidates task.now candidates.now.words.items }
    ensures { IsTrue result → ¬ Completes task.now [] }
{
    for begin in 0..stops.len() {
        if stops[begin].bond != NO_BOND {
            continue;
        }
        let end = end_of_component(stops, begin);
        if finds_none(task, candidates, &stops[begin..end], image) {
            return true;
        }
    }
    false
}

// The end of the component that begins at a stop.
fn end_of_component(stops: &[Placement], begin: usize) -> usize
    requires { begin < length stops.now }
    ensures from { begin ≤ result }
    ensures to { result ≤ length stops.now }
{
    for next in begin + 1..stops.len() {
        if stops[next].bond == NO_BOND {
            return next;
        }
    }
    stops.len()
}

// True only if a search in this order shows that there is no embedding. If false, the image has the result of the
// search.
fn finds_none(task: &Task, candidates: &Candidates, order: &[Placement], image: &mut [u16]) -> bool
    requires ready { IsReadyTask task.now }
    requires room { length task.now.graph.now.atoms.items ≤ length image.old }
    requires candidates { AreCandidates task.now candidates.now.words.items }
    ensures { IsTrue result → ¬ Completes task.now [] }
{
    let no_atom = task.mol.atoms().len() as u16;
    for place in 0..task.graph.atoms.len() {
        image[place] = no_atom;
    }
    !may_continue(task, candidates, order, image, 0, 0)
}

// Writes the least embedding at the front of the image. Returns false if there is no embedding.
fn find(pattern: &Pattern, prepared: &Prepared, mol: &Mol, memory: &mut Memory) -> bool
    requires sound { IsSoundPattern (pattern_of pattern.now) }
    requires prepared { IsPrepared (pattern_of pattern.now) prepared.now }
    ensures found { IsTrue result → IsLeast (pattern_of pattern.now) mol.now
        (take (length pattern.now.top.atoms.items) memory.new.image.items) }
    ensures none { result ≡ false → ¬ Matches (pattern_of pattern.now) mol.now }
{
    let steps = prepared.plans.top(pattern);
    if lacks_atom(pattern, steps, mol) {
        return false;
    }
    note_parts(pattern, prepared, mol, memory, pattern.recs.len());
    let task = Task {
        graph: &pattern.top,
        mol,
        table: &memory.table,
        steps,
    };
    let candidates = &mut memory.candidates;
    if is_refused(&task, &prepared.closing, candidates, &mut memory.narrowing) {
        return false;
    }
    if is_refused_apart(&task, candidates, &mut memory.grouping, &mut memory.choices) {
        return false;
    }
    let image = &mut memory.image;
    place_least(&task, &memory.candidates, image, &mut memory.choices)
}

// True only if quick tests show that the graph, whose bonds on rings are marked, has no embedding. If false, the
// candidates of its places are found.
fn is_refused(
    task: &Task,
    closing: &Closing,
    candidates: &mut Candidates,
    narrowing: &mut Narrowing,
) -> bool
    requires ready { IsReadyTask task.now }
    requires marks { AreRingMarks (graph_of task.now.graph.now) closing.now.on_ring.items }
    ensures refused { IsTrue result → ¬ Completes task.now [] }
    ensures candidates { result ≡ false → AreCandidates task.now candidates.new.words.items }
{
    if !may_narrow(task) && lacks_ring(task, closing.bonds()) {
        return true;
    }
    if task.graph.atoms.len() > FEW_PLACES && is_crowded(task) {
        return true;
    }
    candidates.find(task);
    if lacks_candidate(task, candidates) {
        return true;
    }
    narrowing.refuse(task, closing, candidates)
}

// As `is_refused`, by bonds that few bonds fit, by groups, and by choices of different atoms for all places.
fn is_refused_apart(
    task: &Task,
    candidates: &mut Candidates,
    grouping: &mut Grouping,
    choices: &mut Choices,
) -> bool
    requires ready { IsReadyTask task.now }
    requires candidates { AreCandidates task.now candidates.old.words.items }
    ensures refused { IsTrue result → ¬ Completes task.now [] }
    ensures candidates { AreCandidates task.now candidates.new.words.items }
{
    if lacks_bond(task, candidates) {
        return true;
    }
    if grouping.refuse(task, candidates) {
        return true;
    }
    choices.begin_search();
    is_loose(task.steps) && choices.refuse(task, candidates, &[])
}

// True if a place has no candidate, in a molecule of at most 64 atoms.
fn lacks_candidate(task: &Task, candidates: &Candidates) -> bool
    requires ready { IsReadyTask task.now }
    requires candidates { AreCandidates task.now candidates.now.words.items }
    ensures { IsTrue result → ¬ Completes task.now [] }
{
    if task.mol.atoms().len() > 64 {
        return false;
    }
    for place in 0..task.graph.atoms.len() {
        let word = candidates.words[place];
        if word == 0 {
            return true;
        }
    }
    false
}

// True only if a double or triple bond of the graph fits no bond of the molecule. Other bonds are sooner searched for.
fn lacks_bond(task: &Task, candidates: &Candidates) -> bool
    requires ready { IsReadyTask task.now }
    requires candidates { AreCandidates task.now candidates.now.words.items }
    ensures { IsTrue result → ¬ Completes task.now [] }
{
    for place in 0..task.graph.bonds.len() {
        if !is_rare(&task.graph.bonds[place]) {
            continue;
        }
        if place > 0 && is_alike(task, place) {
            continue;
        }
        if !has_bond(task, candidates, place) {
            return true;
        }
    }
    false
}

// True if a bond of the graph has the primitive of its first bond, and ends of the same classes.
fn is_alike(task: &Task, place: usize) -> bool
    requires { place < length task.now.graph.now.bonds.items }
{
    let first = &task.graph.bonds[0];
    let bond = &task.graph.bonds[place];
    let same = match (&first.expr, &bond.expr) {
        (Expr::Prim(one), Expr::Prim(two)) => one == two,
        _ => false,
    };
    same && classes_at(task, first.a) == classes_at(task, bond.a)
        && classes_at(task, first.b) == classes_at(task, bond.b)
}

// The classes of the atoms that a place may be mapped to.
fn classes_at(task: &Task, place: u16) -> u64 {
    match task.steps.get(usize::from(place)) {
        Some(step) => step.classes,
        None => 0,
    }
}
