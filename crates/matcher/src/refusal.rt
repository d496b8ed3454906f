//! Tests that show that the places left of a graph cannot be mapped: k of them have fewer than k candidates together.
ghost use Rattle.std.specs.Prelude.{◌≡◌, ◌<◌, ◌≤◌, ◌++◌, [], ℕ, List, false, true, count_by, length, max, slice_index, slice_index_or, IsTrue};
ghost use Rattle.chem_core.specs.Graph.{JoinsAt};
ghost use Rattle.chem_core.specs.Molecule.{ends_of};
ghost use Rattle.smarts_parse.specs.Embedding.{Matches};
ghost use Rattle.smarts_parse.specs.Pattern.{graph_of, pattern_of, term_of};
ghost use Rattle.smarts_parse.specs.Truth.{BondTrue};
ghost use Rattle.matcher.specs.Class.{is_among, is_within};
ghost use Rattle.matcher.specs.Candidates.{AreCandidates};
ghost use Rattle.matcher.specs.Group.{IsInMarked};
ghost use Rattle.matcher.specs.Plan.{IsReady};
ghost use Rattle.matcher.specs.Task.{Completes, Embeds, IsReadyTask};

use crate::candidates::Candidates;
use crate::class::may_be;
use crate::fit::is_new;
use crate::group::{begins_group, keeps_groups};
use crate::plan::EarlierBonds;
use crate::task::Task;
use chem_core::{Atom, Mol};
use smarts_mean::bond_true;
use smarts_parse::{PatBond, Pattern};

/// True only if an atom of the pattern's top graph, with these steps, can be mapped to no atom of the molecule, by
/// classes. The molecule keeps the classes of its atoms, so this costs a few steps.
pub fn lacks_atom(pattern: &Pattern, steps: &[EarlierBonds], mol: &Mol) -> bool
    requires { IsReady (graph_of pattern.now.top) steps.now }
    ensures { IsTrue result → ¬ Matches (pattern_of pattern.now) mol.now }
{
    let present = mol.classes();
    for step in &steps[..pattern.top.atoms.len()] {
        if step.classes & present == 0 {
            return true;
        }
    }
    false
}

/// True only if the marked places are more than the marked atoms, and can be mapped to no others after `front`. Then no
/// embedding extends `front`.
pub fn excludes(
    task: &Task,
    candidates: &Candidates,
    front: &[u16],
    places: &[bool],
    atoms: &[bool],
) -> bool
    requires ready { IsReadyTask task.now }
    requires places { length places.now ≤ length task.now.graph.now.atoms.items }
    requires atoms { length atoms.now ≡ length task.now.mol.now.atoms }
    requires candidates { AreCandidates task.now candidates.now.words.items }
    ensures { IsTrue result → ¬ Completes task.now front.now }
{
    if marked(places) <= marked(atoms) {
        return false;
    }
    for place in 0..places.len() {
        if !places[place] {
            continue;
        }
        if !stays_within(task, candidates, front, atoms, place) {
            return false;
        }
    }
    true
}

/// As `excludes`, for components: more marked places, each the first of a group, than marked components, by their least
/// atoms, and the groups fit no other.
pub fn excludes_groups(
    task: &Task,
    candidates: &Candidates,
    front: &[u16],
    places: &[bool],
    components: &[bool],
) -> bool
    requires ready { IsReadyTask task.now }
    requires places { length places.now ≤ length task.now.graph.now.atoms.items }
    requires components { length components.now ≡ length task.now.mol.now.atoms }
    requires candidates { AreCandidates task.now candidates.now.words.items }
    ensures { IsTrue result → ¬ Completes task.now front.now }
{
    if marked(places) <= marked(components) {
        return false;
    }
    for place in 0..places.len() {
        if !places[place] {
            continue;
        }
        if !begins_group(task, place) {
            return false;
        }
        if !stays_in(task, candidates, front, components, place) {
            return false;
        }
    }
    true
}

/// True if the places whose classes are all among those of the first are more than the atoms of these classes. Then the
/// graph has no embedding.
pub fn is_crowded(task: &Task) -> bool
    requires ready { IsReadyTask task.now }
    requires some { 0 < length task.now.graph.now.atoms.items }
    ensures { IsTrue result → ¬ Completes task.now [] }
{
    let classes = task.steps[0].classes;
    let atoms = atoms_within(task.mol.atoms(), classes);
    if places_within(&task.steps[..task.graph.atoms.len()], classes) <= atoms {
        return false;
    }
    true
}

/// The number of steps that have no classes but these.
pub fn places_within(steps: &[EarlierBonds], classes: u64) -> usize
    ensures { result ≡ count_by (is_within classes) steps.now }
{
    let mut count = 0;
    for step in steps {
        if step.classes | classes == classes {
            count += 1;
        }
    }
    count
}

// The number of atoms of these classes.
fn atoms_within(atoms: &[Atom], classes: u64) -> usize
    ensures { result ≡ count_by (is_among classes) atoms.now }
{
    let mut count = 0;
    for atom in atoms {
        if may_be(classes, *atom) {
            count += 1;
        }
    }
    count
}

// The number of marks that are set.
fn marked(marks: &[bool]) -> usize
    ensures { result ≡ count_by (λ mark. mark) marks.now }
{
    marks.iter().filter(|mark| **mark).count()
}

// True only if each embedding that extends `front` maps the place, which is not in `front`, to a marked atom.
fn stays_within(
    task: &Task,
    candidates: &Candidates,
    front: &[u16],
    atoms: &[bool],
    place: usize,
) -> bool
    requires ready { IsReadyTask task.now }
    requires place { place < length task.now.graph.now.atoms.items }
    requires atoms { length atoms.now ≡ length task.now.mol.now.atoms }
    requires candidates { AreCandidates task.now candidates.now.words.items }
    ensures { IsTrue result → (rest : List ℕ)
        → Embeds task.now (front.now ++ rest)
        → slice_index_or atoms.now (slice_index (front.now ++ rest) place) false ≡ true }
{
    if place < front.len() {
        return false;
    }
    for atom in 0..task.mol.atoms().len() as u16 {
        if atoms[usize::from(atom)] {
            continue;
        }
        if may_stand(task, candidates, front, place, atom) {
            return false;
        }
    }
    true
}

// True only if each embedding that extends `front` maps the place, which is not in `front`, into a marked component.
fn stays_in(
    task: &Task,
    candidates: &Candidates,
    front: &[u16],
    components: &[bool],
    place: usize,
) -> bool
    requires ready { IsReadyTask task.now }
    requires place { place < length task.now.graph.now.atoms.items }
    requires components { length components.now ≡ length task.now.mol.now.atoms }
    requires candidates { AreCandidates task.now candidates.now.words.items }
    ensures { IsTrue result → (rest : List ℕ) → Embeds task.now (front.now ++ rest)
        → IsInMarked task.now.mol.now components.now (slice_index (front.now ++ rest) place) }
{
    if place < front.len() {
        return false;
    }
    for atom in 0..task.mol.atoms().len() as u16 {
        if components[usize::from(task.mol.component(atom))] {
            continue;
        }
        if may_stand(task, candidates, front, place, atom) {
            return false;
        }
    }
    true
}

/// False only if no bond of the molecule fits a bond of the graph with both its ends. Then the graph has no embedding.
pub fn has_bond(task: &Task, candidates: &Candidates, place: usize) -> bool
    requires ready { IsReadyTask task.now }
    requires place { place < length task.now.graph.now.bonds.items }
    requires candidates { AreCandidates task.now candidates.now.words.items }
    ensures { result ≡ false → ¬ Completes task.now [] }
{
    let bond = &task.graph.bonds[place];
    for other in 0..task.mol.bonds().len() as u16 {
        if may_lie(task, candidates, bond, other) {
            return true;
        }
    }
    false
}

// False only if the bond `other` of the molecule does not fit a bond of the graph with both its ends.
fn may_lie(task: &Task, candidates: &Candidates, bond: &PatBond, other: u16) -> bool
    requires ready { IsReadyTask task.now }
    requires ends { max bond.now.a bond.now.b < length task.now.graph.now.atoms.items }
    requires other { other < length task.now.mol.now.bonds }
    requires candidates { AreCandidates task.now candidates.now.words.items }
    ensures { result ≡ false → (image : List ℕ) → Embeds task.now image
        → JoinsAt (ends_of task.now.mol.now) other (slice_index image bond.now.a) (slice_index image bond.now.b)
        → BondTrue (term_of bond.now.expr) task.now.mol.now other → ⊥ }
{
    if !bond_true(&bond.expr, task.mol, other) {
        return false;
    }
    let found = task.mol.bonds()[usize::from(other)];
    if may_join(task, candidates, bond, found.a, found.b) {
        return true;
    }
    may_join(task, candidates, bond, found.b, found.a)
}

// False only if the ends of a bond of the graph cannot be mapped to the atoms `one` and `two`.
fn may_join(task: &Task, candidates: &Candidates, bond: &PatBond, one: u16, two: u16) -> bool
    requires ready { IsReadyTask task.now }
    requires ends { max bond.now.a bond.now.b < length task.now.graph.now.atoms.items }
    requires one { one < length task.now.mol.now.atoms }
    requires two { two < length task.now.mol.now.atoms }
    requires candidates { AreCandidates task.now candidates.now.words.items }
    ensures { result ≡ false → (image : List ℕ) → Embeds task.now image
        → slice_index image bond.now.a ≡ one → slice_index image bond.now.b ≡ two → ⊥ }
{
    if !may_stand(task, candidates, &[], usize::from(bond.a), one) {
        return false;
    }
    may_stand(task, candidates, &[], usize::from(bond.b), two)
}

/// False only if no embedding that extends `front` maps the place, which is not in `front`, to `atom`, as far as the
/// atom alone shows.
pub fn may_stand(
    task: &Task,
    candidates: &Candidates,
    front: &[u16],
    place: usize,
    atom: u16,
) -> bool
    requires ready { IsReadyTask task.now }
    requires place { place < length task.now.graph.now.atoms.items }
    requires atom { atom < length task.now.mol.now.atoms }
    requires candidates { AreCandidates task.now candidates.now.words.items }
    ensures { result ≡ false → length front.now ≤ place → (rest : List ℕ)
        → Embeds task.now (front.now ++ rest)
        → slice_index (front.now ++ rest) place ≡ atom → ⊥ }
{
    if !candidates.has(place, atom) {
        return false;
    }
    if !is_new(front, atom) {
        return false;
    }
    keeps_groups(task, front, place, atom)
}
