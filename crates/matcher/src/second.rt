//! Fewer atoms at which a search for a graph begins, in a molecule of at most 64 atoms. They are those from which the
//! first bond of its second place may lead on. For a graph of two places and one bond these are the answer.
ghost use Rattle.std.specs.Prelude.{◌≡◌, ◌<◌, ◌≤◌, ◌+◌, ◌*◌, ◌∷◌, ◌↔◌, ◌⊎◌, [], ℕ, length, slice_index, IfSome, IsTrue};
ghost use Rattle.std.specs.Int.{bit_at};
ghost use Rattle.chem_core.specs.Graph.{JoinsAt};
ghost use Rattle.chem_core.specs.Molecule.{ends_of};
ghost use Rattle.smarts_parse.specs.Pattern.{term_of};
ghost use Rattle.smarts_parse.specs.Truth.{BondTrue};
ghost use Rattle.matcher.specs.Candidates.{AreTruths, IsCandidate};
ghost use Rattle.matcher.specs.Task.{Completes, IsReadyTask};

use crate::candidates::{Candidates, MOST_BITS, has};
use crate::task::Task;
use chem_core::Mol;
use smarts_mean::bond_true;
use smarts_parse::{Graph, PatBond};

/// The fewest atoms for which it pays.
const MANY_ATOMS: u32 = 8;

/// The atoms of `all`, candidates of the first place in a block, from which the first bond of the second place may lead
/// to a candidate of that place. Returns `all` if the work does not pay.
pub fn with_second(task: &Task, candidates: &Candidates, block: usize, all: u64) -> u64
    requires ready { IsReadyTask task.now }
    requires some { 1 < length task.now.graph.now.atoms.items }
    requires truths { AreTruths task.now candidates.now.words.items }
    ensures within { (i : ℕ) → i < 64 → bit_at result i ≡ 1 → bit_at all i ≡ 1 }
    ensures begins { (i : ℕ) → i < 64 → bit_at all i ≡ 1 → Completes task.now ((64 * block + i) ∷ [])
        → bit_at result i ≡ 1 }
{
    if all.count_ones() < MANY_ATOMS || task.mol.atoms().len() > MOST_BITS {
        return all;
    }
    let step = task.steps[1];
    if step.from >= step.to {
        return all;
    }
    let bond = &task.graph.bonds[step.from];
    all & leading_to(bond, task.mol, candidates.words[1])
}

/// The atoms of `all`, candidates of the first place in a block, at which an embedding begins, for a graph of two
/// places and one bond. `None` for other graphs, for larger molecules, and if `all` is empty.
pub fn with_pair(task: &Task, candidates: &Candidates, block: usize, all: u64) -> Option<u64>
    requires ready { IsReadyTask task.now }
    requires truths { AreTruths task.now candidates.now.words.items }
    requires first { (i : ℕ) → i < 64 → bit_at all i ≡ 1
        → (64 * block + i < length task.now.mol.now.atoms)
        × IsCandidate candidates.now.words.items 0 (64 * block + i) }
    requires block { block < 16 }
    ensures { IfSome result (λ found. (i : ℕ) → i < 64
        → bit_at found i ≡ 1 ↔ (bit_at all i ≡ 1) × Completes task.now ((64 * block + i) ∷ [])) }
{
    if all == 0 || task.mol.atoms().len() > MOST_BITS || !is_pair(task.graph) {
        return None;
    }
    let step = task.steps[1];
    if step.from >= step.to {
        return None;
    }
    let bond = &task.graph.bonds[step.from];
    Some(all & leading_to(bond, task.mol, candidates.words[1]))
}

// True if the graph is of two places and one bond, and both places are of one group or of no group.
fn is_pair(graph: &Graph) -> bool
    requires { length graph.now.groups.items ≡ length graph.now.atoms.items }
    ensures two { IsTrue result → length graph.now.atoms.items ≡ 2 }
    ensures one { IsTrue result → length graph.now.bonds.items ≡ 1 }
    ensures same { IsTrue result
        → slice_index graph.now.groups.items 0 ≡ slice_index graph.now.groups.items 1 }
{
    if graph.atoms.len() != 2 || graph.bonds.len() != 1 {
        return false;
    }
    graph.groups[0] == graph.groups[1]
}

// The atoms that a bond joins to one of the word `second`, if the graph's bond is true at it.
fn leading_to(bond: &PatBond, mol: &Mol, second: u64) -> u64
    requires { length mol.now.atoms ≤ 64 }
    ensures all { (b x y : ℕ) → JoinsAt (ends_of mol.now) b x y
        → BondTrue (term_of bond.now.expr) mol.now b → bit_at second y ≡ 1 → bit_at result x ≡ 1 }
    ensures only { (x : ℕ) → bit_at result x ≡ 1 → (b y : ℕ) × JoinsAt (ends_of mol.now) b x y
        × BondTrue (term_of bond.now.expr) mol.now b × (bit_at second y ≡ 1) }
{
    let bonds = mol.bonds();
    let mut found = 0;
    for place in 0..bonds.len() as u16 {
        if !bond_true(&bond.expr, mol, place) {
            continue;
        }
        let joined = bonds[usize::from(place)];
        let there = with_end(found, second, joined.a, joined.b);
        found = with_end(there, second, joined.b, joined.a);
    }
    found
}

// The word `found`, with the atom `one` too if `other` is in the word `second`.
fn with_end(found: u64, second: u64, one: u16, other: u16) -> u64
    requires one { one < 64 }
    requires other { other < 64 }
    ensures here { bit_at second other ≡ 1 → bit_at result one ≡ 1 }
    ensures kept { (i : ℕ) → bit_at found i ≡ 1 → bit_at result i ≡ 1 }
    ensures only { (i : ℕ) → bit_at result i ≡ 1
        → (bit_at found i ≡ 1) ⊎ ((i ≡ one) × (bit_at second other ≡ 1)) }
{
    if has(second, other) {
        found | (1 << one)
    } else {
        found
    }
}
