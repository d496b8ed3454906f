//! The atoms at which the recursive parts of a pattern hold. A part names parts of smaller numbers alone, so they are
//! searched for in the order of their numbers. A part is asked only at atoms of the classes that are wanted of it. The
//! table's bits for other atoms have no meaning.
ghost use Rattle.std.specs.Prelude.{◌≡◌, ◌<◌, ◌≤◌, ◌+◌, ◌∷◌, ◌↔◌, [], ℕ, length, map, IsTrue};
ghost use Rattle.smarts_mean.specs.Table.{HoldsIn};
ghost use Rattle.smarts_parse.specs.Pattern.{graph_of, pattern_of};
ghost use Rattle.smarts_parse.specs.Sound.{IsSoundPattern};
ghost use Rattle.matcher.specs.Candidates.{AreTruthsIn, IsCandidate};
ghost use Rattle.matcher.specs.Partial.{CanComplete};
ghost use Rattle.matcher.specs.Parts.{AreBeginnings, AreNoted};
ghost use Rattle.matcher.specs.Plan.{IsReady};
ghost use Rattle.matcher.specs.Prepared.{IsPrepared};

use crate::class::may_be;
use crate::lean::place_from;
use crate::plan::EarlierBonds;
use crate::prepare::Prepared;
use crate::scratch::Memory;
use crate::second::{with_pair, with_second};
use crate::task::Task;
use chem_core::Mol;
use smarts_parse::{Graph, Pattern};

/// Notes in the table, for each of the first `count` parts, the atoms at which it holds, among those at which it is
/// asked.
pub fn note_parts(
    pattern: &Pattern,
    prepared: &Prepared,
    mol: &Mol,
    memory: &mut Memory,
    count: usize,
)
    requires sound { IsSoundPattern (pattern_of pattern.now) }
    requires prepared { IsPrepared (pattern_of pattern.now) prepared.now }
    requires count { count ≤ length pattern.now.recs.items }
    ensures { AreNoted (pattern_of pattern.now).recs mol.now
        prepared.now.wanted.classes.items count memory.new.table }
{
    for part in 0..count {
        note_part(pattern, prepared, mol, memory, part);
    }
}

// As `note_parts`, but for one part, if those of smaller numbers are noted.
fn note_part(pattern: &Pattern, prepared: &Prepared, mol: &Mol, memory: &mut Memory, part: usize)
    requires sound { IsSoundPattern (pattern_of pattern.now) }
    requires prepared { IsPrepared (pattern_of pattern.now) prepared.now }
    requires part { part < length pattern.now.recs.items }
    requires noted { AreNoted (pattern_of pattern.now).recs mol.now
        prepared.now.wanted.classes.items part memory.old.table }
    ensures { AreNoted (pattern_of pattern.now).recs mol.now
        prepared.now.wanted.classes.items (part + 1) memory.new.table }
{
    let graph = &pattern.recs[part];
    let steps = prepared.plans.part(pattern, part);
    let classes = prepared.wanted.at(part);
    let task = Task {
        graph,
        mol,
        table: &memory.table,
        steps,
    };
    memory.candidates.find(&task);
    for block in 0..mol.atoms().len().div_ceil(64) {
        let word = begins_in(graph, steps, mol, memory, classes, block);
        memory.table.put_block(part as u16, block, word);
    }
}

// The atoms of a block at which an embedding of the graph begins. Atoms of other classes than `classes` are not asked.
fn begins_in(
    graph: &Graph,
    steps: &[EarlierBonds],
    mol: &Mol,
    memory: &mut Memory,
    classes: u64,
    block: usize,
) -> u64
    requires ready { IsReady (graph_of graph.now) steps.now }
    requires some { 0 < length graph.now.atoms.items }
    requires block { block < 16 }
    requires truths { AreTruthsIn (HoldsIn memory.old.table) (graph_of graph.now) mol.now
        memory.old.candidates.words.items }
    ensures found { AreBeginnings (HoldsIn memory.old.table) (graph_of graph.now) mol.now classes block result }
    ensures table { memory.new.table ≡ memory.old.table }
    ensures candidates { memory.new.candidates ≡ memory.old.candidates }
{
    let all = memory.candidates.first_in(mol, block);
    if graph.atoms.len() == 1 {
        return all;
    }
    let task = Task {
        graph,
        mol,
        table: &memory.table,
        steps,
    };
    if let Some(held) = with_pair(&task, &memory.candidates, block, all) {
        return held;
    }
    let near = with_second(&task, &memory.candidates, block, all);
    let mut left = near;
    let mut held = near;
    for _turn in 0..64u32 {
        let bit = left.trailing_zeros();
        if bit >= 64 {
            return held;
        }
        left &= !(1 << bit);
        let atom = 64 * block + bit as usize;
        if !may_be(classes, mol.atoms()[atom]) {
            continue;
        }
        if begins_at(graph, steps, mol, memory, atom as u16) {
            continue;
        }
        held &= !(1 << bit);
    }
    held
}

// True if an embedding of the graph begins at `atom`, a candidate of the first place.
fn begins_at(
    graph: &Graph,
    steps: &[EarlierBonds],
    mol: &Mol,
    memory: &mut Memory,
    atom: u16,
) -> bool
    requires ready { IsReady (graph_of graph.now) steps.now }
    requires some { 0 < length graph.now.atoms.items }
    requires in_range { atom < length mol.now.atoms }
    requires truths { AreTruthsIn (HoldsIn memory.old.table) (graph_of graph.now) mol.now
        memory.old.candidates.words.items }
    requires candidate { IsCandidate memory.old.candidates.words.items 0 atom }
    ensures found { IsTrue result
        ↔ CanComplete (HoldsIn memory.old.table) (graph_of graph.now) mol.now (atom ∷ []) }
    ensures table { memory.new.table ≡ memory.old.table }
    ensures candidates { memory.new.candidates ≡ memory.old.candidates }
{
    let task = Task {
        graph,
        mol,
        table: &memory.table,
        steps,
    };
    let image = &mut memory.image;
    let choices = &mut memory.choices;
    place_from(&task, &memory.candidates, image, choices, atom)
}
