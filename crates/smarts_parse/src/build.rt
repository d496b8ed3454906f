//! From the written form to a pattern: its expressions, and the numbers of its recursive parts.

ghost use Rattle.std.specs.Prelude.{◌≡◌, ◌≢◌, ℕ, ◌≤◌, ◌<◌, ◌∷◌, List, [], false, length, map, drop, All, IfOk, OnOk};
ghost use Rattle.std.specs.List.{list_any, AllByRecursion};
ghost use Rattle.smarts_parse.specs.Pattern.{term_of, bond_of, graph_of, pattern_of};
ghost use Rattle.smarts_parse.specs.Whole.{Nodes, Parts, Whole, part_texts};
ghost use Rattle.smarts_parse.specs.Meaning.{postfix, atoms_steps, IsBondTerm, AreBondTerms, IsGraphTerm, IsPatternOf};
ghost use Rattle.smarts_parse.specs.Reading.{is_stereo};
ghost use Rattle.smarts_parse.specs.Steps.{LeaveOne, IsValue};
ghost use Rattle.smarts_parse.specs.Draft.{WalkGraph};
ghost use Rattle.smarts_parse.specs.Build.{IsBuildable, IsReady, IsBuilt};

use crate::close::{Closed, Written};
use crate::expr::{atom_expr, bond_expr};
use crate::pattern::{AtomPrim, Expr, Graph, PatBond, Pattern};
use line_walk::Link;
use smarts_words::{PatternAtom, PatternBond};
use std::alloc::{AllocError, Global};

/// The pattern of a closed text. Recursive parts are numbered in the order in which their parentheses close.
pub fn pattern(alloc: Global, closed: Closed<'_>) -> Result<Pattern, AllocError>
    requires { (whole : Whole) × IsBuildable whole closed }
    ensures { IfOk result (λ p. (whole : Whole) → IsBuildable whole closed.entry
        → IsPatternOf whole (pattern_of p)) }
{
    let Closed { top, parts, groups } = closed;
    let mut recs = Vec::new(alloc);
    let mut unplaced = Vec::new(alloc);
    for part in &parts {
        put_graph(alloc, part, &mut unplaced, &mut recs)?;
    }
    let top = graph(alloc, &top, groups, &mut unplaced)?;
    Ok(Pattern { top, recs })
}

// Puts the graph of the next recursive part on the list, and its number on that of the unplaced ones.
fn put_graph(
    alloc: Global,
    part: &Written<'_>,
    unplaced: &mut Vec<u16>,
    recs: &mut Vec<Graph>,
) -> Result<(), AllocError>
    requires { (all : Parts) × (left : List WalkGraph)
        × IsBuilt all (part.now ∷ left) unplaced.old.items (map graph_of recs.old.items) }
    ensures { OnOk result ((all : Parts) (left : List WalkGraph)
        → IsBuilt all (part.now ∷ left) unplaced.old.items (map graph_of recs.old.items)
        → IsBuilt all left unplaced.new.items (map graph_of recs.new.items)) }
{
    let groups = vec![in alloc; 0; part.atoms.len()]?;
    let graph = graph(alloc, part, groups, unplaced)?;
    unplaced.push(recs.len() as u16)?;
    recs.push(graph)?;
    Ok(())
}

// The graph of one written text, with these groups. Its recursive parts are those that were opened last, whose numbers
// it takes.
fn graph(
    alloc: Global,
    written: &Written<'_>,
    groups: Vec<u16>,
    unplaced: &mut Vec<u16>,
) -> Result<Graph, AllocError>
    requires { (nodes : Nodes) × (front : List ℕ) × (numbers : List ℕ)
        × IsReady nodes front numbers written.now unplaced.old.items }
    ensures { IfOk result (λ g. (nodes : Nodes) (front numbers : List ℕ)
        → IsReady nodes front numbers written.now unplaced.old.items
        → IsGraphTerm nodes numbers groups.items (graph_of g) × (unplaced.new.items ≡ front)) }
{
    let first = unplaced.len() - part_count(&written.atoms);
    let atoms = atoms(alloc, &written.atoms, after(unplaced, first))?;
    unplaced.truncate(first);
    let bonds = bonds(alloc, &written.links)?;
    Ok(Graph {
        atoms,
        bonds,
        groups,
    })
}

// The number of recursive parts of atoms.
fn part_count(atoms: &[PatternAtom]) -> usize
    requires { length (part_texts atoms.now) ≤ 64 }
    ensures { result ≡ length (part_texts atoms.now) }
{
    let mut count = 0;
    for atom in atoms {
        count += atom.parts().len();
    }
    count
}

// The expressions of atoms, whose recursive parts have these numbers from left to right.
fn atoms(
    alloc: Global,
    atoms: &[PatternAtom],
    numbers: &[u16],
) -> Result<Vec<Expr<AtomPrim>>, AllocError>
    requires are { AllByRecursion IsValue atoms.now }
    requires plain { list_any (λ a. list_any is_stereo a.steps) atoms.now ≡ false }
    requires enough { length (part_texts atoms.now) ≤ length numbers.now }
    ensures { IfOk result (λ xs. map postfix (map term_of xs.items)
        ≡ atoms_steps numbers.now atoms.now) }
{
    let mut exprs = Vec::new(alloc);
    let mut left = numbers;
    for atom in atoms {
        exprs.push(atom_expr(alloc, atom.steps(), left)?)?;
        left = after(left, atom.parts().len());
    }
    Ok(exprs)
}

// The numbers after the first `count`.
fn after(numbers: &[u16], count: usize) -> &[u16]
    requires { count ≤ length numbers.now }
    ensures { result.now ≡ drop count numbers.now }
{
    &numbers[count..]
}

// The bonds of a graph.
fn bonds(alloc: Global, links: &[Link<PatternBond>]) -> Result<Vec<PatBond>, AllocError>
    requires kinds { All (λ x. x.kind ≢ [] → LeaveOne 0 x.kind) links.now }
    requires ends { All (λ x. (x.a < 65536) × (x.b < 65536)) links.now }
    ensures { IfOk result (λ bs. AreBondTerms links.now (map bond_of bs.items)) }
{
    let mut bonds = Vec::new(alloc);
    for link in links {
        bonds.push(bond(alloc, link)?)?;
    }
    Ok(bonds)
}

// A bond of a graph.
fn bond(alloc: Global, link: &Link<PatternBond>) -> Result<PatBond, AllocError>
    requires kind { link.now.kind ≢ [] → LeaveOne 0 link.now.kind }
    requires ends { (link.now.a < 65536) × (link.now.b < 65536) }
    ensures { IfOk result (λ b. IsBondTerm link.now (bond_of b)) }
{
    let expr = bond_expr(alloc, link.kind.steps())?;
    Ok(PatBond {
        a: link.a as u16,
        b: link.b as u16,
        expr,
    })
}
