//! How many atoms and bonds of each sort a molecule has at least in which a pattern embeds, as far as the classes of
//! its atoms and the kinds of its bonds show.
ghost use Rattle.std.specs.Prelude.{◌≡◌, ◌<◌, ℕ, count_by, length, max, min, slice_index};
ghost use Rattle.chem_core.specs.Sorts.{atom_sort, bond_sort};
ghost use Rattle.smarts_parse.specs.Pattern.{bond_of, graph_of, pattern_of, term_of};
ghost use Rattle.smarts_parse.specs.Sound.{IsSoundPattern};
ghost use Rattle.matcher.specs.Class.{is_within};
ghost use Rattle.matcher.specs.Counted.{AreAsked, AreGraphCounts, is_inside, is_sure, kinds_of, prim_kinds};
ghost use Rattle.matcher.specs.Plan.{IsReady};
ghost use Rattle.matcher.specs.Prepared.{IsPlanned};

use crate::plan::EarlierBonds;
use crate::planned::Plans;
use crate::refusal::places_within;
use chem_core::{BondSort, SORT_ROOM, SortCounts, atom_sorts, bond_sorts, raise};
use smarts_parse::{BondPrim, Expr, Graph, PatBond, Pattern};

// All kinds of bonds.
const ALL_KINDS: u64 = 31;

/// What the pattern asks of the counts of a molecule: one in which it embeds lacks none of them.
pub fn asked(pattern: &Pattern, plans: &Plans) -> SortCounts
    requires sound { IsSoundPattern (pattern_of pattern.now) }
    requires planned { IsPlanned (pattern_of pattern.now) plans.now }
    ensures { AreAsked (pattern_of pattern.now) result }
{
    graph_asks(&pattern.top, plans.top(pattern))
}

// What a graph asks.
fn graph_asks(graph: &Graph, steps: &[EarlierBonds]) -> SortCounts
    requires { IsReady (graph_of graph.now) steps.now }
    ensures { AreGraphCounts (graph_of graph.now) steps.now result }
{
    let places = &steps[..graph.atoms.len()];
    let atoms = count_places(places);
    let bonds = count_bonds(graph, steps);
    SortCounts { atoms, bonds }
}

// How many places are surely of each sort of atoms.
fn count_places(places: &[EarlierBonds]) -> [u8; SORT_ROOM]
    ensures { (k : ℕ) → k < SORT_ROOM → slice_index result k
        ≡ min 255 (count_by (is_within (atom_sort k)) places.now) }
{
    let sorts = atom_sorts();
    let mut counts = [0; SORT_ROOM];
    for k in 0..SORT_ROOM {
        let number = places_within(places, sorts[k]);
        let count = saturated(number);
        counts[k] = count;
    }
    counts
}

// How many bonds of the graph are surely of each sort of bonds.
fn count_bonds(graph: &Graph, steps: &[EarlierBonds]) -> [u8; SORT_ROOM]
    requires { IsReady (graph_of graph.now) steps.now }
    ensures { (k : ℕ) → k < SORT_ROOM → slice_index result k
        ≡ min 255 (count_by (is_sure (bond_sort k) steps.now) (graph_of graph.now).bonds) }
{
    let sorts = bond_sorts();
    let mut counts = [0; SORT_ROOM];
    for k in 0..SORT_ROOM {
        let count = bonds_within(graph, steps, sorts[k]);
        counts[k] = count;
    }
    counts
}

// How many bonds of the graph are surely of a sort, 255 where they are more.
fn bonds_within(graph: &Graph, steps: &[EarlierBonds], sort: BondSort) -> u8
    requires { IsReady (graph_of graph.now) steps.now }
    ensures { result ≡ min 255 (count_by (is_sure sort steps.now) (graph_of graph.now).bonds) }
{
    let mut count = 0;
    for bond in &graph.bonds {
        let sure = is_sure(bond, steps, sort);
        let raised = raise(count, sure);
        count = raised;
    }
    count
}

// Whether a bond of a graph lies at bonds of the sort alone.
fn is_sure(bond: &PatBond, steps: &[EarlierBonds], sort: BondSort) -> bool
    requires { max bond.now.a bond.now.b < length steps.now }
    ensures { result ≡ is_sure sort steps.now (bond_of bond.now) }
{
    let first = usize::from(bond.a);
    let second = usize::from(bond.b);
    let a = steps[first].classes;
    let b = steps[second].classes;
    let kinds = kinds_of(&bond.expr);
    let of_kind = is_inside(sort.kinds, kinds);
    let one_a = is_inside(sort.one, a);
    let other_b = is_inside(sort.other, b);
    let one_b = is_inside(sort.one, b);
    let other_a = is_inside(sort.other, a);
    of_kind & ((one_a & other_b) | (one_b & other_a))
}

/// The kinds of the bonds at which the expression may be true, and maybe others.
pub fn kinds_of(expr: &Expr<BondPrim>) -> u64
    ensures { result ≡ kinds_of (term_of expr.now) }
{
    match expr {
        Expr::Prim(prim) => prim_kinds(*prim),
        Expr::Not(_) => ALL_KINDS,
        Expr::And(left, right) => kinds_of(left) & kinds_of(right),
        Expr::Or(left, right) => kinds_of(left) | kinds_of(right),
    }
}

// As `kinds_of`, of a primitive.
fn prim_kinds(prim: BondPrim) -> u64
    ensures { result ≡ prim_kinds prim }
{
    match prim {
        BondPrim::Single => 1,
        BondPrim::Double => 2,
        BondPrim::Triple => 4,
        BondPrim::Quad => 8,
        BondPrim::Aromatic => 16,
        BondPrim::Unwritten => 17,
        BondPrim::Any => ALL_KINDS,
        BondPrim::Ring => ALL_KINDS,
    }
}

// Whether a word has all bits of another one.
fn is_inside(all: u64, some: u64) -> bool
    ensures { result ≡ is_inside all some }
{
    some | all == all
}

// The number, 255 where it is more.
fn saturated(number: usize) -> u8
    ensures { result ≡ min 255 number }
{
    if number > 255 { 255 } else { number as u8 }
}
