//! An order of the places of a graph that bonds join, for a search by words: each place comes after one to which a bond
//! joins it. The route begins at a place that few atoms can take, and goes on at the place with the most bonds to
//! earlier ones. Of this choice nothing is promised; that a route fits the graph is tested once it is laid.
ghost use Rattle.std.specs.Prelude.{◌≡◌, ◌<◌, ◌≤◌, ◌⊎◌, ◌↔◌, ◌%◌, ℕ, length, slice_index, take, vec_len, IsTrue};
ghost use Rattle.std.specs.Int.{bit_at};
ghost use Rattle.smarts_parse.specs.Pattern.{Prim, graph_of, term_of};
ghost use Rattle.matcher.specs.Plan.{IsReady};
ghost use Rattle.matcher.specs.Route.{AreSorted, AsksKinds, HasNoGroups, IsJoin, IsRoute, IsSorted, IsStop, stop_at};

use crate::first_line::kinds_of;
use crate::lay::{CARBON, COMMON, bit, is_written, next_place};
use crate::plan::EarlierBonds;
use crate::ring::is_marked;
use smarts_parse::{AtomPrim, BondPrim, Expr, Graph, PatBond};
use std::alloc::{AllocError, Global};

/// The most places of a graph that has a route.
pub const MOST_STOPS: usize = 64;

/// The most sets of kinds of bonds of a graph that has a route.
pub const MOST_SETS: usize = 4;

// The most bonds of a graph that has a route.
const MOST_JOINS: usize = 256;

/// A place of a graph, the first of its bonds to earlier places, and the range of the others among the joins.
#[derive(Clone, Copy, Debug)]
pub struct Stop {
    pub place: usize,
    /// Not used at the first stop.
    pub first: Join,
    pub from: usize,
    pub to: usize,
}

/// A bond of the graph to the place of an earlier stop: its number, that of the stop, and that of the set of kinds.
#[derive(Clone, Copy, Debug)]
pub struct Join {
    pub bond: usize,
    pub other: usize,
    pub set: usize,
}

const NO_JOIN: Join = Join {
    bond: 0,
    other: 0,
    set: 0,
};

const NO_STOP: Stop = Stop {
    place: 0,
    first: NO_JOIN,
    from: 0,
    to: 0,
};

/// A route through a graph. It is empty if the graph has none: if bonds do not join all places, if some places are in
/// groups, if bonds ask for more than kinds, or if there are too many places, bonds or sets of kinds.
#[derive(Debug, Drop)]
pub struct Route {
    stops: Vec<Stop>,
    laid: usize,
    joins: Vec<Join>,
    // the sets of kinds of bonds, all different
    kinds: [u64; MOST_SETS],
    count: usize,
    // for each bond of the graph the number of its set
    sets: Vec<usize>,
    ghost stops_room: { vec_len stops ≡ 64 },
    ghost joins_room: { vec_len joins ≡ 256 },
    ghost sets_room: { vec_len sets ≡ 256 },
    ghost laid_room: { laid ≤ 64 },
    ghost count_room: { count ≤ 4 },
}

impl Route {
    ghost use Rattle.matcher.specs.Laid.{IsRouteOf};

    /// Takes the memory.
    pub fn reserve(alloc: Global) -> Result<Route, AllocError> {
        Ok(Route {
            stops: vec![in alloc; NO_STOP; MOST_STOPS]?,
            laid: 0,
            joins: vec![in alloc; NO_JOIN; MOST_JOINS]?,
            kinds: [0; MOST_SETS],
            count: 0,
            sets: vec![in alloc; 0; MOST_JOINS]?,
        })
    }

    /// True if the graph has a route.
    pub fn has_stops(&self) -> bool
        ensures { IsTrue result ↔ 0 < self.now.laid }
    {
        self.laid > 0
    }

    /// The stops; none if the graph has no route.
    pub fn stops(&self) -> &[Stop]
        ensures value { result.now ≡ take self.now.laid self.now.stops.items }
        ensures few { length result.now ≤ MOST_STOPS }
    {
        &self.stops[..self.laid]
    }

    /// The joins of all stops but for the first of each.
    pub fn joins(&self) -> &[Join]
        ensures { result.now ≡ self.now.joins.items }
    {
        &self.joins
    }

    /// The sets of kinds that bonds of the graph may be of, a bit for each kind.
    pub fn kinds(&self) -> &[u64]
        ensures value { result.now ≡ take self.now.count self.now.kinds }
        ensures few { length result.now ≤ MOST_SETS }
    {
        &self.kinds[..self.count]
    }

    /// For each bond of the graph the number of its set.
    pub fn sets(&self) -> &[usize]
        ensures { result.now ≡ self.now.sets.items }
    {
        &self.sets
    }

    /// Lays the route of a graph of which some bonds are marked as lying on rings.
    pub fn lay(&mut self, graph: &Graph, steps: &[EarlierBonds], marks: &[bool])
        requires { IsReady (graph_of graph.now) steps.now }
        ensures { IsRouteOf (graph_of graph.now) self.new }
    {
        let laid = self.lay_all(graph, steps, marks);
        self.laid = laid;
    }

    // Lays the stops of a route. Returns how many they are, 0 if the graph has no route.
    fn lay_all(&mut self, graph: &Graph, steps: &[EarlierBonds], marks: &[bool]) -> usize
        requires { IsReady (graph_of graph.now) steps.now }
        ensures few { result ≤ MOST_STOPS }
        ensures route { IsRoute (graph_of graph.now) (take result self.new.stops.items) self.new.joins.items
            (take self.new.count self.new.kinds) }
        ensures sorted { 0 < result → AreSorted (graph_of graph.now)
            (take self.new.count self.new.kinds) self.new.sets.items }
        ensures alone { 0 < result → HasNoGroups (graph_of graph.now) }
    {
        self.count = 0;
        if !may_have_route(graph) {
            return 0;
        }
        if !self.sort_bonds(graph) {
            return 0;
        }
        let laid = self.lay_stops(graph, steps, marks);
        if !self.are_sorted(graph) {
            return 0;
        }
        if !self.is_route(graph, laid) {
            return 0;
        }
        laid
    }

    // The first stops.
    fn front(&self, laid: usize) -> &[Stop]
        requires { laid ≤ MOST_STOPS }
        ensures { result.now ≡ take laid self.now.stops.items }
    {
        &self.stops[..laid]
    }

    // Finds the sets of kinds, and that of each bond. Returns false if they are too many, or if a bond asks for more.
    fn sort_bonds(&mut self, graph: &Graph) -> bool
        requires { length graph.now.bonds.items ≤ MOST_JOINS }
    {
        for (number, bond) in graph.bonds.iter().enumerate() {
            if !asks_kinds(&bond.expr) {
                return false;
            }
            let Some(set) = self.set_of(kinds_of(&bond.expr)) else {
                return false;
            };
            self.sets[number] = set;
        }
        true
    }

    // The number of a set of kinds, which is added if it is new; `None` if there are too many.
    fn set_of(&mut self, kinds: u64) -> Option<usize> {
        for set in 0..self.count {
            if self.kinds[set] == kinds {
                return Some(set);
            }
        }
        let set = self.count;
        if set == MOST_SETS {
            return None;
        }
        self.kinds[set] = kinds;
        self.count = set + 1;
        Some(set)
    }

    // Lays stops until no place is left that a bond joins to an earlier one. Returns how many they are.
    fn lay_stops(&mut self, graph: &Graph, steps: &[EarlierBonds], marks: &[bool]) -> usize
        requires places { length graph.now.atoms.items ≤ MOST_STOPS }
        requires bonds { length graph.now.bonds.items ≤ MOST_JOINS }
        requires steps { length graph.now.atoms.items ≤ length steps.now }
        ensures { result ≤ MOST_STOPS }
    {
        let ranks = rank_places(graph, steps, marks);
        let start = start_of(graph, &ranks);
        let mut next = Some(start.place);
        let mut second = start.second;
        let mut numbers = [0; MOST_STOPS];
        let mut seen = 0;
        let mut from = 0;
        for at in 0..graph.atoms.len() {
            let Some(place) = next else {
                return at;
            };
            numbers[index_of(place)] = at;
            let stop = self.lay_stop(graph, &numbers, place, seen, from);
            self.stops[at] = stop;
            from = stop.to;
            seen |= bit(place);
            next = match second {
                Some(place) => Some(place),
                None => best_next(graph, &ranks, seen),
            };
            second = None;
        }
        graph.atoms.len()
    }

    // The stop of a place after those in `seen`, which have these numbers. Its joins but for the first begin at `from`.
    fn lay_stop(
        &mut self,
        graph: &Graph,
        numbers: &[usize; MOST_STOPS],
        place: u16,
        seen: u64,
        from: usize,
    ) -> Stop
        requires { length graph.now.bonds.items ≤ MOST_JOINS }
    {
        let mut first = None;
        let mut to = from;
        for (number, bond) in graph.bonds.iter().enumerate() {
            let Some(other) = seen_end(bond, place, seen) else {
                continue;
            };
            let join = Join {
                bond: number,
                other: numbers[index_of(other)],
                set: self.sets[number],
            };
            if first.is_none() {
                first = Some(join);
            } else if to < MOST_JOINS {
                self.joins[to] = join;
                to += 1;
            }
        }
        Stop {
            place: usize::from(place),
            first: first.unwrap_or(NO_JOIN),
            from,
            to,
        }
    }

    // True only if each bond of the graph asks for the kinds of its set and for nothing else.
    fn are_sorted(&self, graph: &Graph) -> bool
        requires { length graph.now.bonds.items ≤ MOST_JOINS }
        ensures { IsTrue result → AreSorted (graph_of graph.now)
            (take self.now.count self.now.kinds) self.now.sets.items }
    {
        let kinds = self.kinds();
        let sets = self.sets();
        for number in 0..graph.bonds.len() {
            if !is_sorted(graph, kinds, sets, number) {
                return false;
            }
        }
        true
    }

    // True only if the first `laid` stops are a route of the graph, with all its places.
    fn is_route(&self, graph: &Graph, laid: usize) -> bool
        requires { laid ≤ MOST_STOPS }
        ensures { IsTrue result → IsRoute (graph_of graph.now) (take laid self.now.stops.items)
            self.now.joins.items (take self.now.count self.now.kinds) }
    {
        if laid != graph.atoms.len() {
            return false;
        }
        let stops = self.front(laid);
        let joins = self.joins();
        let kinds = self.kinds();
        let mut seen = 0;
        for at in 0..stops.len() {
            if !is_stop(graph, stops, joins, kinds, at) {
                return false;
            }
            let place = stops[at].place;
            if has_place(seen, place) {
                return false;
            }
            seen = with_place(seen, place);
        }
        true
    }
}

// True only if a bond of the graph asks for the kinds of its set and for nothing else.
fn is_sorted(graph: &Graph, kinds: &[u64], sets: &[usize], number: usize) -> bool
    requires bond { number < length graph.now.bonds.items }
    requires set { number < length sets.now }
    ensures { IsTrue result → IsSorted (graph_of graph.now) kinds.now sets.now number }
{
    let bond = &graph.bonds[number];
    let set = sets[number];
    if set >= kinds.len() {
        return false;
    }
    if !asks_kinds(&bond.expr) {
        return false;
    }
    let asked = kinds_of(&bond.expr);
    asked == kinds[set]
}

// True if the word has the bit of a place.
fn has_place(seen: u64, place: usize) -> bool
    ensures { IsTrue result ↔ bit_at seen (place % 64) ≡ 1 }
{
    (seen >> (place % 64)) & 1 == 1
}

// The word with the bit of a place.
fn with_place(seen: u64, place: usize) -> u64
    ensures here { bit_at result (place % 64) ≡ 1 }
    ensures kept { (p : ℕ) → bit_at seen p ≡ 1 → bit_at result p ≡ 1 }
{
    seen | (1 << (place % 64))
}

// True only if a stop has a place of the graph, and joins to earlier stops.
fn is_stop(graph: &Graph, stops: &[Stop], joins: &[Join], kinds: &[u64], at: usize) -> bool
    requires { at < length stops.now }
    ensures { IsTrue result → IsStop (graph_of graph.now) stops.now joins.now kinds.now at }
{
    let stop = stops[at];
    if stop.place >= graph.atoms.len() || stop.from > stop.to || stop.to > joins.len() {
        return false;
    }
    if !has_first(graph, stops, kinds, at) {
        return false;
    }
    for number in stop.from..stop.to {
        if !is_join(graph, stops, kinds, at, joins[number]) {
            return false;
        }
    }
    true
}

// True only if the first join of a stop is one, or if the stop is the first of all.
fn has_first(graph: &Graph, stops: &[Stop], kinds: &[u64], at: usize) -> bool
    requires { at < length stops.now }
    ensures { IsTrue result → 0 < at
        → IsJoin (graph_of graph.now) stops.now kinds.now at (stop_at stops.now at).first }
{
    if at == 0 {
        return true;
    }
    is_join(graph, stops, kinds, at, stops[at].first)
}

// True only if a join is of a bond from an earlier stop to this one, and of the set of its kinds.
fn is_join(graph: &Graph, stops: &[Stop], kinds: &[u64], at: usize, join: Join) -> bool
    requires { at < length stops.now }
    ensures { IsTrue result → IsJoin (graph_of graph.now) stops.now kinds.now at join }
{
    if join.other >= at || join.bond >= graph.bonds.len() || join.set >= kinds.len() {
        return false;
    }
    let bond = &graph.bonds[join.bond];
    if !has_ends(bond, stops[join.other].place, stops[at].place) {
        return false;
    }
    let asked = kinds_of(&bond.expr);
    asked == kinds[join.set]
}

// True if the bond joins the two places.
fn has_ends(bond: &PatBond, one: usize, other: usize) -> bool
    ensures { IsTrue result → ((one ≡ bond.now.a) × (other ≡ bond.now.b))
        ⊎ ((one ≡ bond.now.b) × (other ≡ bond.now.a)) }
{
    let a = usize::from(bond.a);
    let b = usize::from(bond.b);
    if a == one {
        return b == other;
    }
    a == other && b == one
}

// True if an expression asks for kinds of bonds alone.
fn asks_kinds(expr: &Expr<BondPrim>) -> bool
    ensures { IsTrue result → AsksKinds (term_of expr.now) }
{
    match expr {
        Expr::Prim(prim) => is_of_kind(*prim),
        Expr::Not(_) => false,
        Expr::And(left, right) => asks_kinds(left) & asks_kinds(right),
        Expr::Or(left, right) => asks_kinds(left) & asks_kinds(right),
    }
}

// True if a primitive is not `@`.
fn is_of_kind(prim: BondPrim) -> bool
    ensures { IsTrue result → AsksKinds (Prim prim) }
{
    match prim {
        BondPrim::Single => true,
        BondPrim::Double => true,
        BondPrim::Triple => true,
        BondPrim::Quad => true,
        BondPrim::Aromatic => true,
        BondPrim::Unwritten => true,
        BondPrim::Any => true,
        BondPrim::Ring => false,
    }
}

// True if a graph may have a route: it has at least two places, not too many places or bonds, and no groups.
fn may_have_route(graph: &Graph) -> bool
    ensures places { IsTrue result → length graph.now.atoms.items ≤ MOST_STOPS }
    ensures bonds { IsTrue result → length graph.now.bonds.items ≤ MOST_JOINS }
    ensures alone { IsTrue result → HasNoGroups (graph_of graph.now) }
{
    let places = graph.atoms.len();
    if places < 2 || places > MOST_STOPS || graph.bonds.len() > MOST_JOINS {
        return false;
    }
    has_no_groups(&graph.groups)
}

// True if no place is in a group.
fn has_no_groups(groups: &[u16]) -> bool
    ensures { IsTrue result → (k : ℕ) → slice_index groups.now k ≡ 0 }
{
    for k in 0..groups.len() {
        if groups[k] != 0 {
            return false;
        }
    }
    true
}

// The end of a bond that is in `seen`, if the other end is the place.
fn seen_end(bond: &PatBond, place: u16, seen: u64) -> Option<u16> {
    if bond.a == place && seen & bit(bond.b) != 0 {
        Some(bond.b)
    } else if bond.b == place && seen & bit(bond.a) != 0 {
        Some(bond.a)
    } else {
        None
    }
}

// The first place of a route, and the second if that is settled too.
#[derive(Clone, Copy)]
struct Start {
    place: u16,
    second: Option<u16>,
}

// The place of the least rank or, if that is a plain carbon, a bond of a kind that is written.
fn start_of(graph: &Graph, ranks: &[u16; MOST_STOPS]) -> Start
    requires { length graph.now.atoms.items ≤ MOST_STOPS }
{
    let mut best = 0;
    let mut least = u16::MAX;
    for place in 0..graph.atoms.len() {
        if ranks[place] < least {
            least = ranks[place];
            best = place as u16;
        }
    }
    if least >= PLAIN_CARBON {
        for bond in &graph.bonds {
            if is_written(bond) {
                return Start {
                    place: bond.a,
                    second: Some(bond.b),
                };
            }
        }
    }
    Start {
        place: best,
        second: None,
    }
}

// Ranks the places by how few atoms can take them.
fn rank_places(graph: &Graph, steps: &[EarlierBonds], marks: &[bool]) -> [u16; MOST_STOPS]
    requires places { length graph.now.atoms.items ≤ MOST_STOPS }
    requires steps { length graph.now.atoms.items ≤ length steps.now }
{
    let mut ranks = [0; MOST_STOPS];
    for (number, bond) in graph.bonds.iter().enumerate() {
        if is_marked(marks, number) {
            raise(&mut ranks, bond.a, 1);
            raise(&mut ranks, bond.b, 1);
        }
    }
    for place in 0..graph.atoms.len() {
        let is_joint = ranks[place] >= 3;
        ranks[place] = rank_of(&graph.atoms[place], steps[place].classes, is_joint);
    }
    ranks
}

// Adds to the number of a place. Returns the sum.
fn raise(numbers: &mut [u16; MOST_STOPS], place: u16, by: u16) -> u16 {
    let sum = numbers[index_of(place)].saturating_add(by);
    numbers[index_of(place)] = sum;
    sum
}

// The index of a place, of at most 64.
fn index_of(place: u16) -> usize
    ensures { result < MOST_STOPS }
{
    usize::from(place) % MOST_STOPS
}

// The rank of a place of carbons about which nothing else is asked.
const PLAIN_CARBON: u16 = 4;

// 0 for no carbon, nitrogen or oxygen, 1 for three ring bonds, 2 for no carbon, 3 if more is asked than an element.
fn rank_of(expr: &Expr<AtomPrim>, classes: u64, is_joint: bool) -> u16 {
    if classes & (CARBON | COMMON) == 0 {
        0
    } else if is_joint {
        1
    } else if classes & CARBON == 0 {
        2
    } else if is_plain(expr) {
        PLAIN_CARBON
    } else {
        3
    }
}

// True if an expression asks for an element, or for being aromatic or not, and no more.
fn is_plain(expr: &Expr<AtomPrim>) -> bool {
    match expr {
        Expr::Prim(prim) => match *prim {
            AtomPrim::Symbol {
                number: _,
                lower: _,
            } => true,
            AtomPrim::Number(_) => true,
            AtomPrim::Any => true,
            AtomPrim::Aromatic => true,
            AtomPrim::Aliphatic => true,
            _ => false,
        },
        _ => false,
    }
}

// The place with the most bonds to those in `seen`, and of these the one of the least rank.
fn best_next(graph: &Graph, ranks: &[u16; MOST_STOPS], seen: u64) -> Option<u16> {
    let mut counts = [0; MOST_STOPS];
    let mut best = None;
    let mut most = 0;
    for bond in &graph.bonds {
        let Some(place) = next_place(bond, seen) else {
            continue;
        };
        let count = raise(&mut counts, place, 8);
        let value = count.saturating_sub(ranks[index_of(place)]);
        if value > most {
            most = value;
            best = Some(place);
        }
    }
    best
}
