//! An order of the places of a graph, for a search that begins at a place with few candidates. Each other place comes
//! after one to which a bond joins it. Nothing is promised of the order.
ghost use Rattle.std.specs.Prelude.{◌≤◌, length, vec_len};

use crate::plan::{EarlierBonds, is_loose};
use crate::planned::MOST_PLACES;
use smarts_parse::{BondPrim, Expr, Graph, PatBond};
use std::alloc::{AllocError, Global};

/// A place of a graph, and the bond of the graph that joins it to an earlier place, or `NO_BOND`.
#[derive(Clone, Copy, Debug)]
pub struct Placement {
    pub place: u16,
    pub bond: u16,
    /// The only other bond that does; `NO_BOND` if there is no other, `EVERY_BOND` if there may be several.
    pub closing: u16,
}

/// No bond.
pub const NO_BOND: u16 = u16::MAX;

/// Each bond of the graph.
pub const EVERY_BOND: u16 = u16::MAX - 1;

/// No stop.
pub const NO_PLACEMENT: Placement = Placement {
    place: 0,
    bond: NO_BOND,
    closing: EVERY_BOND,
};

/// The order of a search in a graph. If each place but the first has a bond to an earlier one, it begins at a place
/// with few candidates. It is empty if the search for the least embedding serves as well. Otherwise it is the orders of
/// the components of several places, one after another.
#[derive(Debug, Drop)]
pub struct Order {
    stops: Vec<Placement>,
    laid: usize,
    // true if a place other than the first has no bond to an earlier one
    is_loose: bool,
    ghost room: { laid ≤ vec_len stops },
}

impl Order {
    /// Takes the memory.
    pub fn reserve(alloc: Global) -> Result<Order, AllocError> {
        Ok(Order {
            stops: vec![in alloc; NO_PLACEMENT; MOST_PLACES]?,
            laid: 0,
            is_loose: false,
        })
    }

    /// Lays the order for a graph.
    pub fn lay(&mut self, graph: &Graph, steps: &[EarlierBonds]) {
        self.is_loose = is_loose(steps);
        self.laid = if self.is_loose {
            lay_components(graph, steps, &mut self.stops)
        } else {
            lay_rare(graph, steps, &mut self.stops)
        };
    }

    /// True if the stops are those of components.
    pub fn is_loose(&self) -> bool {
        self.is_loose
    }

    /// The stops of the order.
    pub fn stops(&self) -> &[Placement] {
        &self.stops[..self.laid]
    }
}

/// The classes of carbon.
pub const CARBON: u64 = 0x3000;

/// Those of nitrogen and oxygen.
pub const COMMON: u64 = 0x3c000;

/// A search that begins at the place.
pub fn start_at(place: u16) -> Placement {
    Placement {
        place,
        bond: NO_BOND,
        closing: EVERY_BOND,
    }
}

// Lays the components of several places, of a graph of at most 64. Returns the number of stops.
fn lay_components(graph: &Graph, steps: &[EarlierBonds], stops: &mut [Placement]) -> usize
    ensures { result ≤ length stops.old }
{
    let places = graph.atoms.len();
    if places > 64 {
        return 0;
    }
    let mut laid = 0;
    for place in 0..places as u16 {
        if begins_component(steps, usize::from(place)) {
            laid += lay_noted(&graph.bonds, start_at(place), &mut stops[laid..]);
        }
    }
    laid
}

// True if the place is the first of a component of several.
fn begins_component(steps: &[EarlierBonds], place: usize) -> bool {
    let mut steps = steps.iter().skip(place);
    match (steps.next(), steps.next()) {
        (Some(here), Some(next)) => here.from >= here.to && next.from < next.to,
        _ => false,
    }
}

// Lays an order that begins at a place with few candidates. Returns the number of stops: 0 if there is no such place,
// if it is the first, or if the graph has one place or more than 64.
fn lay_rare(graph: &Graph, steps: &[EarlierBonds], stops: &mut [Placement]) -> usize
    ensures { result ≤ length stops.old }
{
    let places = graph.atoms.len();
    if places < 2 || places > 64 {
        return 0;
    }
    match rare_start(&graph.bonds, steps) {
        Some(start) if start.place != 0 => lay_noted(&graph.bonds, start, stops),
        _ => 0,
    }
}

// The start of a search: a place with few candidates. Otherwise it is the first end of a bond that asks for one kind of
// bond; the other end comes next.
fn rare_start(bonds: &[PatBond], steps: &[EarlierBonds]) -> Option<Placement> {
    if let Some(place) = rare_place(steps) {
        return Some(start_at(place));
    }
    for (place, bond) in bonds.iter().enumerate() {
        if is_written(bond) {
            return Some(Placement {
                place: bond.a,
                bond: u16::try_from(place).ok()?,
                closing: EVERY_BOND,
            });
        }
    }
    None
}

// A place with few candidates: one that may be no carbon, and if possible no nitrogen and no oxygen.
fn rare_place(steps: &[EarlierBonds]) -> Option<u16> {
    let mut found = None;
    for (place, step) in steps.iter().enumerate() {
        if step.classes & (CARBON | COMMON) == 0 {
            return u16::try_from(place).ok();
        }
        if step.classes & CARBON == 0 && found.is_none() {
            found = u16::try_from(place).ok();
        }
    }
    found
}

/// True if a bond of a graph asks for a kind that few bonds have: double or triple.
pub fn is_rare(bond: &PatBond) -> bool {
    match bond.expr {
        Expr::Prim(prim) => prim == BondPrim::Double || prim == BondPrim::Triple,
        _ => false,
    }
}

/// True if a bond of a graph asks for one kind of bond: single, double or triple.
pub fn is_written(bond: &PatBond) -> bool {
    match bond.expr {
        Expr::Prim(prim) => prim == BondPrim::Single || is_rare(bond),
        _ => false,
    }
}

// As `lay`, but notes for each stop the other bonds that join it to earlier places.
fn lay_noted(bonds: &[PatBond], start: Placement, stops: &mut [Placement]) -> usize
    ensures { result ≤ length stops.old }
{
    let count = lay(bonds, start, stops);
    note_closing(bonds, stops, count);
    count
}

// Notes the other bonds that join each of the first `count` stops to earlier places.
fn note_closing(bonds: &[PatBond], stops: &mut [Placement], count: usize) {
    let mut seen = 0;
    for stop in stops.iter_mut().take(count) {
        stop.closing = closing_bond(bonds, *stop, seen);
        seen |= bit(stop.place);
    }
}

// The bond, other than its own, that joins a stop to a place in `seen`; `NO_BOND` if there is no such bond,
// `EVERY_BOND` if there are several.
fn closing_bond(bonds: &[PatBond], stop: Placement, seen: u64) -> u16 {
    let mut found = NO_BOND;
    for (place, bond) in bonds.iter().enumerate() {
        if place == usize::from(stop.bond) || !leads_to(bond, stop.place, seen) {
            continue;
        }
        if found != NO_BOND {
            return EVERY_BOND;
        }
        found = u16::try_from(place).unwrap_or(EVERY_BOND);
    }
    found
}

// True if a bond joins a place to one in `seen`.
fn leads_to(bond: &PatBond, place: u16, seen: u64) -> bool {
    if bond.a == place {
        seen & bit(bond.b) != 0
    } else {
        bond.b == place && seen & bit(bond.a) != 0
    }
}

// The number of placements that are laid, and their places: a bit for each.
#[derive(Clone, Copy)]
struct Laid {
    count: usize,
    seen: u64,
}

// Lays the places of a graph of at most 64 in an order from the start, along its bond first if it has one. Returns the
// number of stops.
fn lay(bonds: &[PatBond], start: Placement, stops: &mut [Placement]) -> usize
    ensures { result ≤ length stops.old }
{
    let first = Laid {
        count: put(stops, 0, start_at(start.place)),
        seen: bit(start.place),
    };
    let bond = usize::from(start.bond);
    let from = if bond < bonds.len() { bond } else { 0 };
    let mut laid = lay_forth(bonds, from, stops, first);
    for _ in 0..32 {
        let back = lay_back(bonds, stops, laid);
        let forth = lay_forth(bonds, 0, stops, back);
        if forth.count == laid.count {
            return forth.count;
        }
        laid = forth;
    }
    laid.count
}

// Lays the places to which bonds lead, from a bond on.
fn lay_forth(bonds: &[PatBond], from: usize, stops: &mut [Placement], laid: Laid) -> Laid
    requires { laid.count ≤ length stops.old }
    ensures { result.count ≤ length stops.old }
{
    let mut laid = laid;
    for place in from..bonds.len() {
        laid = lay_next(&bonds[place], place, stops, laid);
    }
    laid
}

// As `lay_forth`, but from the last bond down.
fn lay_back(bonds: &[PatBond], stops: &mut [Placement], laid: Laid) -> Laid
    requires { laid.count ≤ length stops.old }
    ensures { result.count ≤ length stops.old }
{
    let mut laid = laid;
    for place in (0..bonds.len()).rev() {
        laid = lay_next(&bonds[place], place, stops, laid);
    }
    laid
}

// Lays the place to which the bond leads, if it leads to one that is not laid.
fn lay_next(bond: &PatBond, place: usize, stops: &mut [Placement], laid: Laid) -> Laid
    requires { laid.count ≤ length stops.old }
    ensures { result.count ≤ length stops.old }
{
    let Some(next) = next_place(bond, laid.seen) else {
        return laid;
    };
    let stop = Placement {
        place: next,
        bond: u16::try_from(place).unwrap_or(NO_BOND),
        closing: EVERY_BOND,
    };
    Laid {
        count: put(stops, laid.count, stop),
        seen: laid.seen | bit(next),
    }
}

/// The end of a bond that is not in `seen`, if the other end is.
pub fn next_place(bond: &PatBond, seen: u64) -> Option<u16> {
    let one = seen & bit(bond.a) != 0;
    let other = seen & bit(bond.b) != 0;
    if one == other {
        None
    } else if one {
        Some(bond.b)
    } else {
        Some(bond.a)
    }
}

/// The bit of a place.
pub fn bit(place: u16) -> u64 {
    1 << (place % 64)
}

// Appends a stop, if there is room. Returns the new number of stops.
fn put(stops: &mut [Placement], count: usize, stop: Placement) -> usize
    requires { count ≤ length stops.old }
    ensures { result ≤ length stops.old }
{
    match stops.get_mut(count) {
        Some(slot) => {
            *slot = stop;
            count + 1
        }
        None => count,
    }
}
