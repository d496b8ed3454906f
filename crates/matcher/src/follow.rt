//! A search for any embedding of a graph along its route, in a molecule of at most 64 atoms. For each set of kinds of
//! bonds a word of each atom has the atoms to which such bonds join it, so a step is a few words, without a call.
//!
//! A failed search is final: there is no embedding. Of a search that succeeds nothing is promised; its result is tested,
//! by words too.
ghost use Rattle.std.specs.Prelude.{◌≡◌, ◌≢◌, ◌<◌, ◌≤◌, ◌+◌, ◌↔◌, ◌⊎◌, [], ℕ, false, length, slice_index, slice_index_or, vec_len, IfSome, IsTrue};
ghost use Rattle.std.specs.Int.{bit_at};
ghost use Rattle.chem_core.specs.Sorts.{kind_number};
ghost use Rattle.smarts_parse.specs.Embedding.{BondEmbeds};
ghost use Rattle.smarts_parse.specs.Pattern.{BondTerm, graph_of};
ghost use Rattle.matcher.specs.Candidates.{AreCandidates};
ghost use Rattle.matcher.specs.Follow.{AreJoined, AreJoinedBy, ArePlaced, HasNext, IsFree, IsSearch};
ghost use Rattle.matcher.specs.Laid.{IsRouteOf};
ghost use Rattle.matcher.specs.Route.{AreSorted, HasNoGroups, IsJoin, IsSorted};
ghost use Rattle.matcher.specs.Task.{Completes, IsReadyTask};

use crate::candidates::{Candidates, MOST_BITS, all_in};
use crate::route::{Join, MOST_SETS, MOST_STOPS, Route, Stop};
use crate::task::Task;
use chem_core::{BondKind, Mol};
use std::alloc::{AllocError, Global};

// The number of steps after which a search is given up. It is not reached.
const MOST_STEPS: u64 = 1 << 60;

// The words of the joined atoms, for all sets.
const MOST_JOINED: usize = MOST_SETS * MOST_BITS;

/// The memory that a search writes.
#[derive(Debug, Drop)]
pub struct Trail {
    // for each set of kinds and each atom the atoms to which bonds of these kinds join it
    joined: Vec<u64>,
    // for each stop the atoms that are left to be tried
    left: Vec<u64>,
    // for each stop the atom at which it is tried
    atoms: Vec<usize>,
    ghost joined_room: { vec_len joined ≡ 256 },
    ghost left_room: { vec_len left ≡ 64 },
    ghost atoms_room: { vec_len atoms ≡ 64 },
}

impl Trail {
    /// Takes the memory.
    pub fn reserve(alloc: Global) -> Result<Trail, AllocError> {
        Ok(Trail {
            joined: vec![in alloc; 0; MOST_JOINED]?,
            left: vec![in alloc; 0; MOST_STOPS]?,
            atoms: vec![in alloc; 0; MOST_STOPS]?,
        })
    }
}

/// Whether a graph that has a route has an embedding; `None` if the search does not decide it.
pub fn follow(
    task: &Task,
    candidates: &Candidates,
    route: &Route,
    trail: &mut Trail,
    image: &mut [u16],
) -> Option<bool>
    requires ready { IsReadyTask task.now }
    requires few { length task.now.mol.now.atoms ≤ 64 }
    requires room { length task.now.graph.now.atoms.items ≤ length image.old }
    requires candidates { AreCandidates task.now candidates.now.words.items }
    requires route { IsRouteOf (graph_of task.now.graph.now) route.now }
    requires some { 0 < route.now.laid }
    ensures { IfSome result (λ found. IsTrue found ↔ Completes task.now []) }
{
    let kinds = route.kinds();
    note_all(task.mol, kinds, &mut trail.joined);
    let search = Search {
        task,
        candidates: &candidates.words,
        joined: &trail.joined,
        kinds,
        stops: route.stops(),
        joins: route.joins(),
    };
    if !search.may_embed(&mut trail.left, &mut trail.atoms)? {
        return Some(false);
    }
    search.write(&trail.atoms, image);
    if search.is_image(route.sets(), image) {
        Some(true)
    } else {
        None
    }
}

// Notes for each set of kinds and each atom the atoms to which bonds of these kinds join it.
fn note_all(mol: &Mol, kinds: &[u64], joined: &mut [u64])
    requires few { length mol.now.atoms ≤ 64 }
    requires sets { length kinds.now ≤ MOST_SETS }
    requires room { length joined.old ≡ MOST_JOINED }
    ensures { AreJoined mol.now kinds.now joined.new }
{
    for set in 0..kinds.len() {
        note_joined(mol, kinds[set], joined, MOST_BITS * set);
    }
}

// Notes for each atom the atoms to which bonds of these kinds join it. The words begin at `start`; those before are
// kept. It has no branch for each bond, since kinds are hard to predict.
fn note_joined(mol: &Mol, kinds: u64, joined: &mut [u64], start: usize)
    requires few { length mol.now.atoms ≤ 64 }
    requires room { start + 64 ≤ length joined.old }
    ensures here { AreJoinedBy mol.now kinds joined.new start }
    ensures before { (k : ℕ) → k < start → slice_index joined.new k ≡ slice_index joined.old k }
{
    for atom in 0..mol.atoms().len() {
        joined[start + atom] = 0;
    }
    let bonds = mol.bonds();
    for bond in bonds {
        let bit = bit_of(kinds, bond.kind);
        join_from(joined, start, bond.a, bond.b, bit);
        join_from(joined, start, bond.b, bond.a, bit);
    }
}

// Notes `other` in the word of an atom, if `bit` is 1. The words begin at `start`.
fn join_from(joined: &mut [u64], start: usize, atom: u16, other: u16, bit: u64)
    requires room { start + 64 ≤ length joined.old }
    requires atom { atom < 64 }
    requires other { other < 64 }
    requires bit { bit ≤ 1 }
    ensures here { bit ≡ 1 → bit_at (slice_index joined.new (start + atom)) other ≡ 1 }
    ensures kept { (x y : ℕ) → bit_at (slice_index joined.old x) y ≡ 1
        → bit_at (slice_index joined.new x) y ≡ 1 }
    ensures only { (x y : ℕ) → bit_at (slice_index joined.new (start + x)) y ≡ 1
        → (bit_at (slice_index joined.old (start + x)) y ≡ 1)
        ⊎ ((bit ≡ 1) × (x ≡ atom) × (y ≡ other)) }
    ensures before { (k : ℕ) → k < start → slice_index joined.new k ≡ slice_index joined.old k }
{
    joined[start + usize::from(atom)] |= bit << other;
}

// The bit of a kind.
fn bit_of(kinds: u64, kind: BondKind) -> u64
    ensures value { result ≡ bit_at kinds (kind_number kind) }
    ensures few { result ≤ 1 }
{
    (kinds >> number_of(kind)) & 1
}

// The number of a kind.
fn number_of(kind: BondKind) -> u16
    ensures value { result ≡ kind_number kind }
    ensures few { result < 64 }
{
    match kind {
        BondKind::Single => 0,
        BondKind::Double => 1,
        BondKind::Triple => 2,
        BondKind::Quad => 3,
        BondKind::Aromatic => 4,
    }
}

// What a search reads.
#[derive(Clone, Copy)]
struct Search<'a> {
    task: &'a Task<'a>,
    candidates: &'a [u64],
    joined: &'a [u64],
    kinds: &'a [u64],
    stops: &'a [Stop],
    joins: &'a [Join],
}

impl Search<'_> {
    // False only if there is no embedding. If true, the stops stand at the atoms, as far as candidates and bonds go.
    fn may_embed(&self, left: &mut [u64], atoms: &mut [usize]) -> Option<bool>
        requires ready { IsSearch self.now }
        requires some { 0 < length self.now.stops.now }
        requires stops { length self.now.stops.now ≤ MOST_STOPS }
        requires left { length left.old ≡ MOST_STOPS }
        requires atoms { length atoms.old ≡ MOST_STOPS }
        ensures { IfSome result (λ found. found ≡ false → ¬ Completes self.now.task.now []) }
    {
        let mut free = all_in(self.task.mol, 0);
        let mut at = 0;
        left[0] = self.candidates[self.stops[0].place] & free;
        for _turn in 0..MOST_STEPS {
            let word = left[at];
            if word == 0 {
                if at == 0 {
                    return Some(false);
                }
                at -= 1;
                free = with_bit(free, atoms[at]);
                continue;
            }
            let atom = lowest(word);
            left[at] = without_bit(word, atom);
            atoms[at] = atom;
            if at + 1 == self.stops.len() {
                return Some(true);
            }
            let others = without_bit(free, atom);
            let next = self.next_at(atoms, others, at + 1);
            if next == 0 {
                continue;
            }
            free = others;
            at += 1;
            left[at] = next;
        }
        None
    }

    // The open atoms at which a stop may stand: candidates of its place to which its joins lead.
    #[inline(always)]
    fn next_at(&self, atoms: &[usize], free: u64, at: usize) -> u64
        requires ready { IsSearch self.now }
        requires stop { at < length self.now.stops.now }
        requires later { 0 < at }
        requires stops { length self.now.stops.now ≤ MOST_STOPS }
        requires atoms { length atoms.now ≡ MOST_STOPS }
        requires free { IsFree self.now.task.now.mol.now at atoms.now free }
        ensures { HasNext self.now.task.now self.now.stops.now at atoms.now result }
    {
        let stop = self.stops[at];
        let mut word = self.candidates[stop.place] & free;
        word &= self.joined_by(atoms, stop.first, at);
        for number in stop.from..stop.to {
            word &= self.joined_by(atoms, self.joins[number], at);
        }
        word
    }

    // The atoms to which a join of a stop leads.
    #[inline(always)]
    fn joined_by(&self, atoms: &[usize], join: Join, at: usize) -> u64
        requires ready { IsSearch self.now }
        requires stop { at < length self.now.stops.now }
        requires stops { length self.now.stops.now ≤ MOST_STOPS }
        requires atoms { length atoms.now ≡ MOST_STOPS }
        requires join { IsJoin (graph_of self.now.task.now.graph.now) self.now.stops.now self.now.kinds.now at join }
        ensures { HasNext self.now.task.now self.now.stops.now at atoms.now result }
    {
        self.joined[MOST_BITS * join.set + atoms[join.other] % MOST_BITS]
    }

    // Writes for each place the atom at which its stop stands.
    fn write(&self, atoms: &[usize], image: &mut [u16])
        requires ready { IsSearch self.now }
        requires stops { length self.now.stops.now ≤ MOST_STOPS }
        requires atoms { length atoms.now ≡ MOST_STOPS }
        requires room { length self.now.task.now.graph.now.atoms.items ≤ length image.old }
    {
        for at in 0..self.stops.len() {
            image[self.stops[at].place] = (atoms[at] % MOST_BITS) as u16;
        }
    }

    // True only if the atoms at the front of an image are an embedding.
    fn is_image(&self, sets: &[usize], image: &[u16]) -> bool
        requires ready { IsSearch self.now }
        requires room { length self.now.task.now.graph.now.atoms.items ≤ length image.now }
        requires sorted { AreSorted (graph_of self.now.task.now.graph.now) self.now.kinds.now sets.now }
        requires alone { HasNoGroups (graph_of self.now.task.now.graph.now) }
        ensures { IsTrue result → Completes self.now.task.now [] }
    {
        if !self.are_placed(image) {
            return false;
        }
        for number in 0..self.task.graph.bonds.len() {
            if !self.has_bond(number, sets, image) {
                return false;
            }
        }
        true
    }

    // True only if the atoms at the front of an image are candidates of the places, all different.
    fn are_placed(&self, image: &[u16]) -> bool
        requires ready { IsSearch self.now }
        requires room { length self.now.task.now.graph.now.atoms.items ≤ length image.now }
        ensures { IsTrue result → ArePlaced self.now.task.now self.now.candidates.now image.now
            (length self.now.task.now.graph.now.atoms.items) }
    {
        let mut free = all_in(self.task.mol, 0);
        for place in 0..self.task.graph.atoms.len() {
            let atom = usize::from(image[place]);
            if !has_bit(free & self.candidates[place], atom) {
                return false;
            }
            free = without_bit(free, atom);
        }
        true
    }

    // True only if a bond of the molecule joins the atoms of the ends of a bond, as it asks.
    fn has_bond(&self, number: usize, sets: &[usize], image: &[u16]) -> bool
        requires ready { IsSearch self.now }
        requires bond { number < length self.now.task.now.graph.now.bonds.items }
        requires room { length self.now.task.now.graph.now.atoms.items ≤ length image.now }
        requires sorted { IsSorted (graph_of self.now.task.now.graph.now) self.now.kinds.now sets.now number }
        requires placed { ArePlaced self.now.task.now self.now.candidates.now image.now
            (length self.now.task.now.graph.now.atoms.items) }
        ensures { IsTrue result → (d : BondTerm) → BondEmbeds self.now.task.now.mol.now image.now
            (slice_index_or (graph_of self.now.task.now.graph.now).bonds number d) }
    {
        if number >= sets.len() {
            return false;
        }
        let bond = &self.task.graph.bonds[number];
        let one = usize::from(bond.a);
        let other = usize::from(bond.b);
        let from = usize::from(image[one]);
        let to = usize::from(image[other]);
        has_bit(self.joined[MOST_BITS * sets[number] + from], to)
    }
}

// True only if the word has the bit of an atom.
fn has_bit(word: u64, atom: usize) -> bool
    ensures few { IsTrue result → atom < 64 }
    ensures has { IsTrue result → bit_at word atom ≡ 1 }
{
    if atom >= 64 {
        return false;
    }
    (word >> atom) & 1 == 1
}

// The word with the bit of an atom.
fn with_bit(word: u64, atom: usize) -> u64
    ensures here { atom < 64 → bit_at result atom ≡ 1 }
    ensures kept { (a : ℕ) → bit_at word a ≡ 1 → bit_at result a ≡ 1 }
{
    word | (1 << (atom % 64))
}

// The lowest atom of a word.
fn lowest(word: u64) -> usize
    requires { word ≢ 0 }
    ensures { result < 64 }
{
    word.trailing_zeros() as usize
}

// The word without the bit of an atom.
fn without_bit(word: u64, atom: usize) -> u64
    requires { atom < 64 }
    ensures kept { (a : ℕ) → a < 64 → a ≢ atom → bit_at word a ≡ 1 → bit_at result a ≡ 1 }
    ensures only { (a : ℕ) → bit_at result a ≡ 1 → bit_at word a ≡ 1 }
    ensures gone { bit_at result atom ≢ 1 }
{
    word & !(1 << atom)
}
