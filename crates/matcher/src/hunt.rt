//! A search for any embedding of a graph, in an order of its own. An image has a number for each place of the graph. A
//! place is taken if that is an atom of the molecule. The word `used` has the taken atoms among the first 64, and the
//! candidates of a place are tried by words.
//!
//! A failed search is final: there is no embedding. Nothing is promised of a search that succeeds.
ghost use Rattle.std.specs.Prelude.{◌∷◌, ◌++◌, ◌≡◌, ◌≢◌, ◌<◌, ◌≤◌, ◌+◌, ◌*◌, ◌↔◌, ◌⊎◌, [], ℕ, List, false, length, slice_index, IfSome, IsTrue};
ghost use Rattle.std.specs.Int.{bit_at};
ghost use Rattle.matcher.specs.Hunt.{AreTaken, Asks, Continues, IsFree, stop_at};
ghost use Rattle.matcher.specs.Candidates.{AreCandidates, IsCandidate};
ghost use Rattle.matcher.specs.Task.{Completes, IsPlaced, IsReadyTask};

use crate::candidates::{Candidates, MOST_BITS, all_in, has};
use crate::fit::{are_joined_by, first_embeds, fits, is_new};
use crate::group::keeps_groups;
use crate::lay::{EVERY_BOND, NO_BOND, Placement};
use crate::planned::MOST_PLACES;
use crate::task::Task;
use smarts_mean::bond_true;
use smarts_parse::PatBond;

/// False only if no embedding extends `image`, which is then unchanged. Bit i of `used` is set only if atom i is taken.
///
/// The depth of the calls is at most the number of stops.
#[cycle(hunt)]
pub fn may_continue(
    task: &Task,
    candidates: &Candidates,
    stops: &[Placement],
    image: &mut [u16],
    used: u64,
    placed: usize,
) -> bool
    requires ready { IsReadyTask task.now }
    requires room { length task.now.graph.now.atoms.items ≤ length image.old }
    requires used { AreTaken task.now used image.old }
    requires placed { placed ≤ length stops.now }
    requires candidates { AreCandidates task.now candidates.now.words.items }
    ensures kept { result ≡ false → image.new ≡ image.old }
    ensures none { result ≡ false → (whole : List ℕ) → ¬ Continues task.now image.old whole }
{
    if placed == stops.len() {
        return true;
    }
    let stop = stops[placed];
    let place = usize::from(stop.place);
    if place >= task.graph.atoms.len() || usize::from(image[place]) < task.mol.atoms().len() {
        return true;
    }
    match atom_before(task, image, stop) {
        Some(from) => continues_near(task, candidates, stops, image, used, placed, from),
        None => continues_anywhere(task, candidates, stops, image, used, placed),
    }
}

// As `may_continue`, with the next place at any atom.
#[cycle(hunt)]
fn continues_anywhere(
    task: &Task,
    candidates: &Candidates,
    stops: &[Placement],
    image: &mut [u16],
    used: u64,
    placed: usize,
) -> bool
    requires ready { IsReadyTask task.now }
    requires room { length task.now.graph.now.atoms.items ≤ length image.old }
    requires used { AreTaken task.now used image.old }
    requires placed { placed < length stops.now }
    requires free { IsFree task.now stops.now placed image.old }
    requires candidates { AreCandidates task.now candidates.now.words.items }
    ensures kept { result ≡ false → image.new ≡ image.old }
    ensures none { result ≡ false → (whole : List ℕ) → ¬ Continues task.now image.old whole }
{
    for block in 0..task.mol.atoms().len().div_ceil(64) {
        if continues_in(task, candidates, stops, image, used, placed, block) {
            return true;
        }
    }
    false
}

// As `may_continue`, with the next place at an atom of `block`.
#[cycle(hunt)]
#[inline(always)]
fn continues_in(
    task: &Task,
    candidates: &Candidates,
    stops: &[Placement],
    image: &mut [u16],
    used: u64,
    placed: usize,
    block: usize,
) -> bool
    requires ready { IsReadyTask task.now }
    requires room { length task.now.graph.now.atoms.items ≤ length image.old }
    requires used { AreTaken task.now used image.old }
    requires placed { placed < length stops.now }
    requires free { IsFree task.now stops.now placed image.old }
    requires block { block < 16 }
    requires candidates { AreCandidates task.now candidates.now.words.items }
    ensures kept { result ≡ false → image.new ≡ image.old }
    ensures none { result ≡ false → (whole : List ℕ) → Continues task.now image.old whole → (i : ℕ) → i < 64
        → slice_index whole (stop_at stops.now placed).place ≡ 64 * block + i → ⊥ }
{
    let place = usize::from(stops[placed].place);
    let mut left = free_in(task, candidates, used, place, block);
    while left != 0 {
        let bit = left.trailing_zeros();
        left &= !(1 << bit);
        let atom = (64 * block + bit as usize) as u16;
        if continues_at(task, candidates, stops, image, used, placed, atom) {
            return true;
        }
    }
    false
}

// As `may_continue`, if the bond of the stop joins the next place to one that is mapped to `from`.
#[cycle(hunt)]
fn continues_near(
    task: &Task,
    candidates: &Candidates,
    stops: &[Placement],
    image: &mut [u16],
    used: u64,
    placed: usize,
    from: u16,
) -> bool
    requires ready { IsReadyTask task.now }
    requires room { length task.now.graph.now.atoms.items ≤ length image.old }
    requires used { AreTaken task.now used image.old }
    requires placed { placed < length stops.now }
    requires free { IsFree task.now stops.now placed image.old }
    requires from { from < length task.now.mol.now.atoms }
    requires bond { (stop_at stops.now placed).bond < length task.now.graph.now.bonds.items }
    requires asks { Asks task.now image.old (stop_at stops.now placed).place from (stop_at stops.now placed).bond }
    requires candidates { AreCandidates task.now candidates.now.words.items }
    ensures kept { result ≡ false → image.new ≡ image.old }
    ensures none { result ≡ false → (whole : List ℕ) → ¬ Continues task.now image.old whole }
{
    let place = usize::from(stops[placed].place);
    let bond = &task.graph.bonds[usize::from(stops[placed].bond)];
    let free = candidates.word(place, 0) & !used;
    let neighbours = task.mol.neighbours(from);
    for (atom, by) in neighbours {
        if !is_free(candidates, place, free, *atom) {
            continue;
        }
        if !bond_true(&bond.expr, task.mol, *by) {
            continue;
        }
        if continues_at(task, candidates, stops, image, used, placed, *atom) {
            return true;
        }
    }
    false
}

// As `may_continue`, with the next place at `atom`, which is not taken if it is one of the first 64.
#[cycle(hunt)]
#[inline(always)]
fn continues_at(
    task: &Task,
    candidates: &Candidates,
    stops: &[Placement],
    image: &mut [u16],
    used: u64,
    placed: usize,
    atom: u16,
) -> bool
    requires ready { IsReadyTask task.now }
    requires room { length task.now.graph.now.atoms.items ≤ length image.old }
    requires used { AreTaken task.now used image.old }
    requires placed { placed < length stops.now }
    requires free { IsFree task.now stops.now placed image.old }
    requires atom { atom < length task.now.mol.now.atoms }
    requires candidates { AreCandidates task.now candidates.now.words.items }
    ensures kept { result ≡ false → image.new ≡ image.old }
    ensures none { result ≡ false → (whole : List ℕ) → Continues task.now image.old whole
        → slice_index whole (stop_at stops.now placed).place ≡ atom → ⊥ }
{
    let stop = stops[placed];
    if !may_take(task, image, stop, atom) {
        return false;
    }
    let place = usize::from(stop.place);
    let before = image[place];
    image[place] = atom;
    if may_continue(
        task,
        candidates,
        stops,
        image,
        with_taken(used, atom),
        placed + 1,
    ) {
        return true;
    }
    image[place] = before;
    false
}

// The candidates of a place in a block, without the taken atoms that `used` has.
fn free_in(task: &Task, candidates: &Candidates, used: u64, place: usize, block: usize) -> u64
    requires place { place < MOST_PLACES }
    requires block { block < 16 }
    ensures within { (i : ℕ) → i < 64 → bit_at result i ≡ 1 → 64 * block + i < length task.now.mol.now.atoms }
    ensures all { (i : ℕ) → i < 64 → 64 * block + i < length task.now.mol.now.atoms
        → IsCandidate candidates.now.words.items place (64 * block + i)
        → bit_at used (64 * block + i) ≢ 1 → bit_at result i ≡ 1 }
{
    let word = candidates.word(place, block) & all_in(task.mol, block);
    if block == 0 { word & !used } else { word }
}

// True if `atom` is a candidate of the place and, if it is one of the first 64, not taken. The word `free` has those of
// the first 64.
#[inline(always)]
fn is_free(candidates: &Candidates, place: usize, free: u64, atom: u16) -> bool
    requires { place < MOST_PLACES }
    ensures low { atom < 64 → IsTrue result ↔ bit_at free atom ≡ 1 }
    ensures high { 64 ≤ atom → IsTrue result ↔ IsCandidate candidates.now.words.items place atom }
{
    if usize::from(atom) < MOST_BITS {
        has(free, atom)
    } else {
        candidates.has(place, atom)
    }
}

// False only if the place of a stop cannot be mapped to `atom`, a candidate that is not taken if it is one of the first
// 64.
#[inline(always)]
fn may_take(task: &Task, image: &[u16], stop: Placement, atom: u16) -> bool
    requires ready { IsReadyTask task.now }
    requires room { length task.now.graph.now.atoms.items ≤ length image.now }
    requires place { stop.place < length task.now.graph.now.atoms.items }
    requires free { length task.now.mol.now.atoms ≤ slice_index image.now stop.place }
    requires atom { atom < length task.now.mol.now.atoms }
    ensures { result ≡ false → (whole : List ℕ) → Continues task.now image.now whole
        → slice_index whole stop.place ≡ atom → ⊥ }
{
    let taken = &image[..task.graph.atoms.len()];
    if usize::from(atom) >= MOST_BITS && !is_new(taken, atom) {
        return false;
    }
    if !keeps_groups(task, taken, usize::from(stop.place), atom) {
        return false;
    }
    stop.closing == NO_BOND || stop.bond == NO_BOND || closes(task, image, stop, atom)
}

/// The word `used` with the bit of `atom`, if it has one.
pub fn with_taken(used: u64, atom: u16) -> u64
    ensures { (a : ℕ) → bit_at result a ≡ 1 → (a ≡ atom) ⊎ (bit_at used a ≡ 1) }
{
    if usize::from(atom) < MOST_BITS {
        used | (1 << atom)
    } else {
        used
    }
}

// False only if a bond from the place of a stop to a taken place, other than the stop's own, rules out `atom`. Each
// such bond is tested, or the only one.
fn closes(task: &Task, image: &[u16], stop: Placement, atom: u16) -> bool
    requires ready { IsReadyTask task.now }
    requires room { length task.now.graph.now.atoms.items ≤ length image.now }
    ensures { result ≡ false → (whole : List ℕ) → Continues task.now image.now whole
        → slice_index whole stop.place ≡ atom → ⊥ }
{
    if stop.closing != EVERY_BOND {
        return may_close(task, image, stop.place, stop.closing, atom);
    }
    let count = task.graph.bonds.len().min(usize::from(u16::MAX)) as u16;
    for bond in 0..count {
        if bond == stop.bond {
            continue;
        }
        if !may_close(task, image, stop.place, bond, atom) {
            return false;
        }
    }
    true
}

// False only if a bond, if it joins the place to a taken one, rules out `atom`.
fn may_close(task: &Task, image: &[u16], place: u16, bond: u16, atom: u16) -> bool
    requires ready { IsReadyTask task.now }
    requires room { length task.now.graph.now.atoms.items ≤ length image.now }
    ensures { result ≡ false → (whole : List ℕ) → Continues task.now image.now whole
        → slice_index whole place ≡ atom → ⊥ }
{
    let stop = Placement {
        place,
        bond,
        closing: NO_BOND,
    };
    match atom_before(task, image, stop) {
        Some(from) => {
            let joining = &task.graph.bonds[usize::from(bond)];
            are_joined_by(&joining.expr, task.mol, from, atom)
        }
        None => true,
    }
}

// The atom to which the other end of the stop's bond is mapped, if that is taken.
fn atom_before(task: &Task, image: &[u16], stop: Placement) -> Option<u16>
    requires { IsReadyTask task.now }
    ensures from { IfSome result (λ from. from < length task.now.mol.now.atoms) }
    ensures bond { IfSome result (λ from. stop.bond < length task.now.graph.now.bonds.items) }
    ensures asks { IfSome result (λ from. Asks task.now image.now stop.place from stop.bond) }
{
    let bonds = &task.graph.bonds;
    if usize::from(stop.bond) >= bonds.len() {
        return None;
    }
    let other = other_end(&bonds[usize::from(stop.bond)], stop.place)?;
    if usize::from(other) >= image.len() {
        return None;
    }
    let from = image[usize::from(other)];
    if usize::from(from) < task.mol.atoms().len() {
        Some(from)
    } else {
        None
    }
}

/// The other end of a bond; `None` if the bond does not end at the place.
pub fn other_end(bond: &PatBond, place: u16) -> Option<u16>
    ensures { IfSome result (λ other. ((bond.now.a ≡ place) × (bond.now.b ≡ other))
        ⊎ ((bond.now.a ≡ other) × (bond.now.b ≡ place))) }
{
    if bond.a == place {
        Some(bond.b)
    } else if bond.b == place {
        Some(bond.a)
    } else {
        None
    }
}

/// True only if the atoms at the front of an image are an embedding.
pub fn is_whole(task: &Task, candidates: &Candidates, image: &[u16]) -> bool
    requires ready { IsReadyTask task.now }
    requires room { length task.now.graph.now.atoms.items ≤ length image.now }
    requires candidates { AreCandidates task.now candidates.now.words.items }
    ensures { IsTrue result → Completes task.now [] }
{
    for placed in 0..task.graph.atoms.len() {
        if !begins(task, candidates, &image[..placed], image[placed]) {
            return false;
        }
    }
    true
}

// True only if the next atom may be mapped to `atom` after `front`.
fn begins(task: &Task, candidates: &Candidates, front: &[u16], atom: u16) -> bool
    requires ready { IsReadyTask task.now }
    requires few { length front.now < length task.now.graph.now.atoms.items }
    requires partial { IsPlaced task.now front.now }
    requires candidates { AreCandidates task.now candidates.now.words.items }
    ensures { IsTrue result → IsPlaced task.now (front.now ++ atom ∷ []) }
{
    if usize::from(atom) >= task.mol.atoms().len() {
        return false;
    }
    if !candidates.has(front.len(), atom) {
        return false;
    }
    if !first_embeds(task, front, atom) {
        return false;
    }
    fits(task, front, atom)
}
