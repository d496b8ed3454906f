//! Fewer candidates of the places of a graph, in a molecule of at most 64 atoms (Ullmann 1976; Solnon 2010). An atom is
//! no candidate of a place if it has fewer neighbours among the candidates of the neighbouring places than there are
//! such places. If a place has no candidate left, the graph has no embedding.
ghost use Rattle.std.specs.Prelude.{◌≡◌, ◌≢◌, ◌<◌, ◌≤◌, ◌↔◌, [], ℕ, bit_and, count_ones, length, slice_index, vec_len, IfSome, IsTrue};
ghost use Rattle.std.specs.Int.{bit_at};
ghost use Rattle.smarts_parse.specs.Pattern.{graph_of};
ghost use Rattle.matcher.specs.Candidates.{AreCandidates};
ghost use Rattle.matcher.specs.Narrow.{AreNear, AreRingNear, HasAround, IfRefused, IsNarrowed, IsReach, around_at, more_around};
ghost use Rattle.matcher.specs.Ring.{AreRingMarks};
ghost use Rattle.matcher.specs.Task.{Completes, IsReadyTask};

use crate::candidates::{Candidates, MOST_BITS, MOST_WORDS};
use crate::planned::MOST_PLACES;
use crate::ring::{Closing, is_marked};
use crate::task::Task;
use chem_core::Mol;
use std::alloc::{AllocError, Global};

/// The fewest places of a graph whose candidates are narrowed.
const MANY_PLACES: usize = 6;

/// The most passes over all places in a narrowing.
const ROUNDS: usize = 3;

/// The number of narrowings in vain after which no more is tried; each one that refuses makes up for two.
const MOST_CREDIT: u8 = 8;

/// Memory for narrowing, and a count of whether it pays for the pattern.
#[derive(Debug, Drop)]
pub struct Narrowing {
    reach: Reach,
    // for each place the places to which the bonds of the last pass lead
    around: Vec<Around>,
    // 0 if narrowing does not pay: then no more is tried
    credit: u8,
    ghost room: { vec_len around ≡ 256 },
}

/// The neighbours in a molecule to which bonds of a graph may lead.
#[derive(Debug, Drop)]
struct Reach {
    // for each atom its neighbours, and those by ring bonds
    near: Vec<u64>,
    ring_near: Vec<u64>,
    ghost near_room: { vec_len near ≡ 64 },
    ghost ring_near_room: { vec_len ring_near ≡ 64 },
}

/// The number of places, all different, and the atoms that have all their candidates.
#[derive(Clone, Copy, Debug)]
struct Around {
    count: usize,
    atoms: u64,
}

/// No places.
const NONE_AROUND: Around = Around { count: 0, atoms: 0 };

// The result of a pass over the places of a graph.
#[derive(Clone, Copy)]
enum Pass {
    // a place has no candidate left
    Refused,
    // candidates are taken away
    Changed,
    // no candidate is taken away
    Stable,
}

// The atoms of the word `from` that are left by the places around.
#[derive(Clone, Copy)]
struct Narrowed {
    from: u64,
    around: Around,
    kept: u64,
}

// No atoms of an empty word.
const NONE_NARROWED: Narrowed = Narrowed {
    from: 0,
    around: NONE_AROUND,
    kept: 0,
};

impl Narrowing {
    /// Takes the memory.
    pub fn reserve(alloc: Global) -> Result<Narrowing, AllocError> {
        Ok(Narrowing {
            reach: Reach::reserve(alloc)?,
            around: vec![in alloc; NONE_AROUND; MOST_PLACES]?,
            credit: MOST_CREDIT,
        })
    }

    /// Begins anew, for another pattern.
    pub fn begin(&mut self) {
        self.credit = MOST_CREDIT;
    }

    /// Takes away candidates, if that pays for the pattern. True only if the graph, whose bonds on rings are marked,
    /// has no embedding.
    pub fn refuse(&mut self, task: &Task, closing: &Closing, candidates: &mut Candidates) -> bool
        requires ready { IsReadyTask task.now }
        requires marks { AreRingMarks (graph_of task.now.graph.now) closing.now.on_ring.items }
        requires candidates { AreCandidates task.now candidates.old.words.items }
        ensures refused { IsTrue result → ¬ Completes task.now [] }
        ensures candidates { AreCandidates task.now candidates.new.words.items }
    {
        if self.credit == 0 || task.graph.atoms.len() < MANY_PLACES {
            return false;
        }
        if task.mol.atoms().len() > MOST_BITS {
            return false;
        }
        self.reach.note(task.mol, closing);
        let words = &mut candidates.words;
        let refused = self.reach.narrow(task, closing, &mut self.around, words);
        self.credit = if refused {
            self.credit.saturating_add(2).min(MOST_CREDIT)
        } else {
            self.credit - 1
        };
        refused
    }
}

/// True if candidates are narrowed, provided that it pays for the pattern: those of many places, in a molecule of at
/// most 64 atoms. Then rings need not be tested by lengths and classes, since narrowing shows more.
pub fn may_narrow(task: &Task) -> bool {
    task.graph.atoms.len() >= MANY_PLACES && task.mol.atoms().len() <= MOST_BITS
}

impl Reach {
    ghost use Rattle.matcher.specs.Narrow.{IsNoted};

    fn reserve(alloc: Global) -> Result<Reach, AllocError> {
        Ok(Reach {
            near: vec![in alloc; 0; MOST_BITS]?,
            ring_near: vec![in alloc; 0; MOST_BITS]?,
        })
    }

    // Notes the neighbours of each atom: all if a bond of the graph is open, and those by ring bonds if one is on a
    // ring.
    fn note(&mut self, mol: &Mol, closing: &Closing)
        requires few { length mol.now.atoms ≤ 64 }
        ensures near { IsTrue closing.now.has_open → AreNear mol.now self.new.near.items }
        ensures ring_near { IsTrue closing.now.has_ring → AreRingNear mol.now self.new.ring_near.items }
    {
        note_neighbours(mol, closing.has_open, &mut self.near);
        note_ring_neighbours(mol, closing.has_ring, &mut self.ring_near);
    }

    // Takes away candidates of each place. Returns true if a place has no candidate left.
    fn narrow(
        &self,
        task: &Task,
        closing: &Closing,
        around: &mut [Around],
        words: &mut [u64],
    ) -> bool
        requires ready { IsReadyTask task.now }
        requires room { length words.old ≡ MOST_WORDS }
        requires around { length around.old ≡ 256 }
        requires few { length task.now.mol.now.atoms ≤ 64 }
        requires noted { IsNoted task.now closing.now self.now.near.items self.now.ring_near.items }
        requires candidates { AreCandidates task.now words.old }
        ensures refused { IsTrue result → ¬ Completes task.now [] }
        ensures candidates { AreCandidates task.now words.new }
    {
        for _ in 0..ROUNDS {
            match self.narrow_once(task, closing, around, words) {
                Pass::Refused => return true,
                Pass::Changed => {}
                Pass::Stable => return false,
            }
        }
        false
    }

    // As `narrow`, but in one pass: by bonds on rings first.
    fn narrow_once(
        &self,
        task: &Task,
        closing: &Closing,
        around: &mut [Around],
        words: &mut [u64],
    ) -> Pass
        requires ready { IsReadyTask task.now }
        requires room { length words.old ≡ MOST_WORDS }
        requires around { length around.old ≡ 256 }
        requires few { length task.now.mol.now.atoms ≤ 64 }
        requires noted { IsNoted task.now closing.now self.now.near.items self.now.ring_near.items }
        requires candidates { AreCandidates task.now words.old }
        ensures refused { IfRefused result (¬ Completes task.now []) }
        ensures candidates { AreCandidates task.now words.new }
    {
        match narrow_all(task, closing.rings(), &self.ring_near, around, words) {
            Pass::Refused => Pass::Refused,
            by_rings => match narrow_all(task, closing.all(), &self.near, around, words) {
                Pass::Stable => by_rings,
                by_all => by_all,
            },
        }
    }
}

// Notes for each atom its neighbours, if these are asked for.
fn note_neighbours(mol: &Mol, is_asked: bool, near: &mut [u64])
    requires atoms { length mol.now.atoms ≤ 64 }
    requires room { length near.old ≡ 64 }
    ensures { IsTrue is_asked → AreNear mol.now near.new }
{
    if !is_asked {
        return;
    }
    near.fill(0);
    let bonds = mol.bonds();
    for bond in bonds {
        join(near, bond.a, bond.b, 1);
        join(near, bond.b, bond.a, 1);
    }
}

// Notes for each atom its neighbours by ring bonds, if these are asked for. It has no branch for each bond, since ring
// bonds are hard to predict.
fn note_ring_neighbours(mol: &Mol, is_asked: bool, near: &mut [u64])
    requires atoms { length mol.now.atoms ≤ 64 }
    requires room { length near.old ≡ 64 }
    ensures { IsTrue is_asked → AreRingNear mol.now near.new }
{
    if !is_asked {
        return;
    }
    near.fill(0);
    let bonds = mol.bonds();
    for place in 0..bonds.len() as u16 {
        let ring = u64::from(mol.ring_bond(place));
        let bond = bonds[usize::from(place)];
        join(near, bond.a, bond.b, ring);
        join(near, bond.b, bond.a, ring);
    }
}

// Notes `other` as a neighbour of `atom`, if `bit` is 1.
fn join(near: &mut [u64], atom: u16, other: u16, bit: u64)
    requires atom { atom < length near.old }
    requires other { other < 64 }
    ensures here { bit ≡ 1 → bit_at (slice_index near.new atom) other ≡ 1 }
    ensures kept { (x y : ℕ) → bit_at (slice_index near.old x) y ≡ 1
        → bit_at (slice_index near.new x) y ≡ 1 }
{
    near[usize::from(atom)] |= bit << other;
}

// Takes away candidates of each place by marked bonds, if there are any.
fn narrow_all(
    task: &Task,
    marks: Option<&[bool]>,
    near: &[u64],
    around: &mut [Around],
    words: &mut [u64],
) -> Pass
    requires ready { IsReadyTask task.now }
    requires room { length words.old ≡ MOST_WORDS }
    requires around { length around.old ≡ 256 }
    requires atoms { length near.now ≡ 64 }
    requires few { length task.now.mol.now.atoms ≤ 64 }
    requires reach { IfSome marks (λ bonds. IsReach task.now bonds.now near.now) }
    requires candidates { AreCandidates task.now words.old }
    ensures candidates { AreCandidates task.now words.new }
    ensures refused { IfRefused result (¬ Completes task.now []) }
{
    let Some(marks) = marks else {
        return Pass::Stable;
    };
    gather(task, marks, near, words, around);
    narrow_words(task, near, around, words)
}

// Takes away candidates of each place by the places around it.
fn narrow_words(task: &Task, near: &[u64], around: &[Around], words: &mut [u64]) -> Pass
    requires ready { IsReadyTask task.now }
    requires room { length words.old ≡ MOST_WORDS }
    requires around_room { length around.now ≡ 256 }
    requires atoms { length near.now ≡ 64 }
    requires few { length task.now.mol.now.atoms ≤ 64 }
    requires around { (p : ℕ) → p < length task.now.graph.now.atoms.items
        → HasAround task.now near.now p (around_at around.now p) }
    requires candidates { AreCandidates task.now words.old }
    ensures candidates { AreCandidates task.now words.new }
    ensures refused { IfRefused result (¬ Completes task.now []) }
{
    let mut last = NONE_NARROWED;
    let mut changed = false;
    for place in 0..task.graph.atoms.len() {
        last = narrow_word(near, words[place], around[place], last);
        changed |= last.kept != words[place];
        words[place] = last.kept;
        if words[place] == 0 {
            return Pass::Refused;
        }
    }
    if changed { Pass::Changed } else { Pass::Stable }
}

// The atoms of the word `from` that are left by the places around, often as for the place before.
fn narrow_word(near: &[u64], from: u64, around: Around, last: Narrowed) -> Narrowed
    requires room { length near.now ≡ 64 }
    requires last { IsNarrowed near.now last.from last.around.count last.around.atoms last.kept }
    ensures kept { IsNarrowed near.now from around.count around.atoms result.kept }
    ensures last { IsNarrowed near.now result.from result.around.count result.around.atoms result.kept }
{
    if is_again(last, from, around) {
        return last;
    }
    Narrowed {
        from,
        around,
        kept: with_neighbours(near, from, around),
    }
}

// True if the word and the places around are as before.
fn is_again(last: Narrowed, from: u64, around: Around) -> bool
    ensures from { IsTrue result → last.from ≡ from }
    ensures count { IsTrue result → last.around.count ≡ around.count }
    ensures atoms { IsTrue result → last.around.atoms ≡ around.atoms }
{
    last.from == from && last.around.count == around.count && last.around.atoms == around.atoms
}

// Finds for each place the places to which marked bonds lead from it.
fn gather(task: &Task, marks: &[bool], near: &[u64], words: &[u64], around: &mut [Around])
    requires ready { IsReadyTask task.now }
    requires room { length words.now ≡ MOST_WORDS }
    requires around { length around.old ≡ 256 }
    requires few { length task.now.mol.now.atoms ≤ 64 }
    requires reach { IsReach task.now marks.now near.now }
    requires candidates { AreCandidates task.now words.now }
    ensures { (p : ℕ) → p < length task.now.graph.now.atoms.items
        → HasAround task.now near.now p (around_at around.new p) }
{
    for place in 0..task.graph.atoms.len() {
        around[place] = NONE_AROUND;
    }
    for (index, bond) in task.graph.bonds.iter().enumerate() {
        if !is_marked(marks, index) {
            continue;
        }
        lead(around, words, bond.a, bond.b);
        lead(around, words, bond.b, bond.a);
    }
}

// Notes that a bond leads from one place to another.
fn lead(around: &mut [Around], words: &[u64], from: u16, to: u16)
    requires from { from < length around.old }
    requires to { to < length words.now }
    requires few { (around_at around.old from).count < usize.MAX }
    ensures here { around_at around.new from ≡ more_around (around_at around.old from) (slice_index words.now to) }
    ensures others { (p : ℕ) → p ≢ from → around_at around.new p ≡ around_at around.old p }
{
    let before = around[usize::from(from)];
    around[usize::from(from)] = Around {
        count: before.count + 1,
        atoms: before.atoms | words[usize::from(to)],
    };
}

// The atoms in the word that have at least `around.count` neighbours in `around.atoms`.
fn with_neighbours(near: &[u64], from: u64, around: Around) -> u64
    requires room { length near.now ≡ 64 }
    ensures kept { (a : ℕ) → a < 64 → bit_at from a ≡ 1
        → around.count ≤ count_ones (bit_and (slice_index near.now a) around.atoms)
        → bit_at result a ≡ 1 }
    ensures within { (a : ℕ) → bit_at result a ≡ 1 → bit_at from a ≡ 1 }
{
    let mut left = from;
    let mut kept = from;
    for _ in 0..from.count_ones() {
        let atom = left.trailing_zeros();
        if atom >= 64 {
            return kept;
        }
        left &= left.wrapping_sub(1);
        if has_ones(near[atom as usize] & around.atoms, around.count) {
            continue;
        }
        kept &= !(1 << atom);
    }
    kept
}

// True if the word has at least `count` ones.
fn has_ones(word: u64, count: usize) -> bool
    ensures { IsTrue result ↔ count ≤ count_ones word }
{
    count <= word.count_ones() as usize
}
