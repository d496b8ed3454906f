//! The candidates of each place of a graph: the atoms to which it may be mapped, as bits of a word for each block of 64
//! atoms. At first these are the atoms at which the place's expression is true.
ghost use Rattle.std.specs.Prelude.{◌≡◌, ◌<◌, ◌≤◌, ◌+◌, ◌-◌, ◌*◌, ◌↔◌, ℕ, length, min, slice_get, slice_index, vec_len, IsTrue};
ghost use Rattle.std.specs.Int.{bit_at};
ghost use Rattle.smarts_mean.specs.Table.{HoldsIn, Table};
ghost use Rattle.smarts_parse.specs.Pattern.{Prim, term_of};
ghost use Rattle.smarts_parse.specs.Sound.{NamesBelow, PrimNamesBelow};
ghost use Rattle.smarts_parse.specs.Truth.{AtomTrue};
ghost use Rattle.matcher.specs.Candidates.{AreTruths, IsCandidate, IsTruth, IsTruthAt};
ghost use Rattle.matcher.specs.Task.{IsReadyTask};
ghost use Rattle.matcher.specs.declared.candidates.TheConstants.{MOST_WORDS};

use crate::planned::MOST_PLACES;
use crate::task::Task;
use chem_core::{Atom, MOST_ATOMS, Mol};
use smarts_mean::{MOST_PARTS, RecTable, prim_true};
use smarts_parse::{AtomPrim, Expr};
use std::alloc::{AllocError, Global};

/// The number of words for the places of the largest graph and the atoms of the largest molecule. The words of all
/// places for the first block of atoms come first, then those for the second.
pub const MOST_WORDS: usize = 16 * MOST_PLACES;

/// The most atoms of a molecule that have a bit each in one word.
pub const MOST_BITS: usize = 64;

/// The candidates of the places of a graph. There is room for every graph and molecule within the limits.
#[derive(Debug, Drop)]
pub struct Candidates {
    pub words: Vec<u64>,
    ghost room: { vec_len words ≡ MOST_WORDS },
}

impl Candidates {
    ghost use Rattle.matcher.specs.Candidates.{AreCandidates};

    /// Takes the memory.
    pub fn reserve(alloc: Global) -> Result<Candidates, AllocError> {
        Ok(Candidates {
            words: vec![in alloc; 0; MOST_WORDS]?,
        })
    }

    /// Finds the atoms at which the expression of each place is true.
    pub fn find(&mut self, task: &Task)
        requires { IsReadyTask task.now }
        ensures truths { AreTruths task.now self.new.words.items }
        ensures candidates { AreCandidates task.now self.new.words.items }
    {
        find_truths(task, &mut self.words);
    }

    /// True if the atom is a candidate of the place.
    pub fn has(&self, place: usize, atom: u16) -> bool
        requires { place < MOST_PLACES }
        ensures { IsTrue result ↔ IsCandidate self.now.words.items place atom }
    {
        match self.words.get(MOST_PLACES * usize::from(atom / 64) + place) {
            Some(word) => has(*word, atom % 64),
            None => false,
        }
    }

    /// The word of a place for a block.
    #[inline(always)]
    pub fn word(&self, place: usize, block: usize) -> u64
        requires place { place < MOST_PLACES }
        requires block { block < 16 }
        ensures { (i : ℕ) → i < 64 → bit_at result i ≡ 1
            ↔ IsCandidate self.now.words.items place (64 * block + i) }
    {
        self.words[MOST_PLACES * block + place]
    }

    /// The candidates of the first place in a block.
    pub fn first_in(&self, mol: &Mol, block: usize) -> u64
        requires { block < 16 }
        ensures { (i : ℕ) → i < 64 → bit_at result i ≡ 1
            ↔ (64 * block + i < length mol.now.atoms) × IsCandidate self.now.words.items 0 (64 * block + i) }
    {
        self.word(0, block) & all_in(mol, block)
    }

    /// Takes an atom away from the candidates of a place.
    pub fn remove(&mut self, place: usize, atom: u16)
        requires { place < MOST_PLACES }
        ensures others { (p a : ℕ) → p < MOST_PLACES → (p ≡ place → a ≡ atom → ⊥)
            → IsCandidate self.old.words.items p a → IsCandidate self.new.words.items p a }
        ensures fewer { (p a : ℕ) → IsCandidate self.new.words.items p a
            → IsCandidate self.old.words.items p a }
    {
        if let Some(word) = self
            .words
            .get_mut(MOST_PLACES * usize::from(atom / 64) + place)
        {
            *word &= !(1 << (atom % 64));
        }
    }
}

// Finds the atoms at which the expression of each place is true.
fn find_truths(task: &Task, words: &mut [u64])
    requires ready { IsReadyTask task.now }
    requires room { length words.old ≡ MOST_WORDS }
    ensures { AreTruths task.now words.new }
{
    for block in 0..task.mol.atoms().len().div_ceil(64) {
        find_block(task, words, block);
    }
}

// As `find_truths`, but for a block of atoms. The words of earlier blocks are kept.
fn find_block(task: &Task, words: &mut [u64], block: usize)
    requires ready { IsReadyTask task.now }
    requires room { length words.old ≡ MOST_WORDS }
    requires block { block < 16 }
    ensures here { (p : ℕ) → p < length task.now.graph.now.atoms.items
        → IsTruthAt task.now block p (slice_index words.new (256 * block + p)) }
    ensures before { (k : ℕ) → k < 256 * block
        → slice_index words.new k ≡ slice_index words.old k }
{
    for place in 0..task.graph.atoms.len() {
        words[MOST_PLACES * block + place] = word_at(task, words, block, place);
    }
}

// The word of a place for a block, which often is that of the place before.
fn word_at(task: &Task, words: &[u64], block: usize, place: usize) -> u64
    requires ready { IsReadyTask task.now }
    requires room { length words.now ≡ MOST_WORDS }
    requires block { block < 16 }
    requires place { place < length task.now.graph.now.atoms.items }
    requires before { (p : ℕ) → p < place
        → IsTruthAt task.now block p (slice_index words.now (256 * block + p)) }
    ensures { IsTruthAt task.now block place result }
{
    let step = task.steps[place];
    if step.again {
        words[MOST_PLACES * block + (place - 1)]
    } else {
        place_truth(task, block, place)
    }
}

// The atoms of a block at which the expression of a place is true.
fn place_truth(task: &Task, block: usize, place: usize) -> u64
    requires ready { IsReadyTask task.now }
    requires block { block < 16 }
    requires place { place < length task.now.graph.now.atoms.items }
    ensures { IsTruthAt task.now block place result }
{
    let expr = &task.graph.atoms[place];
    let within = all_in(task.mol, block);
    truth(expr, task.mol, task.table, block, within)
}

/// The word with all atoms of a block.
pub fn all_in(mol: &Mol, block: usize) -> u64
    requires { block < 16 }
    ensures { (i : ℕ) → i < 64 → bit_at result i ≡ 1 ↔ 64 * block + i < length mol.now.atoms }
{
    ones(mol.atoms().len().saturating_sub(64 * block).min(64))
}

// The word whose lowest `count` bits are ones.
fn ones(count: usize) -> u64
    requires { count ≤ 64 }
    ensures { (i : ℕ) → bit_at result i ≡ 1 ↔ i < count }
{
    if count < 64 {
        (1 << count) - 1
    } else {
        u64::MAX
    }
}

// The atoms of the word `within`, for a block, at which the expression is true.
fn truth(expr: &Expr<AtomPrim>, mol: &Mol, table: &RecTable, block: usize, within: u64) -> u64
    requires names { NamesBelow MOST_PARTS (term_of expr.now) }
    requires block { block < 16 }
    ensures { IsTruth (HoldsIn table.now) mol.now (term_of expr.now) block within result }
{
    if within == 0 {
        return 0;
    }
    match expr {
        Expr::Prim(prim) => prim_truth(*prim, mol, table, block, within),
        Expr::Not(inner) => within & !truth(inner, mol, table, block, within),
        Expr::And(left, right) => {
            let first = truth(left, mol, table, block, within);
            truth(right, mol, table, block, first)
        }
        Expr::Or(left, right) => {
            truth(left, mol, table, block, within) | truth(right, mol, table, block, within)
        }
    }
}

// As `truth`, but of a primitive. Most are a symbol or a number, which are found at once. A part has a row of words.
fn prim_truth(prim: AtomPrim, mol: &Mol, table: &RecTable, block: usize, within: u64) -> u64
    requires names { PrimNamesBelow MOST_PARTS prim }
    requires block { block < 16 }
    ensures { IsTruth (HoldsIn table.now) mol.now (Prim prim) block within result }
{
    match prim {
        AtomPrim::Symbol { number, lower } => symbol_truth(mol, block, within, number, lower),
        AtomPrim::Number(number) => number_truth(mol, block, within, number),
        AtomPrim::Rec(part) => within & all_in(mol, block) & table.block(part, block),
        AtomPrim::Any => within & all_in(mol, block),
        _ => asked_truth(prim, mol, table, block, within),
    }
}

// As `prim_truth`, but of a symbol. Those of the first block are found at once.
fn symbol_truth(mol: &Mol, block: usize, within: u64, number: u8, lower: bool) -> u64
    requires { block < 16 }
    ensures { (t : Table)
        → IsTruth (HoldsIn t) mol.now (Prim (AtomPrim.Symbol number lower)) block within result }
{
    if block == 0 {
        mol.symbol_word(number, lower) & within
    } else {
        symbol_truth_by_atom(mol, block, within, number, lower)
    }
}

// As `symbol_truth`, but each atom is asked. The word is made from the last atom down, without a branch.
fn symbol_truth_by_atom(mol: &Mol, block: usize, within: u64, number: u8, lower: bool) -> u64
    requires { block < 16 }
    ensures { (t : Table)
        → IsTruth (HoldsIn t) mol.now (Prim (AtomPrim.Symbol number lower)) block within result }
{
    let atoms = block_atoms(mol, block);
    let mut word = 0;
    for bit in (0..atoms.len()).rev() {
        word = with_lowest(word, has_symbol(atoms[bit], number, lower));
    }
    word & within
}

// As `prim_truth`, but of a number, aromatic or not. A number above 255, which no atom has, is asked as in a later
// block.
fn number_truth(mol: &Mol, block: usize, within: u64, number: u16) -> u64
    requires { block < 16 }
    ensures { (t : Table)
        → IsTruth (HoldsIn t) mol.now (Prim (AtomPrim.Number number)) block within result }
{
    match u8::try_from(number) {
        Ok(byte) if block == 0 => {
            (mol.symbol_word(byte, false) | mol.symbol_word(byte, true)) & within
        }
        _ => number_truth_by_atom(mol, block, within, number),
    }
}

// As `number_truth`, but each atom is asked.
fn number_truth_by_atom(mol: &Mol, block: usize, within: u64, number: u16) -> u64
    requires { block < 16 }
    ensures { (t : Table)
        → IsTruth (HoldsIn t) mol.now (Prim (AtomPrim.Number number)) block within result }
{
    let atoms = block_atoms(mol, block);
    let mut word = 0;
    for bit in (0..atoms.len()).rev() {
        word = with_lowest(word, has_number(atoms[bit], number));
    }
    word & within
}

// The atoms of a block.
fn block_atoms(mol: &Mol, block: usize) -> &[Atom]
    requires { block < 16 }
    ensures count { length result.now ≡ min 64 (length mol.now.atoms - 64 * block) }
    ensures atoms { (i : ℕ) → i < length result.now
        → slice_get result.now i ≡ slice_get mol.now.atoms (64 * block + i) }
{
    let atoms = mol.atoms();
    let from = (64 * block).min(atoms.len());
    let to = (from + 64).min(atoms.len());
    &atoms[from..to]
}

// The bits of a word one place up, and a new lowest bit.
#[inline(always)]
fn with_lowest(word: u64, bit: bool) -> u64
    ensures lowest { bit_at result 0 ≡ 1 ↔ IsTrue bit }
    ensures others { (i : ℕ) → i + 1 < 64 → bit_at result (i + 1) ≡ bit_at word i }
{
    (word << 1) | u64::from(bit)
}

// As `prim_truth`, but each atom of the word is asked, by any primitive.
fn asked_truth(prim: AtomPrim, mol: &Mol, table: &RecTable, block: usize, within: u64) -> u64
    requires names { PrimNamesBelow MOST_PARTS prim }
    requires block { block < 16 }
    ensures { IsTruth (HoldsIn table.now) mol.now (Prim prim) block within result }
{
    let mut left = within & all_in(mol, block);
    let mut word = left;
    for _turn in 0..64u32 {
        let bit = left.trailing_zeros();
        if bit >= 64 {
            return word;
        }
        left &= !(1 << bit);
        if prim_true(prim, mol, (64 * block + bit as usize) as u16, table) {
            continue;
        }
        word &= !(1 << bit);
    }
    word
}

fn has_symbol(atom: Atom, number: u8, lower: bool) -> bool
    ensures { IsTrue result ↔ (atom.number ≡ number) × (atom.aromatic ≡ lower) }
{
    (atom.number == number) & (atom.aromatic == lower)
}

fn has_number(atom: Atom, number: u16) -> bool
    ensures { IsTrue result ↔ atom.number ≡ number }
{
    u16::from(atom.number) == number
}

/// True if the word has the bit.
pub fn has(word: u64, bit: u16) -> bool
    requires { bit < 64 }
    ensures { IsTrue result ↔ bit_at word bit ≡ 1 }
{
    (word >> bit) & 1 == 1
}
