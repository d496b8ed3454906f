//! Symbols of atoms: the atomic number, and whether the atom is aromatic. Those of the first 64 atoms of a molecule are
//! bytes one after another, so that one comparison finds all atoms of a symbol.
ghost use Rattle.std.specs.Prelude.{◌≡◌, ◌↔◌, ◌<◌, ◌≤◌, ℕ, All, List, slice_get, slice_index};
ghost use Rattle.std.specs.Int.{bit_at};
ghost use Rattle.chem_core.specs.Inside.{AreSymbols, code, code_in};
ghost use Rattle.chem_core.specs.Molecule.{IsAtom};
ghost use Rattle.chem_core.specs.Symbols.{HasClass, HasSymbolAt, class_at};
ghost use Rattle.chem_core.specs.declared.mol.Atom.{Atom};
ghost use Rattle.chem_core.specs.declared.symbols.TheConstants.{MOST_NUMBER};

use crate::mol::Atom;
use std::simd::prelude::*;

// The number of atoms that a word has bits for.
const WORD_ATOMS: usize = 64;

// The byte of each place after the last atom.
const NO_SYMBOL: u8 = 255;

// The greatest atomic number.
const MOST_NUMBER: u8 = 103;

/// The symbols of the first 64 atoms, each as a byte, and the classes of all atoms.
#[derive(Clone, Copy, Debug)]
pub struct Symbols {
    // first, since they are read first
    classes: u64,
    codes: [u8; 64],
}

impl Symbols {
    /// The symbols of these atoms.
    pub fn of(atoms: &[Atom]) -> Symbols
        requires { All IsAtom atoms.now }
        ensures { AreSymbols atoms.now result }
    {
        Symbols {
            classes: classes_of(atoms),
            codes: codes_of(atoms),
        }
    }

    /// The atoms among the first 64 that have a symbol: a word with a bit for each atom.
    #[inline(always)]
    pub fn word(&self, number: u8, aromatic: bool) -> u64
        ensures { (atoms : List Atom) → All IsAtom atoms → AreSymbols atoms self.now
            → (i : ℕ) → i < 64 → bit_at result i ≡ 1 ↔ HasSymbolAt atoms i number aromatic }
    {
        if number > MOST_NUMBER {
            return 0;
        }
        equal_to(self.codes, code(number, aromatic))
    }

    /// The classes that the atoms have: a word with a bit for each class.
    #[inline(always)]
    pub fn classes(&self) -> u64
        ensures { result ≡ self.now.classes }
    {
        self.classes
    }
}

// The symbols of the first 64 atoms as bytes.
fn codes_of(atoms: &[Atom]) -> [u8; 64]
    requires { All IsAtom atoms.now }
    ensures { (i : ℕ) → i < 64 → slice_index result i ≡ code_in (slice_get atoms.now i) }
{
    let mut codes = [NO_SYMBOL; 64];
    for place in 0..atoms.len().min(WORD_ATOMS) {
        codes[place] = code(atoms[place].number, atoms[place].aromatic);
    }
    codes
}

// The classes that the atoms have: a word with a bit for each class.
fn classes_of(atoms: &[Atom]) -> u64
    ensures { (c : ℕ) → c < 64 → bit_at result c ≡ 1 ↔ HasClass atoms.now c }
{
    let mut classes = 0;
    for atom in atoms {
        classes |= 1 << class(u16::from(atom.number), atom.aromatic);
    }
    classes
}

// A bit for each place in `codes` with this byte.
#[inline(always)]
fn equal_to(codes: [u8; 64], byte: u8) -> u64
    ensures { (i : ℕ) → i < 64 → bit_at result i ≡ 1 ↔ slice_index codes i ≡ byte }
{
    u8x64::from_array(codes)
        .simd_eq(u8x64::splat(byte))
        .to_bitmask()
}

// The symbol as a byte.
#[inline(always)]
fn code(number: u8, aromatic: bool) -> u8
    requires { number ≤ MOST_NUMBER }
    ensures { result ≡ code number aromatic }
{
    2 * number + u8::from(aromatic)
}

/// The class of an atom of that number: one for aromatic atoms and one for others, for each number modulo 32.
pub fn class(number: u16, aromatic: bool) -> u16
    ensures value { result ≡ class_at number aromatic }
    ensures few { result < 64 }
{
    number % 32 * 2 + u16::from(aromatic)
}
