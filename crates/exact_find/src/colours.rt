//! Colours of atoms: numbers that each map from one molecule to another keeps. So it takes atoms of the left molecule
//! to atoms of the right one of their colours.
//!
//! An atom's colour comes from its code and from the colours of its neighbours, so it depends on the structure alone.
ghost use Rattle.std.specs.Prelude.{◌≡◌, ◌<◌, ◌≤◌, ◌+◌, ◌%◌, ◌^◌, ℕ, length, map, sum, slice_index};
ghost use Rattle.chem_core.specs.declared.mol.BondKind.{BondKind};
ghost use Rattle.exact_find.specs.Colours.{AreInRange, IsBegun, IsNew, IsRound, blended, kind_number, levelled, scrambled, seen_through, taken};

use chem_core::{BondKind, Mol};

/// The colours of all atoms of a list, worked out anew from those of their neighbours. Returns their sum.
pub fn round(mol: &Mol, list: &[u16], colours: &mut [u64], next: &mut [u64]) -> u64
    requires listed { AreInRange (length mol.now.atoms) list.now }
    requires room { length mol.now.atoms ≤ length colours.old }
    requires next_room { length list.now ≤ length next.old }
    ensures round { IsRound mol.now list.now colours.old colours.new }
    ensures sum { result ≡ sum (map (taken colours.new) list.now) % 2 ^ 64 }
{
    work_out(mol, list, colours, next);
    store(list, next, colours);
    total(list, colours)
}

/// Gives the atoms of a list the colours that come from their own and their levels. Returns their sum.
pub fn begin(list: &[u16], levels: &[u16], colours: &mut [u64]) -> u64
    requires listed { AreInRange (length levels.now) list.now }
    requires room { length levels.now ≤ length colours.old }
    ensures begun { IsBegun list.now levels.now colours.old colours.new }
    ensures sum { result ≡ sum (map (taken colours.new) list.now) % 2 ^ 64 }
{
    for atom in list {
        let place = usize::from(*atom);
        colours[place] = with_level(colours[place], levels[place]);
    }
    total(list, colours)
}

// Works out the colours of the atoms of a list.
fn work_out(mol: &Mol, list: &[u16], colours: &[u64], next: &mut [u64])
    requires listed { AreInRange (length mol.now.atoms) list.now }
    requires room { length mol.now.atoms ≤ length colours.now }
    requires next_room { length list.now ≤ length next.old }
    ensures { (i : ℕ) → i < length list.now
        → IsNew mol.now colours.now (slice_index list.now i) (slice_index next.new i) }
{
    for (place, atom) in list.iter().enumerate() {
        next[place] = anew(mol, colours, *atom);
    }
}

// The colour that comes from an atom's own and those of its neighbours.
fn anew(mol: &Mol, colours: &[u64], atom: u16) -> u64
    requires in_range { atom < length mol.now.atoms }
    requires room { length mol.now.atoms ≤ length colours.now }
    ensures { IsNew mol.now colours.now atom result }
{
    let mut seen = 0;
    let neighbours = mol.neighbours(atom);
    for (neighbour, bond) in neighbours {
        let kind = mol.bonds()[usize::from(*bond)].kind;
        seen = add(seen, through(colours[usize::from(*neighbour)], kind));
    }
    blend(colours[usize::from(atom)], seen)
}

// Gives the atoms of a list the colours at their places.
fn store(list: &[u16], values: &[u64], colours: &mut [u64])
    requires listed { AreInRange (length colours.old) list.now }
    requires room { length list.now ≤ length values.now }
    ensures stored { (i : ℕ) → i < length list.now
        → slice_index colours.new (slice_index list.now i) ≡ slice_index values.now i }
    ensures others { (x : ℕ) → ((i : ℕ) → i < length list.now → slice_index list.now i ≡ x → ⊥)
        → slice_index colours.new x ≡ slice_index colours.old x }
{
    for (place, atom) in list.iter().enumerate() {
        colours[usize::from(*atom)] = values[place];
    }
}

// The sum of the colours of the atoms of a list.
fn total(list: &[u16], colours: &[u64]) -> u64
    requires listed { AreInRange (length colours.now) list.now }
    ensures { result ≡ sum (map (taken colours.now) list.now) % 2 ^ 64 }
{
    let mut sum = 0;
    for atom in list {
        sum = add(sum, colours[usize::from(*atom)]);
    }
    sum
}

fn add(a: u64, b: u64) -> u64
    ensures { result ≡ (a + b) % 2 ^ 64 }
{
    a.wrapping_add(b)
}

// A neighbour's colour as it is seen through a bond.
fn through(colour: u64, kind: BondKind) -> u64
    ensures { result ≡ seen_through colour kind }
{
    scramble(colour.wrapping_add(number_of(kind)))
}

fn blend(own: u64, seen: u64) -> u64
    ensures { result ≡ blended own seen }
{
    scramble(own.wrapping_mul(3).wrapping_add(seen))
}

fn with_level(colour: u64, level: u16) -> u64
    ensures { result ≡ levelled colour level }
{
    scramble(colour.wrapping_add(u64::from(level)))
}

fn number_of(kind: BondKind) -> u64
    ensures { result ≡ kind_number kind }
{
    match kind {
        BondKind::Single => 1,
        BondKind::Double => 2,
        BondKind::Triple => 3,
        BondKind::Quad => 4,
        BondKind::Aromatic => 5,
    }
}

/// A number that looks like any other.
pub fn scramble(number: u64) -> u64
    ensures { result ≡ scrambled number }
{
    let mixed = (number ^ (number >> 32)).wrapping_mul(0x9E37_79B9_7F4A_7C15);
    (mixed ^ (mixed >> 29)).wrapping_mul(0xBF58_476D_1CE4_E5B9)
}
