//! The print of a molecule.
//!
//! Each path is found at the atom in its middle; of two there at the higher. It is two arms to that atom, as long as
//! each other or nearly so.
ghost use Rattle.std.specs.Prelude.{◌≡◌, ◌≢◌, ◌↔◌, ◌<◌, ◌≤◌, ◌+◌, All, AllPairs, IsTrue, length};
ghost use Rattle.path_print.specs.Prints.{IsPrint};
ghost use Rattle.path_print.specs.Texts.{SetsBits};
ghost use Rattle.path_print.specs.Arms.{IsMiddle, IsArmTo, AreArmsTo, AreApart, IsBalanced, IsBitOfSome, IsBitAt, IsBitThrough, IsBitAround, path_of, views_around};

use crate::arm::{LONGEST, bit_between};
use crate::arms::{Arm, MOST_TWOS, Middle, gather_ones, gather_twos};
use chem_core::{MOST_NEIGHBOURS, Mol, Print};

/// The bits of all paths of the molecule.
pub fn print(mol: &Mol) -> Print
    ensures { IsPrint mol.now result }
{
    let mut print = Print::empty();
    let mut ones = [Arm::BLANK; MOST_NEIGHBOURS];
    let mut twos = [Arm::BLANK; MOST_TWOS];
    for place in 0..mol.atoms().len() {
        let middle = Middle::of(mol, place as u16);
        mark_around(&middle, &mut ones, &mut twos, &mut print);
    }
    print
}

// Sets the bits of the paths around an atom. Its arms are written into the two rows.
#[inline(always)]
fn mark_around(middle: &Middle, ones: &mut [Arm], twos: &mut [Arm], print: &mut Print)
    requires middle { IsMiddle middle.now }
    requires ones { length ones.old ≡ MOST_NEIGHBOURS }
    requires twos { length twos.old ≡ MOST_TWOS }
    ensures bits { SetsBits (IsBitAround (views_around middle.now) middle.now.atom) print.old print.new }
    ensures ones { length ones.new ≡ MOST_NEIGHBOURS }
    ensures twos { length twos.new ≡ MOST_TWOS }
{
    let count = gather_ones(ones, middle);
    let many = gather_twos(twos, &ones[..count], middle);
    mark_through(middle, &ones[..count], &twos[..many], print);
}

// Sets the bits of the paths around an atom with these arms.
#[inline(always)]
fn mark_through(middle: &Middle, ones: &[Arm], twos: &[Arm], print: &mut Print)
    requires middle { IsMiddle middle.now }
    requires ones { AreArmsTo middle.now 1 ones.now }
    requires twos { AreArmsTo middle.now 2 twos.now }
    ensures { SetsBits (IsBitAround (views_around middle.now) middle.now.atom) print.old print.new }
{
    let none = [Arm::none(middle)];
    mark_path(&none[0], middle, &none[0], 0, 0, print);
    mark_odd(ones, middle, &none, 0, print);
    mark_even(ones, middle, 1, print);
    mark_odd(twos, middle, ones, 1, print);
    mark_even(twos, middle, 2, print);
}

// Sets the bits of the paths with equally many atoms before and after the middle. Of the two directions of each path
// one is enough.
#[inline(always)]
fn mark_even(row: &[Arm], middle: &Middle, atoms: usize, print: &mut Print)
    requires middle { IsMiddle middle.now }
    requires row { AreArmsTo middle.now atoms row.now }
    requires some { 1 ≤ atoms }
    requires few { atoms ≤ LONGEST }
    ensures { SetsBits (IsBitThrough (views_around middle.now) middle.now.atom atoms atoms) print.old print.new }
{
    for place in 0..row.len() {
        mark_from(&row[place], middle, &row[..place], atoms, atoms, print);
    }
}

// Sets the bits of the paths with one atom more before the middle than after it, if the one next to it is lower.
#[inline(always)]
fn mark_odd(longer: &[Arm], middle: &Middle, row: &[Arm], behind: usize, print: &mut Print)
    requires middle { IsMiddle middle.now }
    requires longer { AreArmsTo middle.now (behind + 1) longer.now }
    requires row { AreArmsTo middle.now behind row.now }
    requires few { behind ≤ 1 }
    ensures { SetsBits (IsBitThrough (views_around middle.now) middle.now.atom (behind + 1) behind) print.old
        print.new }
{
    for first in longer {
        if first.near < middle.atom {
            mark_from(first, middle, row, behind + 1, behind, print);
        }
    }
}

// Sets the bits of the paths from the end of an arm to that of one of a row.
#[inline(always)]
fn mark_from(
    first: &Arm,
    middle: &Middle,
    row: &[Arm],
    before: usize,
    behind: usize,
    print: &mut Print,
)
    requires middle { IsMiddle middle.now }
    requires first { IsArmTo middle.now before first.now }
    requires row { All (IsArmTo middle.now behind) row.now }
    requires some { 1 ≤ before }
    requires few { before ≤ LONGEST }
    requires balanced { IsBalanced before behind }
    ensures { SetsBits (IsBitOfSome
        (λ last. IsBitAt (views_around middle.now) (path_of before first.now middle.now.atom behind last)) row.now)
        print.old print.new }
{
    for last in row {
        if are_apart(first, last, before, behind) {
            mark_path(first, middle, last, before, behind, print);
        }
    }
}

// True if no atom of an arm is in the other.
#[inline(always)]
fn are_apart(first: &Arm, last: &Arm, before: usize, behind: usize) -> bool
    requires first { before ≤ 1 → first.now.far ≡ first.now.near }
    requires last { behind ≤ 1 → last.now.far ≡ last.now.near }
    ensures { IsTrue result ↔ AreApart first.now last.now }
{
    first.near != last.near
        && (behind < 2 || first.near != last.far)
        && (before < 2 || first.far != last.near)
        && (before < 2 || behind < 2 || first.far != last.far)
}

// Sets the bits of a path.
#[inline(always)]
fn mark_path(
    first: &Arm,
    middle: &Middle,
    last: &Arm,
    before: usize,
    behind: usize,
    print: &mut Print,
)
    requires middle { IsMiddle middle.now }
    requires first { IsArmTo middle.now before first.now }
    requires last { IsArmTo middle.now behind last.now }
    requires few { before ≤ LONGEST }
    requires balanced { IsBalanced before behind }
    requires distinct { AllPairs ◌≢◌ (path_of before first.now middle.now.atom behind last.now) }
    ensures { SetsBits (IsBitAt (views_around middle.now) (path_of before first.now middle.now.atom behind last.now))
        print.old print.new }
{
    let labels = middle.labels;
    let exact = bit_between(&first.exact, labels.exact, &last.exact, before, behind);
    let plain = bit_between(&first.plain, labels.plain, &last.plain, before, behind);
    mark(exact, print);
    mark(plain, print);
}

// Sets a bit.
#[inline(always)]
fn mark(bit: u16, print: &mut Print)
    requires { bit < 1024 }
    ensures { SetsBits (λ b. b ≡ bit) print.old print.new }
{
    print.set(bit);
}
