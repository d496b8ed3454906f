//! The arms around an atom: those of one atom lead to its neighbours, those of two go on to theirs.
ghost use Rattle.std.specs.Prelude.{◌≡◌, ◌≢◌, ◌+◌, ◌<◌, ◌≤◌, [], ◌∷◌, ℕ, All, AllPairs, List, Some, length, take};
ghost use Rattle.chem_core.specs.Graph.{JoinsAt};
ghost use Rattle.chem_core.specs.Molecule.{IsMolecule, ends_of};
ghost use Rattle.path_print.specs.Path.{Family};
ghost use Rattle.path_print.specs.Prints.{kind_byte, molecule_view};
ghost use Rattle.path_print.specs.Arms.{Joint, AreLabels, IsMiddle, IsArmTo, AreArmsTo, AreJoints, HasArm, AreAmong, views_around};

use crate::arm::Half;
use chem_core::{BondKind, MOST_NEIGHBOURS, Mol};

/// The most arms of two atoms.
pub const MOST_TWOS: usize = MOST_NEIGHBOURS * MOST_NEIGHBOURS;

/// An arm in both families of labels.
#[derive(Clone, Copy)]
pub struct Arm {
    /// The atom next to the middle; the middle itself if the arm has no atom.
    pub near: u16,
    /// The atom at its end; `near` if the arm has one atom or none.
    pub far: u16,
    pub exact: Half,
    pub plain: Half,
}

/// The label of an atom in each family.
#[derive(Clone, Copy)]
pub struct Labels {
    pub exact: (u8, u8),
    pub plain: (u8, u8),
}

/// The atom in the middle of paths.
#[derive(Clone, Copy)]
pub struct Middle<'a> {
    pub mol: &'a Mol,
    pub atom: u16,
    pub labels: Labels,
}

impl<'a> Middle<'a> {
    /// An atom of a molecule.
    #[inline(always)]
    pub fn of(mol: &'a Mol, atom: u16) -> Middle<'a>
        requires { atom < length mol.now.atoms }
        ensures middle { IsMiddle result }
        ensures mol { result.mol.now ≡ mol.now }
        ensures atom { result.atom ≡ atom }
    {
        Middle {
            mol,
            atom,
            labels: labels_of(mol, atom),
        }
    }
}

impl Arm {
    /// The filler of a row before arms are written into it.
    pub const BLANK: Arm = Arm {
        near: 0,
        far: 0,
        exact: Half::BLANK,
        plain: Half::BLANK,
    };

    /// The arm of no atom to an atom.
    #[inline(always)]
    pub fn none(middle: &Middle) -> Arm
        ensures { IsArmTo middle.now 0 result }
    {
        Arm {
            near: middle.atom,
            far: middle.atom,
            exact: Half::NONE,
            plain: Half::NONE,
        }
    }

    // The arm to an atom of one neighbour.
    #[inline(always)]
    fn of(middle: &Middle, to: u16, bond: u16) -> Arm
        requires middle { IsMiddle middle.now }
        requires joined { JoinsAt (ends_of middle.now.mol.now) bond middle.now.atom to }
        ensures arm { IsArmTo middle.now 1 result }
        ensures near { result.near ≡ to }
    {
        let byte = byte_at(middle.mol, bond);
        let labels = labels_of(middle.mol, to);
        Arm {
            near: to,
            far: to,
            exact: Half::of(labels.exact, byte),
            plain: Half::of(labels.plain, byte),
        }
    }

    // The arm that goes on to a neighbour of its atom.
    #[inline(always)]
    fn longer(&self, middle: &Middle, to: u16, bond: u16) -> Arm
        requires middle { IsMiddle middle.now }
        requires arm { IsArmTo middle.now 1 self.now }
        requires joined { JoinsAt (ends_of middle.now.mol.now) bond self.now.near to }
        requires new { to ≢ middle.now.atom }
        ensures arm { IsArmTo middle.now 2 result }
        ensures near { result.near ≡ self.now.near }
        ensures far { result.far ≡ to }
    {
        let byte = byte_at(middle.mol, bond);
        let labels = labels_of(middle.mol, to);
        Arm {
            near: self.near,
            far: to,
            exact: self.exact.longer(labels.exact, byte),
            plain: self.plain.longer(labels.plain, byte),
        }
    }
}

/// Writes the arms of one atom to the front of `ones`. Returns their number.
#[inline(always)]
pub fn gather_ones(ones: &mut [Arm], middle: &Middle) -> usize
    requires middle { IsMiddle middle.now }
    requires room { length ones.old ≡ MOST_NEIGHBOURS }
    ensures arms { AreArmsTo middle.now 1 (take result ones.new) }
    ensures count { result ≤ MOST_NEIGHBOURS }
    ensures room { length ones.new ≡ MOST_NEIGHBOURS }
{
    let mut count = 0;
    for (to, bond) in middle.mol.neighbours(middle.atom) {
        ones[count] = Arm::of(middle, *to, *bond);
        count += 1;
    }
    count
}

/// Writes the arms of two atoms to the front of `twos`. Returns their number.
#[inline(always)]
pub fn gather_twos(twos: &mut [Arm], ones: &[Arm], middle: &Middle) -> usize
    requires middle { IsMiddle middle.now }
    requires room { length twos.old ≡ MOST_TWOS }
    requires ones { AreArmsTo middle.now 1 ones.now }
    requires few { length ones.now ≤ MOST_NEIGHBOURS }
    ensures arms { AreArmsTo middle.now 2 (take result twos.new) }
    ensures count { result ≤ MOST_TWOS }
    ensures room { length twos.new ≡ MOST_TWOS }
{
    let mut count = 0;
    for one in ones {
        count = gather_behind(twos, count, one, middle);
    }
    count
}

// Writes the arms of two atoms that go on from `one` after the first `start` arms. Returns the new number of arms.
#[inline(always)]
fn gather_behind(twos: &mut [Arm], start: usize, one: &Arm, middle: &Middle) -> usize
    requires middle { IsMiddle middle.now }
    requires room { start + MOST_NEIGHBOURS ≤ length twos.old }
    requires one { IsArmTo middle.now 1 one.now }
    ensures each { All (IsArmTo middle.now 2) (take start twos.old)
        → All (IsArmTo middle.now 2) (take result twos.new) }
    ensures kept { AreAmong (take start twos.old) (take result twos.new) }
    ensures all { (family : Family) (z : ℕ) (js : List Joint)
        → AllPairs ◌≢◌ (z ∷ one.now.near ∷ middle.now.atom ∷ [])
        → AreJoints (views_around middle.now family) middle.now.atom (z ∷ one.now.near ∷ []) js
        → HasArm 2 (take result twos.new) (z ∷ one.now.near ∷ []) }
    ensures count { result ≤ start + MOST_NEIGHBOURS }
    ensures room { length twos.new ≡ length twos.old }
{
    let mut count = start;
    for (to, bond) in middle.mol.neighbours(one.near) {
        if *to != middle.atom {
            twos[count] = one.longer(middle, *to, *bond);
            count += 1;
        }
    }
    count
}

// The labels of an atom.
#[inline(always)]
fn labels_of(mol: &Mol, atom: u16) -> Labels
    requires { atom < length mol.now.atoms }
    ensures labels { AreLabels (molecule_view mol.now) atom result }
    ensures valid { IsMolecule mol.now }
{
    let atom = &mol.atoms()[usize::from(atom)];
    Labels {
        exact: (atom.number, u8::from(atom.aromatic)),
        plain: (atom.number, 2),
    }
}

// The byte of a bond.
#[inline(always)]
fn byte_at(mol: &Mol, bond: u16) -> u8
    requires { bond < length mol.now.bonds }
    ensures { (family : Family) (x y : ℕ) → JoinsAt (ends_of mol.now) bond x y
        → (molecule_view mol.now family).byte x y ≡ Some result }
{
    byte_of(mol.bonds()[usize::from(bond)].kind)
}

#[inline(always)]
fn byte_of(kind: BondKind) -> u8
    ensures { result ≡ kind_byte kind }
{
    match kind {
        BondKind::Single | BondKind::Aromatic => 1,
        BondKind::Double => 2,
        BondKind::Triple => 3,
        BondKind::Quad => 4,
    }
}
