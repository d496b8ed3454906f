//! A test of two atoms as a pair beside the pairs so far.
ghost use Rattle.std.specs.Prelude.{◌≡◌, ◌<◌, ◌++◌, ◌∷◌, ◌↔◌, [], false, length, IfNone, IfSome, IsTrue};
ghost use Rattle.chem_core.specs.declared.mol.BondKind.{BondKind};
ghost use Rattle.exact_find.specs.Same.{HasBond, IsAlike};
ghost use Rattle.exact_find.specs.Pairs.{Extends, Has, IsCarried, IsPaired, IsPartial, flip};

use chem_core::{Atom, BondKind, Mol};

/// The partner of an atom of the left molecule.
pub fn partner(pairs: &[(u16, u16)], atom: u16) -> Option<u16>
    ensures some { IfSome result (λ other. Has pairs.now atom other) }
    ensures none { IfNone result (IsPaired pairs.now atom → ⊥) }
{
    for pair in pairs {
        if pair.0 == atom {
            return Some(pair.1);
        }
    }
    None
}

/// The partner of an atom of the right molecule.
pub fn partner_back(pairs: &[(u16, u16)], atom: u16) -> Option<u16>
    ensures some { IfSome result (λ other. Has (flip pairs.now) atom other) }
    ensures none { IfNone result (IsPaired (flip pairs.now) atom → ⊥) }
{
    for pair in pairs {
        if pair.1 == atom {
            return Some(pair.0);
        }
    }
    None
}

/// True if two atoms that are in no pair can be one beside the pairs: they are alike, and joined alike to the atoms in
/// pairs.
pub fn fits(left: &Mol, right: &Mol, pairs: &[(u16, u16)], a: u16, b: u16) -> bool
    requires partial { IsPartial left.now right.now pairs.now }
    requires a_in_range { a < length left.now.atoms }
    requires b_in_range { b < length right.now.atoms }
    requires free { IsPaired pairs.now a → ⊥ }
    ensures fits { IsTrue result → IsPartial left.now right.now (pairs.now ++ (a, b) ∷ []) }
    ensures refused { result ≡ false → Extends left.now right.now (pairs.now ++ (a, b) ∷ []) → ⊥ }
{
    if partner_back(pairs, b).is_some() {
        return false;
    }
    if !is_alike(
        &left.atoms()[usize::from(a)],
        &right.atoms()[usize::from(b)],
    ) {
        return false;
    }
    if !is_carried(left, right, pairs, a, b) {
        return false;
    }
    is_carried_back(left, right, pairs, a, b)
}

// True if each bond of the left atom to one in a pair is one of the right atom to its partner.
fn is_carried(left: &Mol, right: &Mol, pairs: &[(u16, u16)], a: u16, b: u16) -> bool
    requires partial { IsPartial left.now right.now pairs.now }
    requires a_in_range { a < length left.now.atoms }
    requires b_in_range { b < length right.now.atoms }
    ensures { IsTrue result ↔ IsCarried left.now right.now pairs.now a b }
{
    let neighbours = left.neighbours(a);
    for (neighbour, bond) in neighbours {
        if let Some(other) = partner(pairs, *neighbour) {
            if !has_bond(right, b, other, left.bonds()[usize::from(*bond)].kind) {
                return false;
            }
        }
    }
    true
}

// True if each bond of the right atom to one in a pair is one of the left atom to its partner.
fn is_carried_back(left: &Mol, right: &Mol, pairs: &[(u16, u16)], a: u16, b: u16) -> bool
    requires partial { IsPartial left.now right.now pairs.now }
    requires a_in_range { a < length left.now.atoms }
    requires b_in_range { b < length right.now.atoms }
    ensures { IsTrue result ↔ IsCarried right.now left.now (flip pairs.now) b a }
{
    let neighbours = right.neighbours(b);
    for (neighbour, bond) in neighbours {
        if let Some(other) = partner_back(pairs, *neighbour) {
            if !has_bond(left, a, other, right.bonds()[usize::from(*bond)].kind) {
                return false;
            }
        }
    }
    true
}

// True if a bond of the kind joins the atoms.
fn has_bond(mol: &Mol, atom: u16, other: u16, kind: BondKind) -> bool
    requires { atom < length mol.now.atoms }
    ensures { IsTrue result ↔ HasBond mol.now atom other kind }
{
    match kind_between(mol, atom, other) {
        Some(found) => found == kind,
        None => false,
    }
}

// The kind of the bond that joins the atoms.
fn kind_between(mol: &Mol, atom: u16, other: u16) -> Option<BondKind>
    requires { atom < length mol.now.atoms }
    ensures some { IfSome result (λ kind. HasBond mol.now atom other kind) }
    ensures one { IfSome result (λ kind. (k : BondKind) → HasBond mol.now atom other k → kind ≡ k) }
    ensures none { IfNone result ((kind : BondKind) → HasBond mol.now atom other kind → ⊥) }
{
    let neighbours = mol.neighbours(atom);
    for (neighbour, bond) in neighbours {
        if *neighbour == other {
            return Some(mol.bonds()[usize::from(*bond)].kind);
        }
    }
    None
}

/// True if two atoms have the same fields but for their valence.
pub fn is_alike(a: &Atom, b: &Atom) -> bool
    ensures { IsTrue result ↔ IsAlike a.now b.now }
{
    a.number == b.number
        && a.isotope == b.isotope
        && a.charge == b.charge
        && a.hydrogens == b.hydrogens
        && a.aromatic == b.aromatic
}
