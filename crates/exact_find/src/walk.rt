//! A test of whether two molecules are the same structure: a walk along bonds that pairs atoms.
//!
//! An atom is paired with one that is alike and joined alike to the atoms in pairs. Then all atoms that hang on it are
//! paired, neighbour by neighbour. Pairs of whole components stay: the rest can be paired beside them if it could be
//! before. If several atoms can be the partner, colours rule out most of those that cannot.
ghost use Rattle.std.specs.Prelude.{◌≡◌, ◌<◌, ◌≤◌, ◌+◌, ◌-◌, ◌++◌, ◌∷◌, ◌↔◌, ℕ, [], length, take, vec_len, IsTrue, IfNone, IfSome};
ghost use Rattle.chem_core.specs.declared.mol.BondKind.{BondKind};
ghost use Rattle.chem_core.specs.declared.limits.TheConstants.{MOST_ATOMS};
ghost use Rattle.exact_find.specs.Colours.{IsRough};
ghost use Rattle.exact_find.specs.Same.{HasBond, IsSame};
ghost use Rattle.exact_find.specs.Pairs.{Extends, Has, IsPaired, IsPartial, IsStep, flip};

use crate::fit::{fits, partner, partner_back};
use crate::key::key_of;
use crate::sides::{Rough, Work};
use chem_core::{MOST_ATOMS, Mol};
use std::alloc::{AllocError, Global};

/// Memory to compare any two molecules.
#[derive(Debug, Drop)]
pub struct SameScratch {
    pairs: Vec<(u16, u16)>,
    rough: Rough,
    work: Work,
    ghost room: { vec_len pairs ≡ MOST_ATOMS },
}

impl SameScratch {
    /// Takes the memory.
    pub fn reserve(alloc: Global) -> Result<SameScratch, AllocError> {
        Ok(SameScratch {
            pairs: vec![in alloc; (0, 0); MOST_ATOMS]?,
            rough: Rough::reserve(alloc)?,
            work: Work::reserve(alloc)?,
        })
    }
}

/// True if the molecules are the same structure. That is a one-to-one map of their atoms that keeps element, isotope,
/// charge, hydrogens and aromaticity. It takes the bonds of one to the bonds of the other, with their kinds.
///
/// Takes no memory. If several atoms can be the partner of one, the colours of the atoms that hang on them are
/// compared: levels from that atom, then six rounds over neighbours. So most impossible pairs fail at once. The worst
/// case still takes exponential time: graphs by Cai, Fürer and Immerman, and large symmetric graphs that differ in few
/// bonds.
pub fn same(left: &Mol, right: &Mol, scratch: &mut SameScratch) -> bool
    ensures { IsTrue result ↔ IsSame left.now right.now }
{
    if key_of(left) != key_of(right) {
        return false;
    }
    if !scratch.work.start(left, right, &mut scratch.rough) {
        return false;
    }
    pair_all(
        left,
        right,
        &scratch.rough,
        &mut scratch.work,
        &mut scratch.pairs,
    )
}

// Pairs all atoms, if they can be.
fn pair_all(
    left: &Mol,
    right: &Mol,
    rough: &Rough,
    work: &mut Work,
    pairs: &mut [(u16, u16)],
) -> bool
    requires room { length left.now.atoms ≤ length pairs.old }
    requires atoms { length left.now.atoms ≡ length right.now.atoms }
    requires bonds { length left.now.bonds ≡ length right.now.bonds }
    requires rough { IsRough left.now right.now rough.now.left.items rough.now.right.items }
    ensures { IsTrue result ↔ IsSame left.now right.now }
{
    let mut count = 0;
    for atom in 0..left.atoms().len() as u16 {
        if partner(&pairs[..count], atom).is_none() {
            match pair_anywhere(left, right, rough, work, pairs, count, atom) {
                Some(more) => count = more,
                None => return false,
            }
        }
    }
    true
}

// Pairs an atom and all atoms that hang on it, if they can be.
fn pair_anywhere(
    left: &Mol,
    right: &Mol,
    rough: &Rough,
    work: &mut Work,
    pairs: &mut [(u16, u16)],
    count: usize,
    a: u16,
) -> Option<usize>
    requires room { length left.now.atoms ≤ length pairs.old }
    requires partial { IsPartial left.now right.now (take count pairs.old) }
    requires few { count ≤ length pairs.old }
    requires in_range { a < length left.now.atoms }
    requires free { IsPaired (take count pairs.old) a → ⊥ }
    requires rough { IsRough left.now right.now rough.now.left.items rough.now.right.items }
    ensures some { IfSome result (λ more. (b : ℕ)
        × IsStep left.now right.now (take count pairs.old) (take more pairs.new) a b) }
    ensures few { IfSome result (λ more. more ≤ length pairs.old) }
    ensures none { IfNone result (Extends left.now right.now (take count pairs.old) → ⊥) }
{
    for b in 0..right.atoms().len() as u16 {
        if let Some(more) = pair(left, right, rough, work, pairs, count, a, b, true) {
            return Some(more);
        }
    }
    None
}

// As `pair_anywhere`, if a bond joins the atom to one whose partner is near.
#[cycle(walk)]
fn pair_beside(
    left: &Mol,
    right: &Mol,
    rough: &Rough,
    work: &mut Work,
    pairs: &mut [(u16, u16)],
    count: usize,
    a: u16,
    near: u16,
) -> Option<usize>
    requires room { length left.now.atoms ≤ length pairs.old }
    requires partial { IsPartial left.now right.now (take count pairs.old) }
    requires few { count ≤ length pairs.old }
    requires in_range { a < length left.now.atoms }
    requires free { IsPaired (take count pairs.old) a → ⊥ }
    requires near { (c : ℕ) × Has (take count pairs.old) c near
        × ((kind : BondKind) × HasBond left.now c a kind) }
    requires rough { IsRough left.now right.now rough.now.left.items rough.now.right.items }
    ensures kept { take count pairs.new ≡ take count pairs.old }
    ensures some { IfSome result (λ more. (b : ℕ)
        × IsStep left.now right.now (take count pairs.old) (take more pairs.new) a b) }
    ensures few { IfSome result (λ more. (count ≤ more) × (more ≤ length pairs.old)) }
    ensures none { IfNone result (Extends left.now right.now (take count pairs.old) → ⊥) }
{
    let several = are_several(right, rough, &pairs[..count], a, near);
    let neighbours = right.neighbours(near);
    for (b, _) in neighbours {
        if let Some(more) = pair(left, right, rough, work, pairs, count, a, *b, several) {
            return Some(more);
        }
    }
    None
}

// Pairs two atoms and all that hang on them, if they can be. Compares colours if several atoms can be the partner.
#[cycle(walk)]
fn pair(
    left: &Mol,
    right: &Mol,
    rough: &Rough,
    work: &mut Work,
    pairs: &mut [(u16, u16)],
    count: usize,
    a: u16,
    b: u16,
    several: bool,
) -> Option<usize>
    requires room { length left.now.atoms ≤ length pairs.old }
    requires partial { IsPartial left.now right.now (take count pairs.old) }
    requires few { count ≤ length pairs.old }
    requires a_in_range { a < length left.now.atoms }
    requires b_in_range { b < length right.now.atoms }
    requires free { IsPaired (take count pairs.old) a → ⊥ }
    requires rough { IsRough left.now right.now rough.now.left.items rough.now.right.items }
    ensures kept { take count pairs.new ≡ take count pairs.old }
    ensures some { IfSome result (λ more.
        IsStep left.now right.now (take count pairs.old) (take more pairs.new) a b) }
    ensures few { IfSome result (λ more. (count ≤ more) × (more ≤ length pairs.old)) }
    ensures none { IfNone result (Extends left.now right.now (take count pairs.old ++ (a, b) ∷ []) → ⊥) }
{
    if rough.left[usize::from(a)] != rough.right[usize::from(b)] {
        return None;
    }
    if !fits(left, right, &pairs[..count], a, b) {
        return None;
    }
    pairs[count] = (a, b);
    if several && !work.agree(left, right, rough, &pairs[..count + 1]) {
        return None;
    }
    pair_neighbours(left, right, rough, work, pairs, count, a, b)
}

// Pairs all atoms that hang on the atoms of the last pair, if they can be.
#[cycle(walk)]
fn pair_neighbours(
    left: &Mol,
    right: &Mol,
    rough: &Rough,
    work: &mut Work,
    pairs: &mut [(u16, u16)],
    count: usize,
    a: u16,
    b: u16,
) -> Option<usize>
    requires room { length left.now.atoms ≤ length pairs.old }
    requires few { count < length pairs.old }
    requires last { take (count + 1) pairs.old ≡ take count pairs.old ++ (a, b) ∷ [] }
    requires partial { IsPartial left.now right.now (take (count + 1) pairs.old) }
    requires a_in_range { a < length left.now.atoms }
    requires b_in_range { b < length right.now.atoms }
    requires free { IsPaired (take count pairs.old) a → ⊥ }
    requires rough { IsRough left.now right.now rough.now.left.items rough.now.right.items }
    ensures kept { take count pairs.new ≡ take count pairs.old }
    ensures some { IfSome result (λ more.
        IsStep left.now right.now (take count pairs.old) (take more pairs.new) a b) }
    ensures few { IfSome result (λ more. (count ≤ more) × (more ≤ length pairs.old)) }
    ensures none { IfNone result (Extends left.now right.now (take (count + 1) pairs.old) → ⊥) }
{
    let mut more = count + 1;
    let neighbours = left.neighbours(a);
    for (neighbour, _) in neighbours {
        if partner(&pairs[..more], *neighbour).is_none() {
            match pair_beside(left, right, rough, work, pairs, more, *neighbour, b) {
                Some(next) => more = next,
                None => return None,
            }
        }
    }
    if are_paired(right, &pairs[..more], b) {
        Some(more)
    } else {
        None
    }
}

// True if several neighbours of the right atom are in no pair and have the left atom's colour.
fn are_several(right: &Mol, rough: &Rough, pairs: &[(u16, u16)], a: u16, near: u16) -> bool
    requires a_in_range { a < MOST_ATOMS }
    requires near_in_range { near < length right.now.atoms }
{
    let mut one = false;
    let neighbours = right.neighbours(near);
    for (b, _) in neighbours {
        if rough.left[usize::from(a)] == rough.right[usize::from(*b)]
            && partner_back(pairs, *b).is_none()
        {
            if one {
                return true;
            }
            one = true;
        }
    }
    false
}

// True if all neighbours of the right atom are in pairs.
fn are_paired(right: &Mol, pairs: &[(u16, u16)], b: u16) -> bool
    requires { b < length right.now.atoms }
    ensures { IsTrue result ↔ ((c : ℕ) (kind : BondKind) → HasBond right.now b c kind
        → IsPaired (flip pairs.now) c) }
{
    let neighbours = right.neighbours(b);
    for (neighbour, _) in neighbours {
        if partner_back(pairs, *neighbour).is_none() {
            return false;
        }
    }
    true
}
