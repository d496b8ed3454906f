//! The colours of both molecules, worked out side by side.
//!
//! If the sums of colours differ, no map from one molecule to the other goes on from the pairs.
ghost use Rattle.std.specs.Prelude.{◌≡◌, ◌<◌, ◌≤◌, ℕ, false, length, slice_index, take, vec_len, IsTrue};
ghost use Rattle.chem_core.specs.declared.limits.TheConstants.{MOST_ATOMS};
ghost use Rattle.chem_core.specs.Molecule.{IsMolecule};
ghost use Rattle.exact_find.specs.Colours.{AreInRange, AreKept, AreMatched, IsRough, KeepAlong};
ghost use Rattle.exact_find.specs.Levels.{AreFree};
ghost use Rattle.exact_find.specs.Pairs.{Extends, Has, IsMap, IsPartial};

use crate::colours::scramble;
use crate::palette::Palette;
use chem_core::{MOST_ATOMS, Mol};
use std::alloc::{AllocError, Global};

// The number of times that colours are worked out anew from those of the neighbours.
const ROUNDS: usize = 6;

/// Memory to work out the colours of two molecules.
#[derive(Debug, Drop)]
pub struct Work {
    left: Palette,
    right: Palette,
}

/// The colours of both molecules if no atom is in a pair.
#[derive(Debug, Drop)]
pub struct Rough {
    pub left: Vec<u64>,
    pub right: Vec<u64>,
    ghost left_room: { vec_len left ≡ MOST_ATOMS },
    ghost right_room: { vec_len right ≡ MOST_ATOMS },
}

impl Rough {
    /// Takes the memory.
    pub fn reserve(alloc: Global) -> Result<Rough, AllocError> {
        Ok(Rough {
            left: vec![in alloc; 0; MOST_ATOMS]?,
            right: vec![in alloc; 0; MOST_ATOMS]?,
        })
    }
}

impl Work {
    /// Takes the memory.
    pub fn reserve(alloc: Global) -> Result<Work, AllocError> {
        Ok(Work {
            left: Palette::reserve(alloc)?,
            right: Palette::reserve(alloc)?,
        })
    }

    /// Works out the colours of both molecules, unless their sums show that these are not the same.
    pub fn start(&mut self, left: &Mol, right: &Mol, rough: &mut Rough) -> bool
        ensures kept { IsTrue result → IsRough left.now right.now rough.new.left.items rough.new.right.items }
        ensures refused { result ≡ false → (f g : ℕ → ℕ) → IsMap left.now right.now f g → ⊥ }
    {
        self.left.start(left);
        self.right.start(right);
        if !self.settle(left, right, left.atoms().len(), right.atoms().len()) {
            return false;
        }
        copy(&self.left.colours, &mut rough.left, left.atoms().len());
        copy(&self.right.colours, &mut rough.right, right.atoms().len());
        true
    }

    /// True if the sums of the colours of the atoms that hang on the last pair are the same on both sides.
    pub fn agree(&mut self, left: &Mol, right: &Mol, rough: &Rough, pairs: &[(u16, u16)]) -> bool
        requires partial { IsPartial left.now right.now pairs.now }
        requires some { 0 < length pairs.now }
        requires rough { IsRough left.now right.now rough.now.left.items rough.now.right.items }
        ensures { result ≡ false → Extends left.now right.now pairs.now → ⊥ }
    {
        self.left.clear(left, &rough.left);
        self.right.clear(right, &rough.right);
        self.put_all(pairs);
        let (a, b) = pairs[pairs.len() - 1];
        let ours = self.left.reach(left, a);
        let theirs = self.right.reach(right, b);
        if self.left.begin(ours) != self.right.begin(theirs) {
            return false;
        }
        self.settle(left, right, ours, theirs)
    }

    // Marks the atoms in pairs, and gives both atoms of each pair a colour of their own.
    fn put_all(&mut self, pairs: &[(u16, u16)])
        requires few { (a b : ℕ) → Has pairs.now a b → (a < MOST_ATOMS) × (b < MOST_ATOMS) }
        ensures free { (n : ℕ) → AreFree n self.old.left.levels.items → AreFree n self.new.left.levels.items }
        ensures free_right { (n : ℕ) → AreFree n self.old.right.levels.items → AreFree n self.new.right.levels.items }
        ensures levels { KeepAlong pairs.now self.old.left.levels.items self.old.right.levels.items
            self.new.left.levels.items self.new.right.levels.items }
        ensures colours { KeepAlong pairs.now self.old.left.colours.items self.old.right.colours.items
            self.new.left.colours.items self.new.right.colours.items }
    {
        for (place, pair) in pairs.iter().enumerate() {
            let colour = scramble(place as u64);
            self.left.put(pair.0, colour);
            self.right.put(pair.1, colour);
        }
    }

    // Works out the colours of the atoms listed. True if the sums are the same after each round.
    fn settle(&mut self, left: &Mol, right: &Mol, ours: usize, theirs: usize) -> bool
        requires left { IsMolecule left.now }
        requires right { IsMolecule right.now }
        requires few { (ours ≤ MOST_ATOMS) × (theirs ≤ MOST_ATOMS) }
        requires listed { AreInRange (length left.now.atoms) (take ours self.old.left.list.items) }
        requires listed_right { AreInRange (length right.now.atoms) (take theirs self.old.right.list.items) }
        ensures { (f g : ℕ → ℕ) → IsMap left.now right.now f g
            → AreMatched f g (take ours self.old.left.list.items) (take theirs self.old.right.list.items)
            → AreKept left.now f self.old.left.colours.items self.old.right.colours.items
            → IsTrue result × AreKept left.now f self.new.left.colours.items self.new.right.colours.items }
    {
        for _round in 0..ROUNDS {
            if self.left.round(left, ours) != self.right.round(right, theirs) {
                return false;
            }
        }
        true
    }
}

// Copies the first numbers of a list.
fn copy(from: &[u64], to: &mut Vec<u64>, count: usize)
    requires few { (count ≤ length from.now) × (count ≤ vec_len to.old) }
    ensures same { vec_len to.new ≡ vec_len to.old }
    ensures copied { (x : ℕ) → x < count → slice_index to.new.items x ≡ slice_index from.now x }
{
    for place in 0..count {
        to[place] = from[place];
    }
}
