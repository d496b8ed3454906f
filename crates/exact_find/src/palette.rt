//! Memory for the colours of one molecule while they are worked out.
ghost use Rattle.std.specs.Prelude.{◌≡◌, ◌<◌, ◌≤◌, ◌%◌, ◌^◌, ℕ, length, map, sum, slice_index, slice_set, take, vec_len, Some, slice_get};
ghost use Rattle.chem_core.specs.declared.limits.TheConstants.{MOST_ATOMS};
ghost use Rattle.chem_core.specs.declared.mol.Atom.{Atom};
ghost use Rattle.chem_core.specs.Molecule.{IsMolecule};
ghost use Rattle.exact_find.specs.declared.levels.TheConstants.{FAR, IN_PAIR};
ghost use Rattle.exact_find.specs.Key.{code};
ghost use Rattle.exact_find.specs.Colours.{AreInRange, IsBegun, IsRound, taken};
ghost use Rattle.exact_find.specs.Levels.{AreFree, IsReached};

use crate::colours;
use crate::key::code_of;
use crate::levels::{FAR, IN_PAIR, reach};
use chem_core::{MOST_ATOMS, Mol};
use std::alloc::{AllocError, Global};

/// Memory for the colours of any molecule.
#[derive(Debug, Drop)]
pub struct Palette {
    pub colours: Vec<u64>,
    // for each atom the number of bonds that lead to it, FAR or IN_PAIR
    pub levels: Vec<u16>,
    // the atoms whose colours are worked out
    pub list: Vec<u16>,
    // their new colours
    next: Vec<u64>,
    ghost colours_room: { vec_len colours ≡ MOST_ATOMS },
    ghost levels_room: { vec_len levels ≡ MOST_ATOMS },
    ghost list_room: { vec_len list ≡ MOST_ATOMS },
    ghost next_room: { vec_len next ≡ MOST_ATOMS },
}

impl Palette {
    /// Takes the memory.
    pub fn reserve(alloc: Global) -> Result<Palette, AllocError> {
        Ok(Palette {
            colours: vec![in alloc; 0; MOST_ATOMS]?,
            levels: vec![in alloc; 0; MOST_ATOMS]?,
            list: vec![in alloc; 0; MOST_ATOMS]?,
            next: vec![in alloc; 0; MOST_ATOMS]?,
        })
    }

    /// Lists all atoms. The colour of each is its code.
    pub fn start(&mut self, mol: &Mol)
        ensures listed { (x : ℕ) → x < length mol.now.atoms → slice_index self.new.list.items x ≡ x }
        ensures coloured { (x : ℕ) (atom : Atom) → slice_get mol.now.atoms x ≡ Some atom
            → slice_index self.new.colours.items x ≡ code mol.now (x, atom) }
        ensures valid { IsMolecule mol.now }
    {
        for place in 0..mol.atoms().len() {
            self.list[place] = place as u16;
            self.colours[place] = code_of(mol, place);
        }
    }

    /// Gives each atom its colour of a list. No atom is reached.
    pub fn clear(&mut self, mol: &Mol, rough: &[u64])
        requires { MOST_ATOMS ≤ length rough.now }
        ensures far { (x : ℕ) → x < length mol.now.atoms → slice_index self.new.levels.items x ≡ FAR }
        ensures coloured { (x : ℕ) → x < length mol.now.atoms
            → slice_index self.new.colours.items x ≡ slice_index rough.now x }
        ensures valid { IsMolecule mol.now }
    {
        for place in 0..mol.atoms().len() {
            self.levels[place] = FAR;
            self.colours[place] = rough[place];
        }
    }

    /// Marks an atom as being in a pair, and gives it a colour.
    pub fn put(&mut self, atom: u16, colour: u64)
        requires { atom < MOST_ATOMS }
        ensures levels { self.new.levels.items ≡ slice_set self.old.levels.items atom IN_PAIR }
        ensures colours { self.new.colours.items ≡ slice_set self.old.colours.items atom colour }
    {
        self.levels[usize::from(atom)] = IN_PAIR;
        self.colours[usize::from(atom)] = colour;
    }

    /// Lists the atoms that hang on an atom. Returns their number.
    pub fn reach(&mut self, mol: &Mol, start: u16) -> usize
        requires molecule { IsMolecule mol.now }
        requires in_range { start < length mol.now.atoms }
        requires clear { AreFree (length mol.now.atoms) self.old.levels.items }
        ensures few { result ≤ MOST_ATOMS }
        ensures reached { IsReached mol.now start self.old.levels.items self.new.levels.items
            (take result self.new.list.items) }
        ensures colours { self.new.colours.items ≡ self.old.colours.items }
    {
        reach(mol, start, &mut self.levels, &mut self.list)
    }

    /// Gives the atoms listed the colours that come from their own and their levels. Returns their sum.
    pub fn begin(&mut self, count: usize) -> u64
        requires few { count ≤ MOST_ATOMS }
        requires listed { AreInRange MOST_ATOMS (take count self.old.list.items) }
        ensures begun { IsBegun (take count self.old.list.items) self.old.levels.items self.old.colours.items
            self.new.colours.items }
        ensures list { self.new.list.items ≡ self.old.list.items }
        ensures sum { result ≡ sum (map (taken self.new.colours.items) (take count self.old.list.items)) % 2 ^ 64 }
    {
        colours::begin(&self.list[..count], &self.levels, &mut self.colours)
    }

    /// Works out the colours of the atoms listed. Returns their sum.
    pub fn round(&mut self, mol: &Mol, count: usize) -> u64
        requires molecule { IsMolecule mol.now }
        requires few { count ≤ MOST_ATOMS }
        requires listed { AreInRange (length mol.now.atoms) (take count self.old.list.items) }
        ensures round { IsRound mol.now (take count self.old.list.items) self.old.colours.items self.new.colours.items }
        ensures list { self.new.list.items ≡ self.old.list.items }
        ensures sum { result ≡ sum (map (taken self.new.colours.items) (take count self.old.list.items)) % 2 ^ 64 }
    {
        colours::round(mol, &self.list[..count], &mut self.colours, &mut self.next)
    }
}
