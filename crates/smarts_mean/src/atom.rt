//! The truth of an atom expression at an atom.
ghost use Rattle.std.specs.Prelude.{◌≡◌, ◌<◌, ◌↔◌, Some, length, slice_get, IsTrue};
ghost use Rattle.smarts_parse.specs.Pattern.{Prim, term_of};
ghost use Rattle.smarts_parse.specs.Sound.{NamesBelow, PrimNamesBelow};
ghost use Rattle.smarts_parse.specs.Truth.{AtomPrimTrue, AtomTrue};
ghost use Rattle.smarts_mean.specs.Table.{HoldsIn};

use crate::count::{degree_of, hydrogen_count, is_ring_atom, ring_bond_count};
use crate::table::{MOST_PARTS, RecTable};
use chem_core::{Atom, MOST_ATOMS, Mol};
use smarts_parse::{AtomPrim, Expr};

/// True if the expression is true at the atom at that place, if the recursive parts hold as in the table. Takes no
/// memory.
pub fn atom_true(expr: &Expr<AtomPrim>, mol: &Mol, atom: u16, table: &RecTable) -> bool
    requires in_range { atom < length mol.now.atoms }
    requires named { NamesBelow MOST_PARTS (term_of expr.now) }
    ensures { IsTrue result ↔ AtomTrue (HoldsIn table.now) (term_of expr.now) mol.now atom }
{
    match expr {
        Expr::Prim(prim) => prim_true(*prim, mol, atom, table),
        Expr::Not(inner) => !atom_true(inner, mol, atom, table),
        Expr::And(left, right) => {
            atom_true(left, mol, atom, table) && atom_true(right, mol, atom, table)
        }
        Expr::Or(left, right) => {
            atom_true(left, mol, atom, table) || atom_true(right, mol, atom, table)
        }
    }
}

/// As `atom_true`, for a primitive.
pub fn prim_true(prim: AtomPrim, mol: &Mol, atom: u16, table: &RecTable) -> bool
    requires in_range { atom < length mol.now.atoms }
    requires named { PrimNamesBelow MOST_PARTS prim }
    ensures { IsTrue result ↔ AtomTrue (HoldsIn table.now) (Prim prim) mol.now atom }
{
    is_true_at(prim, mol, atom, mol.atoms()[usize::from(atom)], table)
}

// True if the primitive is true at the atom x, which is at that place.
fn is_true_at(prim: AtomPrim, mol: &Mol, place: u16, x: Atom, table: &RecTable) -> bool
    requires in_range { place < length mol.now.atoms }
    requires few { place < MOST_ATOMS }
    requires named { PrimNamesBelow MOST_PARTS prim }
    ensures { IsTrue result ↔ AtomPrimTrue (HoldsIn table.now) prim mol.now place x }
{
    match prim {
        AtomPrim::Any => true,
        AtomPrim::Aromatic => x.aromatic,
        AtomPrim::Aliphatic => !x.aromatic,
        AtomPrim::Symbol { number, lower } => x.number == number && x.aromatic == lower,
        AtomPrim::Number(n) => u16::from(x.number) == n,
        AtomPrim::ImplicitH(None) => x.hydrogens >= 1,
        AtomPrim::ImplicitH(Some(n)) => u16::from(x.hydrogens) == n,
        AtomPrim::Valence(n) => u16::from(x.valence) == n,
        AtomPrim::Charge(charge) => i16::from(x.charge) == charge,
        AtomPrim::Mass(n) => x.isotope == n,
        AtomPrim::Ring | AtomPrim::RingBonds(None) => is_ring_atom(mol, place),
        AtomPrim::NoRing => !is_ring_atom(mol, place),
        AtomPrim::Small(n) => mol.small(place) == n,
        AtomPrim::RingBonds(Some(n)) => ring_bond_count(mol, place) == usize::from(n),
        AtomPrim::Rec(part) => table.get(part, place),
        AtomPrim::Degree(n) => degree_of(mol, place) == usize::from(n),
        AtomPrim::TotalH(n) => {
            usize::from(x.hydrogens) + hydrogen_count(mol, place) == usize::from(n)
        }
        AtomPrim::Connect(n) => {
            degree_of(mol, place) + usize::from(x.hydrogens) == usize::from(n)
        }
    }
}
