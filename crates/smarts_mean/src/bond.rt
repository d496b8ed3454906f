//! The truth of a bond expression at a bond.
ghost use Rattle.std.specs.Prelude.{◌<◌, ◌↔◌, length, IsTrue};
ghost use Rattle.smarts_parse.specs.Pattern.{Prim, term_of};
ghost use Rattle.smarts_parse.specs.Truth.{BondPrimTrue, BondTrue};

use chem_core::{Bond, BondKind, Mol};
use smarts_parse::{BondPrim, Expr};

/// True if the expression is true at the bond at that place. Takes no memory.
///
/// Most expressions are a primitive, which is tested without a call.
#[inline(always)]
pub fn bond_true(expr: &Expr<BondPrim>, mol: &Mol, bond: u16) -> bool
    requires { bond < length mol.now.bonds }
    ensures { IsTrue result ↔ BondTrue (term_of expr.now) mol.now bond }
{
    match expr {
        Expr::Prim(prim) => prim_true(*prim, mol, bond),
        _ => expr_true(expr, mol, bond),
    }
}

// As `bond_true`, for any expression: its parts are tested by calls.
fn expr_true(expr: &Expr<BondPrim>, mol: &Mol, bond: u16) -> bool
    requires { bond < length mol.now.bonds }
    ensures { IsTrue result ↔ BondTrue (term_of expr.now) mol.now bond }
{
    match expr {
        Expr::Prim(prim) => prim_true(*prim, mol, bond),
        Expr::Not(inner) => !expr_true(inner, mol, bond),
        Expr::And(left, right) => expr_true(left, mol, bond) && expr_true(right, mol, bond),
        Expr::Or(left, right) => expr_true(left, mol, bond) || expr_true(right, mol, bond),
    }
}

// As `bond_true`, for a primitive.
#[inline(always)]
fn prim_true(prim: BondPrim, mol: &Mol, bond: u16) -> bool
    requires { bond < length mol.now.bonds }
    ensures { IsTrue result ↔ BondTrue (Prim prim) mol.now bond }
{
    is_true_at(prim, mol, bond, mol.bonds()[usize::from(bond)])
}

// True if the primitive is true at the bond x, which is at that place.
#[inline(always)]
fn is_true_at(prim: BondPrim, mol: &Mol, place: u16, x: Bond) -> bool
    requires { place < length mol.now.bonds }
    ensures { IsTrue result ↔ BondPrimTrue prim mol.now place x }
{
    match prim {
        BondPrim::Any => true,
        BondPrim::Single => x.kind == BondKind::Single,
        BondPrim::Double => x.kind == BondKind::Double,
        BondPrim::Triple => x.kind == BondKind::Triple,
        BondPrim::Quad => x.kind == BondKind::Quad,
        BondPrim::Aromatic => x.kind == BondKind::Aromatic,
        BondPrim::Unwritten => x.kind == BondKind::Single || x.kind == BondKind::Aromatic,
        BondPrim::Ring => mol.ring_bond(place),
    }
}
