//! The classes of the atoms at which an expression may be true. They rule out most atoms at once. A set of classes is a
//! word with a bit for each class.
ghost use Rattle.std.specs.Prelude.{◌≡◌, ◌<◌, ℕ, ◌↔◌, IsTrue};
ghost use Rattle.std.specs.Int.{bit_at};
ghost use Rattle.chem_core.specs.declared.mol.Atom.{Atom};
ghost use Rattle.chem_core.specs.Symbols.{class_at, class_of};
ghost use Rattle.smarts_parse.specs.Pattern.{term_of};
ghost use Rattle.matcher.specs.Class.{Covers, PrimMayBe};

use chem_core::{Atom, class};
use smarts_parse::{AtomPrim, Expr};

/// True if the atom is of one of the classes.
pub fn may_be(classes: u64, atom: Atom) -> bool
    ensures { IsTrue result ↔ bit_at classes (class_of atom) ≡ 1 }
{
    (classes >> class(u16::from(atom.number), atom.aromatic)) & 1 == 1
}

/// The classes of the atoms at which the expression may be true, and maybe others.
pub fn classes_of(expr: &Expr<AtomPrim>) -> u64
    ensures { Covers result (term_of expr.now) }
{
    match expr {
        Expr::Prim(prim) => prim_classes(*prim),
        Expr::Not(_) => u64::MAX,
        Expr::And(left, right) => classes_of(left) & classes_of(right),
        Expr::Or(left, right) => classes_of(left) | classes_of(right),
    }
}

// As `classes_of`, but of a primitive.
fn prim_classes(prim: AtomPrim) -> u64
    ensures { (c : ℕ) → c < 64 → PrimMayBe prim c → bit_at result c ≡ 1 }
{
    match prim {
        AtomPrim::Symbol { number, lower } => only(u16::from(number), lower),
        AtomPrim::Number(number) => only(number, false) | only(number, true),
        _ => u64::MAX,
    }
}

// The set of the one class of the atoms with this number.
fn only(number: u16, aromatic: bool) -> u64
    ensures { bit_at result (class_at number aromatic) ≡ 1 }
{
    1 << class(number, aromatic)
}
