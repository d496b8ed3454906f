//! Primitives at one atom.

use crate::tests::{CARBON, alone};
use chem_core::Atom;
use smarts_mean::{RecTable, atom_true};
use smarts_parse::{AtomPrim, Expr};
use std::test::Fail;

// Of mass number 15, with a charge.
const NITROGEN: Atom = Atom {
    number: 7,
    isotope: 15,
    charge: 1,
    ..CARBON
};

const UPPER: AtomPrim = AtomPrim::Symbol {
    number: 7,
    lower: false,
};

// The ammonium ion: one atom, no bond.
#[test]
fn primitives_at_one_atom(rt: HostRuntime) -> Result<(), Fail> {
    let mol = alone(rt.alloc(), NITROGEN)?;
    let mut table = RecTable::reserve(rt.alloc())?;
    let rows = [
        (UPPER, true),
        (AtomPrim::Aromatic, false),
        (AtomPrim::Connect(4), true),
        (AtomPrim::NoRing, true),
        (AtomPrim::Charge(-1), false),
        (AtomPrim::Rec(63), false),
    ];
    for (prim, is_true) in rows {
        assert!(rt;
            atom_true(&Expr::Prim(prim), &mol, 0, &table) == is_true,
            "{prim:?}"
        );
    }
    table.put_block(63, 0, 1);
    assert!(rt; atom_true(&Expr::Prim(AtomPrim::Rec(63)), &mol, 0, &table));
    Ok(())
}
