//! Worked examples of one atom. Longer paths have no example here: `IsPrint` and `IsNeed` define their bits.
use crate::tests::{CARBON, alone};
use chem_core::{Atom, Print};
use path_print::{need, print};
use smarts_parse::{AtomPrim, Expr, Graph, Pattern};
use std::process::Abort;
use std::test::Fail;

fn assert_bits(rt: &impl Abort, print: &Print, bits: &[u16]) {
    for bit in 0..1024 {
        assert_eq!(rt; print.has(bit), bits.contains(&bit), "bit {bit}");
    }
}

#[test]
fn atoms_have_two_bits(rt: HostRuntime) -> Result<(), Fail> {
    for (number, bits) in [(6, [96, 98]), (8, [358, 360])] {
        let mol = alone(rt.alloc(), Atom { number, ..CARBON })?;
        assert_bits(&rt, &print(&mol), &bits);
    }
    Ok(())
}

#[test]
fn a_number_needs_one_bit(rt: HostRuntime) -> Result<(), Fail> {
    let mut atoms = Vec::new(rt.alloc());
    atoms.push(Expr::Prim(AtomPrim::Number(1)))?;
    let pattern = Pattern {
        top: Graph {
            atoms,
            bonds: Vec::new(rt.alloc()),
            groups: [0].to_vec(rt.alloc())?,
        },
        recs: Vec::new(rt.alloc()),
    };
    assert_bits(&rt, &need(&pattern), &[467]);
    Ok(())
}
