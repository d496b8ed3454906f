//! Hydrogens that are not written, and hydrogen atoms that become counts.

ghost use Rattle.std.specs.Prelude.{◌≤◌, IsTrue, IfOk, All};
ghost use Rattle.chem_core.specs.Sound.{IsSound};
ghost use Rattle.reading_rows.specs.Small.{is_small};

use chem_core::{Fill, Sketch, SketchAtom, SketchBond, SketchKind};
use std::alloc::{AllocError, Global};
use std::process::Abort;
use std::test::Fail;
use valence::{fill_hydrogens, suppress};

const C: SketchAtom = SketchAtom {
    number: 6,
    isotope: 0,
    charge: 0,
    lower: false,
    fill: Fill::Organic,
    hydrogens: 0,
    written: 0,
};

const B: SketchAtom = SketchAtom { number: 5, ..C };

const N: SketchAtom = SketchAtom { number: 7, ..C };

const O: SketchAtom = SketchAtom { number: 8, ..C };

const F: SketchAtom = SketchAtom { number: 9, ..C };

const S: SketchAtom = SketchAtom { number: 16, ..C };

const ANY: SketchAtom = SketchAtom { number: 0, ..C };

const LOWER_C: SketchAtom = SketchAtom { lower: true, ..C };

const LOWER_N: SketchAtom = SketchAtom { lower: true, ..N };

const AMMONIUM: SketchAtom = SketchAtom {
    charge: 1,
    fill: Fill::Given,
    hydrogens: 4,
    ..N
};

const H: SketchAtom = SketchAtom {
    number: 1,
    fill: Fill::Given,
    ..C
};

const D: SketchAtom = SketchAtom { isotope: 2, ..H };

macro_rules! bond {
    ($a:literal, $kind:ident, $b:literal) => {
        SketchBond {
            a: $a,
            b: $b,
            kind: SketchKind::$kind,
        }
    };
}

fn sketch(alloc: Global, atoms: &[SketchAtom], bonds: &[SketchBond]) -> Result<Sketch, AllocError>
    requires { IsTrue (is_small atoms.now bonds.now) }
    ensures sound { IfOk result IsSound }
    ensures few { IfOk result (λ s. All (λ a. a.hydrogens ≤ 9) s.atoms) }
{
    Ok(Sketch {
        atoms: atoms.to_vec(alloc)?,
        bonds: bonds.to_vec(alloc)?,
    })
}

// Fills in the hydrogens of a structure, and tests whether each atom has its number in `want`.
fn fills(
    rt: &impl Abort,
    alloc: Global,
    atoms: &[SketchAtom],
    bonds: &[SketchBond],
    want: &[u8],
) -> Result<(), AllocError>
    requires { IsTrue (is_small atoms.now bonds.now) }
{
    let mut filled = sketch(alloc, atoms, bonds)?;
    fill_hydrogens(&mut filled);
    assert_eq!(rt; filled.atoms.len(), want.len());
    for (atom, hydrogens) in filled.atoms.iter().zip(want) {
        assert_eq!(rt; atom.hydrogens, *hydrogens, "of {}", atom.number);
    }
    Ok(())
}

#[test]
fn hydrogens(rt: HostRuntime) -> Result<(), Fail> {
    let alloc = rt.alloc();
    fills(&rt, alloc, &[C], &[], &[4])?;
    fills(&rt, alloc, &[C, C], &[bond!(0, Unwritten, 1)], &[3, 3])?;
    fills(&rt, alloc, &[C, C], &[bond!(0, Double, 1)], &[2, 2])?;
    fills(&rt, alloc, &[C, C], &[bond!(1, Triple, 0)], &[1, 1])?;
    fills(&rt, alloc, &[N, AMMONIUM, F, ANY, B], &[], &[3, 4, 1, 0, 3])?;
    let ring = [
        bond!(0, Unwritten, 1),
        bond!(1, Unwritten, 2),
        bond!(2, Colon, 3),
        bond!(3, Unwritten, 0),
    ];
    fills(
        &rt,
        alloc,
        &[LOWER_N, LOWER_C, LOWER_C, LOWER_C],
        &ring,
        &[0, 1, 1, 1],
    )?;
    Ok(())
}

// Sulfur with bonds of 2, 4, 6 and 7 in all, and between its valences.
#[test]
fn sulfur(rt: HostRuntime) -> Result<(), Fail> {
    let alloc = rt.alloc();
    let two = [bond!(0, Single, 1), bond!(0, Single, 2)];
    fills(&rt, alloc, &[S, C, C], &two, &[0, 3, 3])?;
    let four = [bond!(0, Double, 1), bond!(0, Double, 2)];
    fills(&rt, alloc, &[S, O, O], &four, &[0, 0, 0])?;
    let five = [bond!(0, Quad, 1), bond!(0, Single, 2)];
    fills(&rt, alloc, &[S, C, C], &five, &[1, 0, 3])?;
    let six = [bond!(0, Triple, 1), bond!(0, Triple, 2)];
    fills(&rt, alloc, &[S, N, N], &six, &[0, 0, 0])?;
    let seven = [bond!(0, Triple, 1), bond!(0, Quad, 2)];
    fills(&rt, alloc, &[S, N, C], &seven, &[0, 0, 0])?;
    Ok(())
}

#[test]
fn hydrogens_of_molfiles(rt: HostRuntime) -> Result<(), Fail> {
    let alloc = rt.alloc();
    let table = Fill::Table { radicals: 0 };
    let methyl = SketchAtom {
        fill: Fill::Table { radicals: 1 },
        ..C
    };
    let oxide = SketchAtom {
        charge: -1,
        fill: table,
        ..O
    };
    let onium = SketchAtom {
        charge: 1,
        fill: table,
        ..N
    };
    let dication = SketchAtom {
        charge: 2,
        fill: table,
        ..N
    };
    let fixed = SketchAtom {
        fill: Fill::Fixed { valence: 15 },
        ..S
    };
    fills(
        &rt,
        alloc,
        &[methyl, oxide, onium, dication, fixed],
        &[],
        &[3, 1, 4, 0, 15],
    )?;
    fills(&rt, alloc, &[fixed, O], &[bond!(0, Double, 1)], &[13, 0])?;
    Ok(())
}

// Makes counts of the plain hydrogen atoms of a structure, and tests the rest: these atoms, each an element with its
// hydrogens, and these bonds.
fn leaves(
    rt: &impl Abort,
    alloc: Global,
    atoms: &[SketchAtom],
    bonds: &[SketchBond],
    want: &[(u8, u8)],
    want_bonds: &[(u16, u16)],
) -> Result<(), AllocError>
    requires { IsTrue (is_small atoms.now bonds.now) }
{
    let mut left = sketch(alloc, atoms, bonds)?;
    suppress(&mut left);
    assert_eq!(rt; left.atoms.len(), want.len());
    for (atom, wanted) in left.atoms.iter().zip(want) {
        assert_eq!(rt; (atom.number, atom.hydrogens), *wanted);
    }
    assert_eq!(rt; left.bonds.len(), want_bonds.len());
    for (bond, wanted) in left.bonds.iter().zip(want_bonds) {
        assert_eq!(rt; (bond.a, bond.b), *wanted);
    }
    Ok(())
}

#[test]
fn hydrogen_atoms(rt: HostRuntime) -> Result<(), Fail> {
    let alloc = rt.alloc();
    let single = [bond!(0, Single, 1)];
    // H-C and D-C, H-H and H alone.
    leaves(&rt, alloc, &[H, C], &single, &[(6, 1)], &[])?;
    leaves(&rt, alloc, &[D, C], &single, &[(1, 0), (6, 0)], &[(0, 1)])?;
    leaves(&rt, alloc, &[H, H], &single, &[(1, 0), (1, 0)], &[(0, 1)])?;
    leaves(&rt, alloc, &[H], &[], &[(1, 0)], &[])?;
    // [H]:C
    let colon = [bond!(0, Colon, 1)];
    leaves(&rt, alloc, &[H, C], &colon, &[(1, 0), (6, 0)], &[(0, 1)])?;
    let both = [bond!(0, Single, 1), bond!(1, Unwritten, 2)];
    // H-O-H, B-H-B and H-N=C-H.
    leaves(&rt, alloc, &[H, O, H], &both, &[(8, 2)], &[])?;
    leaves(
        &rt,
        alloc,
        &[B, H, B],
        &both,
        &[(5, 0), (1, 0), (5, 0)],
        &[(0, 1), (1, 2)],
    )?;
    let chain = [
        bond!(3, Single, 2),
        bond!(0, Single, 1),
        bond!(2, Double, 1),
    ];
    leaves(
        &rt,
        alloc,
        &[H, N, C, H],
        &chain,
        &[(7, 1), (6, 1)],
        &[(1, 0)],
    )?;
    Ok(())
}
