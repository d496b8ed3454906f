//! Texts with their answers, by hand.

use chem_core::{Fill, Sketch, SketchAtom, SketchBond, SketchKind};
use molfile_read::{MolfileFault, read_molfile};
use std::alloc::{AllocError, Global};
use std::test::Fail;

const ACETATE: &str = "acetate
  by hand

  4  3  0  0  0  0  0  0  0  0999 V2000
    0.0000    0.0000    0.0000 C   0  0  0  0  0  0
    1.5000    0.0000    0.0000 C   0  0  0  0  0  0
    2.2000    1.2000    0.0000 O   0  5  0  0  0  0
    2.2000   -1.2000    0.0000 O   0  0  0  0  0  0
  1  2  1  0
  2  3  2  0
  2  4  1  0
M  CHG  1   4  -1
M  END
";

const HEADER: MolfileFault = MolfileFault::Header;

const CUT: MolfileFault = MolfileFault::Cut;

/// The old bytes of the acetate's text, at their first place, the new ones, and the fault, if that text has one.
type Change = (&'static str, &'static str, Option<MolfileFault>);

#[rattlefmt::skip]
const HEADERS: &[Change] = &[
    ("V2000", "V3000", Some(HEADER)),
    ("V2000", "", None),
    ("V2000", "2000 V", Some(HEADER)),
    ("0999 V2000", "0999V 2000", None),
    ("0999 V2000", "0999\tV2000", Some(HEADER)),
    ("  4  3", "004003", None),
    ("  4  3", "4  3  ", None),
    ("  4  3", "  0  3", Some(HEADER)),
    ("  4  3", "  x  3", Some(HEADER)),
    ("  4  3", " -4  3", Some(HEADER)),
    ("  4  3", "\t 4  3", Some(HEADER)),
    ("  4  3  0", "  4  3  1", Some(MolfileFault::Query(4))),
    ("  4  3  0", "  4  3  x", Some(MolfileFault::Query(4))),
    ("  4  3  0", "  4  3   ", None),
    ("  4  3  0  0  0  0", "  4  3  1  0  0  1", Some(HEADER)),
    ("  4  3  0  0  0  0", "  4  3  0  x  y  0", None),
    ("  4  3  0  0  0  0", "  4  3  0  0  0  x", Some(HEADER)),
    ("  4  3", "  5  3", Some(MolfileFault::Columns(9))),
    ("  4  3", "  3  3", Some(MolfileFault::Columns(8))),
    ("  4  3", "  4  4", Some(MolfileFault::Columns(12))),
    ("  4  3", "  4  2", Some(MolfileFault::Columns(11))),
    ("acetate\n", "\r\n", None),
    ("\n\n", "\n", Some(HEADER)),
];

#[rattlefmt::skip]
const ATOMS: &[Change] = &[
    ("0 C   0", "0 Xx  0", Some(MolfileFault::Columns(5))),
    ("0 C   0", "0     0", Some(MolfileFault::Columns(5))),
    ("0 C   0", "0  C  0", None),
    ("0 C   0", "0 c   0", Some(MolfileFault::Columns(5))),
    ("0 C   0", "0 A   0", Some(MolfileFault::Query(5))),
    ("0 C   0", "0 R#  0", Some(MolfileFault::Query(5))),
    ("0 C   0", "0 LP  0", Some(MolfileFault::Query(5))),
    ("0 C   0", "0 C  -0", None),
    ("0 C   0", "0 C   1", Some(MolfileFault::Columns(5))),
    ("0 C   0", "0 C  -1", Some(MolfileFault::Columns(5))),
    ("0 C   0", "0 C  + ", Some(MolfileFault::Columns(5))),
    ("0 C   0", "0 C   -", Some(MolfileFault::Columns(5))),
    ("O   0  5", "O   0  8", Some(MolfileFault::Columns(7))),
    ("O   0  5", "O   0 -1", Some(MolfileFault::Columns(7))),
    ("O   0  5", "O   0   ", None),
    ("O   0  5  x  0", "O   0  5  x  0", None),
    ("O   0  5  0  1", "O   0  5  0  1", None),
    ("O   0  5  0  0", "O   0  5  x  1", Some(MolfileFault::Query(7))),
    ("O   0  5  0  0", "Xx  0  9  0  1", Some(MolfileFault::Query(7))),
    ("O   0  5  0  0", "O   0  5  0  x", Some(MolfileFault::Columns(7))),
    ("O   0  5  0  0", "L   0  5  0  x", Some(MolfileFault::Query(7))),
    ("C   0  0  0  0  0  0", "C", None),
    ("C   0  0  0  0  0  0", "C   0\r", Some(MolfileFault::Columns(5))),
    ("C   0  0  0  0  0  0", "C   0  0  0  0  0 16", Some(MolfileFault::Columns(5))),
    ("C   0  0  0  0  0  0", "C   0  0  0  0  0  0xyz", None),
    ("    0.0000    0.0000    0.0000 C", "", Some(MolfileFault::Columns(5))),
];

#[rattlefmt::skip]
const BONDS: &[Change] = &[
    ("  1  2  1  0\n", "  1  2  4  0\n", Some(MolfileFault::Query(9))),
    ("  1  2  1  0\n", "  1  2  8  0\n", Some(MolfileFault::Query(9))),
    ("  1  2  1  0\n", "  1  2  9  0\n", Some(MolfileFault::Columns(9))),
    ("  1  2  1  0\n", "  1  2  0  0\n", Some(MolfileFault::Columns(9))),
    ("  1  2  1  0\n", "  1  2\n", Some(MolfileFault::Columns(9))),
    ("  1  2  1  0\n", "  1  2  1\n", None),
    ("  1  2  1  0\n", "  1  2  1  x  0\n", None),
    ("  1  2  1  0\n", "  1  1  1  0     1\n", Some(MolfileFault::Query(9))),
    ("  1  2  1  0\n", "  1  1  1  0     x\n", Some(MolfileFault::Columns(9))),
    ("  1  2  1  0\n", "  1  1  1  0\n", Some(MolfileFault::Bond(9))),
    ("  1  2  1  0\n", "  1  1  x  0\n", Some(MolfileFault::Columns(9))),
    ("  1  2  1  0\n", "  0  2  1  0\n", Some(MolfileFault::Bond(9))),
    ("  1  2  1  0\n", "     2  1  0\n", Some(MolfileFault::Bond(9))),
    ("  1  2  1  0\n", "  1  5  1  0\n", Some(MolfileFault::Bond(9))),
    ("  1  2  1  0\n", "M  END\n", Some(MolfileFault::Columns(9))),
    ("  2  4  1  0\n", "  3  2  1  0\n", Some(MolfileFault::Bond(11))),
    ("  2  4  1  0\n", "  2  3  1  0\n", Some(MolfileFault::Bond(11))),
];

#[rattlefmt::skip]
const PROPERTIES: &[Change] = &[
    ("M  CHG  1   4  -1", "M  CHG1 4 -1", None),
    ("M  CHG  1   4  -1", "M  CHG  01   004  -01  ", None),
    ("M  CHG  1   4  -1", "M  CHG", Some(MolfileFault::Columns(12))),
    ("M  CHG  1   4  -1", "M  CHG  0", Some(MolfileFault::Columns(12))),
    ("M  CHG  1   4  -1", "M  CHG  9", Some(MolfileFault::Columns(12))),
    ("M  CHG  1   4  -1", "M  CHG  2   4  -1", Some(MolfileFault::Columns(12))),
    ("M  CHG  1   4  -1", "M  CHG  1   4  -1  x", Some(MolfileFault::Columns(12))),
    ("M  CHG  1   4  -1", "M  CHG  1   4  16", Some(MolfileFault::Columns(12))),
    ("M  CHG  1   4  -1", "M  CHG  1   5   1", Some(MolfileFault::Columns(12))),
    ("M  CHG  1   4  -1", "M  CHG  1   0   1", Some(MolfileFault::Columns(12))),
    ("M  CHG  1   4  -1", "M  CHG  1   4  +1", Some(MolfileFault::Columns(12))),
    ("M  CHG  1   4  -1", "M  CHG\t1   4  -1", Some(MolfileFault::Columns(12))),
    ("M  CHG  1   4  -1", "M  RAD  1   4   3", None),
    ("M  CHG  1   4  -1", "M  RAD  1   4   4", Some(MolfileFault::Columns(12))),
    ("M  CHG  1   4  -1", "M  RAD  1   4  -0", Some(MolfileFault::Columns(12))),
    ("M  CHG  1   4  -1", "M  ISO  1   4 999", None),
    ("M  CHG  1   4  -1", "M  ISO  1   41000", Some(MolfileFault::Columns(12))),
    ("M  CHG  1   4  -1", "M  ALS   1", Some(MolfileFault::Query(12))),
    ("M  CHG  1   4  -1", "M  LOG", Some(MolfileFault::Query(12))),
    ("M  CHG  1   4  -1", "M  STY  1   1 DAT", None),
    ("M  CHG  1   4  -1", "V    1 x", None),
    ("M  CHG  1   4  -1", "A    1\nx y", None),
    ("M  CHG  1   4  -1", "G    1  2\nM  ALS", None),
    ("M  CHG  1   4  -1", "A    1", Some(CUT)),
    ("M  CHG  1   4  -1", "", Some(MolfileFault::Columns(12))),
    ("M  CHG  1   4  -1", "M CHG  1   4  -1", Some(MolfileFault::Columns(12))),
    ("M  END\n", "M  END", None),
    ("M  END\n", "M  END  \r\nanything", None),
    ("M  END\n", "M END\n", Some(MolfileFault::Columns(13))),
    ("M  END\n", "", Some(CUT)),
    ("M  CHG  1   4  -1\nM  END\n", "", Some(CUT)),
    ("  2  4  1  0\nM  CHG  1   4  -1\nM  END\n", "", Some(CUT)),
    ("\n  4  3", "", Some(HEADER)),
];

// The text with the first place of the old bytes replaced by the new ones.
fn changed(alloc: Global, old: &str, new: &str) -> Result<String, AllocError> {
    match ACETATE.split_once(old) {
        Some((before, after)) => format!(in alloc; "{before}{new}{after}"),
        None => String::from_str(alloc, ACETATE),
    }
}

fn fault_of(alloc: Global, text: &str) -> Option<MolfileFault> {
    read_molfile(alloc, text.as_bytes()).err()
}

// The fault of the changed text.
fn fault_after(alloc: Global, old: &str, new: &str) -> Result<Option<MolfileFault>, AllocError> {
    let text = changed(alloc, old, new)?;
    Ok(fault_of(alloc, &text))
}

const CHANGES: &[&[Change]] = &[HEADERS, ATOMS, BONDS, PROPERTIES];

#[test]
fn each_change_has_its_fault(rt: HostRuntime) -> Result<(), Fail> {
    for changes in CHANGES {
        for (old, new, fault) in *changes {
            assert!(rt;
                fault_after(rt.alloc(), old, new)? == *fault,
                "{new} in place of {old}"
            );
        }
    }
    Ok(())
}

const CARBON: SketchAtom = SketchAtom {
    number: 6,
    isotope: 0,
    charge: 0,
    lower: false,
    fill: Fill::Table { radicals: 0 },
    hydrogens: 0,
    written: 0,
};

#[rattlefmt::skip]
const ATOMS_OF_ACETATE: &[SketchAtom] = &[
    CARBON,
    SketchAtom { written: 1, ..CARBON },
    SketchAtom { number: 8, written: 2, ..CARBON },
    SketchAtom { number: 8, charge: -1, written: 3, ..CARBON },
];

#[rattlefmt::skip]
const BONDS_OF_ACETATE: &[SketchBond] = &[
    SketchBond { a: 0, b: 1, kind: SketchKind::Single },
    SketchBond { a: 1, b: 2, kind: SketchKind::Double },
    SketchBond { a: 1, b: 3, kind: SketchKind::Single },
];

fn is_acetate(sketch: &Sketch) -> bool {
    sketch.atoms.as_slice() == ATOMS_OF_ACETATE && sketch.bonds.as_slice() == BONDS_OF_ACETATE
}

#[test]
fn charge_lines_take_the_place_of_charge_fields(rt: HostRuntime) -> Result<(), Fail> {
    let sketch = read_molfile(rt.alloc(), ACETATE.as_bytes())?;
    assert!(rt; is_acetate(&sketch));
    Ok(())
}

/// The old bytes, the new ones, and the third atom then.
type Third = (&'static str, &'static str, SketchAtom);

const OXYGEN: SketchAtom = SketchAtom {
    number: 8,
    written: 2,
    ..CARBON
};

#[rattlefmt::skip]
const THIRDS: &[Third] = &[
    ("M  CHG  1   4  -1", "M  STY", SketchAtom { charge: -1, ..OXYGEN }),
    ("M  CHG  1   4  -1", "M  RAD  1   4   2", OXYGEN),
    ("M  CHG  1   4  -1", "M  RAD  1   3   2", SketchAtom { fill: Fill::Table { radicals: 1 }, ..OXYGEN }),
    ("M  CHG  1   4  -1", "M  RAD  2   3   2   3   1", SketchAtom { fill: Fill::Table { radicals: 2 }, ..OXYGEN }),
    ("M  CHG  1   4  -1", "M  CHG  1   3  15\nM  CHG  1   3  -2", SketchAtom { charge: -2, ..OXYGEN }),
    ("M  CHG  1   4  -1", "M  ISO  1   3  18", SketchAtom { charge: -1, isotope: 18, ..OXYGEN }),
    ("O   0  5  0  0  0  0", "D   0  5  0  0  0  0", SketchAtom { number: 1, isotope: 2, ..OXYGEN }),
    ("O   0  5  0  0  0  0", "T   0  5", SketchAtom { number: 1, isotope: 3, ..OXYGEN }),
    ("O   0  5  0  0  0  0", "*   0  5", SketchAtom { number: 0, ..OXYGEN }),
    ("O   0  5  0  0  0  0", "Lr  0  5", SketchAtom { number: 103, ..OXYGEN }),
    ("O   0  5  0  0  0  0", "O   0  5  0  0  0 15", SketchAtom { fill: Fill::Fixed { valence: 0 }, ..OXYGEN }),
    ("O   0  5  0  0  0  0", "O   0  5  0  0  0 14", SketchAtom { fill: Fill::Fixed { valence: 14 }, ..OXYGEN }),
    ("O   0  5  0  0  0  0", "O   0  4  0  0  0  0", OXYGEN),
];

// The third atom of the changed text.
fn third_after(alloc: Global, old: &str, new: &str) -> Result<Option<SketchAtom>, Fail> {
    let text = changed(alloc, old, new)?;
    let sketch = read_molfile(alloc, text.as_bytes())?;
    Ok(sketch.atoms.get(2).copied())
}

#[test]
fn fields_and_lines_make_an_atom(rt: HostRuntime) -> Result<(), Fail> {
    for (old, new, third) in THIRDS {
        assert!(rt;
            third_after(rt.alloc(), old, new)? == Some(*third),
            "{new} in place of {old}"
        );
    }
    Ok(())
}

// The fault of `count` empty lines.
fn fault_of_blank(alloc: Global, count: usize) -> Result<Option<MolfileFault>, AllocError> {
    let text = "\n".repeat(alloc, count)?;
    Ok(fault_of(alloc, &text))
}

#[test]
fn long_texts(rt: HostRuntime) -> Result<(), Fail> {
    let blank = fault_of_blank(rt.alloc(), 262_144)?;
    let longer = fault_of_blank(rt.alloc(), 262_145)?;
    let wide = "x".repeat(rt.alloc(), 70_000)?;
    let named = fault_after(rt.alloc(), "acetate", &wide)?;
    assert!(rt; (blank, longer, named) == (Some(HEADER), Some(MolfileFault::Limit), None));
    Ok(())
}
