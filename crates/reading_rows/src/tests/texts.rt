//! Texts and their answers, by the grammar.

use chem_core::{Fill, Sketch, SketchAtom, SketchBond, SketchKind};
use smiles_read::{SmilesFault, read_smiles};
use std::alloc::{AllocError, Global};
use std::test::Fail;

/// An answer, and texts that have it, apart by `|`.
const ANSWERS: &[(&str, &str)] = &[
    (
        "syntax",
        "C[|C%1|[1000C]|[C+16]|C..C|C)|.C|C(|()C|C()|C=|=C|[HH]",
    ),
    (
        "syntax",
        "[CH10]|[C@TH3]|[C@TH0]|[C@TH01]|[C@OH31]|[H@H]|C(C)1CC1|se|Cr|[]|[C:]|[Uuo]|[++C]",
    ),
    (
        "syntax",
        "[C++2]|[C++++++++++++++++]|C1C(|S(C)(C)(C)(C)(C)(C)(C)(C)(C)(C)(C)(C)C(||C\0C|C\tC|C C|C\u{ff}C",
    ),
    (
        "ring",
        "C1|C11|C1C1|C12CCCCC12|C-1CC=1|C1CC=%01C1|S(C)(C)(C)(C)(C)(C)(C)(C)(C)(C)(C)(C)C1",
    ),
    (
        "read",
        "C1CC=1|C=1CC1|C=1CC=1|C1CC%01|C%12CC%12|C1.C1|C1CC1C1CC1|[H]",
    ),
    (
        "read",
        "[H][H]|[H@]|[2H]C|[Fe+++]|[Fe+3]|[C+++++++++++++++]|[C+15]|[C@TH2]|[C@OH30]",
    ),
    (
        "read",
        "[C@@H](C)C|[c]|[se]|[as]|Clc|Sc|CsC|[Sc]|[O+00]|[0C]|[13CH4:007]",
    ),
    (
        "read",
        "[*]|*|[Lr]|C/C=C\\C|C$C#N|c1:c:c:c:c:c1|C(C)(C)C|C(=O)O|C(.C)C|C(C)|CC(C)(C(C))C",
    ),
    ("read", "C.C|S(C)(C)(C)(C)(C)(C)(C)(C)(C)(C)(C)C"),
    ("limit", "S(C)(C)(C)(C)(C)(C)(C)(C)(C)(C)(C)(C)C"),
];

/// The name of the answer.
fn answer_to(alloc: Global, text: &str) -> &'static str {
    match read_smiles(alloc, text.as_bytes()) {
        Ok(_) => "read",
        Err(SmilesFault::Syntax) => "syntax",
        Err(SmilesFault::Ring) => "ring",
        Err(SmilesFault::Limit) => "limit",
        Err(SmilesFault::Aromatic(_)) => "aromatic",
        Err(SmilesFault::NoMemory) => "no memory",
    }
}

#[test]
fn texts_and_their_answers(rt: HostRuntime) -> Result<(), Fail> {
    for (answer, texts) in ANSWERS {
        for text in texts.split('|') {
            assert!(rt; answer_to(rt.alloc(), text) == *answer, "at {text}");
        }
    }
    Ok(())
}

/// A text of parts, with its middle and its end repeated, and the name of its answer.
struct Long {
    front: &'static str,
    middle: &'static str,
    end: &'static str,
    count: usize,
    answer: &'static str,
}

#[rattlefmt::skip]
const LONG: &[Long] = &[
    Long { front: "C", middle: "(C", end: ")", count: 256, answer: "read" },
    Long { front: "C", middle: "(C", end: ")", count: 257, answer: "limit" },
    Long { front: "C", middle: "C", end: "", count: 998, answer: "read" },
    Long { front: "C", middle: "C", end: "", count: 999, answer: "limit" },
    Long { front: "C1", middle: "C", end: "", count: 999, answer: "ring" },
    Long { front: "C", middle: "C", end: "", count: 65_535, answer: "limit" },
    Long { front: "C(", middle: "C", end: "", count: 65_534, answer: "syntax" },
    Long { front: "C(", middle: "C", end: "", count: 65_535, answer: "limit" },
    Long { front: "C", middle: "(C", end: "", count: 32_000, answer: "syntax" },
];

/// The whole text.
fn long_text(alloc: Global, parts: &Long) -> Result<String, AllocError> {
    let middle = parts.middle.repeat(alloc, parts.count)?;
    let end = parts.end.repeat(alloc, parts.count)?;
    format!(in alloc; "{}{middle}{end}", parts.front)
}

#[test]
fn long_texts(rt: HostRuntime) -> Result<(), Fail> {
    for parts in LONG {
        let text = long_text(rt.alloc(), parts)?;
        assert!(rt;
            answer_to(rt.alloc(), &text) == parts.answer,
            "at {} of {}",
            parts.count,
            parts.middle
        );
    }
    Ok(())
}

const CARBON: SketchAtom = SketchAtom {
    number: 6,
    isotope: 0,
    charge: 0,
    lower: false,
    fill: Fill::Organic,
    hydrogens: 0,
    written: 0,
};

const GIVEN: SketchAtom = SketchAtom {
    fill: Fill::Given,
    ..CARBON
};

/// A text, and the first atom and the bonds of its sketch.
struct Drawn {
    text: &'static str,
    first: SketchAtom,
    bonds: &'static [SketchBond],
}

macro_rules! bond {
    ($a:literal, $kind:ident, $b:literal) => {
        SketchBond {
            a: $a,
            b: $b,
            kind: SketchKind::$kind,
        }
    };
}

#[rattlefmt::skip]
const DRAWN: &[Drawn] = &[
    Drawn { text: "Cl", first: SketchAtom { number: 17, ..CARBON }, bonds: &[] },
    Drawn { text: "n", first: SketchAtom { number: 7, lower: true, ..CARBON }, bonds: &[] },
    Drawn { text: "*", first: SketchAtom { number: 0, ..GIVEN }, bonds: &[] },
    Drawn { text: "[*-]", first: SketchAtom { number: 0, charge: -1, ..GIVEN }, bonds: &[] },
    Drawn { text: "[13CH4]", first: SketchAtom { isotope: 13, hydrogens: 4, ..GIVEN }, bonds: &[] },
    Drawn { text: "[nH]", first: SketchAtom { number: 7, lower: true, hydrogens: 1, ..GIVEN }, bonds: &[] },
    Drawn { text: "[Fe+++]", first: SketchAtom { number: 26, charge: 3, ..GIVEN }, bonds: &[] },
    Drawn {
        text: "[235U@OH12H0--:7]",
        first: SketchAtom { number: 92, isotope: 235, charge: -2, ..GIVEN },
        bonds: &[],
    },
    Drawn {
        text: "C1CC=1",
        first: CARBON,
        bonds: &[bond!(0, Unwritten, 1), bond!(1, Unwritten, 2), bond!(0, Double, 2)],
    },
    Drawn { text: "C1.C1", first: CARBON, bonds: &[bond!(0, Unwritten, 1)] },
    Drawn {
        text: "C(=O)(/N)C",
        first: CARBON,
        bonds: &[bond!(0, Double, 1), bond!(0, Single, 2), bond!(0, Unwritten, 3)],
    },
    Drawn { text: "C(C.N)O", first: CARBON, bonds: &[bond!(0, Unwritten, 1), bond!(0, Unwritten, 3)] },
];

// True if the sketch has the first atom and the bonds of the example.
fn is_drawn(sketch: &Sketch, example: &Drawn) -> bool {
    sketch.atoms.first() == Some(&example.first) && sketch.bonds.as_slice() == example.bonds
}

#[test]
fn sketches_stand_as_written(rt: HostRuntime) -> Result<(), Fail> {
    for example in DRAWN {
        let sketch = read_smiles(rt.alloc(), example.text.as_bytes())?;
        assert!(rt; is_drawn(&sketch, example), "at {}", example.text);
    }
    Ok(())
}
