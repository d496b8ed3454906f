//! Structures of texts.

use chem_core::{BondKind, Mol};
use mol_finish::{Format, TextFault, structure};
use molfile_read::MolfileFault;
use smiles_read::SmilesFault;
use std::alloc::Global;
use std::test::Fail;

/// A SMILES and its molecule: a character for each atom or bond.
struct Example {
    text: &'static str,
    /// Hydrogens, valence and smallest ring as digits; `a` for an aromatic atom.
    hydrogens: &'static str,
    valence: &'static str,
    small: &'static str,
    aromatic: &'static str,
    /// `-`, `=` or `:`, and `r` for a ring bond.
    kinds: &'static str,
    rings: &'static str,
}

const EXAMPLES: &[Example] = &[
    Example {
        text: "[H]C",
        hydrogens: "4",
        valence: "4",
        small: "0",
        aromatic: ".",
        kinds: "",
        rings: "",
    },
    Example {
        text: "[2H]C",
        hydrogens: "03",
        valence: "14",
        small: "00",
        aromatic: "..",
        kinds: "-",
        rings: ".",
    },
    Example {
        text: "c1ccccc1",
        hydrogens: "111111",
        valence: "444444",
        small: "666666",
        aromatic: "aaaaaa",
        kinds: "::::::",
        rings: "rrrrrr",
    },
    Example {
        text: "C1=CC=CC=C1",
        hydrogens: "111111",
        valence: "444444",
        small: "666666",
        aromatic: "aaaaaa",
        kinds: "::::::",
        rings: "rrrrrr",
    },
    // azulene
    Example {
        text: "c1ccc2cccc2cc1",
        hydrogens: "1110111011",
        valence: "4444444444",
        small: "7775555577",
        aromatic: "aaaaaaaaaa",
        kinds: ":::::::-:::",
        rings: "rrrrrrrrrrr",
    },
    // caffeine
    Example {
        text: "Cn1cnc2c1c(=O)n(C)c(=O)n2C",
        hydrogens: "30100000030003",
        valence: "43434442344234",
        small: "05555560606060",
        aromatic: ".aaaaaa.a.a.a.",
        kinds: "-::::::=:-:=::-",
        rings: ".rrrrrr.r.r.rr.",
    },
];

// The character at a place; a blank past the end.
fn at(text: &str, place: usize) -> u8 {
    text.as_bytes().get(place).copied().unwrap_or(b' ')
}

fn letter(kind: BondKind) -> u8 {
    match kind {
        BondKind::Single => b'-',
        BondKind::Double => b'=',
        BondKind::Triple => b'#',
        BondKind::Quad => b'$',
        BondKind::Aromatic => b':',
    }
}

// True if the molecule's atoms are those of the example.
fn atoms_are(mol: &Mol, example: &Example) -> bool {
    let mut right = mol.atoms().len() == example.hydrogens.len();
    for (place, atom) in mol.atoms().iter().enumerate() {
        let aromatic = if atom.aromatic { b'a' } else { b'.' };
        right = right
            && usize::from(atom.hydrogens) + 48 == usize::from(at(example.hydrogens, place))
            && usize::from(atom.valence) + 48 == usize::from(at(example.valence, place))
            && usize::from(mol.small(place as u16)) + 48 == usize::from(at(example.small, place))
            && aromatic == at(example.aromatic, place);
    }
    right
}

// True if the molecule's bonds are those of the example.
fn bonds_are(mol: &Mol, example: &Example) -> bool {
    let mut right = mol.bonds().len() == example.kinds.len();
    for (place, bond) in mol.bonds().iter().enumerate() {
        let ring = if mol.ring_bond(place as u16) {
            b'r'
        } else {
            b'.'
        };
        right = right
            && letter(bond.kind) == at(example.kinds, place)
            && ring == at(example.rings, place);
    }
    right
}

#[test]
fn examples(rt: HostRuntime) -> Result<(), Fail> {
    for example in EXAMPLES {
        let text = example.text;
        let mol = structure(rt.alloc(), Format::Smiles, text.as_bytes())?;
        let right = (atoms_are(&mol, example), bonds_are(&mol, example));
        assert!(rt; right == (true, true), "the atoms and bonds of {text}");
    }
    Ok(())
}

// True if these are the components of the molecule's atoms.
fn components_are(mol: &Mol, components: &[u16]) -> bool {
    let mut right = mol.atoms().len() == components.len();
    for (place, _) in mol.atoms().iter().enumerate() {
        right = right && components.get(place) == Some(&mol.component(place as u16));
    }
    right
}

// Texts, and the least atom of each atom's component.
const COMPONENTS: &[(&str, &[u16])] = &[
    ("C", &[0]),
    ("CCO", &[0, 0, 0]),
    ("[Na+].[Cl-]", &[0, 1]),
    ("CO.CN.C", &[0, 0, 2, 2, 4]),
    ("C1.O.C1", &[0, 1, 0]),
    ("C1.C2.C3.C12.C3", &[0, 0, 2, 0, 2]),
    ("C(.O)(C)(.N)C1CC1", &[0, 1, 0, 3, 0, 0, 0]),
];

// In whatever order atoms and bonds are written.
#[test]
fn components_are_named_by_their_least_atom(rt: HostRuntime) -> Result<(), Fail> {
    for &(text, components) in COMPONENTS {
        let mol = structure(rt.alloc(), Format::Smiles, text.as_bytes())?;
        assert!(rt;
            components_are(&mol, components),
            "the components of {text}"
        );
    }
    Ok(())
}

// True if each atom is its own component.
fn are_apart(mol: &Mol) -> bool {
    let mut apart = true;
    for (place, _) in mol.atoms().iter().enumerate() {
        apart = apart && usize::from(mol.component(place as u16)) == place;
    }
    apart
}

#[test]
fn a_structure_has_three_hundred_components(rt: HostRuntime) -> Result<(), Fail> {
    let others = ".C".repeat(rt.alloc(), 299)?;
    let text = format!(in rt.alloc(); "C{others}")?;
    let mol = structure(rt.alloc(), Format::Smiles, text.as_bytes())?;
    assert!(rt; (mol.atoms().len(), are_apart(&mol)) == (300, true));
    Ok(())
}

// True if two texts have the same atoms and bonds.
fn are_alike(
    alloc: Global,
    first: (Format, &str),
    second: (Format, &str),
) -> Result<bool, TextFault> {
    let first = structure(alloc, first.0, first.1.as_bytes())?;
    let second = structure(alloc, second.0, second.1.as_bytes())?;
    Ok(first.atoms() == second.atoms() && first.bonds() == second.bonds())
}

// Two texts of one structure.
const ALIKE: &[((Format, &str), (Format, &str))] = &[
    (
        (Format::Smiles, "C1=CC=CC=C1"),
        (Format::Smiles, "c1ccccc1"),
    ),
    ((Format::Molfile, ACETATE), (Format::Smiles, "CC(=O)[O-]")),
];

#[test]
fn texts_of_one_structure(rt: HostRuntime) -> Result<(), Fail> {
    for &(first, second) in ALIKE {
        assert!(rt; are_alike(rt.alloc(), first, second)?, "{}", second.1);
    }
    Ok(())
}

// Texts, and why each has no structure.
const REFUSALS: &[(Format, &str, TextFault)] = &[
    (
        Format::Smiles,
        "c1cccc1",
        TextFault::Smiles(SmilesFault::Aromatic(0)),
    ),
    (
        Format::Smiles,
        "[H]c1cccc1",
        TextFault::Smiles(SmilesFault::Aromatic(1)),
    ),
    (Format::Smiles, "C(", TextFault::Smiles(SmilesFault::Syntax)),
    (Format::Molfile, "C", TextFault::Molfile(MolfileFault::Cut)),
];

fn fault_of(alloc: Global, format: Format, text: &str) -> Option<TextFault> {
    structure(alloc, format, text.as_bytes()).err()
}

#[test]
fn refusals(rt: HostRuntime) {
    for &(format, text, want) in REFUSALS {
        let fault = fault_of(rt.alloc(), format, text);
        assert!(rt; fault == Some(want), "at {text}");
    }
}

const ACETATE: &str = "acetate


  4  3  0  0  0  0  0  0  0  0999 V2000
    0.0000    0.0000    0.0000 C   0  0  0  0  0  0
    1.5000    0.0000    0.0000 C   0  0  0  0  0  0
    2.2000    1.2000    0.0000 O   0  0  0  0  0  0
    2.2000   -1.2000    0.0000 O   0  5  0  0  0  0
  1  2  1  0
  2  3  2  0
  2  4  1  0
M  END
";
