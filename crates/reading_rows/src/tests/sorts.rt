//! How many atoms and bonds of each sort structures have.

use mol_finish::{Format, structure};
use std::test::Fail;

/// A SMILES and its counts.
struct Example {
    text: &'static str,
    /// Aromatic carbons, other carbons, nitrogens, halogens, and atoms of other elements but oxygen and sulfur.
    atoms: [u8; 8],
    /// Bonds between carbons that are not aromatic, double ones, aromatic ones, single ones between aromatic atoms, and
    /// double ones at an oxygen.
    bonds: [u8; 8],
}

const EXAMPLES: &[Example] = &[
    Example {
        text: "OS",
        atoms: [0, 0, 0, 0, 0, 0, 0, 0],
        bonds: [0, 0, 0, 0, 0, 0, 0, 0],
    },
    Example {
        text: "c1ccccc1-c1ccncc1",
        atoms: [11, 0, 1, 0, 0, 0, 0, 0],
        bonds: [0, 0, 12, 1, 0, 0, 0, 0],
    },
    Example {
        text: "CC(=O)NC(F)(Cl)Br",
        atoms: [0, 3, 1, 3, 0, 0, 0, 0],
        bonds: [1, 1, 0, 0, 1, 0, 0, 0],
    },
    Example {
        text: "C=CC#CP",
        atoms: [0, 4, 0, 0, 1, 0, 0, 0],
        bonds: [1, 1, 0, 0, 0, 0, 0, 0],
    },
];

#[test]
fn examples(rt: HostRuntime) -> Result<(), Fail> {
    for example in EXAMPLES {
        let text = example.text;
        let mol = structure(rt.alloc(), Format::Smiles, text.as_bytes())?;
        let counts = mol.counts();
        let right = (counts.atoms == example.atoms, counts.bonds == example.bonds);
        assert!(rt; right == (true, true), "the atoms and bonds of {text}");
    }
    Ok(())
}

// No count is more than 255.
#[test]
fn a_chain_of_300_carbons(rt: HostRuntime) -> Result<(), Fail> {
    let mut text = Vec::new(rt.alloc());
    for _ in 0..300 {
        text.push(b'C')?;
    }
    let mol = structure(rt.alloc(), Format::Smiles, &text)?;
    let counts = mol.counts();
    assert!(rt; counts.atoms == [0, 255, 0, 0, 0, 0, 0, 0]);
    assert!(rt; counts.bonds == [255, 0, 0, 0, 0, 0, 0, 0]);
    Ok(())
}
