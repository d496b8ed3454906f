//! Worked examples, by hand.
ghost use Rattle.std.specs.Prelude.{◌≤◌, ℕ, IfOk, OnOk};
ghost use Rattle.std.specs.Bool.{OnFalse};
ghost use Rattle.chem_core.specs.Graph.{JoinsAt, IsSimpleGraph};
ghost use Rattle.chem_core.specs.Sound.{IsSound, ends_among};
ghost use Rattle.chem_core.specs.declared.limits.TheConstants.{MOST_ATOMS};

use chem_core::{Fill, MOST_ATOMS, MOST_NEIGHBOURS, Sketch, SketchAtom, SketchBond, SketchKind};
use ring_find::{Rings, rings};
use std::alloc::{AllocError, Global};

const CARBON: SketchAtom = SketchAtom {
    number: 6,
    isotope: 0,
    charge: 0,
    lower: false,
    fill: Fill::Organic,
    hydrogens: 0,
    written: 0,
};

/// A graph, and its rings: a letter for each bond, `r` for a ring bond, and a digit for each atom.
struct Example {
    name: &'static str,
    bonds: &'static [(u16, u16)],
    in_ring: &'static str,
    small: &'static str,
}

const EXAMPLES: &[Example] = &[
    Example {
        name: "no atoms",
        bonds: &[],
        in_ring: "",
        small: "",
    },
    Example {
        name: "a chain",
        bonds: &[(0, 1), (1, 2), (2, 3)],
        in_ring: "...",
        small: "0000",
    },
    Example {
        name: "a triangle",
        bonds: &[(0, 1), (1, 2), (0, 2)],
        in_ring: "rrr",
        small: "333",
    },
    Example {
        name: "a square with a tail",
        bonds: &[(0, 1), (1, 2), (2, 3), (3, 4), (4, 5), (2, 5)],
        in_ring: "..rrrr",
        small: "004444",
    },
    Example {
        name: "a triangle and a square, joined by a bond",
        bonds: &[
            (0, 1),
            (1, 2),
            (0, 2),
            (2, 3),
            (3, 4),
            (4, 5),
            (5, 6),
            (3, 6),
        ],
        in_ring: "rrr.rrrr",
        small: "3334444",
    },
    Example {
        name: "naphthalene",
        bonds: &[
            (0, 1),
            (1, 2),
            (2, 3),
            (3, 4),
            (4, 5),
            (5, 6),
            (6, 7),
            (7, 8),
            (8, 9),
            (3, 8),
            (0, 9),
        ],
        in_ring: "rrrrrrrrrrr",
        small: "6666666666",
    },
    Example {
        name: "azulene, c1ccc2cccc2cc1",
        bonds: &[
            (0, 1),
            (1, 2),
            (2, 3),
            (3, 4),
            (4, 5),
            (5, 6),
            (6, 7),
            (3, 7),
            (7, 8),
            (8, 9),
            (0, 9),
        ],
        in_ring: "rrrrrrrrrrr",
        small: "7775555577",
    },
    Example {
        name: "cubane",
        bonds: &[
            (0, 1),
            (1, 2),
            (2, 3),
            (0, 3),
            (4, 5),
            (5, 6),
            (6, 7),
            (4, 7),
            (0, 4),
            (1, 5),
            (2, 6),
            (3, 7),
        ],
        in_ring: "rrrrrrrrrrrr",
        small: "44444444",
    },
    Example {
        name: "a triangle and a square that share an atom",
        bonds: &[(0, 1), (1, 2), (0, 2), (2, 3), (3, 4), (4, 5), (2, 5)],
        in_ring: "rrrrrrr",
        small: "333444",
    },
    Example {
        name: "four atoms, each joined to each",
        bonds: &[(0, 1), (0, 2), (0, 3), (1, 2), (1, 3), (2, 3)],
        in_ring: "rrrrrr",
        small: "3333",
    },
    Example {
        name: "a pair and a triangle, apart",
        bonds: &[(0, 1), (2, 3), (3, 4), (2, 4)],
        in_ring: ".rrr",
        small: "00333",
    },
    Example {
        name: "a star, and an atom alone",
        bonds: &[(0, 1), (0, 2), (0, 3)],
        in_ring: "...",
        small: "00000",
    },
];

// A sketch of carbons with these bonds, which leaves out a bond that a simple graph cannot have.
fn sketch_of(alloc: Global, atoms: usize, bonds: &[(u16, u16)]) -> Result<Sketch, AllocError>
    requires { atoms ≤ MOST_ATOMS }
    ensures { IfOk result (λ sketch. IsSound sketch) }
{
    let mut put = Vec::new(alloc);
    for (a, b) in bonds {
        add(&mut put, atoms, *a, *b)?;
    }
    Ok(Sketch {
        atoms: vec![in alloc; CARBON; atoms]?,
        bonds: put,
    })
}

fn add(bonds: &mut Vec<SketchBond>, atoms: usize, a: u16, b: u16) -> Result<(), AllocError>
    requires { IsSimpleGraph atoms (ends_among bonds.old.items) }
    ensures { OnOk result (IsSimpleGraph atoms (ends_among bonds.new.items)) }
{
    if usize::from(a) >= atoms
        || usize::from(b) >= atoms
        || a == b
        || bonds.len() >= MOST_NEIGHBOURS
        || is_joined(bonds, a, b)
    {
        return Ok(());
    }
    bonds.push(SketchBond {
        a,
        b,
        kind: SketchKind::Unwritten,
    })?;
    Ok(())
}

fn is_joined(bonds: &[SketchBond], a: u16, b: u16) -> bool
    ensures { OnFalse result ((c : ℕ) → JoinsAt (ends_among bonds.now) c a b → ⊥) }
{
    for bond in bonds {
        if (bond.a == a && bond.b == b) || (bond.a == b && bond.b == a) {
            return true;
        }
    }
    false
}

// The byte at a place; a blank past the end.
fn at(text: &str, place: usize) -> u8 {
    text.as_bytes().get(place).copied().unwrap_or(b' ')
}

// True if these are the ring bonds and the smallest rings of the example.
fn are_rings(found: &Rings, example: &Example) -> bool {
    let mut right = found.bond_in_ring.len() == example.in_ring.len()
        && found.atom_small.len() == example.small.len();
    for (place, flag) in found.bond_in_ring.iter().enumerate() {
        let letter = if *flag { b'r' } else { b'.' };
        right = right && letter == at(example.in_ring, place);
    }
    for (place, length) in found.atom_small.iter().enumerate() {
        right = right && usize::from(*length) + 48 == usize::from(at(example.small, place));
    }
    right
}

// True if the rings of the example's graph are as given, and it has no more atoms than a sketch may have.
fn holds(alloc: Global, example: &Example) -> Result<bool, AllocError> {
    let atoms = example.small.len();
    if atoms > MOST_ATOMS {
        return Ok(false);
    }
    let sketch = sketch_of(alloc, atoms, example.bonds)?;
    let found = rings(alloc, &sketch)?;
    Ok(are_rings(&found, example))
}

#[test]
fn examples(rt: HostRuntime) -> Result<(), AllocError> {
    for example in EXAMPLES {
        assert!(&rt; holds(rt.alloc(), example)?, "{}", example.name);
    }
    Ok(())
}
