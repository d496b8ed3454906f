//! Atoms, prints and elements, worked by hand.
use crate::tests::{CARBON, alone};
use chem_core::{Atom, Print, number_of, symbol_of};
use std::test::Fail;

const METHANE: &[Atom] = &[CARBON];

// Methane: one atom, no bond.
#[test]
fn methane(rt: HostRuntime) -> Result<(), Fail> {
    let mol = alone(rt.alloc(), CARBON)?;
    let at_atom = (mol.neighbours(0).len(), mol.small(0), mol.component(0));
    assert!(rt; mol.atoms() == METHANE && mol.bonds().is_empty() && at_atom == (0, 0, 0));
    Ok(())
}

// For each bit, true if it is set in a print of the bits 63 and 1023.
const BITS: &[(u16, bool)] = &[
    (0, false),
    (62, false),
    (63, true),
    (64, false),
    (1023, true),
    (1024, false),
];

// A print of the bits 63 and 1023.
fn two_bits() -> Print {
    let mut two = Print::empty();
    two.set(63);
    two.set(1023);
    two
}

#[test]
fn bits_that_are_set_are_had(rt: HostRuntime) {
    let two = two_bits();
    for &(bit, want) in BITS {
        assert!(rt; two.has(bit) == want, "at {bit}");
    }
}

// True if the second print holds the first and itself, and the third the second. Then true if the first holds the
// second, or the second the third. Then the number of bits of each.
fn compared(first: &Print, second: &Print, third: &Print) -> (bool, bool, (u32, u32, u32)) {
    (
        second.holds(first) && third.holds(second) && second.holds(second),
        first.holds(second) || second.holds(third),
        (first.count(), second.count(), third.count()),
    )
}

#[test]
fn prints(rt: HostRuntime) {
    let two = two_bits();
    let mut three = two_bits();
    three.set(64);
    three.set(63);
    three.set(64);
    let ordered = compared(&Print::empty(), &two, &three);
    let mut four = Print::empty();
    four.set(0);
    four.set(64);
    let shared = (four.count_shared(&three), four.count_shared(&two));
    four.unite(&two);
    let united = four.holds(&two) && four.has(0) && four.has(64) && four.count() == 4;
    assert!(rt; ordered == (true, false, (0, 2, 3)) && shared == (1, 0) && united);
}

// Symbols and their numbers.
const ELEMENTS: &[(&str, u8)] = &[
    ("*", 0),
    ("H", 1),
    ("C", 6),
    ("Cl", 17),
    ("Fe", 26),
    ("Br", 35),
    ("I", 53),
    ("W", 74),
    ("Lr", 103),
];

// Texts that are no symbol.
const NO_SYMBOLS: &[&str] = &["", "cl", "CL", "Uuo", "Q", "Cl "];

#[test]
fn elements(rt: HostRuntime) {
    for &(symbol, number) in ELEMENTS {
        assert!(rt;
            number_of(symbol.as_bytes()) == Some(number) && symbol_of(number) == Some(symbol),
            "at {symbol}"
        );
    }
    for &text in NO_SYMBOLS {
        assert!(rt; number_of(text.as_bytes()).is_none(), "at {text}");
    }
    assert!(rt; symbol_of(104).is_none());
}
