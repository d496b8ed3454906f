//! One atom beside another.

use crate::tests::{CARBON, alone};
use chem_core::{Atom, Mol};
use exact_find::{SameScratch, key_of, same};
use std::test::Fail;

const SILICON: Atom = Atom {
    number: 14,
    ..CARBON
};

// True if the first is the first, the first the second, and the second the second; and the sum of the first's key.
fn compared(first: &Mol, second: &Mol, scratch: &mut SameScratch) -> (bool, bool, bool, u64) {
    (
        same(first, first, scratch),
        same(first, second, scratch),
        same(second, second, scratch),
        key_of(first).sum,
    )
}

#[test]
fn methane_and_silane(rt: HostRuntime) -> Result<(), Fail> {
    let mut scratch = SameScratch::reserve(rt.alloc())?;
    let methane = alone(rt.alloc(), CARBON)?;
    let silane = alone(rt.alloc(), SILICON)?;
    let sum = 13 * 2 * (256 * (31 * 6000 + 15) + 4);
    assert!(rt; compared(&methane, &silane, &mut scratch) == (true, false, true, sum));
    Ok(())
}
