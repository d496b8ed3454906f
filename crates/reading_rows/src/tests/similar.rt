//! Hits by hand: a fraction that does not pass, a tie, a cut, and offers that may be left out.
use chem_core::Print;
use similar_find::{Best, most_alike, score};
use std::test::Fail;

// Identifiers with bits in both prints and in at least one.
const ONE: (u32, u32, u32) = (1, 6, 10);

const TWO: (u32, u32, u32) = (2, 6, 6);

const THREE: (u32, u32, u32) = (3, 2, 6);

const FOUR: (u32, u32, u32) = (4, 6, 6);

#[test]
fn half_and_more(rt: HostRuntime) -> Result<(), Fail> {
    let mut best = Best::reserve(rt.alloc(), 1, 2, 10)?;
    best.offer(ONE.0, ONE.1, ONE.2);
    best.offer(TWO.0, TWO.1, TWO.2);
    best.offer(THREE.0, THREE.1, THREE.2);
    assert_eq!(rt; best.list(), [TWO, ONE].as_slice());
    Ok(())
}

#[test]
fn tie_and_cut(rt: HostRuntime) -> Result<(), Fail> {
    let mut best = Best::reserve(rt.alloc(), 0, 1, 2)?;
    best.offer(FOUR.0, FOUR.1, FOUR.2);
    best.offer(THREE.0, THREE.1, THREE.2);
    best.offer(TWO.0, TWO.1, TWO.2);
    best.offer(ONE.0, ONE.1, ONE.2);
    assert_eq!(rt; best.list(), [TWO, FOUR].as_slice());
    Ok(())
}

const KEPT: &[(u32, u32, u32)] = &[TWO, (3, 5, 5)];

#[test]
fn what_no_offer_changes(rt: HostRuntime) -> Result<(), Fail> {
    let mut best = Best::reserve(rt.alloc(), 1, 2, 2)?;
    let of_none = (best.may_take(5, 3, 6), best.may_take(5, 3, 7));
    best.offer(TWO.0, TWO.1, TWO.2);
    best.offer(FOUR.0, FOUR.1, FOUR.2);
    let of_two = (
        best.may_take(3, 5, 5),
        best.may_take(5, 5, 5),
        best.may_take(3, 5, 6),
    );
    best.offer(3, 5, 5);
    assert!(rt; of_none == (true, false) && of_two == (true, false, false) && best.list() == KEPT);
    Ok(())
}

#[test]
fn how_alike_prints_can_be(rt: HostRuntime) {
    for (left, right, most) in [
        (2, 3, (2, 3)),
        (3, 2, (2, 3)),
        (0, 3, (0, 3)),
        (0, 0, (0, 1)),
    ] {
        assert_eq!(rt; most_alike(left, right), most);
    }
}

#[test]
fn bits_of_two_prints(rt: HostRuntime) {
    let mut left = Print::empty();
    left.set(0);
    left.set(63);
    left.set(1023);
    let mut right = Print::empty();
    right.set(63);
    right.set(64);
    assert_eq!(rt; score(&left, left.count(), &right, right.count()), (1, 4));
    assert_eq!(rt; score(&left, left.count(), &left, left.count()), (3, 3));
}
