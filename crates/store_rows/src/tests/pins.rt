//! Pins and their order, worked by hand.

use snap_registry::{MOST_PINS, Registry};
use std::test::Fail;

#[test]
fn a_slot_that_was_given_back_is_free_again(rt: HostRuntime) -> Result<(), Fail> {
    let mut registry = Registry::new();
    let (Some(first), Some(second)) = (registry.pin(3), registry.pin(5)) else {
        return Err(Fail::new("no pin"));
    };
    assert!(rt; first.slot != second.slot);
    registry.unpin(first);
    assert_eq!(rt; registry.live(), [5].as_slice());
    assert!(rt; registry.pin(8).is_some());
    assert_eq!(rt; registry.live(), [5, 8].as_slice());
    Ok(())
}

#[test]
fn sixty_four_pins_are_held_at_once(rt: HostRuntime) {
    let mut registry = Registry::new();
    for version in 0..64u32 {
        assert!(rt; registry.pin(version).is_some());
    }
    assert!(rt; registry.pin(9).is_none());
    assert_eq!(rt; registry.live().len(), MOST_PINS);
}
