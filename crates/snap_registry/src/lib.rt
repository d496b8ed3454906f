//! The pinned versions of a store: at most 64 pins (read snapshots), each with a slot of its own. A registry is the
//! list of its pins, oldest first, and takes no memory.
//!
//! The slots are in one array, those of the pins first and the free ones after them, so a free slot is at hand.
#![tactic(auto)]

ghost use Rattle.std.specs.Prelude.{◌≡◌, ◌<◌, ◌≤◌, [], ◌∷◌, ◌++◌, Contains, MatchOption, filter, length, map, slice_index};
ghost use Rattle.snap_registry.specs.Pins.{IsFree, is_other};

use std::marker::Model;

/// The most pins that are held at once.
pub const MOST_PINS: usize = 64;

/// A pin that is held: its slot, below 64, and the version that it keeps.
#[derive(Clone, Copy, Debug, PartialEq, Eq)]
pub struct Pin {
    pub slot: u32,
    pub version: u32,
}

/// The pins that are held. Contracts see the list of them, oldest first.
#[derive(Drop)]
pub struct Registry {
    slots: [u32; MOST_PINS],
    versions: [u32; MOST_PINS],
    held: usize,
}

impl Model for Registry {
    ghost use Rattle.std.specs.Prelude.{◌≡◌, ◌≤◌, List, length, take};
    ghost use Rattle.snap_registry.specs.Pins.{AreSlots, pins_of};
    ghost use Rattle.snap_registry.specs.declared.Pin.{Pin};

    ghost Value = { List Pin };

    ghost view = { λ r. pins_of (take r.held r.slots) (take r.held r.versions) };

    ghost invariant = { λ r. (r.held ≤ 64) × AreSlots r.slots × (length r.versions ≡ 64) };
}

impl Registry {
    /// Without pins.
    pub fn new() -> Registry
        ensures { result ≡ [] }
    {
        let mut slots = [0u32; MOST_PINS];
        for slot in 0..MOST_PINS {
            slots[slot] = slot as u32;
        }
        Registry {
            slots,
            versions: [0; MOST_PINS],
            held: 0,
        }
    }

    /// Pins a version, in some free slot. `None` exactly if 64 pins are held; then nothing changes.
    pub fn pin(&mut self, version: u32) -> Option<Pin>
        ensures pinned { MatchOption result (self.new ≡ self.old) (λ p. (p.version ≡ version)
            × (self.new ≡ self.old ++ p ∷ [])) }
        ensures none { MatchOption result (length self.old ≡ MOST_PINS) (λ _. length self.old < MOST_PINS) }
        ensures free { MatchOption result Unit (λ p. (p.slot < MOST_PINS) × IsFree p.slot self.old) }
    {
        if self.held == MOST_PINS {
            return None;
        }
        let slot = self.slots[self.held];
        self.versions[self.held] = version;
        self.held += 1;
        Some(Pin { slot, version })
    }

    /// Gives a pin back. The others stay, in their order.
    pub fn unpin(&mut self, pin: Pin)
        requires held { Contains self.old pin }
        ensures { self.new ≡ filter (is_other pin.slot) self.old }
    {
        let place = place_of(pin.slot, &self.slots[..self.held]);
        self.slots[place..self.held].rotate_left(1);
        self.versions[place..self.held].rotate_left(1);
        self.held -= 1;
    }

    /// The pinned versions, one for each pin, in the order of the pins.
    pub fn live(&self) -> &[u32]
        ensures versions { result.now ≡ map (λ p. p.version) self.now }
        ensures few { length self.now ≤ MOST_PINS }
    {
        &self.versions[..self.held]
    }
}

// The place of a slot.
fn place_of(slot: u32, slots: &[u32]) -> usize
    requires { Contains slots.now slot }
    ensures within { result < length slots.now }
    ensures place { slice_index slots.now result ≡ slot }
{
    for (place, held) in slots.iter().enumerate() {
        if *held == slot {
            return place;
        }
    }
    0
}
