//! The facts about the rings of a sketch.

/// Ring facts of a sketch.
#[derive(Debug, Drop)]
pub struct Rings {
    /// For each bond, by its place, true if it is a ring bond.
    pub bond_in_ring: Vec<bool>,
    /// For each atom, by its place, the number of atoms of its smallest ring; 0 if it is in no ring.
    pub atom_small: Vec<u16>,
}
