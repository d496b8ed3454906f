//! The number of atoms of a Hückel cycle.

/// At least.
pub const SHORTEST: usize = 3;

/// At most.
pub const LONGEST: usize = 18;
