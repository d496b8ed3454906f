//! The truth of a SMARTS expression at an atom or a bond of a molecule (Daylight Theory Manual, chapter SMARTS,
//! sections 4.1 to 4.3).
//!
//! Recursive parts are not searched here: a table has the atoms at which each one holds.
#![tactic(auto)]

mod atom;
mod bond;
mod count;
mod table;

pub use atom::{atom_true, prim_true};
pub use bond::bond_true;
pub use table::{MOST_PARTS, RecTable};
