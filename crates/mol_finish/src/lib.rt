//! The structure of a text: reading, hydrogens, suppression, rings, aromaticity.
#![tactic(auto)]

mod answer;
mod components;
mod fault;
mod laws;
mod molecule;

pub use answer::{one_answer, one_structure, structure, structure_in};
pub use fault::{Format, TextFault};
pub use laws::structures_are_molecules;
