//! SMILES, read into sketches (OpenSMILES 1.0; Daylight Theory Manual, chapter SMILES).
//!
//! Runs, branches, dots and ring numbers are read by `line_walk`, atoms and bond symbols by `smiles_words`. The tree of
//! a text is in the contracts alone: code reads a text from left to right, and keeps atoms and bonds.
#![tactic(auto)]

mod fault;
mod laws;
mod limits;
mod notation;
mod read;
mod sketch;

pub use fault::SmilesFault;
pub use laws::readings_are_sound;
pub use read::{one_reading, one_tree, read_smiles, read_smiles_in};
