//! Molfiles, read into sketches (CTfile formats, version V2000).
//!
//! Each field is certain columns of its line. The lines are read once, in order, and the first fault is returned.
#![tactic(auto)]

mod atom;
mod bond;
mod counts;
mod fault;
mod field;
mod finish;
mod laws;
mod lines;
mod property;
mod read;
mod setting;
mod symbol;

pub use fault::MolfileFault;
pub use laws::readings_are_sound;
pub use read::{one_reading, read_molfile, read_molfile_in};
