//! Worked tables of readings: atoms, SMILES, molfiles, patterns, structures and their rings; and of tests of these:
//! primitives, prints, likeness.
#![tactic(auto)]

#[cfg(test)]
mod tests;
