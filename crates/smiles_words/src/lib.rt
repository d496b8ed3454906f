//! The words of SMILES: its atoms and bond symbols, their readers, and when the bonds of two ring numbers agree
//! (OpenSMILES 1.0).
//!
//! Digits and symbols of one letter are read alike in SMARTS, so their readers are public. `smiles_apart` in the proofs
//! shows that the walk can read the language.
#![tactic(auto)]

mod atom;
mod bond;
mod bracket;
mod digit;
mod symbol;

pub use atom::{atom_at, organic_number};
pub use bond::{agreed, bond_at};
pub use digit::{digits_at, digits_value, is_digit};
pub use symbol::lower_letter_number;
