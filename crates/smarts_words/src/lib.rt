//! The pieces of a SMARTS pattern between its ring numbers, branches and dots: atoms and bond expressions (Daylight
//! Theory Manual, chapter SMARTS).
//!
//! Atoms are symbols and brackets, which hold their recursive parts as texts, and bonds are expressions. Both are read
//! as steps in postfix order, which give the spelling, not yet the meaning. `smarts_apart` in the proofs shows that the
//! walk can read them.
#![tactic(auto)]

mod atom;
mod bond;
mod bracket;
mod inside;
mod number;
mod postfix;
mod prim;
mod stereo;
mod symbol;
mod value;
mod word;

pub use atom::atom_at;
pub use bond::{agree, bond_at};
pub use value::{PatternAtom, PatternBond};
pub use word::{AtomWord, BondWord, Letter, Step};
