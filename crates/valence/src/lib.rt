//! Hydrogens that are not written (OpenSMILES 1.0, sections 3.1.5 and 3.5), and hydrogen atoms that become counts.
#![tactic(auto)]

mod atom_lists;
mod fill;
mod laws;
mod suppression;
mod table;

pub use fill::fill_hydrogens;
pub use laws::{order_stays, sound_stays, twice_is_once};
pub use suppression::suppress;
